use certificate_checker::Rule;
use plan_model::PlanFault;
use std::test::Fail;

const RULES: [(Rule, u32, &str); 10] = [
    (Rule::Plan, 1, "plan"),
    (Rule::Fit(PlanFault::CycleLimit), 2, "fit"),
    (Rule::Least, 3, "least"),
    (Rule::Cycles, 4, "cycles"),
    (Rule::Tree, 5, "tree"),
    (Rule::Pair, 6, "pair"),
    (Rule::Unvisited, 7, "unvisited"),
    (Rule::Edge, 8, "edge"),
    (Rule::Sum, 9, "sum"),
    (Rule::Budget, 10, "budget"),
];

#[test]
fn numbers_and_words(rt: HostRuntime) -> Result<(), Fail> {
    for (rule, number, word) in RULES {
        assert!(rt; rule.number() == number && rule.word() == word);
    }
    Ok(())
}
