ghost use Rattle.std.specs.Prelude.{◌≡◌, length};
ghost use Rattle.sig_base.specs.Times.{IsCycle};
ghost use Rattle.constraint_cycles.specs.Edge.{AreNeeds};
ghost use Rattle.constraint_cycles.specs.StartsLaws.{AgreeOnGroups};
ghost use Rattle.least_greens.specs.ForTarget.{needs_of};
ghost use Rattle.least_greens.specs.NeedRule.{rule_junction, rule_lanes};

use least_greens::{NeedClosure, NeedRule, needs_law};
use sig_base::Target;

/// The need of each group for a target at a cycle, in seconds, and 1 past the last group.
pub fn needs<'j, F: Fn(Target, u32, usize) -> u32 + NeedClosure>(
    rule: &NeedRule<'j, F>,
    target: Target,
    cycle: u32,
) -> [u32; 16]
    requires { IsCycle cycle }
    ensures value { AgreeOnGroups (rule_junction rule.now).conflicts result
        (needs_of (rule_junction rule.now) (rule_lanes rule.now) target cycle) }
    ensures range { AreNeeds (rule_junction rule.now).conflicts result }
    ensures long { length result ≡ 16 }
{
    needs_law();
    let junction = rule.junction();
    junction.rules();
    let mut needs = [1; 16];
    for group in 0..junction.groups().len() {
        needs[group] = rule.ask(target, cycle, group);
    }
    needs
}
