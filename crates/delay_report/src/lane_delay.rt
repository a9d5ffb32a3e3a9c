ghost use Rattle.std.specs.Prelude.{◌≡◌, ◌≤◌, ◌↔◌, IsNone, IfSome};
ghost use Rattle.sig_base.specs.Fraction.{IsSameFraction};
ghost use Rattle.sig_base.specs.Times.{IsCycle};
ghost use Rattle.flow_model.specs.Lane.{AreFlows};
ghost use Rattle.delay_report.specs.Delay.{IsSaturated, IsUnsaturated, plus, uniform_delay, random_delay, delay_of};
ghost use Rattle.delay_report.specs.Term.{fraction_of_term};
ghost use Rattle.delay_report.specs.WideRatio.{wide_fraction_of};

use crate::term::Term;
use crate::wide_ratio::WideRatio;
use flow_model::Lane;

/// What a lane with regular arrivals waits for: the red.
fn uniform(lane: &Lane, effective: u32, cycle: u32) -> Term
    requires { IsUnsaturated lane.now effective cycle }
    ensures { fraction_of_term result ≡ uniform_delay lane.now effective cycle }
{
    let red = u128::from(cycle - effective);
    let spare = u128::from(lane.saturation - lane.arrival);
    Term {
        num: 9 * (red * red) * u128::from(lane.saturation),
        den: 20 * u128::from(cycle) * spare,
    }
}

/// What random arrivals add: the queues that a green leaves.
fn random(lane: &Lane, effective: u32, cycle: u32) -> Term
    requires { IsUnsaturated lane.now effective cycle }
    ensures { fraction_of_term result ≡ random_delay lane.now effective cycle }
{
    let cycle = u128::from(cycle);
    let arriving = u128::from(lane.arrival) * cycle;
    let leaving = u128::from(lane.saturation) * u128::from(effective);
    Term {
        num: 1620 * (arriving * cycle),
        den: leaving * (leaving - arriving),
    }
}

/// The sum of two terms, in lowest terms.
fn sum(a: Term, b: Term) -> WideRatio
    ensures { IsSameFraction (wide_fraction_of result)
        (plus (fraction_of_term a) (fraction_of_term b)) }
{
    WideRatio::new(a.num * b.den + b.num * a.den, a.den * b.den)
}

/// The mean delay in seconds per vehicle under an effective green in seconds, by Webster (1958): nine
/// tenths of the sum of a uniform and a random term. `None` exactly where the lane is saturated: at
/// least as much arrives in a cycle as can leave in it.
pub fn delay(lane: &Lane, effective: u32, cycle: u32) -> Option<WideRatio>
    requires flows { AreFlows lane.now }
    requires some { 1 ≤ effective }
    requires within { effective ≤ cycle }
    requires cycle { IsCycle cycle }
    ensures none { IsNone result ↔ IsSaturated lane.now effective cycle }
    ensures value { IfSome result (λ r.
        IsSameFraction (wide_fraction_of r) (delay_of lane.now effective cycle)) }
{
    let arriving = u64::from(lane.arrival) * u64::from(cycle);
    let leaving = u64::from(lane.saturation) * u64::from(effective);
    if leaving <= arriving {
        return None;
    }
    Some(sum(
        uniform(lane, effective, cycle),
        random(lane, effective, cycle),
    ))
}
