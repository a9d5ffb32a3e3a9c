ghost use Rattle.std.specs.Prelude.{◌≡◌, ◌≤◌, IfOk, Some, ℕ, slice_get};
ghost use Rattle.sig_base.specs.Ratio.{fraction_of};
ghost use Rattle.conflict_matrix.specs.Pairs.{tree_cover_of};
ghost use Rattle.junction_model.specs.Narrowed.{narrowed};
ghost use Rattle.plan_certificate.specs.Certificate.{certificate_of};
ghost use Rattle.plan_design.specs.Design.{IsDesign};
ghost use Rattle.plan_design.specs.declared.objective.Objective.TheVariants.{Capacity};
ghost use Rattle.cycle_curve.specs.Curve.{zero, IsTrueCurve, EachRow, IsDesignedRow, RowHolds, NoneStopped};

use crate::laws::curve_law;
use crate::row::{CurveRow, CurveRows};
use junction_model::Junction;
use plan_certificate::Certificate;
use plan_design::{Objective, design};
use sig_base::{NoMemory, Ratio};
use std::alloc::Global;

/// The multiple that every plan meets that fits.
fn zero() -> Ratio
    ensures { fraction_of result ≡ zero }
{
    match Ratio::in_lowest_terms(0, 1) {
        Some(zero) => zero,
        None => unreachable!(),
    }
}

/// The design for the junction with one cycle alone.
fn certificate_at(
    alloc: Global,
    junction: &Junction,
    cycle: u32,
    least: Ratio,
    budget: u64,
) -> Result<Certificate, NoMemory>
    requires from { junction.now.least_cycle ≤ cycle }
    requires to { cycle ≤ junction.now.greatest_cycle }
    requires least { fraction_of least ≡ zero }
    requires budget { 1 ≤ budget }
    ensures { IfOk result (λ c. IsDesign (narrowed junction.now cycle) Capacity least budget
        (certificate_of c)) }
{
    let narrowed = junction.narrow(alloc, cycle)?;
    let designed = design(alloc, &narrowed, Objective::Capacity, least, budget)?;
    Ok(designed.certificate)
}

/// A row for each cycle, upwards: the certificate of a plan of the greatest multiplier of that cycle
/// alone, or that no plan of the cycle fits, or of a search that was stopped. Each search may visit
/// as many nodes as the budget, whatever the others visited, and is stopped only where the budget is
/// below the number of nodes that the tree of one cycle can have.
pub fn curve(alloc: Global, junction: &Junction, budget: u64) -> Result<CurveRows, NoMemory>
    requires { 1 ≤ budget }
    ensures curve { IfOk result (λ rows. IsTrueCurve junction.now rows) }
    ensures designed { IfOk result (λ rows.
        EachRow (IsDesignedRow junction.now budget) rows) }
    ensures holds { IfOk result (λ rows. EachRow (RowHolds junction.now) rows) }
    ensures covered { tree_cover_of junction.now.conflicts ≤ budget →
        IfOk result (λ rows. NoneStopped rows) }
{
    curve_law();
    junction.rules();
    let least = zero();
    let mut rows = CurveRows::new(alloc);
    for cycle in junction.least_cycle()..junction.greatest_cycle() + 1 {
        let certificate = certificate_at(alloc, junction, cycle, least, budget)?;
        rows.push(CurveRow { cycle, certificate })?;
    }
    Ok(rows)
}
