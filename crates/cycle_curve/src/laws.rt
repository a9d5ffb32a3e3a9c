//! What is true of all curves. These functions do nothing: each is the place where its laws are
//! proved.
ghost use Rattle.cycle_curve.specs.Laws.{NarrowedPlansLaw, RowLaw, CurveLaw, AcceptedLaw, OneJudgementLaw};

use certificate_checker::{proof_law, rules_law};
use plan_certificate::text_laws;

/// The plans of a junction with one cycle alone are its plans of that cycle; so what a certificate
/// proves for that junction is true of all plans of the cycle. No row of a true curve is at fault.
pub fn curve_law()
    ensures plans { NarrowedPlansLaw }
    ensures row { RowLaw }
    ensures curve { CurveLaw }
    ensures accepted { AcceptedLaw }
{
    proof_law();
    rules_law();
}

/// Bytes have one verdict or one fault for a junction. So each answer of `check_curve` comes wherever
/// it is what is found of the bytes, but for want of memory.
pub fn one_judgement_law()
    ensures { OneJudgementLaw }
{
    text_laws();
}
