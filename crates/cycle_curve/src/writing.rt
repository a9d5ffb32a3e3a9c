ghost use Rattle.std.specs.Prelude.{◌≡◌, IfOk};
ghost use Rattle.junction_model.specs.Junction.{JunctionView};
ghost use Rattle.cycle_curve.specs.Judged.{AreInRange, SpellRows};
ghost use Rattle.cycle_curve.specs.Lines.{curve_text, HasItsLines};

use crate::lines::LINE_FEED;
use crate::row::CurveRows;
use plan_certificate::write;
use sig_base::NoMemory;
use std::alloc::Global;

/// The text of each row's certificate, each ended by a line feed. Where the rows are those of a
/// junction's cycles, with parts in their ranges, its lines spell the rows.
pub fn write_curve(alloc: Global, rows: &CurveRows) -> Result<Vec<u8>, NoMemory>
    ensures text { IfOk result (λ bytes. bytes.items ≡ curve_text rows.now) }
    ensures spells { IfOk result (λ bytes. (junction : JunctionView) →
        AreInRange junction rows.now
        → HasItsLines junction bytes.items × SpellRows junction bytes.items rows.now) }
{
    let mut bytes = Vec::new(alloc);
    for row in rows.items() {
        let text = write(alloc, &row.certificate)?;
        bytes.extend_from_slice(&text)?;
        bytes.push(LINE_FEED)?;
    }
    Ok(bytes)
}
