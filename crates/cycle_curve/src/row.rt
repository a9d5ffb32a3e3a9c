ghost use Rattle.std.specs.Prelude.{◌≡◌, ◌++◌, ◌∷◌, [], map, OnOk, OnErr};
ghost use Rattle.cycle_curve.specs.Curve.{row_of};

use plan_certificate::Certificate;
use sig_base::NoMemory;
use std::alloc::Global;
use std::marker::Model;

/// What one cycle alone gives.
#[derive(Drop)]
pub struct CurveRow {
    /// The cycle, in seconds.
    pub cycle: u32,
    /// The certificate, for the junction with this cycle alone.
    pub certificate: Certificate,
}

/// Rows by rising cycle. Contracts see it as a list.
#[derive(Drop)]
pub struct CurveRows {
    rows: Vec<CurveRow>,
}

impl Model for CurveRows {
    ghost use Rattle.std.specs.Prelude.{List, map};
    ghost use Rattle.cycle_curve.specs.Curve.{RowView, row_of};

    ghost Value = { List RowView };

    ghost view = { λ s. map row_of s.rows.items };
}

impl CurveRows {
    pub(crate) fn new(alloc: Global) -> CurveRows
        ensures { result ≡ [] }
    {
        CurveRows {
            rows: Vec::new(alloc),
        }
    }

    /// One more row at the end; after want of memory the list is as before.
    pub(crate) fn push(&mut self, row: CurveRow) -> Result<(), NoMemory>
        ensures ok { OnOk result (self.new ≡ self.old ++ row_of row ∷ []) }
        ensures kept { OnErr result (self.new ≡ self.old) }
    {
        self.rows.push(row)?;
        Ok(())
    }

    /// The rows, by rising cycle.
    pub fn items(&self) -> &[CurveRow]
        ensures { map row_of result.now ≡ self.now }
    {
        self.rows.as_slice()
    }
}
