ghost use Rattle.std.specs.Prelude.{◌≡◌, ◌<◌, [], ◌++◌, ◌∷◌, All, OnOk, OnErr};
ghost use Rattle.plan_change.specs.Planned.{AreRising};

use plan_model::Plan;
use sig_base::NoMemory;
use std::alloc::Global;
use std::marker::Model;

/// A plan to ask for at a second.
#[derive(Clone, Copy, Debug)]
pub struct PlannedChange {
    /// The second of the request.
    pub at: u32,
    /// The plan that it asks for.
    pub plan: Plan,
}

/// Changes that are planned ahead, each at a later second than the one before. Contracts see the
/// list of them.
#[derive(Debug, Drop)]
pub struct ChangeList {
    changes: Vec<PlannedChange>,
}

impl Model for ChangeList {
    ghost use Rattle.std.specs.Prelude.{List};
    ghost use Rattle.plan_change.specs.declared.change_list.PlannedChange.{PlannedChange};
    ghost use Rattle.plan_change.specs.Planned.{AreRising};

    ghost Value = { List PlannedChange };

    ghost view = { λ l. l.changes.items };

    ghost invariant = { λ l. AreRising l.changes.items };
}

impl ChangeList {
    ghost use Rattle.plan_change.specs.Planned.{change_of};

    /// No change.
    pub fn new(alloc: Global) -> ChangeList
        ensures { result ≡ [] }
    {
        ChangeList {
            changes: Vec::new(alloc),
        }
    }

    /// One more change, at a second after all earlier ones. After want of memory the list is as
    /// before.
    pub fn push(&mut self, at: u32, plan: Plan) -> Result<(), NoMemory>
        requires { All (λ change. change.at < at) self.old }
        ensures ok { OnOk result (self.new ≡ self.old ++ change_of at plan ∷ []) }
        ensures kept { OnErr result (self.new ≡ self.old) }
    {
        self.changes.push(PlannedChange { at, plan })?;
        Ok(())
    }

    /// The changes, in their order.
    pub fn items(&self) -> &[PlannedChange]
        ensures value { result.now ≡ self.now }
        ensures rising { AreRising self.now }
    {
        self.changes.as_slice()
    }
}
