ghost use Rattle.std.specs.Prelude.{◌≡◌, ◌++◌, ◌∷◌, [], OnOk, OnErr};

use crate::stage::Stage;
use sig_base::NoMemory;
use std::alloc::Global;
use std::marker::Model;

/// Stages by rising first second. Contracts see it as a list.
#[derive(Debug, Drop)]
pub struct StageList {
    stages: Vec<Stage>,
}

impl Model for StageList {
    ghost use Rattle.std.specs.Prelude.{List};
    ghost use Rattle.stage_builder.specs.declared.stage.Stage.{Stage};

    ghost Value = { List Stage };

    ghost view = { λ s. s.stages.items };
}

impl StageList {
    pub(crate) fn new(alloc: Global) -> StageList
        ensures { result ≡ [] }
    {
        StageList {
            stages: Vec::new(alloc),
        }
    }

    /// One more stage at the end; after want of memory the list is as before.
    pub(crate) fn push(&mut self, stage: Stage) -> Result<(), NoMemory>
        ensures ok { OnOk result (self.new ≡ self.old ++ stage ∷ []) }
        ensures kept { OnErr result (self.new ≡ self.old) }
    {
        self.stages.push(stage)?;
        Ok(())
    }

    /// The stages, by rising first second.
    pub fn items(&self) -> &[Stage]
        ensures { result.now ≡ self.now }
    {
        self.stages.as_slice()
    }
}
