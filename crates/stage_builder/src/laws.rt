//! What is true of the stages of all plans that fit. This function does nothing: it is the place where
//! the laws are proved.
ghost use Rattle.stage_builder.specs.StageLaws.{OneStageLaw};

/// Each second at which some group is green lies in exactly one stage.
pub fn one_stage_law()
    ensures { OneStageLaw }
{}
