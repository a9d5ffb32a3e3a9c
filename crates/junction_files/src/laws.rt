//! What is true of all bytes of a junction file. The function does nothing: it is the place where
//! its laws are proved.
ghost use Rattle.junction_files.specs.Laws.{OneJunctionLaw, OneRefusalLaw, RefusalLaw, FaultlessLaw, TotalityLaw, FirstVersionLaw};

/// Every list of bytes either spells one junction and is refused for no fault, or is refused for
/// one fault at one place. A document without a fault spells a junction, and one of the first
/// version a junction whose maximum greens are all 300 seconds and which has no links.
pub fn reading_laws()
    ensures one_junction { OneJunctionLaw }
    ensures refusal { RefusalLaw }
    ensures one_refusal { OneRefusalLaw }
    ensures faultless { FaultlessLaw }
    ensures totality { TotalityLaw }
    ensures first_version { FirstVersionLaw }
{}
