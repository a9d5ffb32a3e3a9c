//! What is true of the pairs of all tables. This function does nothing: it is the place where the laws
//! are proved.
ghost use Rattle.conflict_matrix.specs.PairLaws.{PairLaw, PairNumberLaw, RisingPairsLaw, PairCountLaw, PairSumLaw};

/// The numbered pairs are the conflicting ones, each once, by rising groups, so that those with group 0
/// come first; there are at most 120.
pub fn pair_laws()
    ensures pair { PairLaw }
    ensures number { PairNumberLaw }
    ensures rising { RisingPairsLaw }
    ensures few { PairCountLaw }
    ensures sum { PairSumLaw }
{}
