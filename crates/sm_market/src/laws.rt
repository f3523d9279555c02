//! The laws of stable matchings that the crates above stand on. Each function does nothing: its contract is the law,
//! a statement over the definitions alone, for all markets and all matchings.

ghost use Rattle.sm_market.specs.Laws.{OppositionOfInterests, ProposersBestIsWorst, ReviewersBestIsBest};

/// Where an agent prefers its partner in one stable matching to what it has in another, that partner prefers the other
/// (Gusfield and Irving 1989, theorem 1.3.1).
pub fn opposition_of_interests()
    ensures { OppositionOfInterests }
{}

/// In the proposers' best stable matching every reviewer stands as badly as in any stable matching
/// (Gusfield and Irving 1989, theorem 1.2.3).
pub fn proposers_best_is_worst()
    ensures { ProposersBestIsWorst }
{}

/// In the reviewers' best stable matching every reviewer stands as well as in any stable matching.
pub fn reviewers_best_is_best()
    ensures { ReviewersBestIsBest }
{}
