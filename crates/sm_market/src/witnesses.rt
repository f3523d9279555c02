//! Two small markets of which the checker computes what the definitions say, so that they are not about nothing. Each
//! function does nothing: its contract is the statement.

ghost use Rattle.sm_market.specs.Witnesses.{TwoByTwo, TwoForOne};

/// Two proposers and two reviewers, each of whom is the last choice of its own first choice: of the two stable matchings one
/// is the proposers' best and the other the reviewers', and nothing is taken out of the lists.
pub fn two_by_two()
    ensures { TwoByTwo }
{}

/// Two proposers for one reviewer, and a reviewer whom nobody lists: two agents stay unmatched in the stable matching, and
/// only its pair is left of the lists.
pub fn two_for_one()
    ensures { TwoForOne }
{}
