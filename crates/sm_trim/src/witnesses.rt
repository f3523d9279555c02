//! A small instance in which both rules cut, and in which a list stays, so that the definitions mean what they should. The
//! function does nothing: its contract is the statement.

ghost use Rattle.sm_trim.specs.Witnesses.{ReviewersListEnds, ProposersListEnds, UnmatchedListStays};

/// Three residents who all list two hospitals of one place alike: where a hospital's list may end, where a resident's may, and
/// that the list of the one who is unmatched may end nowhere.
pub fn crowded_hospitals()
    ensures reviewers { ReviewersListEnds }
    ensures proposers { ProposersListEnds }
    ensures unmatched { UnmatchedListStays }
{}
