//! A small board of which the checker computes what the laws speak of, so that the laws are not about nothing.

ghost use Rattle.sm_board.specs.Witness.{TwoBoard};

/// The board of a market with four stable matchings, with one level forbidden: its least set, one raise that finds a set and
/// one that finds none.
pub fn two_board()
    ensures { TwoBoard }
{}
