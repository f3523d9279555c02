//! Ranks of places, and those of the stays between moves.

ghost use Rattle.std.specs.Prelude.{◌≡◌, ℕ, ◌-◌, ◌<◌, ◌≤◌, true, length, map, slice_index, IfOk, OnOk};
ghost use Rattle.sm_market.specs.Lists.{row};
ghost use Rattle.sm_market.specs.Vectors.{rows_of};
ghost use Rattle.sm_board.specs.Board.{IsBoard};
ghost use Rattle.sm_lists.specs.Rows.{place_on};
ghost use Rattle.sm_least.specs.Regrets.{rank_of_level, ranks_along, ranks_of_stays, IsRanked};
ghost use Rattle.sm_least.specs.Steps.{NeverFall, IsDivided};

use crate::gates::lower;
use sm_board::Board;
use sm_lists::Rows;
use std::alloc::{AllocError, Global};

/// Ranks of the places of proposers, and the same for their stays.
#[derive(Debug, Drop)]
pub struct StayRanks<'a> {
    /// For each proposer one for each place of its list.
    pub places: &'a [Vec<u32>],
    /// For each matched proposer one for each of its stays, and none for others.
    pub stays: Rows,
}

/// The ranks of the stays of matched proposers. Takes time and memory in proportion to these stays and the proposers, and for a
/// stay that isn't at the place behind that of the stay before also the logarithm of its proposer's places.
///
/// # Errors
///
/// `AllocError` where memory ran out, and only then.
pub(crate) fn along_stays(
    alloc: Global,
    board: &Board,
    levels: &[Vec<u32>],
    ranks: &[Vec<u32>],
) -> Result<Rows, AllocError>
    requires board { IsBoard board.now }
    requires ranked { IsRanked board.now (rows_of levels.now) (rows_of ranks.now) }
    ensures { IfOk result (λ stays. stays
        ≡ ranks_along board.now (rows_of levels.now) (rows_of ranks.now)) }
{
    let mut stays = Rows::with_capacity(alloc, board.proposers(), 0)?;
    let mut row = Vec::new(alloc);
    for p in 0..board.proposers() {
        write_row(&mut row, board, levels, ranks, p)?;
        stays.push(&row)?;
    }
    Ok(stays)
}

/// Writes the ranks of the stays of a proposer, or none where it is unmatched.
fn write_row(
    row: &mut Vec<u32>,
    board: &Board,
    levels: &[Vec<u32>],
    ranks: &[Vec<u32>],
    p: usize,
) -> Result<(), AllocError>
    requires board { IsBoard board.now }
    requires ranked { IsRanked board.now (rows_of levels.now) (rows_of ranks.now) }
    requires proposer { p < length board.now.leaves }
    ensures { OnOk result (row.new.items
        ≡ ranks_of_stays board.now (rows_of levels.now) (rows_of ranks.now) p) }
{
    if board.matched()[p] {
        return write_ranks(row, &board.all_levels()[p], &levels[p], &ranks[p]);
    }
    row.clear();
    Ok(())
}

/// Writes the ranks of these stays, by their levels.
fn write_ranks(
    row: &mut Vec<u32>,
    stays: &[u32],
    levels: &[u32],
    ranks: &[u32],
) -> Result<(), AllocError>
    requires rising { NeverFall levels.now }
    requires few { length ranks.now ≤ length levels.now }
    requires some { (a : ℕ) → a < length stays.now → place_on levels.now (slice_index stays.now a)
        < length ranks.now }
    ensures { OnOk result (row.new.items ≡ map (rank_of_level levels.now ranks.now) stays.now) }
{
    row.clear();
    let mut next = 0;
    for &level in stays {
        let place = first_place(levels, level, next);
        row.push(ranks[place])?;
        next = place + 1;
    }
    Ok(())
}

/// How many levels are lower than this one: a number that is guessed, where it is right, and else found by bisection.
fn first_place(levels: &[u32], level: u32, guess: usize) -> usize
    requires { NeverFall levels.now }
    ensures { IsDivided levels.now level result }
{
    if is_first(levels, level, guess) {
        return guess;
    }
    lower(levels, level)
}

/// Whether a place has this level or a higher one, and the place before it, where there is one, a lower one.
fn is_first(levels: &[u32], level: u32, place: usize) -> bool
    ensures on_list { result ≡ true → place < length levels.now }
    ensures high { result ≡ true → level ≤ slice_index levels.now place }
    ensures before { result ≡ true → 0 < place → slice_index levels.now (place - 1) < level }
{
    place < levels.len() && level <= levels[place] && (place == 0 || levels[place - 1] < level)
}

/// The rank of the places of a level that some place has, found by bisection.
pub(crate) fn rank_of(levels: &[u32], ranks: &[u32], level: u32) -> u32
    requires rising { NeverFall levels.now }
    requires few { length ranks.now ≤ length levels.now }
    requires some { place_on levels.now level < length ranks.now }
    ensures { result ≡ rank_of_level levels.now ranks.now level }
{
    ranks[lower(levels, level)]
}
