//! The regrets of matchings that come one after another, by their rank vectors.

ghost use Rattle.std.specs.Prelude.{◌≡◌, ◌+◌, ◌<◌, ℕ, true, List, Option, length, slice_index, fold, min, max, IfOk};
ghost use Rattle.sm_instance.specs.Matching.{IsMatching};
ghost use Rattle.sm_instance.specs.Ranks.{rank_vector_of, regret_of};
ghost use Rattle.sm_seats.specs.Vectors.{IsAllowedRankVector};
ghost use Rattle.sm_tally.specs.Counts.{AreCountsOf};
ghost use Rattle.sm_lists.specs.Orders.{AreAlikeBelow};
ghost use Rattle.sm_answer_survey.specs.Regrets.{piece, IsWorseRank, AreWorseRanks, AreSameIn, AreKeptBut, IsGreatestIn, AreGreatest, AreKeptOf};

use sm_instance::Instance;
use sm_tally::{CountedRanks, RankCounts};
use std::alloc::{AllocError, Global};

/// How many proposers a piece has.
const PIECE: u32 = 64;

/// What is kept of the last matching, so that of the next one only the pieces that differ are gone over. A piece is 64 proposers
/// that follow one another, or those that are left at the end.
#[derive(Drop)]
pub(crate) struct Regrets {
    /// For each proposer the rank of its partner, 0 before the first matching.
    ranks: CountedRanks,
    /// For each proposer the greater of the ranks that it and its partner give each other.
    worse: Vec<u32>,
    /// For each piece the greatest of these.
    greatest: Vec<u32>,
}

impl Regrets {
    /// Before the first matching. Takes two numbers for each proposer, and one for each piece.
    ///
    /// # Errors
    ///
    /// `AllocError` where memory ran out, and only then.
    pub(crate) fn new(alloc: Global, instance: &Instance) -> Result<Regrets, AllocError>
        ensures { IfOk result (λ regrets. AreKeptOf instance.now regrets) }
    {
        let count = instance.proposer_count();
        let ranks = CountedRanks::new(alloc, count)?;
        let worse = vec![in alloc; 0; count as usize]?;
        let greatest = vec![in alloc; 0; count.div_ceil(PIECE) as usize]?;
        Ok(Regrets {
            ranks,
            worse,
            greatest,
        })
    }

    /// The regret of the next matching, by its rank vector: the greatest rank that an agent of a matched pair gives its partner,
    /// 0 where nobody is matched (Gusfield and Irving 1989, section 3.4.1). Proposers before `from` have the ranks of the last
    /// matching. Takes no memory, and time in proportion to the pieces, and to the proposers from there on: a comparison for each,
    /// and more for those whose pieces differ.
    pub(crate) fn regret(&mut self, instance: &Instance, ranks: &[u32], from: u32) -> u32
        requires vector { IsAllowedRankVector instance.now ranks.now }
        requires kept { AreKeptOf instance.now self.old }
        requires alike { AreAlikeBelow from self.old.ranks ranks.now }
        ensures regret { (places : List (Option ℕ)) → IsMatching instance.now places → ranks.now
            ≡ rank_vector_of instance.now places
            → result ≡ regret_of instance.now places }
        ensures kept { AreKeptOf instance.now self.new }
        ensures ranks { self.new.ranks ≡ ranks.now }
    {
        let of_pieces = self.greatest.as_mut_slice();
        keep_pieces(
            instance,
            ranks,
            from,
            &mut self.ranks,
            &mut self.worse,
            of_pieces,
        );
        greatest(of_pieces)
    }

    /// What is counted of the ranks of the last matching. Takes constant time.
    pub(crate) fn counts(&self) -> RankCounts
        ensures { AreCountsOf self.now.ranks result }
    {
        self.ranks.counts()
    }
}

/// Puts the ranks of a matching in place of those that are kept, piece by piece. Those of proposers before `from` are the same.
fn keep_pieces(
    instance: &Instance,
    ranks: &[u32],
    from: u32,
    kept: &mut CountedRanks,
    worse: &mut [u32],
    greatest: &mut [u32],
)
    requires vector { IsAllowedRankVector instance.now ranks.now }
    requires worse { AreWorseRanks instance.now kept.old worse.old }
    requires greatest { AreGreatest worse.old greatest.old }
    requires alike { AreAlikeBelow from kept.old ranks.now }
    ensures worse { AreWorseRanks instance.now kept.new worse.new }
    ensures greatest { AreGreatest worse.new greatest.new }
    ensures ranks { kept.new ≡ ranks.now }
{
    let count = instance.proposer_count();
    for piece in (from / PIECE) as usize..greatest.len() {
        let first = piece as u32 * PIECE;
        let to = (first + PIECE).min(count);
        if !are_same(kept.ranks(), ranks, first, to) {
            keep(instance, ranks, first, to, kept, worse);
            greatest[piece] = greatest_in(worse, first, to);
        }
    }
}

/// Are the ranks of these proposers, which are a piece, the same?
fn are_same(kept: &[u32], ranks: &[u32], from: u32, to: u32) -> bool
    requires long { length kept.now ≡ length ranks.now }
    requires piece { to ≡ min (from + piece) (length kept.now) }
    ensures { result ≡ true → AreSameIn from kept.now ranks.now }
{
    let mut same = true;
    for p in from..to {
        same &= kept[p as usize] == ranks[p as usize];
    }
    same
}

/// Puts the ranks of a matching in place of those that are kept of these proposers, which are a piece.
fn keep(
    instance: &Instance,
    ranks: &[u32],
    from: u32,
    to: u32,
    kept: &mut CountedRanks,
    worse: &mut [u32],
)
    requires vector { IsAllowedRankVector instance.now ranks.now }
    requires worse { AreWorseRanks instance.now kept.old worse.old }
    requires piece { to ≡ min (from + piece) (length kept.old) }
    ensures worse { AreWorseRanks instance.now kept.new worse.new }
    ensures same { AreSameIn from kept.new ranks.now }
    ensures others { AreKeptBut from kept.old kept.new }
    ensures others_worse { AreKeptBut from worse.old worse.new }
{
    for p in from..to {
        let rank = ranks[p as usize];
        if kept.ranks()[p as usize] != rank {
            kept.set(p, rank);
            worse[p as usize] = worse_rank(instance, ranks, p);
        }
    }
}

/// The greater of the ranks that a proposer and its partner give each other, 0 where the proposer is unmatched.
fn worse_rank(instance: &Instance, ranks: &[u32], p: u32) -> u32
    requires vector { IsAllowedRankVector instance.now ranks.now }
    requires in_range { p < length instance.now.proposers }
    ensures { IsWorseRank instance.now p (slice_index ranks.now p) result }
{
    let rank = ranks[p as usize];
    if rank > instance.proposer_len(p) {
        return 0;
    }
    instance.worse_rank(p, rank - 1)
}

/// The greatest of the numbers of these proposers, which are a piece.
fn greatest_in(numbers: &[u32], from: u32, to: u32) -> u32
    requires { to ≡ min (from + piece) (length numbers.now) }
    ensures { IsGreatestIn from numbers.now result }
{
    let mut greatest = 0;
    for p in from..to {
        greatest = greatest.max(numbers[p as usize]);
    }
    greatest
}

/// The greatest of numbers, 0 where there are none.
fn greatest(numbers: &[u32]) -> u32
    ensures { result ≡ fold max 0 numbers.now }
{
    let mut greatest = 0;
    for number in numbers {
        greatest = greatest.max(*number);
    }
    greatest
}
