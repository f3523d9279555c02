//! Answers of `rotations`: the first matching of seats, and the rotations from it on.

ghost use Rattle.std.specs.Prelude.{◌≡◌, ◌+◌, ◌<◌, ◌^◌, ◌++◌, ◌∷◌, [], List, length, map, None, false, IfOk};
ghost use Rattle.std.specs.List.{All};
ghost use Rattle.sm_seats.specs.SeatMarket.{seat_market};
ghost use Rattle.sm_seats.specs.Seating.{seating_of};
ghost use Rattle.sm_seats.specs.Counted.{first_seats_of};
ghost use Rattle.sm_report.specs.Heads.{HeadData};
ghost use Rattle.sm_report.specs.Lines.{LineData, line_of};
ghost use Rattle.sm_check_clauses.specs.Judges.{IsKnown, IsOwnLine};
ghost use Rattle.sm_check_clauses.specs.Judging.{answer, Clauses};
ghost use Rattle.sm_check_clauses.specs.Verdicts.{AtLine, IsVerdict};
ghost use Rattle.sm_check_clauses.specs.Chain.{RotationsHold};
ghost use Rattle.sm_check_clauses.specs.Said.{rotations_in, is_up_to_firsts};
ghost use Rattle.sm_check_clauses.specs.Walking.{FindsOrKeeps};
ghost use Rattle.sm_check_clauses.specs.Walks.{AreChainMoves, AreFirstsKept, IsChainAt, IsChainKept};
ghost use Rattle.sm_check_net.specs.Moves.{moves_in};

use sm_check_clauses::{ChainWalk, Judge, Reason, SeatPairs, Verdict, is_unblocked, judge_lines};
use sm_check_decide::is_proposers_best;
use sm_check_forms::seat_number;
use sm_check_net::Move;
use sm_instance::Instance;
use sm_market::Market;
use sm_report::Line;
use sm_seats::Seats;
use std::alloc::{AllocError, Global};

/// What is kept of the first matching that an answer writes, and of the rotations from it on: its pairs while they are
/// written, and then, once the matching was tried, the rotations that were eliminated from it.
#[derive(Drop)]
pub struct RotationsJudge<'a> {
    /// The instance.
    pub instance: &'a Instance,
    /// The market of its seats.
    pub market: &'a Market,
    /// The number of the first seat of each reviewer; reviewers and the seats of the market are counted from 0.
    pub firsts: &'a [u32],
    /// The pairs of the first matching so far.
    pub pairs: SeatPairs,
    /// The rotations, once the first matching was tried.
    pub walk: Option<ChainWalk>,
}

/// The verdict on an answer of `rotations`, of which the first line has this number. The seats, and the first seats of the
/// reviewers, have to be those of the instance. Takes time in proportion to the agents, the entries of the seats and the lines,
/// and for each rotation at most to the agents too, and memory in proportion to the agents and the entries of the seats.
///
/// # Errors
///
/// `AllocError` where memory ran out, and only then.
pub fn rotations_verdict(
    alloc: Global,
    instance: &Instance,
    seats: &Seats,
    firsts: &[u32],
    lines: &[Line],
    first_line: u32,
) -> Result<Verdict, AllocError>
    requires few { first_line + length lines.now < 2 ^ 32 }
    requires seats { seats.now ≡ seating_of instance.now }
    requires firsts { firsts.now ≡ first_seats_of instance.now }
    requires own { All (IsOwnLine (answer instance.now HeadData.Rotations))
        (map line_of lines.now) }
    ensures { IfOk result (λ v. IsVerdict
        (AtLine (Clauses (answer instance.now HeadData.Rotations)) (map line_of lines.now))
        first_line v) }
{
    let judge = RotationsJudge::none(alloc, instance, seats.market(), firsts)?;
    judge_lines(alloc, judge, lines, first_line)
}

impl<'a> Judge for RotationsJudge<'a> {
    ghost use Rattle.sm_report.specs.Heads.{HeadData};
    ghost use Rattle.sm_check_clauses.specs.Judging.{answer};
    ghost use Rattle.sm_check_clauses.specs.Walks.{IsChainKept};

    ghost subject = { λ j. answer j.instance.now HeadData.Rotations };

    ghost knows = { λ j above. IsChainKept j.instance.now j.market.now j.firsts.now above j.pairs
        j.walk };

    fn find_fault(&mut self, alloc: Global, line: &Line) -> Result<Option<Reason>, AllocError> {
        match &mut self.walk {
            Some(walk) => walk.find_fault(alloc, self.instance, self.market, self.firsts, line),
            None => self.first_fault(alloc, line),
        }
    }
}

impl<'a> RotationsJudge<'a> {
    /// No line so far. The market has to be that of the seats of the instance, and `firsts` has the number of the first seat of
    /// each reviewer. Takes time and memory in proportion to the agents of the market.
    ///
    /// # Errors
    ///
    /// `AllocError` where memory ran out, and only then.
    pub fn none(
        alloc: Global,
        instance: &'a Instance,
        market: &'a Market,
        firsts: &'a [u32],
    ) -> Result<RotationsJudge<'a>, AllocError>
        requires market { market.now ≡ seat_market instance.now }
        requires firsts { firsts.now ≡ first_seats_of instance.now }
        ensures instance { IfOk result (λ chain. chain.instance ≡ instance.entry) }
        ensures market { IfOk result (λ chain. chain.market ≡ market.entry) }
        ensures firsts { IfOk result (λ chain. chain.firsts ≡ firsts.entry) }
        ensures known { IfOk result (λ chain. IsChainKept instance.now market.now firsts.now []
            chain.pairs chain.walk) }
    {
        Ok(RotationsJudge {
            instance,
            market,
            firsts,
            pairs: SeatPairs::none(alloc, market)?,
            walk: None,
        })
    }

    /// How each rotation so far moves its proposers. Takes constant time.
    pub fn moves(&self) -> &[Vec<Move>]
        ensures { (above : List LineData) → IsChainAt self.now.instance.now above self.now.pairs
            self.now.walk
            → AreChainMoves (seat_market self.now.instance.now) (rotations_in self.now.instance.now
            above) (moves_in result.now) }
    {
        match &self.walk {
            Some(walk) => &walk.moves,
            None => &[],
        }
    }

    /// The same while the first matching is written.
    fn first_fault(&mut self, alloc: Global, line: &Line) -> Result<Option<Reason>, AllocError>
        requires market { self.old.market.now ≡ seat_market self.old.instance.now }
        requires firsts { self.old.firsts.now ≡ first_seats_of self.old.instance.now }
        requires own { IsOwnLine (answer self.old.instance.now HeadData.Rotations)
            (line_of line.now) }
        requires known { IsKnown (λ above. AreFirstsKept self.old.instance.now above
            self.old.pairs) }
        requires no_walk { self.old.walk ≡ None }
        ensures instance { self.new.instance ≡ self.old.instance }
        ensures market { self.new.market ≡ self.old.market }
        ensures firsts { self.new.firsts ≡ self.old.firsts }
        ensures found { IfOk result (λ why. (above : List LineData)
            → AreFirstsKept self.old.instance.now above self.old.pairs
            → FindsOrKeeps (RotationsHold self.old.instance.now above (line_of line.now))
            (IsChainAt self.old.instance.now (above ++ line_of line.now ∷ []) self.new.pairs
            self.new.walk) why) }
    {
        match line {
            Line::Answer(_) => Ok(None),
            Line::First(p, seat) => {
                let number = seat_number(self.instance, self.firsts, *seat);
                if !self.pairs.add(self.market, *p, number) {
                    return Ok(Some(Reason::NotAMatching));
                }
                Ok(None)
            }
            _ => self.behind_fault(alloc, line),
        }
    }

    /// The same at the first line behind the first matching, which is tried there.
    fn behind_fault(&mut self, alloc: Global, line: &Line) -> Result<Option<Reason>, AllocError>
        requires market { self.old.market.now ≡ seat_market self.old.instance.now }
        requires firsts { self.old.firsts.now ≡ first_seats_of self.old.instance.now }
        requires own { IsOwnLine (answer self.old.instance.now HeadData.Rotations)
            (line_of line.now) }
        requires known { IsKnown (λ above. AreFirstsKept self.old.instance.now above
            self.old.pairs) }
        requires behind { is_up_to_firsts (line_of line.now) ≡ false }
        ensures instance { self.new.instance ≡ self.old.instance }
        ensures market { self.new.market ≡ self.old.market }
        ensures firsts { self.new.firsts ≡ self.old.firsts }
        ensures found { IfOk result (λ why. (above : List LineData)
            → AreFirstsKept self.old.instance.now above self.old.pairs
            → FindsOrKeeps (RotationsHold self.old.instance.now above (line_of line.now))
            (IsChainAt self.old.instance.now (above ++ line_of line.now ∷ []) self.new.pairs
            self.new.walk) why) }
    {
        let first = self.pairs.pairing(alloc, self.market)?;
        if !is_unblocked(self.market, &first) {
            return Ok(Some(Reason::Blocked));
        }
        if !is_proposers_best(alloc, self.market, &first)? {
            return Ok(Some(Reason::NotBest));
        }
        let mut walk = ChainWalk::of(alloc, self.market, first)?;
        let why = walk.find_fault(alloc, self.instance, self.market, self.firsts, line)?;
        self.walk = Some(walk);
        Ok(why)
    }
}
