//! Answers of `weight`, line by line.

ghost use Rattle.std.specs.Prelude.{◌≡◌, ◌+◌, ◌<◌, ◌≤◌, ◌^◌, ◌++◌, ◌∷◌, [], List, All, IfOk, IfSome, IsSome, is_some, length, map, slice_index_or, take, true, false};
ghost use Rattle.sm_seats.specs.Seating.{seating_of};
ghost use Rattle.sm_seats.specs.Counted.{first_seats_of};
ghost use Rattle.sm_report.specs.Heads.{HeadData};
ghost use Rattle.sm_report.specs.Lines.{LineData, line_of};
ghost use Rattle.sm_check_clauses.specs.Judges.{IsKnown, IsOwnLine};
ghost use Rattle.sm_check_clauses.specs.Judging.{answer, Clauses};
ghost use Rattle.sm_check_clauses.specs.Said.{rotations_in, flow_in, is_up_to_rotations};
ghost use Rattle.sm_check_clauses.specs.Verdicts.{AtLine, Finds, IsVerdict};
ghost use Rattle.sm_check_clauses.specs.Walks.{IsChainAt};
ghost use Rattle.sm_check_clauses.specs.Walking.{FindsOrKeeps};
ghost use Rattle.std.specs.List.{list_all};
ghost use Rattle.sm_check_net.specs.CheckedNets.{net_of_parts, NeedsAreOf};
ghost use Rattle.sm_seats.specs.Correspondence.{IsSeating};
ghost use Rattle.sm_seats.specs.SeatMarket.{seat_market};
ghost use Rattle.sm_check_clauses.specs.Flows.{WeightHolds, net_in};
ghost use Rattle.sm_check_weight.specs.Kept.{AreTables, ClaimHolds, HasClaim, HasSecond, IsClaimAt, IsClaimOf, HasWholePoset, IsJudgeOf};
ghost use Rattle.sm_check_weight.specs.Order.{AreNeedsInOrder};

use crate::claims::Claim;
use crate::flow_lines::Flow;
use crate::gains::{all_needs, gains_of, last_gain};
use crate::said::SaidFlow;
use crate::taken::Taken;
use sm_check_answers::{RotationsJudge, Stood};
use sm_check_clauses::{ChainWalk, Judge, Reason, Verdict, is_up_to_rotations};
use sm_check_net::{CheckedNet, bonds, second_net};
use sm_instance::{Instance, Measure};
use sm_report::Line;
use sm_seats::{Seats, has_two_levels, leveled, seconds_of_places, weights_of_places};
use sm_theory::FlowLevel;
use std::alloc::{AllocError, Global};

/// An instance and its seats, and the measure by which its matchings are weighed.
#[derive(Drop)]
pub struct Weighed<'a> {
    /// The instance.
    pub instance: &'a Instance,
    /// Its seats.
    pub seats: &'a Seats,
    /// The measure.
    pub by: Measure,
}

/// The levels and the weights of the places of each proposer, and whether the answer has two levels.
#[derive(Drop)]
struct Tables {
    levels: Vec<Vec<u32>>,
    weights: Vec<Vec<i64>>,
    seconds: Vec<Vec<i64>>,
    two_levels: bool,
}

/// What is kept of an answer of `weight`, of which these are the lines: its rotations, and what it claims behind them.
#[derive(Drop)]
struct WeightJudge<'a> {
    weighed: &'a Weighed<'a>,
    lines: &'a [Line],
    tables: Tables,
    chain: RotationsJudge<'a>,
    claim: Option<Claim>,
}

/// The verdict on an answer of `weight`, of which the first line has this number. The seats, and the first seats of the
/// reviewers, have to be those of the instance, and behind each rotation has to stand what it needs, as in the form of such an
/// answer. Takes time in proportion to the agents, the entries of the seats and the lines, and the logarithm of the numbers of
/// edges, lines of flow and conditions, and for each rotation at most to the agents too, and memory in proportion to the agents,
/// the entries of the seats and the lines.
///
/// # Errors
///
/// `AllocError` where memory ran out, and only then.
pub fn weight_verdict(
    alloc: Global,
    weighed: &Weighed,
    firsts: &[u32],
    lines: &[Line],
    first_line: u32,
) -> Result<Verdict, AllocError>
    requires few { first_line + length lines.now < 2 ^ 32 }
    requires seats { weighed.now.seats.now ≡ seating_of weighed.now.instance.now }
    requires firsts { firsts.now ≡ first_seats_of weighed.now.instance.now }
    requires own { All (IsOwnLine (answer weighed.now.instance.now
        (HeadData.Weight weighed.now.by))) (map line_of lines.now) }
    requires in_order { AreNeedsInOrder weighed.now.instance.now (map line_of lines.now) }
    ensures { IfOk result (λ v. IsVerdict (AtLine (Clauses (answer weighed.now.instance.now
        (HeadData.Weight weighed.now.by)))
        (map line_of lines.now)) first_line v) }
{
    let mut judge = WeightJudge::none(alloc, weighed, firsts, lines)?;
    for k in 0..lines.len() {
        if let Some(why) = judge.find_fault(alloc, k)? {
            return Ok(Verdict::No(first_line + k as u32, why));
        }
    }
    Ok(Verdict::Yes)
}

impl<'a> WeightJudge<'a> {
    /// No line is judged yet.
    fn none(
        alloc: Global,
        weighed: &'a Weighed<'a>,
        firsts: &'a [u32],
        lines: &'a [Line],
    ) -> Result<WeightJudge<'a>, AllocError>
        requires seats { weighed.now.seats.now ≡ seating_of weighed.now.instance.now }
        requires firsts { firsts.now ≡ first_seats_of weighed.now.instance.now }
        ensures weighed { IfOk result (λ judge. judge.weighed ≡ weighed.entry) }
        ensures lines { IfOk result (λ judge. judge.lines ≡ lines.entry) }
        ensures known { IfOk result (λ judge. IsJudgeOf weighed.now.instance.now weighed.now.by
            (map line_of lines.now) 0 judge) }
    {
        let _proposers = weighed.instance.proposer_count();
        let levels = weighed.seats.levels(alloc)?;
        let weights = weights_of_places(
            alloc,
            weighed.instance,
            weighed.seats,
            weighed.by,
            &levels,
        )?;
        let seconds = seconds_of_places(
            alloc,
            weighed.instance,
            weighed.seats,
            weighed.by,
            &levels,
        )?;
        let two_levels = has_two_levels(weighed.instance, weighed.by);
        let market = weighed.seats.market();
        let chain = RotationsJudge::none(alloc, weighed.instance, market, firsts)?;
        Ok(WeightJudge {
            weighed,
            lines,
            tables: Tables {
                levels,
                weights,
                seconds,
                two_levels,
            },
            chain,
            claim: None,
        })
    }

    /// The first clause that fails at a line. Where none does, the line is kept too.
    fn find_fault(&mut self, alloc: Global, k: usize) -> Result<Option<Reason>, AllocError>
        requires within { k < length self.old.lines.now }
        requires own { All (IsOwnLine (answer self.old.weighed.now.instance.now
            (HeadData.Weight self.old.weighed.now.by)))
            (map line_of self.old.lines.now) }
        requires in_order { AreNeedsInOrder self.old.weighed.now.instance.now
            (map line_of self.old.lines.now) }
        requires known { IsJudgeOf self.old.weighed.now.instance.now self.old.weighed.now.by
            (map line_of self.old.lines.now) k self.old }
        ensures weighed { self.new.weighed ≡ self.old.weighed }
        ensures lines { self.new.lines ≡ self.old.lines }
        ensures found { IfOk result (λ why. FindsOrKeeps
            (WeightHolds self.old.weighed.now.instance.now self.old.weighed.now.by
            (take k (map line_of self.old.lines.now))
            (slice_index_or (map line_of self.old.lines.now) k LineData.End))
            (IsJudgeOf self.old.weighed.now.instance.now self.old.weighed.now.by
            (map line_of self.old.lines.now) (k + 1) self.new)
            why) }
    {
        let line = &self.lines[k];
        if let Some(why) = self.chain.find_fault(alloc, line)? {
            return Ok(Some(why));
        }
        if is_up_to_rotations(line) {
            return Ok(self.gain_fault(line));
        }
        self.claim_fault(alloc, k)
    }

    /// The same of a gain of the newest rotation.
    fn gain_fault(&self, line: &Line) -> Option<Reason>
        requires up_to { is_up_to_rotations (line_of line.now) ≡ true }
        requires tables { AreTables self.now.weighed.now.instance.now self.now.weighed.now.by
            self.now.tables }
        requires chain_of { self.now.chain.instance.now ≡ self.now.weighed.now.instance.now }
        requires known { IsKnown (λ above. IsChainAt self.now.weighed.now.instance.now above
            self.now.chain.pairs self.now.chain.walk) }
        ensures { (above : List LineData) → IsChainAt self.now.weighed.now.instance.now (above
            ++ line_of line.now ∷ []) self.now.chain.pairs self.now.chain.walk
            → Finds (ClaimHolds self.now.weighed.now.instance.now self.now.weighed.now.by above
            (line_of line.now)) result }
    {
        let _proposers = self.weighed.instance.proposer_count();
        match line {
            Line::Gain(_, gain) => {
                if *gain != last_gain(&self.tables.weights, self.chain.moves()) {
                    return Some(Reason::WrongGain);
                }
                None
            }
            Line::SecondGain(_, gain) => {
                if self.tables.two_levels
                    && *gain != last_gain(&self.tables.seconds, self.chain.moves())
                {
                    return Some(Reason::WrongGain);
                }
                None
            }
            _ => None,
        }
    }

    /// The same of what is claimed behind the rotations, all of which were eliminated.
    fn claim_fault(&mut self, alloc: Global, k: usize) -> Result<Option<Reason>, AllocError>
        requires within { k < length self.old.lines.now }
        requires seats { self.old.weighed.now.seats.now
            ≡ seating_of self.old.weighed.now.instance.now }
        requires seating { IsSeating self.old.weighed.now.instance.now
            (seating_of self.old.weighed.now.instance.now) }
        requires tables { AreTables self.old.weighed.now.instance.now self.old.weighed.now.by
            self.old.tables }
        requires own { IsOwnLine (answer self.old.weighed.now.instance.now
            (HeadData.Weight self.old.weighed.now.by))
            (slice_index_or (map line_of self.old.lines.now) k LineData.End) }
        requires behind { is_up_to_rotations (slice_index_or (map line_of self.old.lines.now) k
            LineData.End) ≡ false }
        requires ground { IfSome self.old.chain.walk (HasWholePoset self.old.weighed.now.instance.now
            (take k (map line_of self.old.lines.now))) }
        requires walked { IsSome self.old.chain.walk }
        requires known { IsClaimAt self.old.weighed.now.instance.now self.old.weighed.now.by
            (map line_of self.old.lines.now)
            (take k (map line_of self.old.lines.now)) self.old.claim }
        ensures weighed { self.new.weighed ≡ self.old.weighed }
        ensures lines { self.new.lines ≡ self.old.lines }
        ensures tables { self.new.tables ≡ self.old.tables }
        ensures chain { self.new.chain ≡ self.old.chain }
        ensures found { IfOk result (λ why. FindsOrKeeps
            (ClaimHolds self.old.weighed.now.instance.now self.old.weighed.now.by
            (take k (map line_of self.old.lines.now))
            (slice_index_or (map line_of self.old.lines.now) k LineData.End))
            (IsClaimAt self.old.weighed.now.instance.now self.old.weighed.now.by
            (map line_of self.old.lines.now)
            (take (k + 1) (map line_of self.old.lines.now)) self.new.claim) why) }
    {
        let weighed = self.weighed;
        let lines = self.lines;
        let line = &lines[k];
        let Some(walk) = &self.chain.walk else {
            return Ok(None);
        };
        match &mut self.claim {
            Some(claim) => {
                make_second(alloc, weighed, &self.tables, walk, claim, line)?;
                claim.find_fault(alloc, weighed, walk, line)
            }
            None => {
                let mut claim = claim_of(alloc, weighed, &self.tables, walk, lines, k)?;
                make_second(alloc, weighed, &self.tables, walk, &mut claim, line)?;
                let why = claim.find_fault(alloc, weighed, walk, line)?;
                self.claim = Some(claim);
                Ok(why)
            }
        }
    }
}

/// Nothing is claimed yet behind the rotations, which stand above line k.
fn claim_of(
    alloc: Global,
    weighed: &Weighed,
    tables: &Tables,
    walk: &ChainWalk,
    lines: &[Line],
    k: usize,
) -> Result<Claim, AllocError>
    requires within { k ≤ length lines.now }
    requires seats { weighed.now.seats.now ≡ seating_of weighed.now.instance.now }
    requires seating { IsSeating weighed.now.instance.now (seating_of weighed.now.instance.now) }
    requires tables { AreTables weighed.now.instance.now weighed.now.by tables.now }
    requires ground { HasWholePoset weighed.now.instance.now (take k (map line_of lines.now)) walk.now }
    requires up_to { list_all is_up_to_rotations (take k (map line_of lines.now)) ≡ true }
    ensures { IfOk result (λ claim. IsClaimOf weighed.now.instance.now weighed.now.by
        (map line_of lines.now)
        (take k (map line_of lines.now)) claim) }
{
    let net = net_of(alloc, weighed, tables, walk, &lines[..k])?;
    let flow = Flow::of(alloc, net.size(), FlowLevel::First, lines)?;
    let second_flow = Flow::of(alloc, net.size(), FlowLevel::Second, lines)?;
    let taken = Taken::none(alloc, weighed, walk)?;
    let stood = Stood::nobody(alloc, weighed.instance)?;
    Ok(Claim {
        net,
        first: SaidFlow { flow, value: None },
        second_net: None,
        second: SaidFlow {
            flow: second_flow,
            value: None,
        },
        taken,
        stood,
    })
}

/// Makes the second net of the lines of the flow above a line that is none of them, where it isn't made yet. There is none in one
/// level.
fn make_second(
    alloc: Global,
    weighed: &Weighed,
    tables: &Tables,
    walk: &ChainWalk,
    claim: &mut Claim,
    line: &Line,
) -> Result<(), AllocError>
    requires tables { AreTables weighed.now.instance.now weighed.now.by tables.now }
    requires known { HasClaim weighed.now.instance.now weighed.now.by (line_of line.now) walk.now
        claim.old }
    ensures made { IfOk result (λ _. HasSecond weighed.now.instance.now weighed.now.by
        (line_of line.now) claim.new) }
    ensures kept { IfOk result (λ _. (lines above : List LineData)
        → IsClaimOf weighed.now.instance.now weighed.now.by lines above claim.old
        → HasWholePoset weighed.now.instance.now above walk.now
        → IsClaimOf weighed.now.instance.now weighed.now.by lines above claim.new) }
{
    let _proposers = weighed.instance.proposer_count();
    let _size = claim.net.size();
    if !tables.two_levels || claim.second_net.is_some() || is_flow(line) {
        return Ok(());
    }
    let gains = gains_of(alloc, &tables.seconds, &walk.moves)?;
    claim.second_net = Some(second_net(alloc, &claim.net, claim.first.flow.said(), gains)?);
    Ok(())
}

/// Whether a line is one of the flow.
fn is_flow(line: &Line) -> bool
    ensures { result ≡ is_some (flow_in (line_of line.now)) }
{
    matches!(line, Line::Flow(_, _, _))
}

/// The net of the rotations, which stand among these lines, and of the conditions.
fn net_of(
    alloc: Global,
    weighed: &Weighed,
    tables: &Tables,
    walk: &ChainWalk,
    lines: &[Line],
) -> Result<CheckedNet, AllocError>
    requires seats { weighed.now.seats.now ≡ seating_of weighed.now.instance.now }
    requires tables { AreTables weighed.now.instance.now weighed.now.by tables.now }
    requires ground { HasWholePoset weighed.now.instance.now (map line_of lines.now) walk.now }
    ensures net { IfOk result (λ net. net_of_parts net
        ≡ net_in weighed.now.instance.now weighed.now.by (map line_of lines.now)) }
    ensures needs { IfOk result (λ net. NeedsAreOf (seat_market weighed.now.instance.now)
        (rotations_in weighed.now.instance.now (map line_of lines.now)) net) }
{
    let instance = weighed.instance;
    let _proposers = weighed.seats.market().proposers();
    let gains = gains_of(alloc, &tables.weights, &walk.moves)?;
    let needs = all_needs(alloc, lines)?;
    let forced = leveled(alloc, instance, instance.forced())?;
    let forbidden = leveled(alloc, instance, instance.forbidden())?;
    let bonds = bonds(
        alloc,
        &tables.levels,
        &walk.first,
        &walk.moves,
        &forced,
        &forbidden,
    )?;
    Ok(CheckedNet::of(gains, needs, bonds))
}
