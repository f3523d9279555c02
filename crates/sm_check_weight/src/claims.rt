//! What an answer of `weight` claims behind its rotations.

ghost use Rattle.std.specs.Prelude.{◌≡◌, ℕ, ◌+◌, ◌<◌, ◌≤◌, ◌++◌, ◌∷◌, [], List, length, take, unwrap_or, None, Some, false, ◌↔◌, IsTrue, IfOk, IfSome, MatchOption};
ghost use Rattle.std.specs.Option.{option_or};
ghost use Rattle.sm_instance.specs.Matching.{IsMatching};
ghost use Rattle.sm_theory.specs.FlowLines.{IsConserved, amount_on, line_at};
ghost use Rattle.sm_theory.specs.Flows.{IsResidualReach};
ghost use Rattle.sm_check_net.specs.CheckedNets.{net_of_parts};
ghost use Rattle.sm_seats.specs.Correspondence.{IsSeating};
ghost use Rattle.sm_seats.specs.Seating.{seating_of};
ghost use Rattle.sm_report.specs.Heads.{HeadData};
ghost use Rattle.sm_report.specs.Lines.{LineData, line_of};
ghost use Rattle.sm_check_clauses.specs.Judges.{IsOwnLine};
ghost use Rattle.sm_check_clauses.specs.Judging.{answer};
ghost use Rattle.sm_check_clauses.specs.Pairs.{WantedHold};
ghost use Rattle.sm_check_clauses.specs.Said.{is_up_to_rotations};
ghost use Rattle.sm_check_clauses.specs.Verdicts.{Finds};
ghost use Rattle.sm_check_clauses.specs.Walking.{FindsOrKeeps};
ghost use Rattle.sm_check_answers.specs.Stood.{AreStood};
ghost use Rattle.sm_check_weight.specs.ClaimClauses.{ValueHolds, CutHolds, TotalHolds, SecondTotalHolds, EndHolds};
ghost use Rattle.sm_check_weight.specs.FlowClauses.{NextHolds};
ghost use Rattle.sm_check_net.specs.Repeats.{AreRepeats};
ghost use Rattle.sm_check_weight.specs.Kept.{ClaimHolds, HasClaim, HasSecond, IsClaimOf, IsFlowOn, HasWholePoset, IsNextLine, IsWholeWalk};

use crate::judging::Weighed;
use crate::said::SaidFlow;
use crate::taken::Taken;
use sm_check_answers::Stood;
use sm_check_clauses::{ChainWalk, Reason};
use sm_check_net::{CheckedNet, is_conserved, is_residual_reach};
use sm_report::Line;
use std::alloc::{AllocError, Global};

/// The net of the rotations and conditions, and what is kept of the lines behind the rotations: the flow with its value, in two
/// levels the second one, the set that is taken, and the pairs of the matching of the set.
#[derive(Drop)]
pub(crate) struct Claim {
    pub(crate) net: CheckedNet,
    pub(crate) first: SaidFlow,
    /// The second net of the lines of the flow that were judged. There is one in two levels alone, behind those lines.
    pub(crate) second_net: Option<CheckedNet>,
    pub(crate) second: SaidFlow,
    pub(crate) taken: Taken,
    pub(crate) stood: Stood,
}

impl Claim {
    /// The first clause that fails at a line behind the rotations. Where none does, the line is kept too.
    pub(crate) fn find_fault(
        &mut self,
        alloc: Global,
        weighed: &Weighed,
        walk: &ChainWalk,
        line: &Line,
    ) -> Result<Option<Reason>, AllocError>
        requires seats { weighed.now.seats.now ≡ seating_of weighed.now.instance.now }
        requires seating { IsSeating weighed.now.instance.now
            (seating_of weighed.now.instance.now) }
        requires own { IsOwnLine (answer weighed.now.instance.now (HeadData.Weight weighed.now.by))
            (line_of line.now) }
        requires behind { is_up_to_rotations (line_of line.now) ≡ false }
        requires known { HasClaim weighed.now.instance.now weighed.now.by (line_of line.now)
            walk.now self.old }
        requires second { HasSecond weighed.now.instance.now weighed.now.by (line_of line.now)
            self.old }
        ensures { IfOk result (λ why. (lines above : List LineData)
            → IsClaimOf weighed.now.instance.now weighed.now.by lines above self.old
            → HasWholePoset weighed.now.instance.now above walk.now
            → IsNextLine lines above (line_of line.now)
            → FindsOrKeeps (ClaimHolds weighed.now.instance.now weighed.now.by above
            (line_of line.now))
            (IsClaimOf weighed.now.instance.now weighed.now.by lines (above
            ++ (line_of line.now) ∷ []) self.new) why) }
    {
        match line {
            Line::Flow(_, _, _) => Ok(self.flow_fault()),
            Line::SecondFlow(_, _, _) => Ok(self.second_flow_fault()),
            Line::Taken(numbers) => self.taken_fault(alloc, weighed, walk, numbers),
            Line::Value(value) => Ok(self.first.value_fault(*value)),
            Line::Cut(cut) => Ok(self.first.cut_fault(&self.net, &self.taken.set, *cut)),
            Line::Total(total) => Ok(self.total_fault(weighed, *total)),
            Line::SecondValue(value) => Ok(self.second_value_fault(*value)),
            Line::SecondCut(cut) => Ok(self.second_cut_fault(*cut)),
            Line::SecondTotal(total) => Ok(self.second_total_fault(weighed, *total)),
            Line::Pair(p, r) => Ok(self.pair_fault(weighed, *p, *r)),
            Line::End => self.end_fault(alloc, weighed),
            _ => Ok(None),
        }
    }

    /// The same of the next line of the flow. The second net is another one then.
    fn flow_fault(&mut self) -> Option<Reason>
        requires next { self.old.first.flow.count < length self.old.first.flow.lines.items }
        requires repeats { AreRepeats self.old.first.flow.lines.items
            self.old.first.flow.repeats.items }
        ensures rest { (self.new.net ≡ self.old.net) × (self.new.second ≡ self.old.second)
            × (self.new.taken ≡ self.old.taken) × (self.new.stood ≡ self.old.stood)
            × (self.new.first.value ≡ self.old.first.value) }
        ensures none { self.new.second_net ≡ None }
        ensures lines { self.new.first.flow.lines ≡ self.old.first.flow.lines }
        ensures repeats { self.new.first.flow.repeats ≡ self.old.first.flow.repeats }
        ensures found { FindsOrKeeps (NextHolds (net_of_parts self.old.net)
            (take self.old.first.flow.count self.old.first.flow.lines.items)
            (line_at self.old.first.flow.lines.items self.old.first.flow.count))
            (self.new.first.flow.count ≡ self.old.first.flow.count + 1) result }
    {
        self.second_net = None;
        self.first.flow.next_fault(&self.net)
    }

    /// The same of the next line of the second flow.
    fn second_flow_fault(&mut self) -> Option<Reason>
        requires next { IfSome self.old.second_net (λ _. self.old.second.flow.count
            < length self.old.second.flow.lines.items) }
        requires repeats { IfSome self.old.second_net (λ _.
            AreRepeats self.old.second.flow.lines.items self.old.second.flow.repeats.items) }
        ensures rest { (self.new.net ≡ self.old.net) × (self.new.first ≡ self.old.first)
            × (self.new.second_net ≡ self.old.second_net)
            × (self.new.taken ≡ self.old.taken) × (self.new.stood ≡ self.old.stood)
            × (self.new.second.value ≡ self.old.second.value) }
        ensures lines { self.new.second.flow.lines ≡ self.old.second.flow.lines }
        ensures repeats { self.new.second.flow.repeats ≡ self.old.second.flow.repeats }
        ensures found { MatchOption self.old.second_net
            ((result ≡ None) × (self.new.second ≡ self.old.second))
            (λ net. FindsOrKeeps (NextHolds (net_of_parts net)
            (take self.old.second.flow.count self.old.second.flow.lines.items)
            (line_at self.old.second.flow.lines.items self.old.second.flow.count))
            (self.new.second.flow.count ≡ self.old.second.flow.count + 1) result) }
    {
        match &self.second_net {
            Some(net) => self.second.flow.next_fault(net),
            None => None,
        }
    }

    /// The same of the set that is taken, by the numbers of its rotations.
    fn taken_fault(
        &mut self,
        alloc: Global,
        weighed: &Weighed,
        walk: &ChainWalk,
        numbers: &[u32],
    ) -> Result<Option<Reason>, AllocError>
        requires seats { weighed.now.seats.now ≡ seating_of weighed.now.instance.now }
        requires seating { IsSeating weighed.now.instance.now
            (seating_of weighed.now.instance.now) }
        requires known { HasClaim weighed.now.instance.now weighed.now.by
            (LineData.Taken numbers.now) walk.now self.old }
        requires second { HasSecond weighed.now.instance.now weighed.now.by
            (LineData.Taken numbers.now) self.old }
        ensures { IfOk result (λ why. (lines above : List LineData)
            → IsClaimOf weighed.now.instance.now weighed.now.by lines above self.old
            → IsWholeWalk weighed.now.instance.now above walk.now
            → IsNextLine lines above (LineData.Taken numbers.now)
            → FindsOrKeeps (ClaimHolds weighed.now.instance.now weighed.now.by above
            (LineData.Taken numbers.now))
            (IsClaimOf weighed.now.instance.now weighed.now.by lines (above
            ++ (LineData.Taken numbers.now) ∷ []) self.new) why) }
    {
        if !self.are_conserved(alloc)? {
            return Ok(Some(Reason::NotConserved));
        }
        match Taken::of(alloc, weighed, walk, &self.net, numbers)? {
            Some(taken) => {
                self.taken.say(taken);
                Ok(None)
            }
            None => Ok(Some(Reason::NotClosed)),
        }
    }

    /// Whether each of the flows is conserved at each rotation.
    fn are_conserved(&self, alloc: Global) -> Result<bool, AllocError>
        requires first { IsFlowOn (net_of_parts self.now.net) self.now.first.flow }
        requires second { IfSome self.now.second_net (λ _. IsFlowOn (net_of_parts self.now.net)
            self.now.second.flow) }
        ensures { IfOk result (λ conserved. IsTrue conserved
            ↔ (IsConserved (net_of_parts self.now.net).size
            (take self.now.first.flow.count self.now.first.flow.lines.items)
            × IfSome self.now.second_net (λ _. IsConserved (net_of_parts self.now.net).size
            (take self.now.second.flow.count self.now.second.flow.lines.items)))) }
    {
        let size = self.net.size();
        if !is_conserved(alloc, size, self.first.flow.said())? {
            return Ok(false);
        }
        match &self.second_net {
            Some(_) => is_conserved(alloc, size, self.second.flow.said()),
            None => Ok(true),
        }
    }

    /// The same of the value of the second flow.
    fn second_value_fault(&mut self, value: u64) -> Option<Reason>
        requires { IfSome self.old.second_net (λ _. self.old.second.flow.count
            ≤ length self.old.second.flow.lines.items) }
        ensures flow { self.new.second.flow ≡ self.old.second.flow }
        ensures rest { (self.new.net ≡ self.old.net) × (self.new.first ≡ self.old.first)
            × (self.new.second_net ≡ self.old.second_net)
            × (self.new.taken ≡ self.old.taken) × (self.new.stood ≡ self.old.stood) }
        ensures found { MatchOption self.old.second_net
            ((result ≡ None) × (self.new.second ≡ self.old.second))
            (λ net. FindsOrKeeps (ValueHolds (take self.old.second.flow.count
            self.old.second.flow.lines.items) value)
            (self.new.second.value ≡ option_or self.old.second.value (Some value)) result) }
    {
        if self.second_net.is_none() {
            return None;
        }
        self.second.value_fault(value)
    }

    /// The same of the second cut of the set.
    fn second_cut_fault(&self, cut: u64) -> Option<Reason>
        requires { IfSome self.now.second_net (λ net. length self.now.taken.set.items
            ≡ (net_of_parts net).size) }
        ensures { MatchOption self.now.second_net
            (result ≡ None)
            (λ net. Finds (CutHolds (net_of_parts net) self.now.taken.set.items
            (unwrap_or self.now.second.value 0) cut) result) }
    {
        match &self.second_net {
            Some(net) => self.second.cut_fault(net, &self.taken.set, cut),
            None => None,
        }
    }

    /// The same of the second sum of the matching of the set.
    fn second_total_fault(&self, weighed: &Weighed, total: i64) -> Option<Reason>
        requires { IsMatching weighed.now.instance.now self.now.taken.matching.places.items }
        ensures { MatchOption self.now.second_net
            (result ≡ None)
            (λ net. Finds (SecondTotalHolds weighed.now.instance.now
            self.now.taken.matching.places.items total) result) }
    {
        if self.second_net.is_none() {
            return None;
        }
        if total != weighed.instance.weigh_second(&self.taken.matching) {
            return Some(Reason::WrongTotal);
        }
        None
    }

    /// The same of the weight of the matching of the set.
    fn total_fault(&self, weighed: &Weighed, total: i64) -> Option<Reason>
        requires { IsMatching weighed.now.instance.now self.now.taken.matching.places.items }
        ensures { Finds (TotalHolds weighed.now.instance.now weighed.now.by
            self.now.taken.matching.places.items total) result }
    {
        if total != weighed.instance.weigh(&self.taken.matching, weighed.by) {
            return Some(Reason::WrongTotal);
        }
        None
    }

    /// The same of a pair of the matching.
    fn pair_fault(&mut self, weighed: &Weighed, p: u32, r: u32) -> Option<Reason>
        requires proposer { p < length weighed.now.instance.now.proposers }
        requires matching { IsMatching weighed.now.instance.now
            self.old.taken.matching.places.items }
        requires one_each { length self.old.stood.stood.items
            ≡ length weighed.now.instance.now.proposers }
        ensures rest { (self.new.net ≡ self.old.net) × (self.new.first ≡ self.old.first)
            × (self.new.second_net ≡ self.old.second_net) × (self.new.second ≡ self.old.second)
            × (self.new.taken ≡ self.old.taken) }
        ensures found { (pairs : List (ℕ × ℕ))
            → AreStood weighed.now.instance.now pairs self.old.stood.stood.items
            → FindsOrKeeps (WantedHold weighed.now.instance.now self.old.taken.matching.places.items
            pairs (LineData.Pair p r))
            (AreStood weighed.now.instance.now (pairs ++ (p, r) ∷ []) self.new.stood.stood.items)
            result }
    {
        if !self
            .stood
            .add(weighed.instance, &self.taken.matching.places, p, r)
        {
            return Some(Reason::WrongPair);
        }
        None
    }

    /// The same at the end.
    fn end_fault(&self, alloc: Global, weighed: &Weighed) -> Result<Option<Reason>, AllocError>
        requires matching { IsMatching weighed.now.instance.now
            self.now.taken.matching.places.items }
        requires one_each { length self.now.stood.stood.items
            ≡ length weighed.now.instance.now.proposers }
        requires first { IsFlowOn (net_of_parts self.now.net) self.now.first.flow }
        requires set { length self.now.taken.set.items ≡ (net_of_parts self.now.net).size }
        requires second { IfSome self.now.second_net (λ net.
            ((net_of_parts net).size ≡ (net_of_parts self.now.net).size)
            × IsFlowOn (net_of_parts net) self.now.second.flow) }
        ensures { IfOk result (λ why. (pairs : List (ℕ × ℕ))
            → AreStood weighed.now.instance.now pairs self.now.stood.stood.items
            → MatchOption self.now.second_net
            (Finds (EndHolds (net_of_parts self.now.net) (take self.now.first.flow.count
            self.now.first.flow.lines.items) self.now.taken.set.items
            self.now.taken.matching.places.items pairs) why)
            (λ net. Finds (EndHolds (net_of_parts net) (take self.now.second.flow.count
            self.now.second.flow.lines.items) self.now.taken.set.items
            self.now.taken.matching.places.items pairs) why)) }
    {
        if !self
            .stood
            .are_all_there(weighed.instance, &self.taken.matching.places)
        {
            return Ok(Some(Reason::WrongPair));
        }
        if !self.is_reached(alloc)? {
            return Ok(Some(Reason::NotLeast));
        }
        Ok(None)
    }

    /// Whether the set is what the residual steps of the last flow reach.
    fn is_reached(&self, alloc: Global) -> Result<bool, AllocError>
        requires first { IsFlowOn (net_of_parts self.now.net) self.now.first.flow }
        requires set { length self.now.taken.set.items ≡ (net_of_parts self.now.net).size }
        requires second { IfSome self.now.second_net (λ net.
            ((net_of_parts net).size ≡ (net_of_parts self.now.net).size)
            × IsFlowOn (net_of_parts net) self.now.second.flow) }
        ensures { IfOk result (λ reached. IsTrue reached ↔ MatchOption self.now.second_net
            (IsResidualReach (net_of_parts self.now.net) (amount_on (take self.now.first.flow.count
            self.now.first.flow.lines.items)) self.now.taken.set.items)
            (λ net. IsResidualReach (net_of_parts net) (amount_on (take self.now.second.flow.count
            self.now.second.flow.lines.items)) self.now.taken.set.items)) }
    {
        let _size = self.net.size();
        match &self.second_net {
            Some(net) => is_residual_reach(alloc, net, self.second.flow.said(), &self.taken.set),
            None => is_residual_reach(alloc, &self.net, self.first.flow.said(), &self.taken.set),
        }
    }
}
