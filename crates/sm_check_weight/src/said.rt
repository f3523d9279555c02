//! What an answer says of a flow.

ghost use Rattle.std.specs.Prelude.{◌≡◌, ◌≤◌, length, take, unwrap_or, Some};
ghost use Rattle.std.specs.Option.{option_or};
ghost use Rattle.sm_check_net.specs.CheckedNets.{net_of_parts};
ghost use Rattle.sm_check_clauses.specs.Verdicts.{Finds};
ghost use Rattle.sm_check_clauses.specs.Walking.{FindsOrKeeps};
ghost use Rattle.sm_check_weight.specs.ClaimClauses.{ValueHolds, CutHolds};

use crate::flow_lines::Flow;
use sm_check_clauses::Reason;
use sm_check_net::{CheckedNet, amount_from_source};

/// The lines of a flow, and the value of it that is said first.
#[derive(Drop)]
pub(crate) struct SaidFlow {
    pub(crate) flow: Flow,
    pub(crate) value: Option<u64>,
}

impl SaidFlow {
    /// The first clause that fails at a line with a value. Where none does, the value is kept, if it is the first one.
    pub(crate) fn value_fault(&mut self, value: u64) -> Option<Reason>
        requires { self.old.flow.count ≤ length self.old.flow.lines.items }
        ensures flow { self.new.flow ≡ self.old.flow }
        ensures found { FindsOrKeeps (ValueHolds (take self.old.flow.count
            self.old.flow.lines.items) value)
            (self.new.value ≡ option_or self.old.value (Some value)) result }
    {
        if u128::from(value) != amount_from_source(self.flow.said()) {
            return Some(Reason::WrongValue);
        }
        self.value = self.value.or(Some(value));
        None
    }

    /// The same at a line with the cut of a set.
    pub(crate) fn cut_fault(&self, net: &CheckedNet, set: &[bool], cut: u64) -> Option<Reason>
        requires { length set.now ≡ (net_of_parts net.now).size }
        ensures { Finds (CutHolds (net_of_parts net.now) set.now
            (unwrap_or self.now.value 0) cut) result }
    {
        if u128::from(cut) != net.cut(set) {
            return Some(Reason::WrongCut);
        }
        if cut != self.value.unwrap_or(0) {
            return Some(Reason::CutDiffers);
        }
        None
    }
}
