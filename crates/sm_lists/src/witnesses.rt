//! Small lists of which the checker computes what the definitions say. Each function does nothing: its contract is the
//! statement.

ghost use Rattle.sm_lists.specs.Witnesses.{SharedLists, RaisedLists};

/// Lists that stand one behind another, the first of which belongs to two agents.
pub fn shared_lists()
    ensures { SharedLists }
{}

/// Lists that share entries and are raised.
pub fn raised_lists()
    ensures { RaisedLists }
{}
