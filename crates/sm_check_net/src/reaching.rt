//! What is reached over steps between nodes.

ghost use Rattle.std.specs.Prelude.{◌≡◌, ◌<◌, ◌≤◌, ◌∷◌, [], length, IfOk};
ghost use Rattle.sm_check_net.specs.Reaching.{LeadTo, TrailGoesOn, IsReachedTrail};

use crate::pairs::Pairs;
use sm_check_decide::Trail;
use std::alloc::{AllocError, Global};

/// The nodes, of so many, to which steps lead from node 0, in the order in which they are come by, breadth first.
///
/// Takes time in proportion to the steps, and for each node to the logarithm of their number.
pub(crate) fn reached(alloc: Global, nodes: u32, steps: &Pairs) -> Result<Trail, AllocError>
    requires some { 0 < nodes }
    requires nodes { LeadTo nodes steps.now }
    ensures { IfOk result (λ trail. IsReachedTrail nodes steps.now trail) }
{
    let mut trail = Trail::new(alloc, nodes)?;
    trail.push(0);
    follow(steps, &mut trail);
    Ok(trail)
}

/// Comes by all nodes to which steps lead from those on the trail.
fn follow(steps: &Pairs, trail: &mut Trail)
    requires begins { trail.old.items ≡ 0 ∷ [] }
    requires some { 0 < trail.old.bound }
    requires nodes { LeadTo trail.old.bound steps.now }
    ensures { IsReachedTrail trail.old.bound steps.now trail.new }
{
    let mut next = 0;
    'nodes: while next < trail.len() {
        step_from(steps, trail.at(next), trail);
        next += 1;
    }
}

/// Comes by the nodes to which steps lead from one.
fn step_from(steps: &Pairs, from: u32, trail: &mut Trail)
    requires nodes { LeadTo trail.old.bound steps.now }
    requires within { length trail.old.items ≤ trail.old.bound }
    ensures { TrailGoesOn steps.now from trail.old trail.new }
{
    for k in steps.before(from, 0)..steps.len() {
        let (node, to) = steps.at(k);
        if node != from {
            return;
        }
        if !trail.has(to) {
            trail.push(to);
        }
    }
}
