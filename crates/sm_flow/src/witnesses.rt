//! A small net of whose flows the checker computes what they are, so that the definitions mean what they should. The
//! function does nothing: its contract is the statement.

ghost use Rattle.sm_flow.specs.Witnesses.{HasMaximumFlow, OthersAreNone, HasUnboundedPath};

/// Four nodes and four edges, one of them unbounded: its maximum flow with the nodes that it reaches, amounts that are no
/// flow or not the greatest, and the one path of unbounded edges.
pub fn small_net()
    ensures maximum { HasMaximumFlow }
    ensures others { OthersAreNone }
    ensures unbounded { HasUnboundedPath }
{}
