//! Laws of nets. Each function does nothing: its contract is the law, a statement over the definitions alone.

ghost use Rattle.sm_check_net.specs.Laws.{NetIsOf, EdgesAreOnNodes, MovesHaveWeights, MovesHaveLevels};

/// By the moves of the rotations of a chain, the gains, the needs and the bonds make the net of gains, predecessors and
/// conditions.
pub fn net_is_of()
    ensures { NetIsOf }
{}

/// The edges of the net of gains, predecessors and conditions lead between its nodes: the source, the rotations and the sink.
pub fn edges_are_on_nodes()
    ensures { EdgesAreOnNodes }
{}

/// Where there are weights for all places of the lists, moves on them have weights.
pub fn moves_have_weights()
    ensures { MovesHaveWeights }
{}

/// Where there are levels for all places of the lists, moves on them have levels.
pub fn moves_have_levels()
    ensures { MovesHaveLevels }
{}
