//! Small instances of whose matchings the checker computes what they are worth, so that the definitions mean what they
//! should. The function does nothing: its contract is the statement.

ghost use Rattle.sm_instance.specs.Witnesses.{NobodyBlocks, FreePlaceBlocks, WorseResidentBlocks};
ghost use Rattle.sm_instance.specs.Witnesses.{NoMatchings, InertEntryCounts, SecondsCount, OrdersHaveEach, OwnName};

/// Three residents at hospitals of two places, one and none: what blocks their matchings and what doesn't, their ranks,
/// regrets, weights and second weights, which are allowed, and what no matching does. A marriage in which an inert entry
/// counts in ranks, orders, and persons of whom one lists itself.
pub fn small_instances()
    ensures nobody { NobodyBlocks }
    ensures free_place { FreePlaceBlocks }
    ensures worse_resident { WorseResidentBlocks }
    ensures no_matching { NoMatchings }
    ensures inert_entry { InertEntryCounts }
    ensures second_weights { SecondsCount }
    ensures orders { OrdersHaveEach }
    ensures own_name { OwnName }
{}
