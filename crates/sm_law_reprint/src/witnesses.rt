//! Small instances that are printed and read back. The checker computes what their texts mean, which was written by hand.
//! Each function does nothing: its contract is the statement.

ghost use Rattle.sm_law_reprint.specs.Witnesses.{MarriageIsSound, MarriageReadBack, OrderedReadBack, HospitalsReadBack, RoommatesReadBack};

/// The law has instances to speak of: a marriage with weights and conditions is one, and its text is short enough.
pub fn a_marriage_is_sound()
    ensures { MarriageIsSound }
{}

/// The texts of a marriage, of the same with a second weight and an order, of hospitals and of roommates mean these instances,
/// on the lines on which they were printed.
pub fn small_instances_are_read_back()
    ensures marriage { MarriageReadBack }
    ensures ordered { OrderedReadBack }
    ensures hospitals { HospitalsReadBack }
    ensures roommates { RoommatesReadBack }
{}
