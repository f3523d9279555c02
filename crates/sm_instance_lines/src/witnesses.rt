//! Small instances that are printed. The checker computes their lines, which were written by hand. The function does nothing:
//! its contract is the statement.

ghost use Rattle.sm_instance_lines.specs.Witnesses.{MarriagePrinted, OrderedPrinted, HospitalsPrinted, RoommatesPrinted};

/// A marriage with weights and conditions, the same with a second weight and an order, hospitals of which one has no list, and
/// roommates have the lines beside them.
pub fn small_instances_are_printed()
    ensures marriage { MarriagePrinted }
    ensures ordered { OrderedPrinted }
    ensures hospitals { HospitalsPrinted }
    ensures roommates { RoommatesPrinted }
{}
