//! What texts mean, which the checker computes and which was written by hand. Each function does nothing: its contract is
//! the statement.

ghost use Rattle.sm_reader.specs.Witnesses.{HeadersRefused, EachRefused, FirstRefused, HospitalsRefused, EarlierRefused, AddedRefused, SecondRefused};
ghost use Rattle.sm_reader.specs.Witnesses.{LongRefused, AgentsCounted, EntriesCounted};
ghost use Rattle.sm_reader.specs.Witnesses.{HospitalsRead, RoommatesRead, ReturnsRead, SecondRead};

/// Texts that are refused: each fault at its line, the first of two faults of one line, and of those of two lines.
pub fn texts_are_refused()
    ensures headers { HeadersRefused }
    ensures each { EachRefused }
    ensures first { FirstRefused }
    ensures hospitals { HospitalsRefused }
    ensures earlier { EarlierRefused }
    ensures added { AddedRefused }
    ensures second { SecondRefused }
{}

/// What is counted, up to its limit and one past it: bytes, agents and entries.
pub fn limits_are_kept()
    ensures bytes { LongRefused }
    ensures agents { AgentsCounted }
    ensures entries { EntriesCounted }
{}

/// Texts that are read: hospitals with all that a text of format 1 may say, roommates, lines that end with CR, and what format 2
/// adds.
pub fn texts_are_read()
    ensures hospitals { HospitalsRead }
    ensures roommates { RoommatesRead }
    ensures returns { ReturnsRead }
    ensures second { SecondRead }
{}
