//! Kinds of instances, sides, and how matchings are weighed.

ghost use Rattle.std.specs.Prelude.{◌≡◌};
ghost use Rattle.sm_agents.specs.Kinds.{kind_name, kind_named};

use sm_text::is;

/// What an instance is.
#[derive(Clone, Copy, Debug, PartialEq, Eq)]
pub enum Kind {
    /// Two sides, with one place for each agent.
    Marriage,
    /// Two sides: residents with one place each, and hospitals with a capacity.
    Hospitals,
    /// One side, of persons who list each other.
    Roommates,
}

impl Kind {
    /// The word by which instances name the kind. Takes constant time.
    pub fn name(self) -> &'static str
        ensures { result.now ≡ kind_name self }
    {
        match self {
            Kind::Marriage => "marriage",
            Kind::Hospitals => "hospitals",
            Kind::Roommates => "roommates",
        }
    }

    /// The kind that a word names, `None` where it names none. Takes constant time.
    pub fn named(name: &[u8]) -> Option<Kind>
        ensures { result ≡ kind_named name.now }
    {
        if is(name, Kind::Marriage.name().as_bytes()) {
            Some(Kind::Marriage)
        } else if is(name, Kind::Hospitals.name().as_bytes()) {
            Some(Kind::Hospitals)
        } else if is(name, Kind::Roommates.name().as_bytes()) {
            Some(Kind::Roommates)
        } else {
            None
        }
    }
}

/// How a matching is weighed.
#[derive(Clone, Copy, Debug, PartialEq, Eq)]
pub enum Measure {
    /// By both written ranks of each matched pair.
    Ranks,
    /// By the weight that is given to each matched pair.
    Given,
}

/// One of the two sides of an instance. Persons stand on the side of the proposers.
#[derive(Clone, Copy, Debug, PartialEq, Eq)]
pub enum Side {
    Proposers,
    Reviewers,
}
