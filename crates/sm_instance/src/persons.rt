//! Instances of roommates.

ghost use Rattle.std.specs.Prelude.{◌≡◌, ◌<◌, ◌∷◌, length, position, IfSome, IfOk, IfErr, OnOk};
ghost use Rattle.std.specs.Str.{bytes_eq};
ghost use Rattle.sm_text.specs.Writer.{PutsPiece};
ghost use Rattle.sm_agents.specs.Written.{agent_at, names_of};
ghost use Rattle.sm_agents.specs.Vectors.{agents_of};
ghost use Rattle.sm_agents.specs.Sound.{ArePersons};

use sm_agents::{
    Agent, InstanceFault, Kind, Names, Side, are_within_limits, check_entries, checked_names,
    names_for, put_name_at, spaced_names,
};
use sm_text::{LineWriter, SpacedName, TextHash};
use std::alloc::{AllocError, Global};
use std::marker::Model;

/// An instance of roommates: persons who list each other. An entry that names its own writer is inert.
#[derive(Drop)]
pub struct Persons {
    persons: Vec<Agent>,
    names: Names,
    spaced: Vec<SpacedName>,
}

impl Model for Persons {
    ghost use Rattle.std.specs.Prelude.{List};
    ghost use Rattle.sm_agents.specs.Written.{AgentData};
    ghost use Rattle.sm_agents.specs.Vectors.{agents_of};
    ghost use Rattle.sm_instance.specs.Kept.{ArePersonsKept};

    ghost Value = { List AgentData };

    ghost view = { λ p. agents_of p.persons.items };

    ghost invariant = { λ p. ArePersonsKept (agents_of p.persons.items) p.names p.spaced.items };
}

impl Persons {
    ghost use Rattle.sm_agents.specs.Faults.{IsPersonsFault};

    /// Makes an instance of roommates, or names the first thing that stands in the way.
    ///
    /// The persons are moved into the instance, and are dropped where they make none. Takes time and memory in
    /// proportion to the persons and entries.
    ///
    /// # Errors
    ///
    /// The faults are those of [`InstanceFault`], in its order, and never `BadPair`. The persons are named as
    /// proposers, and each has to have the capacity 1.
    pub fn build(alloc: Global, persons: Vec<Agent>) -> Result<Persons, InstanceFault>
        ensures persons { IfOk result (λ p. p ≡ agents_of persons.items) }
        ensures sound { OnOk result (ArePersons (agents_of persons.items)) }
        ensures fault { IfErr result (λ f. IsPersonsFault (agents_of persons.items) f) }
    {
        if !are_within_limits(&persons, &[]) {
            return Err(InstanceFault::TooMany);
        }
        let names = checked_names(alloc, Side::Proposers, &persons, true)?;
        check_entries(alloc, Side::Proposers, &persons, persons.len() as u32)?;
        let spaced = spaced_names(alloc, &persons)?;
        Ok(Persons {
            persons,
            names,
            spaced,
        })
    }

    /// An instance of persons who are known to make one. Nothing is tried. Names will be found by these hashes, which
    /// shouldn't be known to whoever chose the names. Takes time and memory in proportion to the persons.
    ///
    /// # Errors
    ///
    /// `AllocError` where memory ran out, and only then.
    pub fn held(alloc: Global, hash: TextHash, persons: Vec<Agent>) -> Result<Persons, AllocError>
        requires { ArePersons (agents_of persons.items) }
        ensures { IfOk result (λ p. p ≡ agents_of persons.items) }
    {
        let names = names_for(alloc, hash, &persons)?;
        let spaced = spaced_names(alloc, &persons)?;
        Ok(Persons {
            persons,
            names,
            spaced,
        })
    }

    /// The kind. The read is for the proof alone: it shows what is kept of the persons.
    #[inline(always)]
    pub(crate) fn kind(&self) -> Kind
        ensures kind { result ≡ Kind.Roommates }
        ensures sound { ArePersons self.now }
    {
        let _persons = &self.persons;
        Kind::Roommates
    }

    /// The persons, by number. Takes constant time.
    pub fn persons(&self) -> &[Agent]
        ensures agents { agents_of result.now ≡ self.now }
        ensures sound { ArePersons self.now }
    {
        &self.persons
    }

    /// Puts a space and a person's name behind what a writer holds.
    #[inline(always)]
    pub(crate) fn put_person(&self, into: &mut LineWriter, q: u32) -> Result<(), AllocError>
        requires { q < length self.now }
        ensures { PutsPiece into.old into.new (32 ∷ (agent_at self.now q).name) result }
    {
        put_name_at(into, &self.persons, &self.spaced, q)
    }

    /// The number of the person with a name, `None` where there is none. Takes time in the length of the name.
    pub fn find(&self, name: &[u8]) -> Option<u32>
        ensures number { result ≡ position (bytes_eq name.now) (names_of self.now) }
        ensures in_range { IfSome result (λ n. n < length self.now) }
    {
        self.names.find(name)
    }
}
