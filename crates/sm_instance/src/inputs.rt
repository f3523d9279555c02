//! What is read: an instance of any kind.

use crate::instance::Instance;
use crate::persons::Persons;
use sm_agents::{Kind, name_at};
use sm_text::LineWriter;
use std::alloc::AllocError;

/// An instance with two sides, or one of roommates.
#[derive(Drop)]
pub enum Input {
    Two(Instance),
    Room(Persons),
}

impl Input {
    ghost use Rattle.std.specs.Prelude.{◌≡◌, ◌<◌, ◌∷◌, length, position, IfSome};
    ghost use Rattle.sm_text.specs.Writer.{PutsPiece};
    ghost use Rattle.std.specs.Str.{bytes_eq};
    ghost use Rattle.sm_agents.specs.Written.{agent_at, names_of};
    ghost use Rattle.sm_instance.specs.Inputs.{IsInput, kind_of, left_of, right_of};

    /// The kind. Takes constant time.
    #[inline(always)]
    pub fn kind(&self) -> Kind
        ensures kind { result ≡ kind_of self.now }
        ensures sound { IsInput self.now }
    {
        match self {
            Input::Two(instance) => instance.kind(),
            Input::Room(persons) => persons.kind(),
        }
    }

    /// Keeps cross places from now on, as [`Instance::keep_crosses`] does. Does nothing for roommates. Takes time and memory in
    /// proportion to the agents and entries, or constant time where they are kept.
    ///
    /// # Errors
    ///
    /// `AllocError` where memory ran out, and only then. The input is then as it was.
    pub fn keep_crosses(&mut self) -> Result<(), AllocError>
        ensures { self.new ≡ self.old }
    {
        match self {
            Input::Two(instance) => instance.keep_crosses(),
            Input::Room(_) => Ok(()),
        }
    }

    /// Keeps tables of names from now on, as [`Instance::keep_names`] does. Does nothing for roommates, whose names are always
    /// kept. Takes time and memory in proportion to the agents, or constant time where they are kept.
    ///
    /// # Errors
    ///
    /// `AllocError` where memory ran out, and only then. The input is then as it was.
    pub fn keep_names(&mut self) -> Result<(), AllocError>
        ensures { self.new ≡ self.old }
    {
        match self {
            Input::Two(instance) => instance.keep_names(),
            Input::Room(_) => Ok(()),
        }
    }

    /// The name of a proposer, in roommates of a person. Takes constant time.
    pub fn left_name(&self, at: u32) -> &[u8]
        requires { at < length (left_of self.now) }
        ensures { result.now ≡ (agent_at (left_of self.now) at).name }
    {
        match self {
            Input::Two(instance) => name_at(instance.proposers(), at),
            Input::Room(persons) => name_at(persons.persons(), at),
        }
    }

    /// The name of a reviewer, in roommates of a person. Takes constant time.
    pub fn right_name(&self, at: u32) -> &[u8]
        requires { at < length (right_of self.now) }
        ensures { result.now ≡ (agent_at (right_of self.now) at).name }
    {
        match self {
            Input::Two(instance) => name_at(instance.reviewers(), at),
            Input::Room(persons) => name_at(persons.persons(), at),
        }
    }

    /// Puts a space and the name of a proposer, in roommates of a person, behind what a writer holds. Takes what
    /// [`LineWriter::put_name`] takes.
    ///
    /// # Errors
    ///
    /// As [`LineWriter::put_name`].
    #[inline(always)]
    pub fn put_left_name(&self, into: &mut LineWriter, at: u32) -> Result<(), AllocError>
        requires { at < length (left_of self.now) }
        ensures { PutsPiece into.old into.new (32 ∷ (agent_at (left_of self.now) at).name) result }
    {
        match self {
            Input::Two(instance) => instance.put_proposer(into, at),
            Input::Room(persons) => persons.put_person(into, at),
        }
    }

    /// Puts a space and the name of a reviewer, in roommates of a person, behind what a writer holds. Takes what
    /// [`LineWriter::put_name`] takes.
    ///
    /// # Errors
    ///
    /// As [`LineWriter::put_name`].
    #[inline(always)]
    pub fn put_right_name(&self, into: &mut LineWriter, at: u32) -> Result<(), AllocError>
        requires { at < length (right_of self.now) }
        ensures { PutsPiece into.old into.new (32 ∷ (agent_at (right_of self.now) at).name) result }
    {
        match self {
            Input::Two(instance) => instance.put_reviewer(into, at),
            Input::Room(persons) => persons.put_person(into, at),
        }
    }

    /// The number of the proposer with a name, in roommates of the person. `None` exactly where no proposer has it. Takes time in
    /// the length of the name, or in proportion to the agents of the side where an instance with two sides keeps no tables of
    /// names.
    pub fn find_left(&self, name: &[u8]) -> Option<u32>
        ensures number { result ≡ position (bytes_eq name.now) (names_of (left_of self.now)) }
        ensures in_range { IfSome result (λ n. n < length (left_of self.now)) }
    {
        match self {
            Input::Two(instance) => instance.find_proposer(name),
            Input::Room(persons) => persons.find(name),
        }
    }

    /// The number of the reviewer with a name, in roommates of the person. `None` exactly where no reviewer has it. Takes time in
    /// the length of the name, or in proportion to the agents of the side where an instance with two sides keeps no tables of
    /// names.
    pub fn find_right(&self, name: &[u8]) -> Option<u32>
        ensures number { result ≡ position (bytes_eq name.now) (names_of (right_of self.now)) }
        ensures in_range { IfSome result (λ n. n < length (right_of self.now)) }
    {
        match self {
            Input::Two(instance) => instance.find_reviewer(name),
            Input::Room(persons) => persons.find(name),
        }
    }
}
