//! What is noted of each agent of a side while one list is looked at.

ghost use Rattle.std.specs.Prelude.{◌≡◌, ℕ, ◌<◌, ◌^◌, ◌+◌, IfOk, None, is_some, length, replicate};
ghost use Rattle.sm_lists.specs.Kept.{Noted, noted_of, first_noted};

use std::alloc::{AllocError, Global};
use std::marker::Model;

/// A place that was noted for an agent, and the round in which it was.
#[derive(Clone, Copy)]
struct Note {
    stamp: u32,
    place: u32,
}

/// A place for each agent of a side, or none. All are taken away at once when the next round begins.
#[derive(Drop)]
pub(crate) struct Notes {
    notes: Vec<Note>,
    round: u32,
}

impl Model for Notes {
    ghost use Rattle.std.specs.Prelude.{ℕ, ◌≤◌, map, slice_index_or};
    ghost use Rattle.sm_lists.specs.Kept.{Noted, noted_in, no_note};

    ghost Value = { Noted };

    ghost view = { λ n. record { rounds = n.round; places = map (noted_in n.round) n.notes.items } };

    ghost invariant = { λ n. (1 ≤ n.round)
        × ((a : ℕ) → (slice_index_or n.notes.items a no_note).stamp ≤ n.round) };
}

impl Notes {
    /// Nothing is noted for so many agents.
    pub(crate) fn new(alloc: Global, agents: usize) -> Result<Notes, AllocError>
        ensures { IfOk result (λ notes. notes ≡ record { rounds = 1; places = replicate agents None }) }
    {
        let notes = vec![in alloc; Note { stamp: 0, place: 0 }; agents]?;
        Ok(Notes { notes, round: 1 })
    }

    /// Begins the next round, with nothing noted.
    pub(crate) fn clear(&mut self)
        requires { self.old.rounds + 1 < 2 ^ 32 }
        ensures { self.new ≡ record { rounds = self.old.rounds + 1; places = replicate (length self.old.places) None } }
    {
        self.round += 1;
    }

    /// Notes a place for an agent, unless one is noted or the agent isn't of this side. Whether one was noted.
    pub(crate) fn note(&mut self, a: u32, place: u32) -> bool
        ensures rounds { self.new.rounds ≡ self.old.rounds }
        ensures places { self.new.places ≡ first_noted (noted_of self.old.places a) self.old.places
            a place }
        ensures again { result ≡ is_some (noted_of self.old.places a) }
    {
        let at = a as usize;
        if at >= self.notes.len() {
            return false;
        }
        if self.notes[at].stamp == self.round {
            return true;
        }
        self.notes[at] = Note {
            stamp: self.round,
            place,
        };
        false
    }

    /// The place that is noted for an agent.
    pub(crate) fn place(&self, a: u32) -> Option<u32>
        ensures { result ≡ noted_of self.now.places a }
    {
        match self.notes.get(a as usize) {
            Some(note) if note.stamp == self.round => Some(note.place),
            _ => None,
        }
    }
}
