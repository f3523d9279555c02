//! A source and a sink in memory that fail at chosen calls.

ghost use Rattle.std.specs.Prelude.{◌≡◌, ◌≤◌, ◌==◌, [], length, find, option_map, Some, IfOk};
ghost use Rattle.std.specs.List.{list_any};
ghost use Rattle.sm_io.specs.Faults.{Rose};

use crate::steady::SteadySource;
use crate::{Put, Sink, Source, Taken};
use std::alloc::{AllocError, Global};
use std::marker::Model;

/// Whether a call's number is in the list.
fn is_listed(failing: &[u64], call: u128) -> bool
    ensures { result ≡ list_any (λ number. number == call) failing.now }
{
    failing.iter().any(|number| u128::from(*number) == call)
}

/// The second part of the first pair with a call's number.
fn first_cut(failing: &[(u64, u32)], call: u128) -> Option<u32>
    ensures { result ≡ option_map (λ pair. pair.1) (find (λ pair. pair.0 == call) failing.now) }
{
    failing
        .iter()
        .find(|pair| u128::from(pair.0) == call)
        .map(|pair| pair.1)
}

/// A source over bytes in memory that fails at chosen calls. Calls are numbered from 1.
#[derive(Drop)]
pub struct MemSource {
    pieces: SteadySource,
    failing: Vec<u64>,
    calls: u64,
    faults: u64,
}

impl Model for MemSource {
    ghost use Rattle.sm_io.specs.InMemory.{SourceInMemory};

    ghost Value = { SourceInMemory };

    ghost view = { λ s. record { pieces = s.pieces; failing = s.failing.items; calls = s.calls; faults = s.faults } };
}

impl MemSource {
    /// A source that gives `bytes`, at most `piece` of them a call, and fails at the calls whose numbers are in `failing`.
    /// Takes constant time and no memory.
    pub fn new(bytes: Vec<u8>, piece: usize, failing: Vec<u64>) -> MemSource
        requires { 1 ≤ piece }
        ensures { result ≡ record {
          pieces = record { left = bytes.items; piece = piece };
          failing = failing.items;
          calls = 0;
          faults = 0;
        } }
    {
        MemSource {
            pieces: SteadySource::new(bytes, piece),
            failing,
            calls: 0,
            faults: 0,
        }
    }

    /// How many times `take` was called, whether it failed or not; the count stops at the greatest `u64`. Takes constant
    /// time and no memory.
    pub fn calls(&self) -> u64
        ensures { result ≡ self.now.calls }
    {
        self.calls
    }
}

impl Source for MemSource {
    ghost use Rattle.sm_io.specs.Source.{Takes};
    ghost use Rattle.sm_io.specs.InMemory.{TakesInMemory};

    ghost left = { λ s. Some s.pieces.left };

    ghost faults = { λ s. s.faults };

    /// Fails exactly at the chosen calls. Another call gives as many bytes as are left, fit `into` and are allowed a call,
    /// and `End` where that is none. Takes time in proportion to the chosen numbers and the bytes given, and no memory.
    fn take(&mut self, into: &mut [u8]) -> Taken
        ensures taken { Takes (Some self.old.pieces.left) (Some self.new.pieces.left) result
            into.new }
        ensures later { self.old.faults ≤ self.new.faults }
        ensures failed { result ≡ Taken.Failed → Rose self.old.faults self.new.faults }
        ensures exact { TakesInMemory self.old self.new result into.new }
    {
        let is_failing = is_listed(&self.failing, u128::from(self.calls) + 1);
        self.calls = self.calls.saturating_add(1);
        if is_failing {
            self.faults = self.faults.saturating_add(1);
            return Taken::Failed;
        }
        self.pieces.take(into)
    }
}

/// A sink in memory that has a limit and fails at chosen calls. Calls are numbered from 1.
#[derive(Drop)]
pub struct MemSink {
    bytes: Vec<u8>,
    room: usize,
    failing: Vec<(u64, u32)>,
    calls: u64,
    faults: u64,
}

impl Model for MemSink {
    ghost use Rattle.std.specs.Prelude.{◌≤◌, vec_len, vec_capacity};
    ghost use Rattle.sm_io.specs.InMemory.{SinkInMemory};

    ghost Value = { SinkInMemory };

    ghost view = { λ s. record {
      held = s.bytes.items;
      room = s.room;
      failing = s.failing.items;
      calls = s.calls;
      faults = s.faults;
    } };

    ghost invariant = { λ s. (vec_len s.bytes ≤ s.room) × (s.room ≤ vec_capacity s.bytes) };
}

impl MemSink {
    /// A sink that holds at most `room` bytes, for which it takes memory here and none later.
    ///
    /// A call whose number stands in a pair of `failing` fails and takes at most as many bytes as the pair says. Of several
    /// pairs with one number the first counts.
    ///
    /// # Errors
    ///
    /// `AllocError` where memory ran out, and only then.
    pub fn new(alloc: Global, room: usize, failing: Vec<(u64, u32)>) -> Result<MemSink, AllocError>
        ensures { IfOk result
            (λ sink. sink ≡ record {
              held = [];
              room = room;
              failing = failing.items;
              calls = 0;
              faults = 0;
            }) }
    {
        Ok(MemSink {
            bytes: Vec::with_capacity(alloc, room)?,
            room,
            failing,
            calls: 0,
            faults: 0,
        })
    }

    /// The bytes held, at most as many as the sink has room for. Takes constant time.
    pub fn held(&self) -> &[u8]
        ensures bytes { result.now ≡ self.now.held }
        ensures fits { length self.now.held ≤ self.now.room }
    {
        &self.bytes
    }

    /// How many times `put` was called, whether it failed or not; the count stops at the greatest `u64`. Takes constant
    /// time and no memory.
    pub fn calls(&self) -> u64
        ensures { result ≡ self.now.calls }
    {
        self.calls
    }
}

impl Sink for MemSink {
    ghost use Rattle.sm_io.specs.Sink.{Puts};
    ghost use Rattle.sm_io.specs.InMemory.{PutsInMemory};

    ghost held = { λ s. Some s.held };

    ghost faults = { λ s. s.faults };

    /// Fails exactly at the chosen calls, and where the piece doesn't fit. It then takes as many bytes of it as are allowed
    /// and fit. Takes time in proportion to the chosen pairs and the piece, and no memory.
    fn put(&mut self, piece: &[u8]) -> Put
        ensures taken { Puts (Some self.old.held) (Some self.new.held) result piece.now }
        ensures later { self.old.faults ≤ self.new.faults }
        ensures failed { result ≡ Put.Failed → Rose self.old.faults self.new.faults }
        ensures exact { PutsInMemory self.old self.new result piece.now }
    {
        let cut = first_cut(&self.failing, u128::from(self.calls) + 1);
        self.calls = self.calls.saturating_add(1);
        let free = self.room - self.bytes.len();
        let most = cut.map_or(piece.len(), |most| most as usize);
        let count = most.min(free).min(piece.len());
        // There is room, so this takes no memory.
        self.bytes.extend_from_slice(&piece[..count]).unwrap();
        if cut.is_none() && piece.len() <= free {
            return Put::Done;
        }
        self.faults = self.faults.saturating_add(1);
        Put::Failed
    }
}
