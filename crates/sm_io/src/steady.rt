//! A source and a sink in memory that never fail.

ghost use Rattle.std.specs.Prelude.{◌≡◌, ◌≢◌, ◌≤◌, [], Some, IfOk, option_copied};

use crate::{Put, Sink, Source, Taken};
use std::alloc::{AllocError, Global};
use std::marker::Model;

/// A source over bytes in memory that never fails. Its count of faults is 0.
#[derive(Drop)]
pub struct SteadySource {
    bytes: Vec<u8>,
    start: usize,
    piece: usize,
}

impl Model for SteadySource {
    ghost use Rattle.std.specs.Prelude.{◌≤◌, drop, length};
    ghost use Rattle.sm_io.specs.Pieces.{Pieces};

    ghost Value = { Pieces };

    ghost view = { λ s. record { left = drop s.start s.bytes.items; piece = s.piece } };

    ghost invariant = { λ s. (s.start ≤ length s.bytes.items) × (1 ≤ s.piece) };
}

impl SteadySource {
    /// A source that gives `bytes`, at most `piece` of them a call. Takes constant time and no memory.
    pub fn new(bytes: Vec<u8>, piece: usize) -> SteadySource
        requires { 1 ≤ piece }
        ensures { result ≡ record { left = bytes.items; piece = piece } }
    {
        SteadySource {
            bytes,
            start: 0,
            piece,
        }
    }
}

impl Source for SteadySource {
    ghost use Rattle.sm_io.specs.Source.{Takes};
    ghost use Rattle.sm_io.specs.Pieces.{Gives};

    ghost left = { λ s. Some s.left };

    ghost faults = { λ _. 0 };

    /// Gives as many bytes as are left, fit `into` and are allowed a call. `End` where that is none; never `Failed`. Takes
    /// time in proportion to the bytes given, and no memory.
    #[tactic(auto, using(crate::proofs::PieceLemmas::given_bytes))]
    fn take(&mut self, into: &mut [u8]) -> Taken
        ensures taken { Takes (Some self.old.left) (Some self.new.left) result into.new }
        ensures never { result ≢ Taken.Failed }
        ensures gives { Gives self.old self.new result into.new }
    {
        let left = &self.bytes[self.start..];
        let count = self.piece.min(into.len()).min(left.len());
        if count == 0 {
            return Taken::End;
        }
        into[..count].copy_from_slice(&left[..count]);
        self.start += count;
        Taken::Got(count)
    }
}

/// A sink in memory that never fails. It tells the bytes put while they fit its room, and none from then on. Its count of faults is
/// 0.
#[derive(Drop)]
pub struct SteadySink {
    bytes: Vec<u8>,
    room: usize,
    is_over: bool,
}

impl Model for SteadySink {
    ghost use Rattle.std.specs.Prelude.{◌≤◌, vec_len, vec_capacity, if◌then◌else◌, Some, None};
    ghost use Rattle.sm_io.specs.Steady.{SteadyBytes};

    ghost Value = { SteadyBytes };

    ghost view = { λ s. record { held = if s.is_over then None else Some s.bytes.items; room = s.room } };

    ghost invariant = { λ s. (vec_len s.bytes ≤ s.room) × (s.room ≤ vec_capacity s.bytes) };
}

impl SteadySink {
    /// A sink that tells what was put while that is at most `room` bytes. It takes memory for them here, and none later.
    ///
    /// # Errors
    ///
    /// `AllocError` where memory ran out, and only then.
    pub fn new(alloc: Global, room: usize) -> Result<SteadySink, AllocError>
        ensures { IfOk result (λ sink. sink ≡ record { held = Some []; room = room }) }
    {
        Ok(SteadySink {
            bytes: Vec::with_capacity(alloc, room)?,
            room,
            is_over: false,
        })
    }

    /// All the bytes put so far, or `None` exactly where they are more than the sink has room for. Takes constant time.
    pub fn held(&self) -> Option<&[u8]>
        ensures { option_copied result ≡ self.now.held }
    {
        if self.is_over {
            None
        } else {
            Some(self.bytes.as_slice())
        }
    }
}

impl Sink for SteadySink {
    ghost use Rattle.sm_io.specs.Sink.{Puts};
    ghost use Rattle.sm_io.specs.Steady.{held_after};

    ghost held = { λ s. s.held };

    ghost faults = { λ _. 0 };

    /// Takes the piece; never `Failed`. Takes time in proportion to it, and no memory.
    fn put(&mut self, piece: &[u8]) -> Put
        ensures taken { Puts self.old.held self.new.held result piece.now }
        ensures done { result ≡ Put.Done }
        ensures after { self.new ≡ record self.old { held = held_after self.old piece.now } }
    {
        if self.is_over || self.room - self.bytes.len() < piece.len() {
            self.is_over = true;
        } else {
            // There is room, so this takes no memory.
            self.bytes.extend_from_slice(piece).unwrap();
        }
        Put::Done
    }
}
