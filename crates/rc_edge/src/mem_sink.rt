ghost use Rattle.std.specs.Prelude.{◌≡◌, ◌<◌, ◌≤◌, Some, IfOk, vec_len, vec_capacity};

use crate::planned::is_planned;
use crate::sink::{Sink, SinkFault};
use rc_instance::Memory;
use std::alloc::Global;

/// A sink in memory, some of whose puts fail by their number. It tells its bytes.
#[derive(Debug, Drop)]
pub struct MemSink {
    bytes: Vec<u8>,
    room: usize,
    most: usize,
    failing: Vec<u32>,
    puts: u64,
    faults: u64,

    /// The room was taken at once, so that no put takes memory.
    ghost reserved: { room ≤ vec_capacity bytes },

    /// It holds no more than its room.
    pub ghost within: { vec_len bytes ≤ room },

    /// A put that does not fail takes at least one byte of a piece that has any.
    ghost some: { 0 < most },

    /// With nothing in `failing`, a put failed only where the room is used up.
    pub ghost clean: { vec_len failing ≡ 0 → 0 < faults → vec_len bytes ≡ room },
}

impl MemSink {
    ghost use Rattle.rc_edge.specs.MemSink.{bytes_of, room_of, most_of, failing_of, IsUntouched};

    /// A sink with room for `room` bytes, which takes at most `most` of them in one put.
    ///
    /// Puts are numbered from 0. One whose number stands in `failing` fails.
    pub fn new(alloc: Global, room: usize, most: usize, failing: Vec<u32>) -> Result<Self, Memory>
        requires { 0 < most }
        ensures untouched { IfOk result IsUntouched }
        ensures room { IfOk result (λ sink. room_of sink ≡ room) }
        ensures most { IfOk result (λ sink. most_of sink ≡ most) }
        ensures failing { IfOk result (λ sink. failing_of sink ≡ failing.items) }
    {
        Ok(MemSink {
            bytes: Vec::with_capacity(alloc, room)?,
            room,
            most,
            failing,
            puts: 0,
            faults: 0,
        })
    }

    /// The bytes taken so far.
    pub fn bytes(&self) -> &[u8]
        ensures { result.now ≡ bytes_of self.now }
    {
        &self.bytes
    }
}

impl Sink for MemSink {
    ghost use Rattle.rc_edge.specs.Sink.{Puts, HasCause};
    ghost use Rattle.rc_edge.specs.MemSink.{bytes_of, room_of, failing_of, faults_of, Advances};

    ghost held = { λ s. Some (bytes_of s) };

    ghost faults = { faults_of };

    ghost failing = { λ s. Some (failing_of s) };

    ghost room = { λ s. Some (room_of s) };

    fn put(&mut self, piece: &[u8]) -> Result<usize, SinkFault>
        ensures bytes { Puts (Some (bytes_of self.old)) (Some (bytes_of self.new))
            piece.now result }
        ensures cause { HasCause (faults_of self.old) (faults_of self.new) result }
        ensures failing { failing_of self.new ≡ failing_of self.old }
        ensures room { room_of self.new ≡ room_of self.old }
        ensures advance { Advances self.old self.new piece.now result }
    {
        let left = self.room - self.bytes.len();
        let is_full = left == 0 && !piece.is_empty();
        let fails = is_planned(&self.failing, self.puts) || is_full;
        self.puts = self.puts.saturating_add(1);
        if fails {
            self.faults = self.faults.saturating_add(1);
            return Err(SinkFault::Failed);
        }
        let taken = piece.len().min(self.most).min(left);
        match self.bytes.extend_from_slice(&piece[..taken]) {
            Ok(()) => Ok(taken),
            Err(_) => unreachable!(),
        }
    }
}
