//! A sink in memory, for tests: it keeps what was written, and fails at the calls that it was told.

ghost use Rattle.std.specs.Prelude.{◌≡◌, ◌+◌, ◌++◌, ◌≤◌, ◌↔◌, length, vec_len, vec_capacity, Option, IfOk, OnOk, OnErr, IsErr};
ghost use Rattle.mpt_base.specs.Outside.{Rose, Appends, AppendsPrefix};
ghost use Rattle.mpt_base.specs.MemSink.{empty_sink, IsRefused, after_piece, after_refusal, with_failing_put};

use crate::outside::{Failed, NoMemory, Sink};
use std::alloc::Global;
use std::marker::Model;

/// A sink that keeps its bytes in memory.
///
/// Room is taken once, and a piece that passes the room left is refused whole. Calls are counted
/// from 1; a call whose number was added fails, and writes nothing.
#[derive(Drop)]
pub struct MemSink {
    bytes: Vec<u8>,
    room: usize,
    failing: Vec<u64>,
    calls: u64,
    faults: u64,
}

impl Model for MemSink {
    ghost use Rattle.std.specs.Prelude.{◌≤◌, vec_len, vec_capacity};
    ghost use Rattle.mpt_base.specs.MemSink.{SinkState};

    ghost Value = { SinkState };

    ghost view = { λ s. record { written = s.bytes.items; room = s.room; failing = s.failing.items; calls = s.calls; faults = s.faults } };

    ghost invariant = { λ s. (vec_len s.bytes ≤ s.room) × (s.room ≤ vec_capacity s.bytes) };
}

impl MemSink {
    /// A sink with room for `room` bytes, which has no calls that fail.
    pub fn new(alloc: Global, room: usize) -> Result<MemSink, NoMemory>
        ensures empty { IfOk result (λ sink. sink ≡ empty_sink room) }
    {
        match Vec::with_capacity(alloc, room) {
            Ok(bytes) => Ok(MemSink {
                bytes,
                room,
                failing: Vec::new(alloc),
                calls: 0,
                faults: 0,
            }),
            Err(_) => Err(NoMemory),
        }
    }

    /// Adds the number of a call that fails.
    pub fn fail(&mut self, call: u64) -> Result<(), NoMemory>
        ensures ok { OnOk result (self.new ≡ with_failing_put self.old call) }
        ensures err { OnErr result (self.new ≡ self.old) }
    {
        match self.failing.push(call) {
            Ok(()) => Ok(()),
            Err(_) => Err(NoMemory),
        }
    }

    /// What was written so far.
    pub fn bytes(&self) -> &[u8]
        ensures { result.now ≡ self.now.written }
    {
        self.bytes.as_slice()
    }
}

impl Sink for MemSink {
    ghost use Rattle.std.specs.Prelude.{Some};

    ghost written = { λ sink. Some sink.written };

    ghost faults = { λ sink. sink.faults };

    fn put(&mut self, piece: &[u8]) -> Result<(), Failed>
        ensures faults_never_fall { self.old.faults ≤ self.new.faults }
        ensures failed { OnErr result (Rose self.old.faults self.new.faults) }
        ensures unfailed { OnOk result (self.new.faults ≡ self.old.faults) }
        ensures ok { OnOk result (Appends (Some self.old.written) (Some self.new.written) piece.now) }
        ensures err { OnErr result (AppendsPrefix (Some self.old.written) (Some self.new.written) piece.now) }

        // A call fails exactly where it was told to, or where the room ends.
        ensures refused { IsErr result ↔ IsRefused self.old piece.now }
        ensures after_ok { OnOk result (self.new ≡ after_piece self.old piece.now) }
        ensures after_err { OnErr result (self.new ≡ after_refusal self.old) }
    {
        self.calls = self.calls.saturating_add(1);
        if piece.len() > self.room - self.bytes.len() || self.failing.contains(&self.calls) {
            self.faults = self.faults.saturating_add(1);
            return Err(Failed);
        }
        append_within(&mut self.bytes, piece);
        Ok(())
    }
}

// Appends the piece to a vector that has the room for it.
fn append_within(bytes: &mut Vec<u8>, piece: &[u8])
    requires { vec_len bytes.old + length piece.now ≤ vec_capacity bytes.old }
    ensures items { bytes.new.items ≡ bytes.old.items ++ piece.now }
    ensures capacity { vec_capacity bytes.old ≤ vec_capacity bytes.new }
{
    match bytes.extend_from_slice(piece) {
        Ok(()) => {}
        Err(_) => unreachable!(),
    }
}
