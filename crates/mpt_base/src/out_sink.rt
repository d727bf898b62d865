//! A sink over the standard output. What leaves the process is outside what is proved.

ghost use Rattle.std.specs.Prelude.{◌≡◌, ◌≤◌, ◌<◌, length, IfOk, OnOk, OnErr};
ghost use Rattle.mpt_base.specs.Outside.{Rose, Appends, AppendsPrefix};
ghost use Rattle.mpt_base.specs.OutSink.{untold_bytes, no_sink_counts, counting_refusal};

use crate::outside::{Failed, Sink};
use std::alloc::Global;
use std::io::ErrorKind;
use std::marker::Model;

/// How many times in all a write is tried that signals interrupt.
const TRIES: u32 = 64;

/// A sink over the standard output.
///
/// A write that fails, or that takes nothing of what is left of a piece, is a failed call. One that a
/// signal interrupts before it took anything is tried again, 64 times in all.
#[derive(Drop)]
pub struct OutSink<'a, R: Print> {
    rt: &'a R,
    alloc: Global,
    faults: u64,
}

impl<'a, R: Print> Model for OutSink<'a, R> {
    ghost use Rattle.mpt_base.specs.OutSink.{SinkCounts};

    ghost Value = { SinkCounts };

    ghost view = { λ s. record { faults = s.faults } };
}

impl<'a, R: Print> OutSink<'a, R> {
    /// A sink over the runtime's standard output. It takes no memory.
    pub fn new(rt: &'a R, alloc: Global) -> Self
        ensures { result ≡ no_sink_counts }
    {
        OutSink {
            rt,
            alloc,
            faults: 0,
        }
    }
}

impl<'a, R: Print> Sink for OutSink<'a, R> {
    ghost written = { λ _. untold_bytes };

    ghost faults = { λ sink. sink.faults };

    fn put(&mut self, piece: &[u8]) -> Result<(), Failed>
        ensures faults_never_fall { self.old.faults ≤ self.new.faults }
        ensures failed { OnErr result (Rose self.old.faults self.new.faults) }
        ensures unfailed { OnOk result (self.new.faults ≡ self.old.faults) }
        ensures ok { OnOk result (Appends untold_bytes untold_bytes piece.now) }
        ensures err { OnErr result (AppendsPrefix untold_bytes untold_bytes piece.now) }

        // Nothing else is counted.
        ensures after_ok { OnOk result (self.new ≡ self.old) }
        ensures after_err { OnErr result (self.new ≡ counting_refusal self.old) }
    {
        let written = write_whole(self.rt, piece);
        if written.is_err() {
            self.faults = self.faults.saturating_add(1);
        }
        written
    }
}

// Writes the whole piece, in as many writes as it takes.
fn write_whole<R: Print>(rt: &R, piece: &[u8]) -> Result<(), Failed> {
    let mut rest = piece;
    while !rest.is_empty() {
        let taken = write_first(rt, rest)?;
        rest = &rest[taken..];
    }
    Ok(())
}

// Writes some first bytes, at least one. A write that a signal interrupted before it took anything is
// tried again, `TRIES` times in all.
fn write_first<R: Print>(rt: &R, bytes: &[u8]) -> Result<usize, Failed>
    ensures takes { IfOk result (λ taken. (0 < taken) × (taken ≤ length bytes.now)) }
{
    for _ in 0..TRIES {
        match rt.write_some(bytes) {
            Ok(0) => return Err(Failed),
            Ok(taken) => return Ok(taken),
            Err(error) if error.kind() == ErrorKind::Interrupted => {}
            Err(_) => return Err(Failed),
        }
    }
    Err(Failed)
}
