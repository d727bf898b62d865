//! A sink that keeps the whole text.

ghost use Rattle.std.specs.Prelude.{◌≡◌, ◌≤◌, Some, OnOk, OnErr};
ghost use Rattle.mpt_base.specs.Outside.{Rose, Appends, AppendsPrefix};
ghost use Rattle.mptab_c.specs.Texts.{no_text};

use mpt_base::{Failed, Sink};
use std::alloc::Global;
use std::marker::Model;

/// A sink that keeps the text, and takes memory as it grows. A put fails only for want of memory.
#[derive(Drop)]
pub(crate) struct TextSink {
    bytes: Vec<u8>,
    faults: u64,
}

impl Model for TextSink {
    ghost use Rattle.mptab_c.specs.Texts.{Text};

    ghost Value = { Text };

    ghost view = { λ s. record { bytes = s.bytes.items; faults = s.faults } };
}

impl TextSink {
    /// A sink to which nothing was written.
    pub(crate) fn new(alloc: Global) -> TextSink
        ensures { result ≡ no_text }
    {
        TextSink {
            bytes: Vec::new(alloc),
            faults: 0,
        }
    }

    /// What was written.
    pub(crate) fn bytes(&self) -> &[u8]
        ensures { result.now ≡ self.now.bytes }
    {
        self.bytes.as_slice()
    }
}

impl Sink for TextSink {
    ghost written = { λ sink. Some sink.bytes };

    ghost faults = { λ sink. sink.faults };

    fn put(&mut self, piece: &[u8]) -> Result<(), Failed>
        ensures faults_never_fall { self.old.faults ≤ self.new.faults }
        ensures failed { OnErr result (Rose self.old.faults self.new.faults) }
        ensures unfailed { OnOk result (self.new.faults ≡ self.old.faults) }
        ensures ok { OnOk result (Appends (Some self.old.bytes) (Some self.new.bytes) piece.now) }
        ensures err { OnErr result (AppendsPrefix (Some self.old.bytes) (Some self.new.bytes) piece.now) }
    {
        match self.bytes.extend_from_slice(piece) {
            Ok(()) => Ok(()),
            Err(_) => {
                self.faults = self.faults.saturating_add(1);
                Err(Failed)
            }
        }
    }
}
