//! The outside world as two traits: a shelf of files that are read, and a sink that takes text.
//!
//! Each has a meaning that only contracts see. What the files hold and what was written is told by
//! some implementations (those in memory) and not by others (those over the operating system).
//! Failures are counted: a call may fail only where the count of faults rose, so that code which is
//! generic over a shelf or a sink can't give up by itself, and a call that succeeds leaves the count
//! as it was, so that such code can't hide a failure behind a later call. Files that aren't there are
//! counted too, by the call that asks for a size and says so, and by no other. A count stands still at
//! the last value of a `u64`.

ghost use Rattle.std.specs.Prelude.{◌≡◌, ◌+◌, ◌≤◌, ℕ, List, Option, length, OnOk, OnErr, IfOk, IfNone, IfSome};
ghost use Rattle.mpt_base.specs.Outside.{Rose, IsSizeTold, IsInsideTold, FillsFromTold, Appends, AppendsPrefix};

/// A call on the outside world failed. Nothing more is known of it.
#[derive(Clone, Copy, Debug, PartialEq, Eq)]
pub struct Failed;

/// Memory ran out.
#[derive(Clone, Copy, Debug, PartialEq, Eq)]
pub struct NoMemory;

/// A shelf of files, each found by its name.
pub trait Shelf {
    /// Where it is told: the bytes of the file of each name, and none where there is no such file.
    ghost files: { Self → Option (List ℕ → Option (List ℕ)) };

    /// How many calls failed.
    ghost faults: { Self → ℕ };

    /// How many calls found no file.
    ghost misses: { Self → ℕ };

    /// How many bytes were asked for.
    ghost asked: { Self → ℕ };

    /// The length of a file in bytes, and `None` where there is no such file.
    fn size(&mut self, name: &str) -> Result<Option<u64>, Failed>
        ensures files_stay { files self.new ≡ files self.old }
        ensures faults_never_fall { faults self.old ≤ faults self.new }
        ensures misses_never_fall { misses self.old ≤ misses self.new }
        ensures asks_nothing { asked self.new ≡ asked self.old }
        ensures failed { OnErr result (Rose (faults self.old) (faults self.new)) }
        ensures unfailed { OnOk result (faults self.new ≡ faults self.old) }
        ensures missing { IfOk result (λ size. IfNone size (Rose (misses self.old) (misses self.new))) }
        ensures found { IfOk result (λ size. IfSome size (λ _. misses self.new ≡ misses self.old)) }
        ensures unmissed { OnErr result (misses self.new ≡ misses self.old) }
        ensures told { IfOk result (λ size. IsSizeTold (files self.old) name.now size) };

    /// Fills the buffer with the bytes of a file from `at` on.
    fn read_at(&mut self, name: &str, at: u64, buf: &mut [u8]) -> Result<(), Failed>
        requires inside { IsInsideTold (files self.old) name.now at (length buf.old) }
        ensures files_stay { files self.new ≡ files self.old }
        ensures faults_never_fall { faults self.old ≤ faults self.new }
        ensures misses_stay { misses self.new ≡ misses self.old }
        ensures asked_never_falls { asked self.old ≤ asked self.new }
        ensures asks_the_buffer { asked self.new ≤ asked self.old + length buf.old }
        ensures failed { OnErr result (Rose (faults self.old) (faults self.new)) }
        ensures unfailed { OnOk result (faults self.new ≡ faults self.old) }
        ensures told { OnOk result (FillsFromTold (files self.old) name.now at buf.new) };
}

/// What takes text, piece by piece.
pub trait Sink {
    /// Where it is told: the bytes that were written so far.
    ghost written: { Self → Option (List ℕ) };

    /// How many calls failed.
    ghost faults: { Self → ℕ };

    /// Writes the piece at the end. A failed call may have written its first bytes.
    fn put(&mut self, piece: &[u8]) -> Result<(), Failed>
        ensures faults_never_fall { faults self.old ≤ faults self.new }
        ensures failed { OnErr result (Rose (faults self.old) (faults self.new)) }
        ensures unfailed { OnOk result (faults self.new ≡ faults self.old) }
        ensures ok { OnOk result (Appends (written self.old) (written self.new) piece.now) }
        ensures err { OnErr result (AppendsPrefix (written self.old) (written self.new) piece.now) };
}
