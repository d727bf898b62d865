//! A shelf of files in memory that the caller lends, none of which is copied.

ghost use Rattle.std.specs.Prelude.{◌≡◌, ◌+◌, ◌≤◌, length, Option, Some, None, IfOk, OnOk, OnErr, IfNone, IfSome, option_copied};
ghost use Rattle.mpt_base.specs.Outside.{Rose, IsSizeTold, IsInsideTold, FillsFromTold};
ghost use Rattle.mpt_base.specs.Bytes.{part};
ghost use Rattle.mptab_c.specs.Lent.{lent_files, untouched, no_faults};
ghost use Rattle.mptab_c.specs.Files.{files_lent};

use mpt_base::{Failed, Shelf};
use std::marker::Model;

/// A file under a name.
#[derive(Clone, Copy)]
pub(crate) struct LentFile<'a> {
    pub(crate) name: &'a str,
    pub(crate) bytes: &'a [u8],
}

/// A shelf of lent files. No call of it fails.
#[derive(Drop)]
pub(crate) struct LentShelf<'a> {
    files: &'a [LentFile<'a>],
    misses: u64,
    asked: u64,
}

impl<'a> Model for LentShelf<'a> {
    ghost use Rattle.mptab_c.specs.Lent.{LentState};
    ghost use Rattle.mptab_c.specs.Files.{files_lent};

    ghost Value = { LentState };

    ghost view = { λ s. record { files = files_lent s.files.now; misses = s.misses; asked = s.asked } };
}

impl<'a> LentShelf<'a> {
    /// A shelf with these files, of which none was asked for. Of two of one name the first is there.
    pub(crate) fn new(files: &'a [LentFile<'a>]) -> LentShelf<'a>
        ensures { result ≡ untouched (files_lent files.now) }
    {
        LentShelf {
            files,
            misses: 0,
            asked: 0,
        }
    }

    // The file of that name, if there is one.
    fn file(&self, name: &str) -> Option<&'a [u8]>
        ensures { option_copied result ≡ lent_files self.now.files name.now }
    {
        file_in(self.files, name)
    }
}

// The first of these files with that name, if there is one.
fn file_in<'a>(files: &'a [LentFile<'a>], name: &str) -> Option<&'a [u8]>
    ensures { option_copied result ≡ lent_files (files_lent files.now) name.now }
{
    match files {
        [first, rest @ ..] => {
            if name == first.name {
                Some(first.bytes)
            } else {
                file_in(rest, name)
            }
        }
        [] => None,
    }
}

// Fills the buffer with the bytes from `at` on.
fn copy_part(bytes: &[u8], at: usize, buf: &mut [u8])
    requires { at + length buf.old ≤ length bytes.now }
    ensures { buf.new ≡ part bytes.now at (length buf.new) }
{
    buf.copy_from_slice(&bytes[at..at + buf.len()]);
}

impl<'a> Shelf for LentShelf<'a> {
    ghost files = { λ shelf. Some (lent_files shelf.files) };

    ghost faults = { λ shelf. no_faults shelf };

    ghost misses = { λ shelf. shelf.misses };

    ghost asked = { λ shelf. shelf.asked };

    fn size(&mut self, name: &str) -> Result<Option<u64>, Failed>
        ensures files_stay { Some (lent_files self.new.files) ≡ Some (lent_files self.old.files) }
        ensures faults_never_fall { no_faults self.old ≤ no_faults self.new }
        ensures misses_never_fall { self.old.misses ≤ self.new.misses }
        ensures asks_nothing { self.new.asked ≡ self.old.asked }
        ensures failed { OnErr result (Rose (no_faults self.old) (no_faults self.new)) }
        ensures unfailed { OnOk result (no_faults self.new ≡ no_faults self.old) }
        ensures missing { IfOk result (λ size. IfNone size (Rose self.old.misses self.new.misses)) }
        ensures found { IfOk result (λ size. IfSome size (λ _. self.new.misses ≡ self.old.misses)) }
        ensures unmissed { OnErr result (self.new.misses ≡ self.old.misses) }
        ensures told { IfOk result (λ size. IsSizeTold (Some (lent_files self.old.files)) name.now size) }
    {
        match self.file(name) {
            Some(bytes) => Ok(Some(bytes.len() as u64)),
            None => {
                self.misses = self.misses.saturating_add(1);
                Ok(None)
            }
        }
    }

    fn read_at(&mut self, name: &str, at: u64, buf: &mut [u8]) -> Result<(), Failed>
        requires inside { IsInsideTold (Some (lent_files self.old.files)) name.now at (length buf.old) }
        ensures files_stay { Some (lent_files self.new.files) ≡ Some (lent_files self.old.files) }
        ensures faults_never_fall { no_faults self.old ≤ no_faults self.new }
        ensures misses_stay { self.new.misses ≡ self.old.misses }
        ensures asked_never_falls { self.old.asked ≤ self.new.asked }
        ensures asks_the_buffer { self.new.asked ≤ self.old.asked + length buf.old }
        ensures failed { OnErr result (Rose (no_faults self.old) (no_faults self.new)) }
        ensures unfailed { OnOk result (no_faults self.new ≡ no_faults self.old) }
        ensures told { OnOk result (FillsFromTold (Some (lent_files self.old.files)) name.now at buf.new) }
    {
        self.asked = self.asked.saturating_add(buf.len() as u64);
        let Some(bytes) = self.file(name) else {
            unreachable!()
        };
        copy_part(bytes, at as usize, buf);
        Ok(())
    }
}
