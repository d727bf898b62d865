//! A shelf of files in memory, for tests: it fails at the calls that it was told, and counts.

ghost use Rattle.std.specs.Prelude.{◌≡◌, ◌+◌, ◌≤◌, ◌↔◌, length, Some, Option, IfOk, OnOk, OnErr, IfNone, IfSome, IsErr, option_copied};
ghost use Rattle.mpt_base.specs.Bytes.{part};
ghost use Rattle.mpt_base.specs.Outside.{Rose, IsSizeTold, IsInsideTold, FillsFromTold};
ghost use Rattle.mpt_base.specs.MemShelf.{file_of, empty_shelf, IsToFail, with_file, with_failing_call, after_call, after_failure, after_miss, asking};

use crate::outside::{Failed, NoMemory, Shelf};
use std::alloc::Global;
use std::collections::BTreeMap;
use std::marker::Model;

/// A shelf that keeps its files in memory.
///
/// Calls of `size` and `read_at` are counted together from 1; a call whose number was added fails.
#[derive(Drop)]
pub struct MemShelf {
    alloc: Global,
    files: BTreeMap<String, Vec<u8>>,
    failing: Vec<u64>,
    calls: u64,
    faults: u64,
    misses: u64,
    asked: u64,
}

impl Model for MemShelf {
    ghost use Rattle.std.specs.Prelude.{vec_items};
    ghost use Rattle.mpt_base.specs.MemShelf.{ShelfState, shelf_code, files_by_name};

    ghost Value = { ShelfState };

    ghost coded = { shelf_code };

    ghost view = { λ s. record { held = files_by_name vec_items s.files.entries; failing = s.failing.items; calls = s.calls; faults = s.faults; misses = s.misses; asked = s.asked } };
}

impl MemShelf {
    /// A shelf without files, which has no calls that fail.
    pub fn new(alloc: Global) -> MemShelf
        ensures { result ≡ empty_shelf }
    {
        MemShelf {
            alloc,
            files: BTreeMap::new(alloc),
            failing: Vec::new(alloc),
            calls: 0,
            faults: 0,
            misses: 0,
            asked: 0,
        }
    }

    /// Puts a file in the place of any file of that name.
    pub fn add(&mut self, name: &str, bytes: &[u8]) -> Result<(), NoMemory>
        ensures ok { OnOk result (self.new ≡ with_file self.old name.now bytes.now) }
        ensures err { OnErr result (self.new ≡ self.old) }
    {
        let Ok(key) = String::from_str(self.alloc, name) else {
            return Err(NoMemory);
        };
        let Ok(contents) = Vec::from_slice(self.alloc, bytes) else {
            return Err(NoMemory);
        };
        match self.files.insert(key, contents) {
            Ok(_) => Ok(()),
            Err(_) => Err(NoMemory),
        }
    }

    /// Adds the number of a call that fails.
    pub fn fail(&mut self, call: u64) -> Result<(), NoMemory>
        ensures ok { OnOk result (self.new ≡ with_failing_call self.old call) }
        ensures err { OnErr result (self.new ≡ self.old) }
    {
        match self.failing.push(call) {
            Ok(()) => Ok(()),
            Err(_) => Err(NoMemory),
        }
    }

    /// How many bytes were asked for by `read_at`, failed calls included.
    pub fn asked_bytes(&self) -> u64
        ensures { result ≡ self.now.asked }
    {
        self.asked
    }

    // Counts a call, which fails where its number was added.
    fn begin(&mut self) -> Result<(), Failed>
        ensures refused { IsErr result ↔ IsToFail self.old }
        ensures ok { OnOk result (self.new ≡ after_call self.old) }
        ensures err { OnErr result (self.new ≡ after_failure self.old) }
        ensures faults_never_fall { self.old.faults ≤ self.new.faults }
        ensures misses_stay { self.new.misses ≡ self.old.misses }
    {
        self.calls = self.calls.saturating_add(1);
        if self.failing.contains(&self.calls) {
            self.faults = self.faults.saturating_add(1);
            return Err(Failed);
        }
        Ok(())
    }

    // The file of that name, if there is one.
    fn file(&self, name: &str) -> Option<&[u8]>
        ensures { option_copied result ≡ file_of self.now name.now }
    {
        match self.files.get(name) {
            Some(bytes) => Some(bytes.as_slice()),
            None => None,
        }
    }
}

// Fills the buffer with the bytes from `at` on.
fn copy_part(bytes: &[u8], at: usize, buf: &mut [u8])
    requires { at + length buf.old ≤ length bytes.now }
    ensures { buf.new ≡ part bytes.now at (length buf.new) }
{
    buf.copy_from_slice(&bytes[at..at + buf.len()]);
}

impl Shelf for MemShelf {
    ghost files = { λ shelf. Some (file_of shelf) };

    ghost faults = { λ shelf. shelf.faults };

    ghost misses = { λ shelf. shelf.misses };

    ghost asked = { λ shelf. shelf.asked };

    fn size(&mut self, name: &str) -> Result<Option<u64>, Failed>
        ensures files_stay { Some (file_of self.new) ≡ Some (file_of self.old) }
        ensures faults_never_fall { self.old.faults ≤ self.new.faults }
        ensures misses_never_fall { self.old.misses ≤ self.new.misses }
        ensures asks_nothing { self.new.asked ≡ self.old.asked }
        ensures failed { OnErr result (Rose self.old.faults self.new.faults) }
        ensures unfailed { OnOk result (self.new.faults ≡ self.old.faults) }
        ensures missing { IfOk result (λ size. IfNone size (Rose self.old.misses self.new.misses)) }
        ensures found { IfOk result (λ size. IfSome size (λ _. self.new.misses ≡ self.old.misses)) }
        ensures unmissed { OnErr result (self.new.misses ≡ self.old.misses) }
        ensures told { IfOk result (λ size. IsSizeTold (Some (file_of self.old)) name.now size) }

        // A call fails exactly where it was told to.
        ensures refused { IsErr result ↔ IsToFail self.old }
        ensures after_found { IfOk result (λ size. IfSome size (λ _. self.new ≡ after_call self.old)) }
        ensures after_missing { IfOk result (λ size. IfNone size (self.new ≡ after_miss self.old)) }
        ensures after_err { OnErr result (self.new ≡ after_failure self.old) }
    {
        self.begin()?;
        match self.file(name) {
            Some(bytes) => Ok(Some(bytes.len() as u64)),
            None => {
                self.misses = self.misses.saturating_add(1);
                Ok(None)
            }
        }
    }

    fn read_at(&mut self, name: &str, at: u64, buf: &mut [u8]) -> Result<(), Failed>
        requires inside { IsInsideTold (Some (file_of self.old)) name.now at (length buf.old) }
        ensures files_stay { Some (file_of self.new) ≡ Some (file_of self.old) }
        ensures faults_never_fall { self.old.faults ≤ self.new.faults }
        ensures misses_stay { self.new.misses ≡ self.old.misses }
        ensures asked_never_falls { self.old.asked ≤ self.new.asked }
        ensures asks_the_buffer { self.new.asked ≤ self.old.asked + length buf.old }
        ensures failed { OnErr result (Rose self.old.faults self.new.faults) }
        ensures unfailed { OnOk result (self.new.faults ≡ self.old.faults) }
        ensures told { OnOk result (FillsFromTold (Some (file_of self.old)) name.now at buf.new) }

        // A call fails exactly where it was told to; what it asked for is counted all the same.
        ensures refused { IsErr result ↔ IsToFail self.old }
        ensures after_ok { OnOk result (self.new ≡ asking (after_call self.old) (length buf.old)) }
        ensures after_err { OnErr result (self.new ≡ asking (after_failure self.old) (length buf.old)) }
    {
        self.asked = self.asked.saturating_add(buf.len() as u64);
        self.begin()?;
        let Some(bytes) = self.file(name) else {
            unreachable!()
        };
        copy_part(bytes, at as usize, buf);
        Ok(())
    }
}
