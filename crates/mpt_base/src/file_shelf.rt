//! A shelf over the files of the operating system. What files hold is outside what is proved.

ghost use Rattle.std.specs.Prelude.{◌≡◌, ◌+◌, ◌≤◌, ◌<◌, length, IfOk, OnOk, OnErr, IfNone, IfSome};
ghost use Rattle.mpt_base.specs.Outside.{Rose, IsSizeTold, FillsFromTold};
ghost use Rattle.mpt_base.specs.FileShelf.{untold_files, no_shelf_counts, counting_fault, counting_miss, counting_asked};

use crate::outside::{Failed, Shelf};
use std::alloc::Global;
use std::fs::OpenFile;
use std::io::{ErrorKind, Read, Seek, SeekFrom};
use std::marker::Model;
use std::rt::Files;
use std::{fs, io};

/// An open file, and the name that it was found by.
#[derive(Drop)]
struct NamedFile<F: Drop> {
    name: String,
    file: F,
}

/// A shelf over the files of the operating system, found by their paths.
///
/// A file is opened once, by the first call that names it, and stays open as long as the shelf: what
/// is put in its place under that name isn't seen. Its size is the place of its end. A file is absent
/// only where opening it says so. A folder, a file without an end to go to (a pipe, a terminal), one
/// that gives bytes although its end is at 0, missing rights, a range outside the file and any other
/// fault are failed calls, and so is want of memory for the name.
#[derive(Drop)]
pub struct FileShelf<'a, R: Files> {
    rt: &'a R,
    alloc: Global,
    opened: Vec<NamedFile<R::File>>,
    faults: u64,
    misses: u64,
    asked: u64,
}

impl<'a, R: Files> Model for FileShelf<'a, R> {
    ghost use Rattle.mpt_base.specs.FileShelf.{ShelfCounts};

    ghost Value = { ShelfCounts };

    ghost view = { λ s. record { faults = s.faults; misses = s.misses; asked = s.asked } };
}

impl<'a, R: Files> FileShelf<'a, R> {
    /// A shelf over the files that the runtime reaches. It takes no memory.
    pub fn new(rt: &'a R, alloc: Global) -> Self
        ensures { result ≡ no_shelf_counts }
    {
        FileShelf {
            rt,
            alloc,
            opened: Vec::new(alloc),
            faults: 0,
            misses: 0,
            asked: 0,
        }
    }

    // Counts a call that failed.
    fn failed(&mut self) -> Failed
        ensures counted { self.new ≡ counting_fault self.old }
        ensures rises { self.old.faults ≤ self.new.faults }
    {
        self.faults = self.faults.saturating_add(1);
        Failed
    }
}

impl<'a, R: Files> Shelf for FileShelf<'a, R> {
    ghost files = { λ _. untold_files };

    ghost faults = { λ shelf. shelf.faults };

    ghost misses = { λ shelf. shelf.misses };

    ghost asked = { λ shelf. shelf.asked };

    fn size(&mut self, name: &str) -> Result<Option<u64>, Failed>
        ensures faults_never_fall { self.old.faults ≤ self.new.faults }
        ensures misses_never_fall { self.old.misses ≤ self.new.misses }
        ensures asks_nothing { self.new.asked ≡ self.old.asked }
        ensures failed { OnErr result (Rose self.old.faults self.new.faults) }
        ensures unfailed { OnOk result (self.new.faults ≡ self.old.faults) }
        ensures missing { IfOk result (λ size. IfNone size (Rose self.old.misses self.new.misses)) }
        ensures found { IfOk result (λ size. IfSome size (λ _. self.new.misses ≡ self.old.misses)) }
        ensures unmissed { OnErr result (self.new.misses ≡ self.old.misses) }
        ensures told { IfOk result (λ size. IsSizeTold untold_files name.now size) }

        // Nothing else is counted.
        ensures after_found { IfOk result (λ size. IfSome size (λ _. self.new ≡ self.old)) }
        ensures after_missing { IfOk result (λ size. IfNone size (self.new ≡ counting_miss self.old)) }
        ensures after_err { OnErr result (self.new ≡ counting_fault self.old) }
    {
        match file_size(self.rt, self.alloc, &mut self.opened, name) {
            Ok(Some(size)) => Ok(Some(size)),
            Ok(None) => {
                self.misses = self.misses.saturating_add(1);
                Ok(None)
            }
            Err(_) => Err(self.failed()),
        }
    }

    fn read_at(&mut self, name: &str, at: u64, buf: &mut [u8]) -> Result<(), Failed>
        ensures faults_never_fall { self.old.faults ≤ self.new.faults }
        ensures misses_stay { self.new.misses ≡ self.old.misses }
        ensures asked_never_falls { self.old.asked ≤ self.new.asked }
        ensures asks_the_buffer { self.new.asked ≤ self.old.asked + length buf.old }
        ensures failed { OnErr result (Rose self.old.faults self.new.faults) }
        ensures unfailed { OnOk result (self.new.faults ≡ self.old.faults) }
        ensures told { OnOk result (FillsFromTold untold_files name.now at buf.new) }

        // Nothing else is counted.
        ensures after_ok { OnOk result (self.new ≡ counting_asked self.old (length buf.old)) }
        ensures after_err { OnErr result (self.new ≡ counting_fault (counting_asked self.old (length buf.old))) }
    {
        self.asked = self.asked.saturating_add(buf.len() as u64);
        match read_part(self.rt, self.alloc, &mut self.opened, name, at, buf) {
            Ok(()) => Ok(()),
            Err(_) => Err(self.failed()),
        }
    }
}

// The length of a file, and none where opening says that there is no such file.
fn file_size<R: Files>(
    rt: &R,
    alloc: Global,
    opened: &mut Vec<NamedFile<R::File>>,
    name: &str,
) -> io::Result<Option<u64>> {
    match open_once(rt, alloc, opened, name)? {
        Some(file) => Ok(Some(length_of(file)?)),
        None => Ok(None),
    }
}

// Fills the buffer from that place on. An empty buffer too has to lie inside the file.
fn read_part<R: Files>(
    rt: &R,
    alloc: Global,
    opened: &mut Vec<NamedFile<R::File>>,
    name: &str,
    at: u64,
    buf: &mut [u8],
) -> io::Result<()> {
    match open_once(rt, alloc, opened, name)? {
        Some(file) => fill_from(file, at, buf),
        None => Err(ErrorKind::NotFound.into()),
    }
}

// Fills the buffer with the bytes of a file from that place on.
fn fill_from<F: Read + Seek>(file: &mut F, at: u64, buf: &mut [u8]) -> io::Result<()> {
    if at > file.seek(SeekFrom::End(0))? {
        return Err(ErrorKind::UnexpectedEof.into());
    }
    file.seek(SeekFrom::Start(at))?;
    file.read_exact(buf)
}

// The file of that name: the one that is open, or else the one that is opened now and stays open.
// None where opening says that there is no such file.
fn open_once<'o, R: Files>(
    rt: &R,
    alloc: Global,
    opened: &'o mut Vec<NamedFile<R::File>>,
    name: &str,
) -> io::Result<Option<&'o mut R::File>> {
    if let Some(place) = place_of(opened, name) {
        return Ok(Some(&mut opened[place].file));
    }
    let file = match fs::open(rt, name) {
        Ok(file) => file,
        Err(error) if error.kind() == ErrorKind::NotFound => return Ok(None),
        Err(error) => return Err(error),
    };
    if file.metadata()?.is_dir() {
        return Err(ErrorKind::IsADirectory.into());
    }
    let place = opened.len();
    let name = String::from_str(alloc, name)?;
    opened.push(NamedFile { name, file })?;
    Ok(Some(&mut opened[place].file))
}

// Where the open file of that name stands.
fn place_of<F: Drop>(opened: &[NamedFile<F>], name: &str) -> Option<usize>
    ensures { IfSome result (λ place. place < length opened.now) }
{
    opened.iter().position(|file| file.name.as_str() == name)
}

// The length of a file: where its end is. One that has no bytes by its end, and yet gives one, tells
// no length.
fn length_of<F: Read + Seek>(file: &mut F) -> io::Result<u64> {
    let end = file.seek(SeekFrom::End(0))?;
    if end == 0 && file.read(&mut [0])? > 0 {
        return Err(ErrorKind::Unsupported.into());
    }
    Ok(end)
}
