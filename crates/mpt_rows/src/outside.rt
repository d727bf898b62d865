//! The shelf and the sink in memory, at calls that fail and at calls that don't, and the sink over the
//! standard output where signals interrupt its writes.

ghost use Rattle.std.specs.Prelude.{◌≤◌, length, IfOk};

use crate::harness::{same, same_size};
use mpt_base::{Failed, MemShelf, MemSink, OutSink, Shelf, Sink};
use std::alloc::Global;
use std::cell::Cell;
use std::fmt::Display;
use std::io;
use std::io::ErrorKind;
use std::process::Abort;

// puts a file on a shelf
fn add(rt: &impl Abort, shelf: &mut MemShelf, name: &str, bytes: &[u8]) {
    let added = shelf.add(name, bytes);
    same(rt, "a file is added", added, Ok(()));
}

// a file in the place of another, and the second call fails
fn second_call_fails(rt: &impl Abort, shelf: &mut MemShelf) {
    add(rt, shelf, "a", b"old");
    add(rt, shelf, "a", b"01234");
    same(rt, "adds a failing call", shelf.fail(2), Ok(()));
    same_size(rt, shelf, "a", Ok(Some(5)));
    same_size(rt, shelf, "a", Err(Failed));
    same_size(rt, shelf, "b", Ok(None));
    same_size(rt, shelf, "a", Ok(Some(5)));
    same(rt, "no byte was asked for", shelf.asked_bytes(), 0);
}

#[test]
fn shelf_fails_where_it_was_told(rt: HostRuntime) {
    let mut shelf = MemShelf::new(rt.alloc());
    second_call_fails(&rt, &mut shelf);
}

// three bytes of a file of five
fn part_is_read(rt: &impl Abort, shelf: &mut MemShelf) {
    let Ok(Some(5)) = shelf.size("a") else {
        panic!(rt; "no file of 5 bytes");
    };
    let mut buf = [0; 3];
    let read = shelf.read_at("a", 1, &mut buf);
    same(rt, "reads the file", read, Ok(()));
    same(rt, "the bytes from 1 on", buf, *b"123");
    same(rt, "3 bytes were asked for", shelf.asked_bytes(), 3);
}

#[test]
fn shelf_reads_from_a_place(rt: HostRuntime) {
    let mut shelf = MemShelf::new(rt.alloc());
    add(&rt, &mut shelf, "a", b"01234");
    part_is_read(&rt, &mut shelf);
}

// what a sink answers to a piece
fn same_put(rt: &impl Abort, sink: &mut MemSink, piece: &str, want: Result<(), Failed>) {
    same(rt, piece, sink.put(piece.as_bytes()), want);
}

// pieces for a sink with room for five bytes, and the second call fails
fn five_bytes_are_taken(rt: &impl Abort, sink: &mut MemSink) {
    same(rt, "adds a failing call", sink.fail(2), Ok(()));
    same_put(rt, sink, "abc", Ok(()));
    same_put(rt, sink, "d", Err(Failed));
    same_put(rt, sink, "def", Err(Failed));
    same_put(rt, sink, "", Ok(()));
    same_put(rt, sink, "de", Ok(()));
    same_put(rt, sink, "f", Err(Failed));
    same(rt, "what was written", sink.bytes(), b"abcde".as_slice());
}

#[test]
fn sink_ends_at_its_room(rt: HostRuntime) {
    let mut sink = MemSink::new(rt.alloc(), 5).expect(&rt, "no sink");
    five_bytes_are_taken(&rt, &mut sink);
}

/// A standard output on which signals interrupt the next writes; each later one takes at most 2 bytes.
#[derive(Drop)]
struct Interrupted {
    left: Cell<u32>,
    taken: Cell<usize>,
}

impl Print for Interrupted {
    fn print<D: Display + Drop>(&self, _: D) -> io::Result<()> {
        Err(ErrorKind::Unsupported.into())
    }

    fn println<D: Display + Drop>(&self, _: D) -> io::Result<()> {
        Err(ErrorKind::Unsupported.into())
    }

    fn write_all(&self, _: &[u8]) -> io::Result<()> {
        Err(ErrorKind::Unsupported.into())
    }

    fn write_some(&self, bytes: &[u8]) -> io::Result<usize>
        ensures bound { IfOk result (λ n. n ≤ length bytes.now) }
    {
        let left = self.left.get();
        if left > 0 {
            self.left.set(left - 1);
            return Err(ErrorKind::Interrupted.into());
        }
        let taken = bytes.len().min(2);
        self.taken.set(self.taken.get().saturating_add(taken));
        Ok(taken)
    }
}

// what a sink over such an output answers to five bytes, and how many of them are taken
fn put_behind(alloc: Global, interrupts: u32) -> (Result<(), Failed>, usize) {
    let out = Interrupted {
        left: Cell::new(interrupts),
        taken: Cell::new(0),
    };
    let mut sink = OutSink::new(&out, alloc);
    let put = sink.put(b"abcde");
    (put, out.taken.get())
}

#[test]
fn interrupted_writes_are_tried_again(rt: HostRuntime) {
    for (interrupts, want) in [(0, (Ok(()), 5)), (63, (Ok(()), 5)), (64, (Err(Failed), 0))] {
        let got = put_behind(rt.alloc(), interrupts);
        same(
            &rt,
            "a number of interrupts",
            (interrupts, got),
            (interrupts, want),
        );
    }
}
