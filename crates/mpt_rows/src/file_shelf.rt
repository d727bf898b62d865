//! The shelf over the files of the operating system, on files that each test writes where it runs.

use crate::harness::{same, same_size};
use mpt_base::{Failed, FileShelf, Shelf};
use std::fs;
use std::process::Abort;
use std::rt::Files;

// what a shelf answers to a read of a file from a place
fn same_read(
    rt: &impl Abort,
    shelf: &mut FileShelf<'_, HostRuntime>,
    name: &str,
    at: u64,
    buf: &mut [u8],
    want: Result<(), Failed>,
) {
    let got = shelf.read_at(name, at, buf);
    same(rt, name, (at, got), (at, want));
}

// writes a file
fn write<R: Files + Abort>(rt: &R, name: &str, bytes: &[u8]) {
    fs::write(rt, name, bytes).expect(rt, "the file is not written");
}

// puts another file in the place of one
fn replace<R: Files + Abort>(rt: &R, name: &str) {
    write(rt, "other", b"new");
    fs::rename(rt, "other", name).expect(rt, "it gets no name");
}

// the sizes of two files, of one that is absent, and of names that are no files
fn sizes_are_told(rt: &impl Abort, shelf: &mut impl Shelf) {
    same_size(rt, shelf, "five", Ok(Some(5)));
    same_size(rt, shelf, "three", Ok(Some(3)));
    same_size(rt, shelf, "absent", Ok(None));
    same_size(rt, shelf, "five", Ok(Some(5)));
    same_size(rt, shelf, "five/below", Err(Failed));
    same_size(rt, shelf, ".", Err(Failed));
}

// the three bytes of a file from a place on
fn same_three(
    rt: &impl Abort,
    shelf: &mut FileShelf<'_, HostRuntime>,
    name: &str,
    at: u64,
    want: &[u8],
) {
    let mut buf = [0; 3];
    same_read(rt, shelf, name, at, &mut buf, Ok(()));
    same(rt, name, buf.as_slice(), want);
}

// parts of those two files, and parts that pass the end of one
fn parts_are_read(rt: &impl Abort, shelf: &mut FileShelf<'_, HostRuntime>) {
    same_three(rt, shelf, "three", 0, b"xyz");
    same_three(rt, shelf, "five", 1, b"123");
    same_read(rt, shelf, "five", 3, &mut [0; 3], Err(Failed));
    same_read(rt, shelf, "five", 6, &mut [], Err(Failed));
    same_read(rt, shelf, "five", 5, &mut [], Ok(()));
}

#[test]
fn files_are_found_by_their_names(rt: HostRuntime) {
    write(&rt, "five", b"01234");
    write(&rt, "three", b"xyz");
    let mut shelf = FileShelf::new(&rt, rt.alloc());
    sizes_are_told(&rt, &mut shelf);
    parts_are_read(&rt, &mut shelf);
}

// a file of nine bytes that another one replaces, and its bytes from 4 on
fn old_bytes_are_read<R: Files + Abort>(rt: &R, shelf: &mut FileShelf<'_, HostRuntime>) {
    same_size(rt, shelf, "kept", Ok(Some(9)));
    replace(rt, "kept");
    same_size(rt, shelf, "kept", Ok(Some(9)));
    let mut buf = [0; 5];
    same_read(rt, shelf, "kept", 4, &mut buf, Ok(()));
    same(rt, "the bytes from 4 on", buf, *b"bytes");
}

#[test]
fn replaced_file_is_not_seen(rt: HostRuntime) {
    write(&rt, "kept", b"old bytes");
    let mut shelf = FileShelf::new(&rt, rt.alloc());
    old_bytes_are_read(&rt, &mut shelf);
}

// files that are empty, and one that gives bytes although its end is at 0
fn ends_at_0_are_told(rt: &impl Abort, shelf: &mut impl Shelf) {
    same_size(rt, shelf, "empty", Ok(Some(0)));
    same_size(rt, shelf, "/dev/null", Ok(Some(0)));
    same_size(rt, shelf, "/dev/zero", Err(Failed));
}

// An end at 0 is the size of a file that gives no byte.
#[test]
fn file_that_tells_no_size_fails(rt: HostRuntime) {
    write(&rt, "empty", b"");
    let mut shelf = FileShelf::new(&rt, rt.alloc());
    ends_at_0_are_told(&rt, &mut shelf);
}
