//! The top calls.

ghost use Rattle.std.specs.Prelude.{◌≡◌, MatchOption};
ghost use Rattle.mptab_walk.specs.Forms.{IsStill, IsAny, IsForm, form_of_still};
ghost use Rattle.mptab_walk.specs.Walk.{texts_of, IsNoForm};
ghost use Rattle.mptab_calls.specs.TopCall.{GivesAnswer, HasCause, IsWhole, HidesNoFailure, HidesNoMiss, AsksNoMore};

use crate::boot::give_of_boot;
use crate::giving::give;
use mpb_boot::{Gate, NoGate};
use mpt_base::{Shelf, Sink};
use mptab_walk::{Command, StillCommand, USAGE, command_of, deliver_line};
use std::alloc::Global;
use std::sync::Wait;
use std::thread::Threads;

// the form that needs no threads, if the words are one
fn still_of(words: &[String]) -> Option<StillCommand>
    ensures { MatchOption result (IsNoForm IsStill (texts_of words.now))
        (λ command. IsForm (form_of_still command) (texts_of words.now)) }
{
    match command_of(words) {
        Some(Command::Still(command)) => Some(command),
        Some(Command::Boot(files)) => {
            let _ = files;
            None
        }
        None => None,
    }
}

// the walk over words and files of the forms that need no threads
fn walk_still<S: Shelf, O: Sink>(alloc: Global, words: &[String], shelf: &mut S, out: &mut O) -> u8
    ensures answer { GivesAnswer IsStill S.Shelf O.Sink words.now shelf.old out.old shelf.new out.new result }
    ensures files_stay { S.files shelf.new ≡ S.files shelf.old }
    ensures asks { AsksNoMore IsStill S.Shelf O.Sink words.now shelf.old out.old shelf.new out.new }
{
    match still_of(words) {
        Some(command) => give(alloc, command, shelf, out),
        None => deliver_line(out, USAGE, &[b"mptab: usage"]),
    }
}

// the walk over words and files of each form
fn walk<R: Threads + Wait + Sync, S: Shelf, O: Sink, G: Gate + Sync>(
    rt: &R,
    alloc: Global,
    words: &[String],
    shelf: &mut S,
    out: &mut O,
    gate: &G,
) -> u8
    ensures answer { GivesAnswer IsAny S.Shelf O.Sink words.now shelf.old out.old shelf.new out.new result }
    ensures files_stay { S.files shelf.new ≡ S.files shelf.old }
    ensures asks { AsksNoMore IsAny S.Shelf O.Sink words.now shelf.old out.old shelf.new out.new }
{
    match command_of(words) {
        Some(Command::Still(command)) => give(alloc, command, shelf, out),
        Some(Command::Boot(files)) => give_of_boot(rt, alloc, files, shelf, out, gate),
        None => deliver_line(out, USAGE, &[b"mptab: usage"]),
    }
}

/// Does what the words say, and answers the status (docs/FORMATS.md). It never waits, and returns. The words of
/// a boot, which needs threads, are no listed form here.
///
/// The files are taken from the shelf in the order of the words: each is asked for its size, and one
/// past its limit isn't read. The whole text is made before it goes to the sink, in pieces of at most
/// 4,096 bytes. The first call of shelf or sink that fails ends the command.
pub fn run_still<S: Shelf, O: Sink>(
    alloc: Global,
    words: &[String],
    shelf: &mut S,
    out: &mut O,
) -> u8
    // Status and text are an answer of words and files; or a read failed, or memory ran out; or, with
    // status 5, a write failed.
    ensures answer { GivesAnswer IsStill S.Shelf O.Sink words.now shelf.old out.old shelf.new out.new result }

    // Each status has its cause.
    ensures cause { HasCause IsStill S.Shelf O.Sink words.now shelf.old out.old shelf.new out.new result }

    // Where no call fails, an answer comes whole, unless memory runs out.
    ensures complete { IsWhole IsStill S.Shelf O.Sink words.now shelf.old out.old shelf.new out.new result }

    // No failure is kept from the caller.
    ensures failures { HidesNoFailure S.Shelf O.Sink shelf.old out.old shelf.new out.new result }

    // Nor is a file that isn't there.
    ensures misses { HidesNoMiss S.Shelf O.Sink shelf.old out.old shelf.new out.new result }

    // No file is changed.
    ensures files_stay { S.files shelf.new ≡ S.files shelf.old }

    // No more is asked for than the files that the walk comes to let.
    ensures asks { AsksNoMore IsStill S.Shelf O.Sink words.now shelf.old out.old shelf.new out.new }
{
    walk_still(alloc, words, shelf, out)
}

/// The top call with a gate: does what the words say, and answers the status. Of a boot each agent's thread
/// passes the gate before each of its turns. It may wait for threads.
pub fn run_with<R: Threads + Wait + Sync, S: Shelf, O: Sink, G: Gate + Sync>(
    rt: &R,
    alloc: Global,
    words: &[String],
    shelf: &mut S,
    out: &mut O,
    gate: &G,
) -> u8
    // As of `run_still`, of every form.
    ensures answer { GivesAnswer IsAny S.Shelf O.Sink words.now shelf.old out.old shelf.new out.new result }
    ensures cause { HasCause IsAny S.Shelf O.Sink words.now shelf.old out.old shelf.new out.new result }
    ensures complete { IsWhole IsAny S.Shelf O.Sink words.now shelf.old out.old shelf.new out.new result }
    ensures failures { HidesNoFailure S.Shelf O.Sink shelf.old out.old shelf.new out.new result }
    ensures misses { HidesNoMiss S.Shelf O.Sink shelf.old out.old shelf.new out.new result }
    ensures files_stay { S.files shelf.new ≡ S.files shelf.old }
    ensures asks { AsksNoMore IsAny S.Shelf O.Sink words.now shelf.old out.old shelf.new out.new }
{
    walk(rt, alloc, words, shelf, out, gate)
}

/// The top call: does what the words say, and answers the status. It may wait for threads.
pub fn run<R: Threads + Wait + Sync, S: Shelf, O: Sink>(
    rt: &R,
    alloc: Global,
    words: &[String],
    shelf: &mut S,
    out: &mut O,
) -> u8
    // As of `run_still`, of every form.
    ensures answer { GivesAnswer IsAny S.Shelf O.Sink words.now shelf.old out.old shelf.new out.new result }
    ensures cause { HasCause IsAny S.Shelf O.Sink words.now shelf.old out.old shelf.new out.new result }
    ensures complete { IsWhole IsAny S.Shelf O.Sink words.now shelf.old out.old shelf.new out.new result }
    ensures failures { HidesNoFailure S.Shelf O.Sink shelf.old out.old shelf.new out.new result }
    ensures misses { HidesNoMiss S.Shelf O.Sink shelf.old out.old shelf.new out.new result }
    ensures files_stay { S.files shelf.new ≡ S.files shelf.old }
    ensures asks { AsksNoMore IsAny S.Shelf O.Sink words.now shelf.old out.old shelf.new out.new }
{
    run_with(rt, alloc, words, shelf, out, &NoGate)
}
