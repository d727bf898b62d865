//! A call: the walk over lent files, and the text handed to the caller.

ghost use Rattle.std.specs.Prelude.{◌≡◌, ◌∷◌, [], length, map};
ghost use Rattle.mptab_walk.specs.Texts.{no_memory_line};
ghost use Rattle.mptab_walk.specs.Walk.{texts_of};
ghost use Rattle.mptab_c.specs.Lent.{lent_files};
ghost use Rattle.mptab_c.specs.Files.{files_lent};
ghost use Rattle.mptab_c.specs.Given.{Gives, IsHanded};

use crate::lent_shelf::{LentFile, LentShelf};
use crate::text_sink::TextSink;
use crate::words::owned;
use mptab_calls::run_still;
use std::alloc::Global;

/// The status of a sink that failed.
const CANNOT_WRITE: u8 = 5;
/// The status for want of memory.
const NO_MEMORY: u8 = 9;
/// The status of a text that passes the caller's room.
const NO_ROOM: u8 = 64;

/// Gives status and text of these words with these files.
pub(crate) fn give(
    alloc: Global,
    words: &[&str],
    files: &[LentFile],
    out: &mut [u8],
    needed: &mut usize,
) -> u8
    ensures { Gives (lent_files (files_lent files.now)) (map (λ word. word.now) words.now) out.old out.new needed.new result }
{
    match owned(alloc, words) {
        Ok(words) => walk(alloc, words.as_slice(), files, out, needed),
        Err(_) => refuse(out, needed),
    }
}

// The same of words as the top call takes them.
fn walk(
    alloc: Global,
    words: &[String],
    files: &[LentFile],
    out: &mut [u8],
    needed: &mut usize,
) -> u8
    ensures { Gives (lent_files (files_lent files.now)) (texts_of words.now) out.old out.new needed.new result }
{
    let mut shelf = LentShelf::new(files);
    let mut text = TextSink::new(alloc);
    let status = run_still(alloc, words, &mut shelf, &mut text);
    // A sink that keeps the text fails only where memory runs out.
    if status == CANNOT_WRITE {
        return refuse(out, needed);
    }
    hand(status, text.bytes(), out, needed)
}

/// Says that memory ran out.
pub(crate) fn refuse(out: &mut [u8], needed: &mut usize) -> u8
    ensures needed { needed.new ≡ length no_memory_line }
    ensures handed { IsHanded 9 no_memory_line out.old out.new result }
{
    hand(NO_MEMORY, b"mptab: no memory\n", out, needed)
}

// Hands a text to the caller, where it fits.
fn hand(status: u8, text: &[u8], out: &mut [u8], needed: &mut usize) -> u8
    ensures needed { needed.new ≡ length text.now }
    ensures handed { IsHanded status text.now out.old out.new result }
{
    *needed = text.len();
    if text.len() > out.len() {
        return NO_ROOM;
    }
    out[..text.len()].copy_from_slice(text);
    status
}
