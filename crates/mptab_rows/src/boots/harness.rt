//! What every theme stands on: a row, the image of its tables, and the answer of the top call.

use crate::boots::tables::listing_of;
use crate::harness::{
    Answer, answer_of as still_answer_of, image_of_listing, same, sink_of, words_of,
};
use mpt_base::MemShelf;
use mptab_calls::run;
use mptab_cases::boots::{IMAGE, REPORT, Row, SCRIPT, Tables};
use std::alloc::Global;
use std::process::Abort;
use std::sync::Wait;
use std::test::Fail;
use std::thread::Threads;

/// The answer to these words. The put of this number fails; 0 is none.
pub(crate) fn answer_of<R: Threads + Wait + Sync>(
    rt: &R,
    alloc: Global,
    words: &[&str],
    shelf: &mut MemShelf,
    failing: u64,
) -> Result<Answer, Fail> {
    let owned = words_of(alloc, words)?;
    let mut sink = sink_of(alloc, failing)?;
    let status = run(rt, alloc, owned.as_slice(), shelf, &mut sink);
    Answer::with(alloc, status, &sink)
}

/// The image of these tables.
fn image_of(alloc: Global, tables: &Tables) -> Result<Vec<u8>, Fail> {
    let listing = listing_of(alloc, tables)?;
    image_of_listing(alloc, listing.as_slice())
}

/// A shelf with this script and this image.
fn shelf_with(alloc: Global, image: &[u8], script: &[u8]) -> Result<MemShelf, Fail> {
    let mut shelf = MemShelf::new(alloc);
    shelf.add(IMAGE, image)?;
    shelf.add(SCRIPT, script)?;
    Ok(shelf)
}

/// A shelf with this script and with the image of these tables.
pub(crate) fn shelf_of(alloc: Global, tables: &Tables, script: &[u8]) -> Result<MemShelf, Fail> {
    let image = image_of(alloc, tables)?;
    shelf_with(alloc, image.as_slice(), script)
}

/// The answer of a command to tables and a script, where no call fails.
pub(crate) fn answer_to<R: Threads + Wait + Sync>(
    rt: &R,
    alloc: Global,
    command: &str,
    tables: &Tables,
    script: &[u8],
) -> Result<Answer, Fail> {
    let mut shelf = shelf_of(alloc, tables, script)?;
    answer_of(rt, alloc, &[command, IMAGE, SCRIPT], &mut shelf, 0)
}

/// Whether an answer of a boot to the image and the script on the shelf is a report that is judged legal.
fn is_legal<R: Threads + Wait + Sync>(
    rt: &R,
    alloc: Global,
    answer: &Answer,
    shelf: &mut MemShelf,
) -> Result<bool, Fail> {
    shelf.add(REPORT, answer.text.as_slice())?;
    let verdict = answer_of(rt, alloc, &["replay", IMAGE, SCRIPT, REPORT], shelf, 0)?;
    Ok(answer.status == 0 && verdict.is(0, b"replay legal\n"))
}

/// Whether a boot over the image and the script on the shelf ends in a report that is judged legal.
pub(crate) fn boots_legally<R: Threads + Wait + Sync>(
    rt: &R,
    alloc: Global,
    shelf: &mut MemShelf,
) -> Result<bool, Fail> {
    let answer = answer_of(rt, alloc, &["boot", IMAGE, SCRIPT], shelf, 0)?;
    is_legal(rt, alloc, &answer, shelf)
}

/// Whether a command over the image and the script on the shelf is answered by this status with this text.
fn answers_over<R: Threads + Wait + Sync>(
    rt: &R,
    alloc: Global,
    command: &str,
    row: &Row,
    shelf: &mut MemShelf,
) -> Result<bool, Fail> {
    let answer = answer_of(rt, alloc, &[command, IMAGE, SCRIPT], shelf, 0)?;
    Ok(answer.reports(row.status, row.text))
}

/// Whether `boot` answers as the row says, word for word.
pub(crate) fn boots_so<R: Threads + Wait + Sync>(
    rt: &R,
    alloc: Global,
    row: &Row,
) -> Result<bool, Fail> {
    let mut shelf = shelf_of(alloc, &row.tables, row.script)?;
    answers_over(rt, alloc, "boot", row, &mut shelf)
}

/// Whether a command answers as the row says. A boot has many reports: one with status 0 has to be legal.
fn answers<R: Threads + Wait + Sync>(
    rt: &R,
    alloc: Global,
    command: &str,
    row: &Row,
) -> Result<bool, Fail> {
    let mut shelf = shelf_of(alloc, &row.tables, row.script)?;
    if command == "boot" && row.status == 0 {
        boots_legally(rt, alloc, &mut shelf)
    } else {
        answers_over(rt, alloc, command, row, &mut shelf)
    }
}

/// Whether each command answers as the row says.
fn is_answered<R: Threads + Wait + Sync>(
    rt: &R,
    alloc: Global,
    commands: &[&str],
    row: &Row,
) -> Result<bool, Fail> {
    for command in commands {
        if !answers(rt, alloc, command, row)? {
            return Ok(false);
        }
    }
    Ok(true)
}

/// The name of the first row to which one of these commands has another answer.
fn first_wrong<R: Threads + Wait + Sync>(
    rt: &R,
    alloc: Global,
    commands: &[&str],
    rows: &[Row],
) -> Result<Option<&'static str>, Fail> {
    for row in rows {
        if !is_answered(rt, alloc, commands, row)? {
            return Ok(Some(row.name));
        }
    }
    Ok(None)
}

/// Asserts that each of these commands answers each row as it says.
pub(crate) fn are_answered<R: Threads + Wait + Sync + Abort>(
    rt: &R,
    alloc: Global,
    commands: &[&str],
    name: &str,
    rows: &[Row],
) -> Result<(), Fail> {
    let wrong = first_wrong(rt, alloc, commands, rows)?;
    same(rt, name, wrong, None);
    Ok(())
}

/// Whether `trace` answers as the row says, by the call that starts no thread.
fn is_traced(alloc: Global, row: &Row) -> Result<bool, Fail> {
    let mut shelf = shelf_of(alloc, &row.tables, row.script)?;
    let answer = still_answer_of(alloc, &["trace", IMAGE, SCRIPT], &mut shelf, 0)?;
    Ok(answer.reports(row.status, row.text))
}

/// The name of the first row to which `trace` has another answer.
fn first_wrong_trace(alloc: Global, rows: &[Row]) -> Result<Option<&'static str>, Fail> {
    for row in rows {
        if !is_traced(alloc, row)? {
            return Ok(Some(row.name));
        }
    }
    Ok(None)
}

/// Asserts that `trace` answers each row as it says.
pub(crate) fn are_traced(rt: &impl Abort, alloc: Global, rows: &[Row]) -> Result<(), Fail> {
    let wrong = first_wrong_trace(alloc, rows)?;
    same(rt, "the first row with another report", wrong, None);
    Ok(())
}

/// Writes this word so many times.
fn push_words(text: &mut Vec<u8>, word: &str, times: usize) -> Result<(), Fail> {
    for _ in 0..times {
        text.extend_from_slice(word.as_bytes())?;
    }
    Ok(())
}

/// Ends the words, and fills a text up to a size by a comment.
fn push_comment(text: &mut Vec<u8>, size: usize) -> Result<(), Fail> {
    text.extend_from_slice(b"]\n#")?;
    for _ in text.len()..size {
        text.push(b' ')?;
    }
    Ok(())
}

/// The script with this word so many times for processor 0, and a comment that fills it up to a size.
pub(crate) fn script_of(
    alloc: Global,
    word: &str,
    times: usize,
    size: usize,
) -> Result<Vec<u8>, Fail> {
    let mut text = Vec::from_slice(alloc, b"page = 0x9F\n[[cpu]]\nid = 0\nwords = [")?;
    push_words(&mut text, word, times)?;
    push_comment(&mut text, size)?;
    Ok(text)
}
