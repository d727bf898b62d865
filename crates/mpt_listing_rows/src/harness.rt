//! What every theme stands on: the answer to a text, and a listing of which one line is another.

use mpt_parse::{LineWhy, ListingFault, parse};
use mpt_spec::Tables;
use std::alloc::{AllocError, Global};
use std::fmt::Debug;
use std::process::Abort;

/// Ends the test where the two differ, and prints both and the name of the row.
pub(crate) fn same<T: PartialEq + Debug + Drop>(rt: &impl Abort, name: &str, got: T, want: T) {
    assert_eq!(rt; got, want, "{name}");
}

/// The longest text that is asked about.
const LIMIT: usize = 4_194_304;

/// What `parse` answers to a text.
#[derive(Clone, Copy, Debug, PartialEq, Eq)]
pub(crate) enum Answer {
    Accepted,
    /// The number of the first bad line.
    Form(u32),
    /// The number of the line that isn't there.
    Early(u32),
    /// The number of the line behind the last.
    Late(u32),
    /// The bytes that don't fit.
    Unfit(u64),
    NoMemory,
}

/// One text, and what `parse` answers to it.
pub(crate) struct Row {
    /// Why the answer is what it is.
    pub(crate) name: &'static str,
    /// The number of the line that stands in the place of the listing's own.
    pub(crate) number: usize,
    /// That line, with its line feed.
    pub(crate) line: &'static [u8],
    pub(crate) answer: Answer,
}

/// The tables of a text of at most 4 MiB, or its fault. A longer one isn't asked about.
pub(crate) fn tables_of(alloc: Global, text: &[u8]) -> Result<Tables, ListingFault> {
    if LIMIT < text.len() {
        return Err(ListingFault::NoMemory);
    }
    parse(alloc, text)
}

/// The answer to a text.
pub(crate) fn answer_to(alloc: Global, text: &[u8]) -> Answer {
    match tables_of(alloc, text) {
        Ok(_) => Answer::Accepted,
        Err(fault) => answer_of(fault),
    }
}

fn answer_of(fault: ListingFault) -> Answer {
    match fault {
        ListingFault::Line { line, why } => match why {
            LineWhy::Form => Answer::Form(line),
            LineWhy::Early => Answer::Early(line),
            LineWhy::Late => Answer::Late(line),
        },
        ListingFault::DoesNotFit { bytes } => Answer::Unfit(bytes),
        ListingFault::NoMemory => Answer::NoMemory,
    }
}

/// Appends the text with another line in the place of the one of this number, or behind all of them.
fn push_with_line(
    out: &mut Vec<u8>,
    text: &[u8],
    number: usize,
    line: &[u8],
) -> Result<(), AllocError> {
    let mut at = 1usize;
    if at == number {
        out.extend_from_slice(line)?;
    }
    for byte in text {
        if at != number {
            out.push(*byte)?;
        }
        if *byte == b'\n' {
            at = at.saturating_add(1);
            if at == number {
                out.extend_from_slice(line)?;
            }
        }
    }
    Ok(())
}

/// The answer to each row's text.
pub(crate) fn same_answers(rt: &impl Abort, alloc: Global, text: &[u8], rows: &[Row]) {
    for row in rows {
        same_answer(rt, alloc, text, row);
    }
}

fn same_answer(rt: &impl Abort, alloc: Global, text: &[u8], row: &Row) {
    let mut changed = Vec::new(alloc);
    let pushed = push_with_line(&mut changed, text, row.number, row.line);
    pushed.expect(rt, "out of memory");
    let answer = answer_to(alloc, changed.as_slice());
    same(rt, row.name, answer, row.answer);
}
