//! What the rows of reports that are read stand on: the answer to a text, and a report of which one line is another.

use mpb_report_parse::{LineWhy, Report, ReportFault, parse_report};
use std::alloc::{AllocError, Global};
use std::fmt::Debug;
use std::process::Abort;

/// Ends the test where the two differ, and prints both and the name of the row.
pub(crate) fn same<T: PartialEq + Debug + Drop>(rt: &impl Abort, name: &str, got: T, want: T) {
    assert_eq!(rt; got, want, "{name}");
}

/// The longest text that is asked about.
const LIMIT: usize = 1_048_576;

/// What `parse_report` answers to a text.
#[derive(Clone, Copy, Debug, PartialEq, Eq)]
pub(crate) enum Answer {
    /// The numbers of entries, logs, processors and I/O APICs.
    Report(usize, usize, usize, usize),
    /// The number of the first bad line.
    Form(u32),
    /// The number of the line that isn't there.
    Early(u32),
    /// The number of the line behind the last.
    Late(u32),
    NoMemory,
}

/// One text, and what `parse_report` answers to it.
pub(crate) struct Row {
    /// Why the answer is what it is.
    pub(crate) name: &'static str,
    /// The number of the line that stands in the place of the report's own.
    pub(crate) number: usize,
    /// That line, with its line feed.
    pub(crate) line: &'static [u8],
    pub(crate) answer: Answer,
}

/// The report of a text of at most 1 MiB, or its fault. A longer one isn't asked about.
pub(crate) fn report_of(alloc: Global, text: &[u8]) -> Result<Report, ReportFault> {
    if LIMIT < text.len() {
        return Err(ReportFault::NoMemory);
    }
    parse_report(alloc, text)
}

/// The answer to a text.
pub(crate) fn answer_to(alloc: Global, text: &[u8]) -> Answer {
    match report_of(alloc, text) {
        Ok(report) => Answer::Report(
            report.entries.as_slice().len(),
            report.logs.as_slice().len(),
            report.cpus.as_slice().len(),
            report.ios.as_slice().len(),
        ),
        Err(fault) => answer_of(fault),
    }
}

fn answer_of(fault: ReportFault) -> Answer {
    match fault {
        ReportFault::Line { line, why } => match why {
            LineWhy::Form => Answer::Form(line),
            LineWhy::Early => Answer::Early(line),
            LineWhy::Late => Answer::Late(line),
        },
        ReportFault::NoMemory => Answer::NoMemory,
    }
}

/// The text with another line in the place of the one of this number, or behind all of them.
pub(crate) fn with_line(
    alloc: Global,
    text: &[u8],
    number: usize,
    line: &[u8],
) -> Result<Vec<u8>, AllocError> {
    let mut out = Vec::new(alloc);
    let mut at = 1usize;
    if at == number {
        out.extend_from_slice(line)?;
    }
    for byte in text {
        if at != number {
            out.push(*byte)?;
        }
        if *byte == b'\n' {
            at = at.saturating_add(1);
            if at == number {
                out.extend_from_slice(line)?;
            }
        }
    }
    Ok(out)
}

/// The answer to each row's text.
pub(crate) fn same_answers(rt: &impl Abort, alloc: Global, text: &[u8], rows: &[Row]) {
    for row in rows {
        same_answer(rt, alloc, text, row);
    }
}

fn same_answer(rt: &impl Abort, alloc: Global, text: &[u8], row: &Row) {
    let Ok(changed) = with_line(alloc, text, row.number, row.line) else {
        panic!(rt; "out of memory");
    };
    let answer = answer_to(alloc, changed.as_slice());
    same(rt, row.name, answer, row.answer);
}
