//! Tables as rows say them, and their listings.

use crate::harness::text_of;
use mptab_cases::boots::{Entry, Tables};
use mptab_cases::usual::usual;
use std::alloc::Global;
use std::test::Fail;

/// The lines of an entry: how each begins, the least and the greatest id, how each ends.
type Lines = (&'static str, u8, u8, &'static str);

const HEAD: &str = "mptable 1
pointer at 000F0000 table 000F0010 revision 04 features 0000000000
header revision 04 oem \"MPTAB   \" product \"BOARD       \" oemtable 00000000 oemsize 0000 local FEE00000 reserved 00
";

const CPU: &str = "processor id ";

const FIRST: &str =
    " version 10 flags 03 signature 00000000 features 00000000 reserved 0000000000000000\n";

const OTHER: &str =
    " version 10 flags 01 signature 00000000 features 00000000 reserved 0000000000000000\n";

const OFF: &str =
    " version 10 flags 00 signature 00000000 features 00000000 reserved 0000000000000000\n";

const IO: &str = "ioapic id ";

const IO_ON: &str = " version 11 flags 01 address FEC00000\n";

const IO_OFF: &str = " version 11 flags 00 address FEC00000\n";

fn lines_of(entry: &Entry) -> Lines {
    match entry {
        Entry::Boot(id) => (CPU, *id, *id, FIRST),
        Entry::Cpu(id) => (CPU, *id, *id, OTHER),
        Entry::Cpus(from, to) => (CPU, *from, *to, OTHER),
        Entry::CpuOff(id) => (CPU, *id, *id, OFF),
        Entry::Io(id) => (IO, *id, *id, IO_ON),
        Entry::Ios(from, to) => (IO, *from, *to, IO_ON),
        Entry::IoOff(id) => (IO, *id, *id, IO_OFF),
    }
}

/// Writes the lines of an entry.
fn push_entry(alloc: Global, text: &mut Vec<u8>, entry: &Entry) -> Result<(), Fail> {
    let (begin, from, to, end) = lines_of(entry);
    for id in from..=to {
        let line = format!(in alloc; "{begin}{id:02X}{end}")?;
        text.extend_from_slice(line.as_str().as_bytes())?;
    }
    Ok(())
}

/// Writes the lines of each of these entries.
fn push_entries(alloc: Global, text: &mut Vec<u8>, entries: &[Entry]) -> Result<(), Fail> {
    for entry in entries {
        push_entry(alloc, text, entry)?;
    }
    Ok(())
}

/// The listing of these tables.
pub(crate) fn listing_of(alloc: Global, tables: &Tables) -> Result<Vec<u8>, Fail> {
    match tables {
        Tables::Usual => text_of(alloc, usual()),
        Tables::Text(listing) => Ok(Vec::from_slice(alloc, listing)?),
        Tables::Listed(entries, lines) => listing_with(alloc, entries, lines),
    }
}

/// The listing of these entries and lines.
fn listing_with(alloc: Global, entries: &[Entry], lines: &[u8]) -> Result<Vec<u8>, Fail> {
    let mut text = Vec::from_slice(alloc, HEAD.as_bytes())?;
    push_entries(alloc, &mut text, entries)?;
    text.extend_from_slice(lines)?;
    text.extend_from_slice(b"end\n")?;
    Ok(text)
}
