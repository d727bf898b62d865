//! The lines of entries, logs, processors and I/O APICs, each kind one after another.

ghost use Rattle.std.specs.Prelude.{◌≡◌, ◌<◌, ◌≤◌, ◌^◌, ◌++◌, [], length, IfOk};
ghost use Rattle.std.specs.List.{AllByRecursion};
ghost use Rattle.mpt_line.specs.Lines.{BeginsWithNone};
ghost use Rattle.mpb_report_spec.specs.EntryLines.{entry_line};
ghost use Rattle.mpb_report_spec.specs.LogLines.{log_line};
ghost use Rattle.mpb_report_line.specs.Lines.{io_text};
ghost use Rattle.mpb_report_line.specs.Values.{IsRightEntry};
ghost use Rattle.mpb_report_parse.specs.Languages.{run_text, up, above, IsLogAt, IsCpuFrom, cpu_line_at, IsIoAt, AreFirstItems};

use mpb_report_line::{
    CpuLine, IoLine, read_cpu_line, read_entry_line, read_io_line, read_log_line,
};
use mpb_spec::{Entry, Hit, Pulse};
use mpt_spec::Sequence;
use std::alloc::{AllocError, Global};

// the bytes of the shortest line of an entry, as `0 io 0 eoi : due` with its line feed
const SHORTEST_LINE: usize = 17;

// room for as many entries as can stand in the text, at most `count`, so that it need not grow
fn room_for_entries(alloc: Global, text: &[u8], count: u64) -> Result<Vec<Entry>, AllocError>
    ensures { IfOk result (λ v. v.items ≡ []) }
{
    let most = text.len() / SHORTEST_LINE;
    let room = if (most as u64) < count {
        most
    } else {
        count as usize
    };
    Vec::with_capacity(alloc, room)
}

/// The entries whose lines begin the text, numbered from 0, at most `count`, and what follows them.
pub(crate) fn read_entries(
    alloc: Global,
    text: &[u8],
    count: u64,
) -> Result<(Vec<Entry>, &[u8]), AllocError>
    requires { length text.now < 2 ^ 32 }
    ensures whole { IfOk result (λ x. text.now ≡ run_text entry_line up 0 x.0.items ++ x.1.now) }
    ensures right { IfOk result (λ x. AllByRecursion IsRightEntry x.0.items) }
    ensures few { IfOk result (λ x. length x.0.items ≤ count) }
    ensures last { IfOk result (λ x. length x.0.items < count
        → BeginsWithNone (entry_line (length x.0.items)) IsRightEntry x.1.now) }
{
    let mut entries = room_for_entries(alloc, text, count)?;
    let mut rest = text;
    let mut number: u32 = 0;
    while u64::from(number) < count {
        let Some((entry, after)) = read_entry_line(rest, number) else {
            return Ok((entries, rest));
        };
        entries.push(entry)?;
        rest = after;
        number += 1;
    }
    Ok((entries, rest))
}

/// The logs whose lines begin the text, numbered from 0, at most four, and what follows them.
pub(crate) fn read_logs(
    alloc: Global,
    text: &[u8],
) -> Result<(Vec<Sequence<(Pulse, Hit)>>, &[u8]), AllocError>
    ensures { IfOk result (λ x. AreFirstItems log_line IsLogAt up 0 x.0.items text.now x.1.now) }
{
    let mut logs = Vec::new(alloc);
    let mut rest = text;
    for number in 0..4u32 {
        let Some((log, after)) = read_log_line(alloc, rest, number)? else {
            return Ok((logs, rest));
        };
        logs.push(log)?;
        rest = after;
    }
    Ok((logs, rest))
}

/// The processors whose lines begin the text, ascending by id, and what follows them.
pub(crate) fn read_cpus(alloc: Global, text: &[u8]) -> Result<(Vec<CpuLine>, &[u8]), AllocError>
    ensures { IfOk result (λ x. AreFirstItems cpu_line_at IsCpuFrom above 0 x.0.items text.now x.1.now) }
{
    let mut cpus = Vec::new(alloc);
    let mut rest = text;
    let mut low: u32 = 0;
    while let Some((cpu, after)) = read_cpu_line(alloc, rest)? {
        if u32::from(cpu.id) < low {
            return Ok((cpus, rest));
        }
        low = u32::from(cpu.id) + 1;
        cpus.push(cpu)?;
        rest = after;
    }
    Ok((cpus, rest))
}

/// The I/O APICs whose lines begin the text, by place from 0, at most four, and what follows them.
pub(crate) fn read_ios(alloc: Global, text: &[u8]) -> Result<(Vec<IoLine>, &[u8]), AllocError>
    ensures { IfOk result (λ x. AreFirstItems io_text IsIoAt up 0 x.0.items text.now x.1.now) }
{
    let mut ios = Vec::new(alloc);
    let mut rest = text;
    for place in 0..4u32 {
        let Some((io, after)) = read_io_line(rest, place) else {
            return Ok((ios, rest));
        };
        ios.push(io)?;
        rest = after;
    }
    Ok((ios, rest))
}
