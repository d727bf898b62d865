//! The whole report, line by line.

ghost use Rattle.std.specs.Prelude.{◌≡◌, ◌<◌, ◌≤◌, ◌+◌, ◌^◌, ℕ, min, length, IfSome, IfNone, IfOk, IfErr};
ghost use Rattle.mpb_report_spec.specs.Report.{end_line};
ghost use Rattle.mpb_report_line.specs.declared.report.Report.{Report as ReportOf};
ghost use Rattle.mpt_parse.specs.declared.fault.LineWhy.{LineWhy as WhyOf};
ghost use Rattle.mpt_parse.specs.Listings.{IsFirstBadLine};
ghost use Rattle.mpb_report_parse.specs.Reports.{IsReport, IsReportOf, IsCauseOf, AnswersReport, AnswersLine};
ghost use Rattle.mpb_report_parse.specs.Languages.{IsEnd, AreLogLines, AreEntryLines, IsFaultBehind, IsUnfinished, IsRightTail, tail_text, IsRightBehindCount, behind_count_text};

use crate::fault::ReportFault;
use crate::lists::{read_cpus, read_entries, read_ios, read_logs};
use mpb_report_line::{CpuLine, IoLine, Report, read_entry_count_line, read_imcr_line};
use mpb_spec::{Hit, Imcr, Pulse};
use mpt_line::read_text;
use mpt_parse::LineWhy;
use mpt_spec::Sequence;
use std::alloc::Global;

/// The report of which a text of fewer than 2^32 bytes is the text, or the first line out of the grammar.
///
/// Lines are counted from 1. Memory is taken for what the report says; where it runs out, that is the
/// answer.
pub fn parse_report(alloc: Global, text: &[u8]) -> Result<Report, ReportFault>
    requires { length text.now < 2 ^ 32 }
    // Each answer has its cause,
    ensures report { IfOk result (λ r. IsReportOf r text.now) }
    ensures few { IfOk result (λ r. length r.entries < 2 ^ 32) }
    ensures refused { IfErr result (IsCauseOf text.now) }
    // and comes where it is right, unless memory runs out.
    ensures only_report { (r : ReportOf) → IsReportOf r text.now → AnswersReport result r }
    ensures only_line { (n : ℕ) (why : WhyOf) → IsFirstBadLine IsReport text.now n why
        → AnswersLine result n why }
{
    read_report(alloc, text)
}

// The answer, with its cause.
fn read_report(alloc: Global, text: &[u8]) -> Result<Report, ReportFault>
    requires { length text.now < 2 ^ 32 }
    ensures report { IfOk result (λ r. IsReportOf r text.now) }
    ensures few { IfOk result (λ r. length r.entries < 2 ^ 32) }
    ensures fault { IfErr result (IsFaultBehind IsReport 0 text.now) }
{
    let Some(behind) = read_text(text, b"mpboot 1\n") else {
        return Err(unfinished(0, text));
    };
    let Some((count, rest)) = read_entry_count_line(behind) else {
        return Err(unfinished(1, behind));
    };
    read_behind_count(alloc, rest, count)
}

// The report whose entries, so many, stand behind the first two lines.
fn read_behind_count(alloc: Global, text: &[u8], count: u64) -> Result<Report, ReportFault>
    requires { length text.now + 10 < 2 ^ 32 }
    ensures report { IfOk result (λ r. IsRightBehindCount r count) }
    ensures whole { IfOk result (λ r. text.now ≡ behind_count_text r) }
    ensures few { IfOk result (λ r. length r.entries < 2 ^ 32) }
    ensures fault { (n : ℕ) → count ≡ min n 18446744073709551615
        → IfErr result (IsFaultBehind (AreEntryLines n 0) 2 text.now) }
{
    let Ok((entries, rest)) = read_entries(alloc, text, count) else {
        return Err(ReportFault::NoMemory);
    };
    if (entries.len() as u64) < count {
        return Err(unfinished((2 + entries.len()) as u32, rest));
    }
    match read_tail(alloc, rest, (2 + entries.len()) as u32) {
        Ok((logs, imcr, cpus, ios)) => Ok(Report {
            entries: Sequence::new(entries),
            logs: Sequence::new(logs),
            imcr,
            cpus: Sequence::new(cpus),
            ios: Sequence::new(ios),
        }),
        Err(fault) => Err(fault),
    }
}

// What stands behind the entries, the text behind so many lines: logs, the interrupt mode register,
// processors and I/O APICs.
fn read_tail(
    alloc: Global,
    text: &[u8],
    before: u32,
) -> Result<(Vec<Sequence<(Pulse, Hit)>>, Imcr, Vec<CpuLine>, Vec<IoLine>), ReportFault>
    requires { length text.now + before + 2 < 2 ^ 32 }
    ensures right { IfOk result (λ x. IsRightTail x.0.items x.2.items x.3.items) }
    ensures whole { IfOk result (λ x. text.now ≡ tail_text x.0.items x.1 x.2.items x.3.items) }
    ensures fault { IfErr result (IsFaultBehind (AreLogLines 0) before text.now) }
{
    let Ok((logs, rest)) = read_logs(alloc, text) else {
        return Err(ReportFault::NoMemory);
    };
    let before = before + logs.len() as u32;
    let Some((imcr, rest)) = read_imcr_line(rest) else {
        return Err(unfinished(before, rest));
    };
    let Ok((cpus, rest)) = read_cpus(alloc, rest) else {
        return Err(ReportFault::NoMemory);
    };
    let Ok((ios, rest)) = read_ios(alloc, rest) else {
        return Err(ReportFault::NoMemory);
    };
    match end_fault(before + 1 + cpus.len() as u32 + ios.len() as u32, rest) {
        Some(fault) => Err(fault),
        None => Ok((logs, imcr, cpus, ios)),
    }
}

// The fault behind so many valid lines, if what follows isn't the last line alone.
fn end_fault(before: u32, rest: &[u8]) -> Option<ReportFault>
    requires { before + 2 < 2 ^ 32 }
    ensures none { IfNone result (rest.now ≡ end_line) }
    ensures some { (a : ℕ) → IfSome result (IsFaultBehind (IsEnd a) before rest.now) }
{
    match read_text(rest, b"end\n") {
        None => Some(unfinished(before, rest)),
        Some(rest) if rest.is_empty() => None,
        Some(_) => Some(ReportFault::Line {
            line: before + 2,
            why: LineWhy::Late,
        }),
    }
}

// The fault behind so many valid lines, where no valid line follows and one is needed.
fn unfinished(before: u32, rest: &[u8]) -> ReportFault
    requires { before + 2 < 2 ^ 32 }
    ensures { IsUnfinished before rest.now result }
{
    let why = if rest.is_empty() {
        LineWhy::Early
    } else {
        LineWhy::Form
    };
    ReportFault::Line {
        line: before + 1,
        why,
    }
}
