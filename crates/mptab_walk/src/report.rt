//! The step of the walk that takes a report: its size, its limit, its bytes, what it says.

ghost use Rattle.std.specs.Prelude.{◌≡◌, ◌≤◌, ◌<◌, ◌+◌, ◌^◌, length, IfOk, IfErr};
ghost use Rattle.mpb_report_parse.specs.Reports.{IsReportOf};
ghost use Rattle.mptab_walk.specs.Forms.{Report as AReport};
ghost use Rattle.mptab_walk.specs.Commands.{ReportGives};
ghost use Rattle.mptab_walk.specs.Walk.{most_of};
ghost use Rattle.mptab_walk.specs.Ending.{IsEnding, IsUndisturbed, shelves_of};
ghost use Rattle.mptab_walk.specs.Limited.{IsRefusedBy, RefusesReport};

use crate::ending::{Ending, refused};
use crate::limited::take_bytes;
use crate::refusals::bad_report;
use mpb_report_parse::{Report, ReportFault, parse_report};
use mpt_base::Shelf;
use std::alloc::Global;

/// The most bytes of a report: 256 MiB.
const REPORT_LIMIT: u64 = 268_435_456;

/// What the report of this name says, or why the walk ends there.
pub(crate) fn take_report<S: Shelf>(
    alloc: Global,
    name: &str,
    shelf: &mut S,
) -> Result<Report, Ending>
    ensures files_stay { S.files shelf.new ≡ S.files shelf.old }
    ensures quiet { IfOk result (λ r. IsUndisturbed (shelves_of S.Shelf shelf.old shelf.new)) }
    ensures report { IfOk result (λ r. ReportGives (S.files shelf.old) name.now r) }
    ensures few { IfOk result (λ r. length r.entries < 2 ^ 32) }
    ensures ends { IfErr result (IsEnding (S.files shelf.old) (shelves_of S.Shelf shelf.old shelf.new) (AReport name.now)) }
    ensures asks { S.asked shelf.new ≤ S.asked shelf.old + most_of (S.files shelf.old) (AReport name.now) }
{
    match take_bytes(alloc, name, REPORT_LIMIT, shelf) {
        Ok(bytes) => report_in(alloc, bytes.as_slice()),
        Err(ending) => Err(ending),
    }
}

// what the text of a report says, or why it is refused
fn report_in(alloc: Global, text: &[u8]) -> Result<Report, Ending>
    requires { length text.now < 2 ^ 32 }
    ensures report { IfOk result (λ r. IsReportOf r text.now) }
    ensures few { IfOk result (λ r. length r.entries < 2 ^ 32) }
    ensures refused { IfErr result (IsRefusedBy (RefusesReport text.now)) }
{
    match parse_report(alloc, text) {
        Ok(report) => Ok(report),
        Err(ReportFault::Line { line, why }) => Err(refused(bad_report(alloc, line, why))),
        Err(ReportFault::NoMemory) => Err(Ending::NoMemory),
    }
}
