//! The lines of files that are read and refused.

ghost use Rattle.std.specs.Prelude.{◌≡◌, ◌≢◌, map, IfOk};
ghost use Rattle.mpt_base.specs.Reason.{reason_number};
ghost use Rattle.mpt_listing.specs.Listing.{line};
ghost use Rattle.mpt_listing.specs.Part.{part_text};
ghost use Rattle.mpb_boards.specs.Lines.{script_fault_line, board_fault_line, IsScriptFault, IsBoardFault};
ghost use Rattle.mpf_pir.specs.declared.making.MakeFault.TheVariants as make;
ghost use Rattle.mpf_answers.specs.FaultLines.{madt_fault_line, many_processors_line, pir_fault_line, make_fault_line};
ghost use Rattle.mptab_walk.specs.Commands.{no_pointer_line, reason_name, fault_line, line_why_name, bad_line_line, bad_report_line, bad_calls_line, unfit_line};

use crate::answer::Answer;
use crate::status::{
    NO_BOARD, NO_CALLS, NO_MADT, NO_POINTER, NO_ROUTING_TABLE, NOT_LISTED, REFUSED,
};
use mpb_boards::{board_fault_line, script_fault_line};
use mpb_script::ScriptFault;
use mpb_spec::BoardError;
use mpf_answers::{madt_fault_line, make_fault_line, many_processors_line, pir_fault_line};
use mpf_madt::MadtReason;
use mpf_pir::{MakeFault, PirReason};
use mpt_base::{Fault, NoMemory, Reason};
use mpt_listing::{Part, push_line};
use mpt_parse::LineWhy;
use std::alloc::Global;

// an answer of one line
fn line_answer(alloc: Global, status: u8, parts: &[Part]) -> Result<Answer, NoMemory>
    ensures { IfOk result (λ a. (a.status ≡ status) × (a.text.items ≡ line (map part_text parts.now))) }
{
    let mut text = Vec::new(alloc);
    match push_line(&mut text, parts) {
        Ok(()) => Ok(Answer { status, text }),
        Err(_) => Err(NoMemory),
    }
}

/// The image has no floating pointer.
pub(crate) fn no_pointer(alloc: Global) -> Result<Answer, NoMemory>
    ensures { IfOk result (λ a. (a.status ≡ 6) × (a.text.items ≡ no_pointer_line)) }
{
    line_answer(
        alloc,
        NO_POINTER,
        &[Part::Text(b"mptab: no floating pointer")],
    )
}

/// The image has this first fault.
pub(crate) fn first_fault(alloc: Global, fault: Fault) -> Result<Answer, NoMemory>
    ensures { IfOk result (λ a. (a.status ≡ 7) × (a.text.items ≡ fault_line fault.at fault.why)) }
{
    line_answer(
        alloc,
        REFUSED,
        &[
            Part::Text(b"mptab: fault "),
            Part::Decimal(u64::from(number_of(fault.why))),
            Part::Text(b" "),
            Part::Text(name_of(fault.why)),
            Part::Text(b" at "),
            Part::Hex(8, fault.at),
        ],
    )
}

/// The listing has this first bad line.
pub(crate) fn bad_line(alloc: Global, number: u32, why: LineWhy) -> Result<Answer, NoMemory>
    ensures { IfOk result (λ a. (a.status ≡ 8) × (a.text.items ≡ bad_line_line number why)) }
{
    line_answer(
        alloc,
        NOT_LISTED,
        &[
            Part::Text(b"mptab: listing line "),
            Part::Decimal(u64::from(number)),
            Part::Text(b" "),
            Part::Text(line_why_name(why)),
        ],
    )
}

/// The report has this first bad line.
pub(crate) fn bad_report(alloc: Global, line: u32, why: LineWhy) -> Result<Answer, NoMemory>
    ensures { IfOk result (λ a. (a.status ≡ 8) × (a.text.items ≡ bad_report_line line why)) }
{
    line_answer(
        alloc,
        NOT_LISTED,
        &[
            Part::Text(b"mptab: report line "),
            Part::Decimal(u64::from(line)),
            Part::Text(b" "),
            Part::Text(line_why_name(why)),
        ],
    )
}

/// The tables, whose block has this many bytes, have no place in an image of 1 MiB.
pub(crate) fn unfit(alloc: Global, size: u64) -> Result<Answer, NoMemory>
    ensures { IfOk result (λ a. (a.status ≡ 8) × (a.text.items ≡ unfit_line size)) }
{
    line_answer(
        alloc,
        NOT_LISTED,
        &[Part::Text(b"mptab: does not fit "), Part::Decimal(size)],
    )
}

/// The script has this first fault.
pub(crate) fn bad_script(alloc: Global, fault: ScriptFault) -> Result<Answer, NoMemory>
    ensures { IfOk result (λ a. (a.status ≡ 8) × (a.text.items ≡ script_fault_line fault) × IsScriptFault fault) }
{
    match script_fault_line(alloc, fault) {
        Ok(text) => Ok(Answer {
            status: NOT_LISTED,
            text,
        }),
        Err(error) => Err(error),
    }
}

/// Tables and script describe no board, for this reason.
pub(crate) fn bad_board(alloc: Global, error: BoardError) -> Result<Answer, NoMemory>
    ensures { IfOk result (λ a. (a.status ≡ 11) × (a.text.items ≡ board_fault_line error) × IsBoardFault error) }
{
    match board_fault_line(alloc, error) {
        Ok(text) => Ok(Answer {
            status: NO_BOARD,
            text,
        }),
        Err(error) => Err(error),
    }
}

/// The MADT has this first fault.
pub(crate) fn bad_madt(alloc: Global, at: u64, why: MadtReason) -> Result<Answer, NoMemory>
    ensures { IfOk result (λ a. (a.status ≡ 13) × (a.text.items ≡ madt_fault_line at why)) }
{
    match madt_fault_line(alloc, at, why) {
        Ok(text) => Ok(Answer {
            status: NO_MADT,
            text,
        }),
        Err(error) => Err(error),
    }
}

/// There are this many processors, too many for a MADT.
pub(crate) fn many_processors(alloc: Global, n: u32) -> Result<Answer, NoMemory>
    ensures { IfOk result (λ a. (a.status ≡ 13) × (a.text.items ≡ many_processors_line n)) }
{
    match many_processors_line(alloc, n) {
        Ok(text) => Ok(Answer {
            status: NO_MADT,
            text,
        }),
        Err(error) => Err(error),
    }
}

/// The text of calls has this first bad line.
pub(crate) fn bad_calls(alloc: Global, line: u32) -> Result<Answer, NoMemory>
    ensures { IfOk result (λ a. (a.status ≡ 14) × (a.text.items ≡ bad_calls_line line)) }
{
    line_answer(
        alloc,
        NO_CALLS,
        &[
            Part::Text(b"mptab: pic line "),
            Part::Decimal(u64::from(line)),
            Part::Text(b" Form"),
        ],
    )
}

/// The PCI IRQ routing table has this first fault.
pub(crate) fn bad_pir(alloc: Global, at: u64, why: PirReason) -> Result<Answer, NoMemory>
    ensures { IfOk result (λ a. (a.status ≡ 15) × (a.text.items ≡ pir_fault_line at why)) }
{
    match pir_fault_line(alloc, at, why) {
        Ok(text) => Ok(Answer {
            status: NO_ROUTING_TABLE,
            text,
        }),
        Err(error) => Err(error),
    }
}

/// There is no PCI IRQ routing table of the platform, for this reason.
pub(crate) fn unmade_pir(alloc: Global, fault: MakeFault) -> Result<Answer, NoMemory>
    ensures { IfOk result (λ a. (a.status ≡ 15) × (a.text.items ≡ make_fault_line fault) × (fault ≢ make.NoMemory)) }
{
    match make_fault_line(alloc, fault) {
        Ok(text) => Ok(Answer {
            status: NO_ROUTING_TABLE,
            text,
        }),
        Err(error) => Err(error),
    }
}

fn line_why_name(why: LineWhy) -> &'static [u8]
    ensures { result.now ≡ line_why_name why }
{
    match why {
        LineWhy::Form => b"Form",
        LineWhy::Early => b"Early",
        LineWhy::Late => b"Late",
    }
}

fn number_of(why: Reason) -> u8
    ensures { result ≡ reason_number why }
{
    why as u8
}

fn name_of(why: Reason) -> &'static [u8]
    ensures { result.now ≡ reason_name why }
{
    match why {
        Reason::BadRevision => b"BadRevision",
        Reason::BadDefault => b"BadDefault",
        Reason::NoTable => b"NoTable",
        Reason::TableOutside => b"TableOutside",
        Reason::BadSignature => b"BadSignature",
        Reason::ShortLength => b"ShortLength",
        Reason::LengthOutside => b"LengthOutside",
        Reason::BadSum => b"BadSum",
        Reason::BadCount => b"BadCount",
        Reason::UnknownEntry => b"UnknownEntry",
        Reason::CutEntry => b"CutEntry",
        Reason::ExtOutside => b"ExtOutside",
        Reason::BadExtSum => b"BadExtSum",
        Reason::BadExtType => b"BadExtType",
        Reason::BadExtLength => b"BadExtLength",
        Reason::CutExtEntry => b"CutExtEntry",
    }
}
