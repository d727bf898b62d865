//! The whole report.

ghost use Rattle.std.specs.Prelude.{◌≡◌, ◌++◌, IfOk, OnOk};
ghost use Rattle.std.specs.List.{concat};
ghost use Rattle.mpb_spec.specs.Pulses.{logs_of};
ghost use Rattle.mpb_report_spec.specs.Report.{journal_lines, report_of};

use crate::entry_lines::push_entry_lines;
use crate::log_lines::push_log_lines;
use crate::state_lines::push_state_lines;
use mpb_board::{Board, Entry};
use mpb_spec::Account;
use mpt_base::NoMemory;
use mpt_listing::{Part, push_line};
use std::alloc::{AllocError, Global};

/// The report of a run: the entries of the board's journal, the log of each device in the account, and
/// the state of the board. It takes memory for the text alone, and fails only where that runs out.
pub fn report_text(alloc: Global, board: &Board, account: &Account) -> Result<Vec<u8>, NoMemory>
    ensures text { IfOk result (λ t. t.items ≡ report_of board.now.plan board.now.journal (logs_of account.now)) }
{
    let mut out = Vec::new(alloc);
    match push_report(&mut out, board, account) {
        Ok(()) => Ok(out),
        Err(_) => Err(NoMemory),
    }
}

fn push_report(out: &mut Vec<u8>, board: &Board, account: &Account) -> Result<(), AllocError>
    ensures { OnOk result (out.new.items ≡ out.old.items ++ report_of board.now.plan board.now.journal (logs_of account.now)) }
{
    if let Err(error) = push_journal(out, board.journal()) {
        return Err(error);
    }
    if let Err(error) = push_log_lines(out, account.logs.as_slice()) {
        return Err(error);
    }
    match push_state_lines(out, board) {
        Ok(()) => push_line(out, &[Part::Text(b"end")]),
        Err(error) => Err(error),
    }
}

// the two lines at the head, and those of the entries
fn push_journal(out: &mut Vec<u8>, journal: &[Entry]) -> Result<(), AllocError>
    ensures { OnOk result (out.new.items ≡ out.old.items ++ concat (journal_lines journal.now)) }
{
    if let Err(error) = push_line(out, &[Part::Text(b"mpboot 1")]) {
        return Err(error);
    }
    match push_line(
        out,
        &[Part::Text(b"entries "), Part::Decimal(journal.len() as u64)],
    ) {
        Ok(()) => push_entry_lines(out, journal),
        Err(error) => Err(error),
    }
}
