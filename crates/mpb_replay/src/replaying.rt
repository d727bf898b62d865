//! The verdict on a report.

ghost use Rattle.std.specs.Prelude.{◌≡◌, ◌<◌, ◌^◌, [], length, IfOk};
ghost use Rattle.mpb_spec.specs.Plan.{plan_size};
ghost use Rattle.mpb_spec.specs.Journal.{IsComplete};
ghost use Rattle.mpb_replay_laws.specs.Asked.{HasPulses, AllAccounted};
ghost use Rattle.mpb_replay_laws.specs.Verdict.{IsVerdict};

use crate::able::first_able;
use crate::accounts::wrong_account;
use crate::entries::play;
use crate::lines::wrong_line;
use crate::logs::wrong_log;
use mpb_board::{Board, Config};
use mpb_replay_laws::{Report, Verdict};
use mpt_base::NoMemory;
use std::alloc::Global;

// of a complete run that accounts for all pulses
fn judge_lines(board: &Board, report: &Report) -> Verdict
    requires played { board.now.journal ≡ report.now.entries }
    requires complete { IsComplete board.now.plan board.now.journal }
    requires pulses { HasPulses board.now.plan report.now.logs }
    requires accounted { AllAccounted board.now.plan board.now.journal report.now.logs }
    ensures { IsVerdict board.now.plan report.now result }
{
    match wrong_line(report, board) {
        Some(line) => Verdict::State { line },
        None => Verdict::Legal,
    }
}

// of a complete run whose logs are the pulses of the devices
fn judge_accounts(board: &Board, report: &Report) -> Verdict
    requires played { board.now.journal ≡ report.now.entries }
    requires complete { IsComplete board.now.plan board.now.journal }
    requires pulses { HasPulses board.now.plan report.now.logs }
    requires few { length report.now.entries < 2 ^ 32 }
    ensures { IsVerdict board.now.plan report.now result }
{
    let ios = board.config().ios.len() as u8;
    match wrong_account(report.entries.as_slice(), report.logs.as_slice(), ios) {
        Some(at) => Verdict::Accounts {
            io: at.io,
            pin: at.pin,
        },
        None => judge_lines(board, report),
    }
}

// of a complete run
fn judge_logs(board: &Board, report: &Report) -> Verdict
    requires played { board.now.journal ≡ report.now.entries }
    requires complete { IsComplete board.now.plan board.now.journal }
    requires few { length report.now.entries < 2 ^ 32 }
    ensures { IsVerdict board.now.plan report.now result }
{
    let devices = board.config().devices.as_slice();
    match wrong_log(report.logs.as_slice(), devices) {
        Some(device) => Verdict::Log { device },
        None => judge_accounts(board, report),
    }
}

// of a run whose entries are steps
fn judge(board: &Board, report: &Report) -> Verdict
    requires played { board.now.journal ≡ report.now.entries }
    requires few { length report.now.entries < 2 ^ 32 }
    ensures { IsVerdict board.now.plan report.now result }
{
    let _ = board.journal();
    match first_able(board) {
        Some(agent) => Verdict::Unfinished { agent },
        None => judge_logs(board, report),
    }
}

// of a board in its opening state
fn judge_entries(board: &mut Board, report: &Report) -> Verdict
    requires opening { board.old.journal ≡ [] }
    requires few { length report.now.entries < 2 ^ 32 }
    ensures { IsVerdict board.old.plan report.now result }
{
    match play(board, report.entries.as_slice()) {
        None => judge(board, report),
        Some(bad) => Verdict::Bad {
            entry: bad.entry,
            why: bad.why,
        },
    }
}

/// Judges a report of any origin, of a board with this config: its entries are made again on the board, and its
/// logs and the lines of the state are compared. The answer is the first verdict that applies: the first
/// entry that is no step; the least agent that can still step; the least device whose log isn't its pulses;
/// the least pin that isn't accounted for; the first line of the state that isn't the board's; Legal.
/// Conditions: fewer than 2^32 ops and pulses, and fewer than 2^32 entries.
pub fn replay(alloc: Global, config: Config, report: &Report) -> Result<Verdict, NoMemory>
    requires small { plan_size config < 2 ^ 32 }
    requires few { length report.now.entries < 2 ^ 32 }
    ensures verdict { IfOk result (λ v. IsVerdict config report.now v) }
{
    let mut board = match Board::new(alloc, config) {
        Ok(board) => board,
        Err(error) => return Err(error),
    };
    Ok(judge_entries(&mut board, report))
}
