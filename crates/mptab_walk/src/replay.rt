//! What `replay` gives.

ghost use Rattle.std.specs.Prelude.{◌≡◌, ◌≤◌, ◌<◌, ◌+◌, ◌^◌, ℕ, List, length, IfOk};
ghost use Rattle.mpb_spec.specs.Plan.{plan_size};
ghost use Rattle.mptab_walk.specs.Forms.{Replay, Report as AReport, files_of};
ghost use Rattle.mptab_walk.specs.Commands.{IsJudged, verdict_status};
ghost use Rattle.mptab_walk.specs.Walk.{IsDueOf, IsDelivered, AsksOf, most_of, outside_of};
ghost use Rattle.mptab_walk.specs.Boards.{IsBoardGiven};

use crate::answer::Answer;
use crate::board::{refuse_board, take_board};
use crate::ending::{deliver_answer, refuse};
use crate::report::take_report;
use crate::status::{DONE, FINDINGS};
use crate::words::ReplayFiles;
use mpb_boards::verdict_line;
use mpb_replay::{Report, Verdict, replay};
use mpb_spec::Config;
use mpt_base::{NoMemory, Shelf, Sink};
use std::alloc::Global;

fn status_of(verdict: Verdict) -> u8
    ensures { result ≡ verdict_status verdict }
{
    match verdict {
        Verdict::Legal => DONE,
        Verdict::Bad { .. } => FINDINGS,
        Verdict::Unfinished { .. } => FINDINGS,
        Verdict::Log { .. } => FINDINGS,
        Verdict::Accounts { .. } => FINDINGS,
        Verdict::State { .. } => FINDINGS,
    }
}

// the verdict on a report of the config's board, and 1 where it is another than Legal
fn judged(alloc: Global, config: Config, report: &Report) -> Result<Answer, NoMemory>
    requires small { plan_size config < 2 ^ 32 }
    requires few { length report.now.entries < 2 ^ 32 }
    ensures { IfOk result (λ answer. IsJudged config report.now answer.status answer.text.items) }
{
    let Ok(verdict) = replay(alloc, config, report) else {
        return Err(NoMemory);
    };
    match verdict_line(alloc, verdict) {
        Ok(text) => Ok(Answer {
            status: status_of(verdict),
            text,
        }),
        Err(error) => Err(error),
    }
}

// takes the report, and delivers the verdict on it
fn give_of_report<S: Shelf, O: Sink>(
    alloc: Global,
    files: ReplayFiles,
    config: Config,
    shelf: &mut S,
    out: &mut O,
) -> u8
    requires { IsBoardGiven (S.files shelf.old) files.board.image.now files.board.script.now config }
    ensures due { (status : ℕ) × (text : List ℕ)
        × IsDueOf (S.files shelf.old) (outside_of S.Shelf O.Sink shelf.old out.old) (outside_of S.Shelf O.Sink shelf.new out.new) (Replay files.entry.board.image.now files.entry.board.script.now files.entry.report.now) status text
        × IsDelivered (outside_of S.Shelf O.Sink shelf.old out.old) (outside_of S.Shelf O.Sink shelf.new out.new) result status text }
    ensures files_stay { S.files shelf.new ≡ S.files shelf.old }
    ensures asks { S.asked shelf.new ≤ S.asked shelf.old + most_of (S.files shelf.old) (AReport files.entry.report.now) }
{
    match take_report(alloc, files.report, shelf) {
        Ok(report) => deliver_answer(judged(alloc, config, &report), out),
        Err(ending) => refuse(files.report, ending, out),
    }
}

/// Delivers the verdict on the report of the board that the other files describe, and answers the status.
pub fn give_of_replay<S: Shelf, O: Sink>(
    alloc: Global,
    files: ReplayFiles,
    shelf: &mut S,
    out: &mut O,
) -> u8
    ensures due { (status : ℕ) × (text : List ℕ)
        × IsDueOf (S.files shelf.old) (outside_of S.Shelf O.Sink shelf.old out.old) (outside_of S.Shelf O.Sink shelf.new out.new) (Replay files.entry.board.image.now files.entry.board.script.now files.entry.report.now) status text
        × IsDelivered (outside_of S.Shelf O.Sink shelf.old out.old) (outside_of S.Shelf O.Sink shelf.new out.new) result status text }
    ensures files_stay { S.files shelf.new ≡ S.files shelf.old }
    ensures asks { (n : ℕ) × (S.asked shelf.new ≤ S.asked shelf.old + n) × AsksOf (S.files shelf.old) (files_of (Replay files.entry.board.image.now files.entry.board.script.now files.entry.report.now)) n }
{
    match take_board(alloc, files.board, shelf) {
        Ok(config) => give_of_report(alloc, files, config, shelf, out),
        Err(ending) => refuse_board(files.board, ending, out),
    }
}
