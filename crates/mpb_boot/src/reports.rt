//! The report of a boot.

ghost use Rattle.std.specs.Prelude.{◌≡◌, ◌<◌, ◌^◌, ℕ, IfOk};
ghost use Rattle.mpb_spec.specs.Configs.{IsStartableAt};
ghost use Rattle.mpb_spec.specs.Plan.{plan_size};
ghost use Rattle.mpb_spec.specs.Journal.{IsComplete};
ghost use Rattle.mpb_start_laws.specs.Starts.{IsStartedOnce};
ghost use Rattle.mpb_spec.specs.Pulses.{logs_of};
ghost use Rattle.mpb_robin.specs.Account.{AccountsForPulses};
ghost use Rattle.mpb_robin.specs.RoundRobin.{IsRoundRobinOf};
ghost use Rattle.mpb_boards.specs.Boot.{IsTraceOf, IsWholeRunOf, IsBootOf};

use mpb_board::Board;
use mpb_crew::{Gate, threads};
use mpb_report::report_text;
use mpb_run::{Ran, round_robin};
use mpb_spec::Config;
use mpt_base::NoMemory;
use std::alloc::Global;
use std::sync::Wait;
use std::thread::Threads;

// the board of the config, run to its end
fn ran(alloc: Global, config: Config) -> Result<Ran, NoMemory>
    requires small { plan_size config < 2 ^ 32 }
    ensures plan { IfOk result (λ ran. ran.board.plan ≡ config) }
    ensures robin { IfOk result (λ ran. IsRoundRobinOf config ran.board.journal (logs_of ran.account)) }
    ensures complete { IfOk result (λ ran. IsComplete config ran.board.journal) }
    ensures accounts { IfOk result (λ ran. AccountsForPulses config ran.board.journal (logs_of ran.account)) }
    ensures started { IfOk result (λ ran. (page : ℕ) → IsStartableAt page config → IsStartedOnce page config ran.board.journal) }
{
    match Board::new(alloc, config) {
        Ok(board) => round_robin(alloc, board),
        Err(error) => Err(error),
    }
}

/// The report of the round robin of the config's board, whose agents take turns on one thread. It is that
/// of a run to the board's end, and where the boot program starts the other processors at a page, that of a
/// boot.
pub fn trace(alloc: Global, config: Config) -> Result<Vec<u8>, NoMemory>
    requires small { plan_size config < 2 ^ 32 }
    ensures trace { IfOk result (λ t. IsTraceOf config t.items) }
    ensures run { IfOk result (λ t. IsWholeRunOf config t.items) }
    ensures boot { IfOk result (λ t. (page : ℕ) → IsStartableAt page config → IsBootOf page config t.items) }
{
    match ran(alloc, config) {
        Ok(ran) => report_text(alloc, &ran.board, &ran.account),
        Err(error) => Err(error),
    }
}

// the board of the config, run to its end by threads
fn ran_by_threads<R: Threads + Wait + Sync, G: Gate + Sync>(
    rt: &R,
    alloc: Global,
    config: Config,
    gate: &G,
) -> Result<Ran, NoMemory>
    requires small { plan_size config < 2 ^ 32 }
    ensures plan { IfOk result (λ ran. ran.board.plan ≡ config) }
    ensures complete { IfOk result (λ ran. IsComplete config ran.board.journal) }
    ensures accounts { IfOk result (λ ran. AccountsForPulses config ran.board.journal (logs_of ran.account)) }
    ensures started { IfOk result (λ ran. (page : ℕ) → IsStartableAt page config → IsStartedOnce page config ran.board.journal) }
{
    match Board::new(alloc, config) {
        Ok(board) => threads(rt, alloc, board, gate),
        Err(error) => Err(error),
    }
}

/// The report of a run of the config's board to its end, each of whose agents has a thread of its own and
/// passes the gate before each of its turns. Where the boot program starts the other processors at a page,
/// it is that of a boot. It may wait.
pub fn boot<R: Threads + Wait + Sync, G: Gate + Sync>(
    rt: &R,
    alloc: Global,
    config: Config,
    gate: &G,
) -> Result<Vec<u8>, NoMemory>
    requires small { plan_size config < 2 ^ 32 }
    ensures run { IfOk result (λ t. IsWholeRunOf config t.items) }
    ensures boot { IfOk result (λ t. (page : ℕ) → IsStartableAt page config → IsBootOf page config t.items) }
{
    match ran_by_threads(rt, alloc, config, gate) {
        Ok(ran) => report_text(alloc, &ran.board, &ran.account),
        Err(error) => Err(error),
    }
}
