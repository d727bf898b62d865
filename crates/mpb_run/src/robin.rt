//! The round robin.

ghost use Rattle.std.specs.Prelude.{◌≡◌, ◌<◌, ◌^◌, [], ℕ, IfOk, length, slice_index, slice_index_or};
ghost use Rattle.mpb_spec.specs.Configs.{IsConfig, IsStartableAt};
ghost use Rattle.mpb_spec.specs.Plan.{plan_size};
ghost use Rattle.mpb_spec.specs.Journal.{IsComplete};
ghost use Rattle.mpb_start_laws.specs.Starts.{IsStartedOnce};
ghost use Rattle.mpb_spec.specs.Pulses.{HasCountsFor, logs_of, counts_of};
ghost use Rattle.mpb_robin.specs.Account.{AccountsForPulses, collected_count};
ghost use Rattle.mpb_robin.specs.RoundRobin.{IsRoundRobinOf, IsRoundRobinEnd, first_run, round};
ghost use Rattle.mpb_spec.specs.Agents.{agents_of};
ghost use Rattle.mpb_robin.specs.Rest.{IsRun};

use crate::ran::Ran;
use crate::run::Run;
use crate::turns::turn;
use mpb_board::{Board, agents};
use mpb_spec::Agent;
use mpt_base::NoMemory;
use std::alloc::Global;

// one turn of each agent
fn round(run: &mut Run, agents: &[Agent])
    requires run { IsRun run.old }
    requires agents { agents.now ≡ agents_of run.old.plan }
    ensures { run.new ≡ round run.old }
{
    for agent in agents {
        turn(run, *agent);
    }
}

// the run to its end
fn run_to_end(run: Run, agents: &[Agent]) -> Run
    requires run { run ≡ first_run run.plan }
    requires config { IsConfig run.plan }
    requires small { plan_size run.plan < 2 ^ 32 }
    requires agents { agents.now ≡ agents_of run.plan }
    ensures { IsRoundRobinEnd run.plan result }
{
    let mut run = run;
    while !run.quiet() {
        round(&mut run, agents);
    }
    run
}

/// Runs a board to its end: all agents take turns, round after round, until none may step. A
/// processor makes one step a turn, where it can. An I/O APIC takes its latch word and collects the
/// pins in it, else sends the message of its least due pin, else, once all devices have ended,
/// sweeps. A device begins, makes its words, a pulse on the latch or a step, and ends. All memory is
/// taken before the first step, so memory runs out there or not at all.
pub fn round_robin(alloc: Global, board: Board) -> Result<Ran, NoMemory>
    requires opening { board.journal ≡ [] }
    ensures plan { IfOk result (λ ran. ran.board.plan ≡ board.plan) }
    // Journal and logs are those of the round robin.
    ensures robin { IfOk result (λ ran. IsRoundRobinOf board.plan ran.board.journal (logs_of ran.account)) }
    // No agent may step any more, and all pulses are accounted for.
    ensures complete { IfOk result (λ ran. IsComplete board.plan ran.board.journal) }
    ensures accounts { IfOk result (λ ran. AccountsForPulses board.plan ran.board.journal (logs_of ran.account)) }
    // For each I/O APIC there are 24 counts, each of the journal's collections.
    ensures shape { IfOk result (λ ran. HasCountsFor (length board.plan.ios) ran.account) }
    ensures collected { IfOk result (λ ran. (a pin : ℕ) → a < length board.plan.ios → pin < 24 → slice_index (slice_index_or (counts_of ran.account) a []) pin ≡ collected_count a pin ran.board.journal) }
    // Each other processor is started once, at the page.
    ensures started { IfOk result (λ ran. (page : ℕ) → IsStartableAt page board.plan → IsStartedOnce page board.plan ran.board.journal) }
{
    let Ok(agents) = agents(alloc, board.config()) else {
        return Err(NoMemory);
    };
    let run = match Run::new(alloc, board) {
        Ok(run) => run,
        Err(error) => return Err(error),
    };
    Ok(run_to_end(run, agents.as_slice()).ran())
}
