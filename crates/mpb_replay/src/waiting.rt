//! Which agents a board has, and whether one has to wait.

ghost use Rattle.std.specs.Prelude.{◌≡◌, ◌<◌, ◌==◌, ◌&&◌, ◌||◌, not, true, is_some, length, map, slice_get};
ghost use Rattle.mpb_spec.specs.declared.agent.Agent.TheVariants.{Cpu};
ghost use Rattle.mpb_spec.specs.Numbers.{has};
ghost use Rattle.mpb_spec.specs.State.{runs, processor_of, boot_is_through};
ghost use Rattle.mpb_spec.specs.Steps.{due_at};
ghost use Rattle.mpb_board.specs.BoardView.{state_of};
ghost use Rattle.mpb_replay_laws.specs.Made.{made_by, op_of_plan, plan_with};
ghost use Rattle.mpb_replay_laws.specs.Wrong.{has_agent, has_to_wait, processor_waits, device_waits, place_waits, is_take, is_begin};

use crate::made::{all_ended, is_through, made_by, op_of_cpu};
use mpb_board::{Agent, Board, Config, CpuConfig, Life, Op};

fn has_id(cpus: &[CpuConfig], id: u8) -> bool
    ensures { result ≡ has id (map (λ p. p.id) cpus.now) }
{
    match cpus {
        [] => false,
        [cpu, rest @ ..] => cpu.id == id || has_id(rest, id),
    }
}

/// Whether the board has the agent.
pub(crate) fn has_agent(config: &Config, agent: Agent) -> bool
    ensures { result ≡ has_agent config.now agent }
{
    match agent {
        Agent::Cpu(id) => has_id(config.cpus.as_slice(), id),
        Agent::Io(place) => usize::from(place) < config.ios.len(),
        Agent::Dev(number) => usize::from(number) < config.devices.len(),
    }
}

fn runs(life: Life) -> bool
    ensures { result ≡ runs life }
{
    matches!(life, Life::Started(_) | Life::First)
}

fn is_take(op: Option<Op>) -> bool
    ensures { result ≡ is_take op }
{
    matches!(op, Some(Op::Take))
}

fn is_begin(op: Option<Op>) -> bool
    ensures { result ≡ is_begin op }
{
    matches!(op, Some(Op::Begin))
}

// what the processor with this id makes next by its program
fn next_op(board: &Board, id: u8) -> Option<Op>
    ensures { result ≡ op_of_plan (made_by (Cpu id) board.now.journal) (plan_with id board.now.plan.cpus) }
{
    let made = made_by(board.journal(), Agent::Cpu(id));
    op_of_cpu(board.config().cpus.as_slice(), id, made)
}

// a processor that doesn't run waits, and one at a Take with nothing to take
fn waits_at(runs: bool, asked: bool, next: bool, nothing: bool) -> bool
    ensures { result ≡ (not runs || (asked && (next && nothing))) }
{
    !runs || asked && next && nothing
}

// whether the processor with this id waits at the op
fn processor_waits(board: &Board, id: u8, op: Op) -> bool
    ensures { result ≡ processor_waits (processor_of id (state_of board.now).processors) op }
{
    let Some(life) = board.life(id) else {
        return false;
    };
    let Some(lapic) = board.lapic(id) else {
        return false;
    };
    let next = next_op(board, id);
    let nothing = lapic.next().is_none();
    waits_at(runs(life), is_take(Some(op)), is_take(next), nothing)
}

// whether a pin of the I/O APIC is due
fn has_due(board: &Board, place: u8) -> bool
    ensures { result ≡ is_some (due_at place (state_of board.now)) }
{
    match board.io(place) {
        Some(chip) => chip.next_due().is_some(),
        None => false,
    }
}

// whether the I/O APIC waits at the op
fn place_waits(board: &Board, place: u8, op: Op) -> bool
    ensures { result ≡ place_waits (state_of board.now) place op }
{
    match op {
        Op::Send(_) => !has_due(board, place),
        Op::Collect(_) => !is_through(board),
        Op::Sweep => !all_ended(board),
        _ => false,
    }
}

// a device waits at a Begin that is its first op until the boot program is through
fn waits_first(asked: bool, made: usize, through: bool) -> bool
    ensures { result ≡ (asked && ((made == 0) && not through)) }
{
    asked && made == 0 && !through
}

// whether the device waits at the op
fn device_waits(board: &Board, number: u8, op: Op) -> bool
    requires there { number < length board.now.plan.devices }
    ensures { result ≡ device_waits (boot_is_through (state_of board.now)) (slice_get (state_of board.now).devices number) op }
{
    let made = made_by(board.journal(), Agent::Dev(number));
    waits_first(is_begin(Some(op)), made, is_through(board))
}

/// Whether the agent, which the board has, has to wait before it makes the op.
pub(crate) fn has_to_wait(board: &Board, agent: Agent, op: Op) -> bool
    requires there { has_agent board.now.plan agent ≡ true }
    ensures { result ≡ has_to_wait (state_of board.now) agent op }
{
    match agent {
        Agent::Cpu(id) => processor_waits(board, id, op),
        Agent::Io(place) => place_waits(board, place, op),
        Agent::Dev(number) => device_waits(board, number, op),
    }
}
