//! How many ops an agent has made, and what it makes next by its program.

ghost use Rattle.std.specs.Prelude.{◌≡◌, ◌≤◌, ◌<◌, ◌^◌, ◌+◌, length, map, slice_get, is_some, nat_le};
ghost use Rattle.mpb_spec.specs.State.{boot_is_through, all_ended};
ghost use Rattle.mpb_spec.specs.declared.agent.Agent.TheVariants.{Dev};
ghost use Rattle.mpb_spec.specs.Plan.{op_of_word, device_program};
ghost use Rattle.mpb_board.specs.BoardView.{state_of};
ghost use Rattle.mpb_replay_laws.specs.Made.{same_agent, made_by, op_of_plan, plan_with, all_made};

use mpb_board::{Agent, Board, CpuConfig, DevWord, Entry, Op};

fn same_agent(one: Agent, other: Agent) -> bool
    ensures { result ≡ same_agent one other }
{
    match (one, other) {
        (Agent::Cpu(id), Agent::Cpu(id2)) => id == id2,
        (Agent::Io(place), Agent::Io(place2)) => place == place2,
        (Agent::Dev(number), Agent::Dev(number2)) => number == number2,
        _ => false,
    }
}

/// How many of the entries are the agent's.
pub(crate) fn made_by(journal: &[Entry], agent: Agent) -> usize
    ensures count { result ≡ made_by agent journal.now }
    ensures most { result ≤ length journal.now }
{
    let mut made = 0;
    for entry in journal {
        made += usize::from(same_agent(entry.agent, agent));
    }
    made
}

/// The op at this place of the program of the processor with this id.
pub(crate) fn op_of_cpu(cpus: &[CpuConfig], id: u8, place: usize) -> Option<Op>
    ensures { result ≡ op_of_plan place (plan_with id cpus.now) }
{
    match cpus {
        [] => None,
        [cpu, rest @ ..] => {
            if cpu.id == id {
                op_at(cpu, place)
            } else {
                op_of_cpu(rest, id, place)
            }
        }
    }
}

// the op at this place of the processor's program
fn op_at(cpu: &CpuConfig, place: usize) -> Option<Op>
    ensures { result ≡ slice_get cpu.now.program place }
{
    cpu.program.as_slice().get(place).copied()
}

/// Whether the boot program is through.
pub(crate) fn is_through(board: &Board) -> bool
    ensures { result ≡ boot_is_through (state_of board.now) }
{
    let config = board.config();
    let made = made_by(board.journal(), Agent::Cpu(config.boot));
    config.boot_len as usize <= made
}

// whether the word is an op
fn is_op(word: DevWord) -> bool
    ensures { result ≡ is_some (op_of_word word) }
{
    !matches!(word, DevWord::Pulse(..))
}

// how many ops a device with these words has: those that are no pulses, and Begin and End
#[tactic(auto, using(crate::proofs::MadeLemmas::program_length))]
fn ops_of(words: &[DevWord]) -> usize
    requires { length words.now < 2 ^ 62 }
    ensures { result ≡ length (device_program words.now) }
{
    let mut ops = 2;
    for word in words {
        ops += usize::from(is_op(*word));
    }
    ops
}

// whether the device of this number has made its program
fn is_made(journal: &[Entry], number: u8, words: &Vec<DevWord>) -> bool
    ensures { result ≡ nat_le (length (device_program words.now.items)) (made_by (Dev number) journal.now) }
{
    ops_of(words.as_slice()) <= made_by(journal, Agent::Dev(number))
}

// whether each of these devices, the first being that of this number, has made its program
fn all_made(journal: &[Entry], number: u8, devices: &[Vec<DevWord>]) -> bool
    requires { number + length devices.now < 256 }
    ensures { result ≡ all_made number journal.now (map (λ words. words.items) devices.now) }
{
    match devices {
        [] => true,
        [words, rest @ ..] => {
            is_made(journal, number, words) && all_made(journal, number + 1, rest)
        }
    }
}

/// Whether each device has made its End.
pub(crate) fn all_ended(board: &Board) -> bool
    ensures { result ≡ all_ended (state_of board.now) }
{
    let devices = board.config().devices.as_slice();
    all_made(board.journal(), 0, devices)
}
