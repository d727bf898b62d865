//! The least agent that can step.

ghost use Rattle.std.specs.Prelude.{MatchOption, length};
ghost use Rattle.mpb_spec.specs.declared.agent.Agent.TheVariants.{Cpu, Io, Dev};
ghost use Rattle.mpb_spec.specs.May.{MayAny, IsQuiescent};
ghost use Rattle.mpb_board.specs.BoardView.{state_of};
ghost use Rattle.mpb_replay_laws.specs.Asked.{AreIdle};
ghost use Rattle.mpb_replay_laws.specs.Differences.{IsFirstAble};

use mpb_board::{Agent, Board};

// the least processor that can; ids are below 255
fn able_cpu(board: &Board) -> Option<u8>
    ensures { MatchOption result (AreIdle Cpu 255 (state_of board.now)) (λ id. MayAny (state_of board.now) (Cpu id) × AreIdle Cpu id (state_of board.now)) }
{
    for id in 0..255u8 {
        if board.can_any(Agent::Cpu(id)) {
            return Some(id);
        }
    }
    None
}

// the least I/O APIC
fn able_io(board: &Board) -> Option<u8>
    ensures { MatchOption result (AreIdle Io (length board.now.plan.ios) (state_of board.now)) (λ place. MayAny (state_of board.now) (Io place) × AreIdle Io place (state_of board.now)) }
{
    let count = board.config().ios.len() as u8;
    for place in 0..count {
        if board.can_any(Agent::Io(place)) {
            return Some(place);
        }
    }
    None
}

// the least device
fn able_dev(board: &Board) -> Option<u8>
    ensures { MatchOption result (AreIdle Dev (length board.now.plan.devices) (state_of board.now)) (λ number. MayAny (state_of board.now) (Dev number) × AreIdle Dev number (state_of board.now)) }
{
    let count = board.config().devices.len() as u8;
    for number in 0..count {
        if board.can_any(Agent::Dev(number)) {
            return Some(number);
        }
    }
    None
}

/// The least agent that can step with some offer, none where no agent can.
pub(crate) fn first_able(board: &Board) -> Option<Agent>
    ensures { MatchOption result (IsQuiescent (state_of board.now)) (λ agent. IsFirstAble (state_of board.now) agent) }
{
    let _ = board.config();
    if let Some(id) = able_cpu(board) {
        return Some(Agent::Cpu(id));
    }
    if let Some(place) = able_io(board) {
        return Some(Agent::Io(place));
    }
    match able_dev(board) {
        Some(number) => Some(Agent::Dev(number)),
        None => None,
    }
}
