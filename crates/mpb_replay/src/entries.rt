//! The entries of a report, made again on a board.

ghost use Rattle.std.specs.Prelude.{◌≡◌, ◌≢◌, ◌<◌, ◌^◌, ◌++◌, ◌∷◌, [], None, Some, IfNone, IfSome, MatchBool, MatchOption, length};
ghost use Rattle.mpb_spec.specs.Steps.{next_op};
ghost use Rattle.mpb_spec.specs.Journal.{IsLegal};
ghost use Rattle.mpb_board.specs.BoardView.{state_of};
ghost use Rattle.mpb_replay_laws.specs.declared.verdict.BadWhy.TheVariants.{Program, Outcome};
ghost use Rattle.mpb_replay_laws.specs.Wrong.{offer_for, IsFirstWrong, IsFirstBad};
ghost use Rattle.mpb_replay.specs.Compared.{IsCompared, IsMadeOrBad, IsPlayed};

use crate::waiting::{has_agent, has_to_wait};
use mpb_board::{Agent, Board, Entry, Offer, Op, Outcome};
use mpb_replay_laws::BadWhy;

/// The first entry that is no step, counted from 0, and why it is none.
#[derive(Clone, Copy)]
pub struct BadEntry {
    pub entry: u32,
    pub why: BadWhy,
}

// the offer with which an agent makes the op
fn offer_for(agent: Agent, op: Op) -> Offer
    ensures { result ≡ offer_for agent op }
{
    match (agent, op) {
        (Agent::Io(_), Op::Collect(pins)) => Offer::Collect(pins),
        (Agent::Io(_), Op::Sweep) => Offer::Sweep,
        _ => Offer::Next,
    }
}

// why an entry whose agent makes nothing with the offer is no step
fn why_refused(board: &Board, entry: &Entry) -> BadWhy
    requires refused { next_op (state_of board.now) entry.now.agent (offer_for entry.now.agent entry.now.op) ≡ None }
    ensures { IsFirstWrong result board.now.plan (state_of board.now) entry.now }
{
    if !has_agent(board.config(), entry.agent) {
        BadWhy::NoAgent
    } else if has_to_wait(board, entry.agent, entry.op) {
        BadWhy::Waits
    } else {
        BadWhy::Program
    }
}

fn same_op(one: Op, other: Op) -> bool
    ensures { MatchBool result (one ≡ other) (one ≢ other) }
{
    one == other
}

fn same_outcomes(one: &[Outcome], other: &[Outcome]) -> bool
    ensures { MatchBool result (one.now ≡ other.now) (one.now ≢ other.now) }
{
    one == other
}

// how the entry differs from the one that its agent made
fn compare(entry: &Entry, made: &Entry) -> Option<BadWhy>
    ensures { IsCompared entry.now made.now result }
{
    if !same_op(made.op, entry.op) {
        Some(BadWhy::Program)
    } else if !same_outcomes(entry.outcomes.as_slice(), made.outcomes.as_slice()) {
        Some(BadWhy::Outcome)
    } else {
        None
    }
}

// makes the entry on the board, where it is a step
fn make(board: &mut Board, entry: &Entry) -> Option<BadEntry>
    requires few { length board.old.journal < 2 ^ 32 }
    ensures plan { board.new.plan ≡ board.old.plan }
    ensures made { IsMadeOrBad board.old board.new entry.now result }
{
    let number = board.journal().len() as u32;
    let offer = offer_for(entry.agent, entry.op);
    if !board.can_step(entry.agent, offer) {
        let why = why_refused(board, entry);
        return Some(BadEntry { entry: number, why });
    }
    let made = board.step(entry.agent, offer);
    numbered(number, compare(entry, &made))
}

// the reason, where there is one, at the entry of this number
fn numbered(entry: u32, why: Option<BadWhy>) -> Option<BadEntry>
    ensures none { IfNone why (result ≡ None) }
    ensures some { IfSome why (λ w. result ≡ Some (record { entry = entry; why = w })) }
{
    match why {
        Some(why) => Some(BadEntry { entry, why }),
        None => None,
    }
}

/// Makes the entries on a board in its opening state, up to the first that is no step.
pub(crate) fn play(board: &mut Board, entries: &[Entry]) -> Option<BadEntry>
    requires opening { board.old.journal ≡ [] }
    requires few { length entries.now < 2 ^ 32 }
    ensures plan { board.new.plan ≡ board.old.plan }
    ensures played { IsPlayed board.old.plan board.new.journal entries.now result }
{
    for entry in entries {
        if let Some(bad) = make(board, entry) {
            return Some(bad);
        }
    }
    None
}
