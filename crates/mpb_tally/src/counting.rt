//! The counting of a run.

ghost use Rattle.std.specs.Prelude.{◌≡◌, ◌≤◌, ◌<◌, ◌^◌, ◌*◌, ◌+◌, length, count_by, sum_by, map};
ghost use Rattle.mpb_spec.specs.Pulses.{logs_of, is_new};
ghost use Rattle.mpb_tally.specs.Tally.{is_started, is_set, is_taken, is_merged, outcomes_in, outcomes_by, hits_in, hits_by, tally_of};

use crate::tally::Tally;
use mpb_board::Board;
use mpb_spec::{Account, Entry, Hit, Outcome, Pulse, What};

/// Counts the entries of the journal and its outcomes, and the hits in the account, of which there are
/// fewer than 2^32. It takes no memory.
pub fn tally_of(board: &Board, account: &Account) -> Tally
    requires few { sum_by length (logs_of account.now) < 2 ^ 32 }
    ensures tally { result ≡ tally_of board.now.journal (logs_of account.now) }
{
    let _ = board.config();
    let journal = board.journal();
    let outcomes = count_outcomes(journal);
    let hits = count_hits(account.logs.as_slice());
    Tally {
        entries: journal.len() as u64,
        started: outcomes.started,
        pulses: hits.pulses,
        fresh: hits.fresh,
        merged: hits.merged,
        sets: outcomes.sets,
        takes: outcomes.takes,
    }
}

// the outcomes that are counted
#[derive(Clone, Copy)]
struct Outcomes {
    started: u64,
    sets: u64,
    takes: u64,
}

// the hits that are counted
#[derive(Clone, Copy)]
struct Hits {
    pulses: u64,
    fresh: u64,
    merged: u64,
}

// those of a journal
fn count_outcomes(journal: &[Entry]) -> Outcomes
    requires { length journal.now < 2 ^ 60 }
    ensures started { result.started ≡ outcomes_by is_started journal.now }
    ensures sets { result.sets ≡ outcomes_by is_set journal.now }
    ensures takes { result.takes ≡ outcomes_by is_taken journal.now }
{
    let mut started: u64 = 0;
    let mut sets: u64 = 0;
    let mut takes: u64 = 0;
    for entry in journal {
        let outcomes = entry.outcomes.as_slice();
        started += started_in(outcomes);
        sets += sets_in(outcomes);
        takes += takes_in(outcomes);
    }
    Outcomes {
        started,
        sets,
        takes,
    }
}

// how many start a processor
fn started_in(outcomes: &[Outcome]) -> u64
    ensures few { result ≤ length outcomes.now }
    ensures count { result ≡ count_by (λ o. is_started o.what) outcomes.now }
{
    outcomes.iter().filter(|o| is_started(o.what)).count() as u64
}

// how many request a vector that wasn't requested before
fn sets_in(outcomes: &[Outcome]) -> u64
    ensures few { result ≤ length outcomes.now }
    ensures count { result ≡ count_by (λ o. is_set o.what) outcomes.now }
{
    outcomes.iter().filter(|o| is_set(o.what)).count() as u64
}

// how many take a vector into service
fn takes_in(outcomes: &[Outcome]) -> u64
    ensures few { result ≤ length outcomes.now }
    ensures count { result ≡ count_by (λ o. is_taken o.what) outcomes.now }
{
    outcomes.iter().filter(|o| is_taken(o.what)).count() as u64
}

fn is_started(what: What) -> bool
    ensures { result ≡ is_started what }
{
    matches!(what, What::Started(_))
}

fn is_set(what: What) -> bool
    ensures { result ≡ is_set what }
{
    matches!(what, What::Set)
}

fn is_taken(what: What) -> bool
    ensures { result ≡ is_taken what }
{
    matches!(what, What::Taken(_))
}

// those of all logs
fn count_hits(logs: &[Vec<(Pulse, Hit)>]) -> Hits
    requires { sum_by (λ l. length l.items) logs.now < 2 ^ 32 }
    ensures pulses { result.pulses ≡ sum_by (λ l. length l.items) logs.now }
    ensures fresh { result.fresh ≡ sum_by (λ l. hits_in is_new l.items) logs.now }
    ensures merged { result.merged ≡ sum_by (λ l. hits_in is_merged l.items) logs.now }
{
    let mut pulses: u64 = 0;
    let mut fresh: u64 = 0;
    let mut merged: u64 = 0;
    for log in logs {
        pulses += log.len() as u64;
        fresh += fresh_in(log.as_slice());
        merged += merged_in(log.as_slice());
    }
    Hits {
        pulses,
        fresh,
        merged,
    }
}

// how many are New
fn fresh_in(log: &[(Pulse, Hit)]) -> u64
    ensures few { result ≤ length log.now }
    ensures count { result ≡ hits_in is_new log.now }
{
    log.iter().filter(|x| is_new(x.1)).count() as u64
}

// how many are Merged
fn merged_in(log: &[(Pulse, Hit)]) -> u64
    ensures few { result ≤ length log.now }
    ensures count { result ≡ hits_in is_merged log.now }
{
    log.iter().filter(|x| !is_new(x.1)).count() as u64
}

fn is_new(hit: Hit) -> bool
    ensures { result ≡ is_new hit }
{
    match hit {
        Hit::New => true,
        Hit::Merged => false,
    }
}
