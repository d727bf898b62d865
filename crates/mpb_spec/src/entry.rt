//! The entries of a journal (this project's own).

ghost use Rattle.std.specs.Prelude.{◌≡◌, ◌≤◌, length};

use crate::agent::{Agent, Op};
use crate::config::MOST_CPUS;
use arrayvec::ArrayVec;

/// What an entry came to: an outcome for each target, so at most one a processor.
pub type Outcomes = ArrayVec<Outcome, MOST_CPUS>;

/// What an operation came to, at a target or without one.
#[derive(Clone, Copy, PartialEq)]
pub enum What {
    /// The op has no other answer.
    Done,
    /// The vector is requested, and wasn't before.
    Set,
    /// The vector was requested already.
    Merged,
    /// The vector is below 16.
    Illegal,
    /// The target doesn't run, and waits for no STARTUP.
    Asleep,
    /// There is no such processor.
    Absent,
    /// The target waits for a STARTUP.
    Waiting,
    /// The target starts at this page.
    Started(u8),
    /// The target doesn't heed the message.
    Ignored,
    /// The target runs, and has an NMI.
    Nmi,
    /// An SMI or an ExtINT went to a target that runs.
    Passed,
    /// No processor hears a message of this kind.
    Unheard,
    /// The processor runs, and was started at this page.
    Runs(u8),
    /// The processor runs, and is the boot processor.
    RunsFirst,
    /// This vector is taken into service.
    Taken(u8),
    /// There was nothing to take or to end.
    Nothing,
    /// This vector's service ends, and it is level-triggered or not.
    Ended(u8, bool),
    /// No pin's pending send changed.
    Plain,
    /// A pin became due.
    Due,
    /// A pin is no longer due.
    Withdrawn,
    /// The register's value.
    Read(u32),
    /// The pins that a collection made due, and those that it joined, bit n for pin n.
    Pins(u32, u32),
}

/// An outcome.
#[derive(Clone, Copy, PartialEq)]
pub struct Outcome {
    /// The target's local APIC id, or 0 where there is no target.
    pub at: u8,
    pub what: What,
}

/// `Done`, without a target.
impl Default for Outcome {
    fn default() -> Outcome {
        Outcome {
            at: 0,
            what: What::Done,
        }
    }
}

/// One entry of a journal: one to eight outcomes, one for each target.
#[derive(Drop)]
pub struct Entry {
    pub agent: Agent,
    pub op: Op,
    pub outcomes: Outcomes,
}

impl Entry {
    /// The same entry once more.
    pub fn again(&self) -> Entry
        ensures same { result ≡ self.now }
    {
        Entry {
            agent: self.agent,
            op: self.op,
            outcomes: same_outcomes(self.outcomes.as_slice()),
        }
    }
}

fn same_outcomes(list: &[Outcome]) -> Outcomes
    requires { length list.now ≤ 8 }
    ensures { result.items ≡ list.now }
{
    let mut outcomes = Outcomes::new();
    for outcome in list {
        outcomes.push(*outcome);
    }
    outcomes
}
