//! What is found of a report.

use mpb_spec::Agent;

/// Why an entry is no step.
#[derive(Clone, Copy, Debug, PartialEq)]
pub enum BadWhy {
    /// The board has no such agent.
    NoAgent,
    /// The agent has to wait before it makes the op.
    Waits,
    /// The op isn't what the agent may do next.
    Program,
    /// The outcomes aren't those of the step.
    Outcome,
}

/// The verdict on a report.
#[derive(Clone, Copy, Debug, PartialEq)]
pub enum Verdict {
    /// A complete run: all that the report says is so.
    Legal,
    /// The first entry that is no step, counted from 0.
    Bad { entry: u32, why: BadWhy },
    /// The least agent that can step after the last entry.
    Unfinished { agent: Agent },
    /// The least device whose log isn't its pulses in order.
    Log { device: u8 },
    /// The least pin whose New hits and collections differ in number, or with a hit where no log's first hit
    /// is New.
    Accounts { io: u8, pin: u8 },
    /// The first line of the state that isn't so, counted from 0.
    State { line: u32 },
}
