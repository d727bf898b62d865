//! Boards, and the report of one of their runs.

ghost use Rattle.std.specs.Prelude.{◌≡◌, ◌≤◌, ◌<◌, ◌^◌, IfOk, IfSome, length};
ghost use Rattle.mpb_spec.specs.Plan.{plan_size};

use arrayvec::ArrayVec;
use mpb_board::{Agent, Config, Entry, Imcr, Life, Op, Outcome, What};
use mpb_cases::{pair, processor};
use mpb_config::config_of;
use mpb_replay::{CpuLine, IoLine, Report};
use mpb_spec::{Hit, Pulse};
use mpt_spec::Sequence;
use std::alloc::{AllocError, Global};

/// The agent, the op and what came of it, without a target.
pub(crate) type Line = (Agent, Op, What);

/// Two processors, of which the second waits for its start, and one I/O APIC. There are no devices, so the
/// I/O APIC can sweep at once.
pub(crate) fn one_waits(alloc: Global) -> Result<Option<Config>, AllocError>
    ensures { IfOk result (λ made. IfSome made (λ c. plan_size c < 2 ^ 32)) }
{
    let boot = [Op::Init(1), Op::Startup(1, 0x9F), Op::Check(1)];
    let cpus = pair(alloc, 0, &boot, processor(alloc, 1, 0x10, &[Op::Poll])?)?;
    let ios = [2].to_vec(alloc)?;
    Ok(config_of(0x9F, 0, 3, cpus, ios, false, Vec::new(alloc)))
}

/// The entries of the run with three pulses.
pub(crate) fn run_lines() -> [Line; 15] {
    [
        (Agent::Cpu(0), Op::IoSel(0, 0x13), What::Done),
        (Agent::Cpu(0), Op::IoWin(0, 0), What::Plain),
        (Agent::Cpu(0), Op::IoSel(0, 0x12), What::Done),
        (Agent::Cpu(0), Op::IoWin(0, 0x21), What::Plain),
        (Agent::Dev(0), Op::Begin, What::Done),
        (Agent::Dev(1), Op::Begin, What::Done),
        (Agent::Dev(2), Op::Begin, What::Done),
        (Agent::Io(0), Op::Collect(2), What::Pins(2, 0)),
        (Agent::Dev(0), Op::End, What::Done),
        (Agent::Dev(1), Op::End, What::Done),
        (Agent::Dev(2), Op::End, What::Done),
        (Agent::Io(0), Op::Send(1), What::Set),
        (Agent::Cpu(0), Op::Take, What::Taken(0x21)),
        (Agent::Io(0), Op::Sweep, What::Done),
        (Agent::Cpu(0), Op::Eoi, What::Ended(0x21, false)),
    ]
}

fn entry_of(line: Line) -> Entry {
    let mut outcomes = ArrayVec::new();
    outcomes.push(Outcome {
        at: 0,
        what: line.2,
    });
    Entry {
        agent: line.0,
        op: line.1,
        outcomes,
    }
}

fn entries_of(alloc: Global, lines: &[Line]) -> Result<Vec<Entry>, AllocError>
    ensures { IfOk result (λ es. length es.items ≤ length lines.now) }
{
    let mut entries = Vec::new(alloc);
    for line in lines {
        entries.push(entry_of(*line))?;
    }
    Ok(entries)
}

// a log for each of these pulses on a pin of the first I/O APIC
fn logs_of(alloc: Global, hits: &[(u8, Hit)]) -> Result<Vec<Sequence<(Pulse, Hit)>>, AllocError> {
    let mut logs = Vec::new(alloc);
    for (pin, hit) in hits {
        let log = [(Pulse { io: 0, pin: *pin }, *hit)].to_vec(alloc)?;
        logs.push(Sequence::new(log))?;
    }
    Ok(logs)
}

// a line for each of these values of remote IRR
fn ios_of(alloc: Global, remotes: &[u32]) -> Result<Vec<IoLine>, AllocError> {
    let mut ios = Vec::new(alloc);
    for remote in remotes {
        ios.push(IoLine {
            line: 0,
            due: 0,
            remote: *remote,
        })?;
    }
    Ok(ios)
}

// the line of processor 0, which has nothing
fn cpus_of(alloc: Global) -> Result<Vec<CpuLine>, AllocError> {
    let cpu = CpuLine {
        id: 0,
        life: Life::First,
        tpr: 0,
        irr: Sequence::new(Vec::new(alloc)),
        isr: Sequence::new(Vec::new(alloc)),
        tmr: Sequence::new(Vec::new(alloc)),
    };
    Ok(vec![in alloc; cpu]?)
}

// the report with these entries and logs, and these lines of I/O APICs
fn report_with(
    alloc: Global,
    entries: Vec<Entry>,
    logs: Vec<Sequence<(Pulse, Hit)>>,
    ios: Vec<IoLine>,
) -> Result<Report, AllocError>
    ensures { IfOk result (λ r. r.entries ≡ entries.items) }
{
    let cpus = cpus_of(alloc)?;
    Ok(Report {
        entries: Sequence::new(entries),
        logs: Sequence::new(logs),
        imcr: Imcr::Absent,
        cpus: Sequence::new(cpus),
        ios: Sequence::new(ios),
    })
}

/// The report with these entries and logs, and with these values of remote IRR in its last lines.
pub(crate) fn report_of(
    alloc: Global,
    lines: &[Line],
    hits: &[(u8, Hit)],
    remotes: &[u32],
) -> Result<Report, AllocError>
    ensures { IfOk result (λ r. length r.entries ≤ length lines.now) }
{
    let entries = entries_of(alloc, lines)?;
    let logs = logs_of(alloc, hits)?;
    let ios = ios_of(alloc, remotes)?;
    report_with(alloc, entries, logs, ios)
}
