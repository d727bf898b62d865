//! The lines for a script or a board that is refused, and for the verdict on a report.

ghost use Rattle.std.specs.Prelude.{◌≡◌, ◌∷◌, [], map, decimal, IfOk};
ghost use Rattle.std.specs.List.{concat};
ghost use Rattle.mpt_listing.specs.Listing.{line, hex};
ghost use Rattle.mpt_listing.specs.Part.{part_text};
ghost use Rattle.mpb_script.specs.declared.script.ScriptFault.TheVariants.{Word};
ghost use Rattle.mpb_report_spec.specs.EntryLines.{agent_text};
ghost use Rattle.mpb_replay_laws.specs.declared.verdict.Verdict.TheVariants.{Unfinished};
ghost use Rattle.mpb_boards.specs.Lines.{key_text, word_why_text, script_fault_line, board_fault_line, IsScriptFault, IsBoardFault, bad_why_text, verdict_line};

use mpb_replay_laws::{BadWhy, Verdict};
use mpb_script::{KeyName, ScriptFault, WordWhy};
use mpb_spec::{Agent, BoardError};
use mpt_base::NoMemory;
use mpt_listing::{Part, push_line};
use std::alloc::Global;

// a text of one line
fn line_of(alloc: Global, parts: &[Part]) -> Result<Vec<u8>, NoMemory>
    ensures { IfOk result (λ text. text.items ≡ line (map part_text parts.now)) }
{
    let mut text = Vec::new(alloc);
    match push_line(&mut text, parts) {
        Ok(()) => Ok(text),
        Err(_) => Err(NoMemory),
    }
}

/// The line for a script that is refused. Want of memory has none, and is answered by itself.
pub fn script_fault_line(alloc: Global, fault: ScriptFault) -> Result<Vec<u8>, NoMemory>
    ensures line { IfOk result (λ text. text.items ≡ script_fault_line fault) }
    ensures fault { IfOk result (λ _. IsScriptFault fault) }
{
    match fault {
        ScriptFault::NotToml => line_of(alloc, &[Part::Text(b"mptab: script not toml")]),
        ScriptFault::Key { name } => line_of(
            alloc,
            &[
                Part::Text(b"mptab: script key "),
                Part::Text(key_name(name)),
            ],
        ),
        ScriptFault::Many { n } => line_of(
            alloc,
            &[
                Part::Text(b"mptab: script many "),
                Part::Decimal(u64::from(n)),
            ],
        ),
        ScriptFault::Word { agent, index, why } => word_line(alloc, agent, index, why),
        ScriptFault::NoMemory => Err(NoMemory),
    }
}

// the line for a wrong word
#[tactic(auto, using(crate::proofs::LineLemmas::word_line_is))]
fn word_line(alloc: Global, agent: Agent, index: u32, why: WordWhy) -> Result<Vec<u8>, NoMemory>
    ensures { IfOk result (λ text. text.items ≡ script_fault_line (Word agent index why)) }
{
    let (kind, number) = agent_parts(agent);
    line_of(
        alloc,
        &[
            Part::Text(b"mptab: script word "),
            Part::Text(kind),
            number,
            Part::Text(b" index "),
            Part::Decimal(u64::from(index)),
            Part::Text(b" "),
            Part::Text(why_name(why)),
        ],
    )
}

// what kind of agent it is, and its id, place or number
fn agent_parts(agent: Agent) -> (&'static [u8], Part<'static>)
    ensures { agent_text agent ≡ concat (result.0.now ∷ part_text result.1 ∷ []) }
{
    match agent {
        Agent::Cpu(id) => (b"cpu ", Part::Hex(2, u64::from(id))),
        Agent::Io(place) => (b"io ", Part::Decimal(u64::from(place))),
        Agent::Dev(device) => (b"dev ", Part::Decimal(u64::from(device))),
    }
}

fn key_name(name: KeyName) -> &'static [u8]
    ensures { result.now ≡ key_text name }
{
    match name {
        KeyName::Page => b"page",
        KeyName::Elcr => b"elcr",
        KeyName::Present => b"present",
        KeyName::Cpu => b"cpu",
        KeyName::CpuId => b"cpu.id",
        KeyName::CpuWords => b"cpu.words",
        KeyName::Device => b"device",
        KeyName::DeviceWords => b"device.words",
        KeyName::Unknown => b"unknown",
    }
}

fn why_name(why: WordWhy) -> &'static [u8]
    ensures { result.now ≡ word_why_text why }
{
    match why {
        WordWhy::Name => b"Name",
        WordWhy::Count => b"Count",
        WordWhy::Number => b"Number",
        WordWhy::Range => b"Range",
    }
}

/// The line for tables and a script that describe no board. Want of memory has none, and is answered
/// by itself.
pub fn board_fault_line(alloc: Global, error: BoardError) -> Result<Vec<u8>, NoMemory>
    ensures line { IfOk result (λ text. text.items ≡ board_fault_line error) }
    ensures fault { IfOk result (λ _. IsBoardFault error) }
{
    match error {
        BoardError::NoBoot => line_of(alloc, &[Part::Text(b"mptab: board no boot processor")]),
        BoardError::DoubleId { id } => id_line(alloc, b"mptab: board double id ", id),
        BoardError::WideId { id } => id_line(alloc, b"mptab: board wide id ", id),
        BoardError::BootWide { id } => id_line(alloc, b"mptab: board boot wide ", id),
        BoardError::BootAbsent { id } => id_line(alloc, b"mptab: board boot absent ", id),
        BoardError::ManyCpus { n } => count_line(alloc, b"mptab: board many processors ", n),
        BoardError::ManyIo { n } => count_line(alloc, b"mptab: board many ioapics ", n),
        BoardError::NoIo { place } => {
            count_line(alloc, b"mptab: board no ioapic ", u32::from(place))
        }
        BoardError::NoMemory => Err(NoMemory),
    }
}

// a line that ends with an id
fn id_line(alloc: Global, text: &[u8], id: u8) -> Result<Vec<u8>, NoMemory>
    ensures { IfOk result (λ t. t.items ≡ line (text.now ∷ hex 2 id ∷ [])) }
{
    line_of(alloc, &[Part::Text(text), Part::Hex(2, u64::from(id))])
}

// a line that ends with a count
fn count_line(alloc: Global, text: &[u8], n: u32) -> Result<Vec<u8>, NoMemory>
    ensures { IfOk result (λ t. t.items ≡ line (text.now ∷ decimal n ∷ [])) }
{
    line_of(alloc, &[Part::Text(text), Part::Decimal(u64::from(n))])
}

/// The line for the verdict on a report.
pub fn verdict_line(alloc: Global, verdict: Verdict) -> Result<Vec<u8>, NoMemory>
    ensures { IfOk result (λ text. text.items ≡ verdict_line verdict) }
{
    match verdict {
        Verdict::Legal => line_of(alloc, &[Part::Text(b"replay legal")]),
        Verdict::Bad { entry, why } => line_of(
            alloc,
            &[
                Part::Text(b"replay bad "),
                Part::Decimal(u64::from(entry)),
                Part::Text(b" "),
                Part::Text(bad_why_name(why)),
            ],
        ),
        Verdict::Unfinished { agent } => unfinished_line(alloc, agent),
        Verdict::Log { device } => count_line(alloc, b"replay log ", u32::from(device)),
        Verdict::Accounts { io, pin } => line_of(
            alloc,
            &[
                Part::Text(b"replay accounts "),
                Part::Decimal(u64::from(io)),
                Part::Text(b" "),
                Part::Decimal(u64::from(pin)),
            ],
        ),
        Verdict::State { line } => count_line(alloc, b"replay state ", line),
    }
}

// the line for an agent that may still step
#[tactic(auto, using(crate::proofs::LineLemmas::word_line_is))]
fn unfinished_line(alloc: Global, agent: Agent) -> Result<Vec<u8>, NoMemory>
    ensures { IfOk result (λ text. text.items ≡ verdict_line (Unfinished agent)) }
{
    let (kind, number) = agent_parts(agent);
    line_of(
        alloc,
        &[Part::Text(b"replay unfinished "), Part::Text(kind), number],
    )
}

fn bad_why_name(why: BadWhy) -> &'static [u8]
    ensures { result.now ≡ bad_why_text why }
{
    match why {
        BadWhy::NoAgent => b"NoAgent",
        BadWhy::Waits => b"Waits",
        BadWhy::Program => b"Program",
        BadWhy::Outcome => b"Outcome",
    }
}
