//! The lines of the entries of a journal.

ghost use Rattle.std.specs.Prelude.{◌≡◌, ◌++◌, ◌∷◌, [], OnOk, codes, decimal};
ghost use Rattle.std.specs.List.{concat, flat_map};
ghost use Rattle.mpt_listing.specs.Listing.{hex};
ghost use Rattle.mpb_report_spec.specs.Numbered.{numbered};
ghost use Rattle.mpb_report_spec.specs.EntryLines.{agent_text, op_text, trigger_text, what_text, has_target, further_outcome, entry_line};

use crate::digits::{digit, push_six, push_two};
use mpb_board::{Agent, Entry, Op, Outcome, What};
use mpt_listing::{push_decimal, push_hex, push_text};
use std::alloc::AllocError;

/// Writes the lines of the entries, numbered from 0.
pub(crate) fn push_entry_lines(out: &mut Vec<u8>, journal: &[Entry]) -> Result<(), AllocError>
    ensures { OnOk result (out.new.items ≡ out.old.items ++ concat (numbered entry_line 0 journal.now)) }
{
    for number in 0..journal.len() {
        if let Err(error) = push_entry_line(out, number as u64, &journal[number]) {
            return Err(error);
        }
    }
    Ok(())
}

/// Writes the line of an entry, with this number. It takes memory for the text alone; after an error,
/// which means that memory ran out, a first piece of the line may be written.
pub fn push_entry_line(out: &mut Vec<u8>, number: u64, entry: &Entry) -> Result<(), AllocError>
    ensures line { OnOk result (out.new.items ≡ out.old.items ++ entry_line number entry.now) }
{
    match push_step(out, number, entry) {
        Ok(()) => push_answer(out, entry.outcomes.as_slice()),
        Err(error) => Err(error),
    }
}

// the number of an entry, its agent and its op
fn push_step(out: &mut Vec<u8>, number: u64, entry: &Entry) -> Result<(), AllocError>
    ensures { OnOk result (out.new.items ≡ out.old.items ++ (decimal number ++ (codes " " ++ (agent_text entry.now.agent ++ (codes " " ++ op_text entry.now.op))))) }
{
    if let Err(error) = push_decimal(out, number) {
        return Err(error);
    }
    match push_agent(out, entry.agent) {
        Ok(()) => push_op(out, entry.op),
        Err(error) => Err(error),
    }
}

// what came of it, to the end of the line
fn push_answer(out: &mut Vec<u8>, outcomes: &[Outcome]) -> Result<(), AllocError>
    ensures { OnOk result (out.new.items ≡ out.old.items ++ (codes " :" ++ (flat_map further_outcome outcomes.now ++ codes "\n"))) }
{
    if let Err(error) = push_text(out, b" :") {
        return Err(error);
    }
    match push_outcomes(out, outcomes) {
        Ok(()) => push_text(out, b"\n"),
        Err(error) => Err(error),
    }
}

// between spaces
fn push_agent(out: &mut Vec<u8>, agent: Agent) -> Result<(), AllocError>
    ensures { OnOk result (out.new.items ≡ out.old.items ++ (codes " " ++ (agent_text agent ++ codes " "))) }
{
    match agent {
        Agent::Cpu(id) => push_cpu(out, id),
        Agent::Io(place) => push_place(out, b" io ", place),
        Agent::Dev(number) => push_place(out, b" dev ", number),
    }
}

// a processor, in one piece
fn push_cpu(out: &mut Vec<u8>, id: u8) -> Result<(), AllocError>
    ensures { OnOk result (out.new.items ≡ out.old.items ++ (codes " cpu " ++ (hex 2 id ++ codes " "))) }
{
    out.extend_from_slice(&[
        b' ',
        b'c',
        b'p',
        b'u',
        b' ',
        digit(id as u64 / 16),
        digit(id as u64),
        b' ',
    ])
}

fn push_op(out: &mut Vec<u8>, op: Op) -> Result<(), AllocError>
    ensures { OnOk result (out.new.items ≡ out.old.items ++ op_text op) }
{
    match op {
        Op::Imcr => push_text(out, b"imcr"),
        Op::Warm(page) => push_named(out, b"warm ", page),
        Op::Init(id) => push_named(out, b"init ", id),
        Op::Startup(id, page) => push_pair(out, b"startup ", id, page),
        Op::Check(id) => push_named(out, b"check ", id),
        Op::Ipi(id, vector) => push_pair(out, b"ipi ", id, vector),
        Op::Ipl(dest, vector) => push_pair(out, b"ipl ", dest, vector),
        Op::Nmi(id) => push_named(out, b"nmi ", id),
        Op::Take => push_text(out, b"take"),
        Op::Poll => push_text(out, b"poll"),
        Op::Eoi => push_text(out, b"eoi"),
        Op::Tpr(priority) => push_named(out, b"tpr ", priority),
        Op::Ldr(dest) => push_named(out, b"ldr ", dest),
        Op::Dfr(model) => push_named(out, b"dfr ", model),
        Op::IoSel(place, index) => push_select(out, place, index),
        Op::IoWin(place, value) => push_window(out, place, value),
        Op::IoRead(place) => push_count(out, b"ioread ", place as u64),
        Op::Pause(time) => push_count(out, b"pause ", time as u64),
        Op::Begin => push_text(out, b"begin"),
        Op::High(place, pin) => push_pin(out, b"high ", place, pin),
        Op::Low(place, pin) => push_pin(out, b"low ", place, pin),
        Op::End => push_text(out, b"end"),
        Op::Collect(pins) => push_mask(out, b"collect ", pins),
        Op::Send(pin) => push_count(out, b"send ", pin as u64),
        Op::Sweep => push_text(out, b"sweep"),
    }
}

// a name and a byte
fn push_named(out: &mut Vec<u8>, name: &[u8], byte: u8) -> Result<(), AllocError>
    ensures { OnOk result (out.new.items ≡ out.old.items ++ concat (name.now ∷ hex 2 byte ∷ [])) }
{
    match push_text(out, name) {
        Ok(()) => push_two(out, byte as u64),
        Err(error) => Err(error),
    }
}

// a name and two bytes
fn push_pair(out: &mut Vec<u8>, name: &[u8], one: u8, other: u8) -> Result<(), AllocError>
    ensures { OnOk result (out.new.items ≡ out.old.items ++ concat (name.now ∷ hex 2 one ∷ codes " " ∷ hex 2 other ∷ [])) }
{
    if let Err(error) = push_text(out, name) {
        return Err(error);
    }
    out.extend_from_slice(&[
        digit(one as u64 / 16),
        digit(one as u64),
        b' ',
        digit(other as u64 / 16),
        digit(other as u64),
    ])
}

// a name and a number in decimal
fn push_count(out: &mut Vec<u8>, name: &[u8], number: u64) -> Result<(), AllocError>
    ensures { OnOk result (out.new.items ≡ out.old.items ++ concat (name.now ∷ decimal number ∷ [])) }
{
    match push_text(out, name) {
        Ok(()) => push_decimal(out, number),
        Err(error) => Err(error),
    }
}

// a name and a number in decimal, with a space behind it
fn push_place(out: &mut Vec<u8>, name: &[u8], place: u8) -> Result<(), AllocError>
    ensures { OnOk result (out.new.items ≡ out.old.items ++ concat (name.now ∷ decimal place ∷ codes " " ∷ [])) }
{
    match push_count(out, name, place as u64) {
        Ok(()) => push_text(out, b" "),
        Err(error) => Err(error),
    }
}

// a name, and a pin of the I/O APIC at a place
fn push_pin(out: &mut Vec<u8>, name: &[u8], place: u8, pin: u8) -> Result<(), AllocError>
    ensures { OnOk result (out.new.items ≡ out.old.items ++ concat (name.now ∷ decimal place ∷ codes " " ∷ decimal pin ∷ [])) }
{
    match push_place(out, name, place) {
        Ok(()) => push_decimal(out, pin as u64),
        Err(error) => Err(error),
    }
}

// the choice of a register of the I/O APIC at a place
fn push_select(out: &mut Vec<u8>, place: u8, index: u8) -> Result<(), AllocError>
    ensures { OnOk result (out.new.items ≡ out.old.items ++ concat (codes "iosel " ∷ decimal place ∷ codes " " ∷ hex 2 index ∷ [])) }
{
    match push_place(out, b"iosel ", place) {
        Ok(()) => push_two(out, index as u64),
        Err(error) => Err(error),
    }
}

// a value for the register that is chosen there
fn push_window(out: &mut Vec<u8>, place: u8, value: u32) -> Result<(), AllocError>
    ensures { OnOk result (out.new.items ≡ out.old.items ++ concat (codes "iowin " ∷ decimal place ∷ codes " " ∷ hex 8 value ∷ [])) }
{
    match push_place(out, b"iowin ", place) {
        Ok(()) => push_hex(out, 8, value as u64),
        Err(error) => Err(error),
    }
}

// a name and a mask of pins
fn push_mask(out: &mut Vec<u8>, name: &[u8], pins: u32) -> Result<(), AllocError>
    ensures { OnOk result (out.new.items ≡ out.old.items ++ concat (name.now ∷ hex 6 pins ∷ [])) }
{
    match push_text(out, name) {
        Ok(()) => push_six(out, pins as u64),
        Err(error) => Err(error),
    }
}

fn push_outcomes(out: &mut Vec<u8>, outcomes: &[Outcome]) -> Result<(), AllocError>
    ensures { OnOk result (out.new.items ≡ out.old.items ++ flat_map further_outcome outcomes.now) }
{
    for outcome in outcomes {
        if let Err(error) = push_further_outcome(out, *outcome) {
            return Err(error);
        }
    }
    Ok(())
}

// an outcome after a space
fn push_further_outcome(out: &mut Vec<u8>, outcome: Outcome) -> Result<(), AllocError>
    ensures { OnOk result (out.new.items ≡ out.old.items ++ further_outcome outcome) }
{
    let begun = if has_target(outcome.what) {
        push_target(out, outcome.at as u64)
    } else {
        push_text(out, b" ")
    };
    match begun {
        Ok(()) => push_what(out, outcome.what),
        Err(error) => Err(error),
    }
}

// a target, in one piece
fn push_target(out: &mut Vec<u8>, id: u64) -> Result<(), AllocError>
    ensures { OnOk result (out.new.items ≡ out.old.items ++ (codes " " ++ (hex 2 id ++ codes "="))) }
{
    out.extend_from_slice(&[b' ', digit(id / 16), digit(id), b'='])
}

// whether it came so at a target
fn has_target(what: What) -> bool
    ensures { result ≡ has_target what }
{
    match what {
        What::Set => true,
        What::Merged => true,
        What::Illegal => true,
        What::Asleep => true,
        What::Absent => true,
        What::Waiting => true,
        What::Started(_) => true,
        What::Ignored => true,
        What::Nmi => true,
        What::Passed => true,
        What::Runs(_) => true,
        What::RunsFirst => true,
        _ => false,
    }
}

// behind a point
fn trigger_text(level: bool) -> &'static [u8]
    ensures { result.now ≡ codes "." ++ trigger_text level }
{
    if level { b".level" } else { b".edge" }
}

fn push_what(out: &mut Vec<u8>, what: What) -> Result<(), AllocError>
    ensures { OnOk result (out.new.items ≡ out.old.items ++ what_text what) }
{
    match what {
        What::Done => push_text(out, b"done"),
        What::Set => push_text(out, b"set"),
        What::Merged => push_text(out, b"merged"),
        What::Illegal => push_text(out, b"illegal"),
        What::Asleep => push_text(out, b"asleep"),
        What::Absent => push_text(out, b"absent"),
        What::Waiting => push_text(out, b"waiting"),
        What::Started(page) => push_named(out, b"started.", page),
        What::Ignored => push_text(out, b"ignored"),
        What::Nmi => push_text(out, b"nmi"),
        What::Passed => push_text(out, b"passed"),
        What::Unheard => push_text(out, b"unheard"),
        What::Runs(page) => push_named(out, b"runs.", page),
        What::RunsFirst => push_text(out, b"runs.first"),
        What::Taken(vector) => push_named(out, b"taken.", vector),
        What::Nothing => push_text(out, b"nothing"),
        What::Ended(vector, level) => push_ended(out, vector, level),
        What::Plain => push_text(out, b"plain"),
        What::Due => push_text(out, b"due"),
        What::Withdrawn => push_text(out, b"withdrawn"),
        What::Read(value) => push_read(out, value),
        What::Pins(due, joined) => push_pins(out, due, joined),
    }
}

// the end of an interrupt
fn push_ended(out: &mut Vec<u8>, vector: u8, level: bool) -> Result<(), AllocError>
    ensures { OnOk result (out.new.items ≡ out.old.items ++ concat (codes "ended." ∷ hex 2 vector ∷ codes "." ∷ trigger_text level ∷ [])) }
{
    match push_named(out, b"ended.", vector) {
        Ok(()) => push_text(out, trigger_text(level)),
        Err(error) => Err(error),
    }
}

// the value of a register
fn push_read(out: &mut Vec<u8>, value: u32) -> Result<(), AllocError>
    ensures { OnOk result (out.new.items ≡ out.old.items ++ concat (codes "read." ∷ hex 8 value ∷ [])) }
{
    match push_text(out, b"read.") {
        Ok(()) => push_hex(out, 8, value as u64),
        Err(error) => Err(error),
    }
}

// the pins of a collection
fn push_pins(out: &mut Vec<u8>, due: u32, joined: u32) -> Result<(), AllocError>
    ensures { OnOk result (out.new.items ≡ out.old.items ++ concat (codes "pins." ∷ hex 6 due ∷ codes "." ∷ hex 6 joined ∷ [])) }
{
    if let Err(error) = push_mask(out, b"pins.", due) {
        return Err(error);
    }
    push_mask(out, b".", joined)
}
