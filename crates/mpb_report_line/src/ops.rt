//! Agents and ops, each read from the left.

ghost use Rattle.std.specs.Prelude.{◌≡◌, codes};
ghost use Rattle.mpt_line.specs.Reading.{Gives, after, field_in};
ghost use Rattle.mpb_report_line.specs.Reading.{before, up_to_in, place_in};
ghost use Rattle.mpb_report_line.specs.Forms.{agent_in, bare_op_in, byte_op_in, two_op_in, pin_op_in, logical_op_in, op_in, byte_word_in, bytes_word_in, place_word_in, pin_word_in, colon};

use crate::numbers::{read_pin, read_place, read_up_to};
use mpb_spec::{Agent, Op};
use mpt_line::{read_field, read_part, read_u8_field, read_u32_field};

/// Who makes a step.
#[tactic(auto, unfolding(crate::specs::Forms::agent_in))]
pub(crate) fn read_agent(line: &[u8]) -> Option<(Agent, &[u8])>
    ensures { Gives (λ x. (x.0, x.1.now)) result (agent_in line.now) }
{
    if let Some((id, rest)) = read_u8_field(line, b"cpu ") {
        return Some((Agent::Cpu(id), rest));
    }
    if let Some((place, rest)) = read_place_field(line, b"io ") {
        return Some((Agent::Io(place), rest));
    }
    let Some((number, rest)) = read_place_field(line, b"dev ") else {
        return None;
    };
    Some((Agent::Dev(number), rest))
}

/// An op, with the colon behind it.
#[tactic(auto, unfolding(crate::specs::Forms::op_in))]
pub(crate) fn read_op(line: &[u8]) -> Option<(Op, &[u8])>
    ensures { Gives (λ x. (x.0, x.1.now)) result (op_in line.now) }
{
    if let Some(read) = read_bare_op(line) {
        return Some(read);
    }
    if let Some(read) = read_byte_op(line) {
        return Some(read);
    }
    if let Some(read) = read_two_op(line) {
        return Some(read);
    }
    if let Some(read) = read_pin_op(line) {
        return Some(read);
    }
    read_logical_op(line)
}

// the ops without a number
#[tactic(auto, unfolding(crate::specs::Forms::bare_op_in))]
fn read_bare_op(line: &[u8]) -> Option<(Op, &[u8])>
    ensures { Gives (λ x. (x.0, x.1.now)) result (bare_op_in line.now) }
{
    if let Some(rest) = read_part(line, b"imcr :") {
        return Some((Op::Imcr, rest));
    }
    if let Some(rest) = read_part(line, b"take :") {
        return Some((Op::Take, rest));
    }
    if let Some(rest) = read_part(line, b"poll :") {
        return Some((Op::Poll, rest));
    }
    if let Some(rest) = read_part(line, b"eoi :") {
        return Some((Op::Eoi, rest));
    }
    if let Some(rest) = read_part(line, b"begin :") {
        return Some((Op::Begin, rest));
    }
    if let Some(rest) = read_part(line, b"end :") {
        return Some((Op::End, rest));
    }
    let Some(rest) = read_part(line, b"sweep :") else {
        return None;
    };
    Some((Op::Sweep, rest))
}

// those with a byte
#[tactic(auto, unfolding(crate::specs::Forms::byte_op_in))]
fn read_byte_op(line: &[u8]) -> Option<(Op, &[u8])>
    ensures { Gives (λ x. (x.0, x.1.now)) result (byte_op_in line.now) }
{
    if let Some((page, rest)) = read_byte_word(line, b"warm ") {
        return Some((Op::Warm(page), rest));
    }
    if let Some((id, rest)) = read_byte_word(line, b"init ") {
        return Some((Op::Init(id), rest));
    }
    if let Some((id, rest)) = read_byte_word(line, b"check ") {
        return Some((Op::Check(id), rest));
    }
    if let Some((id, rest)) = read_byte_word(line, b"nmi ") {
        return Some((Op::Nmi(id), rest));
    }
    let Some((priority, rest)) = read_byte_word(line, b"tpr ") else {
        return None;
    };
    Some((Op::Tpr(priority), rest))
}

// those with two bytes, or with the place of an I/O APIC and a register or a value
#[tactic(auto, unfolding(crate::specs::Forms::two_op_in))]
fn read_two_op(line: &[u8]) -> Option<(Op, &[u8])>
    ensures { Gives (λ x. (x.0, x.1.now)) result (two_op_in line.now) }
{
    if let Some(((id, page), rest)) = read_bytes_word(line, b"startup ") {
        return Some((Op::Startup(id, page), rest));
    }
    if let Some(((id, vector), rest)) = read_bytes_word(line, b"ipi ") {
        return Some((Op::Ipi(id, vector), rest));
    }
    if let Some(((place, index), rest)) = read_register_word(line, b"iosel ") {
        return Some((Op::IoSel(place, index), rest));
    }
    let Some(((place, value), rest)) = read_value_word(line, b"iowin ") else {
        return None;
    };
    Some((Op::IoWin(place, value), rest))
}

// those with a pin, a place alone, a set of pins or a time
#[tactic(auto, unfolding(crate::specs::Forms::pin_op_in))]
fn read_pin_op(line: &[u8]) -> Option<(Op, &[u8])>
    ensures { Gives (λ x. (x.0, x.1.now)) result (pin_op_in line.now) }
{
    if let Some(((place, pin), rest)) = read_pin_word(line, b"high ") {
        return Some((Op::High(place, pin), rest));
    }
    if let Some(((place, pin), rest)) = read_pin_word(line, b"low ") {
        return Some((Op::Low(place, pin), rest));
    }
    if let Some((pin, rest)) = read_send(line) {
        return Some((Op::Send(pin), rest));
    }
    if let Some((place, rest)) = read_io_read(line) {
        return Some((Op::IoRead(place), rest));
    }
    if let Some((pins, rest)) = read_collect(line) {
        return Some((Op::Collect(pins), rest));
    }
    let Some((time, rest)) = read_pause(line) else {
        return None;
    };
    Some((Op::Pause(time), rest))
}

// those of logical destinations; the model is flat or cluster
#[tactic(auto, unfolding(crate::specs::Forms::logical_op_in))]
fn read_logical_op(line: &[u8]) -> Option<(Op, &[u8])>
    ensures { Gives (λ x. (x.0, x.1.now)) result (logical_op_in line.now) }
{
    if let Some((dest, rest)) = read_byte_word(line, b"ldr ") {
        return Some((Op::Ldr(dest), rest));
    }
    if let Some(((dest, vector), rest)) = read_bytes_word(line, b"ipl ") {
        return Some((Op::Ipl(dest, vector), rest));
    }
    if let Some(rest) = read_part(line, b"dfr 00 :") {
        return Some((Op::Dfr(0), rest));
    }
    let Some(rest) = read_part(line, b"dfr 0F :") else {
        return None;
    };
    Some((Op::Dfr(15), rest))
}

fn read_place_field<'a>(line: &'a [u8], word: &[u8]) -> Option<(u8, &'a [u8])>
    ensures { Gives (λ x. (x.0, x.1.now)) result (after word.now place_in line.now) }
{
    let Some(rest) = read_part(line, word) else {
        return None;
    };
    read_place(rest)
}

#[tactic(auto, unfolding(crate::specs::Forms::byte_word_in))]
fn read_byte_word<'a>(line: &'a [u8], word: &[u8]) -> Option<(u8, &'a [u8])>
    ensures { Gives (λ x. (x.0, x.1.now)) result (byte_word_in word.now line.now) }
{
    let Some((byte, rest)) = read_u8_field(line, word) else {
        return None;
    };
    let Some(rest) = read_part(rest, b" :") else {
        return None;
    };
    Some((byte, rest))
}

#[tactic(auto, unfolding(crate::specs::Forms::bytes_word_in))]
fn read_bytes_word<'a>(line: &'a [u8], word: &[u8]) -> Option<((u8, u8), &'a [u8])>
    ensures { Gives (λ x. ((x.0.0, x.0.1), x.1.now)) result (bytes_word_in word.now line.now) }
{
    let Some((first, rest)) = read_u8_field(line, word) else {
        return None;
    };
    let Some((second, rest)) = read_u8_field(rest, b" ") else {
        return None;
    };
    let Some(rest) = read_part(rest, b" :") else {
        return None;
    };
    Some(((first, second), rest))
}

#[tactic(auto, unfolding(crate::specs::Forms::place_word_in))]
fn read_register_word<'a>(line: &'a [u8], word: &[u8]) -> Option<((u8, u8), &'a [u8])>
    ensures { Gives (λ x. ((x.0.0, x.0.1), x.1.now)) result (place_word_in word.now 2 line.now) }
{
    let Some((place, rest)) = read_place_field(line, word) else {
        return None;
    };
    let Some((register, rest)) = read_u8_field(rest, b" ") else {
        return None;
    };
    let Some(rest) = read_part(rest, b" :") else {
        return None;
    };
    Some(((place, register), rest))
}

#[tactic(auto, unfolding(crate::specs::Forms::place_word_in))]
fn read_value_word<'a>(line: &'a [u8], word: &[u8]) -> Option<((u8, u32), &'a [u8])>
    ensures { Gives (λ x. ((x.0.0, x.0.1), x.1.now)) result (place_word_in word.now 8 line.now) }
{
    let Some((place, rest)) = read_place_field(line, word) else {
        return None;
    };
    let Some((value, rest)) = read_u32_field(rest, b" ") else {
        return None;
    };
    let Some(rest) = read_part(rest, b" :") else {
        return None;
    };
    Some(((place, value), rest))
}

#[tactic(auto, unfolding(crate::specs::Forms::pin_word_in))]
fn read_pin_word<'a>(line: &'a [u8], word: &[u8]) -> Option<((u8, u8), &'a [u8])>
    ensures { Gives (λ x. ((x.0.0, x.0.1), x.1.now)) result (pin_word_in word.now line.now) }
{
    let Some((place, rest)) = read_place_field(line, word) else {
        return None;
    };
    let Some(rest) = read_part(rest, b" ") else {
        return None;
    };
    let Some((pin, rest)) = read_pin(rest, b" :") else {
        return None;
    };
    Some(((place, pin), rest))
}

fn read_send(line: &[u8]) -> Option<(u8, &[u8])>
    ensures { Gives (λ x. (x.0, x.1.now)) result (after (codes "send ") (up_to_in 23 colon) line.now) }
{
    let Some(rest) = read_part(line, b"send ") else {
        return None;
    };
    read_pin(rest, b" :")
}

fn read_io_read(line: &[u8]) -> Option<(u8, &[u8])>
    ensures { Gives (λ x. (x.0, x.1.now)) result (before (after (codes "ioread ") place_in) colon line.now) }
{
    let Some((place, rest)) = read_place_field(line, b"ioread ") else {
        return None;
    };
    let Some(rest) = read_part(rest, b" :") else {
        return None;
    };
    Some((place, rest))
}

fn read_collect(line: &[u8]) -> Option<(u32, &[u8])>
    ensures { Gives (λ x. (x.0, x.1.now)) result (before (field_in (codes "collect ") 6) colon line.now) }
{
    let Some((pins, rest)) = read_field(line, b"collect ", 6) else {
        return None;
    };
    let Some(rest) = read_part(rest, b" :") else {
        return None;
    };
    Some((pins as u32, rest))
}

fn read_pause(line: &[u8]) -> Option<(u32, &[u8])>
    ensures { Gives (λ x. (x.0, x.1.now)) result (after (codes "pause ") (up_to_in 4294967295 colon) line.now) }
{
    let Some(rest) = read_part(line, b"pause ") else {
        return None;
    };
    read_up_to(rest, u32::MAX, b" :")
}
