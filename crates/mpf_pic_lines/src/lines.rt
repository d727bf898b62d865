//! The lines of calls, each read from the left.

ghost use Rattle.std.specs.Prelude.{◌≡◌, Some, IfSome, IfNone};
ghost use Rattle.mpt_line.specs.Reading.{Gives};
ghost use Rattle.mpt_line.specs.Lines.{BeginsWith, BeginsWithNone};
ghost use Rattle.mpf_pic_lines.specs.Lines.{op_line, IsRightOp};
ghost use Rattle.mpf_pic_lines.specs.Forms.{port_of, out_of, out_in, get_in, way_in, drive_of, low_irq_in, high_irq_in, op_in};

use crate::fields::{read_byte, read_digit, read_part};
use crate::op::PicOp;
use mpf_pair::Port;

/// The call whose line begins the text, and what follows that line; `None` exactly where the text
/// begins with the line of none.
pub(crate) fn read_op_line(text: &[u8]) -> Option<(PicOp, &[u8])>
    ensures some { IfSome result (λ x. BeginsWith op_line IsRightOp text.now x.0 x.1.now) }
    ensures none { IfNone result (BeginsWithNone op_line IsRightOp text.now) }
{
    read_op(text)
}

// The first of the forms that reads.
#[tactic(auto, unfolding(crate::specs::Forms::op_in))]
fn read_op(line: &[u8]) -> Option<(PicOp, &[u8])>
    ensures { Gives (λ x. (x.0, x.1.now)) result (op_in line.now) }
{
    if let Some(found) = read_out(line) {
        return Some(found);
    }
    if let Some(found) = read_get(line) {
        return Some(found);
    }
    if let Some(found) = read_low_irq(line) {
        return Some(found);
    }
    if let Some(found) = read_high_irq(line) {
        return Some(found);
    }
    let Some(rest) = read_part(line, b"ack\n") else {
        return None;
    };
    Some((PicOp::Ack, rest))
}

// The port of a number.
fn port_of(number: u8) -> Option<Port>
    ensures { result ≡ port_of number }
{
    match number {
        0x20 => Some(Port::Master),
        0x21 => Some(Port::MasterData),
        0xA0 => Some(Port::Slave),
        0xA1 => Some(Port::SlaveData),
        _ => None,
    }
}

// The write of a port.
fn out_of(number: u8, v: u8) -> Option<PicOp>
    ensures { result ≡ out_of (number, v) }
{
    match port_of(number) {
        Some(port) => Some(PicOp::Put(port, v)),
        None => match number {
            0x22 | 0x23 => Some(PicOp::Imcr(number, v)),
            _ => None,
        },
    }
}

// `out PP VV`
#[tactic(auto, unfolding(crate::specs::Forms::out_in))]
fn read_out(line: &[u8]) -> Option<(PicOp, &[u8])>
    ensures { Gives (λ x. (x.0, x.1.now)) result (out_in line.now) }
{
    let Some(rest) = read_part(line, b"out ") else {
        return None;
    };
    let Some((number, rest)) = read_byte(rest) else {
        return None;
    };
    let Some(rest) = read_part(rest, b" ") else {
        return None;
    };
    let Some((v, rest)) = read_byte(rest) else {
        return None;
    };
    let Some(rest) = read_part(rest, b"\n") else {
        return None;
    };
    let Some(op) = out_of(number, v) else {
        return None;
    };
    Some((op, rest))
}

// `in PP`
#[tactic(auto, unfolding(crate::specs::Forms::get_in))]
fn read_get(line: &[u8]) -> Option<(PicOp, &[u8])>
    ensures { Gives (λ x. (x.0, x.1.now)) result (get_in line.now) }
{
    let Some(rest) = read_part(line, b"in ") else {
        return None;
    };
    let Some((number, rest)) = read_byte(rest) else {
        return None;
    };
    let Some(rest) = read_part(rest, b"\n") else {
        return None;
    };
    let Some(port) = port_of(number) else {
        return None;
    };
    Some((PicOp::Get(port), rest))
}

// ` up` or ` down`: whether the line goes up
#[tactic(auto, unfolding(crate::specs::Forms::way_in))]
fn read_way(line: &[u8]) -> Option<(bool, &[u8])>
    ensures { Gives (λ x. (x.0, x.1.now)) result (way_in line.now) }
{
    if let Some(rest) = read_part(line, b" up\n") {
        return Some((true, rest));
    }
    let Some(rest) = read_part(line, b" down\n") else {
        return None;
    };
    Some((false, rest))
}

// a line that goes up or down
fn drive_of(n: u8, up: bool) -> PicOp
    ensures { Some result ≡ drive_of (n, up) }
{
    if up { PicOp::Up(n) } else { PicOp::Down(n) }
}

// `irq N up` or `irq N down` of one digit
#[tactic(auto, unfolding(crate::specs::Forms::low_irq_in))]
fn read_low_irq(line: &[u8]) -> Option<(PicOp, &[u8])>
    ensures { Gives (λ x. (x.0, x.1.now)) result (low_irq_in line.now) }
{
    let Some(rest) = read_part(line, b"irq ") else {
        return None;
    };
    let Some((n, rest)) = read_digit(rest) else {
        return None;
    };
    if n >= 10 || n == 2 {
        return None;
    }
    let Some((up, rest)) = read_way(rest) else {
        return None;
    };
    Some((drive_of(n, up), rest))
}

// the same of two digits
#[tactic(auto, unfolding(crate::specs::Forms::high_irq_in))]
fn read_high_irq(line: &[u8]) -> Option<(PicOp, &[u8])>
    ensures { Gives (λ x. (x.0, x.1.now)) result (high_irq_in line.now) }
{
    let Some(rest) = read_part(line, b"irq 1") else {
        return None;
    };
    let Some((n, rest)) = read_digit(rest) else {
        return None;
    };
    if n >= 6 {
        return None;
    }
    let Some((up, rest)) = read_way(rest) else {
        return None;
    };
    Some((drive_of(10 + n, up), rest))
}
