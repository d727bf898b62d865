//! The lines of the devices' logs, each read from the left.

ghost use Rattle.std.specs.Prelude.{◌≡◌, ◌++◌, ◌<◌, [], IfSome, IfNone, IfOk, length};
ghost use Rattle.mpt_line.specs.Reading.{Gives};
ghost use Rattle.mpt_line.specs.Lines.{BeginsWith, BeginsWithNone};
ghost use Rattle.mpb_report_spec.specs.LogLines.{log_line};
ghost use Rattle.mpb_report_line.specs.Values.{IsRightLog};
ghost use Rattle.mpb_report_line.specs.Reading.{run_of};
ghost use Rattle.mpb_report_line.specs.Forms.{hit_in, pulse_in, pulses_in, log_in};

use crate::numbers::{read_number, read_pin, read_place};
use mpb_spec::{Hit, Pulse};
use mpt_line::{read_end, read_part};
use mpt_spec::Sequence;
use std::alloc::{AllocError, Global};

/// The log of the device of this number whose line begins the text, and what follows that line; `None`
/// exactly where the text begins with the line of none. It takes memory for the pulses alone, and fails
/// only where that runs out.
pub fn read_log_line(
    alloc: Global,
    text: &[u8],
    number: u32,
) -> Result<Option<(Sequence<(Pulse, Hit)>, &[u8])>, AllocError>
    ensures some { IfOk result (λ found. IfSome found (λ x.
        BeginsWith (log_line number) IsRightLog text.now x.0 x.1.now)) }
    ensures none { IfOk result (λ found. IfNone found (BeginsWithNone (log_line number) IsRightLog text.now)) }
{
    read_log(alloc, text, number)
}

#[tactic(auto, unfolding(crate::specs::Forms::log_in))]
fn read_log(
    alloc: Global,
    line: &[u8],
    number: u32,
) -> Result<Option<(Sequence<(Pulse, Hit)>, &[u8])>, AllocError>
    ensures { IfOk result (λ o. Gives (λ x. (x.0, x.1.now)) o (log_in number line.now)) }
{
    let Some(rest) = read_part(line, b"log ") else {
        return Ok(None);
    };
    let Some(rest) = read_number(rest, number, b" :") else {
        return Ok(None);
    };
    let mut pulses = Vec::new(alloc);
    match read_pulses(&mut pulses, rest) {
        Ok(Some(rest)) => Ok(Some((Sequence::new(pulses), rest))),
        Ok(None) => Ok(None),
        Err(error) => Err(error),
    }
}

// pulses to the end of the line, or that there are none; they are put into an empty list
#[tactic(auto, unfolding(crate::specs::Forms::pulses_in))]
fn read_pulses<'a>(
    pulses: &mut Vec<(Pulse, Hit)>,
    line: &'a [u8],
) -> Result<Option<&'a [u8]>, AllocError>
    requires { pulses.old.items ≡ [] }
    ensures { IfOk result (λ o. Gives (λ rest. (pulses.new.items, rest.now)) o (pulses_in line.now)) }
{
    if let Some(rest) = read_part(line, b" none\n") {
        return Ok(Some(rest));
    }
    let rest = match push_run(pulses, line) {
        Ok(rest) => rest,
        Err(error) => return Err(error),
    };
    match read_end(rest) {
        Some(rest) if !pulses.is_empty() => Ok(Some(rest)),
        _ => Ok(None),
    }
}

// pushes as many pulses as there are
fn push_run<'a>(pulses: &mut Vec<(Pulse, Hit)>, line: &'a [u8]) -> Result<&'a [u8], AllocError>
    ensures pulses { IfOk result (λ rest. pulses.new.items ≡ pulses.old.items ++ (run_of pulse_in (length line.now) line.now).0) }
    ensures rest { IfOk result (λ rest. rest.now ≡ (run_of pulse_in (length line.now) line.now).1) }
{
    let mut rest = line;
    for _i in 0..line.len() {
        let Some((pulse, after)) = read_pulse(rest) else {
            return Ok(rest);
        };
        let Ok(()) = pulses.push(pulse) else {
            return Err(AllocError);
        };
        rest = after;
    }
    Ok(rest)
}

// a pulse after a space, with the latch's answer
#[tactic(auto, unfolding(crate::specs::Forms::pulse_in))]
fn read_pulse(line: &[u8]) -> Option<((Pulse, Hit), &[u8])>
    ensures { Gives (λ x. ((x.0.0, x.0.1), x.1.now)) result (pulse_in line.now) }
{
    let Some(rest) = read_part(line, b" ") else {
        return None;
    };
    let Some((io, rest)) = read_place(rest) else {
        return None;
    };
    let Some(rest) = read_part(rest, b".") else {
        return None;
    };
    let Some((pin, rest)) = read_pin(rest, b"=") else {
        return None;
    };
    let Some((hit, rest)) = read_hit(rest) else {
        return None;
    };
    Some(((Pulse { io, pin }, hit), rest))
}

// what the latch answered
#[tactic(auto, unfolding(crate::specs::Forms::hit_in))]
fn read_hit(line: &[u8]) -> Option<(Hit, &[u8])>
    ensures { Gives (λ x. (x.0, x.1.now)) result (hit_in line.now) }
{
    if let Some(rest) = read_part(line, b"new") {
        return Some((Hit::New, rest));
    }
    let Some(rest) = read_part(line, b"merged") else {
        return None;
    };
    Some((Hit::Merged, rest))
}
