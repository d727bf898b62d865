//! The lines of the devices' logs.

ghost use Rattle.std.specs.Prelude.{◌≡◌, ◌++◌, OnOk, map};
ghost use Rattle.std.specs.List.{concat, flat_map};
ghost use Rattle.mpb_report_spec.specs.Numbered.{numbered};
ghost use Rattle.mpb_report_spec.specs.LogLines.{hit_text, pulse_text, pulses_text, log_line};

use crate::parts::push_parts;
use mpb_spec::{Hit, Pulse};
use mpt_listing::{Part, push_text};
use std::alloc::AllocError;

/// Writes the lines of the logs, numbered from 0.
pub(crate) fn push_log_lines(
    out: &mut Vec<u8>,
    logs: &[Vec<(Pulse, Hit)>],
) -> Result<(), AllocError>
    ensures { OnOk result (out.new.items ≡ out.old.items ++ concat (numbered log_line 0 (map (λ log. log.items) logs.now))) }
{
    for number in 0..logs.len() {
        if let Err(error) = push_log_line(out, number as u64, logs[number].as_slice()) {
            return Err(error);
        }
    }
    Ok(())
}

// the line of a device's log
fn push_log_line(out: &mut Vec<u8>, number: u64, log: &[(Pulse, Hit)]) -> Result<(), AllocError>
    ensures { OnOk result (out.new.items ≡ out.old.items ++ log_line number log.now) }
{
    if let Err(error) = push_parts(
        out,
        &[
            Part::Text(b"log "),
            Part::Decimal(number),
            Part::Text(b" :"),
        ],
    ) {
        return Err(error);
    }
    match push_pulses(out, log) {
        Ok(()) => push_text(out, b"\n"),
        Err(error) => Err(error),
    }
}

fn push_pulses(out: &mut Vec<u8>, log: &[(Pulse, Hit)]) -> Result<(), AllocError>
    ensures { OnOk result (out.new.items ≡ out.old.items ++ pulses_text log.now) }
{
    match log {
        [] => push_text(out, b" none"),
        [_, ..] => push_each_pulse(out, log),
    }
}

fn push_each_pulse(out: &mut Vec<u8>, log: &[(Pulse, Hit)]) -> Result<(), AllocError>
    ensures { OnOk result (out.new.items ≡ out.old.items ++ flat_map pulse_text log.now) }
{
    for pulse in log {
        if let Err(error) = push_pulse(out, *pulse) {
            return Err(error);
        }
    }
    Ok(())
}

// a pulse after a space, with the latch's answer
fn push_pulse(out: &mut Vec<u8>, made: (Pulse, Hit)) -> Result<(), AllocError>
    ensures { OnOk result (out.new.items ≡ out.old.items ++ pulse_text made) }
{
    let (pulse, hit) = made;
    push_parts(
        out,
        &[
            Part::Text(b" "),
            Part::Decimal(pulse.io as u64),
            Part::Text(b"."),
            Part::Decimal(pulse.pin as u64),
            Part::Text(b"="),
            Part::Text(hit_text(hit)),
        ],
    )
}

fn hit_text(hit: Hit) -> &'static [u8]
    ensures { result.now ≡ hit_text hit }
{
    match hit {
        Hit::New => b"new",
        Hit::Merged => b"merged",
    }
}
