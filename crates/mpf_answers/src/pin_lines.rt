//! Where a PCI IRQ routing table and a platform differ, as a text: one line for each pin, and their number
//! last.

ghost use Rattle.std.specs.Prelude.{◌≡◌, ◌++◌, IfOk, OnOk};
ghost use Rattle.std.specs.List.{flat_map};
ghost use Rattle.mpf_answers.specs.PinLines.{pin_name, odd_name, pin_line, pin_differences_text};

use mpf_pir::{Difference, Odd};
use mpt_base::NoMemory;
use mpt_listing::{Part, push_line};
use std::alloc::{AllocError, Global};

/// The lines of the differences, in order, and a line with their number. It takes memory for the text
/// alone, and fails only where that runs out.
pub fn print_pin_differences(alloc: Global, differences: &[Difference]) -> Result<Vec<u8>, NoMemory>
    ensures { IfOk result (λ text. text.items ≡ pin_differences_text differences.now) }
{
    let mut out = Vec::new(alloc);
    match push_differences(&mut out, differences) {
        Ok(()) => Ok(out),
        Err(_) => Err(NoMemory),
    }
}

fn push_differences(out: &mut Vec<u8>, differences: &[Difference]) -> Result<(), AllocError>
    ensures { OnOk result (out.new.items ≡ out.old.items ++ pin_differences_text differences.now) }
{
    let Ok(()) = push_lines(out, differences) else {
        return Err(AllocError);
    };
    let count = differences.len() as u64;
    push_line(out, &[Part::Text(b"differs "), Part::Decimal(count)])
}

fn push_lines(out: &mut Vec<u8>, differences: &[Difference]) -> Result<(), AllocError>
    ensures { OnOk result (out.new.items ≡ out.old.items ++ flat_map pin_line differences.now) }
{
    for difference in differences {
        let Ok(()) = push_difference(out, *difference) else {
            return Err(AllocError);
        };
    }
    Ok(())
}

fn push_difference(out: &mut Vec<u8>, d: Difference) -> Result<(), AllocError>
    ensures { OnOk result (out.new.items ≡ out.old.items ++ pin_line d) }
{
    push_line(
        out,
        &[
            Part::Text(b"bus "),
            Part::Hex(2, u64::from(d.bus)),
            Part::Text(b" device "),
            Part::Hex(2, u64::from(d.device)),
            Part::Text(b" pin "),
            Part::Text(pin_name(d.pin)),
            Part::Text(b" "),
            Part::Text(odd_name(d.why)),
        ],
    )
}

// the letter of INTA# to INTD#
fn pin_name(pin: u8) -> &'static [u8]
    ensures { result.now ≡ pin_name pin }
{
    if pin == 0 {
        b"A"
    } else if pin == 1 {
        b"B"
    } else if pin == 2 {
        b"C"
    } else {
        b"D"
    }
}

fn odd_name(why: Odd) -> &'static [u8]
    ensures { result.now ≡ odd_name why }
{
    match why {
        Odd::OnlyPir => b"onlypir",
        Odd::OnlyMp => b"onlymp",
        Odd::Link => b"link",
    }
}
