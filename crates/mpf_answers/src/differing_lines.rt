//! Where a MADT says another line of an ISA interrupt than the routes of a platform: a line for each, and
//! their number last.

ghost use Rattle.std.specs.Prelude.{◌≡◌, ◌++◌, ◌<◌, IfOk, OnOk};
ghost use Rattle.std.specs.List.{flat_map};
ghost use Rattle.mpf_answers.specs.LineDifferences.{trigger_name, polarity_name, same_bool, is_line, difference_of, difference_at, line_differences_of, difference_line, line_differences_text};

use mpf_madt::{Line, Madt, isa, source};
use mpt_base::NoMemory;
use mpt_listing::{Part, push_line};
use mpt_route::{Answer, Platform};
use std::alloc::{AllocError, Global};

/// An ISA interrupt of which the MADT says another line than the routes.
#[derive(Clone, Copy, Debug, PartialEq, Eq)]
pub struct LineDifference {
    /// The ISA interrupt, below 16.
    pub irq: u8,
    /// Its line by the routes.
    pub mp: Line,
    /// Its line in the MADT.
    pub madt: Line,
}

// whether two lines are one
fn is_line(a: Line, b: Line) -> bool
    ensures { result ≡ is_line a b }
{
    a.gsi == b.gsi && same(a.level, b.level) && same(a.low, b.low)
}

fn same(a: bool, b: bool) -> bool
    ensures { result ≡ same_bool a b }
{
    if a { b } else { !b }
}

// the difference of an interrupt with these lines, if there is one
fn difference_of(irq: u8, mp: Option<Line>, madt: Line) -> Option<LineDifference>
    ensures { result ≡ difference_of irq mp madt }
{
    match mp {
        Some(mp) if !is_line(mp, madt) => Some(LineDifference { irq, mp, madt }),
        _ => None,
    }
}

// the difference of an ISA interrupt, if there is one
fn difference_at(p: &Platform, answers: &[Answer], madt: &Madt, irq: u8) -> Option<LineDifference>
    requires { irq < 16 }
    ensures { result ≡ difference_at p.now answers.now madt.now irq }
{
    difference_of(irq, source(p, answers, irq), isa(madt, irq))
}

/// The ISA interrupts of which the MADT says another line than the routes of a platform, ascending. It
/// takes memory for them alone, and fails only where that runs out.
pub fn line_differences(
    alloc: Global,
    p: &Platform,
    answers: &[Answer],
    madt: &Madt,
) -> Result<Vec<LineDifference>, NoMemory>
    ensures { IfOk result (λ ds. ds.items ≡ line_differences_of p.now answers.now madt.now) }
{
    match differences(alloc, p, answers, madt) {
        Ok(found) => Ok(found),
        Err(_) => Err(NoMemory),
    }
}

fn differences(
    alloc: Global,
    p: &Platform,
    answers: &[Answer],
    madt: &Madt,
) -> Result<Vec<LineDifference>, AllocError>
    ensures { IfOk result (λ ds. ds.items ≡ line_differences_of p.now answers.now madt.now) }
{
    let mut found = Vec::new(alloc);
    for irq in 0..16u8 {
        if let Some(difference) = difference_at(p, answers, madt, irq) {
            let Ok(()) = found.push(difference) else {
                return Err(AllocError);
            };
        }
    }
    Ok(found)
}

/// The lines of the differences, in order, and a line with their number. It takes memory for the text
/// alone, and fails only where that runs out.
pub fn print_line_differences(
    alloc: Global,
    differences: &[LineDifference],
) -> Result<Vec<u8>, NoMemory>
    ensures { IfOk result (λ text. text.items ≡ line_differences_text differences.now) }
{
    let mut out = Vec::new(alloc);
    match push_differences(&mut out, differences) {
        Ok(()) => Ok(out),
        Err(_) => Err(NoMemory),
    }
}

fn push_differences(out: &mut Vec<u8>, differences: &[LineDifference]) -> Result<(), AllocError>
    ensures { OnOk result (out.new.items ≡ out.old.items ++ line_differences_text differences.now) }
{
    let Ok(()) = push_lines(out, differences) else {
        return Err(AllocError);
    };
    let count = differences.len() as u64;
    push_line(out, &[Part::Text(b"differs "), Part::Decimal(count)])
}

fn push_lines(out: &mut Vec<u8>, differences: &[LineDifference]) -> Result<(), AllocError>
    ensures { OnOk result (out.new.items ≡ out.old.items ++ flat_map difference_line differences.now) }
{
    for difference in differences {
        let Ok(()) = push_difference(out, *difference) else {
            return Err(AllocError);
        };
    }
    Ok(())
}

fn push_difference(out: &mut Vec<u8>, d: LineDifference) -> Result<(), AllocError>
    ensures { OnOk result (out.new.items ≡ out.old.items ++ difference_line d) }
{
    push_line(
        out,
        &[
            Part::Text(b"irq "),
            Part::Decimal(u64::from(d.irq)),
            Part::Text(b" mp "),
            Part::Decimal(u64::from(d.mp.gsi)),
            Part::Text(b" "),
            Part::Text(trigger_name(d.mp.level)),
            Part::Text(b" "),
            Part::Text(polarity_name(d.mp.low)),
            Part::Text(b" madt "),
            Part::Decimal(u64::from(d.madt.gsi)),
            Part::Text(b" "),
            Part::Text(trigger_name(d.madt.level)),
            Part::Text(b" "),
            Part::Text(polarity_name(d.madt.low)),
        ],
    )
}

fn trigger_name(level: bool) -> &'static [u8]
    ensures { result.now ≡ trigger_name level }
{
    if level { b"level" } else { b"edge" }
}

fn polarity_name(low: bool) -> &'static [u8]
    ensures { result.now ≡ polarity_name low }
{
    if low { b"low" } else { b"high" }
}
