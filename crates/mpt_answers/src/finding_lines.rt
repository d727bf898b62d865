//! Findings as a text: one line for each, and their number last.

ghost use Rattle.std.specs.Prelude.{◌≡◌, ◌++◌, IfOk, OnOk};
ghost use Rattle.std.specs.List.{flat_map};
ghost use Rattle.mpt_listing.specs.Part.{part_text};
ghost use Rattle.mpt_answers.specs.FindingLines.{place_text, finding_line, findings_text};

use mpt_base::NoMemory;
use mpt_listing::{Part, push_line};
use mpt_rules::Finding;
use std::alloc::{AllocError, Global};

/// The lines of the findings, in order, and a line with their number. It takes memory for the text
/// alone, and fails only where that runs out.
pub fn print_findings(alloc: Global, findings: &[Finding]) -> Result<Vec<u8>, NoMemory>
    ensures { IfOk result (λ text. text.items ≡ findings_text findings.now) }
{
    let mut out = Vec::new(alloc);
    match push_findings(&mut out, findings) {
        Ok(()) => Ok(out),
        Err(_) => Err(NoMemory),
    }
}

fn push_findings(out: &mut Vec<u8>, findings: &[Finding]) -> Result<(), AllocError>
    ensures { OnOk result (out.new.items ≡ out.old.items ++ findings_text findings.now) }
{
    let Ok(()) = push_finding_lines(out, findings) else {
        return Err(AllocError);
    };
    let count = findings.len() as u64;
    push_line(out, &[Part::Text(b"findings "), Part::Decimal(count)])
}

fn push_finding_lines(out: &mut Vec<u8>, findings: &[Finding]) -> Result<(), AllocError>
    ensures { OnOk result (out.new.items ≡ out.old.items ++ flat_map finding_line findings.now) }
{
    for finding in findings {
        let Ok(()) = push_finding(out, *finding) else {
            return Err(AllocError);
        };
    }
    Ok(())
}

fn push_finding(out: &mut Vec<u8>, finding: Finding) -> Result<(), AllocError>
    ensures { OnOk result (out.new.items ≡ out.old.items ++ finding_line finding) }
{
    push_line(
        out,
        &[
            Part::Text(b"rule "),
            Part::Decimal(finding.rule as u64),
            Part::Text(b" entry "),
            place(finding.entry),
            Part::Text(b" other "),
            place(finding.other),
        ],
    )
}

// a place in decimal, `-` where a finding names none
fn place(place: u32) -> Part<'static>
    ensures { part_text result ≡ place_text place }
{
    if place == 65535 {
        Part::Text(b"-")
    } else {
        Part::Decimal(place as u64)
    }
}
