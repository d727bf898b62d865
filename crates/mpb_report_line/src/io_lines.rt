//! The lines of the interrupt mode register and of I/O APICs, each read from the left.

ghost use Rattle.std.specs.Prelude.{◌≡◌, IfSome, IfNone, codes, ⊤, ℕ};
ghost use Rattle.mpt_line.specs.Reading.{Gives, hex_in, field_in, both, ended};
ghost use Rattle.mpt_line.specs.Lines.{BeginsWith, BeginsWithNone};
ghost use Rattle.mpb_report_spec.specs.StateLines.{imcr_line};
ghost use Rattle.mpb_report_line.specs.Lines.{io_text};
ghost use Rattle.mpb_report_line.specs.Values.{IsRightImcr, IsRightIo};
ghost use Rattle.mpb_report_line.specs.Forms.{imcr_in, io_in};

use crate::numbers::read_number;
use crate::report::IoLine;
use mpb_spec::Imcr;
use mpt_line::{read_end, read_field, read_part};

/// The interrupt mode register whose line begins the text, and what follows that line; `None` exactly
/// where the text begins with the line of none.
pub fn read_imcr_line(text: &[u8]) -> Option<(Imcr, &[u8])>
    ensures some { IfSome result (λ x. BeginsWith imcr_line IsRightImcr text.now x.0 x.1.now) }
    ensures none { IfNone result (BeginsWithNone imcr_line IsRightImcr text.now) }
{
    read_imcr(text)
}

/// The I/O APIC at this place whose line begins the text, and what follows that line; `None` exactly
/// where the text begins with the line of none.
pub fn read_io_line(text: &[u8], place: u32) -> Option<(IoLine, &[u8])>
    ensures some { IfSome result (λ x. BeginsWith (io_text place) IsRightIo text.now x.0 x.1.now) }
    ensures none { IfNone result (BeginsWithNone (io_text place) IsRightIo text.now) }
{
    read_io(text, place)
}

#[tactic(auto, unfolding(crate::specs::Forms::imcr_in))]
fn read_imcr(line: &[u8]) -> Option<(Imcr, &[u8])>
    ensures { Gives (λ x. (x.0, x.1.now)) result (imcr_in line.now) }
{
    let Some(line) = read_part(line, b"state imcr ") else {
        return None;
    };
    if let Some(rest) = read_part(line, b"none\n") {
        return Some((Imcr::Absent, rest));
    }
    if let Some(rest) = read_part(line, b"pic\n") {
        return Some((Imcr::Pic, rest));
    }
    let Some(rest) = read_part(line, b"apic\n") else {
        return None;
    };
    Some((Imcr::Apic, rest))
}

#[tactic(auto, unfolding(crate::specs::Forms::io_in))]
fn read_io(line: &[u8], place: u32) -> Option<(IoLine, &[u8])>
    ensures { Gives (λ x. (x.0, x.1.now)) result (io_in place line.now) }
{
    let Some(rest) = read_part(line, b"state io ") else {
        return None;
    };
    let Some(rest) = read_number(rest, place, b" line ") else {
        return None;
    };
    let Some((line, rest)) = read_field(rest, b"", 6) else {
        return None;
    };
    let Some((due, rest)) = read_field(rest, b" due ", 6) else {
        return None;
    };
    let Some((remote, rest)) = read_field(rest, b" remote ", 6) else {
        return None;
    };
    let Some(rest) = read_end(rest) else {
        return None;
    };
    Some((
        IoLine {
            line: line as u32,
            due: due as u32,
            remote: remote as u32,
        },
        rest,
    ))
}
