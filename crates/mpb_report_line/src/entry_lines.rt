//! The lines of entries, each read from the left.

ghost use Rattle.std.specs.Prelude.{◌≡◌, IfSome, IfNone};
ghost use Rattle.mpt_line.specs.Reading.{Gives};
ghost use Rattle.mpt_line.specs.Lines.{BeginsWith, BeginsWithNone};
ghost use Rattle.mpb_report_spec.specs.EntryLines.{entry_line};
ghost use Rattle.mpb_report_line.specs.Values.{IsRightEntry};
ghost use Rattle.mpb_report_line.specs.Forms.{entry_in};

use crate::numbers::read_number;
use crate::ops::{read_agent, read_op};
use crate::outcomes::read_outcomes;
use mpb_spec::Entry;
use mpt_line::read_part;

/// The entry of this number whose line begins the text, and what follows that line; `None` exactly
/// where the text begins with the line of none.
pub fn read_entry_line(text: &[u8], number: u32) -> Option<(Entry, &[u8])>
    ensures some { IfSome result (λ x.
        BeginsWith (entry_line number) IsRightEntry text.now x.0 x.1.now) }
    ensures none { IfNone result (BeginsWithNone (entry_line number) IsRightEntry text.now) }
{
    read_entry(text, number)
}

#[tactic(auto, unfolding(crate::specs::Forms::entry_in))]
fn read_entry(line: &[u8], number: u32) -> Option<(Entry, &[u8])>
    ensures { Gives (λ x. (x.0, x.1.now)) result (entry_in number line.now) }
{
    let Some(rest) = read_number(line, number, b" ") else {
        return None;
    };
    let Some((agent, rest)) = read_agent(rest) else {
        return None;
    };
    let Some(rest) = read_part(rest, b" ") else {
        return None;
    };
    let Some((op, rest)) = read_op(rest) else {
        return None;
    };
    let Some((outcomes, rest)) = read_outcomes(rest) else {
        return None;
    };
    Some((
        Entry {
            agent,
            op,
            outcomes,
        },
        rest,
    ))
}
