//! Outcomes, each read from the left.

ghost use Rattle.std.specs.Prelude.{◌≡◌, codes, [], ◌∷◌};
ghost use Rattle.mpt_line.specs.Reading.{Gives, hex_in, field_in, both, after};
ghost use Rattle.mpb_report_line.specs.Reading.{before, run_of, items_in};
ghost use Rattle.mpb_report_line.specs.Forms.{target_word_in, target_what_in, trigger_in, bare_word_in, bare_what_in, outcome_in, outcomes_in};

use arrayvec::ArrayVec;
use mpb_spec::{Outcome, What};
use mpt_line::{read_byte, read_end, read_field, read_part, read_u8_field, read_u32_field};

/// One outcome to eight, to the end of the line.
#[tactic(auto, unfolding(crate::specs::Forms::outcomes_in))]
pub(crate) fn read_outcomes(line: &[u8]) -> Option<(ArrayVec<Outcome, 8>, &[u8])>
    ensures { Gives (λ x. (x.0.items, x.1.now)) result (outcomes_in line.now) }
{
    let (outcomes, rest) = read_run(line);
    let Some(rest) = read_end(rest) else {
        return None;
    };
    if outcomes.is_empty() {
        None
    } else {
        Some((outcomes, rest))
    }
}

// as many outcomes as there are, at most eight
fn read_run(line: &[u8]) -> (ArrayVec<Outcome, 8>, &[u8])
    ensures outcomes { result.0.items ≡ (run_of outcome_in 8 line.now).0 }
    ensures rest { result.1.now ≡ (run_of outcome_in 8 line.now).1 }
{
    let mut outcomes = ArrayVec::new();
    let mut rest = line;
    for _i in 0..8usize {
        let Some((outcome, after)) = read_outcome(rest) else {
            return (outcomes, rest);
        };
        outcomes.push(outcome);
        rest = after;
    }
    (outcomes, rest)
}

// an outcome after a space
#[tactic(auto, unfolding(crate::specs::Forms::outcome_in))]
fn read_outcome(line: &[u8]) -> Option<(Outcome, &[u8])>
    ensures { Gives (λ x. (x.0, x.1.now)) result (outcome_in line.now) }
{
    let Some(line) = read_part(line, b" ") else {
        return None;
    };
    if let Some(((at, what), rest)) = read_at_target(line) {
        return Some((Outcome { at, what }, rest));
    }
    let Some((what, rest)) = read_bare_what(line) else {
        return None;
    };
    Some((Outcome { at: 0, what }, rest))
}

fn read_at_target(line: &[u8]) -> Option<((u8, What), &[u8])>
    ensures { Gives (λ x. ((x.0.0, x.0.1), x.1.now)) result
        (both (before (hex_in 2) (codes "=")) target_what_in line.now) }
{
    let Some((at, rest)) = read_byte(line) else {
        return None;
    };
    let Some(rest) = read_part(rest, b"=") else {
        return None;
    };
    let Some((what, rest)) = read_target_what(rest) else {
        return None;
    };
    Some(((at, what), rest))
}

// what came of an op at a target
#[tactic(auto, unfolding(crate::specs::Forms::target_what_in))]
fn read_target_what(line: &[u8]) -> Option<(What, &[u8])>
    ensures { Gives (λ x. (x.0, x.1.now)) result (target_what_in line.now) }
{
    if let Some(read) = read_target_word(line) {
        return Some(read);
    }
    if let Some((page, rest)) = read_u8_field(line, b"started.") {
        return Some((What::Started(page), rest));
    }
    if let Some((page, rest)) = read_u8_field(line, b"runs.") {
        return Some((What::Runs(page), rest));
    }
    let Some(rest) = read_part(line, b"runs.first") else {
        return None;
    };
    Some((What::RunsFirst, rest))
}

#[tactic(auto, unfolding(crate::specs::Forms::target_word_in))]
fn read_target_word(line: &[u8]) -> Option<(What, &[u8])>
    ensures { Gives (λ x. (x.0, x.1.now)) result (target_word_in line.now) }
{
    if let Some(rest) = read_part(line, b"set") {
        return Some((What::Set, rest));
    }
    if let Some(rest) = read_part(line, b"merged") {
        return Some((What::Merged, rest));
    }
    if let Some(rest) = read_part(line, b"illegal") {
        return Some((What::Illegal, rest));
    }
    if let Some(rest) = read_part(line, b"asleep") {
        return Some((What::Asleep, rest));
    }
    if let Some(rest) = read_part(line, b"absent") {
        return Some((What::Absent, rest));
    }
    if let Some(rest) = read_part(line, b"waiting") {
        return Some((What::Waiting, rest));
    }
    if let Some(rest) = read_part(line, b"ignored") {
        return Some((What::Ignored, rest));
    }
    if let Some(rest) = read_part(line, b"nmi") {
        return Some((What::Nmi, rest));
    }
    let Some(rest) = read_part(line, b"passed") else {
        return None;
    };
    Some((What::Passed, rest))
}

// what came of it without one
#[tactic(auto, unfolding(crate::specs::Forms::bare_what_in))]
fn read_bare_what(line: &[u8]) -> Option<(What, &[u8])>
    ensures { Gives (λ x. (x.0, x.1.now)) result (bare_what_in line.now) }
{
    if let Some(read) = read_bare_word(line) {
        return Some(read);
    }
    if let Some((vector, rest)) = read_u8_field(line, b"taken.") {
        return Some((What::Taken(vector), rest));
    }
    if let Some((value, rest)) = read_u32_field(line, b"read.") {
        return Some((What::Read(value), rest));
    }
    if let Some(((vector, level), rest)) = read_ended(line) {
        return Some((What::Ended(vector, level), rest));
    }
    let Some(((due, joined), rest)) = read_pins(line) else {
        return None;
    };
    Some((What::Pins(due, joined), rest))
}

#[tactic(auto, unfolding(crate::specs::Forms::bare_word_in))]
fn read_bare_word(line: &[u8]) -> Option<(What, &[u8])>
    ensures { Gives (λ x. (x.0, x.1.now)) result (bare_word_in line.now) }
{
    if let Some(rest) = read_part(line, b"done") {
        return Some((What::Done, rest));
    }
    if let Some(rest) = read_part(line, b"unheard") {
        return Some((What::Unheard, rest));
    }
    if let Some(rest) = read_part(line, b"nothing") {
        return Some((What::Nothing, rest));
    }
    if let Some(rest) = read_part(line, b"plain") {
        return Some((What::Plain, rest));
    }
    if let Some(rest) = read_part(line, b"due") {
        return Some((What::Due, rest));
    }
    let Some(rest) = read_part(line, b"withdrawn") else {
        return None;
    };
    Some((What::Withdrawn, rest))
}

// how an interrupt was triggered
#[tactic(auto, unfolding(crate::specs::Forms::trigger_in))]
fn read_trigger(line: &[u8]) -> Option<(bool, &[u8])>
    ensures { Gives (λ x. (x.0, x.1.now)) result (trigger_in line.now) }
{
    if let Some(rest) = read_part(line, b"edge") {
        return Some((false, rest));
    }
    let Some(rest) = read_part(line, b"level") else {
        return None;
    };
    Some((true, rest))
}

fn read_ended(line: &[u8]) -> Option<((u8, bool), &[u8])>
    ensures { Gives (λ x. ((x.0.0, x.0.1), x.1.now)) result
        (both (field_in (codes "ended.") 2) (after (codes ".") trigger_in) line.now) }
{
    let Some((vector, rest)) = read_u8_field(line, b"ended.") else {
        return None;
    };
    let Some(rest) = read_part(rest, b".") else {
        return None;
    };
    let Some((level, rest)) = read_trigger(rest) else {
        return None;
    };
    Some(((vector, level), rest))
}

fn read_pins(line: &[u8]) -> Option<((u32, u32), &[u8])>
    ensures { Gives (λ x. ((x.0.0, x.0.1), x.1.now)) result
        (both (field_in (codes "pins.") 6) (field_in (codes ".") 6) line.now) }
{
    let Some((due, rest)) = read_field(line, b"pins.", 6) else {
        return None;
    };
    let Some((joined, rest)) = read_field(rest, b".", 6) else {
        return None;
    };
    Some(((due as u32, joined as u32), rest))
}
