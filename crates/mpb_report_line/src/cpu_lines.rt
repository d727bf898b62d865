//! The lines of processors, each read from the left.

ghost use Rattle.std.specs.Prelude.{◌≡◌, [], IfSome, IfNone, IfOk};
ghost use Rattle.mpt_line.specs.Reading.{Gives, field_in, after, both};
ghost use Rattle.mpt_line.specs.Lines.{BeginsWith, BeginsWithNone};
ghost use Rattle.mpb_report_line.specs.Lines.{cpu_text};
ghost use Rattle.mpb_report_line.specs.Values.{IsRightCpu};
ghost use Rattle.mpb_report_line.specs.Forms.{life_in, registers_in, cpu_in, cpu_head_in};

use crate::report::CpuLine;
use crate::vectors::read_vectors;
use mpb_spec::Life;
use mpt_line::{read_part, read_u8_field};
use mpt_spec::Sequence;
use std::alloc::{AllocError, Global};

/// The processor whose line begins the text, and what follows that line; `None` exactly where the text
/// begins with the line of none. It takes memory for the vectors alone, and fails only where that runs
/// out.
pub fn read_cpu_line(alloc: Global, text: &[u8]) -> Result<Option<(CpuLine, &[u8])>, AllocError>
    ensures some { IfOk result (λ found. IfSome found (λ x.
        BeginsWith cpu_text IsRightCpu text.now x.0 x.1.now)) }
    ensures none { IfOk result (λ found. IfNone found (BeginsWithNone cpu_text IsRightCpu text.now)) }
{
    read_cpu(alloc, text)
}

#[tactic(auto, unfolding(crate::specs::Forms::cpu_in, crate::specs::Forms::cpu_head_in))]
fn read_cpu(alloc: Global, line: &[u8]) -> Result<Option<(CpuLine, &[u8])>, AllocError>
    ensures { IfOk result (λ o. Gives (λ x. (x.0, x.1.now)) o (cpu_in line.now)) }
{
    let Some((head, rest)) = read_head(line) else {
        return Ok(None);
    };
    let mut lists = (Vec::new(alloc), Vec::new(alloc), Vec::new(alloc));
    match read_registers(&mut lists, rest) {
        Ok(Some(rest)) => Ok(Some((cpu_line(head, lists), rest))),
        Ok(None) => Ok(None),
        Err(error) => Err(error),
    }
}

fn cpu_line(head: (u8, Life, u8), lists: (Vec<u8>, Vec<u8>, Vec<u8>)) -> CpuLine
    ensures { result ≡ record { id = head.0; life = head.1; tpr = head.2; irr = lists.0.items; isr = lists.1.items; tmr = lists.2.items } }
{
    let (id, life, tpr) = head;
    let (irr, isr, tmr) = lists;
    CpuLine {
        id,
        life,
        tpr,
        irr: Sequence::new(irr),
        isr: Sequence::new(isr),
        tmr: Sequence::new(tmr),
    }
}

// the id, the life and the task priority
#[tactic(auto, unfolding(crate::specs::Forms::cpu_head_in))]
fn read_head(line: &[u8]) -> Option<((u8, Life, u8), &[u8])>
    ensures { Gives (λ x. ((x.0.0, (x.0.1, x.0.2)), x.1.now)) result (cpu_head_in line.now) }
{
    let Some((id, rest)) = read_u8_field(line, b"state cpu ") else {
        return None;
    };
    let Some(rest) = read_part(rest, b" ") else {
        return None;
    };
    let Some((life, rest)) = read_life(rest) else {
        return None;
    };
    let Some((tpr, rest)) = read_u8_field(rest, b" tpr ") else {
        return None;
    };
    Some(((id, life, tpr), rest))
}

// whether the processor runs
#[tactic(auto, unfolding(crate::specs::Forms::life_in))]
fn read_life(line: &[u8]) -> Option<(Life, &[u8])>
    ensures { Gives (λ x. (x.0, x.1.now)) result (life_in line.now) }
{
    if let Some(rest) = read_part(line, b"asleep") {
        return Some((Life::Asleep, rest));
    }
    if let Some(rest) = read_part(line, b"waiting") {
        return Some((Life::Waiting, rest));
    }
    if let Some(rest) = read_part(line, b"first") {
        return Some((Life::First, rest));
    }
    let Some((page, rest)) = read_u8_field(line, b"started.") else {
        return None;
    };
    Some((Life::Started(page), rest))
}

// the vectors that are requested, in service and level-triggered, each into an empty list, to the end of
// the line
#[tactic(auto, unfolding(crate::specs::Forms::registers_in))]
fn read_registers<'a>(
    lists: &mut (Vec<u8>, Vec<u8>, Vec<u8>),
    line: &'a [u8],
) -> Result<Option<&'a [u8]>, AllocError>
    requires irr { lists.old.0.items ≡ [] }
    requires isr { lists.old.1.items ≡ [] }
    requires tmr { lists.old.2.items ≡ [] }
    ensures { IfOk result (λ o. Gives (λ rest. ((lists.new.0.items, (lists.new.1.items, lists.new.2.items)), rest.now)) o (registers_in line.now)) }
{
    let Some(rest) = read_part(line, b" irr ") else {
        return Ok(None);
    };
    let rest = match read_vectors(&mut lists.0, rest, b" isr ") {
        Ok(Some(rest)) => rest,
        Ok(None) => return Ok(None),
        Err(error) => return Err(error),
    };
    let rest = match read_vectors(&mut lists.1, rest, b" tmr ") {
        Ok(Some(rest)) => rest,
        Ok(None) => return Ok(None),
        Err(error) => return Err(error),
    };
    read_vectors(&mut lists.2, rest, b"\n")
}
