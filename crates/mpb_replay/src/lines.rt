//! The lines of the state.

ghost use Rattle.std.specs.Prelude.{◌≡◌, ◌≢◌, ◌<◌, ◌+◌, MatchBool, MatchOption, Some, length, map, option_map, slice_get};
ghost use Rattle.mpb_spec.specs.State.{processor_of};
ghost use Rattle.mpb_board.specs.BoardView.{state_of};
ghost use Rattle.mpb_report.specs.Found.{register_of};
ghost use Rattle.mpb_report_spec.specs.StateLines.{members};
ghost use Rattle.mpb_replay_laws.specs.Differences.{IsFirstDifference};
ghost use Rattle.mpb_replay_laws.specs.Lines.{cpu_line_in, io_line_in, line_of_processor, line_of_place, lines_in, lines_of};
ghost use Rattle.mpb_replay.specs.Compared.{IsSameAt, HasRegisters, IsLineOf, IsLineOfChip};

use mpb_board::{Board, Imcr, Life};
use mpb_ioapic::IoApic;
use mpb_lapic::Lapic;
use mpb_replay_laws::{CpuLine, IoLine, Report};
use mpb_report::{Register, members};

// whether these are the vectors of the register
fn has_vectors(vectors: &[u8], lapic: &Lapic, register: Register) -> bool
    ensures { MatchBool result (vectors.now ≡ members (register_of register lapic.now)) (vectors.now ≢ members (register_of register lapic.now)) }
{
    let all = members(lapic, register);
    vectors == all.as_slice()
}

// whether the line has the registers of the local APIC
fn has_registers(line: &CpuLine, lapic: &Lapic) -> bool
    ensures { MatchBool result (HasRegisters line.now lapic.now) (¬ HasRegisters line.now lapic.now) }
{
    line.tpr == lapic.tpr()
        && has_vectors(line.irr.as_slice(), lapic, Register::Irr)
        && has_vectors(line.isr.as_slice(), lapic, Register::Isr)
        && has_vectors(line.tmr.as_slice(), lapic, Register::Tmr)
}

fn same_life(one: Life, other: Life) -> bool
    ensures { MatchBool result (one ≡ other) (one ≢ other) }
{
    one == other
}

fn same_imcr(one: Imcr, other: Imcr) -> bool
    ensures { MatchBool result (one ≡ other) (one ≢ other) }
{
    one == other
}

// whether the line is that of the processor with this id
fn is_line_of_cpu(line: &CpuLine, board: &Board, id: u8) -> bool
    ensures { MatchBool result (IsLineOf line.now id (processor_of id (state_of board.now).processors)) (¬ IsLineOf line.now id (processor_of id (state_of board.now).processors)) }
{
    let Some(life) = board.life(id) else {
        return false;
    };
    let Some(lapic) = board.lapic(id) else {
        return false;
    };
    line.id == id && same_life(line.life, life) && has_registers(line, lapic)
}

// whether the processor's line at this place is right; past the last processor there is to be none
fn is_cpu_right(lines: &[CpuLine], board: &Board, number: usize) -> bool
    ensures { MatchBool result (IsSameAt (map cpu_line_in lines.now) (map line_of_processor (state_of board.now).processors) number) (¬ IsSameAt (map cpu_line_in lines.now) (map line_of_processor (state_of board.now).processors) number) }
{
    let cpus = board.config().cpus.as_slice();
    match lines.get(number) {
        Some(line) => match cpus.get(number) {
            Some(cpu) => is_line_of_cpu(line, board, cpu.id),
            None => false,
        },
        None => match cpus.get(number) {
            Some(_) => false,
            None => true,
        },
    }
}

// the first line of a processor that isn't right
fn wrong_cpu(lines: &[CpuLine], board: &Board) -> Option<u8>
    ensures { MatchOption result (map cpu_line_in lines.now ≡ map line_of_processor (state_of board.now).processors) (λ n. IsFirstDifference (map cpu_line_in lines.now) (map line_of_processor (state_of board.now).processors) n) }
{
    let count = board.config().cpus.len() as u8 + 1;
    for number in 0..count {
        if !is_cpu_right(lines, board, usize::from(number)) {
            return Some(number);
        }
    }
    None
}

// whether the line has the pins of the I/O APIC
fn is_line_of_io(line: IoLine, chip: &IoApic) -> bool
    ensures { MatchBool result (IsLineOfChip line chip.now) (¬ IsLineOfChip line chip.now) }
{
    line.line == chip.line() && line.due == chip.due() && line.remote == chip.remote()
}

// whether the line of the I/O APIC at this place is right; past the last there is to be none
fn is_io_right(lines: &[IoLine], board: &Board, place: u8) -> bool
    ensures { MatchBool result (IsSameAt (map io_line_in lines.now) (map line_of_place (state_of board.now).places) place) (¬ IsSameAt (map io_line_in lines.now) (map line_of_place (state_of board.now).places) place) }
{
    match lines.get(usize::from(place)) {
        Some(line) => match board.io(place) {
            Some(chip) => is_line_of_io(*line, chip),
            None => false,
        },
        None => match board.io(place) {
            Some(_) => false,
            None => true,
        },
    }
}

// the first line of an I/O APIC that isn't right
fn wrong_io(lines: &[IoLine], board: &Board) -> Option<u8>
    ensures { MatchOption result (map io_line_in lines.now ≡ map line_of_place (state_of board.now).places) (λ n. IsFirstDifference (map io_line_in lines.now) (map line_of_place (state_of board.now).places) n) }
{
    let count = board.config().ios.len() as u8 + 1;
    for place in 0..count {
        if !is_io_right(lines, board, place) {
            return Some(place);
        }
    }
    None
}

/// The first line of the state that isn't the board's.
pub(crate) fn wrong_line(report: &Report, board: &Board) -> Option<u32>
    ensures { MatchOption result (lines_in report.now ≡ lines_of (state_of board.now)) (λ n. IsFirstDifference (lines_in report.now) (lines_of (state_of board.now)) n) }
{
    if !same_imcr(report.imcr, board.imcr()) {
        return Some(0);
    }
    let count = board.config().cpus.len() as u32;
    match wrong_cpu(report.cpus.as_slice(), board) {
        Some(number) => Some(1 + u32::from(number)),
        None => match wrong_io(report.ios.as_slice(), board) {
            Some(place) => Some(1 + count + u32::from(place)),
            None => None,
        },
    }
}
