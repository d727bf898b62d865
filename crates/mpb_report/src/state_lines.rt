//! The lines of a board's state.

ghost use Rattle.std.specs.Prelude.{◌≡◌, ◌≤◌, ◌++◌, OnOk, codes, map, slice_get};
ghost use Rattle.std.specs.List.{concat};
ghost use Rattle.mpb_spec.specs.State.{processor_of};
ghost use Rattle.mpb_board.specs.BoardView.{state_of};
ghost use Rattle.mpt_listing.specs.Listing.{hex};
ghost use Rattle.mpb_report_spec.specs.Numbered.{numbered};
ghost use Rattle.mpb_report_spec.specs.StateLines.{imcr_text, imcr_line, life_text, registers_text, members, vectors_text, cpu_line, processor_line, io_line, place_line, state_lines};
ghost use Rattle.mpb_report.specs.Found.{register_of, found_cpu, found_io};

use crate::parts::push_parts;
use crate::vectors::{Register, push_register};
use mpb_board::{Board, Imcr, Life};
use mpb_ioapic::IoApic;
use mpb_lapic::Lapic;
use mpt_listing::{Part, push_line, push_text};
use std::alloc::AllocError;

/// Writes the lines of the state that the board's journal leaves.
pub(crate) fn push_state_lines(out: &mut Vec<u8>, board: &Board) -> Result<(), AllocError>
    ensures { OnOk result (out.new.items ≡ out.old.items ++ concat (state_lines (state_of board.now))) }
{
    if let Err(error) = push_imcr_line(out, board.imcr()) {
        return Err(error);
    }
    match push_cpu_lines(out, board) {
        Ok(()) => push_io_lines(out, board),
        Err(error) => Err(error),
    }
}

fn push_imcr_line(out: &mut Vec<u8>, imcr: Imcr) -> Result<(), AllocError>
    ensures { OnOk result (out.new.items ≡ out.old.items ++ imcr_line imcr) }
{
    push_line(
        out,
        &[Part::Text(b"state imcr "), Part::Text(imcr_text(imcr))],
    )
}

fn imcr_text(imcr: Imcr) -> &'static [u8]
    ensures { result.now ≡ imcr_text imcr }
{
    match imcr {
        Imcr::Absent => b"none",
        Imcr::Pic => b"pic",
        Imcr::Apic => b"apic",
    }
}

// the lines of all processors, ascending by id
fn push_cpu_lines(out: &mut Vec<u8>, board: &Board) -> Result<(), AllocError>
    ensures { OnOk result (out.new.items ≡ out.old.items ++ concat (map processor_line (state_of board.now).processors)) }
{
    let cpus = board.config().cpus.as_slice();
    for cpu in cpus {
        if let Err(error) = push_found_cpu(out, board, cpu.id) {
            return Err(error);
        }
    }
    Ok(())
}

// the line of the processor with this id
fn push_found_cpu(out: &mut Vec<u8>, board: &Board, id: u8) -> Result<(), AllocError>
    ensures { OnOk result (out.new.items ≡ out.old.items ++ found_cpu id (processor_of id (state_of board.now).processors)) }
{
    let Some(life) = board.life(id) else {
        return Ok(());
    };
    let Some(lapic) = board.lapic(id) else {
        return Ok(());
    };
    push_cpu_line(out, id, life, lapic)
}

fn push_cpu_line(out: &mut Vec<u8>, id: u8, life: Life, lapic: &Lapic) -> Result<(), AllocError>
    ensures { OnOk result (out.new.items ≡ out.old.items ++ cpu_line id life lapic.now) }
{
    if let Err(error) = push_cpu_head(out, id, life) {
        return Err(error);
    }
    if let Err(error) = push_parts(
        out,
        &[Part::Text(b" tpr "), Part::Hex(2, lapic.tpr() as u64)],
    ) {
        return Err(error);
    }
    match push_registers(out, lapic) {
        Ok(()) => push_text(out, b"\n"),
        Err(error) => Err(error),
    }
}

// the id and whether the processor runs
fn push_cpu_head(out: &mut Vec<u8>, id: u8, life: Life) -> Result<(), AllocError>
    ensures { OnOk result (out.new.items ≡ out.old.items ++ (codes "state cpu " ++ (hex 2 id ++ (codes " " ++ life_text life)))) }
{
    if let Err(error) = push_parts(
        out,
        &[
            Part::Text(b"state cpu "),
            Part::Hex(2, id as u64),
            Part::Text(b" "),
        ],
    ) {
        return Err(error);
    }
    push_life(out, life)
}

// the vectors that are requested, in service and level-triggered
fn push_registers(out: &mut Vec<u8>, lapic: &Lapic) -> Result<(), AllocError>
    ensures { OnOk result (out.new.items ≡ out.old.items ++ registers_text lapic.now) }
{
    if let Err(error) = push_named_register(out, b" irr ", lapic, Register::Irr) {
        return Err(error);
    }
    match push_named_register(out, b" isr ", lapic, Register::Isr) {
        Ok(()) => push_named_register(out, b" tmr ", lapic, Register::Tmr),
        Err(error) => Err(error),
    }
}

// the vectors of a register behind its name
fn push_named_register(
    out: &mut Vec<u8>,
    name: &[u8],
    lapic: &Lapic,
    register: Register,
) -> Result<(), AllocError>
    ensures { OnOk result (out.new.items ≡ out.old.items ++ (name.now ++ vectors_text (members (register_of register lapic.now)))) }
{
    match push_text(out, name) {
        Ok(()) => push_register(out, lapic, register),
        Err(error) => Err(error),
    }
}

fn push_life(out: &mut Vec<u8>, life: Life) -> Result<(), AllocError>
    ensures { OnOk result (out.new.items ≡ out.old.items ++ life_text life) }
{
    match life {
        Life::Asleep => push_text(out, b"asleep"),
        Life::Waiting => push_text(out, b"waiting"),
        Life::Started(page) => push_parts(
            out,
            &[Part::Text(b"started."), Part::Hex(2, page as u64)],
        ),
        Life::First => push_text(out, b"first"),
    }
}

// the lines of all I/O APICs, by place
fn push_io_lines(out: &mut Vec<u8>, board: &Board) -> Result<(), AllocError>
    ensures { OnOk result (out.new.items ≡ out.old.items ++ concat (numbered place_line 0 (state_of board.now).places)) }
{
    let count = board.config().ios.len();
    for place in 0..count {
        if let Err(error) = push_found_io(out, board, place as u8) {
            return Err(error);
        }
    }
    Ok(())
}

// the line of the I/O APIC at this place
fn push_found_io(out: &mut Vec<u8>, board: &Board, place: u8) -> Result<(), AllocError>
    ensures { OnOk result (out.new.items ≡ out.old.items ++ found_io place (slice_get (state_of board.now).places place)) }
{
    match board.io(place) {
        Some(chip) => push_io_line(out, place, chip),
        None => Ok(()),
    }
}

fn push_io_line(out: &mut Vec<u8>, place: u8, chip: &IoApic) -> Result<(), AllocError>
    ensures { OnOk result (out.new.items ≡ out.old.items ++ io_line place chip.now.pins) }
{
    push_line(
        out,
        &[
            Part::Text(b"state io "),
            Part::Decimal(place as u64),
            Part::Text(b" line "),
            Part::Hex(6, chip.line() as u64),
            Part::Text(b" due "),
            Part::Hex(6, chip.due() as u64),
            Part::Text(b" remote "),
            Part::Hex(6, chip.remote() as u64),
        ],
    )
}
