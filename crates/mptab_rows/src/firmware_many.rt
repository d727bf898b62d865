//! Platforms that no table of firmware has room for.

ghost use Rattle.std.specs.Prelude.{◌<◌};

use crate::firmware_usual::{MADT, PIR};
use crate::harness::{Answer, answer_of, built, same, shelf_of};
use mpt_base::MemShelf;
use std::alloc::Global;
use std::process::Abort;
use std::test::Fail;

const HEAD: &str = "mptable 1
pointer at 000F0000 table 00080000 revision 04 features 0000000000
header revision 04 oem \"MPTAB   \" product \"BOARD       \" oemtable 00000000 oemsize 0000 local FEE00000 reserved 00
";

/// What `build` answers to a listing that ends with these lines.
fn image_with_lines(alloc: Global, lines: &str) -> Result<Answer, Fail> {
    let text = format!(in alloc; "{HEAD}{lines}end\n")?;
    built(alloc, text.as_str().as_bytes())
}

/// A shelf with the image of a listing that ends with these lines.
fn shelf_of_lines(alloc: Global, lines: &str) -> Result<MemShelf, Fail> {
    let image = image_with_lines(alloc, lines)?;
    shelf_of(alloc, "image", image.text.as_slice())
}

/// Puts firmware's tables on a shelf.
fn add_firmware(shelf: &mut MemShelf) -> Result<(), Fail> {
    shelf.add("madt", MADT)?;
    shelf.add("pir", PIR)?;
    Ok(())
}

/// The answer of a command to the image of a listing that ends with these lines.
fn of_lines(alloc: Global, command: &[&str], lines: &str) -> Result<Answer, Fail> {
    let mut shelf = shelf_of_lines(alloc, lines)?;
    add_firmware(&mut shelf)?;
    answer_of(alloc, command, &mut shelf, 0)
}

/// Whether a command answers so to the image of a listing that ends with these lines.
fn is_answered(
    alloc: Global,
    command: &[&str],
    lines: &str,
    status: u8,
    text: &[u8],
) -> Result<bool, Fail> {
    let answer = of_lines(alloc, command, lines)?;
    Ok(answer.is(status, text))
}

/// Writes the line of a processor.
fn push_processor(alloc: Global, lines: &mut String, id: u32) -> Result<(), Fail> {
    let line = format!(in alloc;
        "processor id {id:02X} version 14 flags 01 signature 00000600 features 00000201 reserved 0000000000000000\n"
    )?;
    lines.push_str(line.as_str())?;
    Ok(())
}

/// So many processors.
fn processors(alloc: Global, count: u32) -> Result<String, Fail> {
    let mut lines = String::new(alloc);
    for n in 0..count {
        push_processor(alloc, &mut lines, n % 256)?;
    }
    Ok(lines)
}

/// Asserts what `madt` and `madtcmp` answer to 256 processors.
fn processors_are_many(rt: &impl Abort, alloc: Global, lines: &str) -> Result<(), Fail> {
    let want = b"mptab: madt many processors 256\n";
    let many = is_answered(alloc, &["madt", "image", "0000"], lines, 13, want)?;
    same(rt, "256 processors", many, true);
    let compare = &["madtcmp", "image", "0000", "madt"];
    let compared = is_answered(alloc, compare, lines, 0, b"differs 0\n")?;
    same(rt, "256 processors compared", compared, true);
    Ok(())
}

#[test]
fn many_processors(rt: HostRuntime) -> Result<(), Fail> {
    let lines = processors(rt.alloc(), 256)?;
    processors_are_many(&rt, rt.alloc(), lines.as_str())
}

/// Writes the line of a bus's interrupt on a wire: a pin of an I/O APIC, 256 of each.
fn push_wire(alloc: Global, lines: &mut String, bus: u32, irq: u32, wire: u32) -> Result<(), Fail> {
    let dest = wire / 256;
    let pin = wire % 256;
    let line = format!(in alloc;
        "ioint kind 00 flags 0000 bus {bus:02X} irq {irq:02X} dest {dest:02X} pin {pin:02X}\n"
    )?;
    lines.push_str(line.as_str())?;
    Ok(())
}

const THREE_BUSES: &str =
    "bus id 00 name \"PCI   \"\nbus id 01 name \"PCI   \"\nbus id 02 name \"PCI   \"\n";

/// Three PCI buses, and interrupts of so many of their pins: each has a wire of its own.
fn wires(alloc: Global, count: u32) -> Result<String, Fail> {
    let mut lines = String::from_str(alloc, THREE_BUSES)?;
    for n in 0..count {
        push_wire(alloc, &mut lines, n / 128, n % 128, n)?;
    }
    Ok(lines)
}

/// Asserts what `pirmake` and `pircmp` answer to 256 wires.
fn wires_are_many(rt: &impl Abort, alloc: Global, lines: &str) -> Result<(), Fail> {
    let want = b"mptab: pir many links 256\n";
    let many = is_answered(alloc, &["pirmake", "image"], lines, 15, want)?;
    same(rt, "256 wires", many, true);
    let compared = of_lines(alloc, &["pircmp", "image", "pir"], lines)?;
    let last = b"bus 01 device 1F pin D onlymp\ndiffers 255\n";
    same(rt, "256 wires compared", compared.ends(1, last), true);
    Ok(())
}

#[test]
fn many_links(rt: HostRuntime) -> Result<(), Fail> {
    let lines = wires(rt.alloc(), 256)?;
    wires_are_many(&rt, rt.alloc(), lines.as_str())
}

/// Writes the line of a PCI bus.
fn push_bus(alloc: Global, lines: &mut String, bus: u32) -> Result<(), Fail> {
    let line = format!(in alloc; "bus id {bus:02X} name \"PCI   \"\n")?;
    lines.push_str(line.as_str())?;
    Ok(())
}

/// The lines of 128 PCI buses.
fn buses(alloc: Global) -> Result<String, Fail> {
    let mut lines = String::new(alloc);
    for bus in 0..128 {
        push_bus(alloc, &mut lines, bus)?;
    }
    Ok(lines)
}

/// PCI buses from 0 on, and an interrupt of pin A of so many devices, on so many wires in turn.
fn devices(alloc: Global, count: u32, turn: u32) -> Result<String, Fail>
    requires { 0 < turn }
{
    let mut lines = buses(alloc)?;
    for n in 0..count {
        push_wire(alloc, &mut lines, n / 32, n % 32 * 4, n % turn)?;
    }
    Ok(lines)
}

/// Whether 4,094 devices on so many wires in turn are too many slots.
fn has_many_slots(alloc: Global, turn: u32) -> Result<bool, Fail>
    requires { 0 < turn }
{
    let lines = devices(alloc, 4094, turn)?;
    let want = b"mptab: pir many slots 4094\n";
    is_answered(alloc, &["pirmake", "image"], lines.as_str(), 15, want)
}

#[test]
fn many_slots(rt: HostRuntime) -> Result<(), Fail> {
    let one = has_many_slots(rt.alloc(), 1)?;
    same(&rt, "4,094 devices", one, true);
    let more = has_many_slots(rt.alloc(), 256)?;
    same(&rt, "with 256 wires", more, true);
    Ok(())
}
