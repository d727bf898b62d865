//! Parts that make a config, and parts that make none.

use crate::harness::same;
use mpb_board::{CpuConfig, DevWord, Op};
use mpb_config::config_of;
use std::alloc::{AllocError, Global};
use std::process::Abort;

/// What is varied: the page that is asked for, the boot processor's id, the length of the boot program,
/// the second processor's id, the place that an op names, the model of logical destinations that one sets, and
/// the pin that a word names.
#[derive(Clone, Copy)]
struct Parts {
    page: u8,
    boot: u8,
    boot_len: u32,
    second: u8,
    place: u8,
    model: u8,
    pin: u8,
}

/// The parts as they should be.
fn good() -> Parts {
    Parts {
        page: 0x9F,
        boot: 0,
        boot_len: 3,
        second: 1,
        place: 0,
        model: 15,
        pin: 23,
    }
}

/// One of the parts.
#[derive(Clone, Copy)]
enum Part {
    Page(u8),
    Boot(u8),
    BootLen(u32),
    Second(u8),
    Place(u8),
    Model(u8),
    Pin(u8),
}

/// The parts as they should be, but for this one.
fn with(part: Part) -> Parts {
    let mut parts = good();
    match part {
        Part::Page(page) => parts.page = page,
        Part::Boot(boot) => parts.boot = boot,
        Part::BootLen(boot_len) => parts.boot_len = boot_len,
        Part::Second(second) => parts.second = second,
        Part::Place(place) => parts.place = place,
        Part::Model(model) => parts.model = model,
        Part::Pin(pin) => parts.pin = pin,
    }
    parts
}

// processor 0 starts the second one at page 9Fh, selects a register, takes, and sets a model
fn program_of(alloc: Global, parts: Parts) -> Result<Vec<Op>, AllocError> {
    [
        Op::Init(parts.second),
        Op::Startup(parts.second, 0x9F),
        Op::IoSel(parts.place, 0x10),
        Op::Take,
        Op::Dfr(parts.model),
    ]
    .to_vec(alloc)
}

// the two processors
fn cpus_of(alloc: Global, parts: Parts) -> Result<Vec<CpuConfig>, AllocError> {
    let first = CpuConfig {
        id: 0,
        version: 0x10,
        program: program_of(alloc, parts)?,
    };
    let second = CpuConfig {
        id: parts.second,
        version: 0x10,
        program: Vec::new(alloc),
    };
    Ok(vec![in alloc; first, second]?)
}

// a device that pulses a pin
fn devices_of(alloc: Global, pin: u8) -> Result<Vec<Vec<DevWord>>, AllocError> {
    let words = [DevWord::Pulse(0, pin)].to_vec(alloc)?;
    Ok(vec![in alloc; words]?)
}

// whether they are a config, on one I/O APIC
fn are_a_config(alloc: Global, parts: Parts) -> Result<bool, AllocError> {
    let cpus = cpus_of(alloc, parts)?;
    let devices = devices_of(alloc, parts.pin)?;
    let ios = [2].to_vec(alloc)?;
    let made = config_of(
        parts.page,
        parts.boot,
        parts.boot_len,
        cpus,
        ios,
        false,
        devices,
    );
    Ok(made.is_some())
}

// asserts whether they are one
fn gives(rt: &impl Abort, alloc: Global, parts: Parts, want: bool, what: &str) {
    match are_a_config(alloc, parts) {
        Ok(made) => same(rt, what, made, want),
        Err(_) => panic!(rt; "out of memory"),
    }
}

// each part that is varied, and whether there is a config
fn rows() -> &'static [(Part, bool, &'static str)] {
    &[
        (Part::BootLen(2), true, "the selection is a script's"),
        (Part::Page(0x9E), false, "another page"),
        (Part::Boot(2), false, "no boot processor"),
        (Part::BootLen(1), false, "a STARTUP in a script"),
        (Part::BootLen(4), false, "a take in a boot program"),
        (Part::BootLen(5), false, "a boot program that is too long"),
        (Part::Second(0), false, "two processors of one id"),
        (Part::Second(255), false, "a wide id"),
        (Part::Place(1), false, "no such I/O APIC"),
        (Part::Pin(24), false, "no such pin"),
        (Part::Model(0), true, "cluster"),
        (Part::Model(7), false, "neither flat nor cluster"),
    ]
}

#[test]
fn parts_are_a_config_or_none(rt: HostRuntime) {
    gives(&rt, rt.alloc(), good(), true, "as it should be");
    for (part, want, what) in rows() {
        gives(&rt, rt.alloc(), with(*part), *want, what);
    }
}
