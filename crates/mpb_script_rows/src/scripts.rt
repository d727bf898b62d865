//! Scripts that are read, value by value.

use crate::harness::same;
use mpb_script::{CpuScript, Script, ScriptFault, parse};
use mpb_spec::{DevWord, Op};
use std::alloc::Global;
use std::process::Abort;

/// The script of a text that has to be one.
fn script_of(rt: &impl Abort, alloc: Global, text: &str) -> Script {
    match parse(alloc, text.as_bytes()) {
        Ok(script) => script,
        Err(fault) => panic!(rt; "{}", why(fault)),
    }
}

fn why(fault: ScriptFault) -> &'static str {
    match fault {
        ScriptFault::NoMemory => "no memory",
        _ => "refused",
    }
}

/// Asserts the page, the edge/level control register, and how many processors and devices have programs.
fn has_numbers(rt: &impl Abort, script: &Script, page: u8, elcr: u16, cpus: usize, devices: usize) {
    same(rt, "page", script.page, page);
    same(rt, "elcr", script.elcr, elcr);
    same(rt, "processors", script.cpus.as_slice().len(), cpus);
    same(rt, "devices", script.devices.as_slice().len(), devices);
}

/// Asserts that the script names these processors as present.
fn has_present(rt: &impl Abort, script: &Script, ids: &[u8]) {
    let named = match &script.present {
        Some(found) => found.as_slice() == ids,
        None => false,
    };
    same(rt, "the processors that are present", named, true);
}

/// Asserts that the script names no processors as present.
fn has_no_present(rt: &impl Abort, script: &Script) {
    same(
        rt,
        "whether processors are named",
        script.present.is_some(),
        false,
    );
}

/// Whether a processor has this id and this program.
fn is_cpu(cpu: &CpuScript, id: u8, program: &[Op]) -> bool {
    cpu.id == id && cpu.words.as_slice() == program
}

/// Asserts the id and the program of the processor at a place.
fn has_cpu(rt: &impl Abort, script: &Script, place: usize, id: u8, program: &[Op]) {
    let is = match script.cpus.as_slice().get(place) {
        Some(cpu) => is_cpu(cpu, id, program),
        None => false,
    };
    same(
        rt,
        "a processor, and whether it is as wanted",
        (place, is),
        (place, true),
    );
}

/// Asserts the program of the device at a place.
fn has_device(rt: &impl Abort, script: &Script, place: usize, words: &[DevWord]) {
    let is = match script.devices.as_slice().get(place) {
        Some(device) => device.as_slice() == words,
        None => false,
    };
    same(
        rt,
        "a device, and whether it is as wanted",
        (place, is),
        (place, true),
    );
}

#[test]
fn every_word(rt: HostRuntime) {
    let text = "page = 0x9F
elcr = 32
present = [0, 7, 7]

[[cpu]]
id = 7
words = [\"ipi 1 0xfF\", \"nmi 2\", \"take\", \"poll\", \"eoi\", \"tpr 48\", \"iosel 3 0x10\", \"iowin 2 0xFFFFFFFF\", \"ioread 1\", \"pause 1000000\", \"ldr 0x80\", \"dfr 15\", \"ipl 3 64\"]

[[cpu]]
id = 0
words = []

[[device]]
words = [\"pulse 0 23\", \"high 1 2\", \"low 3 0\"]
";
    let script = script_of(&rt, rt.alloc(), text);
    has_every_word(&rt, &script);
}

/// Asserts what that script says.
fn has_every_word(rt: &impl Abort, script: &Script) {
    has_numbers(rt, script, 0x9F, 32, 2, 1);
    has_present(rt, script, &[0, 7, 7]);
    let program = [
        Op::Ipi(1, 255),
        Op::Nmi(2),
        Op::Take,
        Op::Poll,
        Op::Eoi,
        Op::Tpr(48),
        Op::IoSel(3, 16),
        Op::IoWin(2, 0xFFFF_FFFF),
        Op::IoRead(1),
        Op::Pause(1_000_000),
        Op::Ldr(0x80),
        Op::Dfr(15),
        Op::Ipl(3, 64),
    ];
    has_cpu(rt, script, 0, 7, &program);
    has_cpu(rt, script, 1, 0, &[]);
    let words = [
        DevWord::Pulse(0, 23),
        DevWord::High(1, 2),
        DevWord::Low(3, 0),
    ];
    has_device(rt, script, 0, &words);
}

#[test]
fn three_devices_at_one_pin(rt: HostRuntime) {
    let text = "page = 0x9F
cpu = [{ id = 0, words = [\"take\", \"eoi\"] }]
device = [{ words = [\"pulse 0 1\"] }, { words = [\"pulse 0 1\"] }, { words = [\"pulse 0 1\"] }]";
    let script = script_of(&rt, rt.alloc(), text);
    has_three_devices(&rt, &script);
}

/// Asserts what that script says.
fn has_three_devices(rt: &impl Abort, script: &Script) {
    has_numbers(rt, script, 0x9F, 0, 1, 3);
    has_no_present(rt, script);
    has_cpu(rt, script, 0, 0, &[Op::Take, Op::Eoi]);
    let words = [DevWord::Pulse(0, 1)];
    has_device(rt, script, 0, &words);
    has_device(rt, script, 1, &words);
    has_device(rt, script, 2, &words);
}

/// Asserts what a script says that names nobody.
fn names_nobody(rt: &impl Abort, alloc: Global) {
    let script = script_of(rt, alloc, "page = 0xC0\npresent = []");
    has_present(rt, &script, &[]);
}

#[test]
fn a_page_alone(rt: HostRuntime) {
    let script = script_of(&rt, rt.alloc(), "page = 0xC0");
    has_numbers(&rt, &script, 0xC0, 0, 0, 0);
    has_no_present(&rt, &script);
    names_nobody(&rt, rt.alloc());
}
