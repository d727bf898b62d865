//! Each call once, on a board of one processor, one pin of whose I/O APIC three devices pulse at once. The
//! texts are those of docs/FORMATS.md, and were worked out by hand.

use crate::exports::{
    mptab_audit, mptab_build, mptab_canon, mptab_drill, mptab_madt, mptab_madtcmp, mptab_pic,
    mptab_pircmp, mptab_pirmake, mptab_raise, mptab_replay, mptab_route, mptab_show, mptab_trace,
};
use std::alloc::Global;
use std::process::Abort;
use std::test::Fail;

const LISTING: &str = "mptable 1
pointer at 000F0000 table 000F0010 revision 04 features 0000000000
header revision 04 oem \"MPTAB   \" product \"BOARD       \" oemtable 00000000 oemsize 0000 local FEE00000 reserved 00
processor id 00 version 10 flags 03 signature 00000520 features 000001BF reserved 0000000000000000
bus id 00 name \"ISA   \"
ioapic id 01 version 11 flags 01 address FEC00000
ioint kind 00 flags 0000 bus 00 irq 01 dest 01 pin 01
end
";

const SCRIPT: &str = "page = 0x9F
cpu = [{ id = 0, words = [\"take\", \"eoi\"] }]
device = [{ words = [\"pulse 0 1\"] }, { words = [\"pulse 0 1\"] }, { words = [\"pulse 0 1\"] }]
";

const REPORT: &str = "mpboot 1
entries 15
0 cpu 00 iosel 0 13 : done
1 cpu 00 iowin 0 00000000 : plain
2 cpu 00 iosel 0 12 : done
3 cpu 00 iowin 0 00000021 : plain
4 dev 0 begin : done
5 dev 1 begin : done
6 dev 2 begin : done
7 io 0 collect 000002 : pins.000002.000000
8 dev 0 end : done
9 dev 1 end : done
10 dev 2 end : done
11 io 0 send 1 : 00=set
12 cpu 00 take : taken.21
13 io 0 sweep : done
14 cpu 00 eoi : ended.21.edge
log 0 : 0.1=new
log 1 : 0.1=merged
log 2 : 0.1=merged
state imcr none
state cpu 00 first tpr 00 irr - isr - tmr -
state io 0 line 000000 due 000000 remote 000000
end
";

const DRILL: &str = "drill 0
processors 2 started 1
ioapics 1 routes 24
entries 205
pulses 24 new 24 merged 0
set 25 taken 25
end
";

/// Its MADT (ACPI Specification, section 5.2.12): a processor and an I/O APIC.
const MADT: &[u8] = b"APIC@\x00\x00\x00\x01\x00MPTAB \
MPTABLE \x01\x00\x00\x00MPTB\x01\x00\x00\x00\x00\x00\xE0\xFE\x01\x00\x00\x00\
\x00\x08\x00\x00\x01\x00\x00\x00\x01\x0C\x01\x00\x00\x00\xC0\xFE\x00\x00\x00\x00";

/// Its PCI IRQ routing table (version 1.0): the header alone.
const PIR: &[u8] =
    b"$PIR\x00\x01 \x00\x00\x00\x00\x00\x00\x00\x00\x00\x00\x00\x00\x00\x00\x00\x00\x00\x00\x00\x00\x00\x00\x00\x00\xD0";

/// The bytes of an image.
const MIB: usize = 1 << 20;

/// The answer of a call: its status, and its text where that isn't longer than the room.
fn is(status: u8, room: &[u8], needed: usize, text: &str) -> bool {
    status == 0 && room.get(..needed) == Some(text.as_bytes())
}

/// Asserts what a test looks at, at one place for every call.
fn holds(rt: &impl Abort, name: &str, fact: bool) {
    assert!(rt; fact, "{name}");
}

/// The image of the board.
fn board(alloc: Global) -> Result<Vec<u8>, Fail> {
    let mut image = Vec::from_elem(alloc, 0u8, MIB)?;
    let mut needed = 0;
    let status = mptab_build(alloc, LISTING.as_bytes(), &mut image, &mut needed);
    if status != 0 || needed != MIB {
        return Err("the board isn't built".into());
    }
    Ok(image)
}

/// Asserts that `mptab_canon` answers by the same image.
fn is_canonical(rt: &impl Abort, alloc: Global, image: &[u8]) -> Result<(), Fail> {
    let mut again = Vec::from_elem(alloc, 1u8, MIB)?;
    let mut needed = 0;
    let status = mptab_canon(alloc, image, &mut again, &mut needed);
    holds(rt, "canon", status == 0 && image == again.as_slice());
    Ok(())
}

/// Asserts the listing, the findings and the routes of an image.
fn is_told(rt: &impl Abort, alloc: Global, image: &[u8]) {
    let mut room = [0u8; 1024];
    let mut needed = 0;
    let status = mptab_show(alloc, image, &mut room, &mut needed);
    holds(rt, "show", is(status, &room, needed, LISTING));
    let status = mptab_audit(alloc, image, &mut room, &mut needed);
    holds(rt, "audit", is(status, &room, needed, "findings 0\n"));
    let status = mptab_route(alloc, image, 0, &mut room, &mut needed);
    let route = "route 0 io 0 pin 1 vector 21 low 00000021 high 00000000\n";
    holds(rt, "route", is(status, &room, needed, route));
}

#[test]
fn calls_on_an_image(rt: HostRuntime) -> Result<(), Fail> {
    let image = board(rt.alloc())?;
    is_told(&rt, rt.alloc(), image.as_slice());
    is_canonical(&rt, rt.alloc(), image.as_slice())
}

/// Asserts the report of an image's board, with room and without.
fn is_traced(rt: &impl Abort, alloc: Global, image: &[u8]) {
    let mut room = [7u8; 1024];
    let mut needed = 0;
    let script = SCRIPT.as_bytes();
    let status = mptab_trace(alloc, image, script, &mut [], &mut needed);
    holds(rt, "no room", status == 64 && needed == REPORT.len());
    let status = mptab_trace(alloc, image, script, &mut room, &mut needed);
    holds(rt, "trace", is(status, &room, needed, REPORT));
    holds(rt, "beside", room.get(needed) == Some(&7));
}

/// Asserts the verdict on that report, and a drill.
fn is_judged(rt: &impl Abort, alloc: Global, image: &[u8]) {
    let mut room = [0u8; 1024];
    let mut needed = 0;
    let (script, report) = (SCRIPT.as_bytes(), REPORT.as_bytes());
    let status = mptab_replay(alloc, image, script, report, &mut room, &mut needed);
    holds(rt, "replay", is(status, &room, needed, "replay legal\n"));
    let status = mptab_drill(alloc, 0, &mut room, &mut needed);
    holds(rt, "drill", is(status, &room, needed, DRILL));
}

#[test]
fn calls_on_a_board(rt: HostRuntime) -> Result<(), Fail> {
    let image = board(rt.alloc())?;
    is_traced(&rt, rt.alloc(), image.as_slice());
    is_judged(&rt, rt.alloc(), image.as_slice());
    Ok(())
}

/// Asserts that `mptab_raise` answers by the same image.
fn is_raised(rt: &impl Abort, alloc: Global, image: &[u8]) -> Result<(), Fail> {
    let mut again = Vec::from_elem(alloc, 1u8, MIB)?;
    let mut needed = 0;
    let status = mptab_raise(alloc, image, &mut again, &mut needed);
    holds(rt, "raise", status == 0 && image == again.as_slice());
    Ok(())
}

/// Asserts the MADT of an image, and that it differs nowhere.
fn has_its_madt(rt: &impl Abort, alloc: Global, image: &[u8]) {
    let mut room = [0u8; 64];
    let mut needed = 0;
    let status = mptab_madt(alloc, image, 0, &mut room, &mut needed);
    holds(rt, "madt", status == 0 && room.as_slice() == MADT);
    let status = mptab_madtcmp(alloc, image, 0, MADT, &mut room, &mut needed);
    holds(rt, "madtcmp", is(status, &room, needed, "differs 0\n"));
}

/// Asserts the routing table of an image, and that it differs nowhere.
fn has_its_routing_table(rt: &impl Abort, alloc: Global, image: &[u8]) {
    let mut room = [0u8; 64];
    let mut needed = 0;
    let status = mptab_pirmake(alloc, image, &mut room, &mut needed);
    let made = status == 0 && room.get(..needed) == Some(PIR);
    holds(rt, "pirmake", made);
    let status = mptab_pircmp(alloc, image, PIR, &mut room, &mut needed);
    holds(rt, "pircmp", is(status, &room, needed, "differs 0\n"));
}

/// Asserts what a pair of 8259A answers to an acknowledge cycle before its initialization.
fn is_acknowledged(rt: &impl Abort, alloc: Global, image: &[u8]) {
    let mut room = [0u8; 64];
    let mut needed = 0;
    let script = SCRIPT.as_bytes();
    let status = mptab_pic(alloc, image, script, b"ack\n", &mut room, &mut needed);
    holds(rt, "pic", is(status, &room, needed, "ack none\nend\n"));
}

#[test]
fn calls_on_other_tables(rt: HostRuntime) -> Result<(), Fail> {
    let image = board(rt.alloc())?;
    has_its_madt(&rt, rt.alloc(), image.as_slice());
    has_its_routing_table(&rt, rt.alloc(), image.as_slice());
    is_acknowledged(&rt, rt.alloc(), image.as_slice());
    is_raised(&rt, rt.alloc(), image.as_slice())
}
