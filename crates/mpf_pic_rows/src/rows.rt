//! The rows.

use crate::boards::Entries;
use crate::harness::{Row, WayRow, Wired, has_text, has_way, is_refused};
use mpf_pic::{Pair, Path, PicOp, Port, parse_pic};
use mpt_spec::IntEntry;

/// A local interrupt of type ExtINT at LINTIN 0 of processor 0.
const LINT: IntEntry = IntEntry {
    kind: 3,
    flags: 0,
    bus: 1,
    irq: 0,
    dest: 0,
    pin: 0,
};

/// An entry that sends ExtINT to processor 0.
const EXTINT: u32 = 0x0700;

/// The same of a masked entry.
const MASKED: u32 = 0x1_0700;

/// Three entries that send ExtINT to processor 0.
const ALL: Entries = Entries {
    low: EXTINT,
    high: 0,
    ninth: EXTINT,
    second: EXTINT,
};

/// One that does, of the second I/O APIC.
const SECOND: Entries = Entries {
    low: MASKED,
    high: 0,
    ninth: MASKED,
    second: EXTINT,
};

/// None that does.
const NONE: Entries = Entries {
    low: MASKED,
    high: 0,
    ninth: MASKED,
    second: MASKED,
};

const BOTH: Wired = Wired::By(LINT, ALL);

const LINT_ALONE: Wired = Wired::By(LINT, NONE);

const PIN: Wired = Wired::By(IntEntry { kind: 1, ..LINT }, ALL);

/// Both controllers are initialised, lines 1 and 12 rise and are acknowledged as the priorities let them.
const CALLS: &[u8] = b"out 20 11
out 21 20
out 21 04
out 21 01
out A0 11
out A1 28
out A1 02
out A1 01
irq 1 up
irq 12 up
ack
ack
out 20 20
ack
out 20 0B
in 20
";

/// The same behind a write of 00h to the interrupt mode register.
const CALLS_IN_PIC_MODE: &[u8] = b"out 22 70
out 23 00
out 20 11
out 21 20
out 21 04
out 21 01
out A0 11
out A1 28
out A1 02
out A1 01
irq 1 up
irq 12 up
ack
ack
out 20 20
ack
out 20 0B
in 20
";

const ROWS: &[Row] = &[
    Row {
        name: "LINTIN 0 before a pin",
        imcr: false,
        wired: BOTH,
        calls: CALLS,
        text: b"ack 21 lint\nack none\nack 2C lint\nin 20 = 04\nend\n",
    },
    Row {
        name: "a pin",
        imcr: false,
        wired: PIN,
        calls: CALLS,
        text: b"ack 21 io 0 4\nack none\nack 2C io 0 4\nin 20 = 04\nend\n",
    },
    Row {
        name: "no way",
        imcr: false,
        wired: Wired::Nothing,
        calls: CALLS,
        text: b"ack none\nack none\nack none\nin 20 = 00\nend\n",
    },
    Row {
        name: "PIC mode",
        imcr: true,
        wired: BOTH,
        calls: CALLS_IN_PIC_MODE,
        text: b"ack 21 direct\nack none\nack 2C direct\nin 20 = 04\nend\n",
    },
    Row {
        name: "no interrupt mode register",
        imcr: false,
        wired: BOTH,
        calls: CALLS_IN_PIC_MODE,
        text: b"ack 21 lint\nack none\nack 2C lint\nin 20 = 04\nend\n",
    },
    Row {
        name: "the register is written where it is selected",
        imcr: true,
        wired: PIN,
        calls: b"out 20 10
out 21 40
out 21 04
irq 3 up
irq 4 up
irq 5 up
irq 6 up
out 23 01
ack
out 20 63
out 22 70
out 22 71
out 23 01
ack
out 20 20
out 22 70
out 23 02
ack
out 20 20
out 23 01
out 23 02
ack
",
        text: b"ack 43 direct\nack 44 direct\nack 45 direct\nack 46 io 0 4\nend\n",
    },
];

#[test]
fn calls_are_answered(rt: HostRuntime) {
    for row in ROWS {
        has_text(&rt, rt.alloc(), row);
    }
}

const WAYS: &[WayRow] = &[
    WayRow {
        name: "the register before all",
        imcr: true,
        wired: BOTH,
        way: Path::Direct,
    },
    WayRow {
        name: "the register before LINTIN 0 alone",
        imcr: true,
        wired: LINT_ALONE,
        way: Path::Direct,
    },
    WayRow {
        name: "the register before a pin alone",
        imcr: true,
        wired: PIN,
        way: Path::Direct,
    },
    WayRow {
        name: "the register alone",
        imcr: true,
        wired: Wired::Nothing,
        way: Path::Direct,
    },
    WayRow {
        name: "LINTIN 0 alone",
        imcr: false,
        wired: LINT_ALONE,
        way: Path::Lint,
    },
    WayRow {
        name: "nothing",
        imcr: false,
        wired: Wired::Nothing,
        way: Path::Closed,
    },
    WayRow {
        name: "LINTIN 0 before pins",
        imcr: false,
        wired: BOTH,
        way: Path::Lint,
    },
    WayRow {
        name: "LINTIN 0 of every processor",
        imcr: false,
        wired: Wired::By(IntEntry { dest: 255, ..LINT }, SECOND),
        way: Path::Lint,
    },
    WayRow {
        name: "LINTIN 0 of another processor",
        imcr: false,
        wired: Wired::By(IntEntry { dest: 1, ..LINT }, SECOND),
        way: Path::Io { io: 1, pin: 0 },
    },
    WayRow {
        name: "LINTIN 1",
        imcr: false,
        wired: Wired::By(IntEntry { pin: 1, ..LINT }, SECOND),
        way: Path::Io { io: 1, pin: 0 },
    },
    WayRow {
        name: "an NMI",
        imcr: false,
        wired: Wired::By(IntEntry { kind: 1, ..LINT }, SECOND),
        way: Path::Io { io: 1, pin: 0 },
    },
    WayRow {
        name: "an SMI",
        imcr: false,
        wired: Wired::By(IntEntry { kind: 2, ..LINT }, SECOND),
        way: Path::Io { io: 1, pin: 0 },
    },
    WayRow {
        name: "the least pin of the least place",
        imcr: false,
        wired: PIN,
        way: Path::Io { io: 0, pin: 4 },
    },
    WayRow {
        name: "to the boot processor by bits 59:56 alone",
        imcr: false,
        wired: Wired::By(
            IntEntry { kind: 1, ..LINT },
            Entries {
                high: 0xF000_0000,
                ..ALL
            },
        ),
        way: Path::Io { io: 0, pin: 4 },
    },
    WayRow {
        name: "to every processor",
        imcr: false,
        wired: Wired::By(
            IntEntry { kind: 1, ..LINT },
            Entries {
                high: 0x0F00_0000,
                ..ALL
            },
        ),
        way: Path::Io { io: 0, pin: 4 },
    },
    WayRow {
        name: "to another processor",
        imcr: false,
        wired: Wired::By(
            IntEntry { kind: 1, ..LINT },
            Entries {
                high: 0x0100_0000,
                ..ALL
            },
        ),
        way: Path::Io { io: 0, pin: 9 },
    },
    WayRow {
        name: "masked",
        imcr: false,
        wired: Wired::By(IntEntry { kind: 1, ..LINT }, Entries { low: MASKED, ..ALL }),
        way: Path::Io { io: 0, pin: 9 },
    },
    WayRow {
        name: "a logical destination",
        imcr: false,
        wired: Wired::By(IntEntry { kind: 1, ..LINT }, Entries { low: 0x0F00, ..ALL }),
        way: Path::Io { io: 0, pin: 9 },
    },
    WayRow {
        name: "an NMI of a pin",
        imcr: false,
        wired: Wired::By(IntEntry { kind: 1, ..LINT }, Entries { low: 0x0400, ..ALL }),
        way: Path::Io { io: 0, pin: 9 },
    },
    WayRow {
        name: "a level one with a vector",
        imcr: false,
        wired: Wired::By(IntEntry { kind: 1, ..LINT }, Entries { low: 0xA7FF, ..ALL }),
        way: Path::Io { io: 0, pin: 4 },
    },
    WayRow {
        name: "of the second place alone",
        imcr: false,
        wired: Wired::By(
            IntEntry { kind: 1, ..LINT },
            Entries {
                low: MASKED,
                ninth: MASKED,
                ..ALL
            },
        ),
        way: Path::Io { io: 1, pin: 0 },
    },
    WayRow {
        name: "all are masked",
        imcr: false,
        wired: Wired::By(IntEntry { kind: 1, ..LINT }, NONE),
        way: Path::Closed,
    },
];

#[test]
fn intr_has_its_way(rt: HostRuntime) {
    for row in WAYS {
        has_way(&rt, rt.alloc(), row);
    }
}

const REFUSED: &[(&str, u32)] = &[
    ("irq 2 up\nout 20 11\n", 1),
    ("out 20 11\nirq 16 up\n", 2),
    ("ack\nack", 2),
    ("ack\n\n", 2),
    ("in 22\n", 1),
    ("out 24 00\n", 1),
    ("out a0 11\n", 1),
    ("out 20  1\n", 1),
    ("irq 01 up\n", 1),
    ("irq 1 UP\n", 1),
    ("ack \n", 1),
    ("ack\r\n", 1),
    ("in 20\nin A1\nirq 15 down\nirq 0 up\nout 23 FF\nend\n", 6),
];

#[test]
fn a_faulty_line_is_named(rt: HostRuntime) {
    for (calls, line) in REFUSED {
        is_refused(&rt, rt.alloc(), calls, *line);
    }
}

#[test]
fn each_form_is_read(rt: HostRuntime) {
    let text =
        b"out 20 1F\nout A1 00\nin A0\nin 21\nout 22 70\nout 23 FF\nirq 0 up\nirq 15 down\nack\n";
    let want = [
        PicOp::Put(Port::Master, 0x1F),
        PicOp::Put(Port::SlaveData, 0),
        PicOp::Get(Port::Slave),
        PicOp::Get(Port::MasterData),
        PicOp::Imcr(0x22, 0x70),
        PicOp::Imcr(0x23, 0xFF),
        PicOp::Up(0),
        PicOp::Down(15),
        PicOp::Ack,
    ];
    let read = match parse_pic(rt.alloc(), text) {
        Ok(ops) => ops.as_slice() == want.as_slice(),
        Err(_) => false,
    };
    assert!(rt; read);
}

#[test]
fn intr_holds_where_a_line_is_eligible(rt: HostRuntime) {
    let mut pair = Pair::new();
    pair.line(7, true);
    let unready = pair.intr();
    pair.put(Port::Master, 0x10);
    pair.put(Port::MasterData, 0x0F);
    pair.put(Port::MasterData, 0);
    let cleared = pair.intr();
    pair.line(7, false);
    pair.line(7, true);
    let ready = pair.intr();
    let read = pair.get(Port::Master);
    let vector = pair.ack();
    let got = (unready, cleared, ready, read, vector, pair.ack());
    let want = (false, false, true, 0x80, Some(0x0F), None);
    assert_eq!(rt; got, want);
}
