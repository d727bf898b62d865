//! Boot programs: of each default configuration, of boards whose reports were worked out whole, and of a
//! usual board.

use crate::boots::{Entry, Row, Tables};

/// A processor, two I/O APICs, a PCI interrupt at INTIN 16 of the second, the same again, and an ISA interrupt at
/// INTIN 1 of the first; IMCRP is set.
const TWO_PINS: Tables = Tables::Text(
    b"mptable 1
pointer at 000F0000 table 000F0010 revision 04 features 0080000000
header revision 04 oem \"MPTAB   \" product \"BOARD       \" oemtable 00000000 oemsize 0000 local FEE00000 reserved 00
processor id 03 version 10 flags 03 signature 00000000 features 00000000 reserved 0000000000000000
bus id 00 name \"PCI   \"
bus id 01 name \"ISA   \"
ioapic id 04 version 11 flags 01 address FEC00000
ioapic id 08 version 11 flags 01 address FEC00000
ioint kind 00 flags 0000 bus 00 irq 00 dest 08 pin 10
ioint kind 00 flags 0000 bus 00 irq 00 dest 08 pin 10
ioint kind 00 flags 0000 bus 01 irq 01 dest 04 pin 01
end
",
);

/// The default configurations: two processors, and the I/O interrupts of the standard.
pub fn defaults() -> &'static [Row] {
    DEFAULTS
}

const DEFAULTS: &[Row] = &[
    Row {
        name: "1: ISA, older processors",
        tables: Tables::Text(
            b"mptable 1
pointer at 0009FC00 table 00000000 revision 04 features 0100000000
end
",
        ),
        script: b"page = 0x9F\n",
        status: 0,
        text: b"mpboot 1
entries 69
0 cpu 00 warm 9F : done
1 io 0 sweep : done
",
    },
    Row {
        name: "2: EISA, older processors, without IRQ 0 and IRQ 13",
        tables: Tables::Text(
            b"mptable 1
pointer at 0009FC00 table 00000000 revision 04 features 0200000000
end
",
        ),
        script: b"page = 0x9F\n",
        status: 0,
        text: b"mpboot 1
entries 61
0 cpu 00 warm 9F : done
1 io 0 sweep : done
",
    },
    Row {
        name: "3: EISA, older processors",
        tables: Tables::Text(
            b"mptable 1
pointer at 0009FC00 table 00000000 revision 04 features 0300000000
end
",
        ),
        script: b"page = 0x9F\n",
        status: 0,
        text: b"mpboot 1
entries 69
0 cpu 00 warm 9F : done
1 io 0 sweep : done
",
    },
    Row {
        name: "4: MCA, older processors",
        tables: Tables::Text(
            b"mptable 1
pointer at 0009FC00 table 00000000 revision 04 features 0400000000
end
",
        ),
        script: b"page = 0x9F\n",
        status: 0,
        text: b"mpboot 1
entries 69
0 cpu 00 warm 9F : done
1 io 0 sweep : done
",
    },
    Row {
        name: "5: ISA and PCI",
        tables: Tables::Text(
            b"mptable 1
pointer at 0009FC00 table 00000000 revision 04 features 0500000000
end
",
        ),
        script: b"page = 0x9F\n",
        status: 0,
        text: b"mpboot 1
entries 72
0 cpu 00 init 01 : 01=waiting
1 io 0 sweep : done
",
    },
    Row {
        name: "6: EISA and PCI",
        tables: Tables::Text(
            b"mptable 1
pointer at 0009FC00 table 00000000 revision 04 features 0600000000
end
",
        ),
        script: b"page = 0x9F\n",
        status: 0,
        text: b"mpboot 1
entries 72
0 cpu 00 init 01 : 01=waiting
1 io 0 sweep : done
",
    },
    Row {
        name: "7: MCA and PCI",
        tables: Tables::Text(
            b"mptable 1
pointer at 0009FC00 table 00000000 revision 04 features 0700000000
end
",
        ),
        script: b"page = 0x9F\n",
        status: 0,
        text: b"mpboot 1
entries 72
0 cpu 00 init 01 : 01=waiting
1 io 0 sweep : done
",
    },
    Row {
        name: "5 with IMCRP",
        tables: Tables::Text(
            b"mptable 1
pointer at 0009FC00 table 00000000 revision 04 features 0580000000
end
",
        ),
        script: b"page = 0x9F\n",
        status: 0,
        text: b"mpboot 1
entries 73
0 cpu 00 imcr : done
1 io 0 sweep : done
2 cpu 00 init 01 : 01=waiting
",
    },
    Row {
        name: "6, the second processor alone present",
        tables: Tables::Text(
            b"mptable 1
pointer at 0009FC00 table 00000000 revision 04 features 0600000000
end
",
        ),
        script: b"page = 0x9F
present = [1]
",
        status: 11,
        text: b"mptab: board boot absent 00\n",
    },
    Row {
        name: "6, the place 1",
        tables: Tables::Text(
            b"mptable 1
pointer at 0009FC00 table 00000000 revision 04 features 0600000000
end
",
        ),
        script: b"page = 0x9F
device = [{ words = [\"high 1 0\"] }]
",
        status: 11,
        text: b"mptab: board no ioapic 1\n",
    },
];

/// Who is started and how, and what is written into the I/O APICs.
pub fn written() -> &'static [Row] {
    WRITTEN
}

const WRITTEN: &[Row] = &[
    Row {
        name: "version 0Fh: no STARTUP",
        tables: Tables::Listed(
            &[Entry::Boot(0)],
            b"processor id 01 version 0F flags 01 signature 00000000 features 00000000 reserved 0000000000000000\n",
        ),
        script: b"page = 0x9F\n",
        status: 0,
        text: b"mpboot 1
entries 4
0 cpu 00 warm 9F : done
1 cpu 00 init 01 : 01=started.9F
2 cpu 00 pause 10000 : done
3 cpu 00 check 01 : 01=runs.9F
state imcr none
state cpu 00 first tpr 00 irr - isr - tmr -
state cpu 01 started.9F tpr 00 irr - isr - tmr -
end
",
    },
    Row {
        name: "the boot processor last, a disabled one before it",
        tables: Tables::Listed(&[Entry::Cpu(5), Entry::CpuOff(6), Entry::Boot(1)], b""),
        script: b"page = 0x9F\n",
        status: 0,
        text: b"mpboot 1
entries 7
0 cpu 01 init 05 : 05=waiting
1 cpu 01 pause 10000 : done
2 cpu 01 startup 05 9F : 05=started.9F
3 cpu 01 pause 200 : done
4 cpu 01 startup 05 9F : 05=ignored
5 cpu 01 pause 200 : done
6 cpu 01 check 05 : 05=runs.9F
state imcr none
state cpu 01 first tpr 00 irr - isr - tmr -
state cpu 05 started.9F tpr 00 irr - isr - tmr -
end
",
    },
    Row {
        name: "two with the boot bit: the first is the boot processor",
        tables: Tables::Listed(&[Entry::Boot(2), Entry::Boot(1)], b""),
        script: b"page = 0x9F\n",
        status: 0,
        text: b"mpboot 1
entries 7
0 cpu 02 init 01 : 01=waiting
1 cpu 02 pause 10000 : done
2 cpu 02 startup 01 9F : 01=started.9F
3 cpu 02 pause 200 : done
4 cpu 02 startup 01 9F : 01=ignored
5 cpu 02 pause 200 : done
6 cpu 02 check 01 : 01=runs.9F
state imcr none
state cpu 01 started.9F tpr 00 irr - isr - tmr -
state cpu 02 first tpr 00 irr - isr - tmr -
end
",
    },
    Row {
        name: "IMCRP; pins of two I/O APICs, one named twice, in the order of their entries, high word first",
        tables: TWO_PINS,
        script: b"page = 0x9F\n",
        status: 0,
        text: b"mpboot 1
entries 11
0 cpu 03 imcr : done
1 io 0 sweep : done
2 io 1 sweep : done
3 cpu 03 iosel 1 31 : done
4 cpu 03 iowin 1 03000000 : plain
5 cpu 03 iosel 1 30 : done
6 cpu 03 iowin 1 0000A048 : plain
7 cpu 03 iosel 0 13 : done
8 cpu 03 iowin 0 03000000 : plain
9 cpu 03 iosel 0 12 : done
10 cpu 03 iowin 0 00000021 : plain
state imcr apic
state cpu 03 first tpr 00 irr - isr - tmr -
state io 0 line 000000 due 000000 remote 000000
state io 1 line 000000 due 000000 remote 000000
end
",
    },
    Row {
        name: "an EISA interrupt that the script's ELCR makes level",
        tables: Tables::Listed(
            &[Entry::Boot(0), Entry::Io(1)],
            b"bus id 00 name \"EISA  \"
ioint kind 00 flags 0000 bus 00 irq 01 dest 01 pin 01
",
        ),
        script: b"page = 0x9F
elcr = 2
",
        status: 0,
        text: b"mpboot 1
entries 5
0 cpu 00 iosel 0 13 : done
1 io 0 sweep : done
2 cpu 00 iowin 0 00000000 : plain
3 cpu 00 iosel 0 12 : done
4 cpu 00 iowin 0 0000A021 : plain
state imcr none
state cpu 00 first tpr 00 irr - isr - tmr -
state io 0 line 000000 due 000000 remote 000000
end
",
    },
];

/// A usual board.
pub fn of_usual() -> &'static [Row] {
    OF_USUAL
}

const OF_USUAL: &[Row] = &[
    Row {
        name: "both processors present",
        tables: Tables::Usual,
        script: b"page = 0x9F\n",
        status: 0,
        text: b"mpboot 1
entries 76
0 cpu 00 init 01 : 01=waiting
1 io 0 sweep : done
2 cpu 00 pause 10000 : done
",
    },
    Row {
        name: "the boot processor absent",
        tables: Tables::Usual,
        script: b"page = 0x9F
present = [1]
",
        status: 11,
        text: b"mptab: board boot absent 00\n",
    },
];
