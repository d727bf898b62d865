//! Boards that tables and a script don't describe, each cause alone, beside the nearest that they do; how many
//! processors and I/O APICs a board has, at each limit on both sides.

use crate::boots::{Entry, Row, Tables};

/// Ids of processors.
pub fn processor_ids() -> &'static [Row] {
    PROCESSOR_IDS
}

const PROCESSOR_IDS: &[Row] = &[
    Row {
        name: "no processor",
        tables: Tables::Listed(&[Entry::Io(0)], b""),
        script: b"page = 0x9F\n",
        status: 11,
        text: b"mptab: board no boot processor\n",
    },
    Row {
        name: "a boot bit without the enabled bit",
        tables: Tables::Listed(
            &[Entry::Cpu(1)],
            b"processor id 00 version 10 flags 02 signature 00000000 features 00000000 reserved 0000000000000000\n",
        ),
        script: b"page = 0x9F\n",
        status: 11,
        text: b"mptab: board no boot processor\n",
    },
    Row {
        name: "enabled without a boot bit",
        tables: Tables::Listed(&[Entry::Cpu(0), Entry::Cpu(1)], b""),
        script: b"page = 0x9F\n",
        status: 11,
        text: b"mptab: board no boot processor\n",
    },
    Row {
        name: "two ids doubled, the greater first",
        tables: Tables::Listed(
            &[
                Entry::Boot(0),
                Entry::Cpu(3),
                Entry::Cpu(5),
                Entry::Cpu(5),
                Entry::Cpu(3),
            ],
            b"",
        ),
        script: b"page = 0x9F\n",
        status: 11,
        text: b"mptab: board double id 03\n",
    },
    Row {
        name: "an id doubled beside the boot processor",
        tables: Tables::Listed(&[Entry::Boot(0), Entry::Cpu(1), Entry::Cpu(1)], b""),
        script: b"page = 0x9F\n",
        status: 11,
        text: b"mptab: board double id 01\n",
    },
    Row {
        name: "the id of the boot processor doubled",
        tables: Tables::Listed(&[Entry::Boot(4), Entry::Cpu(4)], b""),
        script: b"page = 0x9F\n",
        status: 11,
        text: b"mptab: board double id 04\n",
    },
    Row {
        name: "a disabled processor with the id of an enabled one",
        tables: Tables::Listed(&[Entry::Boot(0), Entry::Cpu(1), Entry::CpuOff(1)], b""),
        script: b"page = 0x9F\n",
        status: 0,
        text: b"mpboot 1
entries 7
0 cpu 00 init 01 : 01=waiting
",
    },
];

/// Ids of I/O APICs, alone and beside those of processors.
pub fn io_apic_ids() -> &'static [Row] {
    IO_APIC_IDS
}

const IO_APIC_IDS: &[Row] = &[
    Row {
        name: "two ids of I/O APICs doubled, the greater first",
        tables: Tables::Listed(
            &[
                Entry::Boot(0),
                Entry::Io(7),
                Entry::Io(2),
                Entry::Io(7),
                Entry::Io(2),
            ],
            b"",
        ),
        script: b"page = 0x9F\n",
        status: 11,
        text: b"mptab: board double id 02\n",
    },
    Row {
        name: "a disabled I/O APIC with the id of an enabled one",
        tables: Tables::Listed(&[Entry::Boot(0), Entry::Io(2), Entry::IoOff(2)], b""),
        script: b"page = 0x9F\n",
        status: 0,
        text: b"mpboot 1
entries 1
0 io 0 sweep : done
",
    },
    Row {
        name: "a processor and an I/O APIC with one id",
        tables: Tables::Listed(&[Entry::Boot(2), Entry::Io(2)], b""),
        script: b"page = 0x9F\n",
        status: 0,
        text: b"mpboot 1
entries 1
0 io 0 sweep : done
",
    },
    Row {
        name: "doubled ids of processors before those of I/O APICs",
        tables: Tables::Listed(
            &[
                Entry::Boot(0),
                Entry::Cpu(9),
                Entry::Cpu(9),
                Entry::Io(2),
                Entry::Io(2),
            ],
            b"",
        ),
        script: b"page = 0x9F\n",
        status: 11,
        text: b"mptab: board double id 09\n",
    },
];

/// Ids that are too wide.
pub fn wide_ids() -> &'static [Row] {
    WIDE_IDS
}

const WIDE_IDS: &[Row] = &[
    Row {
        name: "id 255",
        tables: Tables::Listed(&[Entry::Boot(0), Entry::Cpu(0xFF)], b""),
        script: b"page = 0x9F\n",
        status: 11,
        text: b"mptab: board wide id FF\n",
    },
    Row {
        name: "a disabled processor with id 255",
        tables: Tables::Listed(&[Entry::Boot(0), Entry::CpuOff(0xFF)], b""),
        script: b"page = 0x9F\n",
        status: 0,
        text: b"mpboot 1
entries 0
state imcr none
",
    },
    Row {
        name: "id 254",
        tables: Tables::Listed(&[Entry::Boot(0), Entry::Cpu(0xFE)], b""),
        script: b"page = 0x9F\n",
        status: 0,
        text: b"mpboot 1
entries 7
0 cpu 00 init FE : FE=waiting
",
    },
    Row {
        name: "two of id 255",
        tables: Tables::Listed(&[Entry::Boot(0), Entry::Cpu(0xFF), Entry::Cpu(0xFF)], b""),
        script: b"page = 0x9F\n",
        status: 11,
        text: b"mptab: board double id FF\n",
    },
    Row {
        name: "boot id 255",
        tables: Tables::Listed(&[Entry::Boot(0xFF)], b""),
        script: b"page = 0x9F\n",
        status: 11,
        text: b"mptab: board wide id FF\n",
    },
    Row {
        name: "boot id 14",
        tables: Tables::Listed(&[Entry::Boot(14), Entry::Cpu(0)], b""),
        script: b"page = 0x9F\n",
        status: 0,
        text: b"mpboot 1
entries 7
0 cpu 0E init 00 : 00=waiting
",
    },
    Row {
        name: "boot id 15",
        tables: Tables::Listed(&[Entry::Boot(15), Entry::Cpu(0)], b""),
        script: b"page = 0x9F\n",
        status: 11,
        text: b"mptab: board boot wide 0F\n",
    },
    Row {
        name: "boot id 254",
        tables: Tables::Listed(&[Entry::Boot(0xFE), Entry::Cpu(0)], b""),
        script: b"page = 0x9F\n",
        status: 11,
        text: b"mptab: board boot wide FE\n",
    },
];

/// Who is present.
pub fn present() -> &'static [Row] {
    PRESENT
}

const PRESENT: &[Row] = &[
    Row {
        name: "the boot processor is absent",
        tables: Tables::Listed(&[Entry::Boot(0), Entry::Cpu(1)], b""),
        script: b"page = 0x9F
present = [1]
",
        status: 11,
        text: b"mptab: board boot absent 00\n",
    },
    Row {
        name: "nobody is present",
        tables: Tables::Listed(&[Entry::Boot(0), Entry::Cpu(1)], b""),
        script: b"page = 0x9F
present = []
",
        status: 11,
        text: b"mptab: board boot absent 00\n",
    },
    Row {
        name: "strangers alone are present",
        tables: Tables::Listed(&[Entry::Boot(0), Entry::Cpu(1)], b""),
        script: b"page = 0x9F
present = [7, 254]
",
        status: 11,
        text: b"mptab: board boot absent 00\n",
    },
    Row {
        name: "strangers too are present, one named twice",
        tables: Tables::Listed(&[Entry::Boot(0), Entry::Cpu(1)], b""),
        script: b"page = 0x9F
present = [9, 1, 0, 0, 9]
",
        status: 0,
        text: b"mpboot 1
entries 7
0 cpu 00 init 01 : 01=waiting
",
    },
    Row {
        name: "a disabled processor is named",
        tables: Tables::Listed(&[Entry::Boot(0), Entry::CpuOff(1)], b""),
        script: b"page = 0x9F
present = [0, 1]
",
        status: 0,
        text: b"mpboot 1
entries 0
state imcr none
state cpu 00 first tpr 00 irr - isr - tmr -
end
",
    },
];

/// Places of I/O APICs that words name.
pub fn places() -> &'static [Row] {
    PLACES
}

const PLACES: &[Row] = &[
    Row {
        name: "a word of a place that is not there",
        tables: Tables::Listed(&[Entry::Boot(0), Entry::Io(0)], b""),
        script: b"page = 0x9F
cpu = [{ id = 0, words = [\"iosel 2 1\", \"ioread 1\"] }]
",
        status: 11,
        text: b"mptab: board no ioapic 1\n",
    },
    Row {
        name: "the same with two I/O APICs",
        tables: Tables::Listed(&[Entry::Boot(0), Entry::Ios(0, 1)], b""),
        script: b"page = 0x9F
cpu = [{ id = 0, words = [\"iosel 2 1\", \"ioread 1\"] }]
",
        status: 11,
        text: b"mptab: board no ioapic 2\n",
    },
    Row {
        name: "the same with three",
        tables: Tables::Listed(&[Entry::Boot(0), Entry::Ios(0, 2)], b""),
        script: b"page = 0x9F
cpu = [{ id = 0, words = [\"iosel 2 1\", \"ioread 1\"] }]
",
        status: 0,
        text: b"mpboot 1
entries 5
0 cpu 00 iosel 2 01 : done
",
    },
    Row {
        name: "a write",
        tables: Tables::Listed(&[Entry::Boot(0)], b""),
        script: b"page = 0x9F
cpu = [{ id = 0, words = [\"iowin 0 0\"] }]
",
        status: 11,
        text: b"mptab: board no ioapic 0\n",
    },
    Row {
        name: "a word of a stranger",
        tables: Tables::Listed(&[Entry::Boot(0)], b""),
        script: b"page = 0x9F
cpu = [{ id = 5, words = [\"iowin 0 0\"] }]
",
        status: 0,
        text: b"mpboot 1
entries 0
state imcr none
",
    },
    Row {
        name: "a word of an absent processor",
        tables: Tables::Listed(&[Entry::Boot(0), Entry::Cpu(1)], b""),
        script: b"page = 0x9F
present = [0]
cpu = [{ id = 1, words = [\"iowin 0 0\"] }]
",
        status: 0,
        text: b"mpboot 1
entries 7
0 cpu 00 init 01 : 01=absent
",
    },
    Row {
        name: "lines of a device",
        tables: Tables::Listed(&[Entry::Boot(0), Entry::Io(0)], b""),
        script: b"page = 0x9F
device = [{ words = [\"pulse 0 23\"] }, { words = [\"high 3 0\", \"low 2 1\"] }]
",
        status: 11,
        text: b"mptab: board no ioapic 2\n",
    },
    Row {
        name: "a pulse alone",
        tables: Tables::Listed(&[Entry::Boot(0)], b""),
        script: b"page = 0x9F
device = [{ words = [\"pulse 0 0\"] }]
",
        status: 11,
        text: b"mptab: board no ioapic 0\n",
    },
    Row {
        name: "a device names a lesser place than a processor",
        tables: Tables::Listed(&[Entry::Boot(0), Entry::Io(0)], b""),
        script: b"page = 0x9F
cpu = [{ id = 0, words = [\"ioread 3\"] }]
device = [{ words = [\"low 1 0\"] }]
",
        status: 11,
        text: b"mptab: board no ioapic 1\n",
    },
    Row {
        name: "other words name no place",
        tables: Tables::Listed(&[Entry::Boot(0)], b""),
        script: b"page = 0x9F
cpu = [{ id = 0, words = [\"ipi 255 255\", \"nmi 3\", \"poll\", \"eoi\", \"tpr 255\", \"pause 1000000\"] }]
",
        status: 0,
        text: b"mpboot 1
entries 6
0 cpu 00 ipi FF FF : 00=set
1 cpu 00 nmi 03 : 03=absent
2 cpu 00 poll : taken.FF
3 cpu 00 eoi : ended.FF.edge
4 cpu 00 tpr FF : done
5 cpu 00 pause 1000000 : done
",
    },
];

/// Numbers of processors and of I/O APICs.
pub fn limits() -> &'static [Row] {
    LIMITS
}

const LIMITS: &[Row] = &[
    Row {
        name: "8 processors",
        tables: Tables::Listed(&[Entry::Boot(0), Entry::Cpus(1, 7)], b""),
        script: b"page = 0x9F\n",
        status: 0,
        text: b"mpboot 1
entries 49
0 cpu 00 init 01 : 01=waiting
",
    },
    Row {
        name: "9 processors",
        tables: Tables::Listed(&[Entry::Boot(0), Entry::Cpus(1, 8)], b""),
        script: b"page = 0x9F\n",
        status: 11,
        text: b"mptab: board many processors 9\n",
    },
    Row {
        name: "9 processors of which 8 are present",
        tables: Tables::Listed(&[Entry::Boot(0), Entry::Cpus(1, 8)], b""),
        script: b"page = 0x9F
present = [8, 7, 6, 5, 4, 3, 2, 0]
",
        status: 0,
        text: b"mpboot 1
entries 56
0 cpu 00 init 01 : 01=absent
",
    },
    Row {
        name: "255 processors",
        tables: Tables::Listed(&[Entry::Boot(0), Entry::Cpus(1, 0xFE)], b""),
        script: b"page = 0x9F\n",
        status: 11,
        text: b"mptab: board many processors 255\n",
    },
    Row {
        name: "255 processors, the boot processor alone present",
        tables: Tables::Listed(&[Entry::Boot(0), Entry::Cpus(1, 0xFE)], b""),
        script: b"page = 0x9F
present = [0]
",
        status: 0,
        text: b"mpboot 1
entries 1778
0 cpu 00 init 01 : 01=absent
",
    },
    Row {
        name: "4 I/O APICs",
        tables: Tables::Listed(&[Entry::Boot(0), Entry::Ios(0, 3)], b""),
        script: b"page = 0x9F\n",
        status: 0,
        text: b"mpboot 1
entries 4
0 io 0 sweep : done
1 io 1 sweep : done
2 io 2 sweep : done
3 io 3 sweep : done
state imcr none
",
    },
    Row {
        name: "5 I/O APICs",
        tables: Tables::Listed(&[Entry::Boot(0), Entry::Ios(0, 4)], b""),
        script: b"page = 0x9F\n",
        status: 11,
        text: b"mptab: board many ioapics 5\n",
    },
    Row {
        name: "5 I/O APICs of which one is disabled",
        tables: Tables::Listed(
            &[
                Entry::Boot(0),
                Entry::Ios(0, 1),
                Entry::IoOff(2),
                Entry::Ios(3, 4),
            ],
            b"",
        ),
        script: b"page = 0x9F\n",
        status: 0,
        text: b"mpboot 1
entries 4
0 io 0 sweep : done
",
    },
    Row {
        name: "256 I/O APICs",
        tables: Tables::Listed(&[Entry::Boot(0), Entry::Ios(0, 0xFF)], b""),
        script: b"page = 0x9F\n",
        status: 11,
        text: b"mptab: board many ioapics 256\n",
    },
];
