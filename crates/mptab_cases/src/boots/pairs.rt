//! Two causes that stand together: the one that is told.

use crate::boots::{Entry, Row, Tables};

/// Tables for which two causes stand, one of an id.
pub fn pairs_of_ids() -> &'static [Row] {
    PAIRS_OF_IDS
}

const PAIRS_OF_IDS: &[Row] = &[
    Row {
        name: "no boot processor, and a doubled id",
        tables: Tables::Listed(&[Entry::Cpu(3), Entry::Cpu(3)], b""),
        script: b"page = 0x9F\n",
        status: 11,
        text: b"mptab: board no boot processor\n",
    },
    Row {
        name: "no boot processor, and a place that is not there",
        tables: Tables::Listed(&[Entry::Cpu(0)], b""),
        script: b"page = 0x9F
cpu = [{ id = 0, words = [\"iosel 2 1\", \"ioread 1\"] }]
",
        status: 11,
        text: b"mptab: board no boot processor\n",
    },
    Row {
        name: "a doubled id, and id 255",
        tables: Tables::Listed(
            &[
                Entry::Boot(0),
                Entry::Cpu(0xFF),
                Entry::Cpu(3),
                Entry::Cpu(3),
            ],
            b"",
        ),
        script: b"page = 0x9F\n",
        status: 11,
        text: b"mptab: board double id 03\n",
    },
    Row {
        name: "a doubled id of I/O APICs, and id 255",
        tables: Tables::Listed(
            &[Entry::Boot(0), Entry::Cpu(0xFF), Entry::Io(6), Entry::Io(6)],
            b"",
        ),
        script: b"page = 0x9F\n",
        status: 11,
        text: b"mptab: board double id 06\n",
    },
    Row {
        name: "id 255, and a wide boot id",
        tables: Tables::Listed(&[Entry::Boot(0x14), Entry::Cpu(0xFF)], b""),
        script: b"page = 0x9F\n",
        status: 11,
        text: b"mptab: board wide id FF\n",
    },
    Row {
        name: "a doubled id, and a wide boot id",
        tables: Tables::Listed(&[Entry::Boot(0x14), Entry::Cpu(3), Entry::Cpu(3)], b""),
        script: b"page = 0x9F\n",
        status: 11,
        text: b"mptab: board double id 03\n",
    },
    Row {
        name: "a wide boot id, and the boot processor absent",
        tables: Tables::Listed(&[Entry::Boot(0x14), Entry::Cpu(1)], b""),
        script: b"page = 0x9F
present = [1]
",
        status: 11,
        text: b"mptab: board boot wide 14\n",
    },
];

/// Tables and scripts for which two causes stand, the first of presence, of id 255 or of how many there are.
pub fn pairs_of_presence() -> &'static [Row] {
    PAIRS_OF_PRESENCE
}

const PAIRS_OF_PRESENCE: &[Row] = &[
    Row {
        name: "the boot processor absent, and 9 processors",
        tables: Tables::Listed(&[Entry::Boot(0), Entry::Cpus(1, 9)], b""),
        script: b"page = 0x9F
present = [1, 2, 3, 4, 5, 6, 7, 8, 9]
",
        status: 11,
        text: b"mptab: board boot absent 00\n",
    },
    Row {
        name: "id 255, and the boot processor absent",
        tables: Tables::Listed(&[Entry::Boot(0), Entry::Cpu(0xFF)], b""),
        script: b"page = 0x9F
present = [1]
",
        status: 11,
        text: b"mptab: board wide id FF\n",
    },
    Row {
        name: "9 processors, and 5 I/O APICs",
        tables: Tables::Listed(&[Entry::Boot(0), Entry::Cpus(1, 8), Entry::Ios(0, 4)], b""),
        script: b"page = 0x9F\n",
        status: 11,
        text: b"mptab: board many processors 9\n",
    },
    Row {
        name: "9 processors, and a place that is not there",
        tables: Tables::Listed(&[Entry::Boot(0), Entry::Cpus(1, 8)], b""),
        script: b"page = 0x9F
cpu = [{ id = 0, words = [\"iosel 2 1\", \"ioread 1\"] }]
",
        status: 11,
        text: b"mptab: board many processors 9\n",
    },
    Row {
        name: "the boot processor absent, and a place that is not there",
        tables: Tables::Listed(&[Entry::Boot(0), Entry::Cpu(1)], b""),
        script: b"page = 0x9F
present = [1]
cpu = [{ id = 1, words = [\"ioread 0\"] }]
",
        status: 11,
        text: b"mptab: board boot absent 00\n",
    },
    Row {
        name: "5 I/O APICs of which two have one id",
        tables: Tables::Listed(&[Entry::Boot(0), Entry::Ios(0, 3), Entry::Io(1)], b""),
        script: b"page = 0x9F\n",
        status: 11,
        text: b"mptab: board double id 01\n",
    },
];
