//! Scripts that are refused, each key and each word's cause, and scripts at their limits.

use crate::boots::{Entry, ONE, Row, Tables};

/// Scripts whose keys at the top are refused.
pub fn refused_keys() -> &'static [Row] {
    REFUSED_KEYS
}

const REFUSED_KEYS: &[Row] = &[
    Row {
        name: "no TOML",
        tables: ONE,
        script: b"page =",
        status: 8,
        text: b"mptab: script not toml\n",
    },
    Row {
        name: "no key at all",
        tables: ONE,
        script: b"",
        status: 8,
        text: b"mptab: script key page\n",
    },
    Row {
        name: "a page of the range that is none",
        tables: ONE,
        script: b"page = 0xA0",
        status: 8,
        text: b"mptab: script key page\n",
    },
    Row {
        name: "the last page of that range",
        tables: ONE,
        script: b"page = 0xBF",
        status: 8,
        text: b"mptab: script key page\n",
    },
    Row {
        name: "page 256",
        tables: ONE,
        script: b"page = 256",
        status: 8,
        text: b"mptab: script key page\n",
    },
    Row {
        name: "a page below 0",
        tables: ONE,
        script: b"page = -1",
        status: 8,
        text: b"mptab: script key page\n",
    },
    Row {
        name: "an ELCR of 17 bits",
        tables: ONE,
        script: b"page = 1\nelcr = 65536",
        status: 8,
        text: b"mptab: script key elcr\n",
    },
];

/// Scripts whose processors and devices are refused, and whose keys are none.
pub fn refused_agents() -> &'static [Row] {
    REFUSED_AGENTS
}

const REFUSED_AGENTS: &[Row] = &[
    Row {
        name: "id 255 present",
        tables: ONE,
        script: b"page = 1\npresent = [255]",
        status: 8,
        text: b"mptab: script key present\n",
    },
    Row {
        name: "a number for the processors",
        tables: ONE,
        script: b"page = 1\ncpu = 1",
        status: 8,
        text: b"mptab: script key cpu\n",
    },
    Row {
        name: "words of processor 255",
        tables: ONE,
        script: b"page = 1\ncpu = [{ id = 255, words = [] }]",
        status: 8,
        text: b"mptab: script key cpu.id\n",
    },
    Row {
        name: "a processor without words",
        tables: ONE,
        script: b"page = 1\ncpu = [{ id = 0 }]",
        status: 8,
        text: b"mptab: script key cpu.words\n",
    },
    Row {
        name: "a number for the devices",
        tables: ONE,
        script: b"page = 1\ndevice = 1",
        status: 8,
        text: b"mptab: script key device\n",
    },
    Row {
        name: "a device without words",
        tables: ONE,
        script: b"page = 1\ndevice = [{}]",
        status: 8,
        text: b"mptab: script key device.words\n",
    },
    Row {
        name: "a key that no script has",
        tables: ONE,
        script: b"page = 1\nmore = 1",
        status: 8,
        text: b"mptab: script key unknown\n",
    },
    Row {
        name: "a model of logical destinations that is neither flat nor cluster",
        tables: ONE,
        script: b"page = 1\ncpu = [{ id = 0, words = [\"dfr 7\", \"take\"] }]",
        status: 8,
        text: b"mptab: script word cpu 00 index 0 Range\n",
    },
];

/// Scripts whose words are refused, the last two before their boards.
pub fn refused_words() -> &'static [Row] {
    REFUSED_WORDS
}

const REFUSED_WORDS: &[Row] = &[
    Row {
        name: "vector 256",
        tables: ONE,
        script: b"page = 1\ncpu = [{ id = 0, words = [\"take\", \"eoi\", \"ipi 0 256\"] }]",
        status: 8,
        text: b"mptab: script word cpu 00 index 2 Range\n",
    },
    Row {
        name: "an interrupt without a vector",
        tables: ONE,
        script: b"page = 1\ncpu = [{ id = 171, words = [\"ipi 0\"] }]",
        status: 8,
        text: b"mptab: script word cpu AB index 0 Count\n",
    },
    Row {
        name: "no number, before its range",
        tables: ONE,
        script: b"page = 1\ncpu = [{ id = 0, words = [\"ipi x 256\"] }]",
        status: 8,
        text: b"mptab: script word cpu 00 index 0 Number\n",
    },
    Row {
        name: "a word of no name",
        tables: ONE,
        script: b"page = 1\ndevice = [{ words = [] }, { words = [\"low 0 0\", \"jump\"] }]",
        status: 8,
        text: b"mptab: script word dev 1 index 1 Name\n",
    },
    Row {
        name: "a page that is none, and no boot processor",
        tables: Tables::Listed(&[Entry::Cpu(0)], b""),
        script: b"page = 0xA0\n",
        status: 8,
        text: b"mptab: script key page\n",
    },
    Row {
        name: "a word of no device, and two processors with one id",
        tables: Tables::Listed(&[Entry::Boot(0), Entry::Cpu(1), Entry::Cpu(1)], b""),
        script: b"page = 0x9F
device = [{ words = [\"take\"] }]
",
        status: 8,
        text: b"mptab: script word dev 0 index 0 Name\n",
    },
];
