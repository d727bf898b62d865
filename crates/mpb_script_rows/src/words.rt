//! Each word with its wrong names, counts, numbers and ranges, and which of two causes is named.

use crate::harness::{Row, answers_cpu_words, answers_device_words, answers_texts};

const CPU_NAMES: &[Row] = &[
    ("\"jump\"", "word cpu 07 index 0 Name"),
    ("\"\"", "word cpu 07 index 0 Name"),
    ("\" take\"", "word cpu 07 index 0 Name"),
    ("\"Take\"", "word cpu 07 index 0 Name"),
    ("\"takes\"", "word cpu 07 index 0 Name"),
    ("\"tak\"", "word cpu 07 index 0 Name"),
    ("\"take\\t\"", "word cpu 07 index 0 Name"),
    ("\"pulse 0 0\"", "word cpu 07 index 0 Name"),
    ("\"high 0 0\"", "word cpu 07 index 0 Name"),
    ("\"low 0 0\"", "word cpu 07 index 0 Name"),
    ("\"init 1\"", "word cpu 07 index 0 Name"),
    ("\"startup 1 1\"", "word cpu 07 index 0 Name"),
    ("\"check 1\"", "word cpu 07 index 0 Name"),
    ("\"warm 1\"", "word cpu 07 index 0 Name"),
    ("\"imcr\"", "word cpu 07 index 0 Name"),
];

const CPU_COUNTS: &[Row] = &[
    ("\"ipi\"", "word cpu 07 index 0 Count"),
    ("\"ipi 0\"", "word cpu 07 index 0 Count"),
    ("\"ipi 0 0 0\"", "word cpu 07 index 0 Count"),
    ("\"ipi 0 0 \"", "word cpu 07 index 0 Count"),
    ("\"nmi\"", "word cpu 07 index 0 Count"),
    ("\"nmi 0 0\"", "word cpu 07 index 0 Count"),
    ("\"take 0\"", "word cpu 07 index 0 Count"),
    ("\"take \"", "word cpu 07 index 0 Count"),
    ("\"poll 0\"", "word cpu 07 index 0 Count"),
    ("\"eoi 0\"", "word cpu 07 index 0 Count"),
    ("\"tpr\"", "word cpu 07 index 0 Count"),
    ("\"tpr 0 0\"", "word cpu 07 index 0 Count"),
    ("\"iosel 0\"", "word cpu 07 index 0 Count"),
    ("\"iosel 0 0 0\"", "word cpu 07 index 0 Count"),
    ("\"iowin 0\"", "word cpu 07 index 0 Count"),
    ("\"iowin 0 0 0\"", "word cpu 07 index 0 Count"),
    ("\"ioread\"", "word cpu 07 index 0 Count"),
    ("\"ioread 0 0\"", "word cpu 07 index 0 Count"),
    ("\"pause\"", "word cpu 07 index 0 Count"),
    ("\"pause 0 0\"", "word cpu 07 index 0 Count"),
];

const CPU_NUMBERS: &[Row] = &[
    ("\"ipi x 0\"", "word cpu 07 index 0 Number"),
    ("\"ipi 0 x\"", "word cpu 07 index 0 Number"),
    ("\"ipi  0\"", "word cpu 07 index 0 Number"),
    ("\"nmi -1\"", "word cpu 07 index 0 Number"),
    ("\"nmi \"", "word cpu 07 index 0 Number"),
    ("\"tpr +1\"", "word cpu 07 index 0 Number"),
    ("\"tpr 00\"", "word cpu 07 index 0 Number"),
    ("\"tpr 01\"", "word cpu 07 index 0 Number"),
    ("\"tpr 1_0\"", "word cpu 07 index 0 Number"),
    ("\"tpr A0\"", "word cpu 07 index 0 Number"),
    ("\"tpr 0x\"", "word cpu 07 index 0 Number"),
    ("\"tpr 0X1\"", "word cpu 07 index 0 Number"),
    ("\"tpr 0xG\"", "word cpu 07 index 0 Number"),
    ("\"tpr 0x000000001\"", "word cpu 07 index 0 Number"),
    ("\"tpr 0x00000001\"", "script"),
    ("\"tpr 0xfF\"", "script"),
    ("\"tpr \u{FF11}\"", "word cpu 07 index 0 Number"),
    ("\"iosel x 0\"", "word cpu 07 index 0 Number"),
    ("\"iosel 0 0h\"", "word cpu 07 index 0 Number"),
    ("\"iowin 0 0x100000000\"", "word cpu 07 index 0 Number"),
    ("\"ioread one\"", "word cpu 07 index 0 Number"),
    ("\"pause 1e6\"", "word cpu 07 index 0 Number"),
];

const CPU_RANGES: &[Row] = &[
    ("\"ipi 255 255\"", "script"),
    ("\"ipi 256 0\"", "word cpu 07 index 0 Range"),
    ("\"ipi 0 256\"", "word cpu 07 index 0 Range"),
    ("\"ipi 0x100 0\"", "word cpu 07 index 0 Range"),
    ("\"ipl 255 255\"", "script"),
    ("\"ipl 256 0\"", "word cpu 07 index 0 Range"),
    ("\"ipl 0 256\"", "word cpu 07 index 0 Range"),
    ("\"ldr 0\"", "script"),
    ("\"ldr 255\"", "script"),
    ("\"ldr 256\"", "word cpu 07 index 0 Range"),
    ("\"dfr 0\"", "script"),
    ("\"dfr 0xF\"", "script"),
    ("\"dfr 7\"", "word cpu 07 index 0 Range"),
    ("\"dfr 14\"", "word cpu 07 index 0 Range"),
    ("\"dfr 16\"", "word cpu 07 index 0 Range"),
    ("\"dfr x\"", "word cpu 07 index 0 Number"),
    ("\"dfr\"", "word cpu 07 index 0 Count"),
    ("\"nmi 255\"", "script"),
    ("\"nmi 256\"", "word cpu 07 index 0 Range"),
    ("\"tpr 255\"", "script"),
    ("\"tpr 256\"", "word cpu 07 index 0 Range"),
    ("\"tpr 0xffffffff\"", "word cpu 07 index 0 Range"),
    ("\"iosel 3 255\"", "script"),
    ("\"iosel 4 0\"", "word cpu 07 index 0 Range"),
    ("\"iosel 0 256\"", "word cpu 07 index 0 Range"),
    ("\"iowin 3 4294967295\"", "script"),
    ("\"iowin 4 0\"", "word cpu 07 index 0 Range"),
    ("\"iowin 0 4294967296\"", "word cpu 07 index 0 Range"),
    ("\"ioread 3\"", "script"),
    ("\"ioread 4\"", "word cpu 07 index 0 Range"),
    ("\"pause 1000000\"", "script"),
    ("\"pause 1000001\"", "word cpu 07 index 0 Range"),
    (
        "\"pause 18446744073709551615\"",
        "word cpu 07 index 0 Range",
    ),
    (
        "\"pause 18446744073709551616\"",
        "word cpu 07 index 0 Range",
    ),
    (
        "\"pause 99999999999999999999999999\"",
        "word cpu 07 index 0 Range",
    ),
];

const CPU_PAIRS: &[Row] = &[
    ("\"jump x 256 1\"", "word cpu 07 index 0 Name"),
    ("\"ipi x\"", "word cpu 07 index 0 Count"),
    ("\"ipi 256\"", "word cpu 07 index 0 Count"),
    ("\"take x\"", "word cpu 07 index 0 Count"),
    ("\"ipi x 256\"", "word cpu 07 index 0 Number"),
    ("\"ipi 256 x\"", "word cpu 07 index 0 Number"),
    (
        "\"pause 99999999999999999999999999x\"",
        "word cpu 07 index 0 Number",
    ),
    (
        "\"take\", \"ipi 0 256\", \"jump\"",
        "word cpu 07 index 1 Range",
    ),
    (
        "\"take\", \"eoi\", \"ipi 0 256\"",
        "word cpu 07 index 2 Range",
    ),
    ("\"jump\", \"jump\"", "word cpu 07 index 0 Name"),
];

const DEVICE_WORDS: &[Row] = &[
    ("\"take\"", "word dev 2 index 0 Name"),
    ("\"ipi 0 0\"", "word dev 2 index 0 Name"),
    ("\"begin\"", "word dev 2 index 0 Name"),
    ("\"end\"", "word dev 2 index 0 Name"),
    ("\"Pulse 0 0\"", "word dev 2 index 0 Name"),
    ("\"pulse 0\"", "word dev 2 index 0 Count"),
    ("\"pulse 0 0 0\"", "word dev 2 index 0 Count"),
    ("\"high\"", "word dev 2 index 0 Count"),
    ("\"low 0 0 \"", "word dev 2 index 0 Count"),
    ("\"pulse x 0\"", "word dev 2 index 0 Number"),
    ("\"high 0 -1\"", "word dev 2 index 0 Number"),
    ("\"low 0 0x\"", "word dev 2 index 0 Number"),
    ("\"pulse 3 23\"", "script"),
    ("\"pulse 4 0\"", "word dev 2 index 0 Range"),
    ("\"pulse 0 24\"", "word dev 2 index 0 Range"),
    ("\"high 3 23\"", "script"),
    ("\"high 4 0\"", "word dev 2 index 0 Range"),
    ("\"high 0 24\"", "word dev 2 index 0 Range"),
    ("\"low 3 23\"", "script"),
    ("\"low 4 0\"", "word dev 2 index 0 Range"),
    ("\"low 0 24\"", "word dev 2 index 0 Range"),
    ("\"begin x\"", "word dev 2 index 0 Name"),
    ("\"pulse x\"", "word dev 2 index 0 Count"),
    ("\"pulse 4 x\"", "word dev 2 index 0 Number"),
    ("\"low 0 0\", \"low 0\", \"up\"", "word dev 2 index 1 Count"),
];

const PROGRAMS: &[Row] = &[
    (
        "page = 1\ncpu = [{ id = 0, words = [\"ipi 0\"] }]",
        "word cpu 00 index 0 Count",
    ),
    (
        "page = 1\ncpu = [{ id = 0, words = [\"ipi x 256\"] }]",
        "word cpu 00 index 0 Number",
    ),
    (
        "page = 1\ncpu = [{ id = 0, words = [\"jump\"] }]",
        "word cpu 00 index 0 Name",
    ),
    (
        "page = 1\ncpu = [{ id = 200, words = [\"take\", \"x\"] }, { id = 3, words = [\"y\"] }]",
        "word cpu C8 index 1 Name",
    ),
    (
        "page = 1\ndevice = [{ words = [\"x\"] }]\ncpu = [{ id = 3, words = [\"take\", \"nmi 256\"] }]",
        "word cpu 03 index 1 Range",
    ),
    (
        "page = 1\ncpu = [{ id = 3, words = [] }]\ndevice = [{ words = [] }, { words = [\"low 0 0\", \"x\"] }, { words = [\"x\"] }]",
        "word dev 1 index 1 Name",
    ),
];

#[test]
fn each_word_of_a_processor(rt: HostRuntime) {
    answers_cpu_words(&rt, rt.alloc(), CPU_NAMES);
    answers_cpu_words(&rt, rt.alloc(), CPU_COUNTS);
    answers_cpu_words(&rt, rt.alloc(), CPU_NUMBERS);
    answers_cpu_words(&rt, rt.alloc(), CPU_RANGES);
}

#[test]
fn each_word_of_a_device(rt: HostRuntime) {
    answers_device_words(&rt, rt.alloc(), DEVICE_WORDS);
}

#[test]
fn the_first_of_two_wrong_words(rt: HostRuntime) {
    answers_cpu_words(&rt, rt.alloc(), CPU_PAIRS);
    answers_texts(&rt, rt.alloc(), PROGRAMS);
}
