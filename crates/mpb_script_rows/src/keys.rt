//! Texts that are no document, each key with its wrong kinds, and which of two wrong keys is named.

use crate::harness::{Row, answers, answers_texts};

const NO_DOCUMENTS: &[Row] = &[
    ("page =", "not toml"),
    ("page = 1\npage = 1", "not toml"),
    ("page = 9223372036854775808", "not toml"),
    ("page = 01", "not toml"),
    ("page = 1\n[[cpu]]\nid = 0\nwords = [\"take\"", "not toml"),
    ("{\"page\": 1}", "not toml"),
];

const PAGES: &[Row] = &[
    ("", "key page"),
    ("# page = 1", "key page"),
    ("Page = 1", "key page"),
    ("page = -1", "key page"),
    ("page = 0x9F", "script"),
    ("page = 0xA0", "key page"),
    ("page = 0xBF", "key page"),
    ("page = 0xC0", "script"),
    ("page = 0", "script"),
    ("page = 255", "script"),
    ("page = 256", "key page"),
    ("page = 1.0", "key page"),
    ("page = \"1\"", "key page"),
    ("page = true", "key page"),
    ("page = [1]", "key page"),
    ("page = { value = 1 }", "key page"),
    ("page = 1979-05-27", "key page"),
];

const NUMBERS: &[Row] = &[
    ("page = 1\nelcr = 0", "script"),
    ("page = 1\nelcr = 65535", "script"),
    ("page = 1\nelcr = 65536", "key elcr"),
    ("page = 1\nelcr = -1", "key elcr"),
    ("page = 1\nelcr = 32.0", "key elcr"),
    ("page = 1\nelcr = \"0020\"", "key elcr"),
    ("page = 1\nelcr = false", "key elcr"),
    ("page = 1\nelcr = []", "key elcr"),
    ("page = 1\npresent = []", "script"),
    ("page = 1\npresent = [0, 254, 7, 7]", "script"),
    ("page = 1\npresent = 0", "key present"),
    ("page = 1\npresent = \"0\"", "key present"),
    ("page = 1\npresent = { id = 0 }", "key present"),
    ("page = 1\npresent = [0, 255]", "key present"),
    ("page = 1\npresent = [-1]", "key present"),
    ("page = 1\npresent = [0.0]", "key present"),
    ("page = 1\npresent = [\"0\"]", "key present"),
    ("page = 1\npresent = [[0]]", "key present"),
];

const TABLES: &[Row] = &[
    ("page = 1\ncpu = []", "script"),
    ("page = 1\ncpu = 1", "key cpu"),
    ("page = 1\ncpu = \"take\"", "key cpu"),
    ("page = 1\n[cpu]\nid = 0\nwords = []", "key cpu"),
    ("page = 1\ncpu = [{ id = 0, words = [] }, 1]", "key cpu"),
    ("page = 1\ncpu = [[{ id = 0, words = [] }]]", "key cpu"),
    ("page = 1\n[[cpu]]\nwords = []", "key cpu.id"),
    ("page = 1\ncpu = [{ id = -1, words = [] }]", "key cpu.id"),
    ("page = 1\ncpu = [{ id = 254, words = [] }]", "script"),
    ("page = 1\ncpu = [{ id = 255, words = [] }]", "key cpu.id"),
    ("page = 1\ncpu = [{ id = 0.0, words = [] }]", "key cpu.id"),
    ("page = 1\ncpu = [{ id = \"0\", words = [] }]", "key cpu.id"),
    (
        "page = 1\ncpu = [{ id = 3, words = [] }, { id = 4, words = [] }, { id = 3, words = [] }]",
        "key cpu.id",
    ),
    ("page = 1\ncpu = [{ id = 3 }]", "key cpu.words"),
    (
        "page = 1\ncpu = [{ id = 3, words = \"take\" }]",
        "key cpu.words",
    ),
    (
        "page = 1\ncpu = [{ id = 3, words = [\"take\", 1] }]",
        "key cpu.words",
    ),
    (
        "page = 1\ncpu = [{ id = 3, words = [[\"take\"]] }]",
        "key cpu.words",
    ),
    (
        "page = 1\ncpu = [{ id = 3, words = { a = \"take\" } }]",
        "key cpu.words",
    ),
    ("page = 1\ndevice = []", "script"),
    ("page = 1\ndevice = 1", "key device"),
    ("page = 1\ndevice = { words = [] }", "key device"),
    ("page = 1\ndevice = [{ words = [] }, []]", "key device"),
    (
        "page = 1\ndevice = [{ words = [] }, { words = [] }, { words = [] }, { words = [] }]",
        "script",
    ),
    (
        "page = 1\ndevice = [{ words = [] }, { words = [] }, { words = [] }, { words = [] }, { words = [] }]",
        "key device",
    ),
    ("page = 1\ndevice = [{}]", "key device.words"),
    (
        "page = 1\ndevice = [{ words = \"low 0 0\" }]",
        "key device.words",
    ),
    (
        "page = 1\ndevice = [{ words = [\"low 0 0\", true] }]",
        "key device.words",
    ),
];

const FURTHER_KEYS: &[Row] = &[
    ("page = 1\nmore = 1", "key unknown"),
    ("page = 1\ncpus = []", "key unknown"),
    ("page = 1\n\"\" = 1", "key unknown"),
    ("page = 1\nid = 0", "key unknown"),
    ("page = 1\nwords = []", "key unknown"),
    (
        "page = 1\ncpu = [{ id = 3, words = [], page = 1 }]",
        "key unknown",
    ),
    ("page = 1\ndevice = [{ words = [], id = 0 }]", "key unknown"),
];

const PAIRS: &[Row] = &[
    ("elcr = 65536\npage = 160", "key page"),
    ("more = 1", "key page"),
    ("page = 1\npresent = 0\nelcr = 65536", "key elcr"),
    ("page = 1\ncpu = 1\npresent = 0", "key present"),
    ("page = 1\ndevice = 1\ncpu = 1", "key cpu"),
    (
        "page = 1\ndevice = [{}, {}, {}, {}, {}]\ncpu = [{}]",
        "key device",
    ),
    ("page = 1\ncpu = [{ words = 1 }]", "key cpu.id"),
    (
        "page = 1\ncpu = [{ id = 3, words = [] }, { id = 3, words = 1 }]",
        "key cpu.id",
    ),
    ("page = 1\ncpu = [{ id = 3, more = 1 }]", "key cpu.words"),
    (
        "page = 1\ncpu = [{ id = 3, words = [], more = 1 }, { words = [] }]",
        "key unknown",
    ),
    (
        "page = 1\ncpu = [{ id = 3, words = [], more = 1 }]\ndevice = [{}]",
        "key unknown",
    ),
    ("page = 1\ndevice = [{}]\ncpu = [{}]", "key cpu.id"),
    ("page = 1\ndevice = [{ more = 1 }]", "key device.words"),
    (
        "page = 1\ndevice = [{ words = [], more = 1 }, {}]",
        "key unknown",
    ),
    ("page = 1\nmore = 1\ndevice = [{}]", "key device.words"),
    ("page = 1\nmore = 1\ncpu = [{}]", "key cpu.id"),
    (
        "page = 1\nmore = 1\ncpu = [{ id = 3, words = [\"jump\"] }]",
        "key unknown",
    ),
    (
        "page = 1\ndevice = [{}]\ncpu = [{ id = 3, words = [\"jump\"] }]",
        "key device.words",
    ),
    ("page = 160\npage =", "not toml"),
];

#[test]
fn each_key(rt: HostRuntime) {
    answers_texts(&rt, rt.alloc(), NO_DOCUMENTS);
    answers_texts(&rt, rt.alloc(), PAGES);
    answers_texts(&rt, rt.alloc(), NUMBERS);
    answers_texts(&rt, rt.alloc(), TABLES);
    answers_texts(&rt, rt.alloc(), FURTHER_KEYS);
}

#[test]
fn the_first_of_two_wrong_keys(rt: HostRuntime) {
    answers_texts(&rt, rt.alloc(), PAIRS);
}

#[test]
fn a_text_that_is_no_utf_8(rt: HostRuntime) {
    answers(&rt, rt.alloc(), "no UTF-8", b"page = 1 # \xFF", "not toml");
}
