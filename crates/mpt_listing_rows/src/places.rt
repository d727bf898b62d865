//! Tables at each bound of an image of 1 MiB, and parts at the bound of what 16 bits can say.

use crate::harness::{Answer, Row, answer_to, same, same_answers};
use crate::texts::{default_text, one_processor_text, usual_board_text};
use std::alloc::{AllocError, Global};
use std::process::Abort;

const BLOCK: &[Row] = &[
    Row {
        name: "a block directly behind the floating pointer",
        number: 2,
        line: b"pointer at 000F0000 table 000F0010 revision 04 features 0000000000\n",
        answer: Answer::Accepted,
    },
    Row {
        name: "a block that begins in the pointer's last byte",
        number: 2,
        line: b"pointer at 000F0000 table 000F000F revision 04 features 0000000000\n",
        answer: Answer::Unfit(64),
    },
    Row {
        name: "a block directly before the floating pointer",
        number: 2,
        line: b"pointer at 000F0000 table 000EFFC0 revision 04 features 0000000000\n",
        answer: Answer::Accepted,
    },
    Row {
        name: "a block that ends in the pointer's first byte",
        number: 2,
        line: b"pointer at 000F0000 table 000EFFC1 revision 04 features 0000000000\n",
        answer: Answer::Unfit(64),
    },
    Row {
        name: "a block across the floating pointer",
        number: 2,
        line: b"pointer at 000F0020 table 000F0010 revision 04 features 0000000000\n",
        answer: Answer::Unfit(64),
    },
    Row {
        name: "a block at the floating pointer",
        number: 2,
        line: b"pointer at 000F0000 table 000F0000 revision 04 features 0000000000\n",
        answer: Answer::Unfit(64),
    },
    Row {
        name: "a block that ends with the first MiB",
        number: 2,
        line: b"pointer at 000F0000 table 000FFFC0 revision 04 features 0000000000\n",
        answer: Answer::Accepted,
    },
    Row {
        name: "a block that ends a byte behind the first MiB",
        number: 2,
        line: b"pointer at 000F0000 table 000FFFC1 revision 04 features 0000000000\n",
        answer: Answer::Unfit(64),
    },
    Row {
        name: "a block above the first MiB",
        number: 2,
        line: b"pointer at 000F0000 table FFFFFFFF revision 04 features 0000000000\n",
        answer: Answer::Unfit(64),
    },
    Row {
        name: "a block at the least address",
        number: 2,
        line: b"pointer at 000F0000 table 00000500 revision 04 features 0000000000\n",
        answer: Answer::Accepted,
    },
    Row {
        name: "a block a byte below the least address",
        number: 2,
        line: b"pointer at 000F0000 table 000004FF revision 04 features 0000000000\n",
        answer: Answer::Unfit(64),
    },
    Row {
        name: "a floating pointer at no multiple of 16",
        number: 2,
        line: b"pointer at 000F0008 table 000E0000 revision 04 features 0000000000\n",
        answer: Answer::Unfit(64),
    },
    Row {
        name: "a floating pointer at the least place",
        number: 2,
        line: b"pointer at 00000500 table 00000510 revision 04 features 0000000000\n",
        answer: Answer::Accepted,
    },
    Row {
        name: "a floating pointer below the least place",
        number: 2,
        line: b"pointer at 000004F0 table 00000510 revision 04 features 0000000000\n",
        answer: Answer::Unfit(64),
    },
    Row {
        name: "a floating pointer in the last paragraph of the first MiB",
        number: 2,
        line: b"pointer at 000FFFF0 table 00000510 revision 04 features 0000000000\n",
        answer: Answer::Accepted,
    },
    Row {
        name: "a floating pointer above the first MiB",
        number: 2,
        line: b"pointer at 00100000 table 00000510 revision 04 features 0000000000\n",
        answer: Answer::Unfit(64),
    },
    Row {
        name: "a floating pointer at the last place that eight digits say",
        number: 2,
        line: b"pointer at FFFFFFF0 table 00000510 revision 04 features 0000000000\n",
        answer: Answer::Unfit(64),
    },
    Row {
        name: "a bad line is named before a place that doesn't fit",
        number: 2,
        line: b"pointer at 000F0008 table 000E0000 revision 04 features 0000000000\nend\n",
        answer: Answer::Form(3),
    },
];

const USUAL: &[Row] = &[
    Row {
        name: "the block of a usual board across its floating pointer",
        number: 2,
        line: b"pointer at 000F0020 table 000F0010 revision 04 features 0000000000\n",
        answer: Answer::Unfit(260),
    },
    Row {
        name: "the block of a usual board at the end of the first MiB",
        number: 2,
        line: b"pointer at 000F0000 table 000FFEFC revision 04 features 0000000000\n",
        answer: Answer::Accepted,
    },
    Row {
        name: "a byte behind it",
        number: 2,
        line: b"pointer at 000F0000 table 000FFEFD revision 04 features 0000000000\n",
        answer: Answer::Unfit(260),
    },
];

const NO_BLOCK: &[Row] = &[
    Row {
        name: "a default configuration has no block, whatever its address",
        number: 2,
        line: b"pointer at 000F0000 table 000F0000 revision 04 features 0700000000\n",
        answer: Answer::Accepted,
    },
    Row {
        name: "a default configuration at no multiple of 16",
        number: 2,
        line: b"pointer at 000F0001 table 00000000 revision 04 features 0100000000\n",
        answer: Answer::Unfit(0),
    },
    Row {
        name: "a default configuration below the least place",
        number: 2,
        line: b"pointer at 000004F0 table 00000000 revision 04 features 0100000000\n",
        answer: Answer::Unfit(0),
    },
];

#[test]
fn places_at_each_bound(rt: HostRuntime) {
    same_answers(&rt, rt.alloc(), one_processor_text(), BLOCK);
    same_answers(&rt, rt.alloc(), usual_board_text(), USUAL);
    same_answers(&rt, rt.alloc(), default_text(), NO_BLOCK);
}

/// What stands before the entries of a large table, which begins at 500h.
const LARGE: &[u8] = b"mptable 1
pointer at 000F0000 table 00000500 revision 04 features 0000000000
header revision 04 oem \"MPTAB   \" product \"BOARD       \" oemtable 00000000 oemsize 0000 local FEE00000 reserved 00
";

/// Writes the line of an opaque entry with this many bytes behind its length.
fn push_opaque(out: &mut Vec<u8>, bytes: usize) -> Result<(), AllocError> {
    out.extend_from_slice(b"opaque kind 83 rest ")?;
    for _ in 0..bytes {
        out.extend_from_slice(b"5A")?;
    }
    out.extend_from_slice(b"\n")
}

/// A large table: so many buses of 8 bytes each behind a header of 44, and an extended part of so many
/// opaque entries of 255 bytes, one of 2 and `last` bytes if that isn't 0, and so many of 2 bytes.
struct Large {
    buses: usize,
    opaque: usize,
    last: usize,
    bare: usize,
    answer: Answer,
}

// the listing of a large table
fn push_large(text: &mut Vec<u8>, large: &Large) -> Result<(), AllocError> {
    text.extend_from_slice(LARGE)?;
    for _ in 0..large.buses {
        text.extend_from_slice(b"bus id 00 name \"ISA   \"\n")?;
    }
    for _ in 0..large.opaque {
        push_opaque(text, 253)?;
    }
    if large.last != 0 {
        push_opaque(text, large.last)?;
    }
    for _ in 0..large.bare {
        text.extend_from_slice(b"opaque kind 83 rest -\n")?;
    }
    text.extend_from_slice(b"end\n")
}

const LARGE_TABLES: &[Large] = &[
    Large {
        buses: 8186,
        opaque: 0,
        last: 0,
        bare: 0,
        answer: Answer::Accepted,
    },
    Large {
        buses: 8187,
        opaque: 0,
        last: 0,
        bare: 0,
        answer: Answer::Unfit(65_540),
    },
    Large {
        buses: 0,
        opaque: 257,
        last: 0,
        bare: 0,
        answer: Answer::Accepted,
    },
    Large {
        buses: 0,
        opaque: 256,
        last: 251,
        bare: 1,
        answer: Answer::Accepted,
    },
    Large {
        buses: 0,
        opaque: 256,
        last: 252,
        bare: 1,
        answer: Answer::Unfit(65_580),
    },
    Large {
        buses: 0,
        opaque: 257,
        last: 1,
        bare: 0,
        answer: Answer::Unfit(65_582),
    },
    Large {
        buses: 0,
        opaque: 256,
        last: 253,
        bare: 0,
        answer: Answer::Accepted,
    },
    Large {
        buses: 0,
        opaque: 256,
        last: 254,
        bare: 0,
        answer: Answer::Form(260),
    },
    Large {
        buses: 8186,
        opaque: 257,
        last: 0,
        bare: 0,
        answer: Answer::Accepted,
    },
    Large {
        buses: 8187,
        opaque: 257,
        last: 0,
        bare: 0,
        answer: Answer::Unfit(131_075),
    },
    Large {
        buses: 8187,
        opaque: 257,
        last: 0,
        bare: 1,
        answer: Answer::Unfit(131_077),
    },
];

// the answer to a large table
fn same_large(rt: &impl Abort, alloc: Global, large: &Large) {
    let mut text = Vec::new(alloc);
    push_large(&mut text, large).expect(rt, "out of memory");
    let answer = answer_to(alloc, text.as_slice());
    let row = (large.buses, large.opaque, large.last, large.bare);
    same(rt, "a large table", (row, answer), (row, large.answer));
}

#[test]
fn parts_at_16_bits(rt: HostRuntime) {
    for large in LARGE_TABLES {
        same_large(&rt, rt.alloc(), large);
    }
}
