//! The commands over a usual board: its image built from its listing, its routes, its findings, its
//! canonical form.

use crate::harness::{
    Answer, answer_of, answer_over, answers, built, built_of, image_of, image_with, is_shown_after,
    of_image, put, same, shelf_of, text_of,
};
use mpt_base::MemShelf;
use mptab_cases::images::{POINTER, Piece};
use mptab_cases::usual::{
    END, FIRST, LOCAL_INTR, LOCAL_NMI, POINTER as POINTER_LINE, TO_INTERRUPTS, routes,
    to_interrupts, usual,
};
use std::alloc::Global;
use std::process::Abort;
use std::test::Fail;

/// The board's listing.
fn usual_listing(alloc: Global) -> Result<Vec<u8>, Fail> {
    text_of(alloc, usual())
}

/// The board's image.
fn usual_image(alloc: Global) -> Result<Vec<u8>, Fail> {
    image_of(alloc, usual())
}

/// The image of the board with lines behind its I/O interrupts.
fn image_with_lines(alloc: Global, more: &str) -> Result<Vec<u8>, Fail> {
    let parts = [
        FIRST,
        POINTER_LINE,
        TO_INTERRUPTS,
        more,
        LOCAL_INTR,
        LOCAL_NMI,
        END,
    ];
    image_of(alloc, &parts)
}

/// Whether `show` answers to an image by the usual board's listing.
fn is_usual(alloc: Global, image: &[u8]) -> Result<bool, Fail> {
    let listing = usual_listing(alloc)?;
    answers(alloc, &["show", "image"], image, 0, listing.as_slice())
}

/// Asserts that these words are answered so over the usual board.
fn answers_usual(
    rt: &impl Abort,
    alloc: Global,
    words: &[&str],
    status: u8,
    text: &str,
) -> Result<(), Fail> {
    let image = usual_image(alloc)?;
    let right = answers(alloc, words, image.as_slice(), status, text.as_bytes())?;
    same(rt, text, right, true);
    Ok(())
}

#[test]
fn listing_is_built_and_shown(rt: HostRuntime) -> Result<(), Fail> {
    let image = usual_image(rt.alloc())?;
    same(&rt, "the size of the image", image.len(), 0x100000);
    let right = is_usual(rt.alloc(), image.as_slice())?;
    same(&rt, "the listing", right, true);
    Ok(())
}

#[test]
fn canonical_form_is_its_own(rt: HostRuntime) -> Result<(), Fail> {
    let image = usual_image(rt.alloc())?;
    let image = image.as_slice();
    let right = answers(rt.alloc(), &["canon", "image"], image, 0, image)?;
    same(&rt, "the usual board is canonical", right, true);
    Ok(())
}

/// A board of one processor behind a bus, both with reserved bits, and its canonical form.
const MIXED: &str = "mptable 1
pointer at 000F0000 table 000F0010 revision 04 features 00FF010203
header revision 04 oem \"MPTAB   \" product \"BOARD       \" oemtable 00000000 oemsize 0000 local FEE00000 reserved 77
bus id 00 name \"ISA   \"
processor id 00 version 10 flags FF signature 00000520 features 000001BF reserved 0102030405060708
hierarchy bus 00 info FF parent 00 reserved 010203
opaque kind C8 rest -
end
";

const CANONICAL: &str = "mptable 1
pointer at 000F0000 table 000F0010 revision 04 features 00C0000000
header revision 04 oem \"MPTAB   \" product \"BOARD       \" oemtable 00000000 oemsize 0000 local FEE00000 reserved 00
processor id 00 version 10 flags 03 signature 00000520 features 000001BF reserved 0000000000000000
bus id 00 name \"ISA   \"
hierarchy bus 00 info 01 parent 00 reserved 000000
opaque kind C8 rest -
end
";

#[test]
fn canonical_form_of_a_mixed_board(rt: HostRuntime) -> Result<(), Fail> {
    let image = built(rt.alloc(), MIXED.as_bytes())?;
    let canon = &["canon", "image"];
    let right = is_shown_after(rt.alloc(), canon, image.text.as_slice(), CANONICAL)?;
    same(&rt, "the canonical form", right, true);
    Ok(())
}

#[test]
fn routes_of_the_usual_board(rt: HostRuntime) -> Result<(), Fail> {
    answers_usual(&rt, rt.alloc(), &["route", "image", "0000"], 0, routes())
}

/// The routes of the usual board, and this one behind them.
fn routes_with(alloc: Global, last: &str) -> Result<Vec<u8>, Fail> {
    let mut text = Vec::from_slice(alloc, routes().as_bytes())?;
    text.extend_from_slice(last.as_bytes())?;
    Ok(text)
}

/// Whether the routes of an image are those.
fn has_routes(alloc: Global, image: &[u8], last: &str) -> Result<bool, Fail> {
    let expected = routes_with(alloc, last)?;
    answers(
        alloc,
        &["route", "image", "0000"],
        image,
        0,
        expected.as_slice(),
    )
}

/// Whether the usual board with a further line has its routes, and this one behind them.
fn is_routed(alloc: Global, more: &str, last: &str) -> Result<bool, Fail> {
    let image = image_with_lines(alloc, more)?;
    has_routes(alloc, image.as_slice(), last)
}

/// A further interrupt of the PCI bus at the pin of the first, and what its line says.
const TAKEN: &[(&str, &str)] = &[
    (
        "ioint kind 00 flags 0005 bus 00 irq 0C dest 00 pin 10\n",
        "unrouted 17 Clash\n",
    ),
    (
        "ioint kind 00 flags 0000 bus 00 irq 0C dest 00 pin 10\n",
        "unrouted 17 Shared\n",
    ),
];

#[test]
fn routes_at_a_taken_pin(rt: HostRuntime) -> Result<(), Fail> {
    for (more, last) in TAKEN {
        let routed = is_routed(rt.alloc(), more, last)?;
        same(&rt, last, routed, true);
    }
    Ok(())
}

/// The pointer of default configuration 2 at F0000h.
const DEFAULT_2: Piece = Piece::Bytes(0xF0000, 16, 0x5F4D505F_00000000_01049E02_00000000);

/// The first two lines of its routes by the ELCR: IRQ 1 of its EISA bus is level and low where bit 1 is set.
const BY_ELCR: &[(&str, &str)] = &[
    (
        "0000",
        "route 0 io 0 pin 0 vector 00 low 00000700 high 00000000
route 1 io 0 pin 1 vector 21 low 00000021 high 00000000
route 2 io 0 pin 3 vector 23 low 00000023 high 00000000
",
    ),
    (
        "0002",
        "route 0 io 0 pin 0 vector 00 low 00000700 high 00000000
route 1 io 0 pin 1 vector 21 low 0000A021 high 00000000
route 2 io 0 pin 3 vector 23 low 00000023 high 00000000
",
    ),
    (
        "000a",
        "route 0 io 0 pin 0 vector 00 low 00000700 high 00000000
route 1 io 0 pin 1 vector 21 low 0000A021 high 00000000
route 2 io 0 pin 3 vector 23 low 0000A023 high 00000000
",
    ),
];

/// How many lines a text has.
fn lines_of(text: &[u8]) -> usize {
    let mut lines = 0usize;
    for byte in text {
        if *byte == b'\n' {
            lines = lines.saturating_add(1);
        }
    }
    lines
}

/// The status of the routes of an image by an ELCR, whether they begin so, and how many lines they have.
fn routed_by(
    alloc: Global,
    image: &[u8],
    elcr: &str,
    first: &str,
) -> Result<(u8, bool, usize), Fail> {
    let routed = of_image(alloc, &["route", "image", elcr], image)?;
    let text = routed.text.as_slice();
    Ok((
        routed.status,
        text.starts_with(first.as_bytes()),
        lines_of(text),
    ))
}

/// Asserts the first routes of an image by each ELCR, and how many there are.
fn are_routed(rt: &impl Abort, alloc: Global, image: &[u8]) -> Result<(), Fail> {
    for (elcr, first) in BY_ELCR {
        let got = routed_by(alloc, image, elcr, first)?;
        same(rt, elcr, got, (0, true, 14));
    }
    Ok(())
}

#[test]
fn routes_of_default_configuration_2(rt: HostRuntime) -> Result<(), Fail> {
    let image = image_with(rt.alloc(), 0x100000, &[DEFAULT_2])?;
    are_routed(&rt, rt.alloc(), image.as_slice())
}

/// Words that are no form beside `route`'s own.
const NO_FORMS: &[&[&str]] = &[
    &["route", "image"],
    &["route", "image", "000"],
    &["route", "image", "00000"],
    &["route", "image", "000G"],
    &["route", "image", "0x00"],
    &["audit", "image", "0000"],
    &["canon"],
    &["raise"],
    &["build"],
    &["Route", "image", "0000"],
];

/// Asserts that they are answered by the usage, beside an image.
fn are_no_forms(rt: &impl Abort, alloc: Global, image: &[u8]) -> Result<(), Fail> {
    for words in NO_FORMS {
        let right = answers(alloc, words, image, 2, b"mptab: usage\n")?;
        same(rt, "words that are no form", right, true);
    }
    Ok(())
}

#[test]
fn words_of_the_commands(rt: HostRuntime) -> Result<(), Fail> {
    let image = image_with(rt.alloc(), 0x100000, &[DEFAULT_2])?;
    are_no_forms(&rt, rt.alloc(), image.as_slice())
}

/// Asserts what `audit` answers to an image of 1 MiB with these pieces.
fn audits(
    rt: &impl Abort,
    alloc: Global,
    pieces: &[Piece],
    status: u8,
    text: &str,
) -> Result<(), Fail> {
    let image = image_with(alloc, 0x100000, pieces)?;
    let audit = &["audit", "image"];
    let right = answers(alloc, audit, image.as_slice(), status, text.as_bytes())?;
    same(rt, text, right, true);
    Ok(())
}

/// The board with one processor.
const BOARD: &[Piece] = &[POINTER, Piece::Table(0xF0010)];

#[test]
fn findings(rt: HostRuntime) -> Result<(), Fail> {
    let usual = "rule 6 entry 4 other 0\nfindings 1\n";
    answers_usual(&rt, rt.alloc(), &["audit", "image"], 1, usual)?;
    let one = "rule 8 entry - other -\nfindings 1\n";
    audits(&rt, rt.alloc(), BOARD, 1, one)?;
    audits(&rt, rt.alloc(), &[DEFAULT_2], 0, "findings 0\n")
}

/// A listing whose revision has one digit.
const BAD: &[&str] = &[
    "mptable 1\n",
    "pointer at 000F0000 table 000F0010 revision 4 features 0000000000\n",
];

/// Whether the listing of these parts is refused so.
fn is_refused(alloc: Global, parts: &[&str], text: &str) -> Result<bool, Fail> {
    let answer = built_of(alloc, parts)?;
    Ok(answer.is(8, text.as_bytes()))
}

/// The usual board's listing without its last line.
fn without_end() -> [&'static str; 5] {
    [FIRST, POINTER_LINE, to_interrupts(), LOCAL_INTR, LOCAL_NMI]
}

/// The usual board's listing with two last lines.
fn with_two_ends() -> [&'static str; 7] {
    [
        FIRST,
        POINTER_LINE,
        to_interrupts(),
        LOCAL_INTR,
        LOCAL_NMI,
        END,
        END,
    ]
}

#[test]
fn listings_that_are_refused(rt: HostRuntime) -> Result<(), Fail> {
    let early = "mptab: listing line 28 Early\n";
    let right = is_refused(rt.alloc(), &without_end(), early)?;
    same(&rt, "no last line", right, true);
    let late = "mptab: listing line 29 Late\n";
    let right = is_refused(rt.alloc(), &with_two_ends(), late)?;
    same(&rt, "two last lines", right, true);
    let right = is_refused(rt.alloc(), BAD, "mptab: listing line 2 Form\n")?;
    same(&rt, "a revision of one digit", right, true);
    Ok(())
}

/// What `build` answers to the usual board whose pointer is moved to F0020h.
fn built_with_moved_pointer(alloc: Global) -> Result<Answer, Fail> {
    let mut listing = usual_listing(alloc)?;
    put(&mut listing, 0, b"mptable 1\npointer at 000F0020");
    built(alloc, listing.as_slice())
}

/// A board whose table is at 100000h.
const HIGH: &[Piece] = &[
    Piece::Bytes(0xF0000, 16, 0x5F4D505F_00001000_01049000_00000000),
    Piece::Table(0x100000),
];

/// What `canon` answers to a table above 1 MiB.
fn canonical_of_high(alloc: Global) -> Result<Answer, Fail> {
    let high = image_with(alloc, 0x110000, HIGH)?;
    of_image(alloc, &["canon", "image"], high.as_slice())
}

/// Whether the usual board, whose pointer is moved to F0020h, meets its block.
#[test]
fn tables_that_do_not_fit(rt: HostRuntime) -> Result<(), Fail> {
    let moved = built_with_moved_pointer(rt.alloc())?.is(8, b"mptab: does not fit 260\n");
    same(&rt, "the pointer inside its block", moved, true);
    let high = canonical_of_high(rt.alloc())?.is(8, b"mptab: does not fit 64\n");
    same(&rt, "a table above 1 MiB", high, true);
    Ok(())
}

/// A shelf with a listing of this many spaces.
fn shelf_of_spaces(alloc: Global, size: usize) -> Result<MemShelf, Fail> {
    let listing = vec![in alloc; b' '; size]?;
    shelf_of(alloc, "list", listing.as_slice())
}

/// Whether `build` is answered so, where there is a listing of 4,194,305 spaces.
fn is_built_of_spaces(
    alloc: Global,
    words: &[&str],
    status: u8,
    text: &[u8],
) -> Result<bool, Fail> {
    let mut shelf = shelf_of_spaces(alloc, 4_194_305)?;
    let answer = answer_of(alloc, words, &mut shelf, 0)?;
    Ok(answer.is(status, text))
}

#[test]
fn listing_past_its_limit(rt: HostRuntime) -> Result<(), Fail> {
    let large = b"mptab: too large list 4194305\n";
    let right = is_built_of_spaces(rt.alloc(), &["build", "list"], 10, large)?;
    same(&rt, "a listing past its limit", right, true);
    let right = is_built_of_spaces(rt.alloc(), &["build", "x"], 3, b"mptab: no file x\n")?;
    same(&rt, "no listing", right, true);
    Ok(())
}

/// What `build` answers to a listing, where this put fails.
fn built_with_failing_put(alloc: Global, listing: &[u8], failing: u64) -> Result<Answer, Fail> {
    answer_over(alloc, &["build", "list"], "list", listing, failing)
}

/// How many bytes of the usual board's image were written, where this put fails, and the status.
fn bytes_written(alloc: Global, listing: &[u8], failing: u64) -> Result<(usize, u8), Fail> {
    let answer = built_with_failing_put(alloc, listing, failing)?;
    Ok((answer.text.len(), answer.status))
}

/// A put that fails, and what was written before it: 256 pieces of 4,096 bytes.
const PIECES: &[(u64, usize, u8)] = &[
    (1, 0, 5),
    (2, 4096, 5),
    (3, 8192, 5),
    (256, 1_044_480, 5),
    (257, 1_048_576, 0),
];

#[test]
fn pieces_of_an_image(rt: HostRuntime) -> Result<(), Fail> {
    let listing = usual_listing(rt.alloc())?;
    for (failing, bytes, status) in PIECES {
        let written = bytes_written(rt.alloc(), listing.as_slice(), *failing)?;
        same(&rt, "the bytes and the status", written, (*bytes, *status));
    }
    Ok(())
}

/// The word that names F000h as the segment of the EBDA.
const EBDA_WORD: &[Piece] = &[Piece::Bytes(0x40E, 2, 0x00F0)];

/// Whether this is written of the usual board's image, where the second put fails.
fn is_written(alloc: Global, piece: &[u8]) -> Result<bool, Fail> {
    let listing = usual_listing(alloc)?;
    let answer = built_with_failing_put(alloc, listing.as_slice(), 2)?;
    Ok(answer.is(5, piece))
}

/// The second put of the image fails: the first piece is there, zero but for the EBDA word.
#[test]
fn second_piece_of_an_image_fails(rt: HostRuntime) -> Result<(), Fail> {
    let piece = image_with(rt.alloc(), 4096, EBDA_WORD)?;
    let right = is_written(rt.alloc(), piece.as_slice())?;
    same(&rt, "the first piece", right, true);
    Ok(())
}

/// Sizes of a listing that is none, and the status where the third call of the shelf fails: one piece has
/// 65,536 bytes.
const SIZES: &[(usize, u8)] = &[(0, 8), (1, 8), (65_536, 8), (65_537, 4)];

/// The status of `build` for such a listing, where the third call of the shelf fails.
fn status_of_spaces(alloc: Global, size: usize) -> Result<u8, Fail> {
    let mut shelf = shelf_of_spaces(alloc, size)?;
    shelf.fail(3)?;
    let answer = answer_of(alloc, &["build", "list"], &mut shelf, 0)?;
    Ok(answer.status)
}

#[test]
fn pieces_of_a_listing(rt: HostRuntime) -> Result<(), Fail> {
    for (size, status) in SIZES {
        same(
            &rt,
            "the status",
            status_of_spaces(rt.alloc(), *size)?,
            *status,
        );
    }
    Ok(())
}

/// A command, the line of a failed read, and how often it calls the shelf.
struct Reading {
    words: &'static [&'static str],
    line: &'static str,
    calls: u64,
}

/// Each command, the line of a failed read, and its number of calls of the shelf: of an image its size, two
/// words, the EBDA's area, header and table; of a listing its size and its bytes.
const READING: &[Reading] = &[
    Reading {
        words: &["show", "image"],
        line: "mptab: cannot read image\n",
        calls: 6,
    },
    Reading {
        words: &["audit", "image"],
        line: "mptab: cannot read image\n",
        calls: 6,
    },
    Reading {
        words: &["canon", "image"],
        line: "mptab: cannot read image\n",
        calls: 6,
    },
    Reading {
        words: &["route", "image", "0000"],
        line: "mptab: cannot read image\n",
        calls: 6,
    },
    Reading {
        words: &["build", "list"],
        line: "mptab: cannot read list\n",
        calls: 2,
    },
];

/// A shelf with the usual board's listing.
fn shelf_of_listing(alloc: Global) -> Result<MemShelf, Fail> {
    let listing = usual_listing(alloc)?;
    shelf_of(alloc, "list", listing.as_slice())
}

/// The answer of a command over the usual board, where this call of the shelf fails.
fn with_failing_call(
    alloc: Global,
    words: &[&str],
    image: &[u8],
    failing: u64,
) -> Result<Answer, Fail> {
    let mut shelf = shelf_of_listing(alloc)?;
    shelf.add("image", image)?;
    shelf.fail(failing)?;
    answer_of(alloc, words, &mut shelf, 0)
}

/// Calls of the shelf fail one by one, until a run meets no failure; the number of calls.
fn failing_calls(alloc: Global, words: &[&str], image: &[u8], line: &str) -> Result<u64, Fail> {
    for call in 1..16 {
        let answer = with_failing_call(alloc, words, image, call)?;
        if answer.status < 2 {
            return Ok(call - 1);
        }
        if !answer.is(4, line.as_bytes()) {
            return Err("a failed call has another answer".into());
        }
    }
    Err("each run meets a failure".into())
}

#[test]
fn calls_of_the_shelf_by_command(rt: HostRuntime) -> Result<(), Fail> {
    let image = usual_image(rt.alloc())?;
    for reading in READING {
        let calls = failing_calls(rt.alloc(), reading.words, image.as_slice(), reading.line)?;
        same(&rt, reading.line, calls, reading.calls);
    }
    Ok(())
}

/// A command over the usual board, a put that fails, and how much was written before it; none where no put fails.
struct Putting {
    words: &'static [&'static str],
    failing: u64,
    written: Option<usize>,
}

/// The findings and the routes are one put, an image is 256.
const PUTTING: &[Putting] = &[
    Putting {
        words: &["audit", "image"],
        failing: 1,
        written: Some(0),
    },
    Putting {
        words: &["audit", "image"],
        failing: 2,
        written: None,
    },
    Putting {
        words: &["route", "image", "0000"],
        failing: 1,
        written: Some(0),
    },
    Putting {
        words: &["route", "image", "0000"],
        failing: 2,
        written: None,
    },
    Putting {
        words: &["canon", "image"],
        failing: 1,
        written: Some(0),
    },
    Putting {
        words: &["canon", "image"],
        failing: 2,
        written: Some(4096),
    },
    Putting {
        words: &["canon", "image"],
        failing: 256,
        written: Some(1_044_480),
    },
    Putting {
        words: &["canon", "image"],
        failing: 257,
        written: None,
    },
];

/// The answer of a command over the usual board, where this put fails; 0 is none.
fn with_failing_put(
    alloc: Global,
    words: &[&str],
    image: &[u8],
    failing: u64,
) -> Result<Answer, Fail> {
    answer_over(alloc, words, "image", image, failing)
}

/// Whether an answer is the whole one, or status 5 with its first bytes.
fn is_first_part(answer: &Answer, whole: &Answer, written: Option<usize>) -> bool {
    match written {
        None => answer.is(whole.status, whole.text.as_slice()),
        Some(most) => answer.is(5, whole.text.get(..most).unwrap_or(b"too short")),
    }
}

/// Whether a failing put is answered as its row says.
fn is_put(alloc: Global, putting: &Putting, image: &[u8]) -> Result<bool, Fail> {
    let whole = with_failing_put(alloc, putting.words, image, 0)?;
    let answer = with_failing_put(alloc, putting.words, image, putting.failing)?;
    Ok(is_first_part(&answer, &whole, putting.written))
}

#[test]
fn puts_of_the_sink_by_command(rt: HostRuntime) -> Result<(), Fail> {
    let image = usual_image(rt.alloc())?;
    for putting in PUTTING {
        let right = is_put(rt.alloc(), putting, image.as_slice())?;
        same(&rt, "a failing put", right, true);
    }
    Ok(())
}
