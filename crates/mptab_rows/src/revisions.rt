//! Tables of revision 1.1: shown, raised, in canonical form, audited and built, and a revision that is
//! neither.

use crate::harness::{
    Answer, answers, are_shown, built, image_with, is_shown_after, of_image, same,
};
use mptab_cases::images::{POINTER, Piece, Row};
use std::alloc::Global;
use std::process::Abort;
use std::test::Fail;

/// The length of an image.
const SIZE: usize = 0x100000;

/// The table of the board with one processor.
const AT: Piece = Piece::Table(0xF0010);

/// Its pointer with revision 1.
const OLD_POINTER: Piece = Piece::Bytes(0xF0000, 16, 0x5F4D505F_10000F00_01018400_00000000);

/// Its listing, and those with revision 1 in pointer and table.
const BOARD: &str = "mptable 1
pointer at 000F0000 table 000F0010 revision 04 features 0000000000
header revision 04 oem \"MPTAB   \" product \"BOARD       \" oemtable 00000000 oemsize 0000 local FEE00000 reserved 00
processor id 00 version 10 flags 03 signature 00000520 features 000001BF reserved 0000000000000000
end
";

const OLD_BOARD: &str = "mptable 1
pointer at 000F0000 table 000F0010 revision 01 features 0000000000
header revision 01 oem \"MPTAB   \" product \"BOARD       \" oemtable 00000000 oemsize 0000 local FEE00000 old 11223344
processor id 00 version 10 flags 03 signature 00000520 features 000001BF reserved 0000000000000000
end
";

const OLD_CANONICAL: &str = "mptable 1
pointer at 000F0000 table 000F0010 revision 01 features 0000000000
header revision 01 oem \"MPTAB   \" product \"BOARD       \" oemtable 00000000 oemsize 0000 local FEE00000 old 00000000
processor id 00 version 10 flags 03 signature 00000520 features 000001BF reserved 0000000000000000
end
";

const ROWS: &[Row] = &[
    Row {
        name: "pointer and table of revision 1",
        size: SIZE,
        pieces: &[
            OLD_POINTER,
            AT,
            Piece::Bytes(0xF0016, 2, 0x01F2),
            Piece::Bytes(0xF0038, 4, 0x11223344),
        ],
        status: 0,
        text: OLD_BOARD,
    },
    Row {
        name: "a table of revision 1 whose bytes 40 and 41 would pass the image as a length",
        size: SIZE,
        pieces: &[
            POINTER,
            AT,
            Piece::Bytes(0xF0016, 2, 0x01A0),
            Piece::Bytes(0xF0038, 4, 0xFFFFFFFF),
        ],
        status: 0,
        text: "mptable 1
pointer at 000F0000 table 000F0010 revision 04 features 0000000000
header revision 01 oem \"MPTAB   \" product \"BOARD       \" oemtable 00000000 oemsize 0000 local FEE00000 old FFFFFFFF
processor id 00 version 10 flags 03 signature 00000520 features 000001BF reserved 0000000000000000
end
",
    },
    Row {
        name: "a table of revision 1 with a wrong checksum",
        size: SIZE,
        pieces: &[OLD_POINTER, AT, Piece::Bytes(0xF0016, 1, 0x01)],
        status: 7,
        text: "mptab: fault 8 BadSum at 000F0017\n",
    },
    Row {
        name: "a table of revision 2",
        size: SIZE,
        pieces: &[POINTER, AT, Piece::Bytes(0xF0016, 2, 0x029B)],
        status: 7,
        text: "mptab: fault 1 BadRevision at 000F0016\n",
    },
];

#[test]
fn old_tables_are_shown(rt: HostRuntime) -> Result<(), Fail> {
    are_shown(&rt, rt.alloc(), ROWS)
}

/// The image of the board with revision 1 in pointer and table.
fn old_image(alloc: Global) -> Result<Vec<u8>, Fail> {
    image_with(
        alloc,
        SIZE,
        &[
            OLD_POINTER,
            AT,
            Piece::Bytes(0xF0016, 2, 0x01F2),
            Piece::Bytes(0xF0038, 4, 0x11223344),
        ],
    )
}

/// What these words answer to that image.
fn old_image_after(alloc: Global, words: &[&str]) -> Result<Answer, Fail> {
    let image = old_image(alloc)?;
    of_image(alloc, words, image.as_slice())
}

/// Asserts that an image is the board's with revision 4, and raised already.
fn is_raised(rt: &impl Abort, alloc: Global, image: &[u8]) -> Result<(), Fail> {
    let shown = answers(alloc, &["show", "image"], image, 0, BOARD.as_bytes())?;
    same(rt, "the listing", shown, true);
    let again = answers(alloc, &["raise", "image"], image, 0, image)?;
    same(rt, "raised again", again, true);
    Ok(())
}

#[test]
fn old_tables_are_raised(rt: HostRuntime) -> Result<(), Fail> {
    let raised = old_image_after(rt.alloc(), &["raise", "image"])?;
    is_raised(&rt, rt.alloc(), raised.text.as_slice())
}

#[test]
fn old_tables_have_a_canonical_form(rt: HostRuntime) -> Result<(), Fail> {
    let image = old_image(rt.alloc())?;
    let canon = &["canon", "image"];
    let right = is_shown_after(rt.alloc(), canon, image.as_slice(), OLD_CANONICAL)?;
    same(&rt, "the canonical form", right, true);
    Ok(())
}

#[test]
fn two_revisions_are_a_finding(rt: HostRuntime) -> Result<(), Fail> {
    let image = image_with(rt.alloc(), SIZE, &[OLD_POINTER, AT])?;
    let want = "rule 8 entry - other -\nrule 20 entry - other -\nfindings 2\n";
    let audit = &["audit", "image"];
    let right = answers(rt.alloc(), audit, image.as_slice(), 1, want.as_bytes())?;
    same(&rt, "the findings", right, true);
    Ok(())
}

/// Whether `show` answers by a listing to the image that is built of it.
fn is_built_and_shown(alloc: Global, listing: &[u8]) -> Result<bool, Fail> {
    let image = built(alloc, listing)?;
    answers(alloc, &["show", "image"], image.text.as_slice(), 0, listing)
}

/// The listing of revision 1.
fn old_board() -> &'static [u8] {
    OLD_BOARD.as_bytes()
}

/// The listing of revision 1 with an extended entry.
fn listing_with_an_extended_entry(alloc: Global) -> Result<Vec<u8>, Fail> {
    let mut text = Vec::from_slice(alloc, old_board())?;
    let before_end = text.len().saturating_sub(4);
    text.truncate(before_end);
    text.extend_from_slice(b"opaque kind C8 rest -\nend\n")?;
    Ok(text)
}

#[test]
fn old_listings_are_built(rt: HostRuntime) -> Result<(), Fail> {
    let shown = is_built_and_shown(rt.alloc(), old_board())?;
    same(&rt, "the listing", shown, true);
    let text = listing_with_an_extended_entry(rt.alloc())?;
    let refused = built(rt.alloc(), text.as_slice())?.is(8, b"mptab: listing line 5 Form\n");
    same(&rt, "an extended entry", refused, true);
    Ok(())
}
