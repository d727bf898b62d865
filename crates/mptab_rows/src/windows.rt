//! Images read by windows: what is asked of them, and tables at the ends of what is searched.

use crate::harness::{Answer, NAME, answer_of, image_with, same, shelf_with};
use mpt_base::MemShelf;
use mptab_cases::images::{POINTER, Piece};
use std::alloc::Global;
use std::test::Fail;

/// The listing of the board with one processor at F0000h.
const LISTING: &str = "mptable 1
pointer at 000F0000 table 000F0010 revision 04 features 0000000000
header revision 04 oem \"MPTAB   \" product \"BOARD       \" oemtable 00000000 oemsize 0000 local FEE00000 reserved 00
processor id 00 version 10 flags 03 signature 00000520 features 000001BF reserved 0000000000000000
end
";

/// A shelf with an image of these pieces.
fn shelf_of_pieces(alloc: Global, size: usize, pieces: &[Piece]) -> Result<MemShelf, Fail> {
    let image = image_with(alloc, size, pieces)?;
    shelf_with(alloc, image.as_slice(), 0)
}

/// What `show` answers to an image of these pieces, and how many bytes are asked for.
fn shown(alloc: Global, size: usize, pieces: &[Piece]) -> Result<(Answer, u64), Fail> {
    let mut shelf = shelf_of_pieces(alloc, size, pieces)?;
    let answer = answer_of(alloc, &["show", NAME], &mut shelf, 0)?;
    Ok((answer, shelf.asked_bytes()))
}

/// The board with one processor, its table directly after its pointer.
const BOARD: &[Piece] = &[POINTER, Piece::Table(0xF0010)];

/// The largest image, zero but for the board.
#[test]
fn largest_image(rt: HostRuntime) -> Result<(), Fail> {
    let (answer, asked) = shown(rt.alloc(), 16_777_216, BOARD)?;
    assert!(rt; answer.is(0, LISTING.as_bytes()));
    assert!(rt; asked <= 197_694);
    Ok(())
}

/// The pointer at F0000h names FFFFC0h, 64 bytes before the end of the largest image.
const AT_THE_END: &[Piece] = &[
    Piece::Bytes(0xF0000, 16, 0x5F4D505F_C0FFFF00_0104E200_00000000),
    Piece::Table(0xFF_FFC0),
];

/// The table ends with the largest image.
#[test]
fn table_at_the_end_of_the_largest_image(rt: HostRuntime) -> Result<(), Fail> {
    let (answer, _) = shown(rt.alloc(), 16_777_216, AT_THE_END)?;
    assert!(rt;
        answer.text.as_slice().starts_with(
            b"mptable 1\npointer at 000F0000 table 00FFFFC0 revision 04"
        )
    );
    same(&rt, "the status", answer.status, 0);
    Ok(())
}

/// Pointer and table in the area of an EBDA that starts at 10h.
const IN_THE_EBDA: &[Piece] = &[
    Piece::Bytes(0x40E, 2, 0x0100),
    Piece::Bytes(0x10, 16, 0x5F4D505F_20000000_01048000_00000000),
    Piece::Table(0x20),
];

/// Windows overlap: pointer and table lie in the area of the EBDA, in an image of 1,104 bytes, and more
/// bytes are asked for than the file has.
#[test]
fn windows_that_overlap(rt: HostRuntime) -> Result<(), Fail> {
    let (answer, asked) = shown(rt.alloc(), 1104, IN_THE_EBDA)?;
    same(&rt, "the status", answer.status, 0);
    same(&rt, "the bytes asked for", asked, 4 + 1024 + 44 + 64);
    Ok(())
}
