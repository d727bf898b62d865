//! What every theme stands on: images made of pieces, and the answer of the top call to them.

use mpt_base::{MemShelf, MemSink};
use mptab_calls::run_still;
use mptab_cases::images::{Piece, Row};
use std::alloc::Global;
use std::fmt::Debug;
use std::process::Abort;
use std::test::Fail;

/// The name under which an image lies on the shelf.
pub(crate) const NAME: &str = "board.img";

/// The room of a sink: an image of 1 MiB and more.
pub(crate) const ROOM: usize = 0x180000;

/// The table of the board with one processor: 64 bytes, whose sum is 0.
const TABLE: &[u8] = b"PCMP\x40\x00\x04\x99MPTAB   BOARD       \
\x00\x00\x00\x00\x00\x00\x01\x00\x00\x00\xE0\xFE\x00\x00\x00\x00\
\x00\x00\x10\x03\x20\x05\x00\x00\xBF\x01\x00\x00\x00\x00\x00\x00\x00\x00\x00\x00";

/// A status, and what was written.
#[derive(Drop)]
pub(crate) struct Answer {
    pub(crate) status: u8,
    pub(crate) text: Vec<u8>,
}

impl Answer {
    /// This status, with what the sink holds.
    pub(crate) fn with(alloc: Global, status: u8, sink: &MemSink) -> Result<Answer, Fail> {
        let text = Vec::from_slice(alloc, sink.bytes())?;
        Ok(Answer { status, text })
    }

    /// Whether it is this status with this text.
    pub(crate) fn is(&self, status: u8, text: &[u8]) -> bool {
        self.status == status && self.text.as_slice() == text
    }

    /// Whether it is this status with this text; where the text is no whole report, with a whole report that
    /// begins with it.
    pub(crate) fn reports(&self, status: u8, text: &[u8]) -> bool {
        let written = self.text.as_slice();
        if self.status != status {
            false
        } else if text.starts_with(b"mpboot 1\n") && !text.ends_with(b"\nend\n") {
            written.starts_with(text) && written.ends_with(b"\nend\n")
        } else {
            written == text
        }
    }

    /// Whether it is this status with a text that ends like this.
    pub(crate) fn ends(&self, status: u8, text: &[u8]) -> bool {
        self.status == status && self.text.as_slice().ends_with(text)
    }
}

/// Asserts that two values are the same, at one place for every row.
pub(crate) fn same<T: PartialEq + Debug + Drop>(rt: &impl Abort, name: &str, got: T, want: T) {
    assert_eq!(rt; (name, got), (name, want));
}

/// The image of these pieces.
pub(crate) fn image_with(alloc: Global, size: usize, pieces: &[Piece]) -> Result<Vec<u8>, Fail> {
    let mut image = vec![in alloc; 0; size]?;
    for piece in pieces {
        put_piece(&mut image, piece);
    }
    Ok(image)
}

/// Writes a piece.
fn put_piece(image: &mut [u8], piece: &Piece) {
    match piece {
        Piece::Table(at) => put(image, *at, TABLE),
        Piece::Bytes(at, count, number) => put_number(image, *at, *count, *number),
    }
}

/// Writes the lowest bytes of a number at a place, so many of them, the highest first.
fn put_number(image: &mut [u8], at: usize, count: usize, number: u128) {
    let bytes = number.to_be_bytes();
    if let Some(last) = bytes.get(bytes.len().saturating_sub(count)..) {
        put(image, at, last);
    }
}

/// Writes bytes at a place. Where they pass the end, those that do are left out.
pub(crate) fn put(image: &mut [u8], at: usize, bytes: &[u8]) {
    let from = at.min(image.len());
    let count = bytes.len().min(image.len() - from);
    image[from..from + count].copy_from_slice(&bytes[..count]);
}

/// A shelf with this one file.
pub(crate) fn shelf_of(alloc: Global, name: &str, bytes: &[u8]) -> Result<MemShelf, Fail> {
    let mut shelf = MemShelf::new(alloc);
    shelf.add(name, bytes)?;
    Ok(shelf)
}

/// A shelf with this one image, of which the call of this number fails; 0 is none.
pub(crate) fn shelf_with(alloc: Global, image: &[u8], failing: u64) -> Result<MemShelf, Fail> {
    let mut shelf = shelf_of(alloc, NAME, image)?;
    shelf.fail(failing)?;
    Ok(shelf)
}

/// The text of these parts.
pub(crate) fn text_of(alloc: Global, parts: &[&str]) -> Result<Vec<u8>, Fail> {
    let mut text = Vec::new(alloc);
    for part in parts {
        text.extend_from_slice(part.as_bytes())?;
    }
    Ok(text)
}

/// These words, as the top call takes them.
pub(crate) fn words_of(alloc: Global, words: &[&str]) -> Result<Vec<String>, Fail> {
    let mut owned = Vec::new(alloc);
    for word in words {
        owned.push(String::from_str(alloc, word)?)?;
    }
    Ok(owned)
}

/// A sink whose put of this number fails; 0 is none.
pub(crate) fn sink_of(alloc: Global, failing: u64) -> Result<MemSink, Fail> {
    let mut sink = MemSink::new(alloc, ROOM)?;
    sink.fail(failing)?;
    Ok(sink)
}

/// The answer to these words. The put of this number fails; 0 is none.
pub(crate) fn answer_of(
    alloc: Global,
    words: &[&str],
    shelf: &mut MemShelf,
    failing: u64,
) -> Result<Answer, Fail> {
    let owned = words_of(alloc, words)?;
    let mut sink = sink_of(alloc, failing)?;
    let status = run_still(alloc, owned.as_slice(), shelf, &mut sink);
    Answer::with(alloc, status, &sink)
}

/// The same where one file is there, of this name and with these bytes.
pub(crate) fn answer_over(
    alloc: Global,
    words: &[&str],
    name: &str,
    bytes: &[u8],
    failing: u64,
) -> Result<Answer, Fail> {
    let mut shelf = shelf_of(alloc, name, bytes)?;
    answer_of(alloc, words, &mut shelf, failing)
}

/// What `build` answers to a listing.
pub(crate) fn built(alloc: Global, listing: &[u8]) -> Result<Answer, Fail> {
    answer_over(alloc, &["build", "list"], "list", listing, 0)
}

/// The image of a listing.
pub(crate) fn image_of_listing(alloc: Global, listing: &[u8]) -> Result<Vec<u8>, Fail> {
    let image = built(alloc, listing)?;
    if image.status != 0 {
        return Err("the tables of a row aren't built".into());
    }
    Ok(image.text)
}

/// The image of the listing of these parts.
pub(crate) fn image_of(alloc: Global, listing: &[&str]) -> Result<Vec<u8>, Fail> {
    let text = text_of(alloc, listing)?;
    image_of_listing(alloc, text.as_slice())
}

/// What `build` answers to the listing of these parts.
pub(crate) fn built_of(alloc: Global, listing: &[&str]) -> Result<Answer, Fail> {
    let text = text_of(alloc, listing)?;
    built(alloc, text.as_slice())
}

/// What these words answer, where this image is there.
pub(crate) fn of_image(alloc: Global, words: &[&str], image: &[u8]) -> Result<Answer, Fail> {
    answer_over(alloc, words, "image", image, 0)
}

/// Whether these words are answered by this status with this text, where this image is there.
pub(crate) fn answers(
    alloc: Global,
    words: &[&str],
    image: &[u8],
    status: u8,
    text: &[u8],
) -> Result<bool, Fail> {
    let answer = of_image(alloc, words, image)?;
    Ok(answer.is(status, text))
}

/// Whether `show` answers by this text to the image that these words make of an image.
pub(crate) fn is_shown_after(
    alloc: Global,
    words: &[&str],
    image: &[u8],
    text: &str,
) -> Result<bool, Fail> {
    let made = of_image(alloc, words, image)?;
    answers(
        alloc,
        &["show", "image"],
        made.text.as_slice(),
        0,
        text.as_bytes(),
    )
}

/// The answer of `show` to an image, where no call fails.
pub(crate) fn shown(alloc: Global, image: &[u8]) -> Result<Answer, Fail> {
    answer_over(alloc, &["show", NAME], NAME, image, 0)
}

/// Whether `show` answers as the row says.
fn is_answered(alloc: Global, row: &Row) -> Result<bool, Fail> {
    let image = image_with(alloc, row.size, row.pieces)?;
    let answer = shown(alloc, image.as_slice())?;
    Ok(answer.is(row.status, row.text.as_bytes()))
}

/// The name of the first row that has another answer.
fn first_wrong(alloc: Global, rows: &[Row]) -> Result<Option<&'static str>, Fail> {
    for row in rows {
        if !is_answered(alloc, row)? {
            return Ok(Some(row.name));
        }
    }
    Ok(None)
}

/// Asserts that `show` answers each row as it says.
pub(crate) fn are_shown(rt: &impl Abort, alloc: Global, rows: &[Row]) -> Result<(), Fail> {
    let wrong = first_wrong(alloc, rows)?;
    same(rt, "the first wrong row", wrong, None);
    Ok(())
}
