//! Rows of firmware's tables and of the pair of 8259A: words over the image of a listing, with a script and a file
//! beside it.

use crate::firmware_usual::SCRIPT;
use crate::harness::{Answer, answer_of, image_of, same};
use mpt_base::MemShelf;
use std::alloc::Global;
use std::process::Abort;
use std::test::Fail;

/// Words, the file that lies beside the image and the script, and the answer.
pub(crate) struct Row {
    /// Why the answer is what it is.
    pub(crate) name: &'static str,
    pub(crate) words: &'static [&'static str],
    /// The bytes of the file `file`.
    pub(crate) file: &'static [u8],
    pub(crate) status: u8,
    pub(crate) text: &'static [u8],
}

/// Puts an image, a script without words and a file on a shelf.
fn add_files(shelf: &mut MemShelf, image: &[u8], file: &[u8]) -> Result<(), Fail> {
    shelf.add("image", image)?;
    shelf.add("script", SCRIPT)?;
    shelf.add("file", file)?;
    Ok(())
}

/// A shelf with this image, a script without words, and this file.
fn shelf_beside(alloc: Global, image: &[u8], file: &[u8]) -> Result<MemShelf, Fail> {
    let mut shelf = MemShelf::new(alloc);
    add_files(&mut shelf, image, file)?;
    Ok(shelf)
}

/// The answer to these words over this image, where this file lies beside it, and where the call of the shelf with
/// this number fails and the put with that; 0 is none.
pub(crate) fn answer_beside(
    alloc: Global,
    words: &[&str],
    image: &[u8],
    file: &[u8],
    call: u64,
    put: u64,
) -> Result<Answer, Fail> {
    let mut shelf = shelf_beside(alloc, image, file)?;
    shelf.fail(call)?;
    answer_of(alloc, words, &mut shelf, put)
}

/// Whether the row's words are answered as it says over this image.
fn is_answered(alloc: Global, image: &[u8], row: &Row) -> Result<bool, Fail> {
    let answer = answer_beside(alloc, row.words, image, row.file, 0, 0)?;
    Ok(answer.is(row.status, row.text))
}

/// The name of the first row whose words have another answer over the image of this listing.
fn first_wrong(
    alloc: Global,
    listing: &[&str],
    rows: &[Row],
) -> Result<Option<&'static str>, Fail> {
    let image = image_of(alloc, listing)?;
    for row in rows {
        if !is_answered(alloc, image.as_slice(), row)? {
            return Ok(Some(row.name));
        }
    }
    Ok(None)
}

/// Asserts that each row's words are answered as it says over the image of this listing.
pub(crate) fn are_answered(
    rt: &impl Abort,
    alloc: Global,
    name: &str,
    listing: &[&str],
    rows: &[Row],
) -> Result<(), Fail> {
    let wrong = first_wrong(alloc, listing, rows)?;
    same(rt, name, wrong, None);
    Ok(())
}
