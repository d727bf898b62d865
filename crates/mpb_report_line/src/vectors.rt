//! Lists of vectors, each read from the left.

ghost use Rattle.std.specs.Prelude.{◌≡◌, ◌++◌, IfOk, [], codes};
ghost use Rattle.mpt_line.specs.Reading.{Gives, hex_in, field_in, both, seen_as};
ghost use Rattle.mpb_report_line.specs.Reading.{run_of, items_in, ascends, ascends_behind};
ghost use Rattle.mpb_report_line.specs.Forms.{no_vectors_in, vectors_in, cons_of};

use mpt_line::{read_byte, read_part, read_u8_field};
use mpt_spec::Sequence;
use std::alloc::{AllocError, Global};

/// Vectors, strictly ascending, and then a text. They are put into an empty list, which holds any where
/// none are read.
#[tactic(auto, unfolding(crate::specs::Forms::vectors_in))]
pub(crate) fn read_vectors<'a>(
    vectors: &mut Vec<u8>,
    line: &'a [u8],
    stop: &[u8],
) -> Result<Option<&'a [u8]>, AllocError>
    requires { vectors.old.items ≡ [] }
    ensures { IfOk result (λ o. Gives (λ rest. (vectors.new.items, rest.now)) o (vectors_in stop.now line.now)) }
{
    if let Some(rest) = read_none(line, stop) {
        return Ok(Some(rest));
    }
    match read_some(vectors, line, stop) {
        Ok(Some(rest)) if ascend(vectors.as_slice()) => Ok(Some(rest)),
        Ok(_) => Ok(None),
        Err(error) => Err(error),
    }
}

#[tactic(auto, unfolding(crate::specs::Forms::no_vectors_in))]
fn read_none<'a>(line: &'a [u8], stop: &[u8]) -> Option<&'a [u8]>
    ensures { Gives (λ rest. ([], rest.now)) result (no_vectors_in stop.now line.now) }
{
    let Some(rest) = read_part(line, b"-") else {
        return None;
    };
    read_part(rest, stop)
}

// one vector or more
fn read_some<'a>(
    vectors: &mut Vec<u8>,
    line: &'a [u8],
    stop: &[u8],
) -> Result<Option<&'a [u8]>, AllocError>
    requires { vectors.old.items ≡ [] }
    ensures { IfOk result (λ o. Gives (λ rest. (vectors.new.items, rest.now)) o
        (seen_as cons_of (both (hex_in 2) (items_in (field_in (codes ",") 2) 255 stop.now)) line.now)) }
{
    let Some((first, rest)) = read_byte(line) else {
        return Ok(None);
    };
    let Ok(()) = vectors.push(first) else {
        return Err(AllocError);
    };
    match push_run(vectors, rest) {
        Ok(rest) => Ok(read_part(rest, stop)),
        Err(error) => Err(error),
    }
}

// pushes as many vectors as there are, each after a comma, at most 255
fn push_run<'a>(vectors: &mut Vec<u8>, line: &'a [u8]) -> Result<&'a [u8], AllocError>
    ensures vectors { IfOk result (λ rest. vectors.new.items ≡ vectors.old.items ++ (run_of (field_in (codes ",") 2) 255 line.now).0) }
    ensures rest { IfOk result (λ rest. rest.now ≡ (run_of (field_in (codes ",") 2) 255 line.now).1) }
{
    let mut rest = line;
    for _i in 0..255usize {
        let Some((vector, after)) = read_u8_field(rest, b",") else {
            return Ok(rest);
        };
        let Ok(()) = vectors.push(vector) else {
            return Err(AllocError);
        };
        rest = after;
    }
    Ok(rest)
}

// whether each is greater than the one before
fn ascend(vectors: &[u8]) -> bool
    ensures { result ≡ ascends vectors.now }
{
    match vectors {
        [] => true,
        [first, rest @ ..] => ascend_behind(*first, rest),
    }
}

fn ascend_behind(first: u8, vectors: &[u8]) -> bool
    ensures { result ≡ ascends_behind first vectors.now }
{
    let mut last = first;
    for vector in vectors {
        if *vector <= last {
            return false;
        }
        last = *vector;
    }
    true
}
