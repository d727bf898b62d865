//! The lines of entries, one after another.

ghost use Rattle.std.specs.Prelude.{IfOk};
ghost use Rattle.mpt_spec.specs.Values.{IsBaseValue};
ghost use Rattle.mpt_listing.specs.Listing.{base_line, ext_line};
ghost use Rattle.mpt_line.specs.Lines.{IsRightExt};
ghost use Rattle.mpt_parse.specs.Languages.{MayFollow, AreFirstLines};

use mpt_line::{HeaderLine, read_base_line, read_ext_line};
use mpt_spec::{Base, Ext, OLD_REVISION};
use std::alloc::{AllocError, Global};

/// The base entries whose lines begin the text, as many as there are, and what follows them.
pub(crate) fn read_base_lines(alloc: Global, text: &[u8]) -> Result<(Vec<Base>, &[u8]), AllocError>
    ensures { IfOk result (λ x. AreFirstLines base_line IsBaseValue x.0.items text.now x.1.now) }
{
    let mut entries = Vec::new(alloc);
    let mut rest = text;
    while let Some((entry, after)) = read_base_line(rest) {
        let Ok(()) = entries.push(entry) else {
            return Err(AllocError);
        };
        rest = after;
    }
    Ok((entries, rest))
}

// The extended entries whose lines begin the text, as many as there are, and what follows them
fn read_ext_lines(alloc: Global, text: &[u8]) -> Result<(Vec<Ext>, &[u8]), AllocError>
    ensures { IfOk result (λ x. AreFirstLines ext_line IsRightExt x.0.items text.now x.1.now) }
{
    let mut entries = Vec::new(alloc);
    let mut rest = text;
    loop {
        let Ok(line) = read_ext_line(alloc, rest) else {
            return Err(AllocError);
        };
        let Some((entry, after)) = line else {
            return Ok((entries, rest));
        };
        let Ok(()) = entries.push(entry) else {
            return Err(AllocError);
        };
        rest = after;
    }
}

/// The extended entries that may follow the header and whose lines begin the text, as many as there are,
/// and what follows them. None may follow a header of revision 1.
pub(crate) fn read_ext_part<'a>(
    alloc: Global,
    header: &HeaderLine,
    text: &'a [u8],
) -> Result<(Vec<Ext>, &'a [u8]), AllocError>
    ensures { IfOk result (λ x. AreFirstLines ext_line (MayFollow header.now) x.0.items text.now x.1.now) }
{
    if header.revision == OLD_REVISION {
        return Ok((Vec::new(alloc), text));
    }
    read_ext_lines(alloc, text)
}
