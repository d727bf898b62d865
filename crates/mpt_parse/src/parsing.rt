//! The whole listing, line by line.

ghost use Rattle.std.specs.Prelude.{◌≡◌, ◌≢◌, ℕ, ◌<◌, ◌≤◌, ◌+◌, ◌^◌, length, IfSome, IfNone, IfOk, IfErr};
ghost use Rattle.mpt_spec.specs.declared.tables.Body.TheVariants as body;
ghost use Rattle.mpt_spec.specs.declared.tables.Tables.{Tables as TablesOf};
ghost use Rattle.mpt_spec.specs.Table.{default_number};
ghost use Rattle.mpt_spec.specs.Canonical.{FitsInImage, block_size};
ghost use Rattle.mpt_spec.specs.Values.{IsBodyValue};
ghost use Rattle.mpt_line.specs.Lines.{reserved_of, old_of, table_with};
ghost use Rattle.mpt_parse.specs.declared.fault.LineWhy.{LineWhy as WhyOf};
ghost use Rattle.mpt_parse.specs.Listings.{end_line, HasRightBody, IsListing, IsListingOf, IsFirstBadLine, IsCauseOf, AnswersTables, AnswersUnfit, AnswersLine};
ghost use Rattle.mpt_parse.specs.Languages.{IsUnfinished, IsFaultBehind, IsEnd, IsRightTable, AreTableLines, AreBodyLines, behind_text};

use crate::entries::{read_base_lines, read_ext_part};
use crate::fault::{LineWhy, ListingFault};
use mpt_line::{HeaderEnd, HeaderLine, read_header_line, read_pointer_line, read_text};
use mpt_spec::{Base, Body, Ext, Pointer, Sequence, Table, Tables};
use mpt_write::{block_bytes, fits};
use std::alloc::Global;

/// The tables of which a text of fewer than 2^32 bytes is the listing, if they fit into an image of
/// 1 MiB.
///
/// Else the answer is the first bad line, counted from 1, or, where all lines are right, that the tables
/// don't fit, with the bytes of their block. Memory is taken for entries and for the bytes of opaque
/// ones; where it runs out, that is the answer.
pub fn parse(alloc: Global, text: &[u8]) -> Result<Tables, ListingFault>
    requires { length text.now < 2 ^ 32 }
    // Each answer has its cause,
    ensures tables { IfOk result (λ t. IsListingOf t text.now) }
    ensures fits { IfOk result FitsInImage }
    ensures refused { IfErr result (IsCauseOf text.now) }
    // and comes where it is right, unless memory runs out.
    ensures only_tables { (t : TablesOf) → IsListingOf t text.now → FitsInImage t
        → AnswersTables result t }
    ensures only_unfit { (t : TablesOf) → IsListingOf t text.now → ¬ FitsInImage t
        → AnswersUnfit result (block_size t.body) }
    ensures only_line { (n : ℕ) (why : WhyOf) → IsFirstBadLine IsListing text.now n why
        → AnswersLine result n why }
{
    fitting_tables(alloc, text)
}

// The answer, with its cause.
fn fitting_tables(alloc: Global, text: &[u8]) -> Result<Tables, ListingFault>
    requires { length text.now < 2 ^ 32 }
    ensures tables { IfOk result (λ t. IsListingOf t text.now) }
    ensures fits { IfOk result FitsInImage }
    ensures refused { IfErr result (IsCauseOf text.now) }
{
    match read_tables(alloc, text) {
        Ok(tables) => {
            if fits(&tables) {
                Ok(tables)
            } else {
                Err(ListingFault::DoesNotFit {
                    bytes: block_bytes(&tables),
                })
            }
        }
        Err(fault) => Err(fault),
    }
}

// The tables of which the text is the listing, whether they fit or not.
fn read_tables(alloc: Global, text: &[u8]) -> Result<Tables, ListingFault>
    requires { length text.now < 2 ^ 32 }
    ensures tables { IfOk result (λ t. IsListingOf t text.now) }
    ensures fault { IfErr result (IsFaultBehind IsListing 0 text.now) }
{
    let Some(behind) = read_text(text, b"mptable 1\n") else {
        return Err(unfinished(0, text));
    };
    let Some((line, rest)) = read_pointer_line(behind) else {
        return Err(unfinished(1, behind));
    };
    match read_body(alloc, &line.pointer, rest) {
        Ok(body) => Ok(Tables {
            at: line.at,
            pointer: line.pointer,
            body,
        }),
        Err(fault) => Err(fault),
    }
}

// The body whose lines stand behind that of the floating pointer.
fn read_body(alloc: Global, pointer: &Pointer, text: &[u8]) -> Result<Body, ListingFault>
    requires size { length text.now + 10 < 2 ^ 32 }
    requires low { default_number pointer.now ≤ 7 }
    requires address { default_number pointer.now ≡ 0 → pointer.now.address ≢ 0 }
    ensures value { IfOk result IsBodyValue }
    ensures right { IfOk result (λ b. HasRightBody b pointer.now) }
    ensures whole { IfOk result (λ b. text.now ≡ behind_text b) }
    ensures fault { IfErr result (IsFaultBehind (AreBodyLines pointer.now) 2 text.now) }
{
    let number = pointer.features[0];
    if number == 0 {
        return match read_table(alloc, text) {
            Ok(table) => Ok(Body::Listed(table)),
            Err(fault) => Err(fault),
        };
    }
    match end_fault(2, text) {
        Some(fault) => Err(fault),
        None => Ok(Body::Default(number)),
    }
}

// The table whose lines stand behind that of the floating pointer.
fn read_table(alloc: Global, text: &[u8]) -> Result<Table, ListingFault>
    requires { length text.now + 10 < 2 ^ 32 }
    ensures right { IfOk result IsRightTable }
    ensures whole { IfOk result (λ t. text.now ≡ behind_text (body.Listed t)) }
    ensures fault { IfErr result (IsFaultBehind AreTableLines 2 text.now) }
{
    let Some((header, rest)) = read_header_line(text) else {
        return Err(unfinished(2, text));
    };
    let Ok((base, rest)) = read_base_lines(alloc, rest) else {
        return Err(ListingFault::NoMemory);
    };
    let Ok((ext, rest)) = read_ext_part(alloc, &header, rest) else {
        return Err(ListingFault::NoMemory);
    };
    match end_fault((3 + base.len() + ext.len()) as u32, rest) {
        Some(fault) => Err(fault),
        None => Ok(table_with(&header, base, ext)),
    }
}

fn table_with(header: &HeaderLine, base: Vec<Base>, ext: Vec<Ext>) -> Table
    ensures { result ≡ table_with header.now base.items ext.items }
{
    let (reserved, old) = bytes_of(&header.end);
    Table {
        revision: header.revision,
        oem: header.oem,
        product: header.product,
        oem_table: header.oem_table,
        oem_size: header.oem_size,
        local_address: header.local_address,
        reserved,
        old,
        base: Sequence::new(base),
        ext: Sequence::new(ext),
    }
}

// The reserved byte and the bytes 40 to 43 that the last field of the header says
fn bytes_of(end: &HeaderEnd) -> (u8, [u8; 4])
    ensures reserved { result.0 ≡ reserved_of end.now }
    ensures old { result.1 ≡ old_of end.now }
{
    match *end {
        HeaderEnd::Reserved(byte) => (byte, [0; 4]),
        HeaderEnd::Old(bytes) => (0, bytes),
    }
}

// The fault behind so many valid lines, if what follows isn't the last line alone.
fn end_fault(before: u32, rest: &[u8]) -> Option<ListingFault>
    requires { before + 2 < 2 ^ 32 }
    ensures none { IfNone result (rest.now ≡ end_line) }
    ensures some { IfSome result (IsFaultBehind IsEnd before rest.now) }
{
    match read_text(rest, b"end\n") {
        None => Some(unfinished(before, rest)),
        Some(rest) if rest.is_empty() => None,
        Some(_) => Some(ListingFault::Line {
            line: before + 2,
            why: LineWhy::Late,
        }),
    }
}

// The fault behind so many valid lines, where no valid line follows and one is needed.
fn unfinished(before: u32, rest: &[u8]) -> ListingFault
    requires { before + 2 < 2 ^ 32 }
    ensures { IsUnfinished before rest.now result }
{
    let why = if rest.is_empty() {
        LineWhy::Early
    } else {
        LineWhy::Form
    };
    ListingFault::Line {
        line: before + 1,
        why,
    }
}
