//! The lines of the floating pointer and of the table's header, each read from the left.

ghost use Rattle.std.specs.Prelude.{◌≡◌, IfSome, IfNone, codes};
ghost use Rattle.mpt_line.specs.Reading.{Gives, field_in, both, ended};
ghost use Rattle.mpt_line.specs.Forms.{pointer_in, end_in, header_in, is_right_pointer, is_right_header};
ghost use Rattle.mpt_line.specs.Lines.{IsRightPointer, pointer_text, IsRightHeader, header_text, BeginsWith, BeginsWithNone};

use crate::byte_fields::{read_bytes_field, read_quoted_field};
use crate::fields::{read_end, read_field, read_u8_field, read_u16_field, read_u32_field};
use crate::heads::{HeaderEnd, HeaderLine, PointerLine};
use mpt_spec::{OLD_REVISION, Pointer, REVISION, is_known_revision};

/// The floating pointer and its place whose line begins the text, and what follows that line; `None`
/// exactly where the text begins with no such line.
pub fn read_pointer_line(text: &[u8]) -> Option<(PointerLine, &[u8])>
    ensures some { IfSome result (λ x.
        BeginsWith pointer_text IsRightPointer text.now x.0 x.1.now) }
    ensures none { IfNone result (BeginsWithNone pointer_text IsRightPointer text.now) }
{
    read_pointer(text)
}

/// The header whose line begins the text, and what follows that line; `None` exactly where the text
/// begins with no such line.
pub fn read_header_line(text: &[u8]) -> Option<(HeaderLine, &[u8])>
    ensures some { IfSome result (λ x.
        BeginsWith header_text IsRightHeader text.now x.0 x.1.now) }
    ensures none { IfNone result (BeginsWithNone header_text IsRightHeader text.now) }
{
    read_header(text)
}

#[tactic(auto, unfolding(crate::specs::Forms::pointer_in))]
fn read_pointer(line: &[u8]) -> Option<(PointerLine, &[u8])>
    ensures { Gives (λ x. (x.0, x.1.now)) result (pointer_in line.now) }
{
    let Some((at, rest)) = read_field(line, b"pointer at ", 8) else {
        return None;
    };
    let Some((address, rest)) = read_u32_field(rest, b" table ") else {
        return None;
    };
    let Some((revision, rest)) = read_u8_field(rest, b" revision ") else {
        return None;
    };
    let mut features = [0; 5];
    let Some(rest) = read_bytes_field(&mut features, rest, b" features ") else {
        return None;
    };
    let Some(rest) = read_end(rest) else {
        return None;
    };
    let pointer = Pointer {
        address,
        revision,
        features,
    };
    let found = PointerLine { at, pointer };
    if is_right(&found) {
        Some((found, rest))
    } else {
        None
    }
}

// Whether the values of the line are right.
fn is_right(line: &PointerLine) -> bool
    ensures { result ≡ is_right_pointer line.now }
{
    let pointer = &line.pointer;
    let number = pointer.features[0];
    is_known_revision(pointer.revision) && number <= 7 && !(number == 0 && pointer.address == 0)
}

#[tactic(auto, unfolding(crate::specs::Forms::header_in))]
fn read_header(line: &[u8]) -> Option<(HeaderLine, &[u8])>
    ensures { Gives (λ x. (x.0, x.1.now)) result (header_in line.now) }
{
    let Some((revision, rest)) = read_u8_field(line, b"header revision ") else {
        return None;
    };
    let mut oem = [0; 8];
    let Some(rest) = read_quoted_field(&mut oem, rest, b" oem ") else {
        return None;
    };
    let mut product = [0; 12];
    let Some(rest) = read_quoted_field(&mut product, rest, b" product ") else {
        return None;
    };
    let Some(((oem_table, oem_size, local_address, end), rest)) = read_numbers(rest) else {
        return None;
    };
    let header = HeaderLine {
        revision,
        oem,
        product,
        oem_table,
        oem_size,
        local_address,
        end,
    };
    if has_end_of_revision(&header) {
        Some((header, rest))
    } else {
        None
    }
}

// Whether the last field is that of the revision.
fn has_end_of_revision(header: &HeaderLine) -> bool
    ensures { result ≡ is_right_header header.now }
{
    match header.end {
        HeaderEnd::Reserved(_) => header.revision == REVISION,
        HeaderEnd::Old(_) => header.revision == OLD_REVISION,
    }
}

// What ends the header's line: the address and the size of the OEM table, the address of the local APICs
// and the last field.
fn read_numbers(line: &[u8]) -> Option<((u32, u16, u32, HeaderEnd), &[u8])>
    ensures { Gives (λ x. ((x.0.0, (x.0.1, (x.0.2, x.0.3))), x.1.now)) result
        (both (field_in (codes " oemtable ") 8) (both (field_in (codes " oemsize ") 4)
        (both (field_in (codes " local ") 8) (ended end_in))) line.now) }
{
    let Some((oem_table, rest)) = read_u32_field(line, b" oemtable ") else {
        return None;
    };
    let Some((oem_size, rest)) = read_u16_field(rest, b" oemsize ") else {
        return None;
    };
    let Some((local_address, rest)) = read_u32_field(rest, b" local ") else {
        return None;
    };
    let Some((end, rest)) = read_header_end(rest) else {
        return None;
    };
    let Some(rest) = read_end(rest) else {
        return None;
    };
    Some(((oem_table, oem_size, local_address, end), rest))
}

// The last field of the header's line: bytes 40 to 43, or the reserved byte.
#[tactic(auto, unfolding(crate::specs::Forms::end_in))]
fn read_header_end(line: &[u8]) -> Option<(HeaderEnd, &[u8])>
    ensures { Gives (λ x. (x.0, x.1.now)) result (end_in line.now) }
{
    let mut old = [0; 4];
    if let Some(rest) = read_bytes_field(&mut old, line, b" old ") {
        return Some((HeaderEnd::Old(old), rest));
    }
    let Some((reserved, rest)) = read_u8_field(line, b" reserved ") else {
        return None;
    };
    Some((HeaderEnd::Reserved(reserved), rest))
}
