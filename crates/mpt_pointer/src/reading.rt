//! The sixteen bytes of a floating pointer (MultiProcessor Specification 1.4, section 4.1).

ghost use Rattle.std.specs.Prelude.{IfSome, IfNone, ◌≤◌, length};
ghost use Rattle.mpt_base.specs.Bytes.{part};
ghost use Rattle.mpt_spec.specs.declared.pointer.Pointer.{Pointer as FloatingPointer};
ghost use Rattle.mpt_spec.specs.Pointer.{IsFloatingPointer};

use crate::layout::{LENGTH_AT, PARAGRAPHS, SIGNATURE, pointer_layout};
use mpt_base::{read_fields, sum8};
use mpt_spec::Pointer;

/// The floating pointer that the bytes are (figure 4-2), and `None` exactly where they are none: the
/// signature, the length byte or the checksum isn't right. Any revision is taken.
pub fn read_pointer(bytes: &[u8; 16]) -> Option<Pointer>
    ensures some { IfSome result (λ p. IsFloatingPointer p bytes.now) }
    ensures none { IfNone result ((p : FloatingPointer) → ¬ IsFloatingPointer p bytes.now) }
{
    if &bytes[..4] != SIGNATURE.as_slice() || bytes[LENGTH_AT] != PARAGRAPHS || sum8(bytes) != 0 {
        return None;
    }
    let at = 0;
    Some(pointer_layout!(read_fields, bytes, at))
}

/// The floating pointer at a place of an image, an offset in bytes, and `None` exactly where none
/// stands there. Any place will do, not only a multiple of 16.
pub fn pointer_at(image: &[u8], at: usize) -> Option<Pointer>
    requires { at ≤ length image.now }
    ensures some { IfSome result (λ p. IsFloatingPointer p (part image.now at 16)) }
    ensures none { IfNone result
        ((p : FloatingPointer) → ¬ IsFloatingPointer p (part image.now at 16)) }
{
    let (_, rest) = image.split_at(at);
    match rest.first_chunk::<16>() {
        Some(bytes) => read_pointer(bytes),
        None => None,
    }
}
