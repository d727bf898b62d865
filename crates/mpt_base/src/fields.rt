//! The reading and the writing of a layout, a list of fields with their kind and their offset: a byte,
//! a little-endian number of 16, 32 or 64 bits, or bytes.

/// The value whose fields a layout lists, read from `$bytes` at the place `$at`.
#[macro_export]
macro_rules! read_fields {
    ($bytes:ident, $at:ident, $entry:ident { $($field:ident: $kind:ident $offset:literal,)* }) => {
        $entry { $($field: $crate::read_field!($kind, $bytes, $at + $offset),)* }
    };
}

/// The field of a kind at a place of the bytes.
#[macro_export]
macro_rules! read_field {
    (byte, $bytes:ident, $at:expr) => { $bytes[$at] };
    (u16, $bytes:ident, $at:expr) => { $crate::u16_at($bytes, $at) };
    (u32, $bytes:ident, $at:expr) => { $crate::u32_at($bytes, $at) };
    (u64, $bytes:ident, $at:expr) => { $crate::u64_at($bytes, $at) };
    (bytes, $bytes:ident, $at:expr) => { $crate::bytes_at($bytes, $at) };
}

/// Puts the fields that a layout lists of `$value` into `$bytes`, from its first byte on.
#[macro_export]
macro_rules! put_fields {
    ($bytes:ident, $value:ident, $name:ident { $($field:ident: $kind:ident $offset:literal,)* }) => {
        $($crate::put_field!($kind, $bytes, $offset, $value.$field);)*
    };
}

/// Puts a field of a kind at an offset of the bytes.
#[macro_export]
macro_rules! put_field {
    (byte, $bytes:ident, $at:literal, $value:expr) => { $bytes[$at] = $value };
    (u16, $bytes:ident, $at:literal, $value:expr) => { $crate::put_u16(&mut $bytes, $at, $value) };
    (u32, $bytes:ident, $at:literal, $value:expr) => { $crate::put_u32(&mut $bytes, $at, $value) };
    (u64, $bytes:ident, $at:literal, $value:expr) => { $crate::put_u64(&mut $bytes, $at, $value) };
    (bytes, $bytes:ident, $at:literal, $value:expr) => { $crate::put_bytes(&mut $bytes, $at, &$value) };
}
