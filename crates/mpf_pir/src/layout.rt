//! The layouts of the table's header and of a slot (PCI IRQ Routing Table Specification 1.0), each
//! once: the fields with their kind and their offset. A field with four offsets has a value for each of
//! the pins INTA# to INTD#. A layout hands its list, after the caller's own arguments, to the macro that
//! the caller names. Signature, version, size and checksum are no fields.

/// The first four bytes of a table.
pub(crate) const SIGNATURE: [u8; 4] = *b"$PIR";

/// The offset of the version.
pub(crate) const VERSION_AT: usize = 4;

/// The bytes of version 1.0, the minor number first.
pub(crate) const VERSION: [u8; 2] = [0, 1];

/// The offset of the size.
pub(crate) const SIZE_AT: usize = 6;

/// The offset of the checksum, the header's last byte.
pub(crate) const CHECKSUM_AT: usize = 31;

/// The bytes of the header.
pub(crate) const HEADER_SIZE: usize = 32;

/// The bytes of a slot.
pub(crate) const SLOT_SIZE: usize = 16;

macro_rules! header_layout {
    ($expand:ident, $($own:ident),*) => {
        $expand!($($own,)* Pir {
            router_bus: byte 8,
            router_function: byte 9,
            exclusive: u16 10,
            compatible: u32 12,
            miniport: u32 16,
            reserved: bytes 20,
        })
    };
}

macro_rules! slot_layout {
    ($expand:ident, $($own:ident),*) => {
        $expand!($($own,)* Slot {
            bus: byte 0,
            device: byte 1,
            links: byte 2 5 8 11,
            irqs: u16 3 6 9 12,
            number: byte 14,
            reserved: byte 15,
        })
    };
}

// The table with these slots whose header's fields a layout lists, read from `$bytes`.
macro_rules! read_header {
    ($bytes:ident, $slots:ident, $table:ident { $($field:ident: $kind:ident $offset:literal,)* }) => {
        $table {
            $($field: read_field!($kind, $bytes, $offset),)*
            slots: Sequence::new($slots),
        }
    };
}

// The value whose fields a layout lists, read from `$bytes` at the place `$at`.
macro_rules! read_slot {
    ($bytes:ident, $at:ident, $slot:ident { $($field:ident: $kind:ident $($offset:literal)+,)* }) => {
        $slot { $($field: read_pins!($kind, $bytes, $at, $($offset)+),)* }
    };
}

macro_rules! read_pins {
    ($kind:ident, $bytes:ident, $at:ident, $offset:literal) => {
        read_field!($kind, $bytes, $at + $offset)
    };
    ($kind:ident, $bytes:ident, $at:ident, $($offset:literal)+) => {
        [$(read_field!($kind, $bytes, $at + $offset)),+]
    };
}

// Puts the fields that a layout lists of `$value` into `$bytes`, from its first byte on.
macro_rules! put_slot {
    ($bytes:ident, $value:ident, $slot:ident { $($field:ident: $kind:ident $($offset:literal)+,)* }) => {
        $(put_pins!($kind, $bytes, $value.$field, $($offset)+);)*
    };
}

macro_rules! put_pins {
    ($kind:ident, $bytes:ident, $value:expr, $offset:literal) => {
        put_field!($kind, $bytes, $offset, $value)
    };
    ($kind:ident, $bytes:ident, $value:expr, $a:literal $b:literal $c:literal $d:literal) => {
        put_field!($kind, $bytes, $a, $value[0]);
        put_field!($kind, $bytes, $b, $value[1]);
        put_field!($kind, $bytes, $c, $value[2]);
        put_field!($kind, $bytes, $d, $value[3])
    };
}

pub(crate) use header_layout;
pub(crate) use put_pins;
pub(crate) use put_slot;
pub(crate) use read_header;
pub(crate) use read_pins;
pub(crate) use read_slot;
pub(crate) use slot_layout;
