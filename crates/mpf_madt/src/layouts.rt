//! The layouts of the entries (ACPI Specification, section 5.2.12), each once: the fields with their kind
//! and their offset from the first byte. A layout hands its list, after the caller's own arguments, to
//! the macro that the caller names. The caller names the fields too, since it has them apart from one
//! another.

macro_rules! local_layout {
    ($expand:ident, $($own:ident),*; $uid:ident, $apic:ident, $flags:ident) => {
        $expand!($($own,)* Local {
            $uid: byte 2,
            $apic: byte 3,
            $flags: u32 4,
        })
    };
}

macro_rules! io_layout {
    ($expand:ident, $($own:ident),*; $id:ident, $reserved:ident, $address:ident, $base:ident) => {
        $expand!($($own,)* Io {
            $id: byte 2,
            $reserved: byte 3,
            $address: u32 4,
            $base: u32 8,
        })
    };
}

macro_rules! override_layout {
    ($expand:ident, $($own:ident),*; $bus:ident, $source:ident, $gsi:ident, $flags:ident) => {
        $expand!($($own,)* Override {
            $bus: byte 2,
            $source: byte 3,
            $gsi: u32 4,
            $flags: u16 8,
        })
    };
}

macro_rules! nmi_layout {
    ($expand:ident, $($own:ident),*; $uid:ident, $flags:ident, $lint:ident) => {
        $expand!($($own,)* Nmi {
            $uid: byte 2,
            $flags: u16 3,
            $lint: byte 5,
        })
    };
}

// an entry whose fields are read from `$bytes` at the place `$at`
macro_rules! read_entry {
    ($bytes:ident, $at:ident, $variant:ident { $($field:ident: $kind:ident $offset:literal,)* }) => {
        MadtEntry::$variant { $($field: mpt_base::read_field!($kind, $bytes, $at + $offset),)* }
    };
}

// puts an entry's fields into `$bytes`, from its first byte on
macro_rules! put_entry {
    ($bytes:ident, $variant:ident { $($field:ident: $kind:ident $offset:literal,)* }) => {
        $(mpt_base::put_field!($kind, $bytes, $offset, $field);)*
    };
}

pub(crate) use io_layout;
pub(crate) use local_layout;
pub(crate) use nmi_layout;
pub(crate) use override_layout;
pub(crate) use put_entry;
pub(crate) use read_entry;
