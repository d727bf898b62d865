//! The layouts of the entries (MultiProcessor Specification 1.4, sections 4.3 and 4.4), each once: the
//! fields with their kind and their offset from the entry's first byte. A layout hands its list, after
//! the caller's own arguments, to the macro that the caller names.

macro_rules! processor_layout {
    ($expand:ident, $($own:ident),*) => {
        $expand!($($own,)* Processor {
            apic: byte 1,
            version: byte 2,
            flags: byte 3,
            signature: u32 4,
            features: u32 8,
            reserved: bytes 12,
        })
    };
}

macro_rules! bus_layout {
    ($expand:ident, $($own:ident),*) => {
        $expand!($($own,)* Bus {
            id: byte 1,
            name: bytes 2,
        })
    };
}

macro_rules! io_apic_layout {
    ($expand:ident, $($own:ident),*) => {
        $expand!($($own,)* IoApic {
            id: byte 1,
            version: byte 2,
            flags: byte 3,
            address: u32 4,
        })
    };
}

macro_rules! interrupt_layout {
    ($expand:ident, $($own:ident),*) => {
        $expand!($($own,)* IntEntry {
            kind: byte 1,
            flags: u16 2,
            bus: byte 4,
            irq: byte 5,
            dest: byte 6,
            pin: byte 7,
        })
    };
}

macro_rules! space_layout {
    ($expand:ident, $($own:ident),*) => {
        $expand!($($own,)* Space {
            bus: byte 2,
            kind: byte 3,
            base: u64 4,
            length: u64 12,
        })
    };
}

macro_rules! hierarchy_layout {
    ($expand:ident, $($own:ident),*) => {
        $expand!($($own,)* Hierarchy {
            bus: byte 2,
            info: byte 3,
            parent: byte 4,
            reserved: bytes 5,
        })
    };
}

macro_rules! modifier_layout {
    ($expand:ident, $($own:ident),*) => {
        $expand!($($own,)* Modifier {
            bus: byte 2,
            flags: byte 3,
            ranges: u32 4,
        })
    };
}

pub(crate) use bus_layout;
pub(crate) use hierarchy_layout;
pub(crate) use interrupt_layout;
pub(crate) use io_apic_layout;
pub(crate) use modifier_layout;
pub(crate) use processor_layout;
pub(crate) use space_layout;
