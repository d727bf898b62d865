//! Revisions that aren't read, and faults of a table of revision 1.

use crate::harness::same;
use crate::revision_images::{POINTER_1, POINTER_4, TABLE_1, TABLE_4};
use crate::revisions::{image_of, put};
use mpt_base::{Fault, Reason};
use mpt_table::{Refusal, read};
use std::alloc::Global;
use std::process::Abort;

/// A byte of a table of revision 1 or 4 that is another, so that the table is refused.
struct Row {
    name: &'static str,
    table: &'static [u8],
    /// The place of the byte in the image, and what is there.
    byte: (usize, u8),
    /// The checksum that makes the sum zero again.
    checksum: u8,
    fault: Fault,
}

const ROWS: &[Row] = &[
    Row {
        name: "revision 0",
        table: &TABLE_1,
        byte: (0x516, 0),
        checksum: 0xF3,
        fault: Fault {
            at: 0x516,
            why: Reason::BadRevision,
        },
    },
    Row {
        name: "revision 2",
        table: &TABLE_1,
        byte: (0x516, 2),
        checksum: 0xF1,
        fault: Fault {
            at: 0x516,
            why: Reason::BadRevision,
        },
    },
    Row {
        name: "revision 3",
        table: &TABLE_4,
        byte: (0x516, 3),
        checksum: 0x40,
        fault: Fault {
            at: 0x516,
            why: Reason::BadRevision,
        },
    },
    Row {
        name: "revision 5",
        table: &TABLE_4,
        byte: (0x516, 5),
        checksum: 0x3E,
        fault: Fault {
            at: 0x516,
            why: Reason::BadRevision,
        },
    },
    Row {
        name: "the bytes 40 to 43 of revision 1 at revision 4",
        table: &TABLE_1,
        byte: (0x516, 4),
        checksum: 0xEF,
        fault: Fault {
            at: 0x538,
            why: Reason::ExtOutside,
        },
    },
    Row {
        name: "an extended checksum that is wrong",
        table: &TABLE_4,
        byte: (0x53A, 1),
        checksum: 0x3E,
        fault: Fault {
            at: 0x53A,
            why: Reason::BadExtSum,
        },
    },
    Row {
        name: "a byte of bytes 40 to 43 is in the checksum of revision 1",
        table: &TABLE_1,
        byte: (0x539, 0x23),
        checksum: 0xF2,
        fault: Fault {
            at: 0x517,
            why: Reason::BadSum,
        },
    },
    Row {
        name: "an entry count of 2 at revision 1",
        table: &TABLE_1,
        byte: (0x532, 2),
        checksum: 0xF1,
        fault: Fault {
            at: 0x532,
            why: Reason::BadCount,
        },
    },
];

// the image of a row
fn image_with(rt: &impl Abort, alloc: Global, row: &Row) -> Vec<u8> {
    let mut image = image_of(rt, alloc, &POINTER_1, row.table);
    let bytes = image.as_mut_slice();
    put(bytes, row.byte.0, &[row.byte.1]);
    put(bytes, 0x517, &[row.checksum]);
    image
}

// the fault of an image, none where it has none
fn fault_of(alloc: Global, image: &[u8]) -> Option<Fault> {
    match read(alloc, image) {
        Err(Refusal::Fault(fault)) => Some(fault),
        _ => None,
    }
}

#[test]
fn faults_of_tables(rt: HostRuntime) {
    for row in ROWS {
        let image = image_with(&rt, rt.alloc(), row);
        let fault = fault_of(rt.alloc(), image.as_slice());
        same(&rt, row.name, fault, Some(row.fault));
    }
}

#[test]
fn a_pointer_of_revision_2_is_refused(rt: HostRuntime) {
    let mut image = image_of(&rt, rt.alloc(), &POINTER_4, &TABLE_1);
    put(image.as_mut_slice(), 0x509, &[2, 0x8D]);
    let fault = fault_of(rt.alloc(), image.as_slice());
    let want = Fault {
        at: 0x509,
        why: Reason::BadRevision,
    };
    same(&rt, "revision 2", fault, Some(want));
}
