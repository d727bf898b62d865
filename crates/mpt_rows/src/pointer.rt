//! A floating pointer spelled out by hand from MultiProcessor Specification 1.4, figure 4-2, and the
//! search for it.

use crate::harness::{put, same};
use mpt_pointer::{Area, Pointer, areas, find, read_pointer};
use std::alloc::Global;
use std::process::Abort;

/// A floating pointer that names a table at F0010h.
const BYTES: [u8; 16] = [
    0x5F, 0x4D, 0x50, 0x5F, 0x10, 0x00, 0x0F, 0x00, 0x01, 0x04, 0x81, 0x00, 0x00, 0x00, 0x00, 0x00,
];

/// An image of zeros.
pub(crate) fn zeros(rt: &impl Abort, alloc: Global, len: usize) -> Vec<u8> {
    Vec::from_elem(alloc, 0, len).expect(rt, "out of memory")
}

#[test]
fn reads_a_floating_pointer(rt: HostRuntime) {
    let expected = Pointer {
        address: 0x000F_0010,
        revision: 4,
        features: [0; 5],
    };
    same(&rt, "the pointer", read_pointer(&BYTES), Some(expected));
}

#[test]
fn refuses_a_wrong_signature_length_or_checksum(rt: HostRuntime) {
    for (at, byte) in [(0, 0x2D), (8, 0x02), (9, 0x05), (10, 0x80)] {
        let mut bytes = BYTES;
        bytes[at] = byte;
        same(
            &rt,
            "the place of another byte",
            (at, read_pointer(&bytes)),
            (at, None),
        );
    }
}

// the areas for a segment of the EBDA, a size of the base memory in KiB and a size of the image
fn same_areas(rt: &impl Abort, ebda: u16, base_kib: u16, size: u64, want: &[Area]) {
    let found = areas(ebda, base_kib, size);
    same(rt, "the areas", found.as_slice(), want);
}

#[test]
fn looks_in_one_area_beside_the_bios(rt: HostRuntime) {
    let kilobyte = Area {
        from: 0x9_FC00,
        to: 0xA_0000,
    };
    let bios = Area {
        from: 0xF_0000,
        to: 0x10_0000,
    };
    let end = Area {
        from: 1000,
        to: 1000,
    };
    same_areas(&rt, 0x9FC0, 0, 0x10_0000, &[kilobyte, bios]);
    same_areas(&rt, 0, 0x280, 0x10_0000, &[kilobyte, bios]);
    same_areas(&rt, 0, 0, 1000, &[end]);
}

// what is found in an image of zeros while pointers are put there
fn first_is_found(rt: &impl Abort, image: &mut [u8]) {
    put(image, 0x40E, &[0x50]);
    same(rt, "no pointer", find(image), None);
    put(image, 0x508, &BYTES);
    same(rt, "none at a multiple of 16", find(image), None);
    put(image, 0x520, &BYTES);
    put(image, 0x540, &BYTES);
    same(rt, "the first of two", find(image), Some(0x520));
    put(image, 0x52A, &[0x80]);
    same(rt, "the first is wrong", find(image), Some(0x540));
}

// The EBDA is at 500h. A pointer whose checksum is wrong is passed over, and none is found between the
// multiples of 16.
#[test]
fn finds_the_first_of_the_search(rt: HostRuntime) {
    let mut image = zeros(&rt, rt.alloc(), 1360);
    first_is_found(&rt, image.as_mut_slice());
}
