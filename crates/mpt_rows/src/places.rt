//! Worked cases: places of the search (MultiProcessor Specification 1.4, section 4.1).

use crate::harness::{put, same};
use crate::pointer::zeros;
use crate::search_places;
use std::alloc::Global;
use std::process::Abort;

// The EBDA is at 500h, and the image ends in it.
#[test]
fn lists_the_places_of_a_short_image(rt: HostRuntime) {
    let mut image = zeros(&rt, rt.alloc(), 1360);
    put(image.as_mut_slice(), 0x40E, &[0x50]);
    let places = places_of(&rt, rt.alloc(), image.as_slice());
    let want = [0x500, 0x510, 0x520, 0x530, 0x540];
    same(&rt, "the places", places.as_slice(), want.as_slice());
}

fn places_of(rt: &impl Abort, alloc: Global, image: &[u8]) -> Vec<u64> {
    search_places(alloc, image).expect(rt, "out of memory")
}

#[test]
fn lists_the_places_of_the_bios(rt: HostRuntime) {
    let image = zeros(&rt, rt.alloc(), 0x10_0000);
    let places = places_of(&rt, rt.alloc(), image.as_slice());
    same_bios(&rt, places.as_slice());
}

// how many places the BIOS has, and the first and the last of them
fn same_bios(rt: &impl Abort, found: &[u64]) {
    same(rt, "how many places", found.len(), 4096);
    let first = found.first().copied();
    same(rt, "the first place", first, Some(0xF_0000));
    let last = found.last().copied();
    same(rt, "the last place", last, Some(0xF_FFF0));
}
