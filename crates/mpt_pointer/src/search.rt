//! The search for the floating pointer (MultiProcessor Specification 1.4, section 4.1). The rule of
//! the first area is this project's own (docs/PROFILE.md).

ghost use Rattle.std.specs.Prelude.{◌≡◌, Some, ℕ, IfSome, IfNone, ◌+◌, ◌<◌, ◌≤◌, ◌^◌, ◌↔◌, IsTrue, length, min, ◌%◌};
ghost use Rattle.std.specs.List.{flat_map};
ghost use Rattle.mpt_spec.specs.Search.{areas_of, word_at as search_word, places_in, search_places, IsFirst, HoldsAtNone, HasPointerAt, IsFirstPointerAt, HasNoPointer};

use crate::reading::pointer_at;
use arrayvec::ArrayVec;
use mpt_base::u16_at;
use mpt_spec::Area;

/// Where the BIOS data area holds the segment of the EBDA.
const EBDA_WORD: usize = 0x40E;

/// Where the BIOS data area holds the size of base memory, in KiB.
const BASE_WORD: usize = 0x413;

/// The offset of the first byte of the BIOS read-only memory.
const BIOS_START: u64 = 0xF_0000;

/// The offset after the last byte of the BIOS read-only memory.
const BIOS_END: u64 = 0x10_0000;

/// The bytes of a kilobyte.
const KILOBYTE: u64 = 1024;

/// The areas of the search (section 4.1), in order, each end cut at the image's size.
///
/// `ebda` is the segment of the EBDA and `base_kib` the size of base memory in KiB, each 0 where it
/// isn't told; `size` is the image's size in bytes. There is the first kilobyte of the EBDA, or else
/// the last kilobyte of base memory, and the BIOS read-only memory. An area that is empty after the
/// cut stays in the list.
pub fn areas(ebda: u16, base_kib: u16, size: u64) -> ArrayVec<Area, 2>
    ensures { result.items ≡ areas_of ebda base_kib size }
{
    let mut areas = ArrayVec::new();
    if ebda != 0 {
        let from = 16 * u64::from(ebda);
        areas.push(cut(from, from + KILOBYTE, size));
    } else if base_kib != 0 {
        let to = KILOBYTE * u64::from(base_kib);
        areas.push(cut(to - KILOBYTE, to, size));
    }
    areas.push(cut(BIOS_START, BIOS_END, size));
    areas
}

// the area with each end cut at the image's size
fn cut(from: u64, to: u64, size: u64) -> Area
    ensures { result ≡ record { from = min from size; to = min to size } }
{
    Area {
        from: from.min(size),
        to: to.min(size),
    }
}

// the word at a place, 0 where it isn't whole in the image
fn word_at(image: &[u8], at: usize) -> u16
    requires { at < 2 ^ 32 }
    ensures { result ≡ search_word image.now at }
{
    if at + 2 <= image.len() {
        u16_at(image, at)
    } else {
        0
    }
}

// whether a floating pointer stands at a place, which may lie behind the image
fn has_pointer_at(image: &[u8], at: u64) -> bool
    ensures { IsTrue result ↔ HasPointerAt image.now at }
{
    if at > image.len() as u64 {
        return false;
    }
    pointer_at(image, at as usize).is_some()
}

/// The first place of an area at which a floating pointer stands, and `None` exactly where there is
/// none. Places that lie behind the image have none.
pub fn find_in(image: &[u8], area: Area) -> Option<u64>
    ensures some { IfSome result (IsFirst (HasPointerAt image.now) (places_in area)) }
    ensures none { IfNone result (HoldsAtNone (HasPointerAt image.now) (places_in area)) }
    ensures paragraph { IfSome result (λ at. at % 16 ≡ 0) }
    ensures inside { IfSome result (λ at. at + 16 ≤ area.to) }
{
    for paragraph in area.from.div_ceil(16)..area.to / 16 {
        if has_pointer_at(image, 16 * paragraph) {
            return Some(16 * paragraph);
        }
    }
    None
}

// the first place of these areas, area after area
fn find_among(image: &[u8], areas: &[Area]) -> Option<u64>
    ensures some { IfSome result (IsFirst (HasPointerAt image.now) (flat_map places_in areas.now)) }
    ensures none { IfNone result
        (HoldsAtNone (HasPointerAt image.now) (flat_map places_in areas.now)) }
{
    for area in areas {
        if let Some(at) = find_in(image, *area) {
            return Some(at);
        }
    }
    None
}

// the areas of which the image's own words tell
#[tactic(auto, unfolding(mpt_spec::specs::Search::search_places))]
fn areas_of_image(image: &[u8]) -> ArrayVec<Area, 2>
    ensures { flat_map places_in result.items ≡ search_places image.now }
{
    let ebda = word_at(image, EBDA_WORD);
    let base_kib = word_at(image, BASE_WORD);
    areas(ebda, base_kib, image.len() as u64)
}

/// The offset in bytes of the first floating pointer of the search, and `None` exactly where the
/// search finds none (section 4.1). Floating pointers outside its areas are passed over, and so is
/// what has the signature alone.
pub fn find(image: &[u8]) -> Option<u64>
    ensures some { IfSome result (IsFirstPointerAt image.now) }
    ensures none { IfNone result (HasNoPointer image.now) }
    ensures inside { IfSome result (λ at. at + 16 ≤ length image.now) }
    // There is no other first place.
    ensures only { (at : ℕ) → IsFirstPointerAt image.now at → result ≡ Some at }
{
    find_among(image, areas_of_image(image).as_slice())
}
