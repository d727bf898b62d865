//! All places at which the floating pointer is looked for (MultiProcessor Specification 1.4,
//! section 4.1): a plain program beside the definition. It is kept slow on purpose, and does what the
//! definition says, in its order; a faster body keeps the contract.

ghost use Rattle.std.specs.Prelude.{◌≡◌, ◌++◌, ◌<◌, ◌^◌, IfOk, OnOk};
ghost use Rattle.std.specs.List.{flat_map};
ghost use Rattle.mpt_spec.specs.Search.{word_at as search_word, places_in, search_places};

use arrayvec::ArrayVec;
use mpt_base::{NoMemory, u16_at};
use mpt_pointer::{Area, areas};
use std::alloc::{AllocError, Global};

/// Where the BIOS data area holds the segment of the EBDA.
const EBDA_WORD: usize = 0x40E;

/// Where the BIOS data area holds the size of base memory, in KiB.
const BASE_WORD: usize = 0x413;

/// All places of the search, offsets in bytes, area after area. It fails only where memory runs out.
pub fn search_places(alloc: Global, image: &[u8]) -> Result<Vec<u64>, NoMemory>
    ensures { IfOk result (λ places. places.items ≡ search_places image.now) }
{
    let mut out = Vec::new(alloc);
    match push_all_places(&mut out, areas_of_image(image).as_slice()) {
        Ok(()) => Ok(out),
        Err(_) => Err(NoMemory),
    }
}

// the areas of which the image's own words tell
#[tactic(auto, unfolding(mpt_spec::specs::Search::search_places))]
fn areas_of_image(image: &[u8]) -> ArrayVec<Area, 2>
    ensures { flat_map places_in result.items ≡ search_places image.now }
{
    let ebda = word_at(image, EBDA_WORD);
    let base_kib = word_at(image, BASE_WORD);
    areas(ebda, base_kib, image.len() as u64)
}

// the word at a place, 0 where it isn't whole in the image
fn word_at(image: &[u8], at: usize) -> u16
    requires { at < 2 ^ 32 }
    ensures { result ≡ search_word image.now at }
{
    if at + 2 <= image.len() {
        u16_at(image, at)
    } else {
        0
    }
}

fn push_all_places(out: &mut Vec<u64>, areas: &[Area]) -> Result<(), AllocError>
    ensures { OnOk result (out.new.items ≡ out.old.items ++ flat_map places_in areas.now) }
{
    for area in areas {
        push_places(out, *area)?;
    }
    Ok(())
}

// the multiples of 16 in an area that have 16 bytes before its end
fn push_places(out: &mut Vec<u64>, area: Area) -> Result<(), AllocError>
    ensures { OnOk result (out.new.items ≡ out.old.items ++ places_in area) }
{
    for paragraph in area.from.div_ceil(16)..area.to / 16 {
        out.push(16 * paragraph)?;
    }
    Ok(())
}
