//! First places: of a number below 256, and of a key of three.

ghost use Rattle.std.specs.Prelude.{◌≡◌, ◌==◌, ◌<◌, ℕ, List, Option, Some, None, if◌then◌else◌, slice_index_or, IfOk, OnOk};
ghost use Rattle.std.specs.BTreeMap as tree;
ghost use Rattle.mpt_rules.specs.Places.{IsOther};
ghost use Rattle.mpt_rules.specs.Index.{place_before, alone, lacks, NotesId, NotesKey, key_cmp};

use std::alloc::{AllocError, Global};
use std::collections::BTreeMap;

/// A first place for each number.
pub type ByNumber = [Option<u32>; 256];

/// A first place for each key.
pub type ByKey = BTreeMap<(u8, u8, u8), u32>;

/// No place of any number.
pub fn no_places() -> ByNumber
    ensures { (q : ℕ) → slice_index_or result q None ≡ None }
{
    [None; 256]
}

/// Notes a place, if it is the first of its number.
pub fn note(firsts: &mut ByNumber, number: u8, place: u32)
    ensures { NotesId firsts.old firsts.new number place }
{
    if firsts[number as usize].is_none() {
        firsts[number as usize] = Some(place);
    }
}

/// Notes a place, if it is the first of its key.
pub fn note_key(firsts: &mut ByKey, key: (u8, u8, u8), place: u32) -> Result<(), AllocError>
    ensures { OnOk result (NotesKey (tree.get key_cmp firsts.old) (tree.get key_cmp firsts.new) key place) }
{
    if firsts.get(&key).is_none() {
        let Ok(_) = firsts.insert(key, place) else {
            return Err(AllocError);
        };
    }
    Ok(())
}

/// The first place of a number.
pub fn first_at(firsts: &ByNumber, number: u8) -> Option<u32>
    ensures { result ≡ slice_index_or firsts.now number None }
{
    firsts[number as usize]
}

/// The first place of a key.
pub fn first_of_key(firsts: &ByKey, key: (u8, u8, u8)) -> Option<u32>
    ensures { result ≡ tree.get key_cmp firsts.now key }
{
    firsts.get(&key).copied()
}

/// Whether a number has no place.
pub fn lacks(firsts: &ByNumber, number: u8) -> bool
    ensures { result ≡ lacks (slice_index_or firsts.now number None) }
{
    match first_at(firsts, number) {
        Some(_) => false,
        None => true,
    }
}

/// A first place, if it is before another.
pub fn place_before(first: Option<u32>, place: u32) -> Option<u32>
    ensures { result ≡ place_before first place }
{
    match first {
        Some(j) => { if j < place { Some(j) } else { None } }
        None => None,
    }
}

/// The other place of a rule that names none.
pub fn alone(breaks: bool) -> Option<u32>
    ensures { result ≡ alone breaks }
{
    if breaks { Some(65535) } else { None }
}
