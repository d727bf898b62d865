//! The search for the floating pointer over windows of a file, one an area.

ghost use Rattle.std.specs.Prelude.{◌≡◌, ◌≢◌, ℕ, ◌+◌, ◌-◌, ◌≤◌, ◌<◌, ◌^◌, ◌%◌, ◌⊎◌, length, Some, Err, IfOk, IfSome, IfNone, OnErr, OnOk};
ghost use Rattle.std.specs.List.{flat_map, AllByRecursion};
ghost use Rattle.mpt_base.specs.Bytes.{part};
ghost use Rattle.mpt_base.specs.Outside.{Rose, IsSizeTold};
ghost use Rattle.mpt_spec.specs.Pointer.{IsFloatingPointer};
ghost use Rattle.mpt_spec.specs.Search.{places_in, search_places, IsFirst, HoldsAtNone, HasPointerAt, IsFirstPointerAt, HasNoPointer};
ghost use Rattle.mpt_table.specs.Windows.{IfTold, IsAreaIn, area_bytes, IsPlaceIn, IsFoundAmong};

use crate::window::{WindowFailure, window, word_from};
use arrayvec::ArrayVec;
use mpt_base::{Failed, Shelf};
use mpt_pointer::{areas, find_in, pointer_at};
use mpt_spec::{Area, Pointer};
use std::alloc::Global;

/// Where the BIOS data area holds the segment of the EBDA.
const EBDA_WORD: u64 = 0x40E;

/// Where the BIOS data area holds the size of base memory, in KiB.
const BASE_WORD: u64 = 0x413;

/// A floating pointer and its place.
#[derive(Clone, Copy)]
pub(crate) struct Found {
    pub(crate) at: u64,
    pub(crate) pointer: Pointer,
}

// the areas of which the file's own words tell
fn areas_from<S: Shelf>(shelf: &mut S, name: &str, size: u64) -> Result<ArrayVec<Area, 2>, Failed>
    requires told { IsSizeTold (S.files shelf.old) name.now (Some size) }
    ensures files_stay { S.files shelf.new ≡ S.files shelf.old }
    ensures faults_never_fall { S.faults shelf.old ≤ S.faults shelf.new }
    ensures misses_stay { S.misses shelf.new ≡ S.misses shelf.old }
    ensures asks { S.asked shelf.new ≤ S.asked shelf.old + 4 }
    ensures unread { OnErr result (Rose (S.faults shelf.old) (S.faults shelf.new)) }
    ensures unfailed { OnOk result (S.faults shelf.new ≡ S.faults shelf.old) }
    ensures told { IfOk result (λ areas. IfTold (S.files shelf.old) name.now
        (λ image. flat_map places_in areas.items ≡ search_places image)) }
    ensures areas { IfOk result (λ areas. AllByRecursion (IsAreaIn size) areas.items) }
    ensures bytes { IfOk result (λ areas. area_bytes areas.items ≤ 66560) }
{
    let Ok(ebda) = word_from(shelf, name, size, EBDA_WORD) else {
        return Err(Failed);
    };
    let Ok(base_kib) = word_from(shelf, name, size, BASE_WORD) else {
        return Err(Failed);
    };
    Ok(areas(ebda, base_kib, size))
}

// the first floating pointer in a window that begins at a place, an area's start
fn first_in(bytes: &[u8], from: u64) -> Option<Found>
    requires low { from + length bytes.now < 2 ^ 31 }
    ensures some { IfSome result (λ f. (from ≤ f.at)
        × IsFirst (HasPointerAt bytes.now) (places_in (record { from = 0; to = length bytes.now })) (f.at - from)
        × IsFloatingPointer f.pointer (part bytes.now (f.at - from) 16)) }
    ensures none { IfNone result (HoldsAtNone (HasPointerAt bytes.now)
        (places_in (record { from = 0; to = length bytes.now }))) }
    ensures paragraph { from % 16 ≡ 0 → IfSome result (λ f. f.at % 16 ≡ 0) }
    ensures inside { IfSome result (λ f. f.at + 16 ≤ from + length bytes.now) }
{
    let area = Area {
        from: 0,
        to: bytes.len() as u64,
    };
    let Some(place) = find_in(bytes, area) else {
        return None;
    };
    let Some(pointer) = pointer_at(bytes, place as usize) else {
        unreachable!()
    };
    Some(Found {
        at: from + place,
        pointer,
    })
}

// the first floating pointer of an area
fn area_from<S: Shelf>(
    alloc: Global,
    shelf: &mut S,
    name: &str,
    size: u64,
    area: Area,
) -> Result<Option<Found>, WindowFailure>
    requires told { IsSizeTold (S.files shelf.old) name.now (Some size) }
    requires area { IsAreaIn size area }
    ensures files_stay { S.files shelf.new ≡ S.files shelf.old }
    ensures faults_never_fall { S.faults shelf.old ≤ S.faults shelf.new }
    ensures misses_stay { S.misses shelf.new ≡ S.misses shelf.old }
    ensures asks { S.asked shelf.new ≤ S.asked shelf.old + (area.to - area.from) }
    ensures unread { result ≡ Err WindowFailure.Unread
        → Rose (S.faults shelf.old) (S.faults shelf.new) }
    ensures unfailed { result ≢ Err WindowFailure.Unread → S.faults shelf.new ≡ S.faults shelf.old }
    ensures some { IfOk result (λ found. IfSome found (λ f.
        IsFoundAmong (S.files shelf.old) name.now (places_in area) f.at f.pointer)) }
    ensures none { IfOk result (λ found. IfNone found (IfTold (S.files shelf.old) name.now
        (λ image. HoldsAtNone (HasPointerAt image) (places_in area)))) }
    ensures place { IfOk result (λ found. IfSome found (λ f. IsPlaceIn size f.at)) }
{
    let len = (area.to - area.from) as usize;
    match window(alloc, shelf, name, area.from, len) {
        Ok(bytes) => Ok(first_in(&bytes, area.from)),
        Err(failure) => Err(failure),
    }
}

// the first floating pointer of these areas, area after area
fn among_from<S: Shelf>(
    alloc: Global,
    shelf: &mut S,
    name: &str,
    size: u64,
    areas: &[Area],
) -> Result<Option<Found>, WindowFailure>
    requires told { IsSizeTold (S.files shelf.old) name.now (Some size) }
    requires areas { AllByRecursion (IsAreaIn size) areas.now }
    ensures files_stay { S.files shelf.new ≡ S.files shelf.old }
    ensures faults_never_fall { S.faults shelf.old ≤ S.faults shelf.new }
    ensures misses_stay { S.misses shelf.new ≡ S.misses shelf.old }
    ensures asks { S.asked shelf.new ≤ S.asked shelf.old + area_bytes areas.now }
    ensures unread { result ≡ Err WindowFailure.Unread
        → Rose (S.faults shelf.old) (S.faults shelf.new) }
    ensures unfailed { result ≢ Err WindowFailure.Unread → S.faults shelf.new ≡ S.faults shelf.old }
    ensures some { IfOk result (λ found. IfSome found (λ f.
        IsFoundAmong (S.files shelf.old) name.now (flat_map places_in areas.now) f.at f.pointer)) }
    ensures none { IfOk result (λ found. IfNone found (IfTold (S.files shelf.old) name.now
        (λ image. HoldsAtNone (HasPointerAt image) (flat_map places_in areas.now)))) }
    ensures place { IfOk result (λ found. IfSome found (λ f. IsPlaceIn size f.at)) }
{
    for area in areas {
        match area_from(alloc, shelf, name, size, *area) {
            Ok(None) => {}
            Ok(Some(found)) => return Ok(Some(found)),
            Err(failure) => return Err(failure),
        }
    }
    Ok(None)
}

/// The first floating pointer of the search.
pub(crate) fn find_from<S: Shelf>(
    alloc: Global,
    shelf: &mut S,
    name: &str,
    size: u64,
) -> Result<Option<Found>, WindowFailure>
    requires told { IsSizeTold (S.files shelf.old) name.now (Some size) }
    ensures files_stay { S.files shelf.new ≡ S.files shelf.old }
    ensures faults_never_fall { S.faults shelf.old ≤ S.faults shelf.new }
    ensures misses_stay { S.misses shelf.new ≡ S.misses shelf.old }
    ensures asks { S.asked shelf.new ≤ S.asked shelf.old + 66564 }
    ensures unread { result ≡ Err WindowFailure.Unread
        → Rose (S.faults shelf.old) (S.faults shelf.new) }
    ensures unfailed { result ≢ Err WindowFailure.Unread → S.faults shelf.new ≡ S.faults shelf.old }
    ensures some { IfOk result (λ found. IfSome found (λ f. IfTold (S.files shelf.old) name.now
        (λ image. IsFirstPointerAt image f.at × IsFloatingPointer f.pointer (part image f.at 16)))) }
    ensures none { IfOk result (λ found. IfNone found (IfTold (S.files shelf.old) name.now HasNoPointer)) }
    ensures place { IfOk result (λ found. IfSome found (λ f. IsPlaceIn size f.at)) }
{
    match areas_from(shelf, name, size) {
        Ok(areas) => among_from(alloc, shelf, name, size, areas.as_slice()),
        Err(Failed) => Err(WindowFailure::Unread),
    }
}
