//! Sets of numbers in 0, 1, 2, 4 and 1,024 words.

ghost use Rattle.std.specs.Prelude.{◌*◌, ◌<◌, ◌≤◌};

use crate::harness::same;
use mpb_bits::Rows;
use std::process::Abort;

// The greatest member and the count of a set.
fn sized<const N: usize>(rt: &impl Abort, name: &str, set: &Rows<N>, top: Option<u32>, count: u32) {
    same(rt, name, (set.top(), set.count()), (top, count));
}

// Whether a number is a member.
fn member<const N: usize>(rt: &impl Abort, set: &Rows<N>, n: u32, want: bool)
    requires { n < 64 * N }
{
    same(rt, "a member", (n, set.has(n)), (n, want));
}

#[test]
fn two_numbers_in_two_words(rt: HostRuntime) {
    let mut set = Rows::<2>::none();
    same(&rt, "the top of none", set.top(), None);
    same(&rt, "put 127", set.put(127), true);
    same(&rt, "put 64", set.put(64), true);
    sized(&rt, "both", &set, Some(127), 2);
    same(&rt, "put 64 again", set.put(64), false);
    same(&rt, "take 127", set.take(127), true);
    sized(&rt, "one", &set, Some(64), 1);
    member(&rt, &set, 64, true);
    member(&rt, &set, 127, false);
}

// One number, added to the empty set of N words and removed again.
fn alone<const N: usize>(rt: &impl Abort, n: u32)
    requires words { N ≤ 65536 }
    requires inside { n < 64 * N }
{
    let mut set = Rows::<N>::none();
    member(rt, &set, n, false);
    same(rt, "nothing to take", (n, set.take(n)), (n, false));
    same(rt, "put", (n, set.put(n)), (n, true));
    same(rt, "put again", (n, set.put(n)), (n, false));
    member(rt, &set, n, true);
    sized(rt, "alone", &set, Some(n), 1);
    same(rt, "take", (n, set.take(n)), (n, true));
    member(rt, &set, n, false);
    sized(rt, "empty", &set, None, 0);
}

#[test]
fn each_end_of_words_and_sets(rt: HostRuntime) {
    alone::<1>(&rt, 0);
    alone::<1>(&rt, 63);
    alone::<4>(&rt, 0);
    alone::<4>(&rt, 63);
    alone::<4>(&rt, 64);
    alone::<4>(&rt, 255);
    alone::<1024>(&rt, 0);
    alone::<1024>(&rt, 63);
    alone::<1024>(&rt, 64);
    alone::<1024>(&rt, 65535);
    sized(&rt, "no words", &Rows::<0>::none(), None, 0);
}

#[test]
fn every_number_of_four_words(rt: HostRuntime) {
    let mut set = Rows::<4>::none();
    for n in 0..256u32 {
        same(&rt, "put", (n, set.put(n)), (n, true));
        sized(&rt, "so far", &set, Some(n), n + 1);
    }
    for n in 0..255u32 {
        same(&rt, "take", (n, set.take(n)), (n, true));
        sized(&rt, "left", &set, Some(255), 255 - n);
    }
}

#[test]
fn unions_of_disjoint_and_overlapping_sets(rt: HostRuntime) {
    let mut set = Rows::<2>::none();
    let mut other = Rows::<2>::none();
    set.union(&other);
    same(&rt, "none and none", set.count(), 0);
    set.put(0);
    set.put(64);
    other.put(63);
    other.put(127);
    set.union(&other);
    sized(&rt, "disjoint", &set, Some(127), 4);
    member(&rt, &set, 0, true);
    member(&rt, &set, 63, true);
    member(&rt, &set, 64, true);
    member(&rt, &set, 127, true);
    member(&rt, &set, 1, false);
    member(&rt, &set, 65, false);
    other.put(64);
    other.put(100);
    set.union(&other);
    same(&rt, "overlapping", set.count(), 5);
    member(&rt, &set, 100, true);
    same(&rt, "the other", other.count(), 4);
    member(&rt, &other, 0, false);
}
