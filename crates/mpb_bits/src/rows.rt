//! The set type over an array of words.

ghost use Rattle.std.specs.Prelude.{◌≡◌, ◌*◌, ◌<◌, ◌≤◌, [], length, not, IfSome};
ghost use Rattle.mpb_spec.specs.Numbers.{has, with_number, without, greatest};
ghost use Rattle.mpb_bits.specs.Sets.{united, IsSetBelow};

use crate::words::{count_in, has_in, put_in, take_in, top_in, unite_in};
use std::marker::Model;

/// A set of numbers below 64 times `N`, in `N` words. Contracts see the strictly ascending list of its
/// members.
#[derive(Drop)]
pub struct Rows<const N: usize> {
    words: [u64; N],
}

impl<const N: usize> Model for Rows<N> {
    ghost use Rattle.std.specs.Prelude.{List, ℕ, ◌≤◌};
    ghost use Rattle.mpb_bits.specs.Sets.{members};

    ghost Value = { List ℕ };

    ghost view = { λ a. members a.words };

    ghost invariant = { λ a. N ≤ 65536 };
}

impl<const N: usize> Rows<N> {
    /// The empty set. There are at most 65,536 words.
    pub fn none() -> Self
        requires { N ≤ 65536 }
        ensures empty { result ≡ [] }
    {
        Rows { words: [0; N] }
    }

    /// Whether the number, which is below 64 times `N`, is a member.
    pub fn has(&self, n: u32) -> bool
        requires { n < 64 * N }
        ensures member { result ≡ has n self.now }
    {
        has_in(&self.words, n)
    }

    /// Adds the number, which is below 64 times `N`, and answers whether it was absent.
    pub fn put(&mut self, n: u32) -> bool
        requires { n < 64 * N }
        ensures set { self.new ≡ with_number n self.old }
        ensures absent { result ≡ not (has n self.old) }
    {
        put_in(&mut self.words, n)
    }

    /// Removes the number, which is below 64 times `N`, and answers whether it was there.
    pub fn take(&mut self, n: u32) -> bool
        requires { n < 64 * N }
        ensures set { self.new ≡ without n self.old }
        ensures there { result ≡ has n self.old }
    {
        take_in(&mut self.words, n)
    }

    /// The greatest member, None exactly where the set is empty.
    pub fn top(&self) -> Option<u32>
        ensures greatest { result ≡ greatest self.now }
        ensures below { IfSome result (λ n. n < 64 * N) }
        ensures set { IsSetBelow (64 * N) self.now }
    {
        top_in(&self.words)
    }

    /// Adds the other set's members.
    pub fn union(&mut self, other: &Self)
        ensures set { self.new ≡ united self.old other.now }
    {
        unite_in(&mut self.words, &other.words);
    }

    /// How many members there are, at most 64 times `N`.
    pub fn count(&self) -> u32
        ensures count { result ≡ length self.now }
        ensures set { IsSetBelow (64 * N) self.now }
    {
        count_in(&self.words)
    }
}
