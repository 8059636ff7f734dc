//! Checksums of byte strings, and lists of them: the same strings have the same checksum.
#![tactic(auto)]

ghost use Rattle.std.specs.Prelude.{◌≡◌, ◌<◌, ◌%◌, ◌^◌, [], Some};
ghost use Rattle.checksums.specs.Sums.{sum_from, sum_of, holds, repeats, Put};
ghost use Rattle.checksums.specs.Lists.{pushed, may};

use std::marker::Model;

/// Of bytes behind those whose checksum is `sum`, of which its last 32 bits are taken.
pub fn checksum_from(sum: u64, bytes: &[u8]) -> u64
    ensures value { result ≡ sum_from (sum % 2 ^ 32) bytes.now }
    ensures upper_bound { result < 2 ^ 32 }
{
    let mut so_far = sum % 4294967296;
    for byte in bytes {
        so_far = (so_far * 1000003 + u64::from(*byte)) % 4294967296;
    }
    so_far
}

pub fn checksum(bytes: &[u8]) -> u64
    ensures { result ≡ sum_of bytes.now }
{
    checksum_from(0, bytes)
}

/// Is this one of the numbers?
#[tactic(auto, unfolding(crate::specs::Sums::holds))]
pub fn holds(sums: &[u64], sum: u64) -> bool
    ensures { result ≡ holds sum sums.now }
{
    sums.contains(&sum)
}

/// Are two of the numbers the same?
pub fn repeats(sums: &[u64]) -> bool
    ensures { result ≡ repeats sums.now }
{
    sums.iter()
        .enumerate()
        .any(|(n, sum)| holds(&sums[n + 1..], *sum))
}

/// Number `n` of a table is `sum`, and so many are there with it: one more than the table has room for, where there is no place.
// The count, also of what had no room: `Sums` is the list with its count. One more than there is room for, as `Put` of specs/Sums has
// it, by which the laws of the list go.
pub fn put_sum(sums: &mut [u64], n: usize, sum: u64) -> usize
    ensures { Put sums.old n sum sums.new result }
{
    if n < sums.len() {
        sums[n] = sum;
        return n + 1;
    }
    sums.len() + 1
}

/// A list of at most `N` checksums. A clause sees the list, or none where one had no room.
#[derive(Drop)]
pub struct Sums<const N: usize> {
    sums: [u64; N],
    count: usize,
}

impl<const N: usize> Model for Sums<N> {
    ghost use Rattle.std.specs.Prelude.{List, ℕ, Option};
    ghost use Rattle.checksums.specs.Lists.{first};

    ghost Value = { Option (List ℕ) };

    ghost view = { λ s. first s.count s.sums };
}

impl<const N: usize> Sums<N> {
    /// The empty list.
    #[inline]
    pub fn new() -> Self
        ensures { result ≡ Some [] }
    {
        Sums {
            sums: [0; N],
            count: 0,
        }
    }

    /// One more, behind those that are there.
    pub fn push(&mut self, sum: u64)
        ensures { self.new ≡ pushed N self.old sum }
    {
        self.count = put_sum(&mut self.sums, self.count, sum);
    }

    /// May this be one of them? Also where one had no room.
    pub fn may_hold(&self, sum: u64) -> bool
        ensures { result ≡ may (holds sum) self.now }
    {
        N < self.count || holds(&self.sums[..self.count], sum)
    }

    /// May two of them be the same? Also where one had no room.
    pub fn may_repeat(&self) -> bool
        ensures { result ≡ may repeats self.now }
    {
        N < self.count || repeats(&self.sums[..self.count])
    }
}
