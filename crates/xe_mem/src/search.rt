//! Where an address lies among the regions, at a cost that doesn't grow with their number where each
//! lies in a window of its own, and hardly elsewhere.

ghost use Rattle.std.specs.Prelude.{◌≡◌, ℕ, ◌+◌, ◌^◌, ◌<◌, ◌≤◌, length, true, MatchOption};
ghost use Rattle.xe_mem.specs.Layout.{follow, total};
ghost use Rattle.xe_mem.specs.Flat.{place, gap_behind, IsBefore, IsFound};

use crate::region::{Region, total_len, window_of};

/// The index of the last region that begins at or below `pa`; 0 where there is none. No other
/// region can have the address.
///
/// Each turn halves the number of regions in question.
#[cold]
#[inline(never)]
fn find(regions: &[Region], pa: u64) -> usize
    requires { follow 0 regions.now ≡ true }
    ensures { IsFound regions.now pa result }
{
    let mut first = 0;
    let mut count = regions.len();
    while count > 1 {
        let half = count / 2;
        if regions[first + half].start <= pa {
            first += half;
        }
        count -= half;
    }
    first
}

/// The index that `find` answers, nearly always without a search: the guess of the address's window is
/// tried first. A guess is never trusted, so it needn't say anything.
#[inline(always)]
fn index_of(regions: &[Region], guesses: &[u8; 128], pa: u64) -> usize
    requires { follow 0 regions.now ≡ true }
    ensures { IsFound regions.now pa result }
{
    let guess = guesses[window_of(pa)] as usize;
    if let Some(region) = regions.get(guess) {
        if region.covers(pa) {
            return guess;
        }
    }
    find(regions, pa)
}

/// Where the byte at `pa` lies, if those of all regions stand one region after another; their
/// number, where `pa` isn't RAM. The region at `index` is the one that was found for `pa`.
#[inline]
fn place_at(regions: &[Region], before: &[u64], index: usize, pa: u64) -> usize
    requires follows { follow 0 regions.now ≡ true }
    requires small { total regions.now < 2 ^ 63 }
    requires before { IsBefore regions.now before.now }
    requires found { IsFound regions.now pa index }
    ensures { result ≡ place regions.now pa }
{
    if let Some(region) = regions.get(index) {
        if region.covers(pa) {
            return (before[index] + (pa - region.start)) as usize;
        }
    }
    total_len(regions) as usize
}

/// The first address from `from` on that is in none of these regions. The region at `index` is the
/// one that was found for `from`.
#[inline]
fn gap_at(regions: &[Region], index: usize, from: u64) -> u64
    requires follows { follow 0 regions.now ≡ true }
    requires found { IsFound regions.now from index }
    ensures { result ≡ gap_behind regions.now from }
{
    let Some(region) = regions.get(index) else {
        return from;
    };
    if !region.covers(from) {
        return from;
    }
    let end = region.start + region.len;
    if let Some(next) = regions.get(index + 1) {
        if next.start == end {
            return pass_touching(regions, index, from);
        }
    }
    end
}

/// The same where regions touch: those behind the one that was found are looked at only as long as
/// they do.
#[cold]
#[inline(never)]
fn pass_touching(regions: &[Region], index: usize, from: u64) -> u64
    requires follows { follow 0 regions.now ≡ true }
    requires found { IsFound regions.now from index }
    ensures { result ≡ gap_behind regions.now from }
{
    let mut gap = from;
    for region in &regions[index..] {
        if !region.covers(gap) {
            return gap;
        }
        gap = region.start + region.len;
    }
    gap
}

/// Where the `n` bytes from `pa` on lie among those of all regions, if no gap comes before their
/// end, where they don't all lie in the region at `index`, which is the one that was found for `pa`.
#[cold]
#[inline(never)]
fn range_on(regions: &[Region], before: &[u64], index: usize, pa: u64, n: u64) -> Option<usize>
    requires follows { follow 0 regions.now ≡ true }
    requires small { total regions.now < 2 ^ 63 }
    requires before { IsBefore regions.now before.now }
    requires found { IsFound regions.now pa index }
    ensures { MatchOption result (gap_behind regions.now pa < pa + n) (λ at. (pa + n ≤ gap_behind regions.now pa) × (at ≡ place regions.now pa)) }
{
    if n > gap_at(regions, index, pa) - pa {
        return None;
    }
    Some(place_at(regions, before, index, pa))
}

/// Where the `n` bytes from `pa` on lie among those of all regions, if no gap comes before their
/// end.
#[inline(always)]
pub(crate) fn range_of(
    regions: &[Region],
    before: &[u64],
    guesses: &[u8; 128],
    pa: u64,
    n: u64,
) -> Option<usize>
    requires follows { follow 0 regions.now ≡ true }
    requires small { total regions.now < 2 ^ 63 }
    requires before { IsBefore regions.now before.now }
    ensures { MatchOption result (gap_behind regions.now pa < pa + n) (λ at. (pa + n ≤ gap_behind regions.now pa) × (at ≡ place regions.now pa)) }
{
    let index = index_of(regions, guesses, pa);
    if let Some(region) = regions.get(index) {
        if region.covers(pa) {
            let ahead = pa - region.start;
            if n <= region.len - ahead {
                return Some((before[index] + ahead) as usize);
            }
        }
    }
    range_on(regions, before, index, pa, n)
}

/// Where the byte at `pa` lies among those of all regions; their number, where `pa` isn't RAM.
#[inline]
pub(crate) fn position(regions: &[Region], before: &[u64], guesses: &[u8; 128], pa: u64) -> usize
    requires follows { follow 0 regions.now ≡ true }
    requires small { total regions.now < 2 ^ 63 }
    requires before { IsBefore regions.now before.now }
    ensures { result ≡ place regions.now pa }
{
    place_at(regions, before, index_of(regions, guesses, pa), pa)
}

/// The first address from `from` on that is in none of these regions.
#[inline]
pub(crate) fn gap_from(regions: &[Region], guesses: &[u8; 128], from: u64) -> u64
    requires { follow 0 regions.now ≡ true }
    ensures { result ≡ gap_behind regions.now from }
{
    gap_at(regions, index_of(regions, guesses, from), from)
}
