//! Where RAM lies, and why a list of regions is refused.

ghost use Rattle.std.specs.Prelude.{◌≡◌, ℕ, ◌+◌, ◌^◌, ◌<◌, ◌≤◌, length, take, sum_by, true, false, MatchOption};
ghost use Rattle.xe_mem.specs.Layout.{covers, fits_after, follow, total};
ghost use Rattle.xe_mem.specs.Flat.{IsBefore};

use arrayvec::ArrayVec;
use thiserror::Error;

/// The most regions that a guest may have.
pub const MAX_REGIONS: usize = 16;

/// The most bytes that all regions may have together.
pub const MAX_BYTES: u64 = 1 << 24;

/// The size of a page, of which a region has a whole number.
const PAGE: u64 = 0x1000;

/// The first address that no region reaches: physical addresses have 40 bits.
const ADDRESS_END: u64 = 1 << 40;

/// A range of guest physical addresses that is RAM.
#[derive(Clone, Copy, PartialEq, Eq, Debug, Default)]
pub struct Region {
    /// Its first address.
    pub start: u64,
    /// Its length in bytes.
    pub len: u64,
}

/// Why no guest memory was made: the reasons 1 to 3, in this order.
#[derive(Clone, Copy, PartialEq, Eq, Debug, Error)]
pub enum MemFault {
    #[error("there is no memory for the guest's RAM")]
    NoMemory,
    /// The index of the first bad region: its start or length is no multiple of a page's size, it
    /// is empty, it ends past 2^40, or it begins below the end of the region before it.
    #[error("region {0} is no range of whole pages behind the region before it")]
    BadRegion(u32),
    /// More than 16 regions, or more than 16 MiB in all.
    #[error("the regions are too many or too large")]
    TooLarge,
}

impl Region {
    /// Whether the address is in the region.
    #[inline]
    #[tactic(auto, using(std::proofs::lemmas::Bool::Decides::nat_tests), unfolding(crate::specs::Layout::covers))]
    pub(crate) fn covers(&self, pa: u64) -> bool
        ensures { result ≡ covers self.now pa }
    {
        self.start <= pa && pa - self.start < self.len
    }

    /// Whether the region is some whole pages below 2^40, from `low` on.
    #[tactic(auto, using(std::proofs::lemmas::Bool::Decides::nat_tests), unfolding(crate::specs::Layout::fits_after))]
    pub fn fits_after(&self, low: u64) -> bool
        ensures { result ≡ fits_after low self.now }
    {
        self.start % PAGE == 0
            && self.len % PAGE == 0
            && self.len > 0
            && self.len <= ADDRESS_END
            && self.start <= ADDRESS_END - self.len
            && low <= self.start
    }
}

/// The index of the first region that doesn't fit after the ones before it.
pub(crate) fn first_bad(list: &[Region]) -> Option<usize>
    ensures { MatchOption result (follow 0 list.now ≡ true) (λ i. (i < length list.now) × (follow 0 (take i list.now) ≡ true) × (follow 0 (take (i + 1) list.now) ≡ false)) }
{
    let mut low = 0;
    for (i, region) in list.iter().enumerate() {
        if !region.fits_after(low) {
            return Some(i);
        }
        low = region.start + region.len;
    }
    None
}

/// How many bytes all regions have together.
#[inline(never)]
#[tactic(auto, unfolding(crate::specs::Layout::total))]
pub(crate) fn total_len(list: &[Region]) -> u64
    requires { total list.now < 2 ^ 63 }
    ensures { result ≡ total list.now }
{
    list.iter().map(|region| region.len).sum()
}

/// The regions in a list of their own.
pub(crate) fn copy_of(list: &[Region]) -> ArrayVec<Region, 16>
    requires { length list.now ≤ 16 }
    ensures { result.items ≡ list.now }
{
    let mut regions = ArrayVec::new();
    for region in list {
        regions.push(*region);
    }
    regions
}

/// How many bytes the regions before each one have together.
pub(crate) fn sums_before(list: &[Region]) -> ArrayVec<u64, 16>
    requires few { length list.now ≤ 16 }
    requires small { total list.now < 2 ^ 63 }
    ensures { IsBefore list.now result.items }
{
    let mut before = ArrayVec::new();
    let mut sum = 0;
    for region in list {
        before.push(sum);
        sum += region.len;
    }
    before
}

/// The window that an address lies in: one of 128 with 256 KiB each, which come again every 32 MiB. The
/// parts of a PC's lowest megabyte, and regions of a megabyte each up to 32 MiB, lie in windows of
/// their own.
#[inline(always)]
pub(crate) fn window_of(pa: u64) -> usize
    ensures { result < 128 }
{
    (pa >> 18) as usize % 128
}

/// For each window the index of the last region that has a part of it: the one that is tried first.
/// Nothing depends on these but time.
pub(crate) fn guesses_of(list: &[Region]) -> [u8; 128] {
    let mut guesses = [0; 128];
    for (i, region) in list.iter().enumerate() {
        let last = region.start.saturating_add(region.len).saturating_sub(1);
        for window in region.start >> 18..=last >> 18 {
            guesses[window as usize % 128] = (i % MAX_REGIONS) as u8;
        }
    }
    guesses
}
