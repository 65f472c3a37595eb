//! The RAM with its bytes.

ghost use Rattle.std.specs.Prelude.{◌≡◌, ℕ, ◌+◌, ◌*◌, ◌-◌, ◌<◌, ◌≤◌, ◌↔◌, length, IsTrue, IsOk, IfOk, IsSome, IfSome, MatchResult, List, false};
ghost use Rattle.xe_base.specs.Ram.{AreRam, bytes_of, put_bytes};
ghost use Rattle.xe_mem.specs.Layout.{IsLayout, IsFirstBad, IsTooLarge, IsGap, regions_of, zeroed};
ghost use Rattle.xe_mem.specs.Moves.{IsUnit, filled, copied_up, copied_down};

use crate::moves::{move_down, move_up, repeat};
use crate::region::{
    MAX_BYTES, MAX_REGIONS, MemFault, Region, copy_of, first_bad, guesses_of, sums_before,
    total_len,
};
use crate::search::{gap_from, position, range_of};
use arrayvec::ArrayVec;
use std::alloc::Global;
use std::marker::Model;

/// The guest's RAM.
#[derive(Drop)]
pub struct GuestMem {
    regions: ArrayVec<Region, 16>,
    /// How many bytes the regions before each one have together.
    before: ArrayVec<u64, 16>,
    /// Which region a search tries first, by the window of the address.
    guesses: [u8; 128],
    /// The bytes of all regions, one region after another.
    bytes: Vec<u8>,
}

impl Model for GuestMem {
    ghost use Rattle.std.specs.Prelude.{List};
    ghost use Rattle.xe_base.specs.Ram.{Area};

    ghost Value = { List Area };

    ghost use Rattle.xe_mem.specs.Flat.{areas_of, IsMemory};

    ghost view = { λ m. areas_of m.regions.items m.bytes.items };

    ghost invariant = { λ m. IsMemory m.regions.items m.before.items m.bytes.items };
}

impl GuestMem {
    /// Makes RAM of these regions, all of whose bytes are 0.
    ///
    /// The list is refused as `TooLarge` where it has more than 16 regions; then as `BadRegion`,
    /// with the index of the first region whose start or length is no multiple of 1000h, that is
    /// empty, ends past 2^40, or begins below the end of the one before it; then as `TooLarge`
    /// where all regions have more than 16 MiB together. The limits keep the room that a guest takes
    /// and a search among its regions small.
    /// `NoMemory` comes only for a list that isn't refused.
    pub fn create(alloc: Global, list: &[Region]) -> Result<GuestMem, MemFault>
        ensures made { IfOk result (λ mem. mem ≡ zeroed list.now) }
        ensures accepted { IsOk result → IsLayout list.now }
        ensures bad { (i : ℕ) → (result ≡ Err (MemFault.BadRegion i)) ↔ IsFirstBad list.now i }
        ensures too_large { (result ≡ Err MemFault.TooLarge) ↔ IsTooLarge list.now }
        ensures no_memory { result ≡ Err MemFault.NoMemory → IsLayout list.now }
        ensures made_but_for_memory { IsLayout list.now → MatchResult result (λ mem. mem ≡ zeroed list.now) (λ fault. fault ≡ MemFault.NoMemory) }
    {
        if list.len() > MAX_REGIONS {
            return Err(MemFault::TooLarge);
        }
        if let Some(index) = first_bad(list) {
            return Err(MemFault::BadRegion(index as u32));
        }
        let len = total_len(list);
        if len > MAX_BYTES {
            return Err(MemFault::TooLarge);
        }
        match vec![in alloc; 0u8; len as usize] {
            Ok(bytes) => Ok(GuestMem {
                regions: copy_of(list),
                before: sums_before(list),
                guesses: guesses_of(list),
                bytes,
            }),
            Err(_) => Err(MemFault::NoMemory),
        }
    }

    /// The regions, lowest first: the list that the memory was made of.
    pub fn regions(&self) -> &[Region]
        ensures value { result.now ≡ regions_of self.now }
        ensures layout { IsLayout result.now }
    {
        self.regions.as_slice()
    }

    /// The first address from `from` on that isn't RAM; regions that touch are passed as one. So
    /// from `from` on as many bytes can be loaded or stored as the answer is ahead, and no more.
    #[inline]
    pub fn first_gap(&self, from: u64) -> u64
        ensures gap { IsGap self.now from result }
        ensures ram { (n : ℕ) → from + n ≤ result → AreRam self.now from n }
    {
        gap_from(self.regions.as_slice(), &self.guesses, from)
    }

    /// Whether each of the `n` bytes from `pa` on is RAM.
    #[inline]
    pub fn is_ram(&self, pa: u64, n: u64) -> bool
        ensures { IsTrue result ↔ AreRam self.now pa n }
    {
        n <= self.first_gap(pa) - pa
    }

    /// Reads the bytes from `pa` on.
    #[inline]
    pub fn load(&self, pa: u64, out: &mut [u8])
        requires { AreRam self.now pa (length out.old) }
        ensures { out.new ≡ bytes_of self.now pa (length out.old) }
    {
        let at = position(
            self.regions.as_slice(),
            self.before.as_slice(),
            &self.guesses,
            pa,
        );
        out.copy_from_slice(&self.bytes[at..at + out.len()]);
    }

    /// Writes these bytes from `pa` on.
    #[inline]
    pub fn store(&mut self, pa: u64, bytes: &[u8])
        requires { AreRam self.old pa (length bytes.now) }
        ensures written { self.new ≡ put_bytes self.old pa bytes.now }
        ensures same_regions { regions_of self.new ≡ regions_of self.old }
    {
        let at = position(
            self.regions.as_slice(),
            self.before.as_slice(),
            &self.guesses,
            pa,
        );
        self.bytes[at..at + bytes.len()].copy_from_slice(bytes);
    }

    /// Reads the bytes from `pa` on, where all of them are RAM: the test and the read in one.
    #[inline]
    pub fn read<const N: usize>(&self, pa: u64) -> Option<[u8; N]>
        ensures present { IsSome result ↔ AreRam self.now pa N }
        ensures bytes { IfSome result (λ bytes. bytes ≡ bytes_of self.now pa N) }
    {
        let regions = self.regions.as_slice();
        let at = range_of(regions, self.before.as_slice(), &self.guesses, pa, N as u64)?;
        let mut out = [0; N];
        out.copy_from_slice(&self.bytes[at..at + N]);
        Some(out)
    }

    /// Writes these bytes from `pa` on, where all of that is RAM, and else none of them; says
    /// whether it wrote them.
    #[inline]
    pub fn write<const N: usize>(&mut self, pa: u64, bytes: [u8; N]) -> bool
        ensures accepted { IsTrue result ↔ AreRam self.old pa N }
        ensures written { IsTrue result → self.new ≡ put_bytes self.old pa bytes.entry }
        ensures refused { result ≡ false → self.new ≡ self.old }
        ensures same_regions { regions_of self.new ≡ regions_of self.old }
    {
        let regions = self.regions.as_slice();
        let found = range_of(regions, self.before.as_slice(), &self.guesses, pa, N as u64);
        let Some(at) = found else {
            return false;
        };
        self.bytes[at..at + N].copy_from_slice(&bytes);
        true
    }

    /// Writes `count` units one behind another, the first at `pa`. A unit has 1, 2, 4 or 8 bytes.
    pub fn fill(&mut self, pa: u64, unit: &[u8], count: u64)
        requires unit { IsUnit (length unit.now) }
        requires ram { AreRam self.old pa (length unit.now * count) }
        ensures written { self.new ≡ filled self.old pa unit.now count }
        ensures same_regions { regions_of self.new ≡ regions_of self.old }
    {
        let at = position(
            self.regions.as_slice(),
            self.before.as_slice(),
            &self.guesses,
            pa,
        );
        let count = count as usize;
        let len = unit.len() * count;
        repeat(&mut self.bytes[at..at + len], unit, count);
    }

    /// Moves `count` elements of `unit` bytes, the lowest first.
    ///
    /// `dst` and `src` are the lowest addresses of the two ranges, and a unit has 1, 2, 4 or 8
    /// bytes. Each element is read whole before it is written, so where a write meets a later
    /// element, that one is read as it was written.
    pub fn copy_up(&mut self, dst: u64, src: u64, unit: u8, count: u64)
        requires unit { IsUnit unit }
        requires dst { AreRam self.old dst (unit * count) }
        requires src { AreRam self.old src (unit * count) }
        ensures written { self.new ≡ copied_up self.old dst src unit count }
        ensures same_regions { regions_of self.new ≡ regions_of self.old }
    {
        let to = position(
            self.regions.as_slice(),
            self.before.as_slice(),
            &self.guesses,
            dst,
        );
        let from = position(
            self.regions.as_slice(),
            self.before.as_slice(),
            &self.guesses,
            src,
        );
        move_up(&mut self.bytes, to, from, unit as usize, count as usize);
    }

    /// Moves `count` elements of `unit` bytes, the highest first.
    ///
    /// `dst` and `src` are the lowest addresses of the two ranges all the same; the rest is as for
    /// [`GuestMem::copy_up`].
    pub fn copy_down(&mut self, dst: u64, src: u64, unit: u8, count: u64)
        requires unit { IsUnit unit }
        requires dst { AreRam self.old dst (unit * count) }
        requires src { AreRam self.old src (unit * count) }
        ensures written { self.new ≡ copied_down self.old dst src unit count }
        ensures same_regions { regions_of self.new ≡ regions_of self.old }
    {
        let to = position(
            self.regions.as_slice(),
            self.before.as_slice(),
            &self.guesses,
            dst,
        );
        let from = position(
            self.regions.as_slice(),
            self.before.as_slice(),
            &self.guesses,
            src,
        );
        move_down(&mut self.bytes, to, from, unit as usize, count as usize);
    }
}
