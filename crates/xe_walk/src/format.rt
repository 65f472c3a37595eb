//! The formats of page tables, as data: what a level is indexed by, and what its entries hold.

ghost use Rattle.std.specs.Prelude.{ℕ, ◌≡◌, ◌<◌, ◌≤◌, ◌+◌, ◌*◌, ◌%◌, ◌^◌, length};
ghost use Rattle.xe_base.specs.Bits.{bit};
ghost use Rattle.xe_walk.specs.Format.{IsLevel, pse, nxe, pae_format, levels_of, pointers_of, root_of, field, has_any};

use xe_base::Cpu;

/// A level of a paging format: tables whose entries are indexed by some bits of the linear address.
#[derive(Clone, Copy, PartialEq, Eq, Debug, Default)]
pub struct Level {
    /// The lowest bit of the linear address that is in the index. An entry stands for 2^shift bytes.
    pub shift: u32,
    /// How many bits of the linear address are the index.
    pub index_bits: u32,
    /// Of an entry, in bytes: 4 or 8.
    pub size: u8,
    /// The address in an entry ends below this bit.
    pub address_bits: u32,
    /// Whether an entry with PS set maps a page of 2^shift bytes and ends the walk.
    pub has_large: bool,
    /// The bits that are reserved in every entry, besides XD where NXE is 0.
    pub reserved: u64,
    /// The bits that are reserved in an entry that maps a large page, besides those.
    pub reserved_large: u64,
}

/// Bits 51:40: above the 40 bits of a physical address, in an entry of 8 bytes.
const ABOVE_40: u64 = 0x000F_FF00_0000_0000;
/// Bits 62:52, reserved in PAE paging.
const ABOVE_51: u64 = 0x7FF0_0000_0000_0000;

/// 32-bit paging: a page directory and page tables.
static LEVELS_32: [Level; 2] = [
    Level {
        shift: 22,
        index_bits: 10,
        size: 4,
        address_bits: 32,
        has_large: false,
        reserved: 0,
        reserved_large: 0x3F_E000,
    },
    Level {
        shift: 12,
        index_bits: 10,
        size: 4,
        address_bits: 32,
        has_large: false,
        reserved: 0,
        reserved_large: 0,
    },
];

/// 32-bit paging with PSE: PS of a page directory's entry maps 4 MiB.
static LEVELS_32_PSE: [Level; 2] = [
    Level {
        shift: 22,
        index_bits: 10,
        size: 4,
        address_bits: 32,
        has_large: true,
        reserved: 0,
        reserved_large: 0x3F_E000,
    },
    Level {
        shift: 12,
        index_bits: 10,
        size: 4,
        address_bits: 32,
        has_large: false,
        reserved: 0,
        reserved_large: 0,
    },
];

/// PAE paging: four directory pointers, page directories whose PS maps 2 MiB, and page tables.
static LEVELS_PAE: [Level; 3] = [
    Level {
        shift: 30,
        index_bits: 2,
        size: 8,
        address_bits: 40,
        has_large: false,
        reserved: 0xFFFF_FF00_0000_01E6,
        reserved_large: 0,
    },
    Level {
        shift: 21,
        index_bits: 9,
        size: 8,
        address_bits: 40,
        has_large: true,
        reserved: ABOVE_51 + ABOVE_40,
        reserved_large: 0x1F_E000,
    },
    Level {
        shift: 12,
        index_bits: 9,
        size: 8,
        address_bits: 40,
        has_large: false,
        reserved: ABOVE_51 + ABOVE_40,
        reserved_large: 0,
    },
];

/// 4-level paging: PML4 (PS reserved), directory pointers whose PS maps 1 GiB, page directories whose PS
/// maps 2 MiB, and page tables.
static LEVELS_4: [Level; 4] = [
    Level {
        shift: 39,
        index_bits: 9,
        size: 8,
        address_bits: 40,
        has_large: false,
        reserved: ABOVE_40 + 0x80,
        reserved_large: 0,
    },
    Level {
        shift: 30,
        index_bits: 9,
        size: 8,
        address_bits: 40,
        has_large: true,
        reserved: ABOVE_40,
        reserved_large: 0x3FFF_E000,
    },
    Level {
        shift: 21,
        index_bits: 9,
        size: 8,
        address_bits: 40,
        has_large: true,
        reserved: ABOVE_40,
        reserved_large: 0x1F_E000,
    },
    Level {
        shift: 12,
        index_bits: 9,
        size: 8,
        address_bits: 40,
        has_large: false,
        reserved: ABOVE_40,
        reserved_large: 0,
    },
];

/// Whether the bit is set.
pub(crate) fn bit(x: u64, at: u32) -> bool
    requires { at < 64 }
    ensures { result ≡ bit x at }
{
    (x >> at) & 1 == 1
}

/// The low bits of a number.
pub(crate) fn low_bits(x: u64, n: u32) -> u64
    requires { n < 64 }
    ensures { result ≡ x % 2 ^ n }
{
    x & ((1 << n) - 1)
}

/// The bits of a number from one on and below another, in their places.
fn field(below: u32, low: u32, x: u64) -> u64
    requires width { below < 64 }
    requires low { low < 64 }
    ensures value { result ≡ field below low x }
    ensures below { result < 2 ^ below }
{
    low_bits(x, below) >> low << low
}

/// Whether PAE paging is the format of the tables: CR4.PAE without long mode.
fn is_pae_format(cpu: &Cpu) -> bool
    ensures { result ≡ pae_format cpu.now }
{
    !cpu.lma() && bit(cpu.cr4, 5)
}

/// The levels of the format of the page tables in force, from the top.
#[tactic(auto, using(crate::proofs::FormatLaws::levels_length), unfolding(crate::specs::Format::levels_of))]
pub fn levels(cpu: &Cpu) -> &'static [Level]
    ensures value { result.now ≡ levels_of cpu.now }
    ensures depth { length result.now ≤ 4 }
{
    if cpu.lma() {
        &LEVELS_4
    } else if bit(cpu.cr4, 5) {
        &LEVELS_PAE
    } else if bit(cpu.cr4, 4) {
        &LEVELS_32_PSE
    } else {
        &LEVELS_32
    }
}

/// How many levels from the top have directory pointers: entries without rights, accessed and dirty bits. It
/// is 1 in PAE paging and 0 elsewhere.
pub(crate) fn pointers(cpu: &Cpu) -> usize
    ensures { result ≡ pointers_of cpu.now }
{
    if is_pae_format(cpu) { 1 } else { 0 }
}

/// The physical address of the top table: bits 39:12 of CR3, in 32-bit paging 31:12, in PAE paging 31:5.
#[tactic(auto, unfolding(crate::specs::Format::root_of))]
pub(crate) fn root(cpu: &Cpu) -> u64
    ensures value { result ≡ root_of cpu.now }
    ensures below { result < 2 ^ 40 }
{
    if cpu.lma() {
        field(40, 12, cpu.cr3)
    } else if bit(cpu.cr4, 5) {
        field(32, 5, cpu.cr3)
    } else {
        field(32, 12, cpu.cr3)
    }
}

impl Level {
    ghost use Rattle.xe_walk.specs.Format.{place, frame, is_large, has_reserved};

    /// The physical address of the entry for a linear address in a table.
    pub(crate) fn place(&self, table: u64, la: u64) -> u64
        requires level { IsLevel self.now }
        requires table { table < 2 ^ 40 }
        ensures { result ≡ place self.now table la }
    {
        table + low_bits(la >> self.shift, self.index_bits) * self.size as u64
    }

    /// The address in an entry, down to the bit `low`.
    pub(crate) fn frame(&self, low: u32, entry: u64) -> u64
        requires level { IsLevel self.now }
        requires low { low < 64 }
        ensures value { result ≡ frame self.now low entry }
        ensures below { result < 2 ^ 40 }
    {
        field(self.address_bits, low, entry)
    }

    /// Whether an entry maps a page larger than 4 KiB.
    pub(crate) fn is_large(&self, entry: u64) -> bool
        ensures { result ≡ is_large self.now entry }
    {
        self.has_large && bit(entry, 7)
    }

    /// Whether a reserved bit of an entry is set.
    pub(crate) fn has_reserved(&self, cpu: &Cpu, entry: u64) -> bool
        ensures { result ≡ has_reserved cpu.now self.now entry }
    {
        entry & self.reserved != 0
            || self.is_large(entry) && entry & self.reserved_large != 0
            || self.size == 8 && !bit(cpu.efer, 11) && bit(entry, 63)
    }
}
