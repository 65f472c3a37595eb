//! The processor's registers, the modes that follow from them, and the rules of a valid state.

ghost use Rattle.std.specs.Prelude.{◌≡◌, ◌<◌};
ghost use Rattle.xe_base.specs.State.{mode_of, code_size_of, broken, answer_of};
ghost use Rattle.xe_base.specs.State.{flags_are_valid, cr0_is_valid, cr4_is_valid, efer_is_valid, paging_is_valid};
ghost use Rattle.xe_base.specs.State.{attrs_are_valid, low_bases_are_valid, bases_are_canonical, segments_are_valid, level_is_valid, code_is_valid, pointer_is_valid};
ghost use Rattle.xe_base.specs.State.{pe, pg, lme, lma, attr_is_valid, is_low_base, is_long, address_bits, is_canonical, is_base};
ghost use Rattle.xe_base.specs.Bits.{canonical};
ghost use Rattle.xe_base.specs.Bits.{bit, only};
ghost use Rattle.xe_base.specs.Reset.{reset_state};
ghost use Rattle.xe_base.specs.Registers.{segment, next_rip, rip_after};

use crate::segment::{Seg, SegName, Table};

/// The registers of one processor.
///
/// The general registers are numbered as in the encoding: RAX, RCX, RDX, RBX, RSP, RBP, RSI, RDI,
/// R8 to R15. The FS_BASE and GS_BASE registers are `fs.base` and `gs.base`, and `kgs` is
/// KERNEL_GS_BASE.
#[derive(Clone, Copy, PartialEq, Eq, Debug)]
pub struct Cpu {
    pub gpr: [u64; 16],
    pub rip: u64,
    pub rflags: u64,
    pub es: Seg,
    pub cs: Seg,
    pub ss: Seg,
    pub ds: Seg,
    pub fs: Seg,
    pub gs: Seg,
    pub ldtr: Seg,
    pub tr: Seg,
    pub gdtr: Table,
    pub idtr: Table,
    pub cr0: u64,
    pub cr2: u64,
    pub cr3: u64,
    pub cr4: u64,
    pub cr8: u64,
    pub efer: u64,
    pub kgs: u64,
    pub cpl: u8,
}

/// The mode of operation (SDM volume 3, "Modes of Operation"): with EFER.LMA 0 real-address mode
/// where CR0.PE is 0, else protected mode; with LMA 1 64-bit mode where CS.L is 1, else
/// compatibility mode.
#[derive(Clone, Copy, PartialEq, Eq, Debug)]
pub enum Mode {
    Real,
    Protected,
    Compat,
    Long,
}

/// The size of the code that runs: 64 bits in 64-bit mode, elsewhere 32 where CS.DB is 1, else 16.
#[derive(Clone, Copy, PartialEq, Eq, Debug)]
pub enum CodeSize {
    B16,
    B32,
    B64,
}

/// The rule of a valid state that is broken.
///
/// 1 the flags; 2 CR0; 3 CR4; 4 EFER; 5 CR3 and CR8; 6 the segments' attributes and bases; 7 CPL;
/// 8 CS.L with CS.DB; 9 the instruction pointer.
#[derive(Clone, Copy, PartialEq, Eq, Debug)]
pub struct BadState {
    pub rule: u8,
}

/// The bit of CR0 for protection.
const CR0_PE: u32 = 0;

/// The bit of CR0 that is always set (extension type).
const CR0_ET: u32 = 4;

/// The bit of CR0 against write-through (not write-through).
const CR0_NW: u32 = 29;

/// The bit of CR0 against caching (cache disable).
const CR0_CD: u32 = 30;

/// The bit of CR0 for paging.
const CR0_PG: u32 = 31;

/// The bit of CR4 for physical address extension.
const CR4_PAE: u32 = 5;

/// The bit of EFER that enables long mode.
const EFER_LME: u32 = 8;

/// The bit of EFER for long mode being active.
const EFER_LMA: u32 = 10;

/// The bit of a segment's attributes for 64-bit code.
const ATTR_L: u32 = 9;

/// The bit of a segment's attributes for 32 bits.
const ATTR_DB: u32 = 10;

/// A segment of writable data at address 0, with 64 KiB.
const FLAT: Seg = Seg {
    sel: 0,
    base: 0,
    limit: 0xFFFF,
    attr: 0x93,
};

/// A table at address 0, with 64 KiB.
const WIDE_TABLE: Table = Table {
    base: 0,
    limit: 0xFFFF,
};

/// Whether no bit outside the mask is set.
fn only(mask: u64, x: u64) -> bool
    ensures { result ≡ only mask x }
{
    x & !mask == 0
}

/// Whether the bit is set.
fn bit(x: u64, at: u32) -> bool
    requires { at < 64 }
    ensures { result ≡ bit x at }
{
    (x >> at) & 1 == 1
}

/// Whether the bits 63 to 47 of a number are equal (SDM volume 1, "Canonical Addressing").
fn is_canonical_of_48(address: u64) -> bool
    ensures { result ≡ canonical 48 address }
{
    let high = address >> 47;
    high == 0 || high == 0x1FFFF
}

impl Seg {
    ghost use Rattle.xe_base.specs.State.{attr_is_valid, is_low_base, seg_l, seg_db};

    /// Whether only the twelve bits of an attribute are set.
    fn attr_is_valid(&self) -> bool
        ensures { result ≡ attr_is_valid self.now }
    {
        self.attr < 0x1000
    }

    /// Whether the base has at most 32 bits.
    fn is_low_base(&self) -> bool
        ensures { result ≡ is_low_base self.now }
    {
        self.base < 1 << 32
    }

    /// L: a code segment of 64-bit code.
    pub fn l(&self) -> bool
        ensures { result ≡ seg_l self.now }
    {
        bit(self.attr as u64, ATTR_L)
    }

    /// DB: code, data or a stack of 32 bits.
    pub fn db(&self) -> bool
        ensures { result ≡ seg_db self.now }
    {
        bit(self.attr as u64, ATTR_DB)
    }
}

impl Cpu {
    /// The state that a machine starts in: all zero but for bit 1 of the flags, CR0.ET, the limits
    /// (FFFFh each), and the attributes of present, accessed segments: writable data (93h),
    /// readable code (9Bh), an LDT (82h) and a busy 32-bit TSS (8Bh). A processor after RESET runs
    /// at FFFFFFF0h instead, with CD and NW set and its family in EDX; here each number that no rule
    /// asks for is 0, so that a program at address 0 runs at once.
    #[tactic(auto, unfolding(crate::specs::Reset::reset_state))]
    pub fn reset() -> Cpu
        ensures { result ≡ reset_state }
    {
        Cpu {
            gpr: [0; 16],
            rip: 0,
            rflags: 2,
            es: FLAT,
            cs: Seg { attr: 0x9B, ..FLAT },
            ss: FLAT,
            ds: FLAT,
            fs: FLAT,
            gs: FLAT,
            ldtr: Seg { attr: 0x82, ..FLAT },
            tr: Seg { attr: 0x8B, ..FLAT },
            gdtr: WIDE_TABLE,
            idtr: WIDE_TABLE,
            cr0: 0x10,
            cr2: 0,
            cr3: 0,
            cr4: 0,
            cr8: 0,
            efer: 0,
            kgs: 0,
            cpl: 0,
        }
    }

    /// CR0.PE: protection is on.
    pub fn pe(&self) -> bool
        ensures { result ≡ pe self.now }
    {
        bit(self.cr0, CR0_PE)
    }

    /// CR0.PG: paging is on.
    pub fn pg(&self) -> bool
        ensures { result ≡ pg self.now }
    {
        bit(self.cr0, CR0_PG)
    }

    /// EFER.LMA: 64-bit or compatibility mode is active.
    pub fn lma(&self) -> bool
        ensures { result ≡ lma self.now }
    {
        bit(self.efer, EFER_LMA)
    }

    /// The mode of operation.
    pub fn mode(&self) -> Mode
        ensures { result ≡ mode_of self.now }
    {
        if self.lma() {
            if self.cs.l() {
                Mode::Long
            } else {
                Mode::Compat
            }
        } else if self.pe() {
            Mode::Protected
        } else {
            Mode::Real
        }
    }

    /// Whether the processor is in 64-bit mode.
    pub fn is_long(&self) -> bool
        ensures { result ≡ is_long self.now }
    {
        self.lma() && self.cs.l()
    }

    /// In how many bits the linear addresses of accesses through segments wrap: 64 in 64-bit mode,
    /// elsewhere 32.
    pub fn address_bits(&self) -> u32
        ensures { result ≡ address_bits self.now }
    {
        if self.is_long() { 64 } else { 32 }
    }

    /// Whether long mode can translate a linear address: the bits that page tables don't look at
    /// equal the highest that they do (SDM volume 1, "Canonical Addressing").
    pub fn is_canonical(&self, address: u64) -> bool
        ensures { result ≡ is_canonical self.now address }
    {
        is_canonical_of_48(address)
    }

    /// Whether a base register can hold the number: it is canonical in the width of bases.
    pub fn is_base(&self, base: u64) -> bool
        ensures { result ≡ is_base self.now base }
    {
        is_canonical_of_48(base)
    }

    /// The size of the code that runs.
    pub fn code_size(&self) -> CodeSize
        ensures { result ≡ code_size_of self.now }
    {
        if self.is_long() {
            CodeSize::B64
        } else if self.cs.db() {
            CodeSize::B32
        } else {
            CodeSize::B16
        }
    }

    /// The segment register of a name.
    pub fn segment(&self, name: SegName) -> Seg
        ensures { result ≡ segment self.now name }
    {
        match name {
            SegName::Es => self.es,
            SegName::Cs => self.cs,
            SegName::Ss => self.ss,
            SegName::Ds => self.ds,
            SegName::Fs => self.fs,
            SegName::Gs => self.gs,
        }
    }

    /// RIP behind an instruction of so many bytes: it wraps at 64 bits in 64-bit code, elsewhere
    /// at 32 (SDM volume 1, "Instruction Pointer").
    pub fn next_rip(&self, len: u8) -> u64
        ensures { result ≡ next_rip self.now len }
    {
        let next = self.rip.wrapping_add(len as u64);
        match self.code_size() {
            CodeSize::B64 => next,
            CodeSize::B32 | CodeSize::B16 => next & 0xFFFF_FFFF,
        }
    }

    /// RIP goes behind an instruction of so many bytes.
    pub fn advance(&mut self, len: u8)
        ensures { self.new ≡ record self.old { rip = next_rip self.old len } }
    {
        self.rip = self.next_rip(len);
    }

    /// Answers the first rule of a valid state that is broken, where one is.
    #[tactic(auto, unfolding(crate::specs::State::broken))]
    pub fn check(&self) -> Result<(), BadState>
        ensures { result ≡ answer_of (broken self.now) }
    {
        let rule = if !self.flags_are_valid() {
            1
        } else if !self.cr0_is_valid() {
            2
        } else if !self.cr4_is_valid() {
            3
        } else if !self.efer_is_valid() {
            4
        } else if !self.paging_is_valid() {
            5
        } else if !self.segments_are_valid() {
            6
        } else if !self.level_is_valid() {
            7
        } else if !self.code_is_valid() {
            8
        } else if !self.pointer_is_valid() {
            9
        } else {
            return Ok(());
        };
        Err(BadState { rule })
    }

    /// Bit 1 is set, and the reserved bits, RF and VM are clear.
    fn flags_are_valid(&self) -> bool
        ensures { result ≡ flags_are_valid self.now }
    {
        bit(self.rflags, 1) && only(0x24_7FD7, self.rflags)
    }

    /// Known bits alone, ET set, PG only with PE, NW only with CD.
    fn cr0_is_valid(&self) -> bool
        ensures { result ≡ cr0_is_valid self.now }
    {
        only(0xE005_003F, self.cr0)
            && bit(self.cr0, CR0_ET)
            && (!self.pg() || self.pe())
            && (!bit(self.cr0, CR0_NW) || bit(self.cr0, CR0_CD))
    }

    /// Known bits alone.
    fn cr4_is_valid(&self) -> bool
        ensures { result ≡ cr4_is_valid self.now }
    {
        only(0x30_06FC, self.cr4)
    }

    /// Known bits alone, LMA exactly with LME and PG, and only with PAE.
    fn efer_is_valid(&self) -> bool
        ensures { result ≡ efer_is_valid self.now }
    {
        let is_active = bit(self.efer, EFER_LME) && self.pg();
        only(0xD01, self.efer) && is_active == self.lma() && (!self.lma() || bit(self.cr4, CR4_PAE))
    }

    /// CR3 has 40 bits, CR8 four.
    fn paging_is_valid(&self) -> bool
        ensures { result ≡ paging_is_valid self.now }
    {
        self.cr3 < 1 << 40 && self.cr8 <= 15
    }

    fn attrs_are_valid(&self) -> bool
        ensures { result ≡ attrs_are_valid self.now }
    {
        self.es.attr_is_valid()
            && self.cs.attr_is_valid()
            && self.ss.attr_is_valid()
            && self.ds.attr_is_valid()
            && self.fs.attr_is_valid()
            && self.gs.attr_is_valid()
            && self.ldtr.attr_is_valid()
            && self.tr.attr_is_valid()
    }

    fn low_bases_are_valid(&self) -> bool
        ensures { result ≡ low_bases_are_valid self.now }
    {
        self.es.is_low_base()
            && self.cs.is_low_base()
            && self.ss.is_low_base()
            && self.ds.is_low_base()
    }

    fn bases_are_canonical(&self) -> bool
        ensures { result ≡ bases_are_canonical self.now }
    {
        self.is_base(self.fs.base)
            && self.is_base(self.gs.base)
            && self.is_base(self.ldtr.base)
            && self.is_base(self.tr.base)
            && self.is_base(self.gdtr.base)
            && self.is_base(self.idtr.base)
            && self.is_base(self.kgs)
    }

    /// Attributes of twelve bits, and bases of the registers' widths.
    fn segments_are_valid(&self) -> bool
        ensures { result ≡ segments_are_valid self.now }
    {
        self.attrs_are_valid() && self.low_bases_are_valid() && self.bases_are_canonical()
    }

    /// A level up to 3, and 0 without protection.
    fn level_is_valid(&self) -> bool
        ensures { result ≡ level_is_valid self.now }
    {
        self.cpl <= 3 && (self.pe() || self.cpl == 0)
    }

    /// 64-bit code has no DB.
    fn code_is_valid(&self) -> bool
        ensures { result ≡ code_is_valid self.now }
    {
        !self.is_long() || !self.cs.db()
    }

    /// Outside 64-bit code RIP has 32 bits.
    fn pointer_is_valid(&self) -> bool
        ensures { result ≡ pointer_is_valid self.now }
    {
        self.is_long() || self.rip < 1 << 32
    }
}
