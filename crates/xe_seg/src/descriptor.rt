//! Descriptors of 8 bytes and their fields (SDM volume 3, "Segment Descriptors").

ghost use Rattle.std.specs.Prelude.{◌≡◌, ◌<◌, ◌≤◌, ◌^◌, ◌/◌, ◌%◌};
ghost use Rattle.xe_base.specs.Bits.{bit};
ghost use Rattle.xe_seg.specs.Descriptors.{base_of, units_of, limit_of, kind_of, s_of, dpl_of, present_of, l_of, db_of, g_of, attr_of};

/// A segment descriptor, as it lies in the GDT or an LDT.
#[derive(Clone, Copy, PartialEq, Eq, Debug, Default)]
pub struct Descriptor {
    /// The 8 bytes, the lowest address in the lowest bits.
    pub raw: u64,
}

impl Descriptor {
    /// Whether the bit is set.
    fn bit(&self, at: u32) -> bool
        requires { at < 64 }
        ensures { result ≡ bit self.now.raw at }
    {
        (self.raw >> at) & 1 == 1
    }

    /// The linear address of the segment's first byte, of 32 bits: bits 39:16, and above them 63:56.
    pub fn base(&self) -> u64
        ensures { result ≡ base_of self.now }
    {
        let low = (self.raw >> 16) % (1 << 24);
        let high = self.raw >> 56;
        low + (high << 24)
    }

    /// The limit as it stands in the descriptor, in bytes or pages: bits 15:0, and above them 51:48.
    fn units(&self) -> u32
        ensures is { result ≡ units_of self.now }
        ensures small { result < 2 ^ 20 }
    {
        let low = self.raw % (1 << 16);
        let high = (self.raw >> 48) % (1 << 4);
        (low + (high << 16)) as u32
    }

    /// The greatest offset, in bytes: where G is set, the last byte of the page that the field names.
    pub fn limit(&self) -> u32
        ensures { result ≡ limit_of self.now }
    {
        let units = self.units();
        if self.g() { units * 4096 + 4095 } else { units }
    }

    /// The type, of 4 bits.
    pub fn kind(&self) -> u8
        ensures { result ≡ kind_of self.now }
    {
        ((self.raw >> 40) % (1 << 4)) as u8
    }

    /// S: code or data, and otherwise a system segment or a gate.
    pub fn s(&self) -> bool
        ensures { result ≡ s_of self.now }
    {
        self.bit(44)
    }

    /// The descriptor's privilege level, from 0 to 3.
    pub fn dpl(&self) -> u8
        ensures { result ≡ dpl_of self.now }
    {
        ((self.raw >> 45) % (1 << 2)) as u8
    }

    /// P: the segment is present.
    pub fn present(&self) -> bool
        ensures { result ≡ present_of self.now }
    {
        self.bit(47)
    }

    /// L: code of 64 bits.
    pub fn l(&self) -> bool
        ensures { result ≡ l_of self.now }
    {
        self.bit(53)
    }

    /// DB: code, data or a stack of 32 bits.
    pub fn db(&self) -> bool
        ensures { result ≡ db_of self.now }
    {
        self.bit(54)
    }

    /// G: the limit counts pages of 4 KiB.
    pub fn g(&self) -> bool
        ensures { result ≡ g_of self.now }
    {
        self.bit(55)
    }

    /// The attributes of a segment register: bits 47:40 (type, S, DPL, P), and above them 55:52 (AVL, L, DB, G).
    pub fn attr(&self) -> u16
        ensures { result ≡ attr_of self.now }
    {
        let low = (self.raw >> 40) % (1 << 8);
        let high = (self.raw >> 52) % (1 << 4);
        (low + (high << 8)) as u16
    }
}
