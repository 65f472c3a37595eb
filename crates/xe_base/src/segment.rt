//! Segment registers and descriptor tables.

ghost use Rattle.std.specs.Prelude.{◌≡◌, ◌≤◌};
ghost use Rattle.xe_base.specs.Segments.{segment_number};

/// A segment register with what the processor caches of its descriptor (SDM volume 3, "Segment
/// Registers").
#[derive(Clone, Copy, PartialEq, Eq, Debug, Default)]
pub struct Seg {
    /// The selector.
    pub sel: u16,
    /// The linear address of the segment's first byte.
    pub base: u64,
    /// The greatest offset, in bytes: already scaled where G is set.
    pub limit: u32,
    /// Type in bits 3:0, S 4, DPL 6:5, P 7, AVL 8, L 9, DB 10, G 11.
    pub attr: u16,
}

/// A descriptor table register: GDTR or IDTR.
#[derive(Clone, Copy, PartialEq, Eq, Debug, Default)]
pub struct Table {
    /// The linear address of the table's first byte.
    pub base: u64,
    /// The offset of the table's last byte.
    pub limit: u16,
}

/// The segment registers that an instruction can name, by their numbers in the encoding.
#[derive(Clone, Copy, PartialEq, Eq, Debug, Default)]
pub enum SegName {
    Es = 0,
    Cs = 1,
    Ss = 2,
    #[default]
    Ds = 3,
    Fs = 4,
    Gs = 5,
}

impl SegName {
    /// The number in the encoding (SDM volume 2, "Encoding of the Segment Register (sreg) Field"):
    /// ES 0, CS 1, SS 2, DS 3, FS 4 and GS 5.
    pub fn number(self) -> u8
        ensures number { result ≡ segment_number self }
        ensures bound { result ≤ 5 }
    {
        self as u8
    }
}
