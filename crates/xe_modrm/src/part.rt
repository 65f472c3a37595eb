//! What reading a part of an instruction answers: the prefixes, and the operand of a ModRM byte.

use xe_base::SegName;

/// A part of an instruction, read at the front of some bytes.
#[derive(Clone, Copy, PartialEq, Eq, Debug)]
pub enum Part<T> {
    /// The part, and how many bytes it takes.
    Got(T, usize),
    /// The bytes end before the part does.
    More,
}

/// What stands before the opcode of an instruction (SDM volume 2, section 2.1.1, and for REX
/// section 2.2.1).
#[derive(Clone, Copy, PartialEq, Eq, Debug)]
pub struct Prefixes {
    /// F0 stands among the prefixes.
    pub lock: bool,
    /// The last of F2 and F3, or 0.
    pub rep: u8,
    /// The segment of the last segment prefix. In 64-bit code only FS and GS have one.
    pub seg: Option<SegName>,
    /// 66 stands among the prefixes.
    pub opsize: bool,
    /// 67 stands among the prefixes.
    pub adsize: bool,
    /// The whole REX byte, 40 to 4F: in 64-bit code, directly before the opcode.
    pub rex: Option<u8>,
}

/// The operand that a ModRM byte names together with its SIB byte and displacement (SDM volume 2,
/// tables 2-1 to 2-3).
///
/// With `md` 3 the operand is the register `rm`; otherwise it lies in memory at the sum of `base`,
/// `index` times `scale` and `disp`, or of `disp` and the next instruction's address where
/// `rip_relative` is set.
#[derive(Clone, Copy, PartialEq, Eq, Debug)]
pub struct ModRm {
    /// Bits 7:6, 0 to 3.
    pub md: u8,
    /// Bits 5:3, with REX.R as bit 3.
    pub reg: u8,
    /// Bits 2:0, with REX.B as bit 3.
    pub rm: u8,
    /// The base register, 0 to 15: of a 16-bit pair the first. None for a register operand, and
    /// where a displacement stands alone.
    pub base: Option<u8>,
    /// The index register, 0 to 15: of a 16-bit pair the second.
    pub index: Option<u8>,
    /// 1, 2, 4 or 8; 1 where there is no index.
    pub scale: u8,
    /// The displacement as a signed number of its size; 0 where there is none.
    pub disp: i64,
    /// The displacement counts from the next instruction.
    pub rip_relative: bool,
}
