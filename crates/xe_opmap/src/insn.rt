//! What the decoder answers.

use crate::row::Row;
use xe_modrm::{ModRm, Prefixes};

/// An instruction.
#[derive(Clone, Copy, PartialEq, Eq, Debug)]
pub struct Insn {
    pub row: Row,
    /// How many bytes it has, 1 to 15.
    pub len: u8,
    /// The opcode byte, and 0F00 more for an opcode after 0F.
    pub opcode: u16,
    /// The operand size in bytes, 2, 4 or 8; in byte forms too.
    pub opsize: u8,
    /// The address size in bytes, 2, 4 or 8.
    pub adsize: u8,
    pub pre: Prefixes,
    /// The operand of the ModRM byte, where the opcode has one.
    pub modrm: Option<ModRm>,
    /// The first immediate, the offset of a far pointer, or the address of MOV from and to an
    /// offset. A sign-extended immediate is taken modulo 2^(8 * `opsize`). 0 where there is none.
    pub imm: u64,
    /// The selector of a far pointer, or the nesting level of ENTER. 0 where there is none.
    pub imm2: u16,
}

/// What some bytes begin with, once it is decided.
#[derive(Clone, Copy, PartialEq, Eq, Debug)]
pub enum Verdict {
    /// An instruction, whose length isn't counted yet and is 0.
    Valid(Insn),
    Invalid,
    Outside,
}

/// A verdict without its instruction, which stands in a draft beside it: a struct of this size is
/// filled where it lies, not handed from function to function.
#[derive(Clone, Copy, PartialEq, Eq, Debug)]
pub enum Judgement {
    Valid,
    Invalid,
    Outside,
}

/// What some bytes begin with.
#[derive(Clone, Copy, PartialEq, Eq, Debug)]
pub enum Decoded {
    /// An instruction of the table.
    Insn(Insn),
    /// An encoding that is invalid; carries the number of bytes that decide it.
    Invalid(u8),
    /// An encoding that the table doesn't have.
    Outside,
    /// The bytes end before it is decided.
    More,
}
