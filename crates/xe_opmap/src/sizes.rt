//! Operand size and address size, and what the opcode maps look at beside the opcode.

ghost use Rattle.std.specs.Prelude.{◌≡◌, ◌<◌, ◌≤◌, Bool, false, IsTrue, ◌==◌, ◌||◌};
ghost use Rattle.xe_modrm.specs.Prefix.{is_64_bit};
ghost use Rattle.xe_opmap.specs.Encoding.{rex_bit, conditions_of, opsize_of, adsize_of, IsSize};

use crate::form::{MapConditions, SizeIn64Bit};
use xe_base::CodeSize;
use xe_modrm::Prefixes;

/// Whether the code is 64-bit.
#[inline(always)]
pub fn is_64_bit(size: CodeSize) -> bool
    ensures { result ≡ is_64_bit size }
{
    match size {
        CodeSize::B16 | CodeSize::B32 => false,
        CodeSize::B64 => true,
    }
}

/// Bit k of REX.
#[inline(always)]
pub fn rex_bit(rex: Option<u8>, k: u32) -> bool
    requires { k < 8 }
    ensures { result ≡ rex_bit rex k }
{
    match rex {
        Some(rex) => (rex >> k) & 1 == 1,
        None => false,
    }
}

/// What the opcode maps look at beside opcode and reg field.
#[inline(always)]
pub fn conditions_of(size: CodeSize, pre: &Prefixes) -> MapConditions
    ensures { result ≡ conditions_of size pre.now }
{
    MapConditions {
        in_64_bit: is_64_bit(size),
        after_f3: pre.rep == 0xF3,
        rex_b: rex_bit(pre.rex, 0),
    }
}

/// Operand size in bytes.
#[inline(always)]
pub fn opsize_of(size: CodeSize, pre: &Prefixes, width: SizeIn64Bit) -> u8
    ensures value { result ≡ opsize_of size pre.now width }
    ensures sizes { IsSize result }
    ensures below { is_64_bit size ≡ false → result ≤ 4 }
{
    match size {
        CodeSize::B16 => if pre.opsize { 4 } else { 2 },
        CodeSize::B32 => if pre.opsize { 2 } else { 4 },
        CodeSize::B64 => {
            let wide = rex_bit(pre.rex, 3);
            match width {
                SizeIn64Bit::Near => 8,
                SizeIn64Bit::Usual | SizeIn64Bit::Stack if wide => 8,
                SizeIn64Bit::Usual | SizeIn64Bit::Stack if pre.opsize => 2,
                SizeIn64Bit::Usual => 4,
                SizeIn64Bit::Stack => 8,
            }
        }
    }
}

/// Address size in bytes.
#[inline(always)]
pub fn adsize_of(size: CodeSize, other: bool) -> u8
    ensures value { result ≡ adsize_of size other }
    ensures sizes { IsSize result }
    ensures below { is_64_bit size ≡ false → result ≤ 4 }
{
    match size {
        CodeSize::B16 => if other { 4 } else { 2 },
        CodeSize::B32 => if other { 2 } else { 4 },
        CodeSize::B64 => if other { 4 } else { 8 },
    }
}
