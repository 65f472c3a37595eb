//! Where the elements of strings lie.
#![tactic(auto, using(xe_ctx::proofs::Trees::row_rules))]

ghost use Rattle.std.specs.Prelude.{◌≡◌, ◌<◌, ◌≤◌, ◌*◌, ◌%◌, ◌^◌};
ghost use Rattle.xe_opmap.specs.Encoding.{IsSize};
ghost use Rattle.xe_string.specs.Index.{source_segment, index, is_down, further, moved, both_moved};

use xe_base::{Cpu, SegName};
use xe_ctx::operand::{read_register, write_register};
use xe_flags::flag;
use xe_opmap::Insn;

/// RSI, or its part of the address size, which indexes the source.
pub const SI: u8 = 6;
/// RDI, or its part of the address size, which indexes the destination.
pub const DI: u8 = 7;

/// The place of DF in the flags.
const DIRECTION: u32 = 10;

/// The segment of the source: DS, or that of a prefix. The destination lies in ES always.
pub fn source_segment(insn: &Insn) -> SegName
    ensures { result ≡ source_segment insn.now }
{
    match insn.pre.seg {
        None => SegName::Ds,
        Some(segment) => segment,
    }
}

/// The offset that an index register holds.
pub fn index(insn: &Insn, cpu: &Cpu, register: u8) -> u64
    requires adsize { IsSize insn.now.adsize }
    requires register { register < 16 }
    ensures { result ≡ index insn.now cpu.now register }
{
    read_register(insn, cpu, insn.adsize, register)
}

/// Whether strings are gone through downwards.
fn is_down(cpu: &Cpu) -> bool
    ensures { result ≡ is_down cpu.now }
{
    flag(cpu.rflags, DIRECTION)
}

/// An offset, cut to the address size.
fn wrap(insn: &Insn, offset: u64) -> u64
    requires { IsSize insn.now.adsize }
    ensures { result ≡ offset % 2 ^ (8 * insn.now.adsize) }
{
    match insn.adsize {
        2 => offset % (1 << 16),
        4 => offset % (1 << 32),
        _ => offset,
    }
}

/// The offset `size` bytes further in the direction of the string.
fn further(insn: &Insn, cpu: &Cpu, offset: u64, size: u8) -> u64
    requires adsize { IsSize insn.now.adsize }
    requires size { size ≤ 8 }
    ensures { result ≡ further insn.now cpu.now offset size }
{
    if is_down(cpu) {
        wrap(insn, offset.wrapping_sub(size as u64))
    } else {
        wrap(insn, offset.wrapping_add(size as u64))
    }
}

/// Moves an index register behind an element of `size` bytes (SDM volume 1, "String Instructions").
#[tactic(auto, unfolding(crate::specs::Index::moved))]
pub fn move_index(insn: &Insn, cpu: &mut Cpu, register: u8, size: u8)
    requires adsize { IsSize insn.now.adsize }
    requires register { register < 16 }
    requires size { size ≤ 8 }
    ensures { cpu.new ≡ moved insn.now cpu.old register size }
{
    let offset = further(insn, cpu, index(insn, cpu, register), size);
    write_register(insn, cpu, insn.adsize, register, offset);
}

/// Moves both.
pub fn move_both(insn: &Insn, cpu: &mut Cpu, size: u8)
    requires adsize { IsSize insn.now.adsize }
    requires size { size ≤ 8 }
    ensures { cpu.new ≡ both_moved insn.now cpu.old size }
{
    move_index(insn, cpu, SI, size);
    move_index(insn, cpu, DI, size);
}
