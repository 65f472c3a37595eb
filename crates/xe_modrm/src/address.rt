//! Where the memory operand of an instruction lies.

ghost use Rattle.std.specs.Prelude.{◌≡◌, ◌<◌, ◌*◌, IsTrue, IfSome, ◌==◌, ◌||◌};
ghost use Rattle.xe_base.specs.Words.{wrapped};
ghost use Rattle.xe_modrm.specs.Address.{named, address_sum, effective_offset, effective_segment, default_segment, Fits};

use crate::part::{ModRm, Prefixes};
use crate::register::{BP, SP};
use xe_base::{Cpu, SegName, Word};

/// The register that a base or an index names, 0 where there is none.
fn named(cpu: &Cpu, register: Option<u8>) -> u64
    requires { IfSome register (λ r. r < 16) }
    ensures { result ≡ named cpu.now register }
{
    match register {
        None => 0,
        Some(index) => cpu.gpr[index as usize],
    }
}

/// The whole number at which a memory operand lies: base + index * scale + displacement, or the
/// displacement from the next instruction on.
fn address_sum(modrm: &ModRm, cpu: &Cpu, next: u64) -> i128
    requires { Fits modrm.now }
    ensures { result ≡ address_sum modrm.now cpu.now next }
{
    let base = named(cpu, modrm.base) as u128;
    let index = named(cpu, modrm.index) as u128;
    let next = if modrm.rip_relative { next as u128 } else { 0 };
    let unsigned = base + index * modrm.scale as u128 + next;
    unsigned as i128 + modrm.disp as i128
}

/// The low bytes of a whole number: 2, 4 or 8 of them.
fn cut(sum: i128, size: u8) -> u64
    requires { IsTrue (size == 2 || size == 4 || size == 8) }
    ensures { result ≡ wrapped (8 * size) sum }
{
    match size {
        2 => Word::<16>::wrapped(sum).get(),
        4 => Word::<32>::wrapped(sum).get(),
        8 => Word::<64>::wrapped(sum).get(),
        _ => unreachable!(),
    }
}

/// The offset of a memory operand (SDM volume 1, "Specifying an Offset"): base + index * scale +
/// displacement, or the displacement from the next instruction on, cut to the address size of 2, 4
/// or 8 bytes.
#[tactic(auto, unfolding(crate::specs::Address::effective_offset))]
pub fn effective_offset(modrm: &ModRm, adsize: u8, cpu: &Cpu, next: u64) -> u64
    requires fits { Fits modrm.now }
    requires adsize { IsTrue (adsize == 2 || adsize == 4 || adsize == 8) }
    ensures { result ≡ effective_offset modrm.now adsize cpu.now next }
{
    cut(address_sum(modrm, cpu, next), adsize)
}

/// The segment that a base register selects: the stack's for SP and BP in all their widths.
fn default_segment(base: Option<u8>) -> SegName
    ensures { result ≡ default_segment base }
{
    match base {
        Some(SP | BP) => SegName::Ss,
        Some(_) | None => SegName::Ds,
    }
}

/// The segment of a memory operand (SDM volume 1, "Assumptions in Specifying a Segment Selector"):
/// that of the prefix, where one counts.
pub fn effective_segment(pre: &Prefixes, modrm: &ModRm) -> SegName
    ensures { result ≡ effective_segment pre.now modrm.now }
{
    match pre.seg {
        Some(segment) => segment,
        None => default_segment(modrm.base),
    }
}
