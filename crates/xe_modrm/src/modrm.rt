//! The operand of a ModRM byte, with its SIB byte and displacement.

ghost use Rattle.std.specs.Prelude.{◌≡◌, ◌≤◌, ◌<◌, ◌*◌, ◌^◌, ◌==◌, ◌||◌, ◌≢◌, length, IsTrue, IfSome, pos};
ghost use Rattle.xe_base.specs.Bytes.{num};
ghost use Rattle.xe_base.specs.Words.{signed};
ghost use Rattle.xe_modrm.specs.Reader.{one_byte, Within};
ghost use Rattle.xe_modrm.specs.Operand.{md_of, is_short, eight, has_sib, disp_len, sib_part, disp_part, short_base, short_index, long_base, long_index, long_scale, operand_of, operand_after, operand_part};
ghost use Rattle.xe_modrm.specs.Valid.{IsModRm, IsGotModRm};

use crate::modrm_byte::ModRmByte;
use crate::part::{ModRm, Part, Prefixes};
use crate::prefix::is_64_bit;
use crate::register::{BP, BX, DI, SI};
use crate::sib_byte::SibByte;
use xe_base::{CodeSize, Word};

/// Whether addresses have 16 bits.
#[inline(always)]
fn is_short(size: CodeSize, other: bool) -> bool
    ensures { result ≡ is_short size other }
{
    match size {
        CodeSize::B16 => !other,
        CodeSize::B32 => other,
        CodeSize::B64 => false,
    }
}

/// Bit k of REX, as 8 more to a register number.
#[inline(always)]
fn eight(rex: Option<u8>, k: u32) -> u8
    requires { k < 8 }
    ensures value { result ≡ eight rex k }
    ensures bound { result ≤ 8 }
{
    match rex {
        Some(rex) => 8 * ((rex >> k) & 1),
        None => 0,
    }
}

/// Whether a SIB byte follows a ModRM byte.
#[inline(always)]
fn has_sib(short: bool, m: ModRmByte) -> bool
    ensures { result ≡ has_sib short m.byte }
{
    !short & (m.md() != 3) & (m.rm() == 4)
}

/// How many bytes the displacement has.
#[inline(always)]
fn disp_len(short: bool, m: ModRmByte, sib: SibByte) -> usize
    ensures value { result ≡ disp_len short m.byte sib.byte }
    ensures bound { result ≤ 4 }
    ensures size { result ≢ 3 }
{
    let rm = m.rm();
    match m.md() {
        0 => {
            if short {
                if rm == 6 { 2 } else { 0 }
            } else if rm == 5 || (rm == 4 && sib.base() == 5) {
                4
            } else {
                0
            }
        }
        1 => 1,
        2 => if short { 2 } else { 4 },
        3 => 0,
        _ => unreachable!(),
    }
}

/// One byte.
#[inline(always)]
fn byte(bytes: &[u8]) -> Part<u8>
    ensures value { result ≡ one_byte bytes.now }
    ensures within { Within result bytes.now }
{
    match bytes {
        [] => Part::More,
        [first, ..] => Part::Got(*first, 1),
    }
}

/// The SIB byte, or 0 where there is none.
#[inline(always)]
fn sib(wanted: bool, bytes: &[u8]) -> Part<u8>
    ensures value { result ≡ sib_part wanted bytes.now }
    ensures within { Within result bytes.now }
{
    if wanted { byte(bytes) } else { Part::Got(0, 0) }
}

/// The number that 0, 1, 2 or 4 bytes are, the lowest first.
#[tactic(auto, unfolding(xe_base::specs::Bytes::num))]
#[inline(always)]
fn number(bytes: &[u8]) -> u64
    requires bound { length bytes.now ≤ 4 }
    requires size { length bytes.now ≢ 3 }
    ensures value { result ≡ num bytes.now }
    ensures range { result < 2 ^ (8 * length bytes.now) }
{
    match bytes {
        [] => 0,
        [a] => u64::from(*a),
        [a, b] => u64::from(u16::from_le_bytes([*a, *b])),
        [a, b, c, d] => u64::from(u32::from_le_bytes([*a, *b, *c, *d])),
        _ => unreachable!(),
    }
}

/// The signed number of 0, 1, 2 or 4 bytes.
#[inline(always)]
fn signed(n: usize, number: u64) -> i64
    requires bound { n ≤ 4 }
    requires size { n ≢ 3 }
    requires range { number < 2 ^ (8 * n) }
    ensures { result ≡ signed (8 * n) number }
{
    match n {
        0 => 0,
        1 => Word::<8>::new(number).signed() as i64,
        2 => Word::<16>::new(number).signed() as i64,
        4 => Word::<32>::new(number).signed() as i64,
        _ => unreachable!(),
    }
}

/// The displacement of n bytes, as a signed number of its size.
#[inline(always)]
fn displacement(n: usize, bytes: &[u8]) -> Part<i64>
    requires bound { n ≤ 4 }
    requires size { n ≢ 3 }
    ensures value { result ≡ disp_part n bytes.now }
    ensures within { Within result bytes.now }
{
    if bytes.len() < n {
        return Part::More;
    }
    Part::Got(signed(n, number(&bytes[..n])), n)
}

/// Base and index of a 16-bit address.
#[inline(always)]
fn short_registers(m: ModRmByte) -> (Option<u8>, Option<u8>)
    ensures base { result.0 ≡ short_base m.byte }
    ensures index { result.1 ≡ short_index m.byte }
    ensures base_range { IfSome result.0 (λ b. b < 16) }
    ensures index_range { IfSome result.1 (λ i. i < 16) }
{
    match m.rm() {
        0 => (Some(BX), Some(SI)),
        1 => (Some(BX), Some(DI)),
        2 => (Some(BP), Some(SI)),
        3 => (Some(BP), Some(DI)),
        4 => (Some(SI), None),
        5 => (Some(DI), None),
        6 => (if m.md() == 0 { None } else { Some(BP) }, None),
        7 => (Some(BX), None),
        _ => unreachable!(),
    }
}

/// The base of a 32-bit or 64-bit address.
#[inline(always)]
fn long_base(rex: Option<u8>, m: ModRmByte, sib: SibByte) -> Option<u8>
    ensures value { result ≡ long_base rex m.byte sib.byte }
    ensures range { IfSome result (λ b. b < 16) }
{
    let named = if m.rm() == 4 { sib.base() } else { m.rm() };
    if m.md() == 0 && named == 5 {
        None
    } else {
        Some(named + eight(rex, 0))
    }
}

/// Index and scale of a 32-bit or 64-bit address.
#[inline(always)]
fn long_index(rex: Option<u8>, m: ModRmByte, sib: SibByte) -> (Option<u8>, u8)
    ensures index { result.0 ≡ long_index rex m.byte sib.byte }
    ensures scale { result.1 ≡ long_scale rex m.byte sib.byte }
    ensures index_range { IfSome result.0 (λ i. i < 16) }
    ensures scale_range { IsTrue (result.1 == 1 || result.1 == 2 || result.1 == 4 || result.1 == 8) }
{
    let named = sib.index() + eight(rex, 1);
    if m.rm() != 4 || named == 4 {
        return (None, 1);
    }
    (Some(named), sib.scale())
}

/// What a ModRM byte means together with its SIB byte and displacement.
#[tactic(auto, unfolding(crate::specs::Operand::operand_of))]
#[inline(always)]
fn meaning(size: CodeSize, pre: &Prefixes, m: ModRmByte, sib: SibByte, disp: i64) -> ModRm
    ensures value { result ≡ operand_of size pre.now m.byte sib.byte disp }
    ensures valid { IsModRm result }
{
    let reg = m.reg() + eight(pre.rex, 2);
    let rm = m.rm() + eight(pre.rex, 0);
    let rip_relative = is_64_bit(size) & (m.md() == 0) & (m.rm() == 5);
    let (base, index, scale) = if m.md() == 3 {
        (None, None, 1)
    } else if is_short(size, pre.adsize) {
        let (base, index) = short_registers(m);
        (base, index, 1)
    } else {
        let (index, scale) = long_index(pre.rex, m, sib);
        (long_base(pre.rex, m, sib), index, scale)
    };
    ModRm {
        md: m.md(),
        reg,
        rm,
        base,
        index,
        scale,
        disp,
        rip_relative,
    }
}

/// A register operand, which is its ModRM byte alone.
#[tactic(auto, unfolding(crate::specs::Operand::operand_of))]
#[inline(always)]
fn register(size: CodeSize, pre: &Prefixes, m: ModRmByte) -> ModRm
    requires { md_of m.byte ≡ 3 }
    ensures value { result ≡ operand_of size pre.now m.byte 0 (pos 0) }
    ensures valid { IsModRm result }
{
    ModRm {
        md: 3,
        reg: m.reg() + eight(pre.rex, 2),
        rm: m.rm() + eight(pre.rex, 0),
        base: None,
        index: None,
        scale: 1,
        disp: 0,
        rip_relative: false,
    }
}

/// What follows a ModRM byte.
#[tactic(auto, unfolding(crate::specs::Operand::operand_after), using(crate::proofs::RegisterLaws::register_rest))]
#[inline(always)]
fn operand_after(size: CodeSize, pre: &Prefixes, m: ModRmByte, bytes: &[u8]) -> Part<ModRm>
    ensures value { result ≡ operand_after size pre.now m.byte bytes.now }
    ensures within { Within result bytes.now }
    ensures valid { IsGotModRm result }
{
    if m.md() == 3 {
        return Part::Got(register(size, pre, m), 0);
    }
    let short = is_short(size, pre.adsize);
    let Part::Got(sib, used) = sib(has_sib(short, m), bytes) else {
        return Part::More;
    };
    let sib = SibByte { byte: sib };
    let rest = &bytes[used..];
    let Part::Got(disp, more) = displacement(disp_len(short, m, sib), rest) else {
        return Part::More;
    };
    Part::Got(meaning(size, pre, m, sib, disp), used + more)
}

/// The operand whose ModRM byte stands at the front of `bytes`, with its SIB byte and displacement.
///
/// In 16-bit addresses mod 0 with rm 6 is a displacement of 2 bytes alone. In 32-bit and 64-bit
/// addresses rm 4 has a SIB byte, mod 0 with rm 5 is a displacement of 4 bytes alone (in 64-bit
/// code relative to the next instruction), and so is SIB base 5 at mod 0; SIB index 4 without
/// REX.X is no index. These tests ignore REX.B. mod 1 adds a signed byte, mod 2 a displacement of
/// 2 or 4 bytes (SDM volume 2, sections 2.1.5 and 2.2.1). `More` comes exactly where the bytes end
/// before the operand does.
#[tactic(auto, unfolding(crate::specs::Operand::operand_part))]
#[inline(always)]
pub fn operand(size: CodeSize, pre: &Prefixes, bytes: &[u8]) -> Part<ModRm>
    ensures value { result ≡ operand_part size pre.now bytes.now }
    ensures within { Within result bytes.now }
    ensures valid { IsGotModRm result }
{
    let Part::Got(m, used) = byte(bytes) else {
        return Part::More;
    };
    match operand_after(size, pre, ModRmByte { byte: m }, &bytes[used..]) {
        Part::Got(modrm, more) => Part::Got(modrm, used + more),
        Part::More => Part::More,
    }
}
