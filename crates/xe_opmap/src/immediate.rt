//! The immediates of an instruction.

ghost use Rattle.std.specs.Prelude.{◌≡◌, ◌≤◌, ◌<◌, ◌^◌, ◌*◌, ◌+◌, ◌||◌, ◌==◌, IsTrue};
ghost use Rattle.xe_base.specs.Words.{signed, wrapped};
ghost use Rattle.xe_modrm.specs.Reader.{Within};
ghost use Rattle.xe_opmap.specs.Encoding.{IsSize};
ghost use Rattle.xe_opmap.specs.Valid.{imm_width};
ghost use Rattle.xe_opmap.specs.Immediate.{IsBytes, IsCount, full_len, second_len, extended, number_part, extended_part, first_part, second_part};

use crate::form::ImmediateKind;
use xe_base::Word;
use xe_modrm::Part;

/// How many bytes an iz immediate has.
#[inline(always)]
fn full_len(opsize: u8) -> usize
    ensures value { result ≡ full_len opsize }
    ensures count { IsCount result }
{
    if opsize == 2 { 2 } else { 4 }
}

/// How many bytes the second immediate has.
#[inline(always)]
fn second_len(imm: ImmediateKind) -> usize
    ensures value { result ≡ second_len imm }
    ensures count { IsCount result }
    ensures bound { result ≤ 2 }
{
    match imm {
        ImmediateKind::FarPointer => 2,
        ImmediateKind::EnterFrame => 1,
        ImmediateKind::Nothing
        | ImmediateKind::Byte
        | ImmediateKind::SignedByte
        | ImmediateKind::Word
        | ImmediateKind::SignedOperand
        | ImmediateKind::OperandSized
        | ImmediateKind::Address => 0,
    }
}

/// A number of n bytes, the lowest first.
#[tactic(auto, unfolding(xe_base::specs::Bytes::num))]
#[inline(always)]
fn number(n: usize, bytes: &[u8]) -> Part<u64>
    requires { IsCount n }
    ensures value { result ≡ number_part n bytes.now }
    ensures bytes { IsBytes n result }
    ensures within { Within result bytes.now }
{
    if bytes.len() < n {
        return Part::More;
    }
    let number = match &bytes[..n] {
        [] => 0,
        [a] => u64::from(*a),
        [a, b] => u64::from(u16::from_le_bytes([*a, *b])),
        [a, b, c, d] => u64::from(u32::from_le_bytes([*a, *b, *c, *d])),
        [a, b, c, d, e, f, g, h] => u64::from_le_bytes([*a, *b, *c, *d, *e, *f, *g, *h]),
        _ => unreachable!(),
    };
    Part::Got(number, n)
}

/// The signed number of n bytes.
#[inline(always)]
fn signed(n: usize, x: u64) -> i128
    requires n { IsTrue (n == 1 || n == 2 || n == 4) }
    requires number { x < 2 ^ (8 * n) }
    ensures { result ≡ signed (8 * n) x }
{
    match n {
        1 => Word::<8>::new(x).signed(),
        2 => Word::<16>::new(x).signed(),
        4 => Word::<32>::new(x).signed(),
        _ => unreachable!(),
    }
}

/// A whole number cut to the operand size.
#[inline(always)]
fn wrapped(number: i128, opsize: u8) -> u64
    requires { IsSize opsize }
    ensures value { result ≡ wrapped (8 * opsize) number }
    ensures range { result < 2 ^ (8 * opsize) }
{
    match opsize {
        2 => Word::<16>::wrapped(number).get(),
        4 => Word::<32>::wrapped(number).get(),
        8 => Word::<64>::wrapped(number).get(),
        _ => unreachable!(),
    }
}

/// A number of n bytes, sign-extended to the operand size.
#[inline(always)]
fn extended(n: usize, opsize: u8, x: u64) -> u64
    requires opsize { IsSize opsize }
    requires n { IsTrue (n == 1 || n == 2 || n == 4) }
    requires number { x < 2 ^ (8 * n) }
    ensures value { result ≡ extended n opsize x }
    ensures range { result < 2 ^ (8 * opsize) }
{
    wrapped(signed(n, x), opsize)
}

/// The second immediate.
#[inline(always)]
pub fn second(imm: ImmediateKind, bytes: &[u8]) -> Part<u16>
    ensures value { result ≡ second_part imm bytes.now }
    ensures within { Within result bytes.now }
{
    match number(second_len(imm), bytes) {
        Part::Got(number, used) => Part::Got(number as u16, used),
        Part::More => Part::More,
    }
}

/// A number of n bytes, sign-extended to the operand size.
#[inline(always)]
fn extended_number(n: usize, opsize: u8, bytes: &[u8]) -> Part<u64>
    requires opsize { IsSize opsize }
    requires n { IsTrue (n == 1 || n == 2 || n == 4) }
    ensures value { result ≡ extended_part n opsize bytes.now }
    ensures range { IsBytes opsize result }
    ensures within { Within result bytes.now }
{
    match number(n, bytes) {
        Part::Got(number, used) => Part::Got(extended(n, opsize, number), used),
        Part::More => Part::More,
    }
}

/// The first immediate, by operand size and address size.
#[inline(always)]
pub fn first(opsize: u8, adsize: u8, imm: ImmediateKind, bytes: &[u8]) -> Part<u64>
    requires opsize { IsSize opsize }
    requires adsize { IsSize adsize }
    ensures value { result ≡ first_part opsize adsize imm bytes.now }
    ensures range { IsBytes (imm_width opsize adsize imm) result }
    ensures within { Within result bytes.now }
{
    match imm {
        ImmediateKind::Nothing => number(0, bytes),
        ImmediateKind::Byte => number(1, bytes),
        ImmediateKind::SignedByte => extended_number(1, opsize, bytes),
        ImmediateKind::Word | ImmediateKind::EnterFrame => number(2, bytes),
        ImmediateKind::SignedOperand => extended_number(full_len(opsize), opsize, bytes),
        ImmediateKind::OperandSized | ImmediateKind::FarPointer => number(opsize as usize, bytes),
        ImmediateKind::Address => number(adsize as usize, bytes),
    }
}
