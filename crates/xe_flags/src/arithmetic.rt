//! Sums, differences and bitwise operations of two words.

ghost use Rattle.std.specs.Prelude.{◌≡◌, ◌%◌, ◌^◌};
ghost use Rattle.std.specs.Int.{from_bool};
ghost use Rattle.xe_flags.specs.Arithmetic.{alu_word, alu_flags, alu_result, alu_status, sum_word, sum_status, difference_word, difference_status, logic_status};
ghost use Rattle.xe_flags.specs.Status.{SameOthers};

use crate::status::{Status, status_of, with_status};
use xe_base::Word;

/// The eight operations on two words, in the order of their opcodes.
#[derive(Clone, Copy, PartialEq, Eq, Debug)]
pub enum AluOp {
    Add,
    Or,
    Adc,
    Sbb,
    And,
    Sub,
    Xor,
    Cmp,
}

/// The sum of two words and a carry.
pub(crate) fn sum<const W: u32>(a: Word<W>, b: Word<W>, carry: bool) -> (Word<W>, Status)
    ensures word { result.0 ≡ sum_word W a.entry b.entry (from_bool carry) }
    ensures status { result.1 ≡ sum_status W a.entry b.entry (from_bool carry) }
{
    let sum = a.get() as u128 + b.get() as u128 + carry as u128;
    let word: Word<W> = Word::low(sum);
    let adjust = a.get() % 16 + b.get() % 16 + carry as u64 > 15;
    let overflow = (a.is_negative() == b.is_negative()) & (word.is_negative() != a.is_negative());
    let status = Status {
        carry: sum >> W != 0,
        parity: word.is_even_low(),
        adjust,
        zero: word.get() == 0,
        sign: word.is_negative(),
        overflow,
    };
    (word, status)
}

/// The difference of two words and a borrow.
pub(crate) fn difference<const W: u32>(a: Word<W>, b: Word<W>, borrow: bool) -> (Word<W>, Status)
    ensures word { result.0 ≡ difference_word W a.entry b.entry (from_bool borrow) }
    ensures status { result.1 ≡ difference_status W a.entry b.entry (from_bool borrow) }
{
    let wide = a.get() as u128 + (1 << W) - (b.get() as u128 + borrow as u128);
    let word: Word<W> = Word::low(wide);
    let adjust = a.get() % 16 < b.get() % 16 + borrow as u64;
    let overflow = (a.is_negative() != b.is_negative()) & (word.is_negative() != a.is_negative());
    let status = Status {
        carry: wide >> W == 0,
        parity: word.is_even_low(),
        adjust,
        zero: word.get() == 0,
        sign: word.is_negative(),
        overflow,
    };
    (word, status)
}

/// What a bitwise operation says of its result.
#[tactic(auto, unfolding(crate::specs::Arithmetic::logic_status))]
fn logic<const W: u32>(word: Word<W>) -> (Word<W>, Status)
    ensures word { result.0 ≡ word.entry }
    ensures status { result.1 ≡ logic_status W word.entry }
{
    let status = Status {
        carry: false,
        parity: word.is_even_low(),
        adjust: false,
        zero: word.get() == 0,
        sign: word.is_negative(),
        overflow: false,
    };
    (word, status)
}

/// The word, and what is said of it.
#[tactic(auto, unfolding(crate::specs::Arithmetic::alu_result, crate::specs::Arithmetic::alu_status))]
fn outcome<const W: u32>(op: AluOp, a: Word<W>, b: Word<W>, carry: bool) -> (Word<W>, Status)
    ensures word { result.0 ≡ alu_result W op a.entry b.entry (from_bool carry) }
    ensures status { result.1 ≡ alu_status W op a.entry b.entry (from_bool carry) }
{
    match op {
        AluOp::Add => sum(a, b, false),
        AluOp::Or => logic(a.or(b)),
        AluOp::Adc => sum(a, b, carry),
        AluOp::Sbb => difference(a, b, carry),
        AluOp::And => logic(a.and(b)),
        AluOp::Sub => difference(a, b, false),
        AluOp::Xor => logic(a.xor(b)),
        AluOp::Cmp => (a, difference(a, b, false).1),
    }
}

/// The word and the new flags of an operation on two words: SDM volume 2, "ADD", "OR", "ADC", "SBB", "AND", "SUB",
/// "XOR" and "CMP".
///
/// Adc and Sbb take the carry of the old flags. Cmp says what Sub says, and gives a back. AF, which the SDM leaves
/// undefined after Or, And and Xor, is 0.
pub fn alu<const W: u32>(op: AluOp, a: Word<W>, b: Word<W>, flags: u64) -> (Word<W>, u64)
    ensures word { result.0 ≡ alu_word W op a.entry b.entry flags }
    ensures flags { result.1 ≡ alu_flags W op a.entry b.entry flags }
    ensures kept { SameOthers flags result.1 }
{
    let (word, status) = outcome(op, a, b, status_of(flags).carry);
    (word, with_status(flags, status))
}
