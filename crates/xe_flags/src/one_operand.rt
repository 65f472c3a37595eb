//! Operations on one word.

ghost use Rattle.std.specs.Prelude.{◌≡◌};
ghost use Rattle.xe_flags.specs.OneOperand.{unary_word, unary_flags};
ghost use Rattle.xe_flags.specs.Status.{SameOthers};

use crate::arithmetic::{difference, sum};
use crate::status::{Status, status_of, with_status};
use xe_base::Word;

/// The four operations on one word.
#[derive(Clone, Copy, PartialEq, Eq, Debug)]
pub enum UnOp {
    Inc,
    Dec,
    Neg,
    Not,
}

/// The word and the new flags of an operation on one word: SDM volume 2, "INC", "DEC", "NEG" and "NOT".
///
/// Inc and Dec keep the carry. Not keeps all flags.
#[tactic(auto, unfolding(crate::specs::OneOperand::unary_word, crate::specs::OneOperand::unary_flags))]
pub fn unary<const W: u32>(op: UnOp, a: Word<W>, flags: u64) -> (Word<W>, u64)
    ensures word { result.0 ≡ unary_word W op a.entry }
    ensures flags { result.1 ≡ unary_flags W op a.entry flags }
    ensures kept { SameOthers flags result.1 }
{
    let carry = status_of(flags).carry;
    match op {
        UnOp::Inc => {
            let (word, status) = sum(a, Word::new(1), false);
            (word, with_status(flags, Status { carry, ..status }))
        }
        UnOp::Dec => {
            let (word, status) = difference(a, Word::new(1), false);
            (word, with_status(flags, Status { carry, ..status }))
        }
        UnOp::Neg => {
            let (word, status) = difference(Word::new(0), a, false);
            (word, with_status(flags, status))
        }
        UnOp::Not => (a.not(), flags),
    }
}
