//! One bit of a word.

ghost use Rattle.std.specs.Prelude.{◌≡◌, ◌<◌};
ghost use Rattle.xe_flags.specs.Bits.{with_bit, bit_word, bit_flags, bit_result};
ghost use Rattle.xe_base.specs.Bits.{bit as bit_of};
ghost use Rattle.xe_flags.specs.Status.{SameOthers};

use crate::status::{Status, flag, status_of, with_status};
use xe_base::Word;

/// The four operations on one bit.
#[derive(Clone, Copy, PartialEq, Eq, Debug)]
pub enum BitOp {
    Test,
    Set,
    Reset,
    Flip,
}

/// The word with this bit at a place.
fn with_bit<const W: u32>(a: Word<W>, at: u32, on: bool) -> Word<W>
    requires { at < W }
    ensures { result ≡ with_bit a.entry at on }
{
    let value = a.get();
    let own = ((value >> at) & 1) << at;
    Word::new(value - own + ((on as u64) << at))
}

/// The word after an operation on its bit at a place.
#[tactic(auto, unfolding(crate::specs::Bits::bit_result))]
fn outcome<const W: u32>(op: BitOp, a: Word<W>, at: u32, is_set: bool) -> Word<W>
    requires place { at < W }
    requires own { is_set ≡ bit_of a at }
    ensures { result ≡ bit_result op a.entry at }
{
    match op {
        BitOp::Test => a,
        BitOp::Set => with_bit(a, at, true),
        BitOp::Reset => with_bit(a, at, false),
        BitOp::Flip => with_bit(a, at, !is_set),
    }
}

/// The word after an operation on its bit at the index modulo W, and the new flags: SDM volume 2, "BT", "BTS", "BTR"
/// and "BTC".
///
/// CF is the old bit. The flags that the SDM leaves undefined stay.
pub fn bit<const W: u32>(op: BitOp, a: Word<W>, index: u32, flags: u64) -> (Word<W>, u64)
    ensures word { result.0 ≡ bit_word W op a.entry index }
    ensures flags { result.1 ≡ bit_flags W a.entry index flags }
    ensures kept { SameOthers flags result.1 }
{
    let value = a.get();
    let at = index % W;
    let is_set = flag(value, at);
    let status = Status {
        carry: is_set,
        ..status_of(flags)
    };
    (outcome(op, a, at, is_set), with_status(flags, status))
}
