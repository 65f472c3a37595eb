//! Shifts of two words.

ghost use Rattle.std.specs.Prelude.{◌≡◌, ◌<◌, true, false};
ghost use Rattle.xe_base.specs.Words.{IsWidth};
ghost use Rattle.xe_flags.specs.DoubleShifts.{double_result, double_status, double_carry, double_word, double_flags};
ghost use Rattle.xe_flags.specs.Status.{SameOthers};

use crate::quotients::joined;
use crate::shifts::{distance, shifted};
use crate::status::with_status;
use xe_base::Word;

/// The highest of the words a, b and a, shifted left as one number.
fn left_word<const W: u32>(a: Word<W>, b: Word<W>, k: u32) -> Word<W>
    requires { k < 64 }
    ensures value { result ≡ double_result W true a.entry b.entry k }
    ensures width { IsWidth W }
{
    let above = joined(a, b) << k;
    let carried = (a.get() as u128) << k >> W;
    Word::low(above.wrapping_add(carried) >> W)
}

/// Shifted left, and the last bit that went out.
fn left<const W: u32>(a: Word<W>, b: Word<W>, k: u32) -> (Word<W>, bool)
    requires low { 0 < k }
    requires high { k < 64 }
    ensures word { result.0 ≡ double_result W true a.entry b.entry k }
    ensures carry { result.1 ≡ double_carry W true a.entry b.entry k }
{
    (left_word(a, b, k), left_word(a, b, k - 1).is_negative())
}

/// Shifted right, and the last bit that went out. The 128 bits that are kept hold all that can come down.
fn right<const W: u32>(a: Word<W>, b: Word<W>, k: u32) -> (Word<W>, bool)
    requires low { 0 < k }
    requires high { k < 64 }
    ensures word { result.0 ≡ double_result W false a.entry b.entry k }
    ensures carry { result.1 ≡ double_carry W false a.entry b.entry k }
{
    let three = (joined(a, b) << W).wrapping_add(a.get() as u128);
    (Word::low(three >> k), (three >> (k - 1)) & 1 == 1)
}

/// Shifted to one side, and the last bit that went out.
fn moved<const W: u32>(to_left: bool, a: Word<W>, b: Word<W>, k: u32) -> (Word<W>, bool)
    requires low { 0 < k }
    requires high { k < 64 }
    ensures word { result.0 ≡ double_result W to_left a.entry b.entry k }
    ensures carry { result.1 ≡ double_carry W to_left a.entry b.entry k }
{
    if to_left {
        left(a, b, k)
    } else {
        right(a, b, k)
    }
}

/// The word and the new flags of a shift that fills a with bits of b: SDM volume 2, "SHLD" and "SHRD".
///
/// The count is taken as for the other shifts, and a count of 0 changes nothing. OF says whether the sign changed, at
/// each count, and AF is 0. Where the SDM leaves the result undefined, for a count above W, the words a, b and a are
/// shifted as one number.
#[tactic(auto, unfolding(crate::specs::DoubleShifts::double_status))]
pub fn double_shift<const W: u32>(
    left: bool,
    a: Word<W>,
    b: Word<W>,
    count: u8,
    flags: u64,
) -> (Word<W>, u64)
    ensures word { result.0 ≡ double_word W left a.entry b.entry count }
    ensures flags { result.1 ≡ double_flags W left a.entry b.entry count flags }
    ensures kept { SameOthers flags result.1 }
{
    let k = distance(a, count);
    if k == 0 {
        return (a, flags);
    }
    let (word, carry) = moved(left, a, b, k);
    let status = shifted(word, carry, word.is_negative() != a.is_negative());
    (word, with_status(flags, status))
}
