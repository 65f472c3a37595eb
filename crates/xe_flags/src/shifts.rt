//! Shifts and rotates.

ghost use Rattle.std.specs.Prelude.{◌≡◌, ◌^◌, ◌*◌, ◌/◌, ◌%◌, ◌+◌, ◌-◌, ◌<◌, ◌≤◌, ◌==◌};
ghost use Rattle.std.specs.Int.{from_bool};
ghost use Rattle.xe_base.specs.Words.{wrapped, signed, top};
ghost use Rattle.xe_flags.specs.Arithmetic.{floor};
ghost use Rattle.xe_flags.specs.Shifts.{distance as distance_of, is_odd, second, turned_left, turned_right, carry_left, carry_right, shift_result, shift_status, shifted_status, shift_word, shift_flags};
ghost use Rattle.xe_flags.specs.Status.{SameOthers};

use crate::status::{Status, status_of, with_status};
use xe_base::Word;

/// The seven shifts and rotates.
#[derive(Clone, Copy, PartialEq, Eq, Debug)]
pub enum ShiftOp {
    Rol,
    Ror,
    Rcl,
    Rcr,
    Shl,
    Shr,
    Sar,
}

/// How far a count goes: modulo 32, and modulo 64 at 64 bits.
pub(crate) fn distance<const W: u32>(kind: Word<W>, count: u8) -> u32
    ensures value { result ≡ distance_of W count }
    ensures bound { result < 64 }
{
    count as u32 % if W == 64 { 64 } else { 32 }
}

/// What a shift says of its result.
pub(crate) fn shifted<const W: u32>(word: Word<W>, carry: bool, overflow: bool) -> Status
    ensures { result ≡ shifted_status W word.entry carry overflow }
{
    Status {
        carry,
        parity: word.is_even_low(),
        adjust: false,
        zero: word.get() == 0,
        sign: word.is_negative(),
        overflow,
    }
}

/// Shifted left, and the last bit that went out.
fn left<const W: u32>(a: Word<W>, k: u32) -> (Word<W>, bool)
    requires { k < 64 }
    ensures word { result.0 ≡ a.entry * 2 ^ k % 2 ^ W }
    ensures carry { result.1 ≡ (a.entry * 2 ^ k / 2 ^ W % 2 == 1) }
{
    let wide = (a.get() as u128) << k;
    (Word::low(wide), (wide >> W) & 1 == 1)
}

/// Shifted right, and the last bit that went out.
fn right<const W: u32>(a: Word<W>, k: u32) -> (Word<W>, bool)
    requires low { 0 < k }
    requires high { k < 64 }
    ensures word { result.0 ≡ a.entry / 2 ^ k }
    ensures carry { result.1 ≡ (a.entry / 2 ^ (k - 1) % 2 == 1) }
{
    (Word::new(a.get() >> k), (a.get() >> (k - 1)) & 1 == 1)
}

/// Shifted right with copies of the sign, and the last bit that went out.
fn right_signed<const W: u32>(a: Word<W>, k: u32) -> (Word<W>, bool)
    requires low { 0 < k }
    requires high { k < 64 }
    ensures word { result.0 ≡ wrapped W (floor (signed W a.entry) (2 ^ k)) }
    ensures carry { result.1 ≡ is_odd (floor (signed W a.entry) (2 ^ (k - 1))) }
{
    if a.is_negative() {
        let (word, carry) = right(a.not(), k);
        (word.not(), !carry)
    } else {
        right(a, k)
    }
}

/// The bit below the top bit.
fn is_second_set<const W: u32>(word: Word<W>) -> bool
    ensures { result ≡ second W word.entry }
{
    (word.get() >> (W - 2)) & 1 == 1
}

/// A number of so many bits, the low k of which move to the top.
fn turned(bits: u32, number: u128, k: u32) -> u128
    requires bits { bits ≤ 65 }
    requires number { number < 2 ^ bits }
    requires k { k ≤ bits }
    ensures value { result ≡ turned_right bits number k }
    ensures bound { result < 2 ^ bits }
{
    (number % (1 << k) << (bits - k)) + (number >> k)
}

/// The word turned left.
fn left_turned<const W: u32>(a: Word<W>, k: u32) -> Word<W>
    ensures { result ≡ turned_left W a.entry (k % W) }
{
    let number = a.get() as u128;
    Word::low(turned(W, number, W - k % W))
}

/// The word turned right.
fn right_turned<const W: u32>(a: Word<W>, k: u32) -> Word<W>
    ensures { result ≡ turned_right W a.entry (k % W) }
{
    let number = a.get() as u128;
    Word::low(turned(W, number, k % W))
}

/// The carry above the word.
fn with_carry<const W: u32>(a: Word<W>, carry: bool) -> u128
    ensures value { result ≡ from_bool carry * 2 ^ W + a.entry }
    ensures bound { result < 2 ^ (W + 1) }
{
    ((carry as u128) << W) + a.get() as u128
}

/// The carry and the word turned left together.
fn left_through_carry<const W: u32>(a: Word<W>, carry: bool, k: u32) -> (Word<W>, bool)
    ensures word { result.0 ≡ carry_left W a.entry carry k % 2 ^ W }
    ensures carry { result.1 ≡ (carry_left W a.entry carry k / 2 ^ W == 1) }
{
    let moved = turned(W + 1, with_carry(a, carry), W + 1 - k % (W + 1));
    (Word::low(moved), moved >> W == 1)
}

/// The carry and the word turned right together.
fn right_through_carry<const W: u32>(a: Word<W>, carry: bool, k: u32) -> (Word<W>, bool)
    ensures word { result.0 ≡ carry_right W a.entry carry k % 2 ^ W }
    ensures carry { result.1 ≡ (carry_right W a.entry carry k / 2 ^ W == 1) }
{
    let moved = turned(W + 1, with_carry(a, carry), k % (W + 1));
    (Word::low(moved), moved >> W == 1)
}

/// What a rotate says: it changes CF and OF alone.
fn rotated(old: Status, carry: bool, overflow: bool) -> Status
    ensures { result ≡ record old { carry = carry; overflow = overflow } }
{
    Status {
        carry,
        overflow,
        ..old
    }
}

/// The word and what is said of it, for a distance above 0.
#[tactic(auto, unfolding(crate::specs::Shifts::shift_result, crate::specs::Shifts::shift_status))]
fn outcome<const W: u32>(op: ShiftOp, a: Word<W>, k: u32, old: Status) -> (Word<W>, Status)
    requires low { 0 < k }
    requires high { k < 64 }
    ensures word { result.0 ≡ shift_result W op a.entry old.carry k }
    ensures status { result.1 ≡ shift_status W op a.entry old k }
{
    match op {
        ShiftOp::Rol => {
            let word = left_turned(a, k);
            let carry = word.get() % 2 == 1;
            (word, rotated(old, carry, word.is_negative() != carry))
        }
        ShiftOp::Ror => {
            let word = right_turned(a, k);
            let carry = word.is_negative();
            (word, rotated(old, carry, carry != is_second_set(word)))
        }
        ShiftOp::Rcl => {
            let (word, carry) = left_through_carry(a, old.carry, k);
            (word, rotated(old, carry, word.is_negative() != carry))
        }
        ShiftOp::Rcr => {
            let (word, carry) = right_through_carry(a, old.carry, k);
            let overflow = word.is_negative() != is_second_set(word);
            (word, rotated(old, carry, overflow))
        }
        ShiftOp::Shl => {
            let (word, carry) = left(a, k);
            (word, shifted(word, carry, word.is_negative() != carry))
        }
        ShiftOp::Shr => {
            let (word, carry) = right(a, k);
            (word, shifted(word, carry, a.is_negative()))
        }
        ShiftOp::Sar => {
            let (word, carry) = right_signed(a, k);
            (word, shifted(word, carry, false))
        }
    }
}

/// The word and the new flags of a shift or a rotate: SDM volume 2, "RCL/RCR/ROL/ROR" and "SAL/SAR/SHL/SHR".
///
/// The count is taken modulo 32, and modulo 64 at 64 bits; then Rol and Ror turn by it modulo W, Rcl and Rcr modulo
/// W + 1. A count of 0 changes nothing. A rotate changes CF and OF alone, a shift all six. Where the SDM leaves OF
/// undefined, for counts above 1, it follows the rule for 1; AF after a shift is 0.
pub fn shift<const W: u32>(op: ShiftOp, a: Word<W>, count: u8, flags: u64) -> (Word<W>, u64)
    ensures word { result.0 ≡ shift_word W op a.entry count flags }
    ensures flags { result.1 ≡ shift_flags W op a.entry count flags }
    ensures kept { SameOthers flags result.1 }
{
    let k = distance(a, count);
    if k == 0 {
        return (a, flags);
    }
    let (word, status) = outcome(op, a, k, status_of(flags));
    (word, with_status(flags, status))
}
