//! Quotients of a number of two words by a word.

ghost use Rattle.std.specs.Prelude.{◌≡◌, ◌^◌, ◌*◌, ◌+◌, ◌≤◌, ◌↔◌, unsigned_abs, IsErr, IfOk, Some, None};
ghost use Rattle.xe_base.specs.Words.{signed, wrapped, fits_signed, IsWidth};
ghost use Rattle.xe_flags.specs.Quotients.{unsigned_divided, signed_divided, divided, with_sign};

use xe_base::Word;

/// A division by 0, or whose quotient has no room.
#[derive(Clone, Copy, PartialEq, Eq, Debug)]
pub struct DivFault;

/// The number that two words make.
pub(crate) fn joined<const W: u32>(high: Word<W>, low: Word<W>) -> u128
    ensures { result ≡ high.entry * 2 ^ W + low.entry }
{
    ((high.get() as u128) << W) + low.get() as u128
}

/// How far a signed number of two words is from 0.
fn wide_magnitude<const W: u32>(high: Word<W>, low: Word<W>) -> u128
    ensures { result ≡ unsigned_abs (signed (W + W) (high.entry * 2 ^ W + low.entry)) }
{
    if high.is_negative() {
        joined(high.not(), low.not()) + 1
    } else {
        joined(high, low)
    }
}

/// How far a signed number is from 0.
fn magnitude<const W: u32>(a: Word<W>) -> u128
    ensures { result ≡ unsigned_abs (signed W a.entry) }
{
    if a.is_negative() {
        a.not().get() as u128 + 1
    } else {
        a.get() as u128
    }
}

/// A number with a sign, as a word.
fn with_sign<const W: u32>(negative: bool, n: u128) -> Word<W>
    requires width { IsWidth W }
    requires bound { n ≤ 2 ^ W }
    ensures { result ≡ wrapped W (with_sign negative n) }
{
    if negative {
        Word::low((1 << W) - n)
    } else {
        Word::low(n)
    }
}

/// The quotient and the remainder of whole numbers.
fn unsigned_quotient<const W: u32>(
    high: Word<W>,
    low: Word<W>,
    by: Word<W>,
) -> Option<(Word<W>, Word<W>)>
    ensures { result ≡ unsigned_divided W high.entry low.entry by.entry }
{
    if by.get() == 0 {
        return None;
    }
    let number = joined(high, low);
    let quotient = number / by.get() as u128;
    let rest = number % by.get() as u128;
    if quotient >> W != 0 {
        return None;
    }
    Some((Word::low(quotient), Word::low(rest)))
}

/// Whether a number with a sign has a word.
fn has_room<const W: u32>(kind: Word<W>, negative: bool, n: u128) -> bool
    ensures { result ≡ fits_signed W (with_sign negative n) }
{
    let half = 1u128 << (W - 1);
    if negative { n <= half } else { n < half }
}

/// The quotient and the remainder of signed numbers.
fn signed_quotient<const W: u32>(
    high: Word<W>,
    low: Word<W>,
    by: Word<W>,
) -> Option<(Word<W>, Word<W>)>
    ensures { result ≡ signed_divided W high.entry low.entry by.entry }
{
    if by.get() == 0 {
        return None;
    }
    let number = wide_magnitude(high, low);
    let divisor = magnitude(by);
    let negative = high.is_negative() != by.is_negative();
    let quotient = number / divisor;
    if !has_room(by, negative, quotient) {
        return None;
    }
    Some((
        with_sign(negative, quotient),
        with_sign(high.is_negative(), number % divisor),
    ))
}

/// The quotient, rounded towards zero, and the remainder: SDM volume 2, "DIV" and "IDIV".
///
/// The number is `high` and `low` as one of twice the width. The fault comes exactly where `by` is 0 or the quotient
/// has no word. No flag changes.
pub fn div<const W: u32>(
    signed: bool,
    high: Word<W>,
    low: Word<W>,
    by: Word<W>,
) -> Result<(Word<W>, Word<W>), DivFault>
    ensures fault { IsErr result ↔ (divided W signed high.entry low.entry by.entry ≡ None) }
    ensures ok { IfOk result (λ r. divided W signed high.entry low.entry by.entry ≡ Some r) }
{
    let found = if signed {
        signed_quotient(high, low, by)
    } else {
        unsigned_quotient(high, low, by)
    };
    found.ok_or(DivFault)
}
