//! Corrections of AX after arithmetic on decimal digits.

ghost use Rattle.std.specs.Prelude.{◌≡◌, ◌<◌, ◌↔◌, IsTrue, IsErr, IfOk};
ghost use Rattle.xe_flags.specs.Decimals.{low_byte, bcd_ax, bcd_flags, bcd_result, bcd_status, is_low_corrected, is_high_corrected, correction, cut_to_digit, with_low_byte, aaa_sum, aas_difference};
ghost use Rattle.xe_flags.specs.Status.{by_result as status_by, SameOthers};

use crate::quotients::DivFault;
use crate::status::{Status, status_of, with_status};
use xe_base::Word;

/// The six corrections.
#[derive(Clone, Copy, PartialEq, Eq, Debug)]
pub enum BcdOp {
    Daa,
    Das,
    Aaa,
    Aas,
    Aam,
    Aad,
}

/// Zero, sign and parity by AL, and the others as they were.
fn by_result(ax: u16, old: Status) -> Status
    ensures { result ≡ status_by 8 (low_byte ax) old }
{
    let al: Word<8> = Word::new(ax as u64);
    Status {
        parity: al.is_even_low(),
        zero: al.get() == 0,
        sign: al.is_negative(),
        ..old
    }
}

/// Whether the low digit is to be corrected.
fn is_low_corrected(al: u16, old: Status) -> bool
    ensures { result ≡ is_low_corrected al old }
{
    (al % 16 > 9) | old.adjust
}

/// Whether the high digit is to be corrected.
fn is_high_corrected(al: u16, old: Status) -> bool
    ensures { result ≡ is_high_corrected al old }
{
    (al > 0x99) | old.carry
}

/// What is added to AL, or taken from it.
fn correction(al: u16, old: Status) -> u16
    ensures value { result ≡ correction al old }
    ensures bound { result < 256 }
{
    let low = if is_low_corrected(al, old) { 6 } else { 0 };
    let high = if is_high_corrected(al, old) { 0x60 } else { 0 };
    low + high
}

/// DAA.
#[tactic(auto, unfolding(crate::specs::Decimals::bcd_result, crate::specs::Decimals::bcd_status))]
fn decimal_sum(ax: u16, old: Status) -> (u16, Status)
    ensures ax { result.0 ≡ bcd_result BcdOp.Daa ax 0 old }
    ensures status { result.1 ≡ bcd_status BcdOp.Daa ax result.0 old }
{
    let al = ax % 256;
    let corrected = ax / 256 * 256 + (al + correction(al, old)) % 256;
    let status = Status {
        carry: is_high_corrected(al, old),
        adjust: is_low_corrected(al, old),
        ..old
    };
    (corrected, by_result(corrected, status))
}

/// DAS.
#[tactic(auto, unfolding(crate::specs::Decimals::bcd_result, crate::specs::Decimals::bcd_status))]
fn decimal_difference(ax: u16, old: Status) -> (u16, Status)
    ensures ax { result.0 ≡ bcd_result BcdOp.Das ax 0 old }
    ensures status { result.1 ≡ bcd_status BcdOp.Das ax result.0 old }
{
    let al = ax % 256;
    let corrected = ax / 256 * 256 + (al + 256 - correction(al, old)) % 256;
    let low = is_low_corrected(al, old);
    let status = Status {
        carry: is_high_corrected(al, old) | (low & (al < 6)),
        adjust: low,
        ..old
    };
    (corrected, by_result(corrected, status))
}

/// AX with AL cut to its low digit.
fn cut_to_digit(ax: u16) -> u16
    ensures { result ≡ cut_to_digit ax }
{
    ax / 256 * 256 + ax % 16
}

/// AX after the carry of a decimal digit into AH.
fn with_digit_carried(ax: u16, low: bool) -> u16
    ensures { result ≡ aaa_sum ax low }
{
    if low { ax.wrapping_add(0x106) } else { ax }
}

/// AX after the borrow of a decimal digit from AH.
fn with_digit_borrowed(ax: u16, low: bool) -> u16
    ensures { result ≡ aas_difference ax low }
{
    if !low {
        return ax;
    }
    let less = ax.wrapping_sub(6);
    (less / 256 + 255) % 256 * 256 + less % 256
}

/// What AAA and AAS say: whether the digit was corrected.
fn digit_status(low: bool, old: Status) -> Status
    ensures { result ≡ record old { carry = low; adjust = low } }
{
    Status {
        carry: low,
        adjust: low,
        ..old
    }
}

/// AAM.
#[tactic(auto, unfolding(crate::specs::Decimals::bcd_result, crate::specs::Decimals::bcd_status))]
fn digits(ax: u16, base: u8, old: Status) -> (u16, Status)
    requires { 0 < base }
    ensures ax { result.0 ≡ bcd_result BcdOp.Aam ax base old }
    ensures status { result.1 ≡ bcd_status BcdOp.Aam ax result.0 old }
{
    let al = ax % 256;
    let split = al / base as u16 * 256 + al % base as u16;
    (split, by_result(split, old))
}

/// AAD.
#[tactic(auto, unfolding(crate::specs::Decimals::bcd_result, crate::specs::Decimals::bcd_status))]
fn number(ax: u16, base: u8, old: Status) -> (u16, Status)
    ensures ax { result.0 ≡ bcd_result BcdOp.Aad ax base old }
    ensures status { result.1 ≡ bcd_status BcdOp.Aad ax result.0 old }
{
    let joined = (ax % 256 + ax / 256 * base as u16) % 256;
    (joined, by_result(joined, old))
}

/// Whether the correction is a division by 0.
fn is_by_zero(op: BcdOp, imm: u8) -> bool
    ensures { IsTrue result ↔ ((op ≡ BcdOp.Aam) × (imm ≡ 0)) }
{
    match op {
        BcdOp::Aam => imm == 0,
        BcdOp::Daa | BcdOp::Das | BcdOp::Aaa | BcdOp::Aas | BcdOp::Aad => false,
    }
}

/// AX and the six flags after a correction.
#[tactic(auto, unfolding(crate::specs::Decimals::bcd_result, crate::specs::Decimals::bcd_status))]
fn outcome(op: BcdOp, ax: u16, imm: u8, old: Status) -> (u16, Status)
    requires { op ≡ BcdOp.Aam → 0 < imm }
    ensures ax { result.0 ≡ bcd_result op ax imm old }
    ensures status { result.1 ≡ bcd_status op ax result.0 old }
{
    let low = is_low_corrected(ax % 256, old);
    match op {
        BcdOp::Daa => decimal_sum(ax, old),
        BcdOp::Das => decimal_difference(ax, old),
        BcdOp::Aaa => (
            cut_to_digit(with_digit_carried(ax, low)),
            digit_status(low, old),
        ),
        BcdOp::Aas => (
            cut_to_digit(with_digit_borrowed(ax, low)),
            digit_status(low, old),
        ),
        BcdOp::Aam => digits(ax, imm, old),
        BcdOp::Aad => number(ax, imm, old),
    }
}

/// AX and the new flags after a correction: SDM volume 2, "DAA", "DAS", "AAA", "AAS", "AAM" and "AAD".
///
/// `imm` is the base of Aam and Aad; the others do not look at it. The fault comes exactly for Aam with 0. The flags
/// that the SDM leaves undefined stay.
pub fn bcd(op: BcdOp, ax: u16, imm: u8, flags: u64) -> Result<(u16, u64), DivFault>
    ensures fault { IsErr result ↔ ((op ≡ BcdOp.Aam) × (imm ≡ 0)) }
    ensures ax { IfOk result (λ r. r.0 ≡ bcd_ax op ax imm flags) }
    ensures flags { IfOk result (λ r. r.1 ≡ bcd_flags op ax imm flags) }
    ensures kept { IfOk result (λ r. SameOthers flags r.1) }
{
    if is_by_zero(op, imm) {
        return Err(DivFault);
    }
    let (corrected, status) = outcome(op, ax, imm, status_of(flags));
    Ok((corrected, with_status(flags, status)))
}
