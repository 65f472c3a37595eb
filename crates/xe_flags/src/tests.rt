//! What no clause says: that the definitions are those of a processor. The expected values are checked against one,
//! where it defines them.

ghost use Rattle.std.specs.Prelude.{◌≡◌, nat_lt};

use crate::laws::{flags_are_read_back, other_flags_stay, status_changes_are_calm};
use crate::{
    AluOp, BcdOp, BitOp, DivFault, ScanOp, ShiftOp, UnOp, alu, bcd, bit, condition, div,
    double_shift, mul, scan, shift, unary,
};
use std::test::Fail;
use xe_base::Word;

#[test]
fn works_on_two_words(rt: HostRuntime) -> Result<(), Fail> {
    for (op, a, b, flags, word, after) in [
        (
            AluOp::Add,
            0x7FFF_FFFF,
            0x28CD_2F71,
            0x2,
            0xA8CD_2F70,
            0x892,
        ),
        (AluOp::Or, 0x581D_B8CC, 0x2, 0x3, 0x581D_B8CE, 0x2),
        (AluOp::Adc, 0xF, 0x7FFF_FFFF, 0x2, 0x8000_000E, 0x892),
        (AluOp::Sbb, 0x7B0E_D4F5, 0xFFFF_FFFF, 0x3, 0x7B0E_D4F5, 0x17),
        (AluOp::And, 0x6798_3419, 0x8000_0001, 0x2, 0x1, 0x2),
        (
            AluOp::Sub,
            0xCEED_2004,
            0x7FFF_FFFF,
            0x8D7,
            0x4EED_2005,
            0x816,
        ),
        (
            AluOp::Xor,
            0xFFFF_FFFE,
            0x8000_0000,
            0x246,
            0x7FFF_FFFE,
            0x202,
        ),
        (AluOp::Cmp, 0x1, 0xFFFF_FFFE, 0x2, 0x1, 0x17),
    ] {
        let answer = alu::<32>(op, Word::new(a), Word::new(b), flags);
        assert_eq!(rt; answer, (Word::new(word), after));
    }
    Ok(())
}

#[test]
fn works_on_one_word(rt: HostRuntime) -> Result<(), Fail> {
    for (op, a, flags, word, after) in [
        (UnOp::Inc, 0xFFFE, 0x483, 0xFFFF, 0x487),
        (UnOp::Dec, 0x7FFF, 0x8D7, 0x7FFE, 0x3),
        (UnOp::Neg, 0x9B22, 0x3, 0x64DE, 0x17),
        (UnOp::Not, 0x5A74, 0x8D7, 0xA58B, 0x8D7),
    ] {
        let answer = unary::<16>(op, Word::new(a), flags);
        assert_eq!(rt; answer, (Word::new(word), after));
    }
    Ok(())
}

#[test]
fn shifts_and_turns(rt: HostRuntime) -> Result<(), Fail> {
    for (op, a, count, flags, word, after) in [
        (ShiftOp::Rol, 0x7F, 16, 0x246, 0x7F, 0xA47),
        (ShiftOp::Ror, 0x80, 33, 0x3, 0x40, 0x802),
        (ShiftOp::Rcl, 0xFE, 17, 0x2, 0x7F, 0x2),
        (ShiftOp::Rcr, 0xFF, 9, 0x3, 0xFF, 0x3),
        (ShiftOp::Shl, 0xFF, 8, 0x12, 0, 0x847),
        (ShiftOp::Shl, 0x10, 32, 0x246, 0x10, 0x246),
        (ShiftOp::Shr, 0xBD, 208, 0x742, 0, 0xF46),
        (ShiftOp::Sar, 0xAC, 9, 0x2, 0xFF, 0x87),
    ] {
        let answer = shift::<8>(op, Word::new(a), count, flags);
        assert_eq!(rt; answer, (Word::new(word), after));
    }
    Ok(())
}

#[test]
fn shifts_two_words(rt: HostRuntime) -> Result<(), Fail> {
    for (left, a, b, count, flags, word, after) in [
        (
            true,
            0x5F47_BA40_CFC0_73B0,
            0,
            33,
            0x12,
            0x9F80_E760_0000_0000,
            0x887,
        ),
        (
            false,
            0x7FFF_FFFF_FFFF_FFFF,
            1,
            234,
            0x246,
            0x5F_FFFF,
            0x207,
        ),
        (true, 0, 0x8000_0000_0000_0001, 0, 0x8D7, 0, 0x8D7),
    ] {
        let answer = double_shift::<64>(left, Word::new(a), Word::new(b), count, flags);
        assert_eq!(rt; answer, (Word::new(word), after));
    }
    Ok(())
}

#[test]
fn multiplies(rt: HostRuntime) -> Result<(), Fail> {
    for (signed, a, b, flags, low, high, after) in [
        (
            true,
            0x10,
            0x8000_0000_0000_0001,
            0x246,
            0x10,
            0xFFFF_FFFF_FFFF_FFF8,
            0xA47,
        ),
        (
            false,
            0xC08E_6A71_74CB_53DB,
            2,
            0x12,
            0x811C_D4E2_E996_A7B6,
            1,
            0x813,
        ),
    ] {
        let answer = mul::<64>(signed, Word::new(a), Word::new(b), flags);
        assert_eq!(rt; answer, (Word::new(low), Word::new(high), after));
    }
    Ok(())
}

#[test]
fn divides(rt: HostRuntime) -> Result<(), Fail> {
    for (signed, high, low, by, answer) in [
        (true, 0xFF, 0x00, 0xB9, Ok((0x3, 0xD5))),
        (true, 0xFE, 0xFF, 0x01, Err(DivFault)),
        (false, 0x02, 0xFF, 0xFF, Ok((0x3, 0x2))),
        (false, 0x30, 0xFE, 0x00, Err(DivFault)),
    ] {
        let got = div::<8>(signed, Word::new(high), Word::new(low), Word::new(by));
        assert_eq!(rt;
            got.map(|(quotient, rest)| (quotient.get(), rest.get())),
            answer
        );
    }
    Ok(())
}

#[test]
fn corrects_digits(rt: HostRuntime) -> Result<(), Fail> {
    for (op, ax, imm, flags, answer) in [
        (BcdOp::Daa, 0x7E3D, 0xA, 0x12, Ok((0x7E43, 0x12))),
        (BcdOp::Das, 0x28F, 0xA, 0x12, Ok((0x289, 0x92))),
        (BcdOp::Aaa, 0x269E, 0xA, 0x2, Ok((0x2704, 0x13))),
        (BcdOp::Aas, 0xB1EA, 0xA, 0x192, Ok((0xB004, 0x193))),
        (BcdOp::Aam, 0xB819, 0xA, 0x12, Ok((0x205, 0x16))),
        (BcdOp::Aam, 0xCD9, 0, 0xD12, Err(DivFault)),
        (BcdOp::Aad, 0x19F2, 0xA, 0x496, Ok((0xEC, 0x492))),
    ] {
        assert_eq!(rt; bcd(op, ax, imm, flags), answer);
    }
    Ok(())
}

#[test]
fn works_on_one_bit(rt: HostRuntime) -> Result<(), Fail> {
    for (op, a, index, flags, word, after) in [
        (BitOp::Test, 0, 154, 0x8D7, 0, 0x8D6),
        (BitOp::Set, 2, 157, 0x8D7, 0x2000_0002, 0x8D6),
        (
            BitOp::Reset,
            0xFFFF_FFFF_FFFF_FFFF,
            190,
            0x12,
            0xBFFF_FFFF_FFFF_FFFF,
            0x13,
        ),
        (
            BitOp::Flip,
            0xFFFF_FFFF_FFFF_FFFE,
            102,
            0x416,
            0xFFFF_FFBF_FFFF_FFFE,
            0x417,
        ),
    ] {
        let answer = bit::<64>(op, Word::new(a), index, flags);
        assert_eq!(rt; answer, (Word::new(word), after));
    }
    Ok(())
}

#[test]
fn scans(rt: HostRuntime) -> Result<(), Fail> {
    for (op, a, flags, found, after) in [
        (ScanOp::Forward, 0x8000, 0x8D2, Some(0xF), 0x892),
        (ScanOp::Backward, 0xDB8C, 0xE46, Some(0xF), 0xE06),
        (ScanOp::Count, 0xDB55, 0x8D7, Some(0xA), 0x2),
        (ScanOp::Forward, 0, 0x12, None, 0x52),
    ] {
        let (got, flags) = scan::<16>(op, Word::new(a), flags);
        assert_eq!(rt; got.map(|word| word.get()), found);
        assert_eq!(rt; flags, after);
    }
    Ok(())
}

/// A comparison and the condition after it, as a caller has them.
#[tactic(auto, using(crate::proofs::FlagSet::flag_reads), unfolding(crate::specs::Arithmetic::alu_status, crate::specs::Arithmetic::difference_status))]
fn is_below(a: u32, b: u32, flags: u64) -> bool
    ensures { result ≡ nat_lt a b }
{
    let (_, after) = alu::<32>(AluOp::Cmp, Word::new(a as u64), Word::new(b as u64), flags);
    condition(2, after)
}

#[test]
fn compares_and_tests(rt: HostRuntime) -> Result<(), Fail> {
    flags_are_read_back();
    other_flags_stay();
    status_changes_are_calm();
    assert!(rt; is_below(1, 0xFFFF_FFFE, 0x2));
    assert!(rt; condition(0xC, 0x80));
    assert!(rt; !condition(0xF, 0x880 | 0x40));
    Ok(())
}
