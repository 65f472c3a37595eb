//! The operations on words, at a width that a number of bytes says.
#![tactic(auto, using(xe_ctx::proofs::Trees::row_rules))]

ghost use Rattle.std.specs.Prelude.{◌≡◌, ℕ, ◌*◌, ◌%◌, ◌^◌, IsTrue};
ghost use Rattle.xe_base.specs.Registers.{is_size};
ghost use Rattle.xe_base.specs.Words.{IsWidth};
ghost use Rattle.xe_flags.specs.Arithmetic.{alu_word, alu_flags};
ghost use Rattle.xe_flags.specs.OneOperand.{unary_word, unary_flags};
ghost use Rattle.xe_flags.specs.Bits.{bit_word, bit_flags};
ghost use Rattle.xe_flags.specs.DoubleShifts.{double_word, double_flags};
ghost use Rattle.xe_flags.specs.Products.{low_half, high_half, mul_flags};
ghost use Rattle.xe_flags.specs.Quotients.{divided};
ghost use Rattle.xe_flags.specs.Scans.{scan_found, scan_flags};
ghost use Rattle.xe_flags.specs.Shifts.{shift_word, shift_flags};
ghost use Rattle.xe_move.specs.Sized.{low};

use xe_base::Word;
use xe_flags::{
    AluOp, BitOp, ScanOp, ShiftOp, UnOp, alu, bit, div, double_shift, mul, scan, shift, unary,
};

#[inline]
fn alu_in<const W: u32>(op: AluOp, a: u64, b: u64, flags: u64) -> (u64, u64)
    requires { IsWidth W }
    ensures word { result.0 ≡ alu_word W op (a % 2 ^ W) (b % 2 ^ W) flags }
    ensures flags { result.1 ≡ alu_flags W op (a % 2 ^ W) (b % 2 ^ W) flags }
{
    let (word, flags) = alu::<W>(op, Word::new(a), Word::new(b), flags);
    (word.get(), flags)
}

/// The word and the flags of an operation on the low bytes of two numbers.
#[inline]
pub fn alu_at(op: AluOp, size: u8, a: u64, b: u64, flags: u64) -> (u64, u64)
    requires { IsTrue (is_size size) }
    ensures word { result.0 ≡ alu_word (8 * size) op (low size a) (low size b) flags }
    ensures flags { result.1 ≡ alu_flags (8 * size) op (low size a) (low size b) flags }
{
    match size {
        1 => alu_in::<8>(op, a, b, flags),
        2 => alu_in::<16>(op, a, b, flags),
        4 => alu_in::<32>(op, a, b, flags),
        _ => alu_in::<64>(op, a, b, flags),
    }
}

#[inline]
fn unary_in<const W: u32>(op: UnOp, a: u64, flags: u64) -> (u64, u64)
    requires { IsWidth W }
    ensures word { result.0 ≡ unary_word W op (a % 2 ^ W) }
    ensures flags { result.1 ≡ unary_flags W op (a % 2 ^ W) flags }
{
    let (word, flags) = unary::<W>(op, Word::new(a), flags);
    (word.get(), flags)
}

/// The word and the flags of an operation on the low bytes of a number.
#[inline]
pub fn unary_at(op: UnOp, size: u8, a: u64, flags: u64) -> (u64, u64)
    requires { IsTrue (is_size size) }
    ensures word { result.0 ≡ unary_word (8 * size) op (low size a) }
    ensures flags { result.1 ≡ unary_flags (8 * size) op (low size a) flags }
{
    match size {
        1 => unary_in::<8>(op, a, flags),
        2 => unary_in::<16>(op, a, flags),
        4 => unary_in::<32>(op, a, flags),
        _ => unary_in::<64>(op, a, flags),
    }
}

#[inline]
fn shift_in<const W: u32>(op: ShiftOp, a: u64, count: u8, flags: u64) -> (u64, u64)
    requires { IsWidth W }
    ensures word { result.0 ≡ shift_word W op (a % 2 ^ W) count flags }
    ensures flags { result.1 ≡ shift_flags W op (a % 2 ^ W) count flags }
{
    let (word, flags) = shift::<W>(op, Word::new(a), count, flags);
    (word.get(), flags)
}

/// The word and the flags of a shift of the low bytes of a number.
#[inline]
pub fn shift_at(op: ShiftOp, size: u8, a: u64, count: u8, flags: u64) -> (u64, u64)
    requires { IsTrue (is_size size) }
    ensures word { result.0 ≡ shift_word (8 * size) op (low size a) count flags }
    ensures flags { result.1 ≡ shift_flags (8 * size) op (low size a) count flags }
{
    match size {
        1 => shift_in::<8>(op, a, count, flags),
        2 => shift_in::<16>(op, a, count, flags),
        4 => shift_in::<32>(op, a, count, flags),
        _ => shift_in::<64>(op, a, count, flags),
    }
}

fn double_in<const W: u32>(left: bool, a: u64, b: u64, count: u8, flags: u64) -> (u64, u64)
    requires { IsWidth W }
    ensures word { result.0 ≡ double_word W left (a % 2 ^ W) (b % 2 ^ W) count }
    ensures flags { result.1 ≡ double_flags W left (a % 2 ^ W) (b % 2 ^ W) count flags }
{
    let (word, flags) = double_shift::<W>(left, Word::new(a), Word::new(b), count, flags);
    (word.get(), flags)
}

/// The word and the flags of a double shift of the low bytes of two numbers.
pub fn double_at(left: bool, size: u8, a: u64, b: u64, count: u8, flags: u64) -> (u64, u64)
    requires { IsTrue (is_size size) }
    ensures word { result.0 ≡ double_word (8 * size) left (low size a) (low size b) count }
    ensures flags { result.1 ≡ double_flags (8 * size) left (low size a) (low size b) count flags }
{
    match size {
        1 => double_in::<8>(left, a, b, count, flags),
        2 => double_in::<16>(left, a, b, count, flags),
        4 => double_in::<32>(left, a, b, count, flags),
        _ => double_in::<64>(left, a, b, count, flags),
    }
}

/// A product in two words, and the flags after it.
#[derive(Clone, Copy)]
pub struct Product {
    pub low: u64,
    pub high: u64,
    pub flags: u64,
}

fn mul_in<const W: u32>(is_signed: bool, a: u64, b: u64, flags: u64) -> Product
    requires { IsWidth W }
    ensures low { result.low ≡ low_half W is_signed (a % 2 ^ W) (b % 2 ^ W) }
    ensures high { result.high ≡ high_half W is_signed (a % 2 ^ W) (b % 2 ^ W) }
    ensures flags { result.flags ≡ mul_flags W is_signed (a % 2 ^ W) (b % 2 ^ W) flags }
{
    let (low, high, flags) = mul::<W>(is_signed, Word::new(a), Word::new(b), flags);
    Product {
        low: low.get(),
        high: high.get(),
        flags,
    }
}

/// The product of the low bytes of two numbers.
pub fn mul_at(is_signed: bool, size: u8, a: u64, b: u64, flags: u64) -> Product
    requires { IsTrue (is_size size) }
    ensures low { result.low ≡ low_half (8 * size) is_signed (low size a) (low size b) }
    ensures high { result.high ≡ high_half (8 * size) is_signed (low size a) (low size b) }
    ensures flags { result.flags ≡ mul_flags (8 * size) is_signed (low size a) (low size b) flags }
{
    match size {
        1 => mul_in::<8>(is_signed, a, b, flags),
        2 => mul_in::<16>(is_signed, a, b, flags),
        4 => mul_in::<32>(is_signed, a, b, flags),
        _ => mul_in::<64>(is_signed, a, b, flags),
    }
}

fn div_in<const W: u32>(is_signed: bool, high: u64, word: u64, by: u64) -> Option<(u64, u64)>
    requires { IsWidth W }
    ensures { result ≡ divided W is_signed (high % 2 ^ W) (word % 2 ^ W) (by % 2 ^ W) }
{
    match div::<W>(is_signed, Word::new(high), Word::new(word), Word::new(by)) {
        Ok((quotient, remainder)) => Some((quotient.get(), remainder.get())),
        Err(_) => None,
    }
}

/// Quotient and remainder of the low bytes of numbers, where there is a quotient.
pub fn div_at(is_signed: bool, size: u8, high: u64, word: u64, by: u64) -> Option<(u64, u64)>
    requires { IsTrue (is_size size) }
    ensures { result ≡ divided (8 * size) is_signed (low size high) (low size word) (low size by) }
{
    match size {
        1 => div_in::<8>(is_signed, high, word, by),
        2 => div_in::<16>(is_signed, high, word, by),
        4 => div_in::<32>(is_signed, high, word, by),
        _ => div_in::<64>(is_signed, high, word, by),
    }
}

fn bit_in<const W: u32>(op: BitOp, a: u64, index: u32, flags: u64) -> (u64, u64)
    requires { IsWidth W }
    ensures word { result.0 ≡ bit_word W op (a % 2 ^ W) index }
    ensures flags { result.1 ≡ bit_flags W (a % 2 ^ W) index flags }
{
    let (word, flags) = bit::<W>(op, Word::new(a), index, flags);
    (word.get(), flags)
}

/// The word and the flags of an operation on a bit of the low bytes of a number.
pub fn bit_at(op: BitOp, size: u8, a: u64, index: u32, flags: u64) -> (u64, u64)
    requires { IsTrue (is_size size) }
    ensures word { result.0 ≡ bit_word (8 * size) op (low size a) index }
    ensures flags { result.1 ≡ bit_flags (8 * size) (low size a) index flags }
{
    match size {
        1 => bit_in::<8>(op, a, index, flags),
        2 => bit_in::<16>(op, a, index, flags),
        4 => bit_in::<32>(op, a, index, flags),
        _ => bit_in::<64>(op, a, index, flags),
    }
}

fn scan_in<const W: u32>(op: ScanOp, a: u64, flags: u64) -> (Option<u64>, u64)
    requires { IsWidth W }
    ensures found { result.0 ≡ scan_found op (a % 2 ^ W) }
    ensures flags { result.1 ≡ scan_flags op (a % 2 ^ W) flags }
{
    let (found, flags) = scan::<W>(op, Word::new(a), flags);
    match found {
        Some(word) => (Some(word.get()), flags),
        None => (None, flags),
    }
}

/// What is found in the low bytes of a number, and the flags then.
pub fn scan_at(op: ScanOp, size: u8, a: u64, flags: u64) -> (Option<u64>, u64)
    requires { IsTrue (is_size size) }
    ensures found { result.0 ≡ scan_found op (low size a) }
    ensures flags { result.1 ≡ scan_flags op (low size a) flags }
{
    match size {
        1 => scan_in::<8>(op, a, flags),
        2 => scan_in::<16>(op, a, flags),
        4 => scan_in::<32>(op, a, flags),
        _ => scan_in::<64>(op, a, flags),
    }
}
