//! The ones of a word.

ghost use Rattle.std.specs.Prelude.{◌≡◌, ◌<◌, ◌↔◌, Option, IfSome, None, Some, count_ones};
ghost use Rattle.xe_flags.specs.Scans.{scan_found, scan_flags, scan_status, lowest_one, highest_one, IsLowestOne, IsHighestOne};
ghost use Rattle.xe_flags.specs.Status.{SameOthers};

use crate::status::{Status, status_of, with_status};
use xe_base::Word;

/// What is looked for: the lowest one, the highest one, or how many there are.
#[derive(Clone, Copy, PartialEq, Eq, Debug)]
pub enum ScanOp {
    Forward,
    Backward,
    Count,
}

/// The place of the lowest one.
fn lowest_one<const W: u32>(a: Word<W>) -> Option<Word<W>>
    ensures { result ≡ scan_found ScanOp.Forward a.entry }
{
    let value = a.get();
    if value == 0 {
        return None;
    }
    Some(Word::new(value.trailing_zeros() as u64))
}

/// The place of the highest one.
fn highest_one<const W: u32>(a: Word<W>) -> Option<Word<W>>
    ensures { result ≡ scan_found ScanOp.Backward a.entry }
{
    let value = a.get();
    if value == 0 {
        return None;
    }
    Some(Word::new((63 - value.leading_zeros()) as u64))
}

/// How many ones there are.
fn count<const W: u32>(a: Word<W>) -> Word<W>
    ensures { result ≡ count_ones a.entry }
{
    Word::new(a.get().count_ones() as u64)
}

/// What is said of the word.
#[tactic(auto, unfolding(crate::specs::Scans::scan_status))]
fn status<const W: u32>(op: ScanOp, a: Word<W>, old: Status) -> Status
    ensures { result ≡ scan_status op a.entry old }
{
    let zero = a.get() == 0;
    match op {
        ScanOp::Forward => Status { zero, ..old },
        ScanOp::Backward => Status { zero, ..old },
        ScanOp::Count => Status {
            carry: false,
            parity: false,
            adjust: false,
            zero,
            sign: false,
            overflow: false,
        },
    }
}

/// What is looked for in the word.
#[tactic(auto, unfolding(crate::specs::Scans::scan_found))]
fn found<const W: u32>(op: ScanOp, a: Word<W>) -> Option<Word<W>>
    ensures { result ≡ scan_found op a.entry }
{
    match op {
        ScanOp::Forward => lowest_one(a),
        ScanOp::Backward => highest_one(a),
        ScanOp::Count => Some(count(a)),
    }
}

/// The place or the number that is found, and the new flags: SDM volume 2, "BSF", "BSR" and "POPCNT".
///
/// There is none exactly for Forward and Backward of 0. Forward and Backward change ZF alone; Count clears the
/// other five.
pub fn scan<const W: u32>(op: ScanOp, a: Word<W>, flags: u64) -> (Option<Word<W>>, u64)
    ensures found { result.0 ≡ scan_found op a.entry }
    ensures none { (result.0 ≡ None) ↔ ((a.entry ≡ 0) × ((op ≡ ScanOp.Count) → ⊥)) }
    ensures lowest { op ≡ ScanOp.Forward → IfSome result.0 (λ n. IsLowestOne a.entry n) }
    ensures highest { op ≡ ScanOp.Backward → IfSome result.0 (λ n. IsHighestOne a.entry n) }
    ensures count { op ≡ ScanOp.Count → result.0 ≡ Some (count_ones a.entry) }
    ensures flags { result.1 ≡ scan_flags op a.entry flags }
    ensures kept { SameOthers flags result.1 }
{
    (
        found(op, a),
        with_status(flags, status(op, a, status_of(flags))),
    )
}
