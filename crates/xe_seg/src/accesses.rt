//! Linear addresses, and the check of a data access in its segment.

ghost use Rattle.std.specs.Prelude.{◌≡◌, ℕ, ◌+◌, ◌%◌, ◌^◌, ◌<◌, ◌≤◌, ◌&&◌, nat_lt, nat_le, false, true, IfOk, Result, Ok, Err};
ghost use Rattle.xe_base.specs.State.{is_long, is_canonical};
ghost use Rattle.xe_seg.specs.Accesses.{access, has_base_in_long, counted_base, linear_address, segment_vector, segment_fault, protection_fault, is_inside, real_access, protected_access, long_access};
ghost use Rattle.xe_seg.specs.Each.{each};

use crate::attributes::{allows, is_expand_down, is_present};
use xe_base::access::{GENERAL_PROTECTION, STACK_FAULT};
use xe_base::{Cpu, Fault, Mode, Seg, SegName};

/// Whether the base of the segment counts in 64-bit mode: that of FS and of GS.
fn has_base_in_long(seg: SegName) -> bool
    ensures { result ≡ has_base_in_long seg }
{
    match seg {
        SegName::Fs | SegName::Gs => true,
        SegName::Es | SegName::Cs | SegName::Ss | SegName::Ds => false,
    }
}

/// The base that counts: in 64-bit mode 0 for ES, CS, SS and DS.
fn counted_base(cpu: &Cpu, seg: SegName) -> u64
    ensures { result ≡ counted_base cpu.now seg }
{
    if cpu.is_long() && !has_base_in_long(seg) {
        0
    } else {
        cpu.segment(seg).base
    }
}

/// The linear address of an offset in a segment: base + offset modulo 2^64 in 64-bit mode, where the
/// base counts for FS and GS alone, and modulo 2^32 elsewhere (SDM volume 3, "Logical and Linear
/// Addresses" and "Segmentation in IA-32e Mode"). Nothing is checked.
pub fn linear_address(cpu: &Cpu, seg: SegName, offset: u64) -> u64
    ensures { result ≡ linear_address cpu.now seg offset }
{
    let sum = counted_base(cpu, seg).wrapping_add(offset);
    if cpu.is_long() { sum } else { sum % (1 << 32) }
}

/// #SS(0) for SS, #GP(0) for the others; without a code in real mode.
fn segment_fault(cpu: &Cpu, seg: SegName) -> Fault
    ensures { result ≡ segment_fault cpu.now seg }
{
    let vector = match seg {
        SegName::Ss => STACK_FAULT,
        SegName::Es | SegName::Cs | SegName::Ds | SegName::Fs | SegName::Gs => GENERAL_PROTECTION,
    };
    Fault::with_code(cpu.mode(), vector, 0)
}

/// #GP(0); without a code in real mode.
pub fn protection_fault(cpu: &Cpu) -> Fault
    ensures { result ≡ protection_fault cpu.now }
{
    Fault::with_code(cpu.mode(), GENERAL_PROTECTION, 0)
}

/// Whether each of the `n` bytes lies at or below the highest offset. No sum can pass 64 bits.
fn ends_by(highest: u64, offset: u64, n: u32) -> bool
    ensures { result ≡ each n (λ i. nat_le (offset + i) highest) }
{
    if n == 0 {
        return true;
    }
    offset <= highest && (n - 1) as u64 <= highest - offset
}

/// Whether each of the `n` bytes lies above the limit, and at or below the highest offset.
fn lies_between(limit: u64, highest: u64, offset: u64, n: u32) -> bool
    ensures { result ≡ each n (λ i. nat_lt limit (offset + i) && nat_le (offset + i) highest) }
{
    if n == 0 {
        return true;
    }
    limit < offset && ends_by(highest, offset, n)
}

/// Whether each of the `n` bytes lies in the segment.
fn is_inside(s: &Seg, offset: u64, n: u32) -> bool
    ensures { result ≡ each n (λ i. is_inside s.now (offset + i)) }
{
    let limit = s.limit as u64;
    if !is_expand_down(s.attr) {
        return ends_by(limit, offset, n);
    }
    if s.db() {
        lies_between(limit, 0xFFFF_FFFF, offset, n)
    } else {
        lies_between(limit, 0xFFFF, offset, n)
    }
}

/// The check in real mode: the limit alone.
fn real_access(cpu: &Cpu, seg: SegName, offset: u64, n: u32) -> Result<u64, Fault>
    ensures { result ≡ real_access cpu.now seg offset n }
{
    if !ends_by(cpu.segment(seg).limit as u64, offset, n) {
        return Err(segment_fault(cpu, seg));
    }
    Ok(linear_address(cpu, seg, offset))
}

/// The check in protected and compatibility mode: present, then the type, then the limit.
fn protected_access(cpu: &Cpu, seg: SegName, offset: u64, n: u32, write: bool) -> Result<u64, Fault>
    ensures { result ≡ protected_access cpu.now seg offset n write }
{
    let s = cpu.segment(seg);
    if !is_present(s.attr) {
        return Err(segment_fault(cpu, seg));
    }
    if !allows(s.attr, write) {
        return Err(protection_fault(cpu));
    }
    if !is_inside(&s, offset, n) {
        return Err(segment_fault(cpu, seg));
    }
    Ok(linear_address(cpu, seg, offset))
}

/// Whether each of the `n` bytes from an address on has a canonical one. The addresses that aren't
/// canonical are more than there are bytes, so it is enough to look at the first byte and the last.
fn are_canonical(cpu: &Cpu, first: u64, n: u32) -> bool
    ensures { result ≡ each n (λ i. is_canonical cpu.now ((first + i) % 2 ^ 64)) }
{
    if n == 0 {
        return true;
    }
    let last = first.wrapping_add((n - 1) as u64);
    cpu.is_canonical(first) && cpu.is_canonical(last)
}

/// The check in 64-bit mode: each byte's address is canonical.
fn long_access(cpu: &Cpu, seg: SegName, offset: u64, n: u32) -> Result<u64, Fault>
    requires { is_long cpu.now ≡ true }
    ensures is { result ≡ long_access cpu.now seg offset n }
    ensures canonical { IfOk result (λ la. (i : ℕ) → i < n → is_canonical cpu.now ((la + i) % 2 ^ 64) ≡ true) }
{
    let first = linear_address(cpu, seg, offset);
    if !are_canonical(cpu, first, n) {
        return Err(segment_fault(cpu, seg));
    }
    Ok(first)
}

/// Checks an access of `n` bytes at an offset of a segment, to be written or read, and answers its
/// linear address; or the exception that it raises (SDM volume 3, "Limit Checking" and "Type
/// Checking"). The first check that fails decides:
///
/// - In protected and compatibility mode the segment is present, else #SS(0) for SS and #GP(0) for the
///   others; its type allows the access, else #GP(0); and each byte lies in it, else #SS(0) for SS and
///   #GP(0) for the others. S isn't looked at.
/// - In real mode each byte's offset is at most the limit, else #SS for SS and #GP for the others, with no code.
/// - In 64-bit mode each byte's linear address is canonical, else #SS(0) for SS and #GP(0) for the others.
///
/// An access of no bytes has none that could lie outside: the segment and its type alone are judged.
#[tactic(auto, unfolding(crate::specs::Accesses::access))]
pub fn check_access(cpu: &Cpu, seg: SegName, offset: u64, n: u32, write: bool) -> Result<u64, Fault>
    ensures is { result ≡ access cpu.now seg offset n write }
    // outside 64-bit mode linear addresses have 32 bits
    ensures below { is_long cpu.now ≡ false → IfOk result (λ la. la < 2 ^ 32) }
    // in 64-bit mode each byte's address is canonical
    ensures canonical { is_long cpu.now ≡ true → IfOk result (λ la. (i : ℕ) → i < n → is_canonical cpu.now ((la + i) % 2 ^ 64) ≡ true) }
{
    match cpu.mode() {
        Mode::Real => real_access(cpu, seg, offset, n),
        Mode::Protected | Mode::Compat => protected_access(cpu, seg, offset, n, write),
        Mode::Long => long_access(cpu, seg, offset, n),
    }
}
