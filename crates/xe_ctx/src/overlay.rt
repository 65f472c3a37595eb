//! The bytes of RAM that a step has changed, and the RAM as the step sees it.

ghost use Rattle.std.specs.Prelude.{◌≡◌, ℕ, ◌+◌, ◌*◌, ◌<◌, ◌≤◌, ◌^◌, ◌↔◌, true, length, All, List, IsSome, IfSome};
ghost use Rattle.xe_base.specs.Bytes.{num, le};
ghost use Rattle.xe_base.specs.Ram.{Area, in_ram, bytes_of, put_bytes, AreRam};
ghost use Rattle.xe_ctx.specs.Chunks.{is_size};
ghost use Rattle.xe_ctx.specs.Work.{Cell, patched, expand};

use crate::chunk::number_of;
use crate::run::Run;
use arrayvec::ArrayVec;
use xe_mem::GuestMem;

/// Puts the bytes that the step's stores changed, the oldest store first, over those that were read of
/// the RAM.
#[inline(always)]
fn lay_over(mem: &GuestMem, runs: &[Run], pa: u64, out: &mut [u8])
    requires ram { AreRam mem.now pa (length out.old) }
    requires read { out.old ≡ bytes_of mem.now pa (length out.old) }
    ensures { out.new ≡ bytes_of (patched mem.now (expand runs.now)) pa (length out.old) }
{
    for run in runs {
        if run.meets(pa, out.len() as u64) {
            run.lay_over(pa, out);
        }
    }
}

/// Reads bytes of the RAM as the step sees it.
#[inline(always)]
pub(crate) fn load_patched(mem: &GuestMem, runs: &[Run], pa: u64, out: &mut [u8])
    requires { AreRam mem.now pa (length out.old) }
    ensures { out.new ≡ bytes_of (patched mem.now (expand runs.now)) pa (length out.old) }
{
    mem.load(pa, out);
    lay_over(mem, runs, pa, out);
}

/// The number that N bytes of the RAM are, as the step sees it; none where one of them isn't RAM. Their
/// count is a constant, so that they are moved as one.
#[inline(always)]
fn word<const N: usize>(mem: &GuestMem, runs: &[Run], pa: u64) -> Option<u128>
    requires small { N ≤ 16 }
    ensures present { IsSome result ↔ AreRam mem.now pa N }
    ensures is { IfSome result (λ v. v ≡ num (bytes_of (patched mem.now (expand runs.now)) pa N)) }
    ensures below { IfSome result (λ v. v < 2 ^ (8 * N)) }
{
    let mut bytes = mem.read::<N>(pa)?;
    lay_over(mem, runs, pa, &mut bytes);
    Some(number_of(&bytes))
}

/// The number that the bytes of an operand are, in the RAM as the step sees it; none where one of them
/// isn't RAM.
#[inline]
pub(crate) fn number_at(mem: &GuestMem, runs: &[Run], pa: u64, n: usize) -> Option<u128>
    requires size { is_size n ≡ true }
    ensures present { IsSome result ↔ AreRam mem.now pa n }
    ensures is { IfSome result (λ v. v ≡ num (bytes_of (patched mem.now (expand runs.now)) pa n)) }
    ensures below { IfSome result (λ v. v < 2 ^ (8 * n)) }
{
    match n {
        1 => word::<1>(mem, runs, pa),
        2 => word::<2>(mem, runs, pa),
        4 => word::<4>(mem, runs, pa),
        8 => word::<8>(mem, runs, pa),
        _ => word::<16>(mem, runs, pa),
    }
}

/// The step writes the low bytes of a number, which are kept as one store.
#[inline]
pub(crate) fn push_number(runs: &mut ArrayVec<Run, 1024>, pa: u64, n: usize, value: u128)
    requires size { is_size n ≡ true }
    requires room { length (expand runs.old.items) + n ≤ 1024 }
    requires fits { pa + n < 2 ^ 64 }
    ensures room { length (expand runs.new.items) ≡ length (expand runs.old.items) + n }
    ensures is { (ram : List Area) → patched ram (expand runs.new.items) ≡ put_bytes (patched ram (expand runs.old.items)) pa (le n value) }
    ensures in_ram { (ram : List Area) → AreRam ram pa n → All (λ (c : Cell). in_ram ram c.at ≡ true) (expand runs.old.items) → All (λ (c : Cell). in_ram ram c.at ≡ true) (expand runs.new.items) }
{
    runs.push(Run {
        at: pa,
        size: n as u8,
        value,
    });
}

/// The step writes bytes of the RAM, each as a store of its own.
#[inline(never)]
pub(crate) fn push_bytes(runs: &mut ArrayVec<Run, 1024>, pa: u64, bytes: &[u8])
    requires room { length (expand runs.old.items) + length bytes.now ≤ 1024 }
    requires fits { pa + length bytes.now < 2 ^ 64 }
    ensures room { length (expand runs.new.items) ≡ length (expand runs.old.items) + length bytes.now }
    ensures is { (ram : List Area) → patched ram (expand runs.new.items) ≡ put_bytes (patched ram (expand runs.old.items)) pa bytes.now }
    ensures in_ram { (ram : List Area) → AreRam ram pa (length bytes.now) → All (λ (c : Cell). in_ram ram c.at ≡ true) (expand runs.old.items) → All (λ (c : Cell). in_ram ram c.at ≡ true) (expand runs.new.items) }
{
    for (i, b) in bytes.iter().enumerate() {
        push_number(runs, pa + i as u64, 1, u128::from(*b));
    }
}
