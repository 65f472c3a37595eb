//! Refusals, and copies that overlap, by worked examples.

ghost use Rattle.xe_mem.specs.Moves.{IsUnit};

use crate::{GuestMem, MemFault, Region};
use std::alloc::Global;
use std::process::Abort;
use std::test::Fail;

const PAGE: u64 = 0x1000;

fn region(start: u64, len: u64) -> Region {
    Region { start, len }
}

fn refusal(alloc: Global, list: &[Region]) -> Option<MemFault> {
    GuestMem::create(alloc, list).err()
}

#[test]
fn refuses_lists(rt: HostRuntime) {
    let too_many = [region(1, 0); 17];
    assert!(rt; refusal(rt.alloc(), &too_many) == Some(MemFault::TooLarge));

    // A start and a length that are no multiple of a page, an empty region, one past 2^40.
    let bad = [
        region(1, PAGE),
        region(0, PAGE + 1),
        region(0, 0),
        region((1 << 40) - PAGE, 2 * PAGE),
        region(u64::MAX - PAGE + 1, PAGE),
    ];
    for r in bad {
        let first = refusal(rt.alloc(), &[r]);
        assert!(rt; first == Some(MemFault::BadRegion(0)));
        let front = [
            region(0, PAGE),
            region(PAGE, PAGE),
            region(4 * PAGE, PAGE),
            r,
        ];
        let fourth = refusal(rt.alloc(), &front);
        assert!(rt; fourth == Some(MemFault::BadRegion(3)));
    }

    // One that begins within the region before it.
    let front = [
        region(0, PAGE),
        region(PAGE, PAGE),
        region(4 * PAGE, 2 * PAGE),
    ];
    let [a, b, c] = front;
    let fourth = refusal(rt.alloc(), &[a, b, c, region(5 * PAGE, PAGE)]);
    assert!(rt; fourth == Some(MemFault::BadRegion(3)));

    let large = [region(0, 1 << 24), region(1 << 30, PAGE)];
    assert!(rt; refusal(rt.alloc(), &large) == Some(MemFault::TooLarge));
}

#[test]
fn makes_ram(rt: HostRuntime) -> Result<(), Fail> {
    let list = [
        region(0, PAGE),
        region(PAGE, PAGE),
        region(1 << 39, 1 << 20),
    ];
    let mut mem = GuestMem::create(rt.alloc(), &list)?;
    assert!(rt; mem.regions() == list.as_slice());
    assert!(rt; mem.first_gap(1) == 2 * PAGE);
    assert!(rt; mem.is_ram(PAGE - 2, 4));
    assert!(rt; !mem.is_ram(2 * PAGE - 1, 2));
    assert!(rt; mem.is_ram(u64::MAX, 0));
    mem.store(PAGE - 2, &[1, 2, 3, 4]);
    let mut out = [9; 4];
    assert!(rt; mem.is_ram(PAGE - 2, 4));
    mem.load(PAGE - 2, &mut out);
    assert!(rt; out == [1, 2, 3, 4]);
    assert!(rt; mem.is_ram(PAGE - 3, 7));
    mem.fill(PAGE - 3, &[7, 8], 3);
    let mut out = [9; 7];
    assert!(rt; mem.is_ram(PAGE - 3, 7));
    mem.load(PAGE - 3, &mut out);
    assert!(rt; out == [7, 8, 7, 8, 7, 8, 0]);
    Ok(())
}

#[test]
fn finds_each_region(rt: HostRuntime) -> Result<(), Fail> {
    // Pairs of regions that touch, with a gap behind each pair.
    let mut list = [region(0, PAGE); 16];
    for i in 0..16 {
        list[i] = region((i as u64 + i as u64 / 2) * PAGE, PAGE);
    }
    let mut mem = GuestMem::create(rt.alloc(), &list)?;
    for pair in 0..8 {
        let start = pair * 3 * PAGE;
        let end = start + 2 * PAGE;
        assert!(rt; mem.first_gap(start) == end);
        assert!(rt; mem.first_gap(end - 1) == end);
        assert!(rt; mem.first_gap(end) == end);
        assert!(rt; mem.first_gap(end + PAGE - 1) == end + PAGE - 1);
        let number = pair as u8;
        assert!(rt; mem.write(start, [number, 1]));
        assert!(rt; mem.write(start + PAGE - 1, [number, 2]));
        assert!(rt; mem.write(end - 2, [number, 3]));
        assert!(rt; !mem.write(end - 1, [9, 9]));
        assert!(rt; !mem.write(end, [9]));
    }
    for pair in 0..8 {
        let start = pair * 3 * PAGE;
        let end = start + 2 * PAGE;
        let number = pair as u8;
        assert!(rt; mem.read(start) == Some([number, 1, 0]));
        assert!(rt; mem.read(start + PAGE - 2) == Some([0, number, 2, 0]));
        assert!(rt; mem.read(end - 2) == Some([number, 3]));
        assert!(rt; mem.read::<2>(end - 1) == None);
        assert!(rt; mem.read::<1>(end) == None);
        assert!(rt; mem.read(end) == Some([0; 0]));
    }
    assert!(rt; mem.read::<8>(u64::MAX) == None);
    Ok(())
}

/// As many bytes as there are, at most 15: how an instruction is fetched.
fn fetched(mem: &GuestMem, pa: u64, out: &mut [u8; 15]) -> usize {
    let n = (mem.first_gap(pa) - pa).min(15) as usize;
    mem.load(pa, &mut out[..n]);
    n
}

#[test]
fn fetches_across_regions(rt: HostRuntime) -> Result<(), Fail> {
    let list = [region(0, PAGE), region(PAGE, PAGE)];
    let mut mem = GuestMem::create(rt.alloc(), &list)?;
    assert!(rt; mem.is_ram(PAGE - 2, 4));
    mem.store(PAGE - 2, &[1, 2, 3, 4]);
    let mut out = [9; 15];
    let n = fetched(&mem, PAGE - 2, &mut out);
    assert!(rt; n == 15);
    assert!(rt; out == [1, 2, 3, 4, 0, 0, 0, 0, 0, 0, 0, 0, 0, 0, 0]);
    let mut out = [9; 15];
    let n = fetched(&mem, 2 * PAGE - 3, &mut out);
    assert!(rt; n == 3);
    assert!(rt; out == [0, 0, 0, 9, 9, 9, 9, 9, 9, 9, 9, 9, 9, 9, 9]);
    let n = fetched(&mem, u64::MAX, &mut out);
    assert!(rt; n == 0);
    Ok(())
}

/// Checks what a copy makes of the bytes 1 to 24.
fn copies(
    rt: &impl Abort,
    alloc: Global,
    down: bool,
    unit: u8,
    dst: u64,
    src: u64,
    count: u64,
    want: [u8; 24],
) -> Result<(), Fail>
    requires { IsUnit unit }
{
    let mut mem = GuestMem::create(alloc, &[region(0, PAGE)])?;
    assert!(rt; mem.is_ram(0, 24));
    mem.store(
        0,
        &[
            1, 2, 3, 4, 5, 6, 7, 8, 9, 10, 11, 12, 13, 14, 15, 16, 17, 18, 19, 20, 21, 22, 23, 24,
        ],
    );
    assert!(rt; count <= 8);
    let len = unit as u64 * count;
    assert!(rt; mem.is_ram(dst, len));
    assert!(rt; mem.is_ram(src, len));
    if down {
        mem.copy_down(dst, src, unit, count);
    } else {
        mem.copy_up(dst, src, unit, count);
    }
    let mut out = [0; 24];
    assert!(rt; mem.is_ram(0, 24));
    mem.load(0, &mut out);
    assert!(rt; out == want);
    Ok(())
}

#[test]
fn overlapping_copies(rt: HostRuntime) -> Result<(), Fail> {
    let a = rt.alloc();
    let want = [
        1, 1, 1, 1, 1, 6, 7, 8, 9, 10, 11, 12, 13, 14, 15, 16, 17, 18, 19, 20, 21, 22, 23, 24,
    ];
    copies(&rt, a, false, 1, 1, 0, 4, want)?;
    let want = [
        1, 1, 2, 2, 4, 4, 6, 8, 9, 10, 11, 12, 13, 14, 15, 16, 17, 18, 19, 20, 21, 22, 23, 24,
    ];
    copies(&rt, a, false, 2, 1, 0, 3, want)?;
    let want = [
        1, 2, 1, 2, 3, 4, 3, 4, 7, 8, 7, 8, 11, 12, 15, 16, 17, 18, 19, 20, 21, 22, 23, 24,
    ];
    copies(&rt, a, false, 4, 2, 0, 3, want)?;
    let want = [
        1, 2, 3, 4, 1, 2, 3, 4, 5, 6, 7, 8, 5, 6, 7, 8, 13, 14, 15, 16, 21, 22, 23, 24,
    ];
    copies(&rt, a, false, 8, 4, 0, 2, want)?;
    let want = [
        2, 3, 4, 5, 5, 6, 7, 8, 9, 10, 11, 12, 13, 14, 15, 16, 17, 18, 19, 20, 21, 22, 23, 24,
    ];
    copies(&rt, a, false, 1, 0, 1, 4, want)?;
    let want = [
        5, 5, 5, 5, 5, 6, 7, 8, 9, 10, 11, 12, 13, 14, 15, 16, 17, 18, 19, 20, 21, 22, 23, 24,
    ];
    copies(&rt, a, true, 1, 0, 1, 4, want)?;
    let want = [
        2, 4, 4, 6, 6, 7, 7, 8, 9, 10, 11, 12, 13, 14, 15, 16, 17, 18, 19, 20, 21, 22, 23, 24,
    ];
    copies(&rt, a, true, 2, 0, 1, 3, want)?;
    let want = [
        3, 4, 7, 8, 7, 8, 11, 12, 11, 12, 13, 14, 13, 14, 15, 16, 17, 18, 19, 20, 21, 22, 23, 24,
    ];
    copies(&rt, a, true, 4, 0, 2, 3, want)?;
    let want = [
        5, 6, 7, 8, 13, 14, 15, 16, 13, 14, 15, 16, 17, 18, 19, 20, 17, 18, 19, 20, 21, 22, 23, 24,
    ];
    copies(&rt, a, true, 8, 0, 4, 2, want)?;
    let want = [
        1, 1, 2, 3, 4, 6, 7, 8, 9, 10, 11, 12, 13, 14, 15, 16, 17, 18, 19, 20, 21, 22, 23, 24,
    ];
    copies(&rt, a, true, 1, 1, 0, 4, want)?;
    Ok(())
}
