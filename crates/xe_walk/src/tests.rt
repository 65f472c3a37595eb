//! Worked walks, one a format, and one fault of each cause: that the tables of the formats are the ones that
//! were meant.

ghost use Rattle.std.specs.Prelude.{ℕ, List, [], ◌∷◌, ◌≡◌, ◌<◌, ◌≤◌, ◌+◌, ◌*◌, ◌^◌, ◌⊎◌, length};
ghost use Rattle.xe_base.specs.Bytes.{num};
ghost use Rattle.xe_base.specs.Ram.{Area};
ghost use Rattle.xe_walk.specs.Entry.{entry_of, counted};

use crate::{Kind, Phys, WalkStop, translate};
use std::process::Abort;
use xe_base::{Cpu, Fault};

/// RAM from address 0 on.
#[derive(Drop)]
struct Ram<'a> {
    bytes: &'a [u8],
    reads: u64,
}

/// The number that the bytes are, the lowest first.
fn number_of(bytes: &[u8]) -> u128
    requires { length bytes.now ≤ 16 }
    ensures is { result ≡ num bytes.now }
    ensures below { result < 2 ^ (8 * length bytes.now) }
{
    let mut number = 0u128;
    let mut at = bytes.len();
    'down: while at > 0 {
        at -= 1;
        number = number * 256 + bytes[at] as u128;
    }
    number
}

/// The entry there, where all its bytes are.
#[tactic(auto, using(crate::proofs::TestRam::entry_within, crate::proofs::TestRam::entry_past))]
fn entry_in(bytes: &[u8], pa: u64, size: u8) -> Option<u64>
    requires { (size ≡ 4) ⊎ (size ≡ 8) }
    ensures { result ≡ entry_of (record { start = 0; bytes = bytes.now } ∷ []) pa size }
{
    let at = pa as usize;
    let n = size as usize;
    if at > bytes.len() {
        return None;
    }
    if bytes.len() - at < n {
        return None;
    }
    Some(number_of(&bytes[at..at + n]) as u64)
}

impl<'a> Phys for Ram<'a> {
    ghost ram = { λ r. record { start = 0; bytes = r.bytes.now } ∷ [] };

    ghost reads = { λ r. r.reads };

    fn entry(&mut self, pa: u64, size: u8) -> Option<u64> {
        self.reads = self.reads.saturating_add(1);
        entry_in(self.bytes, pa, size)
    }
}

const READ: Kind = Kind {
    write: false,
    fetch: false,
    system: false,
};

const WRITE: Kind = Kind {
    write: true,
    ..READ
};

const FETCH: Kind = Kind {
    fetch: true,
    ..READ
};

const SIZE: usize = 0x4000;

/// RAM with these words of 4 bytes, and zeros elsewhere.
fn ram_of(words: &[(usize, u32)]) -> [u8; SIZE] {
    let mut bytes = [0; SIZE];
    for (at, value) in words {
        let at = *at;
        if at < SIZE - 4 {
            bytes[at] = (*value % 256) as u8;
            bytes[at + 1] = ((*value >> 8) % 256) as u8;
            bytes[at + 2] = ((*value >> 16) % 256) as u8;
            bytes[at + 3] = (*value >> 24) as u8;
        }
    }
    bytes
}

/// The physical address, and how many entries were used and read.
fn walk_in(bytes: &[u8], cpu: &Cpu, la: u64, kind: Kind) -> Result<(u64, usize, u64), WalkStop> {
    let mut ram = Ram { bytes, reads: 0 };
    let hit = translate(cpu, &mut ram, la, kind)?;
    Ok((hit.pa, hit.used.len(), ram.reads))
}

fn fault(code: u32, la: u64) -> WalkStop {
    WalkStop::Page(Fault {
        vector: 14,
        code: Some(code),
        cr2: Some(la),
    })
}

/// Paging on, with the tables at 0; PSE and WP.
fn paged() -> Cpu {
    Cpu {
        cr0: 0x8001_0011,
        cr4: 0x10,
        ..Cpu::reset()
    }
}

#[test]
fn walks_32_bit_tables(rt: HostRuntime) {
    let ram = ram_of(&[
        (0, 0x1007),
        (0x100C, 0x3005),
        (4, 0x0080_0087),
        (8, 0x00C0_2087),
    ]);
    let cpu = paged();
    assert!(rt; walk_in(&ram, &cpu, 0x3ABC, READ) == Ok((0x3ABC, 2, 2)));
    assert!(rt; walk_in(&ram, &cpu, 0x52_3456, WRITE) == Ok((0x92_3456, 1, 1)));
    // read-only, not present, and bit 13 of a 4 MiB page
    assert!(rt; walk_in(&ram, &cpu, 0x3ABC, WRITE) == Err(fault(3, 0x3ABC)));
    assert!(rt; walk_in(&ram, &cpu, 0x4ABC, FETCH) == Err(fault(0, 0x4ABC)));
    assert!(rt; walk_in(&ram, &cpu, 0x80_0000, READ) == Err(fault(9, 0x80_0000)));
    // without paging
    assert!(rt; walk_in(&ram, &Cpu::reset(), 0x12_3456, WRITE) == Ok((0x12_3456, 0, 0)));
}

#[test]
fn walks_pae_tables(rt: HostRuntime) {
    let ram = ram_of(&[
        (0x20, 0x1001),
        (0x1000, 0x2007),
        (0x2028, 0x7007),
        (0x2034, 0x8000_0000),
        (0x2030, 0x7007),
        (0x1008, 0x0060_0083),
    ]);
    let cpu = Cpu {
        cr3: 0x20,
        cr4: 0x20,
        efer: 0x800,
        cpl: 3,
        ..paged()
    };
    assert!(rt; walk_in(&ram, &cpu, 0x5123, WRITE) == Ok((0x7123, 3, 3)));
    // XD, a supervisor page of 2 MiB, and XD while NXE is 0
    assert!(rt; walk_in(&ram, &cpu, 0x6123, FETCH) == Err(fault(0x15, 0x6123)));
    assert!(rt; walk_in(&ram, &cpu, 0x20_5123, READ) == Err(fault(5, 0x20_5123)));
    assert!(rt; walk_in(&ram, &Cpu { efer: 0, ..cpu }, 0x6123, READ) == Err(fault(0xD, 0x6123)));
    assert!(rt; walk_in(&ram, &Cpu { cpl: 0, ..cpu }, 0x20_5123, READ) == Ok((0x60_5123, 2, 2)));
}

#[test]
fn walks_tables_of_four_levels(rt: HostRuntime) {
    let ram = ram_of(&[
        (0, 0x1007),
        (0x1000, 0x2007),
        (0x1008, 0x8000_0087),
        (0x2000, 0x3007),
        (0x2008, 0x00A0_0087),
        (0x3028, 0x9007),
        (8, 0x1087),
        (0x2010, 0x8_3007),
    ]);
    let cpu = Cpu {
        cr4: 0x20_0020,
        efer: 0xD00,
        ..paged()
    };
    let user = Cpu { cpl: 3, ..cpu };
    assert!(rt; walk_in(&ram, &user, 0x5FFF, FETCH) == Ok((0x9FFF, 4, 4)));
    assert!(rt; walk_in(&ram, &user, 0x20_1234, WRITE) == Ok((0xA0_1234, 3, 3)));
    assert!(rt; walk_in(&ram, &user, 0x4000_5678, READ) == Ok((0x8000_5678, 2, 2)));
    // SMAP with AC 0, PS of a PML4 entry, and a table outside RAM
    assert!(rt; walk_in(&ram, &cpu, 0x5FFF, READ) == Err(fault(1, 0x5FFF)));
    assert!(rt; walk_in(&ram, &user, 1 << 39, FETCH) == Err(fault(0x1D, 1 << 39)));
    assert!(rt; walk_in(&ram, &user, 0x40_0000, READ) == Err(WalkStop::EntryNotRam(0x8_3000)));
}
