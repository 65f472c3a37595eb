//! The walk from the top table down.

ghost use Rattle.std.specs.Prelude.{◌≡◌, ◌<◌, ◌≤◌, ◌+◌, ◌%◌, ◌^◌, length, IfOk, true, false, All};
ghost use Rattle.arrayvec.specs.ArrayVec.{array_vec_len};
ghost use Rattle.xe_base.specs.State.{pg};
ghost use Rattle.xe_walk.specs.Format.{levels_of};
ghost use Rattle.xe_walk.specs.Entry.{IsPlace};
ghost use Rattle.xe_walk.specs.Walk.{walk, entries, walked, concluded, Lands};

use crate::entry::{Phys, Used};
use crate::format::{bit, levels, low_bits, root};
use crate::rights::{Kind, Why, allows, fault_at, limiting};
use arrayvec::ArrayVec;
use xe_base::{Cpu, Fault};

/// A linear address that was translated.
#[derive(Drop)]
pub struct Hit {
    pub pa: u64,
    /// The entries that were used, from the top.
    pub used: ArrayVec<Used, 5>,
}

/// Why a linear address has no translation.
#[derive(Clone, Copy, PartialEq, Eq, Debug)]
pub enum WalkStop {
    /// A page fault.
    Page(Fault),
    /// An entry has a byte outside RAM; its physical address.
    EntryNotRam(u64),
}

/// Judges the rights for a page that begins there and has 2^low bytes.
#[inline]
fn land(
    cpu: &Cpu,
    la: u64,
    kind: Kind,
    used: ArrayVec<Used, 5>,
    page: u64,
    low: u32,
) -> Result<Hit, WalkStop>
    requires page { page ≤ 2 ^ 40 }
    requires low { low < 40 }
    ensures { walked result ≡ concluded cpu.now la kind used.items (Lands page low) }
{
    if allows(cpu, kind, limiting(cpu, used.as_slice())) {
        Ok(Hit {
            pa: page + low_bits(la, low),
            used,
        })
    } else {
        Err(WalkStop::Page(fault_at(cpu, la, kind, Why::Rights)))
    }
}

/// Walks the tables of the format in force, from the top.
#[inline]
fn walk_tables<P: Phys>(cpu: &Cpu, ram: &mut P, la: u64, kind: Kind) -> Result<Hit, WalkStop>
    requires { pg cpu.now ≡ true }
    ensures is { walked result ≡ walk (P.ram ram.old) cpu.now la kind }
    ensures same { P.ram ram.new ≡ P.ram ram.old }
    ensures grows { P.reads ram.old ≤ P.reads ram.new }
    ensures reads { P.reads ram.new ≤ P.reads ram.old + length (levels_of cpu.now) }
{
    let mut used = ArrayVec::new();
    let mut table = root(cpu);
    for level in levels(cpu) {
        let pa = level.place(table, la);
        let Some(value) = ram.entry(pa, level.size) else {
            return Err(WalkStop::EntryNotRam(pa));
        };
        if !bit(value, 0) {
            return Err(WalkStop::Page(fault_at(cpu, la, kind, Why::NotPresent)));
        }
        if level.has_reserved(cpu, value) {
            return Err(WalkStop::Page(fault_at(cpu, la, kind, Why::Reserved)));
        }
        used.push(Used {
            pa,
            size: level.size,
            value,
        });
        if level.is_large(value) {
            return land(
                cpu,
                la,
                kind,
                used,
                level.frame(level.shift, value),
                level.shift,
            );
        }
        table = level.frame(12, value);
    }
    land(cpu, la, kind, used, table, 12)
}

/// Translates a linear address for an access of a kind.
///
/// Where paging is off, the address is a physical one already, and nothing is read. Entries outside RAM, entries
/// that are not present and entries with a reserved bit set are found from the top down, and the first ends
/// the walk; where there is none, the rights are judged over all entries together (SDM volume 3,
/// "Linear-Address Translation" and "Access Rights"). CR2 of a fault is the address that was asked for.
/// Bits of the linear address above the top table's index are not looked at.
#[inline]
pub fn translate<P: Phys>(cpu: &Cpu, ram: &mut P, la: u64, kind: Kind) -> Result<Hit, WalkStop>
    ensures is { walked result ≡ walk (P.ram ram.old) cpu.now la kind }
    // the same byte of the page
    ensures offset { IfOk result (λ hit. hit.pa % 4096 ≡ la % 4096) }
    // 40 physical address bits, where paging is on
    ensures width { pg cpu.now ≡ true → IfOk result (λ hit. hit.pa < 2 ^ 40) }
    ensures plain { pg cpu.now ≡ false → IfOk result (λ hit. hit.pa ≡ la) }
    ensures few { IfOk result (λ hit. length hit.used.items ≤ 4) }
    ensures places { IfOk result (λ hit. All IsPlace hit.used.items) }
    ensures visits { IfOk result (λ hit. hit.used.items ≡ entries (P.ram ram.old) cpu.now la) }
    ensures same { P.ram ram.new ≡ P.ram ram.old }
    ensures grows { P.reads ram.old ≤ P.reads ram.new }
    ensures reads { P.reads ram.new ≤ P.reads ram.old + length (levels_of cpu.now) }
    ensures untouched { pg cpu.now ≡ false → P.reads ram.new ≡ P.reads ram.old }
{
    if !cpu.pg() {
        return Ok(Hit {
            pa: la,
            used: ArrayVec::new(),
        });
    }
    walk_tables(cpu, ram, la, kind)
}
