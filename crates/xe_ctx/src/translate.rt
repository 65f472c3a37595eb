//! The translation of linear addresses within a step: the walk over the RAM as the step sees it, and
//! the bits that it sets in page tables.
#![tactic(auto, using(crate::proofs::Binds::part_rules))]

ghost use Rattle.std.specs.Prelude.{◌≡◌, ◌+◌, ◌<◌, ◌≤◌, ◌^◌, ◌%◌, ◌⊎◌, ◌&&◌, length, IfOk, true};
ghost use Rattle.xe_base.specs.Ram.{in_ram, byte_of, set_bits};
ghost use Rattle.xe_base.specs.State.{pg};
ghost use Rattle.xe_walk.specs.Entry.{entry_of};
ghost use Rattle.xe_walk.specs.Walk.{walk, walked, entries};
ghost use Rattle.xe_ctx.specs.Ending.{stop_of};
ghost use Rattle.xe_ctx.specs.Is.{Does};
ghost use Rattle.xe_ctx.specs.Machine.{state_of, cells_of, made_of, work_of, CellsFit};
ghost use Rattle.xe_ctx.specs.Memory.{bits_of, place};
ghost use Rattle.xe_ctx.specs.Translate.{page_bits, marks, marked, walk_ending, AreEntries};
ghost use Rattle.xe_ctx.specs.View.{view, cpu_of, SameHandles, IsOpen, accesses_left, bytes_left};
ghost use Rattle.xe_ctx.specs.Work.{patched, expand};

use crate::bus::Bus;
use crate::ctx::Ctx;
use crate::machine::Machine;
use crate::overlay::{load_patched, number_at};
use crate::run::Run;
use crate::stop::{Handoff, Stop};
use xe_icpt::Intercepts;
use xe_mem::GuestMem;
use xe_walk::{Hit, Kind, Phys, Used, WalkStop, limiting, translate};

/// The RAM as a running step sees it, with what it has stored and marked before.
#[derive(Drop)]
struct Working<'a> {
    mem: &'a GuestMem,
    runs: &'a [Run],
    reads: u64,
}

impl<'a> Phys for Working<'a> {
    ghost use Rattle.xe_ctx.specs.Work.{patched, expand};

    ghost ram = { λ w. patched w.mem.now (expand w.runs.now) };

    ghost reads = { λ w. w.reads };

    fn entry(&mut self, pa: u64, size: u8) -> Option<u64> {
        self.reads = self.reads.saturating_add(1);
        entry_in(self.mem, self.runs, pa, size)
    }
}

/// The entry of 4 or 8 bytes there, as the step sees it; none where one of its bytes isn't RAM.
#[inline]
fn entry_in(mem: &GuestMem, runs: &[Run], pa: u64, size: u8) -> Option<u64>
    requires { (size ≡ 4) ⊎ (size ≡ 8) }
    ensures { result ≡ entry_of (patched mem.now (expand runs.now)) pa size }
{
    let entry = number_at(mem, runs, pa, size as usize)?;
    Some(entry as u64)
}

/// What is set in an entry: accessed, and dirty in the last one for a write.
#[inline]
fn entry_bits(last: bool, write: bool) -> u8
    ensures { result ≡ page_bits (last && write) }
{
    if last && write { 0x60 } else { 0x20 }
}

/// How a step ends where a translation is refused.
#[cold]
pub(crate) fn ending_of(refused: WalkStop) -> Stop
    ensures { result ≡ stop_of (walk_ending refused) }
{
    match refused {
        WalkStop::Page(fault) => Stop::Fault(fault),
        WalkStop::EntryNotRam(pa) => Stop::Handoff(Handoff::Entry(pa)),
    }
}

impl Machine {
    /// Translates a linear address over the RAM with these changes.
    #[inline]
    fn walk_over(&self, runs: &[Run], la: u64, kind: Kind) -> Result<Hit, WalkStop>
        ensures is { walked result ≡ walk (patched (state_of self.now).ram (expand runs.now)) (state_of self.now).cpu la kind }
        ensures page { IfOk result (λ hit. hit.pa % 4096 ≡ la % 4096) }
        ensures below { pg (state_of self.now).cpu ≡ true → IfOk result (λ hit. hit.pa < 2 ^ 40) }
        ensures few { IfOk result (λ hit. length hit.used.items ≤ 4) }
        ensures ram { IfOk result (λ hit. AreEntries (state_of self.now).ram hit.used.items) }
        ensures visits { IfOk result (λ hit. hit.used.items ≡ entries (patched (state_of self.now).ram (expand runs.now)) (state_of self.now).cpu la) }
    {
        let mut working = Working {
            mem: &self.mem,
            runs,
            reads: 0,
        };
        translate(&self.cpu, &mut working, la, kind)
    }

    /// Translates a linear address over the RAM as the running step sees it.
    #[inline]
    pub(crate) fn walk(&self, la: u64, kind: Kind) -> Result<Hit, WalkStop>
        ensures is { walked result ≡ walk (work_of self.now) (state_of self.now).cpu la kind }
        ensures page { IfOk result (λ hit. hit.pa % 4096 ≡ la % 4096) }
        ensures below { pg (state_of self.now).cpu ≡ true → IfOk result (λ hit. hit.pa < 2 ^ 40) }
        ensures few { IfOk result (λ hit. length hit.used.items ≤ 4) }
        ensures ram { IfOk result (λ hit. AreEntries (state_of self.now).ram hit.used.items) }
    {
        self.walk_over(self.scratch.runs.as_slice(), la, kind)
    }

    /// Translates a linear address over the RAM as it was when the step began: so does fetching.
    #[inline]
    #[tactic(auto, unfolding(crate::specs::Work::patched, crate::specs::Work::expand))]
    pub(crate) fn walk_at_start(&self, la: u64, kind: Kind) -> Result<Hit, WalkStop>
        ensures is { walked result ≡ walk (state_of self.now).ram (state_of self.now).cpu la kind }
        ensures few { IfOk result (λ hit. length hit.used.items ≤ 4) }
        ensures ram { IfOk result (λ hit. AreEntries (state_of self.now).ram hit.used.items) }
        ensures visits { IfOk result (λ hit. hit.used.items ≡ entries (state_of self.now).ram (state_of self.now).cpu la) }
    {
        self.walk_over(&[], la, kind)
    }

    /// A byte of the RAM, as the running step sees it.
    #[inline]
    fn byte(&self, pa: u64) -> u8
        requires { in_ram (state_of self.now).ram pa ≡ true }
        ensures { result ≡ byte_of (work_of self.now) pa }
    {
        let mut byte = [0; 1];
        load_patched(&self.mem, self.scratch.runs.as_slice(), pa, &mut byte);
        byte[0]
    }

    /// Sets bits of a byte of the RAM. Where they are set already the step has changed nothing.
    #[inline]
    fn set_bits(&mut self, pa: u64, bits: u8)
        requires ram { in_ram (state_of self.old).ram pa ≡ true }
        requires low { pa ≤ 2 ^ 40 }
        requires room { length (cells_of self.old) < 1024 }
        requires cells { CellsFit self.old }
        ensures state { state_of self.new ≡ state_of self.old }
        ensures made { made_of self.new ≡ made_of self.old }
        ensures work { work_of self.new ≡ set_bits (work_of self.old) pa bits }
        ensures cells { CellsFit self.new }
        ensures room { length (cells_of self.new) ≤ length (cells_of self.old) + 1 }
    {
        let byte = self.byte(pa);
        let new = byte | bits;
        if new != byte {
            self.write(pa, &[new]);
        }
    }

    /// Sets the accessed bit of each of these entries, and the dirty bit of the last one for a write.
    #[inline]
    fn mark_each(&mut self, used: &[Used], write: bool)
        requires ram { AreEntries (state_of self.old).ram used.now }
        requires room { length (cells_of self.old) + length used.now ≤ 1024 }
        requires cells { CellsFit self.old }
        ensures state { state_of self.new ≡ state_of self.old }
        ensures made { made_of self.new ≡ made_of self.old }
        ensures work { work_of self.new ≡ marks write used.now (work_of self.old) }
        ensures cells { CellsFit self.new }
        ensures room { length (cells_of self.new) ≤ length (cells_of self.old) + length used.now }
    {
        for (i, u) in used.iter().enumerate() {
            let last = i + 1 == used.len();
            self.set_bits(u.pa, entry_bits(last, write));
        }
    }

    /// A translation of this kind has used these entries.
    #[inline]
    pub(crate) fn mark(&mut self, used: &[Used], kind: Kind)
        requires ram { AreEntries (state_of self.old).ram used.now }
        requires room { length (cells_of self.old) + length used.now ≤ 1024 }
        requires cells { CellsFit self.old }
        ensures state { state_of self.new ≡ state_of self.old }
        ensures made { made_of self.new ≡ made_of self.old }
        ensures work { work_of self.new ≡ marked (state_of self.old).cpu kind used.now (work_of self.old) }
        ensures cells { CellsFit self.new }
        ensures room { length (cells_of self.new) ≤ length (cells_of self.old) + length used.now }
    {
        let entries = limiting(self.cpu(), used);
        self.mark_each(entries, kind.write);
    }
}

impl<'a, B: Bus, I: Intercepts> Ctx<'a, B, I> {
    /// The physical address of a linear one; without paging they are the same.
    #[inline(always)]
    pub(crate) fn place(&mut self, la: u64, kind: Kind) -> Result<u64, Stop>
        requires open { IsOpen B.sight self.old }
        requires within { la < 2 ^ bits_of (cpu_of self.old) kind }
        requires bytes { 5 ≤ bytes_left self.old }
        ensures same { SameHandles self.old self.new }
        ensures open { IsOpen B.sight self.new }
        ensures accesses { accesses_left self.old ≤ accesses_left self.new }
        ensures bytes { bytes_left self.old ≤ bytes_left self.new + 5 }
        ensures page { IfOk result (λ pa. pa % 4096 ≡ la % 4096) }
        ensures below { IfOk result (λ pa. pa < 2 ^ 40) }
        ensures part { Does (place kind la) (view B.sight I.hits self.old) result (view B.sight I.hits self.new) }
    {
        if !self.m.cpu().pg() {
            return Ok(la);
        }
        self.place_paged(la, kind)
    }

    /// The physical address of a linear one where paging is on: the entries that are used on the way are
    /// marked.
    fn place_paged(&mut self, la: u64, kind: Kind) -> Result<u64, Stop>
        requires paged { pg (cpu_of self.old) ≡ true }
        requires open { IsOpen B.sight self.old }
        requires bytes { 5 ≤ bytes_left self.old }
        ensures same { SameHandles self.old self.new }
        ensures open { IsOpen B.sight self.new }
        ensures accesses { accesses_left self.old ≤ accesses_left self.new }
        ensures bytes { bytes_left self.old ≤ bytes_left self.new + 5 }
        ensures page { IfOk result (λ pa. pa % 4096 ≡ la % 4096) }
        ensures below { IfOk result (λ pa. pa < 2 ^ 40) }
        ensures part { Does (place kind la) (view B.sight I.hits self.old) result (view B.sight I.hits self.new) }
    {
        match self.m.walk(la, kind) {
            Ok(hit) => {
                self.m.mark(hit.used.as_slice(), kind);
                Ok(hit.pa)
            }
            Err(refused) => Err(ending_of(refused)),
        }
    }
}
