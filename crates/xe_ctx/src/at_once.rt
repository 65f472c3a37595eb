//! Loads and stores that are done at once: of RAM, in one page, without paging, where the segment's check
//! passes. That is nearly every one, and it needs none of what the others do: no walk, no device, no second
//! piece, and no stop, so that what calls these carries no room for one. They stand out of line: a row that
//! has its operands in registers goes past them.

ghost use Rattle.std.specs.Prelude.{◌≡◌, ◌+◌, ◌-◌, ◌*◌, ◌%◌, ◌<◌, ◌≤◌, ◌^◌, IfSome, OnSome, IsTrue, Ok, true, false};
ghost use Rattle.xe_base.specs.Registers.{is_size};
ghost use Rattle.xe_base.specs.State.{pg};
ghost use Rattle.xe_ctx.specs.Is.{Is};
ghost use Rattle.xe_ctx.specs.Tree.{load, load_for_write, store};
ghost use Rattle.xe_ctx.specs.View.{view, cpu_of, SameHandles, IsOpen, accesses_left, bytes_left};
ghost use Rattle.xe_seg.specs.Accesses.{access};

use crate::bus::Bus;
use crate::ctx::Ctx;
use xe_base::SegName;
use xe_icpt::Intercepts;
use xe_seg::check_access;

impl<'a, B: Bus, I: Intercepts> Ctx<'a, B, I> {
    /// The address of bytes that pass the segment's check and lie in one page, where paging is off.
    #[inline(always)]
    fn plain_address(&self, seg: SegName, offset: u64, n: u8, write: bool) -> Option<u64>
        ensures unpaged { OnSome result (pg (cpu_of self.now) ≡ false) }
        ensures checked { IfSome result (λ la. Ok la ≡ access (cpu_of self.now) seg offset n write) }
        ensures in_page { IfSome result (λ la. n ≤ 4096 - la % 4096) }
        ensures low { IfSome result (λ la. la < 2 ^ 32) }
    {
        let cpu = self.m.cpu();
        if cpu.pg() {
            return None;
        }
        match check_access(cpu, seg, offset, n as u32, write) {
            Ok(la) => {
                if n as u64 > 4096 - la % 4096 {
                    return None;
                }
                Some(la)
            }
            Err(_) => None,
        }
    }

    /// The number that [`Ctx::load`] reads, where that is done at once.
    #[inline(never)]
    pub fn load_at_once(&self, seg: SegName, offset: u64, n: u8) -> Option<u64>
        requires { IsTrue (is_size n) }
        ensures { IfSome result (λ v. Is (load seg offset n) (view B.sight I.hits self.now) (Ok v) (view B.sight I.hits self.now)) }
    {
        let pa = self.plain_address(seg, offset, n, false)?;
        let number = self.m.number(pa, n as usize)?;
        Some(number as u64)
    }

    /// The number that [`Ctx::load_for_write`] reads, where that is done at once.
    #[inline(never)]
    pub fn load_for_write_at_once(&self, seg: SegName, offset: u64, n: u8) -> Option<u64>
        requires { IsTrue (is_size n) }
        ensures { IfSome result (λ v. Is (load_for_write seg offset n) (view B.sight I.hits self.now) (Ok v) (view B.sight I.hits self.now)) }
    {
        let pa = self.plain_address(seg, offset, n, true)?;
        let number = self.m.number(pa, n as usize)?;
        Some(number as u64)
    }

    /// Does what [`Ctx::store`] does, where that is done at once, and says whether it did; else nothing
    /// changes.
    #[inline(never)]
    pub fn store_at_once(&mut self, seg: SegName, offset: u64, n: u8, value: u64) -> bool
        requires open { IsOpen B.sight self.old }
        requires size { IsTrue (is_size n) }
        requires bytes { n ≤ bytes_left self.old }
        ensures stays { result ≡ false → self.new ≡ self.old }
        ensures same { SameHandles self.old self.new }
        ensures open { IsOpen B.sight self.new }
        ensures accesses { accesses_left self.new ≡ accesses_left self.old }
        ensures bytes { bytes_left self.old ≤ bytes_left self.new + n }
        ensures part { result ≡ true → Is (store seg offset n value) (view B.sight I.hits self.old) (Ok tt) (view B.sight I.hits self.new) }
    {
        let Some(pa) = self.plain_address(seg, offset, n, true) else {
            return false;
        };
        if !self.m.is_ram(pa, n as u64) {
            return false;
        }
        self.m.write_number(pa, n as usize, value as u128);
        true
    }
}
