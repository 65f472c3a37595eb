//! Accesses to memory: the segment check, the cut at page ends, the translation of all pieces, and then
//! the bytes, from RAM or from devices.
#![tactic(auto, using(crate::proofs::Binds::part_rules))]

ghost use Rattle.std.specs.Prelude.{◌≡◌, ℕ, ◌+◌, ◌*◌, ◌<◌, ◌≤◌, ◌^◌, ◌%◌, length, IfOk, true};
ghost use Rattle.xe_base.specs.Bytes.{num, le};
ghost use Rattle.xe_ctx.specs.Chunks.{chunks, is_size, most};
ghost use Rattle.xe_ctx.specs.Is.{Does, Is};
ghost use Rattle.xe_ctx.specs.Memory.{data_kind, system_kind, system_bits, is_wide, bits_of, next_page, read_place, devices_read, devices_write, write_bytes, load_at, store_at, probe_at, locate};
ghost use Rattle.xe_ctx.specs.Numbers.{numbered};
ghost use Rattle.xe_ctx.specs.Tree.{load, load_for_write, probe, store, load_sys, store_sys};
ghost use Rattle.xe_ctx.specs.View.{view, cpu_of, SameHandles, IsOpen, accesses_left, bytes_left, bytes_in};

use crate::bus::Bus;
use crate::chunk::{append, bytes_of, number_of};
use crate::ctx::Ctx;
use crate::stop::Stop;
use arrayvec::ArrayVec;
use xe_base::SegName;
use xe_icpt::Intercepts;
use xe_seg::check_access;
use xe_walk::Kind;

impl<'a, B: Bus, I: Intercepts> Ctx<'a, B, I> {
    /// Reads `n` bytes at an offset of a segment, the lowest first. Those outside RAM are read from
    /// devices, by naturally aligned accesses of at most 8 bytes, the lowest first.
    #[inline(never)]
    #[tactic(auto, using(crate::proofs::Calls::call_rules))]
    pub fn load(&mut self, seg: SegName, offset: u64, n: u32) -> Result<u128, Stop>
        requires open { IsOpen B.sight self.old }
        requires size { is_size n ≡ true }
        requires accesses { most n ≤ accesses_left self.old }
        requires bytes { 10 ≤ bytes_left self.old }
        ensures same { SameHandles self.old self.new }
        ensures open { IsOpen B.sight self.new }
        ensures accesses { accesses_left self.old ≤ accesses_left self.new + most n }
        ensures bytes { bytes_left self.old ≤ bytes_left self.new + 10 }
        ensures fits { IfOk result (λ v. v < 2 ^ (8 * n)) }
        ensures part { Is (load seg offset n) (view B.sight I.hits self.old) result (view B.sight I.hits self.new) }
    {
        let la = self.locate(seg, offset, n, false)?;
        self.load_number(la, n as usize, data_kind(false))
    }

    /// Reads as [`Ctx::load`] does, where the bytes must be writable too.
    #[inline(never)]
    #[tactic(auto, using(crate::proofs::Calls::call_rules))]
    pub fn load_for_write(&mut self, seg: SegName, offset: u64, n: u32) -> Result<u128, Stop>
        requires open { IsOpen B.sight self.old }
        requires size { is_size n ≡ true }
        requires accesses { most n ≤ accesses_left self.old }
        requires bytes { 10 ≤ bytes_left self.old }
        ensures same { SameHandles self.old self.new }
        ensures open { IsOpen B.sight self.new }
        ensures accesses { accesses_left self.old ≤ accesses_left self.new + most n }
        ensures bytes { bytes_left self.old ≤ bytes_left self.new + 10 }
        ensures fits { IfOk result (λ v. v < 2 ^ (8 * n)) }
        ensures part { Is (load_for_write seg offset n) (view B.sight I.hits self.old) result (view B.sight I.hits self.new) }
    {
        let la = self.locate(seg, offset, n, true)?;
        self.load_number(la, n as usize, data_kind(true))
    }

    /// Makes the checks of a store, and moves nothing.
    #[tactic(auto, using(crate::proofs::Calls::call_rules))]
    pub fn probe(&mut self, seg: SegName, offset: u64, n: u32) -> Result<(), Stop>
        requires open { IsOpen B.sight self.old }
        requires size { is_size n ≡ true }
        requires bytes { 10 ≤ bytes_left self.old }
        ensures same { SameHandles self.old self.new }
        ensures open { IsOpen B.sight self.new }
        ensures accesses { accesses_left self.old ≤ accesses_left self.new }
        ensures bytes { bytes_left self.old ≤ bytes_left self.new + 10 }
        ensures part { Is (probe seg offset n) (view B.sight I.hits self.old) result (view B.sight I.hits self.new) }
    {
        let la = self.locate(seg, offset, n, true)?;
        self.probe_at(la, n as usize)
    }

    /// Writes the `n` bytes of a number at an offset of a segment, the lowest first. RAM changes
    /// only where the step is committed; the bytes outside RAM go to devices at once, as in
    /// [`Ctx::load`].
    #[inline(never)]
    #[tactic(auto, using(crate::proofs::Calls::call_rules))]
    pub fn store(&mut self, seg: SegName, offset: u64, n: u32, value: u128) -> Result<(), Stop>
        requires open { IsOpen B.sight self.old }
        requires size { is_size n ≡ true }
        requires fits { value < 2 ^ (8 * n) }
        requires accesses { most n ≤ accesses_left self.old }
        requires bytes { 10 + n ≤ bytes_left self.old }
        ensures same { SameHandles self.old self.new }
        ensures open { IsOpen B.sight self.new }
        ensures accesses { accesses_left self.old ≤ accesses_left self.new + most n }
        ensures bytes { bytes_left self.old ≤ bytes_left self.new + (10 + n) }
        ensures part { Is (store seg offset n value) (view B.sight I.hits self.old) result (view B.sight I.hits self.new) }
    {
        let la = self.locate(seg, offset, n, true)?;
        self.store_number(la, n as usize, value, data_kind(true))
    }

    /// Reads `n` bytes of a descriptor table or of the TSS at a linear address, the lowest first: without a
    /// segment check, and as a system access, whatever the CPL. Outside long mode the address is cut to 32
    /// bits.
    #[tactic(auto, using(crate::proofs::Calls::system_rules))]
    pub fn load_sys(&mut self, la: u64, n: u32) -> Result<u128, Stop>
        requires open { IsOpen B.sight self.old }
        requires size { is_size n ≡ true }
        requires accesses { most n ≤ accesses_left self.old }
        requires bytes { 10 ≤ bytes_left self.old }
        ensures same { SameHandles self.old self.new }
        ensures open { IsOpen B.sight self.new }
        ensures accesses { accesses_left self.old ≤ accesses_left self.new + most n }
        ensures bytes { bytes_left self.old ≤ bytes_left self.new + 10 }
        ensures fits { IfOk result (λ v. v < 2 ^ (8 * n)) }
        ensures part { Is (load_sys la n) (view B.sight I.hits self.old) result (view B.sight I.hits self.new) }
    {
        let at = self.system_address(la);
        self.load_number(at, n as usize, system_kind(false))
    }

    /// Writes the `n` bytes of a number there, as [`Ctx::store`] does.
    #[tactic(auto, using(crate::proofs::Calls::system_rules))]
    pub fn store_sys(&mut self, la: u64, n: u32, value: u128) -> Result<(), Stop>
        requires open { IsOpen B.sight self.old }
        requires size { is_size n ≡ true }
        requires fits { value < 2 ^ (8 * n) }
        requires accesses { most n ≤ accesses_left self.old }
        requires bytes { 10 + n ≤ bytes_left self.old }
        ensures same { SameHandles self.old self.new }
        ensures open { IsOpen B.sight self.new }
        ensures accesses { accesses_left self.old ≤ accesses_left self.new + most n }
        ensures bytes { bytes_left self.old ≤ bytes_left self.new + (10 + n) }
        ensures part { Is (store_sys la n value) (view B.sight I.hits self.old) result (view B.sight I.hits self.new) }
    {
        let at = self.system_address(la);
        self.store_number(at, n as usize, value, system_kind(true))
    }

    /// The address of a system access, which has 64 bits in long mode and 32 elsewhere.
    #[inline]
    fn system_address(&self, la: u64) -> u64
        ensures value { result ≡ la % 2 ^ system_bits (cpu_of self.now) }
        ensures within { result < 2 ^ system_bits (cpu_of self.now) }
    {
        if self.m.cpu().lma() {
            return la;
        }
        la % (1 << 32)
    }

    /// The linear address of an operand, or the exception that it raises.
    #[inline(always)]
    #[tactic(auto, using(crate::proofs::Locates::locate_rules))]
    fn locate(&mut self, seg: SegName, offset: u64, n: u32, write: bool) -> Result<u64, Stop>
        requires open { IsOpen B.sight self.old }
        requires some { 0 < n }
        ensures same { SameHandles self.old self.new }
        ensures open { IsOpen B.sight self.new }
        ensures accesses { accesses_left self.new ≡ accesses_left self.old }
        ensures bytes { bytes_left self.new ≡ bytes_left self.old }
        ensures within { IfOk result (λ la. la < 2 ^ bits_of (cpu_of self.new) (data_kind write)) }
        ensures part { Does (locate seg offset n write) (view B.sight I.hits self.old) result (view B.sight I.hits self.new) }
    {
        match check_access(self.m.cpu(), seg, offset, n, write) {
            Ok(la) => Ok(la),
            Err(fault) => Err(Stop::Fault(fault)),
        }
    }

    /// Whether the linear addresses of an access have 64 bits, and not 32.
    #[inline]
    fn is_wide(&self, kind: Kind) -> bool
        ensures { result ≡ is_wide (cpu_of self.now) kind }
    {
        if kind.system {
            self.m.cpu().lma()
        } else {
            self.m.cpu().is_long()
        }
    }

    /// The linear address behind the end of the page.
    #[inline]
    fn next_page(&self, la: u64, kind: Kind) -> u64
        ensures value { result ≡ next_page (bits_of (cpu_of self.now) kind) la }
        ensures aligned { result % 4096 ≡ 0 }
        ensures within { result < 2 ^ bits_of (cpu_of self.now) kind }
    {
        let next = la.wrapping_add(4096 - la % 4096);
        if self.is_wide(kind) {
            return next;
        }
        next % (1 << 32)
    }

    /// A piece is read, of the RAM or of devices.
    #[tactic(auto, using(crate::proofs::Binds::part_rules, crate::proofs::Pieces::piece_rules))]
    fn read_piece(&mut self, pa: u64, n: usize) -> Result<ArrayVec<u8, 16>, Stop>
        requires open { IsOpen B.sight self.old }
        requires small { n ≤ 16 }
        requires fits { pa < 2 ^ 52 }
        requires accesses { length (chunks pa n) ≤ accesses_left self.old }
        ensures same { SameHandles self.old self.new }
        ensures open { IsOpen B.sight self.new }
        ensures accesses { accesses_left self.old ≤ accesses_left self.new + length (chunks pa n) }
        ensures bytes { bytes_left self.new ≡ bytes_left self.old }
        ensures size { IfOk result (λ bytes. length bytes.items ≡ n) }
        ensures part { (at : ℕ) → Does (read_place (record { pa = pa; at = at; n = n })) (view B.sight I.hits self.old) (bytes_in result) (view B.sight I.hits self.new) }
    {
        if !self.m.is_ram(pa, n as u64) {
            return self.read_devices(pa, n);
        }
        Ok(self.m.read(pa, n))
    }

    /// The number that n bytes of devices are.
    #[tactic(auto, using(crate::proofs::Numbers::number_rules))]
    fn number_of_devices(&mut self, pa: u64, n: usize) -> Result<u128, Stop>
        requires open { IsOpen B.sight self.old }
        requires small { n ≤ 16 }
        requires fits { pa < 2 ^ 52 }
        requires accesses { length (chunks pa n) ≤ accesses_left self.old }
        ensures same { SameHandles self.old self.new }
        ensures open { IsOpen B.sight self.new }
        ensures accesses { accesses_left self.old ≤ accesses_left self.new + length (chunks pa n) }
        ensures bytes { bytes_left self.new ≡ bytes_left self.old }
        ensures below { IfOk result (λ v. v < 2 ^ (8 * n)) }
        ensures part { Does (numbered (devices_read pa n)) (view B.sight I.hits self.old) result (view B.sight I.hits self.new) }
    {
        let bytes = self.read_devices(pa, n)?;
        Ok(number_of(bytes.as_slice()))
    }

    /// A piece is read, as the number that its bytes are: of the RAM with no list between.
    #[inline(always)]
    #[tactic(auto, using(crate::proofs::Numbers::number_rules))]
    fn read_number(&mut self, pa: u64, n: usize) -> Result<u128, Stop>
        requires open { IsOpen B.sight self.old }
        requires size { is_size n ≡ true }
        requires small { n ≤ 16 }
        requires fits { pa < 2 ^ 52 }
        requires accesses { length (chunks pa n) ≤ accesses_left self.old }
        ensures same { SameHandles self.old self.new }
        ensures open { IsOpen B.sight self.new }
        ensures accesses { accesses_left self.old ≤ accesses_left self.new + length (chunks pa n) }
        ensures bytes { bytes_left self.new ≡ bytes_left self.old }
        ensures below { IfOk result (λ v. v < 2 ^ (8 * n)) }
        ensures part { (at : ℕ) → Does (numbered (read_place (record { pa = pa; at = at; n = n }))) (view B.sight I.hits self.old) result (view B.sight I.hits self.new) }
    {
        match self.m.number(pa, n) {
            Some(number) => Ok(number),
            None => self.number_of_devices(pa, n),
        }
    }

    /// The number that is read there, nearly always of one page.
    #[inline(always)]
    #[tactic(auto, using(crate::proofs::Numbers::number_rules))]
    fn load_number(&mut self, la: u64, n: usize, kind: Kind) -> Result<u128, Stop>
        requires open { IsOpen B.sight self.old }
        requires size { is_size n ≡ true }
        requires small { n ≤ 16 }
        requires accesses { most n ≤ accesses_left self.old }
        requires within { la < 2 ^ bits_of (cpu_of self.old) kind }
        requires bytes { 10 ≤ bytes_left self.old }
        ensures same { SameHandles self.old self.new }
        ensures open { IsOpen B.sight self.new }
        ensures accesses { accesses_left self.old ≤ accesses_left self.new + most n }
        ensures bytes { bytes_left self.old ≤ bytes_left self.new + 10 }
        ensures below { IfOk result (λ v. v < 2 ^ (8 * n)) }
        ensures part { Does (numbered (load_at kind la n)) (view B.sight I.hits self.old) result (view B.sight I.hits self.new) }
    {
        let room = 4096 - (la % 4096) as usize;
        if n <= room {
            let pa = self.place(la, kind)?;
            return self.read_number(pa, n);
        }
        let bytes = self.load_at(la, n, kind)?;
        Ok(number_of(bytes.as_slice()))
    }

    /// All pieces are translated before any byte is read.
    #[tactic(auto, using(crate::proofs::Pieces::load_rules))]
    fn load_at(&mut self, la: u64, n: usize, kind: Kind) -> Result<ArrayVec<u8, 16>, Stop>
        requires open { IsOpen B.sight self.old }
        requires size { is_size n ≡ true }
        requires small { n ≤ 16 }
        requires accesses { most n ≤ accesses_left self.old }
        requires within { la < 2 ^ bits_of (cpu_of self.old) kind }
        requires bytes { 10 ≤ bytes_left self.old }
        ensures same { SameHandles self.old self.new }
        ensures open { IsOpen B.sight self.new }
        ensures accesses { accesses_left self.old ≤ accesses_left self.new + most n }
        ensures bytes { bytes_left self.old ≤ bytes_left self.new + 10 }
        ensures size { IfOk result (λ bytes. length bytes.items ≡ n) }
        ensures part { Does (load_at kind la n) (view B.sight I.hits self.old) (bytes_in result) (view B.sight I.hits self.new) }
    {
        let room = 4096 - (la % 4096) as usize;
        if n <= room {
            let pa = self.place(la, kind)?;
            return self.read_piece(pa, n);
        }
        let next = self.next_page(la, kind);
        let low = self.place(la, kind)?;
        let high = self.place(next, kind)?;
        let mut bytes = self.read_piece(low, room)?;
        let rest = self.read_piece(high, n - room)?;
        append(&mut bytes, rest.as_slice());
        Ok(bytes)
    }

    /// All pieces are translated, and nothing moves.
    #[tactic(auto, using(crate::proofs::Pieces::probe_rules))]
    fn probe_at(&mut self, la: u64, n: usize) -> Result<(), Stop>
        requires open { IsOpen B.sight self.old }
        requires small { n ≤ 16 }
        requires within { la < 2 ^ bits_of (cpu_of self.old) (data_kind true) }
        requires bytes { 10 ≤ bytes_left self.old }
        ensures same { SameHandles self.old self.new }
        ensures open { IsOpen B.sight self.new }
        ensures accesses { accesses_left self.old ≤ accesses_left self.new }
        ensures bytes { bytes_left self.old ≤ bytes_left self.new + 10 }
        ensures part { Does (probe_at la n) (view B.sight I.hits self.old) result (view B.sight I.hits self.new) }
    {
        let room = 4096 - (la % 4096) as usize;
        let kind = data_kind(true);
        let next = self.next_page(la, kind);
        self.place(la, kind)?;
        if n > room {
            self.place(next, kind)?;
        }
        Ok(())
    }

    /// The low bytes of a number are written to devices.
    #[inline(never)]
    fn number_to_devices(&mut self, pa: u64, n: usize, value: u128) -> Result<(), Stop>
        requires open { IsOpen B.sight self.old }
        requires small { n ≤ 16 }
        requires fits { pa < 2 ^ 52 }
        requires accesses { length (chunks pa n) ≤ accesses_left self.old }
        ensures same { SameHandles self.old self.new }
        ensures open { IsOpen B.sight self.new }
        ensures accesses { accesses_left self.old ≤ accesses_left self.new + length (chunks pa n) }
        ensures bytes { bytes_left self.new ≡ bytes_left self.old }
        ensures part { Does (devices_write pa (le n value)) (view B.sight I.hits self.old) result (view B.sight I.hits self.new) }
    {
        let bytes = bytes_of(n, value);
        self.write_devices(pa, bytes.as_slice())
    }

    /// A piece is written with the low bytes of a number: to the RAM as one, or to devices.
    #[inline(always)]
    fn write_number(&mut self, pa: u64, n: usize, value: u128) -> Result<(), Stop>
        requires open { IsOpen B.sight self.old }
        requires size { is_size n ≡ true }
        requires small { n ≤ 16 }
        requires fits { pa < 2 ^ 52 }
        requires accesses { length (chunks pa n) ≤ accesses_left self.old }
        requires bytes { n ≤ bytes_left self.old }
        ensures same { SameHandles self.old self.new }
        ensures open { IsOpen B.sight self.new }
        ensures accesses { accesses_left self.old ≤ accesses_left self.new + length (chunks pa n) }
        ensures bytes { bytes_left self.old ≤ bytes_left self.new + n }
        ensures part { Does (write_bytes pa (le n value)) (view B.sight I.hits self.old) result (view B.sight I.hits self.new) }
    {
        if !self.m.is_ram(pa, n as u64) {
            return self.number_to_devices(pa, n, value);
        }
        self.m.write_number(pa, n, value);
        Ok(())
    }

    /// The low bytes of a number are written, nearly always in one page.
    #[inline(always)]
    #[tactic(auto, using(crate::proofs::Stores::number_store_rules))]
    fn store_number(&mut self, la: u64, n: usize, value: u128, kind: Kind) -> Result<(), Stop>
        requires open { IsOpen B.sight self.old }
        requires size { is_size n ≡ true }
        requires small { n ≤ 16 }
        requires accesses { most n ≤ accesses_left self.old }
        requires within { la < 2 ^ bits_of (cpu_of self.old) kind }
        requires bytes { 10 + n ≤ bytes_left self.old }
        ensures same { SameHandles self.old self.new }
        ensures open { IsOpen B.sight self.new }
        ensures accesses { accesses_left self.old ≤ accesses_left self.new + most n }
        ensures bytes { bytes_left self.old ≤ bytes_left self.new + (10 + n) }
        ensures part { Does (store_at kind la (le n value)) (view B.sight I.hits self.old) result (view B.sight I.hits self.new) }
    {
        let room = 4096 - (la % 4096) as usize;
        if n <= room {
            let pa = self.place(la, kind)?;
            return self.write_number(pa, n, value);
        }
        self.store_across(la, n, value, kind)
    }

    /// The low bytes of a number are written, of which some lie in the next page.
    #[inline(never)]
    fn store_across(&mut self, la: u64, n: usize, value: u128, kind: Kind) -> Result<(), Stop>
        requires open { IsOpen B.sight self.old }
        requires size { is_size n ≡ true }
        requires small { n ≤ 16 }
        requires accesses { most n ≤ accesses_left self.old }
        requires within { la < 2 ^ bits_of (cpu_of self.old) kind }
        requires bytes { 10 + n ≤ bytes_left self.old }
        ensures same { SameHandles self.old self.new }
        ensures open { IsOpen B.sight self.new }
        ensures accesses { accesses_left self.old ≤ accesses_left self.new + most n }
        ensures bytes { bytes_left self.old ≤ bytes_left self.new + (10 + n) }
        ensures part { Does (store_at kind la (le n value)) (view B.sight I.hits self.old) result (view B.sight I.hits self.new) }
    {
        let bytes = bytes_of(n, value);
        self.store_at(la, bytes.as_slice(), kind)
    }

    /// A piece is written, to the RAM or to devices.
    fn write_piece(&mut self, pa: u64, bytes: &[u8]) -> Result<(), Stop>
        requires open { IsOpen B.sight self.old }
        requires small { length bytes.now ≤ 16 }
        requires fits { pa < 2 ^ 52 }
        requires accesses { length (chunks pa (length bytes.now)) ≤ accesses_left self.old }
        requires bytes { length bytes.now ≤ bytes_left self.old }
        ensures same { SameHandles self.old self.new }
        ensures open { IsOpen B.sight self.new }
        ensures accesses { accesses_left self.old ≤ accesses_left self.new + length (chunks pa (length bytes.now)) }
        ensures bytes { bytes_left self.old ≤ bytes_left self.new + length bytes.now }
        ensures part { Does (write_bytes pa bytes.now) (view B.sight I.hits self.old) result (view B.sight I.hits self.new) }
    {
        if !self.m.is_ram(pa, bytes.len() as u64) {
            return self.write_devices(pa, bytes);
        }
        self.m.write(pa, bytes);
        Ok(())
    }

    /// All pieces are translated before any byte is written.
    #[tactic(auto, using(crate::proofs::Stores::store_rules))]
    fn store_at(&mut self, la: u64, bytes: &[u8], kind: Kind) -> Result<(), Stop>
        requires open { IsOpen B.sight self.old }
        requires size { is_size (length bytes.now) ≡ true }
        requires small { length bytes.now ≤ 16 }
        requires accesses { most (length bytes.now) ≤ accesses_left self.old }
        requires within { la < 2 ^ bits_of (cpu_of self.old) kind }
        requires bytes { 10 + length bytes.now ≤ bytes_left self.old }
        ensures same { SameHandles self.old self.new }
        ensures open { IsOpen B.sight self.new }
        ensures accesses { accesses_left self.old ≤ accesses_left self.new + most (length bytes.now) }
        ensures bytes { bytes_left self.old ≤ bytes_left self.new + (10 + length bytes.now) }
        ensures part { Does (store_at kind la bytes.now) (view B.sight I.hits self.old) result (view B.sight I.hits self.new) }
    {
        let room = 4096 - (la % 4096) as usize;
        if bytes.len() <= room {
            let pa = self.place(la, kind)?;
            return self.write_piece(pa, bytes);
        }
        let next = self.next_page(la, kind);
        let first = self.place(la, kind)?;
        let second = self.place(next, kind)?;
        self.write_piece(first, &bytes[..room])?;
        self.write_piece(second, &bytes[room..])
    }
}

/// An access to data, through a segment.
#[inline]
fn data_kind(write: bool) -> Kind
    ensures { result ≡ data_kind write }
{
    Kind {
        write,
        fetch: false,
        system: false,
    }
}

/// An access of the processor's own to a descriptor table or the TSS.
#[inline]
fn system_kind(write: bool) -> Kind
    ensures { result ≡ system_kind write }
{
    Kind {
        write,
        fetch: false,
        system: true,
    }
}
