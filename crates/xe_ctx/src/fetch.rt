//! Fetching: the bytes of the instruction at CS:RIP, and the pages that it lies in.

ghost use Rattle.std.specs.Prelude.{◌≡◌, ℕ, ◌+◌, ◌-◌, ◌<◌, ◌≤◌, ◌^◌, ◌++◌, [], length, take, Result, Ok, Err, IfOk, IfErr, OnOk, OnErr, IfSome, IfNone, OnSome, IsOk, ◌⊎◌, true, false};
ghost use Rattle.xe_base.specs.State.{code_size_of};
ghost use Rattle.xe_ctx.specs.Accept.{accessed, code_pieces};
ghost use Rattle.xe_ctx.specs.Ending.{stop_of, stopped};
ghost use Rattle.xe_ctx.specs.Fetch.{avail, byte_at, code_address, code_byte, fetch_fault, fetch_kind, fetched_from, may_fetch, MayFetch, IsPlaced, IsRun};
ghost use Rattle.xe_ctx.specs.Machine.{state_of, cells_of, made_of, work_of, CellsFit, OnlyKnown};
ghost use Rattle.xe_ctx.specs.Translate.{marked};
ghost use Rattle.xe_ctx.specs.View.{view, accepts, cpu_of, state_in, SameHandles, IsOpen, accesses_left, bytes_left, code_of};
ghost use Rattle.xe_opmap.specs.Encoding.{decode_part, finished};
ghost use Rattle.xe_opmap.specs.Valid.{IsDecoded};
ghost use Rattle.xe_walk.specs.Walk.{walk, entries};

use crate::bus::Bus;
use crate::ctx::Ctx;
use crate::machine::Machine;
use crate::stop::{Handoff, Stop};
use crate::translate::ending_of;
use arrayvec::ArrayVec;
use xe_base::{CodeSize, Fault, GENERAL_PROTECTION};
use xe_icpt::Intercepts;
use xe_opmap::{Decoded, Insn, decode};
use xe_walk::Kind;

/// A fetch of code.
#[inline]
fn fetch_kind() -> Kind
    ensures { result ≡ fetch_kind }
{
    Kind {
        write: false,
        fetch: true,
        system: false,
    }
}

/// Bytes that lie one behind another: the physical address of the first, and how many.
#[derive(Clone, Copy)]
struct Run {
    pa: u64,
    n: u64,
}

/// Puts bytes behind those of the instruction that were fetched.
#[inline(always)]
fn append_code(code: &mut ArrayVec<u8, 15>, bytes: &[u8])
    requires { length code.old.items + length bytes.now ≤ 15 }
    ensures { code.new.items ≡ code.old.items ++ bytes.now }
{
    match code.try_extend_from_slice(bytes) {
        Ok(()) | Err(_) => {}
    }
}

impl Machine {
    /// #GP(0) of a byte of the instruction that the segment doesn't let be fetched, or a sixteenth one.
    #[inline]
    fn fetch_fault(&self) -> Stop
        ensures { result ≡ stop_of (fetch_fault (state_of self.now)) }
    {
        Stop::Fault(Fault::with_code(self.cpu.mode(), GENERAL_PROTECTION, 0))
    }

    /// The linear address of byte `i` behind RIP, and of how many bytes from there on the segment lets
    /// each be fetched: 0 where not even of that one. In 64-bit mode the bytes of a page are canonical
    /// together; elsewhere the limit and 4 GiB, in offsets and in addresses, are the ends.
    #[inline(always)]
    fn code_room(&self, i: u8) -> (u64, u64)
        ensures address { result.0 ≡ code_address (state_of self.now).cpu i }
        ensures room { MayFetch (state_of self.now).cpu i result.0 result.1 }
        ensures none { result.1 ≡ 0 → may_fetch (state_of self.now).cpu i ≡ false }
    {
        let whole = self.cpu.rip.wrapping_add(i as u64);
        if self.cpu.is_long() {
            if !self.cpu.is_canonical(whole) {
                return (whole, 0);
            }
            return (whole, 4096 - whole % 4096);
        }
        let offset = whole % (1 << 32);
        let limit = self.cpu.cs.limit as u64;
        let la = self.cpu.cs.base.wrapping_add(offset) % (1 << 32);
        if offset > limit {
            return (la, 0);
        }
        (la, (limit - offset + 1).min((1 << 32) - la))
    }

    /// Where the byte at a linear address lies, and how many bytes from there on lie behind it: those of
    /// the page, or all where paging is off. Or why it can't be translated.
    #[inline]
    fn code_place(&self, la: u64) -> Result<Run, Stop>
        ensures placed { IfOk result (λ run. IsPlaced (state_of self.now) la run.pa run.n) }
        ensures some { IfOk result (λ run. 0 < run.n) }
        ensures err { IfErr result (λ e. Err e ≡ stopped (fetched_from (state_of self.now) la)) }
    {
        if !self.cpu.pg() {
            return Ok(Run {
                pa: la,
                n: u64::MAX,
            });
        }
        match self.walk_at_start(la, fetch_kind()) {
            Ok(hit) => Ok(Run {
                pa: hit.pa,
                n: 4096 - la % 4096,
            }),
            Err(refused) => Err(ending_of(refused)),
        }
    }

    /// How many bytes of the instruction, from byte `i` on and at most up to the fifteenth, lie one
    /// behind another in RAM: no further than segment, page and RAM go. Or why byte `i` can't be had.
    #[inline]
    fn code_run(&self, i: u8) -> Result<Run, Stop>
        requires { i ≤ 14 }
        ensures run { IfOk result (λ run. IsRun (state_of self.now) i run.pa run.n) }
        ensures some { IfOk result (λ run. 0 < run.n) }
        ensures few { IfOk result (λ run. i + run.n ≤ 15) }
        ensures err { IfErr result (λ e. Err e ≡ stopped (code_byte (state_of self.now) i)) }
    {
        let (la, room) = self.code_room(i);
        if room == 0 {
            return Err(self.fetch_fault());
        }
        let Run { pa, n } = self.code_place(la)?;
        let gap = self.mem.first_gap(pa);
        if gap == pa {
            return Err(Stop::Handoff(Handoff::Fetch(pa)));
        }
        let n = (gap - pa).min(n).min(room).min(15 - i as u64);
        Ok(Run { pa, n })
    }

    /// Reads the next bytes of the instruction, as many as lie one behind another, by one load; or
    /// answers why the next one can't be had. Nearly always these are all 15, which move as one where their
    /// count is a constant.
    #[inline]
    fn more_code(&self, code: &mut ArrayVec<u8, 15>) -> Result<(), Stop>
        requires code { code.old.items ≡ take (length code.old.items) (avail (state_of self.now)).bytes }
        requires room { length code.old.items < 15 }
        ensures code { code.new.items ≡ take (length code.new.items) (avail (state_of self.now)).bytes }
        ensures more { OnOk result (length code.old.items < length code.new.items) }
        ensures stays { OnErr result (code.new.items ≡ code.old.items) }
        ensures all { OnErr result (code.old.items ≡ (avail (state_of self.now)).bytes) }
        ensures reason { IfErr result (λ e. e ≡ stop_of (avail (state_of self.now)).reason) }
    {
        let Run { pa, n } = self.code_run(code.len() as u8)?;
        let n = n as usize;
        let mut bytes = [0; 15];
        if n == 15 {
            self.mem.load(pa, &mut bytes);
            append_code(code, &bytes);
            return Ok(());
        }
        self.mem.load(pa, &mut bytes[..n]);
        append_code(code, &bytes[..n]);
        Ok(())
    }

    /// Reads all bytes of the instruction that can be had, at most 15, and answers why the next one
    /// can't. Nearly always one load reads them all; further ones read what lies in a second page, or
    /// behind 4 GiB.
    fn read_code(&self, code: &mut ArrayVec<u8, 15>) -> Stop
        requires none { code.old.items ≡ [] }
        ensures bytes_read { code.new.items ≡ (avail (state_of self.now)).bytes }
        ensures reason { result ≡ stop_of (avail (state_of self.now)).reason }
    {
        'more: while code.len() < 15 {
            match self.more_code(code) {
                Ok(()) => {}
                Err(stop) => return stop,
            }
        }
        self.fetch_fault()
    }

    /// Where 15 bytes from a linear address on lie one behind another, if they lie in one page, which is
    /// translated.
    #[inline(never)]
    fn page_of_15(&self, la: u64) -> Option<u64>
        ensures { IfSome result (λ pa. IsPlaced (state_of self.now) la pa 15) }
    {
        if la % 4096 > 4096 - 15 {
            return None;
        }
        match self.walk_at_start(la, fetch_kind()) {
            Ok(hit) => Some(hit.pa),
            Err(_) => None,
        }
    }

    /// Where 15 bytes from a linear address on lie one behind another, if they do: without paging always.
    #[inline(always)]
    fn place_of_15(&self, la: u64) -> Option<u64>
        ensures { IfSome result (λ pa. IsPlaced (state_of self.now) la pa 15) }
    {
        if !self.cpu.pg() {
            return Some(la);
        }
        self.page_of_15(la)
    }

    /// The bytes of the instruction, if all 15 lie one behind another within the segment, a page and RAM, as
    /// they nearly always do.
    #[inline(always)]
    fn code_at_once(&self) -> Option<[u8; 15]>
        ensures { IfSome result (λ bytes. bytes ≡ (avail (state_of self.now)).bytes) }
    {
        let (la, room) = self.code_room(0);
        if room < 15 {
            return None;
        }
        let pa = self.place_of_15(la)?;
        self.mem.read::<15>(pa)
    }

    /// The instruction, if all its bytes are read at once and it was decoded before.
    #[inline(always)]
    fn known_insn(&self) -> Option<&Insn>
        ensures is { IfSome result (λ insn. finished (decode_part (code_size_of (state_of self.now).cpu) (avail (state_of self.now)).bytes) ≡ Decoded.Insn insn.now) }
        ensures ranges { IfSome result (λ insn. IsDecoded (code_size_of (state_of self.now).cpu) (Decoded.Insn insn.now)) }
    {
        let bytes = self.code_at_once()?;
        let size = self.cpu.code_size();
        self.scratch.known.find(size, self.cpu.rip, &bytes)
    }

    /// Keeps what the bytes of the instruction were decoded as, where these are 15.
    fn keep_insn(&mut self, size: CodeSize, code: &[u8], insn: &Insn)
        requires is { finished (decode_part size code.now) ≡ Decoded.Insn insn.now }
        requires ranges { IsDecoded size (Decoded.Insn insn.now) }
        ensures only { OnlyKnown self.old self.new }
    {
        if code.len() != 15 {
            return;
        }
        let mut bytes = [0; 15];
        bytes.copy_from_slice(code);
        self.scratch.known.keep(size, self.cpu.rip, &bytes, insn);
    }

    /// Reads all bytes of the instruction that can be had, decodes them, and keeps the instruction.
    #[inline(never)]
    fn decode_anew(&mut self, code: &mut ArrayVec<u8, 15>) -> Decoded
        requires none { code.old.items ≡ [] }
        ensures value { result ≡ finished (decode_part (code_size_of (state_of self.old).cpu) (avail (state_of self.old)).bytes) }
        ensures ranges { IsDecoded (code_size_of (state_of self.old).cpu) result }
        ensures code { code.new.items ≡ (avail (state_of self.old)).bytes }
        ensures only { OnlyKnown self.old self.new }
    {
        let _ = self.read_code(code);
        let size = self.cpu.code_size();
        let decoded = decode(size, code.as_slice());
        if let Decoded::Insn(insn) = &decoded {
            self.keep_insn(size, code.as_slice(), insn);
        }
        decoded
    }

    /// Marks the page of a linear address, which is translated, as accessed.
    fn mark_page(&mut self, la: u64)
        requires translated { IsOk (walk (state_of self.old).ram (state_of self.old).cpu la fetch_kind) }
        requires room { length (cells_of self.old) + 5 ≤ 1024 }
        requires cells { CellsFit self.old }
        ensures state { state_of self.new ≡ state_of self.old }
        ensures made { made_of self.new ≡ made_of self.old }
        ensures work { work_of self.new ≡ marked (state_of self.old).cpu fetch_kind (entries (state_of self.old).ram (state_of self.old).cpu la) (work_of self.old) }
        ensures cells { CellsFit self.new }
        ensures room { length (cells_of self.new) ≤ length (cells_of self.old) + 5 }
    {
        match self.walk_at_start(la, fetch_kind()) {
            Ok(hit) => self.mark(hit.used.as_slice(), fetch_kind()),
            Err(_) => {}
        }
    }

    /// Marks the pages of the instruction's first `len` bytes as accessed. These lie in two pages at most.
    #[inline(always)]
    fn mark_code(&mut self, len: u8)
        requires had { len ≤ length (avail (state_of self.old)).bytes }
        requires room { length (cells_of self.old) + 10 ≤ 1024 }
        requires cells { CellsFit self.old }
        ensures state { state_of self.new ≡ state_of self.old }
        ensures made { made_of self.new ≡ made_of self.old }
        ensures work { work_of self.new ≡ accessed (state_of self.old) (code_pieces (state_of self.old) len) (work_of self.old) }
        ensures cells { CellsFit self.new }
        ensures room { length (cells_of self.new) ≤ length (cells_of self.old) + 10 }
    {
        if !self.cpu.pg() || len == 0 {
            return;
        }
        let (la, _) = self.code_room(0);
        self.mark_page(la);
        let room = 4096 - la % 4096;
        if len as u64 <= room {
            return;
        }
        let (next, _) = self.code_room(room as u8);
        self.mark_page(next);
    }
}

impl<'a, B: Bus, I: Intercepts> Ctx<'a, B, I> {
    /// Fetches all bytes of the instruction at CS:RIP that can be had, at most 15, and answers why the
    /// next one can't: #GP(0) where it is past the limit of CS, not at a canonical address in 64-bit mode, or
    /// a sixteenth one; #PF, or a hand-off, where its address has no translation as a fetch or an entry of
    /// the page tables is outside RAM; a hand-off where it is outside RAM itself. (SDM volume 2, "Instruction
    /// Format"; volume 3, "Limit Checking" and "Linear-Address Translation".)
    pub fn read_code(&mut self) -> Stop
        requires open { IsOpen B.sight self.old }
        requires none { code_of self.old ≡ [] }
        ensures bytes_read { code_of self.new ≡ (avail (state_in self.old)).bytes }
        ensures reason { result ≡ stop_of (avail (state_in self.old)).reason }
        ensures same { SameHandles self.old self.new }
        ensures open { IsOpen B.sight self.new }
        ensures step { view B.sight I.hits self.new ≡ view B.sight I.hits self.old }
        ensures accesses { accesses_left self.new ≡ accesses_left self.old }
        ensures bytes { bytes_left self.new ≡ bytes_left self.old }
    {
        self.m.read_code(&mut self.code)
    }

    /// The instruction at CS:RIP, if it was decoded at the same RIP before, from the same bytes, and all
    /// 15 bytes there lie in one page of RAM: what [`Ctx::decode`] answers, without decoding.
    #[inline(always)]
    pub fn known(&self) -> Option<&Insn>
        ensures is { IfSome result (λ insn. finished (decode_part (code_size_of (cpu_of self.now)) (avail (state_in self.now)).bytes) ≡ Decoded.Insn insn.now) }
        ensures ranges { IfSome result (λ insn. IsDecoded (code_size_of (cpu_of self.now)) (Decoded.Insn insn.now)) }
    {
        self.m.known_insn()
    }

    /// What the bytes of the instruction at CS:RIP that can be had begin with, as [`decode`] says of
    /// them; where they end before it is decided, [`Ctx::missing`] says why the next one can't be had.
    /// An instruction is kept, so that [`Ctx::known`] finds it.
    pub fn decode(&mut self) -> Decoded
        requires open { IsOpen B.sight self.old }
        requires none { code_of self.old ≡ [] }
        ensures value { result ≡ finished (decode_part (code_size_of (cpu_of self.old)) (avail (state_in self.old)).bytes) }
        ensures ranges { IsDecoded (code_size_of (cpu_of self.old)) result }
        ensures same { SameHandles self.old self.new }
        ensures open { IsOpen B.sight self.new }
        ensures step { view B.sight I.hits self.new ≡ view B.sight I.hits self.old }
        ensures accesses { accesses_left self.new ≡ accesses_left self.old }
        ensures bytes { bytes_left self.new ≡ bytes_left self.old }
    {
        self.m.decode_anew(&mut self.code)
    }

    /// Why the first byte of the instruction that can't be had can't, as [`Ctx::read_code`] answers.
    #[inline(never)]
    pub fn missing(&self) -> Stop
        ensures reason { result ≡ stop_of (avail (state_in self.now)).reason }
    {
        let mut code = ArrayVec::new();
        self.m.read_code(&mut code)
    }

    /// Byte `i` of the instruction at CS:RIP; or, exactly where there are not so many that can be
    /// had, why the first that is missing can't, as [`Ctx::read_code`] answers.
    pub fn fetch(&mut self, i: u8) -> Result<u8, Stop>
        requires open { IsOpen B.sight self.old }
        requires small { i ≤ 14 }
        ensures byte { result ≡ byte_at (avail (state_in self.old)) i }
        ensures had { OnOk result (i < length (avail (state_in self.old)).bytes) }
        ensures same { SameHandles self.old self.new }
        ensures open { IsOpen B.sight self.new }
        ensures step { view B.sight I.hits self.new ≡ view B.sight I.hits self.old }
        ensures accesses { accesses_left self.new ≡ accesses_left self.old }
        ensures bytes { bytes_left self.new ≡ bytes_left self.old }
    {
        'more: while self.code.len() <= i as usize {
            match self.m.more_code(&mut self.code) {
                Ok(()) => {}
                Err(stop) => return Err(stop),
            }
        }
        Ok(self.code.as_slice()[i as usize])
    }

    /// The instruction is the first `len` of the bytes that can be had: their pages are marked as accessed, in
    /// the RAM as the step sees it. Without paging nothing changes. (SDM volume 3, "Accessed and Dirty Flags".)
    #[inline(always)]
    pub fn accept(&mut self, len: u8)
        requires open { IsOpen B.sight self.old }
        requires had { len ≤ length (avail (state_in self.old)).bytes }
        requires bytes { 10 ≤ bytes_left self.old }
        ensures same { SameHandles self.old self.new }
        ensures open { IsOpen B.sight self.new }
        ensures step { view B.sight I.hits self.new ≡ accepts len (view B.sight I.hits self.old) }
        ensures accesses { accesses_left self.new ≡ accesses_left self.old }
        ensures bytes { bytes_left self.old ≤ bytes_left self.new + 10 }
    {
        self.m.mark_code(len);
    }
}
