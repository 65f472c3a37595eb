//! A machine: the registers of one processor, its RAM, and the lists of its running step.

ghost use Rattle.std.specs.Prelude.{◌≡◌, length, All, true};
ghost use Rattle.xe_base.specs.Ram.{in_ram};
ghost use Rattle.xe_base.specs.State.{Valid};
ghost use Rattle.xe_ctx.specs.Work.{Cell, patched, expand};

use crate::chunk::append;
use crate::overlay::{load_patched, number_at, push_bytes, push_number};
use crate::run::Run;
use arrayvec::ArrayVec;
use xe_base::{BadState, Cpu, Made};
use xe_mem::{GuestMem, Region};
use xe_opmap::Known;

/// The lists of the running step. They stay here from one step to the next, and a step begins by
/// emptying the first two, which costs what they hold: to make them anew would fill 44 KB a step.
#[derive(Drop)]
pub(crate) struct Scratch {
    /// The stores of the step, the oldest first.
    pub runs: ArrayVec<Run, 1024>,
    /// The accesses that it has made, with their answers.
    pub made: ArrayVec<Made, 256>,
    /// The instructions that steps have decoded: these outlast a step.
    pub known: Known,
}

/// A processor in a valid state, with its RAM. What its running step has in work is no part of its
/// state.
#[derive(Drop)]
pub struct Machine {
    pub(crate) cpu: Cpu,
    pub(crate) mem: GuestMem,
    pub(crate) scratch: Scratch,
    ghost valid: { Valid cpu },
}

/// A byte that was named isn't RAM.
#[derive(Clone, Copy, PartialEq, Eq, Debug)]
pub struct NotRam {
    /// The first such address.
    pub pa: u64,
}

impl Machine {
    ghost use Rattle.std.specs.Prelude.{◌≡◌, ◌<◌, ◌≤◌, ◌+◌, ◌*◌, ◌^◌, ◌++◌, [], ◌∷◌, length, IfOk, IfErr, OnOk, OnErr, IfSome, OnSome, IfNone, Some, None, Ok, Err, true, false};
    ghost use Rattle.xe_base.specs.Calm.{Calm};
    ghost use Rattle.xe_base.specs.State.{Valid, broken, answer_of};
    ghost use Rattle.xe_base.specs.Bytes.{num, le};
    ghost use Rattle.xe_base.specs.Ram.{bytes_of, put_bytes};
    ghost use Rattle.xe_mem.specs.Layout.{regions_of};
    ghost use Rattle.xe_ctx.specs.Chunks.{is_size};
    ghost use Rattle.xe_ctx.specs.Machine.{state_of, cells_of, made_of, work_of, CellsFit, first_hole};
    ghost use Rattle.xe_ctx.specs.Memory.{are_ram};

    /// A machine with this RAM and these registers. Where they break a rule of a valid state, it
    /// answers the first such rule, and hands the RAM back.
    pub fn new(mem: GuestMem, cpu: Cpu) -> Result<Machine, (BadState, GuestMem)>
        ensures ok { IfOk result (λ m. state_of m ≡ record { cpu = cpu; ram = mem }) }
        ensures valid { OnOk result (Valid cpu) }
        ensures refused { IfErr result (λ e. broken cpu ≡ Some e.0.rule) }
        ensures handed_back { IfErr result (λ e. e.1 ≡ mem) }
    {
        match cpu.check() {
            Ok(()) => Ok(Machine {
                cpu,
                mem,
                scratch: Scratch {
                    runs: ArrayVec::new(),
                    made: ArrayVec::new(),
                    known: Known::new(),
                },
            }),
            Err(bad) => Err((bad, mem)),
        }
    }

    /// The registers.
    #[inline]
    pub fn cpu(&self) -> &Cpu
        ensures value { result.now ≡ (state_of self.now).cpu }
        ensures valid { Valid result.now }
    {
        &self.cpu
    }

    /// Sets all registers; where they break a rule of a valid state, nothing changes.
    pub fn set_cpu(&mut self, cpu: Cpu) -> Result<(), BadState>
        ensures answer { result ≡ answer_of (broken cpu) }
        ensures ok { OnOk result (state_of self.new ≡ record (state_of self.old) { cpu = cpu }) }
        ensures err { OnErr result (state_of self.new ≡ state_of self.old) }
    {
        cpu.check()?;
        self.cpu = cpu;
        Ok(())
    }

    /// Where its RAM lies: the regions that it was made of, lowest first.
    pub fn regions(&self) -> &[Region]
        ensures { result.now ≡ regions_of (state_of self.now).ram }
    {
        self.mem.regions()
    }

    /// Reads guest memory; where a byte isn't RAM, `out` stays as it was.
    pub fn peek(&self, pa: u64, out: &mut [u8]) -> Result<(), NotRam>
        ensures ok { OnOk result (first_hole (state_of self.now).ram pa (length out.old) ≡ None) }
        ensures read { OnOk result (out.new ≡ bytes_of (state_of self.now).ram pa (length out.old)) }
        ensures err { IfErr result (λ e. first_hole (state_of self.now).ram pa (length out.old) ≡ Some e.pa) }
        ensures stays { OnErr result (out.new ≡ out.old) }
    {
        self.check(pa, out.len() as u64)?;
        self.mem.load(pa, out);
        Ok(())
    }

    /// Writes guest memory; where a byte isn't RAM, nothing changes.
    pub fn poke(&mut self, pa: u64, bytes: &[u8]) -> Result<(), NotRam>
        ensures ok { OnOk result (first_hole (state_of self.old).ram pa (length bytes.now) ≡ None) }
        ensures written { OnOk result (state_of self.new ≡ record (state_of self.old) { ram = put_bytes (state_of self.old).ram pa bytes.now }) }
        ensures err { IfErr result (λ e. first_hole (state_of self.old).ram pa (length bytes.now) ≡ Some e.pa) }
        ensures stays { OnErr result (state_of self.new ≡ state_of self.old) }
    {
        self.check(pa, bytes.len() as u64)?;
        self.mem.store(pa, bytes);
        Ok(())
    }

    /// Refuses a range with a byte that isn't RAM, by the first such address.
    #[tactic(auto, using(crate::proofs::Holes::hole_rules))]
    fn check(&self, pa: u64, n: u64) -> Result<(), NotRam>
        ensures ok { OnOk result (first_hole (state_of self.now).ram pa n ≡ None) }
        ensures err { IfErr result (λ e. first_hole (state_of self.now).ram pa n ≡ Some e.pa) }
    {
        let gap = self.mem.first_gap(pa);
        if gap - pa < n {
            return Err(NotRam { pa: gap });
        }
        Ok(())
    }

    /// A step begins: it has changed nothing and made no access.
    #[inline]
    pub(crate) fn begin_step(&mut self)
        ensures state { state_of self.new ≡ state_of self.old }
        ensures cells { cells_of self.new ≡ [] }
        ensures made { made_of self.new ≡ [] }
    {
        self.scratch.runs.clear();
        self.scratch.made.clear();
    }

    /// The accesses that the running step has made.
    #[inline]
    pub(crate) fn made(&self) -> &[Made]
        ensures value { result.now ≡ made_of self.now }
        ensures fits { length result.now ≤ 256 }
    {
        self.scratch.made.as_slice()
    }

    /// The running step has made one more access.
    #[inline]
    pub(crate) fn note(&mut self, made: Made)
        requires { length (made_of self.old) < 256 }
        ensures state { state_of self.new ≡ state_of self.old }
        ensures cells { cells_of self.new ≡ cells_of self.old }
        ensures made { made_of self.new ≡ made_of self.old ++ made ∷ [] }
    {
        self.scratch.made.push(made);
    }

    /// Whether each of the `n` bytes is RAM.
    #[inline]
    pub(crate) fn is_ram(&self, pa: u64, n: u64) -> bool
        ensures { result ≡ are_ram (state_of self.now).ram pa n }
    {
        self.mem.is_ram(pa, n)
    }

    /// Bytes of the RAM, as the running step sees them.
    pub(crate) fn read(&self, pa: u64, n: usize) -> ArrayVec<u8, 16>
        requires small { n ≤ 16 }
        requires ram { are_ram (state_of self.now).ram pa n ≡ true }
        ensures { result.items ≡ bytes_of (work_of self.now) pa n }
    {
        let mut bytes = [0; 16];
        load_patched(&self.mem, self.scratch.runs.as_slice(), pa, &mut bytes[..n]);
        let mut all = ArrayVec::new();
        append(&mut all, &bytes[..n]);
        all
    }

    /// The number that bytes of the RAM are, as the running step sees them; none where one of them isn't
    /// RAM.
    #[inline]
    pub(crate) fn number(&self, pa: u64, n: usize) -> Option<u128>
        requires size { is_size n ≡ true }
        ensures ram { OnSome result (are_ram (state_of self.now).ram pa n ≡ true) }
        ensures none { IfNone result (are_ram (state_of self.now).ram pa n ≡ false) }
        ensures is { IfSome result (λ v. v ≡ num (bytes_of (work_of self.now) pa n)) }
        ensures below { IfSome result (λ v. v < 2 ^ (8 * n)) }
    {
        number_at(&self.mem, self.scratch.runs.as_slice(), pa, n)
    }

    /// The running step writes bytes of the RAM.
    #[inline]
    pub(crate) fn write(&mut self, pa: u64, bytes: &[u8])
        requires room { length (cells_of self.old) + length bytes.now ≤ 1024 }
        requires fits { pa + length bytes.now < 2 ^ 64 }
        requires ram { are_ram (state_of self.old).ram pa (length bytes.now) ≡ true }
        requires cells { CellsFit self.old }
        ensures state { state_of self.new ≡ state_of self.old }
        ensures made { made_of self.new ≡ made_of self.old }
        ensures work { work_of self.new ≡ put_bytes (work_of self.old) pa bytes.now }
        ensures cells { CellsFit self.new }
        ensures room { length (cells_of self.new) ≡ length (cells_of self.old) + length bytes.now }
    {
        push_bytes(&mut self.scratch.runs, pa, bytes);
    }

    /// The running step writes the low bytes of a number, of an operand's size.
    #[inline(always)]
    pub(crate) fn write_number(&mut self, pa: u64, n: usize, value: u128)
        requires size { is_size n ≡ true }
        requires room { length (cells_of self.old) + n ≤ 1024 }
        requires fits { pa + n < 2 ^ 64 }
        requires ram { are_ram (state_of self.old).ram pa n ≡ true }
        requires cells { CellsFit self.old }
        ensures state { state_of self.new ≡ state_of self.old }
        ensures made { made_of self.new ≡ made_of self.old }
        ensures work { work_of self.new ≡ put_bytes (work_of self.old) pa (le n value) }
        ensures cells { CellsFit self.new }
        ensures room { length (cells_of self.new) ≡ length (cells_of self.old) + n }
    {
        push_number(&mut self.scratch.runs, pa, n, value);
    }

    /// The running step takes effect: the registers, and the bytes that it has changed.
    #[inline(always)]
    pub(crate) fn install(&mut self, cpu: Cpu)
        requires valid { Valid cpu }
        requires cells { CellsFit self.old }
        ensures { state_of self.new ≡ record { cpu = cpu; ram = work_of self.old } }
    {
        self.cpu = cpu;
        apply(&mut self.mem, self.scratch.runs.as_slice());
    }

    /// The same where the registers changed calmly: the general ones, RIP and RFLAGS alone.
    #[inline(always)]
    pub(crate) fn install_calm(&mut self, cpu: &Cpu)
        requires calm { Calm (state_of self.old).cpu cpu.now }
        requires cells { CellsFit self.old }
        ensures { state_of self.new ≡ record { cpu = cpu.now; ram = work_of self.old } }
    {
        self.cpu.gpr = cpu.gpr;
        self.cpu.rip = cpu.rip;
        self.cpu.rflags = cpu.rflags;
        apply(&mut self.mem, self.scratch.runs.as_slice());
    }
}

/// Puts the changed bytes into the RAM, the oldest store first.
#[inline]
fn apply(mem: &mut GuestMem, runs: &[Run])
    requires { All (λ (c : Cell). in_ram mem.old c.at ≡ true) (expand runs.now) }
    ensures { mem.new ≡ patched mem.old (expand runs.now) }
{
    for run in runs {
        run.put(mem);
    }
}
