//! One step in progress.

ghost use Rattle.std.specs.Prelude.{◌≡◌, ℕ, ◌+◌, ◌-◌, ◌<◌, ◌≤◌, ◌^◌, [], length, None, Result, Ok, Err, IfOk, IfSome, OnOk, IfNone, IsTrue, slice_index};
ghost use Rattle.xe_base.specs.Access.{IsWellFormed, answers_to};
ghost use Rattle.xe_base.specs.Calm.{Calm};
ghost use Rattle.xe_base.specs.State.{Valid};
ghost use Rattle.xe_icpt.specs.Points.{IsPoint};
ghost use Rattle.xe_ctx.specs.Bus.{HasRoom};
ghost use Rattle.xe_ctx.specs.Ending.{stop_of};
ghost use Rattle.xe_ctx.specs.Fetch.{avail, byte_at};
ghost use Rattle.xe_ctx.specs.Is.{Is};
ghost use Rattle.xe_ctx.specs.Machine.{state_of};
ghost use Rattle.xe_ctx.specs.Part.{ask};
ghost use Rattle.xe_ctx.specs.Tree.{device, point};
ghost use Rattle.xe_ctx.specs.Kept.{nothing};
ghost use Rattle.xe_ctx.specs.Recorded.{kept_of};
ghost use Rattle.xe_ctx.specs.View.{view, opens, accepts, work_of, made_in, cpu_of, state_in, kept_in, machine_ref, bus_ref, record_ref, machine_back, bus_back, record_back, SameHandles, IsOpen, accesses_left, bytes_left, code_of, kept_after, CanKeep, unused};

use crate::bus::Bus;
use crate::machine::Machine;
use crate::record::Record;
use crate::stop::Stop;
use arrayvec::ArrayVec;
use xe_base::{Access, Answer, Cpu, Made};
use xe_icpt::{Intercepts, Point};

/// One step in progress over a machine, a set of intercepts, a bus and a record.
///
/// The machine isn't changed before [`Ctx::commit`]; a step that is given up, by [`Ctx::end`] or by
/// being dropped, leaves it as it was. The step's first accesses take their answers from the record, and
/// the bus is asked for the others, the record's asked access first.
///
/// A step makes at most 256 accesses, and touches at most 1,024 bytes of RAM. Each call says how
/// many of these it may take, and has the condition that so many are left. It owns no list but the few
/// bytes of its instruction: what it changes and asks stands in the machine's lists, so to begin, to hand on
/// or to drop a step costs nothing.
#[derive(Drop)]
pub struct Ctx<'a, B, I> {
    pub(crate) m: &'a mut Machine,
    pub(crate) icpt: &'a I,
    pub(crate) bus: &'a mut B,
    pub(crate) rec: &'a mut Record,
    pub(crate) code: ArrayVec<u8, 15>,
}

impl<'a, B: Bus, I: Intercepts> Ctx<'a, B, I> {
    /// A step that has done nothing yet. Where the bus tells its script, its room and the record's answers
    /// together are at least 256.
    #[inline]
    pub fn begin(
        m: &'a mut Machine,
        icpt: &'a I,
        bus: &'a mut B,
        rec: &'a mut Record,
    ) -> Ctx<'a, B, I>
        requires { HasRoom (B.sight bus.old) (256 - length (kept_of rec.old).answers) }
        ensures machine { (machine_ref result).ghost_name ≡ m.entry.ghost_name }
        ensures bus { (bus_ref result).ghost_name ≡ bus.entry.ghost_name }
        ensures record { (record_ref result).ghost_name ≡ rec.entry.ghost_name }
        ensures state { state_in result ≡ state_of m.old }
        ensures record_is { (record_ref result).now ≡ rec.old }
        ensures code { code_of result ≡ [] }
        ensures start { view B.sight I.hits result ≡ opens (state_of m.old) (I.hits icpt.now) (kept_of rec.old) (B.sight bus.old) }
        ensures accesses { accesses_left result ≡ 256 }
        ensures bytes { bytes_left result ≡ 1024 }
        ensures open { IsOpen B.sight result }
    {
        m.begin_step();
        Ctx {
            m,
            icpt,
            bus,
            rec,
            code: ArrayVec::new(),
        }
    }

    /// The registers at the start of the step.
    #[inline]
    pub fn cpu(&self) -> &Cpu
        ensures value { result.now ≡ cpu_of self.now }
        ensures valid { Valid result.now }
    {
        self.m.cpu()
    }

    /// The accesses that the step has made, with their answers, in their order.
    #[inline]
    pub fn made(&self) -> &[Made]
        ensures value { result.now ≡ (view B.sight I.hits self.now).step.made }
        ensures fits { length result.now ≤ 256 }
    {
        self.m.made()
    }

    /// The bytes of the instruction that were fetched.
    #[inline]
    pub fn code(&self) -> &[u8]
        ensures value { result.now ≡ code_of self.now }
        ensures fits { length result.now ≤ 15 }
    {
        self.code.as_slice()
    }

    /// One access to a device.
    #[tactic(auto, using(crate::proofs::Trees::request_rules))]
    pub fn device(&mut self, a: Access) -> Result<Answer, Stop>
        requires open { IsOpen B.sight self.old }
        requires well_formed { IsWellFormed a }
        requires accesses { 1 ≤ accesses_left self.old }
        ensures same { SameHandles self.old self.new }
        ensures open { IsOpen B.sight self.new }
        ensures accesses { accesses_left self.old ≤ accesses_left self.new + 1 }
        ensures bytes { bytes_left self.old ≤ bytes_left self.new }
        ensures fits { IfOk result (λ r. IsTrue (answers_to a r)) }
        ensures part { Is (device a) (view B.sight I.hits self.old) result (view B.sight I.hits self.new) }
    {
        self.ask(a)
    }

    /// What is about to happen; stops where it is intercepted.
    #[tactic(auto, using(crate::proofs::Trees::request_rules))]
    pub fn point(&mut self, p: &Point) -> Result<(), Stop>
        requires open { IsOpen B.sight self.old }
        requires well_formed { IsPoint p.now }
        ensures same { SameHandles self.old self.new }
        ensures open { IsOpen B.sight self.new }
        ensures accesses { accesses_left self.old ≤ accesses_left self.new }
        ensures bytes { bytes_left self.old ≤ bytes_left self.new }
        ensures part { Is (point p.now) (view B.sight I.hits self.old) result (view B.sight I.hits self.new) }
    {
        match self.icpt.check(p) {
            None => Ok(()),
            Some(exit) => Err(Stop::Intercept(exit)),
        }
    }

    /// The first access of the record that the step hasn't reached, and its place, counted from 0 in the
    /// order of the step: that of a kept answer, or the asked one. None exactly where the step has reached
    /// every one.
    #[inline]
    pub fn unused(&self) -> Option<(u16, Access)>
        requires open { IsOpen B.sight self.now }
        ensures some { IfSome result (λ u. unused (kept_in self.now) (made_in self.now) ≡ Some u.1) }
        ensures place { IfSome result (λ u. u.0 ≡ length (made_in self.now)) }
        ensures none { IfNone result (unused (kept_in self.now) (made_in self.now) ≡ None) }
    {
        let at = self.m.made().len();
        match self.rec.expected_at(at) {
            Some(access) => Some((at as u16, access)),
            None => None,
        }
    }

    /// The step takes effect: the machine has these registers, and the bytes of RAM that the step
    /// has changed; and the record keeps nothing.
    #[inline(always)]
    pub fn commit(self, cpu: Cpu)
        requires open { IsOpen B.sight self }
        requires valid { Valid cpu }
        requires reached { unused (kept_in self) (made_in self) ≡ None }
        ensures bus { (bus_back self.exit).now ≡ (bus_ref self.entry).now }
        ensures machine { state_of (machine_back self.exit).now ≡ record { cpu = cpu; ram = work_of self.entry } }
        ensures record { kept_of (record_back self.exit).now ≡ nothing }
    {
        let Ctx {
            m,
            icpt: _,
            bus: _,
            rec,
            code: _,
        } = self;
        m.install(cpu);
        rec.abandon();
    }

    /// The same where the registers changed calmly, as nearly every instruction changes them: the general
    /// ones, RIP, and of RFLAGS what an instruction may change. The others aren't copied.
    #[inline(always)]
    pub fn commit_calm(self, cpu: &Cpu)
        requires open { IsOpen B.sight self }
        requires calm { Calm (cpu_of self) cpu.now }
        requires reached { unused (kept_in self) (made_in self) ≡ None }
        ensures bus { (bus_back self.exit).now ≡ (bus_ref self.entry).now }
        ensures machine { state_of (machine_back self.exit).now ≡ record { cpu = cpu.now; ram = work_of self.entry } }
        ensures record { kept_of (record_back self.exit).now ≡ nothing }
    {
        let Ctx {
            m,
            icpt: _,
            bus: _,
            rec,
            code: _,
        } = self;
        m.install_calm(cpu);
        rec.abandon();
    }

    /// The step is given up. The machine is as before it. Where a device wasn't ready or failed, the
    /// record keeps the accesses made and the one that was asked; where the record belongs to another step, it
    /// is as it was; at every other end it keeps nothing.
    #[inline]
    pub fn end(self, stop: &Stop)
        requires open { IsOpen B.sight self }
        requires keeps { CanKeep stop.now (made_in self) }
        ensures bus { (bus_back self.exit).now ≡ (bus_ref self.entry).now }
        ensures machine { state_of (machine_back self.exit).now ≡ state_in self.entry }
        ensures record { kept_of (record_back self.exit).now ≡ kept_after stop.now (made_in self.entry) (kept_in self.entry) }
    {
        let Ctx {
            m,
            icpt: _,
            bus: _,
            rec,
            code: _,
        } = self;
        match *stop {
            Stop::Pending(asked) | Stop::BusFault(asked) => rec.keep(m.made(), asked),
            Stop::Diverged(_) => {}
            Stop::Fault(_) | Stop::Intercept(_) | Stop::Event(_) | Stop::Handoff(_) => {
                rec.abandon()
            }
        }
    }
}
