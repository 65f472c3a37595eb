//! The driver: it obeys the commands of a scene, over a machine and its scripted devices.
ghost use Rattle.std.specs.Prelude.{◌≡◌, ◌≤◌, ◌<◌, ◌+◌, ℕ, List, All, IfOk, OnOk, OnErr, Some, length};
ghost use Rattle.xe_base.specs.State.{Valid};
ghost use Rattle.xe_mem.specs.Layout.{IsLayout, zeroed};
ghost use Rattle.xe_core.specs.Call as calls;
ghost use Rattle.xe_ctx.specs.Kept.{nothing};
ghost use Rattle.xe_ctx.specs.Machine.{state_of};
ghost use Rattle.xe_ctx.specs.Recorded.{kept_of};
ghost use Rattle.xe_scene.specs.Formed.{IsFormed, IsItemFor};
ghost use Rattle.xe_scene.specs.Script.{tape_of, with_device};
ghost use Rattle.xe_run.specs.Told.{Rose, Writes};
ghost use Rattle.xe_run.specs.Text.{text, line_of};
ghost use Rattle.xe_run.specs.Drive as spec;
ghost use Rattle.xe_run.specs.Driver.{world, HasRoomFor, HasRoomOf, SameRoom, Feeds};
ghost use Rattle.xe_run.specs.Reported.{reported, led_report};

use crate::batch::Batch;
use crate::event::Event;
use crate::line::Line;
use crate::outside::{Failed, Sink};
use crate::print::{print, print_all, print_memory};
use crate::registers::{shown, with_register, with_segment, with_table};
use crate::turn::{goes_on, is_done, is_pending, note_wait, tell_call, tell_turn};
use arrayvec::ArrayVec;
use std::alloc::Global;
use xe_base::{Cpu, NoMemory, Seg, Space, Table};
use xe_core::emulate_into;
use xe_ctx::{Machine, Record, Report};
use xe_icpt::SvmSet;
use xe_mem::{GuestMem, MemFault, Region};
use xe_opmap::Row;
use xe_scene::{Command, Commands, Dir, Item, Scene, ScriptBus};

/// A machine with the devices that a scene scripts, the draft of its registers, what is intercepted, how
/// many steps a turn has at most, and what `call` has kept of a suspended step.
///
/// The report and the counts are those of the last turn or call, and the line is the last that a turn or
/// call showed. They stay from one to the next and are emptied, since to make them anew would cost more
/// than a step.
#[derive(Drop)]
pub(crate) struct Driver {
    pub(crate) machine: Machine,
    pub(crate) draft: Cpu,
    pub(crate) icpt: SvmSet,
    pub(crate) batch: Batch,
    pub(crate) bus: ScriptBus,
    pub(crate) suspended: Record,
    pub(crate) report: Report,
    /// How often each access of the turn wasn't ready, by its place in the step; 0 behind the last.
    pub(crate) waits: ArrayVec<u64, 256>,
    pub(crate) line: Line,
}

/// The RAM of regions that a scene may have, so that memory alone can be refused.
fn ram_of(alloc: Global, regions: &[Region]) -> Result<GuestMem, NoMemory>
    requires { IsLayout regions.now }
    ensures { IfOk result (λ ram. ram ≡ zeroed regions.now) }
{
    match GuestMem::create(alloc, regions) {
        Ok(ram) => Ok(ram),
        Err(MemFault::NoMemory) => Err(NoMemory),
        Err(MemFault::BadRegion(_)) | Err(MemFault::TooLarge) => unreachable!(),
    }
}

/// A machine with registers that are a valid state.
fn machine_with(ram: GuestMem, cpu: Cpu) -> Machine
    requires { Valid cpu }
    ensures { state_of result ≡ record { cpu = cpu; ram = ram } }
{
    match Machine::new(ram, cpu) {
        Ok(machine) => machine,
        Err(_) => unreachable!(),
    }
}

/// How many steps finished before the last one.
fn steps_before(report: &Report) -> u32
    ensures { result ≡ calls.steps_before report.now }
{
    if is_done(&report.outcome) {
        report.elements.saturating_sub(1)
    } else {
        report.elements
    }
}

/// The report of a turn, by that of its last call and by the steps that finished before the last one.
fn lead(report: &mut Report, elements: u32, finished: Option<Row>)
    requires { elements < 1000 }
    ensures { report.new ≡ led_report elements finished report.old }
{
    if is_done(&report.outcome) {
        report.elements = elements + 1;
    } else {
        report.elements = elements;
        report.finished = finished;
    }
}

impl Driver {
    /// A machine with the RAM of a scene and the registers of a reset, and its devices.
    pub(crate) fn new(alloc: Global, scene: &Scene) -> Result<Driver, NoMemory>
        requires { IsLayout scene.now.regions.items }
        ensures start { IfOk result (λ d. world d ≡ spec.start scene.now.regions.items) }
        ensures room { IfOk result (λ d. HasRoomFor d scene.now.commands) }
    {
        let draft = Cpu::reset();
        let machine = machine_with(ram_of(alloc, scene.regions.as_slice())?, draft);
        let bus = ScriptBus::for_scene(alloc, scene)?;
        Ok(Driver {
            machine,
            draft,
            icpt: SvmSet::new(),
            batch: Batch::new(1),
            bus,
            suspended: Record::new(),
            report: Report::new(),
            waits: ArrayVec::new(),
            line: Line::new(),
        })
    }

    /// One turn of at most so many steps, over the script with an empty log. The emulator is called again
    /// after each device that isn't ready, and goes on from the answers that it has; a step whose device
    /// fails is given up. The report then tells of the whole turn.
    fn take_turn(&mut self, most: u32)
        requires kept { kept_of self.old.suspended ≡ nothing }
        requires some { 1 ≤ most }
        requires few { most ≤ 1000 }
        ensures turn { spec.turn most (world self.old) ≡ reported self.new.report self.new.waits.items (state_of self.new.machine) (tape_of self.new.bus) }
        ensures draft { self.new.draft ≡ self.old.draft }
        ensures icpt { self.new.icpt ≡ self.old.icpt }
        ensures batch { self.new.batch ≡ self.old.batch }
        ensures kept { kept_of self.new.suspended ≡ nothing }
        ensures room { SameRoom self.old self.new }
    {
        self.bus.begin();
        self.waits.clear();
        emulate_into(
            &mut self.machine,
            &self.icpt,
            &mut self.bus,
            &mut self.suspended,
            most,
            &mut self.report,
        );
        let elements = steps_before(&self.report);
        let finished = self.report.finished;
        let mut pending = is_pending(&self.report);
        'asking: while pending {
            let at = self.suspended.answers().len();
            note_wait(&mut self.waits, at);
            emulate_into(
                &mut self.machine,
                &self.icpt,
                &mut self.bus,
                &mut self.suspended,
                1,
                &mut self.report,
            );
            pending = is_pending(&self.report);
        }
        self.suspended.abandon();
        lead(&mut self.report, elements, finished);
    }

    /// One turn of the steps that are left, with its lines; answers whether the run goes on.
    fn turn<K: Sink>(&mut self, left: u64, out: &mut K) -> Result<bool, Failed>
        requires kept { kept_of self.old.suspended ≡ nothing }
        requires left { 1 ≤ left }
        ensures goes_on { IfOk result (λ b. b ≡ spec.goes_on_after (spec.next_turn left (world self.old)).outcome) }
        ensures steps { OnOk result (self.new.report.elements ≡ (spec.next_turn left (world self.old)).steps) }
        ensures after { OnOk result (world self.new ≡ spec.turned (world self.old) (spec.next_turn left (world self.old))) }
        ensures writes { Writes result (K.written out.old) (text (spec.turn_events (world self.old).machine.cpu (spec.next_turn left (world self.old)))) (K.written out.new) }
        ensures kept { kept_of self.new.suspended ≡ nothing }
        ensures room { SameRoom self.old self.new }
        ensures count { K.faults out.old ≤ K.faults out.new }
        ensures failed { OnErr result (Rose (K.faults out.old) (K.faults out.new)) }
    {
        let before = *self.machine.cpu();
        let most = self.batch.next(left);
        self.take_turn(most);
        tell_turn(
            &self.report,
            self.waits.as_slice(),
            &before,
            self.machine.cpu(),
            &mut self.line,
            out,
        )?;
        Ok(goes_on(&self.report.outcome))
    }

    /// Turns until so many steps finished, or the run ends before.
    fn turns<K: Sink>(&mut self, steps: u64, out: &mut K) -> Result<(), Failed>
        requires { kept_of self.old.suspended ≡ nothing }
        ensures after { OnOk result (world self.new ≡ (spec.turns steps (world self.old)).after) }
        ensures writes { Writes result (K.written out.old) (text (spec.turns steps (world self.old)).events) (K.written out.new) }
        ensures room { SameRoom self.old self.new }
        ensures count { K.faults out.old ≤ K.faults out.new }
        ensures failed { OnErr result (Rose (K.faults out.old) (K.faults out.new)) }
    {
        let mut left = steps;
        for round in 0..steps {
            if left == 0 {
                return Ok(());
            }
            if !self.turn(left, out)? {
                return Ok(());
            }
            left = left.saturating_sub(u64::from(self.report.elements));
        }
        Ok(())
    }

    /// The draft becomes the machine's state again.
    fn redraft(&mut self)
        ensures after { world self.new ≡ spec.redrafted (world self.old) }
        ensures room { SameRoom self.old self.new }
    {
        self.draft = *self.machine.cpu();
    }

    /// Gives up a draft that is refused, and shows the rule that it breaks.
    fn refuse<K: Sink>(&mut self, rule: u8, out: &mut K) -> Result<(), Failed>
        ensures after { world self.new ≡ spec.redrafted (world self.old) }
        ensures writes { Writes result (K.written out.old) (line_of (Event.BadState rule)) (K.written out.new) }
        ensures room { SameRoom self.old self.new }
        ensures count { K.faults out.old ≤ K.faults out.new }
        ensures failed { OnErr result (Rose (K.faults out.old) (K.faults out.new)) }
    {
        self.redraft();
        print(&Event::BadState(rule), out)
    }

    /// Installs the draft, gives up a suspended step, and runs so many steps.
    fn run<K: Sink>(&mut self, steps: u64, out: &mut K) -> Result<(), Failed>
        ensures after { OnOk result (world self.new ≡ (spec.run_command steps (world self.old)).after) }
        ensures writes { Writes result (K.written out.old) (text (spec.run_command steps (world self.old)).events) (K.written out.new) }
        ensures room { SameRoom self.old self.new }
        ensures count { K.faults out.old ≤ K.faults out.new }
        ensures failed { OnErr result (Rose (K.faults out.old) (K.faults out.new)) }
    {
        match self.machine.set_cpu(self.draft) {
            Ok(()) => {
                self.suspended.abandon();
                self.turns(steps, out)?;
                self.redraft();
                Ok(())
            }
            Err(bad) => self.refuse(bad.rule, out),
        }
    }

    /// One call over the script with an empty log, which goes on with a suspended step; answers how
    /// many answers that step had.
    fn call_once(&mut self) -> usize
        ensures kept { result ≡ length (kept_of self.old.suspended).answers }
        ensures called { spec.single_call (world self.old) ≡ calls.reported self.new.report (state_of self.new.machine) (kept_of self.new.suspended) (Some (tape_of self.new.bus)) }
        ensures after { world self.new ≡ spec.after_call (world self.old) (spec.single_call (world self.old)) }
        ensures draft { self.new.draft ≡ self.old.draft }
        ensures room { SameRoom self.old self.new }
    {
        let kept = self.suspended.answers().len();
        self.bus.begin();
        emulate_into(
            &mut self.machine,
            &self.icpt,
            &mut self.bus,
            &mut self.suspended,
            self.batch.most(),
            &mut self.report,
        );
        kept
    }

    /// Installs the draft and makes one call, with its lines.
    fn call<K: Sink>(&mut self, out: &mut K) -> Result<(), Failed>
        ensures after { OnOk result (world self.new ≡ (spec.call_command (world self.old)).after) }
        ensures writes { Writes result (K.written out.old) (text (spec.call_command (world self.old)).events) (K.written out.new) }
        ensures room { SameRoom self.old self.new }
        ensures count { K.faults out.old ≤ K.faults out.new }
        ensures failed { OnErr result (Rose (K.faults out.old) (K.faults out.new)) }
    {
        match self.machine.set_cpu(self.draft) {
            Ok(()) => {
                let kept = self.call_once();
                tell_call(
                    &self.report,
                    kept,
                    &self.draft,
                    self.machine.cpu(),
                    &mut self.line,
                    out,
                )?;
                self.redraft();
                Ok(())
            }
            Err(bad) => self.refuse(bad.rule, out),
        }
    }

    /// Writes bytes into RAM, or shows the first address that isn't RAM.
    fn poke<K: Sink>(&mut self, pa: u64, bytes: &[u8], out: &mut K) -> Result<(), Failed>
        ensures after { OnOk result (world self.new ≡ (spec.poke_command pa bytes.now (world self.old)).after) }
        ensures writes { Writes result (K.written out.old) (text (spec.poke_command pa bytes.now (world self.old)).events) (K.written out.new) }
        ensures room { SameRoom self.old self.new }
        ensures count { K.faults out.old ≤ K.faults out.new }
        ensures failed { OnErr result (Rose (K.faults out.old) (K.faults out.new)) }
    {
        match self.machine.poke(pa, bytes) {
            Ok(()) => Ok(()),
            Err(hole) => print(&Event::NotRam(hole.pa), out),
        }
    }

    /// Installs the draft and shows the registers.
    fn show<K: Sink>(&mut self, out: &mut K) -> Result<(), Failed>
        ensures after { OnOk result (world self.new ≡ (spec.show_command (world self.old)).after) }
        ensures writes { Writes result (K.written out.old) (text (spec.show_command (world self.old)).events) (K.written out.new) }
        ensures room { SameRoom self.old self.new }
        ensures count { K.faults out.old ≤ K.faults out.new }
        ensures failed { OnErr result (Rose (K.faults out.old) (K.faults out.new)) }
    {
        match self.machine.set_cpu(self.draft) {
            Ok(()) => print_all(&shown(&self.draft), out),
            Err(bad) => self.refuse(bad.rule, out),
        }
    }

    /// Shows bytes of RAM, or the first address that isn't RAM.
    fn dump<K: Sink>(&self, pa: u64, len: u64, out: &mut K) -> Result<(), Failed>
        requires { len ≤ 0x1000 }
        ensures writes { Writes result (K.written out.old) (text (spec.dump_command pa len (world self.now)).events) (K.written out.new) }
        ensures count { K.faults out.old ≤ K.faults out.new }
        ensures failed { OnErr result (Rose (K.faults out.old) (K.faults out.new)) }
    {
        let mut buf = [0; 0x1000];
        let bytes = &mut buf[..len as usize];
        match self.machine.peek(pa, bytes) {
            Ok(()) => print_memory(pa, bytes, out),
            Err(hole) => print(&Event::NotRam(hole.pa), out),
        }
    }

    /// Appends items to the queue of a device.
    fn feed(&mut self, space: Space, dir: Dir, address: u64, items: &ArrayVec<Item, 16>)
        requires room { HasRoomOf self.old (Command.Dev space dir address items.now) }
        requires formed { All (IsItemFor space) items.now.items }
        ensures after { world self.new ≡ record (world self.old) { tape = with_device (tape_of self.old.bus) space dir address items.now.items } }
        ensures room { Feeds self.old (Command.Dev space dir address items.now) self.new }
    {
        self.bus
            .feed(space, dir.is_write(), address, items.as_slice());
    }

    /// A model-specific register with a direction joins those that are intercepted.
    fn intercept_msr(&mut self, write: bool, number: u32)
        ensures after { world self.new ≡ record (world self.old) { icpt = spec.with_msr self.old.icpt number write } }
        ensures room { SameRoom self.old self.new }
    {
        let _ = self.icpt.msr(number, write);
    }

    /// Obeys one command.
    #[tactic(auto, unfolding(crate::specs::Drive::obeyed))]
    fn obey<K: Sink>(&mut self, command: &Command, out: &mut K) -> Result<(), Failed>
        requires room { HasRoomOf self.old command.now }
        requires formed { IsFormed command.now }
        ensures after { OnOk result (world self.new ≡ (spec.obeyed (world self.old) command.now).after) }
        ensures writes { Writes result (K.written out.old) (text (spec.obeyed (world self.old) command.now).events) (K.written out.new) }
        ensures room { OnOk result (Feeds self.old command.now self.new) }
        ensures count { K.faults out.old ≤ K.faults out.new }
        ensures failed { OnErr result (Rose (K.faults out.old) (K.faults out.new)) }
    {
        match command {
            Command::Reg(name, value) => {
                self.draft = with_register(self.draft, *name, *value);
                Ok(())
            }
            Command::Seg(name, selector, base, limit, attr) => {
                let value = Seg {
                    sel: *selector as u16,
                    base: *base,
                    limit: *limit as u32,
                    attr: *attr as u16,
                };
                self.draft = with_segment(self.draft, *name, value);
                Ok(())
            }
            Command::Table(name, base, limit) => {
                let value = Table {
                    base: *base,
                    limit: *limit as u16,
                };
                self.draft = with_table(self.draft, *name, value);
                Ok(())
            }
            Command::Poke(pa, bytes) => self.poke(*pa, bytes, out),
            Command::Dev(space, dir, address, items) => {
                self.feed(*space, *dir, *address, items);
                Ok(())
            }
            Command::Icpt(name) => {
                self.icpt.set(*name);
                Ok(())
            }
            Command::Unicpt(name) => {
                self.icpt.clear(*name);
                Ok(())
            }
            Command::Ioport(low, high) => {
                self.icpt.ports(*low as u16, *high as u16);
                Ok(())
            }
            Command::Icptmsr(direction, number) => {
                self.intercept_msr(direction.is_write(), *number as u32);
                Ok(())
            }
            Command::Batch(most) => {
                self.batch = Batch::new(*most);
                Ok(())
            }
            Command::Run(steps) => self.run(*steps, out),
            Command::Call => self.call(out),
            Command::Show => self.show(out),
            Command::Dump(pa, len) => self.dump(*pa, *len, out),
        }
    }

    /// Obeys the commands in order, and writes the line of each event at once.
    pub(crate) fn obey_all<K: Sink>(
        &mut self,
        commands: &Commands,
        out: &mut K,
    ) -> Result<(), Failed>
        requires { HasRoomFor self.old commands.now }
        ensures writes { Writes result (K.written out.old) (text (spec.drive_from (world self.old) commands.now)) (K.written out.new) }
        ensures count { K.faults out.old ≤ K.faults out.new }
        ensures failed { OnErr result (Rose (K.faults out.old) (K.faults out.new)) }
    {
        for i in 0..commands.len() {
            self.obey(commands.get(i), out)?;
        }
        Ok(())
    }
}
