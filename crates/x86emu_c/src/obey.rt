//! What a machine of C's does at a call.

ghost use Rattle.std.specs.Prelude.{◌≡◌, ◌<◌, ◌*◌, ◌^◌, length, nat_lt, Some};
ghost use Rattle.xe_base.specs.Access.{answers_to, is_msr};
ghost use Rattle.xe_base.specs.Reset.{reset_state};
ghost use Rattle.xe_base.specs.State.{broken};
ghost use Rattle.xe_base.specs.Ram.{bytes_of};
ghost use Rattle.xe_base.specs.declared.access.Access.{Access};
ghost use Rattle.xe_ctx.specs.Machine.{state_of, first_hole};
ghost use Rattle.x86emu_c.specs.Emulated.{seen, fresh, cpu_status, if_idle, with_cpu, hole_status, with_bytes, answer_status, posting, abandoned};

use crate::emulator::Emulator;
use crate::mailbox::Mailbox;
use crate::status::{ANSWERED, AWAITING, BAD_ANSWER, BAD_CPU, NOT_ASKED, NOT_RAM, OK};
use xe_base::{Access, Answer, Cpu, Space};
use xe_ctx::{Machine, Record, Report};
use xe_icpt::SvmSet;
use xe_mem::GuestMem;

impl Emulator {
    /// A machine with this RAM and the registers of a reset, that intercepts nothing.
    pub(crate) fn new(ram: GuestMem) -> Emulator
        ensures { seen result ≡ fresh ram }
    {
        let machine = machine_with(ram);
        let draft = *machine.cpu();
        Emulator {
            machine,
            draft,
            suspended: Record::new(),
            intercepts: SvmSet::new(),
            mailbox: Mailbox::new(),
            report: Report::new(),
        }
    }

    /// Sets all registers, where none is broken and no access awaits its answer.
    pub(crate) fn set_cpu(&mut self, cpu: Cpu) -> u32
        ensures status { result ≡ if_idle (seen self.old).kept.asked (cpu_status (broken cpu)) }
        ensures set { result ≡ 0 → seen self.new ≡ with_cpu (seen self.old) cpu }
        ensures stays { 0 < result → seen self.new ≡ seen self.old }
    {
        if self.suspended.asked().is_some() {
            return AWAITING;
        }
        match self.machine.set_cpu(cpu) {
            Ok(()) => {
                self.draft = cpu;
                OK
            }
            Err(_) => BAD_CPU,
        }
    }

    /// Reads guest memory; where a byte isn't RAM, `out` stays as it was.
    pub(crate) fn read(&self, pa: u64, out: &mut [u8]) -> u32
        ensures status { result ≡ hole_status (first_hole (seen self.now).state.ram pa (length out.old)) }
        ensures read { result ≡ 0 → out.new ≡ bytes_of (seen self.now).state.ram pa (length out.old) }
        ensures stays { 0 < result → out.new ≡ out.old }
    {
        match self.machine.peek(pa, out) {
            Ok(()) => OK,
            Err(_) => NOT_RAM,
        }
    }

    /// Writes guest memory; where a byte isn't RAM, nothing changes.
    pub(crate) fn write(&mut self, pa: u64, bytes: &[u8]) -> u32
        ensures status { result ≡ hole_status (first_hole (seen self.old).state.ram pa (length bytes.now)) }
        ensures written { result ≡ 0 → seen self.new ≡ with_bytes (seen self.old) pa bytes.now }
        ensures stays { 0 < result → seen self.new ≡ seen self.old }
    {
        match self.machine.poke(pa, bytes) {
            Ok(()) => OK,
            Err(_) => NOT_RAM,
        }
    }

    /// Takes the answer to the access that awaits one.
    pub(crate) fn answer(&mut self, answer: Answer) -> u32
        ensures status { result ≡ answer_status (seen self.old).kept.asked (seen self.old).posted answer }
        ensures posted { (a : Access) → result ≡ 0 → (seen self.old).kept.asked ≡ Some a → seen self.new ≡ posting (seen self.old) a answer }
        ensures stays { 0 < result → seen self.new ≡ seen self.old }
    {
        let Some(asked) = self.suspended.asked() else {
            return NOT_ASKED;
        };
        if self.mailbox.post.is_some() {
            return ANSWERED;
        }
        if !is_answer_to(asked, answer) {
            return BAD_ANSWER;
        }
        self.mailbox.put(asked, answer);
        OK
    }

    /// Gives a suspended step up, with the answers that it has.
    pub(crate) fn abandon(&mut self)
        ensures { seen self.new ≡ abandoned (seen self.old) }
    {
        self.suspended.abandon();
        self.mailbox.clear();
    }
}

/// A machine with the registers of a reset, which are a valid state.
fn machine_with(ram: GuestMem) -> Machine
    ensures { state_of result ≡ record { cpu = reset_state; ram = ram } }
{
    match Machine::new(ram, Cpu::reset()) {
        Ok(machine) => machine,
        Err(_) => unreachable!(),
    }
}

/// Whether an access can have this answer.
fn is_answer_to(a: Access, answer: Answer) -> bool
    ensures { result ≡ answers_to a answer }
{
    match answer {
        Answer::Val(value) => fits(value, a.size),
        Answer::No => is_msr(a.space),
    }
}

/// Whether a value has at most so many bytes.
fn fits(value: u64, size: u8) -> bool
    ensures { result ≡ nat_lt value (2 ^ (8 * size)) }
{
    if size >= 8 {
        return true;
    }
    value >> (8 * u32::from(size)) == 0
}

/// Only model-specific registers answer that there is none.
fn is_msr(space: Space) -> bool
    ensures { result ≡ is_msr space }
{
    match space {
        Space::Msr => true,
        Space::Mem | Space::Port | Space::Cpuid => false,
    }
}
