//! How a step ends, other than by finishing.

use xe_base::{Access, Cpu, Fault};
use xe_icpt::Exit;

/// The instruction that raises a software interrupt.
#[derive(Clone, Copy, PartialEq, Eq, Debug)]
pub enum EventKind {
    /// INT n.
    Int,
    /// INT3.
    Int3,
    /// INTO with OF set.
    Into,
}

/// A software interrupt, which the caller is to deliver (SDM volume 2, INT n/INTO/INT3).
#[derive(Clone, Copy, PartialEq, Eq, Debug)]
pub struct Event {
    pub kind: EventKind,
    pub vector: u8,
    /// RIP behind the instruction.
    pub next: u64,
}

/// What the emulator leaves to its caller. The machine is as before the step.
#[derive(Clone, Copy, PartialEq, Eq, Debug)]
pub enum Handoff {
    /// A far transfer through a call gate; the selector of the instruction.
    CallGate(u16),
    /// A far transfer through a task gate; the selector of the instruction.
    TaskGate(u16),
    /// A far transfer to a TSS; the selector of the instruction.
    Tss(u16),
    /// IRET with NT set: a return to another task.
    TaskReturn,
    /// IRET into virtual-8086 mode; the CS that it loaded.
    Vm86(u16),
    /// An entry of the page tables isn't in RAM; its physical address.
    Entry(u64),
    /// A byte of the instruction isn't in RAM; its physical address.
    Fetch(u64),
}

/// The record belongs to another step: at this place, counted from 0 in the order of the step's
/// accesses, it has one access, and the step asks for another, or has ended.
#[derive(Clone, Copy, PartialEq, Eq, Debug)]
pub struct Diverged {
    pub at: u16,
    /// The access that the record has there: of a kept answer, or asked.
    pub kept: Access,
    /// The access of the step; None where it ended before.
    pub wanted: Option<Access>,
}

/// How a step can end without finishing. The machine is as before the step.
#[derive(Clone, Copy, PartialEq, Eq, Debug)]
pub enum Stop {
    /// A device isn't ready yet: the access that it was asked for.
    Pending(Access),
    /// A device failed: the access that it was asked for.
    BusFault(Access),
    /// The record belongs to another step.
    Diverged(Diverged),
    /// It raises an exception.
    Fault(Fault),
    /// What it is about to do is intercepted.
    Intercept(Exit),
    /// It raises a software interrupt.
    Event(Event),
    /// The caller is to go on.
    Handoff(Handoff),
}

/// The end of an instruction that finished, or of one element of a repeated one.
#[derive(Clone, Copy, PartialEq, Eq, Debug)]
pub struct Finish {
    /// The registers then.
    pub cpu: Cpu,
    /// RIP stays on the instruction, of which elements are left.
    pub more: bool,
    /// What its retirement brings with it: 1 STI turned IF from 0 to 1, 2 it was MOV SS or POP SS,
    /// 4 the processor halts.
    pub retire: u8,
}

/// The same of an instruction that wrote its registers into a draft, without them.
#[derive(Clone, Copy, PartialEq, Eq, Debug)]
pub struct End {
    /// RIP stays on the instruction, of which elements are left.
    pub more: bool,
    /// What its retirement brings with it, as in [`Finish`].
    pub retire: u8,
}

/// How the work of an instruction ended.
#[derive(Clone, Copy, PartialEq, Eq, Debug)]
pub enum Flow {
    /// It finished, as a [`Finish`] says.
    Finish { cpu: Cpu, more: bool, retire: u8 },
    /// It stopped.
    Stopped(Stop),
}

impl Flow {
    ghost use Rattle.std.specs.Prelude.{◌≡◌, Result};
    ghost use Rattle.xe_ctx.specs.Flow.{outcome};

    /// The end of an instruction as a flow.
    pub fn of(end: Result<Finish, Stop>) -> Flow
        ensures { outcome result ≡ end }
    {
        match end {
            Ok(Finish { cpu, more, retire }) => Flow::Finish { cpu, more, retire },
            Err(stop) => Flow::Stopped(stop),
        }
    }
}
