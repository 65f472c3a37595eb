//! What a call of the emulator reports.

use crate::stop::{EventKind, Handoff};
use arrayvec::ArrayVec;
use xe_base::{Access, Fault, Made};
use xe_icpt::Exit;
use xe_opmap::Row;

/// How a call ended. But for `Done` the machine is as before the last step.
#[derive(Clone, Copy, PartialEq, Eq, Debug)]
pub enum Outcome {
    /// Its last step finished. `more`: RIP stays on the instruction, of which elements are left.
    /// `retire`: 1 STI turned IF from 0 to 1, 2 it was MOV SS or POP SS, 4 the processor halts, 8 TF
    /// was 1 when the step began.
    Done {
        more: bool,
        retire: u8,
    },
    /// A device isn't ready yet. The record keeps the answers so far, and this access; a later call
    /// goes on from there, and asks no device again that has answered.
    Pending(Access),
    /// The instruction raises an exception. CR2 isn't changed.
    Fault(Fault),
    /// What the instruction is about to do is intercepted.
    Intercept(Exit),
    /// The instruction raises a software interrupt.
    Event {
        kind: EventKind,
        vector: u8,
        next: u64,
    },
    /// The caller is to go on.
    Handoff(Handoff),
    /// The bytes are no instruction that the emulator knows.
    Unhandled,
    /// A device failed. The record is left as after `Pending`.
    BusFault(Access),
    /// The record belongs to another step: at this place, counted from 0 in the order of the step's
    /// accesses, it has one access, and the step asks for another, or has ended. Nothing changed, the record
    /// neither.
    Diverged {
        at: u16,
        kept: Access,
        wanted: Option<Access>,
    },
}

/// What one call did. It can be used again from call to call, so that none makes one anew.
#[derive(Drop)]
pub struct Report {
    /// The instruction of the last step, None before it was decoded.
    pub row: Option<Row>,
    /// The instruction of the last step that finished in this call, None where none did.
    pub finished: Option<Row>,
    /// The number of steps that finished in this call.
    pub elements: u32,
    /// The device accesses of the last step, kept ones included, with their answers, in their order;
    /// none at `Diverged`.
    pub accesses: ArrayVec<Made, 256>,
    pub outcome: Outcome,
}

impl Report {
    ghost use Rattle.std.specs.Prelude.{◌≡◌, ◌≤◌, length, [], None};
    ghost use Rattle.xe_ctx.specs.declared.report.Outcome.TheVariants.{Unhandled};

    /// A report of nothing. It is inlined, so that its list is made where it is to stand.
    #[inline(always)]
    pub fn new() -> Report
        ensures { result ≡ record { row = None; finished = None; elements = 0; accesses = record { items = [] }; outcome = Unhandled } }
    {
        Report {
            row: None,
            finished: None,
            elements: 0,
            accesses: ArrayVec::new(),
            outcome: Outcome::Unhandled,
        }
    }

    /// Tells of a call. It costs the accesses that were told before, and those that are told now.
    pub fn tell(
        &mut self,
        row: Option<Row>,
        finished: Option<Row>,
        elements: u32,
        accesses: &[Made],
        outcome: Outcome,
    )
        requires { length accesses.now ≤ 256 }
        ensures { self.new ≡ record { row = row; finished = finished; elements = elements; accesses = record { items = accesses.now }; outcome = outcome } }
    {
        self.row = row;
        self.finished = finished;
        self.elements = elements;
        self.accesses.clear();
        for made in accesses {
            self.accesses.push(*made);
        }
        self.outcome = outcome;
    }
}
