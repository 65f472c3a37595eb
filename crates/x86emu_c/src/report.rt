//! The report of a run as C sees it.

ghost use Rattle.std.specs.Prelude.{◌≡◌, length};
ghost use Rattle.xe_ctx.specs.declared.report.Outcome.{Outcome};
ghost use Rattle.x86emu_c.specs.Told.{ToldEnd, Told, event_number, handoff_number, handoff_value};

use crate::access::X86emuAccess;
use xe_base::{Access, Fault};
use xe_ctx::{EventKind, Handoff, Outcome, Report};
use xe_icpt::Exit;

/// No run: what the report of a wrong call says.
const NONE: u32 = 0;

const DONE: u32 = 1;

const PENDING: u32 = 2;

const FAULT: u32 = 3;

const EXIT: u32 = 4;

const EVENT: u32 = 5;

const HANDOFF: u32 = 6;

const UNHANDLED: u32 = 7;

const BUS_FAULT: u32 = 8;

const DIVERGED: u32 = 9;

/// `x86emu_report`.
#[repr(C)]
#[derive(Clone, Copy)]
pub struct X86emuReport {
    pub end: u32,
    pub elements: u32,
    pub accesses: u32,
    pub kind: u32,
    pub code: u32,
    pub at: u16,
    pub vector: u8,
    pub retire: u8,
    pub more: bool,
    pub has_code: bool,
    pub has_cr2: bool,
    pub has_wanted: bool,
    pub value: u64,
    pub info1: u64,
    pub info2: u64,
    pub access: X86emuAccess,
    pub wanted: X86emuAccess,
}

/// The number of an event.
fn event_number(kind: EventKind) -> u32
    ensures { result ≡ event_number kind }
{
    match kind {
        EventKind::Int => 0,
        EventKind::Int3 => 1,
        EventKind::Into => 2,
    }
}

/// The number of a hand-off.
fn handoff_number(handoff: Handoff) -> u32
    ensures { result ≡ handoff_number handoff }
{
    match handoff {
        Handoff::CallGate(_) => 0,
        Handoff::TaskGate(_) => 1,
        Handoff::Tss(_) => 2,
        Handoff::TaskReturn => 3,
        Handoff::Vm86(_) => 4,
        Handoff::Entry(_) => 5,
        Handoff::Fetch(_) => 6,
    }
}

/// The selector or the address of a hand-off; 0 where it has none.
fn handoff_value(handoff: Handoff) -> u64
    ensures { result ≡ handoff_value handoff }
{
    match handoff {
        Handoff::CallGate(sel) | Handoff::TaskGate(sel) | Handoff::Tss(sel) | Handoff::Vm86(sel) =>
            u64::from(sel),
        Handoff::TaskReturn => 0,
        Handoff::Entry(pa) | Handoff::Fetch(pa) => pa,
    }
}

impl X86emuReport {
    /// A report of no run.
    pub(crate) fn none() -> X86emuReport
        ensures { result.end ≡ 0 }
    {
        X86emuReport {
            end: NONE,
            elements: 0,
            accesses: 0,
            kind: 0,
            code: 0,
            at: 0,
            vector: 0,
            retire: 0,
            more: false,
            has_code: false,
            has_cr2: false,
            has_wanted: false,
            value: 0,
            info1: 0,
            info2: 0,
            access: X86emuAccess::none(),
            wanted: X86emuAccess::none(),
        }
    }

    /// Tells an exception.
    #[inline(always)]
    fn tell_fault(&mut self, fault: Fault)
        ensures { ToldEnd (Outcome.Fault fault) self.new }
    {
        self.end = FAULT;
        self.vector = fault.vector;
        match fault.code {
            Some(code) => {
                self.has_code = true;
                self.code = code;
            }
            None => self.has_code = false,
        }
        match fault.cr2 {
            Some(cr2) => {
                self.has_cr2 = true;
                self.value = cr2;
            }
            None => self.has_cr2 = false,
        }
    }

    /// Tells an exit.
    #[inline(always)]
    fn tell_exit(&mut self, exit: Exit)
        ensures { ToldEnd (Outcome.Intercept exit) self.new }
    {
        self.end = EXIT;
        self.code = exit.code;
        self.info1 = exit.info1;
        self.info2 = exit.info2;
    }

    /// Tells that the record belongs to another step. It comes seldom, and in line it would take
    /// registers that each run had to save.
    #[cold]
    #[inline(never)]
    fn tell_divergence(&mut self, at: u16, kept: Access, wanted: Option<Access>)
        ensures { ToldEnd (Outcome.Diverged at kept wanted) self.new }
    {
        self.end = DIVERGED;
        self.at = at;
        self.access = X86emuAccess::of(kept);
        match wanted {
            Some(wanted) => {
                self.has_wanted = true;
                self.wanted = X86emuAccess::of(wanted);
            }
            None => self.has_wanted = false,
        }
    }

    /// Tells how a run ended.
    #[inline(always)]
    fn tell_end(&mut self, outcome: &Outcome)
        ensures { ToldEnd outcome.now self.new }
    {
        match *outcome {
            Outcome::Done { more, retire } => {
                self.end = DONE;
                self.more = more;
                self.retire = retire;
            }
            Outcome::Pending(a) => {
                self.end = PENDING;
                self.access = X86emuAccess::of(a);
            }
            Outcome::Fault(fault) => self.tell_fault(fault),
            Outcome::Intercept(exit) => self.tell_exit(exit),
            Outcome::Event { kind, vector, next } => {
                self.end = EVENT;
                self.kind = event_number(kind);
                self.vector = vector;
                self.value = next;
            }
            Outcome::Handoff(handoff) => {
                self.end = HANDOFF;
                self.kind = handoff_number(handoff);
                self.value = handoff_value(handoff);
            }
            Outcome::Unhandled => self.end = UNHANDLED,
            Outcome::BusFault(a) => {
                self.end = BUS_FAULT;
                self.access = X86emuAccess::of(a);
            }
            Outcome::Diverged { at, kept, wanted } => self.tell_divergence(at, kept, wanted),
        }
    }

    /// Tells a run. What its end doesn't have stays as it was, since to clear it at each run would
    /// cost more than to tell the end.
    #[inline(always)]
    pub(crate) fn tell(&mut self, report: &Report)
        ensures { Told report.now self.new }
    {
        self.tell_end(&report.outcome);
        self.elements = report.elements;
        self.accesses = report.accesses.len() as u32;
    }
}
