//! What a run shows: one line of the trace for each event.
ghost use Rattle.std.specs.Prelude.{◌≡◌};
ghost use Rattle.xe_run.specs.Text as spec;

use crate::event_lines::{
    bad_state_line, bus_fault_line, diverged_line, exit_line, fault_line, handoff_line,
    interrupt_line, io_line, not_ram_line, pending_line, step_line, unhandled_line,
};
use crate::line::Line;
use crate::shown::{control_line, general_line, memory_line, segment_line, table_line};
use arrayvec::ArrayVec;
use xe_base::{Access, Cpu, Fault, Made, Seg, Table};
use xe_ctx::{EventKind, Handoff};
use xe_icpt::Exit;
use xe_opmap::Row;
use xe_scene::{DtName, SegReg};

/// What a run shows: one line of the trace.
#[derive(Drop)]
pub(crate) enum Event {
    /// A device access was answered, after so many replies of "not yet".
    Io {
        made: Made,
        waits: u64,
    },
    /// Some steps finished: the last one's instruction, how many they are, the registers before and
    /// after them, and what the last one's retirement brings with it.
    Step {
        row: Option<Row>,
        count: u32,
        before: Cpu,
        after: Cpu,
        retire: u8,
    },
    /// A call ended at a device that isn't ready.
    Pending {
        row: Option<Row>,
        access: Access,
    },
    /// A device failed.
    BusFault {
        row: Option<Row>,
        access: Access,
    },
    /// The record of a call belongs to another step: the place, the access that it has there, and that
    /// of the step, if it has one.
    Diverged {
        row: Option<Row>,
        at: u16,
        kept: Access,
        wanted: Option<Access>,
    },
    /// A step ended by an exception.
    Fault {
        row: Option<Row>,
        fault: Fault,
    },
    /// A step ended by an intercept.
    Exit {
        row: Option<Row>,
        exit: Exit,
    },
    /// A step ended by a software interrupt.
    Interrupt {
        row: Option<Row>,
        kind: EventKind,
        vector: u8,
        next: u64,
    },
    /// A step ended by something that is left to the caller.
    Handoff {
        row: Option<Row>,
        handoff: Handoff,
    },
    /// A step ended at bytes that are no instruction that is known.
    Unhandled,
    /// A draft of the registers was refused, for this rule of a valid state.
    BadState(u8),
    /// An address that was named isn't RAM.
    NotRam(u64),
    /// The general registers.
    General([u64; 16]),
    /// RIP, RFLAGS, the control registers, EFER, KERNEL_GS_BASE and the level.
    Control(Cpu),
    /// A segment register.
    Segment(SegReg, Seg),
    /// A descriptor table register.
    Table(DtName, Table),
    /// Some bytes of memory, from this address on.
    Memory(u64, ArrayVec<u8, 16>),
}

/// The line of an event.
pub(crate) fn line_of(event: &Event) -> Line
    ensures { result ≡ spec.line_of event.now }
{
    match event {
        Event::Io { made, waits } => io_line(made, *waits),
        Event::Step {
            row,
            count,
            before,
            after,
            retire,
        } => step_line(*row, *count, before, after, *retire),
        Event::Pending { row, access } => pending_line(*row, access),
        Event::BusFault { row, access } => bus_fault_line(*row, access),
        Event::Diverged {
            row,
            at,
            kept,
            wanted,
        } => diverged_line(*row, *at, kept, *wanted),
        Event::Fault { row, fault } => fault_line(*row, fault),
        Event::Exit { row, exit } => exit_line(*row, exit),
        Event::Interrupt {
            row,
            kind,
            vector,
            next,
        } => interrupt_line(*row, *kind, *vector, *next),
        Event::Handoff { row, handoff } => handoff_line(*row, *handoff),
        Event::Unhandled => unhandled_line(),
        Event::BadState(rule) => bad_state_line(*rule),
        Event::NotRam(pa) => not_ram_line(*pa),
        Event::General(gpr) => general_line(gpr),
        Event::Control(cpu) => control_line(cpu),
        Event::Segment(name, segment) => segment_line(*name, segment),
        Event::Table(name, table) => table_line(*name, table),
        Event::Memory(pa, bytes) => memory_line(*pa, bytes),
    }
}
