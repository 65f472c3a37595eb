//! The lines of accesses, of ends, and of what is refused in a run.
ghost use Rattle.std.specs.Prelude.{◌≡◌};
ghost use Rattle.xe_run.specs.Text as spec;

use crate::access_text::{push_access, push_made, push_maybe_access};
use crate::changes::push_changes;
use crate::end_text::{push_exit, push_fault, push_handoff, push_interrupt, push_retire, push_row};
use crate::event::Event;
use crate::line::Line;
use xe_base::{Access, Cpu, Fault, Made};
use xe_ctx::{EventKind, Handoff};
use xe_icpt::Exit;
use xe_opmap::Row;

/// Puts the line of a device access in the place of what stood there.
pub(crate) fn put_io(line: &mut Line, made: &Made, waits: u64)
    ensures { line.new ≡ spec.line_of (Event.Io made.now waits) }
{
    line.clear();
    line.push(b"io ");
    push_made(line, made);
    line.push(b" ");
    line.push_decimal(waits);
    line.push(b"\n");
}

/// The line of a device access.
pub(crate) fn io_line(made: &Made, waits: u64) -> Line
    ensures { result ≡ spec.line_of (Event.Io made.now waits) }
{
    let mut line = Line::new();
    put_io(&mut line, made, waits);
    line
}

/// Puts the line of steps that finished in the place of what stood there.
pub(crate) fn put_step(
    line: &mut Line,
    row: Option<Row>,
    count: u32,
    before: &Cpu,
    after: &Cpu,
    retire: u8,
)
    ensures { line.new ≡ spec.line_of (Event.Step row count before.now after.now retire) }
{
    line.clear();
    line.push(b"step ");
    push_row(line, row);
    line.push(b" ");
    line.push_decimal(u64::from(count));
    line.push(b" rip=");
    line.push_hex(after.rip);
    line.push(b" flags=");
    line.push_hex(after.rflags);
    push_changes(line, before, after);
    push_retire(line, retire);
    line.push(b"\n");
}

/// The line of steps that finished.
pub(crate) fn step_line(row: Option<Row>, count: u32, before: &Cpu, after: &Cpu, retire: u8) -> Line
    ensures { result ≡ spec.line_of (Event.Step row count before.now after.now retire) }
{
    let mut line = Line::new();
    put_step(&mut line, row, count, before, after, retire);
    line
}

/// The line of an exception.
pub(crate) fn fault_line(row: Option<Row>, fault: &Fault) -> Line
    ensures { result ≡ spec.line_of (Event.Fault row fault.now) }
{
    let mut line = Line::new();
    line.push(b"fault ");
    push_row(&mut line, row);
    line.push(b" ");
    push_fault(&mut line, fault);
    line.push(b"\n");
    line
}

/// The line of an intercept.
pub(crate) fn exit_line(row: Option<Row>, exit: &Exit) -> Line
    ensures { result ≡ spec.line_of (Event.Exit row exit.now) }
{
    let mut line = Line::new();
    line.push(b"exit ");
    push_row(&mut line, row);
    line.push(b" ");
    push_exit(&mut line, exit);
    line.push(b"\n");
    line
}

/// The line of a software interrupt.
pub(crate) fn interrupt_line(row: Option<Row>, kind: EventKind, vector: u8, next: u64) -> Line
    ensures { result ≡ spec.line_of (Event.Interrupt row kind vector next) }
{
    let mut line = Line::new();
    line.push(b"event ");
    push_row(&mut line, row);
    line.push(b" ");
    push_interrupt(&mut line, kind, vector, next);
    line.push(b"\n");
    line
}

/// The line of what is left to the caller.
pub(crate) fn handoff_line(row: Option<Row>, handoff: Handoff) -> Line
    ensures { result ≡ spec.line_of (Event.Handoff row handoff) }
{
    let mut line = Line::new();
    line.push(b"handoff ");
    push_row(&mut line, row);
    line.push(b" ");
    push_handoff(&mut line, handoff);
    line.push(b"\n");
    line
}

/// The line of bytes that are no instruction that is known.
pub(crate) fn unhandled_line() -> Line
    ensures { result ≡ spec.line_of Event.Unhandled }
{
    let mut line = Line::new();
    line.push(b"unhandled\n");
    line
}

/// The line of a draft of the registers that was refused.
pub(crate) fn bad_state_line(rule: u8) -> Line
    ensures { result ≡ spec.line_of (Event.BadState rule) }
{
    let mut line = Line::new();
    line.push(b"badstate ");
    line.push_decimal(u64::from(rule));
    line.push(b"\n");
    line
}

/// The line of an address that isn't RAM.
pub(crate) fn not_ram_line(pa: u64) -> Line
    ensures { result ≡ spec.line_of (Event.NotRam pa) }
{
    let mut line = Line::new();
    line.push(b"notram ");
    line.push_hex(pa);
    line.push(b"\n");
    line
}

/// The line of a call that ended at a device that isn't ready.
pub(crate) fn pending_line(row: Option<Row>, access: &Access) -> Line
    ensures { result ≡ spec.line_of (Event.Pending row access.now) }
{
    let mut line = Line::new();
    line.push(b"pending ");
    push_row(&mut line, row);
    line.push(b" ");
    push_access(&mut line, access);
    line.push(b"\n");
    line
}

/// The line of a device that failed.
pub(crate) fn bus_fault_line(row: Option<Row>, access: &Access) -> Line
    ensures { result ≡ spec.line_of (Event.BusFault row access.now) }
{
    let mut line = Line::new();
    line.push(b"busfault ");
    push_row(&mut line, row);
    line.push(b" ");
    push_access(&mut line, access);
    line.push(b"\n");
    line
}

/// The line of a call whose record belongs to another step.
pub(crate) fn diverged_line(
    row: Option<Row>,
    at: u16,
    kept: &Access,
    wanted: Option<Access>,
) -> Line
    ensures { result ≡ spec.line_of (Event.Diverged row at kept.now wanted) }
{
    let mut line = Line::new();
    line.push(b"diverged ");
    push_row(&mut line, row);
    line.push(b" ");
    line.push_hex(u64::from(at));
    line.push(b" ");
    push_access(&mut line, kept);
    line.push(b" ");
    push_maybe_access(&mut line, wanted);
    line.push(b"\n");
    line
}
