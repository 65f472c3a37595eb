//! The text of how a step ended.
ghost use Rattle.std.specs.Prelude.{◌≡◌, ◌+◌, ◌≤◌, ◌++◌, length};
ghost use Rattle.xe_opmap.specs.Names.{name_of};
ghost use Rattle.xe_run.specs.Text as spec;

use crate::line::Line;
use xe_base::Fault;
use xe_ctx::{EventKind, Handoff};
use xe_icpt::Exit;
use xe_opmap::Row;

/// The name of an instruction.
fn row_name(row: Row) -> &'static [u8]
    ensures name { result.now ≡ name_of row }
    ensures short { length result.now ≤ 12 }
{
    xe_opmap::row_name(row).as_bytes()
}

/// Appends the name of an instruction, or a dash where it isn't known.
pub(crate) fn push_row(line: &mut Line, row: Option<Row>)
    requires room { length line.old + 12 ≤ 1024 }
    ensures text { line.new ≡ line.old ++ spec.row_text row }
    ensures len { length line.new ≤ length line.old + 12 }
{
    match row {
        Some(row) => line.push(row_name(row)),
        None => line.push(b"-"),
    }
}

/// Appends a number in hex, or a dash where there is none.
fn push_maybe_hex(line: &mut Line, number: Option<u64>)
    requires room { length line.old + 16 ≤ 1024 }
    ensures text { line.new ≡ line.old ++ spec.maybe_hex number }
    ensures len { length line.new ≤ length line.old + 16 }
{
    match number {
        Some(number) => line.push_hex(number),
        None => line.push(b"-"),
    }
}

/// Appends an exception: its vector, its error code, and the address of a page fault.
#[tactic(auto, unfolding(crate::specs::Text::fault_text))]
pub(crate) fn push_fault(line: &mut Line, fault: &Fault)
    requires room { length line.old + 50 ≤ 1024 }
    ensures text { line.new ≡ line.old ++ spec.fault_text fault.now }
    ensures len { length line.new ≤ length line.old + 50 }
{
    line.push_hex(u64::from(fault.vector));
    line.push(b" ");
    push_maybe_hex(line, fault.code.map(u64::from));
    line.push(b" ");
    push_maybe_hex(line, fault.cr2);
}

/// Appends an exit: its code and its words of information.
#[tactic(auto, unfolding(crate::specs::Text::exit_text))]
pub(crate) fn push_exit(line: &mut Line, exit: &Exit)
    requires room { length line.old + 50 ≤ 1024 }
    ensures text { line.new ≡ line.old ++ spec.exit_text exit.now }
    ensures len { length line.new ≤ length line.old + 50 }
{
    line.push_hex(u64::from(exit.code));
    line.push(b" ");
    line.push_hex(exit.info1);
    line.push(b" ");
    line.push_hex(exit.info2);
}

/// The name of the instruction that raises a software interrupt.
fn kind_name(kind: EventKind) -> &'static [u8]
    ensures name { result.now ≡ spec.kind_name kind }
    ensures short { length result.now ≤ 4 }
{
    match kind {
        EventKind::Int => b"int",
        EventKind::Int3 => b"int3",
        EventKind::Into => b"into",
    }
}

/// Appends a software interrupt.
#[tactic(auto, unfolding(crate::specs::Text::interrupt_text))]
pub(crate) fn push_interrupt(line: &mut Line, kind: EventKind, vector: u8, next: u64)
    requires room { length line.old + 38 ≤ 1024 }
    ensures text { line.new ≡ line.old ++ spec.interrupt_text kind vector next }
    ensures len { length line.new ≤ length line.old + 38 }
{
    line.push(kind_name(kind));
    line.push(b" ");
    line.push_hex(u64::from(vector));
    line.push(b" ");
    line.push_hex(next);
}

/// The name of what is left to the caller.
fn handoff_name(handoff: Handoff) -> &'static [u8]
    ensures name { result.now ≡ spec.handoff_name handoff }
    ensures short { length result.now ≤ 10 }
{
    match handoff {
        Handoff::CallGate(_) => b"callgate",
        Handoff::TaskGate(_) => b"taskgate",
        Handoff::Tss(_) => b"tss",
        Handoff::TaskReturn => b"taskreturn",
        Handoff::Vm86(_) => b"vm86",
        Handoff::Entry(_) => b"entry",
        Handoff::Fetch(_) => b"fetch",
    }
}

/// The selector or the address that goes with what is left to the caller, 0 where there is none.
fn handoff_value(handoff: Handoff) -> u64
    ensures { result ≡ spec.handoff_value handoff }
{
    match handoff {
        Handoff::CallGate(selector)
        | Handoff::TaskGate(selector)
        | Handoff::Tss(selector)
        | Handoff::Vm86(selector) => u64::from(selector),
        Handoff::TaskReturn => 0,
        Handoff::Entry(pa) | Handoff::Fetch(pa) => pa,
    }
}

/// Appends what is left to the caller.
#[tactic(auto, unfolding(crate::specs::Text::handoff_text))]
pub(crate) fn push_handoff(line: &mut Line, handoff: Handoff)
    requires room { length line.old + 27 ≤ 1024 }
    ensures text { line.new ≡ line.old ++ spec.handoff_text handoff }
    ensures len { length line.new ≤ length line.old + 27 }
{
    line.push(handoff_name(handoff));
    line.push(b" ");
    line.push_hex(handoff_value(handoff));
}

/// Appends what retirement brings with it, unless that is nothing.
pub(crate) fn push_retire(line: &mut Line, retire: u8)
    requires room { length line.old + 24 ≤ 1024 }
    ensures text { line.new ≡ line.old ++ spec.retire_text retire }
    ensures len { length line.new ≤ length line.old + 24 }
{
    if retire != 0 {
        line.push(b" retire=");
        line.push_hex(u64::from(retire));
    }
}
