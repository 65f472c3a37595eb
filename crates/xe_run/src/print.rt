//! Writing the lines of events.
ghost use Rattle.std.specs.Prelude.{◌≡◌, ◌*◌, ◌≤◌, List, map, length, OnErr};
ghost use Rattle.xe_run.specs.Told.{Rose, Writes};
ghost use Rattle.xe_run.specs.Text.{text};
ghost use Rattle.xe_run.specs.Text as texts;
ghost use Rattle.xe_run.specs.Turn.{counted};
ghost use Rattle.xe_run.specs.Drive as spec;
ghost use Rattle.xe_run.specs.Reported.{count_at, with_waits};

use crate::event::{Event, line_of};
use crate::event_lines::{put_io, put_step};
use crate::line::Line;
use crate::outside::{Failed, Sink};
use arrayvec::ArrayVec;
use xe_base::{Cpu, Made};
use xe_opmap::Row;

/// Writes the line of an event, in one call.
pub(crate) fn print<K: Sink>(event: &Event, out: &mut K) -> Result<(), Failed>
    ensures writes { Writes result (K.written out.old) (texts.line_of event.now) (K.written out.new) }
    ensures count { K.faults out.old ≤ K.faults out.new }
    ensures failed { OnErr result (Rose (K.faults out.old) (K.faults out.new)) }
{
    out.write(line_of(event).as_bytes())
}

/// Writes the line of steps that finished, in one call: that of its event, without the copies of both
/// states in an event, and in a line that is there.
pub(crate) fn print_step<K: Sink>(
    row: Option<Row>,
    count: u32,
    before: &Cpu,
    after: &Cpu,
    retire: u8,
    line: &mut Line,
    out: &mut K,
) -> Result<(), Failed>
    ensures writes { Writes result (K.written out.old) (texts.line_of (Event.Step row count before.now after.now retire)) (K.written out.new) }
    ensures count { K.faults out.old ≤ K.faults out.new }
    ensures failed { OnErr result (Rose (K.faults out.old) (K.faults out.new)) }
{
    put_step(line, row, count, before, after, retire);
    out.write(line.as_bytes())
}

/// Writes the line of a device access, in one call, in a line that is there.
fn print_io<K: Sink>(made: &Made, waits: u64, line: &mut Line, out: &mut K) -> Result<(), Failed>
    ensures writes { Writes result (K.written out.old) (texts.line_of (Event.Io made.now waits)) (K.written out.new) }
    ensures count { K.faults out.old ≤ K.faults out.new }
    ensures failed { OnErr result (Rose (K.faults out.old) (K.faults out.new)) }
{
    put_io(line, made, waits);
    out.write(line.as_bytes())
}

/// The count at a place; where there is none, the device was ready at once.
fn count_at(waits: &[u64], at: usize) -> u64
    ensures { result ≡ counted (count_at waits.now at) }
{
    if at < waits.len() { waits[at] } else { 0 }
}

/// Writes the lines of device accesses of a turn, with the counts of replies of "not yet" at their places.
pub(crate) fn print_waited<K: Sink>(
    accesses: &[Made],
    waits: &[u64],
    line: &mut Line,
    out: &mut K,
) -> Result<(), Failed>
    ensures writes { Writes result (K.written out.old) (text (map spec.io_event (with_waits accesses.now waits.now))) (K.written out.new) }
    ensures count { K.faults out.old ≤ K.faults out.new }
    ensures failed { OnErr result (Rose (K.faults out.old) (K.faults out.new)) }
{
    for at in 0..accesses.len() {
        print_io(&accesses[at], count_at(waits, at), line, out)?;
    }
    Ok(())
}

/// A device access of a call as an event.
fn call_event(made: &Made) -> Event
    ensures { result ≡ spec.call_event made.now }
{
    Event::Io {
        made: *made,
        waits: 0,
    }
}

/// Writes the lines of device accesses of a call.
pub(crate) fn print_accesses<K: Sink>(accesses: &[Made], out: &mut K) -> Result<(), Failed>
    ensures writes { Writes result (K.written out.old) (text (map spec.call_event accesses.now)) (K.written out.new) }
    ensures count { K.faults out.old ≤ K.faults out.new }
    ensures failed { OnErr result (Rose (K.faults out.old) (K.faults out.new)) }
{
    for made in accesses {
        print(&call_event(made), out)?;
    }
    Ok(())
}

/// Writes the lines of events.
pub(crate) fn print_all<K: Sink>(events: &[Event], out: &mut K) -> Result<(), Failed>
    ensures writes { Writes result (K.written out.old) (text events.now) (K.written out.new) }
    ensures count { K.faults out.old ≤ K.faults out.new }
    ensures failed { OnErr result (Rose (K.faults out.old) (K.faults out.new)) }
{
    for event in events {
        print(event, out)?;
    }
    Ok(())
}

/// A line of memory: the bytes from `16 * line` on, at most 16.
fn memory_line(pa: u64, bytes: &[u8], line: usize) -> Event
    requires few { length bytes.now ≤ 0x1000 }
    requires within { 16 * line ≤ length bytes.now }
    ensures { result ≡ spec.memory_line pa bytes.now line }
{
    let start = 16 * line;
    let end = bytes.len().min(start + 16);
    let mut piece = ArrayVec::new();
    piece.try_extend_from_slice(&bytes[start..end]).unwrap();
    Event::Memory(pa.wrapping_add(start as u64), piece)
}

/// Writes bytes of memory, 16 a line.
#[tactic(auto, unfolding(crate::specs::Drive::memory_shown))]
pub(crate) fn print_memory<K: Sink>(pa: u64, bytes: &[u8], out: &mut K) -> Result<(), Failed>
    requires { length bytes.now ≤ 0x1000 }
    ensures writes { Writes result (K.written out.old) (text (spec.memory_shown pa bytes.now)) (K.written out.new) }
    ensures count { K.faults out.old ≤ K.faults out.new }
    ensures failed { OnErr result (Rose (K.faults out.old) (K.faults out.new)) }
{
    let lines = (bytes.len() + 15) / 16;
    for line in 0..lines {
        print(&memory_line(pa, bytes, line), out)?;
    }
    Ok(())
}
