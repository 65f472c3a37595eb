//! A turn and a call, as the report tells them.
ghost use Rattle.std.specs.Prelude.{◌≡◌, ◌≤◌, ◌<◌, ◌+◌, ◌++◌, [], ◌∷◌, ℕ, length, map, drop, OnErr};
ghost use Rattle.xe_run.specs.Told.{Rose, Writes};
ghost use Rattle.xe_run.specs.Text.{text, line_of};
ghost use Rattle.xe_run.specs.Turn.{counted};
ghost use Rattle.xe_core.specs.Step.{is_done};
ghost use Rattle.xe_run.specs.Drive as spec;
ghost use Rattle.xe_run.specs.Reported.{count_at, with_waits, is_pending};

use crate::event::Event;
use crate::line::Line;
use crate::outside::{Failed, Sink};
use crate::print::{print, print_accesses, print_step, print_waited};
use arrayvec::ArrayVec;
use xe_base::Cpu;
use xe_ctx::{Outcome, Report};

/// How a turn or a call ended, as an event.
fn end_event(report: &Report, before: &Cpu, after: &Cpu) -> Event
    ensures { result ≡ spec.end_event before.now after.now report.now.elements report.now.finished report.now.row report.now.outcome }
{
    match report.outcome {
        Outcome::Done { retire, .. } => Event::Step {
            row: report.finished,
            count: report.elements,
            before: *before,
            after: *after,
            retire,
        },
        Outcome::Pending(access) => Event::Pending {
            row: report.row,
            access,
        },
        Outcome::Fault(fault) => Event::Fault {
            row: report.row,
            fault,
        },
        Outcome::Intercept(exit) => Event::Exit {
            row: report.row,
            exit,
        },
        Outcome::Event { kind, vector, next } => Event::Interrupt {
            row: report.row,
            kind,
            vector,
            next,
        },
        Outcome::Handoff(handoff) => Event::Handoff {
            row: report.row,
            handoff,
        },
        Outcome::Unhandled => Event::Unhandled,
        Outcome::BusFault(access) => Event::BusFault {
            row: report.row,
            access,
        },
        Outcome::Diverged { at, kept, wanted } => Event::Diverged {
            row: report.row,
            at,
            kept,
            wanted,
        },
    }
}

/// Whether the call ended at a device that isn't ready yet.
pub(crate) fn is_pending(report: &Report) -> bool
    ensures value { result ≡ is_pending report.now.outcome }
    ensures few { length report.now.accesses.items ≤ 256 }
{
    let accesses = report.accesses.as_slice();
    prove!(accesses.len() <= 256);
    matches!(report.outcome, Outcome::Pending(_))
}

/// Whether a run goes on after a turn that ended so: after HLT it doesn't.
pub(crate) fn goes_on(outcome: &Outcome) -> bool
    ensures { result ≡ spec.goes_on_after outcome.now }
{
    match outcome {
        Outcome::Done { retire, .. } => *retire / 4 % 2 != 1,
        Outcome::Pending(_)
        | Outcome::Fault(_)
        | Outcome::Intercept(_)
        | Outcome::Event { .. }
        | Outcome::Handoff(_)
        | Outcome::Unhandled
        | Outcome::BusFault(_)
        | Outcome::Diverged { .. } => false,
    }
}

/// Counts one more reply of "not yet" to the access at a place.
pub(crate) fn note_wait(waits: &mut ArrayVec<u64, 256>, at: usize)
    requires place { at < 256 }
    requires reached { length waits.old.items ≤ at + 1 }
    ensures len { length waits.new.items ≡ at + 1 }
    ensures here { count_at waits.new.items at ≡ counted (count_at waits.old.items at + 1) }
    ensures before { (k : ℕ) → k < at → count_at waits.new.items k ≡ count_at waits.old.items k }
{
    'ready: while waits.len() <= at {
        waits.push(0);
    }
    waits[at] = waits[at].saturating_add(1);
}

/// Whether the last step finished.
pub(crate) fn is_done(outcome: &Outcome) -> bool
    ensures { result ≡ is_done outcome.now }
{
    matches!(outcome, Outcome::Done { .. })
}

/// Writes the line of the steps that finished before one that didn't, where there are such.
fn tell_steps<K: Sink>(
    report: &Report,
    before: &Cpu,
    after: &Cpu,
    line: &mut Line,
    out: &mut K,
) -> Result<(), Failed>
    ensures writes { Writes result (K.written out.old) (text (spec.steps_event before.now after.now report.now.elements report.now.finished report.now.outcome)) (K.written out.new) }
    ensures count { K.faults out.old ≤ K.faults out.new }
    ensures failed { OnErr result (Rose (K.faults out.old) (K.faults out.new)) }
{
    if is_done(&report.outcome) {
        return Ok(());
    }
    if report.elements == 0 {
        return Ok(());
    }
    let (row, count) = (report.finished, report.elements);
    print_step(row, count, before, after, 0, line, out)
}

/// Writes the line of the event by which a turn or a call ended. It stands apart, so that where a step
/// finished no room is made for an event.
#[cold]
#[inline(never)]
fn tell_end_event<K: Sink>(
    report: &Report,
    before: &Cpu,
    after: &Cpu,
    out: &mut K,
) -> Result<(), Failed>
    ensures writes { Writes result (K.written out.old) (line_of (spec.end_event before.now after.now report.now.elements report.now.finished report.now.row report.now.outcome)) (K.written out.new) }
    ensures count { K.faults out.old ≤ K.faults out.new }
    ensures failed { OnErr result (Rose (K.faults out.old) (K.faults out.new)) }
{
    print(&end_event(report, before, after), out)
}

/// Writes the line of how a turn or a call ended.
fn tell_end<K: Sink>(
    report: &Report,
    before: &Cpu,
    after: &Cpu,
    line: &mut Line,
    out: &mut K,
) -> Result<(), Failed>
    ensures writes { Writes result (K.written out.old) (line_of (spec.end_event before.now after.now report.now.elements report.now.finished report.now.row report.now.outcome)) (K.written out.new) }
    ensures count { K.faults out.old ≤ K.faults out.new }
    ensures failed { OnErr result (Rose (K.faults out.old) (K.faults out.new)) }
{
    let (row, count) = (report.finished, report.elements);
    match report.outcome {
        Outcome::Done { retire, .. } => print_step(row, count, before, after, retire, line, out),
        _ => tell_end_event(report, before, after, out),
    }
}

/// Writes the lines of the last step of a turn: its accesses, and then how the turn ended.
fn tell_last_of_turn<K: Sink>(
    report: &Report,
    waits: &[u64],
    before: &Cpu,
    after: &Cpu,
    line: &mut Line,
    out: &mut K,
) -> Result<(), Failed>
    ensures writes { Writes result (K.written out.old) (text (map spec.io_event (with_waits report.now.accesses.items waits.now) ++ spec.end_event before.now after.now report.now.elements report.now.finished report.now.row report.now.outcome ∷ [])) (K.written out.new) }
    ensures count { K.faults out.old ≤ K.faults out.new }
    ensures failed { OnErr result (Rose (K.faults out.old) (K.faults out.new)) }
{
    print_waited(report.accesses.as_slice(), waits, line, out)?;
    tell_end(report, before, after, line, out)
}

/// Writes the lines of a turn: the steps that finished before one that didn't, the accesses of the
/// last step, and then how it ended.
pub(crate) fn tell_turn<K: Sink>(
    report: &Report,
    waits: &[u64],
    before: &Cpu,
    after: &Cpu,
    line: &mut Line,
    out: &mut K,
) -> Result<(), Failed>
    ensures writes { Writes result (K.written out.old) (text (spec.steps_event before.now after.now report.now.elements report.now.finished report.now.outcome ++ (map spec.io_event (with_waits report.now.accesses.items waits.now) ++ spec.end_event before.now after.now report.now.elements report.now.finished report.now.row report.now.outcome ∷ []))) (K.written out.new) }
    ensures count { K.faults out.old ≤ K.faults out.new }
    ensures failed { OnErr result (Rose (K.faults out.old) (K.faults out.new)) }
{
    tell_steps(report, before, after, line, out)?;
    tell_last_of_turn(report, waits, before, after, line, out)
}

/// Writes the lines of the last step of a call: the accesses that the call answered, behind so many that
/// were kept before, and then how it ended.
fn tell_last_of_call<K: Sink>(
    report: &Report,
    kept: usize,
    before: &Cpu,
    after: &Cpu,
    line: &mut Line,
    out: &mut K,
) -> Result<(), Failed>
    ensures writes { Writes result (K.written out.old) (text (map spec.call_event (drop kept report.now.accesses.items) ++ spec.end_event before.now after.now report.now.elements report.now.finished report.now.row report.now.outcome ∷ [])) (K.written out.new) }
    ensures count { K.faults out.old ≤ K.faults out.new }
    ensures failed { OnErr result (Rose (K.faults out.old) (K.faults out.new)) }
{
    let accesses = report.accesses.as_slice();
    print_accesses(&accesses[kept.min(accesses.len())..], out)?;
    tell_end(report, before, after, line, out)
}

/// Writes the lines of a call: the steps that finished before one that didn't, the accesses that it
/// answered, behind so many that were kept before, and then how it ended.
pub(crate) fn tell_call<K: Sink>(
    report: &Report,
    kept: usize,
    before: &Cpu,
    after: &Cpu,
    line: &mut Line,
    out: &mut K,
) -> Result<(), Failed>
    ensures writes { Writes result (K.written out.old) (text (spec.steps_event before.now after.now report.now.elements report.now.finished report.now.outcome ++ (map spec.call_event (drop kept report.now.accesses.items) ++ spec.end_event before.now after.now report.now.elements report.now.finished report.now.row report.now.outcome ∷ []))) (K.written out.new) }
    ensures count { K.faults out.old ≤ K.faults out.new }
    ensures failed { OnErr result (Rose (K.faults out.old) (K.faults out.new)) }
{
    tell_steps(report, before, after, line, out)?;
    tell_last_of_call(report, kept, before, after, line, out)
}
