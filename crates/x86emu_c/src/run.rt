//! The calls that run a machine, and answer what it asks.

ghost use Rattle.std.specs.Prelude.{◌≡◌, ◌<◌, ◌≤◌, length, ◌==◌, nat_lt, if◌then◌else◌, Some, None, false};
ghost use Rattle.xe_base.specs.declared.access.Access.{Access};
ghost use Rattle.xe_base.specs.declared.access.Answer.TheVariants.{Val, No};
ghost use Rattle.xe_ctx.specs.declared.report.Report.{Report};
ghost use Rattle.xe_core.specs.Step.{is_diverged};
ghost use Rattle.x86emu_c.specs.Emulated.{Emulated, seen, machine_in, answer_status, posting, abandoned};
ghost use Rattle.x86emu_c.specs.Ran.{Ran, HasRun, IsMade};
ghost use Rattle.x86emu_c.specs.Told.{Told, ToldMade};

use crate::access::X86emuMade;
use crate::emulator::Emulator;
use crate::handle::Handle;
use crate::report::X86emuReport;
use crate::status::{BAD_BATCH, BAD_INDEX, NO_MACHINE, OK};
use std::alloc::Global;
use xe_base::Answer;
use xe_core::emulate_with_draft;
use xe_ctx::Outcome;

/// Whether the record belonged to another step, so that an answer that came is still to be taken.
fn is_diverged(outcome: &Outcome) -> bool
    ensures { result ≡ is_diverged outcome.now }
{
    match outcome {
        Outcome::Diverged { .. } => true,
        Outcome::Done { .. }
        | Outcome::Pending(_)
        | Outcome::Fault(_)
        | Outcome::Intercept(_)
        | Outcome::Event { .. }
        | Outcome::Handoff(_)
        | Outcome::Unhandled
        | Outcome::BusFault(_) => false,
    }
}

impl Emulator {
    /// One turn of at most so many steps, whose devices are the mailbox.
    fn run(&mut self, batch: u32)
        requires { 1 ≤ batch }
        ensures ran { Ran batch (seen self.old) (seen self.new) }
        ensures taken { is_diverged self.new.report.outcome ≡ false → (seen self.new).posted ≡ None }
    {
        emulate_with_draft(
            &mut self.machine,
            &self.intercepts,
            &mut self.mailbox,
            &mut self.suspended,
            &mut self.draft,
            batch,
            &mut self.report,
        );
        if !is_diverged(&self.report.outcome) {
            self.mailbox.clear();
        }
    }
}

#[unsafe(no_mangle)]
pub extern "C" fn x86emu_run(
    alloc: Global,
    m: &mut Handle,
    batch: u32,
    report: &mut X86emuReport,
) -> u32
    ensures none { machine_in m.old ≡ None → result ≡ 1 }
    ensures status { (e : Emulated) → machine_in m.old ≡ Some e → result ≡ (if batch == 0 then 15 else 0) }
    ensures ran { (e : Emulated) → machine_in m.old ≡ Some e → result ≡ 0 → HasRun batch e report.new (machine_in m.new) }
    ensures no_run { 0 < result → report.new.end ≡ 0 }
    ensures stays { 0 < result → machine_in m.new ≡ machine_in m.old }
{
    let Some(mut b) = m.take(alloc) else {
        *report = X86emuReport::none();
        return NO_MACHINE;
    };
    if batch == 0 {
        *report = X86emuReport::none();
        *m = Handle::of(b);
        return BAD_BATCH;
    }
    b.run(batch);
    report.tell(&b.report);
    *m = Handle::of(b);
    OK
}

#[unsafe(no_mangle)]
pub extern "C" fn x86emu_made_at(
    alloc: Global,
    m: &mut Handle,
    index: u32,
    made: &mut X86emuMade,
) -> u32
    ensures none { machine_in m.old ≡ None → result ≡ 1 }
    ensures status { (e : Emulated) → machine_in m.old ≡ Some e → result ≡ (if nat_lt index (length e.report.accesses.items) then 0 else 16) }
    ensures told { (e : Emulated) → machine_in m.old ≡ Some e → result ≡ 0 → IsMade e.report.accesses.items index made.new }
    ensures stays { machine_in m.new ≡ machine_in m.old }
{
    let Some(b) = m.take(alloc) else {
        return NO_MACHINE;
    };
    let status = match b.report.accesses.as_slice().get(index as usize) {
        Some(one) => {
            *made = X86emuMade::of(*one);
            OK
        }
        None => BAD_INDEX,
    };
    *m = Handle::of(b);
    status
}

/// The answer to the access that awaits one.
fn answered(alloc: Global, m: &mut Handle, answer: Answer) -> u32
    ensures none { machine_in m.old ≡ None → result ≡ 1 }
    ensures status { (e : Emulated) → machine_in m.old ≡ Some e → result ≡ answer_status e.kept.asked e.posted answer }
    ensures posted { (e : Emulated) (a : Access) → machine_in m.old ≡ Some e → result ≡ 0 → e.kept.asked ≡ Some a → machine_in m.new ≡ Some (posting e a answer) }
    ensures stays { 0 < result → machine_in m.new ≡ machine_in m.old }
{
    let Some(mut b) = m.take(alloc) else {
        return NO_MACHINE;
    };
    let status = b.answer(answer);
    *m = Handle::of(b);
    status
}

#[unsafe(no_mangle)]
pub extern "C" fn x86emu_answer(alloc: Global, m: &mut Handle, value: u64) -> u32
    ensures none { machine_in m.old ≡ None → result ≡ 1 }
    ensures status { (e : Emulated) → machine_in m.old ≡ Some e → result ≡ answer_status e.kept.asked e.posted (Val value) }
    ensures posted { (e : Emulated) (a : Access) → machine_in m.old ≡ Some e → result ≡ 0 → e.kept.asked ≡ Some a → machine_in m.new ≡ Some (posting e a (Val value)) }
    ensures stays { 0 < result → machine_in m.new ≡ machine_in m.old }
{
    answered(alloc, m, Answer::Val(value))
}

#[unsafe(no_mangle)]
pub extern "C" fn x86emu_answer_none(alloc: Global, m: &mut Handle) -> u32
    ensures none { machine_in m.old ≡ None → result ≡ 1 }
    ensures status { (e : Emulated) → machine_in m.old ≡ Some e → result ≡ answer_status e.kept.asked e.posted No }
    ensures posted { (e : Emulated) (a : Access) → machine_in m.old ≡ Some e → result ≡ 0 → e.kept.asked ≡ Some a → machine_in m.new ≡ Some (posting e a No) }
    ensures stays { 0 < result → machine_in m.new ≡ machine_in m.old }
{
    answered(alloc, m, Answer::No)
}

#[unsafe(no_mangle)]
pub extern "C" fn x86emu_abandon(alloc: Global, m: &mut Handle) -> u32
    ensures none { machine_in m.old ≡ None → (result ≡ 1) × (machine_in m.new ≡ None) }
    ensures given_up { (e : Emulated) → machine_in m.old ≡ Some e → (result ≡ 0) × (machine_in m.new ≡ Some (abandoned e)) }
{
    let Some(mut b) = m.take(alloc) else {
        return NO_MACHINE;
    };
    b.abandon();
    *m = Handle::of(b);
    OK
}
