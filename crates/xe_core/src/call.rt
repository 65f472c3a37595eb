//! One call of the emulator: a turn of steps.

ghost use Rattle.std.specs.Prelude.{◌≡◌, ◌≤◌, ◌<◌, ◌+◌, ◌-◌, ◌^◌, [], ℕ, true, false, None, List, length, All, IsSome, Ok, if◌then◌else◌};
ghost use Rattle.xe_base.specs.Access.{IsWellMade};
ghost use Rattle.xe_base.specs.declared.access.Made.{Made};
ghost use Rattle.xe_base.specs.Calm.{Calm};
ghost use Rattle.xe_base.specs.State.{Valid};
ghost use Rattle.xe_ctx.specs.Bus.{HasRoom};
ghost use Rattle.xe_core.specs.Call.{Reports, FollowsTape, Tells, Counted, StandsEach, Stands, Led, Played, Steady, Completes, CompletesOver, before_last, divergence, Fits};
ghost use Rattle.xe_core.specs.Tried.{Tried, Went, Did, judged, told_by, left_by, is_plain, is_waiting, behind_report};
ghost use Rattle.xe_core.specs.Turn.{after_steps, leaves_more};
ghost use Rattle.xe_ctx.specs.Kept.{nothing};
ghost use Rattle.xe_ctx.specs.Recorded.{kept_of};
ghost use Rattle.xe_ctx.specs.Machine.{state_of};
ghost use Rattle.xe_ctx.specs.Part.{begins};
ghost use Rattle.xe_core.specs.Step.{tf, is_done, is_diverged, outcome_of};
ghost use Rattle.xe_ctx.specs.declared.report.Outcome.TheVariants.{Done};
ghost use Rattle.xe_ctx.specs.Supply.{answers, answers_alone};
ghost use Rattle.xe_ctx.specs.Tape.{Tape, Key};
ghost use Rattle.xe_ctx.specs.View.{view, cpu_of, state_in, kept_in, made_in, work_of, code_of, machine_back, bus_ref, bus_back, record_back, SameHandles, IsOpen, accesses_left, bytes_left, unused, kept_after, CanKeep};
ghost use Rattle.xe_ctx.specs.Fetch.{avail};
ghost use Rattle.xe_ctx.specs.Operand.{IsOf};
ghost use Rattle.xe_core.specs.Emulate.{step_of, steps_of, after_by, fetched, Keepable};
ghost use Rattle.xe_core.specs.Rows.{is_calm};

use crate::fetch::{instruction, known_instruction, outcome_of};
use crate::rows::{exec, exec_at_once, is_calm};
use xe_base::{Cpu, Fault, INVALID_OPCODE, Made};
use xe_ctx::{Bus, Ctx, Diverged, End, Machine, Outcome, Record, Report, Stop};
use xe_icpt::Intercepts;
use xe_opmap::{Insn, Row};

/// Whether TF is set, so that a trap follows the step.
#[inline]
fn is_trapped(cpu: &Cpu) -> bool
    ensures { result ≡ tf cpu.now }
{
    cpu.rflags >> 8 & 1 == 1
}

/// What a retirement brings with it where TF was set when the step began, and where it wasn't.
#[inline]
fn retired(retire: u8, is_trapped: bool) -> u8
    requires { retire < 8 }
    ensures { result ≡ (if is_trapped then retire + 8 else retire) }
{
    if is_trapped { retire + 8 } else { retire }
}

/// Whether the step ended as its definition has it, and not at a device or at the record.
#[inline]
fn is_plain(outcome: &Outcome) -> bool
    ensures { result ≡ is_plain outcome.now }
{
    match outcome {
        Outcome::Pending(_) | Outcome::BusFault(_) | Outcome::Diverged { .. } => false,
        Outcome::Done { .. }
        | Outcome::Fault(_)
        | Outcome::Intercept(_)
        | Outcome::Event { .. }
        | Outcome::Handoff(_)
        | Outcome::Unhandled => true,
    }
}

/// What a turn has come to so far: how many of its steps finished, and the row of the last of these.
#[derive(Clone, Copy)]
pub(crate) struct SoFar {
    pub(crate) elements: u32,
    pub(crate) finished: Option<Row>,
}

/// Whether a step has reached all that the record has. Only the first step of a turn can have a record.
#[inline(always)]
#[tactic(auto, using(crate::proofs::CallLaws::nothing_unused))]
fn has_reached_all<B: Bus, I: Intercepts>(ctx: &Ctx<B, I>, is_first: bool) -> bool
    requires open { IsOpen B.sight ctx.now }
    requires later { is_first ≡ false → kept_in ctx.now ≡ nothing }
    ensures reached { result ≡ true → unused (kept_in ctx.now) (made_in ctx.now) ≡ None }
    ensures rest { result ≡ false → IsSome (unused (kept_in ctx.now) (made_in ctx.now)) }
{
    if !is_first {
        return true;
    }
    match ctx.unused() {
        Some(_) => false,
        None => true,
    }
}

/// How a step ends: as it did; or, where it came to an end of its own and hasn't reached all that the
/// record has, with that.
fn judged<B: Bus, I: Intercepts>(ctx: &Ctx<B, I>, outcome: Outcome) -> Outcome
    requires open { IsOpen B.sight ctx.now }
    ensures { result ≡ judged outcome (length (made_in ctx.now)) (unused (kept_in ctx.now) (made_in ctx.now)) }
{
    match ctx.unused() {
        Some((at, kept)) if is_plain(&outcome) => Outcome::Diverged {
            at,
            kept,
            wanted: None,
        },
        _ => outcome,
    }
}

/// Whether another step may follow one that finished, with these accesses: it leaves elements to be
/// done, and made no access.
#[inline(always)]
fn leaves_more(more: bool, made: &[Made]) -> bool
    ensures { result ≡ leaves_more (Done more 0) made.now }
{
    more && made.is_empty()
}

/// The report tells of a turn that a finished step ends, with the accesses of this step, kept ones
/// included. Where there are none, and none were told before, there is no list to be written.
#[inline(always)]
fn tell_finished(
    report: &mut Report,
    row: Row,
    elements: u32,
    made: &[Made],
    more: bool,
    retire: u8,
)
    requires { length made.now ≤ 256 }
    ensures { report.new ≡ record { row = Some row; finished = Some row; elements = elements; accesses = record { items = made.now }; outcome = Done more retire } }
{
    if made.is_empty() && report.accesses.is_empty() {
        report.row = Some(row);
        report.finished = Some(row);
        report.elements = elements;
        report.outcome = Outcome::Done { more, retire };
        return;
    }
    tell_accesses(report, row, elements, made, more, retire)
}

/// The same where there are accesses to be told, or were.
#[inline(never)]
fn tell_accesses(
    report: &mut Report,
    row: Row,
    elements: u32,
    made: &[Made],
    more: bool,
    retire: u8,
)
    requires { length made.now ≤ 256 }
    ensures { report.new ≡ record { row = Some row; finished = Some row; elements = elements; accesses = record { items = made.now }; outcome = Done more retire } }
{
    report.tell(
        Some(row),
        Some(row),
        elements,
        made,
        Outcome::Done { more, retire },
    )
}

/// What the turn has come to, where it may go on behind this step, which finished, and does. Else the
/// report tells of the turn.
#[inline(always)]
fn go_on(
    made: &[Made],
    row: Row,
    more: bool,
    retire: u8,
    so_far: SoFar,
    may_go_on: bool,
    report: &mut Report,
) -> Option<SoFar>
    requires few { so_far.elements < 2 ^ 32 - 1 }
    requires fits { length made.now ≤ 256 }
    ensures { Went so_far may_go_on (told_by (Some row) (Done more retire) made.now) result report.new }
{
    let elements = so_far.elements + 1;
    if may_go_on && leaves_more(more, made) {
        return Some(SoFar {
            elements,
            finished: Some(row),
        });
    }
    tell_finished(report, row, elements, made, more, retire);
    None
}

/// The report tells of a turn whose last step didn't finish, with the accesses of this step, kept
/// ones included; with none where the record belongs to another step.
fn tell_ended(made: &[Made], row: Option<Row>, outcome: Outcome, so_far: SoFar, report: &mut Report)
    requires undone { is_done outcome ≡ false }
    requires fits { length made.now ≤ 256 }
    ensures { report.new ≡ behind_report so_far (told_by row outcome made.now) }
{
    let SoFar { elements, finished } = so_far;
    match outcome {
        Outcome::Diverged { .. } => report.tell(row, finished, elements, &[], outcome),
        _ => report.tell(row, finished, elements, made, outcome),
    }
}

/// The stop by which a step is given up. One that the table doesn't have leaves nothing in the record,
/// as an exception does.
#[inline]
fn stop_by(outcome: &Outcome) -> Stop
    ensures kept { kept_after result ≡ left_by outcome.now }
    ensures keeps { (made : List Made) → Keepable outcome.now made → CanKeep result made }
{
    match *outcome {
        Outcome::Pending(access) => Stop::Pending(access),
        Outcome::BusFault(access) => Stop::BusFault(access),
        Outcome::Diverged { at, kept, wanted } => Stop::Diverged(Diverged { at, kept, wanted }),
        Outcome::Done { .. }
        | Outcome::Fault(_)
        | Outcome::Intercept(_)
        | Outcome::Event { .. }
        | Outcome::Handoff(_)
        | Outcome::Unhandled => Stop::Fault(Fault::plain(INVALID_OPCODE)),
    }
}

/// Gives up a step that came to this end; and the report tells of the turn. What a step that finishes
/// needs nothing of stands in functions that aren't inlined, as this one does.
#[inline(never)]
fn give_up<B: Bus, I: Intercepts>(
    ctx: Ctx<B, I>,
    row: Option<Row>,
    outcome: &Outcome,
    so_far: SoFar,
    report: &mut Report,
)
    requires open { IsOpen B.sight ctx }
    requires keeps { Keepable (judged outcome.now (length (made_in ctx)) (unused (kept_in ctx) (made_in ctx))) (made_in ctx) }
    requires undone { is_done (judged outcome.now (length (made_in ctx)) (unused (kept_in ctx) (made_in ctx))) ≡ false }
    ensures told { report.new ≡ behind_report so_far (told_by row (judged outcome.now (length (made_in ctx.entry)) (unused (kept_in ctx.entry) (made_in ctx.entry))) (made_in ctx.entry)) }
    ensures bus { (bus_back ctx.exit).now ≡ (bus_ref ctx.entry).now }
    ensures machine { state_of (machine_back ctx.exit).now ≡ state_in ctx.entry }
    ensures record { kept_of (record_back ctx.exit).now ≡ left_by (judged outcome.now (length (made_in ctx.entry)) (unused (kept_in ctx.entry) (made_in ctx.entry))) (made_in ctx.entry) (kept_in ctx.entry) }
{
    let outcome = judged(&ctx, *outcome);
    tell_ended(ctx.made(), row, outcome, so_far, report);
    let stop = stop_by(&outcome);
    ctx.end(&stop);
}

/// The same of a step that finished before it had reached all that the record has.
#[inline(never)]
fn give_up_early<B: Bus, I: Intercepts>(
    ctx: Ctx<B, I>,
    row: Row,
    more: bool,
    retire: u8,
    so_far: SoFar,
    report: &mut Report,
)
    requires open { IsOpen B.sight ctx }
    requires keeps { Keepable (judged (Done more retire) (length (made_in ctx)) (unused (kept_in ctx) (made_in ctx))) (made_in ctx) }
    requires undone { is_done (judged (Done more retire) (length (made_in ctx)) (unused (kept_in ctx) (made_in ctx))) ≡ false }
    ensures told { report.new ≡ behind_report so_far (told_by (Some row) (judged (Done more retire) (length (made_in ctx.entry)) (unused (kept_in ctx.entry) (made_in ctx.entry))) (made_in ctx.entry)) }
    ensures bus { (bus_back ctx.exit).now ≡ (bus_ref ctx.entry).now }
    ensures machine { state_of (machine_back ctx.exit).now ≡ state_in ctx.entry }
    ensures record { kept_of (record_back ctx.exit).now ≡ left_by (judged (Done more retire) (length (made_in ctx.entry)) (unused (kept_in ctx.entry) (made_in ctx.entry))) (made_in ctx.entry) (kept_in ctx.entry) }
{
    let outcome = Outcome::Done { more, retire };
    give_up(ctx, Some(row), &outcome, so_far, report);
}

/// Whether a step stands at a device that wasn't ready, or failed.
#[inline(always)]
fn is_waiting(stop: &Stop) -> bool
    ensures { result ≡ is_waiting stop.now }
{
    match stop {
        Stop::Pending(_) | Stop::BusFault(_) => true,
        Stop::Diverged(_)
        | Stop::Fault(_)
        | Stop::Intercept(_)
        | Stop::Event(_)
        | Stop::Handoff(_) => false,
    }
}

/// Suspends a step at a device: the record keeps what it made; and the report tells of the turn.
#[inline(always)]
fn suspend<B: Bus, I: Intercepts>(
    ctx: Ctx<B, I>,
    row: Row,
    stop: &Stop,
    so_far: SoFar,
    report: &mut Report,
)
    requires open { IsOpen B.sight ctx }
    requires keeps { CanKeep stop.now (made_in ctx) }
    ensures told { report.new ≡ record { row = Some row; finished = so_far.finished; elements = so_far.elements; accesses = record { items = made_in ctx.entry }; outcome = outcome_of stop.now } }
    ensures bus { (bus_back ctx.exit).now ≡ (bus_ref ctx.entry).now }
    ensures machine { state_of (machine_back ctx.exit).now ≡ state_in ctx.entry }
    ensures record { kept_of (record_back ctx.exit).now ≡ kept_after stop.now (made_in ctx.entry) (kept_in ctx.entry) }
{
    let SoFar { elements, finished } = so_far;
    report.tell(Some(row), finished, elements, ctx.made(), outcome_of(*stop));
    ctx.end(stop);
}

/// Gives up a step that stopped; and the report tells of the turn.
#[inline(never)]
fn halt<B: Bus, I: Intercepts>(
    ctx: Ctx<B, I>,
    row: Row,
    stop: &Stop,
    so_far: SoFar,
    report: &mut Report,
)
    requires open { IsOpen B.sight ctx }
    requires keeps { Keepable (judged (outcome_of stop.now) (length (made_in ctx)) (unused (kept_in ctx) (made_in ctx))) (made_in ctx) }
    requires undone { is_done (judged (outcome_of stop.now) (length (made_in ctx)) (unused (kept_in ctx) (made_in ctx))) ≡ false }
    requires stood { CanKeep stop.now (made_in ctx) }
    ensures told { report.new ≡ behind_report so_far (told_by (Some row) (judged (outcome_of stop.now) (length (made_in ctx.entry)) (unused (kept_in ctx.entry) (made_in ctx.entry))) (made_in ctx.entry)) }
    ensures bus { (bus_back ctx.exit).now ≡ (bus_ref ctx.entry).now }
    ensures machine { state_of (machine_back ctx.exit).now ≡ state_in ctx.entry }
    ensures record { kept_of (record_back ctx.exit).now ≡ left_by (judged (outcome_of stop.now) (length (made_in ctx.entry)) (unused (kept_in ctx.entry) (made_in ctx.entry))) (made_in ctx.entry) (kept_in ctx.entry) }
{
    if is_waiting(stop) {
        suspend(ctx, row, stop, so_far, report);
    } else {
        let outcome = outcome_of(*stop);
        give_up(ctx, Some(row), &outcome, so_far, report);
    }
}

/// A step takes effect, with these registers.
#[inline(always)]
fn take_effect<B: Bus, I: Intercepts>(ctx: Ctx<B, I>, row: Row, cpu: &Cpu)
    requires open { IsOpen B.sight ctx }
    requires valid { Valid cpu.now }
    requires calm { is_calm row ≡ true → Calm (cpu_of ctx) cpu.now }
    requires reached { unused (kept_in ctx) (made_in ctx) ≡ None }
    ensures bus { (bus_back ctx.exit).now ≡ (bus_ref ctx.entry).now }
    ensures machine { state_of (machine_back ctx.exit).now ≡ record { cpu = cpu.now; ram = work_of ctx.entry } }
    ensures record { kept_of (record_back ctx.exit).now ≡ nothing }
{
    if is_calm(row) {
        ctx.commit_calm(cpu);
    } else {
        ctx.commit(*cpu);
    }
}

/// A step whose instruction was found: does the instruction, whatever it needs. It isn't inlined, so that a
/// step that is done at once has no room for what only this needs.
#[inline(never)]
fn do_instruction<B: Bus, I: Intercepts>(
    m: &mut Machine,
    icpt: &I,
    bus: &mut B,
    rec: &mut Record,
    insn: &Insn,
    cpu: &mut Cpu,
    so_far: SoFar,
    may_go_on: bool,
    report: &mut Report,
) -> Option<SoFar>
    requires found { Ok insn.now ≡ fetched (state_of m.old) }
    requires had { insn.now.len ≤ length (avail (state_of m.old)).bytes }
    requires of_code { IsOf (state_of m.old).cpu insn.now }
    requires room { HasRoom (B.sight bus.old) (256 - length (kept_of rec.old).answers) }
    requires draft { cpu.old ≡ (state_of m.old).cpu }
    requires few { so_far.elements < 2 ^ 32 - 1 }
    requires later { 0 < so_far.elements → kept_of rec.old ≡ nothing }
    ensures did { Did (step_of (state_of m.old) (I.hits icpt.now)) (state_of m.old) (kept_of rec.old) (B.sight bus.old) so_far may_go_on result report.new (state_of m.new) (kept_of rec.new) (B.sight bus.new) }
    ensures draft { cpu.new ≡ (state_of m.new).cpu }
{
    let is_trapped = is_trapped(cpu);
    let row = insn.row;
    let mut ctx = Ctx::begin(m, icpt, bus, rec);
    ctx.accept(insn.len);
    match exec(insn, &mut ctx, cpu) {
        Ok(End { more, retire }) => {
            let retire = retired(retire, is_trapped);
            if has_reached_all(&ctx, so_far.elements == 0) {
                let made = ctx.made();
                let next = go_on(made, row, more, retire, so_far, may_go_on, report);
                take_effect(ctx, row, cpu);
                return next;
            }
            *cpu = *ctx.cpu();
            give_up_early(ctx, row, more, retire, so_far, report);
            None
        }
        Err(stop) => {
            *cpu = *ctx.cpu();
            halt(ctx, row, &stop, so_far, report);
            None
        }
    }
}

/// A step whose instruction isn't known yet: finds it, and does it.
#[inline(never)]
fn find_instruction<B: Bus, I: Intercepts>(
    m: &mut Machine,
    icpt: &I,
    bus: &mut B,
    rec: &mut Record,
    cpu: &mut Cpu,
    so_far: SoFar,
    may_go_on: bool,
    report: &mut Report,
) -> Option<SoFar>
    requires room { HasRoom (B.sight bus.old) (256 - length (kept_of rec.old).answers) }
    requires draft { cpu.old ≡ (state_of m.old).cpu }
    requires few { so_far.elements < 2 ^ 32 - 1 }
    requires later { 0 < so_far.elements → kept_of rec.old ≡ nothing }
    ensures did { Did (step_of (state_of m.old) (I.hits icpt.now)) (state_of m.old) (kept_of rec.old) (B.sight bus.old) so_far may_go_on result report.new (state_of m.new) (kept_of rec.new) (B.sight bus.new) }
    ensures draft { cpu.new ≡ (state_of m.new).cpu }
{
    let mut ctx = Ctx::begin(m, icpt, bus, rec);
    match instruction(&mut ctx) {
        Ok(insn) => do_instruction(m, icpt, bus, rec, &insn, cpu, so_far, may_go_on, report),
        Err(outcome) => {
            give_up(ctx, None, &outcome, so_far, report);
            None
        }
    }
}

/// One step of a turn, with a draft that has the machine's registers: what the turn has come to, where
/// it may go on and does; else the report tells of the turn. At every end the draft has the machine's
/// registers again.
///
/// An instruction that is known, and is done at once, finishes here. Every other one goes on elsewhere,
/// and under paging each does, since there its pages are to be marked.
#[inline(always)]
fn step<B: Bus, I: Intercepts>(
    m: &mut Machine,
    icpt: &I,
    bus: &mut B,
    rec: &mut Record,
    cpu: &mut Cpu,
    so_far: SoFar,
    may_go_on: bool,
    report: &mut Report,
) -> Option<SoFar>
    requires room { HasRoom (B.sight bus.old) (256 - length (kept_of rec.old).answers) }
    requires draft { cpu.old ≡ (state_of m.old).cpu }
    requires few { so_far.elements < 2 ^ 32 - 1 }
    requires later { 0 < so_far.elements → kept_of rec.old ≡ nothing }
    ensures did { Did (step_of (state_of m.old) (I.hits icpt.now)) (state_of m.old) (kept_of rec.old) (B.sight bus.old) so_far may_go_on result report.new (state_of m.new) (kept_of rec.new) (B.sight bus.new) }
    ensures draft { cpu.new ≡ (state_of m.new).cpu }
{
    let is_trapped = is_trapped(cpu);
    let mut ctx = Ctx::begin(m, icpt, bus, rec);
    let is_fresh = has_reached_all(&ctx, so_far.elements == 0);
    let Some(known) = known_instruction(&ctx) else {
        return find_instruction(m, icpt, bus, rec, cpu, so_far, may_go_on, report);
    };
    let insn = *known;
    if cpu.pg() || !is_fresh {
        return do_instruction(m, icpt, bus, rec, &insn, cpu, so_far, may_go_on, report);
    }
    ctx.accept(insn.len);
    if !exec_at_once(&insn, &mut ctx, cpu) {
        return do_instruction(m, icpt, bus, rec, &insn, cpu, so_far, may_go_on, report);
    }
    let retire = retired(0, is_trapped);
    let made = ctx.made();
    let next = go_on(made, insn.row, false, retire, so_far, may_go_on, report);
    ctx.commit_calm(cpu);
    next
}

/// A step behind which another one may follow.
#[inline(never)]
fn step_of_several<B: Bus, I: Intercepts>(
    m: &mut Machine,
    icpt: &I,
    bus: &mut B,
    rec: &mut Record,
    cpu: &mut Cpu,
    so_far: SoFar,
    report: &mut Report,
) -> Option<SoFar>
    requires room { HasRoom (B.sight bus.old) (256 - length (kept_of rec.old).answers) }
    requires draft { cpu.old ≡ (state_of m.old).cpu }
    requires few { so_far.elements < 2 ^ 32 - 1 }
    requires later { 0 < so_far.elements → kept_of rec.old ≡ nothing }
    ensures did { Did (step_of (state_of m.old) (I.hits icpt.now)) (state_of m.old) (kept_of rec.old) (B.sight bus.old) so_far true result report.new (state_of m.new) (kept_of rec.new) (B.sight bus.new) }
    ensures draft { cpu.new ≡ (state_of m.new).cpu }
{
    step(m, icpt, bus, rec, cpu, so_far, true, report)
}

/// One call, with all that it says in one record. The draft and the report are those of the whole
/// turn: a step in its middle copies no list and looks at no record.
#[inline(always)]
fn turn<B: Bus, I: Intercepts>(
    m: &mut Machine,
    icpt: &I,
    bus: &mut B,
    rec: &mut Record,
    cpu: &mut Cpu,
    batch: u32,
    report: &mut Report,
)
    requires batch { 1 ≤ batch }
    requires draft { cpu.old ≡ (state_of m.old).cpu }
    requires room { HasRoom (B.sight bus.old) (256 - length (kept_of rec.old).answers) }
    ensures reports { Reports (steps_of (I.hits icpt.now)) batch (state_of m.old) (kept_of rec.old) (B.sight bus.old) report.new (state_of m.new) (kept_of rec.new) (B.sight bus.new) }
    ensures draft { cpu.new ≡ (state_of m.new).cpu }
{
    let mut so_far = SoFar {
        elements: 0,
        finished: None,
    };
    for nth in 1..batch {
        match step_of_several(m, icpt, bus, rec, cpu, so_far, report) {
            Some(next) => so_far = next,
            None => return,
        }
    }
    step(m, icpt, bus, rec, cpu, so_far, false, report);
}

/// Runs one turn of the machine: the instruction at CS:RIP, or, of a repeated string instruction, up to
/// `batch` of its elements, each of which is a step of its own; and tells it in a report of the caller's,
/// which can be used again from call to call.
///
/// The turn ends with the first step that is the `batch`-th, makes a device access, finishes the
/// instruction, or doesn't finish. So only its last step makes accesses. They take their first answers
/// from the record, and the bus is asked for the others, the record's asked access first; so no device
/// that has answered is asked twice. A call whose record isn't empty makes one step.
///
/// - `Done` comes where the last step finished. Its registers and its stores have taken effect; `more`
///   says that elements are left; `retire` has 8 more where TF was 1 before the step.
/// - `Pending` comes where a device isn't ready yet, and `BusFault` where one failed. The record then
///   keeps the answers so far, and the access that was asked; the next call goes on from there.
/// - `Diverged` comes exactly where the record belongs to another step: at the first place at which the
///   step's access isn't the one that the record has there. Nothing changes.
/// - `Fault`, `Intercept`, `Event` and `Handoff` come where the last step ended so; `Fault` and
///   `Handoff` also where a byte that it needs can't be had, and #UD (vector 6, without an error
///   code) where its encoding is invalid: in these cases the report has no row.
/// - `Unhandled` comes where the instruction table doesn't have the encoding. There is no row.
///
/// At every end the machine is as after the steps that finished, whose number the report has: a step
/// that doesn't finish changes nothing, and takes none of them back. The bytes of an instruction are
/// needed one after another until it is decided, at most 15 (SDM volume 2, "Instruction Format"); the
/// first that can't be had decides.
pub fn emulate_into<B: Bus, I: Intercepts>(
    m: &mut Machine,
    icpt: &I,
    bus: &mut B,
    rec: &mut Record,
    batch: u32,
    report: &mut Report,
)
    requires batch { 1 ≤ batch }
    // Where the bus tells its script, its room and the answers that the record keeps are together at least 256.
    requires room { HasRoom (B.sight bus.old) (256 - length (kept_of rec.old).answers) }
    // Over any bus: where the record belongs to another step, that is told, with the place; else the record's answers come first among
    // those of the report's accesses, and with these answers the turn of the definition comes to the report's counts, end, state and record.
    ensures tells { Tells (divergence (step_of (state_of m.old) (I.hits icpt.now)) (kept_of rec.old)) (steps_of (I.hits icpt.now)) batch (state_of m.old) (kept_of rec.old) report.new (state_of m.new) (kept_of rec.new) }
    // Where the bus tells its script, the whole is one call of the definition over it, and the log has grown by exactly the accesses
    // that weren't kept.
    ensures told { (t : Tape) → (B.sight bus.old).tape ≡ Some t → FollowsTape (steps_of (I.hits icpt.now)) batch (state_of m.old) (kept_of rec.old) t report.new (state_of m.new) (kept_of rec.new) (B.sight bus.new).tape }
    ensures untold { (B.sight bus.old).tape ≡ None → (B.sight bus.new).tape ≡ None }
    ensures room { (B.sight bus.old).room ≤ (B.sight bus.new).room + (length report.new.accesses.items - length (kept_of rec.old).answers) }
    ensures spare { (k : Key) → (B.sight bus.new).spare k ≡ (B.sight bus.old).spare k }
    ensures unready { (B.sight bus.old).unready ≤ (B.sight bus.new).unready }
    ensures faults { (B.sight bus.old).faults ≤ (B.sight bus.new).faults }
    // Pending comes only where the count of devices that weren't ready rose, and BusFault only where that of failures did.
    ensures counted { Counted report.new.outcome (B.sight bus.old) (B.sight bus.new) }
    ensures well_made { All IsWellMade report.new.accesses.items }
    ensures few { report.new.elements ≤ batch }
    // A call with a record that isn't empty makes one step.
    ensures alone { IsSome (kept_of rec.old).asked → report.new.elements ≡ (if is_done report.new.outcome then 1 else 0) }
    // At every end the machine is as after the steps that finished.
    ensures stays { state_of m.new ≡ after_steps (steps_of (I.hits icpt.now)) report.new.elements (state_of m.old) (answers_alone (answers report.new.accesses.items)) }
    ensures valid { Valid (state_of m.new).cpu }
    // Each step but the last finished, left elements to be done and made no access; and the last one is a call of its own.
    ensures led { Led (steps_of (I.hits icpt.now)) batch (state_of m.old) (kept_of rec.old) report.new (state_of m.new) (kept_of rec.new) }
    // Each of the accesses is the one that the last step stands at where it has the answers before it alone.
    ensures asks { is_diverged report.new.outcome ≡ false → StandsEach (step_of (before_last (steps_of (I.hits icpt.now)) (state_of m.old) report.new) (I.hits icpt.now)) report.new.row [] report.new.accesses.items }
    // It stands at the access of Pending and BusFault, with the answers of those before.
    ensures stands { Stands report.new.outcome (step_of (before_last (steps_of (I.hits icpt.now)) (state_of m.old) report.new) (I.hits icpt.now)) report.new.row report.new.accesses.items }
    // Diverged comes only where the record belongs to another step.
    ensures fitting { Fits (step_of (state_of m.old) (I.hits icpt.now)) (kept_of rec.old) → is_diverged report.new.outcome ≡ false }
    // A bus that tells its script gave, behind the kept answers, what the script gives.
    ensures plays { (t : Tape) → (B.sight bus.old).tape ≡ Some t → is_diverged report.new.outcome ≡ false → Played (kept_of rec.old) t report.new (B.sight bus.new).tape }
    // The record that is left belongs to the step that comes next, unless it belonged to another one before.
    ensures fits { is_diverged report.new.outcome ≡ false → Fits (step_of (state_of m.new) (I.hits icpt.now)) (kept_of rec.new) }
    // A record that belongs to the step, and a bus that finds every device ready: where the turn of the definition ends with a step that
    // finishes, the call does.
    ensures completes { Fits (step_of (state_of m.old) (I.hits icpt.now)) (kept_of rec.old) → Steady (B.sight bus.old) (B.sight bus.new) → Completes (steps_of (I.hits icpt.now)) batch (state_of m.old) report.new }
    ensures completes_over { (t : Tape) → (B.sight bus.old).tape ≡ Some t → Fits (step_of (state_of m.old) (I.hits icpt.now)) (kept_of rec.old) → CompletesOver (steps_of (I.hits icpt.now)) batch (state_of m.old) (kept_of rec.old) t report.new }
{
    let mut cpu = *m.cpu();
    emulate_with_draft(m, icpt, bus, rec, &mut cpu, batch, report)
}

/// Runs one turn as [`emulate_into`] does, on a draft of the caller's that has the machine's registers, and
/// has them again at every end. It is for one who runs turn after turn: the registers aren't copied to a
/// draft at each.
pub fn emulate_with_draft<B: Bus, I: Intercepts>(
    m: &mut Machine,
    icpt: &I,
    bus: &mut B,
    rec: &mut Record,
    cpu: &mut Cpu,
    batch: u32,
    report: &mut Report,
)
    requires draft { cpu.old ≡ (state_of m.old).cpu }
    requires batch { 1 ≤ batch }
    requires room { HasRoom (B.sight bus.old) (256 - length (kept_of rec.old).answers) }
    ensures draft { cpu.new ≡ (state_of m.new).cpu }
    ensures tells { Tells (divergence (step_of (state_of m.old) (I.hits icpt.now)) (kept_of rec.old)) (steps_of (I.hits icpt.now)) batch (state_of m.old) (kept_of rec.old) report.new (state_of m.new) (kept_of rec.new) }
    ensures told { (t : Tape) → (B.sight bus.old).tape ≡ Some t → FollowsTape (steps_of (I.hits icpt.now)) batch (state_of m.old) (kept_of rec.old) t report.new (state_of m.new) (kept_of rec.new) (B.sight bus.new).tape }
    ensures untold { (B.sight bus.old).tape ≡ None → (B.sight bus.new).tape ≡ None }
    ensures room { (B.sight bus.old).room ≤ (B.sight bus.new).room + (length report.new.accesses.items - length (kept_of rec.old).answers) }
    ensures spare { (k : Key) → (B.sight bus.new).spare k ≡ (B.sight bus.old).spare k }
    ensures unready { (B.sight bus.old).unready ≤ (B.sight bus.new).unready }
    ensures faults { (B.sight bus.old).faults ≤ (B.sight bus.new).faults }
    ensures counted { Counted report.new.outcome (B.sight bus.old) (B.sight bus.new) }
    ensures well_made { All IsWellMade report.new.accesses.items }
    ensures few { report.new.elements ≤ batch }
    ensures alone { IsSome (kept_of rec.old).asked → report.new.elements ≡ (if is_done report.new.outcome then 1 else 0) }
    ensures stays { state_of m.new ≡ after_steps (steps_of (I.hits icpt.now)) report.new.elements (state_of m.old) (answers_alone (answers report.new.accesses.items)) }
    ensures valid { Valid (state_of m.new).cpu }
    ensures led { Led (steps_of (I.hits icpt.now)) batch (state_of m.old) (kept_of rec.old) report.new (state_of m.new) (kept_of rec.new) }
    ensures asks { is_diverged report.new.outcome ≡ false → StandsEach (step_of (before_last (steps_of (I.hits icpt.now)) (state_of m.old) report.new) (I.hits icpt.now)) report.new.row [] report.new.accesses.items }
    ensures stands { Stands report.new.outcome (step_of (before_last (steps_of (I.hits icpt.now)) (state_of m.old) report.new) (I.hits icpt.now)) report.new.row report.new.accesses.items }
    ensures fitting { Fits (step_of (state_of m.old) (I.hits icpt.now)) (kept_of rec.old) → is_diverged report.new.outcome ≡ false }
    ensures plays { (t : Tape) → (B.sight bus.old).tape ≡ Some t → is_diverged report.new.outcome ≡ false → Played (kept_of rec.old) t report.new (B.sight bus.new).tape }
    ensures fits { is_diverged report.new.outcome ≡ false → Fits (step_of (state_of m.new) (I.hits icpt.now)) (kept_of rec.new) }
    ensures completes { Fits (step_of (state_of m.old) (I.hits icpt.now)) (kept_of rec.old) → Steady (B.sight bus.old) (B.sight bus.new) → Completes (steps_of (I.hits icpt.now)) batch (state_of m.old) report.new }
    ensures completes_over { (t : Tape) → (B.sight bus.old).tape ≡ Some t → Fits (step_of (state_of m.old) (I.hits icpt.now)) (kept_of rec.old) → CompletesOver (steps_of (I.hits icpt.now)) batch (state_of m.old) (kept_of rec.old) t report.new }
{
    turn(m, icpt, bus, rec, cpu, batch, report)
}

/// Runs one turn as [`emulate_into`] does, and makes its report anew.
#[inline(always)]
pub fn emulate<B: Bus, I: Intercepts>(
    m: &mut Machine,
    icpt: &I,
    bus: &mut B,
    rec: &mut Record,
    batch: u32,
) -> Report
    requires batch { 1 ≤ batch }
    requires room { HasRoom (B.sight bus.old) (256 - length (kept_of rec.old).answers) }
    ensures tells { Tells (divergence (step_of (state_of m.old) (I.hits icpt.now)) (kept_of rec.old)) (steps_of (I.hits icpt.now)) batch (state_of m.old) (kept_of rec.old) result (state_of m.new) (kept_of rec.new) }
    ensures told { (t : Tape) → (B.sight bus.old).tape ≡ Some t → FollowsTape (steps_of (I.hits icpt.now)) batch (state_of m.old) (kept_of rec.old) t result (state_of m.new) (kept_of rec.new) (B.sight bus.new).tape }
    ensures untold { (B.sight bus.old).tape ≡ None → (B.sight bus.new).tape ≡ None }
    ensures room { (B.sight bus.old).room ≤ (B.sight bus.new).room + (length result.accesses.items - length (kept_of rec.old).answers) }
    ensures spare { (k : Key) → (B.sight bus.new).spare k ≡ (B.sight bus.old).spare k }
    ensures unready { (B.sight bus.old).unready ≤ (B.sight bus.new).unready }
    ensures faults { (B.sight bus.old).faults ≤ (B.sight bus.new).faults }
    ensures counted { Counted result.outcome (B.sight bus.old) (B.sight bus.new) }
    ensures well_made { All IsWellMade result.accesses.items }
    ensures few { result.elements ≤ batch }
    ensures alone { IsSome (kept_of rec.old).asked → result.elements ≡ (if is_done result.outcome then 1 else 0) }
    ensures stays { state_of m.new ≡ after_steps (steps_of (I.hits icpt.now)) result.elements (state_of m.old) (answers_alone (answers result.accesses.items)) }
    ensures valid { Valid (state_of m.new).cpu }
    ensures led { Led (steps_of (I.hits icpt.now)) batch (state_of m.old) (kept_of rec.old) result (state_of m.new) (kept_of rec.new) }
    ensures asks { is_diverged result.outcome ≡ false → StandsEach (step_of (before_last (steps_of (I.hits icpt.now)) (state_of m.old) result) (I.hits icpt.now)) result.row [] result.accesses.items }
    ensures stands { Stands result.outcome (step_of (before_last (steps_of (I.hits icpt.now)) (state_of m.old) result) (I.hits icpt.now)) result.row result.accesses.items }
    ensures fitting { Fits (step_of (state_of m.old) (I.hits icpt.now)) (kept_of rec.old) → is_diverged result.outcome ≡ false }
    ensures plays { (t : Tape) → (B.sight bus.old).tape ≡ Some t → is_diverged result.outcome ≡ false → Played (kept_of rec.old) t result (B.sight bus.new).tape }
    ensures fits { is_diverged result.outcome ≡ false → Fits (step_of (state_of m.new) (I.hits icpt.now)) (kept_of rec.new) }
    ensures completes { Fits (step_of (state_of m.old) (I.hits icpt.now)) (kept_of rec.old) → Steady (B.sight bus.old) (B.sight bus.new) → Completes (steps_of (I.hits icpt.now)) batch (state_of m.old) result }
    ensures completes_over { (t : Tape) → (B.sight bus.old).tape ≡ Some t → Fits (step_of (state_of m.old) (I.hits icpt.now)) (kept_of rec.old) → CompletesOver (steps_of (I.hits icpt.now)) batch (state_of m.old) (kept_of rec.old) t result }
{
    let mut report = Report::new();
    emulate_into(m, icpt, bus, rec, batch, &mut report);
    report
}
