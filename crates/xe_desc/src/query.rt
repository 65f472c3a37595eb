//! What a program may ask of selectors and their descriptors.
#![tactic(auto, using(xe_ctx::proofs::Trees::row_rules))]

ghost use Rattle.std.specs.Prelude.{◌≡◌, ◌<◌};
ghost use Rattle.xe_ctx.specs.Contract.{ℕ, IsTrue, is_size, IsOf, HasLeft, IsReady, Finishes, RunsWithin, DraftsWithin, IsOperand, cpu_of};
ghost use Rattle.xe_desc.specs.Query.{zero_written, has_descriptor, some_descriptor, find_descriptor, is_visible, is_segment_kind, is_gate_kind, has_limit, has_rights, can_be_read, can_be_written, rights_of, rights_answer, limit_answer, answered, lar_row, lsl_row, is_verified, verify_row, raised, arpl_row};

use crate::descriptor_table::{fetch_descriptor, is_in_table};
use crate::load::selector;
use crate::task::outside_real_mode;
use xe_base::Cpu;
use xe_ctx::operand::{
    Operand, done, operand_of, read_for_write, read_operand, read_register, reg_of, write_operand,
    write_register,
};
use xe_ctx::{Bus, Ctx, End, Stop};
use xe_flags::with_zero;
use xe_icpt::Intercepts;
use xe_opmap::Insn;
use xe_seg::Descriptor;
use xe_seg::attributes::{is_conforming, is_readable, is_writable};
use xe_seg::loads::is_null;

/// Writes ZF.
fn set_zero(cpu: &mut Cpu, zero: bool)
    ensures { cpu.new ≡ zero_written cpu.old zero }
{
    cpu.rflags = with_zero(cpu.rflags, zero);
}

/// Whether a selector has a descriptor: it isn't null, and its descriptor isn't past the table.
fn has_descriptor(cpu: &Cpu, sel: u16) -> bool
    ensures { result ≡ has_descriptor cpu.now sel }
{
    !is_null(sel) && is_in_table(cpu, sel, 8)
}

/// Reads a descriptor that there is.
#[tactic(auto, using(xe_ctx::proofs::Trees::row_rules), unfolding(crate::specs::Query::some_descriptor))]
fn some_descriptor<B: Bus, I: Intercepts>(
    ctx: &mut Ctx<B, I>,
    sel: u16,
) -> Result<Option<Descriptor>, Stop>
    requires { HasLeft B.sight ctx.old 4 10 }
    ensures { RunsWithin B.sight I.hits (some_descriptor (cpu_of ctx.old) sel) ctx.old result ctx.new 4 10 }
{
    let desc = fetch_descriptor(ctx, sel)?;
    Ok(Some(desc))
}

/// Reads the descriptor of a selector, where it has one.
#[tactic(auto, using(xe_ctx::proofs::Trees::row_rules), unfolding(crate::specs::Query::find_descriptor))]
fn find_descriptor<B: Bus, I: Intercepts>(
    ctx: &mut Ctx<B, I>,
    sel: u16,
) -> Result<Option<Descriptor>, Stop>
    requires { HasLeft B.sight ctx.old 4 10 }
    ensures { RunsWithin B.sight I.hits (find_descriptor (cpu_of ctx.old) sel) ctx.old result ctx.new 4 10 }
{
    if has_descriptor(ctx.cpu(), sel) {
        some_descriptor(ctx, sel)
    } else {
        Ok(None)
    }
}

/// Whether neither RPL nor CPL is above its DPL; conforming code may be asked of by everybody.
fn is_visible(cpu: &Cpu, sel: u16, desc: &Descriptor) -> bool
    ensures { result ≡ is_visible cpu.now sel desc.now }
{
    let conforms = desc.s() && is_conforming(desc.attr());
    conforms || ((sel % 4) as u8 <= desc.dpl() && cpu.cpl <= desc.dpl())
}

/// Whether the type is one of an LDT or of a TSS; outside long mode also of 16 bits.
fn is_segment_kind(cpu: &Cpu, kind: u8) -> bool
    ensures { result ≡ is_segment_kind cpu.now kind }
{
    kind == 2 || kind == 9 || kind == 0xB || (!cpu.lma() && (kind == 1 || kind == 3))
}

/// Whether the type is one of a call gate; outside long mode also of 16 bits, or of a task gate.
fn is_gate_kind(cpu: &Cpu, kind: u8) -> bool
    ensures { result ≡ is_gate_kind cpu.now kind }
{
    kind == 0xC || (!cpu.lma() && (kind == 4 || kind == 5))
}

/// Whether LSL may be asked of it.
fn has_limit(cpu: &Cpu, desc: &Descriptor) -> bool
    ensures { result ≡ has_limit cpu.now desc.now }
{
    desc.s() || is_segment_kind(cpu, desc.kind())
}

/// Whether LAR may be asked of it.
fn has_rights(cpu: &Cpu, desc: &Descriptor) -> bool
    ensures { result ≡ has_rights cpu.now desc.now }
{
    desc.s() || is_segment_kind(cpu, desc.kind()) || is_gate_kind(cpu, desc.kind())
}

/// Whether it is data or readable code.
fn can_be_read(desc: &Descriptor) -> bool
    ensures { result ≡ can_be_read desc.now }
{
    desc.s() && is_readable(desc.attr())
}

/// Whether it is writable data.
fn can_be_written(desc: &Descriptor) -> bool
    ensures { result ≡ can_be_written desc.now }
{
    desc.s() && is_writable(desc.attr())
}

/// The access rights: bytes 4 to 7 without base and limit.
fn rights_of(desc: &Descriptor) -> u64
    ensures { result ≡ rights_of desc.now }
{
    (desc.raw >> 32) & 0xF0_FF00
}

/// The access rights that LAR gives.
fn rights_answer(cpu: &Cpu, sel: u16, found: Option<Descriptor>) -> Option<u64>
    ensures { result ≡ rights_answer cpu.now sel found }
{
    match found {
        Some(desc) if has_rights(cpu, &desc) && is_visible(cpu, sel, &desc) => {
            Some(rights_of(&desc))
        }
        Some(_) | None => None,
    }
}

/// The limit that LSL gives.
fn limit_answer(cpu: &Cpu, sel: u16, found: Option<Descriptor>) -> Option<u64>
    ensures { result ≡ limit_answer cpu.now sel found }
{
    match found {
        Some(desc) if has_limit(cpu, &desc) && is_visible(cpu, sel, &desc) => {
            Some(desc.limit() as u64)
        }
        Some(_) | None => None,
    }
}

/// Writes ZF, and G where there is an answer.
fn answer(insn: &Insn, cpu: &mut Cpu, found: Option<u64>)
    requires { IsOf cpu.old insn.now }
    ensures { cpu.new ≡ answered insn.now cpu.old found }
{
    match found {
        None => set_zero(cpu, false),
        Some(value) => {
            let register = reg_of(insn, cpu);
            set_zero(cpu, true);
            write_register(insn, cpu, insn.opsize, register, value);
        }
    }
}

/// LAR (SDM volume 2, "LAR—Load Access Rights").
pub fn lar<B: Bus, I: Intercepts>(
    insn: &Insn,
    ctx: &mut Ctx<B, I>,
    cpu: &mut Cpu,
) -> Result<End, Stop>
    requires { IsReady B.sight insn.now ctx.old cpu.old 8 20 }
    ensures { Finishes B.sight I.hits (lar_row insn.now (cpu_of ctx.old)) ctx.old result cpu.new ctx.new }
{
    outside_real_mode(ctx)?;
    let value = read_operand(insn, ctx, operand_of(insn, cpu), 2)?;
    let sel = selector(value);
    let found = find_descriptor(ctx, sel)?;
    let rights = rights_answer(cpu, sel, found);
    answer(insn, cpu, rights);
    Ok(done(insn, cpu))
}

/// LSL (SDM volume 2, "LSL—Load Segment Limit").
pub fn lsl<B: Bus, I: Intercepts>(
    insn: &Insn,
    ctx: &mut Ctx<B, I>,
    cpu: &mut Cpu,
) -> Result<End, Stop>
    requires { IsReady B.sight insn.now ctx.old cpu.old 8 20 }
    ensures { Finishes B.sight I.hits (lsl_row insn.now (cpu_of ctx.old)) ctx.old result cpu.new ctx.new }
{
    outside_real_mode(ctx)?;
    let value = read_operand(insn, ctx, operand_of(insn, cpu), 2)?;
    let sel = selector(value);
    let found = find_descriptor(ctx, sel)?;
    let limit = limit_answer(cpu, sel, found);
    answer(insn, cpu, limit);
    Ok(done(insn, cpu))
}

/// Whether VERW finds that the segment can be written, or VERR that it can be read.
fn is_verified(write: bool, cpu: &Cpu, sel: u16, found: Option<Descriptor>) -> bool
    ensures { result ≡ is_verified write cpu.now sel found }
{
    match found {
        None => false,
        Some(desc) if write => can_be_written(&desc) && is_visible(cpu, sel, &desc),
        Some(desc) => can_be_read(&desc) && is_visible(cpu, sel, &desc),
    }
}

/// VERR, or VERW, which asks for `write` (SDM volume 2, "VERR/VERW—Verify a Segment for Reading or
/// Writing").
pub fn verify<B: Bus, I: Intercepts>(
    write: bool,
    insn: &Insn,
    ctx: &mut Ctx<B, I>,
    cpu: &mut Cpu,
) -> Result<End, Stop>
    requires { IsReady B.sight insn.now ctx.old cpu.old 8 20 }
    ensures { Finishes B.sight I.hits (verify_row write insn.now (cpu_of ctx.old)) ctx.old result cpu.new ctx.new }
{
    outside_real_mode(ctx)?;
    let value = read_operand(insn, ctx, operand_of(insn, cpu), 2)?;
    let sel = selector(value);
    let found = find_descriptor(ctx, sel)?;
    let verified = is_verified(write, cpu, sel, found);
    set_zero(cpu, verified);
    Ok(done(insn, cpu))
}

/// Raises the RPL of E to that of the asker, which ZF tells; else nothing is stored.
#[tactic(auto, using(xe_ctx::proofs::Trees::row_rules), unfolding(crate::specs::Query::raised))]
fn raise<B: Bus, I: Intercepts>(
    insn: &Insn,
    ctx: &mut Ctx<B, I>,
    cpu: &mut Cpu,
    operand: Operand,
    sel: u64,
    asker: u64,
) -> Result<(), Stop>
    requires ready { HasLeft B.sight ctx.old 4 18 }
    requires operand { IsOperand operand }
    ensures { DraftsWithin B.sight I.hits (raised insn.now cpu.old operand sel asker) ctx.old result cpu.new ctx.new 4 18 }
{
    if sel % 4 < asker % 4 {
        set_zero(cpu, true);
        write_operand(insn, ctx, cpu, operand, 2, sel - sel % 4 + asker % 4)
    } else {
        set_zero(cpu, false);
        Ok(())
    }
}

/// ARPL (SDM volume 2, "ARPL—Adjust RPL Field of Segment Selector").
pub fn arpl<B: Bus, I: Intercepts>(
    insn: &Insn,
    ctx: &mut Ctx<B, I>,
    cpu: &mut Cpu,
) -> Result<End, Stop>
    requires { IsReady B.sight insn.now ctx.old cpu.old 8 28 }
    ensures { Finishes B.sight I.hits (arpl_row insn.now (cpu_of ctx.old)) ctx.old result cpu.new ctx.new }
{
    outside_real_mode(ctx)?;
    let target = operand_of(insn, cpu);
    let register = reg_of(insn, cpu);
    let asker = read_register(insn, cpu, 2, register);
    let sel = read_for_write(insn, ctx, target, 2)?;
    raise(insn, ctx, cpu, target, sel, asker)?;
    Ok(done(insn, cpu))
}
