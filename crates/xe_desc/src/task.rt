//! The LDT and the task register.
#![tactic(auto, using(xe_ctx::proofs::Trees::row_rules))]

ghost use Rattle.std.specs.Prelude.{◌≡◌, ◌<◌, ◌^◌, ◌%◌, IfOk};
ghost use Rattle.xe_ctx.specs.Contract.{ℕ, HasLeft, IsReady, Finishes, RunsWithin, DraftsWithin, cpu_of};
ghost use Rattle.xe_seg.specs.Descriptors.{attr_of};
ghost use Rattle.xe_desc.specs.DescriptorTable.{access_byte};
ghost use Rattle.xe_desc.specs.Task.{outside_real_mode, or_selector, stored_row, sldt_row, str_row, read_wide, read_narrow, read_system, low_part, system_base, upper_kind, is_system, system_segment, load_ldt, load_ldtr, lldt_row, busy, is_available, load_tss, ltr_row};

use crate::descriptor_table::{descriptor_address, is_in_table, is_local, read_descriptor};
use crate::load::{selector, store_selector};
use xe_base::access::{GENERAL_PROTECTION, INVALID_OPCODE, SEGMENT_NOT_PRESENT};
use xe_base::{Cpu, Fault, Seg};
use xe_ctx::operand::{done, operand_of, read_operand};
use xe_ctx::privilege::{at_level_0, is_real, or_protection};
use xe_ctx::{Bus, Ctx, End, Stop};
use xe_icpt::{Intercepts, Point, TableName};
use xe_opmap::Insn;
use xe_seg::Descriptor;
use xe_seg::loads::{is_null, selector_fault};

/// Goes on outside real mode; there it is #UD.
#[tactic(auto, using(xe_ctx::proofs::Trees::row_rules), unfolding(crate::specs::Task::outside_real_mode))]
pub fn outside_real_mode<B: Bus, I: Intercepts>(ctx: &mut Ctx<B, I>) -> Result<(), Stop>
    requires { HasLeft B.sight ctx.old 0 0 }
    ensures { RunsWithin B.sight I.hits (outside_real_mode (cpu_of ctx.old)) ctx.old result ctx.new 0 0 }
{
    if is_real(ctx.cpu()) {
        Err(Stop::Fault(Fault::plain(INVALID_OPCODE)))
    } else {
        Ok(())
    }
}

/// Goes on where `holds`; else it is the exception of a vector with the selector.
#[tactic(auto, using(xe_ctx::proofs::Trees::row_rules), unfolding(crate::specs::Task::or_selector))]
fn or_selector<B: Bus, I: Intercepts>(
    ctx: &mut Ctx<B, I>,
    holds: bool,
    vector: u8,
    sel: u16,
) -> Result<(), Stop>
    requires { HasLeft B.sight ctx.old 0 0 }
    ensures { RunsWithin B.sight I.hits (or_selector (cpu_of ctx.old) holds vector sel) ctx.old result ctx.new 0 0 }
{
    if holds {
        Ok(())
    } else {
        Err(Stop::Fault(selector_fault(ctx.cpu(), vector, sel)))
    }
}

/// Stores the selector of a table register.
fn stored<B: Bus, I: Intercepts>(
    t: TableName,
    sel: u16,
    insn: &Insn,
    ctx: &mut Ctx<B, I>,
    cpu: &mut Cpu,
) -> Result<End, Stop>
    requires { IsReady B.sight insn.now ctx.old cpu.old 4 18 }
    ensures { Finishes B.sight I.hits (stored_row t sel insn.now (cpu_of ctx.old)) ctx.old result cpu.new ctx.new }
{
    outside_real_mode(ctx)?;
    ctx.point(&Point::TableRead { t })?;
    store_selector(insn, ctx, cpu, sel)?;
    Ok(done(insn, cpu))
}

/// SLDT (SDM volume 2, "SLDT—Store Local Descriptor Table Register").
pub fn sldt<B: Bus, I: Intercepts>(
    insn: &Insn,
    ctx: &mut Ctx<B, I>,
    cpu: &mut Cpu,
) -> Result<End, Stop>
    requires { IsReady B.sight insn.now ctx.old cpu.old 4 18 }
    ensures { Finishes B.sight I.hits (sldt_row insn.now (cpu_of ctx.old)) ctx.old result cpu.new ctx.new }
{
    let sel = cpu.ldtr.sel;
    stored(TableName::Ldtr, sel, insn, ctx, cpu)
}

/// STR (SDM volume 2, "STR—Store Task Register").
pub fn str<B: Bus, I: Intercepts>(
    insn: &Insn,
    ctx: &mut Ctx<B, I>,
    cpu: &mut Cpu,
) -> Result<End, Stop>
    requires { IsReady B.sight insn.now ctx.old cpu.old 4 18 }
    ensures { Finishes B.sight I.hits (str_row insn.now (cpu_of ctx.old)) ctx.old result cpu.new ctx.new }
{
    let sel = cpu.tr.sel;
    stored(TableName::Tr, sel, insn, ctx, cpu)
}

/// Reads the 16 bytes of a system descriptor in 64-bit mode, where all of them lie in the GDT.
#[tactic(auto, using(xe_ctx::proofs::Trees::row_rules), unfolding(crate::specs::Task::read_wide))]
fn read_wide<B: Bus, I: Intercepts>(ctx: &mut Ctx<B, I>, sel: u16) -> Result<u128, Stop>
    requires { HasLeft B.sight ctx.old 5 10 }
    ensures { RunsWithin B.sight I.hits (read_wide (cpu_of ctx.old) sel) ctx.old result ctx.new 5 10 }
{
    if is_in_table(ctx.cpu(), sel, 16) {
        let at = descriptor_address(ctx.cpu(), sel);
        ctx.load_sys(at, 16)
    } else {
        Err(Stop::Fault(selector_fault(ctx.cpu(), GENERAL_PROTECTION, sel)))
    }
}

/// Reads the 8 bytes of a system descriptor outside 64-bit mode, with as many bytes of 0 behind them.
#[tactic(auto, using(xe_ctx::proofs::Trees::row_rules), unfolding(crate::specs::Task::read_narrow))]
fn read_narrow<B: Bus, I: Intercepts>(ctx: &mut Ctx<B, I>, sel: u16) -> Result<u128, Stop>
    requires { HasLeft B.sight ctx.old 5 10 }
    ensures { RunsWithin B.sight I.hits (read_narrow (cpu_of ctx.old) sel) ctx.old result ctx.new 5 10 }
{
    let desc = read_descriptor(ctx, sel)?;
    Ok(desc.raw as u128)
}

/// Reads the 16 bytes that describe a system segment of the GDT, which alone has them.
#[tactic(auto, using(xe_ctx::proofs::Trees::row_rules), unfolding(crate::specs::Task::read_system))]
fn read_system<B: Bus, I: Intercepts>(ctx: &mut Ctx<B, I>, sel: u16) -> Result<u128, Stop>
    requires { HasLeft B.sight ctx.old 5 10 }
    ensures { RunsWithin B.sight I.hits (read_system (cpu_of ctx.old) sel) ctx.old result ctx.new 5 10 }
{
    or_selector(ctx, !is_local(sel), GENERAL_PROTECTION, sel)?;
    if ctx.cpu().is_long() {
        read_wide(ctx, sel)
    } else {
        read_narrow(ctx, sel)
    }
}

/// Bytes 0 to 7 of a system descriptor.
fn low_part(raw: u128) -> Descriptor
    ensures { result ≡ low_part raw }
{
    Descriptor {
        raw: (raw % (1 << 64)) as u64,
    }
}

/// The base of a system segment, whose bits 63:32 are bytes 8 to 11.
fn system_base(raw: u128) -> u64
    ensures { result ≡ system_base raw }
{
    let high = ((raw >> 64) % (1 << 32)) as u64;
    low_part(raw).base() + high * (1 << 32)
}

/// Bits 12:8 of the number in bytes 12 to 15 of a system descriptor.
fn upper_kind(raw: u128) -> u8
    ensures { result ≡ upper_kind raw }
{
    ((raw >> 104) % (1 << 5)) as u8
}

/// Whether it is a system segment of this type.
fn is_system(raw: u128, kind: u8) -> bool
    ensures { result ≡ is_system raw kind }
{
    let desc = low_part(raw);
    !desc.s() && desc.kind() == kind
}

/// The register that a system descriptor gives, with these attributes.
fn system_segment(sel: u16, raw: u128, attr: u16) -> Seg
    ensures { result ≡ system_segment sel raw attr }
{
    Seg {
        sel,
        base: system_base(raw),
        limit: low_part(raw).limit(),
        attr,
    }
}

/// Loads LDTR by a descriptor of an LDT.
#[tactic(auto, using(xe_ctx::proofs::Trees::row_rules), unfolding(crate::specs::Task::load_ldt))]
fn load_ldt<B: Bus, I: Intercepts>(ctx: &mut Ctx<B, I>, cpu: &mut Cpu, sel: u16) -> Result<(), Stop>
    requires ready { HasLeft B.sight ctx.old 5 10 }
    requires draft { cpu.old ≡ cpu_of ctx.old }
    ensures { DraftsWithin B.sight I.hits (load_ldt cpu.old sel) ctx.old result cpu.new ctx.new 5 10 }
{
    let raw = read_system(ctx, sel)?;
    let has_base = ctx.cpu().is_base(system_base(raw));
    or_selector(ctx, has_base, GENERAL_PROTECTION, sel)?;
    or_selector(ctx, is_system(raw, 2), GENERAL_PROTECTION, sel)?;
    let desc = low_part(raw);
    or_selector(ctx, desc.present(), SEGMENT_NOT_PRESENT, sel)?;
    cpu.ldtr = system_segment(sel, raw, desc.attr());
    Ok(())
}

/// Loads LDTR: by a descriptor, or by a null selector, after which there is no LDT.
#[tactic(auto, using(xe_ctx::proofs::Trees::row_rules), unfolding(crate::specs::Task::load_ldtr))]
fn load_ldtr<B: Bus, I: Intercepts>(
    ctx: &mut Ctx<B, I>,
    cpu: &mut Cpu,
    sel: u16,
) -> Result<(), Stop>
    requires ready { HasLeft B.sight ctx.old 5 10 }
    requires draft { cpu.old ≡ cpu_of ctx.old }
    ensures { DraftsWithin B.sight I.hits (load_ldtr cpu.old sel) ctx.old result cpu.new ctx.new 5 10 }
{
    if is_null(sel) {
        cpu.ldtr.sel = sel;
        cpu.ldtr.attr = 0;
        Ok(())
    } else {
        load_ldt(ctx, cpu, sel)
    }
}

/// LLDT (SDM volume 2, "LLDT—Load Local Descriptor Table Register").
pub fn lldt<B: Bus, I: Intercepts>(
    insn: &Insn,
    ctx: &mut Ctx<B, I>,
    cpu: &mut Cpu,
) -> Result<End, Stop>
    requires { IsReady B.sight insn.now ctx.old cpu.old 9 20 }
    ensures { Finishes B.sight I.hits (lldt_row insn.now (cpu_of ctx.old)) ctx.old result cpu.new ctx.new }
{
    outside_real_mode(ctx)?;
    at_level_0(ctx)?;
    ctx.point(&Point::TableWrite { t: TableName::Ldtr })?;
    let value = read_operand(insn, ctx, operand_of(insn, cpu), 2)?;
    load_ldtr(ctx, cpu, selector(value))?;
    Ok(done(insn, cpu))
}

/// Attributes, or their lower byte, of a TSS that is busy.
fn busy(attr: u16) -> u16
    requires { attr < 2 ^ 12 }
    ensures { result ≡ busy attr }
{
    attr - attr / 2 % 2 * 2 + 2
}

/// Whether it is an available TSS.
fn is_available(cpu: &Cpu, raw: u128) -> bool
    ensures { result ≡ is_available cpu.now raw }
{
    is_system(raw, 9) || (!cpu.lma() && is_system(raw, 1))
}

/// Byte 5 of the descriptor of a TSS that becomes busy.
fn busy_byte(desc: &Descriptor) -> u8
    ensures { result ≡ busy (access_byte desc.now) }
{
    let byte = ((desc.raw >> 40) % (1 << 8)) as u16;
    busy(byte) as u8
}

/// Loads TR by the descriptor of an available TSS, which becomes busy.
#[tactic(auto, using(xe_ctx::proofs::Trees::row_rules), unfolding(crate::specs::Task::load_tss))]
fn load_tss<B: Bus, I: Intercepts>(ctx: &mut Ctx<B, I>, cpu: &mut Cpu, sel: u16) -> Result<(), Stop>
    requires ready { HasLeft B.sight ctx.old 6 21 }
    requires draft { cpu.old ≡ cpu_of ctx.old }
    ensures { DraftsWithin B.sight I.hits (load_tss cpu.old sel) ctx.old result cpu.new ctx.new 6 21 }
{
    let raw = read_system(ctx, sel)?;
    or_selector(ctx, upper_kind(raw) == 0, GENERAL_PROTECTION, sel)?;
    let has_base = ctx.cpu().is_base(system_base(raw));
    or_selector(ctx, has_base, GENERAL_PROTECTION, sel)?;
    let available = is_available(ctx.cpu(), raw);
    or_selector(ctx, available, GENERAL_PROTECTION, sel)?;
    let desc = low_part(raw);
    or_selector(ctx, desc.present(), SEGMENT_NOT_PRESENT, sel)?;
    let at = descriptor_address(ctx.cpu(), sel).wrapping_add(5);
    ctx.store_sys(at, 1, busy_byte(&desc) as u128)?;
    cpu.tr = system_segment(sel, raw, busy(desc.attr()));
    Ok(())
}

/// LTR (SDM volume 2, "LTR—Load Task Register").
pub fn ltr<B: Bus, I: Intercepts>(
    insn: &Insn,
    ctx: &mut Ctx<B, I>,
    cpu: &mut Cpu,
) -> Result<End, Stop>
    requires { IsReady B.sight insn.now ctx.old cpu.old 10 31 }
    ensures { Finishes B.sight I.hits (ltr_row insn.now (cpu_of ctx.old)) ctx.old result cpu.new ctx.new }
{
    outside_real_mode(ctx)?;
    at_level_0(ctx)?;
    ctx.point(&Point::TableWrite { t: TableName::Tr })?;
    let value = read_operand(insn, ctx, operand_of(insn, cpu), 2)?;
    let sel = selector(value);
    or_protection(ctx, !is_null(sel))?;
    load_tss(ctx, cpu, sel)?;
    Ok(done(insn, cpu))
}
