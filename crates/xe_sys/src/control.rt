//! Control registers: MOV, SMSW, LMSW and CLTS.
#![tactic(auto, using(xe_ctx::proofs::Trees::row_rules))]

ghost use Rattle.std.specs.Prelude.{◌≡◌, ◌<◌, ◌^◌, IsTrue};
ghost use Rattle.xe_base.specs.Bits.{bit};
ghost use Rattle.xe_icpt.specs.Points.{IsControl, IsPoint};
ghost use Rattle.xe_ctx.specs.Contract.{ℕ, is_size, IsOf, HasLeft, IsReady, RunsWithin, Finishes, DraftsWithin, cpu_of};
ghost use Rattle.xe_sys.specs.Control.{control_of, control_number, control_value, control_size, cr0_of, changes_selected, has_small_tss, may_enter_long, is_cr0_allowed, with_lma, with_cr0, select_point, cr0_written, is_cr4_allowed, control_written, read_control, control_point, write_control, movcr_on, movcr_row, is_in_memory, word_size, smsw_row, with_status_word, lmsw_point, lmsw_row, without_ts, clts_row};

use xe_base::access::INVALID_OPCODE;
use xe_base::{Cpu, Fault};
use xe_ctx::operand::{
    Operand, done, operand_of, read_operand, read_register, reg_of, write_operand, write_register,
};
use xe_ctx::privilege::{at_level_0, or_protection};
use xe_ctx::{Bus, Ctx, End, Stop};
use xe_icpt::{CrKind, Intercepts, Point};
use xe_opmap::Insn;

/// A control register that MOV reaches.
#[derive(Clone, Copy)]
pub enum ControlRegister {
    Cr0,
    Cr2,
    Cr3,
    Cr4,
    Cr8,
}

/// PE, MP, EM, TS, ET, NE, WP, AM, NW, CD and PG: the known bits of CR0.
const CR0_BITS: u64 = 0xE005_003F;
/// ET of CR0, which is always set.
const CR0_ET: u64 = 0x10;
/// TS of CR0.
const CR0_TS: u64 = 8;
/// The known bits of CR0 but MP, ET and TS.
const SELECTED: u64 = 0xE005_0025;
/// TSD, DE, PSE, PAE, MCE, PGE, OSFXSR, OSXMMEXCPT, SMEP and SMAP: the known bits of CR4.
const CR4_BITS: u64 = 0x30_06FC;
/// LMA of EFER.
const EFER_LMA: u64 = 0x400;
/// MP, EM and TS, which LMSW writes; PE it can only set.
const STATUS_BITS: u64 = 0xE;

/// The control register of a number, where there is one.
fn control_of(n: u8) -> Option<ControlRegister>
    ensures { result ≡ control_of n }
{
    match n {
        0 => Some(ControlRegister::Cr0),
        2 => Some(ControlRegister::Cr2),
        3 => Some(ControlRegister::Cr3),
        4 => Some(ControlRegister::Cr4),
        8 => Some(ControlRegister::Cr8),
        _ => None,
    }
}

/// The number of a control register.
fn control_number(control: ControlRegister) -> u8
    ensures value { result ≡ control_number control }
    ensures control { IsControl result }
{
    match control {
        ControlRegister::Cr0 => 0,
        ControlRegister::Cr2 => 2,
        ControlRegister::Cr3 => 3,
        ControlRegister::Cr4 => 4,
        ControlRegister::Cr8 => 8,
    }
}

/// What a control register holds.
fn control_value(cpu: &Cpu, control: ControlRegister) -> u64
    ensures { result ≡ control_value cpu.now control }
{
    match control {
        ControlRegister::Cr0 => cpu.cr0,
        ControlRegister::Cr2 => cpu.cr2,
        ControlRegister::Cr3 => cpu.cr3,
        ControlRegister::Cr4 => cpu.cr4,
        ControlRegister::Cr8 => cpu.cr8,
    }
}

/// The bytes of MOV's operand: 8 in 64-bit code, else 4, whatever the prefixes say.
fn control_size(cpu: &Cpu) -> u8
    ensures value { result ≡ control_size cpu.now }
    ensures size { IsTrue (is_size result) }
{
    if cpu.is_long() { 8 } else { 4 }
}

/// The bit of a number.
fn bit(value: u64, at: u32) -> bool
    requires { at < 64 }
    ensures { result ≡ bit value at }
{
    value >> at & 1 == 1
}

/// What CR0 gets of a number: of bits 31:0 the known ones, and ET.
fn cr0_of(value: u64) -> u64
    ensures { result ≡ cr0_of value }
{
    value & CR0_BITS | CR0_ET
}

/// Whether a bit of CR0 changes that is looked at by the intercept of some bits.
fn changes_selected(cpu: &Cpu, cr0: u64) -> bool
    ensures { result ≡ changes_selected cpu.now cr0 }
{
    cr0 & SELECTED != cpu.cr0 & SELECTED
}

/// Whether TR holds a TSS of 16 bits, which long mode doesn't have.
fn has_small_tss(cpu: &Cpu) -> bool
    ensures { result ≡ has_small_tss cpu.now }
{
    let kind = cpu.tr.attr % 16;
    kind == 1 || kind == 3
}

/// Whether long mode can begin.
fn may_enter_long(cpu: &Cpu) -> bool
    ensures { result ≡ may_enter_long cpu.now }
{
    bit(cpu.cr4, 5) && !cpu.cs.l() && !has_small_tss(cpu)
}

/// Whether CR0 takes a number, of which this would stay.
fn is_cr0_allowed(cpu: &Cpu, value: u64, cr0: u64) -> bool
    ensures { result ≡ is_cr0_allowed cpu.now value cr0 }
{
    let pages = bit(cr0, 31);
    let enters = pages && !cpu.pg() && bit(cpu.efer, 8);
    let stays = cpu.pg() && cpu.is_long();
    value < 1 << 32
        && (!pages || bit(cr0, 0))
        && (!bit(cr0, 29) || bit(cr0, 30))
        && (!enters || may_enter_long(cpu))
        && (!stays || pages)
}

/// EFER with this LMA.
fn with_lma(efer: u64, active: bool) -> u64
    ensures { result ≡ with_lma efer active }
{
    if active {
        efer | EFER_LMA
    } else {
        efer & !EFER_LMA
    }
}

/// Writes CR0; LMA of EFER follows.
fn set_cr0(cpu: &mut Cpu, cr0: u64)
    ensures { cpu.new ≡ with_cr0 cpu.old cr0 }
{
    let active = bit(cpu.efer, 8) && bit(cr0, 31);
    cpu.cr0 = cr0;
    cpu.efer = with_lma(cpu.efer, active);
}

/// What is intercepted where some bits of CR0 change.
#[tactic(auto, using(xe_ctx::proofs::Trees::row_rules), unfolding(crate::specs::Control::select_point))]
fn select_point<B: Bus, I: Intercepts>(ctx: &mut Ctx<B, I>, cpu: &Cpu, cr0: u64) -> Result<(), Stop>
    requires { HasLeft B.sight ctx.old 0 0 }
    ensures { RunsWithin B.sight I.hits (select_point cpu.now cr0) ctx.old result ctx.new 0 0 }
{
    if changes_selected(cpu, cr0) {
        ctx.point(&Point::Cr0Sel)
    } else {
        Ok(())
    }
}

/// Writes a number to CR0, of which this stays.
#[tactic(auto, using(xe_ctx::proofs::Trees::row_rules), unfolding(crate::specs::Control::cr0_written))]
fn write_cr0<B: Bus, I: Intercepts>(
    ctx: &mut Ctx<B, I>,
    cpu: &mut Cpu,
    value: u64,
    cr0: u64,
) -> Result<(), Stop>
    requires ready { HasLeft B.sight ctx.old 0 0 }
    requires draft { cpu.old ≡ cpu_of ctx.old }
    ensures { DraftsWithin B.sight I.hits (cr0_written cpu.old value cr0) ctx.old result cpu.new ctx.new 0 0 }
{
    select_point(ctx, cpu, cr0)?;
    or_protection(ctx, is_cr0_allowed(cpu, value, cr0))?;
    set_cr0(cpu, cr0);
    Ok(())
}

/// Whether CR4 takes a number: known bits alone, and PAE in long mode.
fn is_cr4_allowed(cpu: &Cpu, value: u64) -> bool
    ensures { result ≡ is_cr4_allowed cpu.now value }
{
    value & !CR4_BITS == 0 && (!cpu.lma() || bit(value, 5))
}

/// Writes a control register. `cpu` is still the state at the start of the step.
#[tactic(auto, using(xe_ctx::proofs::Trees::row_rules), unfolding(crate::specs::Control::control_written))]
fn set_control<B: Bus, I: Intercepts>(
    ctx: &mut Ctx<B, I>,
    cpu: &mut Cpu,
    control: ControlRegister,
    value: u64,
) -> Result<(), Stop>
    requires ready { HasLeft B.sight ctx.old 0 0 }
    requires draft { cpu.old ≡ cpu_of ctx.old }
    ensures { DraftsWithin B.sight I.hits (control_written cpu.old control value) ctx.old result cpu.new ctx.new 0 0 }
{
    match control {
        ControlRegister::Cr0 => write_cr0(ctx, cpu, value, cr0_of(value)),
        ControlRegister::Cr2 => {
            cpu.cr2 = value;
            Ok(())
        }
        ControlRegister::Cr3 => {
            or_protection(ctx, value < 1 << 40)?;
            cpu.cr3 = value;
            Ok(())
        }
        ControlRegister::Cr4 => {
            or_protection(ctx, is_cr4_allowed(cpu, value))?;
            cpu.cr4 = value;
            Ok(())
        }
        ControlRegister::Cr8 => {
            or_protection(ctx, value <= 15)?;
            cpu.cr8 = value;
            Ok(())
        }
    }
}

/// MOV from a control register.
fn read_control<B: Bus, I: Intercepts>(
    insn: &Insn,
    ctx: &mut Ctx<B, I>,
    cpu: &mut Cpu,
    control: ControlRegister,
    register: u8,
) -> Result<End, Stop>
    requires ready { IsReady B.sight insn.now ctx.old cpu.old 0 0 }
    requires register { register < 16 }
    ensures { Finishes B.sight I.hits (read_control insn.now (cpu_of ctx.old) control register) ctx.old result cpu.new ctx.new }
{
    at_level_0(ctx)?;
    ctx.point(&Point::CrRead {
        n: control_number(control),
        reg: register,
    })?;
    let value = control_value(cpu, control);
    write_register(insn, cpu, control_size(cpu), register, value);
    Ok(done(insn, cpu))
}

/// What MOV to a control register is about to do.
fn control_point(control: ControlRegister, register: u8, value: u64) -> Point
    requires { register < 16 }
    ensures value { result ≡ control_point control register value }
    ensures well_formed { IsPoint result }
{
    Point::CrWrite {
        n: control_number(control),
        reg: register,
        kind: CrKind::Mov,
        value,
        mem: false,
    }
}

/// MOV to a control register.
fn write_control<B: Bus, I: Intercepts>(
    insn: &Insn,
    ctx: &mut Ctx<B, I>,
    cpu: &mut Cpu,
    control: ControlRegister,
    register: u8,
) -> Result<End, Stop>
    requires ready { IsReady B.sight insn.now ctx.old cpu.old 0 0 }
    requires register { register < 16 }
    ensures { Finishes B.sight I.hits (write_control insn.now (cpu_of ctx.old) control register) ctx.old result cpu.new ctx.new }
{
    let value = read_register(insn, cpu, control_size(cpu), register);
    at_level_0(ctx)?;
    ctx.point(&control_point(control, register, value))?;
    set_control(ctx, cpu, control, value)?;
    Ok(done(insn, cpu))
}

/// MOV between this control register, where there is one, and a general register.
fn move_control<B: Bus, I: Intercepts>(
    insn: &Insn,
    ctx: &mut Ctx<B, I>,
    cpu: &mut Cpu,
    control: Option<ControlRegister>,
    register: u8,
) -> Result<End, Stop>
    requires ready { IsReady B.sight insn.now ctx.old cpu.old 0 0 }
    requires register { register < 16 }
    ensures { Finishes B.sight I.hits (movcr_on insn.now (cpu_of ctx.old) register control) ctx.old result cpu.new ctx.new }
{
    match control {
        None => Err(Stop::Fault(Fault::plain(INVALID_OPCODE))),
        Some(control) => {
            if insn.opcode == 0x0F20 {
                read_control(insn, ctx, cpu, control, register)
            } else {
                write_control(insn, ctx, cpu, control, register)
            }
        }
    }
}

/// MOV to and from control registers (SDM volume 2, "MOV—Move to/from Control Registers").
pub fn movcr<B: Bus, I: Intercepts>(
    insn: &Insn,
    ctx: &mut Ctx<B, I>,
    cpu: &mut Cpu,
) -> Result<End, Stop>
    requires { IsReady B.sight insn.now ctx.old cpu.old 0 0 }
    ensures { Finishes B.sight I.hits (movcr_row insn.now (cpu_of ctx.old)) ctx.old result cpu.new ctx.new }
{
    let control = control_of(reg_of(insn, cpu));
    match operand_of(insn, cpu) {
        Operand::Register(register) => move_control(insn, ctx, cpu, control, register),
        Operand::Memory(..) => Err(Stop::Fault(Fault::plain(INVALID_OPCODE))),
    }
}

/// Whether an operand lies in memory.
fn is_in_memory(operand: Operand) -> bool
    ensures { result ≡ is_in_memory operand }
{
    match operand {
        Operand::Register(_) => false,
        Operand::Memory(..) => true,
    }
}

/// The bytes that SMSW writes.
fn word_size(insn: &Insn, cpu: &Cpu, operand: Operand) -> u8
    requires { IsOf cpu.now insn.now }
    ensures value { result ≡ word_size insn.now operand }
    ensures size { IsTrue (is_size result) }
{
    match operand {
        Operand::Register(_) => insn.opsize,
        Operand::Memory(..) => 2,
    }
}

/// SMSW (SDM volume 2, "SMSW—Store Machine Status Word"), at every level.
pub fn smsw<B: Bus, I: Intercepts>(
    insn: &Insn,
    ctx: &mut Ctx<B, I>,
    cpu: &mut Cpu,
) -> Result<End, Stop>
    requires { IsReady B.sight insn.now ctx.old cpu.old 4 18 }
    ensures { Finishes B.sight I.hits (smsw_row insn.now (cpu_of ctx.old)) ctx.old result cpu.new ctx.new }
{
    let target = operand_of(insn, cpu);
    let size = word_size(insn, cpu, target);
    let cr0 = cpu.cr0;
    ctx.point(&Point::CrRead { n: 0, reg: 0 })?;
    write_operand(insn, ctx, cpu, target, size, cr0)?;
    Ok(done(insn, cpu))
}

/// What LMSW is about to do.
fn lmsw_point(operand: Operand, value: u64) -> Point
    requires { value < 2 ^ 16 }
    ensures value { result ≡ lmsw_point operand value }
    ensures well_formed { IsPoint result }
{
    Point::CrWrite {
        n: 0,
        reg: 0,
        kind: CrKind::Lmsw,
        value,
        mem: is_in_memory(operand),
    }
}

/// Writes MP, EM and TS, and PE where the number has it.
fn set_status_word(cpu: &mut Cpu, value: u64)
    ensures { cpu.new ≡ with_status_word cpu.old value }
{
    cpu.cr0 = cpu.cr0 & !STATUS_BITS | value & 0xF;
}

/// LMSW (SDM volume 2, "LMSW—Load Machine Status Word").
pub fn lmsw<B: Bus, I: Intercepts>(
    insn: &Insn,
    ctx: &mut Ctx<B, I>,
    cpu: &mut Cpu,
) -> Result<End, Stop>
    requires { IsReady B.sight insn.now ctx.old cpu.old 4 10 }
    ensures { Finishes B.sight I.hits (lmsw_row insn.now (cpu_of ctx.old)) ctx.old result cpu.new ctx.new }
{
    let source = operand_of(insn, cpu);
    at_level_0(ctx)?;
    let value = read_operand(insn, ctx, source, 2)? % (1 << 16);
    ctx.point(&lmsw_point(source, value))?;
    ctx.point(&Point::Cr0Sel)?;
    set_status_word(cpu, value);
    Ok(done(insn, cpu))
}

/// CLTS (SDM volume 2, "CLTS—Clear Task-Switched Flag in CR0").
pub fn clts<B: Bus, I: Intercepts>(
    insn: &Insn,
    ctx: &mut Ctx<B, I>,
    cpu: &mut Cpu,
) -> Result<End, Stop>
    requires { IsReady B.sight insn.now ctx.old cpu.old 0 0 }
    ensures { Finishes B.sight I.hits (clts_row insn.now (cpu_of ctx.old)) ctx.old result cpu.new ctx.new }
{
    at_level_0(ctx)?;
    ctx.point(&Point::CrWrite {
        n: 0,
        reg: 0,
        kind: CrKind::Clts,
        value: 0,
        mem: false,
    })?;
    cpu.cr0 = cpu.cr0 & !CR0_TS;
    Ok(done(insn, cpu))
}
