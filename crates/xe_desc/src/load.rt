//! Loads of segment registers, and what MOV stores of them.
#![tactic(auto, using(xe_ctx::proofs::Trees::row_rules))]

ghost use Rattle.std.specs.Prelude.{◌≡◌, ◌≢◌, IfSome, false};
ghost use Rattle.xe_ctx.specs.Contract.{ℕ, IsTrue, is_size, IsOf, HasLeft, IsReady, Finishes, RunsWithin, DraftsWithin, IsOperand, cpu_of};
ghost use Rattle.xe_base.specs.Registers.{next_rip};
ghost use Rattle.xe_desc.specs.Load.{or_fault, load_described, reads_descriptor, load_segment, with_segment, selector, retire_of, segment_named, not_code, sreg, selector_size, store_selector, from_segment, to_segment, movseg_row, popped_segment, popseg_row, offset_behind, far_pointer_at, far_pointer_row};

use crate::descriptor_table::{mark_accessed, read_descriptor};
use xe_base::access::INVALID_OPCODE;
use xe_base::{Cpu, Fault, Seg, SegName};
use xe_ctx::operand::{
    Operand, done, operand_of, read_operand, reg_of, write_operand, write_register,
};
use xe_ctx::privilege::is_real;
use xe_ctx::stack::{release, stack_load};
use xe_ctx::{Bus, Ctx, End, Stop};
use xe_icpt::Intercepts;
use xe_opmap::Insn;
use xe_seg::loads::is_null;
use xe_seg::{Descriptor, check_load};

/// Goes on with the segment that a check gives, or ends with its fault.
#[tactic(auto, using(xe_ctx::proofs::Trees::row_rules), unfolding(crate::specs::Load::or_fault))]
fn or_fault<B: Bus, I: Intercepts>(
    ctx: &mut Ctx<B, I>,
    judged: Result<Seg, Fault>,
) -> Result<Seg, Stop>
    requires { HasLeft B.sight ctx.old 0 0 }
    ensures { RunsWithin B.sight I.hits (or_fault judged) ctx.old result ctx.new 0 0 }
{
    let _ = &ctx;
    match judged {
        Ok(segment) => Ok(segment),
        Err(fault) => Err(Stop::Fault(fault)),
    }
}

/// A load by a descriptor, which gets its accessed bit once all checks have passed.
#[tactic(auto, using(xe_ctx::proofs::Trees::row_rules), unfolding(crate::specs::Load::load_described))]
fn load_described<B: Bus, I: Intercepts>(
    ctx: &mut Ctx<B, I>,
    seg: SegName,
    sel: u16,
) -> Result<Seg, Stop>
    requires ready { HasLeft B.sight ctx.old 5 21 }
    requires seg { seg ≢ SegName.Cs }
    ensures { RunsWithin B.sight I.hits (load_described (cpu_of ctx.old) seg sel) ctx.old result ctx.new 5 21 }
{
    let desc = read_descriptor(ctx, sel)?;
    let judged = check_load(ctx.cpu(), seg, sel, desc);
    let segment = or_fault(ctx, judged)?;
    mark_accessed(ctx, sel, &desc)?;
    Ok(segment)
}

/// Whether a load reads a descriptor: neither in real mode nor for a null selector.
fn reads_descriptor(cpu: &Cpu, sel: u16) -> bool
    ensures { result ≡ reads_descriptor cpu.now sel }
{
    !is_real(cpu) && !is_null(sel)
}

/// What a segment register other than CS holds after the load of a selector.
#[tactic(auto, using(xe_ctx::proofs::Trees::row_rules), unfolding(crate::specs::Load::load_segment))]
fn load_segment<B: Bus, I: Intercepts>(
    ctx: &mut Ctx<B, I>,
    seg: SegName,
    sel: u16,
) -> Result<Seg, Stop>
    requires ready { HasLeft B.sight ctx.old 5 21 }
    requires seg { seg ≢ SegName.Cs }
    ensures { RunsWithin B.sight I.hits (load_segment (cpu_of ctx.old) seg sel) ctx.old result ctx.new 5 21 }
{
    if reads_descriptor(ctx.cpu(), sel) {
        load_described(ctx, seg, sel)
    } else {
        let judged = check_load(ctx.cpu(), seg, sel, Descriptor { raw: 0 });
        or_fault(ctx, judged)
    }
}

/// Writes a segment register; CS isn't loaded so.
fn set_segment(cpu: &mut Cpu, seg: SegName, segment: Seg)
    ensures { cpu.new ≡ with_segment cpu.old seg segment }
{
    match seg {
        SegName::Es => cpu.es = segment,
        SegName::Cs => {}
        SegName::Ss => cpu.ss = segment,
        SegName::Ds => cpu.ds = segment,
        SegName::Fs => cpu.fs = segment,
        SegName::Gs => cpu.gs = segment,
    }
}

/// The low two bytes of a number.
pub fn selector(value: u64) -> u16
    ensures { result ≡ selector value }
{
    (value % (1 << 16)) as u16
}

/// What the retirement of MOV and POP brings with it: after a load of SS no interrupt is taken.
fn retire_of(seg: SegName) -> u8
    ensures { result ≡ retire_of seg }
{
    match seg {
        SegName::Ss => 2,
        SegName::Es | SegName::Cs | SegName::Ds | SegName::Fs | SegName::Gs => 0,
    }
}

/// A MOV or POP of this segment register is done.
fn done_load(insn: &Insn, cpu: &mut Cpu, seg: SegName) -> End
    ensures registers { cpu.new ≡ record cpu.old { rip = next_rip cpu.old insn.now.len } }
    ensures end { result ≡ record { more = false; retire = retire_of seg } }
{
    End {
        retire: retire_of(seg),
        ..done(insn, cpu)
    }
}

/// The segment register of a number in the encoding.
fn segment_named(number: u8) -> Option<SegName>
    ensures { result ≡ segment_named number }
{
    match number {
        0 => Some(SegName::Es),
        1 => Some(SegName::Cs),
        2 => Some(SegName::Ss),
        3 => Some(SegName::Ds),
        4 => Some(SegName::Fs),
        5 => Some(SegName::Gs),
        _ => None,
    }
}

/// The segment register that MOV loads: not CS.
fn not_code(named: Option<SegName>) -> Option<SegName>
    ensures value { result ≡ not_code named }
    ensures loads { IfSome result (λ seg. seg ≢ SegName.Cs) }
{
    match named {
        Some(SegName::Cs) => None,
        other => other,
    }
}

/// The segment register of MOV: bits 5:3 of the ModRM byte name it, whatever REX.R is.
fn sreg(insn: &Insn, cpu: &Cpu) -> Option<SegName>
    requires { IsOf cpu.now insn.now }
    ensures { result ≡ sreg insn.now }
{
    segment_named(reg_of(insn, cpu) % 8)
}

/// The bytes of a selector that is stored: 2 in memory, and the operand size in a register.
fn selector_size(insn: &Insn, cpu: &Cpu, operand: Operand) -> u8
    requires { IsOf cpu.now insn.now }
    ensures value { result ≡ selector_size insn.now operand }
    ensures size { IsTrue (is_size result) }
{
    match operand {
        Operand::Register(_) => insn.opsize,
        Operand::Memory(..) => 2,
    }
}

/// Stores a selector in E: 2 bytes in memory, and zero-extended to the operand size in a register.
#[tactic(auto, using(xe_ctx::proofs::Trees::row_rules), unfolding(crate::specs::Load::store_selector))]
pub fn store_selector<B: Bus, I: Intercepts>(
    insn: &Insn,
    ctx: &mut Ctx<B, I>,
    cpu: &mut Cpu,
    sel: u16,
) -> Result<(), Stop>
    requires ready { HasLeft B.sight ctx.old 4 18 }
    requires insn { IsOf cpu.old insn.now }
    ensures { DraftsWithin B.sight I.hits (store_selector insn.now cpu.old sel) ctx.old result cpu.new ctx.new 4 18 }
{
    let target = operand_of(insn, cpu);
    let size = selector_size(insn, cpu, target);
    write_operand(insn, ctx, cpu, target, size, sel as u64)
}

/// MOV from a segment register: 8C.
fn from_segment<B: Bus, I: Intercepts>(
    insn: &Insn,
    ctx: &mut Ctx<B, I>,
    cpu: &mut Cpu,
    named: Option<SegName>,
) -> Result<End, Stop>
    requires { IsReady B.sight insn.now ctx.old cpu.old 4 18 }
    ensures { Finishes B.sight I.hits (from_segment insn.now (cpu_of ctx.old) named) ctx.old result cpu.new ctx.new }
{
    match named {
        None => Err(Stop::Fault(Fault::plain(INVALID_OPCODE))),
        Some(seg) => {
            let sel = cpu.segment(seg).sel;
            store_selector(insn, ctx, cpu, sel)?;
            Ok(done(insn, cpu))
        }
    }
}

/// MOV to a segment register: 8E.
fn to_segment<B: Bus, I: Intercepts>(
    insn: &Insn,
    ctx: &mut Ctx<B, I>,
    cpu: &mut Cpu,
    named: Option<SegName>,
) -> Result<End, Stop>
    requires ready { IsReady B.sight insn.now ctx.old cpu.old 9 31 }
    requires loads { IfSome named (λ seg. seg ≢ SegName.Cs) }
    ensures { Finishes B.sight I.hits (to_segment insn.now (cpu_of ctx.old) named) ctx.old result cpu.new ctx.new }
{
    match named {
        None => Err(Stop::Fault(Fault::plain(INVALID_OPCODE))),
        Some(seg) => {
            let value = read_operand(insn, ctx, operand_of(insn, cpu), 2)?;
            let segment = load_segment(ctx, seg, selector(value))?;
            set_segment(cpu, seg, segment);
            Ok(done_load(insn, cpu, seg))
        }
    }
}

/// MOV of segment registers (SDM volume 2, "MOV—Move").
pub fn movseg<B: Bus, I: Intercepts>(
    insn: &Insn,
    ctx: &mut Ctx<B, I>,
    cpu: &mut Cpu,
) -> Result<End, Stop>
    requires { IsReady B.sight insn.now ctx.old cpu.old 9 31 }
    ensures { Finishes B.sight I.hits (movseg_row insn.now (cpu_of ctx.old)) ctx.old result cpu.new ctx.new }
{
    let named = sreg(insn, cpu);
    if insn.opcode == 0x8E {
        to_segment(insn, ctx, cpu, not_code(named))
    } else {
        from_segment(insn, ctx, cpu, named)
    }
}

/// The segment register of POP.
fn popped_segment(opcode: u16) -> SegName
    ensures value { result ≡ popped_segment opcode }
    ensures loads { result ≢ SegName.Cs }
{
    match opcode {
        0x07 => SegName::Es,
        0x17 => SegName::Ss,
        0x0FA1 => SegName::Fs,
        0x0FA9 => SegName::Gs,
        _ => SegName::Ds,
    }
}

/// POP of a segment register (SDM volume 2, "POP—Pop a Value From the Stack").
pub fn popseg<B: Bus, I: Intercepts>(
    insn: &Insn,
    ctx: &mut Ctx<B, I>,
    cpu: &mut Cpu,
) -> Result<End, Stop>
    requires { IsReady B.sight insn.now ctx.old cpu.old 9 31 }
    ensures { Finishes B.sight I.hits (popseg_row insn.now (cpu_of ctx.old)) ctx.old result cpu.new ctx.new }
{
    let seg = popped_segment(insn.opcode);
    let value = stack_load(ctx, cpu, 0, insn.opsize)?;
    let segment = load_segment(ctx, seg, selector(value))?;
    release(cpu, insn.opsize as u64);
    set_segment(cpu, seg, segment);
    Ok(done_load(insn, cpu, seg))
}

/// So many bytes behind an offset; it wraps in the address size.
fn offset_behind(insn: &Insn, cpu: &Cpu, offset: u64, n: u8) -> u64
    requires { IsOf cpu.now insn.now }
    ensures { result ≡ offset_behind insn.now offset n }
{
    let sum = offset.wrapping_add(n as u64);
    match insn.adsize {
        2 => sum % (1 << 16),
        4 => sum % (1 << 32),
        8 => sum,
        _ => unreachable!(),
    }
}

/// A far pointer in memory, or in a register, where no form has it.
fn far_pointer_at<B: Bus, I: Intercepts>(
    seg: SegName,
    insn: &Insn,
    ctx: &mut Ctx<B, I>,
    cpu: &mut Cpu,
    operand: Operand,
) -> Result<End, Stop>
    requires ready { IsReady B.sight insn.now ctx.old cpu.old 12 42 }
    requires loads { seg ≢ SegName.Cs }
    ensures { Finishes B.sight I.hits (far_pointer_at seg insn.now (cpu_of ctx.old) operand) ctx.old result cpu.new ctx.new }
{
    match operand {
        Operand::Register(_) => Err(Stop::Fault(Fault::plain(INVALID_OPCODE))),
        Operand::Memory(place, offset) => {
            let size = insn.opsize;
            let pointer = ctx.load(place, offset, size as u32)?;
            let behind = offset_behind(insn, cpu, offset, size);
            let value = ctx.load(place, behind, 2)?;
            let segment = load_segment(ctx, seg, selector(value as u64))?;
            let register = reg_of(insn, cpu);
            write_register(insn, cpu, size, register, pointer as u64);
            set_segment(cpu, seg, segment);
            Ok(done(insn, cpu))
        }
    }
}

/// LES, LDS, LSS, LFS and LGS (SDM volume 2, "LDS/LES/LFS/LGS/LSS—Load Far Pointer").
pub fn far_pointer<B: Bus, I: Intercepts>(
    seg: SegName,
    insn: &Insn,
    ctx: &mut Ctx<B, I>,
    cpu: &mut Cpu,
) -> Result<End, Stop>
    requires ready { IsReady B.sight insn.now ctx.old cpu.old 12 42 }
    requires loads { seg ≢ SegName.Cs }
    ensures { Finishes B.sight I.hits (far_pointer_row seg insn.now (cpu_of ctx.old)) ctx.old result cpu.new ctx.new }
{
    let operand = operand_of(insn, cpu);
    far_pointer_at(seg, insn, ctx, cpu, operand)
}
