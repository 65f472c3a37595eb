//! The descriptor of a selector: where it lies, its reading, and its accessed bit (SDM volume 3, "Segment
//! Descriptor Tables").
#![tactic(auto, using(xe_ctx::proofs::Trees::row_rules))]

ghost use Rattle.std.specs.Prelude.{◌≡◌, ◌<◌, ◌≤◌, ◌^◌};
ghost use Rattle.xe_ctx.specs.Contract.{HasLeft, RunsWithin, cpu_of};
ghost use Rattle.xe_desc.specs.DescriptorTable.{is_local, offset_in_table, descriptor_address, is_in_table, fetch_descriptor, read_descriptor, is_fresh, accessed_byte, mark_accessed};

use xe_base::Cpu;
use xe_base::access::GENERAL_PROTECTION;
use xe_ctx::{Bus, Ctx, Stop};
use xe_icpt::Intercepts;
use xe_seg::Descriptor;
use xe_seg::loads::selector_fault;

/// TI: whether the selector names a descriptor of the LDT, and otherwise one of the GDT.
pub fn is_local(sel: u16) -> bool
    ensures { result ≡ is_local sel }
{
    sel >> 2 & 1 == 1
}

/// Where a descriptor begins in its table.
fn offset_in_table(sel: u16) -> u64
    ensures { result ≡ offset_in_table sel }
{
    (sel - sel % 8) as u64
}

/// The linear address of a descriptor's first byte.
pub fn descriptor_address(cpu: &Cpu, sel: u16) -> u64
    ensures { result ≡ descriptor_address cpu.now sel }
{
    let base = if is_local(sel) {
        cpu.ldtr.base
    } else {
        cpu.gdtr.base
    };
    base.wrapping_add(offset_in_table(sel))
}

/// Whether `n` bytes from a descriptor's first on lie in its table, which has one byte more than its limit
/// says. An LDT that isn't present has none.
pub fn is_in_table(cpu: &Cpu, sel: u16, n: u32) -> bool
    requires { n ≤ 16 }
    ensures { result ≡ is_in_table cpu.now sel n }
{
    let end = offset_in_table(sel) + n as u64;
    if is_local(sel) {
        cpu.ldtr.attr >> 7 & 1 == 1 && end <= cpu.ldtr.limit as u64 + 1
    } else {
        end <= cpu.gdtr.limit as u64 + 1
    }
}

/// Reads the descriptor of a selector that is known to lie in its table.
#[tactic(auto, using(xe_ctx::proofs::Trees::row_rules), unfolding(crate::specs::DescriptorTable::fetch_descriptor))]
pub fn fetch_descriptor<B: Bus, I: Intercepts>(
    ctx: &mut Ctx<B, I>,
    sel: u16,
) -> Result<Descriptor, Stop>
    requires { HasLeft B.sight ctx.old 4 10 }
    ensures { RunsWithin B.sight I.hits (fetch_descriptor (cpu_of ctx.old) sel) ctx.old result ctx.new 4 10 }
{
    let at = descriptor_address(ctx.cpu(), sel);
    let raw = ctx.load_sys(at, 8)?;
    Ok(Descriptor { raw: raw as u64 })
}

/// Reads the descriptor of a selector; past its table it is #GP(selector).
#[tactic(auto, using(xe_ctx::proofs::Trees::row_rules), unfolding(crate::specs::DescriptorTable::read_descriptor))]
pub fn read_descriptor<B: Bus, I: Intercepts>(
    ctx: &mut Ctx<B, I>,
    sel: u16,
) -> Result<Descriptor, Stop>
    requires { HasLeft B.sight ctx.old 4 10 }
    ensures { RunsWithin B.sight I.hits (read_descriptor (cpu_of ctx.old) sel) ctx.old result ctx.new 4 10 }
{
    if is_in_table(ctx.cpu(), sel, 8) {
        fetch_descriptor(ctx, sel)
    } else {
        Err(Stop::Fault(selector_fault(ctx.cpu(), GENERAL_PROTECTION, sel)))
    }
}

/// Whether a code or data segment's descriptor hasn't the accessed bit yet.
fn is_fresh(desc: &Descriptor) -> bool
    ensures { result ≡ is_fresh desc.now }
{
    desc.s() && desc.raw >> 40 & 1 == 0
}

/// Byte 5 of a descriptor as it was read, with the accessed bit.
fn accessed_byte(desc: &Descriptor) -> u8
    ensures { result ≡ accessed_byte desc.now }
{
    let byte = (desc.raw >> 40) % (1 << 8);
    (byte - byte % 2 + 1) as u8
}

/// Sets the accessed bit of a descriptor that was read, where it is a code or data segment's and clear: one
/// system store of a byte.
#[tactic(auto, using(xe_ctx::proofs::Trees::row_rules), unfolding(crate::specs::DescriptorTable::mark_accessed))]
pub fn mark_accessed<B: Bus, I: Intercepts>(
    ctx: &mut Ctx<B, I>,
    sel: u16,
    desc: &Descriptor,
) -> Result<(), Stop>
    requires { HasLeft B.sight ctx.old 1 11 }
    ensures { RunsWithin B.sight I.hits (mark_accessed (cpu_of ctx.old) sel desc.now) ctx.old result ctx.new 1 11 }
{
    if is_fresh(desc) {
        let at = descriptor_address(ctx.cpu(), sel).wrapping_add(5);
        ctx.store_sys(at, 1, accessed_byte(desc) as u128)
    } else {
        Ok(())
    }
}
