//! The load of a data or stack segment register from a selector and its descriptor.

ghost use Rattle.std.specs.Prelude.{◌≡◌, ◌≢◌};
ghost use Rattle.xe_seg.specs.Loads.{rpl_of, is_null, selector_fault, null_segment, accessed, loaded, real_segment, data_load, is_null_stack, stack_load, protected_load, load};

use crate::accesses::protection_fault;
use crate::attributes::{is_conforming, is_readable, is_writable};
use crate::descriptor::Descriptor;
use xe_base::access::{GENERAL_PROTECTION, SEGMENT_NOT_PRESENT, STACK_FAULT};
use xe_base::{Cpu, Fault, Mode, Seg, SegName};

/// RPL: the privilege level that a selector asks for.
pub fn rpl(sel: u16) -> u8
    ensures { result ≡ rpl_of sel }
{
    (sel % 4) as u8
}

/// Whether a selector is null, whatever its RPL.
pub fn is_null(sel: u16) -> bool
    ensures { result ≡ is_null sel }
{
    sel / 4 == 0
}

/// An exception whose error code is the selector without its RPL.
pub fn selector_fault(cpu: &Cpu, vector: u8, sel: u16) -> Fault
    ensures { result ≡ selector_fault cpu.now vector sel }
{
    Fault::with_code(cpu.mode(), vector, (sel - sel % 4) as u32)
}

/// The register after the load of a null selector.
pub fn null_segment(sel: u16) -> Seg
    ensures { result ≡ null_segment sel }
{
    Seg {
        sel,
        base: 0,
        limit: 0,
        attr: 0,
    }
}

/// The attributes with the accessed bit set.
pub fn accessed(attr: u16) -> u16
    ensures { result ≡ accessed attr }
{
    attr - attr % 2 + 1
}

/// The register after the load of a code or data segment.
pub fn loaded(sel: u16, desc: &Descriptor) -> Seg
    ensures { result ≡ loaded sel desc.now }
{
    Seg {
        sel,
        base: desc.base(),
        limit: desc.limit(),
        attr: accessed(desc.attr()),
    }
}

/// A load of DS, ES, FS or GS outside real mode.
fn data_load(cpu: &Cpu, sel: u16, desc: &Descriptor) -> Result<Seg, Fault>
    ensures { result ≡ data_load cpu.now sel desc.now }
{
    if is_null(sel) {
        return Ok(null_segment(sel));
    }
    let attr = desc.attr();
    if !desc.s() || !is_readable(attr) {
        return Err(selector_fault(cpu, GENERAL_PROTECTION, sel));
    }
    if !is_conforming(attr) && (desc.dpl() < rpl(sel) || desc.dpl() < cpu.cpl) {
        return Err(selector_fault(cpu, GENERAL_PROTECTION, sel));
    }
    if !desc.present() {
        return Err(selector_fault(cpu, SEGMENT_NOT_PRESENT, sel));
    }
    Ok(loaded(sel, desc))
}

/// Whether a null selector serves as a stack.
fn is_null_stack(cpu: &Cpu, sel: u16) -> bool
    ensures { result ≡ is_null_stack cpu.now sel }
{
    cpu.is_long() && cpu.cpl < 3 && rpl(sel) == cpu.cpl
}

/// A load of SS outside real mode.
fn stack_load(cpu: &Cpu, sel: u16, desc: &Descriptor) -> Result<Seg, Fault>
    ensures { result ≡ stack_load cpu.now sel desc.now }
{
    if is_null(sel) {
        return if is_null_stack(cpu, sel) {
            Ok(null_segment(sel))
        } else {
            Err(protection_fault(cpu))
        };
    }
    if rpl(sel) != cpu.cpl {
        return Err(selector_fault(cpu, GENERAL_PROTECTION, sel));
    }
    if !desc.s() || !is_writable(desc.attr()) {
        return Err(selector_fault(cpu, GENERAL_PROTECTION, sel));
    }
    if desc.dpl() != cpu.cpl {
        return Err(selector_fault(cpu, GENERAL_PROTECTION, sel));
    }
    if !desc.present() {
        return Err(selector_fault(cpu, STACK_FAULT, sel));
    }
    Ok(loaded(sel, desc))
}

/// A load outside real mode, by the register.
fn protected_load(cpu: &Cpu, seg: SegName, sel: u16, desc: &Descriptor) -> Result<Seg, Fault>
    ensures { result ≡ protected_load cpu.now seg sel desc.now }
{
    match seg {
        SegName::Ss => stack_load(cpu, sel, desc),
        SegName::Es | SegName::Cs | SegName::Ds | SegName::Fs | SegName::Gs => data_load(
            cpu, sel, desc,
        ),
    }
}

/// What a segment register other than CS holds after the load of a selector with this descriptor; or
/// the exception that the load raises (SDM volume 3, "Privilege Level Checking When Accessing Data
/// Segments"; the order of the checks and the exception of each are this project's choice). The first
/// check that fails decides:
///
/// - In real mode there is none: the base is the selector times 16, limit and attributes stay.
/// - DS, ES, FS and GS: a null selector is accepted, with base, limit and attributes 0. The segment is data
///   or code that can be read, and unless it is conforming code, neither RPL nor CPL is above its DPL: else
///   #GP(selector). It is present, else #NP(selector).
/// - SS: a null selector is accepted in 64-bit mode where CPL is below 3 and RPL is CPL, and is else #GP(0).
///   The segment is writable data, and RPL and DPL are CPL: else #GP(selector). It is present, else #SS(selector).
///
/// An error code is the selector without its RPL. The loaded attributes have the accessed bit set.
/// Neither the descriptor of a null selector nor, in real mode, any descriptor is looked at.
#[tactic(auto, unfolding(crate::specs::Loads::load))]
pub fn check_load(cpu: &Cpu, seg: SegName, sel: u16, desc: Descriptor) -> Result<Seg, Fault>
    requires { seg ≢ SegName.Cs }
    ensures { result ≡ load cpu.now seg sel desc }
{
    match cpu.mode() {
        Mode::Real => Ok(Seg {
            sel,
            base: sel as u64 * 16,
            ..cpu.segment(seg)
        }),
        Mode::Protected | Mode::Compat | Mode::Long => protected_load(cpu, seg, sel, &desc),
    }
}
