//! Whether a whole instruction is valid.

ghost use Rattle.std.specs.Prelude.{◌≡◌};
ghost use Rattle.xe_opmap.specs.Encoding.{is_memory, is_control, wrong_operand, is_wrong, ends_outside, has_modrm};

use crate::form::{InsnForm, OperandKind};
use xe_modrm::{ModRm, Prefixes};

/// Whether an operand is in memory.
#[inline(always)]
fn is_memory(modrm: &Option<ModRm>) -> bool
    ensures { result ≡ is_memory modrm.now }
{
    match modrm {
        Some(modrm) => modrm.md != 3,
        None => false,
    }
}

/// Whether there is a control register of this number.
#[inline(always)]
fn is_control(n: u8) -> bool
    ensures { result ≡ is_control n }
{
    matches!(n, 0 | 2 | 3 | 4 | 8)
}

/// Whether an operand is of a kind that its row doesn't have.
#[inline(always)]
fn wrong_operand(kind: OperandKind, modrm: &Option<ModRm>) -> bool
    ensures { result ≡ wrong_operand kind modrm.now }
{
    let Some(modrm) = modrm else {
        return false;
    };
    match kind {
        OperandKind::Nothing | OperandKind::Any | OperandKind::MemoryOnly => false,
        OperandKind::Memory => modrm.md == 3,
        OperandKind::FromSegment => modrm.reg % 8 >= 6,
        OperandKind::ToSegment => (modrm.reg % 8 >= 6) | (modrm.reg % 8 == 1),
        OperandKind::Control => !is_control(modrm.reg),
    }
}

/// Whether LOCK isn't allowed, or the operand is of a wrong kind.
#[inline(always)]
pub fn is_wrong(pre: &Prefixes, form: &InsnForm, modrm: &Option<ModRm>) -> bool
    ensures { result ≡ is_wrong pre.now form.now modrm.now }
{
    let locked = form.lock & is_memory(modrm);
    (pre.lock & !locked) | wrong_operand(form.operand, modrm)
}

/// Whether no row goes on with an operand.
#[inline(always)]
pub fn ends_outside(kind: OperandKind, modrm: &ModRm) -> bool
    ensures { result ≡ ends_outside kind modrm.now }
{
    match kind {
        OperandKind::MemoryOnly => modrm.md == 3,
        OperandKind::Nothing
        | OperandKind::Any
        | OperandKind::Memory
        | OperandKind::FromSegment
        | OperandKind::ToSegment
        | OperandKind::Control => false,
    }
}

/// Whether a ModRM byte follows the opcode.
#[inline(always)]
pub fn has_modrm(kind: OperandKind) -> bool
    ensures { result ≡ has_modrm kind }
{
    match kind {
        OperandKind::Nothing => false,
        OperandKind::Any
        | OperandKind::Memory
        | OperandKind::MemoryOnly
        | OperandKind::FromSegment
        | OperandKind::ToSegment
        | OperandKind::Control => true,
    }
}
