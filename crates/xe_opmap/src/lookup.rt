//! The look-up of an opcode in the maps.

ghost use Rattle.std.specs.Prelude.{◌≡◌, ◌<◌, ◌⊎◌, ◌≤◌};
ghost use Rattle.xe_opmap.specs.Table.{needs_reg, cell_at, IsOpcode};
ghost use Rattle.xe_opmap.specs.Valid.{IsCellOf};
ghost use Rattle.xe_opmap.specs.Lookup.{entry_of};

use crate::form::{MapConditions, MapEntry, OpcodeCell};
use crate::groups::GROUPS;
use crate::opcodes::{ONE_BYTE, TWO_BYTE};

/// The place of an opcode in its map.
#[inline(always)]
fn entry(op: u16) -> &'static MapEntry
    requires { IsOpcode op }
    ensures { result.now ≡ entry_of op }
{
    if op < 256 {
        &ONE_BYTE[op as usize / 8][op as usize % 8]
    } else {
        let op = (op - 0x0F00) as usize;
        &TWO_BYTE[op / 8][op % 8]
    }
}

/// Whether the reg field of a ModRM byte belongs to the opcode.
#[inline(always)]
pub fn needs_reg(op: u16) -> bool
    requires { IsOpcode op }
    ensures { result ≡ needs_reg op }
{
    match entry(op) {
        MapEntry::Group(_) => true,
        MapEntry::Alone(_) => false,
        MapEntry::ByCode(_, _) => false,
        MapEntry::ByF3(_, _) => false,
        MapEntry::ByRexB(_, _, _) => false,
    }
}

/// What the tables have for an opcode and a reg field.
#[inline(always)]
fn cell_of(conditions: MapConditions, op: u16, reg: u8) -> &'static OpcodeCell
    requires opcode { IsOpcode op }
    requires reg { reg < 8 }
    ensures { result.now ≡ cell_at conditions op reg }
{
    match entry(op) {
        MapEntry::Alone(cell) => cell,
        MapEntry::Group(group) => &GROUPS[*group as usize][reg as usize],
        MapEntry::ByCode(legacy, in_64_bit) => if conditions.in_64_bit {
            in_64_bit
        } else {
            legacy
        },
        MapEntry::ByF3(plain, after_f3) => if conditions.after_f3 { after_f3 } else { plain },
        MapEntry::ByRexB(plain, after_f3, rex_b) => {
            if conditions.rex_b {
                rex_b
            } else if conditions.after_f3 {
                after_f3
            } else {
                plain
            }
        }
    }
}

/// What an opcode says with this reg field.
#[inline(always)]
pub fn cell_at(conditions: MapConditions, op: u16, reg: u8) -> &'static OpcodeCell
    requires opcode { IsOpcode op }
    requires reg { reg < 8 }
    ensures value { result.now ≡ cell_at conditions op reg }
    ensures cell { IsCellOf op result.now }
{
    cell_of(conditions, op, reg)
}
