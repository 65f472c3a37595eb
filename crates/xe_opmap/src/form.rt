//! What stands after an opcode, and the words in which the opcode maps say it.
//!
//! A cell of the maps is a row's name with words after it, in the letters of SDM volume 2, appendix
//! A.2.1. `(-)` is no row, and `(invalid)` an invalid encoding.
//!
//! | Word | Meaning |
//! |---|---|
//! | `E` | a ModRM operand, a register or memory |
//! | `M`, `only_M` | memory; a register is invalid, or outside the table |
//! | `E_from_S`, `S_from_E` | a ModRM operand, and a segment register as source or as destination |
//! | `control` | a ModRM operand that is a register, and a control register |
//! | `ib`, `iw`, `iv` | an immediate of one byte, of two, of the operand size, as it is |
//! | `ib_signed`, `iz` | an immediate of one byte, of 2 or 4, sign-extended to the operand size |
//! | `moffs`, `far`, `iw_ib` | an address; an offset and a selector; the two immediates of ENTER |
//! | `lock` | LOCK is allowed where the operand lies in memory |
//! | `d64`, `f64` | operand size 64 in 64-bit code, by default or always |

use crate::row::Row;

/// The ModRM operand of an opcode.
#[derive(Clone, Copy, PartialEq, Eq, Debug)]
pub enum OperandKind {
    /// There is no ModRM byte.
    Nothing,
    /// A register or memory.
    Any,
    /// Memory; a register is invalid.
    Memory,
    /// Memory; no row goes on with a register.
    MemoryOnly,
    /// A register or memory, to which a segment register goes.
    FromSegment,
    /// A register or memory, which goes to a segment register.
    ToSegment,
    /// A register, which goes to or from a control register; mod is read as 3.
    Control,
}

/// The immediates of an opcode.
#[derive(Clone, Copy, PartialEq, Eq, Debug)]
pub enum ImmediateKind {
    Nothing,
    /// One byte as it is.
    Byte,
    /// One byte, sign-extended to the operand size.
    SignedByte,
    /// Two bytes as they are.
    Word,
    /// 2 bytes at operand size 16 and otherwise 4, sign-extended to the operand size.
    SignedOperand,
    /// As many bytes as the operand size.
    OperandSized,
    /// An address of address size.
    Address,
    /// An offset of operand size, and a selector.
    FarPointer,
    /// ENTER's two bytes of frame size and one of nesting level.
    EnterFrame,
}

/// The operand size that an opcode has in 64-bit code.
#[derive(Clone, Copy, PartialEq, Eq, Debug)]
pub enum SizeIn64Bit {
    /// 32, with 66 16, with REX.W 64.
    Usual,
    /// 64, with 66 and without REX.W 16.
    Stack,
    /// 64 always: a near branch.
    Near,
}

/// The form of an instruction: its row, and what stands after its opcode.
#[derive(Clone, Copy, PartialEq, Eq, Debug)]
pub struct InsnForm {
    pub row: Row,
    pub operand: OperandKind,
    pub imm: ImmediateKind,
    /// LOCK is allowed where the operand is in memory.
    pub lock: bool,
    pub size: SizeIn64Bit,
}

/// What an opcode says, of a group with its reg field.
#[derive(Clone, Copy, PartialEq, Eq, Debug)]
pub enum OpcodeCell {
    /// No row goes on.
    Outside,
    /// The encoding is invalid.
    Invalid,
    /// An instruction of this form.
    Form(InsnForm),
}

/// A place of an opcode map: the cells between which something beside the opcode chooses.
#[derive(Clone, Copy, PartialEq, Eq, Debug)]
pub enum MapEntry {
    Alone(OpcodeCell),
    /// By the reg field of the ModRM byte: a place of `GROUPS`.
    Group(u8),
    /// Outside 64-bit code, and in it.
    ByCode(OpcodeCell, OpcodeCell),
    /// Without F3, and after it.
    ByF3(OpcodeCell, OpcodeCell),
    /// Without REX.B and F3, after F3, and with REX.B.
    ByRexB(OpcodeCell, OpcodeCell, OpcodeCell),
}

/// What the opcode maps look at beside opcode and reg field.
#[derive(Clone, Copy, PartialEq, Eq, Debug)]
pub struct MapConditions {
    pub in_64_bit: bool,
    /// F3 is the last of F2 and F3.
    pub after_f3: bool,
    /// REX.B is set.
    pub rex_b: bool,
}

/// The form with a row's name and with words: each word changes one field.
macro_rules! insn_form {
    ($row:ident $operand:ident $imm:ident $lock:ident $size:ident;) => {
        InsnForm {
            row: Row::$row,
            operand: OperandKind::$operand,
            imm: ImmediateKind::$imm,
            lock: $lock,
            size: SizeIn64Bit::$size,
        }
    };
    ($r:ident $o:ident $i:ident $l:ident $s:ident; E $($w:ident)*) => { insn_form!($r Any $i $l $s; $($w)*) };
    ($r:ident $o:ident $i:ident $l:ident $s:ident; M $($w:ident)*) => { insn_form!($r Memory $i $l $s; $($w)*) };
    ($r:ident $o:ident $i:ident $l:ident $s:ident; only_M $($w:ident)*) => { insn_form!($r MemoryOnly $i $l $s; $($w)*) };
    ($r:ident $o:ident $i:ident $l:ident $s:ident; E_from_S $($w:ident)*) => { insn_form!($r FromSegment $i $l $s; $($w)*) };
    ($r:ident $o:ident $i:ident $l:ident $s:ident; S_from_E $($w:ident)*) => { insn_form!($r ToSegment $i $l $s; $($w)*) };
    ($r:ident $o:ident $i:ident $l:ident $s:ident; control $($w:ident)*) => { insn_form!($r Control $i $l $s; $($w)*) };
    ($r:ident $o:ident $i:ident $l:ident $s:ident; ib $($w:ident)*) => { insn_form!($r $o Byte $l $s; $($w)*) };
    ($r:ident $o:ident $i:ident $l:ident $s:ident; ib_signed $($w:ident)*) => { insn_form!($r $o SignedByte $l $s; $($w)*) };
    ($r:ident $o:ident $i:ident $l:ident $s:ident; iw $($w:ident)*) => { insn_form!($r $o Word $l $s; $($w)*) };
    ($r:ident $o:ident $i:ident $l:ident $s:ident; iz $($w:ident)*) => { insn_form!($r $o SignedOperand $l $s; $($w)*) };
    ($r:ident $o:ident $i:ident $l:ident $s:ident; iv $($w:ident)*) => { insn_form!($r $o OperandSized $l $s; $($w)*) };
    ($r:ident $o:ident $i:ident $l:ident $s:ident; moffs $($w:ident)*) => { insn_form!($r $o Address $l $s; $($w)*) };
    ($r:ident $o:ident $i:ident $l:ident $s:ident; far $($w:ident)*) => { insn_form!($r $o FarPointer $l $s; $($w)*) };
    ($r:ident $o:ident $i:ident $l:ident $s:ident; iw_ib $($w:ident)*) => { insn_form!($r $o EnterFrame $l $s; $($w)*) };
    ($r:ident $o:ident $i:ident $l:ident $s:ident; lock $($w:ident)*) => { insn_form!($r $o $i true $s; $($w)*) };
    ($r:ident $o:ident $i:ident $l:ident $s:ident; d64 $($w:ident)*) => { insn_form!($r $o $i $l Stack; $($w)*) };
    ($r:ident $o:ident $i:ident $l:ident $s:ident; f64 $($w:ident)*) => { insn_form!($r $o $i $l Near; $($w)*) };
}

/// A cell of a map or a group.
macro_rules! opcode_cell {
    (-) => { OpcodeCell::Outside };
    (invalid) => { OpcodeCell::Invalid };
    ($row:ident $($word:ident)*) => { OpcodeCell::Form(insn_form!($row Nothing Nothing false Usual; $($word)*)) };
}

/// A place of a map.
macro_rules! map_entry {
    (group $group:ident) => { MapEntry::Group($group) };
    (by_code ($($legacy:tt)*) ($($in_64_bit:tt)*)) => { MapEntry::ByCode(opcode_cell!($($legacy)*), opcode_cell!($($in_64_bit)*)) };
    (by_f3 ($($plain:tt)*) ($($after_f3:tt)*)) => { MapEntry::ByF3(opcode_cell!($($plain)*), opcode_cell!($($after_f3)*)) };
    (by_rex_b ($($plain:tt)*) ($($after_f3:tt)*) ($($rex_b:tt)*)) => { MapEntry::ByRexB(opcode_cell!($($plain)*), opcode_cell!($($after_f3)*), opcode_cell!($($rex_b)*)) };
    ($($cell:tt)*) => { MapEntry::Alone(opcode_cell!($($cell)*)) };
}

/// Eight places of a map.
macro_rules! map_row {
    (($($entry:tt)*) 8 times) => { [map_entry!($($entry)*); 8] };
    ($(($($entry:tt)*))*) => { [$(map_entry!($($entry)*)),*] };
}

/// The eight cells of a group, from reg 0 to reg 7.
macro_rules! group_row {
    ($(($($cell:tt)*))*) => { [$(opcode_cell!($($cell)*)),*] };
}

pub(crate) use group_row;
pub(crate) use insn_form;
pub(crate) use map_entry;
pub(crate) use map_row;
pub(crate) use opcode_cell;
