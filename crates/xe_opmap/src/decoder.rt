//! The decoder: the parts of an instruction one after another, from the prefixes to the verdict.

ghost use Rattle.std.specs.Prelude.{true, ◌≡◌, ◌≤◌, ◌<◌, length};
ghost use Rattle.xe_modrm.specs.Reader.{Within, one_byte};
ghost use Rattle.xe_opmap.specs.Table.{bad_in_64_bit, IsOpcode};
ghost use Rattle.std.specs.Option.{ForSome};
ghost use Rattle.xe_modrm.specs.Valid.{IsPrefixes, IsModRm};
ghost use Rattle.xe_opmap.specs.Valid.{is_kind, control_fits, IsFormOf, IsGotOperand, IsCellOf, IsGotVerdict, TakesSome, IsDecoded};
ghost use Rattle.xe_opmap.specs.Draft.{drafted, opcode_part, IsGotOpcode};
ghost use Rattle.xe_opmap.specs.Relations.{Answers};
ghost use Rattle.xe_opmap.specs.Encoding.{immediates_part, modrm_part, operand_row, row_part, is_swapgs, swapgs_cell, group_cell, group_part, cell_part, after_opcode, after_first_byte, decode_part, finished};

use crate::form::{ImmediateKind, InsnForm, MapConditions, OpcodeCell, OperandKind, SizeIn64Bit};
use crate::immediate::{first, second};
use crate::insn::{Decoded, Insn, Judgement};
use crate::judge::{ends_outside, has_modrm, is_wrong};
use crate::lookup::{cell_at, needs_reg};
use crate::row::Row;
use crate::sizes::{adsize_of, conditions_of, is_64_bit, opsize_of};
use xe_base::CodeSize;
use xe_modrm::{ModRm, ModRmByte, Part, Prefixes, operand, prefixes};

/// The immediates, after which the instruction is judged, and written to the draft where it is valid.
#[tactic(auto, unfolding(crate::specs::Encoding::immediates_part, crate::specs::Encoding::judged), using(crate::proofs::NeedLaws::need_is))]
#[inline(always)]
fn immediates_part(
    size: CodeSize,
    pre: &Prefixes,
    op: u16,
    form: &InsnForm,
    modrm: Option<ModRm>,
    bytes: &[u8],
    draft: &mut Insn,
) -> Part<Judgement>
    requires prefixes { IsPrefixes size pre.now }
    requires opcode { IsOpcode op }
    requires modrm { ForSome modrm IsModRm }
    requires kind { is_kind form.now.operand modrm ≡ true }
    requires form { IsFormOf op form.now }
    ensures value { drafted result draft.new ≡ immediates_part size pre.now op form.now modrm bytes.now }
    ensures within { Within result bytes.now }
    ensures valid { IsGotVerdict size (drafted result draft.new) }
{
    let opsize = opsize_of(size, pre, form.size);
    let adsize = adsize_of(size, pre.adsize);
    let Part::Got(imm, used) = first(opsize, adsize, form.imm, bytes) else {
        return Part::More;
    };
    let Part::Got(imm2, more) = second(form.imm, &bytes[used..]) else {
        return Part::More;
    };
    if is_wrong(pre, form, &modrm) {
        return Part::Got(Judgement::Invalid, used + more);
    }
    // Both are read before the draft is written to, as a compiler can't know that they are apart.
    let (row, pre) = (form.row, *pre);
    draft.row = row;
    draft.len = 0;
    draft.opcode = op;
    draft.opsize = opsize;
    draft.adsize = adsize;
    draft.pre = pre;
    draft.modrm = modrm;
    draft.imm = imm;
    draft.imm2 = imm2;
    Part::Got(Judgement::Valid, used + more)
}

/// One byte.
#[inline(always)]
fn byte(bytes: &[u8]) -> Part<u8>
    ensures value { result ≡ one_byte bytes.now }
    ensures within { Within result bytes.now }
    ensures some { TakesSome result }
{
    match bytes {
        [] => Part::More,
        [first, ..] => Part::Got(*first, 1),
    }
}

/// The operand of MOV to and from control registers, whose mod is read as 3.
#[tactic(auto, unfolding(crate::specs::Encoding::modrm_part))]
#[inline(never)]
fn control_operand(size: CodeSize, pre: &Prefixes, bytes: &[u8]) -> Part<ModRm>
    ensures value { result ≡ modrm_part size pre.now OperandKind.Control bytes.now }
    ensures within { Within result bytes.now }
    ensures valid { IsGotOperand OperandKind.Control result }
{
    let Part::Got(m, used) = byte(bytes) else {
        return Part::More;
    };
    // Bits 7:6, which are mod, are set.
    match operand(size, pre, &[0xC0 + m % 64]) {
        Part::Got(modrm, _) => Part::Got(modrm, used),
        Part::More => Part::More,
    }
}

/// The ModRM byte, and what follows it in the operand.
#[tactic(auto, unfolding(crate::specs::Encoding::modrm_part, crate::specs::Encoding::operand_rest, xe_modrm::specs::Operand::operand_part))]
#[inline(always)]
fn modrm_part(size: CodeSize, pre: &Prefixes, kind: OperandKind, bytes: &[u8]) -> Part<ModRm>
    ensures value { result ≡ modrm_part size pre.now kind bytes.now }
    ensures within { Within result bytes.now }
    ensures valid { IsGotOperand kind result }
{
    match kind {
        OperandKind::Control => control_operand(size, pre, bytes),
        OperandKind::Nothing
        | OperandKind::Any
        | OperandKind::Memory
        | OperandKind::MemoryOnly
        | OperandKind::FromSegment
        | OperandKind::ToSegment => operand(size, pre, bytes),
    }
}

/// A row with a ModRM byte, after its opcode.
#[tactic(auto, unfolding(crate::specs::Encoding::operand_row, crate::specs::Encoding::after_operand), using(crate::proofs::NeedLaws::kind_is))]
#[inline(always)]
fn operand_row(
    size: CodeSize,
    pre: &Prefixes,
    op: u16,
    form: &InsnForm,
    bytes: &[u8],
    draft: &mut Insn,
) -> Part<Judgement>
    requires prefixes { IsPrefixes size pre.now }
    requires opcode { IsOpcode op }
    requires form { IsFormOf op form.now }
    ensures value { drafted result draft.new ≡ operand_row size pre.now op form.now bytes.now }
    ensures within { Within result bytes.now }
    ensures valid { IsGotVerdict size (drafted result draft.new) }
{
    let Part::Got(modrm, used) = modrm_part(size, pre, form.operand, bytes) else {
        return Part::More;
    };
    if ends_outside(form.operand, &modrm) {
        return Part::Got(Judgement::Outside, used);
    }
    match immediates_part(size, pre, op, form, Some(modrm), &bytes[used..], draft) {
        Part::Got(verdict, more) => Part::Got(verdict, used + more),
        Part::More => Part::More,
    }
}

/// A row, after its opcode.
#[tactic(auto, unfolding(crate::specs::Encoding::row_part), using(crate::proofs::NeedLaws::kind_none))]
#[inline(always)]
fn row_part(
    size: CodeSize,
    pre: &Prefixes,
    op: u16,
    form: &InsnForm,
    bytes: &[u8],
    draft: &mut Insn,
) -> Part<Judgement>
    requires prefixes { IsPrefixes size pre.now }
    requires opcode { IsOpcode op }
    requires form { IsFormOf op form.now }
    ensures value { drafted result draft.new ≡ row_part size pre.now op form.now bytes.now }
    ensures within { Within result bytes.now }
    ensures valid { IsGotVerdict size (drafted result draft.new) }
{
    if has_modrm(form.operand) {
        operand_row(size, pre, op, form, bytes, draft)
    } else {
        immediates_part(size, pre, op, form, None, bytes, draft)
    }
}

/// Whether an opcode is invalid in 64-bit code.
#[inline(always)]
fn is_bad_in_64_bit(op: u16) -> bool
    ensures { result ≡ bad_in_64_bit op }
{
    matches!(
        op,
        0x06 | 0x07
            | 0x0E
            | 0x16
            | 0x17
            | 0x1E
            | 0x1F
            | 0x27
            | 0x2F
            | 0x37
            | 0x3F
            | 0x60
            | 0x61
            | 0x82
            | 0x9A
            | 0xCE
            | 0xD4
            | 0xD5
            | 0xEA
    )
}

/// SWAPGS as a cell of the maps.
static SWAPGS: OpcodeCell = OpcodeCell::Form(InsnForm {
    row: Row::Swapgs,
    operand: OperandKind::Any,
    imm: ImmediateKind::Nothing,
    lock: false,
    size: SizeIn64Bit::Usual,
});

/// A cell that is invalid.
static INVALID: OpcodeCell = OpcodeCell::Invalid;

/// SWAPGS, which is there in 64-bit code alone.
fn swapgs_cell(in_64_bit: bool) -> &'static OpcodeCell
    ensures value { result.now ≡ swapgs_cell in_64_bit }
    ensures cell { IsCellOf 0x0F01 result.now }
{
    if !in_64_bit {
        return &INVALID;
    }
    &SWAPGS
}

/// What an opcode with the ModRM byte m is, where the reg field belongs to the opcode.
#[tactic(auto, unfolding(crate::specs::Encoding::group_cell))]
#[inline(always)]
fn group_cell(conditions: MapConditions, op: u16, m: u8) -> &'static OpcodeCell
    requires { IsOpcode op }
    ensures value { result.now ≡ group_cell conditions op m }
    ensures cell { IsCellOf op result.now }
{
    if op == 0x0F01 && m == 0xF8 {
        return swapgs_cell(conditions.in_64_bit);
    }
    cell_at(conditions, op, ModRmByte { byte: m }.reg())
}

/// The ModRM byte of a group, and what follows it.
#[tactic(auto, unfolding(crate::specs::Encoding::group_part))]
#[inline(always)]
fn group_part(
    size: CodeSize,
    pre: &Prefixes,
    op: u16,
    bytes: &[u8],
    draft: &mut Insn,
) -> Part<Judgement>
    requires opcode { IsOpcode op }
    requires prefixes { IsPrefixes size pre.now }
    ensures value { drafted result draft.new ≡ group_part size pre.now op bytes.now }
    ensures within { Within result bytes.now }
    ensures valid { IsGotVerdict size (drafted result draft.new) }
{
    let Part::Got(m, used) = byte(bytes) else {
        return Part::More;
    };
    match group_cell(conditions_of(size, pre), op, m) {
        OpcodeCell::Outside => Part::Got(Judgement::Outside, used),
        OpcodeCell::Invalid => Part::Got(Judgement::Invalid, used),
        OpcodeCell::Form(form) => operand_row(size, pre, op, form, bytes, draft),
    }
}

/// What a place of the opcode maps says.
#[tactic(auto, unfolding(crate::specs::Encoding::cell_part))]
#[inline(always)]
fn cell_part(
    size: CodeSize,
    pre: &Prefixes,
    op: u16,
    cell: &OpcodeCell,
    bytes: &[u8],
    draft: &mut Insn,
) -> Part<Judgement>
    requires prefixes { IsPrefixes size pre.now }
    requires opcode { IsOpcode op }
    requires cell { IsCellOf op cell.now }
    ensures value { drafted result draft.new ≡ cell_part size pre.now op cell.now bytes.now }
    ensures within { Within result bytes.now }
    ensures valid { IsGotVerdict size (drafted result draft.new) }
{
    match cell {
        OpcodeCell::Outside => Part::Got(Judgement::Outside, 0),
        OpcodeCell::Invalid => Part::Got(Judgement::Invalid, 0),
        OpcodeCell::Form(form) => row_part(size, pre, op, form, bytes, draft),
    }
}

/// What follows an opcode.
#[tactic(auto, unfolding(crate::specs::Encoding::after_opcode))]
#[inline(always)]
fn after_opcode(
    size: CodeSize,
    pre: &Prefixes,
    op: u16,
    bytes: &[u8],
    draft: &mut Insn,
) -> Part<Judgement>
    requires opcode { IsOpcode op }
    requires prefixes { IsPrefixes size pre.now }
    ensures value { drafted result draft.new ≡ after_opcode size pre.now op bytes.now }
    ensures within { Within result bytes.now }
    ensures valid { IsGotVerdict size (drafted result draft.new) }
{
    if is_64_bit(size) & is_bad_in_64_bit(op) {
        return Part::Got(Judgement::Invalid, 0);
    }
    if needs_reg(op) {
        return group_part(size, pre, op, bytes, draft);
    }
    cell_part(
        size,
        pre,
        op,
        cell_at(conditions_of(size, pre), op, 0),
        bytes,
        draft,
    )
}

/// The opcode with this first byte: 0F has a second one.
#[inline(always)]
fn opcode(first: u8, bytes: &[u8]) -> Part<u16>
    ensures value { result ≡ opcode_part first bytes.now }
    ensures within { Within result bytes.now }
    ensures opcode { IsGotOpcode result }
{
    if first != 0x0F {
        return Part::Got(first as u16, 0);
    }
    match byte(bytes) {
        Part::Got(second, used) => Part::Got(0x0F00 + second as u16, used),
        Part::More => Part::More,
    }
}

/// What follows the first byte of an opcode.
#[inline(always)]
fn after_first_byte(
    size: CodeSize,
    pre: &Prefixes,
    first: u8,
    bytes: &[u8],
    draft: &mut Insn,
) -> Part<Judgement>
    requires { IsPrefixes size pre.now }
    ensures value { drafted result draft.new ≡ after_first_byte size pre.now first bytes.now }
    ensures within { Within result bytes.now }
    ensures valid { IsGotVerdict size (drafted result draft.new) }
{
    match opcode(first, bytes) {
        Part::Got(op, used) => match after_opcode(size, pre, op, &bytes[used..], draft) {
            Part::Got(judgement, more) => Part::Got(judgement, used + more),
            Part::More => Part::More,
        },
        Part::More => Part::More,
    }
}

/// What some bytes begin with, and how many of them decide it.
#[tactic(auto, unfolding(crate::specs::Encoding::decode_part))]
#[inline(always)]
fn decode_part(size: CodeSize, bytes: &[u8], draft: &mut Insn) -> Part<Judgement>
    ensures value { drafted result draft.new ≡ decode_part size bytes.now }
    ensures within { Within result bytes.now }
    ensures valid { IsGotVerdict size (drafted result draft.new) }
    ensures some { TakesSome result }
{
    let Part::Got(pre, used) = prefixes(size, bytes) else {
        return Part::More;
    };
    let rest = &bytes[used..];
    let Part::Got(first, more) = byte(rest) else {
        return Part::More;
    };
    let used = used + more;
    match after_first_byte(size, &pre, first, &rest[more..], draft) {
        Part::Got(verdict, more) => Part::Got(verdict, used + more),
        Part::More => Part::More,
    }
}

/// A draft before anything is known.
pub(crate) const BLANK: Insn = Insn {
    row: Row::Nop,
    len: 0,
    opcode: 0,
    opsize: 0,
    adsize: 0,
    pre: Prefixes {
        lock: false,
        rep: 0,
        seg: None,
        opsize: false,
        adsize: false,
        rex: None,
    },
    modrm: None,
    imm: 0,
    imm2: 0,
};

/// The answer of the decoder, written in place: each way to end writes it once.
#[inline(never)]
fn answer(size: CodeSize, bytes: &[u8], decoded: &mut Decoded)
    requires { length bytes.now ≤ 15 }
    ensures value { decoded.new ≡ finished (decode_part size bytes.now) }
    ensures ranges { IsDecoded size decoded.new }
{
    let mut draft = BLANK;
    match decode_part(size, bytes, &mut draft) {
        Part::Got(Judgement::Valid, len) => {
            draft.len = len as u8;
            *decoded = Decoded::Insn(draft);
        }
        Part::Got(Judgement::Invalid, len) => *decoded = Decoded::Invalid(len as u8),
        Part::Got(Judgement::Outside, _) => *decoded = Decoded::Outside,
        Part::More => *decoded = Decoded::More,
    }
}

/// What `bytes` begins with, by the opcode maps of this crate.
///
/// `Insn` is an instruction of the table, whose bytes are prefixes, opcode, ModRM byte, SIB byte,
/// displacement and immediates (SDM volume 2, chapter 2 and appendix A). `Invalid` comes where the
/// manual has #UD: at the opcode, at the ModRM byte, or after the whole instruction (LOCK where it
/// isn't allowed, a register where memory is wanted, a segment or control register that there is
/// not). `Outside` comes at the first byte from which the table has no row and nothing invalid.
/// `More` comes exactly where the bytes end before one of these is decided.
pub fn decode(size: CodeSize, bytes: &[u8]) -> Decoded
    requires { length bytes.now ≤ 15 }
    // the grammar
    ensures value { result ≡ finished (decode_part size bytes.now) }
    // the relations of encodings
    ensures answers { Answers size bytes.now result }
    ensures ranges { IsDecoded size result }
{
    let mut decoded = Decoded::More;
    answer(size, bytes, &mut decoded);
    decoded
}
