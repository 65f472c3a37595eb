//! The groups, whose opcodes go on in the reg field of the ModRM byte (SDM volume 2, table A-6). The
//! words of a cell are those of `crate::form`. Where a group has opcodes with several immediates,
//! each has a line of its own.

use crate::form::{
    ImmediateKind, InsnForm, OpcodeCell, OperandKind, SizeIn64Bit, group_row, insn_form,
    opcode_cell,
};
use crate::row::Row;

/// Group 1, 80 to 83, with its immediate.
macro_rules! group_1 {
    ($imm:ident) => {
        group_row![(Add E $imm lock) (Or E $imm lock) (Adc E $imm lock) (Sbb E $imm lock) (And E $imm lock) (Sub E $imm lock) (Xor E $imm lock) (Cmp E $imm)]
    };
}

/// Group 2, opcodes C0, C1 and D0 to D3, with its immediate where it has one.
macro_rules! group_2 {
    ($($imm:ident)?) => {
        group_row![(Rol E $($imm)?) (Ror E $($imm)?) (Rcl E $($imm)?) (Rcr E $($imm)?) (Shl E $($imm)?) (Shr E $($imm)?) (Shl E $($imm)?) (Sar E $($imm)?)]
    };
}

/// Group 3, F6 and F7, with the immediate of TEST.
macro_rules! group_3 {
    ($imm:ident) => {
        group_row![(Test E $imm) (Test E $imm) (Not E lock) (Neg E lock) (Mul E) (Imul E) (Div E) (Idiv E)]
    };
}

/// Group 11, C6 and C7, with its immediate.
macro_rules! group_11 {
    ($imm:ident) => {
        group_row![(Mov E $imm) (-) (-) (-) (-) (-) (-) (-)]
    };
}

// The places of `GROUPS`.
pub const GROUP_1_IB: u8 = 0;

pub const GROUP_1_IZ: u8 = 1;

pub const GROUP_1_IB_SIGNED: u8 = 2;

pub const GROUP_1A: u8 = 3;

pub const GROUP_2: u8 = 4;

pub const GROUP_2_IB: u8 = 5;

pub const GROUP_3_IB: u8 = 6;

pub const GROUP_3_IZ: u8 = 7;

pub const GROUP_4: u8 = 8;

pub const GROUP_5: u8 = 9;

pub const GROUP_6: u8 = 10;

pub const GROUP_7: u8 = 11;

pub const GROUP_8: u8 = 12;

pub const GROUP_9: u8 = 13;

pub const GROUP_11_IB: u8 = 14;

pub const GROUP_11_IZ: u8 = 15;

/// The groups: what the reg field of the ModRM byte says.
pub static GROUPS: [[OpcodeCell; 8]; 16] = [
    group_1!(ib), // 80, 82
    group_1!(iz), // 81
    group_1!(ib_signed), // 83
    // group 1A: 8F
    group_row![(Pop E d64) (-) (-) (-) (-) (-) (-) (-)],
    group_2!(), // opcodes D0 to D3
    group_2!(ib), // opcodes C0 and C1
    group_3!(ib), // F6
    group_3!(iz), // F7
    // group 4: FE
    group_row![(Inc E lock) (Dec E lock) (invalid) (invalid) (invalid) (invalid) (invalid) (invalid)],
    // group 5: FF
    group_row![(Inc E lock) (Dec E lock) (Call E f64) (Callf M) (Jmp E f64) (Jmpf M) (Push E d64) (invalid)],
    // group 6: 0F 00
    group_row![(Sldt E) (Str E) (Lldt E) (Ltr E) (Verr E) (Verw E) (invalid) (invalid)],
    // group 7: 0F 01
    group_row![(Sgdt only_M) (Sidt only_M) (Lgdt only_M) (Lidt only_M) (Smsw E) (-) (Lmsw E) (Invlpg only_M)],
    // group 8: 0F BA
    group_row![(invalid) (invalid) (invalid) (invalid) (Bt E ib) (Bts E ib lock) (Btr E ib lock) (Btc E ib lock)],
    // group 9: 0F C7
    group_row![(-) (Cmpxchg8b M lock) (-) (-) (-) (-) (-) (-)],
    group_11!(ib), // C6
    group_11!(iz), // C7
];
