//! The opcode maps, eight opcodes a line (SDM volume 2, tables A-2 and A-3). The words of an opcode
//! are those of `crate::form`.

use crate::form::{
    ImmediateKind, InsnForm, MapEntry, OpcodeCell, OperandKind, SizeIn64Bit, insn_form, map_entry,
    map_row, opcode_cell,
};
use crate::groups::{
    GROUP_1_IB, GROUP_1_IB_SIGNED, GROUP_1_IZ, GROUP_1A, GROUP_2, GROUP_2_IB, GROUP_3_IB,
    GROUP_3_IZ, GROUP_4, GROUP_5, GROUP_6, GROUP_7, GROUP_8, GROUP_9, GROUP_11_IB, GROUP_11_IZ,
};
use crate::row::Row;

/// The one-byte opcodes.
pub static ONE_BYTE: [[MapEntry; 8]; 32] = [
    map_row![(Add E lock) (Add E lock) (Add E) (Add E) (Add ib) (Add iz) (Pushseg d64) (Popseg d64)], // 00
    map_row![(Or E lock) (Or E lock) (Or E) (Or E) (Or ib) (Or iz) (Pushseg d64) (-)], // 08
    map_row![(Adc E lock) (Adc E lock) (Adc E) (Adc E) (Adc ib) (Adc iz) (Pushseg d64) (Popseg d64)], // 10
    map_row![(Sbb E lock) (Sbb E lock) (Sbb E) (Sbb E) (Sbb ib) (Sbb iz) (Pushseg d64) (Popseg d64)], // 18
    map_row![(And E lock) (And E lock) (And E) (And E) (And ib) (And iz) (-) (Daa)], // 20
    map_row![(Sub E lock) (Sub E lock) (Sub E) (Sub E) (Sub ib) (Sub iz) (-) (Das)], // 28
    map_row![(Xor E lock) (Xor E lock) (Xor E) (Xor E) (Xor ib) (Xor iz) (-) (Aaa)], // 30
    map_row![(Cmp E) (Cmp E) (Cmp E) (Cmp E) (Cmp ib) (Cmp iz) (-) (Aas)], // 38
    map_row![(Inc) 8 times], // 40 to 47
    map_row![(Dec) 8 times], // 48 to 4F
    map_row![(Push d64) 8 times], // 50 to 57
    map_row![(Pop d64) 8 times], // 58 to 5F
    map_row![(Pusha) (Popa) (-) (by_code (Arpl E) (Movsxd E)) (-) (-) (-) (-)], // 60
    map_row![
        (Push iz d64) (Imul E iz) (Push ib_signed d64) (Imul E ib_signed) // 68
        (Ins) (Ins) (Outs) (Outs) // 6C
    ],
    map_row![(Jcc ib_signed f64) 8 times], // 70 to 77
    map_row![(Jcc ib_signed f64) 8 times], // 78 to 7F
    map_row![
        (group GROUP_1_IB) (group GROUP_1_IZ) (group GROUP_1_IB) (group GROUP_1_IB_SIGNED) // 80
        (Test E) (Test E) (Xchg E lock) (Xchg E lock) // 84
    ],
    map_row![
        (Mov E) (Mov E) (Mov E) (Mov E) // 88
        (Movseg E_from_S) (Lea M) (Movseg S_from_E) (group GROUP_1A) // 8C
    ],
    map_row![(by_rex_b(Nop)(Pause)(Xchg))(Xchg)(Xchg)(Xchg)(Xchg)(Xchg)(Xchg)(Xchg)], // 90
    map_row![(Cbw) (Cwd) (Callf far) (-) (Pushf d64) (Popf d64) (Sahf) (Lahf)], // 98
    map_row![(Mov moffs) (Mov moffs) (Mov moffs) (Mov moffs) (Movs) (Movs) (Cmps) (Cmps)], // A0
    map_row![(Test ib) (Test iz) (Stos) (Stos) (Lods) (Lods) (Scas) (Scas)], // A8
    map_row![(Mov ib) 8 times], // B0 to B7
    map_row![(Mov iv) 8 times], // B8 to BF
    map_row![
        (group GROUP_2_IB) (group GROUP_2_IB) (Ret iw f64) (Ret f64) // C0
        (by_code (Les only_M) (-)) (by_code (Lds only_M) (-)) (group GROUP_11_IB) (group GROUP_11_IZ) // C4
    ],
    map_row![(Enter iw_ib d64) (Leave d64) (Retf iw) (Retf) (Int3) (Int ib) (Into) (Iret)], // C8
    map_row![
        (group GROUP_2) (group GROUP_2) (group GROUP_2) (group GROUP_2) // D0
        (Aam ib) (Aad ib) (-) (Xlat) // D4
    ],
    map_row![(-) 8 times], // D8 to DF
    map_row![
        (Loopne ib_signed f64) (Loope ib_signed f64) (Loop ib_signed f64) (Jcxz ib_signed f64) // E0
        (In ib) (In ib) (Out ib) (Out ib) // E4
    ],
    map_row![(Call iz f64) (Jmp iz f64) (Jmpf far) (Jmp ib_signed f64) (In) (In) (Out) (Out)], // E8
    map_row![(-) (-) (-) (-) (Hlt) (Cmc) (group GROUP_3_IB) (group GROUP_3_IZ)], // F0
    map_row![(Clc) (Stc) (Cli) (Sti) (Cld) (Std) (group GROUP_4) (group GROUP_5)], // F8
];

/// The opcodes after 0F.
pub static TWO_BYTE: [[MapEntry; 8]; 32] = [
    map_row![(group GROUP_6) (group GROUP_7) (Lar E) (Lsl E) (-) (-) (Clts) (-)], // 0F 00
    map_row![(Invd) (Wbinvd) (-) (invalid) (-) (Nop E) (-) (-)], // 0F 08
    map_row![(-) 8 times], // 0F 10 to 17
    map_row![(Nop E) 8 times], // 0F 18 to 1F
    map_row![(Movcr control) (-) (Movcr control) (-) (-) (-) (-) (-)], // 0F 20
    map_row![(-) 8 times], // 0F 28 to 2F
    map_row![(Wrmsr) (Rdtsc) (Rdmsr) (-) (-) (-) (-) (-)], // 0F 30
    map_row![(-) 8 times], // 0F 38 to 3F
    map_row![(Cmov E) 8 times], // 0F 40 to 47
    map_row![(Cmov E) 8 times], // 0F 48 to 4F
    map_row![(-) 8 times], // 0F 50 to 57
    map_row![(-) 8 times], // 0F 58 to 5F
    map_row![(-) 8 times], // 0F 60 to 67
    map_row![(-) 8 times], // 0F 68 to 6F
    map_row![(-) 8 times], // 0F 70 to 77
    map_row![(-) 8 times], // 0F 78 to 7F
    map_row![(Jcc iz f64) 8 times], // 0F 80 to 87
    map_row![(Jcc iz f64) 8 times], // 0F 88 to 8F
    map_row![(Set E) 8 times], // 0F 90 to 97
    map_row![(Set E) 8 times], // 0F 98 to 9F
    map_row![(Pushseg d64) (Popseg d64) (Cpuid) (Bt E) (Shld E ib) (Shld E) (-) (-)], // 0F A0
    map_row![(Pushseg d64) (Popseg d64) (-) (Bts E lock) (Shrd E ib) (Shrd E) (-) (Imul E)], // 0F A8
    map_row![
        (Cmpxchg E lock) (Cmpxchg E lock) (Lss M) (Btr E lock) // 0F B0
        (Lfs M) (Lgs M) (Movzx E) (Movzx E) // 0F B4
    ],
    map_row![
        (by_f3 (-) (Popcnt E)) (-) (group GROUP_8) (Btc E lock) // 0F B8
        (Bsf E) (Bsr E) (Movsx E) (Movsx E) // 0F BC
    ],
    map_row![(Xadd E lock) (Xadd E lock) (-) (-) (-) (-) (-) (group GROUP_9)], // 0F C0
    map_row![(Bswap) 8 times], // 0F C8 to CF
    map_row![(-) 8 times], // 0F D0 to D7
    map_row![(-) 8 times], // 0F D8 to DF
    map_row![(-) 8 times], // 0F E0 to E7
    map_row![(-) 8 times], // 0F E8 to EF
    map_row![(-) 8 times], // 0F F0 to F7
    map_row![(-) 8 times], // 0F F8 to FF
];
