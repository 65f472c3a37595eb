//! The points at which an instruction may be intercepted.

/// What writes a control register.
#[derive(Clone, Copy, PartialEq, Eq, Debug)]
pub enum CrKind {
    /// MOV from a general register.
    Mov,
    /// LMSW.
    Lmsw,
    /// CLTS.
    Clts,
}

/// A descriptor table register, or the task register.
#[derive(Clone, Copy, PartialEq, Eq, Debug)]
pub enum TableName {
    Idtr,
    Gdtr,
    Ldtr,
    Tr,
}

/// What an instruction is about to do.
///
/// A point is well formed where `n` is 0, 2, 3, 4 or 8, and 0 with LMSW and CLTS; the value of
/// LMSW is below 2^16; `reg` is at most 15; `size` is 1, 2 or 4; `adsize` is 2, 4 or 8; and `seg` is at
/// most 5.
#[derive(Clone, Copy, PartialEq, Eq, Debug)]
pub enum Point {
    /// Control register `n` is read into general register `reg`.
    CrRead {
        n: u8,
        reg: u8,
    },
    /// Control register `n` is written.
    CrWrite {
        n: u8,
        /// The general register of MOV; 0 for the others.
        reg: u8,
        kind: CrKind,
        /// The operand of MOV, the 2-byte operand of LMSW, and 0 for CLTS.
        value: u64,
        /// Whether the operand of LMSW lies in memory.
        mem: bool,
    },
    /// MOV to CR0 changes a bit that exists and isn't MP, ET or TS, or LMSW writes CR0, whatever its
    /// value.
    Cr0Sel,
    /// A table register is stored.
    TableRead {
        t: TableName,
    },
    /// A table register is loaded.
    TableWrite {
        t: TableName,
    },
    Rdtsc,
    Pushf,
    Popf,
    Cpuid,
    Iret,
    /// INT n with this vector.
    Swint {
        vector: u8,
    },
    Invd,
    Pause,
    Hlt,
    /// INVLPG of this linear address.
    Invlpg {
        la: u64,
    },
    /// A port is read or written.
    Io {
        port: u16,
        /// The size of the access in bytes.
        size: u8,
        /// Whether the port is read.
        input: bool,
        /// Whether the instruction is INS or OUTS.
        string: bool,
        /// Whether it has a prefix that repeats it, F2 or F3.
        rep: bool,
        /// Whether the port is an immediate byte of the instruction.
        imm: bool,
        /// The address size in bytes.
        adsize: u8,
        /// The number of the segment, as by `number` of `xe_base::SegName`: ES for INS, that of the
        /// source for OUTS, 0 for IN and OUT.
        seg: u8,
        /// The offset of the next instruction, also in an element of a repeated one: RIP plus the
        /// length, modulo 2^64 in 64-bit code and 2^32 elsewhere.
        next: u64,
    },
    /// A model-specific register is read or written.
    Msr {
        number: u32,
        write: bool,
    },
    Wbinvd,
}
