//! The names of the intercepts that the SVM set has.

ghost use Rattle.std.specs.Prelude.{⊤};
ghost use Rattle.xe_icpt.specs.SvmNames.{svm_table};

use bitflags::{Flag, Flags};

/// A set of names of SVM intercepts, one bit for each name.
///
/// The names are those of the scenario text; `from_name` of [`Flags`] reads one. Bits that no name
/// has are kept, and intercept nothing.
#[derive(Clone, Copy, PartialEq, Eq, Debug, Default)]
pub struct SvmName(u64);

impl SvmName {
    pub const READ_CR0: SvmName = SvmName(1 << 0);

    pub const READ_CR2: SvmName = SvmName(1 << 1);

    pub const READ_CR3: SvmName = SvmName(1 << 2);

    pub const READ_CR4: SvmName = SvmName(1 << 3);

    pub const READ_CR8: SvmName = SvmName(1 << 4);

    pub const WRITE_CR0: SvmName = SvmName(1 << 5);

    pub const WRITE_CR2: SvmName = SvmName(1 << 6);

    pub const WRITE_CR3: SvmName = SvmName(1 << 7);

    pub const WRITE_CR4: SvmName = SvmName(1 << 8);

    pub const WRITE_CR8: SvmName = SvmName(1 << 9);

    pub const CR0_SEL: SvmName = SvmName(1 << 10);

    pub const READ_IDTR: SvmName = SvmName(1 << 11);

    pub const READ_GDTR: SvmName = SvmName(1 << 12);

    pub const READ_LDTR: SvmName = SvmName(1 << 13);

    pub const READ_TR: SvmName = SvmName(1 << 14);

    pub const WRITE_IDTR: SvmName = SvmName(1 << 15);

    pub const WRITE_GDTR: SvmName = SvmName(1 << 16);

    pub const WRITE_LDTR: SvmName = SvmName(1 << 17);

    pub const WRITE_TR: SvmName = SvmName(1 << 18);

    pub const RDTSC: SvmName = SvmName(1 << 19);

    pub const PUSHF: SvmName = SvmName(1 << 20);

    pub const POPF: SvmName = SvmName(1 << 21);

    pub const CPUID: SvmName = SvmName(1 << 22);

    pub const IRET: SvmName = SvmName(1 << 23);

    pub const SWINT: SvmName = SvmName(1 << 24);

    pub const INVD: SvmName = SvmName(1 << 25);

    pub const PAUSE: SvmName = SvmName(1 << 26);

    pub const HLT: SvmName = SvmName(1 << 27);

    pub const INVLPG: SvmName = SvmName(1 << 28);

    pub const IOIO: SvmName = SvmName(1 << 29);

    pub const MSR: SvmName = SvmName(1 << 30);

    pub const WBINVD: SvmName = SvmName(1 << 31);
}

/// Each name with its bit.
static NAMES: [Flag<SvmName>; 32] = [
    Flag {
        name: "read_cr0",
        value: SvmName::READ_CR0,
    },
    Flag {
        name: "read_cr2",
        value: SvmName::READ_CR2,
    },
    Flag {
        name: "read_cr3",
        value: SvmName::READ_CR3,
    },
    Flag {
        name: "read_cr4",
        value: SvmName::READ_CR4,
    },
    Flag {
        name: "read_cr8",
        value: SvmName::READ_CR8,
    },
    Flag {
        name: "write_cr0",
        value: SvmName::WRITE_CR0,
    },
    Flag {
        name: "write_cr2",
        value: SvmName::WRITE_CR2,
    },
    Flag {
        name: "write_cr3",
        value: SvmName::WRITE_CR3,
    },
    Flag {
        name: "write_cr4",
        value: SvmName::WRITE_CR4,
    },
    Flag {
        name: "write_cr8",
        value: SvmName::WRITE_CR8,
    },
    Flag {
        name: "cr0_sel",
        value: SvmName::CR0_SEL,
    },
    Flag {
        name: "read_idtr",
        value: SvmName::READ_IDTR,
    },
    Flag {
        name: "read_gdtr",
        value: SvmName::READ_GDTR,
    },
    Flag {
        name: "read_ldtr",
        value: SvmName::READ_LDTR,
    },
    Flag {
        name: "read_tr",
        value: SvmName::READ_TR,
    },
    Flag {
        name: "write_idtr",
        value: SvmName::WRITE_IDTR,
    },
    Flag {
        name: "write_gdtr",
        value: SvmName::WRITE_GDTR,
    },
    Flag {
        name: "write_ldtr",
        value: SvmName::WRITE_LDTR,
    },
    Flag {
        name: "write_tr",
        value: SvmName::WRITE_TR,
    },
    Flag {
        name: "rdtsc",
        value: SvmName::RDTSC,
    },
    Flag {
        name: "pushf",
        value: SvmName::PUSHF,
    },
    Flag {
        name: "popf",
        value: SvmName::POPF,
    },
    Flag {
        name: "cpuid",
        value: SvmName::CPUID,
    },
    Flag {
        name: "iret",
        value: SvmName::IRET,
    },
    Flag {
        name: "swint",
        value: SvmName::SWINT,
    },
    Flag {
        name: "invd",
        value: SvmName::INVD,
    },
    Flag {
        name: "pause",
        value: SvmName::PAUSE,
    },
    Flag {
        name: "hlt",
        value: SvmName::HLT,
    },
    Flag {
        name: "invlpg",
        value: SvmName::INVLPG,
    },
    Flag {
        name: "ioio",
        value: SvmName::IOIO,
    },
    Flag {
        name: "msr",
        value: SvmName::MSR,
    },
    Flag {
        name: "wbinvd",
        value: SvmName::WBINVD,
    },
];

impl Flags for SvmName {
    type Bits = u64;

    ghost exact = { ⊤ };

    ghost table = { svm_table };

    ghost set_of = { λ name. name.0 };

    fn flags<'a>() -> &'a [Flag<SvmName>] {
        &NAMES
    }

    fn bits(&self) -> u64 {
        self.0
    }

    fn from_bits_retain(bits: u64) -> SvmName {
        SvmName(bits)
    }
}
