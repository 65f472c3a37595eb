//! Device accesses with their answers, and faults.

use crate::cpu::Mode;

/// The space in which a device is addressed.
#[derive(Clone, Copy, PartialEq, Eq, PartialOrd, Ord, Debug, Default)]
pub enum Space {
    /// Physical memory outside RAM.
    #[default]
    Mem,
    /// The ports of IN and OUT.
    Port,
    /// Model-specific registers, by their number.
    Msr,
    /// CPUID leaves, by leaf * 2^32 + subleaf.
    Cpuid,
}

/// One access to a device.
///
/// It is well formed where its size is 1, 2, 4 or 8 in `Mem`, 1, 2 or 4 in `Port` and 8 in `Msr`
/// and `Cpuid`, and its value is below 2^(8 * size), and 0 for a read.
#[derive(Clone, Copy, PartialEq, Eq, Debug, Default)]
pub struct Access {
    pub space: Space,
    pub write: bool,
    pub address: u64,
    /// In bytes.
    pub size: u8,
    /// What is written; 0 for a read.
    pub value: u64,
}

/// What a device answers to an access.
#[derive(Clone, Copy, PartialEq, Eq, Debug)]
pub enum Answer {
    /// The answer, below 2^(8 * size) of the access: the value read; to a write it has no meaning.
    Val(u64),
    /// There is no such register; only in the space `Msr`.
    No,
}

/// The blank of a list of accesses. All its bytes are 0 (the first variant, with the number 0), so
/// that making such a list is one fill with zeros.
impl Default for Answer {
    fn default() -> Answer {
        Answer::Val(0)
    }
}

impl Answer {
    ghost use Rattle.std.specs.Prelude.{◌≡◌};
    ghost use Rattle.xe_base.specs.Access.{number_of};

    /// The number of an answer, 0 where there is none.
    pub fn number(self) -> u64
        ensures { result ≡ number_of self }
    {
        match self {
            Answer::Val(value) => value,
            Answer::No => 0,
        }
    }
}

/// An access that was made, with its answer.
#[derive(Clone, Copy, PartialEq, Eq, Debug, Default)]
pub struct Made {
    pub access: Access,
    pub answer: Answer,
}

/// An exception (SDM volume 3, "Interrupt and Exception Handling").
#[derive(Clone, Copy, PartialEq, Eq, Debug)]
pub struct Fault {
    pub vector: u8,
    /// The error code; None where the exception pushes none.
    pub code: Option<u32>,
    /// The linear address that a page fault reports.
    pub cr2: Option<u64>,
}

/// #DE, a quotient that doesn't fit or a divisor 0.
pub const DIVIDE_ERROR: u8 = 0;
/// #UD, an invalid encoding.
pub const INVALID_OPCODE: u8 = 6;
/// #NP, a segment that isn't present.
pub const SEGMENT_NOT_PRESENT: u8 = 11;
/// #SS, a stack segment's limit or a non-canonical stack address.
pub const STACK_FAULT: u8 = 12;
/// #GP, general protection.
pub const GENERAL_PROTECTION: u8 = 13;
/// #PF, a page fault.
pub const PAGE_FAULT: u8 = 14;

impl Fault {
    ghost use Rattle.std.specs.Prelude.{◌≡◌};
    ghost use Rattle.xe_base.specs.Exceptions.{plain_exception, exception};

    /// An exception that never has an error code, as #DE and #UD.
    #[tactic(auto, unfolding(crate::specs::Exceptions::plain_exception))]
    pub fn plain(vector: u8) -> Fault
        ensures { result ≡ plain_exception vector }
    {
        Fault {
            vector,
            code: None,
            cr2: None,
        }
    }

    /// An exception that has this error code; in real mode none has one (SDM volume 3, "Exceptions
    /// in Real-Address Mode").
    #[tactic(auto, unfolding(crate::specs::Exceptions::exception))]
    pub fn with_code(mode: Mode, vector: u8, code: u32) -> Fault
        ensures { result ≡ exception mode vector code }
    {
        match mode {
            Mode::Real => Fault::plain(vector),
            Mode::Protected | Mode::Compat | Mode::Long => Fault {
                vector,
                code: Some(code),
                cr2: None,
            },
        }
    }
}

/// Memory was refused: the answer of a call that has no other one.
#[derive(Clone, Copy, PartialEq, Eq, Debug)]
pub struct NoMemory;
