//! How a run ended.

/// How a run ended, by the number that the program ends with.
#[derive(Clone, Copy, Debug, PartialEq, Eq)]
pub enum Status {
    /// All was done, and the whole output is written.
    Ok = 0,
    /// The text has a bad line or is too long; the refusal is written.
    Refused = 1,
    /// The words ask for nothing that there is; nothing was read, and the usage is written.
    Usage = 2,
    /// A read failed; nothing is written.
    ReadFault = 3,
    /// A write failed; a front of the output is written.
    WriteFault = 4,
    /// Memory was refused; nothing is written.
    NoMemory = 5,
}

impl Status {
    ghost use Rattle.std.specs.Prelude.{◌≡◌};
    ghost use Rattle.xe_run.specs.Output.{number_of};

    /// The number that the program ends with.
    pub fn number(self) -> u8
        ensures { result ≡ number_of self }
    {
        match self {
            Status::Ok => 0,
            Status::Refused => 1,
            Status::Usage => 2,
            Status::ReadFault => 3,
            Status::WriteFault => 4,
            Status::NoMemory => 5,
        }
    }
}
