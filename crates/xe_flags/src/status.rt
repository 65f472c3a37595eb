//! The six status flags of RFLAGS: SDM volume 1, "EFLAGS Register".

ghost use Rattle.std.specs.Prelude.{◌≡◌, ◌<◌, ◌^◌};
ghost use Rattle.xe_flags.specs.Status.{with_status, flag, encoded, status_of, with_zero, SameOthers};

/// The bits of the flags that arithmetic sets: CF 0, PF 2, AF 4, ZF 6, SF 7 and OF 11.
pub const STATUS: u64 = 0x8D5;

/// What an arithmetic instruction says of its result.
#[derive(Clone, Copy, PartialEq, Eq, Debug)]
pub struct Status {
    pub carry: bool,
    pub parity: bool,
    pub adjust: bool,
    pub zero: bool,
    pub sign: bool,
    pub overflow: bool,
}

/// The six as they lie in the flags.
fn encoded(status: Status) -> u64
    ensures { result ≡ encoded status }
{
    status.carry as u64
        | (status.parity as u64) << 2
        | (status.adjust as u64) << 4
        | (status.zero as u64) << 6
        | (status.sign as u64) << 7
        | (status.overflow as u64) << 11
}

/// The flags with these six, and the others as they were.
#[tactic(auto, unfolding(crate::specs::Status::with_status))]
pub fn with_status(flags: u64, status: Status) -> u64
    ensures value { result ≡ with_status flags status }
    ensures kept { SameOthers flags result }
{
    (flags & !STATUS) | encoded(status)
}

/// Whether the bit of the flags is set.
pub fn flag(flags: u64, at: u32) -> bool
    requires { at < 64 }
    ensures { result ≡ flag flags at }
{
    (flags >> at) & 1 == 1
}

/// The six of the flags.
pub fn status_of(flags: u64) -> Status
    ensures { result ≡ status_of flags }
{
    Status {
        carry: flag(flags, 0),
        parity: flag(flags, 2),
        adjust: flag(flags, 4),
        zero: flag(flags, 6),
        sign: flag(flags, 7),
        overflow: flag(flags, 11),
    }
}

/// The flags with this ZF, and the others as they were.
pub fn with_zero(flags: u64, zero: bool) -> u64
    ensures { result ≡ with_zero flags zero }
{
    let status = Status {
        zero,
        ..status_of(flags)
    };
    with_status(flags, status)
}
