//! The devices of a machine, as a step sees them.

use xe_base::{Access, Answer};

/// What a bus says to an access.
#[derive(Clone, Copy, PartialEq, Eq, Debug)]
pub enum Reply {
    /// The access was made, with this answer: a number below 2^(8 * size) of the access; or that there
    /// is no such register, in the space `Msr` alone.
    Ready(Answer),
    /// The device isn't ready yet. The access wasn't made, and can be asked for again.
    NotYet,
    /// The device failed. The access wasn't made.
    Failed,
}

/// A bus of devices.
///
/// It may tell the script that its devices follow; no access changes whether it does. A bus that
/// tells it has a log of the accesses that were made, with room for so many more: `Ready` takes the
/// room of one, and the other replies none. Two counts that never fall tell how often a device
/// wasn't ready, and how often one failed: `NotYet` comes only where the first rose, and `Failed` only
/// where the second did. A count that has reached its last value stands still there.
pub trait Bus {
    ghost use Rattle.xe_base.specs.Access.{IsWellFormed};
    ghost use Rattle.xe_ctx.specs.Bus.{BusView, HasRoom, Replies};

    /// What can be told of the bus.
    ghost sight: { Self → BusView };

    /// Asks for one access.
    fn access(&mut self, a: Access) -> Reply
        requires well_formed { IsWellFormed a }
        requires room { HasRoom (sight self.old) 1 }
        ensures { Replies (sight self.old) a result (sight self.new) };
}
