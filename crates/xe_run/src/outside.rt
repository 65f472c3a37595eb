//! Where a text comes from and where a trace goes, as the program sees it.
ghost use Rattle.std.specs.Prelude.{◌≡◌, ℕ, ◌<◌, ◌≤◌, List, [], length, take, Bool, Option, IfOk, IfSome, OnOk, OnErr};
ghost use Rattle.xe_run.specs.Told.{followed_by, preceded_by, is_told, Rose, FollowedByFront};

/// A source or a sink failed.
#[derive(Clone, Copy, Debug, PartialEq, Eq)]
pub struct Failed;

/// Where bytes come from.
///
/// Two meanings stand behind it: the bytes that are left, where the source tells them, and a count of
/// faults. No call changes whether the bytes are told, and the count never falls.
pub trait Source {
    /// What is left, where that is told.
    ghost left: { Self → Option (List ℕ) };

    /// How many faults there were.
    ghost faults: { Self → ℕ };

    /// Puts the next bytes at the front of `buf`, and answers how many: 0 only at the end.
    ///
    /// `Failed` comes only where the count of faults rose, or stands at its last value.
    fn read(&mut self, buf: &mut [u8]) -> Result<usize, Failed>
        requires { 0 < length buf.old }
        ensures within { IfOk result (λ k. k ≤ length buf.new) }
        ensures taken { IfOk result (λ k. left self.old ≡ preceded_by (take k buf.new) (left self.new)) }
        ensures ended { IfOk result (λ k. k ≡ 0 → IfSome (left self.old) (λ l. l ≡ [])) }
        ensures told { is_told (left self.new) ≡ is_told (left self.old) }
        ensures count { faults self.old ≤ faults self.new }
        ensures failed { OnErr result (Rose (faults self.old) (faults self.new)) };
}

/// Where bytes go.
///
/// Two meanings stand behind it: the bytes that were written, where the sink tells them, and a count
/// of faults. No call changes whether the bytes are told, and the count never falls.
pub trait Sink {
    /// What was written, where that is told.
    ghost written: { Self → Option (List ℕ) };

    /// How many faults there were.
    ghost faults: { Self → ℕ };

    /// Writes a piece after what was written before. After `Failed` a front of the piece is written,
    /// perhaps none of it.
    ///
    /// `Failed` comes only where the count of faults rose, or stands at its last value. A sink that
    /// takes nothing of a piece that isn't empty has failed.
    fn write(&mut self, piece: &[u8]) -> Result<(), Failed>
        ensures ok { OnOk result (written self.new ≡ followed_by (written self.old) piece.now) }
        ensures err { OnErr result (FollowedByFront (written self.old) piece.now (written self.new)) }
        ensures count { faults self.old ≤ faults self.new }
        ensures failed { OnErr result (Rose (faults self.old) (faults self.new)) };
}
