//! Conditions on the flags.

ghost use Rattle.std.specs.Prelude.{◌≡◌, ◌≤◌};
ghost use Rattle.xe_flags.specs.Conditions.{condition};

use crate::status::{Status, status_of};

/// Whether the condition of this number holds: SDM volume 2, appendix B, "Encoding of Conditional Test Field".
///
/// The even numbers are O, B, E, BE, S, P, L and LE; each odd one holds where the one before it doesn't.
pub fn condition(cc: u8, flags: u64) -> bool
    requires { cc ≤ 15 }
    ensures { result ≡ condition cc flags }
{
    let Status {
        carry,
        parity,
        zero,
        sign,
        overflow,
        ..
    } = status_of(flags);
    let holds = match cc / 2 {
        0 => overflow,
        1 => carry,
        2 => zero,
        3 => carry | zero,
        4 => sign,
        5 => parity,
        6 => sign != overflow,
        7 => zero | (sign != overflow),
        _ => unreachable!(),
    };
    holds != (cc % 2 == 1)
}
