//! Fills and copies within one slice.

ghost use Rattle.std.specs.Prelude.{◌≡◌, ℕ, ◌+◌, ◌*◌, ◌<◌, ◌≤◌, length};
ghost use Rattle.xe_mem.specs.Flat.{repeated, flat_up, flat_down};

/// Fills `out` with `unit`, of which it has a whole number `count`.
///
/// What is filled already is copied behind itself, so that each move is as long as all before it.
pub(crate) fn repeat(out: &mut [u8], unit: &[u8], count: usize)
    requires whole { length out.old ≡ length unit.now * count }
    requires some { 0 < length unit.now }
    ensures { out.new ≡ repeated unit.now count }
{
    if count == 0 {
        return;
    }
    let len = unit.len();
    out[..len].copy_from_slice(unit);
    let mut done = 1;
    while done < count {
        let more = done.min(count - done);
        out.copy_within(0..more * len, done * len);
        done += more;
    }
}

/// Moves `count` elements of `unit` bytes, the lowest first.
pub(crate) fn move_up(bytes: &mut [u8], to: usize, from: usize, unit: usize, count: usize)
    requires to { to + unit * count ≤ length bytes.old }
    requires from { from + unit * count ≤ length bytes.old }
    ensures { bytes.new ≡ flat_up bytes.old to from unit count }
{
    let len = unit * count;
    if to <= from || from + len <= to {
        bytes.copy_within(from..from + len, to);
        return;
    }
    for k in 0..count {
        let start = from + unit * k;
        bytes.copy_within(start..start + unit, to + unit * k);
    }
}

/// Moves `count` elements of `unit` bytes, the highest first.
pub(crate) fn move_down(bytes: &mut [u8], to: usize, from: usize, unit: usize, count: usize)
    requires to { to + unit * count ≤ length bytes.old }
    requires from { from + unit * count ≤ length bytes.old }
    ensures { bytes.new ≡ flat_down bytes.old to from unit count }
{
    let len = unit * count;
    if from <= to || to + len <= from {
        bytes.copy_within(from..from + len, to);
        return;
    }
    let mut left = count;
    while left > 0 {
        left -= 1;
        let start = from + unit * left;
        bytes.copy_within(start..start + unit, to + unit * left);
    }
}
