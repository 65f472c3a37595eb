//! Numbers that lie as bytes in memory, the lowest byte first.

ghost use Rattle.std.specs.Prelude.{◌≡◌, length};
ghost use Rattle.xe_base.specs.Bytes.{num};

/// The number that 8 bytes are, the lowest first. It is one load.
#[inline(always)]
#[tactic(auto, unfolding(crate::specs::Bytes::num))]
pub fn number_of_8(bytes: &[u8]) -> u64
    requires { length bytes.now ≡ 8 }
    ensures { result ≡ num bytes.now }
{
    match bytes {
        [a, b, c, d, e, f, g, h] => u64::from_le_bytes([*a, *b, *c, *d, *e, *f, *g, *h]),
        _ => unreachable!(),
    }
}
