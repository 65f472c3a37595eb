//! A set of ports as a bitmap: 65,536 bits in words of 64.

ghost use Rattle.std.specs.Prelude.{◌≡◌, ℕ, ◌<◌, ◌≤◌, ◌||◌, ◌&&◌, nat_le};
ghost use Rattle.std.specs.FinSet.{contains, empty, union};
ghost use Rattle.std.specs.Int.{bit_at, from_bool};
ghost use Rattle.xe_icpt.specs.PortBitmap.{port_bit, ports_of};
ghost use Rattle.xe_icpt.specs.Ports.{has_one_of, ports_between};

/// The bitmap without a port.
#[tactic(auto, using(crate::proofs::PortLaws::no_ports))]
pub(crate) fn no_ports() -> [u64; 1024]
    ensures { ports_of result ≡ empty }
{
    [0; 1024]
}

/// Whether the port's bit is set.
fn has_port(ports: &[u64; 1024], port: u16) -> bool
    ensures { result ≡ contains (ports_of ports.now) port }
{
    let word = ports[port as usize / 64];
    (word >> (port % 64)) & 1 == 1
}

/// The bits from `from` to `to` of a word.
fn mask(from: u16, to: u16) -> u64
    requires order { from ≤ to }
    requires within { to < 64 }
    ensures { (i : ℕ) → i < 64 → bit_at result i ≡ from_bool (nat_le from i && nat_le i to) }
{
    (u64::MAX << from) & (u64::MAX >> (63 - to))
}

/// Sets the bits of the ports from `low` to `high`, a word at a time.
pub(crate) fn set_ports(ports: &mut [u64; 1024], low: u16, high: u16)
    requires { low ≤ high }
    ensures { ports_of ports.new ≡ union (ports_of ports.old) (ports_between low high) }
{
    for word in low / 64..high / 64 + 1 {
        let base = 64 * word;
        let to = (high - base).min(63);
        ports[word as usize] |= mask(low.saturating_sub(base), to);
    }
}

/// Whether one of `size` ports from `port` on is set; port 0 follows on port FFFFh.
pub(crate) fn has_one_of(ports: &[u64; 1024], port: u16, size: u8) -> bool
    ensures { result ≡ has_one_of (ports_of ports.now) port size }
{
    for k in 0..size {
        if has_port(ports, port.wrapping_add(k as u16)) {
            return true;
        }
    }
    false
}
