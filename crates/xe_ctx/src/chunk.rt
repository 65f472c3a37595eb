//! Numbers and their bytes; an access outside RAM as aligned chunks.
#![tactic(auto, using(xe_base::proofs::Bytes::byte_rules))]

ghost use Rattle.std.specs.Prelude.{◌≡◌, ℕ, ◌+◌, ◌-◌, ◌*◌, ◌%◌, ◌^◌, ◌<◌, ◌≤◌, ◌++◌, length, take, drop, All};
ghost use Rattle.xe_base.specs.Bytes.{num, le};
ghost use Rattle.xe_ctx.specs.Chunks.{first_size, chunks};

use arrayvec::ArrayVec;
use xe_base::number_of_8;

/// A part of an access that goes to a device as one: its physical address, its place in the access
/// and its size.
#[derive(Clone, Copy, PartialEq, Eq, Debug, Default)]
pub(crate) struct Chunk {
    pub pa: u64,
    pub at: usize,
    pub size: usize,
}

/// The number that the bytes are, the lowest first, byte by byte.
fn sum_of(bytes: &[u8]) -> u128
    requires { length bytes.now ≤ 16 }
    ensures is { result ≡ num bytes.now }
    ensures below { result < 2 ^ (8 * length bytes.now) }
{
    let mut number = 0u128;
    let mut at = bytes.len();
    'down: while at > 0 {
        at -= 1;
        number = number * 256 + bytes[at] as u128;
    }
    number
}

/// The number that the bytes are, the lowest first. At the sizes of operands it is one load.
#[inline(always)]
#[tactic(auto, unfolding(xe_base::specs::Bytes::num))]
pub(crate) fn number_of(bytes: &[u8]) -> u128
    requires { length bytes.now ≤ 16 }
    ensures is { result ≡ num bytes.now }
    ensures below { result < 2 ^ (8 * length bytes.now) }
{
    match bytes {
        [a] => u128::from(*a),
        [a, b] => u128::from(u16::from_le_bytes([*a, *b])),
        [a, b, c, d] => u128::from(u32::from_le_bytes([*a, *b, *c, *d])),
        [_, _, _, _, _, _, _, _] => u128::from(number_of_8(bytes)),
        _ => sum_of(bytes),
    }
}

/// Appends bytes.
#[inline]
pub(crate) fn append(out: &mut ArrayVec<u8, 16>, bytes: &[u8])
    requires { length out.old.items + length bytes.now ≤ 16 }
    ensures { out.new.items ≡ out.old.items ++ bytes.now }
{
    match out.try_extend_from_slice(bytes) {
        Ok(()) | Err(_) => {}
    }
}

/// The bytes of a number, the lowest first.
#[inline(always)]
pub(crate) fn all_bytes(number: u128) -> [u8; 16]
    ensures { (n : ℕ) → n ≤ 16 → take n result ≡ le n number }
{
    number.to_le_bytes()
}

/// The n low bytes of a number, the lowest first.
pub(crate) fn bytes_of(n: usize, number: u128) -> ArrayVec<u8, 16>
    requires { n ≤ 16 }
    ensures is { result.items ≡ le n number }
    ensures size { length result.items ≡ n }
{
    let all = all_bytes(number);
    let mut bytes = ArrayVec::new();
    append(&mut bytes, &all[..n]);
    bytes
}

/// The greatest of 8, 4, 2 and 1 that divides the address and is at most n.
#[tactic(auto, using(std::proofs::lemmas::Bool::Decides::nat_tests), unfolding(crate::specs::Chunks::first_size))]
fn first_of(pa: u64, n: usize) -> usize
    requires { 0 < n }
    ensures { result ≡ first_size pa n }
{
    if n >= 8 && pa % 8 == 0 {
        8
    } else if n >= 4 && pa % 4 == 0 {
        4
    } else if n >= 2 && pa % 2 == 0 {
        2
    } else {
        1
    }
}

/// The access of n bytes at an address as chunks, the lowest first.
#[tactic(auto, using(crate::proofs::Cut::cut_rules))]
pub(crate) fn chunks_of(pa: u64, n: usize) -> ArrayVec<Chunk, 6>
    requires small { n ≤ 16 }
    requires fits { pa < 2 ^ 52 }
    ensures { result.items ≡ chunks pa n }
{
    let mut all = ArrayVec::new();
    let mut at = 0;
    'cut: while at < n {
        let size = first_of(pa + at as u64, n - at);
        all.push(Chunk {
            pa: pa + at as u64,
            at,
            size,
        });
        at += size;
    }
    all
}
