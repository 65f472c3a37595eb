//! Words of a width, and what they are as signed numbers.

ghost use Rattle.std.specs.Prelude.{◌≡◌, ◌%◌, ◌^◌, ◌<◌, bit_and, bit_or, bit_xor, ◌-◌, ◌≤◌, unsigned_abs};
ghost use Rattle.xe_base.specs.Words.{IsWidth, top, is_even_low, signed, wrapped, fits_signed};

use std::marker::Model;

/// A number below 2^W, where W is 8, 16, 32 or 64.
#[derive(Clone, Copy, PartialEq, Eq, Debug)]
pub struct Word<const W: u32> {
    value: u64,
}

impl<const W: u32> Model for Word<W> {
    ghost use Rattle.std.specs.Prelude.{ℕ, ◌^◌, ◌<◌};
    ghost use Rattle.xe_base.specs.Words.{IsWidth};

    ghost Value = { ℕ };

    ghost view = { λ w. w.value };

    ghost invariant = { λ w. IsWidth W × (w.value < 2 ^ W) };

    ghost inverse = { λ n. record { value = n } };
}

impl<const W: u32> Word<W> {
    /// The low W bits of a number.
    pub fn new(v: u64) -> Word<W>
        requires { IsWidth W }
        ensures { result ≡ v % 2 ^ W }
    {
        if W < 64 {
            Word {
                value: v & ((1 << W) - 1),
            }
        } else {
            Word { value: v }
        }
    }

    /// The low W bits of a wide number.
    pub fn low(v: u128) -> Word<W>
        requires { IsWidth W }
        ensures { result ≡ v % 2 ^ W }
    {
        Word {
            value: (v & ((1 << W) - 1)) as u64,
        }
    }

    /// The bits that both have.
    pub fn and(self, other: Word<W>) -> Word<W>
        ensures { result ≡ bit_and self.entry other.entry }
    {
        Word {
            value: self.value & other.value,
        }
    }

    /// The bits that one has.
    pub fn or(self, other: Word<W>) -> Word<W>
        ensures { result ≡ bit_or self.entry other.entry }
    {
        Word {
            value: self.value | other.value,
        }
    }

    /// The bits that just one has.
    pub fn xor(self, other: Word<W>) -> Word<W>
        ensures { result ≡ bit_xor self.entry other.entry }
    {
        Word {
            value: self.value ^ other.value,
        }
    }

    /// The signed number.
    pub fn signed(self) -> i128
        ensures value { result ≡ signed W self.entry }
        ensures width { IsWidth W }
        ensures bound { unsigned_abs result ≤ 2 ^ (W - 1) }
    {
        if self.is_negative() {
            self.value as i128 - (1u128 << W) as i128
        } else {
            self.value as i128
        }
    }

    /// The low W bits of a signed number.
    pub fn wrapped(z: i128) -> Word<W>
        requires { IsWidth W }
        ensures { result ≡ wrapped W z }
    {
        Word::low(z.cast_unsigned())
    }

    /// Whether a signed number has a word.
    pub fn has_room(z: i128) -> bool
        requires { IsWidth W }
        ensures { result ≡ fits_signed W z }
    {
        let half = (1u128 << (W - 1)) as i128;
        (0 - half <= z) & (z < half)
    }

    /// The bits the other way.
    pub fn not(self) -> Word<W>
        ensures { result ≡ 2 ^ W - 1 - self.entry }
    {
        Word::low((1 << W) - 1 - self.value as u128)
    }

    /// Whether the top bit is set.
    pub fn is_negative(self) -> bool
        ensures { result ≡ top W self.entry }
    {
        self.value >= 1 << (W - 1)
    }

    /// Whether the low eight bits have an even number of ones.
    pub fn is_even_low(self) -> bool
        ensures { result ≡ is_even_low self.entry }
    {
        (self.value & 0xFF).count_ones() % 2 == 0
    }

    /// The number.
    pub fn get(self) -> u64
        ensures value { result ≡ self.entry }
        ensures width { IsWidth W }
        ensures bound { result < 2 ^ W }
    {
        self.value
    }
}
