//! Instructions that were decoded before, each with the bytes that spell it.

ghost use Rattle.std.specs.Prelude.{◌≡◌, ◌≤◌, IfSome, length, take, drop};
ghost use Rattle.xe_base.specs.Bytes.{num};
ghost use Rattle.xe_opmap.specs.Encoding.{decode_part, finished};
ghost use Rattle.xe_opmap.specs.Known.{IsMask, IsSplit, IsPlace};
ghost use Rattle.xe_opmap.specs.Valid.{IsDecoded};

use crate::decoder::BLANK;
use crate::insn::{Decoded, Insn};
use std::marker::Model;
use xe_base::{CodeSize, number_of_8};

/// The number that the first 8 bytes are. A compiler joins the loads of a number where no other one has
/// them, which holds in this function and in the next alone.
#[inline]
fn front_of(bytes: &[u8; 15]) -> u64
    ensures { result ≡ num (take 8 bytes.now) }
{
    number_of_8(&bytes[..8])
}

/// The number that the last 8 bytes are.
#[inline]
fn back_of(bytes: &[u8; 15]) -> u64
    ensures { result ≡ num (drop 7 bytes.now) }
{
    number_of_8(&bytes[7..])
}

/// The mask of the lowest bytes of a number, so many of them.
#[inline]
fn mask(bytes: u8) -> u64
    requires { bytes ≤ 8 }
    ensures { IsMask bytes result }
{
    if bytes == 8 {
        return u64::MAX;
    }
    (1 << (8 * bytes)) - 1
}

/// How many of an instruction's bytes are among the first 7, and how many behind them.
fn split(len: u8) -> (u8, u8)
    requires { len ≤ 15 }
    ensures { IsSplit len result.0 result.1 }
{
    if len <= 7 {
        return (len, 0);
    }
    (7, len - 7)
}

/// An instruction in code of a size, and its bytes as two numbers: the first 7, and those behind them,
/// each with the mask of as many as it has.
#[derive(Clone, Copy)]
pub(crate) struct Place {
    size: CodeSize,
    front: u64,
    front_mask: u64,
    back: u64,
    back_mask: u64,
    insn: Insn,
}

/// A place in which nothing is kept: no number has 1 under its mask.
fn free() -> Place
    ensures { IsPlace result }
{
    Place {
        size: CodeSize::B16,
        front: 1,
        front_mask: 0,
        back: 0,
        back_mask: 0,
        insn: BLANK,
    }
}

impl Place {
    ghost use Rattle.std.specs.Prelude.{◌≡◌, IfSome};
    ghost use Rattle.xe_opmap.specs.Known.{Gives, IsPlace};
    ghost use Rattle.xe_opmap.specs.Valid.{IsDecoded};

    /// The instruction of this place, where it is that of these bytes, which are given as two numbers.
    #[inline(always)]
    fn find(&self, size: CodeSize, front: u64, back: u64) -> Option<&Insn>
        requires { IsPlace self.now }
        ensures gives { IfSome result (λ insn. Gives size front back insn.now) }
        ensures ranges { IfSome result (λ insn. IsDecoded size (Decoded.Insn insn.now)) }
    {
        if front & self.front_mask == self.front
            && back & self.back_mask == self.back
            && size == self.size
        {
            return Some(&self.insn);
        }
        None
    }
}

/// Instructions that were decoded before. Each is kept at one of 512 places, by its address, until another
/// one takes the place; it is found again wherever the same bytes stand at such an address in code of the same
/// size, whatever was written to memory between: what is found is what `decode` says of the bytes.
#[derive(Drop)]
pub struct Known {
    places: [Place; 512],
}

impl Model for Known {
    ghost use Rattle.std.specs.Prelude.{All};
    ghost use Rattle.xe_opmap.specs.Known.{IsPlace};

    ghost Value = { Unit {0} };

    ghost view = { λ k. tt };

    ghost invariant = { λ k. All IsPlace k.places };
}

impl Known {
    ghost use Rattle.std.specs.Prelude.{◌≡◌, IfSome};
    ghost use Rattle.xe_opmap.specs.Encoding.{decode_part, finished};
    ghost use Rattle.xe_opmap.specs.Valid.{IsDecoded};

    /// Nothing is known.
    pub fn new() -> Known {
        Known {
            places: [free(); 512],
        }
    }

    /// The instruction that these 15 bytes begin with, where it is known. The address only says where to look.
    #[inline(always)]
    pub fn find(&self, size: CodeSize, rip: u64, bytes: &[u8; 15]) -> Option<&Insn>
        ensures is { IfSome result (λ insn. finished (decode_part size bytes.now) ≡ Decoded.Insn insn.now) }
        ensures ranges { IfSome result (λ insn. IsDecoded size (Decoded.Insn insn.now)) }
    {
        let place = &self.places[(rip % 512) as usize];
        place.find(size, front_of(bytes), back_of(bytes))
    }

    /// Keeps the instruction that these 15 bytes begin with, so that it is found there next time.
    #[inline(never)]
    pub fn keep(&mut self, size: CodeSize, rip: u64, bytes: &[u8; 15], insn: &Insn)
        requires is { finished (decode_part size bytes.now) ≡ Decoded.Insn insn.now }
        requires ranges { IsDecoded size (Decoded.Insn insn.now) }
    {
        let (front_bytes, back_bytes) = split(insn.len);
        let front_mask = mask(front_bytes);
        let back_mask = mask(back_bytes);
        self.places[(rip % 512) as usize] = Place {
            size,
            front: front_of(bytes) & front_mask,
            front_mask,
            back: back_of(bytes) & back_mask,
            back_mask,
            insn: *insn,
        };
    }
}
