//! The prefixes in front of an opcode.

ghost use Rattle.std.specs.Prelude.{◌≡◌, ◌<◌, length, false, if◌then◌else◌};
ghost use Rattle.std.proofs.Common.{get_or};
ghost use Rattle.xe_modrm.specs.Reader.{Within};
ghost use Rattle.xe_modrm.specs.Valid.{IsGotPrefixes};
ghost use Rattle.xe_modrm.specs.Prefix.{is_64_bit, is_prefix, prefixes_then, prefix_part};

use crate::part::{Part, Prefixes};
use xe_base::{CodeSize, SegName};

/// Whether the code is 64-bit.
#[inline(always)]
pub(crate) fn is_64_bit(size: CodeSize) -> bool
    ensures { result ≡ is_64_bit size }
{
    match size {
        CodeSize::B16 | CodeSize::B32 => false,
        CodeSize::B64 => true,
    }
}

/// The prefixes with another segment.
#[inline(always)]
fn with_seg(found: Prefixes, seg: SegName) -> Prefixes
    ensures { result ≡ record found { seg = Some seg } }
{
    Prefixes {
        seg: Some(seg),
        ..found
    }
}

/// The prefixes with one more prefix byte, or None for a byte that is none.
#[inline(always)]
fn noted(size: CodeSize, found: Prefixes, byte: u8) -> Option<Prefixes>
    ensures { result ≡ (if is_prefix size byte then Some (prefixes_then size found byte) else None) }
{
    let in_64_bit = is_64_bit(size);
    // A REX byte that isn't the last of the prefixes counts for nothing.
    let found = Prefixes { rex: None, ..found };
    match byte {
        0xF0 => Some(Prefixes {
            lock: true,
            ..found
        }),
        0xF2 | 0xF3 => Some(Prefixes { rep: byte, ..found }),
        0x26 if !in_64_bit => Some(with_seg(found, SegName::Es)),
        0x2E if !in_64_bit => Some(with_seg(found, SegName::Cs)),
        0x36 if !in_64_bit => Some(with_seg(found, SegName::Ss)),
        0x3E if !in_64_bit => Some(with_seg(found, SegName::Ds)),
        0x26 | 0x2E | 0x36 | 0x3E => Some(found),
        0x64 => Some(with_seg(found, SegName::Fs)),
        0x65 => Some(with_seg(found, SegName::Gs)),
        0x66 => Some(Prefixes {
            opsize: true,
            ..found
        }),
        0x67 => Some(Prefixes {
            adsize: true,
            ..found
        }),
        0x40..=0x4F if in_64_bit => Some(Prefixes {
            rex: Some(byte),
            ..found
        }),
        _ => None,
    }
}

/// No prefix.
const NO_PREFIXES: Prefixes = Prefixes {
    lock: false,
    rep: 0,
    seg: None,
    opsize: false,
    adsize: false,
    rex: None,
};

/// Whether a byte can stand before the opcode.
#[inline(always)]
fn is_prefix(size: CodeSize, byte: u8) -> bool
    ensures { result ≡ is_prefix size byte }
{
    match byte {
        0xF0 | 0xF2 | 0xF3 => true,
        0x26 | 0x2E | 0x36 | 0x3E => true,
        0x64..=0x67 => true,
        0x40..=0x4F => is_64_bit(size),
        _ => false,
    }
}

/// The prefixes, one byte after another.
#[inline(never)]
fn each_prefix(size: CodeSize, bytes: &[u8]) -> Part<Prefixes>
    ensures value { result ≡ prefix_part size bytes.now }
    ensures within { Within result bytes.now }
    ensures valid { IsGotPrefixes size result }
{
    let mut found = NO_PREFIXES;
    for (i, byte) in bytes.iter().enumerate() {
        match noted(size, found, *byte) {
            Some(next) => found = next,
            None => return Part::Got(found, i),
        }
    }
    Part::More
}

/// The prefixes where the second byte is none.
#[inline(always)]
fn lone_prefix(size: CodeSize, bytes: &[u8]) -> Part<Prefixes>
    requires room { 1 < length bytes.now }
    requires plain { is_prefix size (get_or bytes.now 1 0) ≡ false }
    ensures value { result ≡ prefix_part size bytes.now }
    ensures within { Within result bytes.now }
    ensures valid { IsGotPrefixes size result }
{
    match noted(size, NO_PREFIXES, bytes[0]) {
        Some(found) => Part::Got(found, 1),
        None => Part::Got(NO_PREFIXES, 0),
    }
}

/// The prefixes at the front of `bytes`: all prefix bytes up to the first byte that is none.
///
/// The legacy prefixes are F0, F2, F3, 2E, 36, 3E, 26, 64, 65, 66 and 67. Of F2 and F3 the last
/// counts, and of the segment prefixes too. In 64-bit code 40 to 4F is REX where it stands
/// directly before the opcode and is ignored elsewhere among the prefixes, and 2E, 36, 3E and 26
/// are ignored and cancel nothing (SDM volume 2, sections 2.1.1 and 2.2.1). `More` comes exactly
/// where every byte is a prefix byte, so that the opcode is missing.
#[tactic(auto, using(crate::proofs::PrefixLaws::plain_first, crate::proofs::ValidLaws::start_valid))]
#[inline(always)]
pub fn prefixes(size: CodeSize, bytes: &[u8]) -> Part<Prefixes>
    ensures value { result ≡ prefix_part size bytes.now }
    ensures within { Within result bytes.now }
    ensures valid { IsGotPrefixes size result }
{
    // Most instructions have none or one.
    if !bytes.is_empty() && !is_prefix(size, bytes[0]) {
        return Part::Got(NO_PREFIXES, 0);
    }
    if bytes.len() > 1 && !is_prefix(size, bytes[1]) {
        return lone_prefix(size, bytes);
    }
    each_prefix(size, bytes)
}
