//! Numbers and bytes as words.
ghost use Rattle.std.specs.Prelude.{◌≡◌, ◌≤◌, ◌<◌, length, min, IfSome};
ghost use Rattle.std.specs.Option.{option_map};
ghost use Rattle.hex.specs.Hex.{hex_digit_value};
ghost use Rattle.xe_scene.specs.Numbers as spec;

use arrayvec::ArrayVec;

/// The value of a hexadecimal digit.
fn hex_digit(c: u8) -> Option<u8>
    ensures value { result ≡ hex_digit_value c }
    ensures small { IfSome result (λ d. d < 16) }
{
    match c {
        b'A'..=b'F' => Some(c - 55),
        b'a'..=b'f' => Some(c - 87),
        b'0'..=b'9' => Some(c - 48),
        _ => None,
    }
}

/// A number of 1 to 16 hex digits.
#[tactic(auto, unfolding(crate::specs::Numbers::hex_number))]
pub(crate) fn hex_number(most: u64, word: &[u8]) -> Option<u64>
    ensures value { result ≡ spec.hex_number most word.now }
    ensures most { IfSome result (λ n. n ≤ most) }
{
    if word.is_empty() || word.len() > 16 {
        return None;
    }
    let n = hex_value(word)?;
    if n <= most { Some(n) } else { None }
}

fn hex_value(word: &[u8]) -> Option<u64>
    requires { length word.now ≤ 16 }
    ensures { result ≡ spec.hex_from 0 word.now }
{
    let mut n = 0u64;
    for c in word {
        n = 16 * n + u64::from(hex_digit(*c)?);
    }
    Some(n)
}

/// 1 to 64 bytes in hex.
#[tactic(auto, unfolding(crate::specs::Numbers::bytes_of))]
pub(crate) fn bytes_of(word: &[u8]) -> Option<ArrayVec<u8, 64>>
    ensures value { result ≡ spec.bytes_of word.now }
    ensures some { IfSome result (λ v. 0 < length v.items) }
{
    if word.is_empty() || word.len() > 128 || word.len() % 2 == 1 {
        return None;
    }
    let mut buf = [0u8; 64];
    let count = word.len() / 2;
    match hex::decode_to_slice(word, &mut buf[..count]) {
        Ok(()) => {
            let mut bytes = ArrayVec::new();
            bytes.try_extend_from_slice(&buf[..count]).unwrap();
            Some(bytes)
        }
        Err(_) => None,
    }
}

/// The value of a decimal digit.
fn decimal_digit(c: u8) -> Option<u8>
    ensures value { result ≡ spec.decimal_digit c }
    ensures small { IfSome result (λ d. d < 10) }
{
    match c {
        b'0'..=b'9' => Some(c - 48),
        _ => None,
    }
}

/// What every number above is read as.
pub(crate) const CAP: u64 = 1_000_001;

fn decimal_value(word: &[u8]) -> Option<u64>
    ensures { result ≡ option_map (min 1000001) (spec.decimal_from 0 word.now) }
{
    let mut n = 0u64;
    for c in word {
        n = (10 * n + u64::from(decimal_digit(*c)?)).min(CAP);
    }
    Some(n)
}

/// A number in decimal without leading zeros, at most `CAP`.
#[tactic(auto, unfolding(crate::specs::Numbers::decimal_number))]
pub(crate) fn decimal_number(word: &[u8]) -> Option<u64>
    ensures { result ≡ option_map (min 1000001) (spec.decimal_number word.now) }
{
    match word {
        [] => None,
        [c] => Some(u64::from(decimal_digit(*c)?)),
        [b'0', ..] => None,
        _ => decimal_value(word),
    }
}
