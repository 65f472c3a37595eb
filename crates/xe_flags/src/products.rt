//! Products of two words.

ghost use Rattle.std.specs.Prelude.{◌≡◌, ◌^◌, ◌*◌, ◌/◌, ◌%◌, nat_le, not, ◌*ℤ◌};
ghost use Rattle.xe_base.specs.Words.{signed, wrapped, fits_signed};
ghost use Rattle.xe_flags.specs.Arithmetic.{floor};
ghost use Rattle.xe_flags.specs.Products.{low_half, high_half, mul_flags};
ghost use Rattle.xe_flags.specs.Status.{SameOthers};

use crate::status::{Status, status_of, with_status};
use xe_base::Word;

/// The product of two numbers, low and high half, and whether the high half counts.
fn unsigned_product<const W: u32>(a: Word<W>, b: Word<W>) -> (Word<W>, Word<W>, bool)
    ensures low { result.0 ≡ a.entry * b.entry % 2 ^ W }
    ensures high { result.1 ≡ a.entry * b.entry / 2 ^ W % 2 ^ W }
    ensures wide { result.2 ≡ nat_le (2 ^ W) (a.entry * b.entry) }
{
    let product = a.get() as u128 * b.get() as u128;
    (
        Word::low(product),
        Word::low(product >> W),
        product >> W != 0,
    )
}

/// The product of two signed numbers, low and high half, and whether the high half counts.
fn signed_product<const W: u32>(a: Word<W>, b: Word<W>) -> (Word<W>, Word<W>, bool)
    ensures low { result.0 ≡ wrapped W (signed W a.entry *ℤ signed W b.entry) }
    ensures high { result.1 ≡ wrapped W (floor (signed W a.entry *ℤ signed W b.entry) (2 ^ W)) }
    ensures wide { result.2 ≡ not (fits_signed W (signed W a.entry *ℤ signed W b.entry)) }
{
    let product = a.signed() * b.signed();
    (
        Word::wrapped(product),
        Word::wrapped(product >> W),
        !Word::<W>::has_room(product),
    )
}

/// The low half and the high half of a product, and the new flags: SDM volume 2, "MUL" and "IMUL".
///
/// CF and OF say that the product has no room in one word. The four flags that the SDM leaves undefined stay.
pub fn mul<const W: u32>(
    signed: bool,
    a: Word<W>,
    b: Word<W>,
    flags: u64,
) -> (Word<W>, Word<W>, u64)
    ensures low { result.0 ≡ low_half W signed a.entry b.entry }
    ensures high { result.1 ≡ high_half W signed a.entry b.entry }
    ensures flags { result.2 ≡ mul_flags W signed a.entry b.entry flags }
    ensures kept { SameOthers flags result.2 }
{
    let (low, high, wide) = if signed {
        signed_product(a, b)
    } else {
        unsigned_product(a, b)
    };
    let status = Status {
        carry: wide,
        overflow: wide,
        ..status_of(flags)
    };
    (low, high, with_status(flags, status))
}
