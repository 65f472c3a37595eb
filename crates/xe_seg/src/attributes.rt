//! What the attributes of a segment say (SDM volume 3, "Code- and Data-Segment Descriptor Types").
//! A cached segment is judged by its type alone, whatever S is.

ghost use Rattle.std.specs.Prelude.{◌≡◌, ◌<◌};
ghost use Rattle.xe_base.specs.Bits.{bit};
ghost use Rattle.xe_seg.specs.Attributes.{is_present, is_code, is_conforming, is_expand_down, is_readable, is_writable, allows};

/// Whether the bit is set.
fn bit(attr: u16, at: u32) -> bool
    requires { at < 16 }
    ensures { result ≡ bit attr at }
{
    (attr >> at) & 1 == 1
}

/// P: the segment is present.
pub fn is_present(attr: u16) -> bool
    ensures { result ≡ is_present attr }
{
    bit(attr, 7)
}

/// Code, and otherwise data.
pub fn is_code(attr: u16) -> bool
    ensures { result ≡ is_code attr }
{
    bit(attr, 3)
}

/// Code that runs at the level of its caller.
pub fn is_conforming(attr: u16) -> bool
    ensures { result ≡ is_conforming attr }
{
    is_code(attr) && bit(attr, 2)
}

/// Data that grows downwards: the valid offsets lie above the limit.
pub fn is_expand_down(attr: u16) -> bool
    ensures { result ≡ is_expand_down attr }
{
    !is_code(attr) && bit(attr, 2)
}

/// Data, or code that can be read.
pub fn is_readable(attr: u16) -> bool
    ensures { result ≡ is_readable attr }
{
    !is_code(attr) || bit(attr, 1)
}

/// Data that can be written.
pub fn is_writable(attr: u16) -> bool
    ensures { result ≡ is_writable attr }
{
    !is_code(attr) && bit(attr, 1)
}

/// Whether the type allows a write, or a read.
pub fn allows(attr: u16, write: bool) -> bool
    ensures { result ≡ allows attr write }
{
    if write {
        is_writable(attr)
    } else {
        is_readable(attr)
    }
}
