//! What the definitions of this crate come to, in the manual's words.

ghost use Rattle.xe_modrm.specs.OperandLaw.{GotIsParts, PartsAreGot, MoreGoesOn};

/// The bytes of a ModRM operand are a ModRM byte, a SIB byte where one follows it, and a
/// displacement of as many bytes as these two say (SDM volume 2, section 2.1.3 and tables 2-1 to
/// 2-3), and the operand is what the three mean. It is read exactly where it stands at the front of
/// the bytes, and bytes that end too early are a proper front of one.
pub fn operands_have_parts()
    ensures got { GotIsParts }
    ensures parts { PartsAreGot }
    ensures more { MoreGoesOn }
{}
