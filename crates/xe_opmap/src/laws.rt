//! What the encodings come to, as laws.

ghost use Rattle.xe_opmap.specs.Relations.{AreApart, CoverAll, FromParts, ToParts, OutsideLeaves, LeavingIsOutside};
ghost use Rattle.xe_opmap.specs.Parts.{SpelledHasParts, AllPartsSpell};

/// No list of bytes that is an instruction, an invalid encoding or one outside the table begins a
/// different list of that kind, and none is of two kinds.
pub fn encodings_are_apart()
    ensures { AreApart }
{}

/// Each list of bytes has a front that is an instruction, an invalid encoding or one outside the
/// table, or goes on to such a list with some bytes more.
pub fn encodings_cover_all()
    ensures { CoverAll }
{}

/// A list of bytes is outside exactly where the table ends with its last byte: neither it nor any
/// longer list of bytes that begins with it is an instruction or an invalid encoding, and each
/// shorter front of it has a longer list that is.
pub fn outside_is_where_the_table_ends()
    ensures to { OutsideLeaves }
    ensures from { LeavingIsOutside }
{}

/// A list of bytes is what the grammar says exactly where it is prefix bytes, the first opcode
/// byte, which is none, and what the opcode maps have after it.
pub fn encodings_have_parts()
    ensures from { FromParts }
    ensures to { ToParts }
{}

/// Bytes spell an instruction exactly where they are prefixes, opcode, operand and immediates, one
/// after another, of one row of the opcode maps, and the instruction holds what they mean.
pub fn instructions_have_all_parts()
    ensures to { SpelledHasParts }
    ensures from { AllPartsSpell }
{}
