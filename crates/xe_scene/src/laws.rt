//! Laws of scenario texts.
ghost use Rattle.std.specs.Prelude.{◌≡◌, ◌≤◌, ◌<◌, ◌^◌, ◌↔◌, ℕ, Bool, List, length, Some, None, Err};
ghost use Rattle.std.specs.Fmt.{digits, decimal};
ghost use Rattle.std.specs.Str.Parse.{IsNumeral, digits_value};
ghost use Rattle.xe_scene.specs.Numbers.{hex_number, decimal_number};
ghost use Rattle.xe_scene.specs.Scene.{Bad, lines_say, nothing};
ghost use Rattle.xe_scene.specs.First.{IsFirstBad};

/// A text is refused for its first bad line, and for no other.
pub fn first_bad()
    ensures refused { (lines : List (List ℕ)) (bad : Bad) → lines_say 0 nothing lines ≡ Err bad → IsFirstBad 0 nothing lines bad }
    ensures only { (lines : List (List ℕ)) (bad : Bad) → IsFirstBad 0 nothing lines bad → lines_say 0 nothing lines ≡ Err bad }
{}

/// Each number of 64 bits is read back from its hexadecimal digits, in lower case as they are
/// printed, or in upper case, if it is at most the greatest value of its field, and else refused.
/// The words that are read are numerals of at most 16 digits, at the values of their digits.
pub fn hex_read_back()
    ensures read { (most n : ℕ) (upper : Bool) → n ≤ most → n < 2 ^ 64 → hex_number most (digits 16 upper n) ≡ Some n }
    ensures above { (most n : ℕ) (upper : Bool) → most < n → n < 2 ^ 64 → hex_number most (digits 16 upper n) ≡ None }
    ensures value { (most : ℕ) (word : List ℕ) (n : ℕ) → (hex_number most word ≡ Some n) ↔ (IsNumeral 16 word × (length word ≤ 16) × (digits_value 16 word ≡ n) × (n ≤ most)) }
{}

/// Each number of 64 bits is read back from its decimal text, and from no other word.
pub fn decimal_read_back()
    ensures read { (n : ℕ) → n < 2 ^ 64 → decimal_number (decimal n) ≡ Some n }
    ensures only { (word : List ℕ) (n : ℕ) → n < 2 ^ 64 → decimal_number word ≡ Some n → word ≡ decimal n }
{}
