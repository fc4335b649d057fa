//! The codes of a line of a journal's text.

ghost use Rattle.std.specs.Prelude.{◌≡◌, [], ◌∷◌};
ghost use Rattle.qp_text.specs.Codes.{text_codes};

/// The first token isn't a word of the table, or the line has no newline.
pub const WORD: u8 = 1;
/// A token after it isn't a canonical decimal of at most 64 bits, or spaces aren't single.
pub const NUMBER: u8 = 2;
/// The word has another count of numbers.
pub const COUNT: u8 = 3;
/// The item isn't allowed here.
pub const PLACE: u8 = 4;
/// The text ends without an `end` line.
pub const NO_END: u8 = 5;
/// A number is out of range.
pub const RANGE: u8 = 6;

/// The constants of this module are the codes of `specs/Codes`.
pub fn constants_are_the_table()
    ensures { WORD ∷ NUMBER ∷ COUNT ∷ PLACE ∷ NO_END ∷ RANGE ∷ [] ≡ text_codes }
{}
