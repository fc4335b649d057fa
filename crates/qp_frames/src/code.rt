//! The codes of a stream of frames.

ghost use Rattle.std.specs.Prelude.{◌≡◌, [], ◌∷◌};
ghost use Rattle.qp_frames.specs.Codes.{frame_codes};

/// 0x7D stands before another byte than 0x5E or 0x5D.
pub const BAD_ESCAPE: u8 = 1;
/// The checksum differs.
pub const CHECKSUM: u8 = 2;
/// The sequence byte differs.
pub const SEQUENCE: u8 = 3;
/// A frame is too short, a number is cut short, or the input ends within a frame.
pub const LENGTH: u8 = 4;
/// The id isn't one of the form's.
pub const ID: u8 = 5;
/// The item has a code of its line as text, or the input ends without `end`.
pub const ITEM: u8 = 6;
/// Form 2: a number isn't canonical.
pub const NOT_CANONICAL: u8 = 7;

/// The constants of this module are the codes of `specs/Codes`.
pub fn constants_are_the_table()
    ensures { BAD_ESCAPE ∷ CHECKSUM ∷ SEQUENCE ∷ LENGTH ∷ ID ∷ ITEM ∷ NOT_CANONICAL ∷ [] ≡ frame_codes }
{}
