//! The codes of faults of a system file.

ghost use Rattle.std.specs.Prelude.{◌≡◌, [], ◌∷◌};
ghost use Rattle.qp_chart_names.specs.Codes.{chart_codes};

/// The bytes are no TOML.
pub const NOT_TOML: u8 = 1;
/// A value isn't of its key's kind.
pub const WRONG_KIND: u8 = 2;
/// A key without default is missing.
pub const MISSING: u8 = 3;
/// A table has a key that isn't listed.
pub const UNKNOWN: u8 = 4;
/// A number, a name or the length of a text is out of range.
pub const RANGE: u8 = 5;
/// A name stands twice among the things of one kind, or a priority stands twice.
pub const DOUBLE: u8 = 6;
/// A name isn't declared.
pub const NO_SUCH_NAME: u8 = 7;
/// An action or a guard isn't in the grammar.
pub const BAD_TEXT: u8 = 8;
/// An event has another number of parameters than its signal, or its parameters are out of reach.
pub const WRONG_ARITY: u8 = 9;
/// A state is among its own ancestors.
pub const PARENT_LOOP: u8 = 10;
/// A state has too many ancestors.
pub const TOO_DEEP: u8 = 11;
/// An initial target isn't properly below its state.
pub const INIT_NOT_BELOW: u8 = 12;
/// An earlier row of the state has the same signal and no guard.
pub const TWO_ROWS: u8 = 13;
/// A list or table has too many members, or none where one is needed.
pub const TOO_MANY: u8 = 14;
/// No pool has blocks for the parameters of a signal.
pub const NO_POOL: u8 = 15;

/// The constants of this module are the codes of `specs/Codes`.
pub fn constants_are_the_table()
    ensures { NOT_TOML ∷ WRONG_KIND ∷ MISSING ∷ UNKNOWN ∷ RANGE ∷ DOUBLE ∷ NO_SUCH_NAME ∷ BAD_TEXT ∷ WRONG_ARITY ∷ PARENT_LOOP ∷ TOO_DEEP ∷
        INIT_NOT_BELOW ∷ TWO_ROWS ∷ TOO_MANY ∷ NO_POOL ∷ [] ≡ chart_codes }
{}
