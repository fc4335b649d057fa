//! The keys of a system file by their numbers.
//!
//! A key has one number in every table, given by its first appearance in the description of the file.
ghost use Rattle.std.specs.Prelude.{◌≡◌, [], ◌∷◌, map};
ghost use Rattle.qp_chart_names.specs.Keys.{keys};
ghost use Rattle.qp_chart_names.specs.Paths.{key_word};

pub const QP: u8 = 1;

pub const POOL: u8 = 2;

pub const SIGNAL: u8 = 3;

pub const CHART: u8 = 4;

pub const OBJECT: u8 = 5;

pub const SIZE: u8 = 6;

pub const BLOCKS: u8 = 7;

pub const NAME: u8 = 8;

pub const PARAMS: u8 = 9;

pub const STATIC: u8 = 10;

pub const INIT: u8 = 11;

pub const INIT_DO: u8 = 12;

pub const VARS: u8 = 13;

pub const TIMER: u8 = 14;

pub const STATE: u8 = 15;

pub const RATE: u8 = 16;

pub const PARENT: u8 = 17;

pub const ENTRY: u8 = 18;

pub const EXIT: u8 = 19;

pub const ROW: u8 = 20;

pub const ON: u8 = 21;

pub const WHEN: u8 = 22;

pub const DO: u8 = 23;

pub const TO: u8 = 24;

pub const PRIORITY: u8 = 25;

pub const QUEUE: u8 = 26;

pub const DEFER: u8 = 27;

pub const THRESHOLD: u8 = 28;

/// The words in the order of the numbers. No key has number 0.
static WORDS: [&str; 29] = [
    "",
    "qp",
    "pool",
    "signal",
    "chart",
    "object",
    "size",
    "blocks",
    "name",
    "params",
    "static",
    "init",
    "init_do",
    "vars",
    "timer",
    "state",
    "rate",
    "parent",
    "entry",
    "exit",
    "row",
    "on",
    "when",
    "do",
    "to",
    "priority",
    "queue",
    "defer",
    "threshold",
];

/// The word of a key. A number that no key has gives the empty text.
pub fn word(key: u8) -> &'static str
    ensures { result.now ≡ key_word key }
{
    if key > THRESHOLD {
        return "";
    }
    WORDS[key as usize]
}

/// The constants of this module are the numbers of the table of keys (`specs/Keys`).
pub fn constants_are_the_table()
    ensures { QP ∷ POOL ∷ SIGNAL ∷ CHART ∷ OBJECT ∷ SIZE ∷ BLOCKS ∷ NAME ∷ PARAMS ∷ STATIC ∷ INIT ∷ INIT_DO ∷ VARS ∷ TIMER ∷ STATE ∷ RATE ∷
        PARENT ∷ ENTRY ∷ EXIT ∷ ROW ∷ ON ∷ WHEN ∷ DO ∷ TO ∷ PRIORITY ∷ QUEUE ∷ DEFER ∷ THRESHOLD ∷ [] ≡ map (λ key. key.0) keys }
{}
