//! Single records of an object's list, as its course expects them.

ghost use Rattle.std.specs.Prelude.{◌≡◌};
ghost use Rattle.std.specs.Option.{option_map};
ghost use Rattle.qp_check_course.specs.Note.{note_in, same_note, tells, raised_from, dropped_by, comes_back};
ghost use Rattle.qp_check_course.specs.AsNote.{as_note};

use qp_check_calls::{Known, Told};
use qp_model::{Body, Entry};

/// A note that states all.
#[derive(Clone, Copy)]
pub(crate) enum Note {
    Begin,
    Run { state: u64, place: u64 },
    Unhandled,
    Exit { state: u64 },
    Enter { state: u64 },
    Init { state: u64 },
    Done,
    Say { value: u64 },
    Unlock { ceiling: u64 },
}

/// The note that a record says.
#[tactic(auto, unfolding(crate::specs::Note::note_in))]
fn note_of(body: &Body) -> Option<Note>
    ensures { option_map as_note result ≡ note_in body.now }
{
    match body {
        Body::Begin => Some(Note::Begin),
        Body::Run { state, row } => Some(Note::Run {
            state: *state,
            place: *row,
        }),
        Body::Unhandled => Some(Note::Unhandled),
        Body::Exit { state } => Some(Note::Exit { state: *state }),
        Body::Enter { state } => Some(Note::Enter { state: *state }),
        Body::Init { state } => Some(Note::Init { state: *state }),
        Body::Done => Some(Note::Done),
        Body::Say { value } => Some(Note::Say { value: *value }),
        Body::Unlock { ceiling } => Some(Note::Unlock { ceiling: *ceiling }),
        _ => None,
    }
}

#[tactic(auto, unfolding(crate::specs::Note::same_note))]
fn is_same(a: Note, b: Note) -> bool
    ensures { result ≡ same_note (as_note a) (as_note b) }
{
    match a {
        Note::Begin => matches!(b, Note::Begin),
        Note::Run { state, place } => match b {
            Note::Run { state: s, place: k } => state == s && place == k,
            _ => false,
        },
        Note::Unhandled => matches!(b, Note::Unhandled),
        Note::Exit { state } => match b {
            Note::Exit { state: s } => state == s,
            _ => false,
        },
        Note::Enter { state } => match b {
            Note::Enter { state: s } => state == s,
            _ => false,
        },
        Note::Init { state } => match b {
            Note::Init { state: s } => state == s,
            _ => false,
        },
        Note::Done => matches!(b, Note::Done),
        Note::Say { value } => match b {
            Note::Say { value: v } => value == v,
            _ => false,
        },
        Note::Unlock { ceiling } => match b {
            Note::Unlock { ceiling: c } => ceiling == c,
            _ => false,
        },
    }
}

/// Whether a record says this note, and states all.
#[tactic(auto, unfolding(crate::specs::Note::tells))]
pub(crate) fn tells(note: Note, told: &Told) -> bool
    ensures { result ≡ tells (as_note note) told.now.body told.now.known }
{
    match told.known {
        Known::Nothing => match note_of(&told.body) {
            Some(other) => is_same(other, note),
            None => false,
        },
        _ => false,
    }
}

/// The ceiling before it was raised for this one.
#[tactic(auto, unfolding(crate::specs::Note::raised_from))]
pub(crate) fn raised_from(ceiling: u8, told: &Told) -> Option<u64>
    ensures { result ≡ raised_from ceiling told.now.body told.now.known }
{
    match (&told.body, &told.known) {
        (Body::Lock { ceiling: raised }, Known::Former { ceiling: former }) => {
            let is_highest = *raised == (*former).max(u64::from(ceiling));
            if is_highest { Some(*former) } else { None }
        }
        _ => None,
    }
}

/// The operation that drops the reference of an entry, and the references left.
#[tactic(auto, unfolding(crate::specs::Note::dropped_by))]
pub(crate) fn dropped_by(e: Entry, told: &Told) -> Option<(u64, u64)>
    ensures { result ≡ dropped_by e told.now.body told.now.known }
{
    match (&told.body, &told.known) {
        (Body::Dec { p, b, d, k }, Known::Left { n }) => {
            if *p == e.pool && *b == e.block && *k == e.name {
                Some((*d, *n))
            } else {
                None
            }
        }
        _ => None,
    }
}

/// Whether a block comes back behind operation `d`.
#[tactic(auto, unfolding(crate::specs::Note::comes_back))]
pub(crate) fn comes_back(p: u64, b: u64, d: u64, told: &Told) -> bool
    ensures { result ≡ comes_back p b d told.now.body told.now.known }
{
    match (&told.body, &told.known) {
        (Body::Back { p: q, b: c, to, .. }, Known::Nothing) => {
            *q == p && *c == b && u128::from(*to) == u128::from(d) + 1
        }
        _ => false,
    }
}
