//! A handler's publication under way.

ghost use Rattle.std.specs.Prelude.{◌≡◌};
ghost use Rattle.qp_model.specs.Parts.{members};
ghost use Rattle.qp_calls.specs.Raising.{raised_to};

use crate::did::Did;
use crate::members::highest;
use crate::tokens::HeldEntry;

/// A publication between its posts: its own entry, the subscribers, those to whom it is still to be posted, and the
/// ceiling to be restored.
#[derive(Drop)]
pub struct Publication {
    pub(crate) entry: HeldEntry,
    pub(crate) all: u32,
    pub(crate) left: u32,
    pub(crate) former: u8,
}

impl Publication {
    /// The members still to be posted to, bit `p - 1` for object `p`.
    pub fn left(&self) -> u32
        ensures { result ≡ self.now.left }
    {
        self.left
    }

    /// The ceiling that its `lock` states; none where no `lock` was written.
    pub fn ceiling(&self) -> Option<u8>
        ensures { result ≡ raised_to self.now.former (members self.now.all) }
    {
        if self.all == 0 {
            return None;
        }
        let (top, _) = highest(self.all);
        Some(self.former.max(top))
    }
}

/// What became of a publication: it goes on, or it is over.
#[derive(Drop)]
pub enum Begun {
    Going(Publication),
    Did(Did),
}
