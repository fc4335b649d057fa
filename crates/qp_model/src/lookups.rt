//! What a system and an entry are asked for.

ghost use Rattle.std.specs.Prelude.{◌≡◌};
ghost use Rattle.std.specs.Option.{option_copied};
ghost use Rattle.qp_model.specs.Line.{same_entry};
ghost use Rattle.qp_model.specs.Parts.{is_static};
ghost use Rattle.qp_model.specs.Sites.{blocks_of, object_at, ring_of};

use crate::bodies::Entry;
use crate::systems::{ObjectDef, System};

impl System {
    /// The object of a priority.
    #[tactic(auto, unfolding(crate::specs::Sites::object_at))]
    pub fn object_at(&self, a: u64) -> Option<&ObjectDef>
        ensures { option_copied result ≡ object_at self.now a }
    {
        self.objects
            .items
            .iter()
            .find(|d| u64::from(d.priority) == a)
    }

    /// The length of an object's ring, 0 where there is no such object.
    #[tactic(auto, unfolding(crate::specs::Sites::ring_of))]
    pub fn ring_of(&self, a: u64) -> u8
        ensures { result ≡ ring_of self.now a }
    {
        match self.object_at(a) {
            Some(d) => d.ring,
            None => 0,
        }
    }

    /// The number of a pool's blocks, 0 where there is no such pool.
    pub fn blocks_of(&self, p: u64) -> u8
        ensures { result ≡ blocks_of self.now p }
    {
        match self.pools.items.get(p.saturating_sub(1) as usize) {
            Some(pool) => pool.blocks,
            None => 0,
        }
    }

    /// Whether the events of a signal are static.
    #[tactic(auto, unfolding(crate::specs::Parts::is_static))]
    pub fn is_static(&self, sig: u64) -> bool
        ensures { result ≡ is_static self.now sig }
    {
        if sig < 4 {
            return false;
        }
        match self.signals.items.get((sig - 4) as usize) {
            Some(d) => d.fixed,
            None => false,
        }
    }
}

impl Entry {
    /// Whether two entries are the same.
    pub fn is_same(self, other: Entry) -> bool
        ensures { result ≡ same_entry self other }
    {
        self.pool == other.pool && self.block == other.block && self.name == other.name
    }
}
