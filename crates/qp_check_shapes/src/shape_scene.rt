//! What the shapes of an object's calls read of its system.

ghost use Rattle.std.specs.Prelude.{◌≡◌, nat_lt};
ghost use Rattle.qp_model.specs.Parts.{is_static, room_before, sizes_of};
ghost use Rattle.qp_check_shapes.specs.ShapeUnit.{some_static, is_static_entry, had_room};

use qp_model::{Entry, System};

/// An object's system, and what the shapes of its calls count there.
#[derive(Drop)]
pub struct Scene<'a> {
    pub sys: &'a System,
    pub o: u8,
    pub has_static: bool,
    ghost statics: { has_static ≡ some_static sys.now },
}

/// Whether an entry of a queue was free before a post after which the counts are these.
#[tactic(auto, unfolding(qp_model::specs::Parts::room_before))]
fn had_free(ring: u8, f: u64, l: u64, m: u64) -> bool
    ensures { result ≡ nat_lt 0 (room_before ring f l m) }
{
    let entries = u128::from(f.saturating_sub(1)) + u128::from(l);
    entries.saturating_sub(u128::from(m)) <= u128::from(ring)
}

fn has_static(sys: &System) -> bool
    ensures { result ≡ some_static sys.now }
{
    for d in &sys.signals.items {
        if d.fixed {
            return true;
        }
    }
    false
}

impl<'a> Scene<'a> {
    /// The scene of an object of a system.
    pub fn of(sys: &'a System, o: u8) -> Self
        ensures { (result.sys.now ≡ sys.now) × (result.o ≡ o) }
    {
        Scene {
            sys,
            o,
            has_static: has_static(sys),
        }
    }
}

impl Scene<'_> {
    #[tactic(auto, unfolding(crate::specs::ShapeUnit::had_room))]
    pub fn had_room(&self, to: u64, f: u64, l: u64, m: u64) -> bool
        ensures { result ≡ had_room self.now.sys.now to f l m }
    {
        had_free(self.sys.ring_of(to), f, l, m)
    }

    #[tactic(auto, unfolding(crate::specs::ShapeUnit::is_static_entry))]
    pub fn is_static_entry(&self, e: Entry) -> bool
        ensures { result ≡ is_static_entry self.now.sys.now e }
    {
        e.pool == 0 && e.name == 0 && self.sys.is_static(e.block)
    }

    pub fn is_static(&self, sig: u64) -> bool
        ensures { result ≡ is_static self.now.sys.now sig }
    {
        self.sys.is_static(sig)
    }
}
