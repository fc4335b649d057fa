//! Objects of a system.

ghost use Rattle.std.specs.Prelude.{◌≡◌, ◌==◌, false, slice_get, true};
ghost use Rattle.std.specs.Option.{option_map_or};
ghost use Rattle.qp_model.specs.WordLaw.{is_object};

use qp_model::System;

/// Whether the system has an object of this priority.
#[tactic(auto, unfolding(qp_model::specs::WordLaw::is_object))]
pub(crate) fn has_object(sys: &System, p: u8) -> bool
    ensures { result ≡ is_object sys.now p }
{
    sys.object_at(u64::from(p)).is_some()
}

/// Whether the object at this place has this priority.
pub(crate) fn stands_at(sys: &System, place: usize, p: u8) -> bool
    ensures { result ≡ true → option_map_or (λ d. d.priority == p) (slice_get sys.now.objects place) false ≡ true }
{
    match sys.objects.items.get(place) {
        Some(d) => d.priority == p,
        None => false,
    }
}
