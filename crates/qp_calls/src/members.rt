//! Sets of subscribers, member by member.

ghost use Rattle.std.specs.Prelude.{◌≡◌, ◌<◌, ◌∷◌};
ghost use Rattle.qp_model.specs.Parts.{members};

/// The highest member of a set, and the set without it.
pub(crate) fn highest(set: u32) -> (u8, u32)
    requires { 0 < set }
    ensures first { members set ≡ result.0 ∷ members result.1 }
    ensures less { result.1 < set }
{
    let top = 31 - set.leading_zeros();
    (top as u8 + 1, set - (1 << top))
}
