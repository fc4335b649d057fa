//! What an object has from step to step.

ghost use Rattle.std.specs.Prelude.{◌≡◌, slice_set};

use qp_calls::Deferred;
use qp_model::Values;

/// The current leaf, the variables, the last answer, the deferred entries, and the ceiling that `locked` restores.
#[derive(Drop)]
pub(crate) struct Lasting {
    pub(crate) leaf: u8,
    pub(crate) vars: Values,
    pub(crate) ok: i64,
    pub(crate) list: Deferred,
    pub(crate) former: u8,
}

/// Sets a variable. One that isn't there is left out.
pub(crate) fn set(vars: &mut Values, var: u8, value: i64)
    ensures { vars.new ≡ slice_set vars.old var value }
{
    let place = usize::from(var);
    if place < vars.items.len() {
        vars.items[place] = value;
    }
}
