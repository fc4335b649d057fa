//! The kernels of a run by their numbers.

ghost use Rattle.std.specs.Prelude.{◌≡◌, [], ◌∷◌};
ghost use Rattle.qp_model.specs.Kernels.{has_one_order, may_try, port, qk, qv, sim};

/// One thread, preemptive.
pub const SIM: u8 = 0;

/// A thread for the kernel and one for each source, preemptive.
pub const QK: u8 = 1;

/// A thread for each object and each source.
pub const PORT: u8 = 2;

/// One thread, cooperative.
pub const QV: u8 = 3;

/// The constants of this module are the kernels of `specs/Kernels`.
pub fn constants_are_the_table()
    ensures { SIM ∷ QK ∷ PORT ∷ QV ∷ [] ≡ sim ∷ qk ∷ port ∷ qv ∷ [] }
{}

/// Whether a run with this kernel has one order.
pub fn has_one_order(kernel: u8) -> bool
    ensures { result ≡ has_one_order kernel }
{
    kernel == SIM || kernel == QV
}

/// Whether a lane of a run with this kernel may try a `settle` in vain.
pub fn may_try(kernel: u8) -> bool
    ensures { result ≡ may_try kernel }
{
    kernel == QK || kernel == PORT
}
