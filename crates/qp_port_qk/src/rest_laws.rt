//! Laws of the kernel's lane between two turns. Each function here does nothing: its contract is the law.

ghost use Rattle.qp_port_qk.specs.RestLaws.{TurnedKernelsEnd, TurnedKernelsRest};

/// Where starts and turns have come to the base, and the kernel's lane was the last to look at every queue and saw it empty, nothing
/// is left undone in its lane.
pub fn turned_kernels_rest()
    ensures { TurnedKernelsRest }
{}

/// A run may end there, quietly or by a stop in another lane.
pub fn turned_kernels_end()
    ensures { TurnedKernelsEnd }
{}
