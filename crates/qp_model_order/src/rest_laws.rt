//! Laws of the kernel's rests. Each function here does nothing: its contract is the law.

ghost use Rattle.qp_model_order.specs.RestLaws.{RestsWhereNothingWaits};

/// Wherever the kernel rests, in the one order of the run, no entry waits in any object's queue.
pub fn the_kernel_rests_where_nothing_waits()
    ensures { RestsWhereNothingWaits }
{}
