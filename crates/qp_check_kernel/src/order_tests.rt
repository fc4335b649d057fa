//! What is asked of the one order.

ghost use Rattle.std.specs.Prelude.{◌≡◌, [], map, IfOk};
ghost use Rattle.qp_model.specs.Ends.{ends_last};
ghost use Rattle.qp_model.specs.Places.{in_order};
ghost use Rattle.qp_check_kernel.specs.AsPlaced.{said_at};

use crate::stimulus_index::Placed;
use qp_check_lanes::record_tests::is_end;
use qp_check_lanes::word_totals::Totals;
use qp_model::Touched;
use std::alloc::{AllocError, Global};

/// Whether nothing follows a record that ends a lane.
pub fn nothing_follows(order: &[Placed]) -> bool
    ensures { result ≡ ends_last (map said_at order.now) }
{
    match order.split_last() {
        Some((_, front)) => front.iter().all(|x| !is_end(x.rec)),
        None => true,
    }
}

/// Whether each number drawn or shown is that of its word's operations before it.
pub fn numbers_stand(alloc: Global, order: &[Placed]) -> Result<bool, AllocError>
    ensures { IfOk result (λ b. b ≡ in_order [] (map said_at order.now)) }
{
    let mut totals = Totals::none(alloc);
    for x in order {
        let touched = Touched::by(x.rec);
        if !totals.is_next(touched) {
            return Ok(false);
        }
        totals.count(alloc, touched)?;
    }
    Ok(true)
}
