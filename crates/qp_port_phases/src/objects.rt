//! The objects at whose queues phases look.

ghost use Rattle.std.specs.Prelude.{◌≡◌, IfOk};
ghost use Rattle.qp_model.specs.Sources.{priorities};

use qp_model::System;
use std::alloc::{AllocError, Global};

/// The priorities of the objects.
pub fn objects_of(alloc: Global, sys: &System) -> Result<Vec<u8>, AllocError>
    ensures { IfOk result (λ objects. objects.items ≡ priorities sys.now) }
{
    sys.objects.items.iter().map(|d| d.priority).collect(alloc)
}
