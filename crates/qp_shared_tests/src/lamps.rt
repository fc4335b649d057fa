//! The system of the tests of lanes that ring.

ghost use Rattle.std.specs.Prelude.{◌≡◌, IfSome, true};
ghost use Rattle.qp_model.specs.Sound.{IsSound};
ghost use Rattle.qp_shared_tests.specs.Lamps.{IsLamp};

use crate::objects::{has_object, stands_at};
use crate::systems::system;
use qp_model::System;
use std::alloc::{AllocError, Global};

/// A lamp with this queue. GO switches it on.
fn text(alloc: Global, queue: u8) -> Result<String, AllocError> {
    format!(in alloc;
        "qp = 1
signal = [{{ name = 'GO', static = true }}]
object = [{{ name = 'lamp', chart = 'lamp', priority = 1, queue = {queue} }}]
[[chart]]
name = 'lamp'
init = 'off'
state = [{{ name = 'off', row = [{{ on = 'GO', to = 'on' }}] }}, {{ name = 'on' }}]
"
    )
}

/// The system with a lamp with this queue.
pub(crate) fn lamp(alloc: Global, queue: u8) -> Option<System>
    ensures { IfSome result (λ sys. IsSound sys) }
{
    match text(alloc, queue) {
        Ok(file) => system(alloc, file.as_str()),
        Err(_) => None,
    }
}

/// Whether the first object of the system has priority 1, and its first signal is static.
pub(crate) fn is_lamp(sys: &System) -> bool
    ensures { result ≡ true → IsLamp sys.now }
{
    stands_at(sys, 0, 1) && has_object(sys, 1) && sys.is_static(4)
}
