//! What words showed a seat, as only contracts see it.

ghost use Rattle.std.specs.Prelude.{◌≡◌, List, [], ◌∷◌, ◌++◌};
ghost use Rattle.std.specs.Borrow.{ftrue};
ghost use Rattle.qp_table.specs.declared.view.Glance.{Glance as AGlance};

use qp_table::Glance;
use std::marker::Model;

/// What words showed a seat, one glance behind another. It takes no bytes.
#[derive(Drop)]
pub struct Glances {
    pub ghost list: { List AGlance },
}

impl Model for Glances {
    ghost also_owns = { λ _. ftrue };
}

impl Glances {
    /// None.
    pub fn new() -> Glances
        ensures { result ≡ record { list = [] } }
    {
        Glances {}
    }

    /// One more, behind the others.
    pub fn with(_before: &Glances, _glance: &Glance) -> Glances
        ensures { result ≡ record { list = _before.now.list ++ _glance.now ∷ [] } }
    {
        Glances {}
    }

    /// These, and the others behind them.
    pub fn joined(_before: &Glances, _behind: &Glances) -> Glances
        ensures { result ≡ record { list = _before.now.list ++ _behind.now.list } }
    {
        Glances {}
    }
}
