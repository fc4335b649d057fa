//! Which source is chosen to act.

ghost use Rattle.std.specs.Prelude.{◌≡◌, ◌<◌, length};
ghost use Rattle.qp_model.specs.OneOrder.{may_act};

use crate::world::SimWorld;
use qp_model::Stim;

impl SimWorld<'_> {
    ghost use Rattle.qp_kernel_runs.specs.Choosing.{IsChosen, left_of};

    /// Whether the source in a place, from 0, has a stimulus left which may act; a settle may only where `rests` says so.
    fn may(&self, j: usize, rests: bool) -> bool
        requires { j < length self.now.stim.now }
        ensures { result ≡ may_act rests (left_of self.now.stim.now self.now.begun.items j) }
    {
        let stim = self.stim;
        let source = &stim.sources[j];
        match source.items.get(self.begun[j] as usize) {
            None => false,
            Some(Stim::Settle) => rests,
            Some(_) => true,
        }
    }

    /// The place, from 0, of the source that acts next: the first, in cyclic order behind the one that acted last, which
    /// may.
    pub(crate) fn chosen(&self, rests: bool) -> Option<usize>
        ensures { IsChosen rests self.now.stim.now self.now.begun.items self.now.last result }
    {
        let last = self.last as usize;
        let n = self.begun.len();
        for k in 0..n {
            let j = if last + k < n { last + k } else { last + k - n };
            if self.may(j, rests) {
                return Some(j);
            }
        }
        None
    }
}
