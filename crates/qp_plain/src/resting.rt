//! Worlds whose queues are all empty.

ghost use Rattle.std.specs.Prelude.{◌≡◌};
ghost use Rattle.qp_model.specs.OneOrder.{all_empty};

use crate::world::PlainWorld;

impl PlainWorld<'_> {
    ghost use Rattle.qp_plain.specs.NewWorld.{log_in};

    /// Whether every queue is empty, as the records tell: of each object's queue as many entries were posted as taken.
    pub fn rests(&self) -> bool
        ensures { result ≡ all_empty self.now.sys.now (log_in self.now) }
    {
        let sys = self.sys;
        for d in sys.objects.items.iter() {
            let now = self.queues[usize::from(d.priority)].counts();
            if u64::from(now.f) + u64::from(now.l) != u64::from(now.m) {
                return false;
            }
        }
        true
    }
}
