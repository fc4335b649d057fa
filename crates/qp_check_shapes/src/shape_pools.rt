//! The pools that new events go to.

ghost use Rattle.std.specs.Prelude.{◌≡◌, map};
ghost use Rattle.qp_model.specs.Parts.{sizes_of};
ghost use Rattle.qp_check_shapes.specs.ShapeUnit.{goes_to, is_used};

use qp_model::{PoolDef, System};

fn goes_in(pools: &[PoolDef], n: usize, p: u64) -> bool
    ensures { result ≡ goes_to (map (λ d. d.size) pools.now) n p }
{
    let mut left = p;
    for d in pools {
        if n <= usize::from(d.size) {
            return left == 1;
        }
        left = left.saturating_sub(1);
    }
    false
}

/// Whether events with `n` parameters go to pool `p`: it is the first with room for them.
#[tactic(auto, unfolding(qp_model::specs::Parts::sizes_of))]
pub fn goes_to(sys: &System, n: usize, p: u64) -> bool
    ensures { result ≡ goes_to (sizes_of sys.now) n p }
{
    goes_in(&sys.pools.items, n, p)
}

fn used_in(pools: &[PoolDef], p: u64) -> bool
    ensures { result ≡ is_used (map (λ d. d.size) pools.now) p }
{
    let mut low = 0;
    let mut left = p;
    for d in pools {
        let size = u16::from(d.size);
        if left <= 1 {
            return left == 1 && low <= size;
        }
        low = low.max(size + 1);
        left -= 1;
    }
    false
}

/// Whether some events go to pool `p`: it has more room than those before it.
#[tactic(auto, unfolding(qp_model::specs::Parts::sizes_of))]
pub fn is_used(sys: &System, p: u64) -> bool
    ensures { result ≡ is_used (sizes_of sys.now) p }
{
    used_in(&sys.pools.items, p)
}
