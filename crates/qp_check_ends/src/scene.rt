//! What a system says of queues and pools.

ghost use Rattle.std.specs.Prelude.{◌≡◌, map, None, is_some};
ghost use Rattle.qp_model.specs.Able.{has_pool};
ghost use Rattle.qp_model.specs.Parts.{first_pool};
ghost use Rattle.qp_model.specs.Sites.{ring_of};
ghost use Rattle.qp_check_calls.specs.AsCall.{as_call};
ghost use Rattle.qp_check_calls.specs.Reads.{call_able};
ghost use Rattle.qp_check_ends.specs.TickState.{ring_had_room};

use qp_check_calls::Call;
use qp_check_calls::lookups::had_free;
use qp_model::{PoolDef, System};

/// Whether an entry of the queue of `a` was free before a post after which the counts are these.
#[tactic(auto, unfolding(crate::specs::TickState::ring_had_room))]
pub fn had_room(sys: &System, a: u8, f: u64, l: u64, m: u64) -> bool
    ensures { result ≡ ring_had_room (ring_of sys.now a) f l m }
{
    had_free(sys.ring_of(u64::from(a)), 0, f, l, m)
}

/// Whether a pool has room for so many parameters.
fn has_room(pools: &[PoolDef], n: usize) -> bool
    ensures { result ≡ is_some (first_pool (map (λ d. d.size) pools.now) n) }
{
    for d in pools {
        if n <= usize::from(d.size) {
            return true;
        }
    }
    false
}

/// Whether an event of a signal with so many parameters is static or has a pool.
#[tactic(auto, unfolding(qp_model::specs::Able::has_pool, qp_model::specs::Parts::sizes_of))]
fn has_pool(sys: &System, sig: u16, n: usize) -> bool
    ensures { result ≡ has_pool sys.now sig n }
{
    sys.is_static(u64::from(sig)) || has_room(&sys.pools.items, n)
}

/// Whether a call has what it asks for, with no entry at hand.
#[tactic(auto, unfolding(qp_check_calls::specs::Reads::call_able))]
pub fn is_able(sys: &System, call: &Call) -> bool
    ensures { result ≡ call_able sys.now None (as_call call.now) }
{
    match call {
        Call::Post { sig, pars, .. }
        | Call::Lifo { sig, pars, .. }
        | Call::Publish { sig, pars, .. } => has_pool(sys, *sig, pars.items.len()),
        Call::Forward { .. } | Call::Defer => false,
        _ => true,
    }
}
