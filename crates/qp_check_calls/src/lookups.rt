//! What the records of calls are compared with.

ghost use Rattle.std.specs.Prelude.{◌≡◌, nat_lt, nat_le, map};
ghost use Rattle.std.specs.List.{count_by, position};
ghost use Rattle.qp_model.specs.Sources.{same_list};
ghost use Rattle.qp_model.specs.Parts.{room_before, sizes_of, first_pool, timer_number};
ghost use Rattle.qp_model.specs.Shapes.{ticks_fit};
ghost use Rattle.qp_check_calls.specs.CallStateNext.{is_of};

use qp_model::{PoolDef, System};

/// Whether a timer takes these values.
#[tactic(auto, unfolding(qp_model::specs::Shapes::ticks_fit))]
pub fn do_fit(ticks: u64, interval: u64) -> bool
    ensures { result ≡ ticks_fit ticks interval }
{
    0 < ticks && ticks < 65536 && interval < 65536
}

/// Whether a post left more entries free than the margin before it; the counts are those after it.
#[tactic(auto, unfolding(qp_model::specs::Parts::room_before))]
pub fn had_free(ring: u8, margin: u8, f: u64, l: u64, m: u64) -> bool
    ensures { result ≡ nat_lt margin (room_before ring f l m) }
{
    let entries = u128::from(f.saturating_sub(1)) + u128::from(l);
    entries.saturating_sub(u128::from(m)) + u128::from(margin) <= u128::from(ring)
}

/// A number that is asked for, and is this one.
pub fn is_of(asked: Option<u8>, n: u64) -> bool
    ensures { result ≡ is_of asked n }
{
    match asked {
        Some(k) => u64::from(k) == n,
        None => false,
    }
}

/// Whether two lists of parameters are the same.
pub fn is_same_list(xs: &[u64], ys: &[u64]) -> bool
    ensures { result ≡ same_list xs.now ys.now }
{
    match (xs.split_first(), ys.split_first()) {
        (None, None) => true,
        (Some((x, more)), Some((y, others))) => *x == *y && is_same_list(more, others),
        _ => false,
    }
}

/// The place of the first pool with room for so many parameters.
fn pool_place(pools: &[PoolDef], n: usize) -> Option<usize>
    ensures { result ≡ position (λ d. nat_le n d.size) pools.now }
{
    pools.iter().position(|d| n <= usize::from(d.size))
}

fn is_first(pools: &[PoolDef], n: usize, p: u64) -> bool
    ensures { result ≡ is_of (first_pool (map (λ d. d.size) pools.now) n) p }
{
    match pool_place(pools, n) {
        Some(place) => place as u128 + 1 == u128::from(p),
        None => false,
    }
}

/// Whether the first pool with room for so many parameters has this number.
#[tactic(auto, unfolding(qp_model::specs::Parts::sizes_of))]
pub fn is_first_pool(sys: &System, n: usize, p: u64) -> bool
    ensures { result ≡ is_of (first_pool (sizes_of sys.now) n) p }
{
    is_first(&sys.pools.items, n, p)
}

/// The number of timers of objects before `o`.
fn timers_before(sys: &System, o: u8) -> usize
    ensures { result ≡ count_by (λ t. nat_lt t.object o) sys.now.timers }
{
    sys.timers.items.iter().filter(|t| t.object < o).count()
}

/// The number of an object's timer at this place of its chart.
#[tactic(auto, unfolding(qp_model::specs::Parts::timer_number))]
pub fn timer_number(sys: &System, o: u8, place: u8) -> u128
    ensures { result ≡ timer_number sys.now.timers o place }
{
    timers_before(sys, o) as u128 + u128::from(place)
}
