//! What the system is asked for.

ghost use Rattle.std.specs.Prelude.{◌≡◌, ◌≤◌};
ghost use Rattle.qp_model.specs.WordLaw.{is_pool, is_block, is_object};
ghost use Rattle.qp_core_steps.specs.Blocks.{lowest, fits, block_size, bit_of};

use qp_base::Ev;
use qp_model::System;

/// Whether the system has the pool.
pub fn has_pool(sys: &System, p: u8) -> bool
    ensures { result ≡ is_pool sys.now p }
{
    0 < p && usize::from(p) <= sys.pools.items.len()
}

/// Whether the system has the block.
#[tactic(auto, unfolding(qp_model::specs::WordLaw::is_block))]
pub fn has_block(sys: &System, p: u8, b: u8) -> bool
    ensures { result ≡ is_block sys.now p b }
{
    has_pool(sys, p) && b < sys.blocks_of(u64::from(p))
}

/// Whether the system has the object.
#[tactic(auto, unfolding(qp_model::specs::WordLaw::is_object))]
pub fn has_object(sys: &System, a: u8) -> bool
    ensures { result ≡ is_object sys.now a }
{
    sys.object_at(u64::from(a)).is_some()
}

/// The size of a pool's blocks, 0 where there is no such pool.
pub fn size_of(sys: &System, p: u8) -> u8
    ensures { result ≡ block_size sys.now p }
{
    match sys.pools.items.get(usize::from(p.saturating_sub(1))) {
        Some(pool) => pool.size,
        None => 0,
    }
}

/// Whether it is an event of the system for which the pool's blocks have room.
pub fn fits(sys: &System, p: u8, ev: &Ev) -> bool
    ensures { result ≡ fits sys.now p ev.now.sig ev.now.pars.items }
{
    let count = ev.pars.len();
    let Some(at) = ev.sig.checked_sub(4) else {
        return false;
    };
    match sys.signals.items.get(usize::from(at)) {
        Some(signal) => {
            count == usize::from(signal.params) && count <= usize::from(size_of(sys, p))
        }
        None => false,
    }
}

/// The lowest bit that is 1, of so many.
pub fn lowest(left: u8, map: u64) -> u8
    ensures value { result ≡ lowest left map }
    ensures most { result ≤ left }
{
    if left == 0 || map % 2 == 1 {
        0
    } else {
        lowest(left - 1, map / 2) + 1
    }
}

/// The bit of a block; a word has 64.
pub fn bit_of(b: u8) -> u64
    ensures value { result ≡ bit_of b }
    ensures most { result ≤ 9223372036854775808 }
{
    if b < 64 { 1 << b } else { 0 }
}
