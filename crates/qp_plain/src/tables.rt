//! The tables of a world in which nothing has happened.

ghost use Rattle.std.specs.Prelude.{◌≡◌, ◌≤◌, ℕ, IfOk, length, true};
ghost use Rattle.std.specs.List.{list_all};
ghost use Rattle.qp_model.specs.Sites.{blocks_of};
ghost use Rattle.qp_plain.specs.Fresh.{free_pool, first_queue, is_fresh_log, tabulated};
ghost use Rattle.qp_plain.specs.Tables.{no_clock, no_signal};

use arrayvec::ArrayVec;
use qp_base::{Ev, Memory};
use qp_calls_log::Log;
use qp_model::System;
use qp_plain_words::{PoolWord, QueueWord, SignalWord, TimerWord};
use std::alloc::Global;

/// So many lanes without a record.
pub(crate) fn lanes(alloc: Global, n: u32) -> Result<Vec<Log>, Memory>
    ensures all { IfOk result (λ v. list_all is_fresh_log v.items ≡ true) }
    ensures long { IfOk result (λ v. length v.items ≡ n) }
{
    let mut logs = Vec::new(alloc);
    for _ in 0..n {
        let log = Log::new(alloc)?;
        let Ok(()) = logs.push(log) else {
            return Err(Memory);
        };
    }
    Ok(logs)
}

/// The pools, with all blocks free.
pub(crate) fn pools(alloc: Global, sys: &System) -> Result<Vec<PoolWord>, Memory>
    requires { (p : ℕ) → blocks_of sys.now p ≤ 32 }
    ensures { IfOk result (λ v. v.items ≡ tabulated (free_pool sys.now) (length sys.now.pools)) }
{
    let mut words = Vec::new(alloc);
    for k in 0..sys.pools.items.len() {
        let word = PoolWord::new(sys.blocks_of(k as u64 + 1));
        let Ok(()) = words.push(word) else {
            return Err(Memory);
        };
    }
    Ok(words)
}

/// Places for the events in the blocks.
pub(crate) fn cells(alloc: Global) -> Result<Vec<Ev>, Memory>
    ensures { IfOk result (λ v. length v.items ≡ 480) }
{
    let mut events = Vec::new(alloc);
    for _ in 0..480u32 {
        let none = Ev {
            sig: 0,
            pars: ArrayVec::new(),
        };
        let Ok(()) = events.push(none) else {
            return Err(Memory);
        };
    }
    Ok(events)
}

/// The queues by priority, all empty.
pub(crate) fn queues(alloc: Global, sys: &System) -> Result<Vec<QueueWord>, Memory>
    ensures { IfOk result (λ v. v.items ≡ tabulated (first_queue sys.now) 33) }
{
    let mut words = Vec::new(alloc);
    for a in 0..33u64 {
        let word = QueueWord::new(alloc, sys.ring_of(a))?;
        let Ok(()) = words.push(word) else {
            return Err(Memory);
        };
    }
    Ok(words)
}

/// The signals, without subscribers.
pub(crate) fn signals(alloc: Global, sys: &System) -> Result<Vec<SignalWord>, Memory>
    ensures { IfOk result (λ v. v.items ≡ tabulated (λ k. no_signal) (length sys.now.signals)) }
{
    let mut words = Vec::new(alloc);
    for _ in 0..sys.signals.items.len() {
        let Ok(()) = words.push(SignalWord { ops: 0, set: 0 }) else {
            return Err(Memory);
        };
    }
    Ok(words)
}

/// The time events, all disarmed.
pub(crate) fn timers(alloc: Global, sys: &System) -> Result<Vec<TimerWord>, Memory>
    ensures { IfOk result (λ v. v.items ≡ tabulated (λ k. no_clock) (length sys.now.timers)) }
{
    let mut words = Vec::new(alloc);
    for _ in 0..sys.timers.items.len() {
        let Ok(()) = words.push(TimerWord::new()) else {
            return Err(Memory);
        };
    }
    Ok(words)
}
