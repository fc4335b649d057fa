//! First-in posts: an entry is claimed by tries, until a try succeeds or too few entries are free.

ghost use Rattle.std.specs.Prelude.{◌≡◌, ◌+◌, ◌≤◌, IsTrue};
ghost use Rattle.qp_model.specs.declared.words.Word.TheVariants as word;
ghost use Rattle.qp_model.specs.Sites.{ring_of};
ghost use Rattle.qp_model.specs.WordLaw.{is_object};
ghost use Rattle.qp_table.specs.Rule.{queue_at, mark_in, table_words};
ghost use Rattle.qp_table.specs.After.{HasRoom, InHand};
ghost use Rattle.qp_table.specs.Words.{value_seen};
ghost use Rattle.qp_table.specs.Told.{free_in};
ghost use Rattle.qp_shared_loops.specs.Ends.{ClaimEnds};

use atomic_table::Seat;
use qp_base::Steps;
use qp_shared_words::Words;
use qp_shared_words::queues::{claim, look_before_post};
use qp_table::View;
use std::sync::ledger::Ledger;

/// The free entries of a queue with so many cells but one, where its word shows these counts.
pub(crate) fn free_in(ring: u8, word: u64) -> u64
    ensures { result ≡ free_in ring word }
{
    let posts = word % 2097152 + word / 2097152 % 2097152;
    (u64::from(ring) + 1).saturating_sub(posts.saturating_sub(word / 4398046511104))
}

/// Claims an entry where more entries of the queue are free than the margin, None counting as 0. It looks, and then
/// tries until the word is still as it was last seen, or shows too few free entries. Answers the queue's word as it
/// was then, and whether the entry is claimed. `ring` is the queue's.
///
/// Tries are at most one more than others made operations on the word meanwhile.
pub fn claim_entry<L: Ledger>(
    words: &Words,
    seat: &mut Seat<(), View>,
    by: u8,
    object: u8,
    ring: u8,
    margin: Option<u8>,
    pool: u8,
    block: u16,
    name: u64,
    steps: &mut Steps<L>,
) -> (u64, bool)
    requires own { seat.old.table_id ≡ words.now.shared.table_id }
    requires wide { words.now.shared.table_id.words ≡ table_words }
    requires object { IsTrue (is_object words.now.shared.key object) }
    requires ring { ring ≡ ring_of words.now.shared.key object }
    requires room { HasRoom seat.old.me.0 }
    requires hand { InHand words.now.shared.key (record { pool = pool; block = block; name = name }) seat.old.me.0 }
    ensures same { (seat.new.table_id ≡ seat.old.table_id) × (seat.new.id ≡ seat.old.id) }
    ensures ends { ClaimEnds words.now.shared.key object by margin (record { pool = pool; block = block; name = name }) seat.old.me.0 result.0 result.1 seat.new.me.0 }
    ensures up { steps.old ≤ steps.new }
    ensures tries { steps.new + mark_in (queue_at object) (value_seen words.now.shared.key (word.Queue object) seat.old.me.0.seen) ≤ steps.old + 1 + mark_in (queue_at object) result.0 }
{
    let least = u64::from(margin.unwrap_or(0));
    let mut found = look_before_post(words, seat, by, object, margin);
    if free_in(ring, found) <= least {
        return (found, false);
    }
    loop {
        let now = claim(
            words, seat, by, object, margin, pool, block, name, found, steps,
        );
        if now == found {
            // Not `now`: what the caller makes of this needn't wait for the exchange.
            return (found, true);
        }
        if free_in(ring, now) <= least {
            return (now, false);
        }
        found = now;
    }
}
