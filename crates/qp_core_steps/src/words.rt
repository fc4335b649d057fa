//! The words of the event table, and where each stands.

ghost use Rattle.std.specs.Prelude.{◌≡◌, slice_index, slice_set};
ghost use Rattle.qp_table.specs.Rule.{pool_at, block_at, queue_at, cell_at, event_word_at};
ghost use Rattle.qp_core_steps.specs.Seats.{glance};

use qp_table::Glance;
use std::marker::Model;

/// How many words the table has.
pub const WORDS: usize = 21128;

/// The words of the table. Contracts see the list.
#[derive(Drop)]
pub struct Words {
    pub items: Vec<u64>,
}

impl Model for Words {
    ghost use Rattle.std.specs.Prelude.{List, ℕ};

    ghost Value = { List ℕ };

    ghost view = { λ w. w.items.items };
}

impl Words {
    /// A word; 0 past the end.
    pub fn get(&self, at: usize) -> u64
        ensures { result ≡ slice_index self.now at }
    {
        self.items.get(at).copied().unwrap_or(0)
    }

    /// Writes a word; nothing past the end.
    pub fn set(&mut self, at: usize, value: u64)
        ensures { self.new ≡ slice_set self.old at value }
    {
        if at < self.items.len() {
            self.items[at] = value;
        }
    }
}

/// The word of a pool: 0 to 31 its free map, 32 to 63 its number.
pub fn pool_at(p: u8) -> usize
    ensures { result ≡ pool_at p }
{
    8 * p as usize
}

/// The word of a block: 0 to 31 its counter, 32 to 63 its number.
pub fn block_at(p: u8, b: u8) -> usize
    ensures { result ≡ block_at p b }
{
    128 + 8 * (32 * p as usize + b as usize)
}

/// The word of a queue: 0 to 20 its first-in posts, 21 to 41 its last-in posts, 42 to 62 its takes.
pub fn queue_at(a: u8) -> usize
    ensures { result ≡ queue_at a }
{
    4224 + 8 * a as usize
}

/// A cell of a queue.
pub fn cell_at(a: u8, j: u16) -> usize
    ensures { result ≡ cell_at a j }
{
    4488 + 256 * a as usize + j as usize
}

/// An event word of a block.
pub fn event_at(p: u8, b: u8, j: u8) -> usize
    ensures { result ≡ event_word_at p b j }
{
    12936 + 16 * (32 * p as usize + b as usize) + j as usize
}

/// What the word at this place showed.
pub fn glance_at(word: usize, value: u64) -> Glance
    ensures { result ≡ glance word value }
{
    Glance {
        word: word as u64,
        value,
    }
}
