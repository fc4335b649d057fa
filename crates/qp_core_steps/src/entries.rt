//! What a queue's word counts, and entries as cells have them.

ghost use Rattle.std.specs.Prelude.{◌≡◌};
ghost use Rattle.qp_table.specs.QueueLaws.{f_in, l_in, m_in};
ghost use Rattle.qp_core_steps.specs.Queues.{entry_for, has_free_entry, operations_in, code_of_entry, front_at, before_at, decoded_entry};

use qp_model::{Entry, System};

/// What a last-in post adds to a queue's word; a first-in post adds 1.
pub const LIFO: u64 = 1 << 21;

/// What a take adds to a queue's word.
pub const TAKE: u64 = 1 << 42;

/// The first-in posts that a queue's word counts.
pub fn posts_in(word: u64) -> u32
    ensures { result ≡ f_in word }
{
    (word % LIFO) as u32
}

/// The last-in posts that a queue's word counts.
pub fn lifos_in(word: u64) -> u32
    ensures { result ≡ l_in word }
{
    (word / LIFO % LIFO) as u32
}

/// The takes that a queue's word counts.
pub fn takes_in(word: u64) -> u32
    ensures { result ≡ m_in word }
{
    (word / TAKE) as u32
}

/// How many operations a queue's word shows.
pub fn count_in(word: u64) -> u64
    ensures { result ≡ operations_in word }
{
    u64::from(posts_in(word)) + u64::from(lifos_in(word)) + u64::from(takes_in(word))
}

/// The entry that a step names.
pub fn entry_for(p: u8, b: u8, name: u64) -> Entry
    ensures { result ≡ entry_for p b name }
{
    if p == 0 {
        Entry {
            pool: 0,
            block: name,
            name: 0,
        }
    } else {
        Entry {
            pool: u64::from(p),
            block: u64::from(b),
            name,
        }
    }
}

/// Whether an entry is free at these counts.
pub fn has_room(sys: &System, a: u8, word: u64) -> bool
    ensures { result ≡ has_free_entry sys.now a word }
{
    u64::from(posts_in(word)) + u64::from(lifos_in(word))
        < u64::from(takes_in(word)) + u64::from(sys.ring_of(u64::from(a))) + 1
}

/// The cell of the front entry.
pub fn front_at(sys: &System, a: u8, word: u64) -> u16
    ensures { result ≡ front_at sys.now a word }
{
    let ring = u64::from(sys.ring_of(u64::from(a)));
    ((u64::from(takes_in(word)) + ring * u64::from(lifos_in(word))) % (ring + 1)) as u16
}

/// The cell before that of the front entry.
pub fn before_at(sys: &System, a: u8, word: u64) -> u16
    ensures { result ≡ before_at sys.now a word }
{
    let ring = u64::from(sys.ring_of(u64::from(a)));
    ((u64::from(takes_in(word)) + ring * u64::from(lifos_in(word)) + ring) % (ring + 1)) as u16
}

/// An entry as a cell has it.
pub fn code_in(e: Entry) -> u64
    ensures { result ≡ code_of_entry e }
{
    let low = if e.pool == 0 {
        e.block
    } else {
        e.pool
            .wrapping_mul(1 << 53)
            .wrapping_add(e.block.wrapping_mul(1 << 48))
            .wrapping_add(e.name)
    };
    low.wrapping_add(1 << 63)
}

/// The entry of which a cell has the code.
pub fn entry_in(code: u64) -> Entry
    ensures { result ≡ decoded_entry code }
{
    let low = code % (1 << 63);
    let pool = low / (1 << 53);
    if pool == 0 {
        return Entry {
            pool: 0,
            block: low,
            name: 0,
        };
    }
    Entry {
        pool,
        block: code % (1 << 53) / (1 << 48),
        name: code % (1 << 48),
    }
}
