//! What a publication waits for, record by record.

ghost use Rattle.std.specs.Prelude.{◌≡◌, ◌/◌, ◌%◌, ◌^◌, ◌==◌};
ghost use Rattle.qp_check_shapes.specs.ShapePublication.{publication_released, after_posts, next_post, published};

use qp_model::Entry;

/// The ceiling of a publication's posts: a source raises none.
#[derive(Clone, Copy)]
pub enum Ceiling {
    Stays,
    Rises,
    Rose { former: u64 },
}

/// A publication whose post to member `to` is next; the members up to `below` follow.
#[derive(Clone, Copy)]
pub struct Posting {
    pub entry: Entry,
    pub to: u8,
    pub below: u8,
    pub set: u64,
    pub ceiling: Ceiling,
}

/// How far a publication has come.
#[derive(Clone, Copy)]
pub enum PublishStage {
    Start,
    /// A block was given out for an event of this signal.
    Given { p: u64, b: u64, sig: u64 },
    /// The event has its entry.
    Made { entry: Entry, sig: u64 },
    Posts { posting: Posting },
    /// The post has reference `r` of its own.
    Referred { posting: Posting, r: u64 },
    /// All is posted under a ceiling that is restored next.
    Raised { entry: Entry, former: u64 },
    /// The publication's own reference is released next.
    Posted { entry: Entry },
    /// Operation `d` dropped the last reference of a block.
    Dropped { p: u64, b: u64, d: u64 },
    Whole,
    /// A queue had no entry left, which is assertion 1.
    Cut,
}

/// Where no post is left and the ceiling is as before.
pub fn released(entry: Entry) -> PublishStage
    ensures { result ≡ publication_released entry }
{
    if entry.pool == 0 {
        PublishStage::Whole
    } else {
        PublishStage::Posted { entry }
    }
}

/// Where no post is left.
fn after_posts(entry: Entry, ceiling: Ceiling) -> PublishStage
    ensures { result ≡ after_posts entry ceiling }
{
    match ceiling {
        Ceiling::Rose { former } => PublishStage::Raised { entry, former },
        _ => released(entry),
    }
}

/// Whether the object of priority n + 1 is in a set.
fn has_member(set: u64, n: u8) -> bool
    ensures { result ≡ ((set / 2 ^ n) % 2 == 1) }
{
    n < 64 && (set >> n) % 2 == 1
}

/// Where the post to the highest member up to `below` is next.
pub fn next_post(entry: Entry, set: u64, ceiling: Ceiling, below: u8) -> PublishStage
    ensures { result ≡ next_post entry set ceiling below }
{
    let mut n = below;
    while n > 0 {
        n -= 1;
        if has_member(set, n) {
            let posting = Posting {
                entry,
                to: n + 1,
                below: n,
                set,
                ceiling,
            };
            return PublishStage::Posts { posting };
        }
    }
    after_posts(entry, ceiling)
}

/// Where the set was shown: an object's ceiling rises if the set has a member.
#[tactic(auto, unfolding(crate::specs::ShapePublication::published))]
pub fn published(o: u8, entry: Entry, set: u64) -> PublishStage
    ensures { result ≡ published o entry set }
{
    let ceiling = if o == 0 {
        Ceiling::Stays
    } else {
        Ceiling::Rises
    };
    next_post(entry, set, ceiling, 32)
}
