//! Records read: what they say.

ghost use Rattle.std.specs.Prelude.{◌≡◌, ◌≤◌, length};
ghost use Rattle.qp_model.specs.Record.{body_at, body_of};

use crate::bodies::{Body, Entry, Params};
use crate::ending::of_end;
use crate::kinds;
use crate::record::Rec;
use arrayvec::ArrayVec;

impl Rec {
    /// What the record says; `Malformed` where its kind is none of a record or its numbers aren't those
    /// of its kind.
    #[tactic(auto, unfolding(crate::specs::Record::body_of))]
    pub fn body(&self) -> Body
        ensures { result ≡ body_of self.now }
    {
        let nums = self.nums.as_slice();
        match self.kind {
            kinds::BEGIN..=kinds::DONE => of_step(self.kind, nums),
            kinds::NEW..=kinds::LOCK => of_event(self.kind, nums),
            kinds::UNLOCK..=kinds::SETTLE => of_object(self.kind, nums),
            kinds::ASSERT..=kinds::REST => of_end(self.kind, nums),
            _ => Body::Malformed,
        }
    }
}

/// The notes of starts and steps, and looks at queues.
#[tactic(auto, unfolding(crate::specs::Record::body_at))]
fn of_step(kind: u8, nums: &[u64]) -> Body
    requires least { 4 ≤ kind }
    requires most { kind ≤ 14 }
    requires fits { length nums.now ≤ 13 }
    ensures { result ≡ body_at kind nums.now }
{
    match kind {
        kinds::BEGIN => match *nums {
            [] => Body::Begin,
            _ => Body::Malformed
        },
        kinds::TOOK => match *nums {
            [f, l, m, pool, block, name] => Body::Took {
                f,
                l,
                m,
                entry: Entry { pool, block, name },
            },
            _ => Body::Malformed
        },
        kinds::NIL => match *nums {
            [f, l, m] => Body::Nil { f, l, m },
            _ => Body::Malformed
        },
        kinds::SEEN => match *nums {
            [p, f, l, m] => Body::Seen { p, f, l, m },
            _ => Body::Malformed
        },
        kinds::RUN => match *nums {
            [state, row] => Body::Run { state, row },
            _ => Body::Malformed
        },
        kinds::NONE => match *nums {
            [] => Body::Unhandled,
            _ => Body::Malformed
        },
        kinds::EXIT => match *nums {
            [state] => Body::Exit { state },
            _ => Body::Malformed
        },
        kinds::ENTER => match *nums {
            [state] => Body::Enter { state },
            _ => Body::Malformed
        },
        kinds::INIT => match *nums {
            [state] => Body::Init { state },
            _ => Body::Malformed
        },
        kinds::SAY => match *nums {
            [value] => Body::Say { value },
            _ => Body::Malformed
        },
        _ => match *nums {
            [] => Body::Done,
            _ => Body::Malformed
        },
    }
}

/// Blocks, references, queues and publications.
#[tactic(auto, unfolding(crate::specs::Record::body_at))]
fn of_event(kind: u8, nums: &[u64]) -> Body
    requires least { 15 ≤ kind }
    requires most { kind ≤ 24 }
    requires fits { length nums.now ≤ 13 }
    ensures { result ≡ body_at kind nums.now }
{
    match kind {
        kinds::NEW => of_new(nums),
        kinds::SHORT => match *nums {
            [p, n, free, reserve] => Body::Short {
                p,
                n,
                free,
                reserve,
            },
            _ => Body::Malformed
        },
        kinds::INC => match *nums {
            [p, b, r] => Body::Inc { p, b, r },
            _ => Body::Malformed
        },
        kinds::DEC => match *nums {
            [p, b, d, k] => Body::Dec { p, b, d, k },
            _ => Body::Malformed
        },
        kinds::BACK => match *nums {
            [p, n, b, to] => Body::Back { p, n, b, to },
            _ => Body::Malformed
        },
        kinds::POST => match *nums {
            [a, f, l, m, pool, block, name] => Body::Post {
                a,
                f,
                l,
                m,
                entry: Entry { pool, block, name },
            },
            _ => Body::Malformed
        },
        kinds::LIFO => match *nums {
            [f, l, m, pool, block, name] => Body::Lifo {
                f,
                l,
                m,
                entry: Entry { pool, block, name },
            },
            _ => Body::Malformed
        },
        kinds::FULL => match *nums {
            [a, f, l, m, margin] => Body::Full { a, f, l, m, margin },
            _ => Body::Malformed
        },
        kinds::PUB => match *nums {
            [sig, n, set] => Body::Pub { sig, n, set },
            _ => Body::Malformed
        },
        _ => match *nums {
            [ceiling] => Body::Lock { ceiling },
            _ => Body::Malformed
        },
    }
}

/// Deferral, subscriptions, time events and stimuli.
#[tactic(auto, unfolding(crate::specs::Record::body_at))]
fn of_object(kind: u8, nums: &[u64]) -> Body
    requires least { 25 ≤ kind }
    requires most { kind ≤ 41 }
    requires fits { length nums.now ≤ 13 }
    ensures { result ≡ body_at kind nums.now }
{
    match kind {
        kinds::UNLOCK => match *nums {
            [ceiling] => Body::Unlock { ceiling },
            _ => Body::Malformed
        },
        kinds::DEFER => match *nums {
            [pool, block, name] => Body::Defer {
                entry: Entry { pool, block, name },
            },
            _ => Body::Malformed
        },
        kinds::NODEFER => match *nums {
            [] => Body::NoDefer,
            _ => Body::Malformed
        },
        kinds::RECALL => match *nums {
            [pool, block, name] => Body::Recall {
                entry: Entry { pool, block, name },
            },
            _ => Body::Malformed
        },
        kinds::NORECALL => match *nums {
            [] => Body::NoRecall,
            _ => Body::Malformed
        },
        kinds::FLUSH => match *nums {
            [pool, block, name] => Body::Flush {
                entry: Entry { pool, block, name },
            },
            _ => Body::Malformed
        },
        kinds::SUB => match *nums {
            [sig, n] => Body::Sub { sig, n },
            _ => Body::Malformed
        },
        kinds::UNSUB => match *nums {
            [sig, n] => Body::Unsub { sig, n },
            _ => Body::Malformed
        },
        kinds::SAME => match *nums {
            [sig, n] => Body::Same { sig, n },
            _ => Body::Malformed
        },
        kinds::ARM => match *nums {
            [t, n, ticks, interval] => Body::Arm {
                t,
                n,
                ticks,
                interval,
            },
            _ => Body::Malformed
        },
        kinds::DISARM => match *nums {
            [t, n, former] => Body::Disarm { t, n, former },
            _ => Body::Malformed
        },
        kinds::REARM => match *nums {
            [t, n, former, ticks] => Body::Rearm {
                t,
                n,
                former,
                ticks,
            },
            _ => Body::Malformed
        },
        kinds::IDLE => match *nums {
            [t, n] => Body::Idle { t, n },
            _ => Body::Malformed
        },
        kinds::TICK => match *nums {
            [t, n, counter] => Body::Tick { t, n, counter },
            _ => Body::Malformed
        },
        kinds::FIRE => match *nums {
            [t, n, reload] => Body::Fire { t, n, reload },
            _ => Body::Malformed
        },
        kinds::STIM => match *nums {
            [i, k] => Body::Stim { i, k },
            _ => Body::Malformed
        },
        _ => match *nums {
            [] => Body::Settle,
            _ => Body::Malformed
        },
    }
}

/// A block given out for an event.
#[tactic(auto, unfolding(crate::specs::Record::body_at))]
fn of_new(nums: &[u64]) -> Body
    requires { length nums.now ≤ 13 }
    ensures { result ≡ body_at 15 nums.now }
{
    match nums {
        [p, n, b, from, sig, rest @ ..] => {
            let mut items = ArrayVec::new();
            let _ = items.try_extend_from_slice(rest);
            Body::New {
                p: *p,
                n: *n,
                b: *b,
                from: *from,
                sig: *sig,
                pars: Params { items },
            }
        }
        _ => Body::Malformed,
    }
}
