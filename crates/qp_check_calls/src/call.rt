//! The calls that actions and stimuli make, and their answers.

use qp_model::Params;

/// A call with its arguments, values by their 64 bits. A timer goes by its place in the chart, from 1.
#[derive(Drop)]
pub enum Call {
    Post {
        to: u8,
        sig: u16,
        pars: Params,
        margin: Option<u8>,
        reserve: Option<u8>,
    },
    Lifo {
        sig: u16,
        pars: Params,
        reserve: Option<u8>,
    },
    Forward {
        to: u8,
        margin: Option<u8>,
    },
    Publish {
        sig: u16,
        pars: Params,
        reserve: Option<u8>,
    },
    Defer,
    Recall,
    Flush,
    Subscribe {
        sig: u16,
    },
    Unsubscribe {
        sig: u16,
    },
    Arm {
        timer: u8,
        ticks: u64,
        interval: u64,
    },
    Rearm {
        timer: u8,
        ticks: u64,
    },
    Disarm {
        timer: u8,
    },
}

/// The answer of a call: 1, 0, the number of flushed entries, or an assertion.
#[derive(Clone, Copy, PartialEq, Eq, Debug)]
pub enum Answer {
    Granted,
    Refused,
    Flushed { n: u64 },
    /// Assertion 1: no entry of a queue was free.
    AtQueue,
    /// Assertion 2: no block was free.
    AtPool,
    /// Assertion 3: the timer was armed.
    AtTimer,
    /// Assertion 4: the values are none for a timer.
    AtTicks,
    /// Assertion 5: no entry was free for a last-in post.
    AtFront,
}
