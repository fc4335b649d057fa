//! What the word of a time event holds.

ghost use Rattle.std.specs.Prelude.{◌≡◌};
ghost use Rattle.qp_model.specs.TimeEvents.{Clock, time_event};

use crate::word_state::WordState;
use qp_model::Body;
use std::alloc::AllocError;

/// A time event's counter and interval, after so many operations.
#[derive(Drop)]
pub struct TimeEvent {
    count: u64,
    counter: u64,
    interval: u64,
}

impl TimeEvent {
    /// One that is disarmed.
    pub fn new() -> Self
        ensures { result ≡ record { count = 0; counter = 0; interval = 0 } }
    {
        TimeEvent {
            count: 0,
            counter: 0,
            interval: 0,
        }
    }
}

impl WordState for TimeEvent {
    ghost State = { Clock };

    ghost machine = { λ _. time_event };

    ghost state = { λ s. record { count = s.count; counter = s.counter; interval = s.interval } };

    fn allows(&self, _of: u8, body: &Body) -> bool {
        match body {
            Body::Arm { n, .. } => *n == self.count && self.counter == 0,
            Body::Disarm { n, former, .. } => {
                *n == self.count && self.counter == *former && *former != 0
            }
            Body::Rearm { n, former, .. } => *n == self.count && self.counter == *former,
            Body::Tick { n, counter, .. } => {
                *n == self.count && self.counter.checked_sub(1) == Some(*counter) && *counter > 0
            }
            Body::Fire { n, reload, .. } => {
                *n == self.count && self.counter == 1 && *reload == self.interval
            }
            _ => false,
        }
    }

    fn apply(&mut self, _of: u8, body: &Body) -> Result<(), AllocError> {
        match body {
            Body::Arm {
                ticks,
                interval,
                ..
            } => {
                self.count += 1;
                self.counter = *ticks;
                self.interval = *interval;
            }
            Body::Disarm { .. } => {
                self.count += 1;
                self.counter = 0;
            }
            Body::Rearm { ticks: counter, .. }
            | Body::Tick { counter, .. }
            | Body::Fire {
                reload: counter,
                ..
            } => {
                self.count += 1;
                self.counter = *counter;
            }
            _ => {}
        }
        Ok(())
    }

    fn says(&self, body: &Body) -> bool {
        match body {
            Body::Idle { .. } => self.counter == 0,
            Body::Armed { counter, .. } => self.counter == *counter && *counter != 0,
            _ => false,
        }
    }
}
