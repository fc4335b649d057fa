//! The word of a time event.

ghost use Rattle.std.specs.Prelude.{◌≡◌, ◌+◌, ◌<◌};
ghost use Rattle.qp_plain_words.specs.Ticked.{TicksTo};

use qp_calls::Tick;
use std::marker::Model;

/// How many operations a time event had, the ticks that are left, 0 where it is disarmed, and with what a counter
/// that reaches 0 is reloaded.
///
/// Contracts see what the law book has of a time event.
#[derive(Drop)]
pub struct TimerWord {
    ops: u32,
    counter: u16,
    interval: u16,
}

impl Model for TimerWord {
    ghost use Rattle.qp_model.specs.TimeEvents.{Clock};

    ghost Value = { Clock };

    ghost view = { λ w. record { count = w.ops; counter = w.counter; interval = w.interval } };
}

impl TimerWord {
    /// A time event that is disarmed.
    pub fn new() -> TimerWord
        ensures { result ≡ record { count = 0; counter = 0; interval = 0 } }
    {
        TimerWord {
            ops: 0,
            counter: 0,
            interval: 0,
        }
    }

    /// The number of its operations.
    pub fn ops(&self) -> u32
        ensures { result ≡ self.now.count }
    {
        self.ops
    }

    /// The ticks that are left.
    pub fn counter(&self) -> u16
        ensures { result ≡ self.now.counter }
    {
        self.counter
    }

    /// Sets counter and interval.
    pub fn arm(&mut self, ticks: u16, interval: u16)
        requires { self.old.count < 4294967295 }
        ensures { self.new ≡ record { count = self.old.count + 1; counter = ticks; interval = interval } }
    {
        self.ops += 1;
        self.counter = ticks;
        self.interval = interval;
    }

    /// Sets the counter, to 0 where the time event is disarmed. The interval stays.
    pub fn set(&mut self, ticks: u16)
        requires { self.old.count < 4294967295 }
        ensures { self.new ≡ record { count = self.old.count + 1; counter = ticks; interval = self.old.interval } }
    {
        self.ops += 1;
        self.counter = ticks;
    }

    /// A tick: one less is left, or the interval where the last one fell. A disarmed time event stays as it is.
    pub fn tick(&mut self) -> Tick
        requires { self.old.count < 4294967295 }
        ensures { TicksTo self.old self.new result }
    {
        match self.counter {
            0 => Tick::Idle,
            1 => {
                self.set(self.interval);
                Tick::Fired
            }
            _ => {
                self.set(self.counter - 1);
                Tick::Down
            }
        }
    }
}
