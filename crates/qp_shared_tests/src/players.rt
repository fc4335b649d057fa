//! A lane that posts and takes, on a thread of its own.

ghost use Rattle.std.specs.Prelude.{◌≡◌, ◌<◌};
ghost use Rattle.qp_shared_tests.specs.Lanes.{IsPlayer, IsSame};

use qp_base::{Ev, Steps};
use qp_calls::{Ops, Take, end_step, post_new, post_static};
use qp_model::System;
use qp_port_phases::Worker;
use std::marker::Brand;
use std::sync::Wait;
use std::sync::ledger::{Blank, Ledger};

/// What a player plays with: the system, the event that it posts in blocks, the object whose entries it takes, and the other one.
#[derive(Clone, Copy)]
pub(crate) struct Terms<'a> {
    pub(crate) sys: &'a System,
    pub(crate) ev: &'a Ev,
    pub(crate) me: u8,
    pub(crate) to: u8,
}

/// Takes an entry, where there is room for its records. Whether one was there.
fn take_one<R: Wait, O: Ops>(rt: &R, ops: &mut O, at: &Terms<'_>) -> Option<bool>
    requires { IsPlayer at.now.sys.now at.now.ev.now at.now.me at.now.to (O.lane ops.old) }
    ensures { IsSame (O.lane ops.old) (O.lane ops.new) }
{
    let Ok(()) = ops.room() else {
        return None;
    };
    match ops.take(rt, at.me) {
        Take::Empty { .. } => Some(false),
        Take::Taken(e) => match end_step(ops, e) {
            Ok(_) => Some(true),
            Err(_) => None,
        },
    }
}

/// Posts to both objects, which may be refused, and takes two entries. Whether there was room for it.
fn round<R: Wait, O: Ops, L: Ledger>(
    rt: &R,
    ops: &mut O,
    at: &Terms<'_>,
    steps: &mut Steps<L>,
) -> bool
    requires { IsPlayer at.now.sys.now at.now.ev.now at.now.me at.now.to (O.lane ops.old) }
    ensures { IsSame (O.lane ops.old) (O.lane ops.new) }
{
    if post_new(ops, at.sys, at.to, at.ev, Some(0), Some(0), steps).is_err() {
        return false;
    }
    if post_static(ops, at.me, 4, Some(0), steps).is_err() {
        return false;
    }
    take_one(rt, ops, at).is_some() && take_one(rt, ops, at).is_some()
}

/// Plays so many rounds. Whether there was room for all.
fn play<R: Wait, O: Ops, L: Ledger>(
    rt: &R,
    ops: &mut O,
    at: &Terms<'_>,
    rounds: u32,
    blank: Blank,
) -> bool
    requires name { blank.name ≡ L.name }
    requires parts { blank.parts ≡ L.parts }
    requires some { 0 < blank.parts }
    requires player { IsPlayer at.now.sys.now at.now.ev.now at.now.me at.now.to (O.lane ops.old) }
    ensures { IsSame (O.lane ops.old) (O.lane ops.new) }
{
    let mut steps = Steps::<L>::open(blank);
    for _round in 0..rounds {
        if !round(rt, ops, at, &mut steps) {
            return false;
        }
    }
    true
}

/// Takes what is left. Whether the queue was empty then.
pub(crate) fn drain<R: Wait, O: Ops>(rt: &R, ops: &mut O, at: &Terms<'_>) -> bool
    requires { IsPlayer at.now.sys.now at.now.ev.now at.now.me at.now.to (O.lane ops.old) }
    ensures { IsSame (O.lane ops.old) (O.lane ops.new) }
{
    for _entry in 0..300 {
        match take_one(rt, ops, at) {
            Some(true) => {}
            Some(false) => return true,
            None => return false,
        }
    }
    false
}

/// A lane that plays so many rounds in its turn, and whether it did.
#[derive(Drop)]
pub(crate) struct Player<'a, O: Ops> {
    pub(crate) lane: O,
    pub(crate) at: Terms<'a>,
    pub(crate) rounds: u32,
    pub(crate) whole: bool,
}

impl<O: Ops + Send> Worker for Player<'_, O> {
    ghost ready = { λ p. IsPlayer p.at.sys.now p.at.ev.now p.at.me p.at.to (O.lane p.lane) };

    ghost turned = { λ p q. IsSame (O.lane p.lane) (O.lane q.lane) × (q.at ≡ p.at) };

    fn turn<R: Wait>(&mut self, rt: &R) {
        self.whole = play::<R, O, Brand>(rt, &mut self.lane, &self.at, self.rounds, Blank::new(1));
    }
}
