//! Records that are given, made once more: a word changes as its record says.

ghost use Rattle.std.specs.Prelude.{◌≡◌, ℕ, ◌<◌, true, List, OnOk};
ghost use Rattle.qp_model.specs.declared.bodies.Entry as model;
ghost use Rattle.qp_model.specs.Record.{item_of};
ghost use Rattle.qp_model.specs.Sound.{IsSound};
ghost use Rattle.qp_model.specs.declared.bodies.Body.TheVariants.{Arm, Back, Dec, Inc, Lifo, New, Nil, Post, Spill, Sub, Took, Unsub};
ghost use Rattle.qp_plain.specs.Repeat.{CountsDown, HasSpare, LaneIsWithin, MayRepeat, Remains, Repeats, SetsTo, is_still};

use crate::records::{place, token_of};
use crate::world::PlainWorld;
use qp_base::{Ev, Memory};
use qp_calls::Counts;
use qp_model::{Body, Entry, Params, Rec, is_spill};

impl PlainWorld<'_> {
    /// Makes a place for the record in the lane chosen, where there is none.
    pub fn place_for(&mut self, rec: &Rec) -> Result<(), Memory>
        requires few { LaneIsWithin rec.now self.old }
        ensures ok { OnOk result (HasSpare rec.now self.new) }
        ensures keeps { Remains self.old self.new }
    {
        if is_spill(rec) {
            return Ok(());
        }
        self.book.place()
    }

    /// Adds a record that may come next to the lane chosen, and changes its word as it says.
    pub fn repeat(&mut self, rec: Rec)
        requires sound { IsSound self.old.sys.now }
        requires next { MayRepeat rec self.old }
        requires room { HasSpare rec self.old }
        ensures { Repeats rec self.old self.new }
    {
        match rec.body() {
            Body::New {
                p,
                b,
                sig,
                pars,
                ..
            } => self.give_again(rec, p, b, sig, pars),
            Body::Back { p, b, .. } => self.back_again(rec, p, b),
            Body::Inc { p, b, .. } => self.inc_again(rec, p, b),
            Body::Dec { p, b, .. } => self.dec_again(rec, p, b),
            Body::Post { a, entry, .. } => self.post_again(rec, a, entry),
            Body::Lifo { entry, .. } => self.lifo_again(rec, entry),
            Body::Took { .. } => self.take_again(rec),
            Body::Sub { sig, .. } => self.subscribe_again(rec, sig),
            Body::Unsub { sig, .. } => self.unsubscribe_again(rec, sig),
            Body::Arm {
                t,
                ticks,
                interval,
                ..
            } => self.arm_again(rec, t, ticks, interval),
            Body::Disarm { t, .. } => self.set_again(rec, t, 0),
            Body::Rearm { t, ticks, .. } => self.set_again(rec, t, ticks),
            Body::Tick { t, .. } => self.tick_again(rec, t),
            Body::Fire { t, .. } => self.tick_again(rec, t),
            Body::Nil { f, l, m } => self.nil_again(rec, f, l, m),
            Body::Spill { .. } => self.spill_again(rec),
            _ => self.note_again(rec),
        }
    }

    fn give_again(&mut self, rec: Rec, p: u64, b: u64, sig: u64, pars: Params)
        requires says { (n from : ℕ) × ((item_of rec).body ≡ New p n b from sig pars) }
        requires sound { IsSound self.old.sys.now }
        requires next { MayRepeat rec self.old }
        requires room { 0 < self.old.book.here.spare }
        ensures { Repeats rec self.old self.new }
    {
        let _ = self.pools[p as usize - 1].take();
        self.cells[place(p as u8, b as u8)] = Ev {
            sig: sig as u16,
            pars: pars.items,
        };
        self.book.add(rec);
    }

    fn back_again(&mut self, rec: Rec, p: u64, b: u64)
        requires says { (n to : ℕ) × ((item_of rec).body ≡ Back p n b to) }
        requires next { MayRepeat rec self.old }
        requires room { 0 < self.old.book.here.spare }
        ensures { Repeats rec self.old self.new }
    {
        self.pools[p as usize - 1].put(b as u8);
        self.book.add(rec);
    }

    fn inc_again(&mut self, rec: Rec, p: u64, b: u64)
        requires says { (r : ℕ) × ((item_of rec).body ≡ Inc p b r) }
        requires next { MayRepeat rec self.old }
        requires room { 0 < self.old.book.here.spare }
        ensures { Repeats rec self.old self.new }
    {
        let _ = self.blocks[place(p as u8, b as u8)].make();
        self.book.add(rec);
    }

    fn dec_again(&mut self, rec: Rec, p: u64, b: u64)
        requires says { (d k : ℕ) × ((item_of rec).body ≡ Dec p b d k) }
        requires next { MayRepeat rec self.old }
        requires room { 0 < self.old.book.here.spare }
        ensures { Repeats rec self.old self.new }
    {
        let _ = self.blocks[place(p as u8, b as u8)].drop_one();
        self.book.add(rec);
    }

    fn post_again(&mut self, rec: Rec, a: u64, entry: Entry)
        requires says { (f l m : ℕ) × ((item_of rec).body ≡ Post a f l m entry) }
        requires sound { IsSound self.old.sys.now }
        requires next { MayRepeat rec self.old }
        requires room { 0 < self.old.book.here.spare }
        ensures { Repeats rec self.old self.new }
    {
        self.queues[a as usize].post(token_of(entry));
        self.book.add(rec);
    }

    fn lifo_again(&mut self, rec: Rec, entry: Entry)
        requires says { (f l m : ℕ) × ((item_of rec).body ≡ Lifo f l m entry) }
        requires sound { IsSound self.old.sys.now }
        requires next { MayRepeat rec self.old }
        requires room { 0 < self.old.book.here.spare }
        ensures { Repeats rec self.old self.new }
    {
        self.queues[usize::from(rec.of)].post_front(token_of(entry));
        self.book.add(rec);
    }

    fn take_again(&mut self, rec: Rec)
        requires says { (f l m : ℕ) × (e : model.Entry) × ((item_of rec).body ≡ Took f l m e) }
        requires next { MayRepeat rec self.old }
        requires room { 0 < self.old.book.here.spare }
        ensures { Repeats rec self.old self.new }
    {
        let _ = self.queues[usize::from(rec.of)].take();
        self.book.add(rec);
    }

    fn subscribe_again(&mut self, rec: Rec, sig: u64)
        requires says { (n : ℕ) × ((item_of rec).body ≡ Sub sig n) }
        requires next { MayRepeat rec self.old }
        requires room { 0 < self.old.book.here.spare }
        ensures { Repeats rec self.old self.new }
    {
        self.signals[sig as usize - 4].put(rec.of);
        self.book.add(rec);
    }

    fn unsubscribe_again(&mut self, rec: Rec, sig: u64)
        requires says { (n : ℕ) × ((item_of rec).body ≡ Unsub sig n) }
        requires next { MayRepeat rec self.old }
        requires room { 0 < self.old.book.here.spare }
        ensures { Repeats rec self.old self.new }
    {
        self.signals[sig as usize - 4].take(rec.of);
        self.book.add(rec);
    }

    fn arm_again(&mut self, rec: Rec, t: u64, ticks: u64, interval: u64)
        requires says { (n : ℕ) × ((item_of rec).body ≡ Arm t n ticks interval) }
        requires next { MayRepeat rec self.old }
        requires room { 0 < self.old.book.here.spare }
        ensures { Repeats rec self.old self.new }
    {
        self.timers[t as usize - 1].arm(ticks as u16, interval as u16);
        self.book.add(rec);
    }

    /// The counter is set to this, by a record that states it or disarms.
    fn set_again(&mut self, rec: Rec, t: u64, ticks: u64)
        requires says { SetsTo t ticks (item_of rec).body }
        requires next { MayRepeat rec self.old }
        requires room { 0 < self.old.book.here.spare }
        ensures { Repeats rec self.old self.new }
    {
        self.timers[t as usize - 1].set(ticks as u16);
        self.book.add(rec);
    }

    fn tick_again(&mut self, rec: Rec, t: u64)
        requires says { CountsDown t (item_of rec).body }
        requires next { MayRepeat rec self.old }
        requires room { 0 < self.old.book.here.spare }
        ensures { Repeats rec self.old self.new }
    {
        let _ = self.timers[t as usize - 1].tick();
        self.book.add(rec);
    }

    fn nil_again(&mut self, rec: Rec, f: u64, l: u64, m: u64)
        requires says { (item_of rec).body ≡ Nil f l m }
        requires next { MayRepeat rec self.old }
        requires room { 0 < self.old.book.here.spare }
        ensures { Repeats rec self.old self.new }
    {
        let me = rec.of;
        let now = Counts {
            f: f as u32,
            l: l as u32,
            m: m as u32,
        };
        self.book.add_nil(rec, me, now);
    }

    fn spill_again(&mut self, rec: Rec)
        requires says { (len : ℕ) × ((item_of rec).body ≡ Spill len) }
        requires next { MayRepeat rec self.old }
        ensures { Repeats rec self.old self.new }
    {
        self.book.add_spill(rec);
    }

    /// No word changes.
    fn note_again(&mut self, rec: Rec)
        requires still { is_still (item_of rec).body ≡ true }
        requires next { MayRepeat rec self.old }
        requires room { 0 < self.old.book.here.spare }
        ensures { Repeats rec self.old self.new }
    {
        self.book.add(rec);
    }
}
