//! How far lane 0 has been read, and what may come next.

ghost use Rattle.std.specs.Prelude.{◌≡◌, ◌<◌, ◌≤◌, ◌+◌, ◌^◌, nat_lt, drop, map, IfOk};
ghost use Rattle.std.specs.BTreeSet.{contains};
ghost use Rattle.std.specs.Ordering.{nat_cmp};
ghost use Rattle.qp_model.specs.KernelLane.{threshold_of, floor_in, base_ended, found_none, looking_at, look_next, seen_next, own_next, inside_next, found_next, ended_next, rest_next, place_next, start_next, started_next, role_next, lane_next, unread};
ghost use Rattle.qp_model.specs.Record.{item_of};
ghost use Rattle.qp_check_kernel.specs.LaneState.{above_among, found_above, as_place, as_reading, as_role, as_setting};
ghost use Rattle.qp_check_lanes.specs.Options.{allowed};

use crate::lane_roles::Role;
use crate::lane_stack::Stack;
use qp_check_lanes::record_tests::shows_entry;
use qp_model::kernels::{QK, QV};
use qp_model::{ObjectDef, Rec, System};
use std::alloc::{AllocError, Global};
use std::collections::BTreeSet;

/// The system, the kernel, and the looks that have a stimulus.
#[derive(Drop)]
pub struct Rules<'a> {
    pub sys: &'a System,
    pub kernel: u8,
    pub stimuli: BTreeSet<u64>,
}

/// What may come next.
#[derive(Clone, Copy)]
pub enum Upcoming<'a> {
    /// A record of the running object, or a new row of looks.
    Inside,
    /// A `seen` of `p`, and then of those of the others that are above the floor, from the last.
    Looking {
        p: u8,
        others: &'a [ObjectDef],
        floor: u64,
    },
    /// The step of an object whose queue was seen with an entry.
    Chosen {
        p: u8,
    },
    /// After `done` of `p`: its release, or the next look of the row.
    Ended {
        p: u8,
    },
    /// `rest` after a look at the base without an entry.
    Resting,
    /// The next look of the row, since a stimulus happened in the last one.
    Again,
    /// No more, or in `qk` another row at the base.
    Over,
    /// No more, since an object was at its budget or the lane has no room.
    Halted,
}

/// How far lane 0 has been read.
#[derive(Drop)]
pub struct LaneReading<'a> {
    pub unstarted: &'a [ObjectDef],
    pub running: Stack,
    pub ceiling: u64,
    pub looks: u64,
    pub place: Upcoming<'a>,
    /// Whether the row at the base has a step.
    pub stepped: bool,
    /// How many whole rows at the base have none.
    pub idle: u64,
}

/// The last object above the floor, and the objects before it.
fn last_above(objects: &[ObjectDef], floor: u64) -> Option<(u8, &[ObjectDef])>
    ensures { found_above floor result ≡ above_among objects.now floor }
{
    let mut left = objects;
    while let Some((d, rest)) = left.split_last() {
        if u64::from(d.priority) > floor {
            return Some((d.priority, rest));
        }
        left = rest;
    }
    None
}

/// The threshold of an object, 0 where there is no such object.
#[tactic(auto, unfolding(qp_model::specs::KernelLane::threshold_of))]
fn threshold(sys: &System, o: u8) -> u8
    ensures { result ≡ threshold_of sys.now o }
{
    for d in &sys.objects.items {
        if d.priority == o {
            return d.threshold;
        }
    }
    0
}

impl<'a> Rules<'a> {
    fn has_stimulus(&self, look: u64) -> bool
        ensures { result ≡ contains nat_cmp self.now.stimuli look }
    {
        self.stimuli.contains(&look)
    }
}

impl<'a> LaneReading<'a> {
    #[tactic(auto, unfolding(qp_model::specs::KernelLane::floor_in))]
    fn floor(&self, rules: &Rules<'a>) -> u64
        ensures { result ≡ floor_in rules.now.sys.now rules.now.kernel self.now.running self.now.ceiling }
    {
        match self.running.top() {
            None => 0,
            Some(_) if rules.kernel == QV => 32,
            Some(o) => u64::from(threshold(rules.sys, o)).max(self.ceiling),
        }
    }

    /// A row at the base ends with its look without an entry; in `sim` and `qv` only where no stimulus happened in it.
    fn end_at_base(&mut self, rules: &Rules<'a>)
        requires { self.old.idle + 1 < 2 ^ 64 }
        ensures exact { as_reading self.new ≡ base_ended (as_setting rules.now) (as_reading self.old) }
        ensures few { self.new.idle ≤ self.old.idle + 1 }
    {
        if rules.kernel != QK && rules.has_stimulus(self.looks) {
            self.place = Upcoming::Again;
            return;
        }
        self.place = Upcoming::Over;
        if !self.stepped {
            self.idle += 1;
        }
        self.stepped = false;
    }

    /// A look has shown no entry.
    fn find_none(&mut self, rules: &Rules<'a>)
        requires { self.old.idle + 1 < 2 ^ 64 }
        ensures exact { as_reading self.new ≡ found_none (as_setting rules.now) (as_reading self.old) self.old.running }
        ensures few { self.new.idle ≤ self.old.idle + 1 }
    {
        match self.running.top() {
            Some(_) => self.place = Upcoming::Inside,
            None if rules.kernel == QV => self.place = Upcoming::Resting,
            None => self.end_at_base(rules),
        }
    }

    /// The look goes on with those of the others that are above the floor.
    fn look_on(&mut self, rules: &Rules<'a>, others: &'a [ObjectDef], floor: u64)
        requires { self.old.idle + 1 < 2 ^ 64 }
        ensures exact { as_reading self.new ≡ looking_at (as_setting rules.now) (as_reading self.old) (above_among others.now floor) }
        ensures few { self.new.idle ≤ self.old.idle + 1 }
    {
        match last_above(others, floor) {
            Some((p, others)) => self.place = Upcoming::Looking { p, others, floor },
            None => self.find_none(rules),
        }
    }

    /// `look`, with its count from 1 and the floor.
    #[tactic(auto, unfolding(qp_model::specs::KernelLane::look_next, qp_model::specs::KernelLane::above, crate::specs::LaneState::above_among))]
    fn look(&mut self, rules: &Rules<'a>, of: u8, role: Role) -> bool
        requires { self.old.idle + 1 < 2 ^ 64 }
        ensures exact { allowed result (as_reading self.new) ≡ look_next (as_setting rules.now) (as_reading self.old) of (as_role role) }
        ensures few { self.new.idle ≤ self.old.idle + 1 }
    {
        let Role::Looks { k, floor } = role else {
            return false
        };
        if of != 0 || k == 0 || k - 1 != self.looks || floor != self.floor(rules) {
            return false;
        }
        let sys = rules.sys;
        self.looks = k;
        self.look_on(rules, &sys.objects.items, floor);
        true
    }

    /// `seen`, up to the first that shows an entry.
    fn see(
        &mut self,
        rules: &Rules<'a>,
        p: u8,
        others: &'a [ObjectDef],
        floor: u64,
        of: u8,
        role: Role,
    ) -> bool
        requires { self.old.idle + 1 < 2 ^ 64 }
        ensures exact { allowed result (as_reading self.new) ≡ seen_next (as_setting rules.now) (as_reading self.old) p
            (above_among others.now floor) of (as_role role) }
        ensures few { self.new.idle ≤ self.old.idle + 1 }
    {
        let Role::Sees { p: seen, f, l, m } = role else {
            return false
        };
        if of != 0 || seen != u64::from(p) {
            return false;
        }
        if shows_entry(f, l, m) {
            self.place = Upcoming::Chosen { p };
        } else {
            self.look_on(rules, others, floor);
        }
        true
    }

    /// A record of the running object.
    fn own(&mut self, p: u8, role: Role) -> bool
        ensures exact { allowed result (as_reading self.new) ≡ own_next (as_reading self.old) p (drop 1 self.old.running) (as_role role) }
        ensures few { self.new.idle ≡ self.old.idle }
    {
        match role {
            Role::Ends => {
                self.running.pop();
                self.place = Upcoming::Ended { p };
                true
            }
            Role::Holds { ceiling } => {
                self.ceiling = ceiling;
                true
            }
            Role::Drops | Role::Acts => true,
            _ => false,
        }
    }

    #[tactic(auto, unfolding(qp_model::specs::KernelLane::inside_next))]
    fn inside(&mut self, rules: &Rules<'a>, of: u8, role: Role) -> bool
        requires { self.old.idle + 1 < 2 ^ 64 }
        ensures exact { allowed result (as_reading self.new) ≡ inside_next (as_setting rules.now) (as_reading self.old) self.old.running of
            (as_role role) }
        ensures few { self.new.idle ≤ self.old.idle + 1 }
    {
        match self.running.top() {
            Some(p) if of == p => self.own(p, role),
            _ => self.look(rules, of, role),
        }
    }

    /// The step of the object that was found, or that it is at its budget.
    fn find(&mut self, p: u8, of: u8, role: Role) -> Result<bool, AllocError>
        ensures exact { IfOk result (λ b. allowed b (as_reading self.new) ≡ found_next (as_reading self.old) p of (as_role role)) }
        ensures few { self.new.idle ≡ self.old.idle }
    {
        match role {
            Role::Takes if of == p => {
                self.running.push(p)?;
                self.place = Upcoming::Inside;
                self.stepped = true;
                Ok(true)
            }
            Role::RunsOut if of == p => {
                self.place = Upcoming::Halted;
                Ok(true)
            }
            _ => Ok(false),
        }
    }

    #[tactic(auto, unfolding(qp_model::specs::KernelLane::ended_next))]
    fn ended(&mut self, rules: &Rules<'a>, p: u8, of: u8, role: Role) -> bool
        requires { self.old.idle + 1 < 2 ^ 64 }
        ensures exact { allowed result (as_reading self.new) ≡ ended_next (as_setting rules.now) (as_reading self.old) p of (as_role role) }
        ensures few { self.new.idle ≤ self.old.idle + 1 }
    {
        match role {
            Role::Drops => of == p,
            _ => self.look(rules, of, role),
        }
    }

    fn rest(&mut self, rules: &Rules<'a>, of: u8, role: Role) -> bool
        requires { self.old.idle + 1 < 2 ^ 64 }
        ensures exact { allowed result (as_reading self.new) ≡ rest_next (as_setting rules.now) (as_reading self.old) of (as_role role) }
        ensures few { self.new.idle ≤ self.old.idle + 1 }
    {
        match role {
            Role::Rests { k } if of == 0 && k == self.looks => {
                self.end_at_base(rules);
                true
            }
            _ => false,
        }
    }

    /// A record behind the starts.
    #[tactic(auto, unfolding(qp_model::specs::KernelLane::place_next))]
    fn go_on(&mut self, rules: &Rules<'a>, of: u8, role: Role) -> Result<bool, AllocError>
        requires { self.old.idle + 1 < 2 ^ 64 }
        ensures exact { IfOk result (λ b. allowed b (as_reading self.new) ≡ place_next (as_setting rules.now) (as_reading self.old) of
            (as_role role) (as_place self.old.place)) }
        ensures few { self.new.idle ≤ self.old.idle + 1 }
    {
        Ok(match self.place {
            Upcoming::Inside => self.inside(rules, of, role),
            Upcoming::Looking { p, others, floor } => self.see(rules, p, others, floor, of, role),
            Upcoming::Chosen { p } => self.find(p, of, role)?,
            Upcoming::Ended { p } => self.ended(rules, p, of, role),
            Upcoming::Resting => self.rest(rules, of, role),
            Upcoming::Again => self.look(rules, of, role),
            Upcoming::Over => rules.kernel == QK && self.look(rules, of, role),
            Upcoming::Halted => false,
        })
    }

    /// A record of the start of an object; `others` start after it.
    fn start(&mut self, others: &'a [ObjectDef], role: Role) -> bool
        ensures exact { allowed result (as_reading self.new) ≡ start_next (as_reading self.old) (map (λ d. d.priority) others.now)
            (as_role role) }
        ensures few { self.new.idle ≡ self.old.idle }
    {
        match role {
            Role::Ends => {
                self.unstarted = others;
                true
            }
            Role::Holds { ceiling } => {
                self.ceiling = ceiling;
                true
            }
            Role::Drops | Role::Acts => true,
            _ => false,
        }
    }

    /// The starts of all objects come first, in ascending priority.
    #[tactic(auto, unfolding(qp_model::specs::KernelLane::started_next))]
    fn start_or_go_on(&mut self, rules: &Rules<'a>, of: u8, role: Role) -> Result<bool, AllocError>
        requires { self.old.idle + 1 < 2 ^ 64 }
        ensures exact { IfOk result (λ b. allowed b (as_reading self.new) ≡ started_next (as_setting rules.now) (as_reading self.old) of
            (as_role role) (map (λ d. d.priority) self.old.unstarted.now)) }
        ensures few { self.new.idle ≤ self.old.idle + 1 }
    {
        match self.unstarted.split_first() {
            Some((first, others)) => Ok(of == first.priority && self.start(others, role)),
            None => self.go_on(rules, of, role),
        }
    }

    /// One record more; a `spill` may stand anywhere, and nothing follows it.
    #[tactic(auto, unfolding(qp_model::specs::KernelLane::role_next))]
    fn turn(&mut self, rules: &Rules<'a>, of: u8, role: Role) -> Result<bool, AllocError>
        requires { self.old.idle + 1 < 2 ^ 64 }
        ensures exact { IfOk result (λ b. allowed b (as_reading self.new) ≡ role_next (as_setting rules.now) (as_reading self.old) of
            (as_role role)) }
        ensures few { self.new.idle ≤ self.old.idle + 1 }
    {
        match role {
            Role::Spills => {
                self.unstarted = &[];
                self.place = Upcoming::Halted;
                Ok(of == 0)
            }
            _ => self.start_or_go_on(rules, of, role),
        }
    }

    /// Reads one record more, or answers that it can't stand there.
    #[tactic(auto, unfolding(qp_model::specs::KernelLane::lane_next, qp_model::specs::Record::item_of))]
    pub fn next(&mut self, rules: &Rules<'a>, r: &Rec) -> Result<bool, AllocError>
        requires { self.old.idle + 1 < 2 ^ 64 }
        ensures exact { IfOk result (λ b. allowed b (as_reading self.new) ≡ lane_next (as_setting rules.now) (as_reading self.old)
            (item_of r.now)) }
        ensures few { self.new.idle ≤ self.old.idle + 1 }
    {
        let role = Role::of(&r.body());
        self.turn(rules, r.of, role)
    }

    /// Before the first record.
    #[tactic(auto, unfolding(qp_model::specs::KernelLane::unread))]
    pub fn of_none(alloc: Global, sys: &'a System) -> Self
        ensures exact { as_reading result ≡ unread sys.now }
        ensures none { result.idle ≡ 0 }
    {
        LaneReading {
            unstarted: &sys.objects.items,
            running: Stack::new(alloc),
            ceiling: 0,
            looks: 0,
            place: Upcoming::Inside,
            stepped: false,
            idle: 0,
        }
    }
}
