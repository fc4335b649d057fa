//! The records of one lane, with room for some more.

ghost use Rattle.std.specs.Prelude.{◌≡◌, ◌+◌, ◌-◌, ◌<◌, ◌≤◌, ℕ, true, false, [], ◌∷◌, ◌++◌, length, not, get_or, None, IfOk, OnErr, OnOk};
ghost use Rattle.std.specs.List.{count_by, list_all};
ghost use Rattle.std.specs.Vec.{vec_capacity, vec_len};
ghost use Rattle.qp_model.specs.Record.{item_of};
ghost use Rattle.qp_model.specs.declared.bodies.Body.TheVariants.{Nil};
ghost use Rattle.qp_model.specs.Ends.{is_spill};
ghost use Rattle.qp_model.specs.History.{lane_items};
ghost use Rattle.qp_calls.specs.LaneView.{NotShown};
ghost use Rattle.qp_calls.specs.Clauses.{same_counts};
ghost use Rattle.qp_calls_log.specs.Lane.{is_plain, last_nil_in, nil_of, spill_place};
ghost use Rattle.qp_calls.specs.LaneLaws.{is_caused_in};

use crate::codes::Codes;
use qp_base::Memory;
use qp_calls::Counts;
use qp_model::Rec;
use std::alloc::Global;

/// The records of a lane, its spare, whether a `spill` stands, and the counts that its last `nil` of each queue showed,
/// by priority; in proofs alone, the codes that it handed to `stop` and those that `stopped` answered.
#[derive(Drop)]
pub struct Log {
    pub recs: Vec<Rec>,
    pub spare: u32,
    pub spilled: bool,
    pub nils: Vec<Option<Counts>>,
    pub stops: Codes,
    pub answered: Codes,
    ghost roomy: { vec_len recs + (spare + spill_place spilled) ≤ vec_capacity recs },
    ghost few: { count_by (λ i. not (is_spill i.body)) (lane_items recs.items) + spare ≤ 1000000 },
    ghost spills: { count_by (λ i. is_spill i.body) (lane_items recs.items) + spill_place spilled ≡ 1 },
    ghost seats: { length nils.items ≡ 33 },
    ghost nils_are: { (a : ℕ) → a < 33 → nil_of (get_or nils.items a None) ≡ last_nil_in a NotShown (lane_items recs.items) },
    ghost causes: { list_all (is_caused_in (lane_items recs.items)) stops.list ≡ true },
}

/// Whether there are counts, and these.
fn are(last: Option<Counts>, now: Counts) -> bool
    ensures { result ≡ same_counts (nil_of last) now.f now.l now.m }
{
    match last {
        Some(last) => last.f == now.f && last.l == now.l && last.m == now.m,
        None => false,
    }
}

/// Makes room for so many more records. A list without records is made anew, so that its memory comes from the thread that works
/// in the lane, and lists of lanes grow apart. A refusal changes no record and no room.
fn make_more(recs: &mut Vec<Rec>, more: usize) -> Result<(), Memory>
    ensures items { recs.new.items ≡ recs.old.items }
    ensures len { vec_len recs.new ≡ vec_len recs.old }
    ensures ok { OnOk result (vec_len recs.new + more ≤ vec_capacity recs.new) }
    ensures refused { OnErr result (vec_capacity recs.new ≡ vec_capacity recs.old) }
{
    if recs.is_empty() {
        let alloc = *recs.allocator();
        *recs = Vec::with_capacity(alloc, more).map_err(|_| Memory)?;
        return Ok(());
    }
    recs.reserve(more).map_err(|_| Memory)
}

impl Log {
    /// A lane with no record, and the place for a `spill`.
    pub fn new(alloc: Global) -> Result<Log, Memory>
        ensures recs { IfOk result (λ g. g.recs.items ≡ []) }
        ensures spare { IfOk result (λ g. g.spare ≡ 0) }
        ensures spilled { IfOk result (λ g. g.spilled ≡ false) }
        ensures stops { IfOk result (λ g. g.stops.list ≡ []) }
        ensures answered { IfOk result (λ g. g.answered.list ≡ []) }
    {
        let Ok(recs) = Vec::with_capacity(alloc, 1) else {
            return Err(Memory);
        };
        let Ok(nils) = Vec::from_array(alloc, [None; 33]) else {
            return Err(Memory);
        };
        Ok(Log {
            recs,
            spare: 0,
            spilled: false,
            nils,
            stops: Codes::new(),
            answered: Codes::new(),
        })
    }

    /// Adds a record that is neither a `nil` nor a `spill`.
    pub fn add(&mut self, rec: Rec)
        requires room { 0 < self.old.spare }
        requires plain { is_plain (item_of rec).body ≡ true }
        ensures recs { self.new.recs.items ≡ self.old.recs.items ++ rec ∷ [] }
        ensures spare { self.new.spare + 1 ≡ self.old.spare }
        ensures spilled { self.new.spilled ≡ self.old.spilled }
        ensures stops { self.new.stops.list ≡ self.old.stops.list }
        ensures answered { self.new.answered.list ≡ self.old.answered.list }
    {
        self.recs.push_reserved(rec);
        self.spare -= 1;
    }

    /// Adds the `nil` of a queue.
    pub fn add_nil(&mut self, rec: Rec, me: u8, now: Counts)
        requires room { 0 < self.old.spare }
        requires nil { item_of rec ≡ record { of = me; body = Nil now.f now.l now.m } }
        requires queue { me < 33 }
        ensures recs { self.new.recs.items ≡ self.old.recs.items ++ rec ∷ [] }
        ensures spare { self.new.spare + 1 ≡ self.old.spare }
        ensures spilled { self.new.spilled ≡ self.old.spilled }
        ensures stops { self.new.stops.list ≡ self.old.stops.list }
        ensures answered { self.new.answered.list ≡ self.old.answered.list }
    {
        self.recs.push_reserved(rec);
        self.spare -= 1;
        self.nils[usize::from(me)] = Some(now);
    }

    /// Adds the `spill`, for which the place was kept.
    pub fn add_spill(&mut self, rec: Rec)
        requires spill { is_spill (item_of rec).body ≡ true }
        requires first { self.old.spilled ≡ false }
        ensures recs { self.new.recs.items ≡ self.old.recs.items ++ rec ∷ [] }
        ensures spare { self.new.spare ≡ self.old.spare }
        ensures spilled { self.new.spilled ≡ true }
        ensures stops { self.new.stops.list ≡ self.old.stops.list }
        ensures answered { self.new.answered.list ≡ self.old.answered.list }
    {
        self.recs.push_reserved(rec);
        self.spilled = true;
    }

    /// Makes spare for eight records, and answers by how much it rose. A refusal changes no record and no spare.
    pub fn make_room(&mut self) -> Result<u32, Memory>
        requires little { self.old.spare < 8 }
        requires free { length self.old.recs.items + 8 ≤ 1000000 }
        ensures ok { IfOk result (λ n. (self.old.spare + n ≡ 8) × (self.new.spare ≡ 8)) }
        ensures refused { OnErr result (self.new.spare ≡ self.old.spare) }
        ensures recs { self.new.recs.items ≡ self.old.recs.items }
        ensures spilled { self.new.spilled ≡ self.old.spilled }
        ensures stops { self.new.stops.list ≡ self.old.stops.list }
        ensures answered { self.new.answered.list ≡ self.old.answered.list }
    {
        make_more(&mut self.recs, 9)?;
        let more = 8 - self.spare;
        self.spare = 8;
        Ok(more)
    }

    /// Makes spare for one record. A refusal changes no record and no spare.
    pub fn make_place(&mut self) -> Result<(), Memory>
        requires none { self.old.spare ≡ 0 }
        requires free { count_by (λ i. not (is_spill i.body)) (lane_items self.old.recs.items) < 1000000 }
        ensures ok { OnOk result (self.new.spare ≡ 1) }
        ensures refused { OnErr result (self.new.spare ≡ 0) }
        ensures recs { self.new.recs.items ≡ self.old.recs.items }
        ensures spilled { self.new.spilled ≡ self.old.spilled }
        ensures stops { self.new.stops.list ≡ self.old.stops.list }
        ensures answered { self.new.answered.list ≡ self.old.answered.list }
    {
        let Ok(()) = self.recs.reserve(2) else {
            return Err(Memory);
        };
        self.spare = 1;
        Ok(())
    }

    /// Whether the last `nil` of a queue showed these counts.
    pub fn tells(&self, me: u8, now: Counts) -> bool
        requires { me < 33 }
        ensures { result ≡ same_counts (last_nil_in me NotShown (lane_items self.now.recs.items)) now.f now.l now.m }
    {
        are(self.nils[usize::from(me)], now)
    }

    /// Notes a code that the lane hands to `stop`, in proofs alone.
    pub fn hand(&mut self, code: u8)
        requires { is_caused_in (lane_items self.old.recs.items) code ≡ true }
        ensures handed { self.new.stops.list ≡ code ∷ self.old.stops.list }
        ensures recs { self.new.recs.items ≡ self.old.recs.items }
        ensures spare { self.new.spare ≡ self.old.spare }
        ensures spilled { self.new.spilled ≡ self.old.spilled }
        ensures answered { self.new.answered.list ≡ self.old.answered.list }
    {
        self.stops = Codes::with(&self.stops, &code);
    }

    /// Notes a code that `stopped` answers, in proofs alone.
    pub fn answer(&mut self, code: u8)
        ensures found { self.new.answered.list ≡ code ∷ self.old.answered.list }
        ensures recs { self.new.recs.items ≡ self.old.recs.items }
        ensures spare { self.new.spare ≡ self.old.spare }
        ensures spilled { self.new.spilled ≡ self.old.spilled }
        ensures stops { self.new.stops.list ≡ self.old.stops.list }
    {
        self.answered = Codes::with(&self.answered, &code);
    }
}
