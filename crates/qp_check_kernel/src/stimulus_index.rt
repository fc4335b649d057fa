//! The records of each stimulus, by the look in which it happens.

ghost use Rattle.std.specs.Prelude.{◌≡◌, ◌++◌, ◌∷◌, [], ◌==◌, ℕ, map, false, if◌then◌else◌, IfOk, OnOk};
ghost use Rattle.std.specs.Option.{option_map_or};
ghost use Rattle.qp_model.specs.History.{lane_items};
ghost use Rattle.qp_model.specs.Record.{item_of};
ghost use Rattle.qp_model.specs.OneOrder.{belongs, part_of_look, parts_of_look};
ghost use Rattle.qp_check_lanes.specs.Options.{is_this_number};
ghost use Rattle.qp_check_kernel.specs.AsPlaced.{as_placed};
ghost use Rattle.qp_check_kernel.specs.StimulusIndex.{parts_at};

use qp_model::{Body, Lane, Rec};
use std::alloc::{AllocError, Global};
use std::collections::BTreeMap;
use std::marker::Model;

/// A record with its lane.
#[derive(Clone, Copy)]
pub struct Placed<'a> {
    pub lane: usize,
    pub rec: &'a Rec,
}

/// Records with their lanes. Contracts see what they say.
#[derive(Drop)]
pub struct Order<'a> {
    pub items: Vec<Placed<'a>>,
}

impl<'a> Model for Order<'a> {
    ghost use Rattle.std.specs.Prelude.{List, map};
    ghost use Rattle.qp_model.specs.OneOrder.{Placed as placed};
    ghost use Rattle.qp_check_kernel.specs.AsPlaced.{as_placed};

    ghost Value = { List placed };

    ghost view = { λ o. map as_placed o.items.items };
}

impl<'a> Order<'a> {
    pub fn none(alloc: Global) -> Self
        ensures { result ≡ [] }
    {
        Order {
            items: Vec::new(alloc),
        }
    }

    /// Puts a record at the end.
    pub fn put(&mut self, x: Placed<'a>) -> Result<(), AllocError>
        ensures { OnOk result (self.new ≡ self.old ++ as_placed x.entry ∷ []) }
    {
        self.items.push(x)?;
        Ok(())
    }
}

impl<'a> Order<'a> {
    /// The same where it is wanted.
    pub fn put_if(&mut self, wanted: bool, x: Placed<'a>) -> Result<(), AllocError>
        ensures { OnOk result (self.new ≡ self.old ++ (if wanted then as_placed x.entry ∷ [] else [])) }
    {
        if wanted { self.put(x) } else { Ok(()) }
    }

    /// Puts these records at the end.
    pub fn put_all(&mut self, xs: &Order<'a>) -> Result<(), AllocError>
        ensures { OnOk result (self.new ≡ self.old ++ xs.now) }
    {
        for x in &xs.items {
            self.put(*x)?;
        }
        Ok(())
    }
}

/// The records of stimuli, by their looks.
#[derive(Drop)]
pub struct Index<'a> {
    pub parts: BTreeMap<u64, Order<'a>>,
}

impl<'a> Index<'a> {
    fn none(alloc: Global) -> Self
        ensures { (k : ℕ) → parts_at result k ≡ [] }
    {
        Index {
            parts: BTreeMap::new(alloc),
        }
    }

    /// Puts a record at the end of those of a look.
    fn put_at(&mut self, alloc: Global, look: u64, x: Placed<'a>) -> Result<(), AllocError>
        ensures { OnOk result ((k : ℕ) → parts_at self.new k ≡ (if k == look then parts_at self.old k ++ as_placed x.entry ∷ [] else
            parts_at self.old k)) }
    {
        match self.parts.get_mut(&look) {
            Some(part) => part.put(x),
            None => {
                let mut part = Order::none(alloc);
                part.put(x)?;
                self.parts.insert(look, part)?;
                Ok(())
            }
        }
    }

    /// The same where the record belongs to a look.
    fn put_in(&mut self, alloc: Global, look: Option<u64>, x: Placed<'a>) -> Result<(), AllocError>
        ensures { OnOk result ((k : ℕ) → parts_at self.new k ≡ parts_at self.old k ++
            (if is_this_number k look then as_placed x.entry ∷ [] else [])) }
    {
        match look {
            Some(look) => self.put_at(alloc, look, x),
            None => Ok(()),
        }
    }

    /// Puts the records of a lane.
    fn put_lane(
        &mut self,
        alloc: Global,
        cuts: bool,
        lane: usize,
        records: &'a [Rec],
    ) -> Result<(), AllocError>
        ensures { OnOk result ((k : ℕ) → parts_at self.new k ≡ parts_at self.old k ++ part_of_look lane k cuts false
            (lane_items records.now)) }
    {
        let mut look = None;
        for rec in records {
            look = look_after(rec, cuts, look);
            self.put_in(alloc, look, Placed { lane, rec })?;
        }
        Ok(())
    }

    /// Puts the records of the stimulus of a look behind others.
    pub fn put_look(&self, look: Option<u64>, order: &mut Order<'a>) -> Result<(), AllocError>
        ensures { OnOk result (order.new ≡ order.old ++ option_map_or (parts_at self.now) look []) }
    {
        let Some(k) = look else { return Ok(()) };
        match self.parts.get(&k) {
            Some(part) => order.put_all(part),
            None => Ok(()),
        }
    }

    /// The records of the stimuli of these lanes. A `spill` belongs to the stimulus before it only where it `cuts` one.
    pub fn of(alloc: Global, cuts: bool, sources: &'a [Lane]) -> Result<Self, AllocError>
        ensures { IfOk result (λ x. (k : ℕ) → parts_at x k ≡ parts_of_look 1 k cuts (map (λ lane. lane_items lane) sources.now)) }
    {
        let mut index = Index::none(alloc);
        for (n, lane) in sources.iter().enumerate() {
            index.put_lane(alloc, cuts, n + 1, &lane.items)?;
        }
        Ok(index)
    }
}

/// The look to whose stimulus a record belongs, where the record before it belongs to this one.
#[tactic(auto, unfolding(qp_model::specs::Record::item_of))]
fn look_after(r: &Rec, cuts: bool, look: Option<u64>) -> Option<u64>
    ensures { (k : ℕ) → is_this_number k result ≡ belongs k cuts (is_this_number k look) (item_of r.now).body }
{
    match r.body() {
        Body::Stim { k, .. } => Some(k),
        Body::Spill { .. } if !cuts => None,
        _ => look,
    }
}
