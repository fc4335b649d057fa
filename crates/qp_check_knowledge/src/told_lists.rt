//! The records of an object and of a source, with what is known beside each.

ghost use Rattle.std.specs.Prelude.{◌≡◌, ◌==◌, ◌++◌, ◌∷◌, [], if◌then◌else◌, IfOk, OnOk};
ghost use Rattle.qp_model.specs.Ends.{is_spill, is_turn_mark};
ghost use Rattle.qp_model.specs.History.{lane_items};
ghost use Rattle.qp_model.specs.Home.{by_object, home_records, is_look_at, own_items};
ghost use Rattle.qp_model.specs.Knowing.{records_of, told};
ghost use Rattle.qp_model.specs.Lawful.{dispatched, facts_of};
ghost use Rattle.qp_model.specs.Record.{item_of};
ghost use Rattle.qp_model.specs.Sources.{source_records};
ghost use Rattle.qp_check_knowledge.specs.Knowledge.{HasItsTables, known_facts};
ghost use Rattle.qp_check_knowledge.specs.Looks.{as_look_of};

use crate::knowledge::Knowledge;
use qp_check_calls::Told;
use qp_check_lanes::lane_parts::{home_lane, lane_at};
use qp_model::kernels::PORT;
use qp_model::{Body, Rec, ceiling_after};
use std::alloc::{AllocError, Global};

/// Whether a record is a look at the queue of `o`.
fn is_look_at(o: u8, body: &Body) -> bool
    ensures { result ≡ is_look_at o body.now }
{
    match body {
        Body::Seen { p, .. } => *p == u64::from(o),
        _ => false,
    }
}

/// Whether a record counts as one of `o`: its own, and where looks count, a look at its queue without an object.
#[tactic(auto, unfolding(qp_model::specs::Record::item_of))]
fn counts_for(o: u8, looks: bool, r: &Rec) -> bool
    ensures { result ≡ ((as_look_of looks o (item_of r.now)).of == o) }
{
    r.of == o || looks && r.of == 0 && is_look_at(o, &r.body())
}

/// A record of `o`, as told; this ceiling stood before it in its lane.
#[tactic(auto, unfolding(qp_model::specs::Record::item_of, qp_model::specs::Knowing::told))]
pub fn told_by(
    alloc: Global,
    knowledge: &Knowledge,
    o: u8,
    ceiling: u64,
    r: &Rec,
) -> Result<Told, AllocError>
    requires { HasItsTables knowledge.now }
    ensures { IfOk result (λ t. t ≡ told (known_facts knowledge.now) o ceiling (item_of r.now).body) }
{
    let body = r.body();
    let known = knowledge.known_of(alloc, o, ceiling, &body)?;
    Ok(Told { body, known })
}

/// Puts a record at the end where it counts as one of `o`.
fn put_own(
    all: &mut Vec<Told>,
    alloc: Global,
    knowledge: &Knowledge,
    o: u8,
    looks: bool,
    ceiling: u64,
    r: &Rec,
) -> Result<(), AllocError>
    requires { HasItsTables knowledge.now }
    ensures { OnOk result (all.new.items ≡ all.old.items ++ (if (as_look_of looks o (item_of r.now)).of == o then told (known_facts knowledge.now)
        o ceiling (item_of r.now).body ∷ [] else [])) }
{
    if !counts_for(o, looks, r) {
        return Ok(());
    }
    all.push(told_by(alloc, knowledge, o, ceiling, r)?)?;
    Ok(())
}

/// The records of `o` in a lane, as told; where looks count, its looks at its own queue stand among them.
pub fn told_records(
    alloc: Global,
    knowledge: &Knowledge,
    o: u8,
    looks: bool,
    lane: &[Rec],
) -> Result<Vec<Told>, AllocError>
    requires { HasItsTables knowledge.now }
    ensures { IfOk result (λ v. v.items ≡ records_of (known_facts knowledge.now) o 0 (own_items looks o (lane_items lane.now))) }
{
    let mut told = Vec::new(alloc);
    let mut ceiling = 0;
    for r in lane {
        put_own(&mut told, alloc, knowledge, o, looks, ceiling, r)?;
        ceiling = ceiling_after(ceiling, r);
    }
    Ok(told)
}

/// The records of an object, in the order of its home lane.
#[tactic(auto, unfolding(qp_model::specs::Home::by_object, qp_model::specs::Home::own_items, qp_model::specs::Lawful::facts_of))]
pub fn object_records(alloc: Global, knowledge: &Knowledge, o: u8) -> Result<Vec<Told>, AllocError>
    requires { HasItsTables knowledge.now }
    ensures { IfOk result (λ v. v.items ≡ by_object (known_facts knowledge.now) knowledge.now.journal.now o) }
{
    let home = home_lane(knowledge.sys, knowledge.journal, o);
    told_records(alloc, knowledge, o, false, lane_at(knowledge.journal, home))
}

/// The same for its shape: in `port` with its looks at its own queue.
#[tactic(auto, unfolding(qp_model::specs::Home::home_records, qp_model::specs::Lawful::facts_of))]
pub fn home_records(alloc: Global, knowledge: &Knowledge, o: u8) -> Result<Vec<Told>, AllocError>
    requires { HasItsTables knowledge.now }
    ensures { IfOk result (λ v. v.items ≡ home_records (known_facts knowledge.now) knowledge.now.journal.now o) }
{
    let home = home_lane(knowledge.sys, knowledge.journal, o);
    let looks = knowledge.journal.kernel == PORT;
    told_records(alloc, knowledge, o, looks, lane_at(knowledge.journal, home))
}

fn is_spill(body: &Body) -> bool
    ensures { result ≡ is_spill body.now }
{
    matches!(body, Body::Spill { .. })
}

pub fn is_turn_mark(body: &Body) -> bool
    ensures { result ≡ is_turn_mark body.now }
{
    matches!(body, Body::Nil { .. } | Body::Spent)
}

/// The records of a source without its `spill`, as told.
pub fn source_told(
    alloc: Global,
    knowledge: &Knowledge,
    lane: &[Rec],
) -> Result<Vec<Told>, AllocError>
    requires { HasItsTables knowledge.now }
    ensures { IfOk result (λ v. v.items ≡ source_records (known_facts knowledge.now) (lane_items lane.now)) }
{
    let mut told = told_records(alloc, knowledge, 0, false, lane)?;
    told.retain(|t| !is_spill(&t.body));
    Ok(told)
}

/// Drops the records of turns that have no step.
pub fn keep_dispatched(told: &mut Vec<Told>)
    ensures { told.new.items ≡ dispatched told.old.items }
{
    told.retain(|t| !is_turn_mark(&t.body));
}
