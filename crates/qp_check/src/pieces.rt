//! The pieces of each object in lane 0, read off the kernel lane.

ghost use Rattle.std.specs.Prelude.{◌≡◌, ◌++◌, ℕ, IfOk, IfSome, IsSome, OnOk};
ghost use Rattle.std.specs.Option.{option_map};
ghost use Rattle.qp_model.specs.History.{lane_items};
ghost use Rattle.qp_model.specs.Home.{lane_at as lane_of};
ghost use Rattle.qp_model.specs.KernelLane.{lane_read};
ghost use Rattle.qp_model.specs.Lawful.{setting_of};
ghost use Rattle.qp_model.specs.Points.{is_look, lane_pieces, pieces_at};
ghost use Rattle.qp_model.specs.Record.{item_of};
ghost use Rattle.qp_check_calls.specs.AsPiece.{as_piece};
ghost use Rattle.qp_check_kernel.specs.LaneState.{as_reading, as_setting};
ghost use Rattle.qp_check_knowledge.specs.Knowledge.{HasItsTables, known_facts};
ghost use Rattle.qp_check.specs.ObjectPieces.{own_piece, pieces_of_object, point_of, stepping};

use crate::pieces_rows::ObjectPieces;
use qp_check_calls::{Piece, Told};
use qp_check_kernel::lane_state::{LaneReading, Rules, Upcoming};
use qp_check_knowledge::knowledge::Knowledge;
use qp_check_knowledge::told_lists::is_turn_mark;
use qp_check_lanes::lane_parts::lane_at;
use qp_model::{Body, Rec};
use std::alloc::{AllocError, Global};

/// A record as a piece of its own object; none where it is a turn's without a step.
#[tactic(auto, unfolding(qp_model::specs::Record::item_of, qp_model::specs::Knowing::told, crate::specs::ObjectPieces::own_piece))]
fn own_piece(
    alloc: Global,
    knowledge: &Knowledge,
    ceiling: u64,
    r: &Rec,
) -> Result<Option<Piece>, AllocError>
    requires { HasItsTables knowledge.now }
    ensures { IfOk result (λ x. option_map as_piece x ≡ own_piece (known_facts knowledge.now) ceiling (item_of r.now)) }
{
    let body = r.body();
    if is_turn_mark(&body) {
        return Ok(None);
    }
    let known = knowledge.known_of(alloc, r.of, ceiling, &body)?;
    Ok(Some(Piece::Tell(Told { body, known })))
}

#[tactic(auto, unfolding(qp_model::specs::Record::item_of))]
fn is_look(r: &Rec) -> bool
    ensures { result ≡ is_look (item_of r.now).body }
{
    matches!(r.body(), Body::Look { .. })
}

/// The innermost step under way, unless it is of this object.
fn stepping(reading: &LaneReading, of: u8) -> Option<u8>
    ensures { result ≡ stepping of (as_reading reading.now).place (as_reading reading.now).running }
{
    match (reading.place, reading.running.top()) {
        (Upcoming::Inside, Some(p)) if p != of => Some(p),
        _ => None,
    }
}

/// The object in whose step a row begins with this record.
#[tactic(auto, unfolding(qp_model::specs::Record::item_of))]
fn point_of(reading: &LaneReading, r: &Rec) -> Option<u8>
    ensures { result ≡ point_of (as_reading reading.now) (item_of r.now) }
{
    if is_look(r) {
        stepping(reading, r.of)
    } else {
        None
    }
}

/// Puts what a record is to each object.
fn put_record(
    pieces: &mut ObjectPieces,
    alloc: Global,
    knowledge: &Knowledge,
    reading: &LaneReading,
    r: &Rec,
) -> Result<(), AllocError>
    requires { HasItsTables knowledge.now }
    ensures { OnOk result ((o : ℕ) → pieces_of_object pieces.new o ≡ pieces_of_object pieces.old o ++ pieces_at (known_facts knowledge.now) o
        (as_reading reading.now) (item_of r.now)) }
{
    let own = own_piece(alloc, knowledge, reading.ceiling, r)?;
    pieces.put_piece(alloc, r.of, own)?;
    pieces.put_point(alloc, point_of(reading, r))?;
    Ok(())
}

/// The pieces of each object in a lane that reads as a kernel lane.
fn pieces_in(
    alloc: Global,
    knowledge: &Knowledge,
    rules: &Rules,
    lane: &[Rec],
) -> Result<ObjectPieces, AllocError>
    requires known { HasItsTables knowledge.now }
    requires same { rules.now.sys.now ≡ knowledge.now.sys.now }
    requires stands { IsSome (lane_read (as_setting rules.now) (lane_items lane.now)) }
    ensures { IfOk result (λ x. (o : ℕ) → pieces_of_object x o ≡ lane_pieces (known_facts knowledge.now) (as_setting rules.now) o
        (lane_items lane.now)) }
{
    let mut pieces = ObjectPieces::none(alloc);
    let mut reading = LaneReading::of_none(alloc, rules.sys);
    for r in lane {
        put_record(&mut pieces, alloc, knowledge, &reading, r)?;
        let _stands = reading.next(rules, r)?;
    }
    Ok(pieces)
}

/// The pieces of each object in lane 0, where it reads as a kernel lane. It takes one pass over the lane.
pub fn lane_pieces(alloc: Global, knowledge: &Knowledge) -> Result<ObjectPieces, AllocError>
    requires known { HasItsTables knowledge.now }
    requires stands { IsSome (lane_read (setting_of knowledge.now.sys.now knowledge.now.journal.now)
        (lane_items (lane_of knowledge.now.journal.now 0))) }
    ensures { IfOk result (λ x. (o : ℕ) → pieces_of_object x o ≡ lane_pieces (known_facts knowledge.now)
        (setting_of knowledge.now.sys.now knowledge.now.journal.now) o (lane_items (lane_of knowledge.now.journal.now 0))) }
{
    let rules = Rules::of(alloc, knowledge.sys, knowledge.journal)?;
    pieces_in(alloc, knowledge, &rules, lane_at(knowledge.journal, 0))
}
