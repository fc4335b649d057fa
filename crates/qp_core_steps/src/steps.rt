//! The steps of one seat.

ghost use Rattle.std.specs.Prelude.{◌≡◌};
ghost use Rattle.qp_core_steps.specs.Words.{StepsAs};
ghost use Rattle.qp_core_steps.specs.Keeps.{HasOwn, StepKeeps};
ghost use Rattle.qp_core_steps.specs.Steps.{may_step, Steps_one};

use crate::blocks::{drop_reference, fill, give, make, put_back};
use crate::looks::{look, may_peek, may_read};
use crate::ops::Op;
use crate::queues::{claim, empty, free, lay, lifo};
use crate::seats::Seat;
use crate::words::Words;
use qp_base::Memory;
use qp_model::System;
use std::alloc::Global;

/// The step by its kind.
fn step_of(
    alloc: Global,
    sys: &System,
    lanes: u32,
    words: &mut Words,
    seat: &mut Seat,
    op: &Op,
) -> Result<bool, Memory>
    ensures { StepsAs (may_step sys.now lanes words.old seat.old op.now) (Steps_one sys.now words.old seat.old op.now words.new seat.new)
        ((words.new ≡ words.old) × (seat.new ≡ seat.old)) result }
{
    match op {
        Op::Give { pool, ev } => give(alloc, sys, lanes, words, seat, *pool, ev),
        Op::Fill {
            pool,
            block,
            place,
            value,
        } => Ok(fill(lanes, words, seat, *pool, *block, *place, *value)),
        Op::Make { pool, block } => make(alloc, sys, lanes, words, seat, *pool, *block),
        Op::Drop { pool, block, name } => {
            drop_reference(alloc, sys, lanes, words, seat, *pool, *block, *name)
        }
        Op::Back { pool, block } => put_back(sys, lanes, words, seat, *pool, *block),
        Op::Look { word, rec } => look(alloc, sys, lanes, words, seat, *word, rec),
        Op::Read { pool, block, place } => Ok(may_read(sys, seat, *pool, *block, *place)),
        Op::Peek { object } => Ok(may_peek(sys, lanes, seat, *object)),
        Op::Split { .. } | Op::Join { .. } => Ok(false),
        Op::Claim {
            to,
            pool,
            block,
            name,
        } => claim(alloc, sys, lanes, words, seat, *to, *pool, *block, *name),
        Op::Lay { to } => Ok(lay(lanes, words, seat, *to)),
        Op::Empty { object } => empty(alloc, sys, lanes, words, seat, *object),
        Op::Free { object } => free(alloc, sys, lanes, words, seat, *object),
        Op::Lifo {
            object,
            pool,
            block,
            name,
        } => lifo(
            alloc, sys, lanes, words, seat, *object, *pool, *block, *name,
        ),
    }
}

/// Makes one step of a seat by itself, so none of splitting and joining. False exactly where the seat may not take it; nothing has changed then, nor where memory
/// was refused. The rule of the event table stands after it, whatever the other seats are (docs/EVENT_TABLE.md).
pub fn step(
    alloc: Global,
    sys: &System,
    lanes: u32,
    words: &mut Words,
    seat: &mut Seat,
    op: &Op,
) -> Result<bool, Memory>
    ensures one { StepsAs (may_step sys.now lanes words.old seat.old op.now) (Steps_one sys.now words.old seat.old op.now words.new seat.new)
        ((words.new ≡ words.old) × (seat.new ≡ seat.old)) result }
    ensures kept { HasOwn lanes seat.old → StepKeeps sys.now words.old seat.old words.new seat.new }
{
    step_of(alloc, sys, lanes, words, seat, op)
}
