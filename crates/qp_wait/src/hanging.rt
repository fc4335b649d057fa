//! What wakes each object, and the cords that a lane gets.

ghost use Rattle.std.specs.Prelude.{◌≡◌, ◌++◌, [], true, map, IfOk, IfSome, OnOk};
ghost use Rattle.qp_wait_rings.specs.Cords.{are_unpulled};
ghost use Rattle.qp_wait.specs.Ropes.{AreRopes, IsPerchAt, parkers_of, wakes};

use crate::perch::Perch;
use crossbeam_utils::sync::parker::Pass;
use qp_base::Memory;
use qp_model::ObjectDef;
use qp_wait_bells::{Bell, Notes, Waker, new_bell, pass_of};
use qp_wait_rings::Cord;
use std::alloc::Global;

/// What wakes the thread of an object, by its priority. All threads share it.
#[derive(Drop)]
pub struct Waking {
    pub object: u8,
    pub waker: Waker,
}

/// The first pass on the parker of an object, and the parker until a lane has it.
#[derive(Drop)]
pub struct Rope {
    pub bell: Option<Bell>,
    pub pass: Pass<Notes>,
}

/// A parker for each of these objects.
pub(crate) fn hang(
    alloc: Global,
    objects: &[ObjectDef],
    wakers: &mut Vec<Waking>,
    ropes: &mut Vec<Rope>,
) -> Result<(), Memory>
    requires ropes { AreRopes wakers.old.items ropes.old.items }
    ensures ropes { OnOk result (AreRopes wakers.new.items ropes.new.items) }
    ensures objects { OnOk result (map (λ w. w.object) wakers.new.items ≡ map (λ w. w.object) wakers.old.items ++ map (λ d. d.priority) objects.now) }
{
    let Some((one, rest)) = objects.split_first() else {
        return Ok(());
    };
    let Ok((bell, pass)) = new_bell(alloc) else {
        return Err(Memory);
    };
    let Ok(waker) = bell.unparker().clone() else {
        return Err(Memory);
    };
    let waking = Waking {
        object: one.priority,
        waker,
    };
    let rope = Rope {
        bell: Some(bell),
        pass,
    };
    let Ok(()) = wakers.push(waking) else {
        return Err(Memory);
    };
    let Ok(()) = ropes.push(rope) else {
        return Err(Memory);
    };
    hang(alloc, rest, wakers, ropes)
}

/// A cord for each object, with a waker and a pass of its own.
pub(crate) fn add_cords(
    wakers: &[Waking],
    ropes: &mut [Rope],
    cords: &mut Vec<Cord>,
) -> Result<(), Memory>
    requires ropes { AreRopes wakers.now ropes.old }
    requires none { are_unpulled cords.old.items ≡ true }
    ensures ropes { AreRopes wakers.now ropes.new }
    ensures objects { OnOk result (map (λ c. c.object) cords.new.items ≡ map (λ c. c.object) cords.old.items ++ map (λ w. w.object) wakers.now) }
    ensures parkers { OnOk result (parkers_of cords.new.items ≡ parkers_of cords.old.items ++ map wakes wakers.now) }
    ensures none { OnOk result (are_unpulled cords.new.items ≡ true) }
{
    let Some((waking, later)) = wakers.split_first() else {
        return Ok(());
    };
    let Some((rope, others)) = ropes.split_first_mut() else {
        return Ok(());
    };
    let Ok(waker) = waking.waker.clone() else {
        return Err(Memory);
    };
    let cord = Cord {
        object: waking.object,
        waker,
        pass: pass_of(&waking.waker, &mut rope.pass),
        pulls: 0,
    };
    let Ok(()) = cords.push(cord) else {
        return Err(Memory);
    };
    add_cords(later, others, cords)
}

/// The parker of object `me`; None where there is no such object, or another lane has it.
pub(crate) fn perch_of(
    alloc: Global,
    wakers: &[Waking],
    ropes: &mut [Rope],
    me: u8,
) -> Option<Perch>
    requires ropes { AreRopes wakers.now ropes.old }
    ensures ropes { AreRopes wakers.now ropes.new }
    ensures object { IfSome result (λ p. p.object ≡ me) }
    ensures parker { IfSome result (IsPerchAt wakers.now) }
    ensures none { IfSome result (λ p. p.parks.items ≡ []) }
{
    let Some((waking, later)) = wakers.split_first() else {
        return None;
    };
    let Some((rope, others)) = ropes.split_first_mut() else {
        return None;
    };
    if waking.object != me {
        return perch_of(alloc, later, others, me);
    }
    match rope.bell.take() {
        None => None,
        Some(bell) => Some(Perch {
            object: me,
            bell,
            pass: pass_of(&waking.waker, &mut rope.pass),
            parks: Vec::new(alloc),
        }),
    }
}
