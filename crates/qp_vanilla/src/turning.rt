//! The cooperative kernel's turn.

ghost use Rattle.std.specs.Prelude.{◌≡◌, ◌<◌, ◌≤◌, [], false, true, IfErr, IfOk};
ghost use Rattle.qp_kernel.specs.Turning.{under};
ghost use Rattle.qp_model.specs.Sound.{IsSound};
ghost use Rattle.qp_model.specs.Limits.{budget_limit};
ghost use Rattle.qp_stim.specs.Rules.{StimuliFit};
ghost use Rattle.qp_kernel_turns.specs.AtRest.{HaltsAtRest, StopsAtRest};
ghost use Rattle.qp_kernel_turns.specs.Counting.{AreCounted, TurnsCounted};
ghost use Rattle.qp_kernel_turns.specs.Knowing.{IsScanning, MayLook};
ghost use Rattle.qp_kernel_turns.specs.Lanes.{LaneTo, LaneTurns};
ghost use Rattle.qp_kernel_turns.specs.Ordering.{AreSeenEmpty, InOrder, RoundsInOrder, TurnsInOrder};
ghost use Rattle.qp_kernel_turns.specs.Turning.{EndsTo, Stood, TurnsTo, stand_of, terms_of};
ghost use Rattle.qp_told.specs.Steps.{TellsSteps};
ghost use Rattle.qp_vanilla.specs.Resting.{RestsInOrder, RestsTo};

use crate::vanilla::Vanilla;
use qp_base::{Gate, Steps};
use qp_dispatch::Turn;
use qp_kernel::{Kernel, World};
use qp_kernel_turns::{Bounds, Halt, Objects, floor, look, ready, scan, step, top};
use qp_model::{Rec, System};
use qp_told::Told;
use std::marker::Brand;
use std::sync::Wait;
use std::sync::ledger::{Blank, Ledger};

/// Rests: the look at the base has found every queue empty.
fn rest<W: World>(
    world: &mut W,
    at: &Bounds<'_>,
    objects: &Objects,
    kernel: &Kernel,
) -> Result<(), Halt>
    requires sound { IsSound at.now.sys.now }
    requires cooperative { at.now.cooperative ≡ true }
    requires single { at.now.threaded ≡ false }
    requires base { kernel.now.stack.items ≡ [] }
    requires knows { Stood (IsScanning at.now.sys.now (terms_of at.now) []) at.now.sys.now (terms_of at.now)
        (stand_of kernel.now objects.now (W.lane world.old)) }
    requires order { InOrder W.acts at.now.sys.now kernel.now.looks (W.lane world.old) }
    requires empty { AreSeenEmpty at.now.sys.now 0 0 (W.lane world.old) }
    ensures goes { RestsTo at.now.sys.now (terms_of at.now) (stand_of kernel.now objects.now (W.lane world.old))
        (stand_of kernel.now objects.now (W.lane world.new)) result }
    ensures order { RestsInOrder W.acts at.now.sys.now (stand_of kernel.now objects.now (W.lane world.old))
        (stand_of kernel.now objects.now (W.lane world.new)) result }
    ensures rests { IfErr result (HaltsAtRest at.now.sys.now (stand_of kernel.now objects.now (W.lane world.new))) }
    ensures lane { LaneTo W.acts (W.lane world.old) (W.lane world.new) result }
{
    let _ = at;
    let _ = objects;
    ready(world)?;
    world.note(Rec::rest(kernel.looks));
    Ok(())
}

/// Goes on until the row of looks at the base is over.
fn rounds<R: Wait, W: World, G: Gate, L: Ledger>(
    rt: &R,
    world: &mut W,
    at: &Bounds<'_>,
    objects: &mut Objects,
    kernel: &mut Kernel,
    gate: &mut Told<'_, G>,
    blank: Blank,
) -> Result<(), Halt>
    requires name { blank.name ≡ L.name }
    requires parts { blank.parts ≡ L.parts }
    requires some { 0 < blank.parts }
    requires sound { IsSound at.now.sys.now }
    requires cooperative { at.now.cooperative ≡ true }
    requires single { at.now.threaded ≡ false }
    requires few { at.now.budget ≤ budget_limit }
    requires fit { StimuliFit at.now.sys.now (W.lane world.old).plan }
    requires knows { Stood (MayLook at.now.sys.now (terms_of at.now)) at.now.sys.now (terms_of at.now) (stand_of kernel.old objects.old (W.lane world.old)) }
    requires order { InOrder W.acts at.now.sys.now kernel.old.looks (W.lane world.old) }
    requires counted { kernel.old.steps ≤ kernel.old.looks }
    ensures goes { EndsTo at.now.sys.now (terms_of at.now) (stand_of kernel.old objects.old (W.lane world.old))
        (stand_of kernel.new objects.new (W.lane world.new)) result }
    ensures order { RoundsInOrder W.acts at.now.sys.now (stand_of kernel.old objects.old (W.lane world.old))
        (stand_of kernel.new objects.new (W.lane world.new)) result }
    ensures rests { IfErr result (HaltsAtRest at.now.sys.now (stand_of kernel.new objects.new (W.lane world.new))) }
    ensures lane { LaneTo W.acts (W.lane world.old) (W.lane world.new) result }
    ensures counted { IfOk result (λ u. AreCounted kernel.old kernel.new objects.old objects.new) }
    ensures tells { TellsSteps kernel.old.steps kernel.new.steps gate.old.steps.list gate.new.steps.list }
{
    let mut steps = Steps::<L>::open(blank);
    for _ in rt.forever() {
        let low = floor(at, objects, kernel);
        let happened = look(rt, world, at, objects, kernel, low, &mut steps)?;
        match top(kernel) {
            // (an interrupt within a step starts no object)
            Some(_) => step(world, at, objects, kernel)?,
            None => {
                if scan(rt, world, at, objects, kernel, gate, low)? {
                    step(world, at, objects, kernel)?;
                } else {
                    rest(world, at, objects, kernel)?;
                    if !happened {
                        return Ok(());
                    }
                }
            }
        }
    }
    unreachable!()
}

/// One turn of the cooperative kernel, from the base to the base: a row of looks, and the steps that it finds, each run to its
/// end before the next. The highest object whose queue has an entry comes first. Interrupts are met at each scheduling point of
/// a step, and start no object. Each look at the base that finds every queue empty is followed by a `rest`. `Idle` comes where
/// the row has found nothing. An object takes up at most `budget` entries in the run. The gate is called where a step begins.
pub fn vanilla_turn<R: Wait, W: World, G: Gate>(
    rt: &R,
    world: &mut W,
    sys: &System,
    objects: &mut Objects,
    vanilla: &mut Vanilla,
    budget: u32,
    gate: &mut Told<'_, G>,
) -> Turn
    requires sound { IsSound sys.now }
    requires few { budget ≤ budget_limit }
    requires fit { StimuliFit sys.now (W.lane world.old).plan }
    requires knows { Stood (MayLook sys.now (under true budget)) sys.now (under true budget) (stand_of vanilla.old.kernel objects.old (W.lane world.old)) }
    requires order { InOrder W.acts sys.now vanilla.old.kernel.looks (W.lane world.old) }
    requires counted { vanilla.old.kernel.steps ≤ vanilla.old.kernel.looks }
    ensures goes { TurnsTo sys.now (under true budget) (stand_of vanilla.old.kernel objects.old (W.lane world.old))
        (stand_of vanilla.new.kernel objects.new (W.lane world.new)) result }
    ensures order { TurnsInOrder W.acts sys.now (stand_of vanilla.old.kernel objects.old (W.lane world.old))
        (stand_of vanilla.new.kernel objects.new (W.lane world.new)) result }
    ensures rests { StopsAtRest sys.now (stand_of vanilla.new.kernel objects.new (W.lane world.new)) result }
    ensures lane { LaneTurns W.acts (W.lane world.old) (W.lane world.new) result }
    ensures counted { TurnsCounted vanilla.old.kernel vanilla.new.kernel objects.old objects.new result }
    ensures tells { TellsSteps vanilla.old.kernel.steps vanilla.new.kernel.steps gate.old.steps.list gate.new.steps.list }
{
    let at = Bounds {
        sys,
        budget,
        cooperative: true,
        threaded: false,
    };
    match rounds::<R, W, G, Brand>(
        rt,
        world,
        &at,
        objects,
        &mut vanilla.kernel,
        gate,
        Blank::new(1),
    ) {
        Ok(()) => Turn::Idle,
        Err(Halt::Stopped) => Turn::Stopped,
        Err(Halt::Memory) => Turn::Memory,
    }
}
