//! The kernel's turn: rows of looks, and the steps that they find.

ghost use Rattle.std.specs.Prelude.{◌≡◌, ◌+◌, ◌-◌, ◌<◌, ◌≤◌, [], false, true, IfErr, IfOk, length, reverse, slice_get};
ghost use Rattle.qp_model.specs.KernelLane.{above, floor_in};
ghost use Rattle.qp_model.specs.Sound.{IsSound};
ghost use Rattle.qp_model.specs.Limits.{budget_limit};
ghost use Rattle.qp_stim.specs.Rules.{StimuliFit};
ghost use Rattle.qp_kernel.specs.Turning.{kernel_in};
ghost use Rattle.qp_told.specs.Steps.{TellsSteps};
ghost use Rattle.qp_kernel_turns.specs.AtRest.{HaltsAtRest, StopsAtRest};
ghost use Rattle.qp_kernel_turns.specs.Counting.{AreCounted, Asks, Begin, BeginsFound, TurnsCounted};
ghost use Rattle.qp_kernel_turns.specs.Knowing.{IsScanning, MayLook};
ghost use Rattle.qp_kernel_turns.specs.Lanes.{LaneTo, LaneTurns};
ghost use Rattle.qp_kernel_turns.specs.Ordering.{AreSeenEmpty, InOrder, LooksInOrder, RoundsInOrder, StepsInOrder, TurnsInOrder, VisitsInOrder};
ghost use Rattle.qp_kernel_turns.specs.Pending.{StepsOver, TurnsOver};
ghost use Rattle.qp_kernel_turns.specs.TurnRows.{LooksRow, RoundsRows, StepsRow, TurnsRows, VisitsRow};
ghost use Rattle.qp_kernel_turns.specs.Turning.{AreHeld, EndsTo, LooksTo, RunsTop, StepsTo, Stood, TurnsTo, VisitsTo, floor_of, row_below, stand_of, terms_of};

use crate::halting::{Halt, ready};
use crate::objects::Objects;
use qp_base::{Steps, Tells};
use qp_calls::{Ops, Take};
use qp_dispatch::{Step, Turn};
use qp_kernel::{Irq, Kernel, World};
use qp_model::{Rec, System, stops};
use qp_told::Told;
use std::marker::Brand;
use std::sync::Wait;
use std::sync::ledger::{Blank, Ledger};

/// The floor that no object is above.
const ABOVE_ALL: u8 = 32;

/// What a turn goes by: the system, how many entries an object may take up in the run, whether the kernel is the
/// cooperative one, whose steps never interrupt one another, and whether the sources have threads of their own, so that
/// turns come one behind another.
#[derive(Clone, Copy)]
pub struct Bounds<'a> {
    pub sys: &'a System,
    pub budget: u32,
    pub cooperative: bool,
    pub threaded: bool,
}

/// The object whose step runs, the innermost of those under way.
pub fn top(kernel: &Kernel) -> Option<u8>
    ensures { result ≡ slice_get kernel.now.stack.items (length kernel.now.stack.items - 1) }
{
    kernel.stack.last().copied()
}

/// The floor of the next look: 0 at the base. Within a step it is the larger of the running object's threshold and the
/// ceiling; under the cooperative kernel no object is above it.
pub fn floor(at: &Bounds<'_>, objects: &Objects, kernel: &Kernel) -> u8
    requires held { AreHeld at.now.sys.now kernel.now.stack.items objects.now }
    requires single { at.now.cooperative ≡ true → at.now.threaded ≡ false }
    ensures { result ≡ floor_in at.now.sys.now (kernel_in (terms_of at.now)) (reverse kernel.now.stack.items) objects.now.ceiling }
{
    match top(kernel) {
        None => 0,
        Some(p) => {
            if at.cooperative {
                ABOVE_ALL
            } else {
                objects.threshold(p).max(objects.ceiling)
            }
        }
    }
}

/// Adds a look, and lets at most one stimulus happen in it. The answer tells whether one did.
pub fn look<R: Wait, W: World, L: Ledger>(
    rt: &R,
    world: &mut W,
    at: &Bounds<'_>,
    objects: &Objects,
    kernel: &mut Kernel,
    floor: u8,
    steps: &mut Steps<L>,
) -> Result<bool, Halt>
    requires sound { IsSound at.now.sys.now }
    requires fit { StimuliFit at.now.sys.now (W.lane world.old).plan }
    requires knows { Stood (MayLook at.now.sys.now (terms_of at.now)) at.now.sys.now (terms_of at.now) (stand_of kernel.old objects.now (W.lane world.old)) }
    requires floor { floor ≡ floor_of at.now.sys.now (terms_of at.now) (stand_of kernel.old objects.now (W.lane world.old)) }
    requires order { InOrder W.acts at.now.sys.now kernel.old.looks (W.lane world.old) }
    ensures goes { LooksTo at.now.sys.now (terms_of at.now) (stand_of kernel.old objects.now (W.lane world.old))
        (stand_of kernel.new objects.now (W.lane world.new)) result }
    ensures order { LooksInOrder W.acts at.now.sys.now (terms_of at.now) (stand_of kernel.old objects.now (W.lane world.old))
        (stand_of kernel.new objects.now (W.lane world.new)) result }
    ensures rests { IfErr result (HaltsAtRest at.now.sys.now (stand_of kernel.new objects.now (W.lane world.new))) }
    ensures lane { LaneTo W.acts (W.lane world.old) (W.lane world.new) result }
    ensures steps { kernel.new.steps ≡ kernel.old.steps }
    ensures asks { Asks W.acts kernel.old kernel.new (W.lane world.old) (W.lane world.new) }
    ensures rows { LooksRow W.acts at.now.sys.now (terms_of at.now) (W.lane world.old) (W.lane world.new) result }
{
    ready(world)?;
    if kernel.looks == u32::MAX {
        world.stop(stops::MEMORY);
        return Err(Halt::Memory);
    }
    kernel.looks += 1;
    world.note(Rec::look(kernel.looks, floor));
    match world.interrupt(rt, at.sys, kernel.looks, floor == 0, steps) {
        Irq::Happened => Ok(true),
        Irq::Nothing => Ok(false),
        Irq::Stopped => Err(Halt::Stopped),
        Irq::Memory => {
            world.stop(stops::MEMORY);
            Err(Halt::Memory)
        }
    }
}

/// The count of steps, once one more has begun. No row of looks begins more than one.
fn one_more(steps: u64, looks: u32) -> u64
    requires { steps < looks }
    ensures { result ≡ steps + 1 }
{
    let _ = looks;
    steps + 1
}

/// Looks at the queue of the object at this place among the objects, where it is above the floor. Where it shows an
/// entry, the object's step begins.
fn visit<R: Wait, W: World, G: Tells>(
    rt: &R,
    world: &mut W,
    at: &Bounds<'_>,
    objects: &mut Objects,
    kernel: &mut Kernel,
    gate: &mut Told<'_, G>,
    floor: u8,
    place: usize,
) -> Result<bool, Halt>
    requires sound { IsSound at.now.sys.now }
    requires few { at.now.budget ≤ budget_limit }
    requires place { place < length at.now.sys.now.objects }
    requires knows { Stood (IsScanning at.now.sys.now (terms_of at.now) (row_below at.now.sys.now floor (place + 1))) at.now.sys.now
        (terms_of at.now)
        (stand_of kernel.old objects.old (W.lane world.old)) }
    requires order { InOrder W.acts at.now.sys.now kernel.old.looks (W.lane world.old) }
    requires seen { AreSeenEmpty at.now.sys.now floor (place + 1) (W.lane world.old) }
    requires turn { kernel.old.steps < kernel.old.looks }
    ensures goes { VisitsTo (row_below at.now.sys.now floor place) at.now.sys.now (terms_of at.now)
        (stand_of kernel.old objects.old (W.lane world.old))
        (stand_of kernel.new objects.new (W.lane world.new)) result }
    ensures order { VisitsInOrder W.acts at.now.sys.now floor place (stand_of kernel.old objects.old (W.lane world.old))
        (stand_of kernel.new objects.new (W.lane world.new)) result }
    ensures rests { IfErr result (HaltsAtRest at.now.sys.now (stand_of kernel.new objects.new (W.lane world.new))) }
    ensures lane { LaneTo W.acts (W.lane world.old) (W.lane world.new) result }
    ensures begun { BeginsFound kernel.old kernel.new objects.old objects.new result }
    ensures rows { VisitsRow at.now.sys.now (terms_of at.now) (row_below at.now.sys.now floor (place + 1)) (row_below at.now.sys.now floor place)
        (W.lane world.old)
        (W.lane world.new) result }
    ensures tells { TellsSteps kernel.old.steps kernel.new.steps gate.old.steps.list gate.new.steps.list }
    ensures asks { Asks W.acts kernel.old kernel.new (W.lane world.old) (W.lane world.new) }
{
    let sys = at.sys;
    let object = &sys.objects.items[place];
    let p = object.priority;
    if p <= floor {
        return Ok(false);
    }
    ready(world)?;
    let now = world.seen(p);
    if u64::from(now.f) + u64::from(now.l) <= u64::from(now.m) {
        return Ok(false);
    }
    if objects.taken(p) >= at.budget {
        world.note(Rec::spent(p));
        world.stop(stops::SPENT);
        return Err(Halt::Stopped);
    }
    if let Some(_) = world.stopped() {
        return Err(Halt::Stopped);
    }
    match world.take(rt, p) {
        Take::Taken(e) => {
            objects.begin(p, e);
            kernel.stack.push(p);
            kernel.steps = one_more(kernel.steps, kernel.looks);
            gate.tells(0, kernel.steps);
            Ok(true)
        }
        // (an entry that was just seen is there to be taken)
        Take::Empty { .. } => unreachable!(),
    }
}

/// How many objects the system has.
fn count(sys: &System) -> usize
    ensures { result ≡ length sys.now.objects }
{
    sys.objects.items.len()
}

/// Looks at the objects above the floor in descending priority, up to the first with an entry, whose step begins. The
/// answer tells whether there is one.
pub fn scan<R: Wait, W: World, G: Tells>(
    rt: &R,
    world: &mut W,
    at: &Bounds<'_>,
    objects: &mut Objects,
    kernel: &mut Kernel,
    gate: &mut Told<'_, G>,
    floor: u8,
) -> Result<bool, Halt>
    requires sound { IsSound at.now.sys.now }
    requires few { at.now.budget ≤ budget_limit }
    requires knows { Stood (IsScanning at.now.sys.now (terms_of at.now) (above at.now.sys.now floor)) at.now.sys.now (terms_of at.now)
        (stand_of kernel.old objects.old (W.lane world.old)) }
    requires order { InOrder W.acts at.now.sys.now kernel.old.looks (W.lane world.old) }
    requires turn { kernel.old.steps < kernel.old.looks }
    ensures goes { VisitsTo [] at.now.sys.now (terms_of at.now) (stand_of kernel.old objects.old (W.lane world.old))
        (stand_of kernel.new objects.new (W.lane world.new)) result }
    ensures order { VisitsInOrder W.acts at.now.sys.now floor 0 (stand_of kernel.old objects.old (W.lane world.old))
        (stand_of kernel.new objects.new (W.lane world.new)) result }
    ensures rests { IfErr result (HaltsAtRest at.now.sys.now (stand_of kernel.new objects.new (W.lane world.new))) }
    ensures lane { LaneTo W.acts (W.lane world.old) (W.lane world.new) result }
    ensures begun { BeginsFound kernel.old kernel.new objects.old objects.new result }
    ensures rows { VisitsRow at.now.sys.now (terms_of at.now) (above at.now.sys.now floor) [] (W.lane world.old) (W.lane world.new) result }
    ensures tells { TellsSteps kernel.old.steps kernel.new.steps gate.old.steps.list gate.new.steps.list }
    ensures asks { Asks W.acts kernel.old kernel.new (W.lane world.old) (W.lane world.new) }
{
    let many = count(at.sys);
    for place in (0..many).rev() {
        if visit(rt, world, at, objects, kernel, gate, floor, place)? {
            return Ok(true);
        }
    }
    Ok(false)
}

/// Goes on with the step at the top of the stack, up to its next scheduling point or to its end.
pub fn step<O: Ops>(
    world: &mut O,
    at: &Bounds<'_>,
    objects: &mut Objects,
    kernel: &mut Kernel,
) -> Result<(), Halt>
    requires sound { IsSound at.now.sys.now }
    requires knows { RunsTop at.now.sys.now (terms_of at.now) (stand_of kernel.old objects.old (O.lane world.old)) }
    ensures goes { StepsTo at.now.sys.now (terms_of at.now) (stand_of kernel.old objects.old (O.lane world.old))
        (stand_of kernel.new objects.new (O.lane world.new)) result }
    ensures order { StepsInOrder at.now.sys.now (stand_of kernel.old objects.old (O.lane world.old))
        (stand_of kernel.new objects.new (O.lane world.new)) result }
    ensures rests { IfErr result (HaltsAtRest at.now.sys.now (stand_of kernel.new objects.new (O.lane world.new))) }
    ensures lane { LaneTo false (O.lane world.old) (O.lane world.new) result }
    ensures begun { Begin 0 kernel.old kernel.new objects.old objects.new }
    ensures looks { kernel.new.looks ≡ kernel.old.looks }
    ensures rows { StepsRow at.now.sys.now (terms_of at.now) (O.lane world.old) (O.lane world.new) result }
{
    let Some(p) = top(kernel) else {
        world.stop(stops::MEMORY);
        return Err(Halt::Memory);
    };
    let mut ceiling = objects.ceiling;
    let answer = objects.resume(p, world, at.sys, &mut ceiling);
    objects.ceiling = ceiling;
    match answer {
        Step::Point => Ok(()),
        Step::Done => {
            let _ = kernel.stack.pop();
            Ok(())
        }
        Step::Stopped => Err(Halt::Stopped),
        Step::Memory => Err(Halt::Memory),
    }
}

/// Goes on until the row of looks at the base is over.
fn rounds<R: Wait, W: World, G: Tells, L: Ledger>(
    rt: &R,
    world: &mut W,
    at: &Bounds<'_>,
    objects: &mut Objects,
    kernel: &mut Kernel,
    gate: &mut Told<'_, G>,
    blank: Blank,
) -> Result<(), Halt>
    requires name { blank.name ≡ L.name }
    requires parts { blank.parts ≡ L.parts }
    requires some { 0 < blank.parts }
    requires plain { at.now.cooperative ≡ false }
    requires sound { IsSound at.now.sys.now }
    requires few { at.now.budget ≤ budget_limit }
    requires fit { StimuliFit at.now.sys.now (W.lane world.old).plan }
    requires knows { Stood (MayLook at.now.sys.now (terms_of at.now)) at.now.sys.now (terms_of at.now) (stand_of kernel.old objects.old (W.lane world.old)) }
    requires order { InOrder W.acts at.now.sys.now kernel.old.looks (W.lane world.old) }
    requires counted { kernel.old.steps ≤ kernel.old.looks }
    ensures goes { EndsTo at.now.sys.now (terms_of at.now) (stand_of kernel.old objects.old (W.lane world.old))
        (stand_of kernel.new objects.new (W.lane world.new)) result }
    ensures order { RoundsInOrder W.acts at.now.sys.now (stand_of kernel.old objects.old (W.lane world.old))
        (stand_of kernel.new objects.new (W.lane world.new)) result }
    ensures rests { IfErr result (HaltsAtRest at.now.sys.now (stand_of kernel.new objects.new (W.lane world.new))) }
    ensures lane { LaneTo W.acts (W.lane world.old) (W.lane world.new) result }
    ensures counted { IfOk result (λ u. AreCounted kernel.old kernel.new objects.old objects.new) }
    ensures pending { IfOk result (λ u. StepsOver at.now.sys.now kernel.old kernel.new (W.lane world.old)) }
    ensures rows { RoundsRows W.acts at.now.sys.now (terms_of at.now) kernel.old (W.lane world.old) (W.lane world.new) result }
    ensures tells { TellsSteps kernel.old.steps kernel.new.steps gate.old.steps.list gate.new.steps.list }
    ensures asks { Asks W.acts kernel.old kernel.new (W.lane world.old) (W.lane world.new) }
{
    let mut steps = Steps::<L>::open(blank);
    for _ in rt.forever() {
        let low = floor(at, objects, kernel);
        let happened = look(rt, world, at, objects, kernel, low, &mut steps)?;
        let found = scan(rt, world, at, objects, kernel, gate, low)?;
        if found {
            step(world, at, objects, kernel)?;
        } else {
            match top(kernel) {
                Some(_) => step(world, at, objects, kernel)?,
                None => {
                    if !happened {
                        return Ok(());
                    }
                }
            }
        }
    }
    unreachable!()
}

/// One turn of the preemptive kernel, from the base to the base: rows of looks, and the steps that they find. `Idle` comes
/// where a row at the base has found nothing; where the sources have threads of their own, another turn may come behind it.
/// An object takes up at most `budget` entries in the run. The gate is called where a step begins.
pub fn kernel_turn<R: Wait, W: World, G: Tells>(
    rt: &R,
    world: &mut W,
    at: &Bounds<'_>,
    objects: &mut Objects,
    kernel: &mut Kernel,
    gate: &mut Told<'_, G>,
) -> Turn
    requires plain { at.now.cooperative ≡ false }
    requires sound { IsSound at.now.sys.now }
    requires few { at.now.budget ≤ budget_limit }
    requires fit { StimuliFit at.now.sys.now (W.lane world.old).plan }
    requires knows { Stood (MayLook at.now.sys.now (terms_of at.now)) at.now.sys.now (terms_of at.now) (stand_of kernel.old objects.old (W.lane world.old)) }
    requires order { InOrder W.acts at.now.sys.now kernel.old.looks (W.lane world.old) }
    requires counted { kernel.old.steps ≤ kernel.old.looks }
    ensures goes { TurnsTo at.now.sys.now (terms_of at.now) (stand_of kernel.old objects.old (W.lane world.old))
        (stand_of kernel.new objects.new (W.lane world.new)) result }
    ensures order { TurnsInOrder W.acts at.now.sys.now (stand_of kernel.old objects.old (W.lane world.old))
        (stand_of kernel.new objects.new (W.lane world.new)) result }
    ensures rests { StopsAtRest at.now.sys.now (stand_of kernel.new objects.new (W.lane world.new)) result }
    ensures lane { LaneTurns W.acts (W.lane world.old) (W.lane world.new) result }
    ensures counted { TurnsCounted kernel.old kernel.new objects.old objects.new result }
    ensures pending { TurnsOver at.now.sys.now kernel.old kernel.new (W.lane world.old) result }
    ensures rows { TurnsRows W.acts at.now.sys.now (terms_of at.now) kernel.old (W.lane world.old) (W.lane world.new) result }
    ensures tells { TellsSteps kernel.old.steps kernel.new.steps gate.old.steps.list gate.new.steps.list }
    ensures asks { Asks W.acts kernel.old kernel.new (W.lane world.old) (W.lane world.new) }
{
    match rounds::<R, W, G, Brand>(rt, world, at, objects, kernel, gate, Blank::new(1)) {
        Ok(()) => Turn::Idle,
        Err(Halt::Stopped) => Turn::Stopped,
        Err(Halt::Memory) => Turn::Memory,
    }
}
