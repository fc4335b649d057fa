//! Active objects.

ghost use Rattle.std.specs.Prelude.{◌≡◌, ◌<◌, IfOk, true};
ghost use Rattle.std.specs.Option.{option_map};
ghost use Rattle.qp_model.specs.Course.{chart_at};
ghost use Rattle.qp_dispatch.specs.Objects.{BeginsStep, HasFirst, IsObjectMade, IsNewObject, MayResume, MayStart, ObjectResumes, ObjectStarts, ResumesAs, StartsAs, leaf_shown, works_for};
ghost use Rattle.qp_dispatch.specs.declared.steps.Position.TheVariants as standing;

use crate::lasting::Lasting;
use crate::runs::Home;
use crate::starts::start_on;
use crate::steps::{Position, Step, step_on};
use qp_base::{Memory, Steps};
use qp_calls::{Deferred, HeldEntry, Ops};
use qp_chart::Chart;
use qp_chart_compiled::Compiled;
use qp_model::{ObjectDef, System, Values};
use std::alloc::{AllocError, Global};
use std::marker::Brand;
use std::sync::ledger::{Blank, Ledger};

/// The answer of a turn.
#[derive(Drop)]
pub enum Turn {
    Idle,
    Stopped,
    Memory,
}

/// An active object: its priority, its chart by number and compiled, what it has from step to step, the step under way,
/// whether its start is done, and how many entries it has taken up.
#[derive(Drop)]
pub struct Object {
    pub(crate) me: u8,
    pub(crate) chart: u8,
    pub(crate) compiled: Compiled,
    pub(crate) lasting: Lasting,
    pub(crate) stage: Position,
    pub(crate) started: bool,
    pub(crate) taken: u32,
}

/// The chart of this number.
fn chart_of(sys: &System, chart: u8) -> Option<&Chart>
    ensures { option_map (λ b. b.now) result ≡ chart_at sys.now chart }
{
    sys.charts.items.get(usize::from(chart).saturating_sub(1))
}

/// The values, copied.
fn copy(alloc: Global, values: &Values) -> Result<Values, AllocError>
    ensures { IfOk result (λ copied. copied ≡ values.now) }
{
    let items = values.items.iter().copied().collect(alloc)?;
    Ok(Values { items })
}

/// What an object has before its start.
fn first(alloc: Global, object: &ObjectDef) -> Result<Lasting, Memory>
    ensures { IfOk result (λ k. HasFirst object.now k) }
{
    let list = Deferred::new(alloc, object.defer)?;
    match copy(alloc, &object.vars) {
        Ok(vars) => Ok(Lasting {
            leaf: 0,
            vars,
            ok: 0,
            list,
            former: 0,
        }),
        Err(_) => Err(Memory),
    }
}

/// An object with this chart, before its start.
fn make(alloc: Global, object: &ObjectDef, chart: &Chart) -> Result<Object, Memory>
    ensures { IfOk result (λ x. IsObjectMade object.now chart.now x) }
{
    let compiled = Compiled::new(chart, alloc)?;
    let lasting = first(alloc, object)?;
    Ok(Object {
        me: object.priority,
        chart: object.chart,
        compiled,
        lasting,
        stage: Position::Between,
        started: false,
        taken: 0,
    })
}

impl Object {
    /// The object of this priority before its start, its chart compiled. A system that lacks it, or its chart, gets the answer of
    /// a want of memory.
    pub fn new(alloc: Global, sys: &System, priority: u8) -> Result<Object, Memory>
        ensures { IfOk result (λ x. IsNewObject sys.now priority x) }
    {
        match sys.object_at(u64::from(priority)) {
            Some(object) => match chart_of(sys, object.chart) {
                Some(chart) => make(alloc, object, chart),
                None => Err(Memory),
            },
            None => Err(Memory),
        }
    }

    /// The whole start. Its lane works for the object meanwhile. No scheduling point stands in a start, and it never answers Point.
    pub fn start<O: Ops>(&mut self, ops: &mut O, sys: &System, ceiling: &mut u8) -> Step
        requires { MayStart sys.now ceiling.old self.old (works_for self.old.me (O.lane ops.old)) }
        ensures { ObjectStarts sys.now ceiling.new self.old self.new (O.lane ops.old) (O.lane ops.new) result }
    {
        start_in::<O, Brand>(self, ops, sys, ceiling, Blank::new(1))
    }

    /// Takes up an entry that was taken for this object. It adds no record.
    pub fn begin(&mut self, e: HeldEntry)
        requires between { self.old.stage ≡ standing.Between }
        requires started { self.old.started ≡ true }
        requires few { self.old.taken < 1000000 }
        ensures { BeginsStep e self.old self.new }
    {
        self.stage = Position::Taken(e);
        self.taken += 1;
    }

    /// Goes on with the step under way, up to its next scheduling point or to its end with the release of its entry. Its lane
    /// works for the object meanwhile.
    pub fn resume<O: Ops>(&mut self, ops: &mut O, sys: &System, ceiling: &mut u8) -> Step
        requires { MayResume sys.now ceiling.old self.old (works_for self.old.me (O.lane ops.old)) }
        ensures { ObjectResumes sys.now ceiling.old ceiling.new self.old self.new (O.lane ops.old) (O.lane ops.new) result }
    {
        resume_in::<O, Brand>(self, ops, sys, ceiling, Blank::new(1))
    }

    /// The current leaf. None exactly before the start is done.
    pub fn leaf(&self) -> Option<u8>
        ensures { result ≡ leaf_shown self.now }
    {
        if self.started {
            Some(self.lasting.leaf)
        } else {
            None
        }
    }

    /// The values of its variables.
    pub fn vars(&self) -> &[i64]
        ensures { result.now ≡ self.now.lasting.vars }
    {
        self.lasting.vars.items.as_slice()
    }

    /// How many entries it has taken up.
    pub fn taken(&self) -> u32
        ensures { result ≡ self.now.taken }
    {
        self.taken
    }

    /// Leaves the deferred entries and those of a step under way, without a record.
    pub fn end<O: Ops>(self, ops: &mut O)
        ensures { O.lane ops.new ≡ O.lane ops.old }
    {
        let _ = ops;
    }
}

/// Starts, and counts its tries in a ledger of its own.
fn start_in<O: Ops, L: Ledger>(
    object: &mut Object,
    ops: &mut O,
    sys: &System,
    ceiling: &mut u8,
    blank: Blank,
) -> Step
    requires name { blank.name ≡ L.name }
    requires parts { blank.parts ≡ L.parts }
    requires some { 0 < blank.parts }
    requires may { MayStart sys.now ceiling.old object.old (works_for object.old.me (O.lane ops.old)) }
    ensures { ObjectStarts sys.now ceiling.new object.old object.new (O.lane ops.old) (O.lane ops.new) result }
{
    let mut steps = Steps::<L>::open(blank);
    let former = ops.by(object.me);
    let answer = start_here(object, ops, sys, ceiling, &mut steps);
    let _ = ops.by(former);
    answer
}

/// Starts in the lane as it is.
fn start_here<O: Ops, L: Ledger>(
    object: &mut Object,
    ops: &mut O,
    sys: &System,
    ceiling: &mut u8,
    steps: &mut Steps<L>,
) -> Step
    requires { MayStart sys.now ceiling.old object.old (O.lane ops.old) }
    ensures { StartsAs (chart_at sys.now object.old.chart) sys.now ceiling.new object.old object.new (O.lane ops.old) (O.lane ops.new) result }
{
    let answer = match chart_of(sys, object.chart) {
        Some(chart) => {
            let home = Home {
                sys,
                chart,
                compiled: &object.compiled,
                me: object.me,
            };
            start_on(ops, &home, &mut object.lasting, ceiling, steps)
        }
        None => Step::Memory,
    };
    if let Step::Done = answer {
        object.started = true;
    }
    answer
}

/// Goes on, and counts its tries in a ledger of its own.
fn resume_in<O: Ops, L: Ledger>(
    object: &mut Object,
    ops: &mut O,
    sys: &System,
    ceiling: &mut u8,
    blank: Blank,
) -> Step
    requires name { blank.name ≡ L.name }
    requires parts { blank.parts ≡ L.parts }
    requires some { 0 < blank.parts }
    requires may { MayResume sys.now ceiling.old object.old (works_for object.old.me (O.lane ops.old)) }
    ensures { ObjectResumes sys.now ceiling.old ceiling.new object.old object.new (O.lane ops.old) (O.lane ops.new) result }
{
    let mut steps = Steps::<L>::open(blank);
    let former = ops.by(object.me);
    let answer = resume_here(object, ops, sys, ceiling, &mut steps);
    let _ = ops.by(former);
    answer
}

/// Goes on in the lane as it is.
fn resume_here<O: Ops, L: Ledger>(
    object: &mut Object,
    ops: &mut O,
    sys: &System,
    ceiling: &mut u8,
    steps: &mut Steps<L>,
) -> Step
    requires { MayResume sys.now ceiling.old object.old (O.lane ops.old) }
    ensures { ResumesAs (chart_at sys.now object.old.chart) sys.now ceiling.old ceiling.new object.old object.new (O.lane ops.old)
        (O.lane ops.new) result }
{
    match chart_of(sys, object.chart) {
        Some(chart) => {
            let home = Home {
                sys,
                chart,
                compiled: &object.compiled,
                me: object.me,
            };
            step_on(
                ops,
                &home,
                &mut object.lasting,
                &mut object.stage,
                ceiling,
                steps,
            )
        }
        None => Step::Memory,
    }
}
