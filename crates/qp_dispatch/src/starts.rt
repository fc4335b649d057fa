//! Starts.

ghost use Rattle.std.specs.Prelude.{◌≤◌, length};
ghost use Rattle.qp_calls.specs.Deferring.{StandAll, kept_in};
ghost use Rattle.qp_chart_compiled.specs.Compiled.{IsCompiled};
ghost use Rattle.qp_dispatch.specs.Runs.{object_setting};
ghost use Rattle.qp_dispatch.specs.Resume.{IsLaneOf, CanTakeSteps};
ghost use Rattle.qp_dispatch.specs.Starting.{StartsTo};

use crate::lasting::Lasting;
use crate::runs::{Home, Left, Ran, run};
use crate::steps::{Step, give_up};
use crate::work::Work;
use arrayvec::ArrayVec;
use qp_base::{Ev, Steps};
use qp_calls::Ops;
use std::sync::ledger::Ledger;

/// Runs the whole start of an object. No scheduling point stands in it.
pub(crate) fn start_on<O: Ops, L: Ledger>(
    ops: &mut O,
    home: &Home<'_>,
    lasting: &mut Lasting,
    ceiling: &mut u8,
    steps: &mut Steps<L>,
) -> Step
    requires lane { IsLaneOf (object_setting home.now) ceiling.old (O.lane ops.old) }
    requires ready { CanTakeSteps home.now.sys.now home.now.me home.now.chart.now }
    requires compiled { IsCompiled home.now.chart.now home.now.compiled.now }
    requires few { length (kept_in lasting.old.list) ≤ lasting.old.list.entries.capacity }
    requires stand { StandAll lasting.old.list.entries.items (O.lane ops.old) }
    ensures { StartsTo (object_setting home.now) ceiling.new lasting.old lasting.new (O.lane ops.old) (O.lane ops.new) result }
{
    let pars = ArrayVec::new();
    let work = Work {
        ev: Ev { sig: 0, pars },
        entry: None,
    };
    let (agenda, leaf) = home.compiled.start(home.chart);
    let mut left = Left {
        agenda,
        under: None,
    };
    match run(ops, home, lasting, &mut left, &work, false, ceiling, steps) {
        Ran::Point => Step::Point,
        Ran::Over => {
            lasting.leaf = leaf;
            Step::Done
        }
        Ran::Asserted(code) => {
            ops.stop(code);
            Step::Stopped
        }
        Ran::Cut(fault) => give_up(ops, fault),
    }
}
