//! A handler's publication, part by part.

ghost use Rattle.std.specs.Prelude.{◌≡◌, ◌<◌, ◌∷◌, [], Some, None};
ghost use Rattle.qp_chart.specs.declared.actions.Plain.TheVariants as action;
ghost use Rattle.qp_chart.specs.Task as task;
ghost use Rattle.qp_model.specs.Acts.{Moment};
ghost use Rattle.qp_calls.specs.LaneView.{ceiling_in};
ghost use Rattle.qp_calls.specs.Deferring.{StandAll};
ghost use Rattle.qp_dispatch.specs.Lasts.{moment_of_work};
ghost use Rattle.qp_dispatch.specs.Parts.{FewerLeft, IsPublishing, Parts, held_by};
ghost use Rattle.qp_dispatch.specs.SoundFor.{MayAct};

use crate::lasting::Lasting;
use crate::part::{Part, Under};
use crate::values::{event, surroundings};
use crate::work::Work;
use qp_base::Steps;
use qp_calls::{Begun, Did, Ops, Publication, publish_begin, publish_end, publish_post};
use qp_chart::BoundExprs;
use qp_model::System;
use std::sync::ledger::Ledger;

/// Begins a publication: the event, its subscribers, and the ceiling raised to the highest of them.
pub(crate) fn publish<O: Ops, L: Ledger>(
    ops: &mut O,
    sys: &System,
    me: u8,
    lasting: &mut Lasting,
    under: &mut Option<Under>,
    work: &Work,
    sig: u16,
    pars: &BoundExprs,
    reserve: Option<u8>,
    ceiling: &mut u8,
    steps: &mut Steps<L>,
) -> Part
    requires of { (O.lane ops.old).sys ≡ sys.now }
    requires mine { (O.lane ops.old).by ≡ me }
    requires may { MayAct sys.now me work.now.entry (action.Publish sig pars.now reserve) }
    requires none { under.old ≡ None }
    requires ceiling { ceiling.old ≡ ceiling_in 0 (O.lane ops.old).told }
    ensures { Parts me (moment_of_work work.now) (task.Do (action.Publish sig pars.now reserve) ∷ []) ceiling.old ceiling.new
        lasting.old None lasting.new under.new (O.lane ops.old) (O.lane ops.new) result }
{
    let ev = event(sig, pars.items.as_slice(), &surroundings(me, lasting, work));
    let former = *ceiling;
    match publish_begin(ops, sys, &ev, reserve, former, steps) {
        Err(fault) => Part::Cut(fault),
        Ok(Begun::Did(Did::Assert { code })) => Part::Asserted(code),
        Ok(Begun::Did(Did::Value(n))) => {
            lasting.ok = i64::from(n);
            Part::Point
        }
        Ok(Begun::Going(publication)) => {
            *ceiling = publication.ceiling().unwrap_or(former);
            *under = Some(Under {
                publication,
                ceiling: former,
            });
            Part::On
        }
    }
}

/// Goes on with a publication: a post to the highest member left, or its end.
pub(crate) fn go_on<O: Ops, L: Ledger>(
    ops: &mut O,
    me: u8,
    lasting: &mut Lasting,
    from: Under,
    under: &mut Option<Under>,
    ceiling: &mut u8,
    steps: &mut Steps<L>,
) -> Part
    requires some { 0 < me }
    requires none { under.old ≡ None }
    requires publishing { IsPublishing (Some from) (O.lane ops.old) }
    requires stand { StandAll (held_by lasting.old (Some from)) (O.lane ops.old) }
    ensures goes { (at : Moment) → Parts me at [] ceiling.old ceiling.new
        lasting.old (Some from) lasting.new under.new (O.lane ops.old) (O.lane ops.new) result }
    ensures fewer { FewerLeft from under.new }
{
    let Under {
        publication,
        ceiling: former,
    } = from;
    if publication.left() == 0 {
        return finish(ops, me, lasting, publication, former, ceiling);
    }
    match publish_post(ops, publication, steps) {
        Err(fault) => Part::Cut(fault),
        Ok(Begun::Did(Did::Assert { code })) => Part::Asserted(code),
        Ok(Begun::Did(Did::Value(_))) => Part::Point,
        Ok(Begun::Going(publication)) => {
            *under = Some(Under {
                publication,
                ceiling: former,
            });
            Part::Point
        }
    }
}

/// Ends a publication: the former ceiling is restored, and the answer is 1.
fn finish<O: Ops>(
    ops: &mut O,
    me: u8,
    lasting: &mut Lasting,
    publication: Publication,
    former: u8,
    ceiling: &mut u8,
) -> Part
    requires some { 0 < me }
    requires left { publication.left ≡ 0 }
    requires former { former ≡ publication.former }
    requires stand { StandAll (held_by lasting.old (Some (record { publication = publication; ceiling = former }))) (O.lane ops.old) }
    ensures { (at : Moment) → Parts me at [] ceiling.old ceiling.new
        lasting.old (Some (record { publication = publication; ceiling = former })) lasting.new None
        (O.lane ops.old) (O.lane ops.new) result }
{
    let raised = publication.ceiling().is_some();
    match publish_end(ops, publication) {
        Err(fault) => Part::Cut(fault),
        Ok(_) => {
            if raised {
                *ceiling = former;
            }
            lasting.ok = 1;
            Part::Point
        }
    }
}
