//! The definitions of the kernel's lane, of the sources and of the end.

ghost use Rattle.std.specs.Prelude.{◌≡◌, ◌≤◌, ◌+◌, ◌==◌, length, IfOk, IsTrue, ⊤};
ghost use Rattle.std.specs.Bool.{MatchBool};
ghost use Rattle.std.specs.List.{AllByRecursion};
ghost use Rattle.qp_model.specs.Course.{FollowsTo};
ghost use Rattle.qp_model.specs.Ends.{spills_in as spilt};
ghost use Rattle.qp_model.specs.History.{lane_items};
ghost use Rattle.qp_model.specs.Home.{lane_at as lane_of};
ghost use Rattle.qp_model.specs.Kernels.{has_one_order as one_order};
ghost use Rattle.qp_model.specs.Lawful.{KernelHolds, OrderHolds, SpillStands, SpillsStand, cut_of, facts_of, lanes_before as before, one_thread, setting_of};
ghost use Rattle.qp_model.specs.OneOrder.{IsOneOrder};
ghost use Rattle.qp_model.specs.Points.{lane_pieces};
ghost use Rattle.qp_check_calls.specs.Decides.{Decides};
ghost use Rattle.qp_check.specs.Judgeable.{IsJudgeable};
ghost use Rattle.qp_check_words.specs.Numbers.{WordsFit};
ghost use Rattle.qp_check_course.specs.Followable.{IsFollowable};
ghost use Rattle.qp_check_knowledge.specs.Knowledge.{IsKnowledgeOf};
ghost use Rattle.qp_check.specs.ObjectPieces.{ArePiecesOf};
ghost use Rattle.qp_check.specs.Judged.{Finds, end_trials, kernel_trials, lane_trials, source_trials};

use crate::parts::{is_source_lane, spill_stands};
use crate::pieces::lane_pieces;
use crate::pieces_rows::ObjectPieces;
use qp_check_course::follows_with_points;
use qp_check_ends::ending::end_holds;
use qp_check_kernel::kernel_lane::is_kernel_lane;
use qp_check_kernel::one_order::is_one_order;
use qp_check_knowledge::knowledge::Knowledge;
use qp_check_knowledge::told_cut::cut_of;
use qp_check_lanes::lane_parts::{
    count_stands, lane_at, lane_zero_stands, lanes_before, source_lanes, spills_in,
};
use qp_check_words::records_by_word::RecordsByWord;
use qp_check_words::verdict::{Broken, Site};
use qp_model::definitions::{END, KERNEL_LANE, SOURCES};
use qp_model::kernels::{PORT, has_one_order};
use qp_model::{Journal, ObjectDef, Rec, Source, Stimuli, System};
use std::alloc::{AllocError, Global};

/// Whether in an object's steps a row of looks stands after each action and each post of a publication.
fn has_its_points(
    alloc: Global,
    sys: &System,
    j: &Journal,
    d: &ObjectDef,
    pieces: &ObjectPieces,
) -> Result<bool, AllocError>
    requires followable { IsFollowable sys.now d.now }
    requires pieces { ArePiecesOf sys.now j.now pieces.now }
    ensures { IfOk result (λ b. Decides b (FollowsTo sys.now d.now (cut_of sys.now j.now d.now.priority)
        (lane_pieces (facts_of sys.now j.now) (setting_of sys.now j.now) d.now.priority (lane_items (lane_of j.now 0))))) }
{
    let cut = cut_of(sys, j, d.priority);
    let follows = follows_with_points(alloc, sys, d, cut, pieces.of(d.priority))?;
    Ok(follows)
}

fn points_stand(
    alloc: Global,
    sys: &System,
    j: &Journal,
    pieces: &ObjectPieces,
) -> Result<bool, AllocError>
    requires judgeable { IsJudgeable sys.now }
    requires pieces { ArePiecesOf sys.now j.now pieces.now }
    ensures { IfOk result (λ b. Decides b (AllByRecursion (λ d. FollowsTo sys.now d (cut_of sys.now j.now d.priority)
        (lane_pieces (facts_of sys.now j.now) (setting_of sys.now j.now) d.priority (lane_items (lane_of j.now 0)))) sys.now.objects)) }
{
    for d in &sys.objects.items {
        if !has_its_points(alloc, sys, j, d, pieces)? {
            return Ok(false);
        }
    }
    Ok(true)
}

/// Whether lane 0 is the lane of a kernel.
fn kernel_holds(
    alloc: Global,
    knowledge: &Knowledge,
    sys: &System,
    j: &Journal,
) -> Result<bool, AllocError>
    requires judgeable { IsJudgeable sys.now }
    requires known { IsKnowledgeOf knowledge.now sys.now j.now }
    ensures { IfOk result (λ b. Decides b (KernelHolds sys.now j.now)) }
{
    if !is_kernel_lane(alloc, sys, j)? {
        return Ok(false);
    }
    let pieces = lane_pieces(alloc, knowledge)?;
    let stand = points_stand(alloc, sys, j, &pieces)?;
    Ok(stand)
}

/// The definition of the kernel's lane, where it fails.
#[tactic(auto, unfolding(crate::specs::Judged::kernel_trials))]
pub(crate) fn kernel_broken(
    alloc: Global,
    knowledge: &Knowledge,
    sys: &System,
    j: &Journal,
) -> Result<Option<Broken>, AllocError>
    requires judgeable { IsJudgeable sys.now }
    requires known { IsKnowledgeOf knowledge.now sys.now j.now }
    ensures { IfOk result (λ o. Finds (kernel_trials sys.now j.now) o) }
{
    if j.kernel == PORT {
        return Ok(None);
    }
    if kernel_holds(alloc, knowledge, sys, j)? {
        return Ok(None);
    }
    Ok(Some(Broken {
        definition: KERNEL_LANE,
        site: Site::Lane(0),
    }))
}

/// The first source whose lane isn't as its stimuli have it.
fn sources_broken(
    alloc: Global,
    knowledge: &Knowledge,
    sys: &System,
    stim: &Stimuli,
    j: &Journal,
) -> Result<Option<Broken>, AllocError>
    requires judgeable { IsJudgeable sys.now }
    requires known { IsKnowledgeOf knowledge.now sys.now j.now }
    requires few { length stim.now ≤ 16 }
    ensures { IfOk result (λ o. Finds (source_trials sys.now j.now (before sys.now j.now) stim.now) o) }
{
    let first = lanes_before(sys, j);
    for (i, source) in stim.sources.iter().enumerate() {
        let n = first + i;
        if !is_source_lane(alloc, knowledge, sys, j, source, lane_at(j, n))? {
            return Ok(Some(Broken {
                definition: SOURCES,
                site: Site::Lane(n as u32),
            }));
        }
    }
    Ok(None)
}

/// Whether the `spill` of a source, if there is one, stands where it may.
fn may_spill(
    alloc: Global,
    knowledge: &Knowledge,
    sys: &System,
    j: &Journal,
    cuts: bool,
    source: &Source,
    lane: &[Rec],
) -> Result<bool, AllocError>
    requires judgeable { IsJudgeable sys.now }
    requires known { IsKnowledgeOf knowledge.now sys.now j.now }
    ensures { IfOk result (λ b. Decides b (MatchBool (spilt (lane_items lane.now))
        (SpillStands sys.now j.now cuts source.now (lane_items lane.now)) ⊤)) }
{
    if !spills_in(lane) {
        return Ok(true);
    }
    let stands = spill_stands(alloc, knowledge, sys, j, cuts, source, lane)?;
    Ok(stands)
}

fn spills_stand(
    alloc: Global,
    knowledge: &Knowledge,
    sys: &System,
    stim: &Stimuli,
    j: &Journal,
    cuts: bool,
) -> Result<bool, AllocError>
    requires judgeable { IsJudgeable sys.now }
    requires known { IsKnowledgeOf knowledge.now sys.now j.now }
    ensures { IfOk result (λ b. Decides b (SpillsStand sys.now j.now cuts 1 stim.now)) }
{
    for (i, source) in stim.sources.iter().enumerate() {
        if !may_spill(alloc, knowledge, sys, j, cuts, source, lane_at(j, i + 1))? {
            return Ok(false);
        }
    }
    Ok(true)
}

/// Whether the records have one order, where a `spill` stands within its stimulus, or behind it.
fn has_order(
    alloc: Global,
    knowledge: &Knowledge,
    sys: &System,
    stim: &Stimuli,
    j: &Journal,
    cuts: bool,
) -> Result<bool, AllocError>
    requires judgeable { IsJudgeable sys.now }
    requires known { IsKnowledgeOf knowledge.now sys.now j.now }
    ensures { IfOk result (λ b. Decides b (SpillsStand sys.now j.now cuts 1 stim.now × IsOneOrder
        (one_thread sys.now stim.now j.now cuts))) }
{
    if !spills_stand(alloc, knowledge, sys, stim, j, cuts)? {
        return Ok(false);
    }
    let ordered = is_one_order(alloc, sys, stim, cuts, lane_at(j, 0), source_lanes(sys, j))?;
    Ok(ordered)
}

fn order_holds(
    alloc: Global,
    knowledge: &Knowledge,
    sys: &System,
    stim: &Stimuli,
    j: &Journal,
) -> Result<bool, AllocError>
    requires judgeable { IsJudgeable sys.now }
    requires known { IsKnowledgeOf knowledge.now sys.now j.now }
    ensures { IfOk result (λ b. Decides b (OrderHolds sys.now stim.now j.now)) }
{
    if has_order(alloc, knowledge, sys, stim, j, true)? {
        return Ok(true);
    }
    let behind = has_order(alloc, knowledge, sys, stim, j, false)?;
    Ok(behind)
}

/// Whether there are no lanes more, and the records of a run with one thread have one order.
fn lanes_hold(
    alloc: Global,
    knowledge: &Knowledge,
    sys: &System,
    stim: &Stimuli,
    j: &Journal,
) -> Result<bool, AllocError>
    requires judgeable { IsJudgeable sys.now }
    requires known { IsKnowledgeOf knowledge.now sys.now j.now }
    ensures { IfOk result (λ b. Decides b (IsTrue (length j.now.lanes == before sys.now j.now + length stim.now) × MatchBool
        (one_order j.now.kernel) (OrderHolds sys.now stim.now j.now) ⊤)) }
{
    if !count_stands(sys, stim, j) {
        return Ok(false);
    }
    if !has_one_order(j.kernel) {
        return Ok(true);
    }
    let holds = order_holds(alloc, knowledge, sys, stim, j)?;
    Ok(holds)
}

fn no_sources(site: Site) -> Broken
    ensures { (result.definition ≡ 20) × (result.site ≡ site) }
{
    Broken {
        definition: SOURCES,
        site,
    }
}

/// The first site at which the definition of sources fails.
#[tactic(auto, unfolding(crate::specs::Judged::lane_trials))]
pub(crate) fn lanes_broken(
    alloc: Global,
    knowledge: &Knowledge,
    sys: &System,
    stim: &Stimuli,
    j: &Journal,
) -> Result<Option<Broken>, AllocError>
    requires judgeable { IsJudgeable sys.now }
    requires known { IsKnowledgeOf knowledge.now sys.now j.now }
    requires few { length stim.now ≤ 16 }
    ensures { IfOk result (λ o. Finds (lane_trials sys.now stim.now j.now) o) }
{
    if !lane_zero_stands(j) {
        return Ok(Some(no_sources(Site::Lane(0))));
    }
    let sources = sources_broken(alloc, knowledge, sys, stim, j)?;
    match sources {
        Some(broken) => return Ok(Some(broken)),
        None => {}
    }
    if lanes_hold(alloc, knowledge, sys, stim, j)? {
        return Ok(None);
    }
    Ok(Some(no_sources(Site::Whole)))
}

/// The definition of the end, where it fails.
#[tactic(auto, unfolding(crate::specs::Judged::end_trials))]
pub(crate) fn end_broken(
    alloc: Global,
    sys: &System,
    j: &Journal,
    records: &RecordsByWord,
) -> Result<Option<Broken>, AllocError>
    requires few { WordsFit sys.now }
    requires same { records.now ≡ j.now.lanes }
    ensures { IfOk result (λ o. Finds (end_trials sys.now j.now) o) }
{
    if end_holds(alloc, sys, j, records)? {
        return Ok(None);
    }
    Ok(Some(Broken {
        definition: END,
        site: Site::Whole,
    }))
}
