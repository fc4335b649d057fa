//! The words whose marks fall in some lane.

ghost use Rattle.std.specs.Prelude.{◌≡◌, ◌&&◌, ◌||◌, ℕ, nat_lt, not, if◌then◌else◌, IfOk, OnOk};
ghost use Rattle.std.specs.List.{list_all};
ghost use Rattle.std.specs.BTreeSet.{contains};
ghost use Rattle.qp_model.specs.declared.words.Word.{Word};
ghost use Rattle.qp_model.specs.History.{lane_items, marks_rise, touch};
ghost use Rattle.qp_model.specs.Record.{item_of};
ghost use Rattle.qp_check_lanes.specs.Keys.{key_cmp, key_of, same_key};
ghost use Rattle.qp_check_words.specs.MarkOrder.{mark_at};
ghost use Rattle.qp_check_words.specs.Marks.{mark_number, rises_from, touched, word_use};

use qp_check_lanes::keys::key_of;
use qp_model::{Lane, Lanes, Rec, Touched};
use std::alloc::{AllocError, Global};
use std::collections::{BTreeMap, BTreeSet};

/// The last mark of each word in the front of a lane.
#[derive(Drop)]
struct LastMarks {
    marks: BTreeMap<(u64, u64, u64), u128>,
}

impl LastMarks {
    fn none(alloc: Global) -> Self
        ensures { (q : ℕ × ℕ × ℕ) → mark_at result q ≡ 0 }
    {
        LastMarks {
            marks: BTreeMap::new(alloc),
        }
    }

    /// Puts a mark in place of the one before it, which it answers; 0 where there was none.
    fn put(&mut self, key: (u64, u64, u64), mark: u128) -> Result<u128, AllocError>
        ensures former { IfOk result (λ n. n ≡ mark_at self.old key) }
        ensures each { OnOk result ((q : ℕ × ℕ × ℕ) → mark_at self.new q ≡ (if same_key key q then mark else mark_at self.old q)) }
    {
        let former = self.marks.insert(key, mark)?;
        Ok(former.unwrap_or(0))
    }
}

/// Notes the mark of one record.
fn note_mark(
    last: &mut LastMarks,
    falls: &mut BTreeSet<(u64, u64, u64)>,
    key: (u64, u64, u64),
    mark: u128,
) -> Result<(), AllocError>
    ensures last { OnOk result ((q : ℕ × ℕ × ℕ) → mark_at last.new q ≡ (if same_key key q then mark else mark_at last.old q)) }
    ensures falls { OnOk result ((q : ℕ × ℕ × ℕ) → contains key_cmp falls.new q ≡
        (contains key_cmp falls.old q || (same_key key q && nat_lt mark (mark_at last.old q)))) }
{
    if mark < last.put(key, mark)? {
        let _ = falls.insert(key)?;
    }
    Ok(())
}

/// Notes what a record does to its word.
fn note_record(
    last: &mut LastMarks,
    falls: &mut BTreeSet<(u64, u64, u64)>,
    r: &Rec,
) -> Result<(), AllocError>
    ensures last { OnOk result ((w : Word) → mark_at last.new (key_of w) ≡ (if word_use w (touch (item_of r.now)) then mark_number
        (touch (item_of r.now)) else mark_at last.old (key_of w))) }
    ensures falls { OnOk result ((w : Word) → contains key_cmp falls.new (key_of w) ≡
        (contains key_cmp falls.old (key_of w) || (word_use w (touch (item_of r.now)) && nat_lt (mark_number (touch (item_of r.now)))
        (mark_at last.old (key_of w))))) }
{
    match Touched::by(r) {
        Touched::Draws { word, mark } | Touched::Shows { word, mark } => {
            note_mark(last, falls, key_of(word), mark)
        }
        Touched::Neither => Ok(()),
    }
}

/// Puts the words whose marks fall in the lane among those that fall.
fn note_lane(
    alloc: Global,
    falls: &mut BTreeSet<(u64, u64, u64)>,
    lane: &Lane,
) -> Result<(), AllocError>
    ensures { OnOk result ((w : Word) → contains key_cmp falls.new (key_of w) ≡
        (contains key_cmp falls.old (key_of w) || not (rises_from 0 (touched w (lane_items lane.now))))) }
{
    let mut last = LastMarks::none(alloc);
    for r in &lane.items {
        note_record(&mut last, falls, r)?;
    }
    Ok(())
}

/// The words whose marks fall in some lane, by their keys.
pub(crate) fn falling_words(
    alloc: Global,
    lanes: &Lanes,
) -> Result<BTreeSet<(u64, u64, u64)>, AllocError>
    ensures { IfOk result (λ s. (w : Word) → contains key_cmp s (key_of w) ≡ not (marks_rise w lanes.now)) }
{
    let mut falls = BTreeSet::new(alloc);
    for lane in &lanes.items {
        note_lane(alloc, &mut falls, lane)?;
    }
    Ok(falls)
}
