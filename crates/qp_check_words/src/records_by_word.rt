//! The records of a journal by their words.

ghost use Rattle.std.specs.Prelude.{◌≡◌, ◌++◌, ◌∷◌, [], if◌then◌else◌, IfOk, IfSome, OnOk};
ghost use Rattle.qp_model.specs.declared.words.Word.{Word};
ghost use Rattle.qp_model.specs.declared.words.Word.TheVariants as word_kind;
ghost use Rattle.qp_model.specs.History.{all_items, hist, lane_items, marks_rise, touch};
ghost use Rattle.qp_model.specs.Record.{item_of};
ghost use Rattle.qp_model.specs.Touches.{as_word};
ghost use Rattle.qp_check_lanes.specs.Keys.{key_of};
ghost use Rattle.qp_check_words.specs.Marks.{touched, word_use};
ghost use Rattle.qp_check_lanes.specs.Rows.{records_of_key};

use crate::histories::history;
use crate::mark_order::falling_words;
use qp_check_lanes::given_blocks::GivenBlocks;
use qp_check_lanes::groups::Group;
use qp_check_lanes::keys::key_of;
use qp_check_lanes::rows::KeyedRecords;
use qp_model::{Body, Lane, Lanes, Named, Rec, Touched, kinds};
use std::alloc::{AllocError, Global};
use std::collections::{BTreeMap, BTreeSet};
use std::marker::Model;

/// The records on each word, be it one of the system or not, one lane after another, the words whose marks fall in some lane, and the
/// operations of each pool by its blocks. Contracts see the lanes.
#[derive(Drop)]
pub struct RecordsByWord<'a> {
    lanes: &'a Lanes,
    rows: KeyedRecords<'a>,
    falls: BTreeSet<(u64, u64, u64)>,
    pools: BTreeMap<u64, GivenBlocks<'a>>,
    none: Group<'a>,
}

impl<'a> Model for RecordsByWord<'a> {
    ghost use Rattle.std.specs.Prelude.{List};
    ghost use Rattle.qp_model.specs.declared.record.Rec.{Rec};
    ghost use Rattle.qp_check_words.specs.RecordsByWord.{IsByWord};

    ghost Value = { List (List Rec) };

    ghost view = { λ g. g.lanes.now };

    ghost invariant = { λ g. IsByWord g.lanes.now g.rows g.falls g.pools g.none };
}

/// Puts a record into the row of its word.
fn put_record<'a>(rows: &mut KeyedRecords<'a>, alloc: Global, r: &'a Rec) -> Result<(), AllocError>
    ensures { OnOk result ((w : Word) → records_of_key rows.new (key_of w) ≡ (if word_use w (touch (item_of r.now)) then records_of_key rows.old (key_of w)
        ++ item_of r.now ∷ [] else records_of_key rows.old (key_of w))) }
{
    match Touched::by(r) {
        Touched::Draws { word, .. } | Touched::Shows { word, .. } => rows.put(
            alloc,
            key_of(word),
            r,
        ),
        Touched::Neither => Ok(()),
    }
}

fn put_lane<'a>(
    rows: &mut KeyedRecords<'a>,
    alloc: Global,
    lane: &'a Lane,
) -> Result<(), AllocError>
    ensures { OnOk result ((w : Word) → records_of_key rows.new (key_of w) ≡ records_of_key rows.old (key_of w) ++ touched w (lane_items lane.now)) }
{
    for r in &lane.items {
        put_record(rows, alloc, r)?;
    }
    Ok(())
}

fn rows_of<'a>(alloc: Global, lanes: &'a Lanes) -> Result<KeyedRecords<'a>, AllocError>
    ensures { IfOk result (λ x. (w : Word) → records_of_key x (key_of w) ≡ touched w (all_items lanes.now)) }
{
    let mut rows = KeyedRecords::none(alloc);
    for lane in &lanes.items {
        put_lane(&mut rows, alloc, lane)?;
    }
    Ok(rows)
}

/// The pool that a record gives a block out of or back to.
fn pool_named(r: &Rec) -> Option<u64> {
    if r.kind != kinds::NEW && r.kind != kinds::BACK {
        return None;
    }
    match r.body() {
        Body::New { p, .. } | Body::Back { p, .. } => Some(p),
        _ => None,
    }
}

impl<'a> RecordsByWord<'a> {
    /// Three passes over all records, in near linear time.
    pub fn of(alloc: Global, lanes: &'a Lanes) -> Result<Self, AllocError>
        ensures { IfOk result (λ g. g ≡ lanes.now) }
    {
        let mut records = RecordsByWord::without_pools(alloc, lanes)?;
        for lane in &lanes.items {
            records.learn_pools(alloc, lane)?;
        }
        Ok(records)
    }

    fn without_pools(alloc: Global, lanes: &'a Lanes) -> Result<Self, AllocError>
        ensures { IfOk result (λ g. g ≡ lanes.now) }
    {
        Ok(RecordsByWord {
            lanes,
            rows: rows_of(alloc, lanes)?,
            falls: falling_words(alloc, lanes)?,
            pools: BTreeMap::new(alloc),
            none: Group::new(alloc),
        })
    }

    /// Finds the operations of the pools that the records of a lane name.
    fn learn_pools(&mut self, alloc: Global, lane: &Lane) -> Result<(), AllocError>
        ensures { self.new ≡ self.old }
    {
        for r in &lane.items {
            match pool_named(r) {
                Some(p) => self.learn_pool(alloc, p)?,
                None => {}
            }
        }
        Ok(())
    }

    fn learn_pool(&mut self, alloc: Global, p: u64) -> Result<(), AllocError>
        ensures { self.new ≡ self.old }
    {
        if self.pools.contains_key(&p) {
            return Ok(());
        }
        let history = self.history(alloc, Named::Pool { p })?;
        let pool = GivenBlocks::of(alloc, history)?;
        self.pools.insert(p, pool)?;
        Ok(())
    }

    /// The operations of a pool by its blocks. There are none of a pool that no record names.
    pub fn pool(&self, p: u64) -> Option<&GivenBlocks<'a>>
        ensures { IfSome result (λ g. g.now ≡ hist (word_kind.Pool p) (all_items self.now)) }
    {
        self.pools.get(&p)
    }

    /// The records on a word.
    pub fn on(&self, word: Named) -> &Group<'a>
        ensures { result.now ≡ touched (as_word word) (all_items self.now) }
    {
        self.rows.at(key_of(word), &self.none)
    }

    /// Whether in no lane the marks on the word fall.
    pub fn rise(&self, word: Named) -> bool
        ensures { result ≡ marks_rise (as_word word) self.now }
    {
        !self.falls.contains(&key_of(word))
    }

    /// The operations on a word, in the order of their numbers.
    pub fn history(&self, alloc: Global, word: Named) -> Result<Group<'a>, AllocError>
        ensures { IfOk result (λ h. h ≡ hist (as_word word) (all_items self.now)) }
    {
        let found = history(alloc, self.on(word))?;
        Ok(found)
    }
}
