//! What all records together say beside one record.

ghost use Rattle.std.specs.Prelude.{◌≡◌, [], IfOk, OnOk};
ghost use Rattle.qp_chart.specs.StateTree.{has};
ghost use Rattle.qp_model.specs.Knowing.{event_known, event_of_entry, free_before, known_of, references_after, set_at};
ghost use Rattle.qp_check_calls.specs.AsKnown.{as_known};
ghost use Rattle.qp_check_knowledge.specs.KnownTables.{value_at};

use crate::known_steps::event_at;
use crate::known_tables::number_at;
use crate::known_words::{
    KnownBlock, KnownPool, KnownSignal, known_block, known_pool, known_signal,
};
use arrayvec::ArrayVec;
use qp_check_calls::Known;
use qp_check_lanes::numbers::has;
use qp_check_lanes::signals::Subscribed;
use qp_check_words::records_by_word::RecordsByWord;
use qp_model::{Body, Entry, Journal, Lane, Named, Params, Rec, System, Touched, kinds};
use std::alloc::{AllocError, Global};
use std::collections::BTreeMap;

/// What the records of all lanes say beside each of them, made once in near linear time.
#[derive(Drop)]
pub struct Knowledge<'a, 'r> {
    pub sys: &'a System,
    pub journal: &'a Journal,
    pub(crate) records: &'a RecordsByWord<'r>,
    pub(crate) pools: BTreeMap<u64, KnownPool>,
    pub(crate) blocks: BTreeMap<(u64, u64, u64), KnownBlock<'r>>,
    pub(crate) signals: BTreeMap<u64, KnownSignal>,
}

/// Whether the object is in the list at a place, or in the last one.
fn is_in(lists: &[Subscribed], n: usize, o: u8) -> bool
    ensures { result ≡ has (value_at [] lists.now n) o }
{
    let last = lists.len().saturating_sub(1);
    match lists.get(n.min(last)) {
        Some(list) => has(&list.items, u64::from(o)),
        None => false,
    }
}

/// Whether a record of this kind is on a queue, as most are, or on a time event: neither has a table.
fn is_of_queue_or_timer(kind: u8) -> bool {
    match kind {
        kinds::TOOK..=kinds::SEEN | kinds::POST..=kinds::FULL | kinds::ARM..=kinds::FIRE => true,
        _ => false,
    }
}

impl<'a, 'r> Knowledge<'a, 'r> {
    ghost use Rattle.qp_check_knowledge.specs.Knowledge.{IsKnowledgeOf, HasItsTables, known_facts};

    /// What the records of a journal say.
    pub fn of(
        alloc: Global,
        sys: &'a System,
        j: &'a Journal,
        records: &'a RecordsByWord<'r>,
    ) -> Result<Self, AllocError>
        requires { records.now ≡ j.now.lanes }
        ensures { IfOk result (λ k. IsKnowledgeOf k sys.now j.now) }
    {
        let mut knowledge = Knowledge::none(alloc, sys, j, records);
        for lane in &j.lanes.items {
            knowledge.learn_lane(alloc, lane)?;
        }
        Ok(knowledge)
    }

    fn none(alloc: Global, sys: &'a System, j: &'a Journal, records: &'a RecordsByWord<'r>) -> Self
        requires { records.now ≡ j.now.lanes }
        ensures { IsKnowledgeOf result sys.now j.now }
    {
        Knowledge {
            sys,
            journal: j,
            records,
            pools: BTreeMap::new(alloc),
            blocks: BTreeMap::new(alloc),
            signals: BTreeMap::new(alloc),
        }
    }

    /// Makes the tables of the words that the records of a lane name.
    fn learn_lane(&mut self, alloc: Global, lane: &Lane) -> Result<(), AllocError>
        requires { HasItsTables self.old }
        ensures { OnOk result (IsKnowledgeOf self.new self.old.sys.now self.old.journal.now) }
    {
        for r in &lane.items {
            if !is_of_queue_or_timer(r.kind) {
                self.learn_word(alloc, r)?;
            }
        }
        Ok(())
    }

    /// Makes the table of the word that a record names.
    fn learn_word(&mut self, alloc: Global, r: &Rec) -> Result<(), AllocError>
        requires { HasItsTables self.old }
        ensures { OnOk result (IsKnowledgeOf self.new self.old.sys.now self.old.journal.now) }
    {
        match Touched::by(r) {
            Touched::Draws { word, .. } | Touched::Shows { word, .. } => self.learn(alloc, word),
            Touched::Neither => Ok(()),
        }
    }

    fn learn(&mut self, alloc: Global, word: Named) -> Result<(), AllocError>
        requires { HasItsTables self.old }
        ensures { OnOk result (IsKnowledgeOf self.new self.old.sys.now self.old.journal.now) }
    {
        match word {
            Named::Pool { p } => self.learn_pool(alloc, p),
            Named::Block { p, b } => self.learn_block(alloc, p, b),
            Named::Signal { sig } => self.learn_signal(alloc, sig),
            Named::Queue { .. } | Named::Timer { .. } => Ok(()),
        }
    }

    fn learn_pool(&mut self, alloc: Global, p: u64) -> Result<(), AllocError>
        requires { HasItsTables self.old }
        ensures { OnOk result (IsKnowledgeOf self.new self.old.sys.now self.old.journal.now) }
    {
        if self.pools.contains_key(&p) {
            return Ok(());
        }
        let pool = known_pool(alloc, self.sys, self.records, p)?;
        self.pools.insert(p, pool)?;
        Ok(())
    }

    fn learn_block(&mut self, alloc: Global, p: u64, b: u64) -> Result<(), AllocError>
        requires { HasItsTables self.old }
        ensures { OnOk result (IsKnowledgeOf self.new self.old.sys.now self.old.journal.now) }
    {
        if self.blocks.contains_key(&(p, b, 0)) {
            return Ok(());
        }
        let block = known_block(alloc, self.records, p, b)?;
        self.blocks.insert((p, b, 0), block)?;
        Ok(())
    }

    fn learn_signal(&mut self, alloc: Global, sig: u64) -> Result<(), AllocError>
        requires { HasItsTables self.old }
        ensures { OnOk result (IsKnowledgeOf self.new self.old.sys.now self.old.journal.now) }
    {
        if self.signals.contains_key(&sig) {
            return Ok(());
        }
        let signal = known_signal(alloc, self.records, sig)?;
        self.signals.insert(sig, signal)?;
        Ok(())
    }

    fn free_before(&self, alloc: Global, p: u64, n: u64) -> Result<u64, AllocError>
        requires { HasItsTables self.now }
        ensures { IfOk result (λ k. k ≡ free_before (known_facts self.now) p n) }
    {
        match self.pools.get(&p) {
            Some(pool) => Ok(number_at(&pool.free, n as usize)),
            None => {
                let pool = known_pool(alloc, self.sys, self.records, p)?;
                Ok(number_at(&pool.free, n as usize))
            }
        }
    }

    fn left_after(&self, alloc: Global, p: u64, b: u64, d: u64) -> Result<u64, AllocError>
        requires { HasItsTables self.now }
        ensures { IfOk result (λ k. k ≡ references_after (known_facts self.now) p b d) }
    {
        let n = (d as usize).saturating_add(1);
        match self.blocks.get(&(p, b, 0)) {
            Some(block) => Ok(number_at(&block.left, n)),
            None => {
                let block = known_block(alloc, self.records, p, b)?;
                Ok(number_at(&block.left, n))
            }
        }
    }

    fn is_member(&self, alloc: Global, sig: u64, n: u64, o: u8) -> Result<bool, AllocError>
        requires { HasItsTables self.now }
        ensures { IfOk result (λ b. b ≡ has (set_at (known_facts self.now) sig n) o) }
    {
        match self.signals.get(&sig) {
            Some(signal) => Ok(is_in(&signal.lists, n as usize, o)),
            None => {
                let signal = known_signal(alloc, self.records, sig)?;
                Ok(is_in(&signal.lists, n as usize, o))
            }
        }
    }

    fn event_of(&self, alloc: Global, e: Entry) -> Result<Known, AllocError>
        requires { HasItsTables self.now }
        ensures { IfOk result (λ k. as_known k ≡ event_known (event_of_entry (known_facts self.now) e)) }
    {
        if e.pool == 0 {
            return Ok(Known::OfEvent {
                sig: e.block,
                pars: Params {
                    items: ArrayVec::new(),
                },
            });
        }
        match self.blocks.get(&(e.pool, e.block, 0)) {
            Some(block) => Ok(event_at(block, e.name)),
            None => {
                let block = known_block(alloc, self.records, e.pool, e.block)?;
                Ok(event_at(&block, e.name))
            }
        }
    }

    /// What is known beside a record of object `o`; `ceiling` stood before it in its lane.
    ///
    /// A look-up takes logarithmic time, or as many steps as the signal has subscribers: each word that a record names has its table.
    #[tactic(auto, unfolding(qp_model::specs::Knowing::known_of))]
    pub fn known_of(
        &self,
        alloc: Global,
        o: u8,
        ceiling: u64,
        body: &Body,
    ) -> Result<Known, AllocError>
        requires { HasItsTables self.now }
        ensures { IfOk result (λ k. as_known k ≡ known_of (known_facts self.now) o ceiling body.now) }
    {
        match body {
            Body::Took { entry, .. } => self.event_of(alloc, *entry),
            Body::New { p, n, .. } => Ok(Known::Free {
                n: self.free_before(alloc, *p, *n)?,
            }),
            Body::Dec { p, b, d, .. } => Ok(Known::Left {
                n: self.left_after(alloc, *p, *b, *d)?,
            }),
            Body::Lock { .. } => Ok(Known::Former { ceiling }),
            Body::Same { sig, n } => Ok(Known::Member {
                is: self.is_member(alloc, *sig, *n, o)?,
            }),
            _ => Ok(Known::Nothing),
        }
    }
}
