//! How many operations each word has had.

ghost use Rattle.std.specs.Prelude.{◌≡◌, ◌+◌, ◌-◌, nat_lt, ◌<◌, ◌^◌, ◌==◌, ℕ, if◌then◌else◌, IfOk, OnOk};
ghost use Rattle.qp_model.specs.declared.words.Word.{Word};
ghost use Rattle.qp_model.specs.declared.words.Word.TheVariants as word_kind;
ghost use Rattle.qp_model.specs.History.{same_word};
ghost use Rattle.qp_model.specs.Touches.{as_touch, as_word};
ghost use Rattle.qp_check_lanes.specs.Options.{is_this_number};
ghost use Rattle.qp_check_lanes.specs.WordTotals.{count_in, count_at, is_next_at, drawn_at};

use qp_model::{Named, Touched};
use std::alloc::{AllocError, Global};
use std::collections::BTreeMap;

/// Counts by number; one that isn't there is 0.
#[derive(Drop)]
pub struct CountsByNumber {
    pub counts: BTreeMap<u64, u64>,
}

impl CountsByNumber {
    pub fn none(alloc: Global) -> Self
        ensures { (k : ℕ) → count_in result k ≡ 0 }
    {
        CountsByNumber {
            counts: BTreeMap::new(alloc),
        }
    }

    pub fn at(&self, k: u64) -> u64
        ensures { result ≡ count_in self.now k }
    {
        self.counts.get(&k).copied().unwrap_or(0)
    }

    pub fn add(&mut self, k: u64) -> Result<(), AllocError>
        requires { (q : ℕ) → count_in self.old q + 1 < 2 ^ 64 }
        ensures { OnOk result ((q : ℕ) → count_in self.new q ≡ count_in self.old q + (if k == q then 1 else 0)) }
    {
        let n = self.at(k);
        self.counts.insert(k, n + 1)?;
        Ok(())
    }

    /// Counts one fewer where there is one, and answers whether there was.
    pub fn take(&mut self, k: u64) -> Result<bool, AllocError>
        ensures found { IfOk result (λ b. b ≡ nat_lt 0 (count_in self.old k)) }
        ensures rest { OnOk result ((q : ℕ) → count_in self.new q ≡ count_in self.old q - (if k == q then 1 else 0)) }
    {
        let n = self.at(k);
        if n == 0 {
            return Ok(false);
        }
        self.counts.insert(k, n - 1)?;
        Ok(true)
    }
}

impl CountsByNumber {
    /// Counts this number, if there is one.
    pub fn count(&mut self, k: Option<u64>) -> Result<(), AllocError>
        requires { (q : ℕ) → count_in self.old q + 1 < 2 ^ 64 }
        ensures { OnOk result ((q : ℕ) → count_in self.new q ≡ count_in self.old q + (if is_this_number q k then 1 else 0)) }
    {
        match k {
            Some(k) => self.add(k),
            None => Ok(()),
        }
    }
}

/// How many operations each word has had.
#[derive(Drop)]
pub struct Totals {
    pub pools: CountsByNumber,
    pub blocks: BTreeMap<u64, CountsByNumber>,
    pub queues: CountsByNumber,
    pub signals: CountsByNumber,
    pub timers: CountsByNumber,
}

impl Totals {
    pub fn none(alloc: Global) -> Self
        ensures { (w : Word) → count_at result w ≡ 0 }
    {
        Totals {
            pools: CountsByNumber::none(alloc),
            blocks: BTreeMap::new(alloc),
            queues: CountsByNumber::none(alloc),
            signals: CountsByNumber::none(alloc),
            timers: CountsByNumber::none(alloc),
        }
    }

    pub fn at(&self, word: Named) -> u64
        ensures { result ≡ count_at self.now (as_word word) }
    {
        match word {
            Named::Pool { p } => self.pools.at(p),
            Named::Block { p, b } => self.at_block(p, b),
            Named::Queue { a } => self.queues.at(a),
            Named::Signal { sig } => self.signals.at(sig),
            Named::Timer { t } => self.timers.at(t),
        }
    }

    fn at_block(&self, p: u64, b: u64) -> u64
        ensures { result ≡ count_at self.now (word_kind.Block p b) }
    {
        match self.blocks.get(&p) {
            Some(counts) => counts.at(b),
            None => 0,
        }
    }

    fn add_block(&mut self, alloc: Global, p: u64, b: u64) -> Result<(), AllocError>
        requires { (w : Word) → count_at self.old w + 1 < 2 ^ 64 }
        ensures { OnOk result ((w : Word) → count_at self.new w ≡ count_at self.old w +
            (if same_word (word_kind.Block p b) w then 1 else 0)) }
    {
        match self.blocks.get_mut(&p) {
            Some(counts) => counts.add(b),
            None => {
                let mut counts = CountsByNumber::none(alloc);
                counts.add(b)?;
                self.blocks.insert(p, counts)?;
                Ok(())
            }
        }
    }

    /// One operation more.
    pub fn add(&mut self, alloc: Global, word: Named) -> Result<(), AllocError>
        requires { (w : Word) → count_at self.old w + 1 < 2 ^ 64 }
        ensures { OnOk result ((w : Word) → count_at self.new w ≡ count_at self.old w + (if same_word (as_word word) w then 1 else 0)) }
    {
        match word {
            Named::Pool { p } => self.pools.add(p),
            Named::Block { p, b } => self.add_block(alloc, p, b),
            Named::Queue { a } => self.queues.add(a),
            Named::Signal { sig } => self.signals.add(sig),
            Named::Timer { t } => self.timers.add(t),
        }
    }
}

impl Totals {
    /// Whether a number drawn or shown is that of the word's operations.
    pub fn is_next(&self, touched: Touched) -> bool
        ensures { result ≡ is_next_at (count_at self.now) (as_touch touched) }
    {
        match touched {
            Touched::Draws { word, mark } => mark == u128::from(self.at(word)) + 1,
            Touched::Shows { word, mark } => mark == u128::from(self.at(word)),
            Touched::Neither => true,
        }
    }

    /// Counts the operation, if it is one.
    pub fn count(&mut self, alloc: Global, touched: Touched) -> Result<(), AllocError>
        requires { (w : Word) → count_at self.old w + 1 < 2 ^ 64 }
        ensures { OnOk result ((w : Word) → count_at self.new w ≡ drawn_at (count_at self.old) w (as_touch touched)) }
    {
        match touched {
            Touched::Draws { word, .. } => self.add(alloc, word),
            Touched::Shows { .. } | Touched::Neither => Ok(()),
        }
    }
}
