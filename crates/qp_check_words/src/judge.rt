//! The first definition of words that fails, and its first site.

ghost use Rattle.std.specs.Prelude.{◌≡◌, ◌&&◌, not, IfOk};
ghost use Rattle.qp_model.specs.History.{all_items, hist, is_numbered, marks_rise};
ghost use Rattle.qp_check_words.specs.declared.rules.Rule.TheVariants as rule;
ghost use Rattle.qp_check_words.specs.Numbers.{WordsFit};
ghost use Rattle.qp_model.specs.declared.systems.System.{System};
ghost use Rattle.qp_model.specs.declared.words.Word.TheVariants as word_kind;
ghost use Rattle.qp_check_words.specs.Judging.{lives_of, rule_test};
ghost use Rattle.qp_check_words.specs.WordRules.{first_broken, is_site, operations_allowed, shown_right, tries_at, tries_by, word_tries};

use crate::histories::numbers_hold;
use crate::judging::{lives_of, operations_allowed, shown_at};
use crate::records_by_word::RecordsByWord;
use crate::rules::{Rule, site_of};
use crate::verdict::Broken;
use crate::words::words_of;
use qp_check_lanes::given_blocks::GivenBlocks;
use qp_check_lanes::keys::named;
use qp_model::{System, Word};
use std::alloc::{AllocError, Global};

/// The first definition of words that fails on these lanes, with its first site: the numbers drawn, the
/// free blocks, the references, the lives of blocks, the lines of queues, what is shown, the subscribers
/// and the time events, each over its words by kind and ascending. None where the words keep their law.
///
/// It takes near linear time in the records.
pub fn words_broken(
    alloc: Global,
    sys: &System,
    records: &RecordsByWord,
) -> Result<Option<Broken>, AllocError>
    requires { WordsFit sys.now }
    ensures { IfOk result (λ b. b ≡ first_broken (word_tries sys.now records.now)) }
{
    let words = words_of(alloc, sys)?;
    let rules = [
        Rule::DrawnNumbers,
        Rule::FreeBlocks,
        Rule::References,
        Rule::Lives,
        Rule::Line,
        Rule::ShownNumbers,
        Rule::Subscribers,
        Rule::TimeEvents,
    ];
    let broken = first_by(alloc, sys, records, &rules, &words)?;
    Ok(broken)
}

fn first_by(
    alloc: Global,
    sys: &System,
    records: &RecordsByWord,
    rules: &[Rule],
    words: &[Word],
) -> Result<Option<Broken>, AllocError>
    ensures { IfOk result (λ b. b ≡ first_broken (tries_by (rule_test sys.now records.now) rules.now words.now)) }
{
    for rule in rules {
        match first_at(alloc, sys, records, *rule, words)? {
            Some(broken) => return Ok(Some(broken)),
            None => {}
        }
    }
    Ok(None)
}

/// The first site at which a definition fails.
fn first_at(
    alloc: Global,
    sys: &System,
    records: &RecordsByWord,
    rule: Rule,
    words: &[Word],
) -> Result<Option<Broken>, AllocError>
    ensures { IfOk result (λ b. b ≡ first_broken (tries_at (rule_test sys.now records.now) rule words.now)) }
{
    for word in words {
        if fails(alloc, sys, records, rule, *word)? {
            return Ok(Some(Broken {
                definition: rule.number(),
                site: site_of(*word),
            }));
        }
    }
    Ok(None)
}

/// Whether the word is a site of the definition, which fails there.
fn fails(
    alloc: Global,
    sys: &System,
    records: &RecordsByWord,
    rule: Rule,
    word: Word,
) -> Result<bool, AllocError>
    ensures { IfOk result (λ b. b ≡ (is_site rule word && not (rule_test sys.now records.now rule word))) }
{
    if !rule.is_site(word) {
        return Ok(false);
    }
    let holds = holds(alloc, sys, records, rule, word)?;
    Ok(!holds)
}

/// Whether a definition holds at a word. That of lives counts where that of references holds.
#[tactic(auto, unfolding(crate::specs::Judging::rule_test, crate::specs::WordRules::rule_holds))]
fn holds(
    alloc: Global,
    sys: &System,
    records: &RecordsByWord,
    rule: Rule,
    word: Word,
) -> Result<bool, AllocError>
    ensures { IfOk result (λ b. b ≡ rule_test sys.now records.now rule word) }
{
    match rule {
        Rule::DrawnNumbers => numbered(alloc, records, word),
        Rule::Lives => lives_hold(alloc, records, word),
        Rule::ShownNumbers => shown_right(alloc, sys, records, word),
        Rule::FreeBlocks | Rule::References | Rule::Line | Rule::Subscribers | Rule::TimeEvents =>
            allowed(alloc, sys, records, word),
    }
}

fn numbered(alloc: Global, records: &RecordsByWord, word: Word) -> Result<bool, AllocError>
    ensures { IfOk result (λ b. b ≡ is_numbered word (all_items records.now)) }
{
    let holds = numbers_hold(alloc, records.on(named(word)))?;
    Ok(holds)
}

fn allowed(
    alloc: Global,
    sys: &System,
    records: &RecordsByWord,
    word: Word,
) -> Result<bool, AllocError>
    ensures { IfOk result (λ b. b ≡ operations_allowed sys.now word (hist word (all_items records.now))) }
{
    let history = records.history(alloc, named(word))?;
    operations_allowed(alloc, sys, word, &history)
}

/// Whether the references of a block are allowed and its lives are as they must be.
fn block_lives(alloc: Global, records: &RecordsByWord, p: u8, b: u8) -> Result<bool, AllocError>
    ensures { IfOk result (λ r. r ≡ lives_of b (hist (word_kind.Pool p) (all_items records.now))
        (hist (word_kind.Block p b) (all_items records.now))) }
{
    let block = records.history(alloc, named(Word::Block(p, b)))?;
    match records.pool(u64::from(p)) {
        Some(pool) => lives_of(alloc, b, pool, &block),
        None => {
            let pool = records.history(alloc, named(Word::Pool(p)))?;
            let given = GivenBlocks::of(alloc, pool)?;
            lives_of(alloc, b, &given, &block)
        }
    }
}

#[tactic(auto, unfolding(crate::specs::Judging::rule_test, crate::specs::WordRules::rule_holds, crate::specs::WordRules::lives_hold))]
fn lives_hold(alloc: Global, records: &RecordsByWord, word: Word) -> Result<bool, AllocError>
    ensures { (sys : System) → IfOk result (λ b. b ≡ rule_test sys records.now rule.Lives word) }
{
    match word {
        Word::Block(p, b) => block_lives(alloc, records, p, b),
        Word::Pool(_) | Word::Queue(_) | Word::Signal(_) | Word::Timer(_) => Ok(true),
    }
}

fn shown_right(
    alloc: Global,
    sys: &System,
    records: &RecordsByWord,
    word: Word,
) -> Result<bool, AllocError>
    ensures { IfOk result (λ b. b ≡ (shown_right sys.now word (all_items records.now) && marks_rise word records.now)) }
{
    let own = named(word);
    let touched = records.on(own);
    let operations = records.history(alloc, own)?;
    let shown = shown_at(alloc, sys, word, touched, &operations)?;
    Ok(shown && records.rise(own))
}
