//! The words of a system, by kind and ascending.

ghost use Rattle.std.specs.Prelude.{◌≡◌, ◌++◌, IfOk, OnOk};
ghost use Rattle.qp_model.specs.WordLaw.{is_object};
ghost use Rattle.qp_check_words.specs.Numbers.{WordsFit};
ghost use Rattle.qp_check_words.specs.SystemWords.{block_words, pool_words, queue_words, signal_words, timer_words, words_of, words_of_pool};

use qp_model::{System, Word};
use std::alloc::{AllocError, Global};

/// All words of the system.
#[tactic(auto, unfolding(crate::specs::SystemWords::words_of))]
pub fn words_of(alloc: Global, sys: &System) -> Result<Vec<Word>, AllocError>
    requires { WordsFit sys.now }
    ensures { IfOk result (λ v. v.items ≡ words_of sys.now) }
{
    let mut words = Vec::new(alloc);
    add_pools(&mut words, sys)?;
    add_blocks(&mut words, sys)?;
    add_queues(&mut words, sys)?;
    add_signals(&mut words, sys)?;
    add_timers(&mut words, sys)?;
    Ok(words)
}

#[tactic(auto, unfolding(qp_model::specs::WordLaw::is_object))]
fn is_object(sys: &System, a: u8) -> bool
    ensures { result ≡ is_object sys.now a }
{
    match sys.object_at(u64::from(a)) {
        Some(_) => true,
        None => false,
    }
}

fn add_pools(words: &mut Vec<Word>, sys: &System) -> Result<(), AllocError>
    requires { WordsFit sys.now }
    ensures { OnOk result (words.new.items ≡ words.old.items ++ pool_words sys.now) }
{
    for k in 0..sys.pools.items.len() {
        words.push(Word::Pool(k as u8 + 1))?;
    }
    Ok(())
}

fn add_blocks(words: &mut Vec<Word>, sys: &System) -> Result<(), AllocError>
    requires { WordsFit sys.now }
    ensures { OnOk result (words.new.items ≡ words.old.items ++ block_words sys.now) }
{
    for k in 0..sys.pools.items.len() {
        add_blocks_of(words, sys, k as u8 + 1)?;
    }
    Ok(())
}

fn add_blocks_of(words: &mut Vec<Word>, sys: &System, p: u8) -> Result<(), AllocError>
    ensures { OnOk result (words.new.items ≡ words.old.items ++ words_of_pool sys.now p) }
{
    for b in 0..sys.blocks_of(u64::from(p)) {
        words.push(Word::Block(p, b))?;
    }
    Ok(())
}

fn add_queues(words: &mut Vec<Word>, sys: &System) -> Result<(), AllocError>
    ensures { OnOk result (words.new.items ≡ words.old.items ++ queue_words sys.now) }
{
    for n in 0..256usize {
        if is_object(sys, n as u8) {
            words.push(Word::Queue(n as u8))?;
        }
    }
    Ok(())
}

fn add_signals(words: &mut Vec<Word>, sys: &System) -> Result<(), AllocError>
    requires { WordsFit sys.now }
    ensures { OnOk result (words.new.items ≡ words.old.items ++ signal_words sys.now) }
{
    for k in 0..sys.signals.items.len() {
        words.push(Word::Signal(k as u16 + 4))?;
    }
    Ok(())
}

fn add_timers(words: &mut Vec<Word>, sys: &System) -> Result<(), AllocError>
    requires { WordsFit sys.now }
    ensures { OnOk result (words.new.items ≡ words.old.items ++ timer_words sys.now) }
{
    for k in 0..sys.timers.items.len() {
        words.push(Word::Timer(k as u8 + 1))?;
    }
    Ok(())
}
