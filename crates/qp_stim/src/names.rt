//! Names, and the maps in which they are looked up.

ghost use Rattle.std.specs.Prelude.{◌≡◌, ◌≤◌, ◌||◌, ℕ, List, length, IfOk};
ghost use Rattle.std.specs.Char.{is_ascii_digit};
ghost use Rattle.std.specs.List.{list_all};
ghost use Rattle.qp_stim.specs.Names.{dictionary_of, object_in, signal_in};
ghost use Rattle.qp_chart_text.specs.Tokens.{is_letter as letter, is_identifier};
ghost use Rattle.qp_stim.specs.Maps.{text_in, dictionary};

use qp_model::System;
use std::alloc::{AllocError, Global};
use std::collections::BTreeMap;

/// A declared signal.
#[derive(Clone, Copy)]
pub struct Signal {
    pub number: u16,
    pub params: u8,
    pub fixed: bool,
}

/// The names of a system, each to be found by its bytes.
#[derive(Drop)]
pub struct SystemNames<'a> {
    pub objects: BTreeMap<&'a [u8], u8>,
    pub signals: BTreeMap<&'a [u8], Signal>,
}

fn is_letter(b: u8) -> bool
    ensures { result ≡ letter b }
{
    b.is_ascii_alphabetic() || b == b'_'
}

fn is_word(text: &[u8]) -> bool
    ensures { result ≡ list_all (λ c. letter c || is_ascii_digit c) text.now }
{
    text.iter().all(|b| is_letter(*b) || b.is_ascii_digit())
}

/// Whether a token is a letter or `_`, then letters, digits and `_`.
#[tactic(auto, unfolding(qp_chart_text::specs::Tokens::is_identifier))]
pub fn is_identifier(token: &[u8]) -> bool
    ensures { result ≡ is_identifier token.now }
{
    match token {
        [] => false,
        [first, rest @ ..] => { is_letter(*first) && is_word(rest) }
    }
}

/// The objects by name. Where a name stands twice, the first counts, so they are put in from the last to the first.
fn objects_of(alloc: Global, sys: &System) -> Result<BTreeMap<&[u8], u8>, AllocError>
    ensures { IfOk result (λ m. (name : List ℕ) → text_in m name ≡ object_in sys.now.objects name) }
{
    let mut objects = BTreeMap::new(alloc);
    let mut place = sys.objects.items.len();
    while place > 0 {
        place -= 1;
        let object = &sys.objects.items[place];
        objects.insert(object.name.as_str().as_bytes(), object.priority)?;
    }
    Ok(objects)
}

/// The signals by name, the first under a name.
fn signals_of(alloc: Global, sys: &System) -> Result<BTreeMap<&[u8], Signal>, AllocError>
    requires { length sys.now.signals ≤ 200 }
    ensures { IfOk result (λ m. (name : List ℕ) → text_in m name ≡ signal_in 4 sys.now.signals name) }
{
    let mut signals = BTreeMap::new(alloc);
    let mut place = sys.signals.items.len();
    while place > 0 {
        place -= 1;
        let signal = &sys.signals.items[place];
        let known = Signal {
            number: place as u16 + 4,
            params: signal.params,
            fixed: signal.fixed,
        };
        signals.insert(signal.name.as_str().as_bytes(), known)?;
    }
    Ok(signals)
}

impl<'a> SystemNames<'a> {
    /// The names of a system.
    pub fn of(alloc: Global, sys: &'a System) -> Result<Self, AllocError>
        requires { length sys.now.signals ≤ 200 }
        ensures { IfOk result (λ names. dictionary names ≡ dictionary_of sys.now) }
    {
        Ok(SystemNames {
            objects: objects_of(alloc, sys)?,
            signals: signals_of(alloc, sys)?,
        })
    }

    /// The priority of the object with that name.
    pub fn object(&self, name: &[u8]) -> Option<u8>
        ensures { result ≡ (dictionary self.now).object name.now }
    {
        self.objects.get(name).copied()
    }

    /// The signal with that name.
    pub fn signal(&self, name: &[u8]) -> Option<Signal>
        ensures { result ≡ (dictionary self.now).signal name.now }
    {
        self.signals.get(name).copied()
    }
}
