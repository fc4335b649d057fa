//! Items read from lines.

ghost use Rattle.std.specs.Prelude.{◌≡◌, ◌≤◌, ◌==◌, IfOk, IfSome, length, Some, None, if◌then◌else◌};
ghost use Rattle.qp_model.specs.Output.{last_id};
ghost use Rattle.qp_text.specs.Codes.{NUMBER};
ghost use Rattle.qp_text.specs.Faults.{LineAnswers, or_code};
ghost use Rattle.qp_text.specs.LineItem.{item_of_numbers, form_of_line, has_signs, id_of, item_of_line};
ghost use Rattle.qp_text.specs.Numbers.{numbers_at};
ghost use Rattle.qp_text.specs.Parts.{parts_behind};

use crate::code;
use crate::faults::LineFault;
use crate::numbers::number_at;
use crate::parts::cut;
use qp_model::{kinds, vocabulary};
use std::alloc::Global;
use std::marker::Model;

/// The numbers of a line. Contracts see the list.
#[derive(Drop)]
pub(crate) struct Numbers {
    pub items: Vec<u64>,
}

impl Model for Numbers {
    ghost use Rattle.std.specs.Prelude.{List, ℕ};

    ghost Value = { List ℕ };

    ghost view = { λ n. n.items.items };
}

/// The item of a line.
#[derive(Drop)]
pub(crate) struct LineItem {
    pub id: u8,
    pub nums: Numbers,
}

impl Model for LineItem {
    ghost use Rattle.qp_model.specs.Output.{JournalItem};

    ghost Value = { JournalItem };

    ghost view = { λ i. record { id = i.id; nums = i.nums } };
}

/// Reads the item of a line, in this form.
pub(crate) fn read_line(alloc: Global, form: u8, line: &[u8]) -> Result<LineItem, LineFault>
    ensures exact { LineAnswers result (item_of_line form line.now) }
    ensures count { IfOk result (λ i. length i.nums ≤ 14) }
{
    let (word, texts) = cut(line, b' ');
    let Some(id) = id_of(form, word) else {
        return Err(LineFault::Code(code::WORD));
    };
    counted(id, read_numbers(alloc, has_signs(form, id), texts)?)
}

/// The item of this id with these numbers, if they are as many as it has.
fn counted(id: u8, nums: Numbers) -> Result<LineItem, LineFault>
    requires { id ≤ 46 }
    ensures exact { LineAnswers result (item_of_numbers id (Some nums)) }
    ensures count { IfOk result (λ i. length i.nums ≤ 14) }
{
    if vocabulary::has_count(id, nums.items.as_slice()) {
        Ok(LineItem { id, nums })
    } else {
        Err(LineFault::Code(code::COUNT))
    }
}

/// The form that a first line states.
pub(crate) fn form_of(line: &[u8]) -> u8
    ensures { result ≡ form_of_line line.now }
{
    let (word, texts) = cut(line, b' ');
    match texts {
        Some(rest) if word == b"qp".as_slice() && cut(rest, b' ').0 == b"2".as_slice() => 2,
        _ => 1,
    }
}

/// Whether values have signs in such an item.
fn has_signs(form: u8, id: u8) -> bool
    ensures { result ≡ has_signs form id }
{
    form == 2 && id == kinds::SAY
}

/// The last id of a form.
fn last_id(form: u8) -> u8
    ensures value { result ≡ last_id form }
    ensures range { result ≤ 46 }
{
    if form == 2 { kinds::REST } else { kinds::LOOK }
}

/// The id of a word.
fn id_of(form: u8, word: &[u8]) -> Option<u8>
    ensures id { result ≡ id_of form word.now }
    ensures range { IfSome result (λ id. id ≤ 46) }
{
    let last = last_id(form);
    for id in 1..last + 1 {
        if vocabulary::word_text(id).as_bytes() == word {
            return Some(id);
        }
    }
    None
}

/// The numbers that stand behind the word.
fn read_numbers(alloc: Global, has_signs: bool, texts: Option<&[u8]>) -> Result<Numbers, LineFault>
    ensures { LineAnswers result (or_code NUMBER (numbers_at has_signs 0 (parts_behind 32 texts.entry))) }
{
    let mut nums = Vec::new(alloc);
    let mut more = texts;
    while let Some(rest) = more {
        let (text, next) = cut(rest, b' ');
        let Some(n) = number_at(has_signs, nums.len(), text) else {
            return Err(LineFault::Code(code::NUMBER));
        };
        if nums.push(n).is_err() {
            return Err(LineFault::Memory);
        }
        more = next;
    }
    Ok(Numbers { items: nums })
}
