//! What a call asks for: its command word, and what `clap` reads of the rest.
ghost use Rattle.std.specs.Prelude.{◌≡◌, option_map, IfOk};
ghost use Rattle.qp_commands.specs.WordTable.{asked_of, check_words, command_in, decode_in, files_in, generate_in, migrate_in, operand_at, run_in, texts};
ghost use Rattle.qp_commands.specs.ByWord.{asked_under, check_in, read_under, replay_in};
ghost use Rattle.clap.specs.Words.{found_of, rows_of};

use crate::apps::{Word, app, matches_in};
use crate::values::{
    Form, KernelName, Kind, Output, budget_of, form_of, form_under, kernel_of, kind_of, made_of,
    output_of,
};
use clap::ArgMatches;
use std::alloc::{AllocError, Global};

/// What a call asks for. Each file is named by the word of its operand.
#[derive(Clone, Copy, PartialEq, Eq, Debug)]
pub enum Command<'w> {
    /// Run a system on its stimuli, where no object takes more events than the budget, and print the journal or its summary.
    Run {
        kernel: KernelName,
        budget: u32,
        out: Output,
        form: Form,
        system: &'w str,
        stimuli: &'w str,
    },
    /// Print the text of a journal that is given as frames.
    Decode {
        frames: &'w str,
    },
    /// Print a journal in another form.
    Migrate {
        from: Kind,
        to: Form,
        file: &'w str,
    },
    /// Judge a journal of a system on its stimuli.
    Check {
        system: &'w str,
        stimuli: &'w str,
        journal: &'w str,
    },
    /// Print one order of the records of a lawful journal of a system on its stimuli, or a cycle among them.
    Replay {
        system: &'w str,
        stimuli: &'w str,
        journal: &'w str,
    },
    /// Run the system and the stimuli that a number makes, and print the summary.
    Generate {
        number: u32,
    },
}

impl<'w> Command<'w> {
    /// The word of an operand, by its place from 1; no text elsewhere.
    pub fn operand(&self, place: u8) -> &'w str
        ensures { result.now ≡ operand_at (asked_of self.now) place }
    {
        match (self, place) {
            (Command::Run { system, .. }, 1) => system,
            (Command::Run { stimuli, .. }, 2) => stimuli,
            (Command::Decode { frames }, 1) => frames,
            (Command::Migrate { file, .. }, 1) => file,
            (Command::Check { system, .. } | Command::Replay { system, .. }, 1) => system,
            (Command::Check { stimuli, .. } | Command::Replay { stimuli, .. }, 2) => stimuli,
            (Command::Check { journal, .. } | Command::Replay { journal, .. }, 3) => journal,
            _ => "",
        }
    }
}

fn run_found<'w>(found: &ArgMatches<'w>) -> Option<Command<'w>>
    ensures { option_map asked_of result ≡ run_in (rows_of (found_of found.now)) }
{
    let kernel = kernel_of(found.get_str("kernel"))?;
    Some(Command::Run {
        kernel,
        budget: budget_of(found.get_str("budget"))?,
        out: output_of(found.get_str("out"))?,
        form: form_under(kernel, found.get_str("form"))?,
        system: found.get_str("system")?,
        stimuli: found.get_str("stimuli")?,
    })
}

fn decode_found<'w>(found: &ArgMatches<'w>) -> Option<Command<'w>>
    ensures { option_map asked_of result ≡ decode_in (rows_of (found_of found.now)) }
{
    Some(Command::Decode {
        frames: found.get_str("frames")?,
    })
}

fn migrate_found<'w>(found: &ArgMatches<'w>) -> Option<Command<'w>>
    ensures { option_map asked_of result ≡ migrate_in (rows_of (found_of found.now)) }
{
    Some(Command::Migrate {
        from: kind_of(found.get_str("from"))?,
        to: form_of(found.get_str("to"), Form::Two)?,
        file: found.get_str("file")?,
    })
}

/// A system, its stimuli and a journal.
#[derive(Clone, Copy)]
struct Files<'w> {
    system: &'w str,
    stimuli: &'w str,
    journal: &'w str,
}

fn files_found<'w>(found: &ArgMatches<'w>) -> Option<Files<'w>>
    ensures { option_map (λ f. check_words f.system.now f.stimuli.now f.journal.now) result ≡ files_in (rows_of (found_of found.now)) }
{
    let system = found.get_str("system")?;
    let stimuli = found.get_str("stimuli")?;
    let journal = found.get_str("journal")?;
    Some(Files {
        system,
        stimuli,
        journal,
    })
}

fn check_found<'w>(found: &ArgMatches<'w>) -> Option<Command<'w>>
    ensures { option_map asked_of result ≡ check_in (rows_of (found_of found.now)) }
{
    match files_found(found) {
        Some(files) => Some(Command::Check {
            system: files.system,
            stimuli: files.stimuli,
            journal: files.journal,
        }),
        None => None,
    }
}

fn replay_found<'w>(found: &ArgMatches<'w>) -> Option<Command<'w>>
    ensures { option_map asked_of result ≡ replay_in (rows_of (found_of found.now)) }
{
    match files_found(found) {
        Some(files) => Some(Command::Replay {
            system: files.system,
            stimuli: files.stimuli,
            journal: files.journal,
        }),
        None => None,
    }
}

fn generate_found<'w>(found: &ArgMatches<'w>) -> Option<Command<'w>>
    ensures { option_map asked_of result ≡ generate_in (rows_of (found_of found.now)) }
{
    Some(Command::Generate {
        number: made_of(found.get_str("number"))?,
    })
}

/// What was found under this command word.
fn command_found<'w>(word: Word, found: &ArgMatches<'w>) -> Option<Command<'w>>
    ensures { option_map asked_of result ≡ read_under word (rows_of (found_of found.now)) }
{
    match word {
        Word::Run => run_found(found),
        Word::Decode => decode_found(found),
        Word::Migrate => migrate_found(found),
        Word::Check => check_found(found),
        Word::Replay => replay_found(found),
        Word::Generate => generate_found(found),
    }
}

/// What the words ask for, of which the first is this command word; None where they are refused.
fn asked<'w>(
    alloc: Global,
    word: Word,
    words: &'w [&'w str],
) -> Result<Option<Command<'w>>, AllocError>
    ensures { IfOk result (λ found. option_map asked_of found ≡ asked_under word (texts words.entry.now)) }
{
    match matches_in(app(alloc, word)?, words)? {
        Some(found) => Ok(command_found(word, &found)),
        None => Ok(None),
    }
}

/// The command of a call's words; None for other words.
///
/// The first word is the command word. The rest is what `clap` makes of it for that command.
pub fn command_of<'w>(
    alloc: Global,
    words: &'w [&'w str],
) -> Result<Option<Command<'w>>, AllocError>
    ensures { IfOk result (λ found. option_map asked_of found ≡ command_in (texts words.entry.now)) }
{
    let Some(word) = words.first() else {
        return Ok(None);
    };
    match *word {
        "run" => asked(alloc, Word::Run, words),
        "decode" => asked(alloc, Word::Decode, words),
        "migrate" => asked(alloc, Word::Migrate, words),
        "check" => asked(alloc, Word::Check, words),
        "replay" => asked(alloc, Word::Replay, words),
        "gen" => asked(alloc, Word::Generate, words),
        _ => Ok(None),
    }
}
