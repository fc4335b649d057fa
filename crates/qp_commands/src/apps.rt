//! The commands that `clap` reads, one for each command word.
ghost use Rattle.std.specs.Prelude.{◌≡◌, [], true, false, option_map, IfOk};
ghost use Rattle.qp_commands.specs.WordTable.{found_in, operand, option, plain_app, texts};
ghost use Rattle.qp_commands.specs.ByWord.{app_under, rule_under, text_of, with_arguments};
ghost use Rattle.clap.specs.Words.{app_of, found_of, is_simple_and_free, rows_of, rule_of};

use clap::error::ErrorKind;
use clap::{Arg, ArgAction, ArgMatches, Command};
use std::alloc::{AllocError, Global};

/// A command word.
#[derive(Clone, Copy)]
pub(crate) enum Word {
    Run,
    Decode,
    Migrate,
    Check,
    Replay,
    Generate,
}

/// An argument of a command, by its name.
#[derive(Clone, Copy)]
enum Argument {
    Option(&'static str),
    Operand(&'static str),
}

const RUN: &[Argument] = &[
    Argument::Option("kernel"),
    Argument::Option("budget"),
    Argument::Option("out"),
    Argument::Option("form"),
    Argument::Operand("system"),
    Argument::Operand("stimuli"),
];

const DECODE: &[Argument] = &[Argument::Operand("frames")];

const MIGRATE: &[Argument] = &[
    Argument::Option("from"),
    Argument::Option("to"),
    Argument::Operand("file"),
];

/// A system, its stimuli and a journal.
const FILES: &[Argument] = &[
    Argument::Operand("system"),
    Argument::Operand("stimuli"),
    Argument::Operand("journal"),
];

const GENERATE: &[Argument] = &[Argument::Operand("number")];

/// An option with one value, as `--name VALUE`.
fn option<'w>(alloc: Global, name: &'w str) -> Arg<'w>
    ensures rule { rule_of result ≡ option name.entry.now }
    ensures local { result.global ≡ false }
{
    Arg::new(alloc, name).long(name).action(ArgAction::Set)
}

/// A required word that isn't an option.
fn operand<'w>(alloc: Global, name: &'w str) -> Arg<'w>
    ensures rule { rule_of result ≡ operand name.entry.now }
    ensures local { result.global ≡ false }
{
    Arg::new(alloc, name).required(true).action(ArgAction::Set)
}

/// A command without arguments and flags.
fn plain<'w>(alloc: Global, word: &'w str) -> Command<'w>
    ensures { app_of result ≡ plain_app word.entry.now [] }
{
    Command::new(alloc, word)
        .disable_help_flag(true)
        .disable_version_flag(true)
}

fn arg_of<'w>(alloc: Global, argument: &Argument) -> Arg<'w>
    ensures rule { rule_of result ≡ rule_under argument.now }
    ensures local { result.global ≡ false }
{
    match argument {
        Argument::Option(name) => option(alloc, name),
        Argument::Operand(name) => operand(alloc, name),
    }
}

/// The command with these arguments added in turn.
fn with_arguments<'w>(
    alloc: Global,
    mut command: Command<'w>,
    arguments: &[Argument],
) -> Result<Command<'w>, AllocError>
    ensures { IfOk result (λ longer. app_of longer ≡ with_arguments (app_of command.entry) arguments.now) }
{
    for a in arguments {
        command = command.arg(arg_of(alloc, a))?;
    }
    Ok(command)
}

/// The arguments of a command word.
fn arguments_of(word: Word) -> &'static [Argument]
    ensures { with_arguments (plain_app (text_of word) []) result.now ≡ app_under word }
{
    match word {
        Word::Run => RUN,
        Word::Decode => DECODE,
        Word::Migrate => MIGRATE,
        Word::Check => FILES,
        Word::Replay => FILES,
        Word::Generate => GENERATE,
    }
}

/// The text of a command word.
fn text_of<'w>(word: Word) -> &'w str
    ensures { result.now ≡ text_of word }
{
    match word {
        Word::Run => "run",
        Word::Decode => "decode",
        Word::Migrate => "migrate",
        Word::Check => "check",
        Word::Replay => "replay",
        Word::Generate => "gen",
    }
}

/// The command of a word.
pub(crate) fn app<'w>(alloc: Global, word: Word) -> Result<Command<'w>, AllocError>
    ensures { IfOk result (λ command. app_of command ≡ app_under word) }
{
    with_arguments(alloc, plain(alloc, text_of(word)), arguments_of(word))
}

/// What the command finds in the words, of which the first is its own; None where it refuses them.
pub(crate) fn matches_in<'w>(
    command: Command<'w>,
    words: &'w [&'w str],
) -> Result<Option<ArgMatches<'w>>, AllocError>
    requires { is_simple_and_free (app_of command) ≡ true }
    ensures { IfOk result (λ found. option_map (λ m. rows_of (found_of m)) found
        ≡ found_in (app_of command.entry) (texts words.entry.now)) }
{
    match command.try_get_matches_from(words) {
        Ok(found) => Ok(Some(found)),
        Err(error) if error.kind() == ErrorKind::OutOfMemory => Err(AllocError),
        Err(_) => Ok(None),
    }
}
