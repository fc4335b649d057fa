//! Laws of the words of calls. Each function here does nothing: its contract is the law.
ghost use Rattle.qp_commands.specs.WordLaws.{BudgetWords, CheckOfNames, CooperativeWords, DecodeOfName, EachBudget, GenerateOfNumber, MigrateInFull, MigrateOfName, OtherWords, RefusedCalls, ReplayOfNames, RunInFull, RunOfNames};

/// Two names that don't begin with `-` are a run under `sim`, which prints text in form 1.
pub fn a_run_of_two_names()
    ensures { RunOfNames }
{}

/// A name that doesn't begin with `-` is a file of frames.
pub fn a_name_is_decoded()
    ensures { DecodeOfName }
{}

/// A name that doesn't begin with `-` is a text, which is printed in form 2.
pub fn a_name_is_migrated()
    ensures { MigrateOfName }
{}

/// Three names that don't begin with `-` are a system, its stimuli and a journal to be judged.
pub fn three_names_are_judged()
    ensures { CheckOfNames }
{}

/// Three such names are a system, its stimuli and a journal to be replayed.
pub fn three_names_are_replayed()
    ensures { ReplayOfNames }
{}

/// With its other options given, a run is the one that they name: each run of two such names with the default budget can be asked
/// for, under each kernel in each form that its journals have.
pub fn a_run_in_full()
    ensures { RunInFull }
{}

/// A run under `qv` is printed in form 2 where none is asked for.
pub fn a_cooperative_run()
    ensures { CooperativeWords }
{}

/// Each budget is asked for by its decimal.
pub fn a_budget_by_its_decimal()
    ensures { EachBudget }
{}

/// The least and the largest budget are taken.
pub fn budgets_of_a_run()
    ensures { BudgetWords }
{}

/// With all options given, a migration is the one that they name.
pub fn a_migration_in_full()
    ensures { MigrateInFull }
{}

/// Each number from 1 to 1,000 is asked for by its decimal.
pub fn a_number_by_its_decimal()
    ensures { GenerateOfNumber }
{}

/// Other command words ask for nothing, whatever follows them.
pub fn other_words()
    ensures { OtherWords }
{}

/// Calls with an operand too few or too many, a flag for help or the version, a value that isn't allowed, an option given
/// twice, one of another command or form 1 of `qv` ask for nothing.
pub fn refused_calls()
    ensures { RefusedCalls }
{}
