//! Runs, and what of them is printed.
ghost use Rattle.std.specs.Prelude.{ℕ, ◌≡◌, ◌≢◌, ◌⊎◌, ◌<◌, ◌≤◌, length, true, IfOk, IfErr, IfSome, IsTrue, None, Some, if◌then◌else◌, option_map};
ghost use Rattle.std.specs.List.{AllByRecursion, list_all};
ghost use Rattle.qp_check_course.specs.Followable.{IsFollowable};
ghost use Rattle.qp_model.specs.Ends.{ends_last};
ghost use Rattle.qp_model.specs.History.{lane_items};
ghost use Rattle.qp_model.specs.Output.{has_form, is_in_range};
ghost use Rattle.qp_model.specs.Sound.{IsSound};
ghost use Rattle.qp_model.specs.Limits.{budget_limit};
ghost use Rattle.qp_kernel_end.specs.Rests.{AreRestsIn};
ghost use Rattle.qp_stim.specs.Rules.{StimuliFit};
ghost use Rattle.qp_summary.specs.Written.{HasStimuli};
ghost use Rattle.qp_wait_runs.specs.Handed.{WasSealedFor};
ghost use Rattle.qp_run_parts.specs.Conversions.{PrintsOne};
ghost use Rattle.qp_run_parts.specs.Endings.{ending_of};
ghost use Rattle.qp_run_parts.specs.Printed.{IsPrinted, IsRunUnder, PrintsMade, PrintsOf, PrintsRun, made_budget};
ghost use Rattle.qp_run_parts.specs.Sealed.{IsSealed, IsSealedRun, SealsOne, journal_of_run, rests_of, sealed_in};
ghost use Rattle.qp_run_parts.specs.Verdict.{AgreesRun, Count, EndsMade, HasCause, IsInput, IsRunOutput, count_over, is_failure, is_refusal, still_count, reads_of, writes_of};
ghost use Rattle.qp_commands.specs.WordTable.{has_threads, is_form_of, number_of_form};
ghost use Rattle.qp_run_parts.specs.declared.status.Status.{Status};
ghost use Rattle.qp_commands.specs.declared.values.KernelName.TheVariants.{Sim, Qv};
ghost use Rattle.qp_commands.specs.declared.values.Output.TheVariants.{Summary};

use crate::conversions::write;
use crate::loading::load;
use crate::ran::{Finished, Ran};
use crate::reading::{stimuli_in, system_in};
use crate::status::Status;
use qp_base::{Gate, Memory, Shelf, Sink};
use qp_commands::{Form, KernelName, Output};
use qp_kernel_end::{Rest, outcome_of};
use qp_kernel_runs::{Simulated, qv_with_rests, sim_with_rests};
use qp_model::{Journal, Stimuli, System};
use qp_summary::{SummaryFault, write_summary_at};
use qp_system::generate;
use qp_wait_runs::{run_port, run_qk, run_wait};
use std::alloc::Global;
use std::sync::Wait;
use std::thread::Threads;

/// The answer on a run with this journal.
#[tactic(auto, unfolding(crate::specs::Endings::ending_of))]
fn ending_of(journal: &Journal) -> Status
    requires few { length journal.now.lanes ≤ 49 }
    requires last { list_all (λ lane. ends_last (lane_items lane)) journal.now.lanes ≡ true }
    ensures { result ≡ ending_of journal.now }
{
    Status::of_outcome(outcome_of(journal))
}

/// Prints the summary of a run. The answer is `told` where it could be written.
fn summarize<O: Sink>(
    alloc: Global,
    system: &System,
    journal: &Journal,
    rests: &[Rest],
    told: Status,
    out: &mut O,
) -> Status
    requires followable { AllByRecursion (IsFollowable system.now) system.now.objects }
    requires lawful { HasStimuli system.now journal.now }
    requires rests { AreRestsIn system.now journal.now rests.now }
    requires told { told ≡ ending_of journal.now }
    ensures { (form : ℕ) → IsPrinted (PrintsOf Summary form system.now journal.now)
        (O.written out.old) (O.written out.new) (O.faults out.old) (O.faults out.new) result }
{
    match write_summary_at(alloc, system, journal, rests, out) {
        Ok(()) => told,
        Err(SummaryFault::Memory) => Status::Memory,
        Err(SummaryFault::Failed) => Status::WriteFault,
    }
}

/// Prints what is asked for of a run.
fn print<O: Sink>(
    alloc: Global,
    system: &System,
    journal: &Journal,
    rests: &[Rest],
    output: Output,
    form: Form,
    out: &mut O,
) -> Status
    requires form { IsTrue (has_form (number_of_form form) journal.now) }
    requires range { IsTrue (is_in_range (number_of_form form) journal.now) }
    requires followable { AllByRecursion (IsFollowable system.now) system.now.objects }
    requires lawful { HasStimuli system.now journal.now }
    requires rests { AreRestsIn system.now journal.now rests.now }
    ensures { IsPrinted (PrintsOf output (number_of_form form) system.now journal.now)
        (O.written out.old) (O.written out.new) (O.faults out.old) (O.faults out.new) result }
{
    let told = ending_of(journal);
    match output {
        Output::Whole(kind) => write(journal, kind, form.number(), told, out),
        Output::Summary => summarize(alloc, system, journal, rests, told, out),
    }
}

/// Runs a system on its stimuli under `sim`.
fn run_alone<R: Wait>(
    rt: &R,
    alloc: Global,
    system: &System,
    stimuli: &Stimuli,
    budget: u32,
) -> Result<Simulated, Memory>
    requires sound { IsSound system.now }
    requires fit { StimuliFit system.now stimuli.now }
    requires some { 0 < budget }
    requires few { budget ≤ budget_limit }
    ensures run { IfOk result (λ run. IsRunUnder Sim system.now stimuli.now budget run.journal) }
    ensures rests { IfOk result (λ run. AreRestsIn system.now run.journal run.rests.items) }
{
    sim_with_rests(rt, alloc, system, stimuli, budget)
}

/// The same under `qv`.
fn run_in_turn<R: Wait>(
    rt: &R,
    alloc: Global,
    system: &System,
    stimuli: &Stimuli,
    budget: u32,
) -> Result<Simulated, Memory>
    requires sound { IsSound system.now }
    requires fit { StimuliFit system.now stimuli.now }
    requires some { 0 < budget }
    requires few { budget ≤ budget_limit }
    ensures run { IfOk result (λ run. IsRunUnder Qv system.now stimuli.now budget run.journal) }
    ensures rests { IfOk result (λ run. AreRestsIn system.now run.journal run.rests.items) }
{
    qv_with_rests(rt, alloc, system, stimuli, budget)
}

/// Runs a system on its stimuli under this kernel. One with threads hands the gate to its lanes.
fn run_under<R: Threads + Wait + Sync, G: Gate>(
    rt: &R,
    alloc: Global,
    kernel: KernelName,
    system: &System,
    stimuli: &Stimuli,
    budget: u32,
    gate: &G,
) -> Result<Ran, Memory>
    requires sound { IsSound system.now }
    requires fit { StimuliFit system.now stimuli.now }
    requires some { 0 < budget }
    requires few { budget ≤ budget_limit }
    ensures run { IfOk result (λ ran. IsRunUnder kernel system.now stimuli.now budget (journal_of_run ran)) }
    ensures rests { IfOk result (λ ran. AreRestsIn system.now (journal_of_run ran) (rests_of ran)) }
    ensures seal { IfOk result (λ ran. sealed_in ran ≡ if has_threads kernel then Some (journal_of_run ran) else None) }
    ensures sealed { IfOk result (λ ran. IfSome (sealed_in ran) (WasSealedFor system.now)) }
{
    match kernel {
        KernelName::Sim => run_alone(rt, alloc, system, stimuli, budget).map(Ran::Alone),
        KernelName::Qk => run_qk(rt, alloc, system, stimuli, budget, gate).map(Ran::Threaded),
        KernelName::Port => run_port(rt, alloc, system, stimuli, budget, gate).map(Ran::Threaded),
        KernelName::Wait => run_wait(rt, alloc, system, stimuli, budget, gate).map(Ran::Threaded),
        KernelName::Qv => run_in_turn(rt, alloc, system, stimuli, budget).map(Ran::Alone),
    }
}

/// Runs a system on its stimuli, and prints what is asked for.
fn run_and_print<R: Threads + Wait + Sync, O: Sink, G: Gate>(
    rt: &R,
    alloc: Global,
    kernel: KernelName,
    system: &System,
    stimuli: &Stimuli,
    budget: u32,
    output: Output,
    form: Form,
    out: &mut O,
    gate: &G,
) -> Finished
    requires sound { IsSound system.now }
    requires fit { StimuliFit system.now stimuli.now }
    requires some { 0 < budget }
    requires few { budget ≤ budget_limit }
    requires form { is_form_of kernel form ≡ true }
    ensures out { IsPrinted (PrintsRun system.now stimuli.now kernel budget output (number_of_form form))
        (O.written out.old) (O.written out.new) (O.faults out.old) (O.faults out.new) result.status }
    ensures seal { SealsOne (has_threads kernel) result.status
        (IsSealedRun system.now stimuli.now kernel budget output (number_of_form form) (O.written out.old) (O.written out.new) result.status)
        (option_map (λ s. s.journal) result.seal) }
{
    match run_under(rt, alloc, kernel, system, stimuli, budget, gate) {
        Ok(ran) => {
            let status = print(alloc, system, ran.journal(), ran.rests(), output, form, out);
            ran.finished(status)
        }
        Err(_) => Finished {
            status: Status::Memory,
            seal: None,
        },
    }
}

/// What the two files of a run say.
#[derive(Drop)]
struct Input {
    system: System,
    stimuli: Stimuli,
}

/// Reads the two files of a run. The second isn't read where the first is refused.
fn prepare<F: Shelf>(
    alloc: Global,
    files: &mut F,
    system: &str,
    stimuli: &str,
) -> Result<Input, Status>
    ensures input { IfOk result (λ input. IsInput (F.holds files.old) system.now stimuli.now input.system input.stimuli) }
    ensures sound { IfOk result (λ input. IsSound input.system) }
    ensures fit { IfOk result (λ input. StimuliFit input.system input.stimuli) }

    ensures told { IfErr result (λ status. (kernel : KernelName) (budget : ℕ)
        → AgreesRun (F.holds files.old) system.now stimuli.now kernel budget status) }
    ensures cause { IfErr result (HasCause (reads_of F.faults F.misses files.old files.new)) }
    ensures about { IfErr result (λ status. (is_refusal status ≡ true) × (status ≢ Status.Words)) }
    ensures holds { F.holds files.new ≡ F.holds files.old }
{
    let bytes = load(alloc, files, 1, system)?;
    let system = system_in(alloc, bytes.as_slice())?;
    let bytes = load(alloc, files, 2, stimuli)?;
    let stimuli = stimuli_in(alloc, &system, bytes.as_slice())?;
    Ok(Input { system, stimuli })
}

/// Runs two files, and prints what is asked for.
pub fn run_files<R: Threads + Wait + Sync, F: Shelf, O: Sink, G: Gate>(
    rt: &R,
    alloc: Global,
    files: &mut F,
    system: &str,
    stimuli: &str,
    kernel: KernelName,
    budget: u32,
    output: Output,
    form: Form,
    out: &mut O,
    gate: &G,
) -> Finished
    requires some { 0 < budget }
    requires few { budget ≤ budget_limit }
    requires form { is_form_of kernel form ≡ true }
    ensures told { AgreesRun (F.holds files.old) system.now stimuli.now kernel budget result.status }
    ensures about { result.status ≢ Status.Words }
    ensures cause { HasCause (writes_of F.faults F.misses O.faults files.old files.new out.old out.new) result.status }
    ensures out { PrintsOne (IsRunOutput (F.holds files.old) system.now stimuli.now kernel budget output (number_of_form form))
        (O.written out.old) (O.written out.new) result.status }
    ensures seal { SealsOne (has_threads kernel) result.status
        (IsSealed (F.holds files.old) system.now stimuli.now kernel budget output (number_of_form form) (O.written out.old) (O.written out.new) result.status)
        (option_map (λ s. s.journal) result.seal) }
    ensures holds { F.holds files.new ≡ F.holds files.old }
{
    match prepare(alloc, files, system, stimuli) {
        Ok(input) => run_and_print(
            rt,
            alloc,
            kernel,
            &input.system,
            &input.stimuli,
            budget,
            output,
            form,
            out,
            gate,
        ),
        Err(status) => Finished { status, seal: None },
    }
}

/// The budget of a run of what a number makes.
const MADE_BUDGET: u32 = 100_000;

/// Runs a system on its stimuli under `sim` with this budget, and prints the summary.
fn run_and_summarize<R: Wait, O: Sink>(
    rt: &R,
    alloc: Global,
    system: &System,
    stimuli: &Stimuli,
    out: &mut O,
) -> Status
    requires sound { IsSound system.now }
    requires fit { StimuliFit system.now stimuli.now }
    ensures { IsPrinted (PrintsRun system.now stimuli.now Sim made_budget Summary 1)
        (O.written out.old) (O.written out.new) (O.faults out.old) (O.faults out.new) result }
{
    match run_alone(rt, alloc, system, stimuli, MADE_BUDGET) {
        Ok(ran) => print(
            alloc,
            system,
            &ran.journal,
            ran.rests.as_slice(),
            Output::Summary,
            Form::One,
            out,
        ),
        Err(_) => Status::Memory,
    }
}

/// Runs the system and the stimuli that a number makes under `sim`, and prints the summary.
pub fn run_made<R: Wait, O: Sink>(rt: &R, alloc: Global, number: u32, out: &mut O) -> Status
    requires some { 1 ≤ number }
    requires few { number ≤ 1000 }
    ensures told { (is_failure result ≡ true) ⊎ EndsMade number result }
    ensures about { result ≢ Status.Words }
    ensures cause { (reads misses : Count) → HasCause
        (record { reads = reads; misses = misses; out = count_over O.faults out.old out.new; notes = still_count }) result }
    ensures out { PrintsOne (PrintsMade number) (O.written out.old) (O.written out.new) result }
{
    match generate(alloc, number) {
        Ok((system, stimuli)) => run_and_summarize(rt, alloc, &system, &stimuli, out),
        Err(_) => Status::Memory,
    }
}
