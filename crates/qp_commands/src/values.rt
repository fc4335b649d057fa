//! The values of the options.
ghost use Rattle.std.specs.Prelude.{◌≡◌, option_map};
ghost use Rattle.qp_commands.specs.WordTable.{budget_in, form_in, form_under, kernel_named, kind_named, made_in, number_of_form, output_in};

use crate::numbers::number;

/// How the objects of a run are scheduled.
#[derive(Clone, Copy, PartialEq, Eq, Debug)]
pub enum KernelName {
    /// The preemptive kernel in one thread.
    Sim,
    /// The preemptive kernel in a thread, and each source in one of its own.
    Qk,
    /// Each object and each source in a thread of its own.
    Port,
    /// The same, but a thread of an object parks where its queue is empty.
    Wait,
    /// The cooperative kernel: one step at a time.
    Qv,
}

/// What bytes a journal is written as.
#[derive(Clone, Copy, PartialEq, Eq, Debug)]
pub enum Kind {
    /// Text.
    Journal,
    /// Frames.
    Frames,
}

/// What of a run is printed.
#[derive(Clone, Copy, PartialEq, Eq, Debug)]
pub enum Output {
    /// The whole journal, as text or as frames.
    Whole(Kind),
    /// A summary of the journal.
    Summary,
}

/// The form of a journal's text or frames.
#[derive(Clone, Copy, PartialEq, Eq, Debug)]
pub enum Form {
    One,
    Two,
}

impl Form {
    /// The number of the form, 1 or 2.
    pub fn number(self) -> u8
        ensures { result ≡ number_of_form self }
    {
        match self {
            Form::One => 1,
            Form::Two => 2,
        }
    }
}

/// The kernel of `--kernel`; without the option it is `sim`.
#[tactic(auto, unfolding(crate::specs::WordTable::kernel_named))]
pub(crate) fn kernel_of(value: Option<&str>) -> Option<KernelName>
    ensures { result ≡ kernel_named (option_map (λ word. word.now) value.entry) }
{
    match value {
        None | Some("sim") => Some(KernelName::Sim),
        Some("qk") => Some(KernelName::Qk),
        Some("port") => Some(KernelName::Port),
        Some("wait") => Some(KernelName::Wait),
        Some("qv") => Some(KernelName::Qv),
        Some(_) => None,
    }
}

/// How many events an object of a run may take, where `--budget` isn't given.
const BUDGET: u32 = 100_000;

/// The largest budget of a run.
const MOST: u64 = 1_000_000;

/// The budget of `--budget`, in canonical decimal from 1 to 1,000,000.
#[tactic(auto, unfolding(crate::specs::WordTable::budget_in))]
pub(crate) fn budget_of(value: Option<&str>) -> Option<u32>
    ensures { result ≡ budget_in (option_map (λ word. word.now) value.entry) }
{
    match value {
        None => Some(BUDGET),
        Some(word) => match number(word.as_bytes()) {
            Some(n) if 1 <= n && n <= MOST => Some(n as u32),
            _ => None,
        },
    }
}

/// The largest number of `gen`.
const MOST_MADE: u64 = 1_000;

/// The number of `gen`, in canonical decimal from 1 to 1,000.
#[tactic(auto, unfolding(crate::specs::WordTable::made_in))]
pub(crate) fn made_of(value: Option<&str>) -> Option<u32>
    ensures { result ≡ made_in (option_map (λ word. word.now) value.entry) }
{
    match number(value?.as_bytes()) {
        Some(n) if 1 <= n && n <= MOST_MADE => Some(n as u32),
        _ => None,
    }
}

/// The output of `--out`; without the option it is the journal's text.
#[tactic(auto, unfolding(crate::specs::WordTable::output_in))]
pub(crate) fn output_of(value: Option<&str>) -> Option<Output>
    ensures { result ≡ output_in (option_map (λ word. word.now) value.entry) }
{
    match value {
        None | Some("journal") => Some(Output::Whole(Kind::Journal)),
        Some("frames") => Some(Output::Whole(Kind::Frames)),
        Some("summary") => Some(Output::Summary),
        Some(_) => None,
    }
}

/// The kind of `--from`; without the option it is text.
#[tactic(auto, unfolding(crate::specs::WordTable::kind_named))]
pub(crate) fn kind_of(value: Option<&str>) -> Option<Kind>
    ensures { result ≡ kind_named (option_map (λ word. word.now) value.entry) }
{
    match value {
        None | Some("journal") => Some(Kind::Journal),
        Some("frames") => Some(Kind::Frames),
        Some(_) => None,
    }
}

/// The form of `--form` or `--to`; without the option it is `default`.
#[tactic(auto, unfolding(crate::specs::WordTable::form_in))]
pub(crate) fn form_of(value: Option<&str>, default: Form) -> Option<Form>
    ensures { result ≡ form_in default (option_map (λ word. word.now) value.entry) }
{
    match value {
        None => Some(default),
        Some("1") => Some(Form::One),
        Some("2") => Some(Form::Two),
        Some(_) => None,
    }
}

/// The form of a run's `--form`. A journal of `qv` has form 2 alone.
#[tactic(auto, unfolding(crate::specs::WordTable::form_under))]
pub(crate) fn form_under(kernel: KernelName, value: Option<&str>) -> Option<Form>
    ensures { result ≡ form_under kernel (option_map (λ word. word.now) value.entry) }
{
    match kernel {
        KernelName::Sim | KernelName::Qk | KernelName::Port | KernelName::Wait => form_of(
            value,
            Form::One,
        ),
        KernelName::Qv => match form_of(value, Form::Two) {
            Some(Form::Two) => Some(Form::Two),
            _ => None,
        },
    }
}
