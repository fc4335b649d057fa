//! How a call of the program ends.
ghost use Rattle.std.specs.Prelude.{codes, ◌≡◌, ◌++◌, ◌≤◌, Option, length, decimal, string_bytes, true, false, IfOk};
ghost use Rattle.qp_run_parts.specs.Endings.{status_of};
ghost use Rattle.qp_run_parts.specs.Notes.{status_number, line_of, named_line, names_file, file_of, is_quiet_success, place_text, site_text};
ghost use Rattle.qp_run_parts.specs.Refusals.{system_refusal, stimuli_refusal};
ghost use Rattle.qp_run_parts.specs.Sealed.{is_run_ended};
ghost use Rattle.qp_commands.specs.WordTable.{Asked, operand_in};

use crate::place::Place;
use arrayvec::ArrayString;
use itoa::Buffer;
use qp_chart::code;
use qp_check::Site;
use qp_kernel_end::Outcome;
use qp_stim::StimFault;
use qp_system::SystemFault;
use std::alloc::{AllocError, Global};

/// How a call ends. `file` is the operand's place, counted from 1.
#[derive(Debug, Drop)]
pub enum Status {
    /// The output is written.
    Done,
    /// The words are none that the program knows.
    Words,
    /// The file isn't there.
    Absent { file: u8 },
    /// The file has this many bytes, too many to be loaded.
    TooLong { file: u8, len: u64 },
    /// The file has a fault: the code of the first one, and its place.
    Refused { file: u8, code: u8, place: Place },
    /// The output is written; the run ended at the assertion with this code in this lane.
    Asserted { code: u8, lane: u32 },
    /// The output is written; the run ended at an object's budget or a full lane, recorded in this lane.
    Spent { lane: u32 },
    /// Memory was refused.
    Memory,
    /// A file could not be read.
    ReadFault,
    /// The output or a note could not be written.
    WriteFault,
    /// The journal isn't lawful: the number of the first definition that fails, and where.
    Unlawful { definition: u8, site: Site },
}

/// A line of a note that names no file.
pub type Line = ArrayString<128>;

impl Status {
    /// The answer on a run that came to its end so.
    pub fn of_outcome(outcome: Outcome) -> Status
        ensures { result ≡ status_of outcome }
    {
        match outcome {
            Outcome::Quiet => Status::Done,
            Outcome::Asserted { code, lane } => Status::Asserted { code, lane },
            Outcome::Spent { lane } => Status::Spent { lane },
        }
    }

    /// Whether it is that of a run that came to its end by itself, whatever the end.
    pub fn is_run_ended(&self) -> bool
        ensures { result ≡ is_run_ended self.now }
    {
        match self {
            Status::Done | Status::Asserted { .. } | Status::Spent { .. } => true,
            _ => false,
        }
    }

    /// The number with which the process ends.
    pub fn number(&self) -> u8
        ensures { result ≡ status_number self.now }
    {
        match self {
            Status::Done => 0,
            Status::Words => 1,
            Status::Absent { .. } | Status::TooLong { .. } | Status::Refused { .. } => 2,
            Status::Asserted { .. } => 3,
            Status::Spent { .. } => 4,
            Status::Memory => 5,
            Status::ReadFault => 6,
            Status::WriteFault => 7,
            Status::Unlawful { .. } => 8,
        }
    }

    /// Whether the call was done. Then there is no line on the notes.
    pub fn is_done(&self) -> bool
        ensures { result ≡ is_quiet_success self.now }
    {
        matches!(self, Status::Done)
    }

    /// Whether the line on the notes names a file.
    pub fn names_file(&self) -> bool
        ensures { result ≡ names_file self.now }
    {
        matches!(
            self,
            Status::Absent { .. } | Status::TooLong { .. } | Status::Refused { .. }
        )
    }

    /// The line on the notes that names no file. Nothing for `Done`.
    #[tactic(auto, unfolding(crate::specs::Notes::line_of))]
    pub fn plain_line(&self) -> Line
        requires { names_file self.now ≡ false }
        ensures { (asked : Option Asked) → result.bytes ≡ line_of asked self.now }
    {
        match self {
            Status::Words => line("qp: bad words\n"),
            Status::Memory => line("qp: memory\n"),
            Status::ReadFault => line("qp: read fault\n"),
            Status::WriteFault => line("qp: write fault\n"),
            Status::Asserted { code, lane } => asserted_line(*code, *lane),
            Status::Spent { lane } => spent_line(*lane),
            Status::Unlawful { definition, site } => broken_line(*definition, *site),
            _ => line(""),
        }
    }

    /// The place of the operand whose file the line names, counted from 1; 0 where it names none.
    pub fn file(&self) -> u8
        ensures { result ≡ file_of self.now }
    {
        match self {
            Status::Absent { file } | Status::TooLong { file, .. } | Status::Refused { file, .. } =>
                *file,
            _ => 0,
        }
    }

    /// The line on the notes that names a file, which has this name.
    #[tactic(auto, unfolding(crate::specs::Notes::line_of))]
    pub fn file_line(&self, alloc: Global, name: &str) -> Result<String, AllocError>
        requires { names_file self.now ≡ true }
        ensures { (asked : Option Asked) → operand_in asked (file_of self.now) ≡ name.now
            → IfOk result (λ line. string_bytes line ≡ line_of asked self.now) }
    {
        match self {
            Status::Absent { .. } => named_line(alloc, name, "absent"),
            Status::TooLong { len, .. } => {
                let what = too_long(*len);
                named_line(alloc, name, what.as_str())
            }
            Status::Refused { code, place, .. } => {
                let what = fault_at(alloc, *code, place)?;
                named_line(alloc, name, what.as_str())
            }
            _ => Ok(String::new(alloc)),
        }
    }
}

impl From<SystemFault> for Status {
    ghost from_gives = { λ fault status. status ≡ system_refusal fault };

    fn from(fault: SystemFault) -> Status {
        match fault {
            SystemFault::Memory => Status::Memory,
            SystemFault::NotToml => Status::Refused {
                file: 1,
                code: code::NOT_TOML,
                place: Place::Nowhere,
            },
            SystemFault::At { code, path } => Status::Refused {
                file: 1,
                code,
                place: Place::Path(path),
            },
        }
    }
}

impl From<StimFault> for Status {
    ghost from_gives = { λ fault status. status ≡ stimuli_refusal fault };

    fn from(fault: StimFault) -> Status {
        match fault {
            StimFault::Memory => Status::Memory,
            StimFault::Line { number, code } => Status::Refused {
                file: 2,
                code,
                place: Place::Line(number),
            },
        }
    }
}

fn line(text: &str) -> Line
    requires { length text.now ≤ 128 }
    ensures { result.bytes ≡ text.now }
{
    let mut line = Line::new();
    line.push_str(text);
    line
}

fn push_number(line: &mut Line, n: u64)
    requires { length line.old.bytes ≤ 100 }
    ensures bytes { line.new.bytes ≡ line.old.bytes ++ decimal n }
    ensures short { length (decimal n) ≤ 20 }
{
    let mut buffer = Buffer::new();
    line.push_str(buffer.format(n));
}

fn asserted_line(code: u8, lane: u32) -> Line
    ensures { result.bytes ≡ codes "qp: assertion " ++ decimal code ++ codes " in lane " ++ decimal lane ++ codes "\n" }
{
    let mut line = line("qp: assertion ");
    push_number(&mut line, u64::from(code));
    line.push_str(" in lane ");
    push_number(&mut line, u64::from(lane));
    line.push_str("\n");
    line
}

fn spent_line(lane: u32) -> Line
    ensures { result.bytes ≡ codes "qp: spent in lane " ++ decimal lane ++ codes "\n" }
{
    let mut line = line("qp: spent in lane ");
    push_number(&mut line, u64::from(lane));
    line.push_str("\n");
    line
}

fn push_word(line: &mut Line, word: &str, n: u64)
    requires line { length line.old.bytes ≤ 60 }
    requires word { length word.now ≤ 10 }
    ensures bytes { line.new.bytes ≡ line.old.bytes ++ word.now ++ decimal n }
    ensures short { length (decimal n) ≤ 20 }
{
    line.push_str(word);
    push_number(line, n);
}

/// The site of a definition: its kind in lower case, then its numbers.
fn push_site(line: &mut Line, site: Site)
    requires { length line.old.bytes ≤ 40 }
    ensures bytes { line.new.bytes ≡ line.old.bytes ++ site_text site }
    ensures short { length line.new.bytes ≤ 110 }
{
    match site {
        Site::Pool(p) => push_word(line, " pool ", u64::from(p)),
        Site::Block(p, b) => {
            push_word(line, " block ", u64::from(p));
            line.push_str(" ");
            push_number(line, u64::from(b));
        }
        Site::Queue(o) => push_word(line, " queue ", u64::from(o)),
        Site::Signal(s) => push_word(line, " signal ", u64::from(s)),
        Site::Timer(t) => push_word(line, " timer ", u64::from(t)),
        Site::Object(o) => push_word(line, " object ", u64::from(o)),
        Site::Lane(n) => push_word(line, " lane ", u64::from(n)),
        Site::Whole => line.push_str(" whole"),
    }
}

fn broken_line(definition: u8, site: Site) -> Line
    ensures { result.bytes ≡ codes "qp: broken D" ++ decimal definition ++ site_text site ++ codes "\n" }
{
    let mut line = line("qp: broken D");
    push_number(&mut line, u64::from(definition));
    push_site(&mut line, site);
    line.push_str("\n");
    line
}

fn too_long(len: u64) -> Line
    ensures { result.bytes ≡ codes "too long " ++ decimal len }
{
    let mut what = line("too long ");
    push_number(&mut what, len);
    what
}

/// The code of a fault and its place.
fn fault_at(alloc: Global, code: u8, place: &Place) -> Result<String, AllocError>
    ensures { IfOk result (λ what. string_bytes what ≡ decimal code ++ codes " " ++ place_text place.now) }
{
    format!(in alloc; "{code} {place}")
}

fn named_line(alloc: Global, name: &str, what: &str) -> Result<String, AllocError>
    ensures { IfOk result (λ line. string_bytes line ≡ named_line name.now what.now) }
{
    format!(in alloc; "qp: {name}: {what}\n")
}
