//! Laws of what comes next. Each function here does nothing: its contract is the law.

ghost use Rattle.qp_unique.specs.Laws.{CallGoesOnAlone, CourseGoesOnAlone, StimulusGoesOnAlone, RecordsComeNext, ShortJournalsLeaveNoSpill, TidyJournalsAreOne};

/// A call goes on by one record alone, by what the words hold.
pub fn calls_go_on_alone()
    ensures { CallGoesOnAlone }
{}

/// So does an object's course, by one piece alone.
pub fn courses_go_on_alone()
    ensures { CourseGoesOnAlone }
{}

/// So does a stimulus.
pub fn stimuli_go_on_alone()
    ensures { StimulusGoesOnAlone }
{}

/// Each record of a run comes next by what the words hold after the records before it.
pub fn records_come_next()
    ensures { RecordsComeNext }
{}

/// Beside a lawful journal of a run with one thread whose lanes are short no other of its kernel has a `spill`, but for one whose last
/// look lacks its stimulus.
pub fn short_journals_leave_no_spill()
    ensures { ShortJournalsLeaveNoSpill }
{}

/// A lawful journal of a run with one thread without a `spill` is the only one for its kernel, system, stimuli and budget, among the
/// tidy ones.
pub fn tidy_journals_are_one()
    ensures { TidyJournalsAreOne }
{}
