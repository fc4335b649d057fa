//! Laws of journal frames. Each function here does nothing: its contract is the law.

ghost use Rattle.qp_frames.specs.FramesLaw.{DecodingIsExact, FaultsStay, FramesAreOneToOne, FramesHaveNoFault};

/// A stream of bytes is decoded as a journal in a form exactly where the journal has the form and is in range, and the
/// stream is its frames in this form.
pub fn decoding_is_exact()
    ensures { DecodingIsExact }
{}

/// No two journals in range share their frames, and no journal has the same frames in two forms.
pub fn frames_are_one_to_one()
    ensures { FramesAreOneToOne }
{}

/// The first fault of a stream is the answer on each stream that begins so.
pub fn faults_stay()
    ensures { FaultsStay }
{}

/// The frames of a journal in range have no fault at any byte: a stream with a fault is the beginning of none.
pub fn frames_have_no_fault()
    ensures { FramesHaveNoFault }
{}
