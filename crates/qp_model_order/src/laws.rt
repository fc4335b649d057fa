//! Laws of the order of a run with one thread, and of the lanes of its sources. Each function here does nothing: its contract is the law.

ghost use Rattle.qp_model_order.specs.Laws.{SourceLaneGoesOn, SourceLaneIsWhole, SourceLaneStops, OrderBegins, ZeroComesLast, FreeLookComesLast, StimulusComesLast, OrderEndsInZero, OrderEndsInStimulus, OrderEndsInFullLane, EndsAreOneOrder, SourceGoesOn, SourceMayStop, NumbersGoOn, StimuliAreTheirOwn, OneLookChanges};

/// Before the first record the order is empty.
pub fn orders_begin()
    ensures { OrderBegins }
{}

/// A record of lane 0 that is no look comes to the end of the order.
pub fn lane_zero_comes_last()
    ensures { ZeroComesLast }
{}

/// So does a look in which no source may act.
pub fn free_looks_come_last()
    ensures { FreeLookComesLast }
{}

/// So does a look with the stimulus that acts in it, and the stimulus's records behind it.
pub fn stimuli_come_last()
    ensures { StimulusComesLast }
{}

/// A run that ends in lane 0, or quietly, has its records in their order.
pub fn orders_end_in_lane_zero()
    ensures { OrderEndsInZero }
{}

/// So has one that ends within a stimulus, by an assertion or by a `spill` that cuts it.
pub fn orders_end_in_stimuli()
    ensures { OrderEndsInStimulus }
{}

/// So has one whose source had no room for a stimulus: its `spill` is the last record.
pub fn orders_end_in_full_lanes()
    ensures { OrderEndsInFullLane }
{}

/// The order of a run that has ended is the one order of its lanes, where each number in it is the number of the word's operations before it.
pub fn ends_are_one_order()
    ensures { EndsAreOneOrder }
{}

/// The lane of a source grows by a `stim` and records that fit its stimulus.
pub fn sources_go_on()
    ensures { SourceGoesOn }
{}

/// The lane of a source stops before a stimulus, at its assertion, or within it.
pub fn sources_stop()
    ensures { SourceMayStop }
{}

/// In the order in which records are made, each number drawn or shown is the number of the word's operations before it.
pub fn numbers_go_on()
    ensures { NumbersGoOn }
{}

/// The records of a stimulus are plain, up to its assertion, and so is a front of them that a `spill` cut.
pub fn stimuli_are_their_own()
    ensures { StimuliAreTheirOwn }
{}

/// A new stimulus changes what stands in its own look alone.
pub fn one_look_changes()
    ensures { OneLookChanges }
{}

/// The lane of a source goes on by a whole stimulus.
pub fn source_lanes_go_on()
    ensures { SourceLaneGoesOn }
{}

/// It is whole where all stimuli of the source are done.
pub fn source_lanes_are_whole()
    ensures { SourceLaneIsWhole }
{}

/// It stops before a stimulus, perhaps full, at its assertion, or where a `spill` cuts it.
pub fn source_lanes_stop()
    ensures { SourceLaneStops }
{}
