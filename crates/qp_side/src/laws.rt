//! One law for each kind of atomic step of a seat, and for the seats themselves. Each function here does nothing: its contract is the
//! law, by which the step keeps the rule of the side table, whatever the other seats are, and tells its seat what it found.

ghost use Rattle.qp_side.specs.Laws.{SideWordsStandApart, EyeSignalsTell, SubsTell, UnsubsTell, PubsTell, EyeArmsTell, EyeIdlesTell, EyeClocksTell, ArmsTell, DisarmsTell, RearmsTell, TicksTell, HandsTell, FindsTell, SeatsAreGiven, SeatsJoin, SeatsLookOn, SideStarts, SideWholeIsKnown};

/// Every signal, every time event and the stop word have a word of their own.
pub fn side_words_stand_apart()
    ensures { SideWordsStandApart }
{}

/// A signal is looked at for an object that comes or goes, with a record where nothing is to be done.
pub fn signal_eyes_tell()
    ensures { EyeSignalsTell }
{}

/// An object that isn't a subscriber becomes one.
pub fn subs_tell()
    ensures { SubsTell }
{}

/// A subscriber goes.
pub fn unsubs_tell()
    ensures { UnsubsTell }
{}

/// The subscribers are looked at, with a record of them.
pub fn pubs_tell()
    ensures { PubsTell }
{}

/// A time event is looked at to be armed, with the record of an assertion where it is armed already.
pub fn arm_eyes_tell()
    ensures { EyeArmsTell }
{}

/// A time event is looked at to be disarmed or ticked, with a record where it isn't armed.
pub fn idle_eyes_tell()
    ensures { EyeIdlesTell }
{}

/// A time event is looked at to be armed anew.
pub fn clock_eyes_tell()
    ensures { EyeClocksTell }
{}

/// A time event is armed where the word is still as it was last seen; else the word shows more operations. So for the three below.
pub fn arms_tell()
    ensures { ArmsTell }
{}

/// A time event is disarmed.
pub fn disarms_tell()
    ensures { DisarmsTell }
{}

/// A time event is armed anew; the interval stays.
pub fn rearms_tell()
    ensures { RearmsTell }
{}

/// One tick of an armed time event. At its last tick it fires, and the interval is its counter again.
pub fn ticks_tell()
    ensures { TicksTell }
{}

/// A code is handed in; the word takes it where it is 0.
pub fn hands_tell()
    ensures { HandsTell }
{}

/// The stop word is read.
pub fn finds_tell()
    ensures { FindsTell }
{}

/// The root gives a seat one of its numbers and some of its objects.
pub fn seats_are_given()
    ensures { SeatsAreGiven }
{}

/// A seat that has seen what another has is added.
pub fn seats_look_on()
    ensures { SeatsLookOn }
{}

/// A seat takes over another.
pub fn seats_join()
    ensures { SeatsJoin }
{}

/// The first words and the root meet the rule.
pub fn side_starts()
    ensures { SideStarts }
{}

/// The seat with all numbers knows the whole.
pub fn side_whole_is_known()
    ensures { SideWholeIsKnown }
{}
