//! Laws on what is seen of a lane. Each function here does nothing: its contract is the law.

ghost use Rattle.qp_table.specs.ViewLaws.{FoundWordsAreAhead, GlancesAreSeen, GlancesFollow, SeenWordsRise, SideWordsRise, RecordsGain, GivesGain, LooksShow, MeetsSeeBoth, OwnCountsAreTold};

/// A word that is found has had no fewer operations than any lane has seen of it.
pub fn found_words_are_ahead()
    ensures { FoundWordsAreAhead }
{}

/// A glance more at such a word is all that is seen anew.
pub fn glances_are_seen()
    ensures { GlancesAreSeen }
{}

/// Glances at one word may be put together.
pub fn glances_follow()
    ensures { GlancesFollow }
{}

/// The mark of the word that was seen rises, and all else stays.
pub fn seen_words_rise()
    ensures { SeenWordsRise }
{}

/// The mark of a signal or a timer rises, and all else stays.
pub fn side_words_rise()
    ensures { SideWordsRise }
{}

/// A record that touches the word whose mark rose is all that a lane gains.
pub fn records_gain()
    ensures { RecordsGain }
{}

/// The same of the record of a block that is given out, which touches the words of the pool and of the block.
pub fn gives_gain()
    ensures { GivesGain }
{}

/// A look without a record raises a mark.
pub fn looks_show()
    ensures { LooksShow }
{}

/// A lane that meets another has seen what either has.
pub fn meets_see_both()
    ensures { MeetsSeeBoth }
{}

/// What the rule tells of a queue that the lane serves stands in the lane's records.
pub fn own_counts_are_told()
    ensures { OwnCountsAreTold }
{}
