//! Laws of the words and of the rule. Each function here does nothing: its contract is the law.

ghost use Rattle.qp_table.specs.WordLaws.{WordsStandApart, EventWordsStandApart, WordsAreReadBack, NumbersCountOperations, ReferencesDiffer};

/// Every pool, block, queue and cell has a word of its own.
pub fn words_stand_apart()
    ensures { WordsStandApart }
{}

/// Every block has nine words of its own for an event.
pub fn event_words_stand_apart()
    ensures { EventWordsStandApart }
{}

/// The fields of a word are what they are packed from.
pub fn words_are_read_back()
    ensures { WordsAreReadBack }
{}

/// The number that a word shows is that of the operations in its history.
pub fn numbers_count_operations()
    ensures { NumbersCountOperations }
{}

/// The references to a block have different names.
pub fn references_differ()
    ensures { ReferencesDiffer }
{}
