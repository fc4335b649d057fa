//! What the definitions of words mean. The function here does nothing: its contract is the law.

ghost use Rattle.qp_check_words.specs.WordsLaw.{NoneFailsWhereWordsHold};

/// No definition of words fails at any site exactly where the words of the system keep their law, as lawful
/// journals have it.
pub fn none_fails_where_words_hold()
    ensures { NoneFailsWhereWordsHold }
{}
