//! Laws of journal texts. Each function here does nothing: its contract is the law.

ghost use Rattle.qp_text.specs.TextLaw.{ReadingIsExact, TextsAreOneToOne};

/// Bytes are read as a journal in a form exactly where the journal has the form and is in range, and the bytes are
/// its text in this form.
pub fn reading_is_exact()
    ensures { ReadingIsExact }
{}

/// No two journals in range share a text, and no journal has the same text in two forms.
pub fn texts_are_one_to_one()
    ensures { TextsAreOneToOne }
{}
