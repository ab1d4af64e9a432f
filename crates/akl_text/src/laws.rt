//! Laws of the definitions, which need no result of a function.

ghost use Rattle.akl_text.specs.Laws.{OneReadingLaw, OneTextLaw};

/// A text has one reading as tokens, and the spelling of a token stands for one text.
pub fn one_meaning()
    ensures tokens { OneReadingLaw }
    ensures texts { OneTextLaw }
{}
