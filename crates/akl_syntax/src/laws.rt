//! Laws of the definitions, which need no result of a function.

ghost use Rattle.akl_syntax.specs.Laws.{OneProgramLaw, OneQueryLaw, OneClauseLaw};

/// No program, no query and no clause has two readings.
pub fn one_meaning()
    ensures program { OneProgramLaw }
    ensures query { OneQueryLaw }
    ensures clause { OneClauseLaw }
{}
