//! Laws of tables, each the contract of a function without a body.

ghost use Rattle.table_laws.specs.Going.{GoneLaw, GoneListedLaw};
ghost use Rattle.table_laws.specs.Laws.{CopiesLaw, FreshStepLaw, LaterLaw, StartLaw, StepLaw};
ghost use Rattle.table_laws.specs.Marks.{MarksStartLaw, MarksStepLaw};

/// A table of a query's one box, to which nothing was told, is one of the run without labels.
pub fn start()
    ensures { StartLaw }
{}

/// A table to which the step of a label leads is one of the run that goes on with the label, and unfolds
/// to the configuration to which the label leads.
pub fn steps()
    ensures { StepLaw }
{}

/// The marks of variables before the first label, and behind a label that marks what it binds.
pub fn marks()
    ensures start { MarksStartLaw }
    ensures step { MarksStepLaw }
{}

/// The names that a step draws stand nowhere in the table, and no two of them are the same.
pub fn drawn_names()
    ensures { FreshStepLaw }
{}

/// Copies that are made of the rows of the box of a split and of those inside it, with new names, are those
/// that the label makes.
pub fn made_copies()
    ensures { CopiesLaw }
{}

/// A step that was made for a prefix of a run is right for the whole of it, where no label after the
/// prefix changed what it reads, by its stamps, and its worker has made no label since.
pub fn later_steps()
    ensures { LaterLaw }
{}

/// The places that go with a label, by its step and a table's rows: the goal of its place, and boxes with
/// all that stands inside them. A list of these boxes and of those inside them lists them all.
pub fn gone_places()
    ensures by_rows { GoneLaw }
    ensures listed { GoneListedLaw }
{}
