//! Laws of tables and calls, each the contract of a function without a body.

ghost use Rattle.table_laws.specs.CallMarks.{CallMarksLaw};
ghost use Rattle.table_laws.specs.Calls.{CallStepLaw};

/// Where a call is made at once, the table in which the goal has gone, and its box has a store of the
/// alternative that was left and of what is told of its body, with the other goals of the body, is one of
/// the run that goes on with all labels of the call, and unfolds to the configuration with its net change.
/// A new goal has the number of the promotion, the box's equations that of the last label that tells one,
/// and its set of goals that of the last label.
pub fn call_steps()
    ensures { CallStepLaw }
{}

/// The marks of variables stay right behind a call that marks what its net change binds with the number of its last
/// label.
pub fn call_marks()
    ensures { CallMarksLaw }
{}
