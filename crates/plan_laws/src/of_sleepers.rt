//! Laws of places that sleep, each the contract of a function without a body.

ghost use Rattle.plan_laws.specs.Outside.{BoundOutsideLaw, EqualOutsideLaw};
ghost use Rattle.plan_laws.specs.Runs.{NoReadySleepsLaw, QuietLaw, SettleOutLaw};
ghost use Rattle.plan_laws.specs.Sleeps.{AllNeededLaw, AwaitedOneLaw, BoxBesideLaw, BoxSleepsLaw, GoalSleepsLaw, LeavesBoxLaw, LeavesGoalLaw, NeedsConcernLaw, UnopenedLaw};

/// Where a goal of the replay of a journal isn't ready, it isn't ready after further labels either
/// that don't open it by what they change, and bind none of some variables that are enough for it.
pub fn sleeping_goals()
    ensures { GoalSleepsLaw }
{}

/// Where a box of the replay of a journal isn't ready, it isn't ready by a rule other than Split
/// after further labels either that don't open it by what they change, and bind none of some
/// variables that are enough for it; and it isn't ready at all where none of them changes an item of
/// a box or a goal inside it.
pub fn sleeping_boxes()
    ensures failing { BoxSleepsLaw }
    ensures whole { BoxBesideLaw }
{}

/// What a place needs to be told of concerns it, and all of it is enough to wait on. Where the kept
/// variables are among its waits, each label that doesn't open it passes it by. An atom waits on one
/// class of variables.
pub fn waits()
    ensures concern { NeedsConcernLaw }
    ensures enough { AllNeededLaw }
    ensures unopened { UnopenedLaw }
    ensures one { AwaitedOneLaw }
{}

/// Over commits, settles and what is forgotten, from the query on: a ready place is open, or it is a
/// box that is ready by Split alone and has an open place in it or inside it; so where no place is
/// open, none is ready. A settle opens only a box further out.
pub fn no_ready_sleeps()
    ensures awake { NoReadySleepsLaw }
    ensures quiet { QuietLaw }
    ensures further_out { SettleOutLaw }
{}

/// A label that changes no item that an idle place reads passes it by, whatever variables it keeps:
/// so until then what is enough stays enough.
pub fn passing()
    ensures goal { LeavesGoalLaw }
    ensures a_box { LeavesBoxLaw }
{}

/// Which of the variables that a label binds in a box are external to it: those of none of the box's
/// own frames, and with one of them each that is equal to it by the outermost equations.
pub fn binding_outside()
    ensures own { BoundOutsideLaw }
    ensures alike { EqualOutsideLaw }
{}
