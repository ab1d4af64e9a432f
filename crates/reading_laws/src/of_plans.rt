//! Laws of derivations, each the contract of a function without a body.

ghost use Rattle.reading_laws.specs.AtomRight.{AtomRightLaw, CollectRightLaw};
ghost use Rattle.reading_laws.specs.Boxes.{EnoughUnboundLaw};
ghost use Rattle.reading_laws.specs.Ends.{SparedLaw, UnlistedLaw};
ghost use Rattle.reading_laws.specs.FailRight.{FailRightLaw};
ghost use Rattle.reading_laws.specs.Guards.{InnerGuardLaw, RootGuardLaw};
ghost use Rattle.reading_laws.specs.IdleBoxes.{IdleBoxLaw};
ghost use Rattle.reading_laws.specs.IdleGoals.{EnoughStaysLaw, PassesIdleLaw};
ghost use Rattle.reading_laws.specs.Listed.{InnerListedLaw, ListedLaw, QuietStaysLaw};
ghost use Rattle.reading_laws.specs.ListedMarks.{ListedEndsLaw, ListedMarksLaw};
ghost use Rattle.reading_laws.specs.Marks.{LastMarkLaw, MarksLaw, OldMarkLaw};
ghost use Rattle.reading_laws.specs.OldestStays.{OldestStaysLaw};
ghost use Rattle.reading_laws.specs.Plans.{AtomPlanLaw, ChoicePlanLaw, CollectPlanLaw};
ghost use Rattle.reading_laws.specs.Seen.{SeenPlanLaw};
ghost use Rattle.reading_laws.specs.SplitRight.{SplitRightLaw};

/// A box over many labels that bind none of a list of variables that is enough for it: it stays, with its ports, its
/// equations grow consistently, and none of the list is bound in it. What is quiet is so while the equations around it
/// grow consistently.
pub fn growing_boxes()
    ensures unbound { EnoughUnboundLaw }
    ensures quiet { QuietStaysLaw }
{}

/// A label leads on from a later configuration, with the same local change: one of an atom or of Collect where its goal
/// is unchanged and its box consistent; one of Cut or Promote where besides, of the guard `?`, nothing is bound that the
/// alternative binds; one of Fail where its box is there; one of Split where all inside its box is unchanged and its
/// surroundings are consistent.
pub fn labels_again()
    ensures atoms { AtomRightLaw }
    ensures collect { CollectRightLaw }
    ensures guards { RootGuardLaw }
    ensures inner_guards { InnerGuardLaw }
    ensures fail { FailRightLaw }
    ensures split { SplitRightLaw }
{}

/// The variables that a plan lists as bound are enough later, and it clashes as it did, where none of them was bound
/// since; in an inner box, where none of a list is bound that is enough for the equations of the boxes inside the root box.
pub fn bound_again()
    ensures root { ListedLaw }
    ensures inner { InnerListedLaw }
{}

/// So a plan stays right, clashes as it did, and binds what it lists, where none of the items is changed that it reads:
/// its goal, the boxes down to it, the bindings of the variables that it lists, and of a list that is enough for its box.
pub fn plans_again()
    ensures atoms { AtomPlanLaw }
    ensures collect { CollectPlanLaw }
    ensures choices { ChoicePlanLaw }
{}

/// A plan of one label at a goal stays right so by the stamps of its goal and its root box and the marks of what it lists,
/// or in an inner box by the stamps of its goal and of the sets of goals of the boxes down to it.
pub fn seen_plans()
    ensures { SeenPlanLaw }
{}

/// A label binds no variable that it doesn't list, where this is structured or the oldest of its class by the outermost
/// equations. A list that has with each of its variables the oldest of its class has it still, and none of it is bound,
/// where labels spare it so. So labels mark what they list, with the number of the last one of their plan, and marks
/// that are no later than a plan say of such a list that none of it was bound since. So is what a plan lists.
pub fn marks()
    ensures unlisted { UnlistedLaw }
    ensures spared { SparedLaw }
    ensures last { LastMarkLaw }
    ensures old { OldMarkLaw }
    ensures since { MarksLaw }
    ensures ends { ListedEndsLaw }
    ensures listed { ListedMarksLaw }
{}

/// A label that changes neither an idle goal, nor the set of goals of one of its alternatives or of a box around it inside
/// the root box, nor what a variable is bound to on which it waits, passes it by; after such labels the goal isn't ready,
/// and its variables are enough for it, and while the root box is consistent the oldest of each class of unstructured
/// ones is among them. Nor does a box without a candidate of a split become ready, where no label changed
/// what stands inside it, a box around it, or a binding of a list that is enough for it.
pub fn idle_places()
    ensures passes { PassesIdleLaw }
    ensures enough { EnoughStaysLaw }
    ensures oldest { OldestStaysLaw }
    ensures in_a_box { IdleBoxLaw }
{}
