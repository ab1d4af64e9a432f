//! Laws of kept waits, each the contract of a function without a body.

ghost use Rattle.plan_laws.specs.Woken.{AddsAtSiteLaw, WokenLaw};
ghost use Rattle.plan_laws.specs.Kept.{NoWaitsLaw, KeptByCommitLaw, KeptBySettleLaw, KeptByForgetLaw, ConcernScopedLaw};
ghost use Rattle.plan_laws.specs.Still.{StillEnoughLaw, StillOldestLaw, StillConcernLaw, StillScopedLaw, RootNeedsNothingLaw, RootStillLaw};

/// A label binds variables in the box of its place alone; and it wakes the places that wait on one of those listed,
/// if each that it binds is equal to a listed one by the equations of the outermost box, and the list has the oldest
/// of those that are equal so.
pub fn woken_places()
    ensures at_site { AddsAtSiteLaw }
    ensures woken { WokenLaw }
{}

/// The kept waits of places that are there and not open, with the oldest of each class, stay so over commits, settles
/// and what is forgotten, and there are none at the start.
pub fn kept_waits()
    ensures at_start { NoWaitsLaw }
    ensures commit { KeptByCommitLaw }
    ensures settle { KeptBySettleLaw }
    ensures forget { KeptByForgetLaw }
{}

/// What concerns a place is of a frame of a box that is the place or stands around it.
pub fn concerns()
    ensures { ConcernScopedLaw }
{}

/// What was found of a place that isn't ready holds after further labels that leave what it watches: its variables are
/// enough, with the oldest of each class, concern it, and are in scope.
pub fn still_idle()
    ensures enough { StillEnoughLaw }
    ensures oldest { StillOldestLaw }
    ensures concern { StillConcernLaw }
    ensures scoped { StillScopedLaw }
{}

/// Nothing concerns a root box, and where it has no candidate of a split it isn't made ready by what changes inside it,
/// but by a goal by which it fails.
pub fn root_boxes()
    ensures nothing { RootNeedsNothingLaw }
    ensures still { RootStillLaw }
{}
