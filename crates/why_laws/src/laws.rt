//! Laws of what a root box watches, each the contract of a function without a body.

ghost use Rattle.why_laws.specs.Sound.{StaysIdleLaw, StaysQuietLaw};
ghost use Rattle.why_laws.specs.Waiting.{OneWaitingLaw, WatchedClassLaw};

/// In the replay of every journal in which no rule applies: where equations over variables of a root
/// box's own frames are added to it, consistent with its own, and bind or make equal no variable that
/// it watches, no label applies at it or inside it, and no rule may be used at it or at a box inside it.
pub fn why_sound()
    ensures quiet { StaysQuietLaw }
    ensures inside { StaysIdleLaw }
{}

/// What a root box watches are whole classes of its equations, none of them structured; and what it
/// is said to wait on, the least variable of each class for each goal, is said in one way.
pub fn watched()
    ensures classes { WatchedClassLaw }
    ensures one { OneWaitingLaw }
{}
