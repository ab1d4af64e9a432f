//! Laws of idle places and of labels at boxes, each the contract of a function without a body.

ghost use Rattle.reading_laws.specs.SeenIdle.{KeptEndsLaw, ScopedStaysLaw, SeenIdleLaw};
ghost use Rattle.reading_laws.specs.SeenBoxes.{SeenFailLaw, SeenIdleBoxLaw, SeenSplitLaw};

/// A goal that isn't ready isn't so after labels that changed, by their stamps, neither it, nor the set of goals of one of
/// its alternatives or of a box around it inside the root box, and that bound, by marks, none of the variables on which it
/// waits; and these are as good as they were. Variables that are in scope at a place are so while the place is there; and
/// a list of them has its ends in each root box, where it has them in the outermost one around the place.
pub fn idle_goals()
    ensures seen { SeenIdleLaw }
    ensures scoped { ScopedStaysLaw }
    ensures ends { KeptEndsLaw }
{}

/// So does a box without a candidate of a split, by all inside it, the boxes around it, and the ends of what their
/// equations reach. Its Fail leads on where it clashed and is there, and its Split where what it reads is as it was.
pub fn seen_boxes()
    ensures idle { SeenIdleBoxLaw }
    ensures fail { SeenFailLaw }
    ensures split { SeenSplitLaw }
{}
