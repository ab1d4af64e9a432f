//! The law of what opens places.

ghost use Rattle.opened_places.specs.Changed.{OpensLaw};

/// A place is opened exactly where it is changed, woken, or under equations that bind a variable outside.
pub fn opens()
    ensures { OpensLaw }
{}
