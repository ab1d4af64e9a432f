//! What was found of an idle place, later on.

ghost use Rattle.idle_places.specs.Later.{IdleLaterLaw};
ghost use Rattle.idle_places.specs.Settles.{KeptBySettleLaw};

/// What was found of an idle place holds after further labels that leave what it read; of a root box that didn't look
/// inside, where it has neither a goal by which it fails nor a candidate of a split.
pub fn idle_later()
    ensures { IdleLaterLaw }
{}

/// Waits stay as they have to be where a place is settled by what was found of it.
pub fn kept_by_settle()
    ensures { KeptBySettleLaw }
{}
