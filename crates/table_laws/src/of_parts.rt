//! Laws of plans over later tables, each the contract of a function without a body.

ghost use Rattle.table_laws.specs.ByEnds.{EndsLaw};
ghost use Rattle.table_laws.specs.Here.{JoinsFromLaw, JoinsHereLaw, PartStandsLaw, TellsFromLaw, TellsHereLaw};
ghost use Rattle.table_laws.specs.Joining.{JoinsLaterLaw};
ghost use Rattle.table_laws.specs.PartSteps.{PartHereLaw, PartStepLaw};
ghost use Rattle.table_laws.specs.SameSteps.{SameStepLaw};
ghost use Rattle.table_laws.specs.SolvedLater.{NewElsewhereLaw, NewPartLaw, SolvedFreshLaw, SolvedStillLaw};
ghost use Rattle.table_laws.specs.StoreMarks.{JoinsLeavesLaw, StoreMarksLaw, StoreMarksStartLaw, TellsLeavesLaw};
ghost use Rattle.table_laws.specs.Telling.{TellsLaterLaw};

/// What a label tells its box, and what joins it, is the own store of every later table with what the plan adds, where what
/// the plan reads is unchanged.
pub fn steps_later()
    ensures tells { TellsLaterLaw }
    ensures joins { JoinsLaterLaw }
{}

/// A label that gives its box no store makes what it made, where what its plan reads is unchanged.
pub fn same_steps()
    ensures { SameStepLaw }
{}

/// All these by one law: a plan's step, made over the own store of the later table, or of the plan's own one.
pub fn part_steps()
    ensures later { PartStepLaw }
    ensures here { PartHereLaw }
{}

/// What a plan adds to the store of its own table, and the store that this makes, are right alike.
pub fn parts_here()
    ensures stands { PartStandsLaw }
    ensures tells { TellsHereLaw }
    ensures told { TellsFromLaw }
    ensures joins { JoinsHereLaw }
    ensures joined { JoinsFromLaw }
{}

/// Whether the store that is made in a later table is solved: as it was, or by what is added alone.
pub fn solved_later()
    ensures still { SolvedStillLaw }
    ensures fresh { SolvedFreshLaw }
    ensures new { NewElsewhereLaw }
    ensures part { NewPartLaw }
{}

/// Numbers of labels behind which stores weren't changed, where bindings are told apart, stay right behind labels that give them
/// anew, and keep one only where a box is left as it was, or gets no ports and doesn't clash.
pub fn store_marks()
    ensures start { StoreMarksStartLaw }
    ensures onward { StoreMarksLaw }
    ensures tells { TellsLeavesLaw }
    ensures joins { JoinsLeavesLaw }
{}

/// A walk over the bindings of the solved stores down to the box of a place gathers what a plan that reads by ends has to read.
pub fn walked_ends()
    ensures { EndsLaw }
{}
