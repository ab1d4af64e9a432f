//! Laws of parts that join stores, each the contract of a function without a body.

ghost use Rattle.table_laws.specs.Fresh.{FreshJoinLaw};
ghost use Rattle.table_laws.specs.Joins.{JoinedLaterLaw, JoinsLaterLaw};
ghost use Rattle.table_laws.specs.Parts.{PartStillLaw};

/// A part that a plan adds to a box's store, for what its label tells or for what joins the box, stays right
/// whatever was added to the boxes since.
pub fn joins()
    ensures told { JoinsLaterLaw }
    ensures joined { JoinedLaterLaw }
{}

/// A chain that is solved stays solved where a part joins it that binds other variables and leads to older
/// ones, wherever it was found.
pub fn chains()
    ensures { FreshJoinLaw }
{}

/// A label that told one equation to its box, and is right still by reducing its goal, tells the same one: so its part
/// is what it was.
pub fn parts_still()
    ensures { PartStillLaw }
{}
