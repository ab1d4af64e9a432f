//! Laws of tables, each the contract of a function without a body.

ghost use Rattle.tree_models.specs.Laws.{SolvedIsConsistentLaw, ClashHasNoneLaw, SolvesFormLaw, FurtherLaw, MergedLaw, FoundLaw};
ghost use Rattle.tree_models.specs.Visiting.{NumberedLaw, OneOrderLaw};

/// What a table solves is consistent, so no table solves inconsistent equations.
pub fn clash_has_none()
    ensures consistent { SolvedIsConsistentLaw }
    ensures none { ClashHasNoneLaw }
{}

/// Terms that are equal by equations that a table solves are the same in it, and it solves what follows from them, once
/// each variable of that has a place.
pub fn solved_equations()
    ensures same { FurtherLaw }
    ensures follows { SolvesFormLaw }
{}

/// The table of the merged nodes of a graph of consistent equations solves them: its places tell trees apart, and are
/// free exactly for what isn't structured. Such are the cells of the classes that are visited from some nodes.
pub fn merged_tables()
    ensures merged { MergedLaw }
    ensures found { FoundLaw }
{}

/// Cells of classes in the order of their first visit are numbered by first visit, and there is one such order.
pub fn numbered_by_visit()
    ensures numbered { NumberedLaw }
    ensures order { OneOrderLaw }
{}
