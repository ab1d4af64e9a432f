//! The alternative at which a box could be split, by its goals one after another.

ghost use Rattle.std.specs.Prelude.{◌≡◌, IfOk, IfSome, Some};
ghost use Rattle.box_tree.specs.Tables.{table_of};
ghost use Rattle.box_tree.specs.Insides.{candidate_among, IsCandidateOf};
ghost use Rattle.place_steps.specs.Seen.{IsCandidateAt};

use akl_model::Label;
use akl_terms::{Name, Place};
use box_tree::Table;
use std::alloc::{AllocError, Global};
use step_commit::Core;

// The alternative at which a box could be split by the first of these goals that is such a choice.
fn candidate_among(table: &Table, goals: &[Name]) -> Option<Name>
    ensures { result ≡ candidate_among (table_of table.now) goals.now }
{
    for goal in goals {
        if let Some(alternative) = table.candidate_at(*goal) {
            return Some(alternative);
        }
    }
    None
}

/// The alternative at which the box at a place could be split, were it stable, by the first of its goals that is such a
/// choice; `None` where there is none, and of a goal nothing is said. It reads all goals of the box, whatever is open in
/// it, for those who look at places in an order of their own; a scheduler keeps the choices of its boxes. An `Err` is want of
/// memory.
pub fn first_candidate(alloc: Global, core: &Core, place: Place) -> Result<Option<Name>, AllocError>
    ensures { IfOk result (IsCandidateAt core.now place) }
{
    let Place::Box(name) = place else {
        return Ok(None);
    };
    let goals = core.table().goals_of(alloc, name)?;
    Ok(candidate_among(core.table(), goals.as_slice()))
}

// The alternative at which a box could be split by one of its goals, if it is this one.
fn candidate_if(
    alloc: Global,
    core: &Core,
    name: Name,
    alternative: Name,
) -> Result<Option<Name>, AllocError>
    ensures { IfOk result (λ found. IfSome found (λ a. IsCandidateOf (table_of core.now.table) name (Some a))) }
{
    let goals = core.table().goals_of(alloc, name)?;
    for goal in &goals {
        if let Some(found) = core.table().candidate_at(*goal) {
            if found == alternative {
                return Ok(Some(found));
            }
        }
    }
    Ok(None)
}

/// The alternative at which the box of a label could be split: the label's, or the first one. An `Err` is want of memory.
pub(crate) fn candidate_for(
    alloc: Global,
    core: &Core,
    label: Label,
) -> Result<Option<Name>, AllocError>
    ensures { IfOk result (IsCandidateAt core.now label.place) }
{
    if let (Place::Box(name), Some(alternative)) = (label.place, label.alternative) {
        if let Some(found) = candidate_if(alloc, core, name, alternative)? {
            return Ok(Some(found));
        }
    }
    first_candidate(alloc, core, label.place)
}
