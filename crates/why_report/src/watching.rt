//! What one goal of a root box watches.

ghost use Rattle.std.specs.Prelude.{◌≡◌, IfOk, map};
ghost use Rattle.akl_terms.specs.Equal.{IsConsistentBy};
ghost use Rattle.akl_model.specs.Derivations.{IsQuietEnd};
ghost use Rattle.box_tree.specs.declared.view.Alternative.{Alternative};
ghost use Rattle.box_tree.specs.Tables.{all_rules};
ghost use Rattle.local_store.specs.Chained.{ToldBy};
ghost use Rattle.step_commit.specs.Cores.{TableIn};
ghost use Rattle.why_report.specs.Sights.{IsGoalView, IsBoxWithin, AreAwaited, AreTouchedBy, AreTouchedIn};
ghost use Rattle.why_report.specs.Waits.{WaitsOn};

use crate::oldest::oldest_of;
use akl_terms::{Goal, Name, Program, Var};
use box_tree::{Sight, View};
use stable_test::{awaited, reached_inside};
use std::alloc::{AllocError, Global};
use step_commit::Core;

/// The oldest variable of each class that the goal of a view watches, in increasing order, where it stands directly in
/// a root box and no place is ready.
pub(crate) fn watched_at(
    alloc: Global,
    program: &Program,
    core: &Core,
    view: &View,
    goal: Name,
) -> Result<Vec<Var>, AllocError>
    requires program { program.now ≡ core.now.table.program }
    requires quiet { (t : TableIn core.now) → IsQuietEnd all_rules core.now.table.program t.config }
    requires view { IsGoalView core.now goal view.now }
    ensures { IfOk result (λ list. WaitsOn core.now goal list.items) }
{
    let chain = view.chain(&program.templates);
    let of = match view.sight() {
        Sight::Atom(atom) => awaited_by(alloc, program, view, atom)?,
        Sight::Choice { .. } => touched_by(alloc, program, core, view, goal)?,
        Sight::Box { .. } => Vec::new(alloc),
    };
    oldest_of(alloc, &chain, of.as_slice())
}

// The variable on which the atom of a view waits, if it waits on one.
fn awaited_by(
    alloc: Global,
    program: &Program,
    view: &View,
    atom: Goal,
) -> Result<Vec<Var>, AllocError>
    requires program { program.now ≡ view.now.table.program }
    requires consistent { IsConsistentBy (ToldBy program.now.templates.nodes view.now.stores) }
    ensures { IfOk result (λ of. AreAwaited program.now view.now.stores atom of.items) }
{
    let mut of = Vec::new(alloc);
    if let Some(on) = awaited(alloc, program, view, atom)? {
        of.push(on)?;
    }
    Ok(of)
}

// What the alternatives of the choice of a view, and the boxes inside them, touch from outside, one variable of each class
// for each place at least.
fn touched_by(
    alloc: Global,
    program: &Program,
    core: &Core,
    view: &View,
    goal: Name,
) -> Result<Vec<Var>, AllocError>
    requires program { program.now ≡ core.now.table.program }
    requires view { IsGoalView core.now goal view.now }
    ensures { IfOk result (λ of. AreTouchedBy core.now (map (λ (a : Alternative). a.name) view.now.alternatives) of.items) }
{
    let depth = view.path().len();
    let mut of = Vec::new(alloc);
    for alternative in view.alternatives() {
        let more = touched_inside(alloc, program, core, alternative.name, depth)?;
        of.extend_from_slice(more.as_slice())?;
    }
    Ok(of)
}

// The same of one alternative, which has so many boxes around it.
fn touched_inside(
    alloc: Global,
    program: &Program,
    core: &Core,
    name: Name,
    depth: usize,
) -> Result<Vec<Var>, AllocError>
    requires program { program.now ≡ core.now.table.program }
    requires there { IsBoxWithin core.now name depth }
    ensures { IfOk result (λ of. AreTouchedIn core.now name of.items) }
{
    let inside = core.look_inside(alloc, name, 1)?;
    reached_inside(alloc, program, depth, &inside)
}
