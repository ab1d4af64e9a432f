//! The variables from outside that a place reaches.

ghost use Rattle.std.specs.Prelude.{◌≡◌, ◌≤◌, List, ◌++◌, ◌∷◌, [], length, IfOk, IsTrue, ◌↔◌, MatchOption};
ghost use Rattle.akl_terms.specs.declared.term.Node.{Node};
ghost use Rattle.local_store.specs.Stored.{Stored};
ghost use Rattle.local_store.specs.Chained.{IsKnown};
ghost use Rattle.box_tree.specs.declared.view.Sight.{Sight};
ghost use Rattle.stable_test.specs.Reaching.{IsTestable, IsConsistentDown, IsToldAt, ReachesNoneAt, AreReachedAt};
ghost use Rattle.stable_test.specs.Inner.{IsInnerView, ListsTouched};

use crate::awaiting::awaited;
use akl_terms::{Goal, Program, Term, Var};
use box_tree::{Sight, View};
use entail_test::{Outside, outside_of};
use guard_plan::shared;
use local_store::{Chain, Consistency, Shared, Store, consistent};
use std::alloc::{AllocError, Global};

/// The variables from outside of a box that a place in it, or inside it, touches: a box by the equations down to it, and
/// an atom by what it waits on. Of each class of the environment that is touched one is listed; where all is
/// inconsistent there is none.
///
/// The box has `depth` boxes around it, and a store has the frames of all boxes in it, as `frames_of` makes it. This
/// costs a solution of the stores down to the place.
pub fn reached(
    alloc: Global,
    program: &Program,
    depth: usize,
    frames: &Store,
    view: &View,
) -> Result<Vec<Var>, AllocError>
    requires { IsInnerView program.now depth frames.now view.now }
    ensures { IfOk result (λ list. (s : IsInnerView program.now depth frames.now view.now) → ListsTouched program.now depth frames.now view.now s list.items) }
{
    match reached_at(alloc, program, depth, frames, view)? {
        Some(list) => Ok(list),
        None => Ok(Vec::new(alloc)),
    }
}

// Whether a place reaches no variable from outside of the boxes around it from a depth on, where a store has the frames
// of all boxes inside.
pub(crate) fn reaches_none(
    alloc: Global,
    program: &Program,
    depth: usize,
    frames: &Store,
    view: &View,
) -> Result<bool, AllocError>
    requires { IsTestable program.now depth frames.now view.now }
    ensures { IfOk result (λ none. IsTrue none ↔ ReachesNoneAt program.now depth frames.now view.now) }
{
    match reached_at(alloc, program, depth, frames, view)? {
        Some(list) => Ok(list.is_empty()),
        None => Ok(false),
    }
}

// What a place reaches; `None` exactly where all is inconsistent at a box or an atom.
fn reached_at(
    alloc: Global,
    program: &Program,
    depth: usize,
    frames: &Store,
    view: &View,
) -> Result<Option<Vec<Var>>, AllocError>
    requires { IsTestable program.now depth frames.now view.now }
    ensures { IfOk result (λ found. MatchOption found (IsConsistentDown program.now view.now → ⊥)
        (λ list. IsConsistentDown program.now view.now × AreReachedAt program.now depth frames.now view.now list.items)) }
{
    match view.sight() {
        Sight::Choice { .. } => Ok(Some(Vec::new(alloc))),
        Sight::Box { .. } => {
            let known = known_beyond(view);
            told_with(alloc, program, depth, view, frames.share()?, known)
        }
        Sight::Atom(atom) => reached_by(alloc, program, depth, frames, view, atom),
    }
}

// The same of an atom. What it waits on is bound to an integer, to see what is told that then.
fn reached_by(
    alloc: Global,
    program: &Program,
    depth: usize,
    frames: &Store,
    view: &View,
    atom: Goal,
) -> Result<Option<Vec<Var>>, AllocError>
    requires testable { IsTestable program.now depth frames.now view.now }
    requires atom { view.now.sight ≡ Sight.Atom atom }
    ensures { IfOk result (λ found. MatchOption found (IsConsistentDown program.now view.now → ⊥)
        (λ list. IsConsistentDown program.now view.now × AreReachedAt program.now depth frames.now view.now list.items)) }
{
    if let Consistency::Clash { .. } = consistent(alloc, &view.chain(&program.templates))? {
        return Ok(None);
    }
    match awaited(alloc, program, view, atom)? {
        None => Ok(Some(Vec::new(alloc))),
        Some(on) => {
            let bound = frames.with_binding(on, Term::Int(0))?;
            told_with(alloc, program, depth, view, bound, view.known())
        }
    }
}

// How many of the stores down to a place are known to be solved together, where one that binds nothing comes behind them.
fn known_beyond(view: &View) -> usize
    ensures { (nodes : List Node) (further : Stored) → further.bindings ≡ [] → IsKnown nodes view.now.stores view.now.known → IsKnown nodes (view.now.stores ++ further ∷ []) result }
{
    let known = view.known();
    if known == view.stores().len() {
        return known.saturating_add(1);
    }
    known
}

// What the stores down to a place, with a further one, tell the variables from outside of those from a depth on; `None` where
// all is inconsistent. So many of these stores are known to be solved together.
fn told_with(
    alloc: Global,
    program: &Program,
    depth: usize,
    view: &View,
    further: Store,
    known: usize,
) -> Result<Option<Vec<Var>>, AllocError>
    requires program { program.now ≡ view.now.table.program }
    requires depth { depth ≤ length view.now.stores }
    requires known { IsKnown program.now.templates.nodes (view.now.stores ++ further ∷ []) known }
    ensures { IfOk result (IsToldAt program.now.templates.nodes (view.now.stores ++ further ∷ []) depth) }
{
    let mut stores = shared(alloc, view.stores())?;
    stores.push(Shared::new(alloc, further)?)?;
    let chain = Chain::of_solved(&program.templates, stores.as_slice(), known);
    match outside_of(alloc, &chain, depth)? {
        Outside::Touched(on) => Ok(Some(on)),
        Outside::Clash { .. } => Ok(None),
    }
}
