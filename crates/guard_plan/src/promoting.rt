//! Plans of Promote.

ghost use Rattle.std.specs.Prelude.{◌≡◌, ◌+◌, ◌<◌, ◌^◌, ◌∷◌, [], IfOk, length};
ghost use Rattle.akl_terms.specs.declared.name.Place.{Place};
ghost use Rattle.box_tree.specs.declared.view.Sight.{Sight};
ghost use Rattle.guard_plan.specs.Noisy.{IsTriedBy};
ghost use Rattle.guard_plan.specs.Guards.{IsGuarded, numbered_goals};

use crate::guards::{MOST, Noise, guard_holds, shared};
use crate::labels::label_for;
use crate::reading::reads_of;
use akl_model::Rule;
use akl_terms::{Goal, Name, Program};
use box_tree::{Alternative, HeldOp, Plan, Step, View};
use class_members::members;
use local_store::{Chain, ToldPart, promoted};
use std::alloc::{AllocError, Global};

// The plan by which the only alternative of a choice joins the box, where it is solved and its guard holds. What it
// touches otherwise comes to the noise.
pub(crate) fn promote(
    alloc: Global,
    program: &Program,
    view: &View,
    goal: Name,
    op: HeldOp,
    only: &Alternative,
    noise: &mut Vec<Noise>,
) -> Result<Option<Plan>, AllocError>
    requires program { program.now ≡ view.now.table.program }
    requires place { view.now.place ≡ Place.Goal goal }
    requires sight { view.now.sight ≡ Sight.Choice op }
    requires guarded { IsGuarded op }
    requires only { view.now.alternatives ≡ only.now ∷ [] }
    requires silent { noise.old.items ≡ [] }
    ensures { IfOk result (IsTriedBy view.now noise.new.items) }
{
    let label = label_for(view, Rule::Promote, only.name);
    if !only.solved {
        return Ok(None);
    }
    let mut stores = shared(alloc, view.stores())?;
    stores.push(only.store.share()?)?;
    let chain = Chain::of_solved(&program.templates, stores.as_slice(), only.known);
    let names = view.body().len() as u64;
    if !guard_holds(alloc, op, &chain, noise)? || names > MOST {
        return Ok(None);
    }
    let ToldPart {
        part,
        solved,
        bound,
    } = promoted(alloc, &chain)?;
    let binds = members(alloc, &view.chain(&program.templates), bound.as_slice())?;
    let next = view.next();
    next.checked_add(names).ok_or(AllocError)?;
    let first = Name {
        worker: view.worker(),
        number: next,
    };
    let goals = numbered(alloc, first, view.body())?;
    let reads = reads_of(alloc, &program.templates, view, goal, binds.as_slice())?;
    let step = Step::Join {
        part,
        solved,
        goals,
        told: 0,
        behind: 0,
    };
    let plan = Plan::new(alloc, view, label, reads, names, step, binds)?;
    Ok(Some(plan))
}

// These goals under names from this one on.
fn numbered(alloc: Global, first: Name, body: &[Goal]) -> Result<Vec<(Name, Goal)>, AllocError>
    requires { first.number + length body.now < 2 ^ 64 }
    ensures { IfOk result (λ goals. goals.items ≡ numbered_goals first.worker first.number body.now) }
{
    let mut goals = Vec::new(alloc);
    let mut number = first.number;
    for goal in body {
        let name = Name {
            worker: first.worker,
            number,
        };
        goals.push((name, *goal))?;
        number += 1;
    }
    Ok(goals)
}
