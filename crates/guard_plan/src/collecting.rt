//! Plans of Collect.

ghost use Rattle.std.specs.Prelude.{◌≡◌, ◌<◌, ◌^◌, [], IfOk, IsTrue, ◌↔◌, length};
ghost use Rattle.akl_terms.specs.declared.name.Place.{Place};
ghost use Rattle.box_tree.specs.declared.entries.HeldOp.{HeldOp};
ghost use Rattle.box_tree.specs.declared.view.Sight.{Sight};
ghost use Rattle.guard_plan.specs.Guards.{AreAllSolved, AreQuietOver};
ghost use Rattle.guard_plan.specs.Planned.{IsPlannedBy};
ghost use Rattle.guard_plan.specs.Noisy.{IsTriedBy};

use crate::guards::{MOST, Noise, are_quiet};
use crate::joining::joined_part;
use crate::labels::label_of;
use crate::listing::list_of;
use crate::reading::reads_of;
use akl_model::Rule;
use akl_terms::{Name, Program, Term};
use box_tree::{Alternative, Plan, Step, View};
use class_members::members;
use local_store::ToldPart;
use std::alloc::{AllocError, Global};

// The plan by which a choice that collects becomes the list of what its alternatives have, where all of them are solved
// and quiet. Where all are solved, what they touch otherwise comes to the noise.
pub(crate) fn collect(
    alloc: Global,
    program: &Program,
    view: &View,
    goal: Name,
    list: Term,
    noise: &mut Vec<Noise>,
) -> Result<Option<Plan>, AllocError>
    requires program { program.now ≡ view.now.table.program }
    requires place { view.now.place ≡ Place.Goal goal }
    requires sight { view.now.sight ≡ Sight.Choice (HeldOp.Collect list) }
    requires silent { noise.old.items ≡ [] }
    ensures { IfOk result (IsTriedBy view.now noise.new.items) }
{
    let alternatives = view.alternatives();
    if !are_solved(alternatives) {
        return Ok(None);
    }
    let quiet = are_quiet(
        alloc,
        &program.templates,
        view.stores(),
        alternatives,
        noise,
    )?;
    if !quiet || alternatives.len() as u64 > MOST {
        return Ok(None);
    }
    collect_quiet(alloc, program, view, goal, list)
}

fn are_solved(alternatives: &[Alternative]) -> bool
    ensures { IsTrue result ↔ AreAllSolved alternatives.now }
{
    for alternative in alternatives {
        if !alternative.solved {
            return false;
        }
    }
    true
}

// The plan where all alternatives are solved and quiet; `None` where something isn't collected of one of them.
fn collect_quiet(
    alloc: Global,
    program: &Program,
    view: &View,
    goal: Name,
    list: Term,
) -> Result<Option<Plan>, AllocError>
    requires program { program.now ≡ view.now.table.program }
    requires place { view.now.place ≡ Place.Goal goal }
    requires sight { view.now.sight ≡ Sight.Choice (HeldOp.Collect list) }
    requires solved { AreAllSolved view.now.alternatives }
    requires quiet { AreQuietOver program.now.templates.nodes view.now.stores view.now.alternatives }
    requires few { length view.now.alternatives < 2 ^ 32 }
    ensures { IfOk result (IsPlannedBy view.now) }
{
    let label = label_of(view, Rule::Collect);
    let names = view.alternatives().len() as u64;
    let next = view.next();
    next.checked_add(names).ok_or(AllocError)?;
    let first = Name {
        worker: view.worker(),
        number: next,
    };
    let Some(equations) = list_of(alloc, program, first, list, view.alternatives())? else {
        return Ok(None);
    };
    let ToldPart {
        part,
        solved,
        bound,
    } = joined_part(
        alloc,
        &view.chain(&program.templates),
        first,
        view.alternatives(),
        equations.as_slice(),
    )?;
    let binds = members(alloc, &view.chain(&program.templates), bound.as_slice())?;
    let reads = reads_of(alloc, &program.templates, view, goal, binds.as_slice())?;
    let step = Step::Join {
        part,
        solved,
        goals: Vec::new(alloc),
        told: 0,
        behind: 0,
    };
    let plan = Plan::new(alloc, view, label, reads, names, step, binds)?;
    Ok(Some(plan))
}
