//! Plans of Cut.

ghost use Rattle.std.specs.Prelude.{◌≡◌, ◌≢◌, [], Some, IfOk, IfSome, length};
ghost use Rattle.akl_terms.specs.declared.name.Place.{Place};
ghost use Rattle.box_tree.specs.declared.view.Sight.{Sight};
ghost use Rattle.guard_plan.specs.Noisy.{IsTriedBy};
ghost use Rattle.guard_plan.specs.Planned.{IsPlannedBy};
ghost use Rattle.guard_plan.specs.Guards.{IsGuarded, CutsOthers, cutting};

use crate::guards::{Noise, first_quiet, has_quiet};
use crate::labels::label_for;
use crate::reading::reads_of;
use akl_model::Rule;
use akl_terms::{Name, Program};
use box_tree::{Alternative, HeldOp, Plan, Step, View};
use std::alloc::{AllocError, Global};

// The plan by which a choice that hasn't one alternative alone loses those for which a solved and quiet one leaves no
// room. What those touch that were tested comes to the noise.
pub(crate) fn cut(
    alloc: Global,
    program: &Program,
    view: &View,
    goal: Name,
    op: HeldOp,
    noise: &mut Vec<Noise>,
) -> Result<Option<Plan>, AllocError>
    requires program { program.now ≡ view.now.table.program }
    requires place { view.now.place ≡ Place.Goal goal }
    requires sight { view.now.sight ≡ Sight.Choice op }
    requires guarded { IsGuarded op }
    requires not_one { length view.now.alternatives ≢ 1 }
    requires silent { noise.old.items ≡ [] }
    ensures { IfOk result (IsTriedBy view.now noise.new.items) }
{
    let candidates = candidates(op, view.alternatives());
    let found = first_quiet(alloc, &program.templates, view.stores(), candidates, noise)?;
    let Some(alternative) = found else {
        return Ok(None);
    };
    let plan = cut_by(alloc, program, view, goal, alternative)?;
    Ok(Some(plan))
}

/// A right plan of Cut by this alternative of the choice at the place of a view, by its worker, for those who make again what
/// was planned of an older state; `None` where the choice has no such alternative that is solved and quiet and leaves fewer than
/// there are.
pub fn plan_cut(
    alloc: Global,
    program: &Program,
    view: &View,
    goal: Name,
    op: HeldOp,
    alternative: Name,
) -> Result<Option<Plan>, AllocError>
    requires program { program.now ≡ view.now.table.program }
    requires place { view.now.place ≡ Place.Goal goal }
    requires sight { view.now.sight ≡ Sight.Choice op }
    ensures { IfOk result (λ found. IfSome found (λ p. IsPlannedBy view.now (Some p))) }
{
    let alternatives = view.alternatives();
    if alternatives.len() == 1 {
        return Ok(None);
    }
    let candidates = candidates(op, alternatives);
    if !has_quiet(
        alloc,
        &program.templates,
        view.stores(),
        candidates,
        alternative,
    )? {
        return Ok(None);
    }
    let plan = cut_by(alloc, program, view, goal, alternative)?;
    Ok(Some(plan))
}

// The plan by which an alternative leaves no room for others.
fn cut_by(
    alloc: Global,
    program: &Program,
    view: &View,
    goal: Name,
    alternative: Name,
) -> Result<Plan, AllocError>
    requires program { program.now ≡ view.now.table.program }
    requires place { view.now.place ≡ Place.Goal goal }
    requires cuts { CutsOthers view.now alternative }
    ensures { IfOk result (λ p. IsPlannedBy view.now (Some p)) }
{
    let reads = reads_of(alloc, &program.templates, view, goal, &[])?;
    let label = label_for(view, Rule::Cut, alternative);
    let plan = Plan::new(alloc, view, label, reads, 0, Step::Cut, Vec::new(alloc))?;
    Ok(plan)
}

// The alternatives that leave fewer than there are, where others stand beside them: with `->` all but the last, with
// `|` all, and else none.
fn candidates(op: HeldOp, alternatives: &[Alternative]) -> &[Alternative]
    ensures { result.now ≡ cutting op alternatives.now }
{
    match op {
        HeldOp::Condition => &alternatives[..alternatives.len().saturating_sub(1)],
        HeldOp::Commit => alternatives,
        HeldOp::Choice | HeldOp::Collect(_) => &alternatives[..0],
    }
}
