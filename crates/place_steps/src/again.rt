//! A label that is made once more, and a place that is shown, for those who follow a run.

ghost use Rattle.std.specs.Prelude.{◌≡◌, true, Some, IfOk, IfSome, OnErr};
ghost use Rattle.guard_plan.specs.Planned.{IsPlannedBy};
ghost use Rattle.place_steps.specs.Seen.{view_in, IsSeen, IsSight};
ghost use Rattle.place_steps.specs.Next.{IsNext, HasRoom};
ghost use Rattle.place_steps.specs.Again.{IsCommittedIf, IsMadeIf, MayBe};
ghost use Rattle.step_commit.specs.Cores.{MayCommit};

use crate::candidates::{candidate_for, first_candidate};
use crate::next::{Next, next_of};
use crate::seen::{Seen, see};
use akl_model::Label;
use akl_terms::{Name, Place, Program};
use box_tree::{Plan, Sight};
use guard_plan::plan_cut;
use std::alloc::{AllocError, Global};
use step_commit::Core;

/// One who follows a run.
pub trait Onlooker {
    /// Is shown what is seen of a place of a core, and what comes next there.
    fn look(&mut self, core: &Core, seen: &Seen, next: &Next);
}

/// Shows an onlooker what is seen of a place, and what comes next there; nothing where the place isn't there. An `Err` is want
/// of memory, or of names for a split.
pub fn show_place<O: Onlooker>(
    alloc: Global,
    program: &Program,
    core: &Core,
    place: Place,
    onlooker: &mut O,
) -> Result<(), AllocError>
    requires { program.now ≡ core.now.table.program }
{
    let candidate = first_candidate(alloc, core, place)?;
    match see(alloc, core, place, 1, candidate)? {
        Some(seen) => show_seen(alloc, program, core, &seen, onlooker),
        None => Ok(()),
    }
}

// The same of a place that was seen.
fn show_seen<O: Onlooker>(
    alloc: Global,
    program: &Program,
    core: &Core,
    seen: &Seen,
    onlooker: &mut O,
) -> Result<(), AllocError>
    requires program { program.now ≡ (view_in seen.now).table.program }
    requires seen { IsSeen seen.now }
{
    let next = next_of(alloc, program, seen, 1)?;
    onlooker.look(core, seen, &next);
    Ok(())
}

/// Makes a label once more: the step that comes next at the label's place, with the label's alternative, by its worker.
/// An onlooker is shown it before it is made. Answers whether it was made: not where the place isn't there, no rule
/// applies there with this alternative, or all labels of the budget are made. An `Err` is want of memory, or of names for a
/// split. Where it wasn't made the core is as it was.
pub fn make_again<O: Onlooker>(
    alloc: Global,
    program: &Program,
    core: &mut Core,
    label: Label,
    onlooker: &mut O,
) -> Result<bool, AllocError>
    requires { program.now ≡ core.old.table.program }
    ensures made { IfOk result (IsMadeIf core.old label core.new) }
    ensures unchanged { OnErr result (core.new ≡ core.old) }
{
    let candidate = candidate_for(alloc, core, label)?;
    match see(alloc, core, label.place, label.worker, candidate)? {
        Some(seen) => make_seen(alloc, program, core, label, &seen, onlooker),
        None => Ok(false),
    }
}

// The same of a label whose place was seen.
fn make_seen<O: Onlooker>(
    alloc: Global,
    program: &Program,
    core: &mut Core,
    label: Label,
    seen: &Seen,
    onlooker: &mut O,
) -> Result<bool, AllocError>
    requires program { program.now ≡ core.old.table.program }
    requires seen { IsSeen seen.now }
    requires sight { IsSight core.old label.place label.worker (view_in seen.now) }
    ensures made { IfOk result (IsMadeIf core.old label core.new) }
    ensures unchanged { OnErr result (core.new ≡ core.old) }
{
    let next = next_for(alloc, program, seen, label)?;
    if !may_be(&next, label) {
        return Ok(false);
    }
    onlooker.look(core, seen, &next);
    match next {
        Next::Plan(plan) => commit(alloc, core, plan),
        Next::Idle(_idle) => Ok(false),
    }
}

// What comes next at a label's place that was seen: a cut by its alternative, where that is one that cuts others, and else as at
// any place. Which of several such alternatives cuts depends on when it was planned.
fn next_for(alloc: Global, program: &Program, seen: &Seen, label: Label) -> Result<Next, AllocError>
    requires program { program.now ≡ (view_in seen.now).table.program }
    requires seen { IsSeen seen.now }
    ensures next { IfOk result (IsNext (view_in seen.now)) }
    ensures room { IfOk result (HasRoom 1) }
{
    match cut_at(alloc, program, seen, label.alternative)? {
        Some(plan) => Ok(Next::Plan(plan)),
        None => next_of(alloc, program, seen, 1),
    }
}

// The plan of a cut by an alternative of the choice that was seen; `None` where there is none that cuts others.
fn cut_at(
    alloc: Global,
    program: &Program,
    seen: &Seen,
    alternative: Option<Name>,
) -> Result<Option<Plan>, AllocError>
    requires program { program.now ≡ (view_in seen.now).table.program }
    requires seen { IsSeen seen.now }
    ensures { IfOk result (λ found. IfSome found (λ p. IsPlannedBy (view_in seen.now) (Some p))) }
{
    let (Seen::Goal { goal, view }, Some(alternative)) = (seen, alternative) else {
        return Ok(None);
    };
    match view.sight() {
        Sight::Choice { op } => plan_cut(alloc, program, view, *goal, op, alternative),
        _ => Ok(None),
    }
}

// Whether what comes next at a label's place is of its alternative.
fn may_be(next: &Next, label: Label) -> bool
    ensures { result ≡ true → MayBe label next.now }
{
    match next {
        Next::Plan(plan) => plan.label().alternative == label.alternative,
        Next::Idle(_idle) => false,
    }
}

// Makes the labels of a plan that was made of the core, and its step. Answers whether they were made: not where the budget has no
// room for them.
fn commit(alloc: Global, core: &mut Core, plan: Plan) -> Result<bool, AllocError>
    requires { MayCommit core.old plan }
    ensures committed { IfOk result (IsCommittedIf core.old plan core.new) }
    ensures unchanged { OnErr result (core.new ≡ core.old) }
{
    if core.refusal(&plan).is_some() {
        return Ok(false);
    }
    core.append(alloc, plan)?;
    Ok(true)
}
