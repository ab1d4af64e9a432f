//! Plans of Split.

ghost use Rattle.std.specs.Prelude.{◌≡◌, true, IfOk, IfSome, Some, length};
ghost use Rattle.akl_model.specs.declared.label.Rule.{Rule};
ghost use Rattle.akl_model.specs.Stable.{IsStable};
ghost use Rattle.box_tree.specs.Views.{IsViewOf};
ghost use Rattle.box_copies.specs.Copies.{IsInsideOfBox, AreBoxesOf};
ghost use Rattle.split_plan.specs.Split.{IsCandidate, IsStill, IsSplitBy};

use crate::reading::split_reads;
use akl_model::{Label, Rule};
use akl_terms::{Name, Program};
use box_copies::{Copied, copies_of};
use box_tree::{InnerBox, Inside, Plan, Step, View};
use guard_plan::label_for;
use stable_test::is_stable;
use std::alloc::{AllocError, Global};

// One less than the number of names that are too many for one label.
const MOST: u64 = 4294967295;

/// A right plan of Split for the box that was looked at, by its worker, at the alternative at which it could be split;
/// `None` exactly where Split doesn't apply there, as the box isn't stable. An `Err` is want of memory, or of names:
/// the copies would draw 4,294,967,296 or more.
///
/// Whether a rule other than Split applies at some place inside is tried by a plan for each, unless it is `known` that none
/// does.
pub fn plan_split(
    alloc: Global,
    program: &Program,
    view: &View,
    inside: &Inside,
    alternative: Name,
    known: bool,
) -> Result<Option<Plan>, AllocError>
    requires program { program.now ≡ view.now.table.program }
    requires inside { IsInsideOfBox view.now inside.now }
    requires candidate { IsCandidate view.now alternative }
    requires known { known ≡ true → IsStill view.now }
    ensures split { IfOk result (IsSplitBy view.now) }
    ensures alternative { IfOk result (λ found. IfSome found (λ p. p.label.alternative ≡ Some alternative)) }
{
    let label = label_for(view, Rule::Split, alternative);
    let depth = view.path().len().saturating_sub(1);
    if !is_stable(alloc, program, depth, inside, known)? {
        return Ok(None);
    }
    let boxes = inside.boxes.as_slice();
    let plan = split_at(alloc, program, view, boxes, alternative, label)?;
    Ok(Some(plan))
}

/// The same of a root box of which it is known that no rule other than Split applies at it or inside it, so that it is
/// stable: nothing inside it needs to be looked at.
pub fn plan_root_split(
    alloc: Global,
    program: &Program,
    view: &View,
    boxes: &[InnerBox],
    alternative: Name,
) -> Result<Plan, AllocError>
    requires program { program.now ≡ view.now.table.program }
    requires root { length view.now.path ≡ 1 }
    requires boxes { AreBoxesOf view.now boxes.now }
    requires candidate { IsCandidate view.now alternative }
    requires still { IsStill view.now }
    ensures split { IfOk result (λ p. IsSplitBy view.now (Some p)) }
    ensures alternative { IfOk result (λ p. p.label.alternative ≡ Some alternative) }
{
    let label = label_for(view, Rule::Split, alternative);
    let plan = split_at(alloc, program, view, boxes, alternative, label)?;
    Ok(plan)
}

// The plan of Split for a stable box, at this alternative, by this label.
fn split_at(
    alloc: Global,
    program: &Program,
    view: &View,
    boxes: &[InnerBox],
    alternative: Name,
    label: Label,
) -> Result<Plan, AllocError>
    requires program { program.now ≡ view.now.table.program }
    requires boxes { AreBoxesOf view.now boxes.now }
    requires candidate { IsCandidate view.now alternative }
    requires stable { (seen : IsViewOf view.now) × IsStable view.now.table.program seen.site }
    requires label { label ≡ record { rule = Rule.Split; place = view.now.place; alternative = Some alternative; worker = view.now.worker } }
    ensures split { IfOk result (λ p. IsSplitBy view.now (Some p)) }
    ensures alternative { IfOk result (λ p. p.label.alternative ≡ Some alternative) }
{
    let path = view.path();
    let depth = path.len().saturating_sub(1);
    let Copied {
        copy,
        copies,
        names,
    } = copies_of(alloc, &program.templates, view, boxes, alternative)?;
    if names > MOST {
        return Err(AllocError);
    }
    let reads = split_reads(alloc, &program.templates, view, &path[..depth], boxes)?;
    let step = Step::Split { copy, copies };
    let plan = Plan::new(alloc, view, label, reads, names, step, Vec::new(alloc))?;
    Ok(plan)
}
