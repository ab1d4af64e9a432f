//! The labels of a call behind its first one.

ghost use Rattle.std.specs.Prelude.{◌≡◌, ◌++◌, None, Some, IfOk};
ghost use Rattle.akl_terms.specs.declared.name.Place.{Place};
ghost use Rattle.akl_model.specs.declared.label.Rule.{Rule};
ghost use Rattle.plan_laws.specs.AtOnce.{by};
ghost use Rattle.call_plan.specs.Ended.{cuts_others, end_labels};
ghost use Rattle.call_plan.specs.Sifted.{evaluation};

use akl_model::{Label, Rule};
use akl_terms::{Clause, Name, Op, Place};
use std::alloc::AllocError;

// The label by which the box of an alternative fails.
pub(crate) fn failing(name: Name) -> Label
    ensures { result ≡ by name.worker Rule.Fail (Place.Box name) None }
{
    Label {
        rule: Rule::Fail,
        place: Place::Box(name),
        alternative: None,
        worker: name.worker,
    }
}

// The label by which a goal of a guard is evaluated.
pub(crate) fn evaluation(goal: Name) -> Label
    ensures { result ≡ evaluation goal.worker goal.number }
{
    Label {
        rule: Rule::Eval,
        place: Place::Goal(goal),
        alternative: None,
        worker: goal.worker,
    }
}

// Whether alternatives are cut that stand behind one that is promoted.
pub(crate) fn cuts_others(op: Op, behind: &[Clause]) -> bool
    ensures { result ≡ cuts_others op behind.now }
{
    match op {
        Op::Choice => false,
        Op::Condition | Op::Commit | Op::Collect => !behind.is_empty(),
    }
}

// Also has the labels by which an alternative is promoted, where others stand to its right after they were cut.
pub(crate) fn push_end(
    labels: &mut Vec<Label>,
    goal: Name,
    alternative: Name,
    others: bool,
) -> Result<(), AllocError>
    ensures { IfOk result (λ _. labels.new.items ≡ labels.old.items ++ end_labels goal alternative others) }
{
    if others {
        labels.push(choosing(Rule::Cut, goal, alternative))?;
    }
    labels.push(choosing(Rule::Promote, goal, alternative))?;
    Ok(())
}

// The label of a rule that chooses an alternative of a goal.
fn choosing(rule: Rule, goal: Name, alternative: Name) -> Label
    ensures { result ≡ by alternative.worker rule (Place.Goal goal) (Some alternative) }
{
    Label {
        rule,
        place: Place::Goal(goal),
        alternative: Some(alternative),
        worker: alternative.worker,
    }
}
