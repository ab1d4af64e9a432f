//! Plans at goals.

ghost use Rattle.std.specs.Prelude.{◌≡◌, [], IfOk};
ghost use Rattle.akl_terms.specs.declared.name.Place.{Place};
ghost use Rattle.local_store.specs.Stored.{Stored, with_port};
ghost use Rattle.local_store.specs.Parts.{with_part};
ghost use Rattle.local_store.specs.Chained.{innermost, replaced};
ghost use Rattle.box_tree.specs.Plans.{labels_behind};
ghost use Rattle.rule_plan.specs.AtGoals.{IsRightAt, IsToldRightly, TellsRightly};
ghost use Rattle.guard_plan.specs.Planned.{IsPlannedBy};
ghost use Rattle.guard_plan.specs.Solved.{SaysSolved, IsKnownWith};

use akl_model::Rule;
use akl_terms::{Equation, Name, Program, Templates, Term, Var};
use box_tree::{Plan, Step, View};
use class_members::members;
use guard_plan::{label_of, reads_of};
use local_store::{Part, ToldPart, told};
use std::alloc::{AllocError, Global};

// The plan of a rule at a goal, which binds these variables.
pub(crate) fn goal_plan(
    alloc: Global,
    templates: &Templates,
    view: &View,
    goal: Name,
    rule: Rule,
    names: u64,
    step: Step,
    binds: Vec<Var>,
) -> Result<Option<Plan>, AllocError>
    requires nodes { templates.now.nodes ≡ view.now.table.program.templates.nodes }
    requires place { view.now.place ≡ Place.Goal goal }
    requires right { IsRightAt view.now rule goal names step binds.items }
    requires alone { labels_behind step ≡ (0, 0) }
    requires solved { SaysSolved view.now rule step }
    ensures { IfOk result (IsPlannedBy view.now) }
{
    let reads = reads_of(alloc, templates, view, goal, binds.as_slice())?;
    let label = label_of(view, rule);
    let plan = Plan::new(alloc, view, label, reads, names, step, binds)?;
    Ok(Some(plan))
}

// The plan of a rule that tells an equation to the box of its goal.
pub(crate) fn telling_plan(
    alloc: Global,
    program: &Program,
    view: &View,
    goal: Name,
    rule: Rule,
    equation: Equation,
) -> Result<Option<Plan>, AllocError>
    requires program { program.now ≡ view.now.table.program }
    requires place { view.now.place ≡ Place.Goal goal }
    requires right { TellsRightly view.now rule goal equation }
    ensures { IfOk result (IsPlannedBy view.now) }
{
    let answer = told(alloc, &view.chain(&program.templates), &[equation])?;
    told_plan(alloc, program, view, goal, rule, 0, answer)
}

// The plan of a rule that draws so many names, by which the part of an answer is added to the store of the box of its goal.
pub(crate) fn told_plan(
    alloc: Global,
    program: &Program,
    view: &View,
    goal: Name,
    rule: Rule,
    names: u64,
    answer: ToldPart,
) -> Result<Option<Plan>, AllocError>
    requires program { program.now ≡ view.now.table.program }
    requires place { view.now.place ≡ Place.Goal goal }
    requires right { IsToldRightly view.now rule goal names answer }
    requires solved { IsKnownWith view.now (replaced view.now.stores (with_part (innermost view.now.stores) answer.part)) answer.solved }
    ensures { IfOk result (IsPlannedBy view.now) }
{
    let ToldPart {
        part,
        solved,
        bound,
    } = answer;
    let chain = view.chain(&program.templates);
    let binds = members(alloc, &chain, bound.as_slice())?;
    let step = Step::Tell { part, solved };
    goal_plan(
        alloc,
        &program.templates,
        view,
        goal,
        rule,
        names,
        step,
        binds,
    )
}

// A port is added too, to a part that has none.
pub(crate) fn add_port(part: &mut Part, port: Name, tail: Term) -> Result<(), AllocError>
    requires { part.old.ports.items ≡ [] }
    ensures { IfOk result (λ _. (s : Stored) → with_part s part.new ≡ with_port (with_part s part.old) port tail) }
{
    part.ports.push((port, tail))?;
    Ok(())
}
