//! Plans of Eval.

ghost use Rattle.std.specs.Prelude.{◌≡◌, ◌++◌, ◌∷◌, [], IfOk};
ghost use Rattle.akl_terms.specs.declared.name.Place.{Place};
ghost use Rattle.akl_terms.specs.declared.program.Code.{Code};
ghost use Rattle.akl_model.specs.declared.label.Rule.{Rule};
ghost use Rattle.box_tree.specs.declared.view.Sight.{Sight};
ghost use Rattle.box_tree.specs.Views.{IsViewOf};
ghost use Rattle.box_tree.specs.Plans.{labels_behind};
ghost use Rattle.guard_plan.specs.declared.guards.Noise.{Noise};
ghost use Rattle.guard_plan.specs.Noisy.{IsTriedBy};
ghost use Rattle.guard_plan.specs.Planned.{IsPlannedBy};
ghost use Rattle.guard_plan.specs.Solved.{SaysSolved};
ghost use Rattle.rule_plan.specs.AtGoals.{IsRightAt};

use crate::at_goals::{goal_plan, telling_plan};
use akl_model::Rule;
use akl_terms::{Code, Equation, Goal, Name, Program, Templates, Term, Test, Var};
use arith_goals::{ArithValue, evaluate};
use box_tree::{Plan, Step, View};
use guard_plan::Noise;
use local_store::{Consistency, consistent};
use std::alloc::{AllocError, Global};

/// An arithmetic goal of two nodes under a frame.
#[derive(Clone, Copy)]
pub(crate) struct Arithmetic {
    pub(crate) test: Test,
    pub(crate) left: u32,
    pub(crate) right: u32,
    pub(crate) frame: Name,
}

// The plan for what an arithmetic goal comes to; `None` where it comes to nothing yet or never, or what is told to its
// box is inconsistent. The variable on which it waits comes to the noise.
pub(crate) fn eval(
    alloc: Global,
    program: &Program,
    view: &View,
    goal: Name,
    arithmetic: Arithmetic,
    noise: &mut Vec<Noise>,
) -> Result<Option<Plan>, AllocError>
    requires program { program.now ≡ view.now.table.program }
    requires place { view.now.place ≡ Place.Goal goal }
    requires sight { view.now.sight ≡ Sight.Atom (record { code = Code.Arith arithmetic.test arithmetic.left arithmetic.right; frame = arithmetic.frame }) }
    requires seen { IsViewOf view.now }
    requires silent { noise.old.items ≡ [] }
    ensures { IfOk result (IsTriedBy view.now noise.new.items) }
{
    let chain = view.chain(&program.templates);
    let Consistency::Consistent = consistent(alloc, &chain)? else {
        return Ok(None);
    };
    let Arithmetic {
        test,
        left,
        right,
        frame,
    } = arithmetic;
    let code = Code::Arith { test, left, right };
    match evaluate(alloc, &chain, Goal { code, frame })? {
        ArithValue::Is(value) => {
            let equation = Equation {
                left: Term::Mol { node: left, frame },
                right: Term::Int(value),
            };
            telling_plan(alloc, program, view, goal, Rule::Eval, equation)
        }
        ArithValue::Holds => eval_plan(alloc, &program.templates, view, goal, Step::Confirm),
        ArithValue::Fails => eval_plan(alloc, &program.templates, view, goal, Step::Refute),
        ArithValue::Waits { on } => {
            push_awaited(alloc, on, noise)?;
            Ok(None)
        }
        ArithValue::Never => Ok(None),
    }
}

// A variable that is waited on comes to the end of the noise.
fn push_awaited(alloc: Global, on: Var, noise: &mut Vec<Noise>) -> Result<(), AllocError>
    ensures { IfOk result (λ _. (n : Noise) × (n.on.items ≡ on ∷ []) × (noise.new.items ≡ noise.old.items ++ n ∷ [])) }
{
    let on = Vec::from_slice(alloc, &[on])?;
    noise.push(Noise { on })?;
    Ok(())
}

// The plan of Eval with a step that tells nothing.
fn eval_plan(
    alloc: Global,
    templates: &Templates,
    view: &View,
    goal: Name,
    step: Step,
) -> Result<Option<Plan>, AllocError>
    requires nodes { templates.now.nodes ≡ view.now.table.program.templates.nodes }
    requires place { view.now.place ≡ Place.Goal goal }
    requires right { IsRightAt view.now Rule.Eval goal 0 step [] }
    requires alone { labels_behind step ≡ (0, 0) }
    requires solved { SaysSolved view.now Rule.Eval step }
    ensures { IfOk result (IsPlannedBy view.now) }
{
    let binds = Vec::new(alloc);
    goal_plan(alloc, templates, view, goal, Rule::Eval, 0, step, binds)
}
