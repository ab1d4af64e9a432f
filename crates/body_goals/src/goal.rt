//! One goal of a body.

ghost use Rattle.std.specs.Prelude.{◌≡◌, true, IfOk};
ghost use Rattle.local_store.specs.Chained.{innermost, around, IsSolvedChain, equations_of};
ghost use Rattle.local_store.specs.Parts.{told_over};
ghost use Rattle.arith_goals.specs.Answers.{IsArithmetic, Answers};
ghost use Rattle.body_goals.specs.Takes.{with_added};
ghost use Rattle.body_goals.specs.Goals.{IsReduction, IsToldBy, template_of};

use crate::telling::tell;
use crate::within::Within;
use akl_model::Rule;
use akl_terms::{Code, Equation, Goal, Term};
use arith_goals::{ArithValue, evaluate_over};
use local_store::{Chain, Part, ToldPart};
use std::alloc::{AllocError, Global};

/// What becomes of a goal.
#[derive(Clone, Copy)]
pub enum Reduction {
    /// By the rule it tells its box an equation, and goes.
    Tells(Rule),
    /// It is a comparison that holds, and goes.
    Holds,
    /// It stays.
    Stays,
}

/// Reduces a goal, where the chain is known to be solved with what is added and one binding or none is enough for the goal.
pub(crate) fn reduce_goal(
    alloc: Global,
    chain: &Chain,
    goal: Goal,
    told: &mut ToldPart,
) -> Result<Reduction, AllocError>
    requires { told.old.solved ≡ true → IsSolvedChain chain.now.nodes (with_added chain.now.stores told.old.part) }
    ensures reduces { IfOk result (IsReduction chain.now.symbols chain.now.nodes (around chain.now.stores) goal (told_over (innermost chain.now.stores) told.old) (told_over (innermost chain.now.stores) told.new)) }
    ensures frames { told.new.part.frames.items ≡ told.old.part.frames.items }
{
    if !told.solved {
        return Ok(Reduction::Stays);
    }
    let frame = goal.frame;
    match goal.code {
        Code::Equal { left, right } => {
            let equation = Equation {
                left: Term::Mol { node: left, frame },
                right: Term::Mol { node: right, frame },
            };
            tell_by(chain, Rule::Tell, equation, told)
        }
        Code::Arith { left, .. } => match value_of(alloc, chain, &told.part, goal)? {
            ArithValue::Is(value) => {
                let equation = Equation {
                    left: Term::Mol { node: left, frame },
                    right: Term::Int(value),
                };
                tell_by(chain, Rule::Eval, equation, told)
            }
            ArithValue::Holds => Ok(Reduction::Holds),
            _ => Ok(Reduction::Stays),
        },
        _ => Ok(Reduction::Stays),
    }
}

// Tells an equation by a rule, where one binding is enough for it.
fn tell_by(
    chain: &Chain,
    rule: Rule,
    equation: Equation,
    told: &mut ToldPart,
) -> Result<Reduction, AllocError>
    requires { IsSolvedChain chain.now.nodes (with_added chain.now.stores told.old.part) }
    ensures tells { IfOk result (IsToldBy chain.now.nodes (around chain.now.stores) rule equation (told_over (innermost chain.now.stores) told.old) (told_over (innermost chain.now.stores) told.new)) }
    ensures frames { told.new.part.frames.items ≡ told.old.part.frames.items }
{
    if tell(chain, equation, told)? {
        Ok(Reduction::Tells(rule))
    } else {
        Ok(Reduction::Stays)
    }
}

// What an arithmetic goal comes to over a chain that is solved with the part that is added to it.
fn value_of(alloc: Global, chain: &Chain, part: &Part, goal: Goal) -> Result<ArithValue, AllocError>
    requires solved { IsSolvedChain chain.now.nodes (with_added chain.now.stores part.now) }
    requires arithmetic { IsArithmetic goal.code }
    ensures { IfOk result (Answers (template_of chain.now) (equations_of chain.now.nodes (with_added chain.now.stores part.now)) goal) }
{
    let known = Within { chain, part };
    evaluate_over(alloc, chain.templates(), &known, goal)
}
