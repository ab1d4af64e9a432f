//! Guards of comparisons that are decided at once.

ghost use Rattle.std.specs.Prelude.{◌≡◌, ◌+◌, ◌<◌, ◌^◌, ◌∷◌, ◌++◌, [], length, IfOk, IfSome};
ghost use Rattle.local_store.specs.Chained.{IsSolvedChain, equations_of};
ghost use Rattle.arith_goals.specs.Answers.{Answers, IsArithmetic};
ghost use Rattle.body_goals.specs.Goals.{template_of};
ghost use Rattle.call_plan.specs.Guarded.{IsGuarded};
ghost use Rattle.call_plan.specs.Owns.{stored, IsPlainOwn};
ghost use Rattle.call_plan.specs.Sifted.{Comes};

use crate::labels::evaluation;
use crate::own::Own;
use crate::within::Within;
use akl_model::Label;
use akl_terms::{Code, Goal, Name};
use arith_goals::{ArithValue, evaluate_over};
use local_store::Chain;
use std::alloc::{AllocError, Global};

/// What is known of a guard's goals: they hold, or one of them fails, or neither is seen at once.
#[derive(Clone, Copy)]
pub(crate) enum Guard {
    Holds,
    Fails,
    Open,
}

// What comes of the goals of a guard under a frame, in an alternative of which it is known that its store is solved over a chain. The labels by
// which they are evaluated come to the list, with the names behind that of the frame.
pub(crate) fn guard_of(
    alloc: Global,
    chain: &Chain,
    own: &Own,
    frame: Name,
    codes: &[Code],
    labels: &mut Vec<Label>,
) -> Result<Guard, AllocError>
    requires solved { IsSolvedChain chain.now.nodes (chain.now.stores ++ stored frame own.now ∷ []) }
    requires plain { IsPlainOwn chain.now.nodes chain.now.stores frame own.now }
    requires numbers { frame.number + length codes.now < 2 ^ 64 }
    ensures { IfOk result (IsGuarded chain.now.symbols chain.now.nodes (chain.now.stores ++ stored frame own.now ∷ []) frame (frame.number + 1) codes.now labels.old.items labels.new.items) }
{
    let mut goal = frame;
    let mut rest = codes;
    while let Some((code, behind)) = rest.split_first() {
        goal.number += 1;
        let Some(holds) = compared(alloc, chain, own, Goal { code: *code, frame })? else {
            return Ok(Guard::Open);
        };
        labels.push(evaluation(goal))?;
        if !holds {
            return Ok(Guard::Fails);
        }
        rest = behind;
    }
    Ok(Guard::Holds)
}

// Whether a goal of an alternative, which is a comparison, holds by what is told down to it; `None` where that isn't known.
fn compared(alloc: Global, chain: &Chain, own: &Own, goal: Goal) -> Result<Option<bool>, AllocError>
    requires solved { IsSolvedChain chain.now.nodes (chain.now.stores ++ stored goal.frame own.now ∷ []) }
    requires plain { IsPlainOwn chain.now.nodes chain.now.stores goal.frame own.now }
    ensures { IfOk result (λ answer. IfSome answer (λ holds. Comes chain.now.symbols chain.now.nodes (chain.now.stores ++ stored goal.frame own.now ∷ []) goal.frame holds goal.code)) }
{
    let Code::Arith { .. } = goal.code else {
        return Ok(None);
    };
    match value_of(alloc, chain, own, goal)? {
        ArithValue::Holds => Ok(Some(true)),
        ArithValue::Fails => Ok(Some(false)),
        ArithValue::Is(_) | ArithValue::Waits { .. } | ArithValue::Never => Ok(None),
    }
}

// What an arithmetic goal of an alternative comes to by what is told down to it.
fn value_of(alloc: Global, chain: &Chain, own: &Own, goal: Goal) -> Result<ArithValue, AllocError>
    requires solved { IsSolvedChain chain.now.nodes (chain.now.stores ++ stored goal.frame own.now ∷ []) }
    requires plain { IsPlainOwn chain.now.nodes chain.now.stores goal.frame own.now }
    requires arithmetic { IsArithmetic goal.code }
    ensures { IfOk result (Answers (template_of chain.now) (equations_of chain.now.nodes (chain.now.stores ++ stored goal.frame own.now ∷ [])) goal) }
{
    let known = Within { around: chain, own };
    evaluate_over(alloc, chain.templates(), &known, goal)
}
