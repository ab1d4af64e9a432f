//! The goals of a body, in order.

ghost use Rattle.std.specs.Prelude.{◌≡◌, ◌+◌, ◌<◌, ◌^◌, length, true, IfOk};
ghost use Rattle.local_store.specs.Chained.{innermost, around, IsSolvedChain};
ghost use Rattle.local_store.specs.Parts.{told_over};
ghost use Rattle.body_goals.specs.Takes.{with_added};
ghost use Rattle.body_goals.specs.Reduced.{label_of, IsReduced, GoesOn};

use crate::goal::{Reduction, reduce_goal};
use akl_model::{Label, Rule};
use akl_terms::{Code, Goal, Name, Place, Templates};
use local_store::{Chain, Shared, Store, ToldPart};
use std::alloc::{AllocError, Global};

/// What is left of a body, and how many labels reduce the others.
#[derive(Drop)]
pub struct Body {
    /// The goals that are left, in increasing order of names.
    pub goals: Vec<(Name, Goal)>,
    /// How many labels there are up to the last one that tells an equation.
    pub told: u64,
    /// How many labels there are.
    pub behind: u64,
}

/// Reduces goals under a frame in order, which have names of the frame's worker from a number on: those for which one binding
/// or none is enough, by what the stores and what is added to the innermost one tell then. What they tell joins what is added,
/// where the stores are known to be solved with it; else all of them are left. The labels come to the list. An `Err` is want of
/// memory; some of the bindings may have joined then.
pub fn reduce(
    alloc: Global,
    templates: &Templates,
    stores: &[Shared<Store>],
    frame: Name,
    first: u64,
    codes: &[Code],
    told: &mut ToldPart,
    labels: &mut Vec<Label>,
) -> Result<Body, AllocError>
    requires numbers { first + length codes.now < 2 ^ 64 }
    requires solved { told.old.solved ≡ true → IsSolvedChain templates.now.nodes (with_added stores.now told.old.part) }
    ensures reduced { IfOk result (IsReduced templates.now.symbols templates.now.nodes (around stores.now) frame first codes.now (told_over (innermost stores.now) told.old) (told_over (innermost stores.now) told.new) labels.old.items labels.new.items) }
    ensures frames { told.new.part.frames.items ≡ told.old.part.frames.items }
{
    let chain = Chain::new(templates, stores);
    let mut body = Body {
        goals: Vec::with_capacity(alloc, codes.len())?,
        told: 0,
        behind: 0,
    };
    let mut number = first;
    for code in codes {
        let name = Name {
            worker: frame.worker,
            number,
        };
        let goal = Goal { code: *code, frame };
        take_goal(alloc, &chain, name, goal, told, labels, &mut body)?;
        number += 1;
    }
    Ok(body)
}

// Reduces the next goal of a body, or leaves it.
fn take_goal(
    alloc: Global,
    chain: &Chain,
    name: Name,
    goal: Goal,
    told: &mut ToldPart,
    labels: &mut Vec<Label>,
    body: &mut Body,
) -> Result<(), AllocError>
    requires { told.old.solved ≡ true → IsSolvedChain chain.now.nodes (with_added chain.now.stores told.old.part) }
    ensures goes_on { IfOk result (λ _. GoesOn chain.now.symbols chain.now.nodes (around chain.now.stores) name goal (told_over (innermost chain.now.stores) told.old) (told_over (innermost chain.now.stores) told.new) labels.old.items labels.new.items body.old body.new) }
    ensures frames { told.new.part.frames.items ≡ told.old.part.frames.items }
{
    match reduce_goal(alloc, chain, goal, told)? {
        Reduction::Stays => body.goals.push((name, goal))?,
        Reduction::Holds => {
            labels.push(label_of(Rule::Eval, name))?;
            body.behind = after(body.behind)?;
        }
        Reduction::Tells(rule) => {
            labels.push(label_of(rule, name))?;
            body.behind = after(body.behind)?;
            body.told = body.behind;
        }
    }
    Ok(())
}

// The label by which a goal is reduced.
fn label_of(rule: Rule, goal: Name) -> Label
    ensures { result ≡ label_of rule goal }
{
    Label {
        rule,
        place: Place::Goal(goal),
        alternative: None,
        worker: goal.worker,
    }
}

// The number after this one. No memory holds as many labels as there are numbers.
fn after(number: u64) -> Result<u64, AllocError>
    ensures { IfOk result (λ next. next ≡ number + 1) }
{
    number.checked_add(1).ok_or(AllocError)
}
