//! What solved forms tell variables from outside.
ghost use Rattle.std.specs.Prelude.{◌≡◌, ◌∷◌, [], IfOk, filter, map};
ghost use Rattle.rational_unify.specs.Known.{IsSolved};
ghost use Rattle.entail_test.specs.Classes.{AreClasses, AreEnds, is_noisy, noisy_end};

use crate::met::MetVariables;
use akl_terms::{Templates, Var};
use rational_unify::{Lookup, variable_end};
use std::alloc::{AllocError, Global};

/// A class of variables of the environment: one of its variables, and the variables at the ends
/// of its chain in the environment and in the whole. `end` is `None` where another term is there.
#[derive(Clone, Copy, Debug, PartialEq, Eq)]
pub struct Class {
    pub member: Var,
    pub root: Var,
    pub end: Option<Var>,
}

/// The candidates, one of each class that the whole makes structured, or equal to another class.
pub fn touched<K: Lookup, W: Lookup>(
    alloc: Global,
    templates: &Templates,
    known: &K,
    whole: &W,
    candidates: &[Var],
) -> Result<Vec<Var>, AllocError>
    requires known { IsSolved templates.now.nodes (K.bindings known.now) }
    requires whole { IsSolved templates.now.nodes (W.bindings whole.now) }
    ensures { IfOk result (λ on. (cs : _) × AreClasses templates.now.nodes (K.bindings known.now) (W.bindings whole.now) candidates.now cs
        × (on.items ≡ map (λ c. c.member) (filter (λ c. is_noisy cs c) cs))) }
{
    match *candidates {
        [] => Ok(Vec::new(alloc)),
        [member] => touched_alone(alloc, templates, known, whole, member),
        _ => touched_among(alloc, templates, known, whole, candidates),
    }
}

// As `touched`, of one candidate: its class ends where no other one does.
fn touched_alone<K: Lookup, W: Lookup>(
    alloc: Global,
    templates: &Templates,
    known: &K,
    whole: &W,
    member: Var,
) -> Result<Vec<Var>, AllocError>
    requires known { IsSolved templates.now.nodes (K.bindings known.now) }
    requires whole { IsSolved templates.now.nodes (W.bindings whole.now) }
    ensures { IfOk result (λ on. (cs : _) × AreClasses templates.now.nodes (K.bindings known.now) (W.bindings whole.now) (member ∷ []) cs
        × (on.items ≡ map (λ c. c.member) (filter (λ c. is_noisy cs c) cs))) }
{
    let Some(_) = variable_end(templates, known, member) else {
        return Ok(Vec::new(alloc));
    };
    match variable_end(templates, whole, member) {
        Some(_) => Ok(Vec::new(alloc)),
        None => Vec::from_slice(alloc, &[member]),
    }
}

// As `touched`, of any candidates.
fn touched_among<K: Lookup, W: Lookup>(
    alloc: Global,
    templates: &Templates,
    known: &K,
    whole: &W,
    candidates: &[Var],
) -> Result<Vec<Var>, AllocError>
    requires known { IsSolved templates.now.nodes (K.bindings known.now) }
    requires whole { IsSolved templates.now.nodes (W.bindings whole.now) }
    ensures { IfOk result (λ on. (cs : _) × AreClasses templates.now.nodes (K.bindings known.now) (W.bindings whole.now) candidates.now cs
        × (on.items ≡ map (λ c. c.member) (filter (λ c. is_noisy cs c) cs))) }
{
    let classes = classes_of(alloc, templates, known, whole, candidates)?;
    noisy_among(alloc, classes.as_slice())
}

// The classes of the candidates.
fn classes_of<K: Lookup, W: Lookup>(
    alloc: Global,
    templates: &Templates,
    known: &K,
    whole: &W,
    candidates: &[Var],
) -> Result<Vec<Class>, AllocError>
    requires known { IsSolved templates.now.nodes (K.bindings known.now) }
    requires whole { IsSolved templates.now.nodes (W.bindings whole.now) }
    ensures { IfOk result (λ classes. AreClasses templates.now.nodes (K.bindings known.now) (W.bindings whole.now) candidates.now classes.items) }
{
    let mut classes = Vec::new(alloc);
    let mut roots = MetVariables::new(alloc);
    for member in candidates {
        if let Some(root) = variable_end(templates, known, *member) {
            if !roots.meet(root)? {
                classes.push(Class {
                    member: *member,
                    root,
                    end: variable_end(templates, whole, *member),
                })?;
            }
        }
    }
    Ok(classes)
}

// The variables in which classes end, and whether more than one class ends there.
fn ends_of(alloc: Global, classes: &[Class]) -> Result<MetVariables, AllocError>
    ensures { IfOk result (λ ends. AreEnds ends classes.now) }
{
    let mut ends = MetVariables::new(alloc);
    for class in classes {
        if let Some(end) = class.end {
            ends.meet(end)?;
        }
    }
    Ok(ends)
}

// The members of the classes that are noisy.
fn noisy_among(alloc: Global, classes: &[Class]) -> Result<Vec<Var>, AllocError>
    ensures { IfOk result (λ on. on.items ≡ map (λ c. c.member) (filter (λ c. is_noisy classes.now c) classes.now)) }
{
    let ends = ends_of(alloc, classes)?;
    noisy_members(alloc, classes, &ends)
}

// These members, by where the classes end.
fn noisy_members(
    alloc: Global,
    classes: &[Class],
    ends: &MetVariables,
) -> Result<Vec<Var>, AllocError>
    requires { AreEnds ends.now classes.now }
    ensures { IfOk result (λ on. on.items ≡ map (λ c. c.member) (filter (λ c. is_noisy classes.now c) classes.now)) }
{
    let mut on = Vec::new(alloc);
    for class in classes {
        if is_noisy(ends, class.end) {
            on.push(class.member)?;
        }
    }
    Ok(on)
}

// Whether a class with this end is structured in the whole, or ends where another one does.
fn is_noisy(ends: &MetVariables, end: Option<Var>) -> bool
    ensures { (cs : _) → AreEnds ends.now cs → result ≡ noisy_end cs end }
{
    match end {
        None => true,
        Some(end) => ends.again(end).unwrap_or(false),
    }
}
