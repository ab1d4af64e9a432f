//! What alternatives have together joins the store of their choice's box.

ghost use Rattle.std.specs.Prelude.{◌≡◌, ◌+◌, ◌<◌, ◌^◌, ◌++◌, ◌∷◌, [], length, IfOk};
ghost use Rattle.local_store.specs.Stored.{nothing, with_bindings};
ghost use Rattle.local_store.specs.Parts.{told_over};
ghost use Rattle.local_store.specs.Chained.{innermost};
ghost use Rattle.local_store.specs.Telling.{AnswersTold};
ghost use Rattle.local_store.specs.Promoting.{AnswersPromoted};
ghost use Rattle.guard_plan.specs.Collecting.{frames_of, ports_of, bindings_of, IsToldInner, IsJoined};

use crate::guards::shared;
use akl_terms::{Equation, Name, Term};
use box_tree::Alternative;
use local_store::{Chain, Part, Shared, Store, ToldPart, promoted, told};
use smallvec::SmallVec;
use std::alloc::{AllocError, Global};

// What is added to the innermost store of a chain so that it has all that alternatives have, and these equations; with new
// frames from this one on, one for each alternative.
pub(crate) fn joined_part(
    alloc: Global,
    around: &Chain,
    first: Name,
    alternatives: &[Alternative],
    equations: &[Equation],
) -> Result<ToldPart, AllocError>
    requires some { 0 < length around.now.stores }
    requires numbers { first.number + length alternatives.now < 2 ^ 64 }
    ensures joined { IfOk result (λ t. IsJoined around.now.nodes around.now.stores around.now.known alternatives.now
        (frames_of first.worker first.number alternatives.now) equations.now (told_over (innermost around.now.stores) t)) }
    ensures frames { IfOk result (λ t. t.part.frames.items ≡ frames_of first.worker first.number alternatives.now) }
{
    let inner = inner_store(alloc, around, alternatives, equations)?;
    let mut told = joined(alloc, around, inner)?;
    set_names(alloc, &mut told.part, first, alternatives)?;
    Ok(told)
}

// The part has the frames and ports of alternatives, with a new frame for each, in place of its own.
fn set_names(
    alloc: Global,
    part: &mut Part,
    first: Name,
    alternatives: &[Alternative],
) -> Result<(), AllocError>
    requires { first.number + length alternatives.now < 2 ^ 64 }
    ensures frames { IfOk result (λ _. part.new.frames.items ≡ frames_of first.worker first.number alternatives.now) }
    ensures ports { IfOk result (λ _. part.new.ports.items ≡ ports_of alternatives.now) }
    ensures bindings { part.new.bindings ≡ part.old.bindings }
{
    part.frames = SmallVec::from_vec(frames_of(alloc, first, alternatives)?);
    part.ports = ports_of(alloc, alternatives)?;
    Ok(())
}

// The bindings of alternatives in a store over a chain, to which equations are told.
fn inner_store(
    alloc: Global,
    around: &Chain,
    alternatives: &[Alternative],
    equations: &[Equation],
) -> Result<Shared<Store>, AllocError>
    ensures { IfOk result (IsToldInner around.now.nodes around.now.stores around.now.known alternatives.now equations.now) }
{
    let mut inner = Shared::new(alloc, bindings_of(alloc, alternatives)?)?;
    let ToldPart { part, .. } = told_inside(alloc, around, &inner, equations)?;
    inner.join(part)?;
    Ok(inner)
}

/// What is added to a store inside the innermost one of a chain where these equations are told to it.
pub fn told_inside(
    alloc: Global,
    around: &Chain,
    inner: &Shared<Store>,
    equations: &[Equation],
) -> Result<ToldPart, AllocError>
    ensures { IfOk result (λ t. AnswersTold around.now.nodes (around.now.stores ++ inner.now ∷ []) around.now.known equations.now (told_over inner.now t)) }
{
    let mut stores = shared(alloc, around.stores())?;
    stores.push(inner.share()?)?;
    let chain = Chain::of_solved(around.templates(), stores.as_slice(), around.known());
    told(alloc, &chain, equations)
}

// What is added to the innermost store of a chain so that it has all that a store inside it has.
fn joined(alloc: Global, around: &Chain, inner: Shared<Store>) -> Result<ToldPart, AllocError>
    requires { 0 < length around.now.stores }
    ensures { IfOk result (λ t. AnswersPromoted around.now.nodes (around.now.stores ++ inner ∷ []) around.now.known (told_over (innermost around.now.stores) t)) }
{
    let mut stores = shared(alloc, around.stores())?;
    stores.push(inner)?;
    let chain = Chain::of_solved(around.templates(), stores.as_slice(), around.known());
    promoted(alloc, &chain)
}

// A store that has the bindings of alternatives, and nothing else.
fn bindings_of(alloc: Global, alternatives: &[Alternative]) -> Result<Store, AllocError>
    ensures { IfOk result (λ store. store ≡ with_bindings nothing (bindings_of alternatives.now)) }
{
    let mut store = Store::new(alloc);
    for alternative in alternatives {
        let bindings = alternative.store.get().bindings()?;
        store.add_all(bindings.as_slice())?;
    }
    Ok(store)
}

// The frames of alternatives, behind each its new frame, from this one on.
fn frames_of(
    alloc: Global,
    first: Name,
    alternatives: &[Alternative],
) -> Result<Vec<Name>, AllocError>
    requires { first.number + length alternatives.now < 2 ^ 64 }
    ensures { IfOk result (λ frames. frames.items ≡ frames_of first.worker first.number alternatives.now) }
{
    let mut all = Vec::new(alloc);
    let mut frame = first;
    for alternative in alternatives {
        let mut frames = alternative.store.get().frames()?;
        all.append(&mut frames)?;
        all.push(frame)?;
        frame.number += 1;
    }
    Ok(all)
}

fn ports_of(alloc: Global, alternatives: &[Alternative]) -> Result<Vec<(Name, Term)>, AllocError>
    ensures { IfOk result (λ ports. ports.items ≡ ports_of alternatives.now) }
{
    let mut all = Vec::new(alloc);
    for alternative in alternatives {
        let mut ports = alternative.store.get().ports()?;
        all.append(&mut ports)?;
    }
    Ok(all)
}
