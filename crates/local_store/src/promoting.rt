//! A box whose store joins that of the box around it.
ghost use Rattle.std.specs.Prelude.{◌≡◌, ◌<◌, ◌-◌, [], length, min, IfOk};
ghost use Rattle.rational_unify.specs.Known.{IsSolved};
ghost use Rattle.local_store.specs.Chained.{innermost, around};
ghost use Rattle.local_store.specs.Telling.{IsUntold};
ghost use Rattle.local_store.specs.Stored.{Stored};
ghost use Rattle.local_store.specs.Parts.{with_part, told_over, SameNames};
ghost use Rattle.local_store.specs.Promoting.{Joins, JoinsChain, AnswersPromoted};

use crate::binding::bound_over;
use crate::chain::Chain;
use crate::part::Part;
use crate::store::Store;
use crate::telling::ToldPart;
use akl_terms::{Templates, Term, Var};
use rational_unify::{AddedBindings, Form, Lookup, leads_older};
use smallvec::SmallVec;
use std::alloc::{AllocError, Global};

/// What is added to the store of the box around the innermost one, so that it has all that the innermost store has: frames,
/// ports and bindings. Its flag says whether it is known to be solved over the stores around it: those and the store itself
/// were known to be solved together, what the innermost store has is consistent with them, and each of its bindings leads to
/// an older variable. What it says to be bound is what the innermost store binds or makes equal over the stores around it.
pub fn promoted(alloc: Global, chain: &Chain) -> Result<ToldPart, AllocError>
    requires { 1 < length chain.now.stores }
    ensures promoted { IfOk result (λ t. AnswersPromoted chain.now.nodes chain.now.stores chain.now.known (told_over (innermost (around chain.now.stores)) t)) }
    ensures frames { IfOk result (λ t. t.part.frames.items ≡ (innermost chain.now.stores).frames) }
    ensures ports { IfOk result (λ t. t.part.ports.items ≡ (innermost chain.now.stores).ports) }
{
    let stores = chain.stores();
    let own = stores[stores.len() - 1].get();
    let mut told = ToldPart::of(alloc, names_of(alloc, own)?);
    let bindings = own.bindings()?;
    join_innermost(alloc, chain, bindings.as_slice(), &mut told)?;
    Ok(told)
}

// The frames and ports of a store.
fn names_of(alloc: Global, store: &Store) -> Result<Part, AllocError>
    ensures frames { IfOk result (λ p. p.frames.items ≡ store.now.frames) }
    ensures ports { IfOk result (λ p. p.ports.items ≡ store.now.ports) }
    ensures bindings { IfOk result (λ p. p.bindings.items ≡ []) }
{
    Ok(Part {
        frames: SmallVec::from_vec(store.frames()?),
        ports: store.ports()?,
        bindings: Vec::new(alloc),
    })
}

// The bindings of the innermost store join the part: as they stand where the whole chain is known to be solved,
// as they are then what is found for them over the stores around.
fn join_innermost(
    alloc: Global,
    chain: &Chain,
    bindings: &[(Var, Term)],
    told: &mut ToldPart,
) -> Result<(), AllocError>
    requires some { 0 < length chain.now.stores }
    requires own { bindings.now ≡ (innermost chain.now.stores).bindings }
    requires untold { IsUntold told.old }
    ensures joins { IfOk result (λ _. (s : Stored) → JoinsChain chain.now.nodes (around chain.now.stores) (min (length chain.now.stores - 1) chain.now.known) bindings.now
        (with_part s told.old.part) (told_over s told.new)) }
    ensures names { SameNames told.old.part told.new.part }
{
    let count = chain.stores().len();
    if chain.known() == count {
        told.solved = true;
        return told.add(chain.templates(), chain, bindings);
    }
    join_chain(alloc, &chain.outer(count - 1), bindings, told)
}

// What is found for bindings over a chain joins the part, where the chain is known to be solved, and else they join as they
// stand.
fn join_chain(
    alloc: Global,
    outer: &Chain,
    bindings: &[(Var, Term)],
    told: &mut ToldPart,
) -> Result<(), AllocError>
    requires { IsUntold told.old }
    ensures joins { IfOk result (λ _. (s : Stored) → JoinsChain outer.now.nodes outer.now.stores outer.now.known bindings.now (with_part s told.old.part) (told_over s told.new)) }
    ensures names { SameNames told.old.part told.new.part }
{
    if outer.known() == outer.stores().len() {
        return join(alloc, outer.templates(), outer, bindings, told);
    }
    told.part.bindings.extend_from_slice(bindings)?;
    bound_over(alloc, outer, bindings, &mut told.bound)
}

// What is found for bindings over a solved form joins the part, with what they bind; the flag says whether each of them
// leads to an older variable. Where they are inconsistent with it, they join as they stand.
fn join<K: Lookup>(
    alloc: Global,
    templates: &Templates,
    known: &K,
    bindings: &[(Var, Term)],
    told: &mut ToldPart,
) -> Result<(), AllocError>
    requires solved { IsSolved templates.now.nodes (K.bindings known.now) }
    requires untold { IsUntold told.old }
    ensures joins { IfOk result (λ _. (s : Stored) → Joins templates.now.nodes (K.bindings known.now) bindings.now (with_part s told.old.part) (with_part s told.new.part) told.new.solved told.new.bound.items) }
    ensures names { SameNames told.old.part told.new.part }
{
    let mut form = Form {
        known,
        added: AddedBindings::new(alloc),
    };
    match form.take(alloc, templates, bindings)? {
        Some(_) => {
            told.part.bindings.extend_from_slice(bindings)?;
            Ok(())
        }
        None => {
            told.solved = leads_older(templates, bindings);
            told.add(templates, &form, form.added.as_slice())
        }
    }
}
