//! New stores over a chain, to which equations are told.

ghost use Rattle.std.specs.Prelude.{◌≡◌, ◌≢◌, length, IfOk};
ghost use Rattle.local_store.specs.Chained.{IsSolvedChain};
ghost use Rattle.rule_plan.specs.Made.{store_with, with_solved, is_added, IsNewStore};

use akl_terms::{Equation, Name};
use guard_plan::told_inside;
use local_store::{Chain, Shared, Store, ToldPart};
use rational_unify::{Solved, solve_only};
use std::alloc::{AllocError, Global};

// A new store with the frame over the stores of a chain, to which the equations are told, and whether the chain is known
// to be solved with it.
pub(crate) fn new_store(
    alloc: Global,
    chain: &Chain,
    frame: Name,
    equations: &[Equation],
) -> Result<(Shared<Store>, bool), AllocError>
    ensures { IfOk result (λ r. IsNewStore chain.now.nodes chain.now.stores chain.now.known frame equations.now r.0 r.1) }
{
    if chain.known() == chain.stores().len() {
        return over_solved(alloc, chain, frame, equations);
    }
    over_others(alloc, chain, frame, equations)
}

// The same over stores that are known to be solved together.
fn over_solved(
    alloc: Global,
    chain: &Chain,
    frame: Name,
    equations: &[Equation],
) -> Result<(Shared<Store>, bool), AllocError>
    requires known { chain.now.known ≡ length chain.now.stores }
    requires solved { IsSolvedChain chain.now.nodes chain.now.stores }
    ensures { IfOk result (λ r. IsNewStore chain.now.nodes chain.now.stores chain.now.known frame equations.now r.0 r.1) }
{
    let solved = solve_only(alloc, chain.templates(), chain, equations)?;
    let mut store = Store::new(alloc);
    store.add_frame(frame)?;
    let consistent = add_solved(&mut store, &solved)?;
    let store = Shared::new(alloc, store)?;
    Ok((store, consistent))
}

// A store also has what was found for equations. Answers whether they are consistent.
fn add_solved(store: &mut Store, solved: &Solved) -> Result<bool, AllocError>
    ensures store { IfOk result (λ _. store.new ≡ with_solved store.old solved.now) }
    ensures consistent { IfOk result (λ consistent. consistent ≡ is_added solved.now) }
{
    match solved {
        Solved::Added(bindings) => {
            store.add_all(bindings.as_slice())?;
            Ok(true)
        }
        Solved::Clash { left, right } => {
            store.add_clash(*left, *right)?;
            Ok(false)
        }
    }
}

// The same over stores that aren't all known to be solved together.
fn over_others(
    alloc: Global,
    chain: &Chain,
    frame: Name,
    equations: &[Equation],
) -> Result<(Shared<Store>, bool), AllocError>
    requires { chain.now.known ≢ length chain.now.stores }
    ensures { IfOk result (λ r. IsNewStore chain.now.nodes chain.now.stores chain.now.known frame equations.now r.0 r.1) }
{
    let mut store = frame_store(alloc, frame)?;
    let ToldPart { part, .. } = told_inside(alloc, chain, &store, equations)?;
    store.join(part)?;
    Ok((store, false))
}

// A store that has the frame alone.
fn frame_store(alloc: Global, frame: Name) -> Result<Shared<Store>, AllocError>
    ensures { IfOk result (λ s. s ≡ store_with frame) }
{
    Shared::new(alloc, Store::new(alloc).with_frame(frame)?)
}
