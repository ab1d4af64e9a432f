//! Whether guards hold, by the stores down to an alternative.

ghost use Rattle.std.specs.Prelude.{◌≡◌, ◌-◌, ◌++◌, ◌∷◌, [], IfOk, IsTrue, ◌↔◌, MatchOption, length};
ghost use Rattle.std.specs.List.{AllByRecursion};
ghost use Rattle.entail_test.specs.Asked.{Answers};
ghost use Rattle.guard_plan.specs.Guards.{KeepsApartInside, IsQuietInside, HoldsInside, IsTestable, HasQuiet, AreAllSolved, AreQuietOver};
ghost use Rattle.guard_plan.specs.Noisy.{AddsNoise, AddsGuardNoise, AreNoisy, HasNoise};

use akl_terms::{Name, Templates, Var};
use box_tree::{Alternative, HeldOp};
use entail_test::{Quietness, quiet};
use local_store::{Chain, Consistency, Shared, Store, consistent};
use std::alloc::{AllocError, Global};

// One less than the number of names that are too many for one label.
pub(crate) const MOST: u64 = 4294967295;

/// What a solved alternative touches that is consistent with the stores around it, but isn't quiet: one variable from
/// outside of each class. Or the variable on which an arithmetic goal waits.
#[derive(Drop)]
pub struct Noise {
    pub on: Vec<Var>,
}

// Whether the guard of a solved alternative holds, whose store is the innermost of a chain. What it touches otherwise
// comes to the end of the noise.
pub(crate) fn guard_holds(
    alloc: Global,
    op: HeldOp,
    chain: &Chain,
    noise: &mut Vec<Noise>,
) -> Result<bool, AllocError>
    requires { KeepsApartInside chain.now.nodes chain.now.stores }
    ensures holds { IfOk result (λ holds. IsTrue holds ↔ HoldsInside op chain.now.nodes chain.now.stores) }
    ensures noise { IfOk result (λ _. AddsGuardNoise op chain.now.nodes chain.now.stores noise.old.items noise.new.items) }
{
    match op {
        HeldOp::Choice => match consistent(alloc, chain)? {
            Consistency::Consistent => Ok(true),
            Consistency::Clash { .. } => Ok(false),
        },
        HeldOp::Condition | HeldOp::Commit => is_quiet(alloc, chain, noise),
        HeldOp::Collect(_) => Ok(false),
    }
}

// Whether the innermost store of a chain is quiet under the others. What it touches otherwise comes to the end of the
// noise.
fn is_quiet(alloc: Global, chain: &Chain, noise: &mut Vec<Noise>) -> Result<bool, AllocError>
    requires { KeepsApartInside chain.now.nodes chain.now.stores }
    ensures holds { IfOk result (λ holds. IsTrue holds ↔ IsQuietInside chain.now.nodes chain.now.stores) }
    ensures noise { IfOk result (λ _. AddsNoise chain.now.nodes chain.now.stores noise.old.items noise.new.items) }
{
    match quietness(alloc, chain)? {
        Quietness::Quiet => Ok(true),
        Quietness::Noisy { on } => {
            noise.push(Noise { on })?;
            Ok(false)
        }
        Quietness::Inconsistent { .. } => Ok(false),
    }
}

/// What the innermost store of a chain tells the variables from outside of it, also where those around it are
/// inconsistent.
pub fn quietness(alloc: Global, chain: &Chain) -> Result<Quietness, AllocError>
    requires { KeepsApartInside chain.now.nodes chain.now.stores }
    ensures { IfOk result (Answers chain.now.nodes chain.now.stores (length chain.now.stores - 1)) }
{
    quiet(alloc, chain)
}

// The first of these alternatives that is solved and quiet under the stores of a path. What the others touch comes to
// the noise.
pub(crate) fn first_quiet(
    alloc: Global,
    templates: &Templates,
    path: &[Shared<Store>],
    candidates: &[Alternative],
    noise: &mut Vec<Noise>,
) -> Result<Option<Name>, AllocError>
    requires testable { AllByRecursion (IsTestable templates.now.nodes path.now) candidates.now }
    requires silent { noise.old.items ≡ [] }
    ensures { IfOk result (λ found. MatchOption found
        (AreNoisy templates.now.nodes path.now candidates.now noise.new.items)
        (HasQuiet templates.now.nodes path.now candidates.now)) }
{
    let mut stores = shared(alloc, path)?;
    for candidate in candidates {
        if candidate.solved {
            if is_quiet_over(alloc, templates, &mut stores, candidate, noise)? {
                return Ok(Some(candidate.name));
            }
        }
    }
    Ok(None)
}

// Whether one of these alternatives has this name, is solved, and is quiet under the stores of a path.
pub(crate) fn has_quiet(
    alloc: Global,
    templates: &Templates,
    path: &[Shared<Store>],
    candidates: &[Alternative],
    name: Name,
) -> Result<bool, AllocError>
    requires testable { AllByRecursion (IsTestable templates.now.nodes path.now) candidates.now }
    ensures { IfOk result (λ quiet. IsTrue quiet → HasQuiet templates.now.nodes path.now candidates.now name) }
{
    for candidate in candidates {
        if candidate.name == name {
            if candidate.solved {
                let mut stores = shared(alloc, path)?;
                let mut noise = Vec::new(alloc);
                return is_quiet_over(alloc, templates, &mut stores, candidate, &mut noise);
            }
        }
    }
    Ok(false)
}

// Whether an alternative is quiet under the stores of a path, which stay. What it touches otherwise comes to the end of
// the noise.
fn is_quiet_over(
    alloc: Global,
    templates: &Templates,
    path: &mut Vec<Shared<Store>>,
    candidate: &Alternative,
    noise: &mut Vec<Noise>,
) -> Result<bool, AllocError>
    requires { IsTestable templates.now.nodes path.old.items candidate.now }
    ensures path { IfOk result (λ _. path.new.items ≡ path.old.items) }
    ensures holds { IfOk result (λ holds. IsTrue holds ↔ IsQuietInside templates.now.nodes (path.old.items ++ candidate.now.store ∷ [])) }
    ensures noise { IfOk result (λ _. AddsNoise templates.now.nodes (path.old.items ++ candidate.now.store ∷ []) noise.old.items noise.new.items) }
{
    path.push(candidate.store.share()?)?;
    let chain = Chain::of_solved(templates, path.as_slice(), candidate.known);
    let holds = is_quiet(alloc, &chain, noise)?;
    path.pop();
    Ok(holds)
}

// Whether these alternatives, which are solved, are quiet under the stores of a path. What they touch otherwise comes to
// the noise.
pub(crate) fn are_quiet(
    alloc: Global,
    templates: &Templates,
    path: &[Shared<Store>],
    alternatives: &[Alternative],
    noise: &mut Vec<Noise>,
) -> Result<bool, AllocError>
    requires testable { AllByRecursion (IsTestable templates.now.nodes path.now) alternatives.now }
    requires solved { AreAllSolved alternatives.now }
    requires silent { noise.old.items ≡ [] }
    ensures quiet { IfOk result (λ quiet. IsTrue quiet ↔ AreQuietOver templates.now.nodes path.now alternatives.now) }
    ensures noise { IfOk result (λ _. HasNoise templates.now.nodes path.now alternatives.now noise.new.items) }
{
    let mut stores = shared(alloc, path)?;
    let mut quiet = true;
    for alternative in alternatives {
        if !is_quiet_over(alloc, templates, &mut stores, alternative, noise)? {
            quiet = false;
        }
    }
    Ok(quiet)
}

/// The same stores again.
pub fn shared(alloc: Global, path: &[Shared<Store>]) -> Result<Vec<Shared<Store>>, AllocError>
    ensures { IfOk result (λ stores. stores.items ≡ path.now) }
{
    let mut stores = Vec::new(alloc);
    for store in path {
        stores.push(store.share()?)?;
    }
    Ok(stores)
}
