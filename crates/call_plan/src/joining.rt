//! What the alternative of a call that is promoted makes of the box of the call.

ghost use Rattle.std.specs.Prelude.{◌≡◌, ◌+◌, ◌<◌, ◌∷◌, ◌++◌, List, [], length, true, IfOk, IfSome};
ghost use Rattle.local_store.specs.Chained.{bindings_from, innermost, IsKnown};
ghost use Rattle.local_store.specs.Parts.{with_part, told_over};
ghost use Rattle.local_store.specs.Stored.{Stored};
ghost use Rattle.guard_plan.specs.Guards.{KeepsApartInside};
ghost use Rattle.plain_heads.specs.Plain.{ArePlain};
ghost use Rattle.plain_heads.specs.Joined.{own_store};
ghost use Rattle.call_plan.specs.Joins.{Joins, PlainlyJoins, HoldsFor};
ghost use Rattle.call_plan.specs.Owns.{stored, IsPlainOwn, BindsFree, OwnKeepsBound};

use crate::own::Own;
use akl_terms::{Name, Op, Templates, Term, Var};
use entail_test::Quietness;
use guard_plan::{quietness, shared};
use local_store::{Chain, Shared, Store, ToldPart, promoted};
use std::alloc::{AllocError, Global};

// What is added to the innermost store of a path so that it has all that an alternative tells, which is known to be solved with
// them; `None` where its guard doesn't hold: with `->` and `|` it has to be quiet.
pub(crate) fn joined(
    alloc: Global,
    templates: &Templates,
    path: &[Shared<Store>],
    op: Op,
    frame: Name,
    own: Own,
) -> Result<Option<ToldPart>, AllocError>
    requires some { 0 < length path.now }
    requires solved { IsKnown templates.now.nodes (path.now ++ stored frame own ∷ []) (length path.now + 1) }
    requires apart { KeepsApartInside templates.now.nodes (path.now ++ stored frame own ∷ []) }
    requires plain { IsPlainOwn templates.now.nodes path.now frame own }
    ensures joins { IfOk result (λ found. IfSome found (λ told. Joins templates.now.nodes path.now op (stored frame own) (told_over (innermost path.now) told))) }
    ensures free { IfOk result (λ found. IfSome found (λ told. BindsFree path.now own told.bound.items)) }
    ensures kept { IfOk result (λ found. IfSome found (λ told. OwnKeepsBound path.now own (with_part (innermost path.now) told.part))) }
    ensures frames { IfOk result (λ found. IfSome found (λ told. told.part.frames.items ≡ (stored frame own).frames)) }
{
    match own {
        Own::Plain(bindings) => plain_joined(alloc, templates, op, frame, bindings),
        Own::Store(store) => store_joined(alloc, templates, path, op, store),
    }
}

// The same of an alternative that has a frame and plain bindings, which are quiet, for any path.
fn plain_joined(
    alloc: Global,
    templates: &Templates,
    op: Op,
    frame: Name,
    bindings: Vec<(Var, Term)>,
) -> Result<Option<ToldPart>, AllocError>
    ensures joins { IfOk result (λ found. IfSome found (λ told. (path : List Stored) → 0 < length path → ArePlain templates.now.nodes (bindings_from path) frame bindings.items
        → IsKnown templates.now.nodes (path ++ own_store frame bindings.items ∷ []) (length path + 1) → KeepsApartInside templates.now.nodes (path ++ own_store frame bindings.items ∷ [])
        → PlainlyJoins templates.now.nodes path op frame bindings.items (told_over (innermost path) told))) }
    ensures frames { IfOk result (λ found. IfSome found (λ told. told.part.frames.items ≡ frame ∷ [])) }
{
    if let Op::Collect = op {
        return Ok(None);
    }
    let told = plain_heads::joined(alloc, templates, frame, bindings)?;
    Ok(Some(told))
}

// The same of an alternative that has this store.
fn store_joined(
    alloc: Global,
    templates: &Templates,
    path: &[Shared<Store>],
    op: Op,
    own: Shared<Store>,
) -> Result<Option<ToldPart>, AllocError>
    requires some { 0 < length path.now }
    requires solved { IsKnown templates.now.nodes (path.now ++ own ∷ []) (length path.now + 1) }
    requires apart { KeepsApartInside templates.now.nodes (path.now ++ own ∷ []) }
    ensures joins { IfOk result (λ found. IfSome found (λ told. Joins templates.now.nodes path.now op own (told_over (innermost path.now) told))) }
    ensures frames { IfOk result (λ found. IfSome found (λ told. told.part.frames.items ≡ own.frames)) }
{
    let mut stores = shared(alloc, path)?;
    stores.push(own)?;
    let chain = Chain::of_solved(templates, stores.as_slice(), stores.len());
    if !holds(alloc, op, &chain)? {
        return Ok(None);
    }
    let told = promoted(alloc, &chain)?;
    Ok(Some(told))
}

// Whether the guard holds of an alternative whose store is the innermost of a chain that is known to be solved.
fn holds(alloc: Global, op: Op, chain: &Chain) -> Result<bool, AllocError>
    requires { KeepsApartInside chain.now.nodes chain.now.stores }
    ensures { IfOk result (λ holds. holds ≡ true → HoldsFor op chain.now.nodes chain.now.stores) }
{
    match op {
        Op::Choice => Ok(true),
        Op::Condition | Op::Commit => match quietness(alloc, chain)? {
            Quietness::Quiet => Ok(true),
            Quietness::Noisy { .. } => Ok(false),
            Quietness::Inconsistent { .. } => Ok(false),
        },
        Op::Collect => Ok(false),
    }
}
