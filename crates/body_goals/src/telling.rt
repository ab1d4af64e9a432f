//! An equation that is told to a chain.

ghost use Rattle.std.specs.Prelude.{◌≡◌, ◌++◌, ◌∷◌, IfOk};
ghost use Rattle.akl_terms.specs.Template.{tree};
ghost use Rattle.local_store.specs.Chained.{innermost, around, IsSolvedChain};
ghost use Rattle.local_store.specs.Bound.{variable_in};
ghost use Rattle.local_store.specs.Parts.{with_part, told_over};
ghost use Rattle.local_store.specs.Stored.{Stored, with_binding};
ghost use Rattle.body_goals.specs.Takes.{with_added, IsTaken};

use crate::binding::binding_for;
use akl_terms::{Equation, Seen, Templates, Term, Var};
use local_store::{Chain, ToldPart};
use std::alloc::AllocError;

/// Tells an equation to a chain that is solved with what is added to it, where one binding is enough for it. Answers whether
/// it was told.
pub(crate) fn tell(
    chain: &Chain,
    equation: Equation,
    told: &mut ToldPart,
) -> Result<bool, AllocError>
    requires { IsSolvedChain chain.now.nodes (with_added chain.now.stores told.old.part) }
    ensures taken { IfOk result (IsTaken chain.now.nodes (around chain.now.stores) equation (told_over (innermost chain.now.stores) told.old) (told_over (innermost chain.now.stores) told.new)) }
    ensures frames { told.new.part.frames.items ≡ told.old.part.frames.items }
{
    let Some((variable, term)) = binding_for(chain, &told.part, equation) else {
        return Ok(false);
    };
    bind(chain.templates(), variable, term, told)?;
    Ok(true)
}

// Also has a binding, and lists what it binds.
fn bind(
    templates: &Templates,
    variable: Var,
    term: Term,
    told: &mut ToldPart,
) -> Result<(), AllocError>
    ensures part { IfOk result (λ _. (own : Stored) → with_part own told.new.part ≡ with_binding (with_part own told.old.part) variable term) }
    ensures bound { IfOk result (λ _. told.new.bound.items ≡ told.old.bound.items ++ variable ∷ variable_in (tree templates.now.nodes term)) }
    ensures solved { told.new.solved ≡ told.old.solved }
    ensures frames { told.new.part.frames.items ≡ told.old.part.frames.items }
{
    told.part.bindings.push((variable, term))?;
    told.bound.push(variable)?;
    if let Seen::Free(other) = templates.look(term) {
        told.bound.push(other)?;
    }
    Ok(())
}
