//! What calls the definitions of a program.

ghost use Rattle.std.specs.Prelude.{IfOk, map};
ghost use Rattle.clause_keys.specs.Keys.{called_by};
ghost use Rattle.clause_checks.specs.Tallies.{SameCallees};

use akl_terms::Definition;
use clause_keys::Callees;
use std::alloc::{AllocError, Global};

/// What calls the definitions, each once, whether or not several are called by the same.
pub fn callees_of(alloc: Global, definitions: &[Definition]) -> Result<Callees, AllocError>
    ensures { IfOk result (λ callees. SameCallees callees (map called_by definitions.now)) }
{
    // The numbers of definitions are of 32 bits.
    if definitions.len() >= 4294967295 {
        return Err(AllocError);
    }
    let mut callees = Callees::new(alloc);
    for definition in definitions {
        callees.add_definition(definition)?;
    }
    Ok(callees)
}
