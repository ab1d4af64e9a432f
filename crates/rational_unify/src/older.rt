//! Bindings that lead from younger variables to older ones.

ghost use Rattle.std.specs.Prelude.{◌≡◌, ◌↔◌, IsTrue};
ghost use Rattle.rational_unify.specs.Older.{IsToOlder, EachOlder};

use akl_terms::{Seen, Templates, Term, Var};

/// Whether each of these bindings that binds a variable to a variable binds it to an older one.
pub fn leads_older(templates: &Templates, bindings: &[(Var, Term)]) -> bool
    ensures { IsTrue result ↔ EachOlder templates.now.nodes bindings.now }
{
    for binding in bindings {
        if !is_to_older(templates, binding.0, binding.1) {
            return false;
        }
    }
    true
}

// Whether the term is no variable, or an older one.
fn is_to_older(templates: &Templates, variable: Var, term: Term) -> bool
    ensures { IsTrue result ↔ IsToOlder templates.now.nodes (variable, term) }
{
    match templates.look(term) {
        Seen::Free(other) => other < variable,
        _ => true,
    }
}
