//! The one binding by which an equation holds.

ghost use Rattle.std.specs.Prelude.{IfSome};
ghost use Rattle.akl_terms.specs.Template.{IsArranged};
ghost use Rattle.rational_unify.specs.Older.{IsToOlder};
ghost use Rattle.local_store.specs.Chained.{IsSolvedChain};
ghost use Rattle.body_goals.specs.Takes.{with_added};
ghost use Rattle.body_goals.specs.Binds.{MakesOne, Binds};

use crate::within::Within;
use akl_terms::{Equation, Seen, Templates, Term, Var};
use local_store::{Chain, Part};
use rational_unify::chain_end;

/// The binding by which an equation holds over a chain and a part that is added to it, which are solved together; `None` where
/// it takes none, or more than one.
pub(crate) fn binding_for(chain: &Chain, part: &Part, equation: Equation) -> Option<(Var, Term)>
    requires { IsSolvedChain chain.now.nodes (with_added chain.now.stores part.now) }
    ensures { IfSome result (Binds chain.now.nodes (with_added chain.now.stores part.now) equation) }
{
    let templates = chain.templates();
    let known = Within { chain, part };
    let left = chain_end(templates, &known, equation.left);
    let right = chain_end(templates, &known, equation.right);
    one_binding(templates, left, right)
}

// The binding that makes two terms one, of which the one is a variable and the other another term.
fn one_binding(templates: &Templates, left: Term, right: Term) -> Option<(Var, Term)>
    ensures binds { IfSome result (MakesOne templates.now.nodes left right) }
    ensures older { IfSome result (IsToOlder templates.now.nodes) }
    ensures arranged { IsArranged templates.now.nodes }
{
    let seen = templates.look(left);
    let other = templates.look(right);
    match seen {
        Seen::Free(x) => match other {
            Seen::Free(y) if x == y => None,
            Seen::Free(y) if x < y => Some((y, left)),
            _ => Some((x, right)),
        },
        _ => match other {
            Seen::Free(y) => Some((y, left)),
            _ => None,
        },
    }
}
