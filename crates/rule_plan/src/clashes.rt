//! Clashes that are told to a store.

ghost use Rattle.std.specs.Prelude.{◌≡◌, IfOk, IsTrue};
ghost use Rattle.akl_terms.specs.Equal.{IsConsistentBy};
ghost use Rattle.local_store.specs.Chained.{ToldBy, innermost};
ghost use Rattle.rule_plan.specs.Clashes.{differ_in_head};

use akl_terms::Seen;
use local_store::{CLASHING, Chain, Store};
use std::alloc::AllocError;

// Whether the innermost store of a chain has a clash that was told to it, which needs no solution.
pub(crate) fn has_clash(chain: &Chain) -> Result<bool, AllocError>
    ensures { IfOk result (λ clash. IsTrue clash → IsConsistentBy (ToldBy chain.now.nodes chain.now.stores) → ⊥) }
{
    let Some(own) = chain.stores().last() else {
        return Ok(false);
    };
    let store = own.get();
    if store.first_binding(CLASHING).is_none() {
        return Ok(false);
    }
    clash_among(chain, store)
}

// Whether the first two bindings of a chain's innermost store are of one variable, to terms that differ in head.
fn clash_among(chain: &Chain, own: &Store) -> Result<bool, AllocError>
    requires { own.now ≡ innermost chain.now.stores }
    ensures { IfOk result (λ clash. IsTrue clash → IsConsistentBy (ToldBy chain.now.nodes chain.now.stores) → ⊥) }
{
    let templates = chain.templates();
    let bindings = own.bindings()?;
    match bindings.as_slice() {
        [first, second, ..] => {
            if first.0 != second.0 {
                return Ok(false);
            }
            let left = templates.look(first.1);
            let right = templates.look(second.1);
            Ok(differ(left, right))
        }
        _ => Ok(false),
    }
}

// Whether what two terms begin with are heads that differ.
fn differ(left: Seen, right: Seen) -> bool
    ensures { result ≡ differ_in_head left right }
{
    match left {
        Seen::Free(_) => false,
        Seen::Int(number) => match right {
            Seen::Free(_) => false,
            Seen::Int(other) => number != other,
            _ => true,
        },
        Seen::Port(port) => match right {
            Seen::Free(_) => false,
            Seen::Port(other) => port != other,
            _ => true,
        },
        Seen::Struct { symbol, count, .. } => match right {
            Seen::Free(_) => false,
            Seen::Struct {
                symbol: other,
                count: others,
                ..
            } => symbol != other || count != others,
            _ => true,
        },
    }
}
