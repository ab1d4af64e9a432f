//! Where the port of a send is.

ghost use Rattle.std.specs.Prelude.{◌≡◌, is_some};
ghost use Rattle.std.specs.Map.{lookup};
ghost use Rattle.akl_terms.specs.Names.{same_name};
ghost use Rattle.local_store.specs.Chained.{IsFormChain, innermost};
ghost use Rattle.port_goals.specs.Sends.{IsSend, IsStateOf, EndsIn};

use akl_terms::{Code, Goal, Name, Seen, Term, Var};
use local_store::Chain;
use rational_unify::chain_end;

/// What the port operand of a send is under the equations of a chain.
#[derive(Clone, Copy, Debug, PartialEq, Eq)]
pub enum SendState {
    /// A port that the innermost store has.
    Owned(Name),
    /// A port that the innermost store doesn't have: one of another box.
    Elsewhere(Name),
    /// The operand's class isn't structured; the variable stands for it.
    Waits { on: Var },
    /// A term with a head that is no port.
    NoPort,
}

/// What the port operand of a send is under the equations that a chain's stores tell: what its chain
/// of bindings ends in. It takes no memory.
pub fn sendable(chain: &Chain, goal: Goal) -> SendState
    requires solved { IsFormChain chain.now.nodes chain.now.stores }
    requires send { IsSend goal.code }
    ensures state { IsStateOf chain.now.nodes chain.now.stores goal result }
    ensures end { EndsIn chain.now.nodes chain.now.stores goal result }
{
    let Code::Send { message: _, port } = goal.code else {
        // Not where the goal is a send.
        return SendState::NoPort;
    };
    let templates = chain.templates();
    let operand = Term::Mol {
        node: port,
        frame: goal.frame,
    };
    match templates.look(chain_end(templates, chain, operand)) {
        Seen::Free(on) => SendState::Waits { on },
        Seen::Port(port) if is_owned(chain, port) => SendState::Owned(port),
        Seen::Port(port) => SendState::Elsewhere(port),
        _ => SendState::NoPort,
    }
}

/// Whether the innermost store has the port.
fn is_owned(chain: &Chain, port: Name) -> bool
    ensures { result ≡ is_some (lookup (same_name port) (innermost chain.now.stores).ports) }
{
    match chain.stores().last() {
        Some(store) => store.get().port_tail(port).is_some(),
        None => false,
    }
}
