//! The variable that stands in the way of a call.

ghost use Rattle.std.specs.Prelude.{◌≡◌};
ghost use Rattle.local_store.specs.Chained.{IsSolvedChain};

use crate::heads::Arguments;
use crate::prospects::{Fit, fit_of, known_at};
use akl_terms::{Clause, Code, Op, Program, Seen, Term, Var};
use box_tree::View;
use local_store::Chain;

/// The variable that stands in the way of a call with `->` or `|`, at the place of a view: it isn't known yet which clause is
/// left, and may be once this is bound. `None` where no such variable is found. It is a quick look, on which the order of
/// labels alone hangs.
pub fn waits_for(
    program: &Program,
    view: &View,
    definition: u32,
    arguments: Arguments,
) -> Option<Var>
    requires { program.now ≡ view.now.table.program }
{
    let called = program.definitions.as_slice().get(definition as usize)?;
    let chain = view.chain(&program.templates);
    if chain.known() != chain.stores().len() {
        return None;
    }
    match called.op {
        Op::Condition | Op::Commit => first_waits(&chain, arguments, called.clauses.as_slice()),
        Op::Choice | Op::Collect => None,
    }
}

// The variable that stands in the way of the first clause that is left.
fn first_waits(chain: &Chain, arguments: Arguments, clauses: &[Clause]) -> Option<Var>
    requires { IsSolvedChain chain.now.nodes chain.now.stores }
{
    for clause in clauses {
        match fit_of(chain, arguments, &[], clause) {
            Fit::Clashes => {}
            Fit::Waits(variable) => return Some(variable),
            Fit::Fits => return guard_waits(chain, arguments, clause),
        }
    }
    None
}

// The variable that stands in the way of a guard, if its first goal is a comparison with an argument that is still a variable.
fn guard_waits(chain: &Chain, arguments: Arguments, clause: &Clause) -> Option<Var>
    requires { IsSolvedChain chain.now.nodes chain.now.stores }
{
    let Code::Arith { left, right, .. } = *clause.guard.as_slice().first()? else {
        return None;
    };
    match argument_waits(chain, arguments, clause, left) {
        Some(variable) => Some(variable),
        None => argument_waits(chain, arguments, clause, right),
    }
}

// The variable that an argument of a call still is, where the head's is the one that a node of its clause is.
fn argument_waits(chain: &Chain, arguments: Arguments, clause: &Clause, node: u32) -> Option<Var>
    requires { IsSolvedChain chain.now.nodes chain.now.stores }
{
    let frame = arguments.frame;
    let templates = chain.templates();
    let Seen::Free(asked) = templates.look(Term::Mol { node, frame }) else {
        return None;
    };
    for index in 0..arguments.count.min(clause.count) {
        let node = clause.first.saturating_add(index);
        let Seen::Free(own) = templates.look(Term::Mol { node, frame }) else {
            continue;
        };
        if own == asked {
            return match known_at(chain, arguments.first.saturating_add(index), frame) {
                Seen::Free(variable) => Some(variable),
                _ => None,
            };
        }
    }
    None
}
