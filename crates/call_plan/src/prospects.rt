//! Whether a call may go at once, by what its arguments begin with.

ghost use Rattle.local_store.specs.Chained.{IsSolvedChain};

use crate::heads::Arguments;
use akl_terms::{Clause, Code, Name, Op, Seen, Term, Var};
use local_store::Chain;
use rational_unify::chain_end;

// How a clause's head stands to the arguments of a call, by what these begin with.
#[derive(Clone, Copy)]
pub(crate) enum Fit {
    Clashes,
    // An argument is still this variable, where the head isn't one.
    Waits(Var),
    Fits,
}

// How what an argument begins with stands to what the head has in its place.
fn fit_between(argument: Seen, head: Seen) -> Fit {
    if let Seen::Free(_) = head {
        return Fit::Fits;
    }
    if let Seen::Free(variable) = argument {
        return Fit::Waits(variable);
    }
    match (argument, head) {
        (Seen::Int(left), Seen::Int(right)) if left == right => Fit::Fits,
        (
            Seen::Struct {
                symbol: left,
                count: left_count,
                ..
            },
            Seen::Struct {
                symbol: right,
                count: right_count,
                ..
            },
        ) if left == right && left_count == right_count => Fit::Fits,
        _ => Fit::Clashes,
    }
}

// What a node under a frame begins with, by the stores of a chain that is solved.
pub(crate) fn known_at(chain: &Chain, node: u32, frame: Name) -> Seen
    requires { IsSolvedChain chain.now.nodes chain.now.stores }
{
    let templates = chain.templates();
    templates.look(chain_end(templates, chain, Term::Mol { node, frame }))
}

// How a clause's head stands to the arguments of a call over a chain that is solved, where the first of them are known to end in
// these terms. Of the arguments that are still variables, where the head isn't one, the last is told.
pub(crate) fn fit_of(chain: &Chain, arguments: Arguments, ends: &[Term], clause: &Clause) -> Fit
    requires { IsSolvedChain chain.now.nodes chain.now.stores }
{
    let frame = arguments.frame;
    let mut fit = Fit::Fits;
    for index in 0..arguments.count.min(clause.count) {
        let node = clause.first.saturating_add(index);
        let head = chain.templates().look(Term::Mol { node, frame });
        if let Seen::Free(_) = head {
            continue;
        }
        let argument = match ends.get(index as usize) {
            Some(end) => chain.templates().look(*end),
            None => known_at(chain, arguments.first.saturating_add(index), frame),
        };
        match fit_between(argument, head) {
            Fit::Clashes => return Fit::Clashes,
            Fit::Waits(variable) => fit = Fit::Waits(variable),
            Fit::Fits => {}
        }
    }
    fit
}

// Whether the goals of a guard are comparisons, which may be decided at once.
fn has_comparisons_alone(clause: &Clause) -> bool {
    clause
        .guard
        .as_slice()
        .iter()
        .all(|code| matches!(code, Code::Arith { .. }))
}

// The same where the first clause that is left goes, with `->` and `|`.
fn first_may_go(chain: &Chain, arguments: Arguments, ends: &[Term], clauses: &[Clause]) -> bool
    requires { IsSolvedChain chain.now.nodes chain.now.stores }
{
    for clause in clauses {
        match fit_of(chain, arguments, ends, clause) {
            Fit::Clashes => {}
            Fit::Waits(_) => return false,
            Fit::Fits => return has_comparisons_alone(clause),
        }
    }
    false
}

// The same where the one that is left has to be the only one, with `?`.
fn only_one_may_go(chain: &Chain, arguments: Arguments, ends: &[Term], clauses: &[Clause]) -> bool
    requires { IsSolvedChain chain.now.nodes chain.now.stores }
{
    let mut left = 0usize;
    for clause in clauses {
        if !matches!(fit_of(chain, arguments, ends, clause), Fit::Clashes)
            && clause.guard.is_empty()
        {
            left = left.saturating_add(1);
        }
    }
    left <= 1
}

// Whether it may be seen at once which clause of a call is left. It is a quick look, which spares those who look closely all
// the calls that have to wait or to be split.
pub(crate) fn may_go(
    chain: &Chain,
    arguments: Arguments,
    ends: &[Term],
    op: Op,
    clauses: &[Clause],
) -> bool
    requires { IsSolvedChain chain.now.nodes chain.now.stores }
{
    match op {
        Op::Condition | Op::Commit => first_may_go(chain, arguments, ends, clauses),
        Op::Choice => only_one_may_go(chain, arguments, ends, clauses),
        Op::Collect => false,
    }
}
