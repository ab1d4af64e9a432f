//! Few equations, solved in one pass that keeps no list of what it compared or followed.

ghost use Rattle.std.specs.Prelude.{◌≡◌, ◌++◌, List, [], None, IfOk, IfSome};
ghost use Rattle.akl_terms.specs.declared.name.Var.{Var};
ghost use Rattle.akl_terms.specs.declared.term.Term.{Term};
ghost use Rattle.akl_terms.specs.Template.{IsArranged, tree};
ghost use Rattle.rational_unify.specs.Known.{IsSolved, end_of, next_in};
ghost use Rattle.rational_unify.specs.Older.{KeepsOlder, AddsOlder};
ghost use Rattle.rational_unify.specs.Passing.{IsTurn};
ghost use Rattle.rational_unify.specs.Shortened.{KeepsEnds};
ghost use Rattle.rational_unify.specs.Solving.{BindNew, Solves};

use crate::added::AddedBindings;
use crate::chain::{Together, chain_end};
use crate::known::Lookup;
use crate::meet::{Meeting, compare};
use crate::pending::Pending;
use crate::solver::Solved;
use akl_terms::{Equation, Templates, Term};
use std::alloc::{AllocError, Global};

/// Most equations are fewer, and lead to fewer pairs of arguments. A pass shortens no chain on its way, so it is for few
/// of both.
const PAIRS: u32 = 32;

/// As `solve_only`; `None` where there are more than `PAIRS` equations, or more than `PAIRS` pairs of arguments would have
/// to be compared.
pub fn solve_few<K: Lookup>(
    alloc: Global,
    templates: &Templates,
    known: &K,
    equations: &[Equation],
) -> Result<Option<Solved>, AllocError>
    requires known { IsSolved templates.now.nodes (K.bindings known.now) }
    ensures solves { IfOk result (λ found. IfSome found (Solves templates.now.nodes (K.bindings known.now) equations.now)) }
    ensures older { IfOk result (λ found. IfSome found (AddsOlder templates.now.nodes (K.bindings known.now))) }
{
    if equations.len() > PAIRS as usize {
        return Ok(None);
    }
    let mut pass = Pass::of(alloc, equations);
    while let Some(pair) = pass.pending.pop() {
        let ends = ends_of(templates, known, &pass.added, pair);
        match take_turn(templates, &mut pass, ends)? {
            Turn::Taken => {}
            Turn::Clash => {
                return Ok(Some(Solved::Clash {
                    left: ends.left,
                    right: ends.right,
                }));
            }
            Turn::Unsure => return Ok(None),
        }
    }
    shorten(templates, known, &mut pass.added);
    Ok(Some(Solved::Added(pass.added)))
}

/// What the pass keeps from equation to equation.
#[derive(Drop)]
struct Pass<'a> {
    added: AddedBindings,
    pending: Pending<'a>,
    // How many more pairs of arguments are compared at most.
    pairs_left: u32,
}

impl<'a> Pass<'a> {
    /// What the pass begins with.
    fn of(alloc: Global, equations: &'a [Equation]) -> Pass<'a>
        ensures { (result.added ≡ []) × (result.pending ≡ equations.now) }
    {
        Pass {
            added: AddedBindings::new(alloc),
            pending: Pending::of(alloc, equations),
            pairs_left: PAIRS,
        }
    }
}

/// What became of two terms at the ends of their chains.
#[derive(Clone, Copy)]
enum Turn {
    /// They are equal, or are made so by a binding, or their arguments wait.
    Taken,
    /// They differ in head.
    Clash,
    /// They have more arguments than may be compared.
    Unsure,
}

/// The ends of the chains of an equation's terms.
#[inline(always)]
fn ends_of<K: Lookup>(
    templates: &Templates,
    known: &K,
    added: &AddedBindings,
    pair: Equation,
) -> Equation
    requires { IsSolved templates.now.nodes (K.bindings known.now ++ added.now) }
    ensures left { tree templates.now.nodes result.left ≡ end_of templates.now.nodes (K.bindings known.now ++ added.now) (tree templates.now.nodes pair.left) }
    ensures right { tree templates.now.nodes result.right ≡ end_of templates.now.nodes (K.bindings known.now ++ added.now) (tree templates.now.nodes pair.right) }
{
    let together = Together { known, added };
    Equation {
        left: chain_end(templates, &together, pair.left),
        right: chain_end(templates, &together, pair.right),
    }
}

/// Takes one equation on, of terms at the ends of their chains.
fn take_turn(templates: &Templates, pass: &mut Pass<'_>, ends: Equation) -> Result<Turn, AllocError>
    requires left { next_in templates.now.nodes pass.old.added ends.left ≡ None }
    requires right { next_in templates.now.nodes pass.old.added ends.right ≡ None }
    ensures arranged { IfOk result (λ _. IsArranged templates.now.nodes) }
    ensures turn { IfOk result (IsTurn templates.now.nodes ends pass.old pass.new) }
    ensures older { IfOk result (λ _. (known : List (Var × Term)) → KeepsOlder templates.now.nodes (known ++ pass.old.added) (known ++ pass.new.added)) }
{
    match compare(templates, ends.left, ends.right) {
        Meeting::Same => Ok(Turn::Taken),
        Meeting::Differ => Ok(Turn::Clash),
        Meeting::Bind(variable, term) => {
            pass.added.push(variable, term)?;
            Ok(Turn::Taken)
        }
        Meeting::Agree(pairs) => {
            let Some(pairs_left) = pass.pairs_left.checked_sub(pairs.count) else {
                return Ok(Turn::Unsure);
            };
            pass.pairs_left = pairs_left;
            pairs.push_to(&mut pass.pending)?;
            Ok(Turn::Taken)
        }
    }
}

/// Binds each added variable to the end of its chain.
fn shorten<K: Lookup>(templates: &Templates, known: &K, added: &mut AddedBindings)
    requires solved { IsSolved templates.now.nodes (K.bindings known.now ++ added.old) }
    requires fresh { BindNew (K.bindings known.now) added.old }
    ensures ends { KeepsEnds templates.now.nodes (K.bindings known.now) added.old added.new }
    ensures older { KeepsOlder templates.now.nodes (K.bindings known.now ++ added.old) (K.bindings known.now ++ added.new) }
{
    // The last binding leads to an end, as none was added after it.
    let last = added.as_slice().len().saturating_sub(1);
    for place in 0..last {
        let Some(binding) = added.as_slice().get(place) else {
            return;
        };
        let (variable, term) = *binding;
        let end = chain_end(templates, &Together { known, added }, term);
        added.rebind(variable, end);
    }
}
