//! The solver.

ghost use Rattle.std.specs.Prelude.{◌≡◌, ◌<◌, ◌^◌, ◌++◌, List, [], None, IfOk, MatchOption, length};
ghost use Rattle.akl_terms.specs.declared.name.Var.{Var};
ghost use Rattle.akl_terms.specs.declared.term.Term.{Term};
ghost use Rattle.akl_terms.specs.Template.{IsArranged};
ghost use Rattle.rational_unify.specs.Known.{IsSolved, next_in};
ghost use Rattle.rational_unify.specs.Older.{KeepsOlder, AddsOlder};
ghost use Rattle.rational_unify.specs.Meeting.{Advances, AgreeInHead, Clashes};
ghost use Rattle.rational_unify.specs.Solving.{BindNew, Solves};
ghost use Rattle.rational_unify.specs.Followed.{Settles, SolvesAlong, SolvesAlso};

use crate::added::AddedBindings;
use crate::chain::{Followed, follow};
use crate::compared::Compared;
use crate::known::Lookup;
use crate::meet::{Meeting, compare};
use crate::one_pass::solve_few;
use crate::pending::Pending;
use akl_terms::{Equation, Templates, Term, Var};
use std::alloc::{AllocError, Global};

/// Bindings, or a clash.
#[derive(Drop)]
pub enum Solved {
    /// The known bindings and the equations are consistent. With these bindings, of variables that
    /// had none, the known ones are a solved form of both.
    Added(AddedBindings),
    /// They are inconsistent: they make these two terms equal, whose heads differ.
    Clash { left: Term, right: Term },
}

/// What `solve` found, and the variables whose known bindings it read, some of them more than
/// once.
#[derive(Drop)]
pub struct Solution {
    pub solved: Solved,
    pub followed: Followed,
}

/// Solves equations over known bindings, by rational trees: there is no occurs check.
///
/// The known bindings must be a solved form: no chain of bindings from variable to variable
/// returns to its start. `Clash` comes exactly where they and the equations together are
/// inconsistent. The answer holds too over any other solved form that gives each followed variable
/// what the known bindings give it. Where the known bindings lead from younger variables to older
/// ones, so do all together.
///
/// Of the terms that are found to be equal one stands for all (after G. Huet's thesis of 1976), so
/// no more terms are compared than there are symbols in them.
pub fn solve<K: Lookup>(
    alloc: Global,
    templates: &Templates,
    known: &K,
    equations: &[Equation],
) -> Result<Solution, AllocError>
    requires known { IsSolved templates.now.nodes (K.bindings known.now) }
    ensures solves { IfOk result (λ s. Solves templates.now.nodes (K.bindings known.now) equations.now s.solved) }
    ensures followed { IfOk result (λ s. SolvesAlso templates.now.nodes (K.bindings known.now) equations.now s) }
    ensures older { IfOk result (λ s. AddsOlder templates.now.nodes (K.bindings known.now) s.solved) }
{
    let mut followed = Followed::new(alloc);
    let solved = solved_along(alloc, templates, known, equations, &mut followed)?;
    Ok(Solution { solved, followed })
}

/// As `solve`, without the variables that were followed.
pub fn solve_only<K: Lookup>(
    alloc: Global,
    templates: &Templates,
    known: &K,
    equations: &[Equation],
) -> Result<Solved, AllocError>
    requires known { IsSolved templates.now.nodes (K.bindings known.now) }
    ensures solves { IfOk result (Solves templates.now.nodes (K.bindings known.now) equations.now) }
    ensures older { IfOk result (AddsOlder templates.now.nodes (K.bindings known.now)) }
{
    if let Some(solved) = solve_few(alloc, templates, known, equations)? {
        return Ok(solved);
    }
    let mut followed = Followed::new(alloc);
    solved_along(alloc, templates, known, equations, &mut followed)
}

/// What is found for equations. All variables whose known bindings are read are put at the end of a list.
fn solved_along<K: Lookup>(
    alloc: Global,
    templates: &Templates,
    known: &K,
    equations: &[Equation],
    followed: &mut Followed,
) -> Result<Solved, AllocError>
    requires known { IsSolved templates.now.nodes (K.bindings known.now) }
    ensures followed { IfOk result (λ solved. SolvesAlong templates.now.nodes (K.bindings known.now) equations.now followed.new.items solved) }
    ensures older { IfOk result (λ solved. AddsOlder templates.now.nodes (K.bindings known.now) solved) }
{
    let mut work = Work::of(alloc, equations);
    while let Some(pair) = work.pending.pop() {
        let added = &mut work.added;
        let left = follow(templates, known, added, followed, pair.left)?;
        let right = follow(templates, known, added, followed, pair.right)?;
        if let Some(clash) = advance(templates, &mut work, Equation { left, right })? {
            return Ok(Solved::Clash {
                left: clash.left,
                right: clash.right,
            });
        }
    }
    settle(templates, known, &mut work.added, followed)?;
    Ok(Solved::Added(work.added))
}

/// What the solver keeps from equation to equation.
#[derive(Drop)]
struct Work<'a> {
    added: AddedBindings,
    pending: Pending<'a>,
    compared: Compared,
}

impl<'a> Work<'a> {
    /// What the solver begins with.
    fn of(alloc: Global, equations: &'a [Equation]) -> Work<'a>
        ensures { (result.added ≡ []) × (result.pending ≡ equations.now) × (result.compared ≡ []) }
    {
        Work {
            added: AddedBindings::new(alloc),
            pending: Pending::of(alloc, equations),
            compared: Compared::new(alloc),
        }
    }
}

/// Takes one equation on, of terms at the ends of their chains. `Some` gives two terms of different
/// heads that it makes equal.
fn advance(
    templates: &Templates,
    work: &mut Work<'_>,
    pair: Equation,
) -> Result<Option<Equation>, AllocError>
    requires left { next_in templates.now.nodes work.old.added pair.left ≡ None }
    requires right { next_in templates.now.nodes work.old.added pair.right ≡ None }
    requires compared { AgreeInHead templates.now.nodes work.old.compared }
    ensures arranged { IfOk result (λ _. IsArranged templates.now.nodes) }
    ensures turn { IfOk result (λ found. MatchOption found
        (Advances templates.now.nodes pair work.old work.new)
        (λ clash. Clashes templates.now.nodes pair work.old clash)) }
    ensures older { IfOk result (λ _. (known : List (Var × Term)) → KeepsOlder templates.now.nodes (known ++ work.old.added) (known ++ work.new.added)) }
{
    let left = work.compared.last_of(pair.left);
    let right = work.compared.last_of(pair.right);
    match compare(templates, left, right) {
        Meeting::Same => Ok(None),
        Meeting::Differ => Ok(Some(Equation { left, right })),
        Meeting::Bind(variable, term) => {
            work.added.push(variable, term)?;
            Ok(None)
        }
        Meeting::Agree(pairs) => {
            work.compared.push(Equation { left, right })?;
            pairs.push_to(&mut work.pending)?;
            Ok(None)
        }
    }
}

/// Binds each added variable to the end of its chain.
fn settle<K: Lookup>(
    templates: &Templates,
    known: &K,
    added: &mut AddedBindings,
    followed: &mut Followed,
) -> Result<(), AllocError>
    requires solved { IsSolved templates.now.nodes (K.bindings known.now ++ added.old) }
    requires fresh { BindNew (K.bindings known.now) added.old }
    ensures settles { IfOk result (λ _. Settles templates.now.nodes (K.bindings known.now) added.old added.new followed.old.items followed.new.items) }
    ensures older { IfOk result (λ _. KeepsOlder templates.now.nodes (K.bindings known.now ++ added.old) (K.bindings known.now ++ added.new)) }
{
    // The last binding leads to an end, as none was added after it.
    let last = added.as_slice().len().saturating_sub(1);
    for place in 0..last {
        let Some(binding) = added.as_slice().get(place) else {
            return Ok(());
        };
        let (variable, term) = *binding;
        let end = follow(templates, known, added, followed, term)?;
        added.rebind(variable, end);
    }
    Ok(())
}
