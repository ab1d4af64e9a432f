//! Which of a call's clauses is left.

ghost use Rattle.std.specs.Prelude.{◌≡◌, ◌+◌, ◌<◌, ◌^◌, ◌⊎◌, [], length, true, IfOk, MatchOption};
ghost use Rattle.akl_model.specs.Instances.{drawn_by};
ghost use Rattle.local_store.specs.Chained.{bindings_from, IsSolvedChain, IsKnown};
ghost use Rattle.plain_heads.specs.Plain.{AreEnds};
ghost use Rattle.rule_plan.specs.Made.{IsNewStore};
ghost use Rattle.call_plan.specs.Owns.{is_plain};
ghost use Rattle.call_plan.specs.Sifted.{head_codes, Clashes, IsOwn, AddsGoing, AddsLeft, IsSifted};

use crate::guards::{Guard, guard_of};
use crate::heads::{Arguments, head_equations};
use crate::labels::failing;
use crate::own::{Own, store_of};
use akl_model::Label;
use akl_terms::{Clause, Code, Name, Term};
use local_store::{Chain, Shared, Store};
use plain_heads::{Met, Row, meet};
use rational_unify::{Solved, solve_only};
use std::alloc::{AllocError, Global};

/// The labels by which alternatives of a call are sifted, and whether all in which goals of guards are evaluated have plain
/// bindings.
#[derive(Drop)]
pub(crate) struct SiftedLabels {
    pub(crate) labels: Vec<Label>,
    pub(crate) plainly: bool,
}

impl SiftedLabels {
    // Notes that goals of a guard are evaluated, if there are any, in an alternative that tells this.
    fn note(&mut self, guard: &[Code], own: &Own)
        ensures labels { self.new.labels ≡ self.old.labels }
        ensures plainly { self.new.plainly ≡ true → (self.old.plainly ≡ true) × ((guard.now ≡ []) ⊎ (is_plain own.now ≡ true)) }
    {
        if !guard.is_empty() && !own.is_plain() {
            self.plainly = false;
        }
    }
}

/// A clause that is left of a call, with the name and the frame of its alternative and what that tells, whether its guard is known to
/// hold, and the clauses behind it.
#[derive(Drop)]
pub(crate) struct Left<'a> {
    pub(crate) clause: &'a Clause,
    pub(crate) name: Name,
    pub(crate) frame: Name,
    pub(crate) own: Own,
    pub(crate) holds: bool,
    pub(crate) behind: &'a [Clause],
}

// The first of these clauses whose alternative doesn't fail over a chain that is solved; `None` where there is none. The
// labels of the alternatives up to there come to others. They draw their names from the first one on.
pub(crate) fn first_left<'a>(
    alloc: Global,
    chain: &Chain,
    arguments: Arguments,
    ends: &[Term],
    first: Name,
    clauses: &'a [Clause],
    sifted: &mut SiftedLabels,
) -> Result<Option<Left<'a>>, AllocError>
    requires known { IsKnown chain.now.nodes chain.now.stores (length chain.now.stores) }
    requires ends { AreEnds chain.now.nodes (bindings_from chain.now.stores) arguments.frame arguments.first ends.now }
    requires numbers { first.number + drawn_by clauses.now < 2 ^ 64 }
    ensures { IfOk result (IsSifted chain.now.symbols chain.now.nodes chain.now.stores arguments first.worker first.number clauses.now sifted.old.labels.items sifted.old.plainly sifted.new.labels.items sifted.new.plainly) }
{
    let mut name = first;
    let mut rest = clauses;
    while let Some((clause, behind)) = rest.split_first() {
        if let Some(left) = left_of(alloc, chain, arguments, ends, name, clause, behind, sifted)? {
            return Ok(Some(left));
        }
        name.number += 2 + clause.guard.len() as u64;
        rest = behind;
    }
    Ok(None)
}

// A clause whose alternative doesn't fail, before those behind it; `None` where its head clashes or a comparison of its guard
// fails. The labels of the alternative come to others.
fn left_of<'a>(
    alloc: Global,
    chain: &Chain,
    arguments: Arguments,
    ends: &[Term],
    name: Name,
    clause: &'a Clause,
    behind: &'a [Clause],
    sifted: &mut SiftedLabels,
) -> Result<Option<Left<'a>>, AllocError>
    requires known { IsKnown chain.now.nodes chain.now.stores (length chain.now.stores) }
    requires ends { AreEnds chain.now.nodes (bindings_from chain.now.stores) arguments.frame arguments.first ends.now }
    requires numbers { name.number + (2 + length clause.now.guard) < 2 ^ 64 }
    ensures { IfOk result (λ found. MatchOption found (AddsGoing chain.now.symbols chain.now.nodes chain.now.stores arguments name.worker name.number clause.now sifted.old.labels.items sifted.old.plainly sifted.new.labels.items sifted.new.plainly)
        (AddsLeft chain.now.symbols chain.now.nodes chain.now.stores arguments name.worker name.number clause.now behind.now sifted.old.labels.items sifted.old.plainly sifted.new.labels.items sifted.new.plainly)) }
{
    let frame = Name {
        worker: name.worker,
        number: name.number + 1,
    };
    let Some(own) = own_of(alloc, chain, arguments, ends, frame, clause)? else {
        sifted.labels.push(failing(name))?;
        return Ok(None);
    };
    let codes = clause.guard.as_slice();
    sifted.note(codes, &own);
    let holds = match guard_of(alloc, chain, &own, frame, codes, &mut sifted.labels)? {
        Guard::Holds => true,
        Guard::Open => false,
        Guard::Fails => {
            sifted.labels.push(failing(name))?;
            return Ok(None);
        }
    };
    Ok(Some(Left {
        clause,
        name,
        frame,
        own,
        holds,
        behind,
    }))
}

// What a clause's alternative with this frame tells over a chain that is solved; `None` where the head clashes.
fn own_of(
    alloc: Global,
    chain: &Chain,
    arguments: Arguments,
    ends: &[Term],
    frame: Name,
    clause: &Clause,
) -> Result<Option<Own>, AllocError>
    requires solved { IsSolvedChain chain.now.nodes chain.now.stores }
    requires ends { AreEnds chain.now.nodes (bindings_from chain.now.stores) arguments.frame arguments.first ends.now }
    ensures { IfOk result (λ found. MatchOption found (Clashes chain.now.nodes chain.now.stores arguments frame clause.now)
        (IsOwn chain.now.nodes chain.now.stores arguments frame clause.now)) }
{
    let head = Row {
        frame,
        first: clause.first,
        count: clause.count,
    };
    match meet(alloc, chain, arguments.row(), ends, head)? {
        Met::Clashes => Ok(None),
        Met::Binds(bindings) => Ok(Some(Own::Plain(bindings))),
        Met::Unsure => {
            let found = head_store(alloc, chain, arguments, frame, clause)?;
            match found {
                Some(store) => Ok(Some(Own::Store(store))),
                None => Ok(None),
            }
        }
    }
}

// The store of a clause's alternative over a chain that is solved: it has this frame, and what is found for
// the head; `None` where the head clashes.
fn head_store(
    alloc: Global,
    chain: &Chain,
    arguments: Arguments,
    frame: Name,
    clause: &Clause,
) -> Result<Option<Shared<Store>>, AllocError>
    requires { IsSolvedChain chain.now.nodes chain.now.stores }
    ensures { IfOk result (λ found. MatchOption found (Clashes chain.now.nodes chain.now.stores arguments frame clause.now)
        (λ s. IsNewStore chain.now.nodes chain.now.stores (length chain.now.stores) frame (head_codes arguments frame clause.now) s true)) }
{
    let equations = head_equations(alloc, arguments, frame, clause)?;
    let solved = solve_only(alloc, chain.templates(), chain, equations.as_slice())?;
    match solved {
        Solved::Clash { .. } => Ok(None),
        Solved::Added(bindings) => {
            let store = store_of(alloc, frame, bindings.as_slice())?;
            Ok(Some(store))
        }
    }
}
