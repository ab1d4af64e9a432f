//! What a goal waits on by itself.

ghost use Rattle.std.specs.Prelude.{◌≡◌, ◌++◌, ◌∷◌, [], IfOk, OnOk, IsTrue, ◌↔◌};
ghost use Rattle.box_tree.specs.declared.entries.HeldOp.{HeldOp};
ghost use Rattle.guard_plan.specs.Guards.{IsTestable, AreAllSolved};
ghost use Rattle.guard_plan.specs.Noisy.{AnswersInside, HasNoise, ShowsArithmetic, tested};
ghost use Rattle.idle_plan.specs.Waits.{AddsTold, AreAwaited, AreCollectWaits, AreMembersOfAll, AreToldBy};

use akl_terms::{Code, Goal, Program, Var};
use box_tree::{Alternative, View};
use class_members::members;
use entail_test::Quietness;
use guard_plan::{Noise, quietness, shared};
use local_store::{Chain, Consistency, consistent};
use stable_test::awaited;
use std::alloc::{AllocError, Global};

// Members of the class on which an atom waits in the box of a view. That of an arithmetic goal was found when it was
// evaluated.
pub(crate) fn waits_of_atom(
    alloc: Global,
    program: &Program,
    view: &View,
    atom: Goal,
    noise: &[Noise],
) -> Result<Vec<Var>, AllocError>
    requires program { program.now ≡ view.now.table.program }
    requires noise { ShowsArithmetic program.now view.now.stores atom.frame atom.code noise.now }
    ensures { IfOk result (λ list. AreAwaited program.now view.now.stores atom list.items) }
{
    match atom.code {
        Code::Arith { .. } => match noise.first() {
            None => Ok(Vec::new(alloc)),
            Some(found) => members(alloc, &view.chain(&program.templates), found.on.as_slice()),
        },
        _ => waits_of_other(alloc, program, view, atom),
    }
}

// The same of an atom of which nothing was found.
fn waits_of_other(
    alloc: Global,
    program: &Program,
    view: &View,
    atom: Goal,
) -> Result<Vec<Var>, AllocError>
    requires program { program.now ≡ view.now.table.program }
    ensures { IfOk result (λ list. AreAwaited program.now view.now.stores atom list.items) }
{
    let chain = view.chain(&program.templates);
    match consistent(alloc, &chain)? {
        Consistency::Clash { .. } => Ok(Vec::new(alloc)),
        Consistency::Consistent => match awaited(alloc, program, view, atom)? {
            None => Ok(Vec::new(alloc)),
            Some(on) => members(alloc, &chain, &[on]),
        },
    }
}

// Members of the classes that the solved alternatives of a `|` choice touch, by what the tests of their guards found.
pub(crate) fn waits_of_commit(
    alloc: Global,
    program: &Program,
    view: &View,
    noise: &[Noise],
) -> Result<Vec<Var>, AllocError>
    requires program { program.now ≡ view.now.table.program }
    requires noise { HasNoise program.now.templates.nodes view.now.stores (tested HeldOp.Commit view.now.alternatives) noise.now }
    ensures { IfOk result (λ list. AreToldBy program.now.templates.nodes view.now.stores view.now.alternatives list.items) }
{
    members_of_all(alloc, &view.chain(&program.templates), noise)
}

// The same of a `->` choice. The last of several alternatives cuts none off, so its guard wasn't tested.
pub(crate) fn waits_of_condition(
    alloc: Global,
    program: &Program,
    view: &View,
    noise: &[Noise],
) -> Result<Vec<Var>, AllocError>
    requires program { program.now ≡ view.now.table.program }
    requires noise { HasNoise program.now.templates.nodes view.now.stores (tested HeldOp.Condition view.now.alternatives) noise.now }
    ensures { IfOk result (λ list. AreToldBy program.now.templates.nodes view.now.stores view.now.alternatives list.items) }
{
    let mut list = members_of_all(alloc, &view.chain(&program.templates), noise)?;
    let alternatives = view.alternatives();
    if alternatives.len() < 2 {
        return Ok(list);
    }
    let last = alternatives.len() - 1;
    push_told(alloc, program, view, &alternatives[last], &mut list)?;
    Ok(list)
}

// The same of a choice that collects, once all its alternatives are solved; nothing before.
pub(crate) fn waits_of_collecting(
    alloc: Global,
    program: &Program,
    view: &View,
    noise: &[Noise],
) -> Result<Vec<Var>, AllocError>
    requires program { program.now ≡ view.now.table.program }
    requires noise { AreAllSolved view.now.alternatives → HasNoise program.now.templates.nodes view.now.stores view.now.alternatives noise.now }
    ensures { IfOk result (λ list. AreCollectWaits program.now.templates.nodes view.now.stores view.now.alternatives list.items) }
{
    if are_solved(view.alternatives()) {
        members_of_all(alloc, &view.chain(&program.templates), noise)
    } else {
        Ok(Vec::new(alloc))
    }
}

// Whether each of these alternatives is solved.
fn are_solved(alternatives: &[Alternative]) -> bool
    ensures { IsTrue result ↔ AreAllSolved alternatives.now }
{
    for alternative in alternatives {
        if !alternative.solved {
            return false;
        }
    }
    true
}

// Members of the classes that alternatives touch in the box of a chain, for one after another.
fn members_of_all(alloc: Global, chain: &Chain, noise: &[Noise]) -> Result<Vec<Var>, AllocError>
    ensures { IfOk result (λ list. AreMembersOfAll chain.now.nodes chain.now.stores noise.now list.items) }
{
    let mut list = Vec::new(alloc);
    for one in noise {
        let own = members(alloc, chain, one.on.as_slice())?;
        list.extend_from_slice(own.as_slice())?;
    }
    Ok(list)
}

// What an alternative touches comes to the end of a list, where it is solved.
fn push_told(
    alloc: Global,
    program: &Program,
    view: &View,
    alternative: &Alternative,
    list: &mut Vec<Var>,
) -> Result<(), AllocError>
    requires program { program.now ≡ view.now.table.program }
    requires testable { IsTestable program.now.templates.nodes view.now.stores alternative.now }
    ensures { OnOk result (AddsTold program.now.templates.nodes view.now.stores alternative.now list.old.items list.new.items) }
{
    if !alternative.solved {
        return Ok(());
    }
    match quietness_of(alloc, program, view, alternative)? {
        Quietness::Noisy { on } => {
            let own = members(alloc, &view.chain(&program.templates), on.as_slice())?;
            list.extend_from_slice(own.as_slice())?;
            Ok(())
        }
        Quietness::Quiet => Ok(()),
        Quietness::Inconsistent { .. } => Ok(()),
    }
}

// What an alternative tells the variables from outside of it.
fn quietness_of(
    alloc: Global,
    program: &Program,
    view: &View,
    alternative: &Alternative,
) -> Result<Quietness, AllocError>
    requires program { program.now ≡ view.now.table.program }
    requires testable { IsTestable program.now.templates.nodes view.now.stores alternative.now }
    ensures { IfOk result (AnswersInside program.now.templates.nodes (view.now.stores ++ alternative.now.store ∷ [])) }
{
    let mut stores = shared(alloc, view.stores())?;
    stores.push(alternative.store.share()?)?;
    let chain = Chain::of_solved(&program.templates, stores.as_slice(), alternative.known);
    quietness(alloc, &chain)
}
