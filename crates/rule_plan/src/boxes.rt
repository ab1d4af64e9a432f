//! The boxes that a call's clauses make.

ghost use Rattle.std.specs.Prelude.{◌≡◌, ◌+◌, ◌<◌, ◌^◌, length, IfOk};
ghost use Rattle.akl_model.specs.Instances.{drawn_by};
ghost use Rattle.rule_plan.specs.Made.{goals_under, heads_of, named_under, collected_by, IsMade, IsNewStore, AreMade};

use crate::heads::{Call, head_equations};
use crate::new_stores::new_store;
use akl_terms::{Clause, Code, Goal, Name, Term};
use box_tree::NewBox;
use local_store::{Chain, Shared, Store};
use std::alloc::{AllocError, Global};

// The boxes of these clauses in order, with names from this one on.
pub(crate) fn new_boxes(
    alloc: Global,
    chain: &Chain,
    call: Call,
    first: Name,
    clauses: &[Clause],
) -> Result<Vec<NewBox>, AllocError>
    requires { first.number + drawn_by clauses.now < 2 ^ 64 }
    ensures { IfOk result (λ boxes. AreMade chain.now.nodes chain.now.stores chain.now.known call first.worker first.number clauses.now boxes.items) }
{
    let mut boxes = Vec::with_capacity(alloc, clauses.len())?;
    let mut number = first.number;
    for clause in clauses {
        let name = Name {
            worker: first.worker,
            number,
        };
        boxes.push(new_box(alloc, chain, call, name, clause)?)?;
        number += 2 + clause.guard.len() as u64;
    }
    Ok(boxes)
}

// The box of a clause: it has this name, its frame the next one, and its goals those after.
fn new_box(
    alloc: Global,
    chain: &Chain,
    call: Call,
    name: Name,
    clause: &Clause,
) -> Result<NewBox, AllocError>
    requires { name.number + (2 + length clause.now.guard) < 2 ^ 64 }
    ensures { IfOk result (IsMade chain.now.nodes chain.now.stores chain.now.known call name.worker name.number clause.now) }
{
    let frame = Name {
        worker: name.worker,
        number: name.number + 1,
    };
    let goals = named_goals(alloc, frame, clause.guard.as_slice())?;
    let body = goals_of(alloc, frame, clause.body.as_slice())?;
    let (store, solved) = head_store(alloc, chain, call, frame, clause)?;
    Ok(NewBox {
        name,
        store,
        solved,
        goals,
        body,
        collected: collected_by(frame, clause),
    })
}

// What is collected of a clause's box, under its frame.
fn collected_by(frame: Name, clause: &Clause) -> Option<Term>
    ensures { result ≡ collected_by frame clause.now }
{
    let Some(node) = clause.collected else {
        return None;
    };
    Some(Term::Mol { node, frame })
}

// The store of a clause's box, which has its frame, and to which the arguments of the call are told with those of its head;
// and whether the chain is known to be solved with it.
fn head_store(
    alloc: Global,
    chain: &Chain,
    call: Call,
    frame: Name,
    clause: &Clause,
) -> Result<(Shared<Store>, bool), AllocError>
    ensures { IfOk result (λ r. IsNewStore chain.now.nodes chain.now.stores chain.now.known frame (heads_of call frame clause.now) r.0 r.1) }
{
    let equations = head_equations(alloc, call, frame, clause)?;
    new_store(alloc, chain, frame, equations.as_slice())
}

// Atoms under a frame.
fn goals_of(alloc: Global, frame: Name, codes: &[Code]) -> Result<Vec<Goal>, AllocError>
    ensures { IfOk result (λ goals. goals.items ≡ goals_under frame codes.now) }
{
    codes
        .iter()
        .map(|code| Goal { code: *code, frame })
        .collect(alloc)
}

// Atoms under a frame as goals, with the names after the frame's.
fn named_goals(alloc: Global, frame: Name, codes: &[Code]) -> Result<Vec<(Name, Goal)>, AllocError>
    requires { frame.number + 1 + length codes.now < 2 ^ 64 }
    ensures { IfOk result (λ goals. goals.items ≡ named_under frame (frame.number + 1) codes.now) }
{
    let mut goals = Vec::new(alloc);
    let mut number = frame.number;
    for code in codes {
        number += 1;
        let name = Name {
            worker: frame.worker,
            number,
        };
        goals.push((name, Goal { code: *code, frame }))?;
    }
    Ok(goals)
}
