//! Plans of Send.

ghost use Rattle.std.specs.Prelude.{◌≡◌, [], Some, IfOk};
ghost use Rattle.std.specs.Map.{lookup};
ghost use Rattle.akl_terms.specs.declared.name.Place.{Place};
ghost use Rattle.akl_terms.specs.declared.program.Code.{Code};
ghost use Rattle.akl_terms.specs.Names.{same_name};
ghost use Rattle.local_store.specs.Stored.{Stored};
ghost use Rattle.local_store.specs.Parts.{with_part, told_over};
ghost use Rattle.local_store.specs.Chained.{innermost};
ghost use Rattle.local_store.specs.Telling.{AnswersTold};
ghost use Rattle.box_tree.specs.declared.view.Sight.{Sight};
ghost use Rattle.box_tree.specs.Views.{IsViewOf};
ghost use Rattle.guard_plan.specs.Planned.{IsPlannedBy};
ghost use Rattle.rule_plan.specs.Solving.{GoesToPort};
ghost use Rattle.rule_plan.specs.Sent.{list_equations, with_new_tail};

use crate::at_goals::{add_port, told_plan};
use crate::stores::solved_stores;
use akl_model::Rule;
use akl_terms::{Code, Equation, Goal, Name, Program, Term};
use box_tree::{Plan, View};
use guard_plan::node_after;
use local_store::{Chain, Consistency, Part, ToldPart, consistent, told};
use port_goals::{SendState, sendable};
use std::alloc::{AllocError, Global};

/// A message to be sent, and the port to which: nodes under a frame.
#[derive(Clone, Copy)]
pub(crate) struct Message {
    pub(crate) message: u32,
    pub(crate) port: u32,
    pub(crate) frame: Name,
}

// The plan that sends a message to a port of the box; `None` where it isn't known to be such a port, or what is told to
// the box is inconsistent.
pub(crate) fn send(
    alloc: Global,
    program: &Program,
    view: &View,
    goal: Name,
    message: Message,
) -> Result<Option<Plan>, AllocError>
    requires program { program.now ≡ view.now.table.program }
    requires place { view.now.place ≡ Place.Goal goal }
    requires sight { view.now.sight ≡ Sight.Atom (record { code = Code.Send message.message message.port; frame = message.frame }) }
    requires seen { IsViewOf view.now }
    ensures { IfOk result (IsPlannedBy view.now) }
{
    let chain = view.chain(&program.templates);
    let Consistency::Consistent = consistent(alloc, &chain)? else {
        return Ok(None);
    };
    let stores = solved_stores(alloc, &chain)?;
    let solved = Chain::new(&program.templates, stores.as_slice());
    let code = Code::Send {
        message: message.message,
        port: message.port,
    };
    let atom = Goal {
        code,
        frame: message.frame,
    };
    match sendable(&solved, atom) {
        SendState::Owned(port) => send_to(alloc, program, view, goal, message, port),
        SendState::Elsewhere(_) => Ok(None),
        SendState::Waits { .. } => Ok(None),
        SendState::NoPort => Ok(None),
    }
}

// The plan that sends a message to this port of the box: with two new variables, the port's tail is a list of the message
// and the new tail.
fn send_to(
    alloc: Global,
    program: &Program,
    view: &View,
    goal: Name,
    message: Message,
    port: Name,
) -> Result<Option<Plan>, AllocError>
    requires program { program.now ≡ view.now.table.program }
    requires place { view.now.place ≡ Place.Goal goal }
    requires sight { view.now.sight ≡ Sight.Atom (record { code = Code.Send message.message message.port; frame = message.frame }) }
    requires goes { GoesToPort view.now message.frame message.port port }
    ensures { IfOk result (IsPlannedBy view.now) }
{
    let frame = Name {
        worker: view.worker(),
        number: view.next(),
    };
    let chain = view.chain(&program.templates);
    let tail = tail_of(&chain, port)?;
    let mut answer = tell_list(alloc, program, &chain, tail, message, frame)?;
    set_tail(&mut answer.part, program, port, frame)?;
    told_plan(alloc, program, view, goal, Rule::Send, 1, answer)
}

// The tail of a port in the innermost store.
fn tail_of(chain: &Chain, port: Name) -> Result<Term, AllocError>
    ensures { IfOk result (λ tail. lookup (same_name port) (innermost chain.now.stores).ports ≡ Some tail) }
{
    let Some(own) = chain.stores().last() else {
        // Not where a view was taken.
        return Err(AllocError);
    };
    let Some(tail) = own.get().port_tail(port) else {
        // Not where the box has the port.
        return Err(AllocError);
    };
    Ok(tail)
}

// What is added to the innermost store where it is told that a tail is a list of the message and a new tail, both under a
// new frame.
fn tell_list(
    alloc: Global,
    program: &Program,
    chain: &Chain,
    tail: Term,
    message: Message,
    frame: Name,
) -> Result<ToldPart, AllocError>
    ensures told { IfOk result (λ t. AnswersTold chain.now.nodes chain.now.stores chain.now.known (list_equations program.now.cell frame tail message.frame message.message)
        (told_over (innermost chain.now.stores) t)) }
    ensures frames { IfOk result (λ t. t.part.frames.items ≡ []) }
    ensures ports { IfOk result (λ t. t.part.ports.items ≡ []) }
{
    let equations = [
        Equation {
            left: tail,
            right: Term::Mol {
                node: node_after(program.cell, 2)?,
                frame,
            },
        },
        Equation {
            left: Term::Mol {
                node: program.cell,
                frame,
            },
            right: Term::Mol {
                node: message.message,
                frame: message.frame,
            },
        },
    ];
    told(alloc, chain, &equations)
}

// A new frame is added too, to a part that has no ports, and under it the new tail of a port.
fn set_tail(part: &mut Part, program: &Program, port: Name, frame: Name) -> Result<(), AllocError>
    requires { part.old.ports.items ≡ [] }
    ensures { IfOk result (λ _. (s : Stored) → with_part s part.new ≡ with_new_tail program.now.cell frame port (with_part s part.old)) }
{
    let tail = Term::Mol {
        node: node_after(program.cell, 1)?,
        frame,
    };
    part.frames.push(frame)?;
    add_port(part, port, tail)
}
