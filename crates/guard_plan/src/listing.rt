//! The list of what is collected, as equations.

ghost use Rattle.std.specs.Prelude.{◌≡◌, ◌+◌, ◌<◌, ◌^◌, ◌++◌, length, IfOk, MatchOption};
ghost use Rattle.akl_terms.specs.Template.{tree};
ghost use Rattle.akl_terms.specs.declared.term.Term.{Term};
ghost use Rattle.akl_model.specs.Rules.{empty_list};
ghost use Rattle.guard_plan.specs.Collecting.{AreCollected, cell_equations, IsList};

use akl_terms::{Equation, Name, Program, Seen, Term};
use box_tree::Alternative;
use std::alloc::{AllocError, Global};

// The equations by which a term is the list of what is collected of alternatives, with new frames from this one on;
// `None` exactly where nothing is collected of one of them.
pub(crate) fn list_of(
    alloc: Global,
    program: &Program,
    first: Name,
    list: Term,
    alternatives: &[Alternative],
) -> Result<Option<Vec<Equation>>, AllocError>
    requires { first.number + length alternatives.now < 2 ^ 64 }
    ensures { IfOk result (λ found. MatchOption found (AreCollected alternatives.now → ⊥) (λ es. IsList program.now first list alternatives.now es.items)) }
{
    let last = empty_list(program, first)?;
    let mut equations = Vec::new(alloc);
    let mut frame = first;
    let mut rest = list;
    for alternative in alternatives {
        let Some(term) = alternative.collected else {
            return Ok(None);
        };
        rest = add_cell(&mut equations, program.cell, frame, rest, term)?;
        frame.number += 1;
    }
    equations.push(Equation {
        left: rest,
        right: last,
    })?;
    Ok(Some(equations))
}

// Adds the equations by which a list begins with a term, under a new frame. Answers what is behind it.
fn add_cell(
    equations: &mut Vec<Equation>,
    cell: u32,
    frame: Name,
    list: Term,
    term: Term,
) -> Result<Term, AllocError>
    ensures added { IfOk result (λ _. equations.new.items ≡ equations.old.items ++ cell_equations cell frame list (Some term)) }
    ensures tail { IfOk result (λ tail. tail ≡ Term.Mol (cell + 1) frame) }
{
    let node = node_after(cell, 2)?;
    equations.push(Equation {
        left: list,
        right: Term::Mol { node, frame },
    })?;
    equations.push(Equation {
        left: Term::Mol { node: cell, frame },
        right: term,
    })?;
    let node = node_after(cell, 1)?;
    Ok(Term::Mol { node, frame })
}

// The empty list of a program, as a term without variables, which stands under any frame.
fn empty_list(program: &Program, frame: Name) -> Result<Term, AllocError>
    ensures { IfOk result (λ t. tree program.now.templates.nodes t ≡ empty_list program.now) }
{
    let node = node_after(program.cell, 3)?;
    let list = Term::Mol { node, frame };
    match program.templates.look(list) {
        Seen::Struct { count: 0, .. } => Ok(list),
        _ => Ok(Term::Int(0)),
    }
}

/// The node so many after the first. No program has as many nodes as there are numbers.
pub fn node_after(first: u32, index: u32) -> Result<u32, AllocError>
    ensures { IfOk result (λ node. node ≡ first + index) }
{
    first.checked_add(index).ok_or(AllocError)
}
