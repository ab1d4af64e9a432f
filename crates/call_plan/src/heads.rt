//! The arguments of a call, and their equations with those of a head.

ghost use Rattle.std.specs.Prelude.{◌≡◌, ◌+◌, IfOk};
ghost use Rattle.akl_terms.specs.declared.term.Term.{Term};
ghost use Rattle.call_plan.specs.Sifted.{head_codes};

use akl_terms::{Clause, Equation, Name, Term};
use guard_plan::node_after;
use plain_heads::Row;
use smallvec::SmallVec;
use std::alloc::{AllocError, Global};

/// The arguments of a call: so many neighbouring nodes under a frame.
#[derive(Clone, Copy)]
pub struct Arguments {
    pub frame: Name,
    pub first: u32,
    pub count: u32,
}

impl Arguments {
    // Their nodes as a row.
    pub(crate) fn row(self) -> Row
        ensures { result ≡ record { frame = self.frame; first = self.first; count = self.count } }
    {
        Row {
            frame: self.frame,
            first: self.first,
            count: self.count,
        }
    }
}

// The equations between the arguments of a call and those of a clause's head under a frame, the last first. The solver
// begins with the first argument then, by which most heads differ.
pub(crate) fn head_equations(
    alloc: Global,
    arguments: Arguments,
    frame: Name,
    clause: &Clause,
) -> Result<SmallVec<Equation, 4>, AllocError>
    ensures { IfOk result (λ list. list.items ≡ head_codes arguments frame clause.now) }
{
    let mut left = arguments.count.min(clause.count);
    let mut list = SmallVec::with_capacity(alloc, left as usize)?;
    while left > 0 {
        left -= 1;
        list.push(head_equation(arguments, frame, clause, left)?)?;
    }
    Ok(list)
}

// The equation between an argument of a call and that of a clause's head under a frame.
fn head_equation(
    arguments: Arguments,
    frame: Name,
    clause: &Clause,
    index: u32,
) -> Result<Equation, AllocError>
    ensures { IfOk result (λ e. e ≡ record { left = Term.Mol (arguments.first + index) arguments.frame; right = Term.Mol (clause.now.first + index) frame }) }
{
    let left = node_after(arguments.first, index)?;
    let right = node_after(clause.first, index)?;
    Ok(Equation {
        left: Term::Mol {
            node: left,
            frame: arguments.frame,
        },
        right: Term::Mol { node: right, frame },
    })
}
