//! Rows of nodes.

ghost use Rattle.std.specs.Prelude.{◌≡◌, ◌+◌, IfOk};
ghost use Rattle.akl_terms.specs.declared.term.Term.{Term};

use akl_terms::{Name, Term};
use std::alloc::AllocError;

/// So many neighbouring nodes under a frame.
#[derive(Clone, Copy)]
pub struct Row {
    pub frame: Name,
    pub first: u32,
    pub count: u32,
}

impl Row {
    // One of the nodes. An `Err`, as for want of memory, where no node has such a number.
    pub(crate) fn at(self, index: u32) -> Result<Term, AllocError>
        ensures { IfOk result (λ t. t ≡ Term.Mol (self.first + index) self.frame) }
    {
        let node = self.first.checked_add(index).ok_or(AllocError)?;
        Ok(Term::Mol {
            node,
            frame: self.frame,
        })
    }
}
