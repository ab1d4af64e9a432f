//! What a place waits on for the boxes around it.

ghost use Rattle.std.specs.Prelude.{◌≡◌, ◌≤◌, length, take, IfOk};
ghost use Rattle.akl_terms.specs.Equal.{IsConsistent};
ghost use Rattle.local_store.specs.Chained.{equations_of};
ghost use Rattle.idle_plan.specs.Waits.{AreToldAround};

use crate::told::told_outside;
use akl_terms::{Program, Var};
use box_tree::View;
use local_store::{Consistency, consistent};
use std::alloc::{AllocError, Global};

// Members of the classes that the boxes down to the place of a view touch, so many of the outermost; none of the
// outermost itself, which touches nothing, and none from the first one on where all down to it is inconsistent.
pub(crate) fn waits_of_boxes_around(
    alloc: Global,
    program: &Program,
    view: &View,
    count: usize,
) -> Result<Vec<Var>, AllocError>
    requires program { program.now ≡ view.now.table.program }
    requires count { count ≤ length view.now.stores }
    ensures { IfOk result (λ list. AreToldAround program.now.templates.nodes view.now.stores count list.items) }
{
    if count < 2 {
        return Ok(Vec::new(alloc));
    }
    let chain = view.chain(&program.templates);
    match consistent(alloc, &chain.outer(1))? {
        Consistency::Clash { .. } => Ok(Vec::new(alloc)),
        Consistency::Consistent => told_down(alloc, program, view, count),
    }
}

// The same where the outermost box is consistent.
fn told_down(
    alloc: Global,
    program: &Program,
    view: &View,
    count: usize,
) -> Result<Vec<Var>, AllocError>
    requires program { program.now ≡ view.now.table.program }
    requires some { 1 ≤ count }
    requires count { count ≤ length view.now.stores }
    requires outermost { IsConsistent (equations_of program.now.templates.nodes (take 1 view.now.stores)) }
    ensures { IfOk result (λ list. AreToldAround program.now.templates.nodes view.now.stores count list.items) }
{
    let chain = view.chain(&program.templates);
    let mut list = Vec::new(alloc);
    for depth in 1..count {
        match told_outside(alloc, &chain.outer(depth + 1))? {
            Some(own) => list.extend_from_slice(own.as_slice())?,
            None => return Ok(list),
        }
    }
    Ok(list)
}
