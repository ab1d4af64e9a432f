//! The body of the clause that is left.

ghost use Rattle.std.specs.Prelude.{◌≡◌, ◌+◌, true, IfOk};
ghost use Rattle.local_store.specs.Chained.{innermost, around, IsSolvedChain};
ghost use Rattle.local_store.specs.Parts.{told_over};
ghost use Rattle.body_goals.specs.Reduced.{IsReduced};
ghost use Rattle.body_goals.specs.Takes.{with_added};

use akl_model::Label;
use akl_terms::{Clause, Name, Program};
use body_goals::{Body, reduce};
use box_tree::View;
use local_store::ToldPart;
use std::alloc::{AllocError, Global};

// Reduces goals of the body of a clause, whose alternative with this frame has joined the box of a view, where the alternatives
// of all clauses draw so many names. What they tell joins what is added to the store of the box, and their labels come to the list.
pub(crate) fn body_of(
    alloc: Global,
    program: &Program,
    view: &View,
    clause: &Clause,
    frame: Name,
    drawn: u64,
    told: &mut ToldPart,
    labels: &mut Vec<Label>,
) -> Result<Body, AllocError>
    requires program { program.now ≡ view.now.table.program }
    requires solved { told.old.solved ≡ true → IsSolvedChain view.now.table.program.templates.nodes (with_added view.now.stores told.old.part) }
    ensures reduced { IfOk result (IsReduced view.now.table.program.templates.symbols view.now.table.program.templates.nodes (around view.now.stores) frame (view.now.next + drawn) clause.now.body (told_over (innermost view.now.stores) told.old) (told_over (innermost view.now.stores) told.new) labels.old.items labels.new.items) }
    ensures frames { told.new.part.frames.items ≡ told.old.part.frames.items }
{
    let codes = clause.body.as_slice();
    let first = view.next().checked_add(drawn).ok_or(AllocError)?;
    first.checked_add(codes.len() as u64).ok_or(AllocError)?;
    reduce(
        alloc,
        &program.templates,
        view.stores(),
        frame,
        first,
        codes,
        told,
        labels,
    )
}
