//! Plain bindings that join a store.

ghost use Rattle.std.specs.Prelude.{◌≡◌, ◌+◌, ◌*◌, ◌<◌, ◌≤◌, ◌++◌, ◌∷◌, List, [], length, vec_len, vec_capacity, IfOk};
ghost use Rattle.local_store.specs.Chained.{bindings_from, innermost, IsKnown};
ghost use Rattle.local_store.specs.Parts.{told_over};
ghost use Rattle.local_store.specs.Stored.{Stored};
ghost use Rattle.plain_heads.specs.Plain.{ArePlain};
ghost use Rattle.plain_heads.specs.Joined.{own_store, listed, JoinsPlainly};

use akl_terms::{Name, Seen, Templates, Term, Var};
use local_store::{Part, ToldPart};
use smallvec::SmallVec;
use std::alloc::{AllocError, Global};

// A list with room for so many more keeps its memory as it becomes a short one, and what a body binds comes to it without a move.
const MORE: usize = 3;

/// What is added to the innermost store of a chain that is known to be solved so that it has a frame and plain bindings of the
/// frame's variables, as if a store that has these alone were promoted; the chain is known to be solved with it. An `Err` is want
/// of memory.
pub fn joined(
    alloc: Global,
    templates: &Templates,
    frame: Name,
    bindings: Vec<(Var, Term)>,
) -> Result<ToldPart, AllocError>
    ensures joins { IfOk result (λ told. (path : List Stored) → 0 < length path → ArePlain templates.now.nodes (bindings_from path) frame bindings.items → IsKnown templates.now.nodes (path ++ own_store frame bindings.items ∷ []) (length path + 1)
        → JoinsPlainly templates.now.nodes path frame bindings.items (told_over (innermost path) told)) }
    ensures frames { IfOk result (λ told. told.part.frames.items ≡ frame ∷ []) }
{
    let bound = listed(alloc, templates, bindings.as_slice())?;
    Ok(ToldPart {
        part: Part::of(alloc, frame, bindings),
        solved: true,
        bound,
    })
}

// The variables of bindings, each with the one that it is bound to, where that is a variable.
fn listed(
    alloc: Global,
    templates: &Templates,
    bindings: &[(Var, Term)],
) -> Result<SmallVec<Var, 4>, AllocError>
    ensures { IfOk result (λ list. list.items ≡ listed templates.now.nodes bindings.now) }
{
    let mut list = Vec::with_capacity(alloc, room_for(bindings.len())?)?;
    push_listed(templates, bindings, &mut list);
    Ok(SmallVec::from_vec(list))
}

// For how many variables there is room where there are so many bindings: for two of each and some more, if there is one.
fn room_for(bindings: usize) -> Result<usize, AllocError>
    ensures { IfOk result (λ room. bindings * 2 ≤ room) }
{
    if bindings == 0 {
        return Ok(0);
    }
    let both = bindings.checked_mul(2).ok_or(AllocError)?;
    both.checked_add(MORE).ok_or(AllocError)
}

// The variables of bindings come to a list that has room for them.
fn push_listed(templates: &Templates, bindings: &[(Var, Term)], list: &mut Vec<Var>)
    requires { vec_len list.old + length bindings.now * 2 ≤ vec_capacity list.old }
    ensures { list.new.items ≡ list.old.items ++ listed templates.now.nodes bindings.now }
{
    for binding in bindings {
        list.push_reserved(binding.0);
        if let Seen::Free(end) = templates.look(binding.1) {
            list.push_reserved(end);
        }
    }
}
