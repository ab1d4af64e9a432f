//! Frames and bindings in lists.
ghost use Rattle.std.specs.Prelude.{◌≡◌, true, IfOk};
ghost use Rattle.rational_unify.specs.Known.{found_in};
ghost use Rattle.local_store.specs.Chained.{BindNone};
ghost use Rattle.local_store.specs.Stored.{is_named, named, joined};
ghost use Rattle.local_store.specs.Kept.{run_of, frame_place, binding_place};

use akl_terms::{Name, Term, Var};
use smallvec::SmallVec;
use std::alloc::AllocError;

/// What the first binding of the variable binds it to.
pub(crate) fn first_in(bindings: &[(Var, Term)], variable: Var) -> Option<Term>
    ensures { result ≡ found_in bindings.now variable }
{
    for binding in bindings {
        if binding.0 == variable {
            return Some(binding.1);
        }
    }
    None
}

/// Whether none of the bindings is of a variable of the frame.
pub(crate) fn binds_none(bindings: &[(Var, Term)], frame: Name) -> bool
    ensures { result ≡ true → BindNone bindings.now frame }
{
    for binding in bindings {
        if binding.0.frame == frame {
            return false;
        }
    }
    true
}

/// Whether the frame is one of these.
pub(crate) fn is_among(frames: &[Name], frame: Name) -> bool
    ensures { result ≡ is_named frames.now frame }
{
    for other in frames {
        if *other == frame {
            return true;
        }
    }
    false
}

/// How many bindings at the front are of variables of the frame.
pub(crate) fn run_of(bindings: &[(Var, Term)], frame: Name) -> usize
    ensures { result ≡ run_of bindings.now frame }
{
    let mut many = 0;
    while many < bindings.len() && bindings[many].0.frame == frame {
        many += 1;
    }
    many
}

/// Puts a frame in its place among frames in increasing order, once.
pub(crate) fn put_frame(frames: &mut Vec<Name>, frame: Name) -> Result<(), AllocError>
    ensures { IfOk result (λ _. frames.new.items ≡ named frames.old.items frame) }
{
    let place = frame_place(frames, frame);
    if place < frames.len() && frames[place] == frame {
        return Ok(());
    }
    frames.insert(place, frame)?;
    Ok(())
}

// How many frames at the front are below this one.
fn frame_place(frames: &[Name], frame: Name) -> usize
    ensures { result ≡ frame_place frames.now frame }
{
    let mut place = 0;
    while place < frames.len() && frames[place] < frame {
        place += 1;
    }
    place
}

/// Puts a binding behind those of its variable and of the variables before it.
pub(crate) fn put_binding(
    bindings: &mut SmallVec<(Var, Term), 4>,
    variable: Var,
    term: Term,
) -> Result<(), AllocError>
    ensures { IfOk result (λ _. bindings.new.items ≡ joined bindings.old.items variable term) }
{
    let place = binding_place(bindings.as_slice(), variable);
    bindings.insert(place, (variable, term))?;
    Ok(())
}

// How many bindings at the front are of this variable or of one before it.
fn binding_place(bindings: &[(Var, Term)], variable: Var) -> usize
    ensures { result ≡ binding_place bindings.now variable }
{
    let mut place = 0;
    while place < bindings.len() && !(variable < bindings[place].0) {
        place += 1;
    }
    place
}
