//! Frames and bindings that come from lists into a tree.
ghost use Rattle.std.specs.Prelude.{◌≡◌, ◌<◌, ◌≤◌, [], length, drop, IfOk, IfErr, if◌then◌else◌};
ghost use Rattle.local_store.specs.Stored.{named, joins, all_named};
ghost use Rattle.local_store.specs.Kept.{frames_of, bindings_of, StartOf};

use crate::listed::run_of;
use crate::settled::Settled;
use akl_terms::{Name, Term, Var};
use smallvec::SmallVec;
use std::alloc::{AllocError, Global};

/// Brings frames into the tree in their order, each with the bindings of its variables where these come next, and then the
/// other bindings, and takes all that came in out of the lists. What there is no memory for stays in them.
pub(crate) fn settle(
    alloc: Global,
    settled: &mut Settled,
    frames: &mut SmallVec<Name, 1>,
    bindings: &mut Vec<(Var, Term)>,
)
    ensures frames { all_named (frames_of settled.new) frames.new.items ≡ all_named (frames_of settled.old) frames.old.items }
    ensures bindings { joins (bindings_of settled.new) bindings.new.items ≡ joins (bindings_of settled.old) bindings.old.items }
{
    let (named, joined) = settle_frames(alloc, settled, frames.as_slice(), bindings);
    let joined = settle_bindings(alloc, settled, bindings, joined);
    remove_names(frames, named);
    remove_bindings(bindings, joined);
}

/// What is settled where these frames and bindings are, as if they were added one after another.
pub(crate) fn settled_of(
    alloc: Global,
    frames: &[Name],
    bindings: &[(Var, Term)],
) -> Result<Settled, AllocError>
    ensures frames { IfOk result (λ s. frames_of s ≡ all_named [] frames.now) }
    ensures bindings { IfOk result (λ s. bindings_of s ≡ joins [] bindings.now) }
{
    let mut settled = Settled::new(alloc);
    let (named, joined) = settle_frames(alloc, &mut settled, frames, bindings);
    let joined = settle_bindings(alloc, &mut settled, bindings, joined);
    if named < frames.len() || joined < bindings.len() {
        return Err(AllocError);
    }
    Ok(settled)
}

// Brings frames into the tree in their order, each with the bindings of its variables where these come next, as far as
// there is memory. Gives how many frames came in, and how many bindings.
fn settle_frames(
    alloc: Global,
    settled: &mut Settled,
    frames: &[Name],
    bindings: &[(Var, Term)],
) -> (usize, usize)
    ensures most { (result.0 ≤ length frames.now) × (result.1 ≤ length bindings.now) }
    ensures frames { all_named (frames_of settled.new) (drop result.0 frames.now) ≡ all_named (frames_of settled.old) frames.now }
    ensures bindings { joins (bindings_of settled.new) (drop result.1 bindings.now) ≡ joins (bindings_of settled.old) bindings.now }
{
    let mut named = 0;
    let mut joined = 0;
    while named < frames.len() {
        match settle_next(alloc, settled, frames[named], true, bindings, joined) {
            Ok(now) => joined = now,
            Err(_) => return (named, joined),
        }
        named += 1;
    }
    (named, joined)
}

// Brings bindings behind the first ones into the tree in their order, as far as there is memory. Gives how many are in it
// then, with the first ones.
fn settle_bindings(
    alloc: Global,
    settled: &mut Settled,
    bindings: &[(Var, Term)],
    first: usize,
) -> usize
    requires { first ≤ length bindings.now }
    ensures most { result ≤ length bindings.now }
    ensures frames { frames_of settled.new ≡ frames_of settled.old }
    ensures bindings { joins (bindings_of settled.new) (drop result bindings.now) ≡ joins (bindings_of settled.old) (drop first bindings.now) }
{
    let mut joined = first;
    while joined < bindings.len() {
        let frame = bindings[joined].0.frame;
        match settle_next(alloc, settled, frame, false, bindings, joined) {
            Ok(now) => joined = now,
            Err(_) => return joined,
        }
    }
    joined
}

// Brings a frame into the tree with those bindings behind the first ones that come next and are of its variables. Gives how
// many are in it then, with the first ones. An `Err`, for want of memory, leaves all as it was.
fn settle_next(
    alloc: Global,
    settled: &mut Settled,
    frame: Name,
    own: bool,
    bindings: &[(Var, Term)],
    first: usize,
) -> Result<usize, AllocError>
    requires { first ≤ length bindings.now }
    ensures most { IfOk result (λ joined. joined ≤ length bindings.now) }
    ensures more { IfOk result (λ joined. StartOf frame (drop first bindings.now) → first < joined) }
    ensures frames { IfOk result (λ _. frames_of settled.new ≡ (if own then named (frames_of settled.old) frame else frames_of settled.old)) }
    ensures bindings { IfOk result (λ joined. joins (bindings_of settled.new) (drop joined bindings.now) ≡ joins (bindings_of settled.old) (drop first bindings.now)) }
    ensures unchanged { IfErr result (λ _. settled.new ≡ settled.old) }
{
    let left = &bindings[first..];
    let many = run_of(left, frame);
    settled.put(alloc, frame, own, &left[..many])?;
    Ok(first + many)
}

// Takes so many names from the front.
fn remove_names(names: &mut SmallVec<Name, 1>, many: usize)
    requires { many ≤ length names.old.items }
    ensures { names.new.items ≡ drop many names.old.items }
{
    if many == names.len() {
        names.clear();
        return;
    }
    for _ in 0..many {
        names.remove(0);
    }
}

// Takes so many bindings from the front.
fn remove_bindings(bindings: &mut Vec<(Var, Term)>, many: usize)
    requires { many ≤ length bindings.old.items }
    ensures { bindings.new.items ≡ drop many bindings.old.items }
{
    if many == bindings.len() {
        bindings.clear();
        return;
    }
    for _ in 0..many {
        bindings.remove(0);
    }
}
