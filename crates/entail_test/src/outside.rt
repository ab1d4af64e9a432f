//! What the stores of a chain from a depth on tell the variables from outside of them.
ghost use Rattle.std.specs.Prelude.{◌≡◌, ◌≤◌, ◌++◌, IfOk, length, take, drop};
ghost use Rattle.rational_unify.specs.Known.{IsSolved};
ghost use Rattle.local_store.specs.Chained.{bindings_from, IsKnown};
ghost use Rattle.local_store.specs.Bound.{AreFound};
ghost use Rattle.entail_test.specs.Asked.{Reads, DecidesRead, KeepsApartAt, AreCandidates, Shows, frames_from, named_in, AnswersOver};

use crate::reading::touched;
use akl_terms::{Name, Templates, Term, Var};
use local_store::{Chain, Shared, Store, take_stores};
use rational_unify::{AddedBindings, Form, Lookup, end_variable};
use smallvec::SmallVec;
use std::alloc::{AllocError, Global};

/// What is told to the variables from outside.
#[derive(Drop)]
pub enum Outside {
    /// One variable of each class that the stores from the depth on make structured, or equal to
    /// another class.
    Touched(Vec<Var>),
    /// All together is inconsistent: two terms of different heads are made equal.
    Clash { left: Term, right: Term },
}

/// What the stores from a depth on tell the variables from outside of them.
///
/// It solves the bindings of these stores over a solved form of those before them, and reads the
/// answer from the bindings that this adds. Where the whole chain is known to be solved, these are
/// the stores' own bindings. It is a clash exactly where all together is inconsistent.
pub fn outside_of(alloc: Global, chain: &Chain, depth: usize) -> Result<Outside, AllocError>
    requires { depth ≤ length chain.now.stores }
    ensures whole { IfOk result (DecidesRead chain.now.nodes chain.now.stores depth) }
    ensures read { IfOk result (λ answer. KeepsApartAt chain.now.nodes chain.now.stores depth → Reads chain.now.nodes chain.now.stores depth answer) }
{
    if chain.known() == chain.stores().len() {
        return told_in(alloc, chain, depth);
    }
    let templates = chain.templates();
    let environment = chain.outer(depth);
    let known = environment.known();
    if known == environment.stores().len() {
        return told_by(alloc, templates, &environment, &chain.stores()[depth..]);
    }
    let base = environment.outer(known);
    let mut form = Form {
        known: &base,
        added: AddedBindings::new(alloc),
    };
    match take_stores(alloc, templates, &mut form, &environment.stores()[known..])? {
        Some(clash) => Ok(Outside::Clash {
            left: clash.left,
            right: clash.right,
        }),
        None => told_by(alloc, templates, &form, &chain.stores()[depth..]),
    }
}

// What the stores from a depth on tell, where the whole chain is known to be solved.
fn told_in(alloc: Global, chain: &Chain, depth: usize) -> Result<Outside, AllocError>
    requires depth { depth ≤ length chain.now.stores }
    requires solved { IsKnown chain.now.nodes chain.now.stores (length chain.now.stores) }
    ensures { IfOk result (λ answer. AnswersOver chain.now.nodes (bindings_from (take depth chain.now.stores)) (drop depth chain.now.stores) answer) }
{
    let inner = &chain.stores()[depth..];
    let added = bindings_of(alloc, inner)?;
    let on = shown(
        alloc,
        chain.templates(),
        &chain.outer(depth),
        chain,
        added.as_slice(),
        inner,
    )?;
    Ok(Outside::Touched(on))
}

// All bindings of stores, those of inner ones first.
fn bindings_of(
    alloc: Global,
    stores: &[Shared<Store>],
) -> Result<SmallVec<(Var, Term), 4>, AllocError>
    ensures { IfOk result (λ list. list.items ≡ bindings_from stores.now) }
{
    if let [store] = stores {
        return store.get().bindings();
    }
    let mut list = SmallVec::new(alloc);
    let mut left = stores.len();
    while left > 0 {
        left -= 1;
        add_bindings(stores[left].get(), &mut list)?;
    }
    Ok(list)
}

// Also lists the bindings of a store.
fn add_bindings(store: &Store, list: &mut SmallVec<(Var, Term), 4>) -> Result<(), AllocError>
    ensures { IfOk result (λ _. list.new.items ≡ list.old.items ++ store.now.bindings) }
{
    let bindings = store.bindings()?;
    list.extend_from_slice(bindings.as_slice())
}

// What inner stores tell over a solved form of the others.
fn told_by<K: Lookup>(
    alloc: Global,
    templates: &Templates,
    known: &K,
    inner: &[Shared<Store>],
) -> Result<Outside, AllocError>
    requires { IsSolved templates.now.nodes (K.bindings known.now) }
    ensures { IfOk result (λ answer. AnswersOver templates.now.nodes (K.bindings known.now) inner.now answer) }
{
    let mut whole = Form {
        known,
        added: AddedBindings::new(alloc),
    };
    match take_stores(alloc, templates, &mut whole, inner)? {
        Some(clash) => Ok(Outside::Clash {
            left: clash.left,
            right: clash.right,
        }),
        None => {
            let on = shown(
                alloc,
                templates,
                known,
                &whole,
                whole.added.as_slice(),
                inner,
            )?;
            Ok(Outside::Touched(on))
        }
    }
}

// What the added bindings show.
fn shown<K: Lookup, W: Lookup>(
    alloc: Global,
    templates: &Templates,
    known: &K,
    whole: &W,
    added: &[(Var, Term)],
    inner: &[Shared<Store>],
) -> Result<Vec<Var>, AllocError>
    requires known { IsSolved templates.now.nodes (K.bindings known.now) }
    requires whole { IsSolved templates.now.nodes (W.bindings whole.now) }
    requires found { AreFound (W.bindings whole.now) added.now }
    ensures { IfOk result (λ on. Shows templates.now.nodes (K.bindings known.now) (W.bindings whole.now) (frames_from inner.now) added.now on.items) }
{
    let candidates = candidates_of(alloc, templates, whole, added, inner)?;
    touched(alloc, templates, known, whole, candidates.as_slice())
}

// The candidates that the added bindings show.
fn candidates_of<W: Lookup>(
    alloc: Global,
    templates: &Templates,
    whole: &W,
    added: &[(Var, Term)],
    inner: &[Shared<Store>],
) -> Result<Vec<Var>, AllocError>
    requires solved { IsSolved templates.now.nodes (W.bindings whole.now) }
    requires found { AreFound (W.bindings whole.now) added.now }
    ensures { IfOk result (λ list. AreCandidates templates.now.nodes (W.bindings whole.now) (frames_from inner.now) added.now list.items) }
{
    let mut list = Vec::new(alloc);
    for binding in added {
        if !is_inner(inner, binding.0.frame) {
            list.push(binding.0)?;
            // A bound variable's chain ends where its term's does.
            if let Some(end) = end_variable(templates, whole, binding.1) {
                if !is_inner(inner, end.frame) {
                    list.push(end)?;
                }
            }
        }
    }
    Ok(list)
}

// Whether one of the stores has the frame.
fn is_inner(inner: &[Shared<Store>], frame: Name) -> bool
    ensures { result ≡ named_in inner.now frame }
{
    inner.iter().any(|store| store.get().has_frame(frame))
}
