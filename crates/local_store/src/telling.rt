//! Equations told to a chain, and what the chain says.
ghost use Rattle.std.specs.Prelude.{◌≡◌, [], ◌++◌, IfOk, IfNone, MatchOption};
ghost use Rattle.rational_unify.specs.Known.{IsSolved};
ghost use Rattle.rational_unify.specs.Solving.{BindNew};
ghost use Rattle.rational_unify.specs.Older.{LeadOlder, EachOlder};
ghost use Rattle.rational_unify.specs.Forms.{Takes, IsClashOfBindings};
ghost use Rattle.local_store.specs.Chained.{bindings_from, innermost};
ghost use Rattle.local_store.specs.Stored.{Stored, with_bindings};
ghost use Rattle.local_store.specs.Parts.{with_part, told_over, SameNames};
ghost use Rattle.local_store.specs.Bound.{bound_by, AreFound};
ghost use Rattle.local_store.specs.Telling.{IsUntold, clashed, Adds, AddsOver, AnswersTold};

use crate::binding::bound_by;
use crate::chain::Chain;
use crate::part::Part;
use crate::shared::Shared;
use crate::store::Store;
use akl_terms::{Equation, Templates, Term, Var};
use rational_unify::{AddedBindings, Form, Lookup, Solved, solve_only};
use smallvec::SmallVec;
use std::alloc::{AllocError, Global};

/// What `told` answers.
#[derive(Drop)]
pub struct ToldPart {
    /// What is added to the innermost store, so that it has the equations too.
    pub part: Part,
    /// Whether the chain is known to be solved with it: the whole chain was, and the equations are consistent with it.
    pub solved: bool,
    /// Variables that the equations bind or make equal, and of each class with such variables at least one; none where
    /// all together is inconsistent. One may be listed more than once.
    pub bound: SmallVec<Var, 4>,
}

impl ToldPart {
    /// Nothing is added.
    pub(crate) fn new(alloc: Global) -> ToldPart
        ensures untold { IsUntold result }
        ensures frames { result.part.frames.items ≡ [] }
        ensures ports { result.part.ports.items ≡ [] }
        ensures empty { (s : Stored) → with_part s result.part ≡ s }
    {
        ToldPart::of(alloc, Part::new(alloc))
    }

    /// A part of which nothing else is known.
    pub(crate) fn of(alloc: Global, part: Part) -> ToldPart
        ensures part { result.part ≡ part }
        ensures untold { IsUntold result }
    {
        ToldPart {
            part,
            solved: false,
            bound: SmallVec::new(alloc),
        }
    }

    /// Also has bindings of a solved form, and lists what they bind.
    pub(crate) fn add<W: Lookup>(
        &mut self,
        templates: &Templates,
        whole: &W,
        added: &[(Var, Term)],
    ) -> Result<(), AllocError>
        requires solved { IsSolved templates.now.nodes (W.bindings whole.now) }
        requires found { AreFound (W.bindings whole.now) added.now }
        ensures store { IfOk result (λ _. (s : Stored) → with_part s self.new.part ≡ with_bindings (with_part s self.old.part) added.now) }
        ensures names { SameNames self.old.part self.new.part }
        ensures solved { self.new.solved ≡ self.old.solved }
        ensures bound { IfOk result (λ _. self.new.bound.items ≡ self.old.bound.items ++ bound_by templates.now.nodes (W.bindings whole.now) added.now) }
    {
        self.part.bindings.extend_from_slice(added)?;
        self.bound.reserve(added.len().saturating_mul(2))?;
        bound_by(templates, whole, added, &mut self.bound)
    }

    // Also has a variable that is bound to both terms, which clash.
    fn add_clash(&mut self, left: Term, right: Term) -> Result<(), AllocError>
        ensures store { IfOk result (λ _. (s : Stored) → with_part s self.new.part ≡ clashed (with_part s self.old.part) left right) }
        ensures names { SameNames self.old.part self.new.part }
        ensures solved { self.new.solved ≡ self.old.solved }
        ensures bound { self.new.bound ≡ self.old.bound }
    {
        self.part.add_clash(left, right)
    }
}

/// What is added to the innermost store where these equations are told: bindings alone.
pub fn told(alloc: Global, chain: &Chain, equations: &[Equation]) -> Result<ToldPart, AllocError>
    ensures told { IfOk result (λ t. AnswersTold chain.now.nodes chain.now.stores chain.now.known equations.now (told_over (innermost chain.now.stores) t)) }
    ensures frames { IfOk result (λ t. t.part.frames.items ≡ []) }
    ensures ports { IfOk result (λ t. t.part.ports.items ≡ []) }
{
    let mut told = ToldPart::new(alloc);
    let templates = chain.templates();
    let stores = chain.stores();
    let known = chain.known();
    if known == stores.len() {
        tell(alloc, templates, chain, equations, &mut told)?;
        return Ok(told);
    }
    let base = chain.outer(known);
    tell_over(
        alloc,
        templates,
        &base,
        &stores[known..],
        equations,
        &mut told,
    )?;
    told.solved = false;
    Ok(told)
}

/// Takes the bindings of stores in, which stand from the outermost inwards. `Some` gives two terms
/// of different heads that they make equal. Where what was there and each of these bindings lead from
/// younger variables to older ones, so does all together. After a clash, or an `Err` for want of
/// memory, nothing is promised of what the form has added: it need not be solved, and is to be dropped.
pub fn take_stores<K: Lookup>(
    alloc: Global,
    templates: &Templates,
    form: &mut Form<'_, K>,
    stores: &[Shared<Store>],
) -> Result<Option<Equation>, AllocError>
    requires { IsSolved templates.now.nodes (K.bindings form.old.known.now ++ form.old.added) }
    ensures known { form.new.known ≡ form.old.known }
    ensures taken { IfOk result (λ found. MatchOption found
        (Takes templates.now.nodes (K.bindings form.old.known.now) form.old.added form.new.added (bindings_from stores.now))
        (λ clash. IsClashOfBindings templates.now.nodes (K.bindings form.old.known.now ++ form.old.added) (bindings_from stores.now) clash.left clash.right)) }
    ensures older { IfOk result (λ found. IfNone found
        (LeadOlder templates.now.nodes (K.bindings form.old.known.now ++ form.old.added) → EachOlder templates.now.nodes (bindings_from stores.now)
        → LeadOlder templates.now.nodes (K.bindings form.old.known.now ++ form.new.added))) }
{
    for store in stores {
        if let Some(clash) = take_store(alloc, templates, form, store.get())? {
            return Ok(Some(clash));
        }
    }
    Ok(None)
}

/// Takes the bindings of one store in, as `take_stores` does.
pub(crate) fn take_store<K: Lookup>(
    alloc: Global,
    templates: &Templates,
    form: &mut Form<'_, K>,
    store: &Store,
) -> Result<Option<Equation>, AllocError>
    requires { IsSolved templates.now.nodes (K.bindings form.old.known.now ++ form.old.added) }
    ensures known { form.new.known ≡ form.old.known }
    ensures taken { IfOk result (λ found. MatchOption found
        (Takes templates.now.nodes (K.bindings form.old.known.now) form.old.added form.new.added store.now.bindings)
        (λ clash. IsClashOfBindings templates.now.nodes (K.bindings form.old.known.now ++ form.old.added) store.now.bindings clash.left clash.right)) }
    ensures older { IfOk result (λ found. IfNone found
        (LeadOlder templates.now.nodes (K.bindings form.old.known.now ++ form.old.added) → EachOlder templates.now.nodes store.now.bindings
        → LeadOlder templates.now.nodes (K.bindings form.old.known.now ++ form.new.added))) }
{
    let bindings = store.bindings()?;
    form.take(alloc, templates, bindings.as_slice())
}

// As `tell`, where stores are first taken in over a solved form.
fn tell_over<K: Lookup>(
    alloc: Global,
    templates: &Templates,
    known: &K,
    stores: &[Shared<Store>],
    equations: &[Equation],
    told: &mut ToldPart,
) -> Result<(), AllocError>
    requires solved { IsSolved templates.now.nodes (K.bindings known.now) }
    requires untold { IsUntold told.old }
    ensures adds { IfOk result (λ _. (s : Stored) → AddsOver templates.now.nodes (K.bindings known.now) stores.now equations.now (with_part s told.old.part) (with_part s told.new.part) told.new.bound.items) }
    ensures names { SameNames told.old.part told.new.part }
{
    let mut form = Form {
        known,
        added: AddedBindings::new(alloc),
    };
    match take_stores(alloc, templates, &mut form, stores)? {
        Some(clash) => told.add_clash(clash.left, clash.right),
        None => tell(alloc, templates, &form, equations, told),
    }
}

// Adds what is found for equations over a solved form, whether they are consistent with it, and what they bind.
fn tell<K: Lookup>(
    alloc: Global,
    templates: &Templates,
    known: &K,
    equations: &[Equation],
    told: &mut ToldPart,
) -> Result<(), AllocError>
    requires solved { IsSolved templates.now.nodes (K.bindings known.now) }
    requires untold { IsUntold told.old }
    ensures adds { IfOk result (λ _. (s : Stored) → Adds templates.now.nodes (K.bindings known.now) equations.now (with_part s told.old.part) (with_part s told.new.part) told.new.solved told.new.bound.items) }
    ensures names { SameNames told.old.part told.new.part }
{
    match solve_only(alloc, templates, known, equations)? {
        Solved::Clash { left, right } => told.add_clash(left, right),
        Solved::Added(added) => {
            told.solved = true;
            add_found(templates, known, added, told)
        }
    }
}

// Adds bindings that were found over a solved form, and what they bind.
fn add_found<K: Lookup>(
    templates: &Templates,
    known: &K,
    added: AddedBindings,
    told: &mut ToldPart,
) -> Result<(), AllocError>
    requires solved { IsSolved templates.now.nodes (K.bindings known.now ++ added) }
    requires fresh { BindNew (K.bindings known.now) added }
    ensures store { IfOk result (λ _. (s : Stored) → with_part s told.new.part ≡ with_bindings (with_part s told.old.part) added) }
    ensures names { SameNames told.old.part told.new.part }
    ensures solved { IfOk result (λ _. told.new.solved ≡ told.old.solved) }
    ensures bound { IfOk result (λ _. told.new.bound.items ≡ told.old.bound.items ++ bound_by templates.now.nodes (K.bindings known.now ++ added) added) }
{
    let form = Form { known, added };
    told.add(templates, &form, form.added.as_slice())
}

/// The innermost store; one that has nothing where there are no stores.
pub fn innermost(alloc: Global, stores: &[Shared<Store>]) -> Result<Store, AllocError>
    ensures { IfOk result (λ s. s ≡ innermost stores.now) }
{
    match stores.last() {
        Some(store) => store.get().share_to_tell(),
        None => Ok(Store::new(alloc)),
    }
}
