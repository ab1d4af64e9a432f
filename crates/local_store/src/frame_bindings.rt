//! What a store has of one frame.
ghost use Rattle.std.specs.Prelude.{◌≡◌, ◌||◌, ◌<◌, ◌++◌, map, [], true, false, vec_len, vec_capacity, IfOk};
ghost use Rattle.local_store.specs.Kept.{found_at, put_at, put_all, place_at, Increase};

use akl_terms::{Term, Var};
use std::alloc::{AllocError, Global};

// Most frames get one binding more, that of the variable that hands a result on.
const SPARE: usize = 1;

/// What a store has of one frame.
#[derive(Drop)]
pub(crate) struct FrameBindings {
    /// Whether the frame is one of the store's own.
    pub(crate) own: bool,
    /// What its variables are bound to, by their indices; those of one variable in the order in which they were added.
    pub(crate) bindings: Vec<(u32, Term)>,
}

impl FrameBindings {
    /// These bindings of a frame, added one after another.
    pub(crate) fn of(
        alloc: Global,
        own: bool,
        added: &[(Var, Term)],
    ) -> Result<FrameBindings, AllocError>
        ensures own { IfOk result (λ f. f.own ≡ own) }
        ensures bindings { IfOk result (λ f. f.bindings.items ≡ put_all [] added.now) }
    {
        let mut bindings = Vec::with_capacity(alloc, added.len().saturating_add(SPARE))?;
        if increase(added) {
            push_all(&mut bindings, added)?;
        } else {
            put_all(&mut bindings, added)?;
        }
        Ok(FrameBindings { own, bindings })
    }

    /// What is here, with others added one after another; the frame is one of the store's own where it was or where `own`
    /// says so.
    pub(crate) fn with(
        &self,
        alloc: Global,
        own: bool,
        added: &[(Var, Term)],
    ) -> Result<FrameBindings, AllocError>
        ensures own { IfOk result (λ f. f.own ≡ (own || self.now.own)) }
        ensures bindings { IfOk result (λ f. f.bindings.items ≡ put_all self.now.bindings.items added.now) }
    {
        let room = self.bindings.len().saturating_add(added.len());
        let mut bindings = Vec::with_capacity(alloc, room)?;
        bindings.extend_from_slice(&self.bindings)?;
        put_all(&mut bindings, added)?;
        Ok(FrameBindings {
            own: own || self.own,
            bindings,
        })
    }

    /// Whether there is room for one binding more, and those of its index and of the indices before it are all.
    fn may_append(&self, index: u32) -> bool
        ensures room { result ≡ true → vec_len self.now.bindings < vec_capacity self.now.bindings }
        ensures last { result ≡ true → place_at self.now.bindings.items index ≡ vec_len self.now.bindings }
    {
        self.bindings.len() < self.bindings.capacity()
            && place_of(&self.bindings, index) == self.bindings.len()
    }

    /// Also has a binding, if it can be put behind the others and takes no memory; the frame is one of the store's own where it
    /// was or where `own` says so. Answers whether it is there now; where not, all is as it was.
    pub(crate) fn append(&mut self, own: bool, index: u32, term: Term) -> bool
        ensures own { result ≡ true → self.new.own ≡ (own || self.old.own) }
        ensures bindings { result ≡ true → self.new.bindings.items ≡ put_at self.old.bindings.items index term }
        ensures unchanged { result ≡ false → self.new ≡ self.old }
    {
        if !self.may_append(index) {
            return false;
        }
        let Ok(()) = self.bindings.push((index, term)) else {
            unreachable!()
        };
        self.own = own || self.own;
        true
    }

    /// What the first binding of the variable of this index binds it to.
    pub(crate) fn first(&self, index: u32) -> Option<Term>
        ensures { result ≡ found_at self.now.bindings.items index }
    {
        for binding in &self.bindings {
            if binding.0 == index {
                return Some(binding.1);
            }
        }
        None
    }
}

// Whether the indices of bindings increase strictly.
fn increase(bindings: &[(Var, Term)]) -> bool
    ensures { result ≡ true → Increase bindings.now }
{
    let mut at = 1;
    while at < bindings.len() {
        if bindings[at - 1].0.index >= bindings[at].0.index {
            return false;
        }
        at += 1;
    }
    true
}

// Puts bindings of the frame at the end.
fn push_all(bindings: &mut Vec<(u32, Term)>, added: &[(Var, Term)]) -> Result<(), AllocError>
    ensures { IfOk result (λ _. bindings.new.items ≡ bindings.old.items ++ map (λ b. (b.0.index, b.1)) added.now) }
{
    for binding in added {
        bindings.push((binding.0.index, binding.1))?;
    }
    Ok(())
}

// Puts bindings of the frame in, one after another.
fn put_all(bindings: &mut Vec<(u32, Term)>, added: &[(Var, Term)]) -> Result<(), AllocError>
    ensures { IfOk result (λ _. bindings.new.items ≡ put_all bindings.old.items added.now) }
{
    for binding in added {
        put(bindings, binding.0.index, binding.1)?;
    }
    Ok(())
}

// Puts a binding behind those of its index and of the indices before it.
fn put(bindings: &mut Vec<(u32, Term)>, index: u32, term: Term) -> Result<(), AllocError>
    ensures { IfOk result (λ _. bindings.new.items ≡ put_at bindings.old.items index term) }
{
    let place = place_of(bindings, index);
    if place == bindings.len() {
        bindings.push((index, term))?;
        return Ok(());
    }
    bindings.insert(place, (index, term))?;
    Ok(())
}

// How many bindings at the front are of this index or of one before it.
fn place_of(bindings: &[(u32, Term)], index: u32) -> usize
    ensures { result ≡ place_at bindings.now index }
{
    let mut place = 0;
    while place < bindings.len() && bindings[place].0 <= index {
        place += 1;
    }
    place
}
