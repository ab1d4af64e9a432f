//! What a store has of its frames, in a tree.
ghost use Rattle.std.specs.Prelude.{◌≡◌, ◌++◌, [], true, IfOk, IfErr, OnOk, if◌then◌else◌};
ghost use Rattle.std.specs.List.Sorted.{IsStrictlySortedBy};
ghost use Rattle.akl_terms.specs.Names.{name_cmp};
ghost use Rattle.rational_unify.specs.Known.{found_in};
ghost use Rattle.local_store.specs.Chained.{BindNone};
ghost use Rattle.local_store.specs.Stored.{is_named, named, joins};
ghost use Rattle.local_store.specs.Kept.{AreOf, AreInOrder, IsKept, of_frame, frames_of, bindings_of};

use crate::frame_bindings::FrameBindings;
use crate::shared::Shared;
use akl_terms::{Name, Term, Var};
use frame_map::{Change, FrameMap};
use smallvec::SmallVec;
use std::alloc::{AllocError, Global};
use std::marker::Model;

/// Frames that are a store's own and bindings of variables, found by the frame. Copies share all nodes, and each frame with
/// what binds its variables.
#[derive(Drop)]
pub(crate) struct Settled {
    frames: FrameMap<Shared<FrameBindings>>,
}

// Bindings of its variables that a frame gets, and whether it becomes one of the store's own.
#[derive(Clone, Copy)]
struct Added<'a> {
    alloc: Global,
    own: bool,
    bindings: &'a [(Var, Term)],
}

impl<'a> Change<Shared<FrameBindings>> for Added<'a> {
    ghost use Rattle.local_store.specs.Kept.{IsAdded};

    ghost makes = { λ a old new. IsAdded a.own a.bindings.now old new };

    fn change(self, known: &mut Option<Shared<FrameBindings>>) -> Result<(), AllocError> {
        match known {
            Some(shared) => shared.add(self.alloc, self.own, self.bindings),
            None => {
                let first = FrameBindings::of(self.alloc, self.own, self.bindings)?;
                *known = Some(Shared::new(self.alloc, first)?);
                Ok(())
            }
        }
    }
}

impl Model for Settled {
    ghost use Rattle.std.specs.Prelude.{List};
    ghost use Rattle.akl_terms.specs.declared.name.Name.{Name};
    ghost use Rattle.local_store.specs.declared.frame_bindings.FrameBindings.{FrameBindings};
    ghost use Rattle.local_store.specs.Kept.{IsKept};

    ghost Value = { List (Name × FrameBindings) };

    ghost view = { λ s. s.frames };

    ghost invariant = { λ s. IsKept s.frames };
}

impl Settled {
    /// Nothing is there.
    pub(crate) fn new(alloc: Global) -> Settled
        ensures { result ≡ [] }
    {
        Settled {
            frames: FrameMap::new(alloc),
        }
    }

    /// Whether nothing is there.
    pub(crate) fn is_empty(&self) -> bool {
        self.frames.is_empty()
    }

    /// The same again. Want of memory comes only where a count of holders is full.
    pub(crate) fn share(&self) -> Result<Settled, AllocError>
        ensures { IfOk result (λ s. s ≡ self.now) }
    {
        Ok(Settled {
            frames: self.frames.share()?,
        })
    }

    /// Whether the frame is one of the store's own.
    pub(crate) fn has_frame(&self, frame: Name) -> bool
        ensures { result ≡ is_named (frames_of self.now) frame }
    {
        match self.frames.get(frame) {
            Some(known) => known.get().own,
            None => false,
        }
    }

    /// What the first binding of the variable binds it to.
    #[inline(always)]
    pub(crate) fn first_binding(&self, variable: Var) -> Option<Term>
        ensures found { result ≡ found_in (bindings_of self.now) variable }
        ensures ordered { AreInOrder (bindings_of self.now) }
    {
        self.frames.get(variable.frame)?.get().first(variable.index)
    }

    /// Whether nothing is there of the frame, so that none of its variables is bound.
    #[inline(always)]
    pub(crate) fn binds_none(&self, frame: Name) -> bool
        ensures none { result ≡ true → BindNone (bindings_of self.now) frame }
        ensures ordered { AreInOrder (bindings_of self.now) }
    {
        match self.frames.get(frame) {
            Some(_) => false,
            None => true,
        }
    }

    /// The frame gets these bindings of its variables, and becomes one of the store's own where `own` says so. An `Err`, for
    /// want of memory, leaves all as it was.
    pub(crate) fn put(
        &mut self,
        alloc: Global,
        frame: Name,
        own: bool,
        bindings: &[(Var, Term)],
    ) -> Result<(), AllocError>
        requires { AreOf frame bindings.now }
        ensures frames { IfOk result (λ _. frames_of self.new ≡ (if own then named (frames_of self.old) frame else frames_of self.old)) }
        ensures bindings { IfOk result (λ _. bindings_of self.new ≡ joins (bindings_of self.old) bindings.now) }
        ensures unchanged { IfErr result (λ _. self.new ≡ self.old) }
    {
        let added = Added {
            alloc,
            own,
            bindings,
        };
        self.frames.change(frame, added)?;
        Ok(())
    }

    /// The frames alone.
    pub(crate) fn without_bindings(&self, alloc: Global) -> Result<Settled, AllocError>
        ensures frames { IfOk result (λ s. frames_of s ≡ frames_of self.now) }
        ensures bindings { IfOk result (λ s. bindings_of s ≡ []) }
    {
        let mut settled = Settled::new(alloc);
        for frame in &self.frames(alloc)? {
            settled.put(alloc, *frame, true, &[])?;
        }
        Ok(settled)
    }

    // The frames with what binds their variables.
    fn entries(&self, alloc: Global) -> Result<Vec<(Name, Shared<FrameBindings>)>, AllocError>
        ensures all { IfOk result (λ list. list.items ≡ self.now) }
        ensures kept { IsKept self.now }
    {
        let mut list = Vec::new(alloc);
        self.frames.push_entries(&mut list)?;
        Ok(list)
    }

    /// The store's own frames, in increasing order.
    pub(crate) fn frames(&self, alloc: Global) -> Result<Vec<Name>, AllocError>
        ensures all { IfOk result (λ list. list.items ≡ frames_of self.now) }
        ensures ordered { IsStrictlySortedBy name_cmp (frames_of self.now) }
    {
        let entries = self.entries(alloc)?;
        let mut list = Vec::with_capacity(alloc, entries.len())?;
        for entry in &entries {
            if entry.1.get().own {
                list.push(entry.0)?;
            }
        }
        Ok(list)
    }

    /// The bindings in increasing order of variables, those of one variable in the order in which they were added.
    pub(crate) fn bindings(&self, alloc: Global) -> Result<SmallVec<(Var, Term), 4>, AllocError>
        ensures { IfOk result (λ list. list.items ≡ bindings_of self.now) }
    {
        let entries = self.entries(alloc)?;
        let mut list = SmallVec::new(alloc);
        for entry in &entries {
            push_bindings(entry.0, &entry.1.get().bindings, &mut list)?;
        }
        Ok(list)
    }
}

// The bindings of a frame's variables come to the end of a list.
fn push_bindings(
    frame: Name,
    bindings: &[(u32, Term)],
    list: &mut SmallVec<(Var, Term), 4>,
) -> Result<(), AllocError>
    ensures { OnOk result (list.new.items ≡ list.old.items ++ of_frame frame bindings.now) }
{
    list.reserve(bindings.len())?;
    for binding in bindings {
        let variable = Var {
            frame,
            index: binding.0,
        };
        list.push((variable, binding.1))?;
    }
    Ok(())
}
