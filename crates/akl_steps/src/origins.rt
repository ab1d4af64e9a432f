//! Where the frames, the choices and the boxes of a run come from.

use akl_terms::{Goal, Name};
use box_tree::{BoxCopy, InnerBox, NewBox};
use local_store::Store;
use std::alloc::{AllocError, Global};
use std::collections::BTreeMap;

/// The frame of a query's variables.
const FRAME: Name = Name {
    worker: 0,
    number: 1,
};

/// Where what has a name comes from.
#[derive(Clone, Copy)]
pub enum Origin {
    /// A frame of the query's variables.
    Query,
    /// A choice from the call that it was, or an alternative or its frame from a clause of what was called, by the clause's place
    /// in its definition, from 0.
    Call { call: Goal, clause: usize },
}

/// Where the frames, the choices and the boxes of a run come from, by their names, which are all different. Those that have gone
/// stay known. It keeps for itself that memory was wanting.
#[derive(Drop)]
pub struct Origins {
    known: BTreeMap<Name, Origin>,
    /// The new names of what the last split has copied, by the old ones.
    copies: BTreeMap<Name, Name>,
    is_whole: bool,
}

impl Origins {
    /// Those of a query before its first step.
    pub fn new(alloc: Global) -> Origins {
        let mut origins = Origins {
            known: BTreeMap::new(alloc),
            copies: BTreeMap::new(alloc),
            is_whole: true,
        };
        origins.add(FRAME, Origin::Query);
        origins
    }

    /// Where what has this name comes from, if it is known.
    pub fn of(&self, name: Name) -> Option<Origin> {
        self.known.get(&name).copied()
    }

    /// Whether no memory was wanting.
    pub fn is_whole(&self) -> bool {
        self.is_whole
    }

    // What has a name comes from there.
    fn add(&mut self, name: Name, origin: Origin) {
        if self.known.insert(name, origin).is_err() {
            self.is_whole = false;
        }
    }

    // An alternative comes from there, with the frames of its store.
    fn add_alternative(&mut self, made: &NewBox, origin: Origin) {
        self.add(made.name, origin);
        match made.store.get().frames() {
            Ok(frames) => {
                for frame in &frames {
                    self.add(*frame, origin);
                }
            }
            Err(_) => self.is_whole = false,
        }
    }

    /// A call becomes the choice of these boxes.
    pub fn fork(&mut self, choice: Name, call: Goal, boxes: &[NewBox]) {
        self.add(choice, Origin::Call { call, clause: 0 });
        let mut clause = 0usize;
        for made in boxes {
            self.add_alternative(made, Origin::Call { call, clause });
            clause = clause.saturating_add(1);
        }
    }

    // What has the old name gets a copy, which comes from the copy of its call where the call's frame was copied before.
    fn copy(&mut self, old: Name, new: Name) {
        if self.copies.insert(old, new).is_err() {
            self.is_whole = false;
        }
        if let Some(mut origin) = self.of(old) {
            if let Origin::Call { call, .. } = &mut origin {
                if let Some(frame) = self.copies.get(&call.frame) {
                    call.frame = *frame;
                }
            }
            self.add(new, origin);
        }
    }

    // The frames of a store have those of its copy.
    fn copy_frames(&mut self, old: &Store, new: &Store) -> Result<(), AllocError> {
        let old = old.frames()?;
        let new = new.frames()?;
        let mut copies = new.iter();
        for frame in &old {
            if let Some(copy) = copies.next() {
                self.copy(*frame, *copy);
            }
        }
        Ok(())
    }

    // A box has a copy, with its frames and its goals.
    fn copy_box(&mut self, inner: &InnerBox, copy: &BoxCopy) {
        self.copy(inner.name, copy.name);
        let done = self.copy_frames(inner.store.get(), copy.store.get());
        if done.is_err() {
            self.is_whole = false;
        }
        let mut copies = copy.goals.iter();
        for goal in &inner.goals {
            if let Some((name, _)) = copies.next() {
                self.copy(goal.name, *name);
            }
        }
    }

    /// A box is split at an alternative: it and the boxes inside it, from the outermost on, have copies but the alternative.
    pub fn split(&mut self, alternative: Name, boxes: &[InnerBox], copies: &[BoxCopy]) {
        self.copies.clear();
        let mut copies = copies.iter();
        for inner in boxes {
            if inner.name != alternative {
                if let Some(copy) = copies.next() {
                    self.copy_box(inner, copy);
                }
            }
        }
    }
}
