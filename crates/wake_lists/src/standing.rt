//! The boxes in which each open place stands.

ghost use Rattle.std.specs.Prelude.{◌≡◌, ◌+◌, ◌<◌, [], true, false, ◌==◌, if◌then◌else◌, length, OnOk, OnErr, IfSome, IfNone};
ghost use Rattle.wake_lists.specs.Standing.{names_in, boxes_at, is_in, how_many};

use crate::inside::Inside;
use akl_terms::Name;
use smallvec::SmallVec;
use std::alloc::{AllocError, Global};
use std::marker::Model;
use std::mem;

// Names of boxes: most are so few that they need no allocation.
type Names = SmallVec<Name, 3>;

/// The boxes in which each token stands. Contracts see it as the boxes of each token, from the first on.
#[derive(Drop)]
pub(crate) struct Standing {
    alloc: Global,
    inside: Inside,
    boxes: Vec<Names>,
}

impl Model for Standing {
    ghost use Rattle.std.specs.Prelude.{List};
    ghost use Rattle.akl_terms.specs.declared.name.Name.{Name};
    ghost use Rattle.wake_lists.specs.Standing.{names_in, AreStanding};

    ghost Value = { List (List Name) };

    ghost view = { λ s. names_in s.boxes.items };

    ghost invariant = { λ s. AreStanding s.inside (names_in s.boxes.items) };
}

impl Standing {
    pub(crate) fn new(alloc: Global) -> Standing
        ensures { result ≡ [] }
    {
        Standing {
            alloc,
            inside: Inside::new(alloc),
            boxes: Vec::new(alloc),
        }
    }

    /// Has a token that stands in no box stand in these. An `Err`, for want of memory, leaves all as it was.
    pub(crate) fn enter(&mut self, token: u64, around: &[Name]) -> Result<(), AllocError>
        requires { boxes_at token self.old ≡ [] }
        ensures entered { OnOk result ((t : _) → boxes_at t self.new ≡ (if t == token then around.now else boxes_at t self.old)) }
        ensures unchanged { OnErr result ((t : _) → boxes_at t self.new ≡ boxes_at t self.old) }
    {
        make_room(self.alloc, &mut self.boxes, token)?;
        let boxes = Names::from_slice(self.alloc, around)?;
        if let Err(refused) = self.inside.add_all(token, around) {
            self.inside.remove_all(token, around);
            return Err(refused);
        }
        self.boxes[token as usize] = boxes;
        Ok(())
    }

    /// Has a token stand in no box.
    pub(crate) fn exit(&mut self, token: u64)
        ensures boxes { (t : _) → boxes_at t self.new ≡ (if t == token then [] else boxes_at t self.old) }
        ensures fewer { how_many self.new + length (boxes_at token self.old) ≡ how_many self.old }
    {
        if let Some(slot) = self.boxes.get_mut(token as usize) {
            let boxes = mem::replace(slot, Names::new(self.alloc));
            self.inside.remove_all(token, boxes.as_slice());
            drop(boxes);
        }
    }

    /// Has the tokens that stand in the box stand in none.
    pub(crate) fn leave(&mut self, name: Name)
        ensures { (t : _) → boxes_at t self.new ≡ (if is_in name (boxes_at t self.old) then [] else boxes_at t self.old) }
    {
        while let Some(token) = self.first(name) {
            self.exit(token);
        }
    }

    /// The least token that stands in the box.
    pub(crate) fn first(&self, name: Name) -> Option<u64>
        ensures there { IfSome result (λ t. is_in name (boxes_at t self.now) ≡ true) }
        ensures empty { IfNone result ((t : _) → is_in name (boxes_at t self.now) ≡ false) }
    {
        self.inside.first(name)
    }

    /// A token other than this one that stands in the box.
    pub(crate) fn other(&self, name: Name, token: u64) -> Option<u64>
        ensures there { IfSome result (λ t. is_in name (boxes_at t self.now) ≡ true) }
        ensures other { IfSome result (λ t. t ≡ token → ⊥) }
        ensures none { IfNone result ((t : _) → is_in name (boxes_at t self.now) ≡ true → t ≡ token) }
    {
        self.inside.other(name, token)
    }
}

// There is a list for the token, an empty one where there was none.
fn make_room(alloc: Global, boxes: &mut Vec<Names>, token: u64) -> Result<(), AllocError>
    ensures room { OnOk result (token < length boxes.new.items) }
    ensures same { (t : _) → boxes_at t (names_in boxes.new.items) ≡ boxes_at t (names_in boxes.old.items) }
{
    while boxes.len() <= token as usize {
        boxes.push(Names::new(alloc))?;
    }
    Ok(())
}
