//! What a plan makes of the box of its place.

use crate::entries::{Held, HeldOp};
use akl_terms::{Goal, Name, ShownTerm, Term};
use local_store::{Part, Shared, Store};

/// A box that a plan makes. Its goals are atoms, in increasing order of names.
#[derive(Drop)]
pub struct NewBox {
    pub name: Name,
    pub store: Shared<Store>,
    /// Whether the store is solved over the stores around it.
    pub solved: bool,
    pub goals: Vec<(Name, Goal)>,
    pub body: Vec<Goal>,
    pub collected: Option<Term>,
}

/// The copy of a box that is split, or of a box inside it, under new names.
#[derive(Drop)]
pub struct BoxCopy {
    pub name: Name,
    /// The choice that holds it, itself one of the copies; `None` for the copy of the box that is split.
    pub holder: Option<Name>,
    pub store: Shared<Store>,
    /// Whether the store is solved over the stores around it.
    pub solved: bool,
    /// Its goals, in increasing order of names.
    pub goals: Vec<(Name, Held)>,
    pub body: Vec<Goal>,
    /// What an answer shows of a root box.
    pub shown: Vec<ShownTerm>,
    pub collected: Option<Term>,
}

/// What a plan makes of the box of its place.
#[derive(Drop)]
pub enum Step {
    /// Something is added to the store of the box, which may be solved over the stores around it then, and the goal goes.
    Tell {
        part: Part,
        solved: bool,
    },
    /// The goal becomes the choice of these boxes.
    Fork {
        op: HeldOp,
        alternatives: Vec<NewBox>,
    },
    /// The box goes, with all that stands in it.
    Fail,
    /// The choice loses the alternatives for which a solved one, that of the label, leaves no room.
    Cut,
    /// All alternatives of the choice, which are solved, join the box. Something is added to its store, which may be solved
    /// over the stores around it then, and it gets new goals, atoms in increasing order of names. Of a call so many labels come
    /// behind the one by which they join, and so many of these up to the last one that tells the box an equation; none else.
    Join {
        part: Part,
        solved: bool,
        goals: Vec<(Name, Goal)>,
        told: u64,
        behind: u64,
    },
    /// The goal becomes `fail`, by which its box fails.
    Refute,
    /// The goal goes, and the box keeps its store.
    Confirm,
    /// The box becomes two: the choice of the label's alternative keeps this alone, and the copies come, in any order, of
    /// the box and of the boxes inside it but the alternative. What holds the box gets the box's own copy after it.
    Split {
        copy: Name,
        copies: Vec<BoxCopy>,
    },
}
