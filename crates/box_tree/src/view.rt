//! What is seen of a place.

ghost use Rattle.std.specs.Prelude.{◌≡◌, length, is_some, IfOk};
ghost use Rattle.box_tree.specs.Views.{IsViewOf};

use crate::entries::HeldOp;
use crate::short::ShortList;
use crate::table::Table;
use akl_model::Label;
use akl_terms::{Goal, Name, Place, Program, Query, Templates, Term};
use local_store::{Chain, Shared, Store};
use std::alloc::{AllocError, Global};
use std::marker::Model;
use std::snapshot::Snapshot;

/// Why there is no view of a place.
#[derive(Clone, Copy, Debug)]
pub enum LookError {
    /// The place isn't in the configuration.
    Gone,
    /// There was no memory.
    Memory(AllocError),
}

impl From<AllocError> for LookError {
    ghost use Rattle.box_tree.specs.declared.view.LookError.TheVariants as variants;

    ghost from_gives = { λ cause error. error ≡ variants.Memory cause };

    fn from(error: AllocError) -> Self {
        LookError::Memory(error)
    }
}

/// What stands at a place.
#[derive(Clone, Copy)]
pub enum Sight {
    Atom(Goal),
    Choice { op: HeldOp },
    /// A box, with a goal by which it fails, where it has one.
    Box { failing: Option<Name> },
}

/// What is seen of an alternative of a choice.
#[derive(Drop)]
pub struct Alternative {
    pub name: Name,
    /// Whether it has no goals.
    pub solved: bool,
    pub store: Shared<Store>,
    /// How many of the outermost stores, from the root box down to its own, are known to be solved together.
    pub known: usize,
    /// What is collected of it, where the choice collects.
    pub collected: Option<Term>,
}

/// What is seen of a place: all that a plan for it needs. It remembers in no bytes the table and the journal of which
/// it was taken.
#[derive(Drop)]
pub struct View {
    pub(crate) table: Snapshot<Table>,
    pub(crate) journal: Snapshot<Vec<Label>>,
    pub(crate) parts: Box<ViewParts>,
    ghost same_length: { parts.value.seen ≡ length journal.value.items },
    ghost same_marks: { parts.value.marked ≡ is_some table.value.marks },
}

// The parts of a view, which stand in a box since a view passes through results.
#[derive(Drop)]
pub(crate) struct ViewParts {
    pub(crate) place: Place,
    pub(crate) worker: u32,
    pub(crate) seen: u64,
    pub(crate) next: u64,
    pub(crate) path: ShortList<Name>,
    pub(crate) stores: ShortList<Shared<Store>>,
    pub(crate) known: usize,
    pub(crate) sight: Sight,
    pub(crate) alternatives: Vec<Alternative>,
    pub(crate) body: Vec<Goal>,
    pub(crate) marked: bool,
}

impl Model for View {
    ghost use Rattle.box_tree.specs.Views.{ViewValue, IsViewOf};

    ghost Value = { ViewValue };

    ghost view = { λ v. record { table = v.table.value; journal = v.journal.value.items; place = v.parts.value.place; worker = v.parts.value.worker; next = v.parts.value.next; path = v.parts.value.path.items; stores = v.parts.value.stores.items; known = v.parts.value.known; sight = v.parts.value.sight; alternatives = v.parts.value.alternatives.items; body = v.parts.value.body.items } };

    ghost invariant = { λ v. IsViewOf (record { table = v.table.value; journal = v.journal.value.items; place = v.parts.value.place; worker = v.parts.value.worker; next = v.parts.value.next; path = v.parts.value.path.items; stores = v.parts.value.stores.items; known = v.parts.value.known; sight = v.parts.value.sight; alternatives = v.parts.value.alternatives.items; body = v.parts.value.body.items }) };
}

impl ViewParts {
    // The parts in a box of their own. An `Err` is want of memory.
    pub(crate) fn boxed(self, alloc: Global) -> Result<Box<ViewParts>, AllocError>
        ensures { IfOk result (λ parts. parts.value ≡ self) }
    {
        Ok(Box::new(alloc, self)?)
    }
}

impl View {
    /// The place that was looked at.
    pub fn place(&self) -> Place
        ensures place { result ≡ self.now.place }
        ensures seen { IsViewOf self.now }
    {
        self.parts.place
    }

    /// The worker that looked.
    pub fn worker(&self) -> u32
        ensures { result ≡ self.now.worker }
    {
        self.parts.worker
    }

    /// How many labels the journal had.
    pub fn seen(&self) -> u64
        ensures { result ≡ length self.now.journal }
    {
        self.parts.seen
    }

    /// The worker's next number.
    pub fn next(&self) -> u64
        ensures { result ≡ self.now.next }
    {
        self.parts.next
    }

    /// The boxes from the root box down to the place's box: the box itself, or the one in which the goal stands.
    pub fn path(&self) -> &[Name]
        ensures { result.now ≡ self.now.path }
    {
        self.parts.path.as_slice()
    }

    /// What stands at the place.
    pub fn sight(&self) -> Sight
        ensures { result ≡ self.now.sight }
    {
        self.parts.sight
    }

    /// The alternatives of the choice at the place, in order; none at another place.
    pub fn alternatives(&self) -> &[Alternative]
        ensures alternatives { result.now ≡ self.now.alternatives }
        ensures seen { IsViewOf self.now }
    {
        self.parts.alternatives.as_slice()
    }

    /// The body of the only alternative; no goals where there is none or more than one.
    pub fn body(&self) -> &[Goal]
        ensures { result.now ≡ self.now.body }
    {
        self.parts.body.as_slice()
    }

    /// Whether the table keeps marks of variables, as it does for several workers.
    pub fn keeps_marks(&self) -> bool
        ensures { result ≡ is_some self.now.table.marks }
    {
        self.parts.marked
    }

    /// The stores of the boxes from the root box down to the place's box.
    pub fn stores(&self) -> &[Shared<Store>]
        ensures { result.now ≡ self.now.stores }
    {
        self.parts.stores.as_slice()
    }

    /// How many of the outermost of these stores are known to be solved together.
    pub fn known(&self) -> usize
        ensures { result ≡ self.now.known }
    {
        self.parts.known
    }

    /// The stores of these boxes, with how many of the outermost are known to be solved together.
    pub fn chain<'a>(&'a self, templates: &'a Templates) -> Chain<'a>
        requires { templates.now.nodes ≡ self.now.table.program.templates.nodes }
        ensures nodes { result.nodes ≡ templates.now.nodes }
        ensures symbols { result.symbols ≡ templates.now.symbols }
        ensures stores { result.stores ≡ self.now.stores }
        ensures known { result.known ≡ self.now.known }
        ensures seen { IsViewOf self.now }
    {
        Chain::of_solved(templates, self.parts.stores.as_slice(), self.parts.known)
    }
}
