//! Places that aren't ready, each until what it read changes or a variable on which it waits is bound.

ghost use Rattle.std.specs.Prelude.{◌≡◌, length};
ghost use Rattle.idle_places.specs.Idling.{IdleValue, IsIdle};

use akl_model::{Item, Label};
use akl_terms::{Place, Var};
use box_tree::View;
use std::marker::Model;
use std::snapshot::Snapshot;

/// A place that isn't ready, with the items that were read to see this, and variables that are enough for it to wait
/// on. It remembers in no bytes the view by which it was found.
#[derive(Drop)]
pub struct Idle {
    view: Snapshot<View>,
    seen: u64,
    place: Place,
    reads: Vec<Item>,
    on: Vec<Var>,
    looked_inside: bool,
    ghost same_length: { seen ≡ length view.value.journal },
}

impl Model for Idle {
    ghost use Rattle.idle_places.specs.Idling.{IdleValue, IsIdle};

    ghost Value = { IdleValue };

    ghost view = { λ i. record { table = i.view.value.table; journal = i.view.value.journal; place = i.place; reads = i.reads.items; on = i.on.items; inside = i.looked_inside } };

    ghost invariant = { λ i. IsIdle (record { table = i.view.value.table; journal = i.view.value.journal; place = i.place; reads = i.reads.items; on = i.on.items; inside = i.looked_inside }) };
}

impl Idle {
    /// A place that is idle by a view of it, and whether what stands inside it was read. Only a root box need not look
    /// inside.
    pub fn new(view: &View, reads: Vec<Item>, on: Vec<Var>, looked_inside: bool) -> Idle
        requires { IsIdle (record { table = view.now.table; journal = view.now.journal; place = view.now.place; reads = reads.items; on = on.items; inside = looked_inside }) }
        ensures { result ≡ record { table = view.now.table; journal = view.now.journal; place = view.now.place; reads = reads.items; on = on.items; inside = looked_inside } }
    {
        Idle {
            view: Snapshot::of(view),
            seen: view.seen(),
            place: view.place(),
            reads,
            on,
            looked_inside,
        }
    }

    /// How many labels the journal had when the place was looked at.
    pub fn seen(&self) -> u64
        ensures { result ≡ length self.now.journal }
    {
        self.seen
    }

    /// The place.
    pub fn place(&self) -> Place
        ensures { result ≡ self.now.place }
    {
        self.place
    }

    /// The items that were read: while they are unchanged the place isn't ready, whatever it waits on.
    pub fn reads(&self) -> &[Item]
        ensures reads { result.now ≡ self.now.reads }
        ensures right { IsIdle self.now }
    {
        self.reads.as_slice()
    }

    /// The variables on which the place waits: each concerns it, and they are enough for it. One may be listed more than
    /// once.
    pub fn on(&self) -> &[Var]
        ensures { result.now ≡ self.now.on }
    {
        self.on.as_slice()
    }

    /// Whether what stands inside the place was read, if it is a box. Where it wasn't, a root box that has come to a goal by
    /// which it fails, or to a candidate of a split, may be ready though what it read is unchanged.
    pub fn looked_inside(&self) -> bool
        ensures { result ≡ self.now.inside }
    {
        self.looked_inside
    }
}
