//! How an open place is looked at.

ghost use Rattle.std.specs.Prelude.{◌≡◌};
ghost use Rattle.std.specs.List.{list_any};
ghost use Rattle.akl_terms.specs.declared.name.Place.{Place};
ghost use Rattle.table_laws.specs.Walks.{alternatives_of};
ghost use Rattle.box_tree.specs.Tables.{table_of};
ghost use Rattle.box_tree.specs.Paths.{sight_in};
ghost use Rattle.scheduler.specs.Resting.{IsAtRest};
ghost use Rattle.scheduler.specs.Attending.{is_collecting, has_open, urgency_at, is_late, is_ordinary, is_young, if_busy, atom_attention, choice_attention, attention_of};
ghost use Rattle.scheduler.specs.declared.attention.Attention.{Attention};

use crate::scheduler::Scheduler;
use crate::turns::LABELS_A_PLACE;
use akl_model::Item;
use akl_terms::{Code, Name, Place};
use box_tree::{HeldOp, Sight, Table};
use wake_lists::Urgency;

/// How an open place is looked at.
#[derive(Clone, Copy, Debug, PartialEq, Eq)]
pub enum Attention {
    /// For all rules, with all that stands inside it.
    Whole,
    /// The same of a call that may wait until it is known which clause is left: it is ordinary, and fewer than sixteen labels
    /// were made for each open place since it was.
    Early,
    /// For rules other than Split alone: it is a box that may fail, or in which something is open.
    Tried,
    /// Not yet: it is late, or it is a choice that collects; and something is open inside it.
    PutOff,
}

impl Scheduler {
    /// How the open place with this token is looked at, once it comes. A box is looked at whole only where nothing is open
    /// in it. A late place is put off exactly while something is open inside it. So is a choice that collects, that is while
    /// an alternative is open, or something that stands in one: no rule applies to it before all of them are solved, so that
    /// its solutions may come one after another without a look at all of them for each.
    pub fn attention_at(&self, token: u64, place: Place) -> Attention
        ensures attention { result ≡ attention_of self.now token place }
        ensures rest { result ≡ Attention.Whole → IsAtRest self.now.openings place }
        ensures early { result ≡ Attention.Early → IsAtRest self.now.openings place }
    {
        match place {
            Place::Goal(goal) => self.attention_at_goal(token, goal),
            Place::Box(name) => self.attention_at_box(token, name),
        }
    }

    // The same for a box.
    fn attention_at_box(&self, token: u64, name: Name) -> Attention
        ensures { result ≡ attention_of self.now token (Place.Box name) }
    {
        match self.urgency_of(token) {
            Some(Urgency::Urgent) => Attention::Tried,
            Some(Urgency::Late) => if_busy(self.open.busy(name), Attention::PutOff),
            Some(Urgency::Ordinary) | None => if_busy(self.open.busy(name), Attention::Tried),
        }
    }

    // The same for a goal.
    fn attention_at_goal(&self, token: u64, goal: Name) -> Attention
        ensures { result ≡ attention_of self.now token (Place.Goal goal) }
    {
        match self.core.table().sight_of(Place::Goal(goal)) {
            Some((_, Sight::Atom(atom))) => self.attention_at_atom(token, goal, atom.code),
            Some((_, Sight::Choice { op })) => self.attention_at_choice(token, goal, op),
            Some((_, Sight::Box { .. })) | None => Attention::Whole,
        }
    }

    // The same for an atom.
    fn attention_at_atom(&self, token: u64, goal: Name, code: Code) -> Attention
        ensures { result ≡ atom_attention (urgency_at token self.now.openings) code (is_young self.now goal) }
    {
        let Code::Call { .. } = code else {
            return Attention::Whole;
        };
        if self.is_ordinary(token) && self.is_young(goal) {
            Attention::Early
        } else {
            Attention::Whole
        }
    }

    // The same for a choice.
    fn attention_at_choice(&self, token: u64, goal: Name, op: HeldOp) -> Attention
        ensures { result ≡ choice_attention (urgency_at token self.now.openings) op (list_any (has_open self.now.openings) (alternatives_of ((table_of self.now.core.table).goal_of goal))) }
    {
        let may_wait = self.is_late(token) || matches!(op, HeldOp::Collect(_));
        let busy = may_wait && self.has_open(self.core.table().alternatives_of(goal));
        if_busy(busy, Attention::PutOff)
    }

    // Whether fewer than sixteen labels were made for each open place since a goal was made.
    fn is_young(&self, goal: Name) -> bool
        ensures { result ≡ is_young self.now goal }
    {
        match self.core.table().stamp(Item::Goal(goal)) {
            Some(made) => {
                let labels = self.core.journal_len().saturating_sub(made);
                labels / (LABELS_A_PLACE as u64) < self.open.count() as u64
            }
            None => false,
        }
    }

    // Whether the open place with this token is ordinary.
    fn is_ordinary(&self, token: u64) -> bool
        ensures { result ≡ is_ordinary (urgency_at token self.now.openings) }
    {
        match self.urgency_of(token) {
            Some(Urgency::Ordinary) => true,
            Some(Urgency::Urgent) | Some(Urgency::Late) | None => false,
        }
    }

    // Whether the open place with this token is late.
    fn is_late(&self, token: u64) -> bool
        ensures { result ≡ is_late (urgency_at token self.now.openings) }
    {
        match self.urgency_of(token) {
            Some(Urgency::Late) => true,
            Some(Urgency::Urgent) | Some(Urgency::Ordinary) | None => false,
        }
    }

    // Whether one of these boxes is open, or something that stands in one. The last comes first: the copies of a box that was
    // split stand behind it, so that of solutions that come one after another the last is the one that isn't solved.
    fn has_open(&self, boxes: &[Name]) -> bool
        ensures { result ≡ list_any (has_open self.now.openings) boxes.now }
    {
        for k in (0..boxes.len()).rev() {
            if self.has_open_at(boxes[k]) {
                return true;
            }
        }
        false
    }

    // Whether a box is open, or something that stands in it.
    fn has_open_at(&self, name: Name) -> bool
        ensures { result ≡ has_open self.now.openings name }
    {
        self.open.busy(name) || self.open.token_of(Place::Box(name)).is_some()
    }
}

// This where something is open inside of a place.
fn if_busy(busy: bool, attention: Attention) -> Attention
    ensures { result ≡ if_busy busy attention }
{
    if busy { attention } else { Attention::Whole }
}

/// Whether a goal is a choice that collects.
pub(crate) fn collects(table: &Table, goal: Name) -> bool
    ensures { result ≡ is_collecting (sight_in table.now (Place.Goal goal)) }
{
    match table.sight_of(Place::Goal(goal)) {
        Some(
            (
                _,
                Sight::Choice {
                    op: HeldOp::Collect(_),
                },
            ),
        ) => true,
        _ => false,
    }
}
