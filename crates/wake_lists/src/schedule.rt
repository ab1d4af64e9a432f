//! The open places by their tokens, in the order in which they come.

ghost use Rattle.std.specs.Prelude.{◌≡◌, [], None, Some, true, length, OnOk, OnErr};
ghost use Rattle.std.specs.Map.{lookup};
ghost use Rattle.wake_lists.specs.declared.turn.Urgency.{Urgency};
ghost use Rattle.wake_lists.specs.Lines.{needs_room};
ghost use Rattle.wake_lists.specs.Queue.{IsNext, GetsLast};
ghost use Rattle.wake_lists.specs.Slots.{IsTakenOut};
ghost use lib.Dec.{eqb};

use crate::lines::Lines;
use crate::slots::Slots;
use crate::turn::{Opened, Urgency};
use akl_terms::Place;
use std::alloc::{AllocError, Global};
use std::marker::Model;

/// The open places by their tokens, each with a turn, and its token in the line of its urgency. One that isn't urgent has
/// room in the line of those that are, so that it becomes so without asking for memory.
#[derive(Drop)]
pub(crate) struct Schedule {
    places: Slots<Opened>,
    lines: Lines,
}

impl Model for Schedule {
    ghost use Rattle.std.specs.Prelude.{List, ℕ};
    ghost use Rattle.wake_lists.specs.declared.turn.Opened.{Opened};
    ghost use Rattle.wake_lists.specs.Lines.{AreScheduled};

    ghost Value = { List (ℕ × Opened) };

    ghost view = { λ s. s.places };

    ghost invariant = { λ s. AreScheduled s.places s.lines };
}

impl Schedule {
    pub(crate) fn new(alloc: Global) -> Schedule
        ensures { result ≡ [] }
    {
        Schedule {
            places: Slots::new(alloc),
            lines: Lines::new(alloc),
        }
    }

    pub(crate) fn count(&self) -> usize
        ensures { result ≡ length self.now }
    {
        self.places.len()
    }

    /// The open place with this token.
    pub(crate) fn get(&self, token: u64) -> Option<Opened>
        ensures { result ≡ lookup (eqb token) self.now }
    {
        self.places.get(token).copied()
    }

    /// The token of the place whose turn comes before all others.
    pub(crate) fn first(&self) -> Option<u64>
        ensures { IsNext self.now result }
    {
        self.lines.first()
    }

    /// The token of the late place whose turn comes after all others.
    pub(crate) fn last_late(&self) -> Option<u64> {
        self.lines.last_late()
    }

    /// Enters a place under a token that no place has, behind all others that are as urgent. An `Err`, for want of
    /// memory, leaves all as it was.
    pub(crate) fn insert(
        &mut self,
        token: u64,
        place: Place,
        urgency: Urgency,
    ) -> Result<(), AllocError>
        requires { lookup (eqb token) self.old ≡ None }
        ensures entered { OnOk result (GetsLast self.old self.new token place urgency) }
        ensures unchanged { OnErr result (self.new ≡ self.old) }
    {
        let turn = self.lines.enter(urgency, token)?;
        if self.places.insert(token, Opened { place, turn }).is_err() {
            self.lines.leave(urgency, &self.places);
            return Err(AllocError);
        }
        Ok(())
    }

    /// Puts the open place with this token behind all others that are as urgent as this. An `Err`, for want of memory,
    /// leaves all as it was.
    pub(crate) fn retime(
        &mut self,
        token: u64,
        opened: Opened,
        urgency: Urgency,
    ) -> Result<(), AllocError>
        requires { lookup (eqb token) self.old ≡ Some opened }
        ensures entered { OnOk result (GetsLast self.old self.new token opened.place urgency) }
        ensures unchanged { OnErr result (self.new ≡ self.old) }
    {
        let turn = self.lines.enter(urgency, token)?;
        self.places.set(token, Opened { turn, ..opened });
        self.lines.leave(opened.turn.urgency, &self.places);
        Ok(())
    }

    /// Puts the open place with this token, which isn't urgent, behind all others that are.
    pub(crate) fn make_urgent(&mut self, token: u64, opened: Opened)
        requires open { lookup (eqb token) self.old ≡ Some opened }
        requires calm { needs_room opened.turn.urgency ≡ true }
        ensures { GetsLast self.old self.new token opened.place Urgency.Urgent }
    {
        let turn = self.lines.enter_urgent(token);
        self.places.set(token, Opened { turn, ..opened });
        self.lines.thin(opened.turn.urgency, &self.places);
    }

    /// Takes out the open place with this token, where there is one.
    pub(crate) fn remove(&mut self, token: u64) -> Option<Opened>
        ensures was { result ≡ lookup (eqb token) self.old }
        ensures gone { IsTakenOut self.old self.new token }
    {
        let opened = self.places.remove(token)?;
        self.lines.leave(opened.turn.urgency, &self.places);
        Some(opened)
    }
}
