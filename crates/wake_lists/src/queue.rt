//! The open places by their tokens, in the order of their turns, and their tokens by the places.

ghost use Rattle.std.specs.Prelude.{◌≡◌, [], None, Some, true, length, OnOk, OnErr};
ghost use Rattle.std.specs.Map.{lookup};
ghost use Rattle.wake_lists.specs.declared.turn.Urgency.{Urgency};
ghost use Rattle.wake_lists.specs.Lines.{needs_room};
ghost use Rattle.wake_lists.specs.Queue.{HasNone, IsTokenOf, IsNext, GetsLast, is_place};
ghost use Rattle.wake_lists.specs.Slots.{IsTakenOut};
ghost use lib.Dec.{eqb};

use crate::place_map::PlaceMap;
use crate::schedule::Schedule;
use crate::turn::{Opened, Urgency};
use akl_terms::Place;
use std::alloc::{AllocError, Global};
use std::marker::Model;

/// The open places by their tokens, each once, and each with a turn of its own.
#[derive(Drop)]
pub(crate) struct Queue {
    schedule: Schedule,
    tokens: PlaceMap<u64>,
}

impl Model for Queue {
    ghost use Rattle.std.specs.Prelude.{List, ℕ};
    ghost use Rattle.wake_lists.specs.declared.turn.Opened.{Opened};
    ghost use Rattle.wake_lists.specs.Queue.{AreQueued};

    ghost Value = { List (ℕ × Opened) };

    ghost view = { λ q. q.schedule };

    ghost invariant = { λ q. AreQueued q.schedule q.tokens };
}

impl Queue {
    pub(crate) fn new(alloc: Global) -> Queue
        ensures { result ≡ [] }
    {
        Queue {
            schedule: Schedule::new(alloc),
            tokens: PlaceMap::new(alloc),
        }
    }

    pub(crate) fn count(&self) -> usize
        ensures { result ≡ length self.now }
    {
        self.schedule.count()
    }

    /// The open place with this token.
    pub(crate) fn get(&self, token: u64) -> Option<Opened>
        ensures { result ≡ lookup (eqb token) self.now }
    {
        self.schedule.get(token)
    }

    /// The token of the place.
    pub(crate) fn token_of(&self, place: Place) -> Option<u64>
        ensures { IsTokenOf self.now place result }
    {
        self.tokens.get(place).copied()
    }

    /// The token of the place whose turn comes before all others.
    pub(crate) fn first(&self) -> Option<u64>
        ensures { IsNext self.now result }
    {
        self.schedule.first()
    }

    /// The token of the late place whose turn comes after all others.
    pub(crate) fn last_late(&self) -> Option<u64> {
        self.schedule.last_late()
    }

    /// Enters a place that isn't open under a token that no place has, behind all others that are as urgent. An `Err`,
    /// for want of memory, leaves all as it was.
    pub(crate) fn insert(
        &mut self,
        token: u64,
        place: Place,
        urgency: Urgency,
    ) -> Result<(), AllocError>
        requires free { lookup (eqb token) self.old ≡ None }
        requires closed { HasNone (is_place place) self.old }
        ensures entered { OnOk result (GetsLast self.old self.new token place urgency) }
        ensures unchanged { OnErr result (self.new ≡ self.old) }
    {
        self.tokens.insert(place, token)?;
        if self.schedule.insert(token, place, urgency).is_err() {
            self.tokens.remove(place);
            return Err(AllocError);
        }
        Ok(())
    }

    /// Puts the open place with this token behind all others that are as urgent as this. An `Err`, for want of memory,
    /// leaves all as it was.
    pub(crate) fn retime(
        &mut self,
        token: u64,
        opened: Opened,
        urgency: Urgency,
    ) -> Result<(), AllocError>
        requires { lookup (eqb token) self.old ≡ Some opened }
        ensures entered { OnOk result (GetsLast self.old self.new token opened.place urgency) }
        ensures unchanged { OnErr result (self.new ≡ self.old) }
    {
        self.schedule.retime(token, opened, urgency)
    }

    /// Puts the open place with this token, which isn't urgent, behind all others that are.
    pub(crate) fn make_urgent(&mut self, token: u64, opened: Opened)
        requires open { lookup (eqb token) self.old ≡ Some opened }
        requires calm { needs_room opened.turn.urgency ≡ true }
        ensures { GetsLast self.old self.new token opened.place Urgency.Urgent }
    {
        self.schedule.make_urgent(token, opened);
    }

    /// Takes out the open place with this token, where there is one.
    pub(crate) fn remove(&mut self, token: u64) -> Option<Opened>
        ensures was { result ≡ lookup (eqb token) self.old }
        ensures gone { IsTakenOut self.old self.new token }
    {
        let opened = self.schedule.remove(token)?;
        self.tokens.remove(opened.place);
        Some(opened)
    }
}
