//! A line of tokens for each urgency.

ghost use Rattle.std.specs.Prelude.{◌≡◌, ◌+◌, ◌<◌, ◌≤◌, ◌^◌, [], ◌∷◌, ◌++◌, true, OnOk, OnErr, IfOk};
ghost use Rattle.wake_lists.specs.declared.turn.Urgency.{Urgency};
ghost use Rattle.wake_lists.specs.Lines.{first_of, joined, entered, room_of, IsThinnedAt};

use crate::line::{Entry, Line};
use crate::slots::Slots;
use crate::turn::{Opened, Turn, Urgency};
use std::alloc::{AllocError, Global};
use std::marker::Model;

/// A line for each urgency, in which tokens come with the numbers of their turns. For each token that comes into the line of
/// a lesser urgency, room is kept in that of the urgent places, and a number, until it leaves.
#[derive(Drop)]
pub(crate) struct Lines {
    urgent: Line,
    ordinary: Line,
    late: Line,
    // The number of the next turn.
    next: u64,
}

impl Model for Lines {
    ghost use Rattle.std.specs.Prelude.{◌+◌, ◌<◌, ◌^◌};
    ghost use Rattle.wake_lists.specs.Lines.{LinesValue};

    ghost Value = { LinesValue };

    ghost view = { λ l. record { entries = record { urgent = l.urgent.entries; ordinary = l.ordinary.entries; late = l.late.entries; next = l.next }; reserved = l.urgent.reserved } };

    ghost invariant = { λ l. l.next + l.urgent.reserved < 2 ^ 64 };
}

impl Lines {
    pub(crate) fn new(alloc: Global) -> Lines
        ensures { result ≡ record { entries = record { urgent = []; ordinary = []; late = []; next = 0 }; reserved = 0 } }
    {
        Lines {
            urgent: Line::new(alloc),
            ordinary: Line::new(alloc),
            late: Line::new(alloc),
            next: 0,
        }
    }

    /// A token comes to the back of the line of an urgency: its turn, with a number above all that were given. An
    /// `Err`, for want of memory, leaves all as it was.
    pub(crate) fn enter(&mut self, urgency: Urgency, token: u64) -> Result<Turn, AllocError>
        ensures turn { IfOk result (λ turn. turn ≡ record { urgency = urgency; number = self.old.entries.next }) }
        ensures entered { OnOk result (self.new ≡ entered urgency token self.old) }
        ensures unchanged { OnErr result (self.new ≡ self.old) }
    {
        let number = self.next;
        if !has_numbers(number, self.urgent.reserved()) {
            return Err(AllocError);
        }
        let entry = Entry { number, token };
        match urgency {
            Urgency::Urgent => self.urgent.push(entry)?,
            Urgency::Ordinary => push_beside(&mut self.ordinary, &mut self.urgent, entry)?,
            Urgency::Late => push_beside(&mut self.late, &mut self.urgent, entry)?,
        }
        self.next = number + 1;
        Ok(Turn { urgency, number })
    }

    /// A token for which room was kept comes to the back of the line of the urgent places: its turn, with a number above all
    /// that were given.
    pub(crate) fn enter_urgent(&mut self, token: u64) -> Turn
        requires { 0 < self.old.reserved }
        ensures turn { result ≡ record { urgency = Urgency.Urgent; number = self.old.entries.next } }
        ensures joined { self.new.entries ≡ joined Urgency.Urgent token self.old.entries }
        ensures reserved { self.new.reserved + 1 ≡ self.old.reserved }
    {
        let number = self.next;
        self.urgent.push_reserved(Entry { number, token });
        self.next = number + 1;
        Turn {
            urgency: Urgency::Urgent,
            number,
        }
    }

    /// The token at the front of the first line that isn't empty.
    pub(crate) fn first(&self) -> Option<u64>
        ensures { result ≡ first_of self.now.entries }
    {
        match self.urgent.first() {
            Some(token) => Some(token),
            None => match self.ordinary.first() {
                Some(token) => Some(token),
                None => self.late.first(),
            },
        }
    }

    /// The token at the back of the line of the late places.
    pub(crate) fn last_late(&self) -> Option<u64> {
        self.late.last()
    }

    /// Thins the line of an urgency, which a place left: no room is kept for it.
    pub(crate) fn leave(&mut self, urgency: Urgency, places: &Slots<Opened>)
        requires { room_of urgency ≤ self.old.reserved }
        ensures thinned { IsThinnedAt places.now urgency self.old.entries self.new.entries }
        ensures reserved { self.new.reserved + room_of urgency ≡ self.old.reserved }
    {
        self.thin(urgency, places);
        if Urgency::Urgent < urgency {
            self.urgent.release();
        }
    }

    /// Thins the line of an urgency.
    pub(crate) fn thin(&mut self, urgency: Urgency, places: &Slots<Opened>)
        ensures thinned { IsThinnedAt places.now urgency self.old.entries self.new.entries }
        ensures reserved { self.new.reserved ≡ self.old.reserved }
    {
        match urgency {
            Urgency::Urgent => self.urgent.thin(urgency, places),
            Urgency::Ordinary => self.ordinary.thin(urgency, places),
            Urgency::Late => self.late.thin(urgency, places),
        }
    }
}

// Whether there are two numbers from this one on besides those that are reserved.
fn has_numbers(number: u64, reserved: usize) -> bool
    requires { number + reserved < 2 ^ 64 }
    ensures { result ≡ true → number + reserved + 2 < 2 ^ 64 }
{
    u64::MAX - number - reserved as u64 >= 2
}

// An entry comes to the back of a line, and room is kept for it in that of the urgent places. An `Err`, for want of memory,
// leaves all as it was.
fn push_beside(line: &mut Line, urgent: &mut Line, entry: Entry) -> Result<(), AllocError>
    ensures pushed { OnOk result (line.new ≡ record line.old { entries = line.old.entries ++ entry ∷ [] }) }
    ensures reserved { OnOk result (urgent.new ≡ record urgent.old { reserved = urgent.old.reserved + 1 }) }
    ensures line { OnErr result (line.new ≡ line.old) }
    ensures urgent { OnErr result (urgent.new ≡ urgent.old) }
{
    urgent.reserve()?;
    if line.push(entry).is_err() {
        urgent.release();
        return Err(AllocError);
    }
    Ok(())
}
