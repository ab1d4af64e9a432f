//! One line of tokens, in the order of their turns' numbers.

ghost use Rattle.std.specs.Prelude.{◌≡◌, ◌+◌, ◌<◌, ◌≤◌, [], ◌∷◌, ◌++◌, OnOk, OnErr};
ghost use Rattle.std.specs.VecDeque.{deque_len, deque_capacity};
ghost use Rattle.wake_lists.specs.Lines.{front_of, is_current, HasCurrentFront, IsThinned};

use crate::slots::Slots;
use crate::turn::{Opened, Turn, Urgency};
use std::alloc::{AllocError, Global};
use std::collections::VecDeque;
use std::marker::Model;

// A line with no more entries than this keeps those between its ends that aren't current.
const SHORT: usize = 16;

/// A token, and the number of the turn that its place got when it came into the line.
#[derive(Clone, Copy)]
pub(crate) struct Entry {
    pub number: u64,
    pub token: u64,
}

/// The tokens of places that are as urgent as one another, in increasing order of their turns' numbers. An entry whose
/// place is closed, or has another turn by now, isn't current; it may stay until it stands at an end. Besides, it keeps
/// room for entries that may come.
#[derive(Drop)]
pub(crate) struct Line {
    entries: VecDeque<Entry>,
    // For how many more entries it keeps room.
    reserved: usize,
}

impl Model for Line {
    ghost use Rattle.std.specs.Prelude.{◌+◌, ◌≤◌};
    ghost use Rattle.std.specs.VecDeque.{deque_len, deque_capacity};
    ghost use Rattle.wake_lists.specs.Lines.{LineValue};

    ghost Value = { LineValue };

    ghost view = { λ l. record { entries = l.entries.items; reserved = l.reserved } };

    ghost invariant = { λ l. deque_len l.entries + l.reserved ≤ deque_capacity l.entries };
}

impl Line {
    pub(crate) fn new(alloc: Global) -> Line
        ensures { result ≡ record { entries = []; reserved = 0 } }
    {
        Line {
            entries: VecDeque::new(alloc),
            reserved: 0,
        }
    }

    /// For how many more entries it keeps room.
    pub(crate) fn reserved(&self) -> usize
        ensures { result ≡ self.now.reserved }
    {
        self.reserved
    }

    /// Adds an entry at the back, beside those for which room is kept. An `Err`, for want of memory, leaves the line as it
    /// was.
    pub(crate) fn push(&mut self, entry: Entry) -> Result<(), AllocError>
        ensures pushed { OnOk result (self.new ≡ record self.old { entries = self.old.entries ++ entry ∷ [] }) }
        ensures unchanged { OnErr result (self.new ≡ self.old) }
    {
        make_room(&mut self.entries, self.reserved)?;
        self.entries.push_back_reserved(entry);
        Ok(())
    }

    /// Keeps room for one more entry. An `Err`, for want of memory, leaves the line as it was.
    pub(crate) fn reserve(&mut self) -> Result<(), AllocError>
        ensures reserved { OnOk result (self.new ≡ record self.old { reserved = self.old.reserved + 1 }) }
        ensures unchanged { OnErr result (self.new ≡ self.old) }
    {
        make_room(&mut self.entries, self.reserved)?;
        self.reserved += 1;
        Ok(())
    }

    /// Keeps room for one entry less.
    pub(crate) fn release(&mut self)
        requires { 0 < self.old.reserved }
        ensures entries { self.new.entries ≡ self.old.entries }
        ensures reserved { self.new.reserved + 1 ≡ self.old.reserved }
    {
        self.reserved -= 1;
    }

    /// Adds an entry at the back for which room was kept.
    pub(crate) fn push_reserved(&mut self, entry: Entry)
        requires { 0 < self.old.reserved }
        ensures entries { self.new.entries ≡ self.old.entries ++ entry ∷ [] }
        ensures reserved { self.new.reserved + 1 ≡ self.old.reserved }
    {
        self.reserved -= 1;
        self.entries.push_back_reserved(entry);
    }

    /// The token at the front.
    pub(crate) fn first(&self) -> Option<u64>
        ensures { result ≡ front_of self.now.entries }
    {
        match self.entries.front() {
            Some(entry) => Some(entry.token),
            None => None,
        }
    }

    /// The token at the back.
    pub(crate) fn last(&self) -> Option<u64> {
        match self.entries.back() {
            Some(entry) => Some(entry.token),
            None => None,
        }
    }

    /// Takes off the entries at both ends that aren't current, and, where the line is long for as many places, those in
    /// between. All such calls together take a time in the order of their number and that of the entries.
    pub(crate) fn thin(&mut self, urgency: Urgency, places: &Slots<Opened>)
        ensures thinned { IsThinned (is_current places.now urgency) self.old.entries self.new.entries }
        ensures front { HasCurrentFront (is_current places.now urgency) self.new.entries }
        ensures reserved { self.new.reserved ≡ self.old.reserved }
    {
        shorten(&mut self.entries, urgency, places);
        thin_back(&mut self.entries, urgency, places);
        thin_front(&mut self.entries, urgency, places);
    }
}

// Makes room for one entry beside so many for which there is room.
#[inline(always)]
fn make_room(entries: &mut VecDeque<Entry>, reserved: usize) -> Result<(), AllocError>
    requires { deque_len entries.old + reserved ≤ deque_capacity entries.old }
    ensures items { entries.new.items ≡ entries.old.items }
    ensures len { deque_len entries.new ≡ deque_len entries.old }
    ensures capacity { deque_capacity entries.old ≤ deque_capacity entries.new }
    ensures room { OnOk result (deque_len entries.new + reserved < deque_capacity entries.new) }
{
    if entries.capacity() - entries.len() > reserved {
        return Ok(());
    }
    let room = reserved.checked_add(1).ok_or(AllocError)?;
    entries.reserve(room)
}

// Keeps only the entries that are current, where there are more than twice as many entries as places.
fn shorten(entries: &mut VecDeque<Entry>, urgency: Urgency, places: &Slots<Opened>)
    ensures thinned { IsThinned (is_current places.now urgency) entries.old.items entries.new.items }
    ensures shorter { deque_len entries.new ≤ deque_len entries.old }
    ensures capacity { deque_capacity entries.new ≡ deque_capacity entries.old }
{
    let count = entries.len();
    if count > SHORT && count / 2 > places.len() {
        entries.retain(|entry| is_current(urgency, *entry, places));
    }
}

// Takes off the entries at the back that aren't current.
fn thin_back(entries: &mut VecDeque<Entry>, urgency: Urgency, places: &Slots<Opened>)
    ensures thinned { IsThinned (is_current places.now urgency) entries.old.items entries.new.items }
    ensures shorter { deque_len entries.new ≤ deque_len entries.old }
    ensures capacity { deque_capacity entries.new ≡ deque_capacity entries.old }
{
    while let Some(entry) = entries.back().copied() {
        if is_current(urgency, entry, places) {
            return;
        }
        entries.pop_back();
    }
}

// Takes off the entries at the front that aren't current.
fn thin_front(entries: &mut VecDeque<Entry>, urgency: Urgency, places: &Slots<Opened>)
    ensures thinned { IsThinned (is_current places.now urgency) entries.old.items entries.new.items }
    ensures front { HasCurrentFront (is_current places.now urgency) entries.new.items }
    ensures shorter { deque_len entries.new ≤ deque_len entries.old }
    ensures capacity { deque_capacity entries.new ≡ deque_capacity entries.old }
{
    while let Some(entry) = entries.front().copied() {
        if is_current(urgency, entry, places) {
            return;
        }
        entries.pop_front();
    }
}

// Whether the place of an entry's token has the turn with which it came into the line of this urgency.
fn is_current(urgency: Urgency, entry: Entry, places: &Slots<Opened>) -> bool
    ensures { result ≡ is_current places.now urgency entry }
{
    match places.get(entry.token) {
        Some(opened) => {
            opened.turn
                == Turn {
                    urgency,
                    number: entry.number,
                }
        }
        None => false,
    }
}
