//! The open places, in the order in which they come.

ghost use Rattle.std.specs.Prelude.{◌≡◌, [], None, Some, length, option_map, IfOk, IfErr};
ghost use Rattle.wake_lists.specs.declared.turn.Urgency.{Urgency};
ghost use Rattle.wake_lists.specs.Open.{opening_at, untimed, IsFirst, IsInside, IsOpen, IsOpened, IsHurried, IsPutLast, closed, after_one, after_leave, is_busy};

use crate::queue::Queue;
use crate::standing::Standing;
use crate::tokens::Tokens;
use crate::turn::Urgency;
use akl_terms::{Name, Place};
use std::alloc::{AllocError, Global};
use std::marker::Model;

/// The open places. Contracts see it as these by their tokens, each with its turn and the boxes in which it stands.
///
/// A call takes time in the order of the logarithm of what is held, for each box in which its place stands. One that
/// closes a place or gives it another turn now and then also takes as much as there were such calls since. `leave` takes
/// so much for each place that stands in the boxes, and none of these stands in a box afterwards.
#[derive(Drop)]
pub struct Open {
    queue: Queue,
    standing: Standing,
    numbers: Tokens,
}

impl Model for Open {
    ghost use Rattle.std.specs.Prelude.{List, ℕ};
    ghost use Rattle.wake_lists.specs.Open.{Opening};
    ghost use Rattle.wake_lists.specs.Opened.{openings, AreOpen};

    ghost Value = { List (ℕ × Opening) };

    ghost view = { λ o. openings o.standing o.queue };

    ghost invariant = { λ o. AreOpen o.queue o.standing o.numbers };
}

impl Open {
    /// No place is open.
    pub fn new(alloc: Global) -> Open
        ensures { result ≡ [] }
    {
        Open {
            queue: Queue::new(alloc),
            standing: Standing::new(alloc),
            numbers: Tokens::new(alloc),
        }
    }

    /// Opens a place, and gives its token: the one that it has, where it is open already, or else the least that no
    /// open place has. It stands in each of the boxes around it, and comes after all others that are as urgent; one
    /// that is open already stands where it did, and keeps its turn, unless it was less urgent. An `Err`, for want of
    /// memory, leaves all as it was.
    pub fn open(
        &mut self,
        place: Place,
        around: &[Name],
        urgency: Urgency,
    ) -> Result<u64, AllocError>
        ensures opened { IfOk result (IsOpened self.old self.new place around.now urgency) }
        ensures unchanged { IfErr result (λ _. self.new ≡ self.old) }
    {
        match self.queue.token_of(place) {
            Some(token) => {
                self.hurry(token, urgency)?;
                Ok(token)
            }
            None => self.open_new(place, around, urgency),
        }
    }

    /// Opens a place that isn't open, and gives its token, the least that no open place has. It stands in each of the boxes
    /// around it, and comes after all others that are as urgent. An `Err`, for want of memory, leaves all as it was.
    pub fn open_new(
        &mut self,
        place: Place,
        around: &[Name],
        urgency: Urgency,
    ) -> Result<u64, AllocError>
        requires { IsOpen self.old place None }
        ensures opened { IfOk result (IsOpened self.old self.new place around.now urgency) }
        ensures unchanged { IfErr result (λ _. self.new ≡ self.old) }
    {
        let token = self.numbers.take()?;
        if self.standing.enter(token, around).is_err() {
            self.numbers.give_back(token);
            return Err(AllocError);
        }
        if self.queue.insert(token, place, urgency).is_err() {
            self.standing.exit(token);
            self.numbers.give_back(token);
            return Err(AllocError);
        }
        Ok(token)
    }

    /// Closes the place with this token, where there is one.
    pub fn close(&mut self, token: u64)
        ensures { self.new ≡ closed token self.old }
    {
        if self.queue.remove(token).is_some() {
            self.standing.exit(token);
            self.numbers.give_back(token);
        }
    }

    /// These boxes leave: the places that they are, and those that stand in them, stay open, and stand in no box from
    /// then on.
    pub fn leave(&mut self, boxes: &[Name])
        ensures { self.new ≡ after_leave boxes.now self.old }
    {
        for name in boxes {
            self.leave_one(*name);
        }
    }

    /// How many places are open.
    pub fn count(&self) -> usize
        ensures { result ≡ length self.now }
    {
        self.queue.count()
    }

    /// The open place with this token; `None` exactly where there is none.
    pub fn place_of(&self, token: u64) -> Option<Place>
        ensures { result ≡ option_map (λ o. o.place) (opening_at token self.now) }
    {
        match self.queue.get(token) {
            Some(opened) => Some(opened.place),
            None => None,
        }
    }

    /// How urgent the open place with this token is; `None` exactly where there is none.
    pub fn urgency_of(&self, token: u64) -> Option<Urgency>
        ensures { result ≡ option_map (λ o. o.turn.urgency) (opening_at token self.now) }
    {
        match self.queue.get(token) {
            Some(opened) => Some(opened.turn.urgency),
            None => None,
        }
    }

    /// The token of the place; `None` exactly where it isn't open.
    pub fn token_of(&self, place: Place) -> Option<u64>
        ensures { IsOpen self.now place result }
    {
        self.queue.token_of(place)
    }

    /// The token of the place that comes first: of the most urgent ones the one that has been so longest. `None` exactly
    /// where no place is open.
    pub fn first(&self) -> Option<u64>
        ensures { IsFirst self.now result }
    {
        self.queue.first()
    }

    /// The token of an open place that stands in the box. `None` exactly where none stands in it.
    pub fn inside(&self, name: Name) -> Option<u64>
        ensures { IsInside name self.now result }
    {
        self.standing.first(name)
    }

    /// Whether some open place stands in the box.
    pub fn busy(&self, name: Name) -> bool
        ensures { result ≡ is_busy name self.now }
    {
        self.standing.first(name).is_some()
    }

    /// Whether some open place but the one with this token stands in the box.
    pub fn busy_without(&self, name: Name, token: u64) -> bool
        ensures { result ≡ is_busy name (closed token self.now) }
    {
        self.standing.other(name, token).is_some()
    }

    /// Puts the open place with this token behind all others that are as urgent as this. A token that no open place has
    /// is left alone. An `Err`, for want of memory, leaves all as it was.
    pub fn put_last(&mut self, token: u64, urgency: Urgency) -> Result<(), AllocError>
        ensures put { IfOk result (λ _. IsPutLast self.old self.new urgency token) }
        ensures places { IfOk result (λ _. untimed self.new ≡ untimed self.old) }
        ensures unchanged { IfErr result (λ _. self.new ≡ self.old) }
    {
        let Some(opened) = self.queue.get(token) else {
            return Ok(());
        };
        self.queue.retime(token, opened, urgency)
    }

    /// Puts the open place with this token, where it is less urgent than this, behind all others that are so urgent. A
    /// token that no open place has is left alone. An `Err`, for want of memory, leaves all as it was.
    pub fn hurry(&mut self, token: u64, urgency: Urgency) -> Result<(), AllocError>
        ensures hurried { IfOk result (λ _. IsHurried self.old self.new urgency token) }
        ensures places { IfOk result (λ _. untimed self.new ≡ untimed self.old) }
        ensures unchanged { IfErr result (λ _. self.new ≡ self.old) }
    {
        let Some(now) = self.urgency_of(token) else {
            return Ok(());
        };
        if urgency < now {
            self.put_last(token, urgency)
        } else {
            Ok(())
        }
    }

    /// Puts the open place with this token, where it isn't urgent, behind all others that are. A token that no open place has
    /// is left alone. It asks for no memory: an open place that isn't urgent has had room among those that are since it was
    /// opened, or since it was put off.
    pub fn make_urgent(&mut self, token: u64)
        ensures hurried { IsHurried self.old self.new Urgency.Urgent token }
        ensures places { untimed self.new ≡ untimed self.old }
    {
        let Some(opened) = self.queue.get(token) else {
            return;
        };
        if Urgency::Urgent < opened.turn.urgency {
            self.queue.make_urgent(token, opened);
        }
    }

    /// Puts all late places behind all others that aren't late. Where memory is wanting for it, some stay late.
    pub fn resume_late(&mut self)
        ensures { untimed self.new ≡ untimed self.old }
    {
        for _ in 0..self.queue.count() {
            let Some(token) = self.queue.last_late() else {
                return;
            };
            if self.put_last(token, Urgency::Ordinary).is_err() {
                return;
            }
        }
    }

    // A box leaves.
    fn leave_one(&mut self, name: Name)
        ensures { self.new ≡ after_one name self.old }
    {
        self.standing.leave(name);
        if let Some(token) = self.queue.token_of(Place::Box(name)) {
            self.standing.exit(token);
        }
    }
}
