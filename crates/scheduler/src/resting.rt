//! Open places in which nothing is open.

ghost use Rattle.std.specs.Prelude.{◌≡◌, None, IfSome, IfNone};
ghost use Rattle.wake_lists.specs.Open.{opening_at};
ghost use Rattle.scheduler.specs.Schedulers.{IsQuiet};
ghost use Rattle.scheduler.specs.Resting.{IsOpenAtRest, IsInsideAt};

use crate::scheduler::Scheduler;
use akl_terms::Place;

impl Scheduler {
    /// An open place in which nothing is open, with its token: the place that comes first, or one that stands inside it.
    /// `None` exactly where no place is open; then no place is ready.
    ///
    /// It takes as many look-ups as boxes stand in one another there.
    pub fn first_at_rest(&self) -> Option<(u64, Place)>
        ensures rest { IfSome result (IsOpenAtRest self.now.openings) }
        ensures quiet { IfNone result (IsQuiet self.now) }
    {
        let token = self.open.first()?;
        self.at_rest_in(token)
    }

    /// An open place in which nothing is open, with its token: the one that has this token, or one that stands inside it.
    /// `None` exactly where no open place has the token.
    ///
    /// It takes as many look-ups as boxes stand in one another there.
    pub fn at_rest_in(&self, token: u64) -> Option<(u64, Place)>
        ensures rest { IfSome result (IsOpenAtRest self.now.openings) }
        ensures none { IfNone result (opening_at token self.now.openings ≡ None) }
    {
        let _ = self.open.place_of(token)?;
        let mut inner = token;
        while let Some(next) = self.inside(inner) {
            inner = next;
        }
        let place = self.open.place_of(inner)?;
        Some((inner, place))
    }

    // The token of an open place that stands in the box to which a token leads.
    fn inside(&self, token: u64) -> Option<u64>
        ensures { IsInsideAt self.now.openings token result }
    {
        match self.open.place_of(token)? {
            Place::Goal(_) => None,
            Place::Box(name) => self.open.inside(name),
        }
    }
}
