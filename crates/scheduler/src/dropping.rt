//! What a commit leaves of places that opened or went.

ghost use Rattle.std.specs.Prelude.{◌≡◌, ◌+◌, true, false, Some, length, option_map, IfSome};
ghost use Rattle.scheduler.specs.Dropping.{DropsWaits, boxes_among, closed_one, closed_among, after_going, is_place_in, places_under};
ghost use Rattle.scheduler.specs.Counting.{DropBySteps};
ghost use Rattle.wake_lists.specs.Open.{after_leave};
ghost use Rattle.wake_lists.specs.Waits.{waits_on};

use crate::counting::count;
use akl_terms::{Place, Steps};
use std::sync::ledger::Ledger;
use wake_lists::{Open, Waits};

/// The places that are open under these tokens wait no more. It counts a step for each of their waits.
pub(crate) fn drop_opened<L: Ledger>(
    waits: &mut Waits,
    open_places: &Open,
    tokens: &[u64],
    steps: &mut Steps<L>,
)
    ensures waits { DropsWaits waits.old (places_under tokens.now open_places.now) waits.new }
    ensures steps { DropBySteps waits.old (places_under tokens.now open_places.now) steps.old steps.new }
{
    for token in tokens {
        if let Some(place) = open_places.place_of(*token) {
            count(waits.drop_place(place).len(), steps);
        }
    }
}

/// Places that went wait no more; this one among them, where there is one, waits on nothing. It counts a step for each of
/// them, and for each of their waits.
pub(crate) fn drop_gone<L: Ledger>(
    waits: &mut Waits,
    awake: Option<Place>,
    places: &[Place],
    steps: &mut Steps<L>,
)
    requires { IfSome awake (λ place. (x : _) → waits_on waits.old place x ≡ false) }
    ensures waits { DropsWaits waits.old places.now waits.new }
    ensures steps { DropBySteps waits.old places.now (steps.old + length places.now) steps.new }
{
    for place in places {
        steps.tick();
        if !is_awake(awake, *place) {
            count(waits.drop_place(*place).len(), steps);
        }
    }
}

/// Of these places that went nothing stands any more in those that were boxes; and what was open under a token is
/// closed, where its place is one of them.
pub(crate) fn leave_gone(open_places: &mut Open, own: Option<u64>, place: Place, gone: &[Place])
    ensures { open_places.new ≡ after_going own place gone.now open_places.old }
{
    leave_boxes(open_places, gone);
    if is_among(place, gone) {
        close_one(open_places, own);
    }
}

// Nothing stands any more in the boxes among these places.
fn leave_boxes(open_places: &mut Open, gone: &[Place])
    ensures { open_places.new ≡ after_leave (boxes_among gone.now) open_places.old }
{
    for place in gone {
        match place {
            Place::Box(name) => open_places.leave(&[*name]),
            Place::Goal(_) => {}
        }
    }
}

// Whether the place is this one.
fn is_awake(awake: Option<Place>, place: Place) -> bool
    ensures { result ≡ true → awake ≡ Some place }
{
    match awake {
        Some(other) => other == place,
        None => false,
    }
}

/// A place, where it has a token.
pub(crate) fn place_under(token: Option<u64>, place: Place) -> Option<Place>
    ensures { result ≡ option_map (λ _. place) token }
{
    match token {
        Some(_) => Some(place),
        None => None,
    }
}

/// Closes what is open under a token, where there is one.
pub(crate) fn close_one(open_places: &mut Open, token: Option<u64>)
    ensures { open_places.new ≡ closed_one token open_places.old }
{
    if let Some(number) = token {
        open_places.close(number);
    }
}

/// Whether a place is one of these.
pub(crate) fn is_among(place: Place, places: &[Place]) -> bool
    ensures { result ≡ is_place_in place places.now }
{
    places.contains(&place)
}
