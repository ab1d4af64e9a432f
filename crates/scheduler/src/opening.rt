//! Places that are opened together, or none of them.

ghost use Rattle.std.specs.Prelude.{IfOk, IfErr, ◌≡◌};
ghost use Rattle.scheduler.specs.Opening.{AreOpened, IsOpenedBy, closed_back};
ghost use Rattle.scheduler.specs.Counting.{OpensBySteps, OpenSomeBySteps};

use crate::counting::count;
use akl_terms::{Place, Steps};
use opened_places::Placed;
use smallvec::SmallVec;
use std::alloc::{AllocError, Global};
use std::sync::ledger::Ledger;
use wake_lists::{Open, Urgency};

/// Opens these places: the tokens of those that weren't open, in order. It counts a step for each of these, and for each
/// box around it. An `Err`, for want of memory, leaves all as it was.
pub(crate) fn open_all<L: Ledger>(
    alloc: Global,
    open_places: &mut Open,
    places: &[Placed],
    steps: &mut Steps<L>,
) -> Result<SmallVec<u64, 4>, AllocError>
    ensures opened { IfOk result (λ tokens. AreOpened open_places.old places.now open_places.new tokens.items) }
    ensures unchanged { IfErr result (λ _. open_places.new ≡ open_places.old) }
    ensures steps { OpenSomeBySteps places.now steps.old steps.new }
{
    let mut tokens = SmallVec::new(alloc);
    for placed in places {
        if let Err(error) = open_one(open_places, placed, &mut tokens, steps) {
            close_all(open_places, tokens);
            return Err(error);
        }
    }
    Ok(tokens)
}

// Opens a place: its token comes to the end of the tokens, where it wasn't open. An `Err` leaves all as it was.
fn open_one<L: Ledger>(
    open_places: &mut Open,
    placed: &Placed,
    tokens: &mut SmallVec<u64, 4>,
    steps: &mut Steps<L>,
) -> Result<(), AllocError>
    ensures opened { IfOk result (λ _. IsOpenedBy open_places.old tokens.old.items placed.now open_places.new tokens.new.items) }
    ensures unchanged { IfErr result (λ _. open_places.new ≡ open_places.old) }
    ensures tokens { IfErr result (λ _. tokens.new.items ≡ tokens.old.items) }
    ensures steps { OpensBySteps open_places.old placed.now steps.old steps.new }
{
    let place = placed.place();
    if open_places.token_of(place).is_some() {
        return Ok(());
    }
    steps.tick();
    count(placed.around().len(), steps);
    let token = open_places.open_new(place, placed.around(), urgency_at_first(place))?;
    if tokens.push(token).is_err() {
        open_places.close(token);
        return Err(AllocError);
    }
    Ok(())
}

// A goal comes in its turn. Rules other than Split apply to a box where it fails, which makes it urgent, so else it is late.
fn urgency_at_first(place: Place) -> Urgency {
    match place {
        Place::Goal(_) => Urgency::Ordinary,
        Place::Box(_) => Urgency::Late,
    }
}

/// Closes the places with these tokens, the last one first.
pub(crate) fn close_all(open_places: &mut Open, tokens: SmallVec<u64, 4>)
    ensures { open_places.new ≡ closed_back tokens.items open_places.old }
{
    let mut left = tokens;
    while let Some(token) = left.pop() {
        open_places.close(token);
    }
}
