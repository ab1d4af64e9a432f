//! Which places a label opens by what it changes, which ones it takes away, and what stands about a place.
#![tactic(auto)]

mod around;
mod copies;
mod gone;
mod inside;
mod laws;
mod placed;
mod places;

pub use around::{Around, Holder, around_of};
pub use gone::gone_places;
pub use inside::places_inside;
pub use laws::opens;
pub use placed::{Placed, placed_at};
pub use places::changed_places;
