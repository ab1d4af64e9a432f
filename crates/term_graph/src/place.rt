//! What tells symbols with arguments apart.

ghost use Rattle.std.specs.Prelude.{◌≡◌};
ghost use Rattle.term_graph.specs.Building.{place_of};

use akl_terms::{Name, Seen};

/// A symbol over neighbouring nodes, under a frame.
#[derive(Clone, Copy, Debug, PartialEq, Eq, Hash)]
pub struct Place {
    pub symbol: u32,
    pub first: u32,
    pub count: u32,
    pub frame: Name,
}

/// The place of a symbol; what has no symbol has none.
pub fn place_of(seen: Seen) -> Option<Place>
    ensures { result ≡ place_of seen }
{
    match seen {
        Seen::Struct {
            symbol,
            first,
            count,
            frame,
        } => Some(Place {
            symbol,
            first,
            count,
            frame,
        }),
        _ => None,
    }
}
