//! Cells of tables.

ghost use Rattle.std.specs.Prelude.{◌≡◌};
ghost use Rattle.tree_models.specs.Tables.{places_of};

use akl_terms::Name;
use std::marker::Model;

/// The places of a symbol's arguments, in order.
#[derive(Drop)]
pub struct Places {
    places: Vec<u64>,
}

impl Model for Places {
    ghost use Rattle.std.specs.Prelude.{List, ℕ};

    ghost Value = { List ℕ };

    ghost view = { λ p. p.places.items };
}

impl Places {
    /// The places of a list, which it keeps. It takes no memory.
    pub fn new(places: Vec<u64>) -> Self
        ensures { result ≡ places.items }
    {
        Places { places }
    }

    /// The list.
    pub fn as_slice(&self) -> &[u64]
        ensures { result.now ≡ self.now }
    {
        self.places.as_slice()
    }
}

/// What stands at a place: nothing told, an integer, a port, or a symbol with the places of its arguments.
#[derive(Drop)]
pub enum Cell {
    Free,
    Int(i128),
    Port(Name),
    Struct { symbol: u32, arguments: Places },
}

impl Cell {
    /// The places of its arguments.
    pub fn arguments(&self) -> &[u64]
        ensures { result.now ≡ places_of self.now }
    {
        match self {
            Cell::Struct { arguments, .. } => arguments.as_slice(),
            _ => &[],
        }
    }
}
