//! Places with the boxes around them.

ghost use Rattle.std.specs.Prelude.{◌≡◌, ◌++◌, [], ◌∷◌, option_map, IfOk, IfSome, OnOk};
ghost use Rattle.box_tree.specs.Drops.{IsOfRun};
ghost use Rattle.opened_places.specs.Placed.{placed, all_but_last, HasAround};

use akl_terms::{Name, Place};
use box_tree::Table;
use smallvec::SmallVec;
use std::alloc::{AllocError, Global};
use std::marker::Model;

/// Names of boxes: most are so few that they need no allocation.
pub(crate) type Names = SmallVec<Name, 3>;

/// A place, with the boxes around it.
#[derive(Drop)]
pub struct Placed {
    place: Place,
    around: Names,
}

impl Model for Placed {
    ghost use Rattle.opened_places.specs.Placed.{PlacedValue};

    ghost Value = { PlacedValue };

    ghost view = { λ p. record { place = p.place; around = p.around.items } };
}

/// These names. Most lists have one name at most.
pub(crate) fn names_of(alloc: Global, names: &[Name]) -> Result<Names, AllocError>
    ensures { IfOk result (λ list. list.items ≡ names.now) }
{
    let mut list = Names::new(alloc);
    match names {
        [] => Ok(list),
        [name] => {
            list.push_reserved(*name);
            Ok(list)
        }
        _ => Names::from_slice(alloc, names),
    }
}

impl Placed {
    /// The place.
    pub fn place(&self) -> Place
        ensures { result ≡ self.now.place }
    {
        self.place
    }

    /// The boxes in which it stands, the outermost first. Around a goal the innermost is the one in which it stands
    /// directly; a box doesn't stand in itself.
    pub fn around(&self) -> &[Name]
        ensures { result.now ≡ self.now.around }
    {
        self.around.as_slice()
    }
}

/// A place with these boxes around it comes to the end of the places.
pub(crate) fn push_placed(
    alloc: Global,
    place: Place,
    around: &[Name],
    places: &mut Vec<Placed>,
) -> Result<(), AllocError>
    ensures { OnOk result (places.new.items ≡ places.old.items ++ placed place around.now ∷ []) }
{
    let around = names_of(alloc, around)?;
    places.push(Placed { place, around })?;
    Ok(())
}

/// The boxes around a box, by the boxes down to it.
pub(crate) fn all_but_last(path: &[Name]) -> &[Name]
    ensures { result.now ≡ all_but_last path.now }
{
    match path.split_last() {
        Some((_, around)) => around,
        None => &[],
    }
}

/// A place with the boxes around it; `None` exactly where it isn't there. It takes as long as these boxes are many. An
/// `Err` comes for want of memory.
pub fn placed_at(alloc: Global, table: &Table, place: Place) -> Result<Option<Placed>, AllocError>
    requires { IsOfRun table.now }
    ensures place { IfOk result (λ found. IfSome found (λ p. p.place ≡ place)) }
    ensures around { IfOk result (λ found. HasAround table.now place (option_map (λ p. p.around) found)) }
{
    let Some((home, _)) = table.sight_of(place) else {
        return Ok(None);
    };
    let path = table.path_to(alloc, home)?;
    match place {
        Place::Goal(_) => {
            let around = Names::from_slice(alloc, path.as_slice())?;
            Ok(Some(Placed { place, around }))
        }
        Place::Box(_) => {
            let around = Names::from_slice(alloc, all_but_last(path.as_slice()))?;
            Ok(Some(Placed { place, around }))
        }
    }
}
