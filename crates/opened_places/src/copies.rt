//! The places that a split makes.

ghost use Rattle.std.specs.Prelude.{List, map, IfOk, OnOk};
ghost use Rattle.opened_places.specs.Copies.{CopyPart, part_of, parts_of, IsWithin, AreHomes, PutsGoals, AddsCopy, AddsCopies};

use crate::placed::{Placed, push_placed};
use crate::places::push_goals;
use akl_terms::{Name, Place};
use box_tree::BoxCopy;
use std::alloc::{AllocError, Global};
use std::collections::BTreeMap;

/// The copy in which a copied goal stands.
#[derive(Clone, Copy)]
pub(crate) struct CopyHome {
    name: Name,
    /// The copied choice that holds it; `None` for the copy of the box that is split.
    holder: Option<Name>,
}

// The goals of a copy get this as their home.
fn put_goals<T>(
    goals: &[(Name, T)],
    home: CopyHome,
    homes: &mut BTreeMap<Name, CopyHome>,
) -> Result<(), AllocError>
    ensures { OnOk result (PutsGoals (map (λ x. x.0) goals.now) home homes.old.entries homes.new.entries) }
{
    for (name, _) in goals {
        homes.insert(*name, home)?;
    }
    Ok(())
}

// The home of each goal of the copies.
fn homes_of(alloc: Global, copies: &[BoxCopy]) -> Result<BTreeMap<Name, CopyHome>, AllocError>
    ensures { IfOk result (λ homes. AreHomes (parts_of copies.now) homes.entries) }
{
    let mut homes = BTreeMap::new(alloc);
    for copied in copies {
        let home = CopyHome {
            name: copied.name,
            holder: copied.holder,
        };
        put_goals(copied.goals.as_slice(), home, &mut homes)?;
    }
    Ok(homes)
}

// The copies around one, the outermost first, by the choice that holds it. An `Err` comes for want of memory, and where
// no copies hold one another so.
fn copies_around(
    alloc: Global,
    homes: &BTreeMap<Name, CopyHome>,
    holder: Option<Name>,
) -> Result<Vec<Name>, AllocError>
    ensures { IfOk result (λ names. (copies : List CopyPart) → AreHomes copies homes.now.entries → IsWithin copies holder names.items) }
{
    let mut names = Vec::new(alloc);
    let mut at = holder;
    let mut left = homes.len();
    while let Some(goal) = at {
        let Some(home) = homes.get(&goal) else {
            return Err(AllocError);
        };
        if left == 0 {
            return Err(AllocError);
        }
        names.push(home.name)?;
        at = home.holder;
        left -= 1;
    }
    names.reverse();
    Ok(names)
}

// A copy comes to the end of the places with its goals, where these boxes are around the box that is split.
fn push_copy(
    alloc: Global,
    copied: &BoxCopy,
    around: &[Name],
    homes: &BTreeMap<Name, CopyHome>,
    places: &mut Vec<Placed>,
) -> Result<(), AllocError>
    ensures { OnOk result ((copies : List CopyPart) → AreHomes copies homes.now.entries → AddsCopy around.now copies (part_of copied.now) places.old.items places.new.items) }
{
    let inner = copies_around(alloc, homes, copied.holder)?;
    let mut path = Vec::from_slice(alloc, around)?;
    path.extend_from_slice(inner.as_slice())?;
    push_placed(alloc, Place::Box(copied.name), path.as_slice(), places)?;
    path.push(copied.name)?;
    push_goals(alloc, copied.goals.as_slice(), path.as_slice(), places)?;
    Ok(())
}

/// The copies of a split come to the end of the places, each with its goals, where these boxes are around the box that
/// is split.
pub(crate) fn push_copies(
    alloc: Global,
    copies: &[BoxCopy],
    around: &[Name],
    places: &mut Vec<Placed>,
) -> Result<(), AllocError>
    ensures { OnOk result (AddsCopies around.now (parts_of copies.now) (parts_of copies.now) places.old.items places.new.items) }
{
    let homes = homes_of(alloc, copies)?;
    for copied in copies {
        push_copy(alloc, copied, around, &homes, places)?;
    }
    Ok(())
}
