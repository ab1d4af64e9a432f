//! Places grouped by their numbers.

ghost use Rattle.std.specs.Prelude.{◌≡◌, ◌<◌, ℕ, List, [], ◌∷◌, All, length, map, IfOk};
ghost use Rattle.tree_parts.specs.Firsts.{at_node};
ghost use Rattle.tree_parts.specs.Lists.{ArePlaces, AreGroups};

use crate::firsts::first_places;
use std::alloc::{AllocError, Global};

// The items at these places, and 0 where there is none.
pub(crate) fn picked(
    alloc: Global,
    items: &[usize],
    places: &[usize],
) -> Result<Vec<usize>, AllocError>
    ensures { IfOk result (λ v. v.items ≡ map (at_node items.now) places.now) }
{
    let mut found = Vec::new(alloc);
    for place in places {
        found.push(items.get(*place).copied().unwrap_or(0))?;
    }
    Ok(found)
}

// For each number below a count the places that have it.
pub(crate) fn places_by(
    alloc: Global,
    numbers: &[usize],
    count: usize,
) -> Result<Vec<Vec<usize>>, AllocError>
    requires below { All (λ c. c < count) numbers.now }
    ensures size { IfOk result (λ lists. length lists.items ≡ count) }
    ensures places { IfOk result (λ lists. ArePlaces numbers.now (map (λ v. v.items) lists.items) (length numbers.now)) }
{
    let mut lists = empty_lists(alloc, count)?;
    for place in 0..numbers.len() {
        lists[numbers[place]].push(place)?;
    }
    Ok(lists)
}

// As many empty lists.
fn empty_lists(alloc: Global, count: usize) -> Result<Vec<Vec<usize>>, AllocError>
    ensures size { IfOk result (λ lists. length lists.items ≡ count) }
    ensures places { IfOk result (λ lists. (numbers : List ℕ) → ArePlaces numbers (map (λ v. v.items) lists.items) 0) }
{
    let mut lists = Vec::new(alloc);
    for _ in 0..count {
        lists.push(Vec::new(alloc))?;
    }
    Ok(lists)
}

// The places in groups of one key.
pub(crate) fn groups(alloc: Global, keys: &[usize]) -> Result<Vec<Vec<usize>>, AllocError>
    ensures { IfOk result (λ v. AreGroups keys.now (map (λ g. g.items) v.items)) }
{
    let singles = singles(alloc, keys)?;
    let firsts = first_places(alloc, &singles)?;
    let lists = places_by(alloc, &firsts, keys.len())?;
    Ok(lists)
}

// Each key as a list.
fn singles(alloc: Global, keys: &[usize]) -> Result<Vec<Vec<usize>>, AllocError>
    ensures { IfOk result (λ v. map (λ k. k.items) v.items ≡ map (λ k. k ∷ []) keys.now) }
{
    let mut lists = Vec::new(alloc);
    for key in keys {
        let mut list = Vec::new(alloc);
        list.push(*key)?;
        lists.push(list)?;
    }
    Ok(lists)
}
