//! The first place of each key.

ghost use Rattle.std.specs.Prelude.{IfOk, map};
ghost use Rattle.tree_parts.specs.Firsts.{AreFirsts, IsPlaced};

use std::alloc::{AllocError, Global};
use std::collections::HashMap;

/// For each key the first place that has it.
pub fn first_places(alloc: Global, keys: &[Vec<usize>]) -> Result<Vec<usize>, AllocError>
    ensures { IfOk result (λ v. AreFirsts (map (λ k. k.items) keys.now) v.items) }
{
    let mut known = HashMap::new(alloc);
    let mut firsts = Vec::new(alloc);
    for place in 0..keys.len() {
        let first = first_place(alloc, &mut known, &keys[place], place)?;
        firsts.push(first)?;
    }
    Ok(firsts)
}

// The place that an index has for a key, or this one, which the index then has for it.
fn first_place(
    alloc: Global,
    known: &mut HashMap<Vec<usize>, usize>,
    key: &[usize],
    place: usize,
) -> Result<usize, AllocError>
    ensures { IfOk result (λ first. IsPlaced known.old.entries known.new.entries key.now place first) }
{
    if let Some(first) = known.get(key).copied() {
        return Ok(first);
    }
    let owned = Vec::from_slice(alloc, key)?;
    known.insert(owned, place)?;
    Ok(place)
}
