//! Blocks split by single blocks, the smaller part of each first.

ghost use Rattle.std.specs.Prelude.{◌≡◌, length, map, IfOk, OnOk};
ghost use Rattle.tree_parts.specs.Lists.{ArePlaces};
ghost use Rattle.tree_parts.specs.Splits.{AreListed, ArePairs, AreSplitByBlock};
ghost use Rattle.tree_parts.specs.Parts.{AreWithin, AreEven, AreNamed, IsPartition};

use crate::entries::{Entries, number_entries};
use crate::firsts::first_places;
use crate::groups::{groups, picked, places_by};
use crate::naming::{Naming, hits, split_by};
use crate::queue::Queue;
use std::alloc::{AllocError, Global};

// A partition that refines a start and keeps nothing apart that doesn't differ. It agrees with the
// rows too, so it is the coarsest; but no clause says so, as `refine` finds it out by a round.
//
// A node splits others at most as often as its block can be halved. So the time is in proportion to
// the entries times the square of the logarithm of the nodes, and less where few blocks are split.
// A turn takes one block that waits. In all, no more wait than there are blocks in the end, so a
// turn for each node is enough.
pub(crate) fn split_early(
    alloc: Global,
    rows: &[Vec<usize>],
    start: &[usize],
) -> Result<Vec<usize>, AllocError>
    requires size { length start.now ≡ length rows.now }
    requires within { AreWithin (map (λ v. v.items) rows.now) }
    requires even { AreEven (map (λ v. v.items) rows.now) start.now }
    requires named { AreNamed start.now }
    ensures { IfOk result (λ v. IsPartition (map (λ v. v.items) rows.now) start.now v.items) }
{
    let entries = number_entries(alloc, rows)?;
    let into = places_by(alloc, &entries.nexts, rows.len())?;
    let mut naming = Naming {
        names: Vec::from_slice(alloc, start)?,
        members: places_by(alloc, start, rows.len())?,
    };
    let mut queue = Queue::new(alloc, &naming.members)?;
    for _ in 0..rows.len() {
        let Some(name) = queue.next() else { break };
        split_by_block(alloc, &entries, &into, &mut naming, &mut queue, name)?;
    }
    let keys = pairs(alloc, start, &naming.names)?;
    let firsts = first_places(alloc, &keys)?;
    Ok(firsts)
}

// Splits blocks by the places at which their nodes have an entry of this block, one place after another.
fn split_by_block(
    alloc: Global,
    entries: &Entries,
    into: &[Vec<usize>],
    naming: &mut Naming,
    queue: &mut Queue,
    name: usize,
) -> Result<(), AllocError>
    requires places { length entries.now.places.items ≡ length entries.now.nodes.items }
    requires nexts { length entries.now.nexts.items ≡ length entries.now.nodes.items }
    requires into { ArePlaces entries.now.nexts.items (map (λ v. v.items) into.now) (length entries.now.nexts.items) }
    requires size { length into.now ≡ length naming.old.names.items }
    requires listed { AreListed naming.old.names.items (map (λ v. v.items) naming.old.members.items) }
    ensures split { OnOk result (AreSplitByBlock entries.now.nodes.items entries.now.places.items entries.now.nexts.items name naming.old.names.items naming.new.names.items) }
    ensures listed { OnOk result (AreListed naming.new.names.items (map (λ v. v.items) naming.new.members.items)) }
{
    let Some(members) = naming.members.get(name) else {
        return Ok(());
    };
    let found = hits(alloc, &naming.names, into, name, members)?;
    let places = picked(alloc, &entries.places, &found)?;
    let parts = groups(alloc, &places)?;
    for place in 0..parts.len() {
        let numbers = picked(alloc, &found, &parts[place])?;
        let nodes = picked(alloc, &entries.nodes, &numbers)?;
        split_by(alloc, naming, queue, &nodes)?;
    }
    Ok(())
}

// For each node what it starts in, and its name.
fn pairs(alloc: Global, start: &[usize], names: &[usize]) -> Result<Vec<Vec<usize>>, AllocError>
    requires { length names.now ≡ length start.now }
    ensures { IfOk result (λ keys. ArePairs start.now names.now (map (λ k. k.items) keys.items) (length start.now)) }
{
    let mut keys = Vec::new(alloc);
    for node in 0..start.len() {
        let mut key = Vec::new(alloc);
        key.push(start[node])?;
        key.push(names[node])?;
        keys.push(key)?;
    }
    Ok(keys)
}
