//! Blocks of nodes by names, and how they are split.

ghost use Rattle.std.specs.Prelude.{◌≡◌, length, map, IfOk, OnOk};
ghost use Rattle.tree_parts.specs.Splits.{AreSplit, AreRenamed, AreListed, AreHits};

use crate::groups::{groups, picked};
use crate::queue::Queue;
use std::alloc::{AllocError, Global};

// Of each node the name of its block, and of each name a list of nodes, among them all that have it.
#[derive(Drop)]
pub(crate) struct Naming {
    pub(crate) names: Vec<usize>,
    pub(crate) members: Vec<Vec<usize>>,
}

// Splits the blocks of which some nodes are in the list and some aren't.
pub(crate) fn split_by(
    alloc: Global,
    naming: &mut Naming,
    queue: &mut Queue,
    nodes: &[usize],
) -> Result<(), AllocError>
    requires listed { AreListed naming.old.names.items (map (λ v. v.items) naming.old.members.items) }
    ensures split { OnOk result (AreSplit naming.old.names.items naming.new.names.items nodes.now) }
    ensures listed { OnOk result (AreListed naming.new.names.items (map (λ v. v.items) naming.new.members.items)) }
{
    let names = picked(alloc, &naming.names, nodes)?;
    let parts = groups(alloc, &names)?;
    for place in 0..parts.len() {
        let part = picked(alloc, nodes, &parts[place])?;
        detach(naming, queue, part)?;
    }
    Ok(())
}

// Gives the part of a block a name of its own, unless it is the whole block.
fn detach(naming: &mut Naming, queue: &mut Queue, part: Vec<usize>) -> Result<(), AllocError>
    requires listed { AreListed naming.old.names.items (map (λ v. v.items) naming.old.members.items) }
    ensures split { OnOk result (AreSplit naming.old.names.items naming.new.names.items part.items) }
    ensures listed { OnOk result (AreListed naming.new.names.items (map (λ v. v.items) naming.new.members.items)) }
{
    let name = first_name(&naming.names, &part);
    if part.is_empty() || queue.size(name) <= part.len() {
        return Ok(());
    }
    queue.split(name, part.len())?;
    rename(&mut naming.names, &part, naming.members.len());
    naming.members.push(part)?;
    Ok(())
}

// The name of the first of these nodes, and 0 where there is none.
fn first_name(names: &[usize], nodes: &[usize]) -> usize {
    let Some(node) = nodes.first() else {
        return 0;
    };
    names.get(*node).copied().unwrap_or(0)
}

// Gives these nodes a name.
fn rename(names: &mut Vec<usize>, nodes: &[usize], name: usize)
    ensures { AreRenamed names.old.items names.new.items nodes.now name }
{
    for node in nodes {
        if *node < names.len() {
            names[*node] = name;
        }
    }
}

// What is listed for those of the nodes that have this name.
pub(crate) fn hits(
    alloc: Global,
    names: &[usize],
    into: &[Vec<usize>],
    name: usize,
    nodes: &[usize],
) -> Result<Vec<usize>, AllocError>
    requires size { length into.now ≡ length names.now }
    ensures { IfOk result (λ v. AreHits names.now (map (λ l. l.items) into.now) name nodes.now v.items) }
{
    let mut hits = Vec::new(alloc);
    for node in nodes {
        if *node < names.len() && names[*node] == name {
            hits.extend_from_slice(&into[*node])?;
        }
    }
    Ok(hits)
}
