//! The entries of rows, numbered.

ghost use Rattle.std.specs.Prelude.{◌<◌, ◌+◌, length, map, IfOk, OnOk};
ghost use Rattle.tree_parts.specs.Lists.{AreEntries};

use std::alloc::{AllocError, Global};

// By the number of an entry: the node whose row has it, its place there, and the node that it is.
#[derive(Drop)]
pub(crate) struct Entries {
    pub(crate) nodes: Vec<usize>,
    pub(crate) places: Vec<usize>,
    pub(crate) nexts: Vec<usize>,
}

// The entries of all rows.
pub(crate) fn number_entries(alloc: Global, rows: &[Vec<usize>]) -> Result<Entries, AllocError>
    ensures { IfOk result (λ e. AreEntries (map (λ v. v.items) rows.now) e.nodes.items e.places.items e.nexts.items (length rows.now) 0) }
{
    let mut entries = Entries {
        nodes: Vec::new(alloc),
        places: Vec::new(alloc),
        nexts: Vec::new(alloc),
    };
    for node in 0..rows.len() {
        add_row(&mut entries, rows, node)?;
    }
    Ok(entries)
}

// Adds the entries of a row.
fn add_row(entries: &mut Entries, rows: &[Vec<usize>], node: usize) -> Result<(), AllocError>
    requires node { node < length rows.now }
    requires before { AreEntries (map (λ v. v.items) rows.now) entries.old.nodes.items entries.old.places.items entries.old.nexts.items node 0 }
    ensures { OnOk result (AreEntries (map (λ v. v.items) rows.now) entries.new.nodes.items entries.new.places.items entries.new.nexts.items (node + 1) 0) }
{
    let row = &rows[node];
    for place in 0..row.len() {
        entries.nodes.push(node)?;
        entries.places.push(place)?;
        entries.nexts.push(row[place])?;
    }
    Ok(())
}
