//! Classes of nodes that are the same tree.

ghost use Rattle.std.specs.Prelude.{◌≡◌, ◌<◌, All, length, map, get_or, IfOk};
ghost use Rattle.tree_parts.specs.Parts.{AreWithin, AreEven, AreNamed};
ghost use Rattle.tree_classes.specs.Classes.{AreClasses, AreBlockRows};

use cycle_marks::{Components, find_components};
use std::alloc::{AllocError, Global};
use std::marker::Model;
use tree_parts::refine;

/// For each node the first one that is the same tree, and which of these are cyclic.
#[derive(Drop)]
pub struct TreeClasses {
    blocks: Vec<usize>,
    components: Components,
}

impl Model for TreeClasses {
    ghost use Rattle.tree_classes.specs.Classes.{ClassesValue};

    ghost Value = { ClassesValue };

    ghost view = { λ c. record { blocks = c.blocks.items; marks = c.components } };
}

impl TreeClasses {
    ghost use Rattle.std.specs.Prelude.{◌≡◌};
    ghost use Rattle.tree_parts.specs.Firsts.{at_node};
    ghost use Rattle.cycle_marks.specs.Components.{is_cyclic};

    /// The first node that is the same tree as this one; 0 for a node that isn't there.
    pub fn first(&self, node: usize) -> usize
        ensures { result ≡ at_node self.now.blocks node }
    {
        self.blocks.get(node).copied().unwrap_or(0)
    }

    /// For each node the first one that is the same tree.
    pub fn firsts(&self) -> &[usize]
        ensures { result.now ≡ self.now.blocks }
    {
        self.blocks.as_slice()
    }

    /// Whether a class is cyclic, by its first node.
    pub fn is_cyclic(&self, first: usize) -> bool
        ensures { result ≡ is_cyclic self.now.marks first }
    {
        self.components.is_cyclic(first)
    }
}

/// The classes of nodes that are the same tree, and which of them are cyclic: nodes are in one
/// class where they begin alike and what stands at each place of their rows is in one class.
pub fn find_classes(
    alloc: Global,
    rows: &[Vec<usize>],
    tops: Vec<usize>,
) -> Result<TreeClasses, AllocError>
    requires size { length tops.items ≡ length rows.now }
    requires within { AreWithin (map (λ v. v.items) rows.now) }
    requires even { AreEven (map (λ v. v.items) rows.now) tops.items }
    requires named { AreNamed tops.items }
    ensures { IfOk result (AreClasses (map (λ v. v.items) rows.now) tops.items) }
{
    let blocks = refine(alloc, rows, tops)?;
    let among = block_rows(alloc, rows, &blocks)?;
    let components = find_components(alloc, &among)?;
    Ok(TreeClasses { blocks, components })
}

// For each node the blocks of its row.
fn block_rows(
    alloc: Global,
    rows: &[Vec<usize>],
    blocks: &[usize],
) -> Result<Vec<Vec<usize>>, AllocError>
    requires size { length blocks.now ≡ length rows.now }
    requires within { AreWithin (map (λ v. v.items) rows.now) }
    ensures { IfOk result (λ among. AreBlockRows (map (λ v. v.items) rows.now) blocks.now (map (λ v. v.items) among.items) (length rows.now)) }
{
    let mut among = Vec::new(alloc);
    for node in 0..rows.len() {
        let row = block_row(alloc, &rows[node], blocks)?;
        among.push(row)?;
    }
    Ok(among)
}

// The blocks of a row.
fn block_row(alloc: Global, row: &[usize], blocks: &[usize]) -> Result<Vec<usize>, AllocError>
    requires { All (λ j. j < length blocks.now) row.now }
    ensures { IfOk result (λ among. among.items ≡ map (λ j. get_or blocks.now j 0) row.now) }
{
    let mut among = Vec::new(alloc);
    for next in row {
        among.push(blocks[*next])?;
    }
    Ok(among)
}
