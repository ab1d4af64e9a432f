//! Partitions of nodes.

ghost use Rattle.std.specs.Prelude.{◌≡◌, ◌<◌, ℕ, List, All, length, map, get_or, [], IfOk};
ghost use Rattle.tree_parts.specs.Parts.{AreWithin, AreEven, AreNamed, AreKeysBefore, IsRefined, block_key};

use crate::early::split_early;
use crate::firsts::first_places;
use std::alloc::{AllocError, Global};

/// The coarsest partition that refines a start and whose blocks agree in the blocks of their rows:
/// for each node the first one of its block.
///
/// The time is in proportion to the entries of the rows times the square of the logarithm of the nodes.
pub fn refine(
    alloc: Global,
    rows: &[Vec<usize>],
    start: Vec<usize>,
) -> Result<Vec<usize>, AllocError>
    requires size { length start.items ≡ length rows.now }
    requires within { AreWithin (map (λ v. v.items) rows.now) }
    requires even { AreEven (map (λ v. v.items) rows.now) start.items }
    requires named { AreNamed start.items }
    ensures { IfOk result (λ v. IsRefined (map (λ v. v.items) rows.now) start.items v.items) }
{
    let mut blocks = split_early(alloc, rows, &start)?;
    loop {
        let keys = block_keys(alloc, rows, &blocks)?;
        let next = first_places(alloc, &keys)?;
        if next == blocks {
            return Ok(blocks);
        }
        blocks = next;
    }
}

// For each node its block and those of its row.
fn block_keys(
    alloc: Global,
    rows: &[Vec<usize>],
    blocks: &[usize],
) -> Result<Vec<Vec<usize>>, AllocError>
    requires size { length blocks.now ≡ length rows.now }
    requires within { AreWithin (map (λ v. v.items) rows.now) }
    ensures { IfOk result (λ keys. AreKeysBefore (map (λ v. v.items) rows.now) blocks.now (map (λ k. k.items) keys.items) (length rows.now)) }
{
    let mut keys = Vec::new(alloc);
    for node in 0..rows.len() {
        let key = block_key(alloc, &rows[node], blocks, node)?;
        keys.push(key)?;
    }
    Ok(keys)
}

// A node's block and those of its row.
fn block_key(
    alloc: Global,
    row: &[usize],
    blocks: &[usize],
    node: usize,
) -> Result<Vec<usize>, AllocError>
    requires node { node < length blocks.now }
    requires within { All (λ j. j < length blocks.now) row.now }
    ensures { IfOk result (λ key. key.items ≡ block_key blocks.now node row.now) }
{
    let mut key = Vec::new(alloc);
    key.push(blocks[node])?;
    for next in row {
        key.push(blocks[*next])?;
    }
    Ok(key)
}
