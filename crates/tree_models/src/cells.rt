//! The cells of classes, in the order of their first visit.

ghost use Rattle.std.specs.Prelude.{◌≡◌, IfOk, map};
ghost use Rattle.tree_models.specs.Visiting.{place_by, row_of};
ghost use Rattle.tree_models.specs.Cells.{cell_by, seen_in, AreCellsOf};

use crate::cell::{Cell, Places};
use crate::visiting::{class_at, row_at};
use akl_terms::Seen;
use std::alloc::{AllocError, Global};
use tree_classes::Numbers;

/// The places of nodes.
pub fn places_of(
    alloc: Global,
    row: &[usize],
    firsts: &[usize],
    order: &Numbers,
) -> Result<Vec<u64>, AllocError>
    ensures { IfOk result (λ places. places.items ≡ map (place_by firsts.now order.now) row.now) }
{
    let mut places = Vec::new(alloc);
    for node in row {
        places.push(order.place(class_at(firsts, *node)) as u64)?;
    }
    Ok(places)
}

// The cell of what begins so, over the nodes of its arguments.
fn cell_of(
    alloc: Global,
    seen: Seen,
    row: &[usize],
    firsts: &[usize],
    order: &Numbers,
) -> Result<Cell, AllocError>
    ensures { IfOk result (λ cell. cell ≡ cell_by seen (map (place_by firsts.now order.now) row.now)) }
{
    match seen {
        Seen::Free(_) => Ok(Cell::Free),
        Seen::Int(value) => Ok(Cell::Int(value)),
        Seen::Port(name) => Ok(Cell::Port(name)),
        Seen::Struct { symbol, .. } => {
            let arguments = places_of(alloc, row, firsts, order)?;
            Ok(Cell::Struct {
                symbol,
                arguments: Places::new(arguments),
            })
        }
    }
}

// What a node begins with; a node that isn't there reads as the integer 0.
fn seen_at(seens: &[Seen], node: usize) -> Seen
    ensures { result ≡ seen_in seens.now node }
{
    seens.get(node).copied().unwrap_or(Seen::Int(0))
}

/// A cell for each class, by what its first node begins with, with the places of the nodes of its arguments.
pub fn cells_of(
    alloc: Global,
    seens: &[Seen],
    rows: &[Vec<usize>],
    firsts: &[usize],
    order: &Numbers,
) -> Result<Vec<Cell>, AllocError>
    ensures { IfOk result (λ cells. AreCellsOf seens.now (map (λ v. v.items) rows.now) firsts.now order.now cells.items) }
{
    let mut cells = Vec::new(alloc);
    while let Some(class) = order.get(cells.len()) {
        let cell = cell_of(
            alloc,
            seen_at(seens, class),
            row_at(rows, class),
            firsts,
            order,
        )?;
        cells.push(cell)?;
    }
    Ok(cells)
}
