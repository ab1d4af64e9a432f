//! The lines of a model.

ghost use Rattle.std.specs.Prelude.{◌≡◌, ◌++◌, suc, IfOk, OnOk, map};
ghost use Rattle.tree_models.specs.Solutions.{IsNumbered};
ghost use Rattle.tree_models.specs.Texts.{above, line_of, shown_line, shown_lines, AreCellLines, IsModelText};

use crate::cell::Cell;
use crate::cell_text::{push_cell, push_place};
use crate::model::TreeModel;
use akl_terms::{ShownTerm, Templates};
use line_text::push_text;
use std::alloc::{AllocError, Global};

/// The lines of a model whose places are numbered by first visit: `model`, a line with the place of each shown term,
/// and a line for each place that is reached from these, in increasing order.
pub fn model_lines(
    alloc: Global,
    templates: &Templates,
    model: &TreeModel,
    shown: &[ShownTerm],
) -> Result<Vec<u8>, AllocError>
    ensures { IfOk result (λ text. IsNumbered model.now → IsModelText templates.now.symbols (map (λ s. s.name) shown.now) model.now text.items) }
{
    let mut out = Vec::new(alloc);
    push_text(&mut out, "model\n")?;
    push_shown(&mut out, shown, &model.shown)?;
    push_cells(&mut out, templates, &model.cells, &model.shown)?;
    Ok(out)
}

// Adds a line for each shown term.
fn push_shown(out: &mut Vec<u8>, shown: &[ShownTerm], places: &[u64]) -> Result<(), AllocError>
    ensures { OnOk result (out.new.items ≡ out.old.items ++ shown_lines (map (λ s. s.name) shown.now) places.now) }
{
    for k in 0..shown.len().min(places.len()) {
        push_shown_line(out, shown[k].name.as_str(), places[k])?;
    }
    Ok(())
}

// Adds the line of a shown term.
fn push_shown_line(out: &mut Vec<u8>, name: &str, place: u64) -> Result<(), AllocError>
    ensures { OnOk result (out.new.items ≡ out.old.items ++ shown_line name.now place) }
{
    push_text(out, name)?;
    push_text(out, ": ")?;
    push_place(out, place)?;
    push_text(out, "\n")
}

// Adds a line for each place that is reached from these, where the places are numbered by first visit: those below the
// first one that is above all of these and above the arguments of all below it.
fn push_cells(
    out: &mut Vec<u8>,
    templates: &Templates,
    cells: &[Cell],
    shown: &[u64],
) -> Result<(), AllocError>
    ensures { OnOk result (AreCellLines templates.now.symbols cells.now shown.now out.old.items out.new.items) }
{
    let mut end = above(0, shown)?;
    let mut place = 0;
    while place < end {
        let Some(cell) = cells.get(place as usize) else {
            return Ok(());
        };
        push_cell_line(out, templates, place, cell)?;
        end = above(end, cell.arguments())?;
        place += 1;
    }
    Ok(())
}

// Adds the line of a place.
fn push_cell_line(
    out: &mut Vec<u8>,
    templates: &Templates,
    place: u64,
    cell: &Cell,
) -> Result<(), AllocError>
    ensures { OnOk result (out.new.items ≡ out.old.items ++ line_of templates.now.symbols place cell.now) }
{
    push_place(out, place)?;
    push_text(out, " = ")?;
    push_cell(out, templates, cell)?;
    push_text(out, "\n")
}

// The least number that isn't below this one and is above these places.
fn above(low: u64, places: &[u64]) -> Result<u64, AllocError>
    ensures { IfOk result (λ end. end ≡ above low places.now) }
{
    let mut end = low;
    for place in places {
        end = end.max(after(*place)?);
    }
    Ok(end)
}

// The number after this one. No memory holds as many cells as there are numbers.
fn after(place: u64) -> Result<u64, AllocError>
    ensures { IfOk result (λ next. next ≡ suc place) }
{
    place.checked_add(1).ok_or(AllocError)
}
