//! The text of cells.

ghost use Rattle.std.specs.Prelude.{◌≡◌, ◌++◌, [], OnOk, get_or};
ghost use Rattle.std.specs.Fmt.{signed_decimal};
ghost use Rattle.std.specs.List.{flat_map};
ghost use Rattle.answer_text.specs.SymbolText.{symbol_text};
ghost use Rattle.tree_models.specs.Texts.{arguments_text, behind_comma, cell_text, place_text};

use crate::cell::Cell;
use akl_terms::Templates;
use answer_text::push_symbol;
use line_text::{push_number, push_text};
use std::alloc::AllocError;

/// Adds a place: `#` and its number.
pub fn push_place(out: &mut Vec<u8>, place: u64) -> Result<(), AllocError>
    ensures { OnOk result (out.new.items ≡ out.old.items ++ place_text place) }
{
    push_text(out, "#")?;
    push_number(out, place)
}

/// Adds the text of a cell. A symbol that isn't there reads as an empty one.
pub fn push_cell(out: &mut Vec<u8>, templates: &Templates, cell: &Cell) -> Result<(), AllocError>
    ensures { OnOk result (out.new.items ≡ out.old.items ++ cell_text templates.now.symbols cell.now) }
{
    match cell {
        Cell::Free => push_text(out, "_"),
        Cell::Int(value) => push_integer(out, *value),
        Cell::Port(_) => push_text(out, "port"),
        Cell::Struct { symbol, arguments } => {
            push_symbol_text(out, templates, *symbol)?;
            push_arguments(out, arguments.as_slice())
        }
    }
}

// Adds an integer.
fn push_integer(out: &mut Vec<u8>, value: i128) -> Result<(), AllocError>
    ensures { OnOk result (out.new.items ≡ out.old.items ++ signed_decimal value) }
{
    let alloc = *out.allocator();
    let text = format!(in alloc; "{value}")?;
    push_text(out, text.as_str())
}

// Adds the text of a symbol.
fn push_symbol_text(out: &mut Vec<u8>, templates: &Templates, symbol: u32) -> Result<(), AllocError>
    ensures { OnOk result (out.new.items ≡ out.old.items ++ symbol_text (get_or templates.now.symbols symbol [])) }
{
    if symbol < templates.symbols() {
        push_symbol(out, templates.symbol(symbol))
    } else {
        push_symbol(out, "")
    }
}

// Adds places in parentheses, where there are any.
fn push_arguments(out: &mut Vec<u8>, places: &[u64]) -> Result<(), AllocError>
    ensures { OnOk result (out.new.items ≡ out.old.items ++ arguments_text places.now) }
{
    match places {
        [] => Ok(()),
        [first, rest @ ..] => {
            push_text(out, "(")?;
            push_place(out, *first)?;
            push_behind_commas(out, rest)?;
            push_text(out, ")")
        }
    }
}

// Adds places, each behind a comma.
fn push_behind_commas(out: &mut Vec<u8>, places: &[u64]) -> Result<(), AllocError>
    ensures { OnOk result (out.new.items ≡ out.old.items ++ flat_map behind_comma places.now) }
{
    for place in places {
        push_text(out, ",")?;
        push_place(out, *place)?;
    }
    Ok(())
}
