//! Terms as a source writes them, with the values that their variables have.

use crate::page::Page;
use crate::scene::Scene;
use akl_terms::{Name, Seen, Term};

/// The most parts of a term that are written; of a cyclic term there is no end of them.
const MOST_PARTS: u32 = 200;

/// How a term stands that isn't the tail of a list: so close its operator must bind at least, if it is one.
const LOOSE: u8 = 0;

/// How the tail of a list stands.
const TAIL: u8 = 3;

/// How a term is written.
#[derive(Clone, Copy)]
enum Shape {
    /// As a symbol with its arguments in brackets behind it, or as what isn't a structure.
    Plain,
    EmptyList,
    /// The cell of a list.
    Cell,
    Sum,
    Difference,
    Product,
    Quotient,
    Remainder,
}

/// What stands between two arguments, in the order of the shapes.
const BETWEEN: [&str; 8] = [",", "", "", "+", "-", "*", "//", " mod "];

/// How the first argument stands, in the order of the shapes: as close as the operator binds.
const FIRST: [u8; 8] = [LOOSE, LOOSE, LOOSE, 0, 0, 1, 1, 1];

/// How an argument stands behind the first one, in the order of the shapes.
const BEHIND: [u8; 8] = [LOOSE, LOOSE, TAIL, 1, 1, 2, 2, 2];

// How a term is written of which this is known.
fn shape_of(scene: &Scene<'_>, seen: Seen) -> Shape {
    let Seen::Struct { symbol, count, .. } = seen else {
        return Shape::Plain;
    };
    let shape = match scene.symbol(symbol) {
        "[]" if count == 0 => return Shape::EmptyList,
        "." => Shape::Cell,
        "+" => Shape::Sum,
        "-" => Shape::Difference,
        "*" => Shape::Product,
        "//" => Shape::Quotient,
        "mod" => Shape::Remainder,
        _ => return Shape::Plain,
    };
    if count == 2 { shape } else { Shape::Plain }
}

// Adds what stands before the arguments of a structure. Answers whether they stand in brackets.
fn begin(page: &mut Page, shape: Shape, stand: u8, symbol: &str, count: u32) -> bool {
    match shape {
        Shape::Cell => {
            page.push(if stand == TAIL { "," } else { "[" });
            return false;
        }
        Shape::Plain | Shape::EmptyList => {
            page.push_constant(symbol);
            if count == 0 {
                return false;
            }
        }
        _ => {
            if FIRST[shape as usize] >= stand {
                return false;
            }
        }
    }
    page.push("(");
    true
}

// Adds a part of a term, which has parts down to this depth at most; in short where many parts are written.
fn push_part(scene: &Scene<'_>, page: &mut Page, term: Term, stand: u8, depth: u32) {
    if page.parts >= MOST_PARTS || depth == 0 {
        return page.push(if stand == TAIL { "|..]" } else { ".." });
    }
    page.parts = page.parts.saturating_add(1);
    let seen = scene.follow(scene.setting.program().templates.look(term));
    let shape = shape_of(scene, seen);
    if stand == TAIL {
        match shape {
            Shape::Cell => {}
            Shape::EmptyList => return page.push("]"),
            _ => {
                page.push("|");
                push_part(scene, page, term, LOOSE, depth - 1);
                return page.push_behind("]");
            }
        }
    }
    match seen {
        Seen::Free(variable) => scene.push_variable(page, variable),
        Seen::Int(value) => page.push_number(value),
        Seen::Port(port) => {
            page.push("port");
            page.push_mark(port);
        }
        Seen::Struct {
            symbol,
            first,
            count,
            frame,
        } => {
            let has_brackets = begin(page, shape, stand, scene.symbol(symbol), count);
            let mut least = FIRST[shape as usize];
            for k in 0..count {
                if k > 0 {
                    page.push_behind(BETWEEN[shape as usize]);
                }
                let node = first.saturating_add(k);
                push_part(scene, page, Term::Mol { node, frame }, least, depth - 1);
                least = BEHIND[shape as usize];
            }
            if has_brackets {
                page.push_behind(")");
            }
        }
    }
}

/// Adds a term with what is known of it. Where it has many parts, some have `..` in their place.
pub fn push_term(scene: &Scene<'_>, page: &mut Page, term: Term) {
    page.parts = 0;
    push_part(scene, page, term, LOOSE, MOST_PARTS);
}

/// Adds a node under a frame, as a term.
pub fn push_node(scene: &Scene<'_>, page: &mut Page, node: u32, frame: Name) {
    push_term(scene, page, Term::Mol { node, frame });
}

/// Adds so many neighbouring nodes under a frame, in brackets behind what they are the arguments of; nothing where there are
/// none.
pub fn push_arguments(scene: &Scene<'_>, page: &mut Page, first: u32, count: u32, frame: Name) {
    for k in 0..count {
        page.push(if k == 0 { "(" } else { "," });
        push_node(scene, page, first.saturating_add(k), frame);
    }
    if count > 0 {
        page.push(")");
    }
}
