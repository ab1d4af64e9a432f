//! The printer: what was printed, and what is still to be printed.

ghost use Rattle.std.specs.Prelude.{◌≡◌, ◌<◌, ◌∷◌, [], length, slice_get, OnOk, IfSome, IfNone};
ghost use Rattle.std.specs.Fmt.{signed_decimal};
ghost use Rattle.akl_terms.specs.Template.{IsKnown};
ghost use Rattle.answer_text.specs.AnswerLines.{cycle_text};
ghost use Rattle.answer_lines.specs.Printing.{AreKnown, Grows, begun, compound_begun, cell_begun, class_printed, cycle_begun, cycle_printed, forest_of, line_begun, partial_begun, symbol_begun, symbol_tail_begun, tail_begun, with_bytes, written_begun, argument_pieces};

use crate::node::{row_at, seen_at};
use crate::piece::Piece;
use akl_terms::{Seen, Templates};
use answer_text::{push_constant, push_symbol};
use std::alloc::{AllocError, Global};
use std::collections::VecDeque;
use std::marker::Model;
use term_graph::TermGraph;
use tree_classes::{Numbers, TreeClasses};

/// What was printed, the classes that have a number, and what is still to be printed, the next first.
#[derive(Drop)]
pub struct Printer {
    out: Vec<u8>,
    classes: Numbers,
    cycles: Numbers,
    pieces: VecDeque<Piece>,
}

impl Model for Printer {
    ghost use Rattle.answer_lines.specs.Printing.{State};

    ghost Value = { State };

    ghost view = { λ p. record { out = p.out.items; classes = p.classes; cycles = p.cycles; pieces = p.pieces.items } };
}

impl Printer {
    pub fn new(alloc: Global) -> Self
        ensures { result ≡ record { out = []; classes = []; cycles = []; pieces = [] } }
    {
        Printer {
            out: Vec::new(alloc),
            classes: Numbers::new(alloc),
            cycles: Numbers::new(alloc),
            pieces: VecDeque::new(alloc),
        }
    }

    /// How many bytes were printed.
    pub fn len(&self) -> usize
        ensures { result ≡ length self.now.out }
    {
        self.out.len()
    }

    /// Gives what was printed.
    pub fn into_bytes(self) -> Vec<u8>
        ensures { result.items ≡ self.out }
    {
        self.out
    }

    /// The cyclic class with a number, from 0 on.
    pub fn cycle(&self, number: usize) -> Option<usize>
        ensures class { result ≡ slice_get self.now.cycles number }
        ensures fits { IfSome result (λ class. number < usize.MAX) }
    {
        self.cycles.get(number)
    }

    /// Takes the next piece.
    pub fn next_piece(&mut self) -> Option<Piece>
        ensures some { IfSome result (λ p. self.old ≡ record self.new { pieces = p ∷ self.new.pieces }) }
        ensures none { IfNone result ((self.old.pieces ≡ []) × (self.new ≡ self.old)) }
    {
        self.pieces.pop_front()
    }

    /// Begins a line: a name, ` = `, and the node whose tree is still to be printed.
    pub fn begin_line(&mut self, name: &str, node: usize) -> Result<(), AllocError>
        ensures { OnOk result (self.new ≡ line_begun name.now node self.old) }
    {
        self.out.extend_from_slice(name.as_bytes())?;
        self.out.extend_from_slice(b" = ")?;
        self.pieces.push_front(Piece::Byte(b'\n'))?;
        self.pieces.push_front(Piece::Whole(node))?;
        Ok(())
    }

    /// Begins the line of a cyclic tree, which is written out.
    pub fn begin_cycle(
        &mut self,
        templates: &Templates,
        graph: &TermGraph,
        classes: &TreeClasses,
        number: usize,
        node: usize,
    ) -> Result<(), AllocError>
        requires known { AreKnown (forest_of templates.now graph.now classes.now) }
        requires fits { number < usize.MAX }
        ensures begun { OnOk result (self.new ≡ cycle_begun (forest_of templates.now graph.now classes.now) number node self.old) }
        ensures grows { OnOk result (Grows self.old self.new) }
    {
        self.print_name(number)?;
        self.out.extend_from_slice(b" = ")?;
        self.pieces.push_front(Piece::Byte(b'\n'))?;
        let seen = seen_at(graph, node);
        self.begin_written(templates, seen, row_at(graph, node), node)
    }

    /// Begins a piece: prints what is known of it, and leaves the rest to be printed.
    pub fn begin(
        &mut self,
        templates: &Templates,
        graph: &TermGraph,
        classes: &TreeClasses,
        piece: Piece,
    ) -> Result<(), AllocError>
        requires { AreKnown (forest_of templates.now graph.now classes.now) }
        ensures begun { OnOk result (self.new ≡ begun (forest_of templates.now graph.now classes.now) piece self.old) }
        ensures grows { OnOk result (Grows self.old self.new) }
    {
        match piece {
            Piece::Byte(byte) => Ok(self.out.push(byte)?),
            Piece::Whole(node) => {
                let class = classes.first(node);
                if classes.is_cyclic(class) {
                    return self.print_cycle(class);
                }
                let seen = seen_at(graph, node);
                self.begin_written(templates, seen, row_at(graph, node), class)
            }
            Piece::Tail(node) => {
                if classes.is_cyclic(classes.first(node)) {
                    return self.begin_partial(node);
                }
                let seen = seen_at(graph, node);
                self.begin_tail(templates, seen, row_at(graph, node), node)
            }
        }
    }

    fn begin_written(
        &mut self,
        templates: &Templates,
        seen: Seen,
        row: &[usize],
        class: usize,
    ) -> Result<(), AllocError>
        requires { IsKnown templates.now seen }
        ensures begun { OnOk result (self.new ≡ written_begun templates.now seen row.now class self.old) }
        ensures grows { OnOk result (Grows self.old self.new) }
    {
        match seen {
            Seen::Free(_) => self.print_class(class),
            Seen::Int(value) => self.print_integer(value),
            Seen::Port(_) => self.out.extend_from_slice(b"port"),
            Seen::Struct { symbol, .. } => self.begin_symbol(templates.symbol(symbol), row),
        }
    }

    fn begin_symbol(&mut self, name: &str, row: &[usize]) -> Result<(), AllocError>
        ensures begun { OnOk result (self.new ≡ symbol_begun name.now row.now self.old) }
        ensures grows { OnOk result (Grows self.old self.new) }
    {
        match row {
            [] => push_constant(&mut self.out, name),
            [head, tail] if name == "." => self.begin_cell(b'[', *head, *tail),
            _ => self.begin_compound(name, row),
        }
    }

    fn begin_compound(&mut self, name: &str, row: &[usize]) -> Result<(), AllocError>
        ensures begun { OnOk result (self.new ≡ compound_begun name.now row.now self.old) }
        ensures grows { OnOk result (Grows self.old self.new) }
    {
        push_symbol(&mut self.out, name)?;
        self.out.push(b'(')?;
        self.pieces.push_front(Piece::Byte(b')'))?;
        push_arguments(&mut self.pieces, row)
    }

    fn begin_tail(
        &mut self,
        templates: &Templates,
        seen: Seen,
        row: &[usize],
        node: usize,
    ) -> Result<(), AllocError>
        requires { IsKnown templates.now seen }
        ensures begun { OnOk result (self.new ≡ tail_begun templates.now seen row.now node self.old) }
        ensures grows { OnOk result (Grows self.old self.new) }
    {
        match seen {
            Seen::Struct { symbol, .. } => {
                self.begin_symbol_tail(templates.symbol(symbol), row, node)
            }
            _ => self.begin_partial(node),
        }
    }

    fn begin_symbol_tail(
        &mut self,
        name: &str,
        row: &[usize],
        node: usize,
    ) -> Result<(), AllocError>
        ensures begun { OnOk result (self.new ≡ symbol_tail_begun name.now row.now node self.old) }
        ensures grows { OnOk result (Grows self.old self.new) }
    {
        match row {
            [] if name == "[]" => Ok(self.out.push(b']')?),
            [head, tail] if name == "." => self.begin_cell(b',', *head, *tail),
            _ => self.begin_partial(node),
        }
    }

    fn begin_cell(&mut self, byte: u8, head: usize, tail: usize) -> Result<(), AllocError>
        ensures { OnOk result (self.new ≡ cell_begun byte head tail self.old) }
    {
        self.out.push(byte)?;
        self.pieces.push_front(Piece::Tail(tail))?;
        self.pieces.push_front(Piece::Whole(head))?;
        Ok(())
    }

    fn begin_partial(&mut self, node: usize) -> Result<(), AllocError>
        ensures { OnOk result (self.new ≡ partial_begun node self.old) }
    {
        self.out.push(b'|')?;
        self.pieces.push_front(Piece::Byte(b']'))?;
        self.pieces.push_front(Piece::Whole(node))?;
        Ok(())
    }

    fn print_integer(&mut self, value: i128) -> Result<(), AllocError>
        ensures printed { OnOk result (self.new ≡ with_bytes (signed_decimal value) self.old) }
        ensures grows { OnOk result (Grows self.old self.new) }
    {
        let alloc = *self.out.allocator();
        let text = format!(in alloc; "{value}")?;
        self.out.extend_from_slice(text.as_bytes())?;
        Ok(())
    }

    fn print_class(&mut self, class: usize) -> Result<(), AllocError>
        ensures { OnOk result (self.new ≡ class_printed class self.old) }
    {
        let number = self.classes.number(class)?;
        let alloc = *self.out.allocator();
        let text = format!(in alloc; "_{number}")?;
        self.out.extend_from_slice(text.as_bytes())
    }

    fn print_cycle(&mut self, class: usize) -> Result<(), AllocError>
        ensures { OnOk result (self.new ≡ cycle_printed class self.old) }
    {
        let number = self.cycles.number(class)?;
        let alloc = *self.out.allocator();
        let text = format!(in alloc; "R{number}")?;
        self.out.extend_from_slice(text.as_bytes())
    }

    // The name of a cyclic tree, by its number from 0 on.
    fn print_name(&mut self, number: usize) -> Result<(), AllocError>
        requires { number < usize.MAX }
        ensures { OnOk result (self.new ≡ with_bytes (cycle_text number) self.old) }
    {
        let alloc = *self.out.allocator();
        let shown = number + 1;
        let text = format!(in alloc; "R{shown}")?;
        self.out.extend_from_slice(text.as_bytes())
    }
}

// Puts arguments before the other pieces, `,` between.
fn push_arguments(pieces: &mut VecDeque<Piece>, row: &[usize]) -> Result<(), AllocError>
    ensures { OnOk result (pieces.new.items ≡ argument_pieces row.now pieces.old.items) }
{
    for k in (0..row.len()).rev() {
        if k + 1 < row.len() {
            pieces.push_front(Piece::Byte(b','))?;
        }
        pieces.push_front(Piece::Whole(row[k]))?;
    }
    Ok(())
}
