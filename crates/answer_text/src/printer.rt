//! The printer: what was printed, and what is still to be printed.

ghost use Rattle.std.specs.Prelude.{◌≡◌, ◌<◌, ◌+◌, ◌^◌, ◌∷◌, [], length, OnOk, IfSome, IfNone};
ghost use Rattle.std.specs.Fmt.{signed_decimal};
ghost use Rattle.akl_terms.specs.Template.{IsKnown};
ghost use Rattle.rational_unify.specs.Known.{IsSolved, end_of};
ghost use Rattle.answer_text.specs.Pieces.{Begins, Grows, IsShort, class_printed, with_bytes, argument_pieces, cell_pieces, names_cell, names_end, line_begun, whole_begun, tail_begun, symbol_begun, partial_begun};

use crate::classes::Classes;
use crate::piece::Piece;
use crate::symbol::{push_constant, push_symbol};
use akl_terms::{Name, Seen, Templates, Term, Var};
use rational_unify::{Lookup, chain_end};
use std::alloc::{AllocError, Global};
use std::collections::VecDeque;
use std::marker::Model;

/// What was printed, the classes printed so far, and what is still to be printed, the next first.
#[derive(Drop)]
pub struct Printer {
    out: Vec<u8>,
    seen: Classes,
    pieces: VecDeque<Piece>,
}

impl Model for Printer {
    ghost use Rattle.answer_text.specs.Pieces.{State};

    ghost Value = { State };

    ghost view = { λ p. record { out = p.out.items; seen = p.seen; pieces = p.pieces.items } };
}

impl Printer {
    pub fn new(alloc: Global) -> Self
        ensures { result ≡ record { out = []; seen = []; pieces = [] } }
    {
        Printer {
            out: Vec::new(alloc),
            seen: Classes::new(alloc),
            pieces: VecDeque::new(alloc),
        }
    }

    /// How many bytes were printed.
    pub fn len(&self) -> usize
        ensures { result ≡ length self.now.out }
    {
        self.out.len()
    }

    /// Gives what was printed.
    pub fn into_bytes(self) -> Vec<u8>
        ensures { result.items ≡ self.out }
    {
        self.out
    }

    /// Takes the next piece.
    pub fn next_piece(&mut self) -> Option<Piece>
        ensures some { IfSome result (λ p. self.old ≡ record self.new { pieces = p ∷ self.new.pieces }) }
        ensures none { IfNone result ((self.old.pieces ≡ []) × (self.new ≡ self.old)) }
    {
        self.pieces.pop_front()
    }

    /// Begins a line: a name, ` = `, and the term that is still to be printed.
    pub fn begin_line(&mut self, name: &str, term: Term) -> Result<(), AllocError>
        ensures { OnOk result (self.new ≡ line_begun name.now term self.old) }
    {
        self.out.extend_from_slice(name.as_bytes())?;
        self.out.extend_from_slice(b" = ")?;
        self.pieces.push_front(Piece::Byte(b'\n'))?;
        self.pieces.push_front(Piece::Whole(term))?;
        Ok(())
    }

    /// Begins a piece: prints what is known of it, and leaves the rest to be printed.
    pub fn begin<K: Lookup>(
        &mut self,
        templates: &Templates,
        form: &K,
        piece: Piece,
    ) -> Result<(), AllocError>
        requires { IsSolved templates.now.nodes (K.bindings form.now) }
        ensures begins { OnOk result (Begins templates.now (end_of templates.now.nodes (K.bindings form.now)) piece self.old self.new) }
        ensures grows { OnOk result (Grows self.old self.new) }
    {
        match piece {
            Piece::Byte(byte) => Ok(self.out.push(byte)?),
            Piece::Whole(term) => {
                let seen = templates.look(chain_end(templates, form, term));
                self.begin_whole(templates, seen)?;
                Ok(())
            }
            Piece::Tail(term) => {
                let seen = templates.look(chain_end(templates, form, term));
                self.begin_tail(templates, term, seen)?;
                Ok(())
            }
        }
    }

    fn begin_whole(&mut self, templates: &Templates, seen: Seen) -> Result<(), AllocError>
        requires known { IsKnown templates.now seen }
        requires short { IsShort seen }
        ensures begun { OnOk result (self.new ≡ whole_begun templates.now seen self.old) }
        ensures grows { OnOk result (Grows self.old self.new) }
    {
        match seen {
            Seen::Free(variable) => self.print_class(variable),
            Seen::Int(value) => self.print_integer(value),
            Seen::Port(_) => self.out.extend_from_slice(b"port"),
            Seen::Struct {
                symbol,
                first,
                count,
                frame,
            } => self.begin_symbol(templates.symbol(symbol), first, count, frame),
        }
    }

    fn begin_tail(
        &mut self,
        templates: &Templates,
        term: Term,
        seen: Seen,
    ) -> Result<(), AllocError>
        requires known { IsKnown templates.now seen }
        requires short { IsShort seen }
        ensures begun { OnOk result (self.new ≡ tail_begun templates.now term seen self.old) }
        ensures grows { OnOk result (Grows self.old self.new) }
    {
        let Seen::Struct {
            symbol,
            first,
            count,
            frame,
        } = seen
        else {
            return self.begin_partial(term);
        };
        let name = templates.symbol(symbol);
        if names_end(name, count) {
            Ok(self.out.push(b']')?)
        } else if names_cell(name, count) {
            self.out.push(b',')?;
            self.begin_cell(first, frame)
        } else {
            self.begin_partial(term)
        }
    }

    fn begin_symbol(
        &mut self,
        name: &str,
        first: u32,
        count: u32,
        frame: Name,
    ) -> Result<(), AllocError>
        requires { first + count < 2 ^ 32 }
        ensures begun { OnOk result (self.new ≡ symbol_begun name.now first count frame self.old) }
        ensures grows { OnOk result (Grows self.old self.new) }
    {
        if count == 0 {
            push_constant(&mut self.out, name)
        } else if names_cell(name, count) {
            self.out.push(b'[')?;
            self.begin_cell(first, frame)
        } else {
            push_symbol(&mut self.out, name)?;
            self.out.push(b'(')?;
            self.pieces.push_front(Piece::Byte(b')'))?;
            push_arguments(&mut self.pieces, first, count, frame)
        }
    }

    fn begin_cell(&mut self, first: u32, frame: Name) -> Result<(), AllocError>
        requires { first + 1 < 2 ^ 32 }
        ensures { OnOk result (self.new ≡ record self.old { pieces = cell_pieces frame first self.old.pieces }) }
    {
        let rest = Term::Mol {
            node: first + 1,
            frame,
        };
        self.pieces.push_front(Piece::Tail(rest))?;
        self.pieces
            .push_front(Piece::Whole(Term::Mol { node: first, frame }))?;
        Ok(())
    }

    fn begin_partial(&mut self, term: Term) -> Result<(), AllocError>
        ensures { OnOk result (self.new ≡ partial_begun term self.old) }
    {
        self.out.push(b'|')?;
        self.pieces.push_front(Piece::Byte(b']'))?;
        self.pieces.push_front(Piece::Whole(term))?;
        Ok(())
    }

    fn print_integer(&mut self, value: i128) -> Result<(), AllocError>
        ensures printed { OnOk result (self.new ≡ with_bytes (signed_decimal value) self.old) }
        ensures grows { OnOk result (Grows self.old self.new) }
    {
        let alloc = *self.out.allocator();
        let text = format!(in alloc; "{value}")?;
        self.out.extend_from_slice(text.as_bytes())?;
        Ok(())
    }

    fn print_class(&mut self, variable: Var) -> Result<(), AllocError>
        ensures { OnOk result (self.new ≡ class_printed variable self.old) }
    {
        let number = self.seen.number(variable)?;
        let alloc = *self.out.allocator();
        let text = format!(in alloc; "_{number}")?;
        self.out.extend_from_slice(text.as_bytes())
    }
}

fn names_cell(name: &str, count: u32) -> bool
    ensures { result ≡ names_cell name.now count }
{
    count == 2 && name == "."
}

fn names_end(name: &str, count: u32) -> bool
    ensures { result ≡ names_end name.now count }
{
    count == 0 && name == "[]"
}

// Puts arguments before the other pieces, `,` between.
fn push_arguments(
    pieces: &mut VecDeque<Piece>,
    first: u32,
    count: u32,
    frame: Name,
) -> Result<(), AllocError>
    requires { first + count < 2 ^ 32 }
    ensures { OnOk result (pieces.new.items ≡ argument_pieces frame first count pieces.old.items) }
{
    for k in (0..count).rev() {
        if k + 1 < count {
            pieces.push_front(Piece::Byte(b','))?;
        }
        let node = first + k;
        pieces.push_front(Piece::Whole(Term::Mol { node, frame }))?;
    }
    Ok(())
}
