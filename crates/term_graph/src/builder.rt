//! Nodes and their index.

ghost use Rattle.std.specs.Prelude.{◌≡◌, ◌<◌, [], IfOk, OnOk, length, map, slice_get, Some};
ghost use Rattle.akl_terms.specs.Template.{tree};
ghost use Rattle.akl_terms.specs.Tree as trees;
ghost use Rattle.answer_text.specs.Pieces.{IsShort};
ghost use Rattle.rational_unify.specs.Known.{IsSolved, end_of};
ghost use Rattle.term_graph.specs.Building.{place_of, seen_tree, IsBuilding, Grows, IsNumbered, IsRowOf, IsPlaced, IsTermGraph};
ghost use Rattle.term_graph.specs.Built.{IsBuiltAlong};
ghost use Rattle.term_graph.specs.Reached.{Reaches, KeepsReached};

use crate::ending::{term_end, variable_end};
use crate::place::{Place, place_of};
use akl_terms::{Seen, Templates, Term, Var};
use rational_unify::Lookup;
use std::alloc::{AllocError, Global};
use std::collections::HashMap;
use std::marker::Model;

/// A graph that is built: what each node begins with, and an index of the symbols among them.
#[derive(Drop)]
pub struct Builder {
    seens: Vec<Seen>,
    index: HashMap<Place, usize>,
}

impl Model for Builder {
    ghost use Rattle.term_graph.specs.Building.{State};

    ghost Value = { State };

    ghost view = { λ b. record { seens = b.seens.items; index = b.index.entries } };
}

impl Builder {
    /// A graph without a node.
    pub fn new(alloc: Global) -> Self
        ensures { result ≡ record { seens = []; index = [] } }
    {
        Builder {
            seens: Vec::new(alloc),
            index: HashMap::new(alloc),
        }
    }

    /// How many nodes there are.
    pub fn len(&self) -> usize
        ensures { result ≡ length self.now.seens }
    {
        self.seens.len()
    }

    /// What a node begins with.
    pub fn seen(&self, node: usize) -> Seen
        requires { node < length self.now.seens }
        ensures { slice_get self.now.seens node ≡ Some result }
    {
        self.seens[node]
    }

    /// Gives what the nodes begin with.
    pub fn into_seens(self) -> Vec<Seen>
        ensures { result.items ≡ self.seens }
    {
        self.seens
    }

    /// The node of what stands for a term: for a symbol the one that it has, if there is one, else
    /// the next.
    pub fn number<K: Lookup>(
        &mut self,
        templates: &Templates,
        form: &K,
        term: Term,
    ) -> Result<usize, AllocError>
        requires solved { IsSolved templates.now.nodes (K.bindings form.now) }
        requires building { IsBuilding templates.now (end_of templates.now.nodes (K.bindings form.now)) self.old }
        ensures { IfOk result (λ i. IsNumbered templates.now (end_of templates.now.nodes (K.bindings form.now)) self.old self.new i (tree templates.now.nodes term)) }
    {
        let node = self.place(term_end(templates, form, term))?;
        Ok(node)
    }

    /// The node of what stands for a variable, as `number` gives that of a term.
    pub fn number_variable<K: Lookup>(
        &mut self,
        templates: &Templates,
        form: &K,
        variable: Var,
    ) -> Result<usize, AllocError>
        requires solved { IsSolved templates.now.nodes (K.bindings form.now) }
        requires building { IsBuilding templates.now (end_of templates.now.nodes (K.bindings form.now)) self.old }
        ensures { IfOk result (λ i. IsNumbered templates.now (end_of templates.now.nodes (K.bindings form.now)) self.old self.new i (trees.variable variable)) }
    {
        let node = self.place(variable_end(templates, form, variable))?;
        Ok(node)
    }

    // The node that begins so.
    fn place(&mut self, seen: Seen) -> Result<usize, AllocError>
        ensures { IfOk result (IsPlaced self.old self.new seen) }
    {
        if let Some(place) = place_of(seen) {
            return self.place_symbol(place, seen);
        }
        let node = self.seens.len();
        self.seens.push(seen)?;
        Ok(node)
    }

    // The node of a symbol: the one that it has, or the next.
    fn place_symbol(&mut self, place: Place, seen: Seen) -> Result<usize, AllocError>
        requires { place_of seen ≡ Some place }
        ensures { IfOk result (IsPlaced self.old self.new seen) }
    {
        if let Some(known) = self.index.get(&place).copied() {
            return Ok(known);
        }
        let node = self.seens.len();
        self.seens.push(seen)?;
        self.index.insert(place, node)?;
        Ok(node)
    }

    /// The nodes of the arguments of what a node begins with.
    pub fn row<K: Lookup>(
        &mut self,
        alloc: Global,
        templates: &Templates,
        form: &K,
        seen: Seen,
    ) -> Result<Vec<usize>, AllocError>
        requires solved { IsSolved templates.now.nodes (K.bindings form.now) }
        requires building { IsBuilding templates.now (end_of templates.now.nodes (K.bindings form.now)) self.old }
        requires short { IsShort seen }
        ensures building { OnOk result (IsBuilding templates.now (end_of templates.now.nodes (K.bindings form.now)) self.new) }
        ensures grows { OnOk result (Grows self.old.seens self.new.seens) }
        ensures reaches { OnOk result (Reaches templates.now (end_of templates.now.nodes (K.bindings form.now)) (seen_tree templates.now.nodes seen) self.old.seens self.new.seens) }
        ensures row { IfOk result (λ row. IsRowOf templates.now (end_of templates.now.nodes (K.bindings form.now)) self.new.seens seen row.items) }
    {
        let mut row = Vec::new(alloc);
        let Some(place) = place_of(seen) else {
            return Ok(row);
        };
        for k in 0..place.count {
            let argument = Term::Mol {
                node: place.first + k,
                frame: place.frame,
            };
            let node = self.number(templates, form, argument)?;
            row.push(node)?;
        }
        Ok(row)
    }
    /// Adds what is reached, step by step, from what the nodes begin with, and gives for each node
    /// the nodes of its arguments.
    pub fn complete<K: Lookup>(
        &mut self,
        alloc: Global,
        templates: &Templates,
        form: &K,
    ) -> Result<Vec<Vec<usize>>, AllocError>
        requires solved { IsSolved templates.now.nodes (K.bindings form.now) }
        requires building { IsBuilding templates.now (end_of templates.now.nodes (K.bindings form.now)) self.old }
        ensures graph { IfOk result (λ rows. IsTermGraph templates.now (end_of templates.now.nodes (K.bindings form.now)) self.new.seens (map (λ v. v.items) rows.items)) }
        ensures built { IfOk result (λ rows. IsBuiltAlong templates.now (end_of templates.now.nodes (K.bindings form.now)) self.new.seens (map (λ v. v.items) rows.items)) }
        ensures grows { OnOk result (Grows self.old.seens self.new.seens) }
        ensures reached { OnOk result (KeepsReached templates.now (end_of templates.now.nodes (K.bindings form.now)) self.old.seens self.new.seens) }
    {
        let mut rows = Vec::new(alloc);
        while rows.len() < self.len() {
            let row = self.row(alloc, templates, form, self.seen(rows.len()))?;
            rows.push(row)?;
        }
        Ok(rows)
    }
}
