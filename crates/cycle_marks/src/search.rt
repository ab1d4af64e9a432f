//! The search along a path of components.

ghost use Rattle.std.specs.Prelude.{◌≡◌, ◌<◌, ◌≤◌, ◌+◌, ◌^◌, ◌∷◌, ◌++◌, [], All, ℕ, length, map, slice_get, get_or, IfOk, OnOk, IfSome, IfNone, Some, None, true, false};
ghost use Rattle.cycle_marks.specs.Rows.{AreWithin};
ghost use Rattle.cycle_marks.specs.Searching.{At, IsSearch, IsSearching, IsReached, AreOlder, GoesOn, ComesBack, AreMarked, IsLast, started, new_marks, opened_at, left};
ghost use Rattle.cycle_marks.specs.declared.search.Mark.TheVariants as marks;

use std::alloc::{AllocError, Global};
use std::marker::Model;

/// What is known of a node: nothing, its place among the open ones, or its component's number.
#[derive(Clone, Copy)]
pub enum Mark {
    New,
    Open(usize),
    Done(usize),
}

/// Where the nodes of a component on the path begin, and their edges that weren't followed.
#[derive(Clone, Copy)]
pub struct Base {
    pub node: usize,
    pub edge: usize,
}

/// A path of components: the nodes of each lead to one another, and to those behind it.
#[derive(Drop)]
pub struct Search {
    marks: Vec<Mark>,
    nodes: Vec<usize>,
    edges: Vec<usize>,
    path: Vec<Base>,
    cyclic: Vec<bool>,
}

impl Model for Search {
    ghost use Rattle.cycle_marks.specs.Searching.{State};

    ghost Value = { State };

    ghost view = { λ s. record { marks = s.marks.items; nodes = s.nodes.items; edges = s.edges.items; path = s.path.items; cyclic = s.cyclic.items } };
}

impl Search {
    /// Begins with so many new nodes.
    pub fn new(alloc: Global, count: usize) -> Result<Self, AllocError>
        ensures { IfOk result (λ s. s ≡ started (new_marks count)) }
    {
        let mut marks = Vec::new(alloc);
        for _ in 0..count {
            marks.push(Mark::New)?;
        }
        Ok(Search {
            marks,
            nodes: Vec::new(alloc),
            edges: Vec::new(alloc),
            path: Vec::new(alloc),
            cyclic: Vec::new(alloc),
        })
    }

    /// Gives the marks, and whether each component is a cycle.
    pub fn into_parts(self) -> (Vec<Mark>, Vec<bool>)
        ensures marks { result.0.items ≡ self.marks }
        ensures cyclic { result.1.items ≡ self.cyclic }
    {
        (self.marks, self.cyclic)
    }

    /// Whether a node was not met yet.
    pub fn is_new(&self, node: usize) -> bool
        requires { node < length self.now.marks }
        ensures new { result ≡ true → At self.now.marks node marks.New }
        ensures met { result ≡ false → At self.now.marks node marks.New → ⊥ }
    {
        match self.marks[node] {
            Mark::New => true,
            _ => false,
        }
    }

    /// Searches from a new node until all that it leads to is finished.
    pub fn explore(&mut self, rows: &[Vec<usize>], node: usize) -> Result<(), AllocError>
        requires within { AreWithin (map (λ v. v.items) rows.now) }
        requires search { IsSearch (map (λ v. v.items) rows.now) self.old }
        requires empty { self.old.nodes ≡ [] }
        requires new { At self.old.marks node marks.New }
        ensures search { OnOk result (IsSearch (map (λ v. v.items) rows.now) self.new) }
        ensures empty { OnOk result (self.new.nodes ≡ []) }
        ensures older { OnOk result (AreOlder self.old self.new) }
        ensures met { OnOk result (At self.new.marks node marks.New → ⊥) }
    {
        self.open_node(rows, node)?;
        while let Some(base) = self.last_base() {
            match self.next_edge(base) {
                Some(target) => self.follow(rows, target)?,
                None => self.finish(rows, base)?,
            }
        }
        Ok(())
    }

    // The last component of the path.
    fn last_base(&self) -> Option<Base>
        ensures some { IfSome result (λ b. IsLast self.now.path b) }
        ensures none { IfNone result (self.now.path ≡ []) }
    {
        self.path.last().copied()
    }

    // Takes an edge of the last component that wasn't followed, if there is one.
    fn next_edge(&mut self, base: Base) -> Option<usize>
        ensures some { IfSome result (λ u. (self.old ≡ record self.new { edges = self.new.edges ++ u ∷ [] }) × (base.edge ≤ length self.new.edges)) }
        ensures none { IfNone result ((self.new ≡ self.old) × (length self.new.edges ≤ base.edge)) }
    {
        if self.edges.len() > base.edge {
            self.edges.pop()
        } else {
            None
        }
    }

    // Puts a new node at the end of the path, as a component of its own.
    fn open_node(&mut self, rows: &[Vec<usize>], node: usize) -> Result<(), AllocError>
        requires row { node < length rows.now }
        requires mark { At self.old.marks node marks.New }
        ensures opened { OnOk result (self.new ≡ opened_at (get_or (map (λ v. v.items) rows.now) node []) node self.old) }
        ensures fits { OnOk result (length self.new.edges + length self.new.path < 2 ^ 65) }
    {
        let base = Base {
            node: self.nodes.len(),
            edge: self.edges.len(),
        };
        self.marks[node] = Mark::Open(base.node);
        self.nodes.push(node)?;
        self.edges.extend_from_slice(&rows[node])?;
        self.path.push(base)?;
        Ok(())
    }

    // Follows an edge: opens a new node, or joins the components behind an open one.
    fn follow(&mut self, rows: &[Vec<usize>], target: usize) -> Result<(), AllocError>
        requires row { target < length rows.now }
        requires search { IsSearching (map (λ v. v.items) rows.now) (Some target) self.old }
        requires reached { IsReached (map (λ v. v.items) rows.now) self.old.nodes target }
        ensures { OnOk result (GoesOn (map (λ v. v.items) rows.now) self.old self.new) }
    {
        match self.marks[target] {
            Mark::New => self.open_node(rows, target)?,
            Mark::Open(place) => self.join(rows, target, place),
            Mark::Done(_) => {}
        }
        Ok(())
    }

    // Joins the components that begin behind a place.
    fn join(&mut self, rows: &[Vec<usize>], target: usize, place: usize)
        requires search { IsSearching (map (λ v. v.items) rows.now) (Some target) self.old }
        requires reached { IsReached (map (λ v. v.items) rows.now) self.old.nodes target }
        requires mark { At self.old.marks target (marks.Open place) }
        ensures { GoesOn (map (λ v. v.items) rows.now) self.old self.new }
    {
        while let Some(base) = self.last_base() {
            if base.node <= place {
                break;
            }
            let _ = self.path.pop();
        }
    }

    // Finishes the last component, all of whose edges were followed.
    fn finish(&mut self, rows: &[Vec<usize>], base: Base) -> Result<(), AllocError>
        requires search { IsSearch (map (λ v. v.items) rows.now) self.old }
        requires last { IsLast self.old.path base }
        requires followed { length self.old.edges ≤ base.edge }
        requires place { base.node < length self.old.nodes }
        ensures goes_on { OnOk result (GoesOn (map (λ v. v.items) rows.now) self.old self.new) }
        ensures left { OnOk result (left self.new < left self.old) }
    {
        let cyclic = self.comes_back(rows, base);
        let number = self.cyclic.len();
        self.cyclic.push(cyclic)?;
        let _ = self.path.pop();
        mark_done(&mut self.marks, &self.nodes[base.node..], number);
        self.nodes.truncate(base.node);
        Ok(())
    }

    // Whether the last component is a cycle: it has several nodes, or one with an edge to itself.
    fn comes_back(&self, rows: &[Vec<usize>], base: Base) -> bool
        requires place { base.node < length self.now.nodes }
        requires rows { All (λ x. x < length rows.now) self.now.nodes }
        ensures { ComesBack (map (λ v. v.items) rows.now) self.now.nodes base.node result }
    {
        let node = self.nodes[base.node];
        self.nodes.len() > base.node + 1 || leads_to(&rows[node], node)
    }
}

// Whether a row has a node.
fn leads_to(row: &[usize], node: usize) -> bool
    ensures yes { result ≡ true → (k : ℕ) × (slice_get row.now k ≡ Some node) }
    ensures no { result ≡ false → (k : ℕ) → slice_get row.now k ≡ Some node → ⊥ }
{
    row.iter().any(|next| *next == node)
}

// Marks nodes with their component's number.
fn mark_done(marks: &mut [Mark], nodes: &[usize], number: usize)
    requires { All (λ x. x < length marks.old) nodes.now }
    ensures { AreMarked nodes.now number marks.old marks.new }
{
    for node in nodes {
        marks[*node] = Mark::Done(number);
    }
}
