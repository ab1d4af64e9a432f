//! The components of a graph.

ghost use Rattle.std.specs.Prelude.{◌≡◌, ◌<◌, length, map, IfOk};
ghost use Rattle.cycle_marks.specs.Rows.{AreWithin, AreRanked};
ghost use Rattle.cycle_marks.specs.Components.{rank_of, is_cyclic};

use crate::search::{Mark, Search};
use std::alloc::{AllocError, Global};
use std::marker::Model;

/// For each node its component, whose nodes lead to one another, and whether that is a cycle.
#[derive(Drop)]
pub struct Components {
    marks: Vec<Mark>,
    cyclic: Vec<bool>,
}

impl Model for Components {
    ghost use Rattle.cycle_marks.specs.Components.{Marks};

    ghost Value = { Marks };

    ghost view = { λ c. record { marks = c.marks.items; cyclic = c.cyclic.items } };
}

impl Components {
    /// Whether a node lies on a cycle.
    pub fn is_cyclic(&self, node: usize) -> bool
        ensures { result ≡ is_cyclic self.now node }
    {
        match self.marks.get(node) {
            Some(Mark::Done(number)) => self.cyclic.get(*number).copied().unwrap_or(false),
            _ => false,
        }
    }
}

/// The components of a graph, whose edges lead from each node to those of its row.
pub fn find_components(alloc: Global, rows: &[Vec<usize>]) -> Result<Components, AllocError>
    requires { AreWithin (map (λ v. v.items) rows.now) }
    ensures { IfOk result (λ c. AreRanked (map (λ v. v.items) rows.now) (rank_of c) (is_cyclic c)) }
{
    let mut search = Search::new(alloc, rows.len())?;
    for node in 0..rows.len() {
        if search.is_new(node) {
            search.explore(rows, node)?;
        }
    }
    let (marks, cyclic) = search.into_parts();
    Ok(Components { marks, cyclic })
}
