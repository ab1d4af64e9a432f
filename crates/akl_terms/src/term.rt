//! Template nodes and terms.

use crate::name::{Name, Var};

/// A node of a template. Under a frame it stands for a finite tree.
#[derive(Clone, Copy, Debug, PartialEq, Eq)]
pub enum Node {
    /// The frame's variable of this index.
    Var(u32),
    Int(i128),
    /// A symbol over the `count` neighbouring nodes from `first` on.
    Struct { symbol: u32, first: u32, count: u32 },
}

/// A term: a template node under a frame of variables, an integer, or a port.
#[derive(Clone, Copy, Debug, PartialEq, Eq)]
pub enum Term {
    Mol { node: u32, frame: Name },
    Int(i128),
    Port(Name),
}

impl Default for Term {
    /// The integer 0.
    fn default() -> Term {
        Term::Int(0)
    }
}

/// What a term begins with, with its frame where it goes on.
#[derive(Clone, Copy, Debug, PartialEq, Eq)]
pub enum Seen {
    Free(Var),
    Int(i128),
    Port(Name),
    /// A symbol over the `count` neighbouring nodes from `first` on, under the frame.
    Struct {
        symbol: u32,
        first: u32,
        count: u32,
        frame: Name,
    },
}

/// An equation between two terms.
#[derive(Clone, Copy, Default)]
pub struct Equation {
    pub left: Term,
    pub right: Term,
}
