//! Templates: the nodes and symbols that programs, queries and terms share.

ghost use Rattle.std.specs.Prelude.{◌≡◌, ◌<◌, ◌+◌, ◌^◌, ◌↔◌, IfOk, IfSome, IfNone, IsTrue, OnErr, length, slice_get, Some, [], ◌++◌};
ghost use Rattle.akl_terms.specs.Template.{IsArranged, AreDistinct, seen_of, IsKnown, IsNew, Appends, Interns, IsGroup, MayStandAt};

use crate::name::Var;
use crate::term::{Node, Seen, Term};
use crate::text::Text;
use std::alloc::{AllocError, Global};
use std::collections::BTreeMap;
use std::marker::Model;

/// Nodes and symbols. The arguments of a node stand before it, so a node is a finite tree under
/// each frame; no text has two symbols.
#[derive(Drop)]
pub struct Templates {
    nodes: Vec<Node>,
    symbols: Vec<Text>,
    numbers: BTreeMap<String, u32>,
}

impl Model for Templates {
    ghost use Rattle.akl_terms.specs.Template.{Template};

    ghost Value = { Template };

    ghost use Rattle.akl_terms.specs.Numbered.{IsNumbered};

    ghost view = { λ t. record { nodes = t.nodes.items; symbols = t.symbols.items } };

    ghost invariant = { IsNumbered };
}

impl Templates {
    /// Templates without a node and without a symbol.
    pub fn new(alloc: Global) -> Self
        ensures nodes { result.nodes ≡ [] }
        ensures symbols { result.symbols ≡ [] }
    {
        Templates {
            nodes: Vec::new(alloc),
            symbols: Vec::new(alloc),
            numbers: BTreeMap::new(alloc),
        }
    }

    /// The symbol of a text, where it has one.
    pub fn number_of(&self, text: &str) -> Option<u32>
        ensures found { IfSome result (λ n. slice_get self.now.symbols n ≡ Some text.now) }
        ensures absent { IfNone result (IsNew self.now text.now) }
        ensures distinct { AreDistinct self.now.symbols }
    {
        match self.numbers.get(text) {
            Some(number) => Some(*number),
            None => None,
        }
    }

    /// The symbol of a text: the one that it has, else the next.
    pub fn intern(&mut self, text: &str) -> Result<u32, AllocError>
        requires { length self.old.symbols < 4294967295 }
        ensures ok { IfOk result (λ n. Interns self.old self.new text.now n) }
        ensures err { OnErr result (self.new ≡ self.old) }
    {
        match self.number_of(text) {
            Some(number) => Ok(number),
            None => self.append_symbol(text),
        }
    }

    // A text that has no symbol gets the next.
    fn append_symbol(&mut self, text: &str) -> Result<u32, AllocError>
        requires room { length self.old.symbols < 4294967295 }
        requires absent { IsNew self.old text.now }
        ensures ok { IfOk result (λ n. Appends self.old self.new text.now n) }
        ensures err { OnErr result (self.new ≡ self.old) }
    {
        let alloc = *self.symbols.allocator();
        let number = self.symbols.len() as u32;
        let symbol = Text::from_str(alloc, text)?;
        let key = String::from_str(alloc, text)?;
        self.symbols.push(symbol)?;
        match self.numbers.insert(key, number) {
            Ok(_) => Ok(number),
            Err(_) => {
                let _ = self.symbols.pop();
                Err(AllocError)
            }
        }
    }

    /// Appends neighbouring nodes, and gives the number of the first.
    pub fn push(&mut self, group: &[Node]) -> Result<u32, AllocError>
        requires group { IsGroup self.old group.now }
        requires room { length self.old.nodes + length group.now < 2 ^ 32 }
        ensures first { IfOk result (λ n. n ≡ length self.old.nodes) }
        ensures nodes { IfOk result (λ _. self.new ≡ record self.old { nodes = self.old.nodes ++ group.now }) }
        ensures arranged { IsArranged self.new.nodes }
        ensures err { OnErr result (self.new ≡ self.old) }
    {
        let first = self.nodes.len() as u32;
        self.nodes.extend_from_slice(group)?;
        Ok(first)
    }

    /// The node of this number. The symbol of a structure is there, and its arguments stand before it.
    pub fn node(&self, at: u32) -> Node
        requires { at < length self.now.nodes }
        ensures node { slice_get self.now.nodes at ≡ Some result }
        ensures stands { MayStandAt self.now at result }
    {
        self.nodes[at as usize]
    }

    /// What a term begins with. A node that isn't there reads as the integer 0.
    pub fn look(&self, term: Term) -> Seen
        ensures seen { result ≡ seen_of self.now.nodes term }
        ensures known { IsKnown self.now result }
        ensures arranged { IsArranged self.now.nodes }
        ensures small { length self.now.nodes < 2 ^ 32 }
    {
        match term {
            Term::Int(n) => Seen::Int(n),
            Term::Port(p) => Seen::Port(p),
            Term::Mol { node, frame } => match self.nodes.get(node as usize) {
                None => Seen::Int(0),
                Some(Node::Var(index)) => Seen::Free(Var {
                    frame,
                    index: *index,
                }),
                Some(Node::Int(n)) => Seen::Int(*n),
                Some(
                    Node::Struct {
                        symbol,
                        first,
                        count,
                    },
                ) => Seen::Struct {
                    symbol: *symbol,
                    first: *first,
                    count: *count,
                    frame,
                },
            },
        }
    }

    /// How many nodes there are.
    pub fn len(&self) -> u32
        ensures len { result ≡ length self.now.nodes }
        ensures arranged { IsArranged self.now.nodes }
        ensures small { length self.now.nodes < 2 ^ 32 }
    {
        self.nodes.len() as u32
    }

    /// Whether there is no node.
    pub fn is_empty(&self) -> bool
        ensures { IsTrue result ↔ (self.now.nodes ≡ []) }
    {
        self.nodes.is_empty()
    }

    /// How many symbols there are.
    pub fn symbols(&self) -> u32
        ensures count { result ≡ length self.now.symbols }
        ensures distinct { AreDistinct self.now.symbols }
    {
        self.symbols.len() as u32
    }

    /// The text of the symbol of this number.
    pub fn symbol(&self, number: u32) -> &str
        requires { number < length self.now.symbols }
        ensures { slice_get self.now.symbols number ≡ Some result.now }
    {
        self.symbols[number as usize].as_str()
    }
}
