//! Tokens that lie with the run.

ghost use Rattle.std.specs.Prelude.{◌≡◌, ◌<◌, true, length, Some, OnOk};
ghost use Rattle.wake_lists.specs.TokenSets.{is_token_in};
ghost use Rattle.par_workers.specs.Tokens.{IsTakenFrom};

use akl_terms::Name;
use std::alloc::{AllocError, Global};
use std::marker::Model;

/// A token, and the root box in which its place stands.
#[derive(Clone, Copy)]
pub struct Entry {
    token: u64,
    root: Option<Name>,
}

/// Tokens that no worker has, in the order in which they came. Contracts see the list of them.
#[derive(Drop)]
pub struct Lying {
    entries: Vec<Entry>,
}

impl Model for Lying {
    ghost use Rattle.std.specs.Prelude.{List, ℕ, map};

    ghost Value = { List ℕ };

    ghost view = { λ l. map (λ e. e.token) l.entries.items };
}

impl Lying {
    /// None yet.
    pub(crate) fn new(alloc: Global) -> Lying {
        Lying {
            entries: Vec::new(alloc),
        }
    }

    /// How many there are.
    pub(crate) fn count(&self) -> usize
        ensures { result ≡ length self.now }
    {
        self.entries.len()
    }

    /// The token at an index.
    pub(crate) fn token_at(&self, index: usize) -> u64
        requires { index < length self.now }
    {
        self.entries[index].token
    }

    /// The root box in which the place of the token at an index stands.
    pub(crate) fn root_at(&self, index: usize) -> Option<Name>
        requires { index < length self.now }
    {
        self.entries[index].root
    }

    /// A token comes to these, behind all others; its place stands in this root box.
    pub(crate) fn add(&mut self, token: u64, root: Option<Name>) -> Result<(), AllocError>
        ensures stay { (other : _) → is_token_in other self.old ≡ true → is_token_in other self.new ≡ true }
        ensures comes { OnOk result (is_token_in token self.new ≡ true) }
    {
        self.entries.push(Entry { token, root })?;
        Ok(())
    }

    /// Takes out the token at an index.
    pub(crate) fn take_out(&mut self, index: usize) -> u64
        requires { index < length self.old }
        ensures { IsTakenFrom self.old (Some result) self.new }
    {
        self.entries.remove(index).token
    }
}
