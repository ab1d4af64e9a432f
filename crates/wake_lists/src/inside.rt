//! The tokens that stand in each box.

ghost use Rattle.std.specs.Prelude.{◌≡◌, ◌≤◌, [], true, false, ◌||◌, ◌&&◌, ◌==◌, not, OnOk, OnErr, IfSome, IfNone};
ghost use Rattle.akl_terms.specs.Names.{same_name};
ghost use Rattle.name_map.specs.Entries.{IsTakenOut};
ghost use Rattle.wake_lists.specs.Standing.{stands, is_in};

use crate::token_set::TokenSet;
use akl_terms::Name;
use name_map::NameMap;
use std::alloc::{AllocError, Global};
use std::marker::Model;

/// The tokens that stand in each box.
#[derive(Drop)]
pub(crate) struct Inside {
    alloc: Global,
    // Of each box in which one stands.
    tokens: NameMap<TokenSet>,
}

impl Model for Inside {
    ghost use Rattle.wake_lists.specs.Standing.{InBoxes};

    ghost Value = { InBoxes };

    ghost view = { λ i. i.tokens };
}

impl Inside {
    pub(crate) fn new(alloc: Global) -> Inside
        ensures { result ≡ [] }
    {
        Inside {
            alloc,
            tokens: NameMap::new(alloc),
        }
    }

    /// Has the token stand in these boxes too. An `Err` leaves the other tokens as they were.
    pub(crate) fn add_all(&mut self, token: u64, boxes: &[Name]) -> Result<(), AllocError>
        ensures added { OnOk result ((t : _) (n : _) → stands self.new t n ≡ (stands self.old t n || ((t == token) && is_in n boxes.now))) }
        ensures others { OnErr result ((t : _) (n : _) → ((t == token) && is_in n boxes.now) ≡ false → stands self.new t n ≡ stands self.old t n) }
    {
        for name in boxes {
            self.add(token, *name)?;
        }
        Ok(())
    }

    /// Has the token stand in none of these boxes.
    pub(crate) fn remove_all(&mut self, token: u64, boxes: &[Name])
        ensures { (t : _) (n : _) → stands self.new t n ≡ (stands self.old t n && not ((t == token) && is_in n boxes.now)) }
    {
        for name in boxes {
            self.remove(token, *name);
        }
    }

    /// The least token that stands in the box.
    pub(crate) fn first(&self, name: Name) -> Option<u64>
        ensures there { IfSome result (λ t. stands self.now t name ≡ true) }
        ensures least { IfSome result (λ t. (s : _) → stands self.now s name ≡ true → t ≤ s) }
        ensures empty { IfNone result ((t : _) → stands self.now t name ≡ false) }
    {
        match self.tokens.get(name) {
            Some(tokens) => tokens.first(),
            None => None,
        }
    }

    /// A token other than this one that stands in the box.
    pub(crate) fn other(&self, name: Name, token: u64) -> Option<u64>
        ensures there { IfSome result (λ t. stands self.now t name ≡ true) }
        ensures other { IfSome result (λ t. t ≡ token → ⊥) }
        ensures none { IfNone result ((t : _) → stands self.now t name ≡ true → t ≡ token) }
    {
        match self.tokens.get(name) {
            Some(tokens) => tokens.other(token),
            None => None,
        }
    }

    // Has the token stand in the box too. An `Err` leaves all as it was.
    fn add(&mut self, token: u64, name: Name) -> Result<(), AllocError>
        ensures added { OnOk result ((t : _) (n : _) → stands self.new t n ≡ (stands self.old t n || ((t == token) && same_name n name))) }
        ensures unchanged { OnErr result ((t : _) (n : _) → stands self.new t n ≡ stands self.old t n) }
    {
        if let Some(tokens) = self.tokens.get_mut(name) {
            tokens.add(token)?;
            return Ok(());
        }
        let mut tokens = TokenSet::new(self.alloc);
        tokens.add(token)?;
        self.tokens.insert(name, tokens)?;
        Ok(())
    }

    // Has the token stand in the box no more.
    fn remove(&mut self, token: u64, name: Name)
        ensures { (t : _) (n : _) → stands self.new t n ≡ (stands self.old t n && not ((t == token) && same_name n name)) }
    {
        let Some(tokens) = self.tokens.get_mut(name) else {
            return;
        };
        tokens.remove(token);
        if tokens.is_empty() {
            drop_box(&mut self.tokens, name);
        }
    }
}

// Takes out the tokens of a box.
fn drop_box(tokens: &mut NameMap<TokenSet>, name: Name)
    ensures { IsTakenOut tokens.old tokens.new name }
{
    tokens.remove(name);
}
