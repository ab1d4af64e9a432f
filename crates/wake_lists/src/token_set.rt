//! Sets of tokens, of which the small ones are lists.

ghost use Rattle.std.specs.Prelude.{◌≡◌, [], ◌==◌, not, length, min, OnOk, OnErr};
ghost use Rattle.std.specs.List.{find, position, reduce};
ghost use Rattle.wake_lists.specs.TokenSets.{IsLeastIn, IsOtherIn, Adds, Drops};

use smallvec::SmallVec;
use std::alloc::{AllocError, Global};
use std::collections::BTreeSet;
use std::marker::Model;

// How long the list of a set gets at most.
const SHORT: usize = 16;

/// A set of tokens. Contracts see it as these, in no order, and some maybe more than once.
///
/// A call takes time in the order of the logarithm of what is held.
#[derive(Drop)]
pub(crate) struct TokenSet {
    short: SmallVec<u64, 4>,
    // Those that came when the list was long, in order.
    rest: BTreeSet<u64>,
}

impl Model for TokenSet {
    ghost use Rattle.std.specs.Prelude.{List, ℕ, ◌++◌};

    ghost Value = { List ℕ };

    ghost view = { λ s. s.short.items ++ s.rest.keys };
}

impl TokenSet {
    pub(crate) fn new(alloc: Global) -> TokenSet
        ensures { result ≡ [] }
    {
        TokenSet {
            short: SmallVec::new(alloc),
            rest: BTreeSet::new(alloc),
        }
    }

    pub(crate) fn is_empty(&self) -> bool
        ensures { result ≡ (length self.now == 0) }
    {
        self.short.is_empty() && self.rest.is_empty()
    }

    /// The least token.
    pub(crate) fn first(&self) -> Option<u64>
        ensures { IsLeastIn self.now result }
    {
        let short = least(self.short.as_slice());
        let Some(first) = self.rest.first().copied() else {
            return short;
        };
        match short {
            Some(token) => {
                if token < first {
                    Some(token)
                } else {
                    Some(first)
                }
            }
            None => Some(first),
        }
    }

    /// A token other than this one.
    pub(crate) fn other(&self, token: u64) -> Option<u64>
        ensures { IsOtherIn self.now token result }
    {
        if let Some(found) = another(self.short.as_slice(), token) {
            return Some(found);
        }
        let Some(first) = self.rest.first().copied() else {
            return None;
        };
        if first != token {
            return Some(first);
        }
        let last = self.rest.last().copied()?;
        if last != token { Some(last) } else { None }
    }

    /// Adds a token. An `Err`, for want of memory, leaves all as it was.
    pub(crate) fn add(&mut self, token: u64) -> Result<(), AllocError>
        ensures added { OnOk result (Adds self.old self.new token) }
        ensures unchanged { OnErr result (self.new ≡ self.old) }
    {
        if self.short.len() < SHORT {
            self.short.push(token)?;
        } else {
            self.rest.insert(token)?;
        }
        Ok(())
    }

    /// Takes out a token, where it is there.
    pub(crate) fn remove(&mut self, token: u64)
        ensures { Drops self.old self.new token }
    {
        drop_token(&mut self.short, token);
        self.rest.remove(&token);
    }
}

// The least token of a list.
fn least(tokens: &[u64]) -> Option<u64>
    ensures { result ≡ reduce min tokens.now }
{
    tokens.iter().copied().min()
}

// The first token of a list that isn't this one.
fn another(tokens: &[u64], token: u64) -> Option<u64>
    ensures { result ≡ find (λ t. not (t == token)) tokens.now }
{
    tokens.iter().copied().find(|t| *t != token)
}

// The first place of a token in a list.
fn place_of(tokens: &[u64], token: u64) -> Option<usize>
    ensures { result ≡ position (λ t. t == token) tokens.now }
{
    tokens.iter().position(|t| *t == token)
}

// Takes a token out of a list, wherever it stands.
fn drop_token(tokens: &mut SmallVec<u64, 4>, token: u64)
    ensures { Drops tokens.old.items tokens.new.items token }
{
    while let Some(index) = place_of(tokens.as_slice(), token) {
        tokens.swap_remove(index);
    }
}
