//! The tokens of places in copies that splits made.

ghost use Rattle.std.specs.Prelude.{◌≡◌, true, OnOk};
ghost use Rattle.wake_lists.specs.TokenSets.{is_token_in};
ghost use Rattle.par_workers.specs.Tokens.{IsTakenFrom};

use crate::lying::Lying;
use akl_terms::Name;
use std::alloc::{AllocError, Global};
use std::marker::Model;

// So often workers pass by the copies, before one of them takes the first besides what it has.
const MOST_PASSED: u32 = 1_024;

/// The tokens of what splits of root boxes opened in the copies, those of one copy together, of the last copy behind: whoever
/// has no token takes all of one copy. Contracts see the list of them.
#[derive(Drop)]
pub struct Copies {
    lying: Lying,
    // How often a worker passed by since one took the first copy.
    passed: u32,
}

impl Model for Copies {
    ghost use Rattle.std.specs.Prelude.{List, ℕ};

    ghost Value = { List ℕ };

    ghost view = { λ c. c.lying };
}

impl Copies {
    /// None yet.
    pub(crate) fn new(alloc: Global) -> Copies {
        Copies {
            lying: Lying::new(alloc),
            passed: 0,
        }
    }

    /// How many tokens there are.
    pub(crate) fn count(&self) -> usize {
        self.lying.count()
    }

    /// The token of a place of the last copy comes to these; the copy has this root box.
    pub(crate) fn add(&mut self, token: u64, root: Option<Name>) -> Result<(), AllocError>
        ensures stay { (other : _) → is_token_in other self.old ≡ true → is_token_in other self.new ≡ true }
        ensures comes { OnOk result (is_token_in token self.new ≡ true) }
    {
        self.lying.add(token, root)
    }

    /// A worker passes by that has tokens. Whether it is to take the first copy besides: so none waits for ever, though other
    /// workers never end what they have.
    pub(crate) fn pass(&mut self) -> bool
        ensures { self.new ≡ self.old }
    {
        if self.lying.count() == 0 {
            return false;
        }
        self.passed = self.passed.saturating_add(1);
        if self.passed < MOST_PASSED {
            return false;
        }
        self.passed = 0;
        true
    }

    /// The root box of the first copy.
    pub(crate) fn first_root(&self) -> Option<Name> {
        if self.lying.count() == 0 {
            None
        } else {
            self.lying.root_at(0)
        }
    }

    /// The root box of the last copy.
    pub(crate) fn last_root(&self) -> Option<Name> {
        let count = self.lying.count();
        if count == 0 {
            None
        } else {
            self.lying.root_at(count - 1)
        }
    }

    /// Takes out the first token, if it is of the copy with this root box.
    pub(crate) fn take_first(&mut self, root: Option<Name>) -> Option<u64>
        ensures { IsTakenFrom self.old result self.new }
    {
        if self.lying.count() == 0 || self.lying.root_at(0) != root {
            return None;
        }
        Some(self.lying.take_out(0))
    }

    /// Takes out the last token, if it is of the copy with this root box.
    pub(crate) fn take_last(&mut self, root: Option<Name>) -> Option<u64>
        ensures { IsTakenFrom self.old result self.new }
    {
        let count = self.lying.count();
        if count == 0 || self.lying.root_at(count - 1) != root {
            return None;
        }
        Some(self.lying.take_out(count - 1))
    }
}
