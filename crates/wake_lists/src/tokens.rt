//! Numbers that are taken and given back.

ghost use Rattle.std.specs.Prelude.{◌≡◌, [], true, IfOk, OnErr};
ghost use Rattle.wake_lists.specs.Tokens.{is_taken, IsLeastFree, Takes, GivesBack};

use crate::heap_tokens::HeapTokens;
use std::alloc::{AllocError, Global};
use std::marker::Model;

/// Which numbers are taken. Contracts see it as a bound on these, and the numbers below the bound that are free.
#[derive(Drop)]
pub(crate) struct Tokens {
    heap: HeapTokens,
    // The least free number, which the heap holds as taken; one that is given back and soon taken again stays out of the heap.
    spare: Option<u64>,
}

impl Model for Tokens {
    ghost use Rattle.wake_lists.specs.Tokens.{Numbers, with_spare, IsSpareOf};

    ghost Value = { Numbers };

    ghost view = { λ t. with_spare t.spare t.heap };

    ghost invariant = { λ t. IsSpareOf t.spare t.heap };
}

impl Tokens {
    pub(crate) fn new(alloc: Global) -> Tokens
        ensures { result ≡ record { bound = 0; free = [] } }
    {
        Tokens {
            heap: HeapTokens::new(alloc),
            spare: None,
        }
    }

    /// Takes the least number that is free.
    pub(crate) fn take(&mut self) -> Result<u64, AllocError>
        ensures least { IfOk result (IsLeastFree self.old) }
        ensures takes { IfOk result (Takes self.old self.new) }
        ensures unchanged { OnErr result (self.new ≡ self.old) }
    {
        match self.spare.take() {
            Some(number) => Ok(number),
            None => self.heap.take(),
        }
    }

    /// Gives a number back.
    pub(crate) fn give_back(&mut self, number: u64)
        requires { is_taken self.old number ≡ true }
        ensures { GivesBack self.old self.new number }
    {
        match self.spare {
            Some(spare) => {
                if number < spare {
                    self.heap.give_back(spare);
                    self.spare = Some(number);
                } else {
                    self.heap.give_back(number);
                }
            }
            None => {
                if self.heap.is_least(number) {
                    self.spare = Some(number);
                } else {
                    self.heap.give_back(number);
                }
            }
        }
    }
}
