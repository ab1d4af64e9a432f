//! Numbers that are taken and given back, in a heap.

ghost use Rattle.std.specs.Prelude.{◌≡◌, ◌<◌, [], true, IfOk, OnErr};
ghost use Rattle.wake_lists.specs.Tokens.{is_taken, IsLeastFree, Takes, GivesBack};

use std::alloc::{AllocError, Global};
use std::cmp::Reverse;
use std::collections::BinaryHeap;
use std::marker::Model;

/// Which numbers are taken. Contracts see it as a bound on these, and the numbers below the bound that are free.
#[derive(Drop)]
pub(crate) struct HeapTokens {
    // Has room for all numbers below the bound.
    free: BinaryHeap<Reverse<u64>>,
    bound: u64,
}

impl Model for HeapTokens {
    ghost use Rattle.std.specs.BinaryHeap.{heap_items, heap_capacity};
    ghost use Rattle.wake_lists.specs.Tokens.{Numbers, numbers_of, AreKept};

    ghost Value = { Numbers };

    ghost view = { λ t. record { bound = t.bound; free = numbers_of (heap_items t.free) } };

    ghost invariant = { λ t. AreKept t.bound (heap_items t.free) (heap_capacity t.free) };
}

impl HeapTokens {
    pub(crate) fn new(alloc: Global) -> HeapTokens
        ensures { result ≡ record { bound = 0; free = [] } }
    {
        HeapTokens {
            free: BinaryHeap::new(alloc),
            bound: 0,
        }
    }

    /// Takes the least number that is free.
    pub(crate) fn take(&mut self) -> Result<u64, AllocError>
        ensures least { IfOk result (IsLeastFree self.old) }
        ensures takes { IfOk result (Takes self.old self.new) }
        ensures unchanged { OnErr result (self.new ≡ self.old) }
    {
        if let Some(Reverse(number)) = self.free.pop() {
            return Ok(number);
        }
        let number = self.bound;
        let bound = number.checked_add(1).ok_or(AllocError)?;
        self.free.reserve(bound as usize)?;
        self.bound = bound;
        Ok(number)
    }

    /// Whether no number below this one is free.
    pub(crate) fn is_least(&self, number: u64) -> bool
        ensures { result ≡ true → (k : _) → k < number → k < self.now.bound → is_taken self.now k ≡ true }
    {
        match self.free.peek() {
            Some(Reverse(least)) => number <= *least,
            None => true,
        }
    }

    /// Gives a number back.
    pub(crate) fn give_back(&mut self, number: u64)
        requires { is_taken self.old number ≡ true }
        ensures { GivesBack self.old self.new number }
    {
        let _ = self.free.push(Reverse(number));
    }
}
