//! Numbers of classes, in the order in which they were given.

ghost use Rattle.std.specs.Prelude.{◌≡◌, ◌<◌, suc, [], IfOk, IfSome, OnOk, slice_get};
ghost use Rattle.tree_classes.specs.Numbers.{number_in, with_number, known_number};

use std::alloc::{AllocError, Global};
use std::collections::HashMap;
use std::marker::Model;

/// The classes that have a number, in order, with an index.
#[derive(Drop)]
pub struct Numbers {
    given: Vec<usize>,
    numbers: HashMap<usize, usize>,
}

impl Model for Numbers {
    ghost use Rattle.std.specs.Prelude.{List, ℕ};
    ghost use Rattle.tree_classes.specs.Numbers.{HasNumbers};

    ghost Value = { List ℕ };

    ghost view = { λ n. n.given.items };

    ghost invariant = { λ n. HasNumbers n.numbers.entries n.given.items };
}

impl Numbers {
    /// No class has a number. It takes no memory.
    pub fn new(alloc: Global) -> Self
        ensures { result ≡ [] }
    {
        Numbers {
            given: Vec::new(alloc),
            numbers: HashMap::new(alloc),
        }
    }

    /// The class with a number, from 0 on.
    pub fn get(&self, place: usize) -> Option<usize>
        ensures class { result ≡ slice_get self.now place }
        ensures fits { IfSome result (λ class. place < usize.MAX) }
    {
        self.given.get(place).copied()
    }

    /// The number of a class, from 1 on; a new one comes behind the others.
    pub fn number(&mut self, class: usize) -> Result<usize, AllocError>
        ensures number { IfOk result (λ k. k ≡ suc (number_in self.old class)) }
        ensures given { OnOk result (self.new ≡ with_number self.old class) }
    {
        if let Some(number) = self.known(class) {
            return Ok(number);
        }
        self.given.push(class)?;
        let number = self.given.len();
        match self.numbers.insert(class, number) {
            Ok(_) => Ok(number),
            Err(_) => {
                let _ = self.given.pop();
                Err(AllocError)
            }
        }
    }

    /// The place of a class, from 0 on; where it has no number, behind the others.
    pub fn place(&self, class: usize) -> usize
        ensures { result ≡ number_in self.now class }
    {
        match self.known(class) {
            Some(number) => number - 1,
            None => self.given.len(),
        }
    }

    /// The number of a class that has one, from 1 on.
    pub fn known(&self, class: usize) -> Option<usize>
        ensures { result ≡ known_number self.now class }
    {
        self.numbers.get(&class).copied()
    }
}
