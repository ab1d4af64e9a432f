//! The classes of variables that were printed.

ghost use Rattle.std.specs.Prelude.{◌≡◌, suc, [], IfOk, OnOk};
ghost use Rattle.answer_text.specs.Pieces.{class_number, with_class, known_number};

use akl_terms::Var;
use std::alloc::{AllocError, Global};
use std::collections::HashMap;
use std::marker::Model;

/// The variables that stand for the classes, by order of first printing, with an index.
#[derive(Drop)]
pub struct Classes {
    seen: Vec<Var>,
    numbers: HashMap<Var, usize>,
}

impl Model for Classes {
    ghost use Rattle.std.specs.Prelude.{List};
    ghost use Rattle.akl_terms.specs.declared.name.Var.{Var};
    ghost use Rattle.answer_text.specs.Pieces.{HasNumbers};

    ghost Value = { List Var };

    ghost view = { λ c. c.seen.items };

    ghost invariant = { λ c. HasNumbers c.numbers.entries c.seen.items };
}

impl Classes {
    pub fn new(alloc: Global) -> Self
        ensures { result ≡ [] }
    {
        Classes {
            seen: Vec::new(alloc),
            numbers: HashMap::new(alloc),
        }
    }

    /// The number of a class, from 1 on; a new one comes behind those seen.
    pub fn number(&mut self, variable: Var) -> Result<usize, AllocError>
        ensures number { IfOk result (λ k. k ≡ suc (class_number self.old variable)) }
        ensures seen { OnOk result (self.new ≡ with_class self.old variable) }
    {
        if let Some(number) = self.known(variable) {
            return Ok(number);
        }
        self.seen.push(variable)?;
        let number = self.seen.len();
        match self.numbers.insert(variable, number) {
            Ok(_) => Ok(number),
            Err(_) => {
                let _ = self.seen.pop();
                Err(AllocError)
            }
        }
    }
    // The number of a class that was seen.
    fn known(&self, variable: Var) -> Option<usize>
        ensures { result ≡ known_number self.now variable }
    {
        self.numbers.get(&variable).copied()
    }
}
