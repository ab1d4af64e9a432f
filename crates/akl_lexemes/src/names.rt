//! The variables of a clause or query, by first occurrence.

ghost use Rattle.std.specs.Prelude.{◌≡◌, ◌≢◌, ◌<◌, [], IfOk, None, length, codes};
ghost use Rattle.akl_lexemes.specs.Lexemes.{number_of};
ghost use Rattle.akl_lexemes.specs.Named.{Numbers};

use akl_terms::Text;
use std::alloc::{AllocError, Global};
use std::collections::BTreeMap;
use std::marker::Model;

/// The spelling of each variable, by its number. Each `_` is a variable of its own.
#[derive(Drop)]
pub struct Names {
    names: Vec<Text>,
    numbers: BTreeMap<String, u32>,
}

impl Model for Names {
    ghost use Rattle.std.specs.Prelude.{List, ℕ};

    ghost Value = { List (List ℕ) };

    ghost use Rattle.akl_lexemes.specs.NumberMap.{NumbersAgree};

    ghost view = { λ n. n.names.items };

    ghost invariant = { NumbersAgree };
}

impl Names {
    /// No variables.
    pub fn new(alloc: Global) -> Self
        ensures { result ≡ [] }
    {
        Names {
            names: Vec::new(alloc),
            numbers: BTreeMap::new(alloc),
        }
    }

    /// The number of the variable of a spelling: the one that it has, else the next.
    pub fn number(&mut self, name: Text) -> Result<u32, AllocError>
        requires { length self.old < 4294967295 }
        ensures { IfOk result (λ n. Numbers self.old name n self.new) }
    {
        if name.as_str() == "_" {
            return self.append_anonymous(name);
        }
        match self.numbers.get(name.as_str()) {
            Some(number) => Ok(*number),
            None => self.append_named(name),
        }
    }

    // A variable without a name gets the next number.
    fn append_anonymous(&mut self, name: Text) -> Result<u32, AllocError>
        requires room { length self.old < 4294967295 }
        requires anonymous { name ≡ codes "_" }
        ensures { IfOk result (λ n. Numbers self.old name n self.new) }
    {
        let number = self.names.len() as u32;
        self.names.push(name)?;
        Ok(number)
    }

    // A name that has no number gets the next.
    fn append_named(&mut self, name: Text) -> Result<u32, AllocError>
        requires room { length self.old < 4294967295 }
        requires named { name ≢ codes "_" }
        requires new { number_of name self.old ≡ None }
        ensures { IfOk result (λ n. Numbers self.old name n self.new) }
    {
        let number = self.names.len() as u32;
        let key = name.duplicate()?.into_string();
        self.names.push(name)?;
        match self.numbers.insert(key, number) {
            Ok(_) => Ok(number),
            Err(_) => {
                let _ = self.names.pop();
                Err(AllocError)
            }
        }
    }

    /// The spellings alone.
    pub fn into_names(self) -> Vec<Text>
        ensures { result.items ≡ self }
    {
        self.names
    }
}
