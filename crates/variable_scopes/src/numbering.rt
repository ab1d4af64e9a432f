//! Numbers of variables.

ghost use Rattle.std.specs.Prelude.{◌≡◌, ◌<◌, [], IfOk, OnOk, None, length, map, replicate};
ghost use Rattle.variable_scopes.specs.Numbering.{state, number, after_one, entered, named, left, AreBelow};

use std::alloc::{AllocError, Global};

/// The variables so far of a clause or a query.
#[derive(Drop)]
pub struct Numbering {
    /// For each spelling, the number of the variable that it names here, where it has one.
    pub current: Vec<Option<u32>>,
    /// The spelling of each variable, by its number.
    pub found: Vec<u32>,
}

impl Numbering {
    /// No variables, where there are so many spellings.
    pub fn new(alloc: Global, spellings: usize) -> Result<Numbering, AllocError>
        ensures current { IfOk result (λ n. n.current.items ≡ replicate spellings None) }
        ensures found { IfOk result (λ n. n.found.items ≡ []) }
    {
        let current = vec![in alloc; None; spellings]?;
        Ok(Numbering {
            current,
            found: Vec::new(alloc),
        })
    }

    /// The number of the variable that a spelling names here: it has one, or gets the next.
    pub fn number(&mut self, spelling: u32) -> Result<u32, AllocError>
        requires { spelling < length self.old.current.items }
        ensures number { IfOk result (λ m. m ≡ number (state self.old) spelling) }
        ensures state { OnOk result (state self.new ≡ after_one (state self.old) spelling) }
    {
        if let Some(number) = self.current[spelling as usize] {
            return Ok(number);
        }
        // No clause has so many variables.
        if self.found.len() > 4294967295 {
            return Err(AllocError);
        }
        let number = self.found.len() as u32;
        self.found.push(spelling)?;
        self.current[spelling as usize] = Some(number);
        Ok(number)
    }

    /// What spellings name here, each beside its spelling.
    pub fn named(
        &self,
        alloc: Global,
        spellings: &[u32],
    ) -> Result<Vec<(u32, Option<u32>)>, AllocError>
        requires { AreBelow (length self.now.current.items) spellings.now }
        ensures { IfOk result (λ v. v.items ≡ named (state self.now) spellings.now) }
    {
        let mut found = Vec::new(alloc);
        for spelling in spellings {
            found.push((*spelling, self.current[*spelling as usize]))?;
        }
        Ok(found)
    }

    /// From here on the spellings name variables without a number.
    pub fn enter(&mut self, spellings: &[u32])
        requires { AreBelow (length self.old.current.items) spellings.now }
        ensures { state self.new ≡ entered (state self.old) spellings.now }
    {
        for spelling in spellings {
            self.current[*spelling as usize] = None;
        }
    }

    /// From here on the spellings name again what they named.
    pub fn leave(&mut self, named: &[(u32, Option<u32>)])
        requires { AreBelow (length self.old.current.items) (map (λ x. x.0) named.now) }
        ensures { state self.new ≡ left (state self.old) named.now }
    {
        for name in named {
            self.current[name.0 as usize] = name.1;
        }
    }
}
