//! An index of definitions by what they are called by.

ghost use Rattle.std.specs.Prelude.{◌≡◌, ◌<◌, ◌≤◌, ◌+◌, IfOk, OnErr, IfSome, IfNone, Some, length, map, slice_get, []};
ghost use Rattle.akl_syntax.specs.Answers.{clause_view};
ghost use Rattle.akl_syntax.specs.Sizes.{clause_size};
ghost use Rattle.clause_keys.specs.Keys.{named, lifted_by, IsAbsent, AreUnique, Adds, defined_by, called_by, arity_of};
ghost use Rattle.clause_keys.specs.declared.callee.Callee.TheVariants.{Lifted, Collecting};

use crate::callee::Callee;
use akl_syntax::{Head, SourceClause};
use akl_terms::{Clause, Definition, Key, Op, Templates, Text};
use std::alloc::{AllocError, Global};
use std::collections::BTreeMap;
use std::marker::Model;

/// What is called, each once, in order of first occurrence: the place in this order is its number.
#[derive(Drop)]
pub struct Callees {
    list: Vec<Callee>,
    symbols: Templates,
    /// The numbers by symbol and number of arguments.
    named: BTreeMap<(u32, u32), u32>,
    /// The numbers by the number of the definition and its number of arguments.
    lifted: BTreeMap<(u32, u32), u32>,
    /// The same of definitions that collect.
    collecting: BTreeMap<(u32, u32), u32>,
}

impl Model for Callees {
    ghost use Rattle.std.specs.Prelude.{List};
    ghost use Rattle.clause_keys.specs.declared.callee.Callee.{Callee};
    ghost use Rattle.clause_keys.specs.Indexed.{IsIndexed};

    ghost Value = { List Callee };

    ghost view = { λ c. c.list.items };

    ghost invariant = { IsIndexed };
}

/// How many arguments the clauses of one definition have.
fn arity_of(clauses: &[Clause]) -> u32
    ensures { result ≡ arity_of clauses.now }
{
    match clauses.first() {
        Some(first) => first.count,
        None => 0,
    }
}

impl Callees {
    /// Nothing yet.
    pub fn new(alloc: Global) -> Self
        ensures { result ≡ [] }
    {
        Callees {
            list: Vec::new(alloc),
            symbols: Templates::new(alloc),
            named: BTreeMap::new(alloc),
            lifted: BTreeMap::new(alloc),
            collecting: BTreeMap::new(alloc),
        }
    }

    /// What calls the definitions, which is different for each: the number of one is its place.
    pub fn of_definitions(alloc: Global, definitions: &[Definition]) -> Result<Self, AllocError>
        requires few { length definitions.now < 4294967295 }
        requires unique { AreUnique (map called_by definitions.now) }
        ensures { IfOk result (λ callees. callees ≡ map called_by definitions.now) }
    {
        let mut callees = Callees::new(alloc);
        for definition in definitions {
            callees.add_definition(definition)?;
        }
        Ok(callees)
    }

    /// The number of the symbol with so many arguments, where it has one.
    pub fn named(&self, symbol: &str, arity: u32) -> Option<u32>
        ensures found { IfSome result (λ d. slice_get self.now d ≡ Some (named symbol.now arity)) }
        ensures absent { IfNone result (IsAbsent self.now (named symbol.now arity)) }
    {
        let symbol = self.symbols.number_of(symbol)?;
        self.named.get(&(symbol, arity)).copied()
    }

    /// The number of the definition that was made of an inline choice, with so many arguments, where it has one.
    pub fn lifted(&self, number: u32, arity: u32) -> Option<u32>
        ensures found { IfSome result (λ d. slice_get self.now d ≡ Some (Lifted number arity)) }
        ensures absent { IfNone result (IsAbsent self.now (Lifted number arity)) }
    {
        self.lifted.get(&(number, arity)).copied()
    }

    /// The number of the definition that was made of a collecting goal, with so many arguments, where it has one.
    pub fn collecting(&self, number: u32, arity: u32) -> Option<u32>
        ensures found { IfSome result (λ d. slice_get self.now d ≡ Some (Collecting number arity)) }
        ensures absent { IfNone result (IsAbsent self.now (Collecting number arity)) }
    {
        self.collecting.get(&(number, arity)).copied()
    }

    /// The number of the symbol with so many arguments: the one that it has, else the next.
    pub fn add_named(&mut self, symbol: &str, arity: u32) -> Result<u32, AllocError>
        requires { length self.old < 4294967295 }
        ensures ok { IfOk result (λ d. Adds self.old (named symbol.now arity) self.new d) }
        ensures grown { length self.new ≤ length self.old + 1 }
        ensures err { OnErr result (self.new ≡ self.old) }
    {
        match self.named(symbol, arity) {
            Some(number) => Ok(number),
            None => self.append_named(symbol, arity),
        }
    }

    /// The number of the definition that was made of an inline choice, with so many arguments: the one that it has,
    /// else the next.
    pub fn add_lifted(&mut self, number: u32, arity: u32) -> Result<u32, AllocError>
        requires { length self.old < 4294967295 }
        ensures ok { IfOk result (λ d. Adds self.old (Lifted number arity) self.new d) }
        ensures grown { length self.new ≤ length self.old + 1 }
        ensures err { OnErr result (self.new ≡ self.old) }
    {
        match self.lifted(number, arity) {
            Some(found) => Ok(found),
            None => self.append_lifted(number, arity),
        }
    }

    /// The number of the definition that was made of a collecting goal, with so many arguments: the one that it has,
    /// else the next.
    pub fn add_collecting(&mut self, number: u32, arity: u32) -> Result<u32, AllocError>
        requires { length self.old < 4294967295 }
        ensures ok { IfOk result (λ d. Adds self.old (Collecting number arity) self.new d) }
        ensures grown { length self.new ≤ length self.old + 1 }
        ensures err { OnErr result (self.new ≡ self.old) }
    {
        match self.collecting(number, arity) {
            Some(found) => Ok(found),
            None => self.append_collecting(number, arity),
        }
    }

    // The number of the lifted definition that has this operator and so many arguments.
    fn add_lifted_by(&mut self, op: Op, number: u32, arity: u32) -> Result<u32, AllocError>
        requires { length self.old < 4294967295 }
        ensures ok { IfOk result (λ d. Adds self.old (lifted_by op number arity) self.new d) }
        ensures grown { length self.new ≤ length self.old + 1 }
        ensures err { OnErr result (self.new ≡ self.old) }
    {
        match op {
            Op::Collect => self.add_collecting(number, arity),
            Op::Condition | Op::Commit | Op::Choice => self.add_lifted(number, arity),
        }
    }

    /// The number of what a clause defines: the one that it has, else the next.
    pub fn add_clause(&mut self, clause: &SourceClause) -> Result<u32, AllocError>
        requires room { length self.old < 4294967295 }
        requires small { clause_size (clause_view clause.now) ≤ 4294967295 }
        ensures ok { IfOk result (λ d. Adds self.old (defined_by (clause_view clause.now)) self.new d) }
        ensures grown { length self.new ≤ length self.old + 1 }
        ensures err { OnErr result (self.new ≡ self.old) }
    {
        let arity = clause.arguments.len() as u32;
        match &clause.head {
            Head::Named(symbol) => self.add_named(symbol.as_str(), arity),
            Head::Lifted { number, .. } => self.add_lifted_by(clause.part.op, *number, arity),
        }
    }

    /// The number of what calls a definition: the one that it has, else the next.
    pub fn add_definition(&mut self, definition: &Definition) -> Result<u32, AllocError>
        requires { length self.old < 4294967295 }
        ensures ok { IfOk result (λ d. Adds self.old (called_by definition.now) self.new d) }
        ensures grown { length self.new ≤ length self.old + 1 }
        ensures err { OnErr result (self.new ≡ self.old) }
    {
        match definition.lifted {
            Some(number) => {
                let arity = arity_of(definition.clauses.as_slice());
                self.add_lifted_by(definition.op, number, arity)
            }
            None => self.add_named(definition.key.symbol.as_str(), definition.key.arity),
        }
    }

    // A symbol with so many arguments that has no number gets the next.
    fn append_named(&mut self, symbol: &str, arity: u32) -> Result<u32, AllocError>
        requires room { length self.old < 4294967295 }
        requires absent { IsAbsent self.old (named symbol.now arity) }
        ensures ok { IfOk result (λ d. Adds self.old (named symbol.now arity) self.new d) }
        ensures grown { length self.new ≤ length self.old + 1 }
        ensures err { OnErr result (self.new ≡ self.old) }
    {
        // Refused growths may have left symbols that the list doesn't have.
        if self.symbols.symbols() == u32::MAX {
            return Err(AllocError);
        }
        let number = self.list.len() as u32;
        let text = Text::from_str(*self.list.allocator(), symbol)?;
        let symbol = self.symbols.intern(symbol)?;
        self.list.push(Callee::Named(Key {
            symbol: text,
            arity,
        }))?;
        match self.named.insert((symbol, arity), number) {
            Ok(_) => Ok(number),
            Err(_) => {
                let _ = self.list.pop();
                Err(AllocError)
            }
        }
    }

    // A definition of an inline choice that has no number gets the next.
    fn append_lifted(&mut self, number: u32, arity: u32) -> Result<u32, AllocError>
        requires room { length self.old < 4294967295 }
        requires absent { IsAbsent self.old (Lifted number arity) }
        ensures ok { IfOk result (λ d. Adds self.old (Lifted number arity) self.new d) }
        ensures grown { length self.new ≤ length self.old + 1 }
        ensures err { OnErr result (self.new ≡ self.old) }
    {
        let found = self.list.len() as u32;
        self.list.push(Callee::Lifted { number, arity })?;
        match self.lifted.insert((number, arity), found) {
            Ok(_) => Ok(found),
            Err(_) => {
                let _ = self.list.pop();
                Err(AllocError)
            }
        }
    }

    // A definition of a collecting goal that has no number gets the next.
    fn append_collecting(&mut self, number: u32, arity: u32) -> Result<u32, AllocError>
        requires room { length self.old < 4294967295 }
        requires absent { IsAbsent self.old (Collecting number arity) }
        ensures ok { IfOk result (λ d. Adds self.old (Collecting number arity) self.new d) }
        ensures grown { length self.new ≤ length self.old + 1 }
        ensures err { OnErr result (self.new ≡ self.old) }
    {
        let found = self.list.len() as u32;
        self.list.push(Callee::Collecting { number, arity })?;
        match self.collecting.insert((number, arity), found) {
            Ok(_) => Ok(found),
            Err(_) => {
                let _ = self.list.pop();
                Err(AllocError)
            }
        }
    }
}
