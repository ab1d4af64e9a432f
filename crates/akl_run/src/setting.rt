//! What a run begins with, for those who make it once more.

ghost use Rattle.std.specs.Prelude.{◌≡◌, ◌≤◌, [], IfOk, length};
ghost use Rattle.akl_run.specs.Loads.{IsLoadedFrom};
ghost use Rattle.akl_run.specs.Replays.{IsBegun, MayBegin};

use crate::loaded::{Loaded, load_texts};
use crate::names::Names;
use crate::replay::Replay;
use crate::report::Status;
use akl_terms::{Code, Definition, Program, Text};
use std::alloc::{AllocError, Global};
use std::marker::Model;
use step_commit::Core;

/// A query over a program, with the names that their variables have.
#[derive(Drop)]
pub struct Setting {
    loaded: Loaded,
    names: Names,
}

impl Model for Setting {
    ghost use Rattle.akl_run.specs.declared.loaded.Loaded.{Loaded};
    ghost use Rattle.akl_run.specs.Replays.{MayBegin};

    ghost Value = { Loaded };

    ghost view = { λ s. s.loaded };

    ghost invariant = { λ s. MayBegin s.loaded };
}

impl Setting {
    /// The query over the program that two texts are, of which the program's has at most a byte more than a program may have.
    /// An `Err` is the status of a text that is refused, or of want of memory.
    pub fn new(alloc: Global, text: &[u8], query: &[u8]) -> Result<Setting, Status>
        requires { length text.now ≤ 1000001 }
        ensures { IfOk result (IsLoadedFrom text.now query.now) }
    {
        match load_texts(alloc, text, query) {
            Ok(loaded) => named(alloc, text, query, loaded),
            Err(stop) => Err(stop.status),
        }
    }

    /// The program, which has the terms of the query too.
    pub fn program(&self) -> &Program
        ensures { result.now ≡ self.now.program }
    {
        &self.loaded.program
    }

    /// The definition that a goal calls; `None` of another goal.
    pub fn called(&self, code: Code) -> Option<&Definition> {
        match code {
            Code::Call { definition, .. } | Code::Collect { definition, .. } => {
                let definitions = self.loaded.program.definitions.as_slice();
                definitions.get(definition as usize)
            }
            _ => None,
        }
    }

    /// The names of the variables of a clause of the definition that a goal calls, by the clause's place in it, from 0; none where
    /// there is no such clause.
    pub fn names_in(&self, code: Code, clause: usize) -> &[Text] {
        match self.called(code) {
            Some(definition) => self.names.in_clause(definition, clause),
            None => &[],
        }
    }

    /// The names of the query's variables, in order.
    pub fn query_names(&self) -> &[Text] {
        self.names.in_query()
    }

    /// A run of the query before its first label. An `Err` is want of memory.
    pub fn replay(&self, alloc: Global, workers: u32, budget: u64) -> Result<Replay<'_>, AllocError>
        ensures { IfOk result (IsBegun self.now workers budget) }
    {
        let Loaded {
            program,
            query,
            first_variable,
        } = &self.loaded;
        let core = Core::new(alloc, program, query, *first_variable, workers, budget)?;
        Ok(Replay::new(program, core))
    }

    /// Gives back what it has of the memory.
    pub fn end(self) {}
}

// A query with the names that its variables and those of its program have in their texts.
fn named(alloc: Global, text: &[u8], query: &[u8], loaded: Loaded) -> Result<Setting, Status>
    requires query { length query.now ≤ 10000 }
    requires loaded { MayBegin loaded }
    ensures { IfOk result (λ s. s ≡ loaded) }
{
    match Names::of(alloc, text, query) {
        Ok(names) => Ok(Setting { loaded, names }),
        Err(_) => Err(Status::NoMemory),
    }
}
