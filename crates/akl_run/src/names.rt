//! The names that variables have in the texts of a program and a query.

ghost use Rattle.std.specs.Prelude.{◌≤◌, length};

use crate::loaded::FIRST_ASKED;
use akl_lift::{lift, lift_query};
use akl_syntax::{Head, SourceClause, read_program, read_query};
use akl_terms::{Definition, Text};
use std::alloc::{AllocError, Global};
use variable_scopes::{scoped_clauses, scoped_query};

/// The names that variables have in the texts of a program and a query.
#[derive(Drop)]
pub struct Names {
    /// The clauses of the program, with those that are made of its choices and of the query's.
    clauses: Vec<SourceClause>,
    query: Vec<Text>,
}

impl Names {
    /// The names in these texts; none in one that is refused. An `Err` is want of memory.
    pub fn of(alloc: Global, text: &[u8], query: &[u8]) -> Result<Names, AllocError>
        requires { length query.now ≤ 10000 }
    {
        let mut clauses = program_clauses(alloc, text)?;
        let query = query_names(alloc, query, &mut clauses)?;
        Ok(Names { clauses, query })
    }

    /// The names of the query's variables, in order.
    pub fn in_query(&self) -> &[Text] {
        &self.query
    }

    /// The names of the variables of a clause of a definition, by the clause's place in it, from 0; none where there is no such
    /// clause.
    pub fn in_clause(&self, definition: &Definition, place: usize) -> &[Text] {
        let mut left = place;
        for clause in &self.clauses {
            if is_of(clause, definition) {
                if left == 0 {
                    return &clause.names;
                }
                left = left.saturating_sub(1);
            }
        }
        &[]
    }
}

// Whether a clause is one of a definition.
fn is_of(clause: &SourceClause, definition: &Definition) -> bool {
    match &clause.head {
        Head::Named(symbol) => {
            definition.lifted.is_none()
                && definition.key.arity as usize == clause.arguments.len()
                && definition.key.symbol.as_str() == symbol.as_str()
        }
        Head::Lifted { number, .. } => definition.lifted == Some(*number),
    }
}

// The clauses of a program, with those that are made of its choices.
fn program_clauses(alloc: Global, text: &[u8]) -> Result<Vec<SourceClause>, AllocError> {
    let Ok(written) = read_program(alloc, text) else {
        return Ok(Vec::new(alloc));
    };
    let clauses = scoped_clauses(alloc, written)?;
    lift(alloc, clauses)
}

// The names of a query's variables. Adds the clauses that are made of its choices.
fn query_names(
    alloc: Global,
    text: &[u8],
    clauses: &mut Vec<SourceClause>,
) -> Result<Vec<Text>, AllocError>
    requires { length text.now ≤ 10000 }
{
    let Ok(written) = read_query(alloc, text) else {
        return Ok(Vec::new(alloc));
    };
    let asked = scoped_query(alloc, written)?;
    let (query, mut made) = lift_query(alloc, asked, FIRST_ASKED)?;
    clauses.append(&mut made)?;
    Ok(query.names)
}
