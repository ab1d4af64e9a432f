//! Clauses and queries from bytes.
#![tactic(auto)]

mod ahead;
mod clause;
mod goals;
mod laws;
mod program;
mod relation;
mod source;

pub use akl_lexemes::SyntaxError;
pub use laws::one_meaning;
pub use program::{check_query, read_program, read_query};
pub use source::{Head, SourceClause, SourceGoal, SourcePart, SourceQuery};
pub use term_syntax::{SourceStep, SourceTerm};
