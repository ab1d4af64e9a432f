//! The scopes of variables: every variable that is spelled in the term of a collecting goal is local to the term and
//! the goals of it.
//!
//! The reader numbers spellings. Here each variable gets a number of its own, by first occurrence in the text.
#![tactic(auto)]

mod clauses;
mod goals;
mod laws;
mod numbering;
mod terms;
mod variables;

pub use clauses::{scoped_clauses, scoped_query};
pub use laws::one_form;
pub use variables::{add_all, add_term, add_terms};
