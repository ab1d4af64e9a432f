//! Unification of rational trees: equations solved over bindings that are known, with no occurs check.
#![tactic(auto)]

mod added;
mod chain;
mod compared;
mod form;
mod index;
mod known;
mod meet;
mod older;
mod one_pass;
mod pending;
mod solver;

pub use added::AddedBindings;
pub use chain::{chain_end, end_variable, variable_end};
pub use form::Form;
pub use known::{Lookup, Nothing, found};
pub use older::leads_older;
pub use solver::{Solution, Solved, solve, solve_only};
