//! Arithmetic goals: what they come to under the equations of a chain.
#![tactic(auto)]

mod expression;
mod goals;
mod operation;
mod walk;

pub use goals::{ArithValue, evaluate, evaluate_over};
