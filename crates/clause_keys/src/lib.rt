//! What names a definition, what is reserved, and an index of definitions.
#![tactic(auto)]

mod callee;
mod callees;
mod reserved;

pub use callee::Callee;
pub use callees::Callees;
pub use reserved::{Reserved, is_reserved, meaning_of};
