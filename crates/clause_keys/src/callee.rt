//! What a clause defines and a goal calls.

use akl_terms::Key;

/// What a clause defines and a goal calls.
#[derive(Drop)]
pub enum Callee {
    /// A symbol with a number of arguments.
    Named(Key),
    /// The definition of this number that was made of an inline choice, with a number of arguments.
    Lifted { number: u32, arity: u32 },
    /// The definition of this number that was made of a collecting goal, with a number of arguments.
    Collecting { number: u32, arity: u32 },
}
