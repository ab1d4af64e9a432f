//! Tests of the crates below plans, and of those that many workers share: what no clause says of them. They try the maps,
//! the lock, the pool, the sources and sinks; the solver, the stores, and what chains of stores answer; and what reads texts:
//! of programs, of queries, with the scopes of their variables and their choices in brackets, and of a command line's words;
//! and the program and query that are made from a number. What is refused once it is read, what is shown of stores, and the
//! goals of arithmetic and of sends are tested by whole commands.
#![tactic(auto)]

#[cfg(test)]
mod case_lines;
#[cfg(test)]
mod chain_answers;
#[cfg(test)]
mod chains;
#[cfg(test)]
mod command_words;
#[cfg(test)]
mod frames;
#[cfg(test)]
mod generated;
#[cfg(test)]
mod lifted;
#[cfg(test)]
mod lock;
#[cfg(test)]
mod names;
#[cfg(test)]
mod outside;
#[cfg(test)]
mod pool;
#[cfg(test)]
mod scopes;
#[cfg(test)]
mod shown_clauses;
#[cfg(test)]
mod stores;
#[cfg(test)]
mod syntax;
#[cfg(test)]
mod term_words;
#[cfg(test)]
mod terms;
#[cfg(test)]
mod tokens;
#[cfg(test)]
mod unify;
