//! What a table has under the names of boxes and goals.

use akl_terms::{Goal, Name, ShownTerm, Term};
use local_store::{Shared, Store};
use std::collections::BTreeSet;

/// The operator of a choice: `->`, `|`, `?`, or that it collects, with the result.
#[derive(Clone, Copy)]
pub enum HeldOp {
    Condition,
    Commit,
    Choice,
    Collect(Term),
}

/// The content of a goal.
#[derive(Drop)]
pub enum Held {
    Atom(Goal),
    /// A choice.
    Choice {
        op: HeldOp,
        /// In order.
        alternatives: Vec<Name>,
        /// The number of the label that made the goal, or the goal of which it is a copy; 0 of the query's.
        since: u64,
    },
}

/// What a table has under the name of a box.
#[derive(Drop)]
pub struct BoxEntry {
    /// The choice that holds the box; `None` for a root box.
    pub holder: Option<Name>,
    pub store: Shared<Store>,
    /// The number of the last label that changed its constraint, 0 where there is none.
    pub changed: u64,
    /// How many labels there were when its store was solved over the stores around it. While none of these is changed
    /// by a later label, it is solved.
    pub solved_at: Option<u64>,
    pub goals: BTreeSet<Name>,
    /// The number of the last label that changed its set of goals.
    pub goals_changed: u64,
    /// A goal by which the box fails, where it has one: `fail`, or a choice without alternatives. None of these ever
    /// goes before its box.
    pub failing: Option<Name>,
    /// The goals that come where it is promoted.
    pub body: Vec<Goal>,
    /// What an answer shows of a root box.
    pub shown: Vec<ShownTerm>,
    /// What is collected of an alternative of a choice that collects.
    pub collected: Option<Term>,
}

/// What a table has under the name of a goal.
#[derive(Drop)]
pub struct GoalEntry {
    /// The box in which the goal stands.
    pub home: Name,
    pub held: Held,
    /// The number of the last label that changed it.
    pub changed: u64,
}
