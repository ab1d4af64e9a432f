//! Goals, clauses and queries as they are written.

use akl_terms::{Key, Op, Text};
use term_syntax::SourceTerm;

/// A goal as it is written.
#[derive(Drop)]
#[cycle(goals)]
pub enum SourceGoal {
    /// A call of a symbol. A term, a relation and a term is a call of the relation's symbol.
    Call {
        symbol: Text,
        arguments: Vec<SourceTerm>,
    },
    /// An inline choice. A part without an operator counts as one with `?` and an empty guard.
    Choice(Vec<SourcePart>),
    /// A collecting goal: the terms that `collected` stands for in the solutions of `goals` make the list `result`.
    Collect {
        collected: SourceTerm,
        goals: Vec<SourceGoal>,
        result: SourceTerm,
    },
    /// A call of the definition that was made of an inline choice. None is read from a text.
    Lifted {
        number: u32,
        arguments: Vec<u32>,
    },
    /// A call of the definition that was made of a collecting goal. None is read from a text.
    LiftedCollect {
        number: u32,
        arguments: Vec<u32>,
        result: SourceTerm,
    },
}

/// A guard, an operator and a body.
#[derive(Drop)]
#[cycle(goals)]
pub struct SourcePart {
    pub guard: Vec<SourceGoal>,
    pub op: Op,
    pub body: Vec<SourceGoal>,
}

/// What a clause defines.
#[derive(Drop)]
pub enum Head {
    /// The symbol that is written.
    Named(Text),
    /// A definition that was made of an inline choice or a collecting goal in a clause of the definition `inside`.
    Lifted { number: u32, inside: Key },
}

/// A clause as it is written.
#[derive(Drop)]
pub struct SourceClause {
    pub head: Head,
    pub arguments: Vec<SourceTerm>,
    /// A clause without a neck has `?`, an empty guard and an empty body.
    pub part: SourcePart,
    /// The term that the definition of a collecting goal collects. A clause that is read from a text has none.
    pub collected: Option<SourceTerm>,
    /// The spelling of each variable, by its number.
    pub names: Vec<Text>,
    /// The place of the clause's first byte in the text.
    pub start: usize,
}

/// A query as it is written.
#[derive(Drop)]
pub struct SourceQuery {
    pub goals: Vec<SourceGoal>,
    /// The spelling of each variable, by its number.
    pub names: Vec<Text>,
}
