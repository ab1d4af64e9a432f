//! Programs and queries.

use crate::items::Items;
use crate::name::Name;
use crate::templates::Templates;
use crate::term::Term;
use crate::text::Text;

/// The operator of a guard: conditional `->`, commit `|`, nondeterminate `?`; and that of a definition which collects.
#[derive(Clone, Copy, PartialEq, Eq)]
pub enum Op {
    Condition,
    Commit,
    Choice,
    Collect,
}

/// What an arithmetic goal asks: `is`, `<`, `>`, `=<`, `>=`, `=:=`, `=\=`.
#[derive(Clone, Copy, Debug, PartialEq, Eq)]
pub enum Test {
    Is,
    Less,
    Greater,
    AtMost,
    AtLeast,
    Same,
    Differs,
}

/// An atom of a clause or a query. Numbers of nodes are those of the program's templates.
#[derive(Clone, Copy)]
pub enum Code {
    Equal {
        left: u32,
        right: u32,
    },
    Arith {
        test: Test,
        left: u32,
        right: u32,
    },
    OpenPort {
        port: u32,
        stream: u32,
    },
    Send {
        message: u32,
        port: u32,
    },
    /// A call of a definition, with the `count` neighbouring nodes from `first` on as its arguments.
    Call {
        definition: u32,
        first: u32,
        count: u32,
    },
    /// A collecting goal: a call of a definition that collects, and the node of its result.
    Collect {
        definition: u32,
        first: u32,
        count: u32,
        result: u32,
    },
    Fail,
}

/// An atom under a frame of variables.
#[derive(Clone, Copy)]
pub struct Goal {
    pub code: Code,
    pub frame: Name,
}

/// A clause. Its head arguments are the `count` neighbouring nodes from `first` on.
#[derive(Drop)]
pub struct Clause {
    pub variables: u32,
    pub first: u32,
    pub count: u32,
    pub guard: Items<Code>,
    pub body: Items<Code>,
    /// The node of the term that a collecting definition's only clause collects.
    pub collected: Option<u32>,
}

/// What names a definition: a symbol with a number of arguments.
#[derive(Drop)]
pub struct Key {
    pub symbol: Text,
    pub arity: u32,
}

/// A definition: clauses in order, all with one operator.
///
/// `lifted` is the number of a definition that was made of an inline choice.
#[derive(Drop)]
pub struct Definition {
    pub key: Key,
    pub lifted: Option<u32>,
    pub op: Op,
    pub clauses: Items<Clause>,
}

/// A loaded program.
///
/// `cell` is the first of four neighbouring nodes: the variables 0 and 1, the list cell over these
/// two, and the empty list. The terms that a rule makes with a new frame are these nodes.
#[derive(Drop)]
pub struct Program {
    pub templates: Templates,
    pub definitions: Items<Definition>,
    pub cell: u32,
}

/// A variable of the query that answers show, by its index in the query's frame.
#[derive(Drop)]
pub struct Shown {
    pub name: Text,
    pub index: u32,
}

/// A term that an answer shows under a name.
#[derive(Drop)]
pub struct ShownTerm {
    pub name: Text,
    pub term: Term,
}

/// A loaded query.
#[derive(Drop)]
pub struct Query {
    pub variables: u32,
    pub goals: Items<Code>,
    pub shown: Items<Shown>,
}
