//! Clauses and goals, written out.

use akl_syntax::{
    Head, SourceClause, SourceGoal, SourcePart, SourceQuery, SourceTerm, SyntaxError,
};
use akl_terms::{Op, Text};
use std::alloc::AllocError;

/// Puts a text and a number behind it.
fn put_number(shown: &mut String, before: &str, number: usize) -> Result<(), AllocError> {
    shown.push_str(before)?;
    write!(shown, "{number}")
}

#[cycle(shown_terms)]
fn put_terms(shown: &mut String, terms: &[SourceTerm]) -> Result<(), AllocError> {
    shown.push('(')?;
    for term in terms {
        put_term(shown, term)?;
        shown.push(',')?;
    }
    shown.push(')')
}

#[cycle(shown_terms)]
fn put_term(shown: &mut String, term: &SourceTerm) -> Result<(), AllocError> {
    match term {
        SourceTerm::Var(number) => put_number(shown, "V", *number as usize),
        SourceTerm::Int(value) => write!(shown, "{value}"),
        SourceTerm::Struct { symbol, arguments } => {
            shown.push_str(symbol.as_str())?;
            if arguments.is_empty() {
                return Ok(());
            }
            put_terms(shown, arguments)
        }
        SourceTerm::List { items, tail } => {
            shown.push_str("list")?;
            put_terms(shown, items)?;
            let Some(tail) = tail else {
                return Ok(());
            };
            shown.push('|')?;
            put_term(shown, tail)
        }
        SourceTerm::Chain { first, rest } => {
            shown.push('<')?;
            put_term(shown, first)?;
            for step in rest {
                shown.push(' ')?;
                shown.push_str(step.symbol.as_str())?;
                shown.push(' ')?;
                put_term(shown, &step.right)?;
            }
            shown.push('>')
        }
    }
}

/// Puts the call of a lifted definition.
fn put_lifted(shown: &mut String, number: u32, variables: &[u32]) -> Result<(), AllocError> {
    put_number(shown, "#", number as usize)?;
    shown.push('(')?;
    for variable in variables {
        put_number(shown, "V", *variable as usize)?;
        shown.push(',')?;
    }
    shown.push(')')
}

#[cycle(shown_goals)]
fn put_goals(shown: &mut String, goals: &[SourceGoal]) -> Result<(), AllocError> {
    for goal in goals {
        put_goal(shown, goal)?;
    }
    Ok(())
}

#[cycle(shown_goals)]
fn put_goal(shown: &mut String, goal: &SourceGoal) -> Result<(), AllocError> {
    match goal {
        SourceGoal::Call { symbol, arguments } => {
            shown.push_str(symbol.as_str())?;
            put_terms(shown, arguments)
        }
        SourceGoal::Choice(parts) => {
            shown.push('{')?;
            for part in parts {
                put_part(shown, part)?;
                shown.push(';')?;
            }
            shown.push('}')
        }
        SourceGoal::Collect {
            collected,
            goals,
            result,
        } => {
            shown.push_str("collect(")?;
            put_term(shown, collected)?;
            shown.push_str(": ")?;
            put_goals(shown, goals)?;
            shown.push_str(": ")?;
            put_term(shown, result)?;
            shown.push(')')
        }
        SourceGoal::Lifted { number, arguments } => put_lifted(shown, *number, arguments),
        SourceGoal::LiftedCollect {
            number,
            arguments,
            result,
        } => {
            put_lifted(shown, *number, arguments)?;
            shown.push(':')?;
            put_term(shown, result)
        }
    }
}

#[cycle(shown_goals)]
fn put_part(shown: &mut String, part: &SourcePart) -> Result<(), AllocError> {
    put_goals(shown, &part.guard)?;
    let op = match part.op {
        Op::Condition => "->",
        Op::Commit => "|",
        Op::Choice => "?",
        Op::Collect => ":",
    };
    shown.push_str(op)?;
    put_goals(shown, &part.body)
}

fn put_names(shown: &mut String, names: &[Text]) -> Result<(), AllocError> {
    shown.push_str(" [")?;
    for name in names {
        shown.push_str(name.as_str())?;
        shown.push(',')?;
    }
    shown.push(']')
}

/// Puts the place and the symbol of a clause, or the number of a lifted definition and what that stood in.
fn put_head(shown: &mut String, clause: &SourceClause) -> Result<(), AllocError> {
    match &clause.head {
        Head::Named(symbol) => {
            put_number(shown, " ", clause.start)?;
            shown.push_str(": ")?;
            shown.push_str(symbol.as_str())
        }
        Head::Lifted { number, inside } => {
            put_number(shown, " #", *number as usize)?;
            shown.push_str(" in ")?;
            shown.push_str(inside.symbol.as_str())?;
            put_number(shown, "/", inside.arity as usize)?;
            shown.push_str(": ")
        }
    }
}

fn put_clause(shown: &mut String, clause: &SourceClause) -> Result<(), AllocError> {
    put_head(shown, clause)?;
    put_terms(shown, &clause.arguments)?;
    shown.push(' ')?;
    put_part(shown, &clause.part)?;
    if let Some(term) = &clause.collected {
        put_term(shown, term)?;
    }
    put_names(shown, &clause.names)?;
    shown.push('.')
}

/// Puts clauses.
pub fn put_clauses(shown: &mut String, clauses: &[SourceClause]) -> Result<(), AllocError> {
    for clause in clauses {
        put_clause(shown, clause)?;
    }
    Ok(())
}

/// Puts the goals and the names of a query.
pub fn put_query(shown: &mut String, query: &SourceQuery) -> Result<(), AllocError> {
    shown.push(' ')?;
    put_goals(shown, &query.goals)?;
    put_names(shown, &query.names)
}

/// Puts why a text is refused.
pub fn put_refusal(shown: &mut String, error: SyntaxError) -> Result<(), AllocError> {
    let (what, at) = match error {
        SyntaxError::Syntax { at } => (" syntax at ", at),
        SyntaxError::TooDeep { at } => (" too many open brackets at ", at),
        SyntaxError::IntRange { at } => (" integer out of range at ", at),
        SyntaxError::TooLong { count } => (" too long, ", count),
        SyntaxError::Memory(error) => return Err(error),
    };
    put_number(shown, what, at)
}
