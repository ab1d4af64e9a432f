//! What an expression begins with.

ghost use Rattle.std.specs.Prelude.{◌≡◌, ◌<◌, length};
ghost use Rattle.rational_unify.specs.Known.{IsSolved, end_of};
ghost use Rattle.akl_terms.specs.Template.{tree, seen_of};
ghost use Rattle.akl_terms.specs.declared.name.Name.{Name};
ghost use Rattle.arith_goals.specs.Expressions.{IsExpression};

use crate::operation::{Operation, operation_of};
use akl_terms::{Name, Seen, Templates, Term, Var};
use rational_unify::{Lookup, chain_end};

/// A template node under a frame.
#[derive(Clone, Copy, PartialEq, Eq, Hash)]
pub struct Place {
    pub node: u32,
    pub frame: Name,
}

/// An operation over two operands, and where it stands.
#[derive(Clone, Copy)]
pub struct Application {
    pub place: Place,
    pub operation: Operation,
    pub left: Term,
    pub right: Term,
}

/// What the end of an expression's chain is.
#[derive(Clone, Copy)]
pub enum Expression {
    Number(i128),
    Free(Var),
    Apply(Application),
    /// No expression of arithmetic.
    Other,
}

/// What an expression begins with, read through bindings.
pub fn read_expression<K: Lookup>(templates: &Templates, known: &K, term: Term) -> Expression
    requires { IsSolved templates.now.nodes (K.bindings known.now) }
    ensures { IsExpression templates.now (end_of templates.now.nodes (K.bindings known.now) (tree templates.now.nodes term)) result }
{
    let last = chain_end(templates, known, term);
    match templates.look(last) {
        Seen::Int(n) => Expression::Number(n),
        Seen::Free(variable) => Expression::Free(variable),
        Seen::Port(_) => Expression::Other,
        Seen::Struct {
            symbol,
            first,
            count,
            frame: _,
        } => {
            if count != 2 {
                return Expression::Other;
            }
            applied(templates, last, symbol, first)
        }
    }
}

/// A symbol over the two neighbouring nodes from `first` on, which a term begins with.
fn applied(templates: &Templates, term: Term, symbol: u32, first: u32) -> Expression
    requires seen { (f : Name) × (seen_of templates.now.nodes term ≡ Seen.Struct symbol first 2 f) }
    requires known { symbol < length templates.now.symbols }
    ensures { IsExpression templates.now (tree templates.now.nodes term) result }
{
    let Term::Mol { node, frame } = term else {
        return Expression::Other;
    };
    let Some(operation) = operation_of(templates, symbol) else {
        return Expression::Other;
    };
    // The nodes are fewer than 2 ^ 32.
    let _ = templates.len();
    Expression::Apply(Application {
        place: Place { node, frame },
        operation,
        left: Term::Mol { node: first, frame },
        right: Term::Mol {
            node: first + 1,
            frame,
        },
    })
}
