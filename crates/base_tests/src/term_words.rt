//! Terms, and what stores have, written as words.

use akl_terms::{Name, Node, Templates, Term, Var};
use std::alloc::{AllocError, Global};

/// What the nodes are called under the frames 0 to 3.
const NODES: &str = "
A B C D fA fB fC fD ffA ffB ffC ffD a b
K L M N fK fL fM fN ffK ffL ffM ffN a b
P Q R S fP fQ fR fS ffP ffQ ffR ffS a b
W X Y Z fW fX fY fZ ffW ffX ffY ffZ a b
";

pub fn frame(number: u64) -> Name {
    Name { worker: 0, number }
}

/// The frame that a number says; the first where it is too large or below 0.
pub fn frame_of(number: i128) -> Name {
    frame(u64::try_from(number).unwrap_or(0))
}

/// The nodes: four variables, `f` over each, `f` over each of these, and two atoms.
pub fn four_variables(alloc: Global) -> Result<Templates, AllocError> {
    let mut templates = Templates::new(alloc);
    let symbol = templates.intern("f")?;
    let a = templates.intern("a")?;
    let b = templates.intern("b")?;
    templates.push(&[Node::Var(0), Node::Var(1), Node::Var(2), Node::Var(3)])?;
    for first in 0..8u32 {
        let count = 1;
        templates.push(&[Node::Struct {
            symbol,
            first,
            count,
        }])?;
    }
    let atom = |symbol| Node::Struct {
        symbol,
        first: 0,
        count: 0,
    };
    templates.push(&[atom(a), atom(b)])?;
    Ok(templates)
}

/// The term of a word: a node, the port `p` or `q`, or an integer.
pub fn term(word: &str) -> Option<Term> {
    if let Some(at) = NODES.split_whitespace().position(|name| name == word) {
        return Some(Term::Mol {
            node: (at % 14) as u32,
            frame: frame((at / 14) as u64),
        });
    }
    match word {
        "p" => Some(Term::Port(frame(0))),
        "q" => Some(Term::Port(frame(1))),
        _ => match word.parse::<i128>() {
            Ok(number) => Some(Term::Int(number)),
            Err(_) => None,
        },
    }
}

pub fn term_of(variable: Var) -> Term {
    Term::Mol {
        node: variable.index,
        frame: variable.frame,
    }
}

/// The two terms of a word such as `A=1`, or a number twice, which stands for a frame.
pub fn pair(word: &str) -> Option<(Term, Term)> {
    let (left, right) = word.split_once('=').unwrap_or((word, word));
    both(term(left), term(right))
}

fn both(left: Option<Term>, right: Option<Term>) -> Option<(Term, Term)> {
    Some((left?, right?))
}

/// Whether each of the words has its terms, where `/` stands between stores.
pub fn is_said(text: &str) -> bool {
    for word in text.split_whitespace() {
        if word != "/" && pair(word).is_none() {
            return false;
        }
    }
    true
}

/// The part of a case before the first ` | `, and the rest.
pub fn cut(case: &str) -> (&str, &str) {
    case.split_once(" | ").unwrap_or((case, "no part"))
}
