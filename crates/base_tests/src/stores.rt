//! Stores: what they have, and what a change makes of them.

use crate::term_words::{cut, frame_of, is_said, pair, term};
use akl_terms::{Term, Var};
use local_store::Store;
use std::alloc::{AllocError, Global};
use std::test::Fail;

/// Adds what a word says: a binding of a variable, a port with its tail, or a frame.
fn add(store: &mut Store, said: (Term, Term)) -> Result<(), AllocError> {
    match said.0 {
        Term::Mol { node, frame } => store.add_binding(Var { frame, index: node }, said.1),
        Term::Port(port) => store.set_port(port, said.1),
        Term::Int(number) => store.add_frame(frame_of(number)),
    }
}

/// The store that also has what a word says.
fn with(store: &Store, said: (Term, Term)) -> Result<Store, AllocError> {
    match said.0 {
        Term::Mol { node, frame } => store.with_binding(Var { frame, index: node }, said.1),
        Term::Port(port) => store.with_port(port, said.1),
        Term::Int(number) => store.with_frame(frame_of(number)),
    }
}

/// The store of the words.
pub fn store_of(alloc: Global, text: &str) -> Result<Store, AllocError> {
    let mut store = Store::new(alloc);
    for word in text.split_whitespace() {
        if let Some(said) = pair(word) {
            add(&mut store, said)?;
        }
    }
    Ok(store)
}

/// What a store has of a word: the first binding of a variable, the tail of a port, or a frame as its number.
fn found(store: &Store, word: &str) -> Option<Term> {
    match term(word)? {
        Term::Mol { node, frame } => store.first_binding(Var { frame, index: node }),
        Term::Port(port) => store.port_tail(port),
        Term::Int(number) => {
            if store.has_frame(frame_of(number)) {
                Some(Term::Int(number))
            } else {
                None
            }
        }
    }
}

/// Whether a store has this of a word, and the store that also has what a change says has that.
fn changes(
    store: &Store,
    change: (Term, Term),
    word: &str,
    before: &str,
    then: &str,
) -> Result<bool, AllocError> {
    let changed = with(store, change)?;
    Ok(found(&changed, word) == term(then) && found(store, word) == term(before))
}

/// Whether a case of changes holds.
fn holds(alloc: Global, case: &str, change: (Term, Term), rest: &str) -> Result<bool, AllocError> {
    let (text, _) = cut(case);
    let (word, rest) = cut(rest);
    let (before, then) = cut(rest);
    let store = store_of(alloc, text)?;
    Ok(is_said(text) && changes(&store, change, word, before, then)?)
}

/// A store, a change, a word, what the store has of it, and what the store has that the change makes.
const CHANGES: &str = "
 | 1 | 1 | none | 1
2 | 1 | 1 | none | 1
2 | 1 | 2 | 2 | 2
A=1 | B=K | A | 1 | 1
A=1 | B=K | B | none | K
A=1 | A=2 | A | 1 | 1
A=1 | B=K | K | none | none
q=A | p=1 | p | none | 1
q=A p=B | p=1 | p | B | 1
q=A p=B | p=1 | q | A | A
";

#[test]
fn a_change_leaves_the_store_beside_it(rt: HostRuntime) -> Result<(), Fail> {
    for case in CHANGES.lines().skip(1) {
        let (_, rest) = cut(case);
        let (word, rest) = cut(rest);
        let change = pair(word).ok_or("change")?;
        assert!(rt; holds(rt.alloc(), case, change, rest)?, "{case}");
    }
    Ok(())
}
