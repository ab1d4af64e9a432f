//! The generated program and query.

ghost use Rattle.std.specs.Prelude.{◌≡◌, ◌≤◌, ◌++◌, IfOk, OnOk, length};
ghost use Rattle.std.specs.List.{flat_map};
ghost use Rattle.akl_gen.specs.Generated.{lists, behind_comma, separated, query_over, query_text};

use crate::elements::elements_of;
use line_text::{push_number, push_text};
use std::alloc::{AllocError, Global};

/// Clauses on lists: two lists joined, a list reversed, and the members of a list.
const LISTS: &str = "append([],Y,Z) :- -> Z = Y.
append([X|Xs],Y,Z) :- -> Z = [X|Zs], append(Xs,Y,Zs).
nrev([],R) :- -> R = [].
nrev([X|Xs],R) :- -> nrev(Xs,S), append(S,[X],R).
member(X,[X|_]).
member(X,[_|T]) :- member(X,T).
";

/// The program and the query that are made from a number.
///
/// The program is the clauses on lists. The query reverses a list of 3 to 100 numbers, each below 1000,
/// and asks for a member of its first three.
pub fn generate(alloc: Global, number: u64) -> Result<(Vec<u8>, Vec<u8>), AllocError>
    ensures program { IfOk result (λ texts. texts.0.items ≡ lists) }
    ensures query { IfOk result (λ texts. texts.1.items ≡ query_text number) }
{
    let program = Vec::from_slice(alloc, LISTS.as_bytes())?;
    let elements = elements_of(alloc, number)?;
    let query = query_of(alloc, &elements)?;
    Ok((program, query))
}

// The query over a list of these elements.
fn query_of(alloc: Global, elements: &[u64]) -> Result<Vec<u8>, AllocError>
    requires { 3 ≤ length elements.now }
    ensures { IfOk result (λ text. text.items ≡ query_over elements.now) }
{
    let mut text = Vec::new(alloc);
    push_text(&mut text, "nrev([")?;
    push_separated(&mut text, elements)?;
    push_text(&mut text, "],R), member(X,[")?;
    push_separated(&mut text, &elements[..3])?;
    push_text(&mut text, "])")?;
    Ok(text)
}

// Appends the elements, with commas between them.
fn push_separated(text: &mut Vec<u8>, elements: &[u64]) -> Result<(), AllocError>
    ensures { OnOk result (text.new.items ≡ text.old.items ++ separated elements.now) }
{
    let Some((first, others)) = elements.split_first() else {
        return Ok(());
    };
    push_number(text, *first)?;
    push_behind_commas(text, others)
}

// Appends each of the elements behind a comma.
fn push_behind_commas(text: &mut Vec<u8>, elements: &[u64]) -> Result<(), AllocError>
    ensures { OnOk result (text.new.items ≡ text.old.items ++ flat_map behind_comma elements.now) }
{
    for element in elements {
        push_text(text, ",")?;
        push_number(text, *element)?;
    }
    Ok(())
}
