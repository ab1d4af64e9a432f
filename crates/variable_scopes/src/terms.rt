//! Terms whose variables have their numbers.

ghost use Rattle.std.specs.Prelude.{◌≡◌, length, map, IfOk};
ghost use Rattle.term_syntax.specs.Tree.{trees, steps};
ghost use Rattle.term_syntax.specs.View.{tree, step, tail_view};
ghost use Rattle.term_syntax.specs.Variables.{tree_variables, trees_variables, tail_variables, steps_variables};
ghost use Rattle.variable_scopes.specs.Numbering.{state, AreBelow, Numbers};
ghost use Rattle.variable_scopes.specs.Shapes.{numbers_shape, tree_shape, trees_shape, tail_shape, steps_shape};

use crate::numbering::Numbering;
use akl_syntax::{SourceStep, SourceTerm};
use std::alloc::{AllocError, Global};

/// The numbers of the variables of a list.
pub fn numbered_all(
    alloc: Global,
    numbering: &mut Numbering,
    spellings: &[u32],
) -> Result<Vec<u32>, AllocError>
    requires { AreBelow (length numbering.old.current.items) spellings.now }
    ensures shape { IfOk result (λ v. numbers_shape v.items ≡ numbers_shape spellings.now) }
    ensures numbers { IfOk result (λ v. Numbers (state numbering.old) spellings.now v.items (state numbering.new)) }
{
    let mut found = Vec::new(alloc);
    for spelling in spellings {
        let number = numbering.number(*spelling)?;
        found.push(number)?;
    }
    Ok(found)
}

/// The term with the numbers of its variables.
#[cycle(terms)]
pub fn numbered_term(
    alloc: Global,
    numbering: &mut Numbering,
    term: &SourceTerm,
) -> Result<SourceTerm, AllocError>
    requires { AreBelow (length numbering.old.current.items) (tree_variables (tree term.now)) }
    ensures shape { IfOk result (λ t. tree_shape (tree t) ≡ tree_shape (tree term.now)) }
    ensures numbers { IfOk result (λ t. Numbers (state numbering.old) (tree_variables (tree term.now)) (tree_variables (tree t)) (state numbering.new)) }
{
    match term {
        SourceTerm::Var(spelling) => Ok(SourceTerm::Var(numbering.number(*spelling)?)),
        SourceTerm::Int(value) => Ok(SourceTerm::Int(*value)),
        SourceTerm::Struct { symbol, arguments } => Ok(SourceTerm::Struct {
            symbol: symbol.duplicate()?,
            arguments: numbered_terms(alloc, numbering, arguments)?,
        }),
        SourceTerm::List { items, tail } => Ok(SourceTerm::List {
            items: numbered_terms(alloc, numbering, items)?,
            tail: numbered_tail(alloc, numbering, tail)?,
        }),
        SourceTerm::Chain { first, rest } => {
            let first = numbered_term(alloc, numbering, first)?;
            let rest = numbered_steps(alloc, numbering, rest)?;
            let first = Box::new(alloc, first)?;
            Ok(SourceTerm::Chain { first, rest })
        }
    }
}

/// The terms with the numbers of their variables.
#[cycle(terms)]
pub fn numbered_terms(
    alloc: Global,
    numbering: &mut Numbering,
    terms: &[SourceTerm],
) -> Result<Vec<SourceTerm>, AllocError>
    requires { AreBelow (length numbering.old.current.items) (trees_variables (trees (map tree terms.now))) }
    ensures shape { IfOk result (λ v. trees_shape (trees (map tree v.items)) ≡ trees_shape (trees (map tree terms.now))) }
    ensures numbers { IfOk result (λ v. Numbers (state numbering.old) (trees_variables (trees (map tree terms.now))) (trees_variables (trees (map tree v.items))) (state numbering.new)) }
{
    let mut found = Vec::new(alloc);
    for term in terms {
        let next = numbered_term(alloc, numbering, term)?;
        found.push(next)?;
    }
    Ok(found)
}

/// What stands behind the items of a list, with the numbers of its variables.
#[cycle(terms)]
fn numbered_tail(
    alloc: Global,
    numbering: &mut Numbering,
    tail: &Option<Box<SourceTerm>>,
) -> Result<Option<Box<SourceTerm>>, AllocError>
    requires { AreBelow (length numbering.old.current.items) (tail_variables (tail_view tail.now)) }
    ensures shape { IfOk result (λ o. tail_shape (tail_view o) ≡ tail_shape (tail_view tail.now)) }
    ensures numbers { IfOk result (λ o. Numbers (state numbering.old) (tail_variables (tail_view tail.now)) (tail_variables (tail_view o)) (state numbering.new)) }
{
    match tail {
        Some(tail) => {
            let term = numbered_term(alloc, numbering, tail)?;
            let term = Box::new(alloc, term)?;
            Ok(Some(term))
        }
        None => Ok(None),
    }
}

/// The operands with the numbers of their variables.
#[cycle(terms)]
fn numbered_steps(
    alloc: Global,
    numbering: &mut Numbering,
    operands: &[SourceStep],
) -> Result<Vec<SourceStep>, AllocError>
    requires { AreBelow (length numbering.old.current.items) (steps_variables (steps (map step operands.now))) }
    ensures shape { IfOk result (λ v. steps_shape (steps (map step v.items)) ≡ steps_shape (steps (map step operands.now))) }
    ensures numbers { IfOk result (λ v. Numbers (state numbering.old) (steps_variables (steps (map step operands.now))) (steps_variables (steps (map step v.items))) (state numbering.new)) }
{
    let mut found = Vec::new(alloc);
    for step in operands {
        let symbol = step.symbol.duplicate()?;
        let right = numbered_term(alloc, numbering, &step.right)?;
        found.push(SourceStep { symbol, right })?;
    }
    Ok(found)
}
