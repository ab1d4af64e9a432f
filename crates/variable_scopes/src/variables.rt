//! The variables that occur in terms, in the order of the text.

ghost use Rattle.std.specs.Prelude.{◌≡◌, ◌++◌, map, OnOk};
ghost use Rattle.term_syntax.specs.Tree.{trees, steps};
ghost use Rattle.term_syntax.specs.View.{tree, step};
ghost use Rattle.term_syntax.specs.Variables.{tree_variables, trees_variables, steps_variables};

use akl_syntax::{SourceStep, SourceTerm};
use std::alloc::AllocError;

/// Adds the variables of a term.
#[cycle(terms)]
pub fn add_term(found: &mut Vec<u32>, term: &SourceTerm) -> Result<(), AllocError>
    ensures { OnOk result (found.new.items ≡ found.old.items ++ tree_variables (tree term.now)) }
{
    match term {
        SourceTerm::Var(number) => {
            found.push(*number)?;
            Ok(())
        }
        SourceTerm::Int(_) => Ok(()),
        SourceTerm::Struct { arguments, .. } => add_terms(found, arguments),
        SourceTerm::List { items, tail } => {
            add_terms(found, items)?;
            match tail {
                Some(tail) => add_term(found, tail),
                None => Ok(()),
            }
        }
        SourceTerm::Chain { first, rest } => {
            add_term(found, first)?;
            add_steps(found, rest)
        }
    }
}

/// Adds the variables of terms.
#[cycle(terms)]
pub fn add_terms(found: &mut Vec<u32>, terms: &[SourceTerm]) -> Result<(), AllocError>
    ensures { OnOk result (found.new.items ≡ found.old.items ++ trees_variables (trees (map tree terms.now))) }
{
    for term in terms {
        add_term(found, term)?;
    }
    Ok(())
}

/// Adds the variables of operands.
#[cycle(terms)]
fn add_steps(found: &mut Vec<u32>, operands: &[SourceStep]) -> Result<(), AllocError>
    ensures { OnOk result (found.new.items ≡ found.old.items ++ steps_variables (steps (map step operands.now))) }
{
    for step in operands {
        add_term(found, &step.right)?;
    }
    Ok(())
}

/// Adds variables.
pub fn add_all(found: &mut Vec<u32>, numbers: &[u32]) -> Result<(), AllocError>
    ensures { OnOk result (found.new.items ≡ found.old.items ++ numbers.now) }
{
    for number in numbers {
        found.push(*number)?;
    }
    Ok(())
}
