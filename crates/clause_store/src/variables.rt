//! The nodes of variables.

ghost use Rattle.std.specs.Prelude.{◌≡◌, ◌<◌, ◌+◌, ◌^◌, ◌++◌, IfOk, OnOk, length, map};
ghost use Rattle.akl_terms.specs.declared.term.Node.{Node};
ghost use Rattle.clause_store.specs.Putting.{numbers_from};

use akl_terms::{Node, Templates};
use std::alloc::{AllocError, Global};

/// The numbers below a count, in order.
fn numbers_below(alloc: Global, count: u32) -> Result<Vec<u32>, AllocError>
    ensures { IfOk result (λ v. v.items ≡ numbers_from 0 count) }
{
    let mut numbers = Vec::new(alloc);
    for number in 0..count {
        numbers.push(number)?;
    }
    Ok(numbers)
}

/// Puts the nodes of variables as neighbours, and gives the first.
pub fn put_variables(
    alloc: Global,
    templates: &mut Templates,
    numbers: &[u32],
) -> Result<u32, AllocError>
    requires { length templates.old.nodes + length numbers.now < 2 ^ 32 }
    ensures first { IfOk result (λ n. n ≡ length templates.old.nodes) }
    ensures put { OnOk result (templates.new ≡ record templates.old { nodes = templates.old.nodes ++ map (λ n. Node.Var n) numbers.now }) }
{
    let mut group = Vec::new(alloc);
    for number in numbers {
        group.push(Node::Var(*number))?;
    }
    let first = templates.push(&group)?;
    Ok(first)
}

/// Puts the nodes of the variables below a count as neighbours, in order.
pub fn put_variables_below(
    alloc: Global,
    templates: &mut Templates,
    count: u32,
) -> Result<(), AllocError>
    requires { length templates.old.nodes + count < 2 ^ 32 }
    ensures { OnOk result (templates.new ≡ record templates.old { nodes = templates.old.nodes ++ map (λ n. Node.Var n) (numbers_from 0 count) }) }
{
    let numbers = numbers_below(alloc, count)?;
    put_variables(alloc, templates, &numbers)?;
    Ok(())
}
