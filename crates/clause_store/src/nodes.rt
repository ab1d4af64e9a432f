//! The nodes of written terms.

ghost use Rattle.std.specs.Prelude.{◌≡◌, suc, ◌++◌, ◌∷◌, [], ◌<◌, ◌+◌, IfOk, Some, length, map, slice_get};
ghost use Rattle.akl_terms.specs.declared.term.Node.{Node};
ghost use Rattle.akl_terms.specs.Template.{IsAfter, IsArranged};
ghost use Rattle.term_syntax.specs.Tree.{trees, steps, compound, list, chain};
ghost use Rattle.term_syntax.specs.View.{tree, step, tail_view};
ghost use Rattle.term_syntax.specs.Sizes.{tree_size, trees_size, tail_size};
ghost use Rattle.clause_store.specs.Standing.{HasRoom, IsPut, IsEnd, ArePut};

use akl_syntax::{SourceStep, SourceTerm};
use akl_terms::{Node, Templates, Text};
use std::alloc::{AllocError, Global};

/// Puts what a term needs behind the nodes, and gives its node, which isn't put itself.
#[cycle(nodes)]
fn term_node(
    alloc: Global,
    templates: &mut Templates,
    term: &SourceTerm,
) -> Result<Node, AllocError>
    requires { HasRoom templates.old (tree_size (tree term.now)) }
    ensures { IfOk result (λ n. IsPut templates.old templates.new n (tree term.now)) }
{
    match term {
        SourceTerm::Var(number) => Ok(Node::Var(*number)),
        SourceTerm::Int(value) => Ok(Node::Int(*value)),
        SourceTerm::Struct { symbol, arguments } => {
            let symbol = templates.intern(symbol.as_str())?;
            let (first, count) = put_terms(alloc, templates, arguments)?;
            Ok(Node::Struct {
                symbol,
                first,
                count,
            })
        }
        SourceTerm::List { items, tail } => list_node(alloc, templates, items, tail),
        SourceTerm::Chain { first, rest } => chain_node(alloc, templates, first, rest),
    }
}

/// Puts the nodes of terms as neighbours, and gives the first and how many there are.
#[cycle(nodes)]
pub fn put_terms(
    alloc: Global,
    templates: &mut Templates,
    terms: &[SourceTerm],
) -> Result<(u32, u32), AllocError>
    requires { HasRoom templates.old (trees_size (trees (map tree terms.now))) }
    ensures count { IfOk result (λ x. x.1 ≡ length terms.now) }
    ensures put { IfOk result (λ x. ArePut templates.old templates.new x.0 x.1 (trees (map tree terms.now))) }
{
    let mut group = Vec::new(alloc);
    for term in terms {
        let node = term_node(alloc, templates, term)?;
        group.push(node)?;
    }
    let first = templates.push(&group)?;
    Ok((first, group.len() as u32))
}

/// Puts the node of a term, and gives it.
pub fn put_term(
    alloc: Global,
    templates: &mut Templates,
    term: &SourceTerm,
) -> Result<u32, AllocError>
    requires { HasRoom templates.old (tree_size (tree term.now)) }
    ensures { IfOk result (λ n. ArePut templates.old templates.new n 1 (trees (tree term.now ∷ []))) }
{
    let node = term_node(alloc, templates, term)?;
    let first = templates.push(&[node])?;
    Ok(first)
}

/// A symbol over two operands, whose nodes it puts.
fn pair_node(
    templates: &mut Templates,
    symbol: u32,
    left: Node,
    right: Node,
) -> Result<Node, AllocError>
    requires left { IsAfter templates.old left }
    requires right { IsAfter templates.old right }
    requires room { length templates.old.nodes + 2 < 4294967296 }
    ensures node { IfOk result (λ n. n ≡ Node.Struct symbol (length templates.old.nodes) 2) }
    ensures put { IfOk result (λ _. templates.new ≡ record templates.old { nodes = templates.old.nodes ++ left ∷ right ∷ [] }) }
{
    let first = templates.push(&[left, right])?;
    Ok(Node::Struct {
        symbol,
        first,
        count: 2,
    })
}

/// A list: a cell for each item, from the last to the first.
#[cycle(nodes)]
fn list_node(
    alloc: Global,
    templates: &mut Templates,
    items: &[SourceTerm],
    tail: &Option<Box<SourceTerm>>,
) -> Result<Node, AllocError>
    requires { HasRoom templates.old (tree_size (list (trees (map tree items.now)) (tail_view tail.now))) }
    ensures { IfOk result (λ n. IsPut templates.old templates.new n (list (trees (map tree items.now)) (tail_view tail.now))) }
{
    let mut node = end_node(alloc, templates, tail)?;
    let cell = templates.intern(".")?;
    for index in (0..items.len()).rev() {
        let item = term_node(alloc, templates, &items[index])?;
        node = pair_node(templates, cell, item, node)?;
    }
    Ok(node)
}

/// What stands behind the last item of a list: its tail, or the empty list.
#[cycle(nodes)]
fn end_node(
    alloc: Global,
    templates: &mut Templates,
    tail: &Option<Box<SourceTerm>>,
) -> Result<Node, AllocError>
    requires { HasRoom templates.old (suc (tail_size (tail_view tail.now))) }
    ensures { IfOk result (λ n. IsEnd templates.old templates.new n (tail_view tail.now)) }
{
    match tail {
        Some(tail) => term_node(alloc, templates, tail),
        None => {
            let symbol = templates.intern("[]")?;
            Ok(Node::Struct {
                symbol,
                first: 0,
                count: 0,
            })
        }
    }
}

/// A sum or a product, from the left.
#[cycle(nodes)]
fn chain_node(
    alloc: Global,
    templates: &mut Templates,
    first: &SourceTerm,
    rest: &[SourceStep],
) -> Result<Node, AllocError>
    requires { HasRoom templates.old (tree_size (chain (tree first.now) (steps (map step rest.now)))) }
    ensures { IfOk result (λ n. IsPut templates.old templates.new n (chain (tree first.now) (steps (map step rest.now)))) }
{
    let mut node = term_node(alloc, templates, first)?;
    for step in rest {
        let symbol = templates.intern(step.symbol.as_str())?;
        let right = term_node(alloc, templates, &step.right)?;
        node = pair_node(templates, symbol, node, right)?;
    }
    Ok(node)
}
