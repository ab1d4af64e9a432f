//! Classes of nodes in the order of their first visit.

ghost use Rattle.std.specs.Prelude.{◌≡◌, ◌++◌, [], IfOk, OnOk, get_or, map, reverse};
ghost use Rattle.tree_models.specs.Visiting.{class_of, row_of, VisitsNodes, IsStep};

use std::alloc::{AllocError, Global};
use tree_classes::Numbers;

// A node's class, by its first node.
pub(crate) fn class_at(firsts: &[usize], node: usize) -> usize
    ensures { result ≡ class_of firsts.now node }
{
    firsts.get(node).copied().unwrap_or(0)
}

// The nodes of the arguments of a class.
pub(crate) fn row_at(rows: &[Vec<usize>], class: usize) -> &[usize]
    ensures { result.now ≡ row_of (map (λ v. v.items) rows.now) class }
{
    match rows.get(class) {
        Some(row) => row.as_slice(),
        None => &[],
    }
}

// Nodes come to the end of an agenda, the first last.
fn push_reversed(alloc: Global, agenda: &mut Vec<usize>, nodes: &[usize]) -> Result<(), AllocError>
    ensures { OnOk result (agenda.new.items ≡ agenda.old.items ++ reverse nodes.now) }
{
    let mut turned = Vec::from_slice(alloc, nodes)?;
    turned.reverse();
    agenda.extend_from_slice(turned.as_slice())
}

// Visits a node: where its class is new it comes behind the others, and the nodes of its arguments come next.
fn step(
    alloc: Global,
    rows: &[Vec<usize>],
    firsts: &[usize],
    node: usize,
    order: &mut Numbers,
    agenda: &mut Vec<usize>,
) -> Result<(), AllocError>
    ensures { OnOk result (IsStep (map (λ v. v.items) rows.now) firsts.now node order.old agenda.old.items order.new agenda.new.items) }
{
    let class = class_at(firsts, node);
    if let Some(_) = order.known(class) {
        return Ok(());
    }
    order.number(class)?;
    push_reversed(alloc, agenda, row_at(rows, class))
}

/// The classes of the nodes that are reached from some nodes, in the order of their first visit, depth first and left to
/// right. A class is known by its first node, which has its row.
///
/// This costs a step for each node of these and of the rows that are reached.
pub fn visit(
    alloc: Global,
    rows: &[Vec<usize>],
    firsts: &[usize],
    starts: &[usize],
) -> Result<Numbers, AllocError>
    ensures { IfOk result (λ order. VisitsNodes (map (λ v. v.items) rows.now) firsts.now [] starts.now order) }
{
    let mut order = Numbers::new(alloc);
    let mut agenda = Vec::new(alloc);
    push_reversed(alloc, &mut agenda, starts)?;
    while let Some(node) = agenda.pop() {
        step(alloc, rows, firsts, node, &mut order, &mut agenda)?;
    }
    Ok(order)
}
