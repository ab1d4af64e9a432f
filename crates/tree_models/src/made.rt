//! The table of a graph's classes.

ghost use Rattle.std.specs.Prelude.{◌≡◌, ◌≤◌, ◌-◌, IfOk, length, map};
ghost use Rattle.tree_models.specs.Made.{given_by, IsMade};
ghost use Rattle.tree_models.specs.Visiting.{place_by};

use crate::cells::{cells_of, places_of};
use crate::model::{Given, TreeModel};
use crate::starts::StartGraph;
use crate::visiting::{class_at, visit};
use akl_terms::Var;
use std::alloc::{AllocError, Global};
use tree_classes::Numbers;

/// The table of the classes that are visited from the graph's starts, by the first node of each class. The starts are
/// the nodes of `count` shown terms, then those of the variables.
pub fn make_model(
    alloc: Global,
    graph: &StartGraph,
    firsts: &[usize],
    count: usize,
    variables: &[Var],
) -> Result<TreeModel, AllocError>
    requires within { count ≤ length graph.now.starts.items }
    requires even { length variables.now ≡ length graph.now.starts.items - count }
    ensures { IfOk result (IsMade graph.now firsts.now count variables.now) }
{
    let order = visit(alloc, &graph.rows, firsts, &graph.starts)?;
    let cells = cells_of(alloc, &graph.seens, &graph.rows, firsts, &order)?;
    let shown = places_of(alloc, &graph.starts[..count], firsts, &order)?;
    let given = places_given(alloc, variables, &graph.starts[count..], firsts, &order)?;
    Ok(TreeModel {
        cells,
        given,
        shown,
    })
}

// The places of variables, by their nodes.
fn places_given(
    alloc: Global,
    variables: &[Var],
    nodes: &[usize],
    firsts: &[usize],
    order: &Numbers,
) -> Result<Vec<Given>, AllocError>
    requires { length variables.now ≡ length nodes.now }
    ensures { IfOk result (λ given. given.items ≡ given_by (place_by firsts.now order.now) variables.now nodes.now) }
{
    let mut given = Vec::new(alloc);
    for k in 0..variables.len() {
        given.push(Given {
            variable: variables[k],
            place: order.place(class_at(firsts, nodes[k])) as u64,
        })?;
    }
    Ok(given)
}
