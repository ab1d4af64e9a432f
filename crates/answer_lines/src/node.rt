//! What is read of a graph's nodes. A node that isn't there reads as the integer 0.

ghost use Rattle.std.specs.Prelude.{◌≡◌, map, [], pos, get_or};
ghost use Rattle.akl_terms.specs.declared.term.Seen.TheVariants as seens;

use akl_terms::Seen;
use term_graph::TermGraph;

/// What a node begins with.
pub fn seen_at(graph: &TermGraph, node: usize) -> Seen
    ensures { result ≡ get_or graph.now.seens.items node (seens.Int (pos 0)) }
{
    graph.seens.get(node).copied().unwrap_or(Seen::Int(0))
}

/// The nodes of a node's arguments.
pub fn row_at(graph: &TermGraph, node: usize) -> &[usize]
    ensures { result.now ≡ get_or (map (λ v. v.items) graph.now.rows.items) node [] }
{
    match graph.rows.get(node) {
        Some(row) => row.as_slice(),
        None => &[],
    }
}
