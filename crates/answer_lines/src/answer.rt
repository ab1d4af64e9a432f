//! The lines of an answer.

ghost use Rattle.std.specs.Prelude.{◌≡◌, ◌<◌, ◌≤◌, ℕ, IfOk, length, Err, false};
ghost use Rattle.cycle_marks.specs.Components.{is_cyclic};
ghost use Rattle.rational_unify.specs.Known.{IsSolved, end_of};
ghost use Rattle.answer_text.specs.Answers.{longest_answer};
ghost use Rattle.answer_text.specs.declared.lines.AnswerError.TheVariants as variants;
ghost use Rattle.answer_lines.specs.Lines.{AreLinesOf, HasLongLines};

use crate::lines::graph_lines;
use akl_terms::{ShownTerm, Templates};
use answer_text::{AnswerError, answer};
use cycle_marks::{Components, find_components};
use rational_unify::Lookup;
use std::alloc::Global;
use term_graph::build_graph;
use tree_classes::{find_classes, find_tops};

/// The lines of an answer: for each shown term its name, ` = ` and its text, where the end of its
/// chain in a solved form stands for a term; then the cyclic trees that were named.
///
/// A class of equal variables is `_` and a number, a cyclic tree `R` and a number, each by order of
/// first printing. `Long` comes exactly where the lines have more than a million bytes.
pub fn answer_lines<K: Lookup>(
    alloc: Global,
    templates: &Templates,
    form: &K,
    shown: &[ShownTerm],
) -> Result<Vec<u8>, AnswerError>
    requires { IsSolved templates.now.nodes (K.bindings form.now) }
    ensures text { IfOk result (λ text. AreLinesOf templates.now (end_of templates.now.nodes (K.bindings form.now)) shown.now text.items) }
    ensures short { IfOk result (λ text. length text.items ≤ longest_answer) }
    ensures long { result ≡ Err variants.Long → HasLongLines templates.now (end_of templates.now.nodes (K.bindings form.now)) shown.now }
{
    let graph = build_graph(alloc, templates, form, shown)?;
    let components = find_components(alloc, &graph.rows)?;
    if !has_cycle(&components, graph.rows.len()) {
        return answer(alloc, templates, form, shown);
    }
    let tops = find_tops(alloc, &graph.seens)?;
    let classes = find_classes(alloc, &graph.rows, tops)?;
    graph_lines(alloc, templates, &graph, &classes, shown)
}

// Whether one of so many nodes lies on a cycle.
fn has_cycle(components: &Components, count: usize) -> bool
    ensures { result ≡ false → (i : ℕ) → i < count → is_cyclic components.now i ≡ false }
{
    for node in 0..count {
        if components.is_cyclic(node) {
            return true;
        }
    }
    false
}
