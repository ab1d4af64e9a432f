//! The lines of a graph's trees.

ghost use Rattle.std.specs.Prelude.{◌≡◌, ◌≤◌, IfOk, OnOk, [], length, Err};
ghost use Rattle.answer_text.specs.Answers.{longest_answer, shown_trees};
ghost use Rattle.answer_text.specs.declared.lines.AnswerError.TheVariants as variants;
ghost use Rattle.answer_lines.specs.Printing.{AreKnown, EndsAs, Moves, Overruns, OverrunsByCycles, forest_of};
ghost use Rattle.answer_lines.specs.Lines.{AreForestLines, AreLongForestLines};

use crate::printer::Printer;
use akl_terms::{ShownTerm, Templates};
use answer_text::AnswerError;
use std::alloc::{AllocError, Global};
use term_graph::TermGraph;
use tree_classes::TreeClasses;

/// The most bytes of an answer's text.
const LONGEST: usize = 1_000_000;

/// The lines of shown terms, and of the cyclic trees that they name.
pub fn graph_lines(
    alloc: Global,
    templates: &Templates,
    graph: &TermGraph,
    classes: &TreeClasses,
    shown: &[ShownTerm],
) -> Result<Vec<u8>, AnswerError>
    requires known { AreKnown (forest_of templates.now graph.now classes.now) }
    requires shown { length graph.now.shown.items ≡ length shown.now }
    ensures text { IfOk result (λ text. AreForestLines (forest_of templates.now graph.now classes.now) (shown_trees templates.now shown.now) graph.now.shown.items text.items) }
    ensures short { IfOk result (λ text. length text.items ≤ longest_answer) }
    ensures long { result ≡ Err variants.Long → AreLongForestLines (forest_of templates.now graph.now classes.now) (shown_trees templates.now shown.now) graph.now.shown.items }
{
    let mut printer = Printer::new(alloc);
    for place in 0..shown.len() {
        printer.begin_line(shown[place].name.as_str(), graph.shown[place])?;
        print_all(templates, graph, classes, &mut printer)?;
    }
    print_cycles(templates, graph, classes, &mut printer)?;
    Ok(printer.into_bytes())
}

// Prints the lines of the cyclic trees.
fn print_cycles(
    templates: &Templates,
    graph: &TermGraph,
    classes: &TreeClasses,
    printer: &mut Printer,
) -> Result<(), AnswerError>
    requires known { AreKnown (forest_of templates.now graph.now classes.now) }
    requires none_left { printer.old.pieces ≡ [] }
    requires short { length printer.old.out ≤ longest_answer }
    ensures ends { OnOk result (EndsAs (forest_of templates.now graph.now classes.now) printer.old printer.new) }
    ensures short { OnOk result (length printer.new.out ≤ longest_answer) }
    ensures long { result ≡ Err variants.Long → OverrunsByCycles (forest_of templates.now graph.now classes.now) printer.old }
{
    let mut number = 0;
    while let Some(node) = printer.cycle(number) {
        printer.begin_cycle(templates, graph, classes, number, node)?;
        print_all(templates, graph, classes, printer)?;
        number += 1;
    }
    Ok(())
}

// Prints what is left to be printed.
fn print_all(
    templates: &Templates,
    graph: &TermGraph,
    classes: &TreeClasses,
    printer: &mut Printer,
) -> Result<(), AnswerError>
    requires { AreKnown (forest_of templates.now graph.now classes.now) }
    ensures moves { OnOk result (Moves (forest_of templates.now graph.now classes.now) printer.old printer.new) }
    ensures none_left { OnOk result (printer.new.pieces ≡ []) }
    ensures short { OnOk result (length printer.new.out ≤ longest_answer) }
    ensures grows { OnOk result (length printer.old.out ≤ length printer.new.out) }
    ensures long { result ≡ Err variants.Long → Overruns (forest_of templates.now graph.now classes.now) printer.old }
{
    loop {
        if printer.len() > LONGEST {
            return Err(AnswerError::Long);
        }
        let Some(piece) = printer.next_piece() else {
            return Ok(());
        };
        printer.begin(templates, graph, classes, piece)?;
    }
}
