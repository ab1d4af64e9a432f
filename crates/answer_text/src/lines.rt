//! The lines of an answer.

ghost use Rattle.std.specs.Prelude.{◌≡◌, ◌≤◌, IfOk, OnOk, [], length, Err};
ghost use Rattle.answer_text.specs.Answers.{longest_answer, IsAnswerText, IsTooLong};
ghost use Rattle.answer_text.specs.Pieces.{Moves, Overruns};
ghost use Rattle.rational_unify.specs.Known.{IsSolved, end_of};

use crate::printer::Printer;
use akl_terms::{ShownTerm, Templates};
use rational_unify::Lookup;
use std::alloc::{AllocError, Global};

/// The most bytes of an answer's text.
const LONGEST: usize = 1_000_000;

/// Why there is no text of an answer.
#[derive(Clone, Copy, Debug)]
pub enum AnswerError {
    /// The lines have more than a million bytes, or a tree has no end.
    Long,
    /// There was no memory.
    Memory(AllocError),
}

impl From<AllocError> for AnswerError {
    ghost use Rattle.std.specs.Prelude.{◌≡◌};
    ghost use Rattle.answer_text.specs.declared.lines.AnswerError.TheVariants as variants;

    ghost from_gives = { λ cause error. error ≡ variants.Memory cause };

    fn from(error: AllocError) -> Self {
        AnswerError::Memory(error)
    }
}

/// The lines of an answer: for each shown term its name, ` = `, and its tree written out, where
/// the end of its chain in a solved form stands for a term.
///
/// A class of equal variables is `_` and a number, by order of first printing. `Long` comes exactly
/// where the lines have more than a million bytes; a tree without an end has no such lines.
pub fn answer<K: Lookup>(
    alloc: Global,
    templates: &Templates,
    form: &K,
    shown: &[ShownTerm],
) -> Result<Vec<u8>, AnswerError>
    requires { IsSolved templates.now.nodes (K.bindings form.now) }
    ensures text { IfOk result (λ text. IsAnswerText templates.now (end_of templates.now.nodes (K.bindings form.now)) shown.now text.items) }
    ensures short { IfOk result (λ text. length text.items ≤ longest_answer) }
    ensures long { result ≡ Err AnswerError.Long → IsTooLong templates.now (end_of templates.now.nodes (K.bindings form.now)) shown.now }
{
    let mut printer = Printer::new(alloc);
    for line in shown {
        printer.begin_line(line.name.as_str(), line.term)?;
        print_all(templates, form, &mut printer)?;
    }
    Ok(printer.into_bytes())
}

// Prints what is left to be printed.
fn print_all<K: Lookup>(
    templates: &Templates,
    form: &K,
    printer: &mut Printer,
) -> Result<(), AnswerError>
    requires { IsSolved templates.now.nodes (K.bindings form.now) }
    ensures moves { OnOk result (Moves templates.now (end_of templates.now.nodes (K.bindings form.now)) printer.old printer.new) }
    ensures none_left { OnOk result (printer.new.pieces ≡ []) }
    ensures short { OnOk result (length printer.new.out ≤ longest_answer) }
    ensures long { result ≡ Err AnswerError.Long → Overruns templates.now (end_of templates.now.nodes (K.bindings form.now)) printer.old }
{
    loop {
        if printer.len() > LONGEST {
            return Err(AnswerError::Long);
        }
        let Some(piece) = printer.next_piece() else {
            return Ok(());
        };
        printer.begin(templates, form, piece)?;
    }
}
