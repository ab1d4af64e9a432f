//! The answers of a run, written one after another.

ghost use Rattle.std.specs.Prelude.{◌≡◌, ◌++◌, ◌∷◌, [], codes, IfOk, OnOk, IfErr};
ghost use Rattle.std.specs.Fmt.{decimal};
ghost use Rattle.akl_run.specs.Text.{numbered};
ghost use Rattle.akl_run.specs.Outputs.{outlet, HasAppended, HasBrokenOff, PartsOf};
ghost use Rattle.akl_run.specs.Evaluations.{HasEnded};
ghost use Rattle.akl_run.specs.Written.{HasShown, listed, HasWrittenAnswers, ArePartsOfAnswers};

use crate::evaluate::Evaluated;
use crate::output::{Output, Unwritten};
use akl_outside::Sink;
use akl_terms::Name;
use line_text::{push_number, push_text};
use root_answers::{root_model_lines, root_text};
use std::alloc::{AllocError, Global};

// The lines of a root box, where it is an answer, with those of its model behind them where it has one. So many answers come
// before it.
fn shown_root(
    alloc: Global,
    run: &Evaluated,
    name: Name,
    before: usize,
) -> Result<Option<Vec<u8>>, AllocError>
    requires { run.now.program ≡ run.now.core.table.program }
    ensures { IfOk result (HasShown run.now name before) }
{
    let Some(mut lines) = root_text(alloc, &run.program, &run.core, name)? else {
        return Ok(None);
    };
    if let Some(model) = run.models.get(before) {
        let more = root_model_lines(alloc, &run.program, &run.core, name, model)?;
        lines.extend_from_slice(&more)?;
    }
    Ok(Some(lines))
}

// The line of an answer's number.
fn answer_head(alloc: Global, number: usize) -> Result<Vec<u8>, AllocError>
    ensures { IfOk result (λ head. head.items ≡ codes "answer " ++ decimal number ++ codes "\n") }
{
    let mut head = Vec::new(alloc);
    push_text(&mut head, "answer ")?;
    push_number(&mut head, number as u64)?;
    push_text(&mut head, "\n")?;
    Ok(head)
}

// Writes the line of an answer's number, and its lines.
fn write_answer<K: Sink>(
    alloc: Global,
    number: usize,
    lines: &[u8],
    out: &mut Output<K>,
) -> Result<(), Unwritten>
    ensures same { out.new.sink.ghost_name ≡ out.old.sink.ghost_name }
    ensures whole { OnOk result (HasAppended
        (outlet (K.written out.old.sink.now) (K.faults out.old.sink.now) out.old.written)
        (outlet (K.written out.new.sink.now) (K.faults out.new.sink.now) out.new.written)
        (numbered number lines.now)) }
    ensures broken { IfErr result (HasBrokenOff (PartsOf (numbered number lines.now))
        (outlet (K.written out.old.sink.now) (K.faults out.old.sink.now) out.old.written)
        (outlet (K.written out.new.sink.now) (K.faults out.new.sink.now) out.new.written)) }
{
    let head = answer_head(alloc, number)?;
    out.append(&head)?;
    out.append(lines)
}

// Lists the name of a root box that is no answer, where this is asked.
fn list_other(others: &mut Vec<Name>, asked: bool, name: Name) -> Result<(), AllocError>
    ensures { OnOk result (others.new.items ≡ others.old.items ++ listed asked name) }
{
    if asked {
        others.push(name)?;
    }
    Ok(())
}

/// Writes the answers among the root boxes, each as soon as it is made, and counts them. Lists the names of the others, where
/// it is asked why they wait.
pub fn write_answers<K: Sink>(
    alloc: Global,
    run: &Evaluated,
    others: &mut Vec<Name>,
    out: &mut Output<K>,
) -> Result<usize, Unwritten>
    requires ended { HasEnded run.now }
    requires none { others.old.items ≡ [] }
    ensures same { out.new.sink.ghost_name ≡ out.old.sink.ghost_name }
    ensures whole { IfOk result (HasWrittenAnswers run.now others.new.items
        (outlet (K.written out.old.sink.now) (K.faults out.old.sink.now) out.old.written)
        (outlet (K.written out.new.sink.now) (K.faults out.new.sink.now) out.new.written)) }
    ensures broken { IfErr result (HasBrokenOff (ArePartsOfAnswers run.now)
        (outlet (K.written out.old.sink.now) (K.faults out.old.sink.now) out.old.written)
        (outlet (K.written out.new.sink.now) (K.faults out.new.sink.now) out.new.written)) }
{
    let mut count = 0;
    for name in run.core.roots() {
        let found = match shown_root(alloc, run, *name, count) {
            Ok(found) => found,
            Err(error) => return Err(Unwritten::from(error)),
        };
        if let Some(lines) = found {
            count += 1;
            write_answer(alloc, count, &lines, out)?;
        } else {
            list_other(others, run.flags.why, *name)?;
        }
    }
    Ok(count)
}
