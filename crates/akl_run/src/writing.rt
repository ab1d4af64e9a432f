//! A run's text, written as it is made: its trace, its answers, what waits, and its last line.

ghost use Rattle.std.specs.Prelude.{◌≡◌, IfOk, OnOk, IfErr};
ghost use Rattle.akl_run.specs.Traces.{trace_text};
ghost use Rattle.akl_run.specs.Text.{outcome_line};
ghost use Rattle.akl_run.specs.Endings.{outcome_by};
ghost use Rattle.akl_run.specs.Outputs.{outlet, HasAppended, HasBrokenOff, PartsOf, ShortOf};
ghost use Rattle.akl_run.specs.Evaluations.{HasEnded};
ghost use Rattle.akl_run.specs.Written.{HasWritten, BreaksOff};

use crate::answers::write_answers;
use crate::ending::{Ending, ending_of, push_ending, status_of};
use crate::evaluate::Evaluated;
use crate::output::{Output, Unwritten};
use crate::report::Status;
use crate::trace::trace_line;
use crate::waits::write_waits;
use akl_model::Label;
use akl_outside::Sink;
use std::alloc::Global;

// Writes a line for each label, where a trace is asked.
fn write_trace<K: Sink>(
    alloc: Global,
    trace: bool,
    journal: &[Label],
    out: &mut Output<K>,
) -> Result<(), Unwritten>
    ensures same { out.new.sink.ghost_name ≡ out.old.sink.ghost_name }
    ensures whole { OnOk result (HasAppended
        (outlet (K.written out.old.sink.now) (K.faults out.old.sink.now) out.old.written)
        (outlet (K.written out.new.sink.now) (K.faults out.new.sink.now) out.new.written) (trace_text trace journal.now)) }
    ensures broken { IfErr result (HasBrokenOff (PartsOf (trace_text trace journal.now))
        (outlet (K.written out.old.sink.now) (K.faults out.old.sink.now) out.old.written)
        (outlet (K.written out.new.sink.now) (K.faults out.new.sink.now) out.new.written)) }
{
    if !trace {
        return Ok(());
    }
    let mut at: u64 = 0;
    for label in journal {
        at += 1;
        let line = trace_line(alloc, at, label)?;
        out.append(&line)?;
    }
    Ok(())
}

// Writes the last line.
fn write_ending<K: Sink>(
    alloc: Global,
    ending: Ending,
    out: &mut Output<K>,
) -> Result<(), Unwritten>
    ensures same { out.new.sink.ghost_name ≡ out.old.sink.ghost_name }
    ensures whole { OnOk result (HasAppended
        (outlet (K.written out.old.sink.now) (K.faults out.old.sink.now) out.old.written)
        (outlet (K.written out.new.sink.now) (K.faults out.new.sink.now) out.new.written)
        (outcome_line (outcome_by ending))) }
    ensures broken { IfErr result (HasBrokenOff (ShortOf (outcome_line (outcome_by ending)))
        (outlet (K.written out.old.sink.now) (K.faults out.old.sink.now) out.old.written)
        (outlet (K.written out.new.sink.now) (K.faults out.new.sink.now) out.new.written)) }
{
    let mut line = Vec::new(alloc);
    push_ending(&mut line, ending)?;
    out.append(&line)
}

/// Writes the text of a run that has ended, a piece at a time: each line of its trace, where one is asked, each answer
/// as it is made, each root box that waits, where this is asked, and the outcome. Gives the status of the outcome.
pub fn write_run<K: Sink>(
    alloc: Global,
    run: &Evaluated,
    out: &mut Output<K>,
) -> Result<Status, Unwritten>
    requires { HasEnded run.now }
    ensures same { out.new.sink.ghost_name ≡ out.old.sink.ghost_name }
    ensures whole { IfOk result (HasWritten run.now
        (outlet (K.written out.old.sink.now) (K.faults out.old.sink.now) out.old.written)
        (outlet (K.written out.new.sink.now) (K.faults out.new.sink.now) out.new.written)) }
    ensures broken { IfErr result (BreaksOff run.now
        (outlet (K.written out.old.sink.now) (K.faults out.old.sink.now) out.old.written)
        (outlet (K.written out.new.sink.now) (K.faults out.new.sink.now) out.new.written)) }
{
    let roots = run.core.roots().len();
    let mut others = Vec::new(alloc);
    write_trace(alloc, run.flags.trace, run.core.journal(), out)?;
    let answers = write_answers(alloc, run, &mut others, out)?;
    let ending = ending_of(run.end, roots, answers);
    write_waits(alloc, run, ending, &others, out)?;
    write_ending(alloc, ending, out)?;
    Ok(status_of(ending))
}
