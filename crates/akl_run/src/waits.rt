//! What the root boxes of a suspended run wait on, written one after another.

ghost use Rattle.std.specs.Prelude.{◌≡◌, true, OnOk, IfErr};
ghost use Rattle.seq_engine.specs.Runs.{IsQuiet};
ghost use Rattle.akl_run.specs.Text.{says_waits};
ghost use Rattle.akl_run.specs.Endings.{outcome_by};
ghost use Rattle.akl_run.specs.Outputs.{outlet, HasBrokenOff};
ghost use Rattle.akl_run.specs.Written.{HasWrittenWaits, ArePartsOfWaits};

use crate::ending::{Ending, says_waits};
use crate::evaluate::Evaluated;
use crate::output::{Output, Unwritten};
use akl_outside::Sink;
use akl_terms::Name;
use std::alloc::Global;
use why_report::root_waits;

/// Writes what the root boxes of these names wait on, where it is asked, of a run that is suspended.
pub fn write_waits<K: Sink>(
    alloc: Global,
    run: &Evaluated,
    ending: Ending,
    names: &[Name],
    out: &mut Output<K>,
) -> Result<(), Unwritten>
    requires program { run.now.program ≡ run.now.core.table.program }
    requires quiet { says_waits run.now.flags (outcome_by ending) ≡ true → IsQuiet run.now.core }
    ensures same { out.new.sink.ghost_name ≡ out.old.sink.ghost_name }
    ensures whole { OnOk result (HasWrittenWaits run.now.core names.now
        (outlet (K.written out.old.sink.now) (K.faults out.old.sink.now) out.old.written)
        (outlet (K.written out.new.sink.now) (K.faults out.new.sink.now) out.new.written) (says_waits run.now.flags (outcome_by ending))) }
    ensures broken { IfErr result (HasBrokenOff (ArePartsOfWaits run.now.core names.now (says_waits run.now.flags (outcome_by ending)))
        (outlet (K.written out.old.sink.now) (K.faults out.old.sink.now) out.old.written)
        (outlet (K.written out.new.sink.now) (K.faults out.new.sink.now) out.new.written)) }
{
    if !says_waits(run.flags, ending) {
        return Ok(());
    }
    let mut number = 0;
    for name in names {
        number += 1;
        let text = root_waits(alloc, &run.program, &run.core, *name, number)?;
        out.append(&text)?;
    }
    Ok(())
}
