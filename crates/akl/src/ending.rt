//! How the process ends.
ghost use Rattle.std.specs.Prelude.{◌≡◌, ◌⊎◌, codes};
ghost use Rattle.std.specs.Process.{exit_status};
ghost use Rattle.akl_run.specs.Statuses.{number_of};
ghost use Rattle.akl_run.specs.Commands.{side};
ghost use Rattle.akl_run.specs.Lines.{refusal_text};
ghost use Rattle.akl.specs.Endings.{Says};

use akl_outside::{Sink, write_all};
use akl_run::{Refusal, Status, fixed_line, refusal_line};
use std::alloc::Global;
use std::io::Eprint;
use std::process::{ExitCode, Termination};

/// How a command ended. `main` gives it to the system, and can neither make nor drop one.
pub struct Ending {
    status: Status,
}

impl Termination for Ending {
    /// The number is that of the status.
    fn report<R: Eprint>(self, _rt: &R) -> ExitCode
        ensures { exit_status result ≡ number_of self.status }
    {
        let Ending { status } = self;
        ExitCode::from(status.number())
    }
}

impl Ending {
    ghost use Rattle.akl.specs.Endings.{SaysWhy, Notifies};

    /// Says the line of a command's status and its refusal.
    pub fn of_command<E: Sink>(
        alloc: Global,
        status: Status,
        refusal: &Refusal,
        errors: &mut E,
    ) -> Ending
        ensures status { result.status ≡ status }
        ensures line { SaysWhy status refusal.now
            (side (E.written errors.old) (E.faults errors.old)) (side (E.written errors.new) (E.faults errors.new)) }
    {
        match fixed_line(status) {
            Some(line) => say(line.as_bytes(), errors),
            None => say_refusal(alloc, status, refusal, errors),
        }
        Ending { status }
    }

    /// Prints a notice, or says that it couldn't.
    pub fn of_notice<K: Sink, E: Sink>(text: &str, out: &mut K, errors: &mut E) -> Ending
        ensures { Notifies text.now
            (side (K.written out.old) (K.faults out.old)) (side (K.written out.new) (K.faults out.new))
            (side (E.written errors.old) (E.faults errors.old)) (side (E.written errors.new) (E.faults errors.new)) result }
    {
        let status = match write_all(out, text.as_bytes()) {
            Ok(()) => Status::Done,
            Err(_) => {
                say(b"akl: write fault\n", errors);
                Status::WriteFault
            }
        };
        Ending { status }
    }
}

// Says the line of a refusal, or that there was no memory for it.
fn say_refusal<E: Sink>(alloc: Global, status: Status, refusal: &Refusal, errors: &mut E)
    ensures { Says (refusal_text status refusal.now) (side (E.written errors.old) (E.faults errors.old)) (side (E.written errors.new) (E.faults errors.new))
        ⊎ Says (codes "akl: out of memory\n") (side (E.written errors.old) (E.faults errors.old)) (side (E.written errors.new) (E.faults errors.new)) }
{
    match refusal_line(alloc, status, refusal) {
        Ok(line) => say(&line, errors),
        Err(_) => say(b"akl: out of memory\n", errors),
    }
}

// Says a line. Where a write fails it is lost: there is no other place to say so.
fn say<E: Sink>(line: &[u8], errors: &mut E)
    ensures { Says line.now (side (E.written errors.old) (E.faults errors.old)) (side (E.written errors.new) (E.faults errors.new)) }
{
    let _ = write_all(errors, line);
}
