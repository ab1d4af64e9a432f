//! With what a run ends.

ghost use Rattle.std.specs.Prelude.{◌≡◌, ◌++◌, OnOk};
ghost use Rattle.akl_run.specs.Text.{outcome_line, says_waits};
ghost use Rattle.akl_run.specs.Endings.{ending_by, status_by, outcome_by};

use crate::report::Status;
use akl_args::Flags;
use line_text::{push_number, push_text};
use seq_engine::End;
use std::alloc::AllocError;

/// With what a run ends.
#[derive(Clone, Copy)]
pub enum Ending {
    Done,
    Failed,
    /// So many root boxes are no answers.
    Suspended { left: usize },
    Budget,
}

/// The ending of a run with so many root boxes, of which so many are answers.
pub fn ending_of(end: End, roots: usize, answers: usize) -> Ending
    ensures { result ≡ ending_by end roots answers }
{
    match end {
        End::Spent => Ending::Budget,
        End::Quiet => {
            if answers < roots {
                Ending::Suspended {
                    left: roots - answers,
                }
            } else if roots == 0 {
                Ending::Failed
            } else {
                Ending::Done
            }
        }
    }
}

/// The status of an ending.
pub fn status_of(ending: Ending) -> Status
    ensures { result ≡ status_by ending }
{
    match ending {
        Ending::Done => Status::Done,
        Ending::Failed => Status::Failed,
        Ending::Suspended { left: _ } => Status::Suspended,
        Ending::Budget => Status::Budget,
    }
}

/// Whether it is said what waits: where this is asked, of a run that is suspended.
pub fn says_waits(flags: Flags, ending: Ending) -> bool
    ensures { result ≡ says_waits flags (outcome_by ending) }
{
    match ending {
        Ending::Suspended { left: _ } => flags.why,
        _ => false,
    }
}

/// Adds the last line of a run's text.
pub fn push_ending(text: &mut Vec<u8>, ending: Ending) -> Result<(), AllocError>
    ensures { OnOk result (text.new.items ≡ text.old.items ++ outcome_line (outcome_by ending)) }
{
    match ending {
        Ending::Done => push_text(text, "done\n"),
        Ending::Failed => push_text(text, "failed\n"),
        Ending::Suspended { left } => {
            push_text(text, "suspended ")?;
            push_number(text, left as u64)?;
            push_text(text, "\n")
        }
        Ending::Budget => push_text(text, "budget\n"),
    }
}
