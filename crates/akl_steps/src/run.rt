//! A run to its end, as `akl` makes it.

use crate::page::Page;
use crate::reading::program_front;
use crate::words::Asked;
use akl_model::Label;
use akl_outside::NoGate;
use akl_run::{Flags, Report, Status, TextQuery, fixed_line, refusal_line, run_texts};
use std::sync::Wait;
use std::thread::Threads;

/// A run that was made.
#[derive(Drop)]
pub struct Made {
    pub status: Status,
    /// The labels that were committed, in order.
    pub journal: Vec<Label>,
}

// Adds to a page why a run is refused, if it is.
fn push_refusal(page: &mut Page, report: &Report) {
    if fixed_line(report.status).is_none() {
        match refusal_line(page.alloc(), report.status, &report.refusal) {
            Ok(line) => page.push_bytes(&line),
            Err(_) => page.lack(),
        }
    }
}

/// Makes the run that is asked over the program that a text is, and adds to a page what `akl` prints of it: its answers and
/// its outcome, behind its trace where `trace` is set, or why it is refused.
pub fn make_run<R: Threads + Wait + Sync>(
    rt: &R,
    text: &[u8],
    asked: &Asked<'_>,
    trace: bool,
    page: &mut Page,
) -> Made {
    let texts = TextQuery {
        program: program_front(text),
        query: asked.query.as_bytes(),
        workers: asked.workers.max(1).min(16),
        budget: asked.budget,
        flags: Flags {
            trace,
            why: asked.why,
            model: false,
        },
    };
    let report = run_texts(rt, page.alloc(), texts, page, &NoGate);
    push_refusal(page, &report);
    Made {
        status: report.status,
        journal: report.into_journal(),
    }
}
