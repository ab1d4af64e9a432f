//! A run that is shown step by step.

use crate::page::Page;
use crate::streams::{say, say_page, show_page};
use crate::telling::Telling;
use crate::tree::push_tree;
use crate::words::Asked;
use akl_model::Label;
use akl_run::{Replay, Status, trace_line};
use std::alloc::AllocError;
use std::io::IsTerminal;

/// After so many steps the progress is shown anew.
const STRIDE: u64 = 1024;

// Adds the line of a trace, without its end.
fn push_trace(page: &mut Page, at: u64, label: &Label) {
    match trace_line(page.alloc(), at, label) {
        Ok(line) => {
            if let Some((_, text)) = line.split_last() {
                page.push_bytes(text);
            }
        }
        Err(_) => page.lack(),
    }
}

// Adds the beginning of a step's line: its number, or its line of a trace.
fn push_head(page: &mut Page, trace: bool, at: u64, label: &Label) {
    if trace {
        push_trace(page, at, label);
    } else {
        page.push("step ");
        page.push_number(at as i128);
    }
    page.push(": ");
}

// Adds the boxes and goals, where they are asked, and the end of the line.
fn push_state(telling: &mut Telling<'_>, tree: bool, replay: &Replay<'_>) {
    let page = &mut telling.page;
    if tree {
        push_tree(
            replay,
            telling.known.setting,
            &telling.known.origins,
            page,
            2,
        );
    }
    page.push("\n");
}

/// Adds the query before its first step, where that is asked.
pub fn push_start(telling: &mut Telling<'_>, asked: &Asked<'_>, replay: &Replay<'_>) {
    if asked.from == 0 && !asked.last {
        telling.page.push("query: ");
        telling.page.push(asked.query);
        push_state(telling, asked.tree, replay);
    }
}

// Whether a step is shown of so many.
fn is_shown(asked: &Asked<'_>, at: u64, count: u64) -> bool {
    if asked.last {
        at == count.min(asked.to)
    } else {
        asked.from <= at
    }
}

// Makes the step of a label that is the one of this number of so many, and adds what is shown of it, if it is shown. Answers
// whether it could be made. An `Err` is want of memory.
fn push_step(
    telling: &mut Telling<'_>,
    asked: &Asked<'_>,
    replay: &mut Replay<'_>,
    at: u64,
    count: u64,
    label: &Label,
) -> Result<bool, AllocError> {
    telling.is_shown = is_shown(asked, at, count);
    if telling.is_shown {
        push_head(&mut telling.page, asked.trace, at, label);
    }
    let alloc = telling.page.alloc();
    let is_made = replay.make(alloc, *label, telling)?;
    if telling.is_shown {
        push_state(telling, asked.tree, replay);
    }
    if telling.known.origins.is_whole() {
        Ok(is_made)
    } else {
        Err(AllocError)
    }
}

// Says on a terminal how far it is.
fn say_progress(host: &HostRuntime, at: u64, count: u64) {
    if host.stderr().is_terminal() {
        let mut page = Page::new(host.alloc());
        page.push_number(at as i128);
        page.push(" of ");
        page.push_number(count as i128);
        page.push(" steps\r");
        say_page(host, &page);
    }
}

/// Makes the steps of these labels, and shows those that are asked. The page is empty before each. It ends at one that can't be
/// made again, of which a line on standard error says so. An `Err` is the status of what kept one from being shown.
pub fn show_steps(
    host: &HostRuntime,
    asked: &Asked<'_>,
    replay: &mut Replay<'_>,
    telling: &mut Telling<'_>,
    labels: &[Label],
) -> Result<(), Status> {
    let count = labels.len() as u64;
    let mut at: u64 = 0;
    for label in labels {
        if at == asked.to {
            return Ok(());
        }
        at = at.saturating_add(1);
        match push_step(telling, asked, replay, at, count, label) {
            Ok(true) => {}
            Ok(false) => {
                say(host, b"akl_steps: a step couldn't be made again\n");
                return Ok(());
            }
            Err(_) => return Err(Status::NoMemory),
        }
        show_page(host, &telling.page)?;
        telling.page.clear();
        if at % STRIDE == 0 {
            say_progress(host, at, count);
        }
    }
    Ok(())
}
