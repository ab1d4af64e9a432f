//! A run that is shown, from the text of its program.

use crate::page::Page;
use crate::reading::program_front;
use crate::run::{Made, make_run};
use crate::steps::{push_start, show_steps};
use crate::streams::{say_page, show_last, show_page};
use crate::telling::Telling;
use crate::words::Asked;
use akl_run::{Replay, Setting, Status};
use std::sync::Wait;
use std::thread::Threads;

// Shows the query of a run, and its steps.
fn show_all(
    host: &HostRuntime,
    asked: &Asked<'_>,
    replay: &mut Replay<'_>,
    telling: &mut Telling<'_>,
    made: &Made,
) -> Result<(), Status> {
    push_start(telling, asked, replay);
    show_page(host, &telling.page)?;
    telling.page.clear();
    show_steps(host, asked, replay, telling, &made.journal)
}

// Shows the query of a run, its steps, and what is printed of its end where all its steps were shown. Answers the status.
fn show_replay(
    host: &HostRuntime,
    asked: &Asked<'_>,
    replay: &mut Replay<'_>,
    telling: &mut Telling<'_>,
    made: &Made,
    end: &Page,
) -> Status {
    match show_all(host, asked, replay, telling, made) {
        Ok(()) if asked.to < made.journal.len() as u64 => Status::Done,
        Ok(()) => show_last(host, end, made.status),
        Err(status) => status,
    }
}

// Shows a run that was made of a query.
fn show_set(
    host: &HostRuntime,
    asked: &Asked<'_>,
    setting: &Setting,
    made: &Made,
    end: &Page,
) -> Status {
    let alloc = host.alloc();
    match setting.replay(alloc, asked.workers, asked.budget) {
        Ok(begun) => {
            let mut replay = begun;
            let mut telling = Telling::new(alloc, setting);
            let status = show_replay(host, asked, &mut replay, &mut telling, made, end);
            replay.end();
            status
        }
        Err(_) => Status::NoMemory,
    }
}

// Shows a run that was made, or says why it was refused.
fn show_made(
    host: &HostRuntime,
    text: &[u8],
    asked: &Asked<'_>,
    made: &Made,
    end: &Page,
) -> Status {
    if made.status.number() > Status::Budget.number() {
        say_page(host, end);
        return made.status;
    }
    match Setting::new(host.alloc(), program_front(text), asked.query.as_bytes()) {
        Ok(setting) => {
            let status = show_set(host, asked, &setting, made, end);
            setting.end();
            status
        }
        Err(status) => status,
    }
}

/// Shows the run that is asked over the program that a text is, or says on standard error why it is refused. Answers its status,
/// or that of what kept it from being shown.
pub fn show_asked<R: Threads + Wait + Sync>(
    rt: &R,
    host: &HostRuntime,
    text: &[u8],
    asked: &Asked<'_>,
) -> Status {
    let mut end = Page::new(host.alloc());
    let made = make_run(rt, text, asked, false, &mut end);
    show_made(host, text, asked, &made, &end)
}

/// Makes the run that is asked over the program that a text is, and shows what `akl` prints of it. Answers its status, or that of
/// what kept it from being shown.
pub fn show_run<R: Threads + Wait + Sync>(
    rt: &R,
    host: &HostRuntime,
    text: &[u8],
    asked: &Asked<'_>,
) -> Status {
    let mut page = Page::new(host.alloc());
    let made = make_run(rt, text, asked, asked.trace, &mut page);
    show_last(host, &page, made.status)
}
