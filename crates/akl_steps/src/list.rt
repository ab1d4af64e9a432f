//! The runs of a list.

use crate::reading::text_of;
use crate::shown::{show_asked, show_run};
use crate::streams::{fixed_text, refuse_word, show_text};
use crate::words::read_options;
use akl_outside::StreamSource;
use akl_run::Status;
use std::fs;
use std::str::from_utf8;
use std::sync::Wait;
use std::thread::Threads;

/// A run of a list.
#[derive(Clone, Copy)]
struct Row<'a> {
    /// Whether it is shown step by step.
    is_shown: bool,
    file: &'a str,
    /// Options with spaces between.
    options: &'a str,
    query: &'a str,
}

// The run of a line: a file, perhaps options behind it, and a query; `akl_steps` stands first where it is shown.
fn row_of(line: &str) -> Row<'_> {
    let (is_shown, run) = match line.strip_prefix("akl_steps ") {
        Some(rest) => (true, rest),
        None => (false, line),
    };
    let (named, query) = run.split_once(": ").unwrap_or((run, ""));
    let (file, options) = named.split_once(" ").unwrap_or((named, ""));
    Row {
        is_shown,
        file,
        options,
        query,
    }
}

// The text of a file.
fn text_in(host: &HostRuntime, file: &str) -> Result<Vec<u8>, Status> {
    match fs::open(host, file) {
        Ok(opened) => text_of(host.alloc(), &mut StreamSource::new(opened)),
        Err(_) => Err(Status::ReadFault),
    }
}

// Makes the run of a line over the program that a text is, and shows it.
fn make_row<R: Threads + Wait + Sync>(
    rt: &R,
    host: &HostRuntime,
    row: &Row<'_>,
    text: &[u8],
) -> Status {
    match read_options(row.options, row.query) {
        Ok(asked) if row.is_shown => show_asked(rt, host, text, &asked),
        Ok(asked) => show_run(rt, host, text, &asked),
        Err(at) => refuse_word(host, at),
    }
}

// Makes the run of a line, and shows it.
fn make_line<R: Threads + Wait + Sync>(rt: &R, host: &HostRuntime, row: &Row<'_>) -> Status {
    match text_in(host, row.file) {
        Ok(text) => make_row(rt, host, row, &text),
        Err(status) => status,
    }
}

// Shows a line, and what its run shows or why there is none.
fn show_line<R: Threads + Wait + Sync>(
    rt: &R,
    host: &HostRuntime,
    line: &str,
) -> Result<(), Status> {
    show_text(host, line.as_bytes())?;
    show_text(host, b"\n")?;
    let status = make_line(rt, host, &row_of(line));
    show_text(host, fixed_text(status))
}

/// Makes the runs of a list, a line for each, and shows each line with what its run shows.
pub fn make_runs<R: Threads + Wait + Sync>(rt: &R, host: &HostRuntime, list: &[u8]) -> Status {
    let Ok(lines) = from_utf8(list) else {
        return Status::ReadFault;
    };
    for line in lines.lines() {
        if let Err(status) = show_line(rt, host, line) {
            return status;
        }
    }
    Status::Done
}
