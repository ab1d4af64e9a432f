//! What a command line asks.

use crate::help::HELP;
use crate::list::make_runs;
use crate::reading::text_of;
use crate::shown::show_asked;
use crate::streams::{fixed_text, refuse_word, say, show_text};
use crate::words::{Asked, read_words};
use akl_outside::StreamSource;
use akl_run::Status;
use std::sync::Wait;
use std::thread::Threads;

// The text that standard input has.
fn text_given(host: &HostRuntime) -> Result<Vec<u8>, Status> {
    text_of(host.alloc(), &mut StreamSource::new(host.stdin()))
}

// Makes the runs of a list, or shows the one that is asked, over what standard input has.
fn make<R: Threads + Wait + Sync>(rt: &R, host: &HostRuntime, asked: Option<&Asked<'_>>) -> Status {
    match text_given(host) {
        Ok(text) => match asked {
            Some(asked) => show_asked(rt, host, &text, asked),
            None => make_runs(rt, host, &text),
        },
        Err(status) => status,
    }
}

// Prints what the command says of itself.
fn help(host: &HostRuntime) -> Status {
    match show_text(host, HELP.as_bytes()) {
        Ok(()) => Status::Done,
        Err(status) => status,
    }
}

// Does what the words ask.
fn work<R: Threads + Wait + Sync>(rt: &R, host: &HostRuntime, words: &[String]) -> Status {
    if let [word] = words {
        match word.as_str() {
            "--help" => return help(host),
            "--runs" => return make(rt, host, None),
            _ => {}
        }
    }
    match read_words(words) {
        Ok(asked) => make(rt, host, Some(&asked)),
        Err(at) => refuse_word(host, at),
    }
}

/// Does what the words of a command line, without the program's name, ask: shows a run over the program that standard input
/// has, makes the runs of the list that it has, or prints what the command says of itself. A line on standard error says why
/// something was refused or failed. Answers the status.
pub fn answer<R: Threads + Wait + Sync>(rt: &R, host: &HostRuntime, words: &[String]) -> Status {
    let status = work(rt, host, words);
    say(host, fixed_text(status));
    status
}
