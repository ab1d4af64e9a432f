//! The command `akl_steps`: shows a run as it goes.
//!
//! What it writes is tested. Only that it is safe and ends is proved.
#![tactic(auto)]

mod command;
mod equations;
mod goals;
mod help;
mod list;
mod origins;
mod page;
mod reading;
mod run;
mod scene;
mod sentences;
mod shown;
mod states;
mod steps;
mod streams;
mod telling;
mod terms;
mod tree;
mod words;

use crate::command::answer;
use std::process::ExitCode;
use std::{env, io};

// The words of the command line behind the program's name.
fn words_given(rt: &HostRuntime) -> io::Result<Vec<String>> {
    let mut words = Vec::new(rt.alloc());
    for word in env::args(rt)?.skip(1) {
        words.push(word)?;
    }
    Ok(words)
}

fn main(rt: HostRuntime) -> ExitCode {
    let status = match words_given(&rt) {
        Ok(words) => answer(&rt, &rt, &words),
        Err(_) => answer(&rt, &rt, &[]),
    };
    ExitCode::from(status.number())
}
