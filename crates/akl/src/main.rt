//! The command `akl`: runs a query over the program on standard input.
#![tactic(auto)]

mod command;
mod ending;
mod notice;

use crate::ending::Ending;
use akl_outside::{StreamSink, StreamSource};
use std::env;

fn main(rt: HostRuntime) -> Ending {
    let mut program = StreamSource::new(rt.stdin());
    let mut out = StreamSink::new(rt.stdout());
    let mut errors = StreamSink::new(rt.stderr());
    command::run(
        &rt,
        rt.alloc(),
        env::args(&rt),
        &mut program,
        &mut out,
        &mut errors,
    )
}
