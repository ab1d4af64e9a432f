//! The answer to one query.

ghost use Rattle.std.specs.Prelude.{◌≡◌, ◌≤◌, ◌⊎◌, IfOk, IfErr, length};
ghost use Rattle.box_tree.specs.Tables.{HasVariables, HasShownVariables};
ghost use Rattle.akl_run.specs.Stops.{IsStop};
ghost use Rattle.akl_batch.specs.Replies.{IsAnswer, refused_text};
ghost use Rattle.akl_batch.specs.Steps.{AnswersLoaded, IsTakenFrom, SaysWhy, StopsAs};

use crate::reply::{Answer, Reply};
use crate::text_sink::TextSink;
use akl_run::{
    Loaded, Refusal, Report, Status, Stop, answer_alone, load_asked, load_program, push_cause,
};
use akl_syntax::check_query;
use std::alloc::{AllocError, Global};

/// The answer to a query over the program of a text, which is loaded for this query alone.
pub fn answer(alloc: Global, program: &[u8], query: &[u8], budget: u64) -> Result<Answer, Stop>
    requires { length program.now ≤ 1000001 }
    ensures answer { IfOk result (IsAnswer program.now query.now budget) }
    ensures stop { IfErr result (StopsAs program.now) }
{
    if let Err(error) = check_query(query) {
        return Ok(refused(alloc, Refusal::TextOf(error))?);
    }
    let base = load_program(alloc, program)?;
    match load_asked(alloc, base, query) {
        Ok(loaded) => run(alloc, loaded, budget),
        Err(stop) => unloaded(alloc, stop),
    }
}

// The answer to a query that is loaded: it is run by one worker.
fn run(alloc: Global, loaded: Loaded, budget: u64) -> Result<Answer, Stop>
    requires variables { HasVariables loaded.program loaded.query loaded.first_variable }
    requires shown { HasShownVariables loaded.query }
    ensures answer { IfOk result (AnswersLoaded loaded budget) }
    ensures stop { IfErr result (IsStop Status.NoMemory Refusal.Nothing) }
{
    let mut sink = TextSink::new(alloc);
    let report = answer_alone(alloc, loaded, budget, &mut sink)?;
    written(report, sink)
}

// The answer to a query whose text was written whole.
fn written(report: Report, sink: TextSink) -> Result<Answer, Stop>
    ensures answer { IfOk result (IsTakenFrom report sink) }
    ensures stop { IfErr result (IsStop Status.NoMemory Refusal.Nothing) }
{
    let Report {
        status,
        refusal,
        journal,
        receipts: _,
        models: _,
        written: _,
    } = report;
    match status {
        Status::WriteFault | Status::NoMemory => Err(Stop::no_memory()),
        _ => Ok(Answer {
            reply: Reply {
                status,
                refusal,
                journal,
            },
            text: sink.into_bytes(),
        }),
    }
}

// The answer to a query that isn't loaded, unless memory was wanting.
fn unloaded(alloc: Global, stop: Stop) -> Result<Answer, Stop>
    requires { (stop.status ≡ Status.Query) ⊎ IsStop Status.NoMemory Refusal.Nothing stop }
    ensures status { IfOk result (λ _. stop.status ≡ Status.Query) }
    ensures answer { IfOk result (SaysWhy stop.refusal) }
    ensures stop { IfErr result (IsStop Status.NoMemory Refusal.Nothing) }
{
    let Stop { status, refusal } = stop;
    match status {
        Status::Query => Ok(refused(alloc, refusal)?),
        _ => Err(Stop { status, refusal }),
    }
}

// The answer to a query that is refused.
fn refused(alloc: Global, refusal: Refusal) -> Result<Answer, AllocError>
    ensures { IfOk result (SaysWhy refusal) }
{
    let text = refused_text(alloc, &refusal)?;
    Ok(Answer {
        reply: Reply {
            status: Status::Query,
            refusal,
            journal: Vec::new(alloc),
        },
        text,
    })
}

// The line of a query that is refused.
fn refused_text(alloc: Global, refusal: &Refusal) -> Result<Vec<u8>, AllocError>
    ensures { IfOk result (λ text. text.items ≡ refused_text refusal.now) }
{
    let mut text = Vec::from_slice(alloc, b"refused: ")?;
    push_cause(&mut text, refusal)?;
    text.push(b'\n')?;
    Ok(text)
}
