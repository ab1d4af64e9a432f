//! The line that a refused command gets.

ghost use Rattle.std.specs.Prelude.{◌≡◌, ◌++◌, option_map, IfOk, OnOk};
ghost use Rattle.akl_run.specs.Lines.{key_text, kind_of, words_cause, text_cause, loading_cause, cause_of, refused_line, fixed_line, refused_side, refusal_text};

use crate::report::{Refusal, Status};
use akl_args::WordsError;
use akl_syntax::SyntaxError;
use akl_terms::Key;
use answer_text::symbol_text;
use clause_checks::{Limit, LoadError};
use line_text::{push_number, push_text};
use std::alloc::{AllocError, Global};

// The symbol as it is written in an answer, `/`, and the number of arguments.
fn push_key(line: &mut Vec<u8>, key: &Key) -> Result<(), AllocError>
    ensures { OnOk result (line.new.items ≡ line.old.items ++ key_text key.now) }
{
    let alloc = *line.allocator();
    let symbol = symbol_text(alloc, key.symbol.as_str())?;
    line.extend_from_slice(&symbol)?;
    push_text(line, "/")?;
    push_number(line, key.arity as u64)
}

fn kind_of(limit: Limit) -> &'static str
    ensures { result.now ≡ kind_of limit }
{
    match limit {
        Limit::Clauses => "clauses",
        Limit::PerDefinition => "clauses of one definition",
        Limit::Variables => "variables",
        Limit::Arity => "arguments",
    }
}

fn push_words_cause(line: &mut Vec<u8>, error: &WordsError) -> Result<(), AllocError>
    ensures { OnOk result (line.new.items ≡ line.old.items ++ words_cause error.now) }
{
    let (before, at) = match error {
        WordsError::Missing { at } => ("missing at word ", *at),
        WordsError::Unknown { at } => ("unknown at word ", *at),
        WordsError::Value { at } => ("bad value at word ", *at),
        WordsError::Repeated { at } => ("repeated at word ", *at),
        WordsError::Memory(_) => return Ok(()),
    };
    push_text(line, before)?;
    push_number(line, at as u64)
}

fn push_text_cause(line: &mut Vec<u8>, error: &SyntaxError) -> Result<(), AllocError>
    ensures { OnOk result (line.new.items ≡ line.old.items ++ text_cause error.now) }
{
    let (before, number, after) = match error {
        SyntaxError::Syntax { at } => ("syntax at ", *at, ""),
        SyntaxError::TooDeep { at } => ("too deep at ", *at, ""),
        SyntaxError::IntRange { at } => ("integer out of range at ", *at, ""),
        SyntaxError::TooLong { count } => ("too long, ", *count, " bytes"),
        SyntaxError::Memory(_) => return Ok(()),
    };
    push_text(line, before)?;
    push_number(line, number as u64)?;
    push_text(line, after)
}

fn push_loading_cause(line: &mut Vec<u8>, error: &LoadError) -> Result<(), AllocError>
    ensures { OnOk result (line.new.items ≡ line.old.items ++ loading_cause error.now) }
{
    match error {
        LoadError::MixedGuards { key } => {
            push_text(line, "mixed guards in ")?;
            push_key(line, key)
        }
        LoadError::Undefined { key } => {
            push_text(line, "undefined ")?;
            push_key(line, key)
        }
        LoadError::Reserved { key } => {
            push_text(line, "reserved ")?;
            push_key(line, key)
        }
        LoadError::TooMany { what, count } => {
            push_text(line, "too many ")?;
            push_text(line, kind_of(*what))?;
            push_text(line, ", ")?;
            push_number(line, *count as u64)
        }
        LoadError::Memory(_) => Ok(()),
    }
}

/// Adds why a command or a query is refused; nothing where it isn't.
pub fn push_cause(line: &mut Vec<u8>, refusal: &Refusal) -> Result<(), AllocError>
    ensures { OnOk result (line.new.items ≡ line.old.items ++ cause_of refusal.now) }
{
    match refusal {
        Refusal::Words(error) => push_words_cause(line, error),
        Refusal::TextOf(error) => push_text_cause(line, error),
        Refusal::Loading(error) => push_loading_cause(line, error),
        Refusal::Nothing => Ok(()),
    }
}

// The line of words, or of a text, that are refused.
fn refused_line(alloc: Global, side: &str, refusal: &Refusal) -> Result<Vec<u8>, AllocError>
    ensures { IfOk result (λ line. line.items ≡ refused_line side.now refusal.now) }
{
    let mut line = Vec::from_slice(alloc, b"akl: ")?;
    push_text(&mut line, side)?;
    push_text(&mut line, ": ")?;
    push_cause(&mut line, refusal)?;
    push_text(&mut line, "\n")?;
    Ok(line)
}

// What is refused with a status.
fn refused_side(status: Status) -> &'static str
    ensures { result.now ≡ refused_side status }
{
    match status {
        Status::Program => "program",
        Status::Query => "query",
        _ => "words",
    }
}

/// The line for standard error of a status that says all itself, which takes no memory: an empty one for the outcomes of a
/// run. `None` exactly where the refusal says more.
pub fn fixed_line(status: Status) -> Option<&'static str>
    ensures { option_map (λ line. line.now) result ≡ fixed_line status }
{
    match status {
        Status::Words | Status::Program | Status::Query => None,
        Status::ReadFault => Some("akl: read fault\n"),
        Status::WriteFault => Some("akl: write fault\n"),
        Status::NoMemory => Some("akl: out of memory\n"),
        Status::Done | Status::Failed | Status::Suspended | Status::Budget => Some(""),
    }
}

/// The line for standard error of a status and its refusal: nothing at all for the outcomes of a run.
pub fn refusal_line(alloc: Global, status: Status, refusal: &Refusal) -> Result<Vec<u8>, AllocError>
    ensures { IfOk result (λ line. line.items ≡ refusal_text status refusal.now) }
{
    match fixed_line(status) {
        Some(line) => Vec::from_slice(alloc, line.as_bytes()),
        None => refused_line(alloc, refused_side(status), refusal),
    }
}
