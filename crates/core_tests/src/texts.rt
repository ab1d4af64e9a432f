//! Places, items, rules, a commit and a journal as texts.

use akl_model::{Item, Label, Receipt, Rule};
use akl_run::trace_line;
use akl_terms::{Name, Place};
use std::alloc::{AllocError, Global};
use std::fmt::Write;
use std::str::from_utf8;
use step_commit::CommitError;

// A kind, a blank and a name.
fn push_named(text: &mut String, kind: &str, name: Name) -> Result<(), AllocError> {
    write!(text, "{kind} {}.{}", name.worker, name.number)
}

/// A place.
pub fn push_place(text: &mut String, place: Place) -> Result<(), AllocError> {
    match place {
        Place::Goal(name) => push_named(text, "goal", name),
        Place::Box(name) => push_named(text, "box", name),
    }
}

/// An item; of a binding only the variable's frame.
pub fn push_item(text: &mut String, item: Item) -> Result<(), AllocError> {
    match item {
        Item::Store(name) => push_named(text, "store", name),
        Item::Goals(name) => push_named(text, "goals", name),
        Item::Goal(name) => push_named(text, "goal", name),
        Item::Binding(variable) => push_named(text, "binding", variable.frame),
        Item::Roots => text.push_str("roots"),
    }
}

/// The name of a rule, as in a trace.
pub fn rule_name(rule: Rule) -> &'static str {
    match rule {
        Rule::Tell => "tell",
        Rule::Fork => "fork",
        Rule::Eval => "eval",
        Rule::Open => "open",
        Rule::Send => "send",
        Rule::Fail => "fail",
        Rule::Cut => "cut",
        Rule::Promote => "promote",
        Rule::Split => "split",
        Rule::Collect => "collect",
    }
}

/// A label that was committed.
pub fn push_receipt(text: &mut String, receipt: Receipt) -> Result<(), AllocError> {
    write!(text, "at {}, seen {}", receipt.at, receipt.seen)
}

/// Why a plan wasn't committed; want of memory is answered.
pub fn push_refused(text: &mut String, error: CommitError) -> Result<(), AllocError> {
    match error {
        CommitError::Memory(error) => Err(error),
        CommitError::Spent { budget: _ } => text.push_str("spent"),
        CommitError::Short { left } => write!(text, "room for {left}"),
        CommitError::Stale { item, stamp } => {
            push_item(text, item)?;
            match stamp {
                Some(number) => write!(text, " changed by {number}"),
                None => text.push_str(" is gone"),
            }
        }
    }
}

// A line of a trace.
fn push_line(text: &mut String, line: &[u8]) -> Result<(), AllocError> {
    match from_utf8(line) {
        Ok(line) => write!(text, " / {}", line.trim_end()),
        Err(_) => text.push_str(" / no text"),
    }
}

/// The labels of a journal, as in a trace.
pub fn push_journal(alloc: Global, text: &mut String, journal: &[Label]) -> Result<(), AllocError> {
    let mut at: u64 = 0;
    for label in journal {
        at += 1;
        let line = trace_line(alloc, at, label)?;
        push_line(text, line.as_slice())?;
    }
    Ok(())
}
