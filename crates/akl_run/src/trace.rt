//! The lines of a trace.

ghost use Rattle.std.specs.Prelude.{◌≡◌, ◌++◌, IfOk, OnOk};
ghost use Rattle.akl_run.specs.Traces.{rule_text, place_text, alternative_text, trace_line};

use akl_model::{Label, Rule};
use akl_terms::{Name, Place};
use line_text::{push_name, push_number, push_text};
use std::alloc::{AllocError, Global};

fn rule_text(rule: Rule) -> &'static str
    ensures { result.now ≡ rule_text rule }
{
    match rule {
        Rule::Tell => "tell",
        Rule::Fork => "fork",
        Rule::Eval => "eval",
        Rule::Open => "open",
        Rule::Send => "send",
        Rule::Fail => "fail",
        Rule::Cut => "cut",
        Rule::Promote => "promote",
        Rule::Split => "split",
        Rule::Collect => "collect",
    }
}

fn push_place(line: &mut Vec<u8>, place: Place) -> Result<(), AllocError>
    ensures { OnOk result (line.new.items ≡ line.old.items ++ place_text place) }
{
    match place {
        Place::Goal(name) => {
            push_text(line, " goal ")?;
            push_name(line, name)
        }
        Place::Box(name) => {
            push_text(line, " box ")?;
            push_name(line, name)
        }
    }
}

fn push_alternative(line: &mut Vec<u8>, alternative: Option<Name>) -> Result<(), AllocError>
    ensures { OnOk result (line.new.items ≡ line.old.items ++ alternative_text alternative) }
{
    if let Some(name) = alternative {
        push_text(line, " of ")?;
        push_name(line, name)?;
    }
    Ok(())
}

/// The line of a label that is the one of this number in its journal, counted from 1.
pub fn trace_line(alloc: Global, at: u64, label: &Label) -> Result<Vec<u8>, AllocError>
    ensures { IfOk result (λ line. line.items ≡ trace_line at label.now) }
{
    let mut line = Vec::new(alloc);
    push_text(&mut line, "step ")?;
    push_number(&mut line, at)?;
    push_text(&mut line, " ")?;
    push_text(&mut line, rule_text(label.rule))?;
    push_place(&mut line, label.place)?;
    push_alternative(&mut line, label.alternative)?;
    push_text(&mut line, " by ")?;
    push_number(&mut line, label.worker as u64)?;
    push_text(&mut line, "\n")?;
    Ok(line)
}
