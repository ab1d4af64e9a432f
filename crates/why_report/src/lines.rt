//! What a root box waits on, as text.

ghost use Rattle.std.specs.Prelude.{◌≡◌, IfOk, OnOk, MatchOption};
ghost use Rattle.akl_terms.specs.Equal.{IsConsistentBy};
ghost use Rattle.rational_unify.specs.Known.{IsSolved};
ghost use Rattle.local_store.specs.Chained.{ToldBy};
ghost use Rattle.why_report.specs.Waits.{value_of, values};
ghost use Rattle.why_report.specs.Texts.{variable_text, AreTexts, IsOnText, IsGoalLine, AreWaitingLines};
ghost use Rattle.why_report.specs.Written.{IsEndText, IsChainText, Adds};

use crate::waiting::Waiting;
use akl_terms::{ShownTerm, Templates, Var};
use line_text::{push_name, push_number, push_text};
use local_store::{Chain, take_stores};
use rational_unify::{AddedBindings, Form, Lookup, end_variable, variable_end};
use std::alloc::{AllocError, Global};

/// The lines of a root box that waits: `waiting` and its number, then for each goal its name and the variables on which
/// it waits, or `nothing`. A variable is written as the first shown term is named that is equal to it under the equations
/// of the chain, else as its frame's name, `:` and its index. Of a variable that these equations make structured nothing is
/// promised. An `Err` is want of memory.
pub fn why_lines(
    alloc: Global,
    number: usize,
    chain: &Chain,
    shown: &[ShownTerm],
    waiting: &[Waiting],
) -> Result<Vec<u8>, AllocError>
    requires { IsConsistentBy (ToldBy chain.now.nodes chain.now.stores) }
    ensures { IfOk result (λ text. AreWaitingLines (IsChainText chain.now.nodes chain.now.stores shown.now) number (values waiting.now) text.items) }
{
    let templates = chain.templates();
    let known = chain.known();
    let base = chain.outer(known);
    let mut form = Form {
        known: &base,
        added: AddedBindings::new(alloc),
    };
    match take_stores(alloc, templates, &mut form, &chain.stores()[known..])? {
        // Not where the chain is consistent.
        Some(_) => unreachable!(),
        None => lines_of(alloc, number, templates, &form, shown, waiting),
    }
}

// The same over a solved form.
fn lines_of<W: Lookup>(
    alloc: Global,
    number: usize,
    templates: &Templates,
    whole: &W,
    shown: &[ShownTerm],
    waiting: &[Waiting],
) -> Result<Vec<u8>, AllocError>
    requires { IsSolved templates.now.nodes (W.bindings whole.now) }
    ensures { IfOk result (λ text. AreWaitingLines (IsEndText templates.now.nodes (W.bindings whole.now) shown.now) number (values waiting.now) text.items) }
{
    let mut text = Vec::new(alloc);
    push_text(&mut text, "waiting ")?;
    push_number(&mut text, number as u64)?;
    push_text(&mut text, "\n")?;
    push_goals(&mut text, templates, whole, shown, waiting)?;
    Ok(text)
}

// Adds a line for each goal.
fn push_goals<W: Lookup>(
    text: &mut Vec<u8>,
    templates: &Templates,
    whole: &W,
    shown: &[ShownTerm],
    waiting: &[Waiting],
) -> Result<(), AllocError>
    requires { IsSolved templates.now.nodes (W.bindings whole.now) }
    ensures { OnOk result (Adds (AreTexts (IsGoalLine (IsEndText templates.now.nodes (W.bindings whole.now) shown.now)) (values waiting.now)) text.old.items text.new.items) }
{
    for goal in waiting {
        push_goal(text, templates, whole, shown, goal)?;
    }
    Ok(())
}

// Adds the line of a goal.
fn push_goal<W: Lookup>(
    text: &mut Vec<u8>,
    templates: &Templates,
    whole: &W,
    shown: &[ShownTerm],
    waiting: &Waiting,
) -> Result<(), AllocError>
    requires { IsSolved templates.now.nodes (W.bindings whole.now) }
    ensures { OnOk result (Adds (IsGoalLine (IsEndText templates.now.nodes (W.bindings whole.now) shown.now) (value_of waiting.now)) text.old.items text.new.items) }
{
    push_text(text, "goal ")?;
    push_name(text, waiting.goal)?;
    push_text(text, " on ")?;
    push_variables(text, templates, whole, shown, waiting.on.as_slice())?;
    push_text(text, "\n")
}

// Adds variables with `, ` between, or `nothing`.
fn push_variables<W: Lookup>(
    text: &mut Vec<u8>,
    templates: &Templates,
    whole: &W,
    shown: &[ShownTerm],
    on: &[Var],
) -> Result<(), AllocError>
    requires { IsSolved templates.now.nodes (W.bindings whole.now) }
    ensures { OnOk result (Adds (IsOnText (IsEndText templates.now.nodes (W.bindings whole.now) shown.now) on.now) text.old.items text.new.items) }
{
    let Some((first, others)) = on.split_first() else {
        return push_text(text, "nothing");
    };
    push_variable(text, templates, whole, shown, *first)?;
    for variable in others {
        push_text(text, ", ")?;
        push_variable(text, templates, whole, shown, *variable)?;
    }
    Ok(())
}

// Adds a variable.
fn push_variable<W: Lookup>(
    text: &mut Vec<u8>,
    templates: &Templates,
    whole: &W,
    shown: &[ShownTerm],
    variable: Var,
) -> Result<(), AllocError>
    requires { IsSolved templates.now.nodes (W.bindings whole.now) }
    ensures { OnOk result (Adds (IsEndText templates.now.nodes (W.bindings whole.now) shown.now variable) text.old.items text.new.items) }
{
    if let Some(term) = first_equal(templates, whole, shown, variable) {
        return push_text(text, term.name.as_str());
    }
    push_name(text, variable.frame)?;
    push_text(text, ":")?;
    push_number(text, variable.index as u64)
}

// The first shown term whose chain ends in the variable in which that of a variable ends.
fn first_equal<'a, W: Lookup>(
    templates: &Templates,
    whole: &W,
    shown: &'a [ShownTerm],
    variable: Var,
) -> Option<&'a ShownTerm>
    requires { IsSolved templates.now.nodes (W.bindings whole.now) }
    ensures { MatchOption result
        (IsEndText templates.now.nodes (W.bindings whole.now) shown.now variable (variable_text variable))
        (λ term. IsEndText templates.now.nodes (W.bindings whole.now) shown.now variable term.now.name) }
{
    let end = variable_end(templates, whole, variable)?;
    for term in shown {
        if end_variable(templates, whole, term.term) == Some(end) {
            return Some(term);
        }
    }
    None
}
