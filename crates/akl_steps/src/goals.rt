//! Goals, boxes and places in the words of the source.

use crate::origins::Origin;
use crate::page::Page;
use crate::scene::Scene;
use crate::terms::{push_arguments, push_node};
use akl_terms::{Code, Goal, Name};
use box_tree::Sight;

/// The texts of the relations between two terms, in the order of the tests.
const RELATIONS: [&str; 7] = [" is ", " < ", " > ", " =< ", " >= ", " =:= ", " =\\= "];

// Adds a goal by which a definition is called: of one that the text names, or of one that was made of a choice in brackets or
// collects, with where that stands.
fn push_called(scene: &Scene<'_>, page: &mut Page, goal: &Goal) {
    let Some(definition) = scene.setting.called(goal.code) else {
        return page.push("fail");
    };
    let symbol = definition.key.symbol.as_str();
    match goal.code {
        Code::Collect { result, .. } => {
            page.push("the bagof for ");
            push_node(scene, page, result, goal.frame);
            page.push(" in ");
        }
        Code::Call { first, count, .. } if definition.lifted.is_none() => {
            page.push_constant(symbol);
            return push_arguments(scene, page, first, count, goal.frame);
        }
        _ => page.push("the choice in "),
    }
    if symbol.is_empty() {
        return page.push("the query");
    }
    page.push_constant(symbol);
    page.push("/");
    page.push_number(definition.key.arity as i128);
}

/// Adds a goal with what is known of its variables.
pub fn push_goal(scene: &Scene<'_>, page: &mut Page, goal: &Goal) {
    let (begin, left, between, right) = match goal.code {
        Code::Equal { left, right } => ("", left, " = ", right),
        Code::Arith { test, left, right } => ("", left, RELATIONS[test as usize], right),
        Code::OpenPort { port, stream } => ("open_port(", port, ",", stream),
        Code::Send { message, port } => ("send(", message, ",", port),
        _ => return push_called(scene, page, goal),
    };
    page.push(begin);
    push_node(scene, page, left, goal.frame);
    page.push(between);
    push_node(scene, page, right, goal.frame);
    if !begin.is_empty() {
        page.push(")");
    }
}

/// Adds the goal that stands at a place, or the call that the choice there was.
pub fn push_at(scene: &Scene<'_>, page: &mut Page, place: Name, sight: Sight) {
    if let Sight::Atom(goal) = sight {
        push_goal(scene, page, &goal);
    } else if let Some(Origin::Call { call, .. }) = scene.origins.of(place) {
        push_goal(scene, page, &call);
    }
}

/// Adds `alternative` and the number of its clause, which is counted from 0 here and from 1 there.
pub fn push_ordinal(page: &mut Page, clause: usize) {
    page.push("alternative ");
    page.push_number(clause.saturating_add(1) as i128);
}

/// Adds what a box is: an alternative of a choice, whose call has what is known around the box, or a root box.
pub fn push_box(around: &Scene<'_>, page: &mut Page, name: Name) {
    match around.origins.of(name) {
        Some(Origin::Call { call, clause }) => {
            push_ordinal(page, clause);
            page.push(" of ");
            push_goal(around, page, &call);
        }
        _ => {
            page.push("root box ");
            page.push_name(name);
        }
    }
}
