//! A step in the words of the source.

use crate::goals::{push_at, push_box, push_goal};
use crate::origins::Origin;
use crate::page::Page;
use crate::scene::Scene;
use crate::terms::{push_node, push_term};
use akl_model::{Label, Rule};
use akl_terms::{Code, Goal, Name, Place};
use box_tree::{HeldOp, Plan, Sight, Step, View};
use local_store::{Chain, Consistency, consistent};

// Adds of what the sentence of a label tells: the alternative of a cut or a promotion, or what stands at the place.
fn push_subject(scene: &Scene<'_>, page: &mut Page, label: Label, sight: Sight) {
    match label.place {
        Place::Box(name) => push_box(&scene.outside(), page, name),
        Place::Goal(goal) => match label.alternative {
            Some(alternative) => {
                if let Rule::Cut = label.rule {
                    page.push("the guard of ");
                }
                push_box(scene, page, alternative);
            }
            None => push_at(scene, page, goal, sight),
        },
    }
}

// Adds what came of a goal by which its box was told something.
fn push_told(scene: &Scene<'_>, page: &mut Page, goal: &Goal) {
    let (text, node) = match goal.code {
        Code::Arith { left, .. } => (" gives ", left),
        Code::OpenPort { port, .. } => (" makes ", port),
        Code::Send { .. } => return page.push(" puts the message at the end of the stream"),
        _ => return page.push(" is told"),
    };
    page.push(text);
    push_node(scene, page, node, goal.frame);
}

// Adds which two terms of the box clash, where some do.
fn push_clash(scene: &Scene<'_>, page: &mut Page) {
    let chain = Chain::new(&scene.setting.program().templates, scene.stores);
    match consistent(page.alloc(), &chain) {
        Ok(Consistency::Clash { left, right }) => {
            page.push(": ");
            push_term(scene, page, left);
            page.push(" isn't ");
            push_term(scene, page, right);
        }
        Ok(_) => {}
        Err(_) => page.lack(),
    }
}

// Adds that the box fails, and why: the terms that clash, or the goal by which it fails.
fn push_fail(scene: &Scene<'_>, page: &mut Page, sight: Sight) {
    page.push(" fails");
    let Sight::Box {
        failing: Some(goal),
    } = sight
    else {
        return push_clash(scene, page);
    };
    match scene.origins.of(goal) {
        Some(Origin::Call { call, .. }) => {
            page.push(": no alternative is left of ");
            push_goal(scene, page, &call);
        }
        _ => page.push(": it has the goal fail"),
    }
}

// Adds what comes of so many alternatives that join the box: the list of what was collected, or that one is promoted.
fn push_joined(scene: &Scene<'_>, page: &mut Page, sight: Sight, count: usize) {
    match sight {
        Sight::Choice {
            op: HeldOp::Collect(list),
        } => {
            page.push(" has ");
            page.push_number(count as i128);
            page.push(" solutions: ");
            push_term(scene, page, list);
        }
        _ => page.push(" is promoted"),
    }
}

// Adds what the box keeps that is split at the alternative of a label, and what its copy has.
fn push_split(scene: &Scene<'_>, page: &mut Page, label: Label, copy: Name) {
    page.push(" is split: it keeps ");
    if let Some(alternative) = label.alternative {
        push_box(scene, page, alternative);
    }
    page.push(", and its copy ");
    page.push_name(copy);
    page.push(" has the others");
}

// Adds what comes of the step of a plan, with what is known after it.
fn push_outcome(after: &Scene<'_>, page: &mut Page, view: &View, plan: &Plan) {
    let sight = view.sight();
    let text = match plan.step() {
        Step::Tell { .. } => {
            if let Sight::Atom(goal) = sight {
                push_told(after, page, &goal);
            }
            return;
        }
        Step::Fork {
            op: HeldOp::Collect(_),
            ..
        } => " begins to collect",
        Step::Fork { alternatives, .. } => {
            page.push(" becomes a choice of ");
            page.push_number(alternatives.len() as i128);
            if alternatives.len() == 1 {
                " alternative"
            } else {
                " alternatives"
            }
        }
        Step::Confirm => " holds",
        Step::Refute => " doesn't hold",
        Step::Fail => return push_fail(after, page, sight),
        Step::Cut => match sight {
            Sight::Choice {
                op: HeldOp::Condition,
            } => " holds, and those to its right go",
            _ => " holds, and all others go",
        },
        Step::Join { .. } => return push_joined(after, page, sight, view.alternatives().len()),
        Step::Split { copy, .. } => return push_split(after, page, plan.label(), *copy),
    };
    page.push(text);
}

// Adds in which box a goal stands, unless it is the query's first one.
fn push_around(scene: &Scene<'_>, page: &mut Page, view: &View) {
    if let (Place::Goal(_), Some(name)) = (view.place(), view.path().last()) {
        if *name != Name::default() {
            page.push(", in ");
            push_box(&scene.outside(), page, *name);
        }
    }
}

// Adds the goals that come.
fn push_coming(after: &Scene<'_>, page: &mut Page, goals: &[(Name, Goal)]) {
    let mut before = "; now ";
    for (_, goal) in goals {
        page.push(before);
        push_goal(after, page, goal);
        before = ", ";
    }
}

/// Adds the sentence of a plan that was made of a view, from what is known before its step.
pub fn push_sentence<'a>(scene: &Scene<'a>, page: &mut Page, view: &View, plan: &'a Plan) {
    push_subject(scene, page, plan.label(), view.sight());
    let (after, goals): (Scene<'a>, &'a [(Name, Goal)]) = match plan.step() {
        Step::Tell { part, .. } => (scene.with(part), &[]),
        Step::Join { part, goals, .. } => (scene.with(part), goals),
        _ => (*scene, &[]),
    };
    push_outcome(&after, page, view, plan);
    push_around(scene, page, view);
    push_coming(&after, page, goals);
}
