//! What a place comes to next, or what it waits for.

use crate::page::Page;
use crate::scene::Scene;
use akl_terms::{Seen, Var};
use place_steps::Next;
use std::collections::BTreeSet;

/// What a place comes to at which a rule applies, in the order of the rules.
const READY: [&str; 10] = [
    ", can be told",
    ", can fork",
    ", can be computed",
    ", can open a port",
    ", can send",
    ", fails",
    ", can cut",
    ", can promote",
    ", can split",
    ", can collect",
];

// Adds the name of a variable to a set.
fn add_name(scene: &Scene<'_>, page: &mut Page, names: &mut BTreeSet<Vec<u8>>, variable: Var) {
    let mut name = Page::new(page.alloc());
    scene.push_variable(&mut name, variable);
    match name.into_text() {
        Some(text) => {
            if names.insert(text).is_err() {
                page.lack();
            }
        }
        None => page.lack(),
    }
}

// Adds for which variables a place waits.
fn push_names(page: &mut Page, names: &BTreeSet<Vec<u8>>) {
    let mut is_first = true;
    for name in names {
        page.push(if is_first { ", waits for " } else { ", " });
        page.push_bytes(name);
        is_first = false;
    }
}

// Adds what a place waits for, each variable to which these are bound once, in the order of their names.
fn push_waits(scene: &Scene<'_>, page: &mut Page, on: &[Var]) {
    let mut names = BTreeSet::new(page.alloc());
    for variable in on {
        if let Seen::Free(end) = scene.follow(Seen::Free(*variable)) {
            add_name(scene, page, &mut names, end);
        }
    }
    push_names(page, &names);
}

/// Adds what comes next at a place; what it waits for, where no rule applies there. Nothing is added of a place that waits for no
/// variable.
pub fn push_state(scene: &Scene<'_>, page: &mut Page, next: &Next) {
    match next {
        Next::Plan(plan) => page.push(READY[plan.label().rule as usize]),
        Next::Idle(idle) => push_waits(scene, page, idle.on()),
    }
}
