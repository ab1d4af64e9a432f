//! What a box was told, by the names of the source's variables.

use crate::origins::Origin;
use crate::page::Page;
use crate::scene::Scene;
use crate::terms::push_term;
use akl_terms::{Name, Term, Var};
use local_store::{CLASHING, Store};

/// The most bindings of an alternative that are shown.
const MOST_SHOWN: usize = 24;

// Adds a variable and what it is bound to.
fn push_equation(scene: &Scene<'_>, page: &mut Page, variable: Var, term: Term) {
    scene.push_variable(page, variable);
    page.push(" = ");
    push_term(scene, page, term);
}

// Adds a line for each variable of the query that has a value, under this frame.
fn push_query_values(scene: &Scene<'_>, page: &mut Page, depth: usize, frame: Name) {
    let mut index = 0u32;
    for _ in 0..scene.setting.query_names().len() {
        let variable = Var { frame, index };
        if let Some(term) = scene.bound(variable) {
            page.push_line(depth);
            push_equation(scene, page, variable, term);
        }
        index = index.saturating_add(1);
    }
}

/// Adds a line for each variable of the query that a root box gives a value.
pub fn push_values(scene: &Scene<'_>, page: &mut Page, depth: usize, store: &Store) {
    match store.frames() {
        Ok(frames) => {
            for frame in &frames {
                if let Some(Origin::Query) = scene.origins.of(*frame) {
                    push_query_values(scene, page, depth, *frame);
                }
            }
        }
        Err(_) => page.lack(),
    }
}

// Adds a line of those of these bindings that are of the store's own variables, or of those from outside of it.
fn push_bindings(
    scene: &Scene<'_>,
    page: &mut Page,
    depth: usize,
    store: &Store,
    bindings: &[(Var, Term)],
    is_own: bool,
) {
    let first = if is_own { "with " } else { "tells " };
    let mut shown = 0usize;
    for (variable, term) in bindings {
        if *variable != CLASHING && store.has_frame(variable.frame) == is_own {
            if shown == MOST_SHOWN {
                return page.push(", ..");
            }
            page.push_item(depth, first, shown == 0);
            push_equation(scene, page, *variable, *term);
            shown = shown.saturating_add(1);
        }
    }
}

/// Adds a line of what an alternative tells of variables from outside, and one of what it says of its own.
pub fn push_told(scene: &Scene<'_>, page: &mut Page, depth: usize, store: &Store) {
    match store.bindings() {
        Ok(bindings) => {
            push_bindings(scene, page, depth, store, bindings.as_slice(), false);
            push_bindings(scene, page, depth, store, bindings.as_slice(), true);
        }
        Err(_) => page.lack(),
    }
}
