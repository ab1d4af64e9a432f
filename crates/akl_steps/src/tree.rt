//! The boxes and goals of a run as an indented tree.

use crate::equations::{push_told, push_values};
use crate::goals::{push_at, push_goal, push_ordinal};
use crate::origins::{Origin, Origins};
use crate::page::Page;
use crate::scene::Scene;
use crate::states::push_state;
use akl_run::{Replay, Setting};
use akl_terms::{Name, Place};
use box_tree::{HeldOp, InnerBox, Sight, Table};
use place_steps::{Next, Onlooker, Seen};
use std::alloc::{AllocError, Global};
use step_commit::Core;

/// A place whose lines are still to be written, so many levels deep.
#[derive(Clone, Copy)]
struct Entry {
    depth: usize,
    place: Place,
}

// How a choice decides between its alternatives.
fn operator_text(op: HeldOp) -> &'static str {
    match op {
        HeldOp::Condition => ": a choice by ->",
        HeldOp::Commit => ": a choice by |",
        HeldOp::Choice => ": a choice by ?",
        HeldOp::Collect(_) => ": collects",
    }
}

// Adds what a goal is.
fn push_held(scene: &Scene<'_>, page: &mut Page, name: Name, sight: Sight) {
    page.push_name(name);
    page.push(" ");
    push_at(scene, page, name, sight);
    if let Sight::Choice { op } = sight {
        page.push(operator_text(op));
    }
}

// Adds what a box is, and whether its goals are solved.
fn push_kind(scene: &Scene<'_>, page: &mut Page, name: Name, is_solved: bool) {
    page.push_name(name);
    match scene.origins.of(name) {
        Some(Origin::Call { clause, .. }) => {
            page.push(" ");
            push_ordinal(page, clause);
        }
        _ => page.push(" root box"),
    }
    if is_solved {
        page.push(", solved");
    }
}

// Adds the line of the goals that come where the first of these boxes is promoted, if there are some.
fn push_body(scene: &Scene<'_>, page: &mut Page, depth: usize, boxes: &[InnerBox]) {
    let Some(inner) = boxes.first() else {
        return;
    };
    let mut is_first = true;
    for goal in &inner.body {
        page.push_item(depth, "then ", is_first);
        push_goal(scene, page, goal);
        is_first = false;
    }
}

// Adds the lines of what a box was told, and of the goals that come where it is promoted; nothing of a goal.
fn push_contents(scene: &Scene<'_>, page: &mut Page, depth: usize, seen: &Seen) {
    let Some(store) = scene.stores.last() else {
        return;
    };
    match seen {
        Seen::Goal { .. } => {}
        Seen::Box { view, inside, .. } if view.path().len() > 1 => {
            push_told(scene, page, depth, store.get());
            push_body(scene, page, depth, &inside.boxes);
        }
        _ => push_values(scene, page, depth, store.get()),
    }
}

/// Adds the lines of each place that it is shown.
#[derive(Drop)]
struct Listing<'a> {
    setting: &'a Setting,
    origins: &'a Origins,
    page: &'a mut Page,
    /// How many levels deep the next place is.
    depth: usize,
}

impl<'a> Onlooker for Listing<'a> {
    fn look(&mut self, core: &Core, seen: &Seen, next: &Next) {
        let view = seen.view();
        let scene = Scene::new(self.setting, self.origins, view.stores());
        self.page.push_line(self.depth);
        match view.place() {
            Place::Goal(name) => push_held(&scene, self.page, name, view.sight()),
            Place::Box(name) => push_kind(&scene, self.page, name, core.is_solved(name)),
        }
        push_state(&scene, self.page, next);
        push_contents(&scene, self.page, self.depth.saturating_add(1), seen);
    }
}

// Leaves goals or boxes to be written, the first last.
fn leave(
    entries: &mut Vec<Entry>,
    depth: usize,
    names: &[Name],
    are_boxes: bool,
) -> Result<(), AllocError> {
    for name in names.iter().rev() {
        let place = if are_boxes {
            Place::Box(*name)
        } else {
            Place::Goal(*name)
        };
        entries.push(Entry { depth, place })?;
    }
    Ok(())
}

// Leaves what stands in a place to be written: the goals of a box, or the alternatives of a choice.
fn leave_inside(
    alloc: Global,
    table: &Table,
    entries: &mut Vec<Entry>,
    entry: Entry,
) -> Result<(), AllocError> {
    let depth = entry.depth.saturating_add(1);
    match entry.place {
        Place::Goal(goal) => leave(entries, depth, table.alternatives_of(goal), true),
        Place::Box(name) => {
            let goals = table.goals_of(alloc, name)?;
            leave(entries, depth, &goals, false)
        }
    }
}

/// Adds the lines of all boxes and goals of a run, each on a line that is so many levels deep at least: of a box what it was
/// told, of a choice its operator, of an alternative whether its guard is solved, and of each place which rule applies there,
/// or which variables it waits for.
pub fn push_tree(
    replay: &Replay<'_>,
    setting: &Setting,
    origins: &Origins,
    page: &mut Page,
    depth: usize,
) {
    let alloc = page.alloc();
    let mut entries = Vec::new(alloc);
    let mut listing = Listing {
        setting,
        origins,
        page,
        depth,
    };
    let mut done = leave(&mut entries, depth, replay.core().roots(), true);
    for _ in 0..usize::MAX {
        listing.page.note(done);
        let Some(entry) = entries.pop() else {
            return;
        };
        listing.depth = entry.depth;
        let shown = replay.show(alloc, entry.place, &mut listing);
        listing.page.note(shown);
        done = leave_inside(alloc, replay.core().table(), &mut entries, entry);
    }
}
