//! The steps of a run as they are made once more, told in the words of the source.

use crate::origins::Origins;
use crate::page::Page;
use crate::scene::Scene;
use crate::sentences::push_sentence;
use akl_run::Setting;
use box_tree::{Plan, Sight, Step};
use place_steps::{Next, Onlooker, Seen};
use std::alloc::Global;
use step_commit::Core;

/// What a run begins with, and where all that its steps have made comes from.
#[derive(Drop)]
pub struct Known<'a> {
    pub setting: &'a Setting,
    pub origins: Origins,
}

impl<'a> Known<'a> {
    // What the run begins with, for as long as the origins are lent.
    fn setting(&self) -> &Setting {
        self.setting
    }
}

/// Tells the steps of a run on a page, and learns where all that they make comes from.
#[derive(Drop)]
pub struct Telling<'a> {
    pub known: Known<'a>,
    pub page: Page,
    /// Whether the next step is told.
    pub is_shown: bool,
}

impl<'a> Telling<'a> {
    /// Nothing is told yet of a run that begins there.
    pub fn new(alloc: Global, setting: &'a Setting) -> Telling<'a> {
        Telling {
            known: Known {
                setting,
                origins: Origins::new(alloc),
            },
            page: Page::new(alloc),
            is_shown: true,
        }
    }
}

// Learns where that comes from which a plan makes of a place that was seen.
fn learn(origins: &mut Origins, seen: &Seen, plan: &Plan) {
    match seen {
        Seen::Goal { goal, view } => {
            if let (Sight::Atom(call), Step::Fork { alternatives, .. }) = (
                view.sight(),
                plan.step(),
            ) {
                origins.fork(*goal, call, alternatives);
            }
        }
        Seen::Box { inside, .. } => {
            if let (Some(alternative), Step::Split { copies, .. }) = (
                plan.label().alternative,
                plan.step(),
            ) {
                origins.split(alternative, &inside.boxes, copies);
            }
        }
        Seen::Root { .. } | Seen::Still { .. } => {}
    }
}

// Tells the step of a plan of a place that was seen.
fn tell<'b>(known: &'b Known<'_>, page: &mut Page, seen: &'b Seen, plan: &'b Plan) {
    let view = seen.view();
    let scene = Scene::new(known.setting(), &known.origins, view.stores());
    push_sentence(&scene, page, view, plan);
}

impl<'a> Onlooker for Telling<'a> {
    fn look(&mut self, _core: &Core, seen: &Seen, next: &Next) {
        if let Next::Plan(plan) = next {
            if self.is_shown {
                tell(&self.known, &mut self.page, seen, plan);
            }
            learn(&mut self.known.origins, seen, plan);
        }
    }
}
