//! What is needed to write of a place in a box.

use crate::origins::{Origin, Origins};
use crate::page::Page;
use akl_run::Setting;
use akl_terms::{Seen, Term, Var};
use local_store::{Chain, Part, Shared, Store};
use rational_unify::Lookup;

/// The most bindings that are followed from a variable to its value.
const MOST_BINDINGS: usize = 100_000;

/// What is needed to write of a place in a box: what a run begins with, where all that it has made comes from, and what the stores
/// of the box and of those around it say.
#[derive(Clone, Copy)]
pub struct Scene<'a> {
    pub setting: &'a Setting,
    pub origins: &'a Origins,
    /// The stores of the boxes from the root box down to the box itself.
    pub stores: &'a [Shared<Store>],
    /// What is added to the box's own store.
    added: Option<&'a Part>,
}

impl<'a> Scene<'a> {
    /// A place in a box whose stores, from the root box down to its own, are these.
    pub fn new(
        setting: &'a Setting,
        origins: &'a Origins,
        stores: &'a [Shared<Store>],
    ) -> Scene<'a> {
        Scene {
            setting,
            origins,
            stores,
            added: None,
        }
    }

    /// The same for the box around.
    pub fn outside(&self) -> Scene<'a> {
        let around = self.stores.len().saturating_sub(1);
        Scene::new(self.setting, self.origins, &self.stores[..around])
    }

    /// The same once something is added to the box's store.
    pub fn with(&self, part: &'a Part) -> Scene<'a> {
        Scene {
            added: Some(part),
            ..*self
        }
    }

    /// What a variable is bound to by the stores and what is added.
    pub fn bound(&self, variable: Var) -> Option<Term> {
        match Chain::new(&self.setting.program().templates, self.stores).get(variable) {
            Some(term) => Some(term),
            None => self.added?.first_binding(variable),
        }
    }

    /// What is known by the stores: what a variable is bound to, or the last variable of those that are bound to one another.
    pub fn follow(&self, first: Seen) -> Seen {
        let mut seen = first;
        for _ in 0..MOST_BINDINGS {
            let Seen::Free(variable) = seen else {
                return seen;
            };
            let Some(next) = self.bound(variable) else {
                return seen;
            };
            seen = self.setting.program().templates.look(next);
        }
        seen
    }

    /// The text of a symbol.
    pub fn symbol(&self, number: u32) -> &'a str {
        let templates = &self.setting.program().templates;
        if number < templates.symbols() {
            templates.symbol(number)
        } else {
            "?"
        }
    }

    /// Adds the name of a variable: as the query has it, or as a clause has it with `#` and the number of its frame; `_` and its
    /// number where it has none.
    pub fn push_variable(&self, page: &mut Page, variable: Var) {
        let Var { frame, index } = variable;
        let origin = self.origins.of(frame);
        let names = match origin {
            Some(Origin::Query) => self.setting.query_names(),
            Some(Origin::Call { call, clause }) => self.setting.names_in(call.code, clause),
            None => &[],
        };
        match names.get(index as usize) {
            Some(name) if name.as_str() != "_" => page.push(name.as_str()),
            _ => {
                page.push("_");
                page.push_number(index as i128);
            }
        }
        match origin {
            Some(Origin::Query) => {}
            _ => page.push_mark(frame),
        }
    }
}
