//! A walk over variables, through what a store binds and through all subterms.

ghost use Rattle.std.specs.Prelude.{◌≡◌, ◌+◌, ◌≤◌, [], true, IfOk};
ghost use Rattle.akl_terms.specs.Template.{tree, trees_from};
ghost use Rattle.akl_terms.specs.declared.term.Term.TheVariants.{Mol};
ghost use Rattle.constraint_laws.specs.Touched.{IsAmong};
ghost use Rattle.reached_ends.specs.Leading.{StandsIn, StandsAmong};
ghost use Rattle.reached_ends.specs.Walks.{state_of, waiting_too, weight, Comes, ComesFrom, Goes};

use akl_terms::{Name, Seen, Templates, Term, Var};
use local_store::Store;
use std::alloc::{AllocError, Global};

/// The variables that were reached, those of them that a store leaves unbound, the terms whose variables come next, and how
/// many more are reached at most.
#[derive(Drop)]
pub(crate) struct Walk {
    pub(crate) reached: Vec<Var>,
    pub(crate) ends: Vec<Var>,
    pub(crate) waiting: Vec<Term>,
    left: usize,
}

impl Walk {
    // A walk that has come nowhere.
    pub(crate) fn new(alloc: Global, most: usize) -> Walk
        ensures reached { result.reached.items ≡ [] }
        ensures ends { result.ends.items ≡ [] }
        ensures waiting { result.waiting.items ≡ [] }
    {
        Walk {
            reached: Vec::new(alloc),
            ends: Vec::new(alloc),
            waiting: Vec::new(alloc),
            left: most,
        }
    }

    // A variable is reached, through a store. Answers whether it may be.
    pub(crate) fn reach(&mut self, root: &Store, variable: Var) -> Result<bool, AllocError>
        ensures goes { IfOk result (λ _. (nodes : _) → Goes nodes root.now.bindings (state_of self.old) (state_of self.new)) }
        ensures from { IfOk result (λ _. (nodes : _) → ComesFrom nodes root.now.bindings (λ x. x ≡ variable) (state_of self.old) (state_of self.new)) }
        ensures reached { IfOk result (λ fits. fits ≡ true → IsAmong variable self.new.reached.items) }
        ensures weight { IfOk result (λ _. weight self.new ≤ weight self.old) }
    {
        if self.reached.contains(&variable) {
            return Ok(true);
        }
        if self.left == 0 {
            return Ok(false);
        }
        self.left -= 1;
        self.reached.push(variable)?;
        match root.first_binding(variable) {
            Some(term) => self.waiting.push(term)?,
            None => self.ends.push(variable)?,
        }
        Ok(true)
    }

    // So many neighbouring nodes under a frame wait. Answers whether they may.
    fn spread(&mut self, first: u32, count: u32, frame: Name) -> Result<bool, AllocError>
        ensures goes { IfOk result (λ _. (nodes bindings : _) → Goes nodes bindings (state_of self.old) (state_of self.new)) }
        ensures from { IfOk result (λ _. (nodes bindings : _) → ComesFrom nodes bindings (λ x. StandsAmong x (trees_from (λ k. tree nodes (Mol k frame)) first count)) (state_of self.old) (state_of self.new)) }
        ensures comes { IfOk result (λ fits. fits ≡ true → (nodes : _) (x : _) → StandsAmong x (trees_from (λ k. tree nodes (Mol k frame)) first count) → Comes nodes (state_of self.new) x) }
        ensures weight { IfOk result (λ _. weight self.new ≤ weight self.old) }
    {
        let places = count as usize;
        if places > self.left {
            return Ok(false);
        }
        self.left -= places;
        for index in 0..count {
            let node = node_after(first, index)?;
            self.waiting.push(Term::Mol { node, frame })?;
        }
        Ok(true)
    }

    // The variables of a term are reached, or wait. Answers whether they may.
    fn take(&mut self, templates: &Templates, root: &Store, term: Term) -> Result<bool, AllocError>
        ensures goes { IfOk result (λ fits. fits ≡ true → Goes templates.now.nodes root.now.bindings (waiting_too term (state_of self.old)) (state_of self.new)) }
        ensures from { IfOk result (λ _. ComesFrom templates.now.nodes root.now.bindings (λ x. StandsIn x (tree templates.now.nodes term)) (state_of self.old) (state_of self.new)) }
        ensures weight { IfOk result (λ _. weight self.new ≤ weight self.old) }
    {
        match templates.look(term) {
            Seen::Free(variable) => self.reach(root, variable),
            Seen::Struct {
                first,
                count,
                frame,
                ..
            } => self.spread(first, count, frame),
            Seen::Int(_) | Seen::Port(_) => Ok(true),
        }
    }

    // All that waits is reached. Answers whether it may be.
    pub(crate) fn finish(&mut self, templates: &Templates, root: &Store) -> Result<bool, AllocError>
        ensures goes { IfOk result (λ fits. fits ≡ true → Goes templates.now.nodes root.now.bindings (state_of self.old) (state_of self.new)) }
        ensures from { IfOk result (λ fits. fits ≡ true → ComesFrom templates.now.nodes root.now.bindings (λ _. ⊥) (state_of self.old) (state_of self.new)) }
        ensures all { IfOk result (λ fits. fits ≡ true → self.new.waiting.items ≡ []) }
    {
        while let Some(term) = self.waiting.pop() {
            if !self.take(templates, root, term)? {
                return Ok(false);
            }
        }
        Ok(true)
    }
}

// The node so many after the first. No program has as many nodes as there are numbers.
fn node_after(first: u32, index: u32) -> Result<u32, AllocError>
    ensures { IfOk result (λ node. node ≡ first + index) }
{
    first.checked_add(index).ok_or(AllocError)
}
