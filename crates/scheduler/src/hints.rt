//! Goals that come sooner once a variable is bound.

use crate::waiting::Added;
use akl_terms::{Name, Var};
use box_tree::Plan;
use smallvec::SmallVec;
use std::alloc::{AllocError, Global};
use std::cmp::Reverse;
use std::collections::BTreeMap;

/// Goals that come as ordinary places once a variable is bound, if they are still open then. Order alone hangs on them.
#[derive(Drop)]
pub(crate) struct Hints {
    alloc: Global,
    // Younger variables stand first, as most look-ups are for them.
    goals: BTreeMap<Reverse<Var>, SmallVec<Name, 2>>,
    count: usize,
}

impl Hints {
    pub(crate) fn new(alloc: Global) -> Hints {
        Hints {
            alloc,
            goals: BTreeMap::new(alloc),
            count: 0,
        }
    }

    /// A goal comes sooner once this variable is bound. Where as many hints as this are kept, these are forgotten: goals that
    /// have gone are among them.
    pub(crate) fn add(&mut self, variable: Var, goal: Name, most: usize) -> Result<(), AllocError> {
        if self.count >= most {
            self.goals.clear();
            self.count = 0;
        }
        self.push(variable, goal)?;
        self.count = self.count.saturating_add(1);
        Ok(())
    }

    /// The goals that come sooner as this variable is bound. They are kept no more.
    pub(crate) fn take(&mut self, variable: Var) -> Option<SmallVec<Name, 2>> {
        let goals = self.goals.remove(&Reverse(variable))?;
        self.count = self.count.saturating_sub(goals.len());
        Some(goals)
    }

    /// The variables that a plan, which adds this to a store, binds to something else and of which a goal waits for it.
    pub(crate) fn bound_by(
        &self,
        added: Option<Added>,
        plan: &Plan,
    ) -> Result<Vec<Var>, AllocError> {
        let mut bound = Vec::new(self.alloc);
        if self.goals.is_empty() {
            return Ok(bound);
        }
        // A variable to which others are made equal isn't bound by that.
        let Some(added) = added else {
            return Ok(bound);
        };
        for variable in plan.binds() {
            if self.goals.contains_key(&Reverse(*variable)) && added.binds(*variable) {
                bound.push(*variable)?;
            }
        }
        Ok(bound)
    }

    // One more goal comes sooner once this variable is bound.
    fn push(&mut self, variable: Var, goal: Name) -> Result<(), AllocError> {
        if let Some(goals) = self.goals.get_mut(&Reverse(variable)) {
            goals.push(goal)?;
            return Ok(());
        }
        let mut goals = SmallVec::new(self.alloc);
        goals.push(goal)?;
        self.goals.insert(Reverse(variable), goals)?;
        Ok(())
    }
}

/// As many hints are kept where so many places are open.
pub(crate) fn most_hints(open: usize) -> usize {
    open.saturating_mul(4)
}
