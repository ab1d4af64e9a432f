//! Goals that a label wakes though it binds none of the variables on which they wait.

ghost use Rattle.std.specs.Prelude.{◌≡◌, List, option_map};
ghost use Rattle.akl_terms.specs.declared.term.Node.{Node};
ghost use Rattle.local_store.specs.Stored.{is_named, all_named};
ghost use Rattle.box_tree.specs.Tables.{step_of};
ghost use Rattle.scheduler.specs.Listing.{part_of, frames_made, frames_added};

use akl_terms::{Name, Place, Var};
use box_tree::Step;
use local_store::{Part, Store};
use opened_places::Placed;
use std::alloc::{AllocError, Global};
use wake_lists::Waits;

/// A goal with a variable on which it waited until a label made another one equal to this.
#[derive(Clone, Copy)]
pub(crate) struct Waited {
    pub goal: Name,
    pub on: Var,
}

/// A store, and what a step adds to it.
#[derive(Clone, Copy)]
pub(crate) struct Added<'a> {
    pub store: &'a Store,
    pub part: &'a Part,
}

impl<'a> Added<'a> {
    /// Whether the frame is one of the store's own then.
    pub(crate) fn has_frame(self, frame: Name) -> bool
        ensures { result ≡ is_named (all_named self.entry.store.now.frames self.entry.part.now.frames.items) frame }
    {
        self.part.has_frame(frame) || self.store.has_frame(frame)
    }

    /// Whether the variable is bound then.
    pub(crate) fn binds(self, variable: Var) -> bool {
        self.part.first_binding(variable).is_some() || self.store.first_binding(variable).is_some()
    }
}

/// Of these places, which a label wakes, the goals that it doesn't change and whose variables aren't bound by the store of the
/// label's box with what its step adds to it: others were made equal to these, and most often such are of frames that came with
/// the label, so that no rule applies yet. Each comes with each variable on which it waits.
pub(crate) fn still_waiting(
    alloc: Global,
    waits: &Waits,
    added: Option<Added>,
    woken: &[Place],
    changed: &[Placed],
) -> Result<Vec<Waited>, AllocError> {
    let mut waiting = Vec::new(alloc);
    let Some(added) = added else {
        return Ok(waiting);
    };
    for place in woken {
        if let Place::Goal(goal) = *place {
            push_waiting(
                waits.variables_of(*place),
                goal,
                added,
                changed,
                &mut waiting,
            )?;
        }
    }
    Ok(waiting)
}

/// A store with what a step adds to it; `None` where it adds nothing.
pub(crate) fn added_by<'a>(store: &'a Store, step: &'a Step) -> Option<Added<'a>>
    ensures { (nodes : List Node) → frames_added result ≡ frames_made (step_of nodes store.now step.now) }
{
    let part = part_of(step)?;
    Some(Added { store, part })
}

// A goal comes with each of its variables, if none of them is bound and the goal isn't among those that are changed.
fn push_waiting(
    variables: &[Var],
    goal: Name,
    added: Added,
    changed: &[Placed],
    waiting: &mut Vec<Waited>,
) -> Result<(), AllocError> {
    if binds_one(added, variables) || is_changed(goal, changed) {
        return Ok(());
    }
    for on in variables {
        waiting.push(Waited { goal, on: *on })?;
    }
    Ok(())
}

// Whether one of these variables is bound.
fn binds_one(added: Added, variables: &[Var]) -> bool {
    variables.iter().any(|variable| added.binds(*variable))
}

// Whether a goal is among these places.
fn is_changed(goal: Name, changed: &[Placed]) -> bool {
    changed
        .iter()
        .any(|placed| placed.place() == Place::Goal(goal))
}

// What a step adds to the store of its box; `None` where it adds nothing.
fn part_of(step: &Step) -> Option<&Part>
    ensures { option_map (λ part. part.now) result ≡ part_of step.now }
{
    match step {
        Step::Tell { part, .. } | Step::Join { part, .. } => Some(part),
        Step::Fork { .. }
        | Step::Fail
        | Step::Cut
        | Step::Refute
        | Step::Confirm
        | Step::Split { .. } => None,
    }
}
