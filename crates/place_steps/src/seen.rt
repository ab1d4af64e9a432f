//! What a worker saw of a place, enough to tell what comes next there.

ghost use Rattle.std.specs.Prelude.{◌≡◌, true, IfOk};
ghost use Rattle.akl_terms.specs.declared.name.Place.{Place};
ghost use Rattle.box_tree.specs.Tables.{table_of};
ghost use Rattle.box_tree.specs.Insides.{IsCandidateOf};
ghost use Rattle.place_steps.specs.Seen.{view_in, IsSight, IsCandidateAt, IsSeen, IsSeenBy, IsStillIn};

use akl_terms::{Name, Place};
use box_tree::{InnerBox, Inside, LookError, View};
use std::alloc::{AllocError, Global};
use step_commit::Core;

/// What a worker saw of a place.
#[derive(Drop)]
pub enum Seen {
    /// A goal.
    Goal {
        goal: Name,
        view: View,
    },
    /// A root box at which no choice could be split. What stands inside it isn't seen.
    Root {
        view: View,
    },
    /// A root box that could be split at this alternative, with all boxes inside it, of which it is known that no place
    /// inside it is ready.
    Still {
        view: View,
        boxes: Vec<InnerBox>,
        alternative: Name,
    },
    /// Another box, with all that stands inside it, the alternative at which it could be split, and whether it is known that
    /// no place inside it is ready.
    Box {
        view: View,
        inside: Inside,
        alternative: Option<Name>,
        still: bool,
    },
}

impl Seen {
    /// The view of the place.
    pub fn view(&self) -> &View
        ensures { result.now ≡ view_in self.now }
    {
        match self {
            Seen::Goal { view, .. } | Seen::Root { view } => view,
            Seen::Still { view, .. } | Seen::Box { view, .. } => view,
        }
    }
}

/// What a worker sees of a place, for which the alternative is given at which it could be split, if it is a box. `None`
/// exactly where the place isn't there. An `Err` is want of memory.
///
/// Of a root box without a choice that could be split, it costs a look at the box alone, and of another box a look at all
/// that stands inside it.
pub fn see(
    alloc: Global,
    core: &Core,
    place: Place,
    worker: u32,
    alternative: Option<Name>,
) -> Result<Option<Seen>, AllocError>
    requires { IsCandidateAt core.now place alternative }
    ensures { IfOk result (IsSeenBy core.now place worker) }
{
    see_as(alloc, core, place, worker, alternative, false)
}

/// The same of a place of which it is known that no place inside it is ready, so that none is planned for a split.
pub fn see_still(
    alloc: Global,
    core: &Core,
    place: Place,
    worker: u32,
    alternative: Option<Name>,
) -> Result<Option<Seen>, AllocError>
    requires candidate { IsCandidateAt core.now place alternative }
    requires still { IsStillIn core.now place }
    ensures { IfOk result (IsSeenBy core.now place worker) }
{
    see_as(alloc, core, place, worker, alternative, true)
}

// The same, and whether it is known that no place inside is ready.
fn see_as(
    alloc: Global,
    core: &Core,
    place: Place,
    worker: u32,
    alternative: Option<Name>,
    still: bool,
) -> Result<Option<Seen>, AllocError>
    requires candidate { IsCandidateAt core.now place alternative }
    requires still { still ≡ true → IsStillIn core.now place }
    ensures { IfOk result (IsSeenBy core.now place worker) }
{
    let view = match core.look(alloc, place, worker) {
        Ok(view) => view,
        Err(LookError::Gone) => return Ok(None),
        Err(LookError::Memory(error)) => return Err(error),
    };
    match place {
        Place::Goal(goal) => Ok(Some(Seen::Goal { goal, view })),
        Place::Box(name) => {
            let seen = see_box(alloc, core, name, worker, view, alternative, still)?;
            Ok(Some(seen))
        }
    }
}

// What a worker sees of a box of which it has a view, and the alternative at which it could be split.
fn see_box(
    alloc: Global,
    core: &Core,
    name: Name,
    worker: u32,
    view: View,
    alternative: Option<Name>,
    still: bool,
) -> Result<Seen, AllocError>
    requires sight { IsSight core.now (Place.Box name) worker view }
    requires candidate { IsCandidateOf (table_of core.now.table) name alternative }
    requires still { still ≡ true → IsStillIn core.now (Place.Box name) }
    ensures seen { IfOk result IsSeen }
    ensures sight { IfOk result (λ seen. IsSight core.now (Place.Box name) worker (view_in seen)) }
{
    if view.path().len() == 1 {
        match alternative {
            None => return Ok(Seen::Root { view }),
            Some(alternative) if still => {
                let boxes = core.boxes_inside(alloc, name)?;
                return Ok(Seen::Still {
                    view,
                    boxes,
                    alternative,
                });
            }
            Some(_) => {}
        }
    }
    let inside = core.look_inside(alloc, name, worker)?;
    Ok(Seen::Box {
        view,
        inside,
        alternative,
        still,
    })
}
