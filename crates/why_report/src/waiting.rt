//! On which variables the goals of a root box wait.

ghost use Rattle.std.specs.Prelude.{◌≡◌, IfOk};
ghost use Rattle.box_tree.specs.Tables.{all_rules};
ghost use Rattle.akl_model.specs.Derivations.{IsQuietEnd};
ghost use Rattle.step_commit.specs.Cores.{TableIn};
ghost use Rattle.root_answers.specs.Roots.{OfRoot, root_box};
ghost use Rattle.why_laws.specs.Waiting.{AreWaiting};
ghost use Rattle.why_report.specs.Waits.{values, WaitsOn};

use crate::watching::watched_at;
use akl_terms::{Name, Place, Program, Var};
use box_tree::LookError;
use std::alloc::{AllocError, Global};
use step_commit::Core;

/// A goal, and the variables on which it waits: the oldest of each class, in increasing order.
#[derive(Drop)]
pub struct Waiting {
    pub goal: Name,
    pub on: Vec<Var>,
}

/// The goals directly in a root box in increasing order, each with what it waits on, where no place of the configuration
/// is ready. So long as none of these variables is bound or made equal to another one, no equations that are consistent
/// with the box give it a rule. Of a box that isn't a root box nothing is promised. An `Err` is want of memory.
///
/// This costs a solution of the stores down to each place inside the box, as far as they aren't known to be solved.
pub fn why(
    alloc: Global,
    program: &Program,
    core: &Core,
    root: Name,
) -> Result<Vec<Waiting>, AllocError>
    requires program { program.now ≡ core.now.table.program }
    requires quiet { (t : TableIn core.now) → IsQuietEnd all_rules core.now.table.program t.config }
    ensures { IfOk result (λ ws. OfRoot core.now root (λ b gs. AreWaiting core.now.table.program (root_box b gs) (values ws.items))) }
{
    let goals = core.table().goals_of(alloc, root)?;
    let mut list = Vec::new(alloc);
    for goal in goals.as_slice() {
        let waiting = waiting_of(alloc, program, core, *goal)?;
        list.push(waiting)?;
    }
    Ok(list)
}

// A goal, with what it waits on, where it stands directly in a root box.
fn waiting_of(
    alloc: Global,
    program: &Program,
    core: &Core,
    goal: Name,
) -> Result<Waiting, AllocError>
    requires program { program.now ≡ core.now.table.program }
    requires quiet { (t : TableIn core.now) → IsQuietEnd all_rules core.now.table.program t.config }
    ensures goal { IfOk result (λ w. w.goal ≡ goal) }
    ensures on { IfOk result (λ w. WaitsOn core.now goal w.on.items) }
{
    let on = match core.look(alloc, Place::Goal(goal), 1) {
        Ok(view) => watched_at(alloc, program, core, &view, goal)?,
        Err(LookError::Gone) => Vec::new(alloc),
        Err(LookError::Memory(error)) => return Err(error),
    };
    Ok(Waiting { goal, on })
}
