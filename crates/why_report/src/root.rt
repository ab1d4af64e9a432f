//! The text of one root box that waits.

ghost use Rattle.std.specs.Prelude.{◌≡◌, IfOk};
ghost use Rattle.akl_model.specs.Derivations.{IsQuietEnd};
ghost use Rattle.box_tree.specs.Tables.{all_rules};
ghost use Rattle.step_commit.specs.Cores.{TableIn};
ghost use Rattle.root_answers.specs.Roots.{OfRoot, root_box};
ghost use Rattle.why_report.specs.Texts.{IsWaitingText};

use crate::lines::why_lines;
use crate::waiting::why;
use akl_terms::{Name, Place, Program};
use box_tree::LookError;
use std::alloc::{AllocError, Global};
use step_commit::Core;

/// The lines of a root box with this number, where no place of the configuration is ready: the goals directly in it, and the
/// variables on which they wait, named by what the box shows. Of a box that isn't a root box nothing is promised. An `Err`
/// is want of memory.
///
/// The cost is that of `why`, and a look through the shown terms for each variable.
pub fn root_waits(
    alloc: Global,
    program: &Program,
    core: &Core,
    root: Name,
    number: usize,
) -> Result<Vec<u8>, AllocError>
    requires program { program.now ≡ core.now.table.program }
    requires quiet { (t : TableIn core.now) → IsQuietEnd all_rules core.now.table.program t.config }
    ensures { IfOk result (λ text. OfRoot core.now root (λ b gs. IsWaitingText core.now.table.program (root_box b gs) number text.items)) }
{
    let view = match core.look(alloc, Place::Box(root), 1) {
        Ok(view) => view,
        Err(LookError::Gone) => return Ok(Vec::new(alloc)),
        Err(LookError::Memory(error)) => return Err(error),
    };
    let waiting = why(alloc, program, core, root)?;
    let chain = view.chain(&program.templates);
    why_lines(
        alloc,
        number,
        &chain,
        core.shown_of(root),
        waiting.as_slice(),
    )
}
