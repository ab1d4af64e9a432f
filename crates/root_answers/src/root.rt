//! The text of one root box.

ghost use Rattle.std.specs.Prelude.{◌≡◌, IfOk};
ghost use Rattle.root_answers.specs.Roots.{HasText};
ghost use Rattle.root_answers.specs.Text.{long_line};

use akl_terms::{Name, Place, Program};
use answer_text::AnswerError;
use box_tree::LookError;
use chain_text::chain_answer;
use local_store::{Consistency, consistent};
use std::alloc::{AllocError, Global};
use step_commit::Core;

// What stands in the place of lines that are too long.
fn long_line(alloc: Global) -> Result<Vec<u8>, AllocError>
    ensures { IfOk result (λ line. line.items ≡ long_line) }
{
    Vec::from_slice(alloc, b"(longer than 1000000 bytes)\n")
}

/// The lines of a root box, where it is an answer; one line in their place where they have more
/// than a million bytes.
pub fn root_text(
    alloc: Global,
    program: &Program,
    core: &Core,
    name: Name,
) -> Result<Option<Vec<u8>>, AllocError>
    requires { program.now ≡ core.now.table.program }
    ensures { IfOk result (HasText core.now name) }
{
    if !core.is_solved(name) {
        return Ok(None);
    }
    let view = match core.look(alloc, Place::Box(name), 1) {
        Ok(view) => view,
        Err(LookError::Gone) => return Ok(None),
        Err(LookError::Memory(error)) => return Err(error),
    };
    let chain = view.chain(&program.templates);
    match consistent(alloc, &chain) {
        Err(error) => Err(error),
        Ok(Consistency::Clash { left: _, right: _ }) => Ok(None),
        Ok(Consistency::Consistent) => match chain_answer(alloc, &chain, core.shown_of(name)) {
            Ok(text) => Ok(Some(text)),
            Err(AnswerError::Long) => Ok(Some(long_line(alloc)?)),
            Err(AnswerError::Memory(error)) => Err(error),
        },
    }
}
