//! The model of one root box.

ghost use Rattle.std.specs.Prelude.{◌≡◌, IfOk};
ghost use Rattle.root_answers.specs.Models.{HasModel, HasModelText};

use akl_terms::{Name, Place, Program};
use box_tree::LookError;
use local_store::{Consistency, consistent};
use std::alloc::{AllocError, Global};
use step_commit::Core;
use tree_models::{TreeModel, find_model, model_lines};

/// The model of a root box's equations, where it is an answer.
pub fn root_model(
    alloc: Global,
    program: &Program,
    core: &Core,
    name: Name,
) -> Result<Option<TreeModel>, AllocError>
    requires { program.now ≡ core.now.table.program }
    ensures { IfOk result (HasModel core.now name) }
{
    if !core.is_solved(name) {
        return Ok(None);
    }
    let view = match core.look(alloc, Place::Box(name), 1) {
        Ok(view) => view,
        Err(LookError::Gone) => return Ok(None),
        Err(LookError::Memory(error)) => return Err(error),
    };
    let chain = view.chain(&program.templates);
    match consistent(alloc, &chain) {
        Err(error) => Err(error),
        Ok(Consistency::Clash { left: _, right: _ }) => Ok(None),
        Ok(Consistency::Consistent) => match find_model(alloc, &chain, core.shown_of(name)) {
            Ok(model) => Ok(Some(model)),
            Err(error) => Err(error),
        },
    }
}

/// The lines of a root box's model.
pub fn root_model_lines(
    alloc: Global,
    program: &Program,
    core: &Core,
    name: Name,
    model: &TreeModel,
) -> Result<Vec<u8>, AllocError>
    requires { program.now ≡ core.now.table.program }
    ensures { IfOk result (λ text. HasModelText core.now name model.now text.items) }
{
    model_lines(alloc, &program.templates, model, core.shown_of(name))
}
