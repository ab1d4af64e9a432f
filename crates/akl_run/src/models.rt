//! The models of a run's answers.

ghost use Rattle.std.specs.Prelude.{◌≡◌, true, IfOk};
ghost use Rattle.akl_run.specs.Evaluations.{HasModels};

use akl_terms::Program;
use root_answers::root_model;
use std::alloc::{AllocError, Global};
use step_commit::Core;
use tree_models::TreeModel;

/// The models of a core's answers, in order, where they are asked.
pub fn models_of(
    alloc: Global,
    program: &Program,
    core: &Core,
    asked: bool,
) -> Result<Vec<TreeModel>, AllocError>
    requires { program.now ≡ core.now.table.program }
    ensures { IfOk result (λ models. HasModels core.now asked models.items) }
{
    if asked {
        all_models(alloc, program, core)
    } else {
        Ok(Vec::new(alloc))
    }
}

// The model of each root box that is an answer.
fn all_models(alloc: Global, program: &Program, core: &Core) -> Result<Vec<TreeModel>, AllocError>
    requires { program.now ≡ core.now.table.program }
    ensures { IfOk result (λ models. HasModels core.now true models.items) }
{
    let mut models = Vec::new(alloc);
    for name in core.roots() {
        let found = match root_model(alloc, program, core, *name) {
            Ok(found) => found,
            Err(error) => return Err(error),
        };
        if let Some(model) = found {
            models.push(model)?;
        }
    }
    Ok(models)
}
