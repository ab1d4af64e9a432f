//! Queries over programs.

ghost use Rattle.std.specs.Prelude.{IfOk};
ghost use Rattle.box_tree.specs.Tables.{HasVariables, HasShownVariables};

use akl_run::{Loaded, load_asked, load_program};
use std::alloc::Global;

/// A query over a program.
pub fn loaded(alloc: Global, program: &str, query: &str) -> Result<Loaded, &'static str>
    ensures variables { IfOk result (λ l. HasVariables l.program l.query l.first_variable) }
    ensures shown { IfOk result (λ l. HasShownVariables l.query) }
{
    let program = program.as_bytes();
    let query = query.as_bytes();
    if program.len() > 10_000 || query.len() > 10_000 {
        return Err("too long");
    }
    let Ok(base) = load_program(alloc, program) else {
        return Err("program");
    };
    match load_asked(alloc, base, query) {
        Ok(loaded) => Ok(loaded),
        Err(_) => Err("query"),
    }
}
