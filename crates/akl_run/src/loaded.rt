//! A loaded program with a query.

ghost use Rattle.std.specs.Prelude.{◌≤◌, IfOk, IfErr, length};
ghost use Rattle.akl_run.specs.Replays.{MayBegin};
ghost use Rattle.box_tree.specs.Tables.{HasVariables};
ghost use Rattle.akl_run.specs.Loads.{IsLoadedFrom, IsLoadedProgram, IsLoadedQuery, IsOpen, ProgramStops, QueryStops, TextsStop};

use crate::report::Status;
use crate::stop::Stop;
use akl_lift::{lift, lift_query};
use akl_syntax::{check_query, read_program, read_query};
use akl_terms::{Program, Query};
use clause_checks::{check_clauses, check_goals};
use clause_store::{load, load_query};
use std::alloc::Global;
use variable_scopes::{scoped_clauses, scoped_query};

/// The number of a query's first inline choice, which is above those of all programs.
pub(crate) const FIRST_ASKED: u32 = 1_000_000;

/// A query over a program that has the terms of both.
#[derive(Drop)]
pub struct Loaded {
    pub program: Program,
    pub query: Query,
    /// The node of the query's first variable; those of the others are its neighbours, in order.
    pub first_variable: u32,
}

/// The program that a text is. Its inline choices and goals that collect are definitions.
pub fn load_program(alloc: Global, text: &[u8]) -> Result<Program, Stop>
    requires { length text.now ≤ 1000001 }
    ensures program { IfOk result (IsLoadedProgram text.now) }
    ensures open { IfOk result IsOpen }
    ensures stop { IfErr result (λ stop. ProgramStops text.now stop.status stop.refusal) }
{
    let written = match read_program(alloc, text) {
        Ok(written) => written,
        Err(error) => return Err(Stop::text(Status::Program, error)),
    };
    let clauses = scoped_clauses(alloc, written)?;
    if let Err(error) = check_clauses(alloc, &clauses) {
        return Err(Stop::loading(Status::Program, error));
    }
    let lifted = lift(alloc, clauses)?;
    Ok(load(alloc, lifted)?)
}

/// The query that a text is, over a program.
pub fn load_asked(alloc: Global, program: Program, text: &[u8]) -> Result<Loaded, Stop>
    requires short { length text.now ≤ 10000 }
    requires open { IsOpen program }
    ensures loaded { IfOk result (IsLoadedQuery program text.now) }
    ensures variables { IfOk result (λ l. HasVariables l.program l.query l.first_variable) }
    ensures stop { IfErr result (λ stop. QueryStops program text.now stop.status stop.refusal) }
{
    let written = match read_query(alloc, text) {
        Ok(written) => written,
        Err(error) => return Err(Stop::text(Status::Query, error)),
    };
    let asked = scoped_query(alloc, written)?;
    if let Err(error) = check_goals(alloc, &program, &asked) {
        return Err(Stop::loading(Status::Query, error));
    }
    let first_variable = program.templates.len();
    let (query, lifted) = lift_query(alloc, asked, FIRST_ASKED)?;
    let (program, query) = load_query(alloc, program, query, lifted)?;
    Ok(Loaded {
        program,
        query,
        first_variable,
    })
}

/// The query over the program that two texts are.
pub(crate) fn load_texts(alloc: Global, text: &[u8], query: &[u8]) -> Result<Loaded, Stop>
    requires { length text.now ≤ 1000001 }
    ensures loaded { IfOk result (IsLoadedFrom text.now query.now) }
    ensures begins { IfOk result MayBegin }
    ensures short { IfOk result (λ _. length query.now ≤ 10000) }
    ensures stop { IfErr result (λ stop. TextsStop text.now query.now stop.status stop.refusal) }
{
    if let Err(error) = check_query(query) {
        return Err(Stop::text(Status::Query, error));
    }
    let program = match load_program(alloc, text) {
        Ok(program) => program,
        Err(stop) => return Err(stop),
    };
    match load_asked(alloc, program, query) {
        Ok(loaded) => Ok(loaded),
        Err(stop) => Err(stop),
    }
}
