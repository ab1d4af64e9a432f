//! Queries.

ghost use Rattle.std.specs.Prelude.{◌≡◌, ◌<◌, ◌≤◌, ◌+◌, ◌*◌, ◌++◌, List, IfOk, length, map};
ghost use Rattle.std.specs.List.{All};
ghost use Rattle.akl_syntax.specs.Answers.{clauses_view, query_view};
ghost use Rattle.akl_syntax.specs.Clauses.{Clause};
ghost use Rattle.akl_syntax.specs.Goals.{goals};
ghost use Rattle.akl_syntax.specs.GoalView.{goal};
ghost use Rattle.akl_syntax.specs.Sizes.{clauses_size, goals_size, query_size};
ghost use Rattle.clause_keys.specs.Keys.{called_by, defined_by, AreUnique, IsAbsent};
ghost use Rattle.clause_keys.specs.Conditions.{IsLoadable, IsClauseLoadable, AreUnmixed, AreAlone};
ghost use Rattle.clause_store.specs.Conditions.{IsNewLifted};
ghost use Rattle.clause_store.specs.Standing.{HasRoom};
ghost use Rattle.clause_store.specs.Putting.{AreAllPut};
ghost use Rattle.clause_store.specs.Loaded.{IsProgramOf, IsQueryOf};
ghost use Rattle.clause_store.specs.Fitting.{IsOver};
ghost use Rattle.clause_store.specs.Collecting.{HasCollecting};

use crate::codes::goal_codes;
use crate::definitions::extend;
use crate::program::in_order;
use crate::shown::shown;
use crate::variables::put_variables_below;
use akl_syntax::{SourceClause, SourceGoal, SourceQuery};
use akl_terms::{Code, Definition, Items, Program, Query, Templates};
use clause_keys::Callees;
use std::alloc::{AllocError, Global};

/// Adds the definitions that clauses define, and puts what goals need, which may call these too. Gives the goals' codes.
fn put_all(
    alloc: Global,
    templates: &mut Templates,
    definitions: &mut Vec<Definition>,
    clauses: Vec<SourceClause>,
    written: &[SourceGoal],
) -> Result<Vec<Code>, AllocError>
    requires unique { AreUnique (map called_by definitions.old.items) }
    requires new { All (λ c. IsAbsent (map called_by definitions.old.items) (defined_by c)) (clauses_view clauses) }
    requires loadable { All (IsClauseLoadable (map called_by definitions.old.items ++ map defined_by (clauses_view clauses))) (clauses_view clauses) }
    requires goals { All (IsLoadable (map called_by definitions.old.items ++ map defined_by (clauses_view clauses))) (map goal written.now) }
    requires unmixed { AreUnmixed (clauses_view clauses) }
    requires few { length definitions.old.items + clauses_size (clauses_view clauses) < 4294967295 }
    requires room { HasRoom templates.old (goals_size (goals (map goal written.now)) + clauses_size (clauses_view clauses)) }
    ensures { IfOk result (λ v. AreAllPut templates.old templates.new definitions.old.items definitions.new.items (clauses_view clauses) (map goal written.now) v.items) }
{
    let mut callees = Callees::of_definitions(alloc, definitions.as_slice())?;
    extend(alloc, &mut callees, templates, definitions, clauses)?;
    goal_codes(alloc, &callees, templates, written)
}

/// Loads a query over a program, with the clauses of the definitions that were made of its inline choices and collecting
/// goals.
///
/// The program keeps all that it has and gains what the query needs: first a node for each of its variables, in order,
/// so that what an answer shows is a term. A program of some clauses becomes that of these clauses with the lifted ones
/// behind them. The variables whose names don't begin with `_` are shown. It is an error only where memory runs out.
pub fn load_query(
    alloc: Global,
    program: Program,
    query: SourceQuery,
    lifted: Vec<SourceClause>,
) -> Result<(Program, Query), AllocError>
    requires goals { All (IsLoadable (map called_by program.definitions ++ map defined_by (clauses_view lifted))) (query_view query).goals }
    requires names { length query.names.items ≤ 256 }
    requires loadable { All (IsClauseLoadable (map called_by program.definitions ++ map defined_by (clauses_view lifted))) (clauses_view lifted) }
    requires unmixed { AreUnmixed (clauses_view lifted) }
    requires alone { AreAlone (clauses_view lifted) }
    requires lifted { All (λ c. IsNewLifted program.definitions c.head) (clauses_view lifted) }
    requires unique { AreUnique (map called_by program.definitions) }
    requires small { query_size (query_view query) + clauses_size (clauses_view lifted) ≤ 7000000 }
    requires few_nodes { length program.templates.nodes < 4000000000 }
    requires few_symbols { length program.templates.symbols < 4000000000 }
    requires few_definitions { length program.definitions < 4000000000 }
    ensures over { IfOk result (λ x. (cs : List Clause) → IsProgramOf cs program → IsOver cs (clauses_view lifted) x.0 x.1) }
    ensures collecting { IfOk result (λ x. HasCollecting program → HasCollecting x.0) }
    ensures query { IfOk result (λ x. IsQueryOf program (clauses_view lifted) (query_view query) x.0 x.1) }
    ensures unique { IfOk result (λ x. AreUnique (map called_by x.0.definitions)) }
    ensures goals { IfOk result (λ x. length x.1.goals ≤ query_size (query_view query)) }
    ensures nodes { IfOk result (λ x. length x.0.templates.nodes ≤ length program.templates.nodes + length query.names.items + 4 * (query_size (query_view query) + clauses_size (clauses_view lifted))) }
    ensures symbols { IfOk result (λ x. length x.0.templates.symbols ≤ length program.templates.symbols + 4 * (query_size (query_view query) + clauses_size (clauses_view lifted))) }
    ensures definitions { IfOk result (λ x. length x.0.definitions ≤ length program.definitions + length lifted.items) }
{
    let variables = query.names.len() as u32;
    let mut templates = program.templates;
    let mut definitions = program.definitions.into_vec();
    put_variables_below(alloc, &mut templates, variables)?;
    let goals = put_all(
        alloc,
        &mut templates,
        &mut definitions,
        lifted,
        &query.goals,
    )?;
    let shown = shown(alloc, query.names)?;
    in_order(&templates);
    let program = Program {
        templates,
        definitions: Items::new(definitions),
        cell: program.cell,
    };
    let query = Query {
        variables,
        goals: Items::new(goals),
        shown: Items::new(shown),
    };
    Ok((program, query))
}
