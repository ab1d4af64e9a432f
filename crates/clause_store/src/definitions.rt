//! Clauses and definitions.

ghost use Rattle.std.specs.Prelude.{◌≡◌, ◌<◌, ◌≤◌, ◌+◌, ◌++◌, IfOk, OnOk, length, map, option_map};
ghost use Rattle.std.specs.List.{All};
ghost use Rattle.akl_terms.specs.declared.program.Op.{Op};
ghost use Rattle.term_syntax.specs.View.{tree};
ghost use Rattle.akl_syntax.specs.Answers.{clause_view, clauses_view};
ghost use Rattle.akl_syntax.specs.Sizes.{collected_size, clause_size, clauses_size};
ghost use Rattle.clause_keys.specs.Keys.{key_of, defined_by, called_by, called, by_head, IsAbsent, AreUnique};
ghost use Rattle.clause_keys.specs.Conditions.{IsClauseLoadable, AreUnmixed};
ghost use Rattle.clause_store.specs.Standing.{HasRoom};
ghost use Rattle.clause_store.specs.Putting.{IsCollectedPut, IsClausePut, AreClausesPut, IsDefinitionPut, IsExtended, HaveOneOp};

use crate::codes::goal_codes;
use crate::groups::gather;
use crate::nodes::{put_term, put_terms};
use akl_syntax::{Head, SourceClause, SourceTerm};
use akl_terms::{Clause, Definition, Items, Key, Templates};
use clause_keys::Callees;
use std::alloc::{AllocError, Global};

/// Puts what a clause collects, and gives its node.
fn put_collected(
    alloc: Global,
    templates: &mut Templates,
    collected: &Option<SourceTerm>,
) -> Result<Option<u32>, AllocError>
    requires { HasRoom templates.old (collected_size (option_map tree collected.now)) }
    ensures { IfOk result (λ o. IsCollectedPut templates.old templates.new (option_map tree collected.now) o) }
{
    match collected {
        Some(term) => {
            let node = put_term(alloc, templates, term)?;
            Ok(Some(node))
        }
        None => Ok(None),
    }
}

/// Puts what a clause needs, and loads it.
fn load_clause(
    alloc: Global,
    callees: &Callees,
    templates: &mut Templates,
    clause: &SourceClause,
) -> Result<Clause, AllocError>
    requires loadable { IsClauseLoadable callees.now (clause_view clause.now) }
    requires room { HasRoom templates.old (clause_size (clause_view clause.now)) }
    ensures { IfOk result (λ l. IsClausePut callees.now templates.old templates.new (clause_view clause.now) l) }
{
    let (first, count) = put_terms(alloc, templates, &clause.arguments)?;
    let collected = put_collected(alloc, templates, &clause.collected)?;
    let guard = goal_codes(alloc, callees, templates, &clause.part.guard)?;
    let body = goal_codes(alloc, callees, templates, &clause.part.body)?;
    Ok(Clause {
        variables: clause.names.len() as u32,
        first,
        count,
        guard: Items::new(guard),
        body: Items::new(body),
        collected,
    })
}

/// Puts what clauses need, and loads them in order.
fn load_clauses(
    alloc: Global,
    callees: &Callees,
    templates: &mut Templates,
    clauses: &[SourceClause],
) -> Result<Vec<Clause>, AllocError>
    requires loadable { All (IsClauseLoadable callees.now) (map clause_view clauses.now) }
    requires room { HasRoom templates.old (clauses_size (map clause_view clauses.now)) }
    ensures { IfOk result (λ v. AreClausesPut callees.now templates.old templates.new (map clause_view clauses.now) v.items) }
{
    let mut loaded = Vec::new(alloc);
    for clause in clauses {
        let next = load_clause(alloc, callees, templates, clause)?;
        loaded.push(next)?;
    }
    Ok(loaded)
}

/// The key of a head with so many arguments, and the number of a lifted definition.
fn key(head: Head, arity: u32) -> (Key, Option<u32>)
    ensures key { result.0 ≡ key_of head arity }
    ensures called { (op : Op) → called op result.1 result.0 arity ≡ by_head op head arity }
{
    match head {
        Head::Named(symbol) => (Key { symbol, arity }, None),
        Head::Lifted { number, inside } => (inside, Some(number)),
    }
}

/// The definition of clauses, which are at least one.
fn load_definition(
    alloc: Global,
    callees: &Callees,
    templates: &mut Templates,
    mut clauses: Vec<SourceClause>,
) -> Result<Definition, AllocError>
    requires some { 0 < length clauses.items }
    requires loadable { All (IsClauseLoadable callees.now) (clauses_view clauses) }
    requires unmixed { HaveOneOp (clauses_view clauses) }
    requires room { HasRoom templates.old (clauses_size (clauses_view clauses)) }
    ensures { IfOk result (λ d. IsDefinitionPut callees.now templates.old templates.new (clauses_view clauses) d) }
{
    let loaded = load_clauses(alloc, callees, templates, &clauses)?;
    let first = clauses.swap_remove(0);
    let op = first.part.op;
    let (key, lifted) = key(first.head, first.arguments.len() as u32);
    Ok(Definition {
        key,
        lifted,
        op,
        clauses: Items::new(loaded),
    })
}

/// Adds the definitions that clauses define behind those that are there, in order of first occurrence.
pub fn extend(
    alloc: Global,
    callees: &mut Callees,
    templates: &mut Templates,
    definitions: &mut Vec<Definition>,
    clauses: Vec<SourceClause>,
) -> Result<(), AllocError>
    requires callees { callees.old ≡ map called_by definitions.old.items }
    requires unique { AreUnique callees.old }
    requires new { All (λ c. IsAbsent callees.old (defined_by c)) (clauses_view clauses) }
    requires loadable { All (IsClauseLoadable (callees.old ++ map defined_by (clauses_view clauses))) (clauses_view clauses) }
    requires unmixed { AreUnmixed (clauses_view clauses) }
    requires few { length callees.old + clauses_size (clauses_view clauses) ≤ 4294967295 }
    requires room { HasRoom templates.old (clauses_size (clauses_view clauses)) }
    ensures { OnOk result (IsExtended callees.old callees.new templates.old templates.new definitions.old.items definitions.new.items (clauses_view clauses)) }
{
    let groups = gather(alloc, callees, definitions.len(), clauses)?;
    for group in groups {
        let next = load_definition(alloc, callees, templates, group)?;
        definitions.push(next)?;
    }
    Ok(())
}
