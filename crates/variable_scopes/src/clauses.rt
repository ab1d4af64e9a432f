//! Clauses and queries whose variables go by their scopes.

ghost use Rattle.std.specs.Prelude.{◌≡◌, length, map, option_map, IfOk, OnOk};
ghost use Rattle.term_syntax.specs.View.{tree};
ghost use Rattle.akl_syntax.specs.GoalView.{part};
ghost use Rattle.akl_syntax.specs.Answers.{clause_view, clauses_view, query_view};
ghost use Rattle.akl_syntax.specs.Variables.{clause_variables, collected_variables, IsClauseNumbered, AreClausesNumbered, IsQueryNumbered};
ghost use Rattle.variable_scopes.specs.Numbering.{state, AreBelow, Numbers, Numbered, part_variables};
ghost use Rattle.variable_scopes.specs.Scoped.{name_of, IsScopedClause, AreScoped, IsScopedQuery};
ghost use Rattle.variable_scopes.specs.Shapes.{collected_shape, part_shape, clause_shape};
ghost use Rattle.variable_scopes.specs.Spellings.{part_spellings, clause_spellings};

use crate::goals::numbered_goals;
use crate::numbering::Numbering;
use crate::terms::{numbered_term, numbered_terms};
use akl_syntax::{SourceClause, SourcePart, SourceQuery, SourceTerm};
use akl_terms::Text;
use std::alloc::{AllocError, Global};

/// The name that a spelling stands for.
fn name_of(alloc: Global, names: &[Text], spelling: u32) -> Result<Text, AllocError>
    ensures { IfOk result (λ t. t ≡ name_of names.now spelling) }
{
    match names.get(spelling as usize) {
        Some(name) => Ok(name.duplicate()?),
        None => Ok(Text::from_str(alloc, "")?),
    }
}

/// The names that spellings stand for.
fn names_of(alloc: Global, names: &[Text], spellings: &[u32]) -> Result<Vec<Text>, AllocError>
    ensures { IfOk result (λ v. v.items ≡ map (name_of names.now) spellings.now) }
{
    let mut found = Vec::new(alloc);
    for spelling in spellings {
        let name = name_of(alloc, names, *spelling)?;
        found.push(name)?;
    }
    Ok(found)
}

/// Numbers the variables of the term that a clause collects.
fn number_collected(
    alloc: Global,
    numbering: &mut Numbering,
    collected: &Option<SourceTerm>,
) -> Result<Option<SourceTerm>, AllocError>
    requires { AreBelow (length numbering.old.current.items) (collected_variables (option_map tree collected.now)) }
    ensures shape { IfOk result (λ o. collected_shape (option_map tree o) ≡ collected_shape (option_map tree collected.now)) }
    ensures numbers { IfOk result (λ o. Numbers (state numbering.old) (collected_variables (option_map tree collected.now)) (collected_variables (option_map tree o)) (state numbering.new)) }
{
    match collected {
        Some(term) => {
            let term = numbered_term(alloc, numbering, term)?;
            Ok(Some(term))
        }
        None => Ok(None),
    }
}

/// Numbers the variables of a guard and a body.
fn number_part(
    alloc: Global,
    numbering: &mut Numbering,
    written: &mut SourcePart,
) -> Result<(), AllocError>
    requires { AreBelow (length numbering.old.current.items) (part_variables (part written.old)) }
    ensures shape { OnOk result (part_shape (part written.new) ≡ part_shape (part written.old)) }
    ensures numbers { OnOk result (Numbered (state numbering.old) (part_spellings (part written.old)) (part_variables (part written.new)) (state numbering.new)) }
{
    let guard = numbered_goals(alloc, numbering, &written.guard)?;
    let body = numbered_goals(alloc, numbering, &written.body)?;
    written.guard = guard;
    written.body = body;
    Ok(())
}

/// Numbers the variables of a clause.
fn number_clause(
    alloc: Global,
    numbering: &mut Numbering,
    clause: &mut SourceClause,
) -> Result<(), AllocError>
    requires { AreBelow (length numbering.old.current.items) (clause_variables (clause_view clause.old)) }
    ensures shape { OnOk result (clause_shape (clause_view clause.new) ≡ clause_shape (clause_view clause.old)) }
    ensures numbers { OnOk result (Numbered (state numbering.old) (clause_spellings (clause_view clause.old)) (clause_variables (clause_view clause.new)) (state numbering.new)) }
    ensures names { OnOk result (clause.new.names.items ≡ clause.old.names.items) }
{
    let arguments = numbered_terms(alloc, numbering, &clause.arguments)?;
    let collected = number_collected(alloc, numbering, &clause.collected)?;
    clause.arguments = arguments;
    clause.collected = collected;
    number_part(alloc, numbering, &mut clause.part)
}

/// The clause with its variables by their scopes.
fn scope_clause(alloc: Global, clause: &mut SourceClause) -> Result<(), AllocError>
    requires { IsClauseNumbered (clause_view clause.old) }
    ensures { OnOk result (IsScopedClause (clause_view clause.old) (clause_view clause.new)) }
{
    let mut numbering = Numbering::new(alloc, clause.names.len())?;
    number_clause(alloc, &mut numbering, clause)?;
    clause.names = names_of(alloc, &clause.names, &numbering.found)?;
    Ok(())
}

/// Each of the clauses with its variables by their scopes.
fn scope_each(alloc: Global, clauses: &mut [SourceClause]) -> Result<(), AllocError>
    requires { AreClausesNumbered (map clause_view clauses.old) }
    ensures { OnOk result (AreScoped (map clause_view clauses.old) (map clause_view clauses.new)) }
{
    for clause in clauses.iter_mut() {
        scope_clause(alloc, clause)?;
    }
    Ok(())
}

/// The clauses with their variables by their scopes.
///
/// Every variable that is spelled in the term of a collecting goal is local to the term and the goals of it; the same
/// spelling elsewhere is another variable. Variables are numbered by first occurrence in the clause. It is an error only
/// where memory runs out.
pub fn scoped_clauses(
    alloc: Global,
    mut clauses: Vec<SourceClause>,
) -> Result<Vec<SourceClause>, AllocError>
    requires { AreClausesNumbered (clauses_view clauses) }
    ensures { IfOk result (λ v. AreScoped (clauses_view clauses) (clauses_view v)) }
{
    scope_each(alloc, &mut clauses)?;
    Ok(clauses)
}

/// The query with its variables by their scopes, as [`scoped_clauses`] has them.
pub fn scoped_query(alloc: Global, mut query: SourceQuery) -> Result<SourceQuery, AllocError>
    requires { IsQueryNumbered (query_view query) }
    ensures { IfOk result (λ q. IsScopedQuery (query_view query) (query_view q)) }
{
    let mut numbering = Numbering::new(alloc, query.names.len())?;
    query.goals = numbered_goals(alloc, &mut numbering, &query.goals)?;
    query.names = names_of(alloc, &query.names, &numbering.found)?;
    Ok(query)
}
