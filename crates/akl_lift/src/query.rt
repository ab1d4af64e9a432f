//! Queries.

ghost use Rattle.std.specs.Prelude.{◌≡◌, ◌≤◌, ◌+◌, ◌*◌, ◌++◌, [], map, IfOk, OnOk};
ghost use Rattle.akl_syntax.specs.Goals.{goals};
ghost use Rattle.akl_syntax.specs.GoalView.{goal};
ghost use Rattle.akl_syntax.specs.Answers.{clauses_view, query_view};
ghost use Rattle.akl_syntax.specs.Sizes.{clauses_size, query_size};
ghost use Rattle.akl_lift.specs.Lifting.{made_all, query_origin, query_order, query_shares, query_without, made_of_query, shown_from, hidden_locals};
ghost use Rattle.akl_lift.specs.Noting.{outer_all, insides_all, inside_view};
ghost use Rattle.akl_lift.specs.Scopes.{IsScope, IsTally, origin_view, definitions_view};
ghost use Rattle.akl_lift.specs.Whole.{IsWritten};

use crate::clauses::{add_definitions, copied};
use crate::lifting::{Made, Origin, lift_goals};
use crate::locals::{add_locals, hidden_names};
use crate::noting::{Inside, note_goals};
use crate::scope::{Scope, add_shown, written_scope};
use akl_syntax::{SourceClause, SourceQuery};
use akl_terms::{Key, Text};
use std::alloc::{AllocError, Global};

/// What clauses have that are made of a query, where nothing was noted yet.
fn origin(alloc: Global, query: &SourceQuery) -> Result<Origin, AllocError>
    ensures origin { IfOk result (λ o. origin_view o ≡ query_origin (query_view query.now)) }
    ensures noted { IfOk result (λ o. o.noted.items ≡ []) }
{
    let names = copied(alloc, &query.names)?;
    let symbol = Text::from_str(alloc, "")?;
    Ok(Origin {
        names,
        inside: Key { symbol, arity: 0 },
        start: 0,
        noted: Vec::new(alloc),
    })
}

/// Hides the names of the variables that are local to collecting goals.
fn hide_locals(alloc: Global, query: &mut SourceQuery) -> Result<(), AllocError>
    ensures query { OnOk result (query_view query.new ≡ hidden_locals (query_view query.old)) }
    ensures goals { OnOk result (query.new.goals ≡ query.old.goals) }
{
    let mut locals = Vec::new(alloc);
    add_locals(&mut locals, &query.goals)?;
    let names = hidden_names(alloc, &locals, &query.names)?;
    query.names = names;
    Ok(())
}

/// The variables of a query. The choices and collecting goals in it are noted.
fn query_scope(
    alloc: Global,
    noted: &mut Vec<Inside>,
    query: &SourceQuery,
) -> Result<Scope, AllocError>
    ensures order { IfOk result (λ s. s.order.items ≡ query_order (query_view query.now)) }
    ensures counts { IfOk result (λ s. IsTally (shown_from 0 query.now.names.items ++ outer_all (goals (map goal query.now.goals.items))) s.counts) }
    ensures scope { IfOk result IsScope }
    ensures noted { OnOk result (map inside_view noted.new.items ≡ map inside_view noted.old.items ++ insides_all (goals (map goal query.now.goals.items))) }
{
    let mut found = Vec::new(alloc);
    add_shown(&mut found, &query.names)?;
    note_goals(alloc, noted, &mut found, &query.goals)?;
    written_scope(alloc, query.names.len(), &found)
}

/// Takes the inline choices and collecting goals out of a query, where no definition was made yet.
fn lift_asked(alloc: Global, out: &mut Made, query: &mut SourceQuery) -> Result<(), AllocError>
    requires room { out.old.next + query_size (query_view query.old) ≤ 4294967295 }
    requires none { out.old.definitions.items ≡ [] }
    ensures query { OnOk result (query_view query.new ≡ query_without out.old.next (query_view query.old)) }
    ensures made { OnOk result (definitions_view out.new ≡ made_all (query_origin (query_view query.old)) (query_shares (hidden_locals (query_view query.old))) out.old.next (goals (map goal query.old.goals.items))) }
{
    let mut origin = origin(alloc, query)?;
    hide_locals(alloc, query)?;
    let scope = query_scope(alloc, &mut origin.noted, query)?;
    let goals = lift_goals(alloc, &origin, &scope, out, &query.goals)?;
    query.goals = goals;
    Ok(())
}

/// The query without its inline choices and collecting goals, and the clauses of the definitions that are made of these, in the order of
/// their numbers, which begin with `next`.
///
/// They are made as [`lift`](crate::lift) makes them. Every variable whose name doesn't begin with `_`, and which isn't
/// local to a collecting goal, counts as occurring outside. The names of local variables become `_`. Of a query that was
/// read, with at most 256 variables, it gives at most 514 times as many terms, goals and clauses. It is an error only
/// where memory runs out.
pub fn lift_query(
    alloc: Global,
    mut query: SourceQuery,
    next: u32,
) -> Result<(SourceQuery, Vec<SourceClause>), AllocError>
    requires { next + query_size (query_view query) ≤ 4294967295 }
    ensures query { IfOk result (λ x. query_view x.0 ≡ query_without next (query_view query)) }
    ensures clauses { IfOk result (λ x. clauses_view x.1 ≡ made_of_query next (query_view query)) }
    ensures bound { IfOk result (λ x. IsWritten (query_view query) → query_size (query_view x.0) + clauses_size (clauses_view x.1) ≤ 514 * query_size (query_view query)) }
{
    let mut made = Made {
        next,
        definitions: Vec::new(alloc),
    };
    lift_asked(alloc, &mut made, &mut query)?;
    let mut clauses = Vec::new(alloc);
    add_definitions(&mut clauses, &mut made.definitions)?;
    Ok((query, clauses))
}
