//! Programs.

ghost use Rattle.std.specs.Prelude.{◌≡◌, ◌≤◌, ◌+◌, ◌*◌, ◌++◌, [], map, option_map, IfOk, OnOk};
ghost use Rattle.term_syntax.specs.View.{tree};
ghost use Rattle.akl_syntax.specs.Goals.{goals};
ghost use Rattle.akl_syntax.specs.GoalView.{goal, part};
ghost use Rattle.akl_syntax.specs.Answers.{clause_view, clauses_view};
ghost use Rattle.akl_syntax.specs.Sizes.{clauses_size};
ghost use Rattle.akl_syntax.specs.Variables.{collected_variables};
ghost use Rattle.term_syntax.specs.Tree.{trees};
ghost use Rattle.term_syntax.specs.Variables.{trees_variables};
ghost use Rattle.clause_keys.specs.Keys.{key_of};
ghost use Rattle.akl_lift.specs.Lifting.{choices_in_all, choices_of, clause_choices, clause_without, clauses_without, made_of, made_of_all, joined, lifted_clauses, clause_order, clause_origin};
ghost use Rattle.akl_lift.specs.Noting.{outer_all, insides_all, inside_view};
ghost use Rattle.akl_lift.specs.Scopes.{IsScope, IsTally, chosen_of, origin_view, part_without, made_by};
ghost use Rattle.akl_lift.specs.Whole.{AreWritten};

use crate::lifting::{Made, Origin, lift_guard_and_body};
use crate::noting::{Inside, note_part};
use crate::scope::{Scope, written_scope};
use crate::variables::{add_collected, add_terms};
use akl_syntax::{Head, SourceClause, SourcePart};
use akl_terms::{Key, Text};
use std::alloc::{AllocError, Global};

/// The clauses that were made so far, and the next number.
#[derive(Drop)]
struct Lifted {
    next: u32,
    clauses: Vec<SourceClause>,
}

/// A copy of texts.
pub fn copied(alloc: Global, texts: &[Text]) -> Result<Vec<Text>, AllocError>
    ensures { IfOk result (λ v. v.items ≡ texts.now) }
{
    let mut found = Vec::new(alloc);
    for text in texts {
        let next = text.duplicate()?;
        found.push(next)?;
    }
    Ok(found)
}

/// The key of the definition of a head with so many arguments.
fn key(head: &Head, arity: usize) -> Result<Key, AllocError>
    ensures { IfOk result (λ k. k ≡ key_of head.now arity) }
{
    // No head has so many arguments.
    if arity > 4294967295 {
        return Err(AllocError);
    }
    match head {
        Head::Named(symbol) => Ok(Key {
            symbol: symbol.duplicate()?,
            arity: arity as u32,
        }),
        Head::Lifted { inside, .. } => Ok(Key {
            symbol: inside.symbol.duplicate()?,
            arity: inside.arity,
        }),
    }
}

/// What clauses have that are made of a clause, where nothing was noted yet.
fn origin(alloc: Global, clause: &SourceClause) -> Result<Origin, AllocError>
    ensures origin { IfOk result (λ o. origin_view o ≡ clause_origin (clause_view clause.now)) }
    ensures noted { IfOk result (λ o. o.noted.items ≡ []) }
{
    let names = copied(alloc, &clause.names)?;
    let inside = key(&clause.head, clause.arguments.len())?;
    Ok(Origin {
        names,
        inside,
        start: clause.start,
        noted: Vec::new(alloc),
    })
}

/// The variables of a written clause. The choices and collecting goals in it are noted.
fn clause_scope(
    alloc: Global,
    noted: &mut Vec<Inside>,
    clause: &SourceClause,
) -> Result<Scope, AllocError>
    ensures order { IfOk result (λ s. s.order.items ≡ clause_order (clause_view clause.now)) }
    ensures counts { IfOk result (λ s. IsTally (trees_variables (trees (map tree clause.now.arguments.items)) ++ (collected_variables (option_map tree clause.now.collected) ++ (outer_all (goals (map goal clause.now.part.guard.items)) ++ outer_all (goals (map goal clause.now.part.body.items))))) s.counts) }
    ensures scope { IfOk result IsScope }
    ensures noted { OnOk result (map inside_view noted.new.items ≡ map inside_view noted.old.items ++ (insides_all (goals (map goal clause.now.part.guard.items)) ++ insides_all (goals (map goal clause.now.part.body.items)))) }
{
    let mut found = Vec::new(alloc);
    add_terms(&mut found, &clause.arguments)?;
    add_collected(&mut found, &clause.collected)?;
    note_part(alloc, noted, &mut found, &clause.part)?;
    written_scope(alloc, clause.names.len(), &found)
}

/// Moves the clauses of definitions behind others.
pub fn add_definitions(
    clauses: &mut Vec<SourceClause>,
    definitions: &mut [Vec<SourceClause>],
) -> Result<(), AllocError>
    ensures { OnOk result (clauses_view clauses.new ≡ clauses_view clauses.old ++ joined (map clauses_view definitions.old)) }
{
    for definition in definitions.iter_mut() {
        clauses.append(definition)?;
    }
    Ok(())
}

/// Lifts the part of a written clause. Behind the clauses that were made come those of its choices and collecting goals.
fn lift_part(
    alloc: Global,
    origin: &Origin,
    scope: &Scope,
    out: &mut Lifted,
    written: &mut SourcePart,
) -> Result<(), AllocError>
    requires scope { IsScope scope.now }
    requires room { out.old.next + (choices_in_all (goals (map goal written.old.guard.items)) + choices_in_all (goals (map goal written.old.body.items))) ≤ 4294967295 }
    requires noted { map inside_view origin.now.noted.items ≡ insides_all (goals (map goal written.old.guard.items)) ++ insides_all (goals (map goal written.old.body.items)) }
    ensures next { OnOk result (out.new.next ≡ out.old.next + (choices_in_all (goals (map goal written.old.guard.items)) + choices_in_all (goals (map goal written.old.body.items)))) }
    ensures part { OnOk result (part written.new ≡ part_without scope.now.order.items (chosen_of scope.now) out.old.next (goals (map goal written.old.guard.items)) written.old.op (goals (map goal written.old.body.items))) }
    ensures made { OnOk result (clauses_view out.new.clauses ≡ clauses_view out.old.clauses ++ joined (made_by (origin_view origin.now) (chosen_of scope.now) out.old.next (goals (map goal written.old.guard.items)) (goals (map goal written.old.body.items)))) }
{
    let mut made = Made {
        next: out.next,
        definitions: Vec::new(alloc),
    };
    let part = lift_guard_and_body(alloc, origin, scope, &mut made, written)?;
    *written = part;
    out.next = made.next;
    add_definitions(&mut out.clauses, &mut made.definitions)
}

/// Lifts a clause. Behind the clauses that were made come those of its choices and collecting goals.
fn lift_clause(alloc: Global, out: &mut Lifted, clause: &mut SourceClause) -> Result<(), AllocError>
    requires { out.old.next + clause_choices (clause_view clause.old) ≤ 4294967295 }
    ensures next { OnOk result (out.new.next ≡ out.old.next + clause_choices (clause_view clause.old)) }
    ensures clause { OnOk result (clause_view clause.new ≡ clause_without out.old.next (clause_view clause.old)) }
    ensures made { OnOk result (clauses_view out.new.clauses ≡ clauses_view out.old.clauses ++ joined (made_of out.old.next (clause_view clause.old))) }
{
    let mut origin = origin(alloc, clause)?;
    let scope = clause_scope(alloc, &mut origin.noted, clause)?;
    lift_part(alloc, &origin, &scope, out, &mut clause.part)
}

/// Lifts clauses.
fn lift_each(
    alloc: Global,
    out: &mut Lifted,
    clauses: &mut [SourceClause],
) -> Result<(), AllocError>
    requires { out.old.next + choices_of (map clause_view clauses.old) ≤ 4294967295 }
    ensures clauses { OnOk result (map clause_view clauses.new ≡ clauses_without out.old.next (map clause_view clauses.old)) }
    ensures made { OnOk result (clauses_view out.new.clauses ≡ clauses_view out.old.clauses ++ made_of_all out.old.next (map clause_view clauses.old)) }
{
    for clause in clauses.iter_mut() {
        lift_clause(alloc, out, clause)?;
    }
    Ok(())
}

/// The clauses without their inline choices and collecting goals, and behind them the clauses of the definitions that
/// are made of these, in the order of their numbers, which begin with 0.
///
/// Each inline choice becomes a call of a definition, and each of its parts a clause of it. A collecting goal becomes a
/// collecting call of a definition with one clause: its goals are the guard, and it collects the goal's term. Numbers go
/// by the places of the opening brackets in the text. The arguments are the variables that occur inside and also outside
/// in the clause, in order of their numbers there; the result of a collecting goal is outside. A clause that is made
/// numbers its variables by first occurrence, beginning with its arguments. Of clauses that were read, with at most 256
/// variables each, it gives at most 514 times as many terms, goals and clauses. It is an error only where memory runs
/// out.
pub fn lift(alloc: Global, mut clauses: Vec<SourceClause>) -> Result<Vec<SourceClause>, AllocError>
    requires { clauses_size (clauses_view clauses) ≤ 1000000 }
    ensures lifted { IfOk result (λ v. clauses_view v ≡ lifted_clauses (clauses_view clauses)) }
    ensures bound { IfOk result (λ v. AreWritten (clauses_view clauses) → clauses_size (clauses_view v) ≤ 514 * clauses_size (clauses_view clauses)) }
{
    let mut out = Lifted {
        next: 0,
        clauses: Vec::new(alloc),
    };
    lift_each(alloc, &mut out, &mut clauses)?;
    clauses.append(&mut out.clauses)?;
    Ok(clauses)
}
