//! Goals without choices and collecting goals, and the definitions that are made of these.

ghost use Rattle.std.specs.Prelude.{◌≡◌, ◌≤◌, ◌+◌, ◌++◌, ◌∷◌, [], length, map, IfOk, OnOk, None};
ghost use Rattle.term_syntax.specs.Tree.{trees};
ghost use Rattle.term_syntax.specs.View.{tree};
ghost use Rattle.akl_syntax.specs.Goals.{call, choice, lifted, collect, lifted_collect, goals, parts};
ghost use Rattle.akl_syntax.specs.GoalView.{goal, part};
ghost use Rattle.akl_syntax.specs.Answers.{clause_view, clauses_view};
ghost use Rattle.akl_lift.specs.Places.{place, placed_variable, placed_tree, placed_trees};
ghost use Rattle.akl_lift.specs.Lifting.{name_of, choices_in, choices_in_all, choices_in_parts, without, without_all, part_clause, part_clauses, collect_clause, collect_shares, made, made_all, made_inside, made_in_part};
ghost use Rattle.akl_lift.specs.Noting.{outer_all, outer_parts, outer_collected, insides, insides_all, insides_parts, HasNoted};
ghost use Rattle.akl_lift.specs.Scopes.{IsScope, chosen_of, collecting, origin_view, definitions_view, part_without, made_by};

use crate::noting::Inside;
use crate::places::{placed, placed_term, placed_terms, placed_variables};
use crate::scope::{Scope, chosen, part_scope};
use akl_syntax::{Head, SourceClause, SourceGoal, SourcePart, SourceTerm};
use akl_terms::{Key, Op, Text};
use std::alloc::{AllocError, Global};

/// The written clause from which others are made, and what was noted of the choices and collecting goals in it.
#[derive(Drop)]
pub struct Origin {
    pub names: Vec<Text>,
    pub inside: Key,
    pub start: usize,
    pub noted: Vec<Inside>,
}

/// The next number, and the definitions that were made, one for each choice and each collecting goal of the written
/// clause so far.
#[derive(Drop)]
pub struct Made {
    pub next: u32,
    pub definitions: Vec<Vec<SourceClause>>,
}

/// The spelling of a variable.
fn spelling(alloc: Global, names: &[Text], number: u32) -> Result<Text, AllocError>
    ensures { IfOk result (λ t. t ≡ name_of names.now number) }
{
    match names.get(number as usize) {
        Some(name) => Ok(name.duplicate()?),
        None => Ok(Text::from_str(alloc, "")?),
    }
}

/// The spellings of variables.
fn spellings(alloc: Global, names: &[Text], order: &[u32]) -> Result<Vec<Text>, AllocError>
    ensures { IfOk result (λ v. v.items ≡ map (name_of names.now) order.now) }
{
    let mut found = Vec::new(alloc);
    for number in order {
        let name = spelling(alloc, names, *number)?;
        found.push(name)?;
    }
    Ok(found)
}

/// The head of a lifted definition of this number.
fn lifted_head(origin: &Origin, number: u32) -> Result<Head, AllocError>
    ensures { IfOk result (λ h. h ≡ Head.Lifted number origin.now.inside) }
{
    let symbol = origin.inside.symbol.duplicate()?;
    let arity = origin.inside.arity;
    Ok(Head::Lifted {
        number,
        inside: Key { symbol, arity },
    })
}

/// The clause of this part in the lifted definition of this number, which has these arguments. Its variables have this
/// order.
fn lifted_clause(
    alloc: Global,
    origin: &Origin,
    number: u32,
    arguments: &[u32],
    order: &[u32],
    part: SourcePart,
) -> Result<SourceClause, AllocError>
    requires { length order.now ≤ 4294967295 }
    ensures head { IfOk result (λ c. c.head ≡ Head.Lifted number origin.now.inside) }
    ensures arguments { IfOk result (λ c. map tree c.arguments.items ≡ map (placed_variable order.now) arguments.now) }
    ensures part { IfOk result (λ c. c.part ≡ part) }
    ensures collected { IfOk result (λ c. c.collected ≡ None) }
    ensures names { IfOk result (λ c. c.names.items ≡ map (name_of origin.now.names.items) order.now) }
    ensures start { IfOk result (λ c. c.start ≡ origin.now.start) }
{
    let head = lifted_head(origin, number)?;
    let arguments = placed_variables(alloc, order, arguments)?;
    let names = spellings(alloc, &origin.names, order)?;
    Ok(SourceClause {
        head,
        arguments,
        part,
        collected: None,
        names,
        start: origin.start,
    })
}

/// The call of a symbol, with its variables by their places.
fn placed_call(
    alloc: Global,
    order: &[u32],
    symbol: &Text,
    arguments: &[SourceTerm],
) -> Result<SourceGoal, AllocError>
    requires { length order.now ≤ 4294967295 }
    ensures { IfOk result (λ g. goal g ≡ call symbol.now (placed_trees order.now (trees (map tree arguments.now)))) }
{
    let symbol = symbol.duplicate()?;
    let arguments = placed_terms(alloc, order, arguments)?;
    Ok(SourceGoal::Call { symbol, arguments })
}

/// The call of the lifted definition of this number, with these variables by their places.
fn lifted_call(
    alloc: Global,
    order: &[u32],
    number: u32,
    arguments: &[u32],
) -> Result<SourceGoal, AllocError>
    requires { length order.now ≤ 4294967295 }
    ensures { IfOk result (λ g. goal g ≡ lifted number (map (place order.now) arguments.now)) }
{
    let arguments = placed(alloc, order, arguments)?;
    Ok(SourceGoal::Lifted { number, arguments })
}

/// The collecting call of the lifted definition of this number, with these variables by their places.
fn collecting_call(
    alloc: Global,
    order: &[u32],
    number: u32,
    arguments: &[u32],
    list: &SourceTerm,
) -> Result<SourceGoal, AllocError>
    requires { length order.now ≤ 4294967295 }
    ensures { IfOk result (λ g. goal g ≡ lifted_collect number (map (place order.now) arguments.now) (placed_tree order.now (tree list.now))) }
{
    let arguments = placed(alloc, order, arguments)?;
    let result = placed_term(alloc, order, list)?;
    Ok(SourceGoal::LiftedCollect {
        number,
        arguments,
        result,
    })
}

/// The clause of a collecting goal's definition, which has these arguments and this guard. Its variables have this
/// order.
fn collecting_clause(
    alloc: Global,
    origin: &Origin,
    number: u32,
    arguments: &[u32],
    order: &[u32],
    collected: &SourceTerm,
    guard: Vec<SourceGoal>,
) -> Result<SourceClause, AllocError>
    requires { length order.now ≤ 4294967295 }
    ensures { IfOk result (λ c. clause_view c ≡ collecting (origin_view origin.now) number order.now arguments.now (tree collected.now) (map goal guard.items)) }
{
    let part = SourcePart {
        guard,
        op: Op::Collect,
        body: Vec::new(alloc),
    };
    let mut clause = lifted_clause(alloc, origin, number, arguments, order, part)?;
    let term = placed_term(alloc, order, collected)?;
    clause.collected = Some(term);
    Ok(clause)
}

/// The goal without choices and collecting goals.
#[cycle(lifting)]
fn lift_goal(
    alloc: Global,
    origin: &Origin,
    scope: &Scope,
    out: &mut Made,
    written: &SourceGoal,
) -> Result<SourceGoal, AllocError>
    requires scope { IsScope scope.now }
    requires room { out.old.next + choices_in (goal written.now) ≤ 4294967295 }
    requires noted { HasNoted origin.now.noted.items (length (definitions_view out.old)) (insides (goal written.now)) }
    ensures next { OnOk result (out.new.next ≡ out.old.next + choices_in (goal written.now)) }
    ensures goal { IfOk result (λ g. goal g ≡ without scope.now.order.items (chosen_of scope.now) out.old.next (goal written.now)) }
    ensures made { OnOk result (definitions_view out.new ≡ definitions_view out.old ++ made (origin_view origin.now) (chosen_of scope.now) out.old.next (goal written.now)) }
{
    match written {
        SourceGoal::Call { symbol, arguments } => {
            placed_call(alloc, &scope.order, symbol, arguments)
        }
        SourceGoal::Choice(parts) => lift_choice(alloc, origin, scope, out, parts),
        SourceGoal::Collect {
            collected,
            goals,
            result: list,
        } => lift_collecting(alloc, origin, scope, out, goals, collected, list),
        SourceGoal::Lifted { number, arguments } => {
            lifted_call(alloc, &scope.order, *number, arguments)
        }
        SourceGoal::LiftedCollect {
            number,
            arguments,
            result: list,
        } => collecting_call(alloc, &scope.order, *number, arguments, list),
    }
}

/// The goals without choices and collecting goals.
#[cycle(lifting)]
pub fn lift_goals(
    alloc: Global,
    origin: &Origin,
    scope: &Scope,
    out: &mut Made,
    written: &[SourceGoal],
) -> Result<Vec<SourceGoal>, AllocError>
    requires scope { IsScope scope.now }
    requires room { out.old.next + choices_in_all (goals (map goal written.now)) ≤ 4294967295 }
    requires noted { HasNoted origin.now.noted.items (length (definitions_view out.old)) (insides_all (goals (map goal written.now))) }
    ensures next { OnOk result (out.new.next ≡ out.old.next + choices_in_all (goals (map goal written.now))) }
    ensures goals { IfOk result (λ v. map goal v.items ≡ without_all scope.now.order.items (chosen_of scope.now) out.old.next (goals (map goal written.now))) }
    ensures made { OnOk result (definitions_view out.new ≡ definitions_view out.old ++ made_all (origin_view origin.now) (chosen_of scope.now) out.old.next (goals (map goal written.now))) }
{
    let mut found = Vec::new(alloc);
    for goal in written {
        let next = lift_goal(alloc, origin, scope, out, goal)?;
        found.push(next)?;
    }
    Ok(found)
}

/// The call of the definition that is made of a choice.
#[cycle(lifting)]
fn lift_choice(
    alloc: Global,
    origin: &Origin,
    scope: &Scope,
    out: &mut Made,
    written: &[SourcePart],
) -> Result<SourceGoal, AllocError>
    requires scope { IsScope scope.now }
    requires room { out.old.next + (1 + choices_in_parts (parts (map part written.now))) ≤ 4294967295 }
    requires noted { HasNoted origin.now.noted.items (length (definitions_view out.old)) (insides (choice (parts (map part written.now)))) }
    ensures next { OnOk result (out.new.next ≡ out.old.next + (1 + choices_in_parts (parts (map part written.now)))) }
    ensures goal { IfOk result (λ g. goal g ≡ without scope.now.order.items (chosen_of scope.now) out.old.next (choice (parts (map part written.now)))) }
    ensures made { OnOk result (definitions_view out.new ≡ definitions_view out.old ++ made (origin_view origin.now) (chosen_of scope.now) out.old.next (choice (parts (map part written.now)))) }
{
    let number = out.next;
    let at = out.definitions.len();
    let inside = &origin.noted[at];
    let arguments = chosen(alloc, scope, &inside.variables)?;
    out.next = number + 1;
    out.definitions.push(Vec::new(alloc))?;
    let own = lift_parts(
        alloc,
        origin,
        number,
        &arguments,
        &inside.parts,
        out,
        written,
    )?;
    out.definitions[at] = own;
    lifted_call(alloc, &scope.order, number, &arguments)
}

/// The collecting call of the definition that is made of a collecting goal.
#[cycle(lifting)]
fn lift_collecting(
    alloc: Global,
    origin: &Origin,
    scope: &Scope,
    out: &mut Made,
    written: &[SourceGoal],
    collected: &SourceTerm,
    list: &SourceTerm,
) -> Result<SourceGoal, AllocError>
    requires scope { IsScope scope.now }
    requires room { out.old.next + (1 + choices_in_all (goals (map goal written.now))) ≤ 4294967295 }
    requires noted { HasNoted origin.now.noted.items (length (definitions_view out.old)) (insides (collect (tree collected.now) (goals (map goal written.now)) (tree list.now))) }
    ensures next { OnOk result (out.new.next ≡ out.old.next + (1 + choices_in_all (goals (map goal written.now)))) }
    ensures goal { IfOk result (λ g. goal g ≡ without scope.now.order.items (chosen_of scope.now) out.old.next (collect (tree collected.now) (goals (map goal written.now)) (tree list.now))) }
    ensures made { OnOk result (definitions_view out.new ≡ definitions_view out.old ++ made (origin_view origin.now) (chosen_of scope.now) out.old.next (collect (tree collected.now) (goals (map goal written.now)) (tree list.now))) }
{
    let number = out.next;
    let at = out.definitions.len();
    let inside = &origin.noted[at];
    let arguments = chosen(alloc, scope, &inside.variables)?;
    out.next += 1;
    out.definitions.push(Vec::new(alloc))?;
    let own = lift_collected(
        alloc,
        origin,
        number,
        &arguments,
        &inside.parts,
        out,
        written,
        collected,
    )?;
    out.definitions[at] = own;
    collecting_call(alloc, &scope.order, number, &arguments, list)
}

/// The only clause of the definition that is made of a collecting goal with these arguments.
#[cycle(lifting)]
fn lift_collected(
    alloc: Global,
    origin: &Origin,
    number: u32,
    arguments: &[u32],
    insides: &[Vec<u32>],
    out: &mut Made,
    written: &[SourceGoal],
    collected: &SourceTerm,
) -> Result<Vec<SourceClause>, AllocError>
    requires room { out.old.next + choices_in_all (goals (map goal written.now)) ≤ 4294967295 }
    requires noted { HasNoted origin.now.noted.items (length (definitions_view out.old)) (insides_all (goals (map goal written.now))) }
    requires insides { map (λ v. v.items) insides.now ≡ outer_collected (tree collected.now) (goals (map goal written.now)) }
    ensures next { OnOk result (out.new.next ≡ out.old.next + choices_in_all (goals (map goal written.now))) }
    ensures own { IfOk result (λ v. clauses_view v ≡ collect_clause (origin_view origin.now) number arguments.now out.old.next (tree collected.now) (goals (map goal written.now)) ∷ []) }
    ensures made { OnOk result (definitions_view out.new ≡ definitions_view out.old ++ made_all (origin_view origin.now) (collect_shares arguments.now (tree collected.now) (goals (map goal written.now))) out.old.next (goals (map goal written.now))) }
{
    let scope = part_scope(alloc, arguments, &insides[0])?;
    let guard = lift_goals(alloc, origin, &scope, out, written)?;
    let clause = collecting_clause(
        alloc,
        origin,
        number,
        arguments,
        &scope.order,
        collected,
        guard,
    )?;
    let mut own = Vec::new(alloc);
    own.push(clause)?;
    Ok(own)
}

/// The clauses of the definition that is made of a choice with these arguments.
#[cycle(lifting)]
fn lift_parts(
    alloc: Global,
    origin: &Origin,
    number: u32,
    arguments: &[u32],
    insides: &[Vec<u32>],
    out: &mut Made,
    written: &[SourcePart],
) -> Result<Vec<SourceClause>, AllocError>
    requires room { out.old.next + choices_in_parts (parts (map part written.now)) ≤ 4294967295 }
    requires noted { HasNoted origin.now.noted.items (length (definitions_view out.old)) (insides_parts (parts (map part written.now))) }
    requires insides { map (λ v. v.items) insides.now ≡ outer_parts (parts (map part written.now)) }
    ensures next { OnOk result (out.new.next ≡ out.old.next + choices_in_parts (parts (map part written.now))) }
    ensures own { IfOk result (λ v. clauses_view v ≡ part_clauses (origin_view origin.now) number arguments.now out.old.next (parts (map part written.now))) }
    ensures made { OnOk result (definitions_view out.new ≡ definitions_view out.old ++ made_inside (origin_view origin.now) arguments.now out.old.next (parts (map part written.now))) }
{
    let mut own = Vec::new(alloc);
    for (index, part) in written.iter().enumerate() {
        let clause = lift_part(alloc, origin, number, arguments, &insides[index], out, part)?;
        own.push(clause)?;
    }
    Ok(own)
}

/// The goals of a part's body without choices.
#[cycle(lifting)]
fn lift_body(
    alloc: Global,
    origin: &Origin,
    scope: &Scope,
    out: &mut Made,
    written: &SourcePart,
) -> Result<Vec<SourceGoal>, AllocError>
    requires scope { IsScope scope.now }
    requires room { out.old.next + choices_in_all (goals (map goal written.now.body.items)) ≤ 4294967295 }
    requires noted { HasNoted origin.now.noted.items (length (definitions_view out.old)) (insides_all (goals (map goal written.now.body.items))) }
    ensures next { OnOk result (out.new.next ≡ out.old.next + choices_in_all (goals (map goal written.now.body.items))) }
    ensures goals { IfOk result (λ v. map goal v.items ≡ without_all scope.now.order.items (chosen_of scope.now) out.old.next (goals (map goal written.now.body.items))) }
    ensures made { OnOk result (definitions_view out.new ≡ definitions_view out.old ++ made_all (origin_view origin.now) (chosen_of scope.now) out.old.next (goals (map goal written.now.body.items))) }
{
    lift_goals(alloc, origin, scope, out, &written.body)
}

/// The part without choices.
#[cycle(lifting)]
pub fn lift_guard_and_body(
    alloc: Global,
    origin: &Origin,
    scope: &Scope,
    out: &mut Made,
    written: &SourcePart,
) -> Result<SourcePart, AllocError>
    requires scope { IsScope scope.now }
    requires room { out.old.next + (choices_in_all (goals (map goal written.now.guard.items)) + choices_in_all (goals (map goal written.now.body.items))) ≤ 4294967295 }
    requires noted { HasNoted origin.now.noted.items (length (definitions_view out.old)) (insides_all (goals (map goal written.now.guard.items)) ++ insides_all (goals (map goal written.now.body.items))) }
    ensures next { OnOk result (out.new.next ≡ out.old.next + (choices_in_all (goals (map goal written.now.guard.items)) + choices_in_all (goals (map goal written.now.body.items)))) }
    ensures part { IfOk result (λ p. part p ≡ part_without scope.now.order.items (chosen_of scope.now) out.old.next (goals (map goal written.now.guard.items)) written.now.op (goals (map goal written.now.body.items))) }
    ensures made { OnOk result (definitions_view out.new ≡ definitions_view out.old ++ made_by (origin_view origin.now) (chosen_of scope.now) out.old.next (goals (map goal written.now.guard.items)) (goals (map goal written.now.body.items))) }
{
    let guard = lift_goals(alloc, origin, scope, out, &written.guard)?;
    let body = lift_body(alloc, origin, scope, out, written)?;
    let op = written.op;
    Ok(SourcePart { guard, op, body })
}

/// The clause of a part.
#[cycle(lifting)]
fn lift_part(
    alloc: Global,
    origin: &Origin,
    number: u32,
    arguments: &[u32],
    inside: &[u32],
    out: &mut Made,
    written: &SourcePart,
) -> Result<SourceClause, AllocError>
    requires room { out.old.next + (choices_in_all (goals (map goal written.now.guard.items)) + choices_in_all (goals (map goal written.now.body.items))) ≤ 4294967295 }
    requires noted { HasNoted origin.now.noted.items (length (definitions_view out.old)) (insides_all (goals (map goal written.now.guard.items)) ++ insides_all (goals (map goal written.now.body.items))) }
    requires inside { inside.now ≡ outer_all (goals (map goal written.now.guard.items)) ++ outer_all (goals (map goal written.now.body.items)) }
    ensures next { OnOk result (out.new.next ≡ out.old.next + (choices_in_all (goals (map goal written.now.guard.items)) + choices_in_all (goals (map goal written.now.body.items)))) }
    ensures clause { IfOk result (λ c. clause_view c ≡ part_clause (origin_view origin.now) number arguments.now out.old.next (goals (map goal written.now.guard.items)) written.now.op (goals (map goal written.now.body.items))) }
    ensures made { OnOk result (definitions_view out.new ≡ definitions_view out.old ++ made_in_part (origin_view origin.now) arguments.now out.old.next (goals (map goal written.now.guard.items)) (goals (map goal written.now.body.items))) }
{
    let scope = part_scope(alloc, arguments, inside)?;
    let part = lift_guard_and_body(alloc, origin, &scope, out, written)?;
    lifted_clause(alloc, origin, number, arguments, &scope.order, part)
}
