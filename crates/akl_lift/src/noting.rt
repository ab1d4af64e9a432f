//! What one walk notes of each inline choice and each collecting goal, so that none is walked through again for each
//! one around it.

ghost use Rattle.std.specs.Prelude.{◌≡◌, ◌++◌, map, IfOk, OnOk};
ghost use Rattle.term_syntax.specs.View.{tree};
ghost use Rattle.akl_syntax.specs.Goals.{choice, collect, goals, parts};
ghost use Rattle.akl_syntax.specs.GoalView.{goal, part};
ghost use Rattle.std.specs.List.{concat};
ghost use Rattle.akl_lift.specs.Noting.{distinct, outer, outer_all, outer_parts, outer_collected, insides, insides_all, insides_parts, inside_view};

use crate::seen::seen_in_all;
use crate::variables::{add_all, add_term, add_terms};
use akl_syntax::{SourceGoal, SourcePart, SourceTerm};
use std::alloc::{AllocError, Global};

/// The variables of an inline choice, each once, and those of each of its parts, where a choice in it counts as the
/// variables that are noted of it. A collecting goal is noted as a choice of one part.
#[derive(Drop)]
pub struct Inside {
    pub variables: Vec<u32>,
    pub parts: Vec<Vec<u32>>,
}

/// What is noted of a choice whose parts have these variables.
fn inside_of(alloc: Global, parts: Vec<Vec<u32>>) -> Result<Inside, AllocError>
    ensures variables { IfOk result (λ x. x.variables.items ≡ distinct (concat (map (λ l. l.items) parts.items))) }
    ensures parts { IfOk result (λ x. x.parts.items ≡ parts.items) }
{
    let variables = seen_in_all(alloc, &parts)?;
    Ok(Inside { variables, parts })
}

/// Notes the choices in a goal, and adds the goal's variables.
#[cycle(noting)]
fn note_goal(
    alloc: Global,
    noted: &mut Vec<Inside>,
    found: &mut Vec<u32>,
    written: &SourceGoal,
) -> Result<(), AllocError>
    ensures found { OnOk result (found.new.items ≡ found.old.items ++ outer (goal written.now)) }
    ensures noted { OnOk result (map inside_view noted.new.items ≡ map inside_view noted.old.items ++ insides (goal written.now)) }
{
    match written {
        SourceGoal::Call { arguments, .. } => add_terms(found, arguments),
        SourceGoal::Choice(parts) => note_choice(alloc, noted, found, parts),
        SourceGoal::Collect {
            collected,
            goals,
            result: list,
        } => note_collecting(alloc, noted, found, goals, collected, list),
        SourceGoal::Lifted { arguments, .. } => add_all(found, arguments),
        SourceGoal::LiftedCollect {
            arguments,
            result: list,
            ..
        } => {
            add_all(found, arguments)?;
            add_term(found, list)
        }
    }
}

/// Notes the choices in goals, and adds the goals' variables.
#[cycle(noting)]
pub fn note_goals(
    alloc: Global,
    noted: &mut Vec<Inside>,
    found: &mut Vec<u32>,
    written: &[SourceGoal],
) -> Result<(), AllocError>
    ensures found { OnOk result (found.new.items ≡ found.old.items ++ outer_all (goals (map goal written.now))) }
    ensures noted { OnOk result (map inside_view noted.new.items ≡ map inside_view noted.old.items ++ insides_all (goals (map goal written.now))) }
{
    for goal in written {
        note_goal(alloc, noted, found, goal)?;
    }
    Ok(())
}

/// Notes a choice and those in it, and adds its variables.
#[cycle(noting)]
fn note_choice(
    alloc: Global,
    noted: &mut Vec<Inside>,
    found: &mut Vec<u32>,
    written: &[SourcePart],
) -> Result<(), AllocError>
    ensures found { OnOk result (found.new.items ≡ found.old.items ++ outer (choice (parts (map part written.now)))) }
    ensures noted { OnOk result (map inside_view noted.new.items ≡ map inside_view noted.old.items ++ insides (choice (parts (map part written.now)))) }
{
    let at = noted.len();
    noted.push(Inside {
        variables: Vec::new(alloc),
        parts: Vec::new(alloc),
    })?;
    let parts = note_parts(alloc, noted, written)?;
    let inside = inside_of(alloc, parts)?;
    add_all(found, &inside.variables)?;
    noted[at] = inside;
    Ok(())
}

/// Notes a collecting goal and what is inside of it, and adds its variables.
#[cycle(noting)]
fn note_collecting(
    alloc: Global,
    noted: &mut Vec<Inside>,
    found: &mut Vec<u32>,
    written: &[SourceGoal],
    collected: &SourceTerm,
    list: &SourceTerm,
) -> Result<(), AllocError>
    ensures found { OnOk result (found.new.items ≡ found.old.items ++ outer (collect (tree collected.now) (goals (map goal written.now)) (tree list.now))) }
    ensures noted { OnOk result (map inside_view noted.new.items ≡ map inside_view noted.old.items ++ insides (collect (tree collected.now) (goals (map goal written.now)) (tree list.now))) }
{
    let at = noted.len();
    noted.push(Inside {
        variables: Vec::new(alloc),
        parts: Vec::new(alloc),
    })?;
    let parts = note_collected(alloc, noted, written, collected)?;
    let inside = inside_of(alloc, parts)?;
    add_all(found, &inside.variables)?;
    noted[at] = inside;
    add_term(found, list)
}

/// Notes what is inside of a collecting goal, and gives its variables, as of one part.
#[cycle(noting)]
fn note_collected(
    alloc: Global,
    noted: &mut Vec<Inside>,
    written: &[SourceGoal],
    collected: &SourceTerm,
) -> Result<Vec<Vec<u32>>, AllocError>
    ensures parts { IfOk result (λ v. map (λ l. l.items) v.items ≡ outer_collected (tree collected.now) (goals (map goal written.now))) }
    ensures noted { OnOk result (map inside_view noted.new.items ≡ map inside_view noted.old.items ++ insides_all (goals (map goal written.now))) }
{
    let mut found = Vec::new(alloc);
    add_term(&mut found, collected)?;
    note_goals(alloc, noted, &mut found, written)?;
    let mut lists = Vec::new(alloc);
    lists.push(found)?;
    Ok(lists)
}

/// Notes the choices in the parts of a choice, and gives each part's variables.
#[cycle(noting)]
fn note_parts(
    alloc: Global,
    noted: &mut Vec<Inside>,
    written: &[SourcePart],
) -> Result<Vec<Vec<u32>>, AllocError>
    ensures parts { IfOk result (λ v. map (λ l. l.items) v.items ≡ outer_parts (parts (map part written.now))) }
    ensures noted { OnOk result (map inside_view noted.new.items ≡ map inside_view noted.old.items ++ insides_parts (parts (map part written.now))) }
{
    let mut lists = Vec::new(alloc);
    for part in written {
        let mut found = Vec::new(alloc);
        note_part(alloc, noted, &mut found, part)?;
        lists.push(found)?;
    }
    Ok(lists)
}

/// Notes the choices in a part, and adds the part's variables.
#[cycle(noting)]
pub fn note_part(
    alloc: Global,
    noted: &mut Vec<Inside>,
    found: &mut Vec<u32>,
    written: &SourcePart,
) -> Result<(), AllocError>
    ensures found { OnOk result (found.new.items ≡ found.old.items ++ (outer_all (goals (map goal written.now.guard.items)) ++ outer_all (goals (map goal written.now.body.items)))) }
    ensures noted { OnOk result (map inside_view noted.new.items ≡ map inside_view noted.old.items ++ (insides_all (goals (map goal written.now.guard.items)) ++ insides_all (goals (map goal written.now.body.items)))) }
{
    note_goals(alloc, noted, found, &written.guard)?;
    note_goals(alloc, noted, found, &written.body)
}
