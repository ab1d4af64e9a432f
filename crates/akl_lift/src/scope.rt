//! The variables of one clause.

ghost use Rattle.std.specs.Prelude.{◌≡◌, ◌≤◌, ◌++◌, ◌∷◌, [], ◌==◌, ◌&&◌, if◌then◌else◌, IfOk, OnOk, length, nat_lt};
ghost use Rattle.std.specs.List.{filter};
ghost use Rattle.akl_lift.specs.Lifting.{seen_from, numbers_from, is_hidden, shown_from};
ghost use Rattle.akl_lift.specs.Scopes.{count_in, chosen, is_chosen, IsTally, IsScope};

use crate::seen::add_unknowns;
use crate::variables::add_all;
use akl_terms::Text;
use std::alloc::{AllocError, Global};
use std::collections::HashMap;

/// The order of a clause's variables, and how often each occurs. Those of an inline choice count once for the choice.
#[derive(Drop)]
pub struct Scope {
    pub order: Vec<u32>,
    pub counts: HashMap<u32, u64>,
}

/// How often each number stands in a list.
fn tally(alloc: Global, numbers: &[u32]) -> Result<HashMap<u32, u64>, AllocError>
    ensures { IfOk result (IsTally numbers.now) }
{
    let mut counts = HashMap::new(alloc);
    for number in numbers {
        *counts.entry(*number)?.or_insert(0) += 1;
    }
    Ok(counts)
}

/// How often a number was counted.
fn count_in(counts: &HashMap<u32, u64>, number: u32) -> u64
    ensures { result ≡ count_in counts.now number }
{
    match counts.get(&number) {
        Some(count) => *count,
        None => 0,
    }
}

/// Whether a variable that occurs inside was counted twice or more.
fn was_counted(counts: &HashMap<u32, u64>, within: &HashMap<u32, u64>, number: u32) -> bool
    ensures { result ≡ nat_lt 0 (count_in within.now number) && nat_lt 1 (count_in counts.now number) }
{
    0 < count_in(within, number) && 1 < count_in(counts, number)
}

/// Adds a variable that occurs in a choice and also outside it.
fn add_chosen(
    found: &mut Vec<u32>,
    scope: &Scope,
    inside: &[u32],
    within: &HashMap<u32, u64>,
    number: u32,
) -> Result<(), AllocError>
    requires { IsTally inside.now within.now }
    ensures { OnOk result (found.new.items ≡ found.old.items ++ filter (is_chosen scope.now inside.now) (number ∷ [])) }
{
    if was_counted(&scope.counts, within, number) {
        found.push(number)?;
    }
    Ok(())
}

/// The variables of a choice that occur also outside it, where the choice has these.
pub fn chosen(alloc: Global, scope: &Scope, inside: &[u32]) -> Result<Vec<u32>, AllocError>
    ensures { IfOk result (λ v. v.items ≡ chosen scope.now inside.now) }
{
    let within = tally(alloc, inside)?;
    let mut found = Vec::new(alloc);
    for number in &scope.order {
        add_chosen(&mut found, scope, inside, &within, *number)?;
    }
    Ok(found)
}

/// The numbers below a count, in order.
fn numbers_below(alloc: Global, count: usize) -> Result<Vec<u32>, AllocError>
    ensures order { IfOk result (λ v. v.items ≡ numbers_from 0 count) }
    ensures few { IfOk result (λ v. length v.items ≤ 4294967295) }
{
    // No clause has so many variables.
    if count > 4294967295 {
        return Err(AllocError);
    }
    let mut numbers = Vec::new(alloc);
    for number in 0..count as u32 {
        numbers.push(number)?;
    }
    Ok(numbers)
}

/// A clause's variables, which have this order and occur at these places.
fn scope_of(alloc: Global, order: Vec<u32>, occurrences: &[u32]) -> Result<Scope, AllocError>
    requires { length order.items ≤ 4294967295 }
    ensures order { IfOk result (λ s. s.order.items ≡ order.items) }
    ensures counts { IfOk result (λ s. IsTally occurrences.now s.counts) }
    ensures scope { IfOk result IsScope }
{
    let counts = tally(alloc, occurrences)?;
    Ok(Scope { order, counts })
}

/// The variables of a written clause that has so many, which occur at these places.
pub fn written_scope(alloc: Global, count: usize, occurrences: &[u32]) -> Result<Scope, AllocError>
    ensures order { IfOk result (λ s. s.order.items ≡ numbers_from 0 count) }
    ensures counts { IfOk result (λ s. IsTally occurrences.now s.counts) }
    ensures scope { IfOk result IsScope }
{
    let order = numbers_below(alloc, count)?;
    scope_of(alloc, order, occurrences)
}

/// The variables of the clause that a part becomes, where the part has these.
pub fn part_scope(alloc: Global, arguments: &[u32], inside: &[u32]) -> Result<Scope, AllocError>
    ensures order { IfOk result (λ s. s.order.items ≡ seen_from [] (arguments.now ++ inside.now)) }
    ensures counts { IfOk result (λ s. IsTally (arguments.now ++ inside.now) s.counts) }
    ensures scope { IfOk result IsScope }
{
    let mut all = Vec::new(alloc);
    add_all(&mut all, arguments)?;
    add_all(&mut all, inside)?;
    let mut order = Vec::new(alloc);
    add_unknowns(&mut order, &all)?;
    // No clause has so many variables.
    if order.len() > 4294967295 {
        return Err(AllocError);
    }
    scope_of(alloc, order, &all)
}

/// Whether the name begins with `_`.
fn hidden(name: &str) -> bool
    ensures { result ≡ is_hidden name.now }
{
    match name.as_bytes().first() {
        Some(first) => *first == b'_',
        None => false,
    }
}

/// Adds the variables whose names don't begin with `_`.
pub fn add_shown(found: &mut Vec<u32>, names: &[Text]) -> Result<(), AllocError>
    ensures { OnOk result (found.new.items ≡ found.old.items ++ shown_from 0 names.now) }
{
    // No query has so many variables.
    if names.len() > 4294967295 {
        return Err(AllocError);
    }
    for (index, name) in names.iter().enumerate() {
        if !hidden(name.as_str()) {
            found.push(index as u32)?;
        }
    }
    Ok(())
}
