//! The oldest variables of classes.

ghost use Rattle.std.specs.Prelude.{◌≡◌, ◌≤◌, IfOk, length, not, true, cond};
ghost use Rattle.std.specs.List.Sorted.{IsSorted};
ghost use Rattle.akl_terms.specs.Names.{same_var, var_cmp};
ghost use Rattle.rational_unify.specs.Known.{IsSolved};
ghost use Rattle.local_store.specs.Chained.{equations_of};
ghost use Rattle.class_members.specs.Listed.{has};
ghost use Rattle.class_members.specs.Members.{outermost_of};
ghost use Rattle.why_report.specs.Classes.{AreOldest, AreLeast, AreFirst};

use akl_terms::{Templates, Var};
use class_members::members;
use local_store::{Chain, take_stores};
use rational_unify::{AddedBindings, Form, Lookup, variable_end};
use std::alloc::{AllocError, Global};
use std::collections::HashSet;

/// The oldest variable of each class of these by the outermost store of a chain, in increasing order. A structured
/// variable has none, and there are none where that store is inconsistent.
///
/// Where the store isn't known to be solved, it is solved twice, for all variables together.
pub(crate) fn oldest_of(alloc: Global, chain: &Chain, of: &[Var]) -> Result<Vec<Var>, AllocError>
    requires { 1 ≤ length chain.now.stores }
    ensures { IfOk result (λ list. AreOldest (outermost_of chain.now.nodes chain.now.stores) of.now list.items) }
{
    let outermost = chain.outer(1);
    let mut list = members(alloc, &outermost, of)?;
    list.sort_unstable();
    first_of_each(alloc, &outermost, list.as_slice())
}

// The first variable of each class among these, which are in order.
fn first_of_each(alloc: Global, chain: &Chain, sorted: &[Var]) -> Result<Vec<Var>, AllocError>
    requires { IsSorted var_cmp sorted.now }
    ensures { IfOk result (λ list. AreLeast (equations_of chain.now.nodes chain.now.stores) sorted.now list.items) }
{
    let templates = chain.templates();
    let known = chain.known();
    let base = chain.outer(known);
    let mut form = Form {
        known: &base,
        added: AddedBindings::new(alloc),
    };
    match take_stores(alloc, templates, &mut form, &chain.stores()[known..])? {
        Some(_) => Ok(Vec::new(alloc)),
        None => first_by_ends(alloc, templates, &form, sorted),
    }
}

// The first of these variables with each end of chains in a variable.
fn first_by_ends<W: Lookup>(
    alloc: Global,
    templates: &Templates,
    whole: &W,
    sorted: &[Var],
) -> Result<Vec<Var>, AllocError>
    requires solved { IsSolved templates.now.nodes (W.bindings whole.now) }
    requires sorted { IsSorted var_cmp sorted.now }
    ensures { IfOk result (λ list. AreFirst templates.now.nodes (W.bindings whole.now) sorted.now list.items) }
{
    let mut met = HashSet::new(alloc);
    let mut list = Vec::new(alloc);
    for variable in sorted {
        if let Some(end) = variable_end(templates, whole, *variable) {
            if meet(&mut met, end)? {
                list.push(*variable)?;
            }
        }
    }
    Ok(list)
}

// Meets a variable: whether it wasn't met before.
fn meet(met: &mut HashSet<Var>, variable: Var) -> Result<bool, AllocError>
    ensures new { IfOk result (λ new. new ≡ not (has met.old.keys variable)) }
    ensures met { IfOk result (λ _. (x : _) → has met.new.keys x ≡ cond (same_var variable x) true (has met.old.keys x)) }
{
    match met.insert(variable) {
        Ok(new) => Ok(new),
        Err(_) => Err(AllocError),
    }
}
