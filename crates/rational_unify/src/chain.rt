//! Chains of bindings from variable to variable.

ghost use Rattle.std.specs.Prelude.{◌≡◌, ◌++◌, IfOk};
ghost use Rattle.akl_terms.specs.Template.{tree};
ghost use Rattle.rational_unify.specs.Known.{IsSolved, end_of, next_in};
ghost use Rattle.rational_unify.specs.Shortened.{IsEndOf, IsVariableOf};
ghost use Rattle.rational_unify.specs.Followed.{Leads, Follows, ReboundAll};

use crate::added::AddedBindings;
use crate::known::Lookup;
use akl_terms::{Seen, Templates, Term, Var};
use smallvec::SmallVec;
use std::alloc::AllocError;

/// Variables whose bindings were read.
pub type Followed = SmallVec<Var, 12>;

/// The end of a term's chain: the term itself, where it is no variable that is bound.
pub fn chain_end<K: Lookup>(templates: &Templates, known: &K, term: Term) -> Term
    requires { IsSolved templates.now.nodes (K.bindings known.now) }
    ensures { tree templates.now.nodes result ≡ end_of templates.now.nodes (K.bindings known.now) (tree templates.now.nodes term) }
{
    let mut last = term;
    while let Some(next) = bound_to(templates, known, last) {
        last = next;
    }
    last
}

/// What a term is bound to, where it is a variable that is bound.
fn bound_to<K: Lookup>(templates: &Templates, known: &K, term: Term) -> Option<Term>
    ensures { result ≡ next_in templates.now.nodes (K.bindings known.now) term }
{
    match templates.look(term) {
        Seen::Free(variable) => known.get(variable),
        _ => None,
    }
}

/// The variable at the end of a variable's chain; `None` exactly where a term with a head is there.
pub fn variable_end<K: Lookup>(templates: &Templates, known: &K, variable: Var) -> Option<Var>
    requires { IsSolved templates.now.nodes (K.bindings known.now) }
    ensures { IsEndOf templates.now.nodes (K.bindings known.now) variable result }
{
    match known.get(variable) {
        Some(term) => end_variable(templates, known, term),
        None => Some(variable),
    }
}

/// The variable at the end of a term's chain; `None` exactly where a term with a head is there.
pub fn end_variable<K: Lookup>(templates: &Templates, known: &K, term: Term) -> Option<Var>
    requires { IsSolved templates.now.nodes (K.bindings known.now) }
    ensures { IsVariableOf (end_of templates.now.nodes (K.bindings known.now) (tree templates.now.nodes term)) result }
{
    match templates.look(chain_end(templates, known, term)) {
        Seen::Free(end) => Some(end),
        _ => None,
    }
}

/// Known bindings, and those that were added to them.
#[derive(Drop)]
pub struct Together<'a, K: Lookup> {
    pub known: &'a K,
    pub added: &'a AddedBindings,
}

impl<'a, K: Lookup> Lookup for Together<'a, K> {
    ghost use Rattle.std.specs.Prelude.{◌++◌};

    ghost bindings = { λ b. K.bindings b.known.now ++ b.added.now };

    fn get(&self, variable: Var) -> Option<Term> {
        match self.known.get(variable) {
            Some(term) => Some(term),
            None => self.added.get(variable),
        }
    }
}

/// The end of a term's chain. All variables on the chain are put at the end of a list.
fn path_of<K: Lookup>(
    templates: &Templates,
    known: &K,
    term: Term,
    variables: &mut Followed,
) -> Result<Term, AllocError>
    requires { IsSolved templates.now.nodes (K.bindings known.now) }
    ensures { IfOk result (λ end. Leads templates.now.nodes (K.bindings known.now) term variables.old.items variables.new.items end) }
{
    let mut last = term;
    while let Seen::Free(variable) = templates.look(last) {
        variables.push(variable)?;
        match known.get(variable) {
            Some(next) => last = next,
            None => return Ok(last),
        }
    }
    Ok(last)
}

/// The end of a term's chain. Each added variable on the chain is bound to it, and all variables
/// on the chain are put to those that were followed.
pub fn follow<K: Lookup>(
    templates: &Templates,
    known: &K,
    added: &mut AddedBindings,
    followed: &mut Followed,
    term: Term,
) -> Result<Term, AllocError>
    requires { IsSolved templates.now.nodes (K.bindings known.now ++ added.old) }
    ensures { IfOk result (λ end. Follows templates.now.nodes (K.bindings known.now) term added.old added.new followed.old.items followed.new.items end) }
{
    let start = followed.len();
    let end = path_of(templates, &Together { known, added }, term, followed)?;
    // The last variable on the way is bound to the end, or to nothing.
    let last = followed.len().saturating_sub(1).max(start);
    rebind_all(added, &followed.as_slice()[start..last], end);
    Ok(end)
}

/// Binds each of these variables that is bound to a term.
#[inline(always)]
fn rebind_all(added: &mut AddedBindings, variables: &[Var], term: Term)
    ensures { ReboundAll term added.old variables.now added.new }
{
    for variable in variables {
        added.rebind(*variable, term);
    }
}
