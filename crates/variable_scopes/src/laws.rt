//! Laws of the definitions, which need no result of a function.

ghost use Rattle.variable_scopes.specs.Laws.{OneScopedLaw, OneScopedQueryLaw};

/// Clauses and queries have one form whose variables go by their scopes.
pub fn one_form()
    ensures clauses { OneScopedLaw }
    ensures query { OneScopedQueryLaw }
{}
