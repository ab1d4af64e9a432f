//! Laws of plans of calls at once over later tables, each the contract of a function without a body.

ghost use Rattle.table_laws.specs.CallStores.{CallLeavesLaw};
ghost use Rattle.table_laws.specs.Calling.{CallsLaterLaw};
ghost use Rattle.table_laws.specs.CallsHere.{CallsFromLaw, CallsHereLaw};

/// A call at once gives its box the own store of every later table with what its plan adds, where what this reads is unchanged.
pub fn calls_later()
    ensures { CallsLaterLaw }
{}

/// What the plan of a call adds to the store of its own table, and the store that this makes, are right alike.
pub fn calls_here()
    ensures here { CallsHereLaw }
    ensures from { CallsFromLaw }
{}

/// No label of a call at once changes the store of its box, where bindings are told apart.
pub fn call_stores()
    ensures { CallLeavesLaw }
{}
