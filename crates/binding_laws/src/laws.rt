//! Laws of the variables that a plan lists, each the contract of a function without a body.

ghost use Rattle.binding_laws.specs.Bindings.{BindsLaterLaw, CallBindsAgainLaw, ListedOutsideLaw, StepOutsideLaw, CallOutsideLaw};

/// Variables that a label binds, enough of them, are so after further labels that leave unchanged what the
/// step reads.
pub fn binding_later()
    ensures { BindsLaterLaw }
{}

/// Variables that a call at once binds, enough of them, are so where it is made in another configuration.
pub fn call_binding_again()
    ensures { CallBindsAgainLaw }
{}

/// A label binds a variable that is external to the box of its place exactly where a listed one is of
/// none of the box's own frames afterwards; these are the frames of the store that the label's step gives
/// the box. So it is of a call at once.
pub fn listed_outside()
    ensures own { ListedOutsideLaw }
    ensures by_step { StepOutsideLaw }
    ensures by_call { CallOutsideLaw }
{}
