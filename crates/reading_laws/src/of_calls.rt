//! Laws of calls at once, each the contract of a function without a body.

ghost use Rattle.reading_laws.specs.CallMarks.{CallUnlistedLaw};
ghost use Rattle.reading_laws.specs.CallPlans.{CallPlanLaw};
ghost use Rattle.reading_laws.specs.CallsAgain.{CallsAgainLaw};
ghost use Rattle.reading_laws.specs.SeenCalls.{SeenCallLaw};

/// The labels of a call at once lead on from a later configuration where its goal is unchanged, the equations down to
/// its box have grown consistently, and nothing was bound since that the call binds: the same equations are added,
/// which bind what they bound, and the same goals are left. So a plan of them stays right by the items that a plan of
/// one label reads.
pub fn calls_again()
    ensures again { CallsAgainLaw }
    ensures plans { CallPlanLaw }
{}

/// A variable that isn't listed as bound by the net change of a call at once, whose guards tell nothing, isn't bound by
/// any of its labels where it is an end.
pub fn call_marks()
    ensures { CallUnlistedLaw }
{}

/// A call at once that was planned for a prefix of a journal leads on from the whole of it and binds what the plan lists,
/// where no label behind the prefix changed, by stamps and marks, what the plan reads.
pub fn seen_calls()
    ensures { SeenCallLaw }
{}
