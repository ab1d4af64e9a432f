//! Laws of plans of several labels, each the contract of a function without a body.

ghost use Rattle.plan_laws.specs.Agreeing.{UnwrittenLaw, OwnStoreLaw};
ghost use Rattle.plan_laws.specs.AtOnce.{AtOnceLaw, AtOnceWhereverLaw};
ghost use Rattle.plan_laws.specs.Between.{NetBindsLaw};
ghost use Rattle.plan_laws.specs.CallExample.{ThreeLabels, CallWithBody};
ghost use Rattle.plan_laws.specs.Lists.{ListLaw, DerivesOnLaw, OnTopLaw};
ghost use Rattle.plan_laws.specs.Wakes.{NetOpensLaw, NetRunsLaw, NetKeptLaw, DropsGoneLaw};
ghost use Rattle.plan_laws.specs.Wherever.{WhereverLaw, FollowsLaw, AsReadLaw, NextAfterLaw};

/// A label leads on from every configuration that follows the one for which it was made, has its worker's
/// next number and agrees on what it reads, whatever journal led there; and each configuration of a
/// derivation follows the earlier ones.
pub fn right_by_contents()
    ensures right { WhereverLaw }
    ensures follows { FollowsLaw }
    ensures as_read { AsReadLaw }
    ensures next_after { NextAfterLaw }
{}

/// A list of labels is right where each finds what it reads on what the earlier ones made, and then
/// makes a derivation; a label on top of another of its worker finds the next number of itself.
pub fn one_on_another()
    ensures list { ListLaw }
    ensures derives { DerivesOnLaw }
    ensures on_top { OnTopLaw }
{}

/// What agrees in two configurations agrees after a label that makes the same change in both: each item
/// that it may not change, and the constraint of the box of its place.
pub fn same_afterwards()
    ensures unwritten { UnwrittenLaw }
    ensures own_store { OwnStoreLaw }
{}

/// A call is forked, alternatives that clash fail, others are cut away, the one that is left is
/// promoted, and goals of its body are told or evaluated in order: the labels lead on one after another,
/// to the configuration in which the goal has gone and the frames and the equations of that alternative,
/// what is told of its body, and the other goals of the body have joined its box. They
/// lead on with the same net change from every configuration that follows the one for which they were
/// made, has the worker's next number, and agrees on the goal and on the constraints down to its box.
/// The last three labels of the model's example of a run are such a call, and so are those of a call
/// of which an equation of the body is told and a call is left. What is bound in the goal's
/// box from before the call is what is bound there from each configuration between.
pub fn call_at_once()
    ensures leads { AtOnceLaw }
    ensures wherever { AtOnceWhereverLaw }
    ensures example { ThreeLabels }
    ensures body { CallWithBody }
    ensures binds { NetBindsLaw }
{}

/// Where the guards of a call at once have heads and comparisons alone: of the places that are still
/// there its labels, committed one after another, leave open those that the net change leaves open as
/// one commit. So a run goes on by all labels with what the net change opens, and kept waits stay as
/// they have to be. Places that have gone may be dropped from what runs, with their waits.
pub fn woken_by_call()
    ensures opens { NetOpensLaw }
    ensures runs { NetRunsLaw }
    ensures kept { NetKeptLaw }
    ensures drops { DropsGoneLaw }
{}
