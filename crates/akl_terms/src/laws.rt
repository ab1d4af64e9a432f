//! Laws, each the contract of a function without a body.

ghost use Rattle.std.specs.Prelude.{◌≡◌};
ghost use Rattle.akl_terms.specs.declared.name.Name as name;
ghost use Rattle.akl_terms.specs.declared.name.Var as var;
ghost use Rattle.akl_terms.specs.declared.name.Place as place;
ghost use Rattle.akl_terms.specs.Names.{name_cmp, var_cmp, place_cmp};
ghost use Rattle.akl_terms.specs.Equal.{GrowsLaw, DerivedLaw, FewerLaw};
ghost use Rattle.akl_terms.specs.Standing.{FollowedStandsLaw, StandsBackLaw, StandsOnLaw, EqualStandsLaw};

use crate::name::{Name, Place, Var};

/// Equality grows with the equations, an equation that can be derived adds nothing, and fewer
/// equations are as consistent.
pub fn equality()
    ensures grows { GrowsLaw }
    ensures derived { DerivedLaw }
    ensures fewer { FewerLaw }
{}

/// Equations that follow from each other stand for each other, what stands for what stands for
/// others stands for these, and equality carries over.
pub fn standing()
    ensures followed { FollowedStandsLaw }
    ensures back { StandsBackLaw }
    ensures on { StandsOnLaw }
    ensures equal { EqualStandsLaw }
{}

/// Names are ordered by worker and then by number, variables by frame and then by index, and
/// goals stand before boxes, each by name.
pub fn order()
    ensures names { (a b : name.Name) → ⟦<Name as Ord>⟧.cmp a b ≡ name_cmp a b }
    ensures variables { (a b : var.Var) → ⟦<Var as Ord>⟧.cmp a b ≡ var_cmp a b }
    ensures places { (a b : place.Place) → ⟦<Place as Ord>⟧.cmp a b ≡ place_cmp a b }
{}
