//! Goals with their names.

ghost use Rattle.std.specs.Prelude.{◌≡◌, ◌++◌, map, IfOk, OnOk};
ghost use Rattle.akl_model.specs.Ordered.{IsIncreasing};
ghost use Rattle.box_tree.specs.declared.entries.Held.{Held};

use crate::entries::Held;
use crate::short::ShortList;
use akl_terms::{Goal, Name};
use std::alloc::{AllocError, Global};
use std::collections::BTreeSet;

/// What becomes the content of a goal.
pub(crate) trait IntoHeld: Drop {
    ghost held: { Self → Held };

    /// The content.
    fn into_held(self) -> Held
        ensures { result ≡ held self };
}

impl IntoHeld for Goal {
    ghost held = { λ g. Held.Atom g };

    fn into_held(self) -> Held {
        Held::Atom(self)
    }
}

impl IntoHeld for Held {
    ghost held = { λ h. h };

    fn into_held(self) -> Held {
        self
    }
}

/// The names of goals come to the end of the names.
pub(crate) fn push_names<T>(
    alloc: Global,
    goals: &[(Name, T)],
    names: &mut ShortList<Name>,
) -> Result<(), AllocError>
    ensures { OnOk result (names.new.items ≡ names.old.items ++ map (λ x. x.0) goals.now) }
{
    for (name, _) in goals {
        names.push(alloc, *name)?;
    }
    Ok(())
}

/// The names of goals as a set.
pub(crate) fn goal_set<T>(alloc: Global, goals: &[(Name, T)]) -> Result<BTreeSet<Name>, AllocError>
    requires { IsIncreasing (map (λ x. x.0) goals.now) }
    ensures { IfOk result (λ names. names.keys ≡ map (λ x. x.0) goals.now) }
{
    let mut names = BTreeSet::new(alloc);
    for (name, _) in goals {
        names.insert(*name)?;
    }
    Ok(names)
}
