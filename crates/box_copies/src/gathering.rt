//! The names that get new ones.

ghost use Rattle.std.specs.Prelude.{◌≡◌, ◌++◌, [], IfOk, OnOk, map};
ghost use Rattle.std.specs.List.Sorted.{IsStrictlySortedBy};
ghost use Rattle.akl_terms.specs.Names.{name_cmp};
ghost use Rattle.box_tree.specs.declared.inside.InnerGoal.{InnerGoal};
ghost use Rattle.box_copies.specs.Made.{Adds, own_names, kept_names};

use akl_terms::{Name, Term};
use box_tree::{InnerBox, InnerGoal};
use std::alloc::{AllocError, Global};

// Frames come to the names.
fn add_frames(frames: &[Name], names: &mut Vec<Name>) -> Result<(), AllocError>
    ensures { OnOk result (names.new.items ≡ names.old.items ++ frames.now) }
{
    for frame in frames {
        names.push(*frame)?;
    }
    Ok(())
}

// Ports come to the names.
fn add_ports(ports: &[(Name, Term)], names: &mut Vec<Name>) -> Result<(), AllocError>
    ensures { OnOk result (names.new.items ≡ names.old.items ++ map (λ p. p.0) ports.now) }
{
    for (port, _) in ports {
        names.push(*port)?;
    }
    Ok(())
}

// Goals come to the names.
fn add_goals(goals: &[InnerGoal], names: &mut Vec<Name>) -> Result<(), AllocError>
    ensures { OnOk result (names.new.items ≡ names.old.items ++ map (λ g. g.name) goals.now) }
{
    for goal in goals {
        names.push(goal.name)?;
    }
    Ok(())
}

// A box comes to the names, with its frames, ports and goals.
fn add_box(inner: &InnerBox, names: &mut Vec<Name>) -> Result<(), AllocError>
    ensures { OnOk result (names.new.items ≡ names.old.items ++ own_names inner.now) }
{
    let store = inner.store.get();
    names.push(inner.name)?;
    add_frames(store.frames()?.as_slice(), names)?;
    add_ports(store.ports()?.as_slice(), names)?;
    add_goals(inner.goals.as_slice(), names)
}

// The names of boxes but the alternative, and of their frames, ports and goals, as they come.
fn listed_names(
    alloc: Global,
    boxes: &[InnerBox],
    alternative: Name,
) -> Result<Vec<Name>, AllocError>
    ensures { IfOk result (λ names. names.items ≡ kept_names alternative boxes.now) }
{
    let mut names = Vec::new(alloc);
    for inner in boxes {
        if inner.name != alternative {
            add_box(inner, &mut names)?;
        }
    }
    Ok(names)
}

/// The names of boxes but the alternative, and of their frames, ports and goals, in increasing order.
pub(crate) fn copied_names(
    alloc: Global,
    boxes: &[InnerBox],
    alternative: Name,
) -> Result<Vec<Name>, AllocError>
    ensures all { IfOk result (λ names. Adds [] (kept_names alternative boxes.now) names.items) }
    ensures increasing { IfOk result (λ names. IsStrictlySortedBy name_cmp names.items) }
{
    let mut names = listed_names(alloc, boxes, alternative)?;
    names.sort_unstable();
    names.dedup();
    Ok(names)
}
