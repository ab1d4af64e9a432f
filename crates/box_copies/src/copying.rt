//! The copies of a box and of the boxes inside it.

ghost use Rattle.std.specs.Prelude.{◌≡◌, IfOk, MatchOption, true};
ghost use Rattle.box_copies.specs.Renamer.{swapped_name};
ghost use Rattle.box_copies.specs.Made.{holder_by, kept, LeadsOlder, IsBoxBy, AreCopiedBy, AreCopies};
ghost use Rattle.box_copies.specs.Copies.{AreBoxesOf, IsSplitInto};

use crate::gathering::copied_names;
use crate::goals::{copied_body, copied_goals, copied_shown, swapped_collected};
use crate::names::NewNames;
use crate::stores::copied_store;
use akl_terms::{Name, Place, Templates};
use box_tree::{BoxCopy, InnerBox, View};
use local_store::Shared;
use std::alloc::{AllocError, Global};

/// The copies that a split makes.
#[derive(Drop)]
pub struct Copied {
    /// The copy of the box that is split.
    pub copy: Name,
    /// The copies of the box and of the boxes inside it, but for the alternative.
    pub copies: Vec<BoxCopy>,
    /// How many names the split draws.
    pub names: u64,
}

// The choice that holds a copy; none for that of the box that is split.
fn copied_holder(names: &NewNames, inner: &InnerBox, top: Name) -> Option<Name>
    ensures { result ≡ holder_by (swapped_name names.now) top inner.now }
{
    if inner.name == top {
        return None;
    }
    match inner.holder {
        Some(holder) => Some(names.swapped(holder)),
        None => None,
    }
}

// The copy of a box. It counts as solved where the box does, if all copies' bindings are to lead to older variables; `None`
// where its own are to and don't.
fn copied_box(
    alloc: Global,
    names: &NewNames,
    templates: &Templates,
    older: bool,
    inner: &InnerBox,
    top: Name,
    alternative: Name,
) -> Result<Option<BoxCopy>, AllocError>
    ensures { IfOk result (λ found. MatchOption found (older ≡ true) (λ k. IsBoxBy names.now older top alternative inner.now k × LeadsOlder templates.now.nodes (swapped_name names.now) older inner.now.store)) }
{
    let Some(store) = copied_store(alloc, names, templates, older, inner.store.get())? else {
        return Ok(None);
    };
    Ok(Some(BoxCopy {
        name: names.swapped(inner.name),
        holder: copied_holder(names, inner, top),
        store: Shared::new(alloc, store)?,
        solved: inner.solved && older,
        goals: copied_goals(alloc, names, inner.goals.as_slice(), alternative)?,
        body: copied_body(alloc, names, inner.body.as_slice())?,
        shown: copied_shown(alloc, names, inner.shown.as_slice())?,
        collected: swapped_collected(names, inner.collected),
    }))
}

// The copies of boxes but the alternative; `None` where all their bindings are to lead to older variables, and some don't:
// names of several workers may come in another order than the old ones.
fn copied_boxes(
    alloc: Global,
    names: &NewNames,
    templates: &Templates,
    older: bool,
    boxes: &[InnerBox],
    top: Name,
    alternative: Name,
) -> Result<Option<Vec<BoxCopy>>, AllocError>
    ensures { IfOk result (λ found. MatchOption found (older ≡ true) (λ v. AreCopiedBy names.now templates.now.nodes older top alternative (kept alternative boxes.now) v.items)) }
{
    let mut copies = Vec::new(alloc);
    for inner in boxes {
        if inner.name != alternative {
            let Some(copy) = copied_box(alloc, names, templates, older, inner, top, alternative)?
            else {
                return Ok(None);
            };
            copies.push(copy)?;
        }
    }
    Ok(Some(copies))
}

// The copies of boxes but the alternative. They count as solved where the boxes do, if all bindings lead to older variables.
fn all_copied(
    alloc: Global,
    names: &NewNames,
    templates: &Templates,
    boxes: &[InnerBox],
    top: Name,
    alternative: Name,
) -> Result<Vec<BoxCopy>, AllocError>
    ensures { IfOk result (λ v. AreCopies names.now templates.now.nodes top alternative (kept alternative boxes.now) v.items) }
{
    if let Some(copies) = copied_boxes(alloc, names, templates, true, boxes, top, alternative)? {
        return Ok(copies);
    }
    match copied_boxes(alloc, names, templates, false, boxes, top, alternative)? {
        Some(copies) => Ok(copies),
        None => unreachable!(),
    }
}

/// The copies that the split of a box makes at a solved alternative of a choice directly in it: of the box that was
/// looked at, and of the boxes inside it. It takes the time of walking all that these have. A copy's store counts as
/// solved where the box's does, if under the new names all bindings lead to older variables: as they do under the old
/// ones where all names are one worker's. An `Err` is want of memory, or of numbers for the new names.
pub fn copies_of(
    alloc: Global,
    templates: &Templates,
    view: &View,
    boxes: &[InnerBox],
    alternative: Name,
) -> Result<Copied, AllocError>
    requires templates { templates.now.nodes ≡ view.now.table.program.templates.nodes }
    requires boxes { AreBoxesOf view.now boxes.now }
    ensures { IfOk result (IsSplitInto view.now alternative) }
{
    let Place::Box(name) = view.place() else {
        unreachable!();
    };
    let old = copied_names(alloc, boxes, alternative)?;
    let count = old.len() as u64;
    let names = NewNames::new(alloc, old, view.worker(), view.next())?;
    let copies = all_copied(alloc, &names, templates, boxes, name, alternative)?;
    Ok(Copied {
        copy: names.swapped(name),
        copies,
        names: count,
    })
}
