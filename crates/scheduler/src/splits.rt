//! The choices by which boxes could be split, once these are stable.

ghost use Rattle.std.specs.Prelude.{◌≡◌, ◌||◌, ◌&&◌, ◌++◌, [], true, not, IfOk, OnOk, OnErr};
ghost use Rattle.akl_terms.specs.declared.name.Place.{Place};
ghost use Rattle.box_tree.specs.Tables.{table_of};
ghost use Rattle.opened_places.specs.Placed.{places_of};
ghost use Rattle.scheduler.specs.Splits.{same_split, is_kept, has_kept, first_of, older, IsOldestIn, split_at, split_list, splits_at, KeepsPlace, DropsSplits, EndsThose};

use akl_terms::{Name, Place};
use box_tree::Table;
use opened_places::Placed;
use std::alloc::{AllocError, Global};
use std::collections::BTreeSet;
use std::marker::Model;

/// A choice by which its box could be split. Those of one box stand together.
#[derive(Clone, Copy, Debug, PartialEq, Eq, PartialOrd, Ord)]
pub(crate) struct Split {
    pub name: Name,
    pub goal: Name,
}

impl Split {
    // What comes before all choices of a box, or is the first of them.
    fn first_of(name: Name) -> Split
        ensures { result ≡ first_of name }
    {
        let goal = Name {
            worker: 0,
            number: 0,
        };
        Split { name, goal }
    }
}

/// Choices by which boxes could be split, as they are kept. Contracts see them as a list.
///
/// A call takes time in the order of the logarithm of what is kept, for each choice that it adds or takes out.
#[derive(Drop)]
pub(crate) struct Splits {
    kept: BTreeSet<Split>,
}

impl Model for Splits {
    ghost use Rattle.std.specs.Prelude.{List};
    ghost use Rattle.scheduler.specs.declared.splits.Split.{Split};

    ghost Value = { List Split };

    ghost view = { λ s. s.kept.keys };
}

impl Splits {
    pub(crate) fn new(alloc: Global) -> Splits
        ensures { result ≡ [] }
    {
        Splits {
            kept: BTreeSet::new(alloc),
        }
    }

    // Whether none is kept.
    fn is_empty(&self) -> bool
        ensures none { result ≡ true → self.now ≡ [] }
        ensures some { self.now ≡ [] → result ≡ true }
    {
        self.kept.is_empty()
    }

    /// The oldest goal of those that are kept of this box. It takes as long as these are many.
    pub(crate) fn oldest_in(&self, table: &Table, name: Name) -> Option<Name>
        ensures { IsOldestIn table.now name self.now result }
    {
        let mut oldest = None;
        for split in self.kept.range(Split::first_of(name)..) {
            if split.name != name {
                return oldest;
            }
            oldest = Some(older(table, oldest, split.goal));
        }
        oldest
    }

    /// Whether one of those that are kept is directly in this box.
    pub(crate) fn has_box(&self, name: Name) -> bool
        ensures { result ≡ has_kept name self.now }
    {
        match self.kept.range(Split::first_of(name)..).next() {
            Some(split) => split.name == name,
            None => false,
        }
    }

    /// Keeps what stands at a place, where it is a choice by which its box could be split. An `Err`, for want of memory,
    /// leaves all as it was.
    pub(crate) fn keep(&mut self, table: &Table, place: Place) -> Result<(), AllocError>
        ensures kept { OnOk result (KeepsPlace (table_of table.now) place self.old self.new) }
        ensures unchanged { OnErr result ((s : _) → is_kept s self.new ≡ is_kept s self.old) }
    {
        match split_at(table, place) {
            Some(split) => self.insert(split),
            None => Ok(()),
        }
    }

    /// Keeps these no more.
    pub(crate) fn remove_all(&mut self, splits: &[Split])
        ensures { DropsSplits splits.now self.old self.new }
    {
        for split in splits {
            self.remove(*split);
        }
    }

    // Keeps one more. An `Err` leaves all as it was.
    fn insert(&mut self, split: Split) -> Result<(), AllocError>
        ensures kept { OnOk result ((s : _) → is_kept s self.new ≡ (is_kept s self.old || same_split s split)) }
        ensures unchanged { OnErr result ((s : _) → is_kept s self.new ≡ is_kept s self.old) }
    {
        self.kept.insert(split)?;
        Ok(())
    }

    // Keeps this one no more.
    fn remove(&mut self, split: Split)
        ensures { (s : _) → is_kept s self.new ≡ (is_kept s self.old && not (same_split s split)) }
    {
        self.kept.remove(&split);
    }
}

// The older of two choices, where there is a first one.
fn older(table: &Table, oldest: Option<Name>, goal: Name) -> Name
    ensures { result ≡ older table.now oldest goal }
{
    match oldest {
        Some(other) if !table.is_older(goal, other) => other,
        _ => goal,
    }
}

// What stands at a place, where it is a choice by which its box could be split.
fn split_at(table: &Table, place: Place) -> Option<Split>
    ensures { result ≡ split_at (table_of table.now) place }
{
    match place {
        Place::Goal(goal) => {
            let _ = table.candidate_at(goal)?;
            let name = table.home_of(goal)?;
            Some(Split { name, goal })
        }
        Place::Box(_) => None,
    }
}

/// The choices by which boxes could be split among the places that a label opens and those that go with it, each as it is
/// before the label; where none is kept, none is looked for. An `Err` comes for want of memory.
pub(crate) fn splits_of(
    alloc: Global,
    table: &Table,
    kept: &Splits,
    opened: &[Placed],
    gone: &[Place],
) -> Result<Vec<Split>, AllocError>
    ensures { IfOk result (λ ended. EndsThose (table_of table.now) (places_of opened.now) gone.now kept.now ended.items) }
{
    let mut splits = Vec::new(alloc);
    if kept.is_empty() {
        return Ok(splits);
    }
    push_opened(table, opened, &mut splits)?;
    push_gone(table, gone, &mut splits)?;
    Ok(splits)
}

// Those at places that open come.
fn push_opened(table: &Table, opened: &[Placed], splits: &mut Vec<Split>) -> Result<(), AllocError>
    ensures { OnOk result (splits.new.items ≡ splits.old.items ++ splits_at (table_of table.now) (places_of opened.now)) }
{
    for placed in opened {
        push_split(table, placed.place(), splits)?;
    }
    Ok(())
}

// Those at places that go come.
fn push_gone(table: &Table, gone: &[Place], splits: &mut Vec<Split>) -> Result<(), AllocError>
    ensures { OnOk result (splits.new.items ≡ splits.old.items ++ splits_at (table_of table.now) gone.now) }
{
    for place in gone {
        push_split(table, *place, splits)?;
    }
    Ok(())
}

// That at a place comes, where there is one.
fn push_split(table: &Table, place: Place, splits: &mut Vec<Split>) -> Result<(), AllocError>
    ensures { OnOk result (splits.new.items ≡ splits.old.items ++ split_list (split_at (table_of table.now) place)) }
{
    if let Some(split) = split_at(table, place) {
        splits.push(split)?;
    }
    Ok(())
}
