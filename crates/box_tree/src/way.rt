//! The way from a box out to its root box.

ghost use Rattle.std.specs.Prelude.{◌≡◌, List, Some, IfOk};
ghost use Rattle.std.specs.Map.{lookup};
ghost use Rattle.akl_terms.specs.declared.term.Node.{Node};
ghost use Rattle.akl_terms.specs.Names.{same_name};
ghost use Rattle.box_tree.specs.Tables.{table_of, box_row};
ghost use Rattle.box_tree.specs.Paths.{HasPath};
ghost use Rattle.box_tree.specs.Ways.{Begins, Passes, IsWay};

use crate::entries::BoxEntry;
use crate::short::ShortList;
use crate::table::Table;
use akl_terms::Name;
use local_store::{Shared, Store};
use std::alloc::{AllocError, Global};

/// The boxes down to a box with their stores, outermost first; while they are passed, innermost first.
#[derive(Drop)]
pub(crate) struct Way {
    pub path: ShortList<Name>,
    pub stores: ShortList<Shared<Store>>,
    /// When the store of the box that was passed last, the outermost, was solved, and the number of the last label that
    /// changed it.
    pub solving: (Option<u64>, u64),
}

impl Way {
    // The way that passed one box. An `Err` comes for want of memory.
    fn of(name: Name, entry: &BoxEntry) -> Result<Way, AllocError>
        ensures { IfOk result (λ way. (nodes : List Node) → Begins name (box_row nodes entry.now) way) }
    {
        let store = entry.store.share()?;
        Ok(Way {
            path: ShortList::of(name),
            stores: ShortList::of(store),
            solving: entry.solving(),
        })
    }

    // A box is passed: the box around it. An `Err` comes for want of memory, and where the box isn't there.
    fn pass(&mut self, alloc: Global, table: &Table, name: Name) -> Result<Option<Name>, AllocError>
        ensures { IfOk result (λ outside. Passes (table_of table.now) name self.old outside self.new) }
    {
        let Some(entry) = table.boxes.get(name) else {
            return Err(AllocError);
        };
        self.path.push(alloc, name)?;
        let store = entry.store.share()?;
        self.stores.push(alloc, store)?;
        self.solving = entry.solving();
        Ok(table.home_around(entry.holder))
    }
}

impl Table {
    /// The way from a box, of which this is the entry, out to its root box, which looks up each choice and each box around
    /// it once. An `Err` comes for want of memory, and where one of them isn't there.
    pub(crate) fn way_to(
        &self,
        alloc: Global,
        name: Name,
        entry: &BoxEntry,
    ) -> Result<Way, AllocError>
        requires path { HasPath self.now name }
        requires entry { lookup (same_name name) self.now.boxes ≡ Some entry.now }
        ensures { IfOk result (IsWay (table_of self.now) name) }
    {
        let mut way = Way::of(name, entry)?;
        let mut at = self.home_around(entry.holder);
        while let Some(here) = at {
            at = way.pass(alloc, self, here)?;
        }
        way.path.reverse();
        way.stores.reverse();
        Ok(way)
    }
}
