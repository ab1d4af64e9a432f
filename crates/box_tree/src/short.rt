//! Lists of which the short ones need no allocation.

ghost use Rattle.std.specs.Prelude.{◌≡◌, [], ◌∷◌, ◌++◌, reverse, IfOk, OnOk};
ghost use Rattle.box_tree.specs.Shorts.{kept_items};

use std::alloc::{AllocError, Global};
use std::marker::Model;
use std::mem;

/// A list to whose end values come. Up to three are kept in the list itself, more of them in an allocation.
#[derive(Drop)]
pub struct ShortList<T: Drop> {
    kept: Kept<T>,
}

/// Where the values are.
#[derive(Drop)]
enum Kept<T: Drop> {
    None,
    One([T; 1]),
    Two([T; 2]),
    Three([T; 3]),
    Allocated(Vec<T>),
}

impl<T: Drop> Model for ShortList<T> {
    ghost use Rattle.box_tree.specs.Shorts.{ShortItems, kept_items};

    ghost Value = { ShortItems T };

    ghost view = { λ l. record { items = kept_items l.kept } };
}

impl<T: Drop> Kept<T> {
    // A value comes to the end.
    fn with(self, alloc: Global, value: T) -> Result<Kept<T>, AllocError>
        ensures { IfOk result (λ kept. kept_items kept ≡ kept_items self ++ value ∷ []) }
    {
        match self {
            Kept::None => Ok(Kept::One([value])),
            Kept::One([first]) => Ok(Kept::Two([first, value])),
            Kept::Two([first, second]) => Ok(Kept::Three([first, second, value])),
            Kept::Three([first, second, third]) => {
                let mut all = Vec::new(alloc);
                all.push(first)?;
                all.push(second)?;
                all.push(third)?;
                all.push(value)?;
                Ok(Kept::Allocated(all))
            }
            Kept::Allocated(mut all) => {
                all.push(value)?;
                Ok(Kept::Allocated(all))
            }
        }
    }
}

impl<T: Drop> ShortList<T> {
    /// No values.
    pub fn new() -> ShortList<T>
        ensures { result.items ≡ [] }
    {
        ShortList { kept: Kept::None }
    }

    /// One value.
    pub fn of(value: T) -> ShortList<T>
        ensures { result.items ≡ value ∷ [] }
    {
        ShortList {
            kept: Kept::One([value]),
        }
    }

    /// A value comes to the end. An `Err` comes for want of memory, and then the list is empty.
    pub fn push(&mut self, alloc: Global, value: T) -> Result<(), AllocError>
        ensures { OnOk result (self.new.items ≡ self.old.items ++ value ∷ []) }
    {
        let before = mem::replace(&mut self.kept, Kept::None);
        self.kept = before.with(alloc, value)?;
        Ok(())
    }

    /// Values come to the end. An `Err` comes for want of memory.
    pub fn extend(&mut self, alloc: Global, values: &[T]) -> Result<(), AllocError>
    where
        T: Copy,
        ensures { OnOk result (self.new.items ≡ self.old.items ++ values.now) }
    {
        for value in values {
            self.push(alloc, *value)?;
        }
        Ok(())
    }

    /// The values are turned end for end.
    pub fn reverse(&mut self)
        ensures { self.new.items ≡ reverse self.old.items }
    {
        match &mut self.kept {
            Kept::None => {}
            Kept::One(values) => values.reverse(),
            Kept::Two(values) => values.reverse(),
            Kept::Three(values) => values.reverse(),
            Kept::Allocated(values) => values.reverse(),
        }
    }

    /// The values.
    pub fn as_slice(&self) -> &[T]
        ensures value { result.now ≡ self.now.items }
    {
        match &self.kept {
            Kept::None => &[],
            Kept::One(values) => values.as_slice(),
            Kept::Two(values) => values.as_slice(),
            Kept::Three(values) => values.as_slice(),
            Kept::Allocated(values) => values.as_slice(),
        }
    }
}
