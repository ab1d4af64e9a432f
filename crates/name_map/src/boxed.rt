//! A value in a box.

ghost use Rattle.std.specs.Prelude.{◌≡◌, IfOk};
ghost use Rattle.std.specs.Borrow.{sem};
ghost use Rattle.name_map.specs.Lending.{lends_value};

use std::alloc::{AllocError, Global};
use std::marker::Model;

/// A value in a box. Contracts see the value.
#[derive(Drop)]
pub(crate) struct Boxed<V> {
    value: Box<V>,
}

impl<V> Model for Boxed<V> {
    ghost use Rattle.std.specs.Box.{box_value};

    ghost Value = { V };

    ghost view = { λ b. box_value b.value };
}

impl<V> Boxed<V> {
    /// An `Err` comes for want of memory.
    pub(crate) fn new(alloc: Global, value: V) -> Result<Boxed<V>, AllocError>
    where
        V: Drop,
        ensures { IfOk result (λ b. b ≡ value) }
    {
        Ok(Boxed {
            value: Box::new(alloc, value)?,
        })
    }

    pub(crate) fn get(&self) -> &V
        ensures { result.now ≡ self.now }
    {
        self.value.as_ref()
    }

    pub(crate) fn get_mut(&mut self) -> &mut V
        ensures* writes_back { sem 𝓛 (lends_value V.row self.entry result) }
        ensures value { result.now ≡ self.old }
    {
        self.value.as_mut()
    }

    pub(crate) fn into_value(self) -> V
        ensures { result ≡ self }
    {
        Box::into_inner(self.value)
    }
}
