//! What is done to the value of a name.

ghost use Rattle.std.specs.Prelude.{◌≡◌, Option, Some, OnOk, OnErr};
ghost use Rattle.frame_map.specs.Contents.{IsMade};

use std::alloc::AllocError;

/// What is done to the value of a name, where it has one or none.
pub trait Change<V>: Drop {
    /// What may become of the value.
    ghost makes: { Self → Option V → V → Type 0 };

    /// Does it. An `Err`, for want of memory, leaves the value as it was.
    fn change(self, value: &mut Option<V>) -> Result<(), AllocError>
        ensures made { OnOk result (IsMade (makes self) value.old value.new) }
        ensures unchanged { OnErr result (value.new ≡ value.old) };
}

/// The name gets this value, and the one that it had is dropped.
#[derive(Drop)]
pub(crate) struct Becomes<V: Drop> {
    pub(crate) value: V,
}

impl<V: Drop> Change<V> for Becomes<V> {
    ghost makes = { λ b old new. new ≡ b.value };

    fn change(self, value: &mut Option<V>) -> Result<(), AllocError> {
        *value = Some(self.value);
        Ok(())
    }
}
