//! What plans read that read one item.

ghost use Rattle.std.specs.Prelude.{◌≡◌, IfOk, [], ◌∷◌};

use akl_model::Item;
use std::alloc::{AllocError, Global};

// The one item.
pub(crate) fn one_item(alloc: Global, item: Item) -> Result<Vec<Item>, AllocError>
    ensures { IfOk result (λ items. items.items ≡ item ∷ []) }
{
    let mut items = Vec::new(alloc);
    items.push(item)?;
    Ok(items)
}
