//! Indexes that are made once something stands in them.

ghost use Rattle.std.specs.Prelude.{◌≡◌, Some, cond, OnOk, OnErr};
ghost use Rattle.std.specs.Map.{lookup};
ghost use Rattle.rational_unify.specs.Indexes.{entries_in};

use std::alloc::{AllocError, Global};
use std::collections::HashMap;
use std::hash::Hash;

/// Notes a value under a key, in an index that is made where there is none yet. An `Err`, for want of memory, leaves what
/// the index has as it was.
pub fn note<K: Eq + Hash + Drop, V: Drop>(
    alloc: Global,
    index: &mut Option<HashMap<K, V>>,
    key: K,
    value: V,
) -> Result<(), AllocError>
    ensures noted { OnOk result ((k : K) → lookup (K.eq k) (entries_in index.new) ≡ cond (K.eq key k) (Some value) (lookup (K.eq k) (entries_in index.old))) }
    ensures unchanged { OnErr result (entries_in index.new ≡ entries_in index.old) }
{
    match index {
        Some(made) => {
            made.insert(key, value)?;
            Ok(())
        }
        None => {
            let mut made = HashMap::new(alloc);
            made.insert(key, value)?;
            *index = Some(made);
            Ok(())
        }
    }
}
