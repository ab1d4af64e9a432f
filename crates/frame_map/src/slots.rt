//! The values of a leaf.

ghost use Rattle.std.specs.Prelude.{◌≡◌, ◌+◌, ◌-◌, ◌<◌, ◌≤◌, ◌^◌, ◌++◌, [], max, length, vec_len, OnOk, OnErr};
ghost use Rattle.name_map.specs.Pages.{listed, within, in_slot};
ghost use Rattle.frame_map.specs.Contents.{of_slots, ClonesAreEqual, Same, PutsMade};

use crate::change::Change;
use akl_terms::Name;
use std::alloc::AllocError;

// Makes the slots up to this one.
fn make_slots<V: Drop>(slots: &mut Vec<Option<V>>, index: usize) -> Result<(), AllocError>
    ensures there { OnOk result (index < vec_len slots.new) }
    ensures most { vec_len slots.new ≤ max (vec_len slots.old) (index + 1) }
    ensures same { (i : _) → within in_slot slots.new.items i ≡ within in_slot slots.old.items i }
{
    while slots.len() <= index {
        slots.push(None)?;
    }
    Ok(())
}

/// Changes the value of a slot. An `Err`, for want of memory, leaves all values as they were.
pub(crate) fn change_slot<V: Drop, C: Change<V>>(
    slots: &mut Vec<Option<V>>,
    index: usize,
    change: C,
) -> Result<(), AllocError>
    ensures made { OnOk result (PutsMade (C.makes change) (of_slots slots.old.items) (of_slots slots.new.items) index) }
    ensures unchanged { OnErr result (Same (of_slots slots.old.items) (of_slots slots.new.items)) }
    ensures most { vec_len slots.new ≤ max (vec_len slots.old) (index + 1) }
{
    make_slots(slots, index)?;
    change.change(&mut slots[index])
}

/// Adds the values of a leaf with their names at the end of a list. The first slot is that of the number `first`.
pub(crate) fn push_slots<V: Clone + Drop>(
    slots: &[Option<V>],
    worker: u32,
    first: u64,
    list: &mut Vec<(Name, V)>,
) -> Result<(), AllocError>
    requires clones { ClonesAreEqual V.is_clone }
    requires numbers { first + length slots.now ≤ 2 ^ 64 }
    ensures { OnOk result (list.new.items ≡ list.old.items ++ listed worker first (length slots.now) (λ n. within in_slot slots.now (n - first)) []) }
{
    for index in 0..slots.len() {
        if let Some(value) = &slots[index] {
            let number = first + index as u64;
            let value = value.clone()?;
            list.push((Name { worker, number }, value))?;
        }
    }
    Ok(())
}
