//! Variables by first occurrence.

ghost use Rattle.std.specs.Prelude.{◌≡◌, ◌==◌, ◌++◌, ◌∷◌, [], map, if◌then◌else◌, IfOk, OnOk};
ghost use Rattle.std.specs.List.{list_any, concat};
ghost use Rattle.akl_lift.specs.Lifting.{seen_from};

use std::alloc::{AllocError, Global};

/// Whether the variable is among these.
pub fn is_known(order: &[u32], number: u32) -> bool
    ensures { result ≡ list_any (λ n. n == number) order.now }
{
    order.iter().any(|n| *n == number)
}

/// Adds a variable that isn't known.
fn add_unknown(order: &mut Vec<u32>, number: u32) -> Result<(), AllocError>
    ensures { OnOk result (order.new.items ≡ (if list_any (λ n. n == number) order.old.items then order.old.items else order.old.items ++ number ∷ [])) }
{
    if is_known(order, number) {
        return Ok(());
    }
    order.push(number)?;
    Ok(())
}

/// Adds the variables that aren't known.
pub fn add_unknowns(order: &mut Vec<u32>, numbers: &[u32]) -> Result<(), AllocError>
    ensures { OnOk result (order.new.items ≡ seen_from order.old.items numbers.now) }
{
    for number in numbers {
        add_unknown(order, *number)?;
    }
    Ok(())
}

/// The variables of all lists by first occurrence.
pub fn seen_in_all(alloc: Global, lists: &[Vec<u32>]) -> Result<Vec<u32>, AllocError>
    ensures { IfOk result (λ v. v.items ≡ seen_from [] (concat (map (λ l. l.items) lists.now))) }
{
    let mut order = Vec::new(alloc);
    for list in lists {
        add_unknowns(&mut order, list)?;
    }
    Ok(order)
}
