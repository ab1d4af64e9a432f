//! The elements of the generated list.

ghost use Rattle.std.specs.Prelude.{◌≡◌, ◌<◌, IfOk};
ghost use Rattle.akl_gen.specs.Generated.{next_number, elements_of};

use std::alloc::{AllocError, Global};

/// The numbers are below this.
const MODULUS: u64 = 2_147_483_648;

// The number that follows.
fn next_number(number: u64) -> u64
    requires { number < MODULUS }
    ensures follows { result ≡ next_number number }
    ensures below { result < MODULUS }
{
    (1_103_515_245 * number + 12_345) % MODULUS
}

/// The elements of the list: 3 to 100 numbers below 1000.
pub fn elements_of(alloc: Global, number: u64) -> Result<Vec<u64>, AllocError>
    ensures { IfOk result (λ elements. elements.items ≡ elements_of number) }
{
    let mut elements = Vec::new(alloc);
    let mut drawn = number % MODULUS;
    for index in 0..3 + number % 98 {
        drawn = next_number(drawn);
        elements.push(drawn % 1000)?;
    }
    Ok(elements)
}
