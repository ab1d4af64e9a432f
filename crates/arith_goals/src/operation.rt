//! The operations of arithmetic.

ghost use Rattle.std.specs.Prelude.{◌≡◌, ◌<◌, length};
ghost use Rattle.akl_terms.specs.Arithmetic.{operation_of, calculated, modulus};
ghost use Rattle.arith_goals.specs.Operations.{named, meaning};

use akl_terms::Templates;

/// An operation over two integers.
#[derive(Clone, Copy, PartialEq, Eq)]
pub enum Operation {
    Plus,
    Minus,
    Times,
    Quotient,
    Modulus,
}

/// The operation that a symbol names; `None` exactly where it names none.
pub fn operation_of(templates: &Templates, symbol: u32) -> Option<Operation>
    requires { symbol < length templates.now.symbols }
    ensures { named result ≡ operation_of templates.now.symbols symbol }
{
    let text = templates.symbol(symbol);
    if text == "+" {
        Some(Operation::Plus)
    } else if text == "-" {
        Some(Operation::Minus)
    } else if text == "*" {
        Some(Operation::Times)
    } else if text == "//" {
        Some(Operation::Quotient)
    } else if text == "mod" {
        Some(Operation::Modulus)
    } else {
        None
    }
}

impl Operation {
    /// The operation's value; `None` exactly where it is undefined: over a divisor that is 0, or
    /// beyond 128 bits.
    pub fn calculate(self, left: i128, right: i128) -> Option<i128>
        ensures { result ≡ calculated (meaning self) left right }
    {
        match self {
            Operation::Plus => left.checked_add(right),
            Operation::Minus => left.checked_sub(right),
            Operation::Times => left.checked_mul(right),
            Operation::Quotient => left.checked_div(right),
            Operation::Modulus => modulus_of(left, right),
        }
    }
}

/// The rest of the division that rounds down; `None` exactly where the divisor is 0.
fn modulus_of(left: i128, right: i128) -> Option<i128>
    ensures { result ≡ calculated modulus left right }
{
    if right == 0 {
        return None;
    }
    let rest = left.wrapping_rem_euclid(right);
    if right < 0 && rest > 0 {
        Some(rest + right)
    } else {
        Some(rest)
    }
}
