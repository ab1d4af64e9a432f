//! The goals that have a meaning of their own.

ghost use Rattle.std.specs.Prelude.{◌≡◌};
ghost use Rattle.clause_keys.specs.Reserved.{without_arguments, with_two, reserved_of, is_reserved};

use akl_terms::Test;

/// The meaning of a goal that calls no definition.
#[derive(Clone, Copy)]
pub enum Reserved {
    /// `true`, which gives no goal at all.
    True,
    /// `fail`
    Fail,
    /// `=`
    Equal,
    /// `is`, or a comparison.
    Arith(Test),
    /// `open_port`
    OpenPort,
    /// `send`
    Send,
}

// The meaning of a symbol without arguments.
fn without_arguments(symbol: &str) -> Option<Reserved>
    ensures { result ≡ without_arguments symbol.now }
{
    match symbol {
        "true" => Some(Reserved::True),
        "fail" => Some(Reserved::Fail),
        _ => None,
    }
}

// The meaning of a symbol with two arguments.
fn with_two(symbol: &str) -> Option<Reserved>
    ensures { result ≡ with_two symbol.now }
{
    match symbol {
        "=" => Some(Reserved::Equal),
        "is" => Some(Reserved::Arith(Test::Is)),
        "<" => Some(Reserved::Arith(Test::Less)),
        ">" => Some(Reserved::Arith(Test::Greater)),
        "=<" => Some(Reserved::Arith(Test::AtMost)),
        ">=" => Some(Reserved::Arith(Test::AtLeast)),
        "=:=" => Some(Reserved::Arith(Test::Same)),
        "=\\=" => Some(Reserved::Arith(Test::Differs)),
        "open_port" => Some(Reserved::OpenPort),
        "send" => Some(Reserved::Send),
        _ => None,
    }
}

/// The reserved meaning of a goal of this symbol with so many arguments, where it has one. It doesn't
/// matter whether the symbol was written in quotes.
#[tactic(auto, unfolding(crate::specs::Reserved::reserved_of))]
pub fn meaning_of(symbol: &str, arity: usize) -> Option<Reserved>
    ensures { result ≡ reserved_of symbol.now arity }
{
    match arity {
        0 => without_arguments(symbol),
        2 => with_two(symbol),
        _ => None,
    }
}

/// Whether no clause may define this symbol with so many arguments: a goal of it is reserved, or it would be a
/// collecting goal.
pub fn is_reserved(symbol: &str, arity: usize) -> bool
    ensures { result ≡ is_reserved symbol.now arity }
{
    meaning_of(symbol, arity).is_some() || symbol == "bagof" && arity == 3
}
