//! Two terms at the ends of their chains.

ghost use Rattle.std.specs.Prelude.{◌≡◌, ◌+◌, ◌<◌, ◌++◌, ◌^◌, OnOk, IfSome, IfNone, length};
ghost use Rattle.akl_terms.specs.Template.{IsArranged};
ghost use Rattle.rational_unify.specs.Meeting.{Meets, BindsYounger, IsSymbolPair, IsNoSymbolPair, is_one_constant, argument_pairs};

use crate::pending::Pending;
use akl_terms::{Equation, Name, Seen, Templates, Term, Var};
use std::alloc::AllocError;

/// What two terms that aren't bound have in common.
#[derive(Clone, Copy)]
pub enum Meeting {
    /// They are one tree.
    Same,
    /// One is a variable, and the other is another tree.
    Bind(Var, Term),
    /// They differ in head.
    Differ,
    /// They agree in head.
    Agree(Pairs),
}

/// The arguments of two terms with one symbol.
#[derive(Clone, Copy)]
pub struct Pairs {
    pub symbol: u32,
    pub count: u32,
    pub left: u32,
    pub left_frame: Name,
    pub right: u32,
    pub right_frame: Name,
}

impl Pairs {
    /// The arguments of two symbols; `None` exactly where they aren't one symbol with one number
    /// of arguments.
    fn of(left: Seen, right: Seen) -> Option<Pairs>
        ensures some { IfSome result (λ p. IsSymbolPair left right p) }
        ensures none { IfNone result (IsNoSymbolPair left right) }
    {
        let Seen::Struct {
            symbol,
            first,
            count,
            frame,
        } = left
        else {
            return None;
        };
        match right {
            Seen::Struct {
                symbol: other_symbol,
                first: other_first,
                count: other_count,
                frame: other_frame,
            } if symbol == other_symbol && count == other_count => Some(Pairs {
                symbol,
                count,
                left: first,
                left_frame: frame,
                right: other_first,
                right_frame: other_frame,
            }),
            _ => None,
        }
    }

    /// Puts the pairs of arguments at the end of a list of equations.
    pub fn push_to(self, pending: &mut Pending<'_>) -> Result<(), AllocError>
        requires left { self.left + self.count < 2 ^ 32 }
        requires right { self.right + self.count < 2 ^ 32 }
        ensures { OnOk result (pending.new ≡ pending.old ++ argument_pairs self self.count) }
    {
        for k in 0..self.count {
            pending.push(Equation {
                left: Term::Mol {
                    node: self.left + k,
                    frame: self.left_frame,
                },
                right: Term::Mol {
                    node: self.right + k,
                    frame: self.right_frame,
                },
            })?;
        }
        Ok(())
    }
}

/// Compares what two terms begin with. Of two variables the younger one is to be bound.
pub fn compare(templates: &Templates, left: Term, right: Term) -> Meeting
    ensures meets { Meets templates.now.nodes left right result }
    ensures younger { BindsYounger templates.now.nodes result }
    ensures arranged { IsArranged templates.now.nodes }
    ensures small { length templates.now.nodes < 2 ^ 32 }
{
    let seen = templates.look(left);
    let other = templates.look(right);
    if left == right {
        return Meeting::Same;
    }
    match seen {
        Seen::Free(x) => match other {
            Seen::Free(y) if x == y => Meeting::Same,
            Seen::Free(y) if x < y => Meeting::Bind(y, left),
            _ => Meeting::Bind(x, right),
        },
        _ => match other {
            Seen::Free(y) => Meeting::Bind(y, left),
            _ if is_one_constant(seen, other) => Meeting::Same,
            _ => match Pairs::of(seen, other) {
                Some(pairs) => Meeting::Agree(pairs),
                None => Meeting::Differ,
            },
        },
    }
}

/// Whether both are one integer, or one port.
fn is_one_constant(left: Seen, right: Seen) -> bool
    ensures { result ≡ is_one_constant left right }
{
    match left {
        Seen::Int(m) => match right {
            Seen::Int(n) => m == n,
            _ => false,
        },
        Seen::Port(p) => match right {
            Seen::Port(q) => p == q,
            _ => false,
        },
        _ => false,
    }
}
