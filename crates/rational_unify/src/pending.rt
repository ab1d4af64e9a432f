//! The equations that the solver has yet to take on.

ghost use Rattle.std.specs.Prelude.{◌≡◌, ◌++◌, ◌∷◌, [], IfOk, IfNone, option_to_list};

use akl_terms::Equation;
use smallvec::SmallVec;
use std::alloc::{AllocError, Global};
use std::marker::Model;

/// Equations of which the last is taken on first. Those that are solved are lent; only what is added to them is kept.
#[derive(Drop)]
pub struct Pending<'a> {
    lent: &'a [Equation],
    more: SmallVec<Equation, 4>,
}

impl<'a> Model for Pending<'a> {
    ghost use Rattle.std.specs.Prelude.{List, ◌++◌};
    ghost use Rattle.akl_terms.specs.declared.term.Equation.{Equation};

    ghost Value = { List Equation };

    ghost view = { λ p. p.lent.now ++ p.more.items };
}

impl<'a> Pending<'a> {
    /// These equations.
    pub fn of(alloc: Global, equations: &'a [Equation]) -> Pending<'a>
        ensures { result ≡ equations.now }
    {
        Pending {
            lent: equations,
            more: SmallVec::new(alloc),
        }
    }

    /// Takes the last equation.
    #[inline(always)]
    pub fn pop(&mut self) -> Option<Equation>
        ensures items { self.old ≡ self.new ++ option_to_list result }
        ensures none { IfNone result (self.old ≡ []) }
    {
        if let Some(equation) = self.more.pop() {
            return Some(equation);
        }
        let (last, before) = self.lent.split_last()?;
        self.lent = before;
        Some(*last)
    }

    /// Puts an equation at the end.
    pub fn push(&mut self, equation: Equation) -> Result<(), AllocError>
        ensures { IfOk result (λ _. self.new ≡ self.old ++ equation ∷ []) }
    {
        self.more.push(equation)?;
        Ok(())
    }
}
