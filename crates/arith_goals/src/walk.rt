//! The walk of an expression.

ghost use Rattle.std.specs.Prelude.{◌≡◌, ◌+◌, ◌<◌, ◌^◌, IfOk, IfSome};
ghost use Rattle.akl_terms.specs.Tree.{Tree};
ghost use Rattle.akl_terms.specs.Equal.{Equations, IsTold};
ghost use Rattle.akl_terms.specs.Template.{tree};
ghost use Rattle.rational_unify.specs.Known.{IsSolved, end_of};
ghost use Rattle.rational_unify.specs.Forms.{IsFormOf};
ghost use Rattle.arith_goals.specs.Walking.{Begins, Enters, Keeps, Leaves, Turns, progress_at};
ghost use Rattle.arith_goals.specs.Answers.{Comes, WalksToEnd, at_once};
ghost use Rattle.arith_goals.specs.Expressions.{IsApplication};

use crate::expression::{Application, Expression, Place, read_expression};
use akl_terms::{Templates, Term, Var};
use rational_unify::Lookup;
use std::alloc::{AllocError, Global};
use std::collections::HashMap;

/// What the walk of an expression comes to.
#[derive(Clone, Copy)]
pub enum Walked {
    Is(i128),
    /// The first obstacle is a variable that isn't structured.
    Waits(Var),
    /// The first obstacle stays.
    Never,
}

/// An operation of which an operand is being walked.
#[derive(Clone, Copy)]
pub enum Walking {
    Left(Application),
    /// The left operand has this value.
    Right(Application, i128),
}

/// What the walk does next.
#[derive(Clone, Copy)]
pub enum Step {
    Enter(Term),
    /// What was entered last has this value.
    Leave(i128),
}

/// Whether the walk goes on.
#[derive(Clone, Copy)]
pub enum Turn {
    Go(Step),
    Stop(Walked),
}

/// Walks an expression, read through bindings, depth first and the left operand before the right.
///
/// No operation is walked twice, and none inside itself.
pub fn walk_expression<K: Lookup>(
    alloc: Global,
    templates: &Templates,
    known: &K,
    term: Term,
) -> Result<Walked, AllocError>
    requires { IsSolved templates.now.nodes (K.bindings known.now) }
    ensures comes { IfOk result (λ walked. (E : Equations) → IsFormOf templates.now.nodes (K.bindings known.now) (IsTold E)
        → Comes templates.now.symbols E (tree templates.now.nodes term) walked) }
    ensures end { IfOk result (λ walked. WalksToEnd templates.now.nodes (K.bindings known.now) walked) }
{
    if let Some(walked) = walk_flat(templates, known, term) {
        return Ok(walked);
    }
    let mut walk = Walk {
        walking: Vec::new(alloc),
        progress: HashMap::new(alloc),
        begun: 0,
    };
    let mut step = Step::Enter(term);
    loop {
        match walk.turn(templates, known, step)? {
            Turn::Go(next) => step = next,
            Turn::Stop(walked) => return Ok(walked),
        }
    }
}

/// What an expression comes to that is no operation; `None` of an operation.
fn at_once(expression: Expression) -> Option<Walked>
    ensures { result ≡ at_once expression }
{
    match expression {
        Expression::Number(n) => Some(Walked::Is(n)),
        Expression::Free(variable) => Some(Walked::Waits(variable)),
        Expression::Other => Some(Walked::Never),
        Expression::Apply(_) => None,
    }
}

/// What an expression comes to that is no operation, or one over operands that are none, read through bindings. `None` where
/// an operand is an operation.
fn walk_flat<K: Lookup>(templates: &Templates, known: &K, term: Term) -> Option<Walked>
    requires { IsSolved templates.now.nodes (K.bindings known.now) }
    ensures comes { IfSome result (λ walked. (E : Equations) → IsFormOf templates.now.nodes (K.bindings known.now) (IsTold E)
        → Comes templates.now.symbols E (tree templates.now.nodes term) walked) }
    ensures end { IfSome result (WalksToEnd templates.now.nodes (K.bindings known.now)) }
{
    match read_expression(templates, known, term) {
        Expression::Apply(of) => walk_operation(templates, known, of),
        plain => at_once(plain),
    }
}

/// What an operation comes to over operands that are none; `None` where one of them is.
fn walk_operation<K: Lookup>(templates: &Templates, known: &K, of: Application) -> Option<Walked>
    requires { IsSolved templates.now.nodes (K.bindings known.now) }
    ensures comes { IfSome result (λ walked. (E : Equations) → IsFormOf templates.now.nodes (K.bindings known.now) (IsTold E)
        → (t : Tree) → IsApplication templates.now (end_of templates.now.nodes (K.bindings known.now) t) of → Comes templates.now.symbols E t walked) }
    ensures end { IfSome result (WalksToEnd templates.now.nodes (K.bindings known.now)) }
{
    let left = match at_once(read_expression(templates, known, of.left))? {
        Walked::Is(value) => value,
        Walked::Waits(on) => return Some(Walked::Waits(on)),
        Walked::Never => return Some(Walked::Never),
    };
    let right = match at_once(read_expression(templates, known, of.right))? {
        Walked::Is(value) => value,
        Walked::Waits(on) => return Some(Walked::Waits(on)),
        Walked::Never => return Some(Walked::Never),
    };
    match of.operation.calculate(left, right) {
        Some(value) => Some(Walked::Is(value)),
        None => Some(Walked::Never),
    }
}

/// How far an operation is.
#[derive(Clone, Copy)]
pub enum Progress {
    Ahead,
    /// It is being walked.
    Begun,
    Value(i128),
}

/// A walk that has begun.
#[derive(Drop)]
pub struct Walk {
    /// The operations around, from the outermost inwards.
    walking: Vec<Walking>,
    /// How far each operation is that was begun.
    progress: HashMap<Place, Progress>,
    /// How many operations were begun, by which the walk is seen to end.
    begun: u64,
}

impl Walk {
    /// Does one step.
    fn turn<K: Lookup>(
        &mut self,
        templates: &Templates,
        known: &K,
        step: Step,
    ) -> Result<Turn, AllocError>
        requires { IsSolved templates.now.nodes (K.bindings known.now) }
        ensures { IfOk result (λ turn. Turns templates.now (K.bindings known.now) self.old self.new step turn) }
    {
        match step {
            Step::Enter(term) => self.enter(templates, known, term),
            Step::Leave(value) => self.leave(value),
        }
    }

    /// Enters an expression.
    fn enter<K: Lookup>(
        &mut self,
        templates: &Templates,
        known: &K,
        term: Term,
    ) -> Result<Turn, AllocError>
        requires { IsSolved templates.now.nodes (K.bindings known.now) }
        ensures { IfOk result (λ turn. Enters templates.now (K.bindings known.now) self.old self.new term turn) }
    {
        match read_expression(templates, known, term) {
            Expression::Number(n) => Ok(Turn::Go(Step::Leave(n))),
            Expression::Free(variable) => Ok(Turn::Stop(Walked::Waits(variable))),
            Expression::Other => Ok(Turn::Stop(Walked::Never)),
            Expression::Apply(of) => self.begin(of),
        }
    }

    /// Enters an operation: its left operand, where it wasn't entered before.
    fn begin(&mut self, of: Application) -> Result<Turn, AllocError>
        ensures { IfOk result (λ turn. Begins self.old self.new of turn) }
    {
        match self.progress_of(of.place) {
            Progress::Value(value) => Ok(Turn::Go(Step::Leave(value))),
            Progress::Begun => Ok(Turn::Stop(Walked::Never)),
            Progress::Ahead => {
                self.begun = after(self.begun)?;
                self.keep(of.place, Progress::Begun)?;
                self.walking.push(Walking::Left(of))?;
                Ok(Turn::Go(Step::Enter(of.left)))
            }
        }
    }

    /// How far the operation at a place is.
    fn progress_of(&self, place: Place) -> Progress
        ensures { result ≡ progress_at self.now place }
    {
        match self.progress.get(&place) {
            Some(progress) => *progress,
            None => Progress::Ahead,
        }
    }

    /// Goes on from an operand with its value: to the right operand, or out of the operation.
    fn leave(&mut self, value: i128) -> Result<Turn, AllocError>
        ensures { IfOk result (λ turn. Leaves self.old self.new value turn) }
    {
        let Some(innermost) = self.walking.pop() else {
            return Ok(Turn::Stop(Walked::Is(value)));
        };
        match innermost {
            Walking::Left(of) => {
                self.walking.push(Walking::Right(of, value))?;
                Ok(Turn::Go(Step::Enter(of.right)))
            }
            Walking::Right(of, left) => {
                let Some(result) = of.operation.calculate(left, value) else {
                    return Ok(Turn::Stop(Walked::Never));
                };
                self.keep(of.place, Progress::Value(result))?;
                Ok(Turn::Go(Step::Leave(result)))
            }
        }
    }

    /// Keeps how far the operation at a place is.
    fn keep(&mut self, place: Place, progress: Progress) -> Result<(), AllocError>
        ensures { IfOk result (λ _. Keeps self.old self.new place progress) }
    {
        match self.progress.insert(place, progress) {
            Ok(_) => Ok(()),
            Err(_) => Err(AllocError),
        }
    }
}

/// The number after this one. No memory holds as many operations as there are numbers.
fn after(number: u64) -> Result<u64, AllocError>
    ensures next { IfOk result (λ next. next ≡ number + 1) }
    ensures small { IfOk result (λ next. next < 2 ^ 64) }
{
    number.checked_add(1).ok_or(AllocError)
}
