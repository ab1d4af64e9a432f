//! Reading goals.

ghost use Rattle.std.specs.Prelude.{◌≡◌, ◌∷◌, [], List, map, true, false, is_some, option_map, IfOk, IfSome, IfNone};
ghost use Rattle.akl_text.specs.declared.token.Kind.TheVariants.{Open, Close};
ghost use Rattle.akl_lexemes.specs.declared.lexeme.Lexeme.{Lexeme};
ghost use Rattle.akl_lexemes.specs.declared.lexeme.Lexeme.TheVariants.{Symbol};
ghost use Rattle.akl_syntax.specs.Goals.{GoalIs, Conj, PartIs, begins_collect, written};
ghost use Rattle.akl_syntax.specs.GoalView.{goal, part};
ghost use Rattle.akl_syntax.specs.Parts.{guard_at, Guarded, Alternatives, Ended, Collected};
ghost use Rattle.akl_syntax.specs.PartView.{part_of};
ghost use Rattle.akl_syntax.specs.Ahead.{is_test};
ghost use Rattle.term_syntax.specs.declared.level.Level.TheVariants.{Sum};
ghost use Rattle.term_syntax.specs.Ends.{ends_chain};
ghost use Rattle.term_syntax.specs.View.{tree};
ghost use Rattle.akl_lexemes.specs.Brackets.{IsTable};
ghost use Rattle.akl_lexemes.specs.Parsed.{Parsed, anywhere};
ghost use Rattle.akl_syntax.specs.Ends.{ends_goal, ends_conj, ends_part, ends_parts};

use crate::ahead::{collecting, joined, looks_tested};
use crate::relation::{guard_op, relation};
use crate::source::{SourceGoal, SourcePart};
use akl_lexemes::{Brackets, Fault, Lexeme, behind, front, skip};
use akl_terms::{Op, Text};
use akl_text::Kind;
use std::alloc::{AllocError, Global};
use term_syntax::{Level, SourceTerm, arguments, expr};

/// A part as it is written, with an operator or without.
#[derive(Drop)]
pub struct WrittenPart {
    pub guard: Vec<SourceGoal>,
    pub op: Option<Op>,
    pub body: Vec<SourceGoal>,
}

impl WrittenPart {
    /// Without an operator it counts as one with `?`.
    pub fn into_source(self) -> SourcePart
        ensures { part result ≡ written (part_of self) }
    {
        SourcePart {
            guard: self.guard,
            op: match self.op {
                Some(op) => op,
                None => Op::Choice,
            },
            body: self.body,
        }
    }
}

/// The goal alone.
fn alone(alloc: Global, goal: SourceGoal) -> Result<Vec<SourceGoal>, AllocError>
    ensures { IfOk result (λ v. v.items ≡ goal ∷ []) }
{
    let mut found = Vec::new(alloc);
    found.push(goal)?;
    Ok(found)
}

fn pair(alloc: Global, left: SourceTerm, right: SourceTerm) -> Result<Vec<SourceTerm>, AllocError>
    ensures { IfOk result (λ v. v.items ≡ left ∷ right ∷ []) }
{
    let mut found = Vec::new(alloc);
    found.push(left)?;
    found.push(right)?;
    Ok(found)
}

/// A term, a relation and a term.
fn test(alloc: Global, lexemes: &[Lexeme]) -> Result<(Vec<SourceGoal>, &[Lexeme]), Fault>
    requires test { is_test lexemes.now ≡ true }
    requires plain { begins_collect lexemes.now ≡ false }
    ensures { Parsed (λ x. (map goal x.0.items, x.1.now)) (GoalIs lexemes.now) ends_goal result }
{
    let (left, rest) = expr(alloc, Level::Sum, lexemes)?;
    let Some((first, rest)) = front(rest) else {
        return Err(Fault::Syntax);
    };
    let Some(symbol) = relation(first) else {
        return Err(Fault::Syntax);
    };
    let (right, rest) = expr(alloc, Level::Sum, rest)?;
    if joined(rest) {
        return Err(Fault::Syntax);
    }
    let symbol = Text::from_str(alloc, symbol)?;
    let arguments = pair(alloc, left, right)?;
    let found = alone(alloc, SourceGoal::Call { symbol, arguments })?;
    Ok((found, rest))
}

/// A call of a symbol, which was read.
fn called<'a>(
    alloc: Global,
    symbol: &Text,
    lexemes: &'a [Lexeme],
) -> Result<(Vec<SourceGoal>, &'a [Lexeme]), Fault>
    requires call { is_test (Symbol symbol.now ∷ lexemes.now) ≡ false }
    requires plain { begins_collect (Symbol symbol.now ∷ lexemes.now) ≡ false }
    ensures { Parsed (λ x. (map goal x.0.items, x.1.now)) (GoalIs (Symbol symbol.now ∷ lexemes.now)) ends_goal result }
{
    let symbol = symbol.duplicate()?;
    let (arguments, rest) = arguments(alloc, lexemes)?;
    let found = alone(alloc, SourceGoal::Call { symbol, arguments })?;
    Ok((found, rest))
}

/// An expression and the mark that ends it.
fn ended(alloc: Global, kind: Kind, lexemes: &[Lexeme]) -> Result<(SourceTerm, &[Lexeme]), Fault>
    requires { (a : List Lexeme) → ends_chain Sum (Lexeme.Mark kind ∷ a) ≡ true }
    ensures { Parsed (λ x. (tree x.0, x.1.now)) (Ended kind lexemes.now) anywhere result }
{
    let (found, rest) = expr(alloc, Level::Sum, lexemes)?;
    let rest = behind(kind, rest)?;
    Ok((found, rest))
}

/// The operator behind a guard with which the lexemes begin, and what stands behind it.
fn guard_front(lexemes: &[Lexeme]) -> Option<(Op, &[Lexeme])>
    ensures { option_map (λ x. (x.0, x.1.now)) result ≡ guard_at lexemes.now }
{
    let (first, rest) = front(lexemes)?;
    let op = guard_op(first)?;
    Some((op, rest))
}

/// What stands behind a closing bracket, where the part in it has no operator.
fn behind_goals<'a>(first: &WrittenPart, lexemes: &'a [Lexeme]) -> Option<&'a [Lexeme]>
    ensures closed { IfSome result (λ rest. lexemes.now ≡ Lexeme.Mark Close ∷ rest.now) }
    ensures plain { IfSome result (λ _. is_some first.now.op ≡ false) }
    ensures none { IfNone result (is_some first.now.op ≡ false → (a : List Lexeme) → lexemes.now ≡ Lexeme.Mark Close ∷ a → ⊥) }
{
    if first.op.is_some() {
        return None;
    }
    skip(Kind::Close, lexemes)
}

/// The goals of one that is written: in brackets there may be several.
#[cycle(goals)]
fn goal<'a>(
    alloc: Global,
    brackets: &Brackets,
    lexemes: &'a [Lexeme],
) -> Result<(Vec<SourceGoal>, &'a [Lexeme]), Fault>
    requires { IsTable brackets.now lexemes.now }
    ensures { Parsed (λ x. (map goal x.0.items, x.1.now)) (GoalIs lexemes.now) ends_goal result }
{
    if let Some(rest) = collecting(lexemes) {
        return collected(alloc, brackets, rest);
    }
    if looks_tested(brackets, lexemes) {
        return test(alloc, lexemes);
    }
    let Some((first, rest)) = front(lexemes) else {
        return Err(Fault::Syntax);
    };
    match first {
        Lexeme::Symbol(symbol) => called(alloc, symbol, rest),
        Lexeme::Mark(_) => bracketed(alloc, brackets, rest),
        _ => Err(Fault::Syntax),
    }
}

/// A collecting goal, whose symbol and opening bracket were read.
#[cycle(goals)]
fn collected<'a>(
    alloc: Global,
    brackets: &Brackets,
    lexemes: &'a [Lexeme],
) -> Result<(Vec<SourceGoal>, &'a [Lexeme]), Fault>
    requires { IsTable brackets.now lexemes.now }
    ensures { Parsed (λ x. (map goal x.0.items, x.1.now)) (Collected lexemes.now) ends_goal result }
{
    let (collected, rest) = ended(alloc, Kind::Comma, lexemes)?;
    let (goals, rest) = goal(alloc, brackets, rest)?;
    let rest = behind(Kind::Comma, rest)?;
    let (result, rest) = ended(alloc, Kind::Close, rest)?;
    if joined(rest) {
        return Err(Fault::Syntax);
    }
    let found = alone(
        alloc,
        SourceGoal::Collect {
            collected,
            goals,
            result,
        },
    )?;
    Ok((found, rest))
}

/// Goals with commas between.
#[cycle(goals)]
pub fn conj<'a>(
    alloc: Global,
    brackets: &Brackets,
    lexemes: &'a [Lexeme],
) -> Result<(Vec<SourceGoal>, &'a [Lexeme]), Fault>
    requires { IsTable brackets.now lexemes.now }
    ensures { Parsed (λ x. (map goal x.0.items, x.1.now)) (Conj lexemes.now) ends_conj result }
{
    let (mut goals, mut rest) = goal(alloc, brackets, lexemes)?;
    while let Some(after) = skip(Kind::Comma, rest) {
        let (mut next, after) = goal(alloc, brackets, after)?;
        goals.append(&mut next)?;
        rest = after;
    }
    Ok((goals, rest))
}

/// An operator may stand before the goals, between them, or nowhere.
#[cycle(goals)]
pub fn part<'a>(
    alloc: Global,
    brackets: &Brackets,
    lexemes: &'a [Lexeme],
) -> Result<(WrittenPart, &'a [Lexeme]), Fault>
    requires { IsTable brackets.now lexemes.now }
    ensures { Parsed (λ x. (part_of x.0, x.1.now)) (PartIs lexemes.now) ends_part result }
{
    if let Some((op, rest)) = guard_front(lexemes) {
        return guarded(alloc, brackets, Vec::new(alloc), op, rest);
    }
    let (goals, rest) = conj(alloc, brackets, lexemes)?;
    if let Some((op, rest)) = guard_front(rest) {
        return guarded(alloc, brackets, goals, op, rest);
    }
    let found = WrittenPart {
        guard: Vec::new(alloc),
        op: None,
        body: goals,
    };
    Ok((found, rest))
}

/// The part whose guard and operator were read.
#[cycle(goals)]
fn guarded<'a>(
    alloc: Global,
    brackets: &Brackets,
    guard: Vec<SourceGoal>,
    op: Op,
    lexemes: &'a [Lexeme],
) -> Result<(WrittenPart, &'a [Lexeme]), Fault>
    requires { IsTable brackets.now lexemes.now }
    ensures { Parsed (λ x. (part_of x.0, x.1.now)) (Guarded (map goal guard.items) op lexemes.now) ends_part result }
{
    let (body, rest) = conj(alloc, brackets, lexemes)?;
    if guard_front(rest).is_some() {
        return Err(Fault::Syntax);
    }
    let found = WrittenPart {
        guard,
        op: Some(op),
        body,
    };
    Ok((found, rest))
}

/// The goals in brackets, or an inline choice, whose opening bracket was read.
#[cycle(goals)]
fn bracketed<'a>(
    alloc: Global,
    brackets: &Brackets,
    lexemes: &'a [Lexeme],
) -> Result<(Vec<SourceGoal>, &'a [Lexeme]), Fault>
    requires table { IsTable brackets.now lexemes.now }
    requires goals { is_test (Lexeme.Mark Open ∷ lexemes.now) ≡ false }
    ensures { Parsed (λ x. (map goal x.0.items, x.1.now)) (GoalIs (Lexeme.Mark Open ∷ lexemes.now)) ends_goal result }
{
    let (first, rest) = part(alloc, brackets, lexemes)?;
    if let Some(rest) = behind_goals(&first, rest) {
        return Ok((first.body, rest));
    }
    let (parts, rest) = alternatives(alloc, brackets, first.into_source(), rest)?;
    let rest = behind(Kind::Close, rest)?;
    let found = alone(alloc, SourceGoal::Choice(parts))?;
    Ok((found, rest))
}

/// The parts of an inline choice, the first of which was read.
#[cycle(goals)]
fn alternatives<'a>(
    alloc: Global,
    brackets: &Brackets,
    first: SourcePart,
    lexemes: &'a [Lexeme],
) -> Result<(Vec<SourcePart>, &'a [Lexeme]), Fault>
    requires table { IsTable brackets.now lexemes.now }
    requires edge { ends_part lexemes.now ≡ true }
    ensures { Parsed (λ x. (map part x.0.items, x.1.now)) (Alternatives (part first) lexemes.now) ends_parts result }
{
    let mut parts = Vec::new(alloc);
    parts.push(first)?;
    let mut rest = lexemes;
    while let Some(after) = skip(Kind::Semicolon, rest) {
        let (next, after) = part(alloc, brackets, after)?;
        parts.push(next.into_source())?;
        rest = after;
    }
    Ok((parts, rest))
}
