//! Which bracket closes which.

ghost use Rattle.std.specs.Prelude.{◌≡◌, ◌<◌, ◌∷◌, ◌++◌, [], IfOk, IfSome, IfNone, length, slice_index};
ghost use Rattle.akl_lexemes.specs.Brackets.{turn, behind_close, IsTable, next_entry};

use crate::lexeme::Lexeme;
use akl_text::Kind;
use std::alloc::{AllocError, Global};
use std::marker::Model;

/// What a lexeme does to the number of open brackets.
#[derive(Clone, Copy)]
pub enum Turn {
    Opens,
    Closes,
    Stays,
}

fn turn_of(lexeme: &Lexeme) -> Turn
    ensures { result ≡ turn lexeme.now }
{
    match lexeme {
        Lexeme::Mark(Kind::OpenCall) => Turn::Opens,
        Lexeme::Mark(Kind::Open) => Turn::Opens,
        Lexeme::Mark(Kind::OpenList) => Turn::Opens,
        Lexeme::Mark(Kind::Close) => Turn::Closes,
        Lexeme::Mark(Kind::CloseList) => Turn::Closes,
        _ => Turn::Stays,
    }
}

/// The last element, and those before it.
fn back<T>(items: &[T]) -> Option<(&T, &[T])>
    ensures some { IfSome result (λ x. items.now ≡ x.1.now ++ x.0.now ∷ []) }
    ensures none { IfNone result (items.now ≡ []) }
{
    items.split_last()
}

/// The entry of a table, or 0 where it has none.
fn entry(table: &[usize], at: usize) -> usize
    ensures { result ≡ slice_index table.now at }
{
    table.get(at).copied().unwrap_or(0)
}

/// The next entry of a table, for one more lexeme in front.
fn next(turn: Turn, table: &[usize]) -> usize
    requires { 0 < length table.now }
    ensures { result ≡ next_entry turn table.now }
{
    let passed = table.len() - 1;
    match turn {
        Turn::Opens => entry(table, entry(table, passed)),
        Turn::Closes => passed,
        Turn::Stays => entry(table, passed),
    }
}

/// For each place in lexemes, where the bracket closes that is open before it.
///
/// It is made in one pass, so that each look ahead takes the same short time.
#[derive(Drop)]
pub struct Brackets {
    /// How many lexemes stand behind the closing bracket, by the number of those that stand from the place on.
    behind: Vec<usize>,
}

impl Model for Brackets {
    ghost use Rattle.std.specs.Prelude.{List, ℕ};

    ghost Value = { List ℕ };

    ghost view = { λ b. b.behind.items };
}

impl Brackets {
    /// Tells of the lexemes and of all that stand behind one of them.
    pub fn new(alloc: Global, lexemes: &[Lexeme]) -> Result<Self, AllocError>
        ensures { IfOk result (λ b. IsTable b lexemes.now) }
    {
        let mut behind = Vec::new(alloc);
        behind.push(0)?;
        let mut rest = lexemes;
        while let Some((last, before)) = back(rest) {
            let found = next(turn_of(last), behind.as_slice());
            behind.push(found)?;
            rest = before;
        }
        Ok(Brackets { behind })
    }

    /// What stands behind the bracket that closes the one before the lexemes.
    pub fn closed<'a>(&self, lexemes: &'a [Lexeme]) -> &'a [Lexeme]
        requires { IsTable self.now lexemes.now }
        ensures { result.now ≡ behind_close 0 lexemes.now }
    {
        let behind = entry(self.behind.as_slice(), lexemes.len());
        &lexemes[lexemes.len() - behind..]
    }
}
