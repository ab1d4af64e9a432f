//! Clauses and queries from their lexemes.

ghost use Rattle.std.specs.Prelude.{◌≡◌, ◌∷◌, List};
ghost use Rattle.akl_text.specs.declared.token.Kind.TheVariants.{Neck};
ghost use Rattle.akl_lexemes.specs.declared.lexeme.Lexeme.{Lexeme};
ghost use Rattle.akl_lexemes.specs.declared.lexeme.Lexeme.TheVariants.{Mark};
ghost use Rattle.akl_syntax.specs.Answers.{clause_view, query_view};
ghost use Rattle.akl_syntax.specs.Clauses.{HasPart, IsClause, IsQuery};
ghost use Rattle.akl_syntax.specs.PartView.{part_of};
ghost use Rattle.akl_syntax.specs.Wholes.{Whole};

use crate::goals::{WrittenPart, conj, part};
use crate::source::{Head, SourceClause, SourceQuery};
use akl_lexemes::{Brackets, Fault, Lexed, Lexeme, front, skip};
use akl_text::Kind;
use std::alloc::Global;
use term_syntax::arguments;

/// The part behind a neck, or none where the lexemes end.
fn clause_part(alloc: Global, lexemes: &[Lexeme]) -> Result<WrittenPart, Fault>
    ensures { Whole part_of (HasPart lexemes.now) result }
{
    let Some(rest) = skip(Kind::Neck, lexemes) else {
        return no_part(alloc, lexemes);
    };
    let brackets = Brackets::new(alloc, rest)?;
    let (found, rest) = part(alloc, &brackets, rest)?;
    if rest.is_empty() {
        Ok(found)
    } else {
        Err(Fault::Syntax)
    }
}

/// No guard and no body, where the lexemes end.
fn no_part(alloc: Global, lexemes: &[Lexeme]) -> Result<WrittenPart, Fault>
    requires { (a : List Lexeme) → lexemes.now ≡ Mark Neck ∷ a → ⊥ }
    ensures { Whole part_of (HasPart lexemes.now) result }
{
    if lexemes.is_empty() {
        Ok(WrittenPart {
            guard: Vec::new(alloc),
            op: None,
            body: Vec::new(alloc),
        })
    } else {
        Err(Fault::Syntax)
    }
}

/// The clause that lexemes without an end token are, which begins at `start`.
pub fn clause(alloc: Global, start: usize, lexed: Lexed) -> Result<SourceClause, Fault>
    ensures { Whole clause_view (IsClause start lexed.names.items lexed.lexemes.items) result }
{
    let Lexed { lexemes, names } = lexed;
    let Some((first, rest)) = front(lexemes.as_slice()) else {
        return Err(Fault::Syntax);
    };
    let Lexeme::Symbol(symbol) = first else {
        return Err(Fault::Syntax);
    };
    let head = Head::Named(symbol.duplicate()?);
    let (arguments, rest) = arguments(alloc, rest)?;
    let part = clause_part(alloc, rest)?.into_source();
    Ok(SourceClause {
        head,
        arguments,
        part,
        collected: None,
        names,
        start,
    })
}

/// The query that lexemes without an end token are.
pub fn query(alloc: Global, lexed: Lexed) -> Result<SourceQuery, Fault>
    ensures { Whole query_view (IsQuery lexed.names.items lexed.lexemes.items) result }
{
    let Lexed { lexemes, names } = lexed;
    let brackets = Brackets::new(alloc, lexemes.as_slice())?;
    let (goals, rest) = conj(alloc, &brackets, lexemes.as_slice())?;
    if rest.is_empty() {
        Ok(SourceQuery { goals, names })
    } else {
        Err(Fault::Syntax)
    }
}
