//! Reading programs and queries.

ghost use Rattle.std.specs.Prelude.{◌≡◌, ◌≤◌, ◌<◌, ◌++◌, ◌∷◌, [], length, IfOk, IfErr, IfSome, IfNone};
ghost use Rattle.std.specs.List.{All};
ghost use Rattle.akl_text.specs.declared.token.Kind.TheVariants.{End};
ghost use Rattle.akl_text.specs.Spelling.{IsTokenOf};
ghost use Rattle.akl_syntax.specs.Answers.{Answers, clause_view, ending_view, clauses_view, query_view};
ghost use Rattle.akl_syntax.specs.Clauses.{IsClause, IsQuery};
ghost use Rattle.akl_syntax.specs.Faults.{ReadsTokens, IsTokenFault, IsErrorOf};
ghost use Rattle.akl_syntax.specs.Sizes.{clauses_size, query_size};
ghost use Rattle.akl_syntax.specs.Variables.{AreClausesNumbered, IsQueryNumbered};
ghost use Rattle.akl_syntax.specs.Verdicts.{Tests, NotEnded, ReadsClause, ReadsProgram, ReadsQuery};
ghost use Rattle.akl_lexemes.specs.declared.error.SyntaxError.TheVariants.{TooLong};

use crate::clause::{clause, query};
use crate::source::{SourceClause, SourceQuery};
use akl_lexemes::{Fault, SyntaxError, within_limits};
use akl_text::{Kind, TextError, Token, layout_end, tokens};
use std::alloc::{AllocError, Global};

/// How many bytes a program may have.
const PROGRAM_BYTES: usize = 1_000_000;

/// How many bytes a query may have.
const QUERY_BYTES: usize = 10_000;

/// The tokens of the text that begins at `start`, through its end token or to the end of the text.
fn tokens_from(alloc: Global, bytes: &[u8], start: usize) -> Result<Vec<Token>, SyntaxError>
    requires { start ≤ length bytes.now }
    ensures read { IfOk result (λ v. ReadsTokens bytes.now start v.items) }
    ensures spelled { IfOk result (λ v. All (IsTokenOf bytes.now) v.items) }
    ensures err { IfErr result (IsTokenFault bytes.now start) }
{
    match tokens(alloc, bytes, start) {
        Ok(found) => Ok(found),
        Err(TextError::NoToken { .. }) => Err(SyntaxError::Syntax { at: start }),
        Err(TextError::Memory(error)) => Err(SyntaxError::Memory(error)),
    }
}

/// The tokens before an end token, and the end token, where it is the last.
fn before_end(tokens: &[Token]) -> Option<(&[Token], Token)>
    ensures parts { IfSome result (λ x. tokens.now ≡ x.0.now ++ x.1 ∷ []) }
    ensures end { IfSome result (λ x. x.1.kind ≡ End) }
    ensures none { IfNone result (NotEnded tokens.now) }
{
    let (last, before) = tokens.split_last()?;
    match last.kind {
        Kind::End => Some((before, *last)),
        _ => None,
    }
}

/// The error for a fault of the text that begins at `start`.
fn error_of(fault: Fault, start: usize) -> SyntaxError
    ensures { IsErrorOf start fault result }
{
    match fault {
        Fault::Syntax => SyntaxError::Syntax { at: start },
        Fault::Memory => SyntaxError::Memory(AllocError),
    }
}

/// The clause of tokens before an end token, which begin at `start`.
fn clause_of(
    alloc: Global,
    bytes: &[u8],
    start: usize,
    tokens: &[Token],
) -> Result<SourceClause, SyntaxError>
    requires of_bytes { All (IsTokenOf bytes.now) tokens.now }
    requires few { length tokens.now < 4294967295 }
    ensures { Answers clause_view (Tests bytes.now start (IsClause start) tokens.now) result }
{
    let lexed = within_limits(alloc, bytes, tokens)?;
    match clause(alloc, start, lexed) {
        Ok(found) => Ok(found),
        Err(fault) => Err(error_of(fault, start)),
    }
}

/// The query of tokens before an end token, if there is one, which begin at `start`.
fn query_of(
    alloc: Global,
    bytes: &[u8],
    start: usize,
    tokens: &[Token],
) -> Result<SourceQuery, SyntaxError>
    requires of_bytes { All (IsTokenOf bytes.now) tokens.now }
    requires few { length tokens.now < 4294967295 }
    ensures { Answers query_view (Tests bytes.now start IsQuery tokens.now) result }
{
    let lexed = within_limits(alloc, bytes, tokens)?;
    match query(alloc, lexed) {
        Ok(found) => Ok(found),
        Err(fault) => Err(error_of(fault, start)),
    }
}

/// The clause that begins at `start`, and the place behind its end token.
fn read_clause(
    alloc: Global,
    bytes: &[u8],
    start: usize,
) -> Result<(SourceClause, usize), SyntaxError>
    requires within { start ≤ length bytes.now }
    requires short { length bytes.now ≤ 1000000 }
    ensures reads { Answers ending_view (ReadsClause bytes.now start) result }
    ensures onward { IfOk result (λ x. start < x.1) }
    ensures end { IfOk result (λ x. x.1 ≤ length bytes.now) }
{
    let tokens = tokens_from(alloc, bytes, start)?;
    let Some((before, last)) = before_end(tokens.as_slice()) else {
        return Err(SyntaxError::Syntax { at: start });
    };
    let found = clause_of(alloc, bytes, start, before)?;
    Ok((found, last.end))
}

/// The clauses of a program, in order.
///
/// `TooLong` comes exactly where there are more than 1,000,000 bytes, with their number. Else the first text from a
/// clause's start that isn't an accepted clause decides, after whole clauses:
/// - `Syntax` where a byte before the first end token begins no token, or where no end token follows;
/// - else `TooDeep` at the first bracket with which more than 200 are open;
/// - else `IntRange` at the first integer that is no signed number of 128 bits;
/// - else `Syntax` where the tokens are no clause.
///
/// The place of `Syntax` is the clause's first byte after layout. There are at most as many terms, goals and clauses
/// together as bytes. The numbers of the variables that occur in a clause are exactly those below the length of its
/// `names`.
pub fn read_program(alloc: Global, bytes: &[u8]) -> Result<Vec<SourceClause>, SyntaxError>
    ensures reads { Answers clauses_view (ReadsProgram bytes.now) result }
    ensures size { IfOk result (λ v. clauses_size (clauses_view v) ≤ length bytes.now) }
    ensures variables { IfOk result (λ v. AreClausesNumbered (clauses_view v)) }
{
    if bytes.len() > PROGRAM_BYTES {
        return Err(SyntaxError::TooLong { count: bytes.len() });
    }
    let mut clauses = Vec::new(alloc);
    let mut start = layout_end(bytes, 0);
    while start < bytes.len() {
        let (found, end) = read_clause(alloc, bytes, start)?;
        clauses.push(found)?;
        start = layout_end(bytes, end);
    }
    Ok(clauses)
}

/// `TooLong` exactly where there are more than 10,000 bytes, with their number.
pub fn check_query(bytes: &[u8]) -> Result<(), SyntaxError>
    ensures ok { IfOk result (λ _. length bytes.now ≤ 10000) }
    ensures long { IfErr result (λ _. 10000 < length bytes.now) }
    ensures count { IfErr result (λ e. e ≡ TooLong (length bytes.now)) }
{
    if bytes.len() > QUERY_BYTES {
        return Err(SyntaxError::TooLong { count: bytes.len() });
    }
    Ok(())
}

/// The query that a text of at most 10,000 bytes is.
///
/// It is refused as a clause of [`read_program`] is, but an end token needn't follow. Where one does, only the tokens
/// before the first end token count for `TooDeep` and `IntRange`, and it is `Syntax` where more than layout stands
/// behind it. There are at most as many terms and goals together as bytes, and variables are numbered as in a clause.
pub fn read_query(alloc: Global, bytes: &[u8]) -> Result<SourceQuery, SyntaxError>
    requires { length bytes.now ≤ 10000 }
    ensures reads { Answers query_view (ReadsQuery bytes.now) result }
    ensures size { IfOk result (λ q. query_size (query_view q) ≤ length bytes.now) }
    ensures variables { IfOk result (λ q. IsQueryNumbered (query_view q)) }
{
    let start = layout_end(bytes, 0);
    let tokens = tokens_from(alloc, bytes, start)?;
    let Some((before, last)) = before_end(tokens.as_slice()) else {
        return query_of(alloc, bytes, start, tokens.as_slice());
    };
    if layout_end(bytes, last.end) < bytes.len() {
        let _ = within_limits(alloc, bytes, before)?;
        return Err(SyntaxError::Syntax { at: start });
    }
    query_of(alloc, bytes, start, before)
}
