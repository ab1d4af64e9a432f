//! Arguments and a head met in one pass.

ghost use Rattle.std.specs.Prelude.{◌≡◌, true, IfOk, IfSome, OnOk};
ghost use Rattle.akl_terms.specs.Template.{tree};
ghost use Rattle.rational_unify.specs.Known.{end_of};
ghost use Rattle.local_store.specs.Chained.{bindings_from, BindNone, IsSolvedChain};
ghost use Rattle.akl_terms.specs.Tree.{symbol_head};
ghost use Rattle.plain_heads.specs.Plain.{AreEnds, AreOfNew, ArePlain, AreRowsOf, Comes, IsTurn, Turns, pairs_of, MayBind, IsBehind, IsBeyond, Compares, ComparesHead, ComparesSeen};

use crate::row::Row;
use akl_terms::{Name, Seen, Templates, Term, Var};
use local_store::Chain;
use rational_unify::chain_end;
use std::alloc::{AllocError, Global};

// A store keeps so many bindings in its list, and takes a list of no more of them as it is.
const ROOM: usize = 8;

/// What comes of arguments and a head.
#[derive(Drop)]
pub enum Met {
    /// They clash.
    Clashes,
    /// They are equal by these bindings of variables of the head's frame, which stand in increasing order.
    Binds(Vec<(Var, Term)>),
    /// The head isn't plain, or it would bind a variable from outside.
    Unsure,
}

/// What comes of one argument.
#[derive(Clone, Copy)]
enum Turn {
    Taken,
    Clashes,
    Unsure,
}

/// Meets arguments, whose chains end in these terms, with those of a head, from left to right, over a chain that is solved.
/// An `Err` is want of memory.
pub fn meet(
    alloc: Global,
    chain: &Chain,
    arguments: Row,
    ends: &[Term],
    head: Row,
) -> Result<Met, AllocError>
    requires solved { IsSolvedChain chain.now.nodes chain.now.stores }
    requires ends { AreEnds chain.now.nodes (bindings_from chain.now.stores) arguments.frame arguments.first ends.now }
    ensures { IfOk result (Comes chain.now.nodes (bindings_from chain.now.stores) arguments head) }
{
    let mut bindings = Vec::new(alloc);
    for index in 0..arguments.count.min(head.count) {
        let Some(end) = ends.get(index as usize) else {
            return Ok(Met::Unsure);
        };
        match meet_one(chain, *end, head.at(index)?, head.frame, &mut bindings)? {
            Turn::Taken => {}
            Turn::Clashes => return Ok(Met::Clashes),
            Turn::Unsure => return Ok(Met::Unsure),
        }
    }
    Ok(Met::Binds(bindings))
}

// Meets a term at the end of its chain with one of a head.
fn meet_one(
    chain: &Chain,
    end: Term,
    head: Term,
    frame: Name,
    bindings: &mut Vec<(Var, Term)>,
) -> Result<Turn, AllocError>
    requires solved { IsSolvedChain chain.now.nodes chain.now.stores }
    requires at_end { tree chain.now.nodes end ≡ end_of chain.now.nodes (bindings_from chain.now.stores) (tree chain.now.nodes end) }
    requires plain { ArePlain chain.now.nodes (bindings_from chain.now.stores) frame bindings.old.items }
    ensures { IfOk result (IsTurn chain.now.nodes (bindings_from chain.now.stores) frame end head bindings.old.items bindings.new.items) }
{
    match rows_of(chain.templates(), end, head) {
        Some(rows) => meet_rows(chain, rows.0, rows.1, frame, bindings),
        None => meet_plainly(chain, end, head, frame, bindings),
    }
}

// The arguments of two terms that have one symbol.
fn rows_of(templates: &Templates, left: Term, right: Term) -> Option<(Row, Row)>
    ensures { IfSome result (λ rows. AreRowsOf templates.now.nodes left right rows.0 rows.1) }
{
    let Seen::Struct {
        symbol,
        first,
        count,
        frame,
    } = templates.look(right)
    else {
        return None;
    };
    let row = Row {
        frame,
        first,
        count,
    };
    match templates.look(left) {
        Seen::Struct {
            symbol: other_symbol,
            first: other_first,
            count: other_count,
            frame: other_frame,
        } if symbol == other_symbol && count == other_count => {
            let other = Row {
                frame: other_frame,
                first: other_first,
                count: other_count,
            };
            Some((other, row))
        }
        _ => None,
    }
}

// Meets arguments with as many of a structure in a head, from left to right.
fn meet_rows(
    chain: &Chain,
    arguments: Row,
    head: Row,
    frame: Name,
    bindings: &mut Vec<(Var, Term)>,
) -> Result<Turn, AllocError>
    requires solved { IsSolvedChain chain.now.nodes chain.now.stores }
    requires plain { ArePlain chain.now.nodes (bindings_from chain.now.stores) frame bindings.old.items }
    ensures { IfOk result (Turns chain.now.nodes (bindings_from chain.now.stores) frame (pairs_of arguments.frame arguments.first head.count head.frame head.first head.count) bindings.old.items bindings.new.items) }
{
    for index in 0..head.count {
        let end = chain_end(chain.templates(), chain, arguments.at(index)?);
        let turn = meet_plainly(chain, end, head.at(index)?, frame, bindings)?;
        match turn {
            Turn::Taken => {}
            Turn::Clashes => return Ok(Turn::Clashes),
            Turn::Unsure => return Ok(Turn::Unsure),
        }
    }
    Ok(Turn::Taken)
}

// Meets a term at the end of its chain with one of a head that is no structure with arguments.
fn meet_plainly(
    chain: &Chain,
    end: Term,
    head: Term,
    frame: Name,
    bindings: &mut Vec<(Var, Term)>,
) -> Result<Turn, AllocError>
    requires solved { IsSolvedChain chain.now.nodes chain.now.stores }
    requires at_end { tree chain.now.nodes end ≡ end_of chain.now.nodes (bindings_from chain.now.stores) (tree chain.now.nodes end) }
    requires plain { ArePlain chain.now.nodes (bindings_from chain.now.stores) frame bindings.old.items }
    ensures { IfOk result (IsTurn chain.now.nodes (bindings_from chain.now.stores) frame end head bindings.old.items bindings.new.items) }
{
    let templates = chain.templates();
    match templates.look(head) {
        Seen::Free(variable) => {
            if !may_bind(chain, variable, end, frame, bindings.as_slice()) {
                return Ok(Turn::Unsure);
            }
            make_room(bindings)?;
            bindings.push((variable, end))?;
            Ok(Turn::Taken)
        }
        _ => Ok(compare(templates, end, head)),
    }
}

// Where there are no bindings yet, there is room then for as many as a store has in its list.
fn make_room(bindings: &mut Vec<(Var, Term)>) -> Result<(), AllocError>
    ensures { OnOk result (bindings.new.items ≡ bindings.old.items) }
{
    if bindings.is_empty() {
        bindings.reserve(ROOM)?;
    }
    Ok(())
}

// Whether a variable of the frame may be bound to a term at the end of its chain.
fn may_bind(chain: &Chain, variable: Var, end: Term, frame: Name, bindings: &[(Var, Term)]) -> bool
    requires { AreOfNew (bindings_from chain.now.stores) frame bindings.now }
    ensures { result ≡ true → MayBind chain.now.nodes (bindings_from chain.now.stores) bindings.now variable frame end }
{
    variable.frame == frame
        && is_behind(bindings, variable)
        && is_beyond(chain.templates(), end, variable)
        && is_new(chain, frame, bindings)
}

// Whether no variable of a frame is bound by a chain; that is known where there are bindings of such variables.
fn is_new(chain: &Chain, frame: Name, bindings: &[(Var, Term)]) -> bool
    requires { AreOfNew (bindings_from chain.now.stores) frame bindings.now }
    ensures { result ≡ true → BindNone (bindings_from chain.now.stores) frame }
{
    if bindings.is_empty() {
        return chain.binds_none(frame);
    }
    true
}

// Whether a variable comes behind those that are bound.
fn is_behind(bindings: &[(Var, Term)], variable: Var) -> bool
    ensures { result ≡ true → IsBehind bindings.now variable }
{
    match bindings.last() {
        Some(last) => last.0 < variable,
        None => true,
    }
}

// Whether a term is no variable, or an older one of another frame.
fn is_beyond(templates: &Templates, term: Term, variable: Var) -> bool
    ensures { result ≡ true → IsBeyond templates.now.nodes term variable }
{
    match templates.look(term) {
        Seen::Free(other) => other.frame != variable.frame && other < variable,
        _ => true,
    }
}

// Compares two terms, of which the second one is no variable.
fn compare(templates: &Templates, left: Term, right: Term) -> Turn
    ensures { Compares templates.now.nodes left right result }
{
    compare_seen(templates.look(left), templates.look(right))
}

// Compares what they begin with.
fn compare_seen(seen: Seen, head: Seen) -> Turn
    ensures { ComparesSeen seen head result }
{
    match head {
        Seen::Int(number) => match seen {
            Seen::Free(_) => Turn::Unsure,
            Seen::Int(other) if other == number => Turn::Taken,
            _ => Turn::Clashes,
        },
        Seen::Struct { symbol, count, .. } => compare_symbol(seen, symbol, count),
        Seen::Free(_) | Seen::Port(_) => Turn::Unsure,
    }
}

// Compares what a term begins with to a symbol with so many arguments.
fn compare_symbol(seen: Seen, symbol: u32, count: u32) -> Turn
    ensures { ComparesHead seen (symbol_head symbol count) result }
{
    match seen {
        Seen::Free(_) => Turn::Unsure,
        Seen::Struct {
            symbol: other_symbol,
            count: other_count,
            ..
        } if other_symbol == symbol && other_count == count => {
            if count == 0 {
                Turn::Taken
            } else {
                Turn::Unsure
            }
        }
        _ => Turn::Clashes,
    }
}
