//! The alternative of a call that is promoted.

ghost use Rattle.std.specs.Prelude.{◌≡◌, ◌+◌, ◌<◌, ◌^◌, true, length, IfOk, IfSome};
ghost use Rattle.akl_model.specs.Instances.{drawn_by};
ghost use Rattle.local_store.specs.Chained.{bindings_from, IsKnown};
ghost use Rattle.plain_heads.specs.Plain.{AreEnds};
ghost use Rattle.call_plan.specs.Chosen.{IsChosen, OthersGo};

use crate::heads::Arguments;
use crate::sifting::{Left, SiftedLabels, first_left};
use akl_terms::{Clause, Name, Op, Term};
use local_store::Chain;
use std::alloc::{AllocError, Global};

// The clause whose alternative is promoted, where its guard holds: the first one whose alternative doesn't fail over a chain
// that is solved, if the goals of its guard hold, and for `?` the only one. `None` where that isn't known. The labels of the
// alternatives come to others.
pub(crate) fn chosen<'a>(
    alloc: Global,
    chain: &Chain,
    arguments: Arguments,
    ends: &[Term],
    op: Op,
    first: Name,
    clauses: &'a [Clause],
    sifted: &mut SiftedLabels,
) -> Result<Option<Left<'a>>, AllocError>
    requires known { IsKnown chain.now.nodes chain.now.stores (length chain.now.stores) }
    requires ends { AreEnds chain.now.nodes (bindings_from chain.now.stores) arguments.frame arguments.first ends.now }
    requires numbers { first.number + drawn_by clauses.now < 2 ^ 64 }
    ensures { IfOk result (λ found. IfSome found (IsChosen chain.now.symbols chain.now.nodes chain.now.stores arguments first.worker first.number op clauses.now sifted.old.labels.items sifted.old.plainly sifted.new.labels.items sifted.new.plainly)) }
{
    let Some(left) = first_left(alloc, chain, arguments, ends, first, clauses, sifted)? else {
        return Ok(None);
    };
    if !left.holds {
        return Ok(None);
    }
    if !others_go(alloc, chain, arguments, ends, op, &left, sifted)? {
        return Ok(None);
    }
    Ok(Some(left))
}

// Whether the alternatives behind one go where it is promoted: with `->` and `|` they are cut, and with `?` all of
// them have to fail.
fn others_go(
    alloc: Global,
    chain: &Chain,
    arguments: Arguments,
    ends: &[Term],
    op: Op,
    left: &Left,
    sifted: &mut SiftedLabels,
) -> Result<bool, AllocError>
    requires known { IsKnown chain.now.nodes chain.now.stores (length chain.now.stores) }
    requires ends { AreEnds chain.now.nodes (bindings_from chain.now.stores) arguments.frame arguments.first ends.now }
    requires numbers { left.now.name.number + (2 + length left.now.clause.now.guard) + drawn_by left.now.behind.now < 2 ^ 64 }
    ensures { IfOk result (λ go. go ≡ true → OthersGo chain.now.symbols chain.now.nodes chain.now.stores arguments op left.now sifted.old.labels.items sifted.old.plainly sifted.new.labels.items sifted.new.plainly) }
{
    match op {
        Op::Condition | Op::Commit => Ok(true),
        Op::Choice => {
            let mut first = left.name;
            first.number += 2 + left.clause.guard.len() as u64;
            let next = first_left(alloc, chain, arguments, ends, first, left.behind, sifted)?;
            Ok(next.is_none())
        }
        Op::Collect => Ok(false),
    }
}
