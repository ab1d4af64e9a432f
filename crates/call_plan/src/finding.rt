//! A call at once.

ghost use Rattle.std.specs.Prelude.{◌≡◌, List, true, length, IfOk, IfSome};
ghost use Rattle.akl_terms.specs.declared.name.Place.{Place};
ghost use Rattle.akl_terms.specs.declared.program.Code.{Code};
ghost use Rattle.akl_terms.specs.declared.term.Node.{Node};
ghost use Rattle.box_tree.specs.declared.view.Sight.{Sight};
ghost use Rattle.box_tree.specs.Edits.{named_atoms};
ghost use Rattle.table_laws.specs.Added.{added_of};
ghost use Rattle.table_laws.specs.PartSteps.{joins_part};
ghost use Rattle.box_tree.specs.Plans.{labels_behind, part_step};
ghost use Rattle.local_store.specs.Chained.{bindings_from, innermost, IsKnown};
ghost use Rattle.local_store.specs.Parts.{told_over};
ghost use Rattle.plain_heads.specs.Joined.{AreFree};
ghost use Rattle.class_members.specs.Members.{AreMembers};
ghost use Rattle.call_plan.specs.Called.{IsCalled, Remains, IsReducedClause};
ghost use Rattle.call_plan.specs.Found.{IsCallPlan};

use crate::bodies::body_of;
use crate::choosing::chosen;
use crate::heads::Arguments;
use crate::joining::joined;
use crate::labels::{cuts_others, push_end};
use crate::names::{MOST, names_of};
use crate::prospects::may_go;
use crate::reading::call_reads;
use crate::sifting::{Left, SiftedLabels};
use akl_model::{Label, Rule};
use akl_terms::{Definition, Name, Program, Var};
use body_goals::Body;
use box_tree::{Plan, Step, View};
use class_members::members;
use guard_plan::label_of;
use local_store::{Chain, Part, ToldPart};
use plain_heads::put_ends;
use smallvec::SmallVec;
use std::alloc::{AllocError, Global};

// Most calls have no more labels than this behind their first one.
const ROOM: usize = 8;

/// The plan of a call at once, at the place of a view; `None` where it isn't seen at once which one of the clauses is left.
/// An `Err` is want of memory.
pub fn call_at_once(
    alloc: Global,
    program: &Program,
    view: &View,
    goal: Name,
    definition: u32,
    arguments: Arguments,
) -> Result<Option<Plan>, AllocError>
    requires program { program.now ≡ view.now.table.program }
    requires place { view.now.place ≡ Place.Goal goal }
    requires sight { view.now.sight ≡ Sight.Atom (record { code = Code.Call definition arguments.first arguments.count; frame = arguments.frame }) }
    ensures { IfOk result (λ found. IfSome found (IsCallPlan view.now)) }
{
    let Some(called) = program.definitions.as_slice().get(definition as usize) else {
        return Ok(None);
    };
    let Some(drawn) = names_of(called.clauses.as_slice()) else {
        return Ok(None);
    };
    let chain = view.chain(&program.templates);
    if chain.known() != chain.stores().len() {
        return Ok(None);
    }
    by_clauses(alloc, program, view, goal, arguments, called, drawn)
}

// The same of a definition whose clauses' alternatives draw so many names, over stores that are known to be solved.
fn by_clauses(
    alloc: Global,
    program: &Program,
    view: &View,
    goal: Name,
    arguments: Arguments,
    called: &Definition,
    drawn: u64,
) -> Result<Option<Plan>, AllocError>
    requires program { program.now ≡ view.now.table.program }
    requires called { IsCalled view.now goal arguments called.now drawn }
    ensures { IfOk result (λ found. IfSome found (IsCallPlan view.now)) }
{
    let next = view.next();
    next.checked_add(drawn).ok_or(AllocError)?;
    let first = Name {
        worker: view.worker(),
        number: next,
    };
    let clauses = called.clauses.as_slice();
    let chain = view.chain(&program.templates);
    let mut list = SmallVec::new(alloc);
    put_ends(&chain, arguments.row(), &mut list)?;
    let ends = list.as_slice();
    if !may_go(&chain, arguments, ends, called.op, clauses) {
        return Ok(None);
    }
    let mut sifted = SiftedLabels {
        labels: Vec::with_capacity(alloc, ROOM)?,
        plainly: true,
    };
    let found = chosen(
        alloc,
        &chain,
        arguments,
        ends,
        called.op,
        first,
        clauses,
        &mut sifted,
    )?;
    let Some(left) = found else {
        return Ok(None);
    };
    by_left(alloc, program, view, goal, called, left, drawn, sifted)
}

// The same of the clause that is left.
fn by_left(
    alloc: Global,
    program: &Program,
    view: &View,
    goal: Name,
    called: &Definition,
    left: Left,
    drawn: u64,
    sifted: SiftedLabels,
) -> Result<Option<Plan>, AllocError>
    requires program { program.now ≡ view.now.table.program }
    requires remains { Remains view.now goal called.now left drawn sifted.labels.items sifted.plainly }
    ensures { IfOk result (λ found. IfSome found (IsCallPlan view.now)) }
{
    let SiftedLabels {
        mut labels,
        plainly,
    } = sifted;
    let Left {
        clause,
        name,
        frame,
        own,
        behind,
        ..
    } = left;
    if clause.body.len() as u64 > MOST {
        return Ok(None);
    }
    let names = drawn
        .checked_add(clause.body.len() as u64)
        .ok_or(AllocError)?;
    let plain = own.is_plain();
    let found = joined(
        alloc,
        &program.templates,
        view.stores(),
        called.op,
        frame,
        own,
    )?;
    let Some(mut told) = found else {
        return Ok(None);
    };
    push_end(&mut labels, goal, name, cuts_others(called.op, behind))?;
    let body = body_of(
        alloc,
        program,
        view,
        clause,
        frame,
        drawn,
        &mut told,
        &mut labels,
    )?;
    planned(
        alloc, program, view, goal, plain, plainly, names, labels, told, body,
    )
}

// The plan of a call with these labels behind its fork, all of which draw so many names, what is added to the store of its box
// and what is left of the body of the clause that is left. Its alternative, and all in which goals of guards were evaluated, had
// plain bindings or not.
fn planned(
    alloc: Global,
    program: &Program,
    view: &View,
    goal: Name,
    plain: bool,
    plainly: bool,
    names: u64,
    more: Vec<Label>,
    told: ToldPart,
    body: Body,
) -> Result<Option<Plan>, AllocError>
    requires program { program.now ≡ view.now.table.program }
    requires reduced { IsReducedClause view.now goal plain plainly names more.items told.part.frames.items (told_over (innermost view.now.stores) told) body }
    ensures { IfOk result (λ found. IfSome found (IsCallPlan view.now)) }
{
    let label = label_of(view, Rule::Fork);
    let ToldPart {
        part,
        solved,
        bound,
    } = told;
    let chain = view.chain(&program.templates);
    let binds = binds_of(alloc, &chain, plain, bound)?;
    let reads = call_reads(
        alloc,
        &program.templates,
        view,
        goal,
        plainly,
        binds.as_slice(),
    )?;
    let step = join_of(part, solved, body);
    let plan = Plan::of_call(alloc, view, label, more, reads, names, step, binds)?;
    Ok(Some(plan))
}

// Enough members of the classes of what an alternative binds or makes equal over a chain that is known to be solved. In a
// root box these are the variables themselves, where its bindings are plain.
fn binds_of(
    alloc: Global,
    chain: &Chain,
    plain: bool,
    bound: SmallVec<Var, 4>,
) -> Result<Vec<Var>, AllocError>
    requires known { IsKnown chain.now.nodes chain.now.stores (length chain.now.stores) }
    requires free { plain ≡ true → AreFree (bindings_from chain.now.stores) bound.items }
    ensures { IfOk result (λ list. AreMembers chain.now.nodes chain.now.stores bound.items list.items) }
{
    if plain && chain.stores().len() == 1 {
        let list = bound.into_vec()?;
        return Ok(list);
    }
    members(alloc, chain, bound.as_slice())
}

// The step by which this is added to the store of a box, and what is left of a body comes as goals.
fn join_of(part: Part, solved: bool, body: Body) -> Step
    ensures joins { (nodes : List Node) → part_step nodes result ≡ joins_part (added_of part) solved (named_atoms nodes body.goals.items) }
    ensures behind { labels_behind result ≡ (body.told, body.behind) }
{
    let Body {
        goals,
        told,
        behind,
    } = body;
    Step::Join {
        part,
        solved,
        goals,
        told,
        behind,
    }
}
