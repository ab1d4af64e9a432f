//! Two plans over one state.

ghost use Rattle.std.specs.Prelude.{◌≡◌, IfOk, IfErr, IfSome, OnOk};
ghost use Rattle.step_commit.specs.Cores.{IsCore, MayCommit, Commits};
ghost use Rattle.box_tree.specs.Tables.{HasVariables, HasShownVariables};
ghost use Rattle.core_tests.specs.Racing.{IsPlanBy};

use crate::cases::{Case, case_of, expect};
use crate::loading::loaded;
use crate::places::{Turn, turn_of};
use crate::texts::{push_journal, push_receipt, push_refused};
use akl_model::{Label, Receipt};
use akl_run::Loaded;
use akl_terms::Program;
use box_tree::Plan;
use place_steps::{Next, Onlooker, Seen, first_candidate, make_again, next_of, see};
use std::alloc::{AllocError, Global};
use std::process::Abort;
use std::test::Fail;
use step_commit::{CommitError, Core};

/// Programs, queries, turns, and what these come to. At a turn one worker plans and commits, or two workers plan over
/// one state, and the first commits first; `at once` a plan has all labels of a call, if it is seen which clause is left. Then
/// what the second commit of the two is, and the journal, which is replayed.
const RACES: &str = r"
p(a). => p(X), Y = b => 1 goal 0.2 | 2 goal 0.3 => at 2, seen 0 / step 1 fork goal 0.2 by 1 / step 2 tell goal 0.3 by 2
p(a). => p(X), Y = b => 2 goal 0.3 | 1 goal 0.2 => at 2, seen 0 / step 1 tell goal 0.3 by 2 / step 2 fork goal 0.2 by 1
p(a). => p(X) => 1 goal 0.2 | 2 goal 0.2 => goal 0.2 changed by 1 / step 1 fork goal 0.2 by 1
 => X = a, X = b => 1 goal 0.2 | 2 goal 0.3; 2 goal 0.3; 2 box 0.0 => binding 0.1 changed by 1 / step 1 tell goal 0.2 by 1 / step 2 tell goal 0.3 by 2 / step 3 fail box 0.0 by 2
 => A = a, B = b => 2 goal 0.3 | 1 goal 0.2 => at 2, seen 0 / step 1 tell goal 0.3 by 2 / step 2 tell goal 0.2 by 1
 => A = a, A = b => 2 goal 0.3 | 1 goal 0.2 => binding 0.1 changed by 1 / step 1 tell goal 0.3 by 2
p(b) :- -> true. => A = B, B = b, p(A) => 2 goal 0.2 | 1 goal 0.3 => binding 0.1 changed by 1 / step 1 tell goal 0.2 by 2
 => X is 1 + 2, X = 3 => 2 goal 0.3 | 1 goal 0.2 => binding 0.1 changed by 1 / step 1 tell goal 0.3 by 2
 => X is 1 + 2, X = 4 => 2 goal 0.3 | 1 goal 0.2 => binding 0.1 changed by 1 / step 1 tell goal 0.3 by 2
q(a) :- ? true. => q(X), X = b => 1 goal 0.2; 2 goal 0.3 | 1 goal 0.2 => binding 0.1 changed by 2 / step 1 fork goal 0.2 by 1 / step 2 tell goal 0.3 by 2
q(X) :- -> true. => q(X), X = b => 1 goal 0.2; 2 goal 0.3 | 1 goal 0.2 => binding 0.1 changed by 2 / step 1 fork goal 0.2 by 1 / step 2 tell goal 0.3 by 2
 => A = a, A = b, C = c => 1 goal 0.2; 2 goal 0.3 | 1 goal 0.4 => store 0.0 changed by 2 / step 1 tell goal 0.2 by 1 / step 2 tell goal 0.3 by 2
p(a) :- | true. p(b) :- | true. p(c) :- | true. => p(X), X = a, A = a, A = b => 1 goal 0.2; 1 goal 0.3; 1 goal 0.4; 2 goal 0.5 | 1 goal 0.2 => store 0.0 changed by 4 / step 1 fork goal 0.2 by 1 / step 2 tell goal 0.3 by 1 / step 3 tell goal 0.4 by 1 / step 4 tell goal 0.5 by 2
 => open_port(P,S), send(a,P), send(b,P) => 1 goal 0.2; 2 goal 0.4 | 1 goal 0.3 => store 0.0 changed by 2 / step 1 open goal 0.2 by 1 / step 2 send goal 0.4 by 2
 => open_port(P,S), send(a,P), S = [b|T] => 1 goal 0.2; 2 goal 0.4 | 1 goal 0.3 => binding 0.1 changed by 2 / step 1 open goal 0.2 by 1 / step 2 tell goal 0.4 by 2
p(X,E,U) :- X = E, E = f(U), X = f(c) -> true. => p(X,E,U), E = f(g(B,C)) => 1 goal 0.2; 1 goal 1.2; 1 goal 1.3; 2 goal 0.3 | 1 goal 1.4 => binding 0.1 changed by 4 / step 1 fork goal 0.2 by 1 / step 2 tell goal 1.2 by 1 / step 3 tell goal 1.3 by 1 / step 4 tell goal 0.3 by 2
p(X) :- X = a -> true. => p(X), X = b => 1 goal 0.2; 2 goal 1.2 | 1 goal 0.3 => binding 0.1 changed by 2 / step 1 fork goal 0.2 by 1 / step 2 tell goal 1.2 by 2
p(X,Y) :- -> Y = X. => p(A,B), p(C,D) => 1 goal 0.2; 1 goal 0.3; 2 goal 0.3 | 1 goal 0.2 => at 4, seen 2 / step 1 fork goal 0.2 by 1 / step 2 fork goal 0.3 by 1 / step 3 promote goal 0.3 of 1.2 by 2 / step 4 promote goal 0.2 of 1.0 by 1
p(X,Y) :- -> Y = X. => p(A,B), p(A,D) => 1 goal 0.2; 1 goal 0.3; 2 goal 0.3 | 1 goal 0.2 => binding 0.1 changed by 3 / step 1 fork goal 0.2 by 1 / step 2 fork goal 0.3 by 1 / step 3 promote goal 0.3 of 1.2 by 2
 => A = f(B), A = f(c), D = A => 1 goal 0.2; 2 goal 0.4 | 1 goal 0.3 => at 3, seen 1 / step 1 tell goal 0.2 by 1 / step 2 tell goal 0.4 by 2 / step 3 tell goal 0.3 by 1
p(a) :- -> true. p(b) :- -> true. => p(X), X = b => 2 goal 0.3 | 1 goal 0.2 => at 2, seen 0 / step 1 tell goal 0.3 by 2 / step 2 fork goal 0.2 by 1
p(a) :- -> true. p(b) :- -> true. => p(X), X = b, Y = c => 1 goal 0.2; 1 goal 0.3; 2 goal 0.4 | 1 box 1.0 => at 4, seen 2 / step 1 fork goal 0.2 by 1 / step 2 tell goal 0.3 by 1 / step 3 tell goal 0.4 by 2 / step 4 fail box 1.0 by 1
p(X) :- X = f(Y), Y = a -> true. => p(X), Z = b => 1 goal 0.2; 1 goal 1.2; 2 goal 0.3 | 1 goal 1.3 => at 4, seen 2 / step 1 fork goal 0.2 by 1 / step 2 tell goal 1.2 by 1 / step 3 tell goal 0.3 by 2 / step 4 tell goal 1.3 by 1
p(X) :- X > 3 -> true. p(X) :- X =< 3 -> true. => X = 5, p(X), Y = b => 1 goal 0.2; 2 goal 0.4 | 1 goal 0.3 at once => at 3, seen 1 / step 1 tell goal 0.2 by 1 / step 2 tell goal 0.4 by 2 / step 3 fork goal 0.3 by 1 / step 4 eval goal 1.2 by 1 / step 5 cut goal 0.3 of 1.0 by 1 / step 6 promote goal 0.3 of 1.0 by 1
p(X,Y) :- X > 3 -> Y = a. => X = 5, p(X,Y), Y = b => 1 goal 0.2; 2 goal 0.4 | 1 goal 0.3 at once => binding 0.1 changed by 2 / step 1 tell goal 0.2 by 1 / step 2 tell goal 0.4 by 2
m(a). m(b). j :- m(X) ? true. k :- j ? true. => k, Z = b => 1 goal 0.2; 1 goal 1.2; 1 goal 1.5; 2 goal 0.3 | 1 box 1.3 => at 5, seen 3 / step 1 fork goal 0.2 by 1 / step 2 fork goal 1.2 by 1 / step 3 fork goal 1.5 by 1 / step 4 tell goal 0.3 by 2 / step 5 split box 1.3 of 1.6 by 1
r(1). s(2). => r(X), s(Y) => 1 goal 0.2 | 2 goal 0.3 => at 2, seen 0 / step 1 fork goal 0.2 by 1 / step 2 fork goal 0.3 by 2
m(a,Y) :- | true. m(X,b) :- | true. => m(A,B), B = b, A = a => 1 goal 0.2; 1 goal 0.3; 2 goal 0.4 | 1 goal 0.2 => at 4, seen 2 / step 1 fork goal 0.2 by 1 / step 2 tell goal 0.3 by 1 / step 3 tell goal 0.4 by 2 / step 4 cut goal 0.2 of 1.2 by 1
p :- -> true. p :- q -> true. q :- -> true. => p => 1 goal 0.2; 1 goal 0.2 | 2 goal 1.4 => goal 1.4 is gone / step 1 fork goal 0.2 by 1 / step 2 cut goal 0.2 of 1.0 by 1
";

// The plan of a worker at a place, of no more labels than there is room for; `None` where the place isn't there, or no rule
// applies.
fn planned(
    alloc: Global,
    program: &Program,
    core: &Core,
    turn: Turn,
    room: u64,
) -> Result<Option<Plan>, AllocError>
    requires { program.now ≡ core.now.table.program }
    ensures { IfOk result (λ found. IfSome found (IsPlanBy core.now turn.worker room)) }
{
    let candidate = first_candidate(alloc, core, turn.place)?;
    let Some(seen) = see(alloc, core, turn.place, turn.worker, candidate)? else {
        return Ok(None);
    };
    match next_of(alloc, program, &seen, room)? {
        Next::Plan(plan) => Ok(Some(plan)),
        Next::Idle(_idle) => Ok(None),
    }
}

// Commits a plan, unless it is refused.
fn commit(alloc: Global, core: &mut Core, plan: Plan) -> Result<Receipt, CommitError>
    requires { MayCommit core.old plan }
    ensures committed { IfOk result (Commits core.old plan core.new) }
    ensures core { IfOk result (λ _. IsCore core.new) }
    ensures unchanged { IfErr result (λ _. core.new ≡ core.old) }
{
    if let Some(refused) = core.refusal(&plan) {
        return Err(refused);
    }
    let receipt = core.append(alloc, plan)?;
    // Its table tells what its type keeps.
    let _ = core.table();
    Ok(receipt)
}

// A worker plans, and commits.
fn take_turn(
    alloc: Global,
    program: &Program,
    core: &mut Core,
    turn: Turn,
    text: &mut String,
) -> Result<(), AllocError>
    requires { program.now ≡ core.old.table.program }
    ensures { OnOk result (core.new.table.program ≡ core.old.table.program) }
{
    let Some(plan) = planned(alloc, program, core, turn, turn.room)? else {
        return text.push_str("no plan");
    };
    match commit(alloc, core, plan) {
        Ok(_) => Ok(()),
        Err(error) => push_refused(text, error),
    }
}

// Two workers plan over one state, the first of them one label, and commit: what the second commit is.
fn race(
    alloc: Global,
    program: &Program,
    core: &mut Core,
    first: Turn,
    second: Turn,
    text: &mut String,
) -> Result<(), AllocError>
    requires { program.now ≡ core.old.table.program }
    ensures { OnOk result (core.new.table.program ≡ core.old.table.program) }
{
    if first.worker == second.worker {
        return text.push_str("one worker");
    }
    let Some(one) = planned(alloc, program, core, first, 1)? else {
        return text.push_str("no first plan");
    };
    let Some(two) = planned(alloc, program, core, second, second.room)? else {
        return text.push_str("no second plan");
    };
    // By this call it is known that the core is one before its labels.
    let _ = core.table();
    match commit(alloc, core, one) {
        Ok(_) => match commit(alloc, core, two) {
            Ok(receipt) => push_receipt(text, receipt),
            Err(error) => push_refused(text, error),
        },
        Err(error) => push_refused(text, error),
    }
}

// One turn of a worker, or one of two.
fn play(
    alloc: Global,
    program: &Program,
    core: &mut Core,
    turn: &str,
    text: &mut String,
) -> Result<(), AllocError>
    requires { program.now ≡ core.old.table.program }
    ensures { OnOk result (core.new.table.program ≡ core.old.table.program) }
{
    let Some((first, second)) = turn.split_once(" | ") else {
        return match turn_of(turn) {
            Some(turn) => take_turn(alloc, program, core, turn, text),
            None => text.push_str("no turn"),
        };
    };
    match (turn_of(first), turn_of(second)) {
        (Some(first), Some(second)) => race(alloc, program, core, first, second, text),
        _ => text.push_str("no turns"),
    }
}

// All turns of a line, one after the other.
fn play_all(
    alloc: Global,
    program: &Program,
    core: &mut Core,
    turns: &str,
    text: &mut String,
) -> Result<(), AllocError>
    requires { program.now ≡ core.old.table.program }
{
    for turn in turns.split("; ") {
        play(alloc, program, core, turn, text)?;
    }
    Ok(())
}

// A core of a query that no label has changed, for two workers.
fn begun(alloc: Global, loaded: &Loaded) -> Result<Core, AllocError>
    requires variables { HasVariables loaded.now.program loaded.now.query loaded.now.first_variable }
    requires shown { HasShownVariables loaded.now.query }
    ensures { IfOk result (λ c. c.table.program ≡ loaded.now.program) }
{
    Core::new(
        alloc,
        &loaded.program,
        &loaded.query,
        loaded.first_variable,
        2,
        1000,
    )
}

// One who looks at no step.
#[derive(Drop)]
struct Unseeing;

impl Onlooker for Unseeing {
    fn look(&mut self, _core: &Core, _seen: &Seen, _next: &Next) {}
}

// Makes the labels of a journal again, one after the other.
fn follow(
    alloc: Global,
    program: &Program,
    core: &mut Core,
    journal: &[Label],
    text: &mut String,
) -> Result<(), AllocError>
    requires { program.now ≡ core.old.table.program }
{
    for label in journal {
        if !make_again(alloc, program, core, *label, &mut Unseeing)? {
            text.push_str("not made")?;
        }
    }
    Ok(())
}

// The journal that is made of a journal's labels, after what went wrong.
fn push_replayed(
    alloc: Global,
    loaded: &Loaded,
    journal: &[Label],
    text: &mut String,
) -> Result<(), AllocError>
    requires variables { HasVariables loaded.now.program loaded.now.query loaded.now.first_variable }
    requires shown { HasShownVariables loaded.now.query }
{
    let mut core = begun(alloc, loaded)?;
    follow(alloc, &loaded.program, &mut core, journal, text)?;
    push_journal(alloc, text, &core.into_journal())
}

// Whether a journal's labels can be made again, without another worker's plan between.
fn is_replayed(alloc: Global, loaded: &Loaded, journal: &[Label]) -> Result<bool, AllocError>
    requires variables { HasVariables loaded.now.program loaded.now.query loaded.now.first_variable }
    requires shown { HasShownVariables loaded.now.query }
{
    let mut wanted = String::new(alloc);
    push_journal(alloc, &mut wanted, journal)?;
    let mut found = String::new(alloc);
    push_replayed(alloc, loaded, journal, &mut found)?;
    Ok(found.as_str() == wanted.as_str())
}

// A journal, and whether it isn't replayed.
fn push_tried(
    alloc: Global,
    loaded: &Loaded,
    journal: &[Label],
    text: &mut String,
) -> Result<(), AllocError>
    requires variables { HasVariables loaded.now.program loaded.now.query loaded.now.first_variable }
    requires shown { HasShownVariables loaded.now.query }
{
    push_journal(alloc, text, journal)?;
    if !is_replayed(alloc, loaded, journal)? {
        text.push_str(" / not replayed")?;
    }
    Ok(())
}

// What the turns of a line come to, and the journal.
fn push_played(
    alloc: Global,
    loaded: &Loaded,
    turns: &str,
    text: &mut String,
) -> Result<(), AllocError>
    requires variables { HasVariables loaded.now.program loaded.now.query loaded.now.first_variable }
    requires shown { HasShownVariables loaded.now.query }
{
    let mut core = begun(alloc, loaded)?;
    play_all(alloc, &loaded.program, &mut core, turns, text)?;
    push_tried(alloc, loaded, &core.into_journal(), text)
}

// The same, as a text of its own.
fn played(alloc: Global, loaded: &Loaded, turns: &str) -> Result<String, AllocError>
    requires variables { HasVariables loaded.now.program loaded.now.query loaded.now.first_variable }
    requires shown { HasShownVariables loaded.now.query }
{
    let mut text = String::new(alloc);
    push_played(alloc, loaded, turns, &mut text)?;
    Ok(text)
}

// What a line comes to.
fn found(alloc: Global, case: &Case) -> Result<String, Fail> {
    let loaded = loaded(alloc, case.program, case.query)?;
    Ok(played(alloc, &loaded, case.turns)?)
}

// A line comes to what it should.
fn try_line(rt: &impl Abort, alloc: Global, line: &str) -> Result<(), Fail> {
    let case = case_of(line)?;
    let found = found(alloc, &case)?;
    expect(rt, found.as_str(), case.wanted, line);
    Ok(())
}

#[test]
fn two_workers_plan_over_one_state(rt: HostRuntime) -> Result<(), Fail> {
    let alloc = rt.alloc();
    for line in RACES.lines().skip(1) {
        try_line(&rt, alloc, line)?;
    }
    Ok(())
}
