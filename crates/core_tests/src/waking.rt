//! Places to which one worker attends by hand: what each label opens, and what sleeps.

ghost use Rattle.std.specs.Prelude.{◌≡◌, IfOk};
ghost use Rattle.box_tree.specs.Tables.{HasVariables, HasShownVariables};
ghost use Rattle.core_tests.specs.Waking.{GoesOnTo};

use crate::attending::{attend, attend_between};
use crate::cases::{Case, case_of, expect};
use crate::listing::push_open;
use crate::loading::loaded;
use crate::places::place_of;
use akl_run::Loaded;
use akl_terms::Program;
use scheduler::Scheduler;
use std::alloc::{AllocError, Global};
use std::process::Abort;
use std::test::Fail;
use step_commit::Core;

/// Programs, queries, places to which worker 1 attends in turn, and what comes of each: the rule of the label, with the
/// places that it opens and that weren't open; or that the place sleeps, with the box that this opens; or that it is to be
/// looked at inside, as something is open in it, and stays open; or that it is gone, or that all labels are spent. At
/// `goal 0.2 < goal 0.3 < goal 0.4` the first is looked at before the others are attended to, and is settled afterwards, where
/// nothing changed that it read. Last come the places that are still open. Boxes are listed before goals, each by name.
const WAKES: &str = r"
p(a) :- -> true. => p(X), X = a => goal 0.2; box 0.0; goal 0.2; box 1.0; goal 0.3; goal 0.2; box 1.0; box 0.0 => fork box 1.0 / look inside / sleeps / sleeps / tell box 1.0, goal 0.2 / promote / gone / sleeps / open
p(Y) :- Z = Y, Z > 0 -> true. => p(X), X = 1 => goal 0.2; goal 1.2; box 0.0; goal 0.2; box 1.0; goal 1.3; goal 0.3; goal 1.3; goal 0.2; box 1.0; box 0.0 => fork box 1.0, goal 1.2, goal 1.3 / tell / look inside / sleeps / sleeps / sleeps / tell box 1.0, goal 1.3 / eval goal 0.2 / promote / gone / sleeps / open
p(Y) :- Y > 0 -> true. => p(X), W = X, W = 1 => goal 0.2; goal 1.2; goal 0.3; goal 1.2; goal 0.4 => fork box 1.0, goal 1.2 / sleeps / tell goal 1.2 / sleeps / tell goal 1.2 / open box 0.0, box 1.0, goal 0.2, goal 1.2
p(X,Y) :- X = f(Z), Y = g(Z) -> true. => p(A,B), B = g(c), A = f(c) => goal 0.2; box 0.0; goal 0.2; goal 1.2; goal 0.2; goal 1.3; goal 0.2; box 1.0; goal 0.3; goal 0.2; box 1.0; box 0.0; goal 0.4; goal 0.2; box 1.0; box 0.0 => fork box 1.0, goal 1.2, goal 1.3 / look inside / sleeps / tell goal 0.2 / sleeps / tell goal 0.2 / sleeps / sleeps / tell box 1.0, goal 0.2 / sleeps / sleeps / look inside / tell box 1.0, goal 0.2 / promote / gone / sleeps / open
m(a). m(b). n :- q(Z) ? true. q(a) :- -> true. => m(X), n => goal 0.2; goal 0.3; goal 0.2; goal 0.3; box 1.0; box 1.2; box 1.4; box 0.0; goal 1.6; box 1.7; goal 1.6; box 1.4; box 0.0; goal 0.2; box 1.0 => fork box 1.0, box 1.2 / fork box 1.4, goal 1.6 / sleeps / sleeps / sleeps / sleeps / sleeps / sleeps / fork box 1.4, box 1.7 / sleeps / sleeps / sleeps, opens box 0.0 / split box 1.9, box 1.13, box 1.15, box 1.18, goal 0.2, goal 1.11, goal 1.12, goal 1.17 / promote box 1.0 / gone / open box 0.0, box 1.9, box 1.13, box 1.15, box 1.18, goal 1.11, goal 1.12, goal 1.17
p(a) :- -> true. => p(X), X = a => goal 0.2; goal 0.2 < goal 0.3 => fork box 1.0 / tell / stale binding 0.1 / open box 0.0, box 1.0, goal 0.2
p(a) :- -> true. q(b). => p(X), q(Y) => goal 0.2; goal 0.2 < goal 0.3 => fork box 1.0 / fork box 1.2 / sleeps / open box 0.0, box 1.0, box 1.2, goal 0.3
 => X is 1 + 2, X > 2, X > 5 => box 0.0; goal 0.3; goal 0.4; goal 0.2; box 0.0; goal 0.3; box 0.0; goal 0.4; box 0.0; goal 0.4 => look inside / sleeps / sleeps / eval goal 0.3, goal 0.4 / look inside / eval / look inside / eval / fail / gone / open
c([_|T]) :- -> c(T). => open_port(P,S), send(m,P), c(S) => goal 0.4; goal 0.3; goal 0.4; box 1.0; box 0.0; goal 0.2; box 0.0; goal 0.3; box 0.0; goal 0.4; box 1.0; goal 1.4 => fork box 1.0 / sleeps / sleeps / sleeps / look inside / open goal 0.3 / look inside / send box 1.0, goal 0.4 / look inside / promote goal 1.4 / gone / fork box 1.5 / open box 0.0, box 1.5, goal 1.4
p(a) :- -> true. p(b) :- -> true. => p(X), X = b => goal 0.2; goal 0.3; goal 0.2; box 0.0; box 1.2; box 1.0; goal 0.2 => fork box 1.0, box 1.2 / tell / sleeps / look inside / sleeps / fail goal 0.2 / promote / open box 0.0
p(a) :- | true. p(_) :- | true. => p(X) => goal 0.2; box 0.0; box 1.0; box 1.2; goal 0.2; goal 0.2 => fork box 1.0, box 1.2 / look inside / sleeps / sleeps / cut / promote / open box 0.0
p(X) :- q(W), X = a -> true. q(c) :- -> true. => p(A), A = a => goal 0.2; goal 1.2; goal 1.2; box 1.4; goal 0.2; box 1.0; goal 1.3; goal 1.2; box 1.4; goal 0.3 => fork box 1.0, goal 1.2, goal 1.3 / fork box 1.4 / sleeps / sleeps / sleeps / sleeps / tell box 1.0, box 1.4, goal 0.2, goal 1.2 / sleeps / sleeps / tell box 1.4, goal 1.2 / open box 0.0, box 1.0, box 1.4, goal 0.2, goal 1.2
p :- q -> true. q :- -> true. => p => goal 0.2; goal 1.2; goal 0.2; box 0.0; box 1.0; box 1.3; goal 1.2; goal 0.2 => fork box 1.0, goal 1.2 / fork box 1.3 / sleeps / look inside / sleeps / sleeps / promote box 1.0, goal 0.2 / promote / open box 0.0, box 1.0
m(a). m(b). p(a) :- -> true. => m(X), p(X) => goal 0.2; goal 0.3; goal 0.2; goal 0.3; box 1.0; box 1.2; box 1.4; box 0.0; goal 1.9; box 1.12; goal 1.8; goal 0.2 => fork box 1.0, box 1.2 / fork box 1.4 / sleeps / sleeps / sleeps / sleeps / sleeps / split box 1.6, box 1.10, box 1.12, goal 0.2, goal 1.8, goal 1.9 / sleeps / sleeps / promote box 1.12, goal 1.9 / promote box 1.0, box 1.4, goal 0.3 / open box 0.0, box 1.0, box 1.4, box 1.6, box 1.10, box 1.12, goal 0.3, goal 1.9
m(a). m(b). n :- q(Z) ? true. q(a) :- -> true. k :- m(X), n ? true. => k => goal 0.2; goal 1.2; goal 1.3; goal 1.2; goal 1.3; box 1.4; box 1.6; box 1.8; box 1.0; goal 0.2; box 0.0; goal 1.10; box 1.11; goal 1.10; box 1.8; box 1.0 => fork box 1.0, goal 1.2, goal 1.3 / fork box 1.4, box 1.6 / fork box 1.8, goal 1.10 / sleeps / sleeps / sleeps / sleeps / sleeps / sleeps / sleeps / look inside / fork box 1.8, box 1.11 / sleeps / sleeps / sleeps, opens box 1.0 / split box 1.13, box 1.17, box 1.19, box 1.22, goal 0.2, goal 1.2, goal 1.15, goal 1.16, goal 1.21 / open box 0.0, box 1.0, box 1.13, box 1.17, box 1.19, box 1.22, goal 0.2, goal 1.2, goal 1.15, goal 1.16, goal 1.21
p(a) :- -> true. => p(X), X = b => goal 0.2; goal 0.3; box 0.0; goal 0.2; box 1.0; goal 0.2; box 0.0 => fork box 1.0 / tell / look inside / sleeps / fail goal 0.2 / sleeps / fail / open
p(a) :- -> true. q(a) :- -> true. => p(X), q(Y), X = a => goal 0.2; goal 0.3; box 1.0; box 1.2; goal 0.2; goal 0.3; box 0.0; goal 0.4 => fork box 1.0 / fork box 1.2 / sleeps / sleeps / sleeps / sleeps / look inside / tell box 1.0, goal 0.2 / open box 0.0, box 1.0, goal 0.2
p :- -> p. => p => goal 0.2; goal 0.2; goal 1.2; goal 1.2; goal 1.5; goal 1.5; goal 1.8 => fork box 1.0 / promote goal 1.2 / fork box 1.3 / promote goal 1.5 / fork box 1.6 / promote goal 1.8 / spent / open box 0.0, box 1.0, box 1.3, box 1.6, goal 1.8
m(a). m(b). => bagof(X, m(X), L) => goal 0.2; goal 1.2; box 1.0; goal 1.2; goal 1.9; goal 0.2 => fork box 1.0, goal 1.2 / fork box 1.3, box 1.5 / split box 1.7, box 1.10, goal 1.9 / promote / promote / collect / open box 0.0, box 1.0, box 1.3, box 1.5, box 1.7, box 1.10
 => bagof(X, fail, L) => goal 0.2; goal 0.2; box 1.0; goal 0.2 => fork box 1.0, goal 1.2 / sleeps / fail goal 0.2 / collect / open box 0.0, goal 1.2
 => bagof(Y, Z = a, L), Z = a => goal 0.2; goal 1.2; goal 0.2; box 1.0; goal 0.3; goal 0.2; box 1.0 => fork box 1.0, goal 1.2 / tell / sleeps / sleeps / tell box 1.0, goal 0.2 / collect / gone / open box 0.0
 => bagof(Y, (Z = a, Y = b), L), Z = a => goal 0.2; goal 1.2; goal 0.2; goal 0.3; goal 1.3; goal 0.2 => fork box 1.0, goal 1.2, goal 1.3 / tell / sleeps / tell / tell goal 0.2 / collect / open box 0.0, box 1.0
 => bagof(Q, open_port(Q,_S), [P]), send(a,P) => goal 0.3; goal 0.2; goal 1.2; goal 0.2; goal 0.3 => sleeps / fork box 1.0, goal 1.2 / open / collect goal 0.3 / send / open box 0.0, box 1.0
p(a) :- q(W) -> true. q(c) :- -> true. => p(X), X = b => goal 0.2; goal 0.3; goal 1.2; goal 1.2 < box 1.0 => fork box 1.0, goal 1.2 / tell / fork box 1.3 / fail / stale goal 1.2 / open box 0.0, box 1.3, goal 0.2, goal 1.2
 => Y is X + 1, X = 1 => goal 0.2 < goal 0.3 => tell / stale binding 0.1 / open box 0.0, goal 0.2
 => X = Z, Y is Z + 1, X = 1 => goal 0.3 < goal 0.2 < goal 0.4 => tell / tell / stale binding 0.1 / open box 0.0, goal 0.3
p(a) :- -> true. p(b) :- -> true. => p(X), X = a => goal 0.2; goal 0.2 < goal 0.3 < box 1.2 => fork box 1.0, box 1.2 / tell / fail / stale goal 0.2 / open box 0.0, box 1.0, goal 0.2
p(X) :- X = Y, Y > 0 -> true. => p(X), X = 3 => goal 0.2; goal 1.3 < goal 1.2 < goal 0.3 => fork box 1.0, goal 1.2, goal 1.3 / tell / tell / stale binding 1.1 / open box 0.0, box 1.0, goal 0.2, goal 1.3
p(X) :- q(X) -> true. q(a) :- -> true. => p(X), X = a => goal 0.2; goal 0.3; goal 0.2 < goal 1.2 < goal 1.2 => fork box 1.0, goal 1.2 / tell / fork box 1.3 / promote / stale goals 1.0 / open box 0.0, box 1.0, box 1.3, goal 0.2
p(a) :- -> true. p(b) :- -> true. => p(X), X = b => goal 0.2; box 1.0 < goal 0.3 => fork box 1.0, box 1.2 / tell / stale goals 0.0 / open box 0.0, box 1.0, box 1.2, goal 0.2
 => open_port(P,S), send(a,Q), P = Q => goal 0.2; goal 0.3 < goal 0.4 => open / tell / stale binding 0.1 / open box 0.0, goal 0.3
p(X,E) :- X = E, q(X) -> true. q(a) :- -> true. => p(X,E), E = b => goal 0.2; goal 1.2; goal 1.3; box 1.4 < goal 0.3 => fork box 1.0, goal 1.2, goal 1.3 / tell / fork box 1.4 / tell / stale goals 0.0 / open box 0.0, box 1.0, box 1.4, goal 0.2, goal 1.3
p(a) :- -> true. p(b) :- -> true. => p(X), Z = b => goal 0.2; goal 0.2 < goal 0.3 => fork box 1.0, box 1.2 / tell / sleeps / open box 0.0, box 1.0, box 1.2
";

/// How many labels are made at most.
const LABELS: u64 = 6;

// What comes of a turn.
fn take_turn(
    alloc: Global,
    program: &Program,
    scheduler: &mut Scheduler,
    turn: &str,
    text: &mut String,
) -> Result<(), AllocError>
    requires { program.now ≡ scheduler.old.core.table.program }
    ensures { IfOk result (λ _. GoesOnTo scheduler.old.core scheduler.new.core) }
{
    let Some((first, others)) = turn.split_once(" < ") else {
        return match place_of(turn) {
            Some(place) => attend(alloc, program, scheduler, place, text),
            None => text.push_str("no place"),
        };
    };
    match place_of(first) {
        Some(first) => attend_between(alloc, program, scheduler, first, others, text),
        None => text.push_str("no place"),
    }
}

// What comes of all turns.
fn take_turns(
    alloc: Global,
    program: &Program,
    scheduler: &mut Scheduler,
    turns: &str,
    text: &mut String,
) -> Result<(), AllocError>
    requires { program.now ≡ scheduler.old.core.table.program }
{
    for turn in turns.split("; ") {
        take_turn(alloc, program, scheduler, turn, text)?;
        text.push_str(" / ")?;
    }
    push_open(alloc, scheduler, text)
}

// A scheduler of a query that no label has changed, for two workers.
fn begun(alloc: Global, loaded: &Loaded) -> Result<Scheduler, AllocError>
    requires variables { HasVariables loaded.now.program loaded.now.query loaded.now.first_variable }
    requires shown { HasShownVariables loaded.now.query }
    ensures { IfOk result (λ s. s.core.table.program ≡ loaded.now.program) }
{
    let core = Core::new(
        alloc,
        &loaded.program,
        &loaded.query,
        loaded.first_variable,
        2,
        LABELS,
    )?;
    Scheduler::new(alloc, core)
}

// What the turns of a line come to.
fn push_woken(
    alloc: Global,
    loaded: &Loaded,
    turns: &str,
    text: &mut String,
) -> Result<(), AllocError>
    requires variables { HasVariables loaded.now.program loaded.now.query loaded.now.first_variable }
    requires shown { HasShownVariables loaded.now.query }
{
    let mut scheduler = begun(alloc, loaded)?;
    take_turns(alloc, &loaded.program, &mut scheduler, turns, text)
}

// The same, as a text of its own.
fn woken(alloc: Global, loaded: &Loaded, turns: &str) -> Result<String, AllocError>
    requires variables { HasVariables loaded.now.program loaded.now.query loaded.now.first_variable }
    requires shown { HasShownVariables loaded.now.query }
{
    let mut text = String::new(alloc);
    push_woken(alloc, loaded, turns, &mut text)?;
    Ok(text)
}

// What a line comes to.
fn found(alloc: Global, case: &Case) -> Result<String, Fail> {
    let loaded = loaded(alloc, case.program, case.query)?;
    Ok(woken(alloc, &loaded, case.turns)?)
}

// A line comes to what it should.
fn try_line(rt: &impl Abort, alloc: Global, line: &str) -> Result<(), Fail> {
    let case = case_of(line)?;
    let found = found(alloc, &case)?;
    expect(rt, found.as_str(), case.wanted, line);
    Ok(())
}

#[test]
fn each_place_sleeps_until_it_is_opened(rt: HostRuntime) -> Result<(), Fail> {
    let alloc = rt.alloc();
    for line in WAKES.lines().skip(1) {
        try_line(&rt, alloc, line)?;
    }
    Ok(())
}
