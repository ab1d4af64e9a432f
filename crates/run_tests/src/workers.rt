//! Whole commands by several workers.

use crate::replies::{Reply, command_at, expect, words_of};
use crate::rules::{LISTS, case_of, replied, words_for};
use akl_outside::{CrossGate, Gate, HoldGate, MeetGate};
use std::alloc::{AllocError, Global};
use std::process::Abort;
use std::sync::Wait;
use std::thread::Threads;

/// Words, programs, queries and replies.
const RUNS: &str = r"
--workers,1 => LISTS => nrev([1,2,3,4,5,6,7,8,9,10,11,12,13,14,15,16,17,18,19,20,21,22,23,24,25,26,27,28,29,30],R) => 0 / answer 1 / R = [30,29,28,27,26,25,24,23,22,21,20,19,18,17,16,15,14,13,12,11,10,9,8,7,6,5,4,3,2,1] / done
--workers,4 => LISTS => nrev([1,2,3,4,5,6,7,8],R) => 0 / answer 1 / R = [8,7,6,5,4,3,2,1] / done
--workers,3 => LISTS => member(X,[1,2,3]), member(Y,[1,2,3]), X + Y =:= 4, X < Y => 0 / answer 1 / X = 1 / Y = 3 / done
--workers,16 => LISTS => append(L,[c],Z) => 2 / suspended 1
--workers,2 =>  => X = a, X = b => 1 / failed
--workers,16 => p(X) :- (X = a ? true). => p(X) => 0 / answer 1 / X = a / done
";

/// The same without the number of workers. Where the order of two labels is free, there are two replies.
const BY_EACH: &str = r"
--budget,10 => p :- -> p. => p => 3 / budget
 =>  => X = a, X = b => 1 / failed
 => d(0) :- -> true. d(N) :- M is N - 1, d(M) -> true. => d(9) => 0 / answer 1 / done
 => q(X) :- X = 1 ? true. q(X) :- X = 2 ? true. => q(X), q(Y), X > Y => 0 / answer 1 / X = 2 / Y = 1 / done
 => LISTS => nrev([1,2,3],R) => 0 / answer 1 / R = [3,2,1] / done
 => MERGE => merge([a],[b],Z) => 0 / answer 1 / Z = [a,b] / done or 0 / answer 1 / Z = [b,a] / done
 => COUNT => open_port(P,S), send(a,P), send(b,P), count(S,0,R) => 2 / suspended 1
 => LISTS => bagof(X, member(X,[a,b,c]), L), bagof(Y, (member(Y,L), Y = Z), M), Z = b => 0 / answer 1 / L = [a,b,c] / Z = b / M = [b] / done
 => LISTS => bagof(Y, (member(Y,[a,b]), Y = Z), L) => 2 / suspended 1
 => m(X,[X|_]). m(X,[_|T]) :- m(X,T). pick(Z) :- m(X,[1,2,3]), m(Y,[2,3,4]), X =:= Y ? Z = X. two(R) :- -> R = [A,B], pick(A), pick(B), A > B. => two(R) => 0 / answer 1 / R = [3,2] / done
 =>  => bagof(X, fail, L) => 0 / answer 1 / L = [] / done
 =>  => X is 170141183460469231731687303715884105726 + 1 => 0 / answer 1 / X = 170141183460469231731687303715884105727 / done
 =>  => open_port(P,S), send(a,P), send(b,P) => 0 / answer 1 / P = port / S = [a,b|_1] / done or 0 / answer 1 / P = port / S = [b,a|_1] / done
--why => philosopher(Own,down,Meal) :- -> Meal = eaten, Own = down. => philosopher(F,G,A), philosopher(G,F,B) => 2 / waiting 1 / goal 0.2 on G / goal 0.3 on F / suspended 1
--why => eq(X,X) :- -> true. => eq(B,A), _X = f(_X) => 2 / waiting 1 / goal 0.2 on B, A / suspended 1
--model =>  => X = f(g(X)), Y = f(Z), Z = g(Y) => 0 / answer 1 / X = R1 / Y = R1 / Z = R2 / R1 = f(R2) / R2 = g(R1) / model / X: #0 / Y: #0 / Z: #1 / #0 = f(#1) / #1 = g(#0) / done
--model,--why => LISTS => bagof(X, member(X,[a,b]), L) => 0 / answer 1 / L = [a,b] / model / L: #0 / #0 = '.'(#1,#2) / #1 = a / #2 = '.'(#3,#4) / #3 = b / #4 = '[]' / done
--budget,4000 => QUEENS => bagof(x, queens([1,2,3,4,5],[],_), _L), count(_L,0,N) => 0 / answer 1 / N = 10 / done
";

// Whether a reply is one of those that are allowed.
fn is_one_of(found: &str, allowed: &str) -> bool {
    allowed.split(" or ").any(|one| one == found)
}

// Runs a line's command. The reply is one of those that the line allows.
fn run<R: Threads + Wait + Sync + Abort>(
    rt: &R,
    alloc: Global,
    line: &str,
) -> Result<(), AllocError> {
    let case = case_of(line);
    let reply = replied(rt, alloc, &case)?;
    assert!(rt;
        is_one_of(&reply.text, case.wanted),
        "{line}: {}",
        reply.text
    );
    Ok(())
}

// The same by each number of workers.
fn run_by_each<R: Threads + Wait + Sync + Abort>(
    rt: &R,
    alloc: Global,
    case: &str,
) -> Result<(), AllocError> {
    for workers in 1..=16 {
        let case = format!(in alloc; "--workers={workers},{case}")?;
        run(rt, alloc, &case)?;
    }
    Ok(())
}

#[test]
fn several_workers_answer_as_one_may(rt: HostRuntime) -> Result<(), AllocError> {
    for case in RUNS.lines().skip(1) {
        run(&rt, rt.alloc(), case)?;
    }
    Ok(())
}

#[test]
fn each_number_of_workers_has_a_lawful_output(rt: HostRuntime) -> Result<(), AllocError> {
    for case in BY_EACH.lines().skip(1) {
        run_by_each(&rt, rt.alloc(), case)?;
    }
    Ok(())
}

// A query over a program by four workers, with a gate.
fn answer_at<R: Threads + Wait + Sync, G: Gate>(
    rt: &R,
    alloc: Global,
    program: &str,
    query: &str,
    gate: &G,
) -> Result<Reply, AllocError> {
    let words = words_of(alloc, &["--query", query, "--workers", "4"])?;
    command_at(rt, alloc, &words, program, gate)
}

#[test]
fn a_worker_plans_while_another_is_held(rt: HostRuntime) -> Result<(), AllocError> {
    let gate = CrossGate::new(10_000_000);
    let query = "nrev([1,2,3],R), nrev([4,5,6],S)";
    let reply = answer_at(&rt, rt.alloc(), LISTS, query, &gate)?;
    let wanted = "0 / answer 1 / R = [3,2,1] / S = [6,5,4] / done";
    expect(&rt, &reply.text, wanted, query);
    assert!(rt; gate.crossed());
    Ok(())
}

#[test]
fn four_workers_plan_over_one_state(rt: HostRuntime) -> Result<(), AllocError> {
    let gate = MeetGate::new(4, 10_000_000);
    let query = "p(A), p(B), p(C), p(D)";
    let reply = answer_at(&rt, rt.alloc(), "p(X) :- X < 1 ? true.", query, &gate)?;
    expect(&rt, &reply.text, "2 / suspended 1", query);
    assert!(rt; gate.met());
    assert_eq!(rt; reply.labels, 4);
    assert!(rt; reply.first_plans >= 3);
    Ok(())
}

/// Options, programs, queries, and what comes of commands whose two workers first plan over one state: how many of the labels
/// were planned over it, of how many, and the reply.
const MEETINGS: &str = r"
--workers=2 =>  => A = a, B = b => 2 of 2 / 0 / answer 1 / A = a / B = b / done
--workers=2 =>  => A = a, A = b => 1 of 3 / 1 / failed
--workers=2 => p(X) :- X < 1 ? true. => A = a, p(B) => 2 of 2 / 2 / suspended 1
";

// A line's command by two workers who plan over one state first.
fn run_met<R: Threads + Wait + Sync + Abort>(
    rt: &R,
    alloc: Global,
    line: &str,
) -> Result<(), AllocError> {
    let case = case_of(line);
    let words = words_for(alloc, &case)?;
    let gate = MeetGate::new(2, 10_000_000);
    let reply = command_at(rt, alloc, &words, case.program, &gate)?;
    let first = reply.first_plans;
    let all = reply.labels;
    let found = format!(in alloc; "{first} of {all} / {}", reply.text)?;
    expect(rt, &found, case.wanted, line);
    assert!(rt; gate.met());
    Ok(())
}

#[test]
fn two_plans_of_one_state_both_hold_unless_one_binds_what_the_other_read(
    rt: HostRuntime,
) -> Result<(), AllocError> {
    for line in MEETINGS.lines().skip(1) {
        run_met(&rt, rt.alloc(), line)?;
    }
    Ok(())
}

/// Options, programs, queries and replies of commands of which one worker is held.
const HELD: &str = r"
--workers=16,--budget,10 => p :- -> p. => p => 3 / budget
--workers=16 => LISTS => nrev([1,2,3,4,5,6,7,8,9,10,11,12,13,14,15,16,17,18,19,20,21,22,23,24,25,26,27,28,29,30],R) => 0 / answer 1 / R = [30,29,28,27,26,25,24,23,22,21,20,19,18,17,16,15,14,13,12,11,10,9,8,7,6,5,4,3,2,1] / done
--workers=16 => MERGE => merge([a],[b],Z) => 0 / answer 1 / Z = [a,b] / done or 0 / answer 1 / Z = [b,a] / done
";

/// For how many turns of waiting a worker is held at most. A turn gives way to all else that the machine runs.
const HELD_TURNS: u64 = 1000;

/// Which worker is held, and for how many plans of others.
const HOLDS: [(u32, u64); 6] = [(1, 1), (1, 10), (1, 100), (16, 1), (16, 10), (16, 100)];

// A line's command while a worker is held.
fn run_held<R: Threads + Wait + Sync + Abort>(
    rt: &R,
    alloc: Global,
    line: &str,
    hold: (u32, u64),
) -> Result<(), AllocError> {
    let case = case_of(line);
    let (worker, others) = hold;
    let words = words_for(alloc, &case)?;
    let gate = HoldGate::new(worker, others, HELD_TURNS);
    let reply = command_at(rt, alloc, &words, case.program, &gate)?;
    assert!(rt;
        is_one_of(&reply.text, case.wanted),
        "{line}: {}",
        reply.text
    );
    // All labels of a budget are made.
    assert!(rt; reply.status != 3 || reply.labels == 10);
    Ok(())
}

// The same for each worker that is held.
fn run_with_each_held<R: Threads + Wait + Sync + Abort>(
    rt: &R,
    alloc: Global,
    line: &str,
) -> Result<(), AllocError> {
    for hold in HOLDS {
        run_held(rt, alloc, line, hold)?;
    }
    Ok(())
}

#[test]
fn a_run_goes_on_while_a_worker_is_held(rt: HostRuntime) -> Result<(), AllocError> {
    for line in HELD.lines().skip(1) {
        run_with_each_held(&rt, rt.alloc(), line)?;
    }
    Ok(())
}
