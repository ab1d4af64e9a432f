//! Whole commands within budgets of every number of labels, up to all that they need.

use crate::replies::expect;
use crate::rules::{case_of, cut, replied};
use std::alloc::{AllocError, Global};
use std::process::Abort;
use std::sync::Wait;
use std::thread::Threads;

/// How many labels a run needs, programs, queries and replies. A command with fewer makes as many as its budget has.
const NEEDS: &str = r"
4 => THERE => t(a,R) => 0 / answer 1 / R = 1 / done
8 => LISTS => append([a],[b],Z) => 0 / answer 1 / Z = [a,b] / done
22 => LISTS => nrev([1,2],R) => 0 / answer 1 / R = [2,1] / done
12 => COUNT => count([a,b],0,R) => 0 / answer 1 / R = 2 / done
10 => m(X,Y,Z) :- X < Y -> Z = Y. m(X,Y,Z) :- -> Z = X. => m(2,3,Z), m(5,4,W) => 0 / answer 1 / Z = 3 / W = 5 / done
15 => MERGE => merge([a],[b],Z) => 0 / answer 1 / Z = [a,b] / done
4 => p(a). p(b). => p(c) => 1 / failed
4 => p(a) :- -> true. => p(X), X = b => 1 / failed
4 => r(X) :- p(X) -> true. p(a). => r(a) => 0 / answer 1 / done
12 => LISTS => member(X,[a,b]) => 0 / answer 1 / X = a / answer 2 / X = b / done
1 => p(a) :- -> true. => p(X) => 2 / suspended 1
";

// A command within a budget gets its reply if the run needs no more labels, and else makes all labels of the budget.
fn run_within<R: Threads + Wait + Sync + Abort>(
    rt: &R,
    alloc: Global,
    command: &str,
    needed: usize,
    budget: usize,
) -> Result<(), AllocError> {
    let line = format!(in alloc; "--budget={budget} => {command}")?;
    let case = case_of(&line);
    let reply = replied(rt, alloc, &case)?;
    if budget < needed {
        assert_eq!(rt; reply.status, 3, "{line}");
    } else {
        expect(rt, &reply.text, case.wanted, &line);
    }
    assert_eq!(rt; reply.labels, budget.min(needed), "{line}");
    Ok(())
}

// A line's command within each budget, and within one that leaves a label.
fn run_within_each<R: Threads + Wait + Sync + Abort>(
    rt: &R,
    alloc: Global,
    line: &str,
) -> Result<(), AllocError> {
    let (needed, command) = cut(line);
    let needed = needed.parse::<usize>().unwrap_or(0);
    for budget in 1..=needed.saturating_add(1) {
        run_within(rt, alloc, command, needed, budget)?;
    }
    Ok(())
}

#[test]
fn a_run_makes_as_many_labels_as_its_budget_has(rt: HostRuntime) -> Result<(), AllocError> {
    for line in NEEDS.lines().skip(1) {
        run_within_each(&rt, rt.alloc(), line)?;
    }
    Ok(())
}
