//! Programs and queries, and which variables are local to their collecting goals.

use crate::case_lines::{Question, each_holds};
use crate::shown_clauses::{put_clauses, put_query, put_refusal};
use akl_syntax::{check_query, read_program, read_query};
use std::alloc::{AllocError, Global};
use variable_scopes::{scoped_clauses, scoped_query};

/// What are the clauses of a text with their variables by their scopes?
struct ScopedClauses;

impl Question for ScopedClauses {
    fn answer(&self, alloc: Global, shown: &mut String, text: &[u8]) -> Result<(), AllocError> {
        match read_program(alloc, text) {
            Ok(found) => put_clauses(shown, &scoped_clauses(alloc, found)?),
            Err(error) => put_refusal(shown, error),
        }
    }
}

/// What are the goals of a query with their variables by their scopes?
struct ScopedGoals;

impl Question for ScopedGoals {
    fn answer(&self, alloc: Global, shown: &mut String, text: &[u8]) -> Result<(), AllocError> {
        if let Err(error) = check_query(text) {
            return put_refusal(shown, error);
        }
        match read_query(alloc, text) {
            Ok(found) => put_query(shown, &scoped_query(alloc, found)?),
            Err(error) => put_refusal(shown, error),
        }
    }
}

/// Programs, and their clauses. What is spelled in the term of a collecting goal is local to the term and its goals.
const PROGRAMS: &str = r"scoped clauses
p(X,Y) :- q(X,Y,Z), (r(Z) ; s(_,X)). => 0: p(V0,V1,) ?q(V0,V1,V2,){?r(V2,);?s(V3,V0,);} [X,Y,Z,_,].
p(X) :- bagof(X, q(X), L), r(X). => 0: p(V0,) ?collect(V1: q(V1,): V2)r(V0,) [X,X,L,].
p :- bagof(X, q(X,Y), X), r(Y). => 0: p() ?collect(V0: q(V0,V1,): V2)r(V1,) [X,Y,X,].
p :- bagof(X, q(X), L), bagof(X, r(X), L). => 0: p() ?collect(V0: q(V0,): V1)collect(V2: r(V2,): V1) [X,L,X,].
p :- bagof(X, bagof(X, q(X), X), L). => 0: p() ?collect(V0: collect(V1: q(V1,): V0): V2) [X,X,L,].
p :- bagof(X, bagof(Y, q(X,Y), M), L). => 0: p() ?collect(V0: collect(V1: q(V0,V1,): V2): V3) [X,Y,M,L,].
p :- bagof(X, (bagof(f(X,Y), q(X,Y), L), r(X,Y)), L). => 0: p() ?collect(V0: collect(f(V1,V2,): q(V1,V2,): V3)r(V0,V4,): V3) [X,X,Y,L,Y,].
p :- bagof(_, q(_), _). => 0: p() ?collect(V0: q(V1,): V2) [_,_,_,].
p :- bagof(a, q(X), L), r(X). => 0: p() ?collect(a: q(V0,): V1)r(V0,) [X,L,].
p :- (bagof(X, q(X), L) ; r(X)), s(X). => 0: p() ?{?collect(V0: q(V0,): V1);?r(V2,);}s(V2,) [X,L,X,].
p(X) :- bagof([Y|Z], (q(X), (r(Y) ; s(Z))), L) -> t(Y+1). => 0: p(V0,) collect(list(V1,)|V2: q(V0,){?r(V1,);?s(V2,);}: V3)->t(<V4 + 1>,) [X,Y,Z,L,Y,].
p(X). q :- bagof(X, p(X), L). => 0: p(V0,) ? [X,]. 6: q() ?collect(V0: p(V0,): V1) [X,L,].
p :- bagof(X, q, L) = Y. => syntax at 0
";

const QUERIES: &str = r"scoped goals
bagof(X, member(X,[a,b]), L) => collect(V0: member(V0,list(a,b,),): V1) [X,L,]
p(X), bagof(X, q(X), X), r(X) => p(V0,)collect(V1: q(V1,): V0)r(V0,) [X,X,]
bagof(X, bagof(Y, p(X,Y), M), L), X = L => collect(V0: collect(V1: p(V0,V1,): V2): V3)=(V4,V3,) [X,Y,M,L,X,]
bagof(X, Y, L) => syntax at 0
";

#[test]
fn a_variable_of_a_collected_term_is_local(rt: HostRuntime) -> Result<(), AllocError> {
    each_holds(&rt, rt.alloc(), &ScopedClauses, PROGRAMS)?;
    each_holds(&rt, rt.alloc(), &ScopedGoals, QUERIES)
}
