//! Inline choices and collecting goals, and the definitions that they become.

use crate::case_lines::{Question, each_holds};
use crate::shown_clauses::{put_clauses, put_query, put_refusal};
use akl_lift::{lift, lift_query};
use akl_syntax::{SourceClause, SourceQuery, check_query, read_program, read_query};
use std::alloc::{AllocError, Global};

/// What do a program's clauses become?
struct LiftedClauses;

impl Question for LiftedClauses {
    fn answer(&self, alloc: Global, shown: &mut String, text: &[u8]) -> Result<(), AllocError> {
        match read_program(alloc, text) {
            Ok(found) => put_clauses(shown, &lift(alloc, found)?),
            Err(error) => put_refusal(shown, error),
        }
    }
}

/// Puts a query and the clauses that are made of it.
fn put_both(shown: &mut String, made: &(SourceQuery, Vec<SourceClause>)) -> Result<(), AllocError> {
    put_query(shown, &made.0)?;
    put_clauses(shown, &made.1)
}

/// What does a query become, with the clauses that are made of it, from number 7 on?
struct LiftedGoals;

impl Question for LiftedGoals {
    fn answer(&self, alloc: Global, shown: &mut String, text: &[u8]) -> Result<(), AllocError> {
        if let Err(error) = check_query(text) {
            return put_refusal(shown, error);
        }
        match read_query(alloc, text) {
            Ok(found) => put_both(shown, &lift_query(alloc, found, 7)?),
            Err(error) => put_refusal(shown, error),
        }
    }
}

/// Programs, and what their inline choices and collecting goals become. A lifted collecting goal has its result behind a
/// colon, and its definition the term that is collected.
const PROGRAMS: &str = r"lifted clauses
p :- q, r. => 0: p() ?q()r() [].
p(X) :- (X = 1 ; X = 2). => 0: p(V0,) ?#0(V0,) [X,]. #0 in p/1: (V0,) ?=(V0,1,) [X,]. #0 in p/1: (V0,) ?=(V0,2,) [X,].
p :- (a ; (b ; c), (d ; e)), (f ; g). => 0: p() ?#0()#3() []. #0 in p/0: () ?a() []. #0 in p/0: () ?#1()#2() []. #1 in p/0: () ?b() []. #1 in p/0: () ?c() []. #2 in p/0: () ?d() []. #2 in p/0: () ?e() []. #3 in p/0: () ?f() []. #3 in p/0: () ?g() [].
p(X,Y) :- (q(Y,X) ; r). => 0: p(V0,V1,) ?#0(V0,V1,) [X,Y,]. #0 in p/2: (V0,V1,) ?q(V1,V0,) [X,Y,]. #0 in p/2: (V0,V1,) ?r() [X,Y,].
p :- (q(X) ; r), (s(X) -> t). => 0: p() ?#0(V0,)#1(V0,) [X,]. #0 in p/0: (V0,) ?q(V0,) [X,]. #0 in p/0: (V0,) ?r() [X,]. #1 in p/0: (V0,) s(V0,)->t() [X,].
p :- (a ; b) -> (c | d). q :- (e ? f). => 0: p() #0()->#1() []. 25: q() ?#2() []. #0 in p/0: () ?a() []. #0 in p/0: () ?b() []. #1 in p/0: () c()|d() []. #2 in q/0: () e()?f() [].
p(X) :- (q(X) ; r(Y), s(Y)), t(Z). => 0: p(V0,) ?#0(V0,)t(V2,) [X,Y,Z,]. #0 in p/1: (V0,) ?q(V0,) [X,]. #0 in p/1: (V0,) ?r(V1,)s(V1,) [X,Y,].
p(X) :- (q(A), (r(A,X) ; s(B,f(A)))). => 0: p(V0,) ?q(V1,)#0(V0,V1,) [X,A,B,]. #0 in p/1: (V0,V1,) ?r(V1,V0,) [X,A,]. #0 in p/1: (V0,V1,) ?s(V2,f(V1,),) [X,A,B,].
p(X) :- (q(A) ; (r(A) ; s(B,X), t(B)), u(C,A)). => 0: p(V0,) ?#0(V0,) [X,A,B,C,]. #0 in p/1: (V0,) ?q(V1,) [X,A,]. #0 in p/1: (V0,) ?#1(V0,V1,)u(V3,V1,) [X,A,B,C,]. #1 in p/1: (V0,V1,) ?r(V1,) [X,A,]. #1 in p/1: (V0,V1,) ?s(V2,V0,)t(V2,) [X,A,B,].
p(L) :- bagof(X, q(X), L). => 0: p(V0,) ?#0():V0 [L,X,]. #0 in p/1: () q(V0,):V0 [X,].
p(L,Z) :- bagof(f(X,Y), (q(Z,X), r(A), s(X,Y)), g(L)), t(A). => 0: p(V0,V1,) ?#0(V1,V4,):g(V0,)t(V4,) [L,Z,X,Y,A,]. #0 in p/2: (V0,V1,) q(V0,V2,)r(V1,)s(V2,V3,):f(V2,V3,) [Z,A,X,Y,].
p(L) :- bagof(X, bagof(Y, q(X,Y), M), L), r(M). => 0: p(V0,) ?#0(V3,):V0r(V3,) [L,X,Y,M,]. #0 in p/1: (V0,) #1(V1,):V0:V1 [M,X,Y,]. #1 in p/1: (V0,) q(V0,V1,):V1 [X,Y,].
p(L) :- (a ; bagof(X, (b(X) ; c), L)), (d ; e). => 0: p(V0,) ?#0(V0,)#3() [L,X,]. #0 in p/1: (V0,) ?a() [L,]. #0 in p/1: (V0,) ?#1():V0 [L,X,]. #1 in p/1: () #2(V0,):V0 [X,]. #2 in p/1: (V0,) ?b(V0,) [X,]. #2 in p/1: (V0,) ?c() [X,]. #3 in p/1: () ?d() []. #3 in p/1: () ?e() [].
";

/// Queries, and what their inline choices and collecting goals become. Variables that are shown count as occurring outside,
/// and those that are local to a collecting goal aren't shown.
const QUERIES: &str = r"lifted goals
p(X) => p(V0,) [X,]
((_X = a -> R = 1) ; _X = b, R = 2) => #7(V1,) [_X,R,] #7 in /0: (V0,) ?#8(V0,) [R,_X,]. #7 in /0: (V0,) ?=(V1,b,)=(V0,2,) [R,_X,]. #8 in /0: (V0,) =(V1,a,)->=(V0,1,) [R,_X,].
(p(X,_Y) ; q(_Y,_Z)), r(_Z) => #7(V0,V2,)r(V2,) [X,_Y,_Z,] #7 in /0: (V0,V1,) ?p(V0,V2,) [X,_Z,_Y,]. #7 in /0: (V0,V1,) ?q(V2,V1,) [X,_Z,_Y,].
bagof(X, q(X,Y,_Z), L) => #7(V1,):V3 [_,Y,_Z,L,] #7 in /0: (V0,) q(V1,V0,V2,):V1 [Y,X,_Z,].
";

#[test]
fn a_choice_becomes_a_definition(rt: HostRuntime) -> Result<(), AllocError> {
    each_holds(&rt, rt.alloc(), &LiftedClauses, PROGRAMS)?;
    each_holds(&rt, rt.alloc(), &LiftedGoals, QUERIES)
}
