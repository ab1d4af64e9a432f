//! Programs and queries, and what they are read as.

use crate::case_lines::{Question, each_holds};
use crate::shown_clauses::{put_clauses, put_query, put_refusal};
use akl_syntax::{check_query, read_program, read_query};
use std::alloc::{AllocError, Global};

/// What are the clauses of a text, or why is it refused?
struct Clauses;

impl Question for Clauses {
    fn answer(&self, alloc: Global, shown: &mut String, text: &[u8]) -> Result<(), AllocError> {
        match read_program(alloc, text) {
            Ok(found) => put_clauses(shown, &found),
            Err(error) => put_refusal(shown, error),
        }
    }
}

/// How many clauses has a text?
struct Count;

impl Question for Count {
    fn answer(&self, alloc: Global, shown: &mut String, text: &[u8]) -> Result<(), AllocError> {
        match read_program(alloc, text) {
            Ok(found) => write!(shown, " {}", found.len()),
            Err(error) => put_refusal(shown, error),
        }
    }
}

/// What are the goals of a query, or why is it refused?
struct Goals;

impl Question for Goals {
    fn answer(&self, alloc: Global, shown: &mut String, text: &[u8]) -> Result<(), AllocError> {
        if let Err(error) = check_query(text) {
            return put_refusal(shown, error);
        }
        match read_query(alloc, text) {
            Ok(found) => put_query(shown, &found),
            Err(error) => put_refusal(shown, error),
        }
    }
}

/// Programs, and what they are read as. What stands between clauses is layout.
const PROGRAMS: &str = r"clauses
p. => 0: p() ? [].
 'q r'. ''(a). => 1: q r() ? []. 8: (a,) ? [].
p(X, -1, 'A b', f(g(a),b)). => 0: p(V0,-1,A b,f(g(a,),b,),) ? [X,].
p([], [a], [a,b|T], [[]|f(X)]). => 0: p([],list(a,),list(a,b,)|V0,list([],)|f(V1,),) ? [T,X,].
p(1+2-3, 1- -2, 1-2). => 0: p(<1 + 2 - 3>,<1 - -2>,<1 - 2>,) ? [].
p(4*5//6 mod 7). => 0: p(<4 * 5 // 6 mod 7>,) ? [].
p(1+2*3-4, (1+2)*3, ((a))). => 0: p(<1 + <2 * 3> - 4>,<<1 + 2> * 3>,a,) ? [].
p([a+b|c*d], f(1-X)). => 0: p(list(<a + b>,)|<c * d>,f(<1 - V0>,),) ? [X,].
p(X). q(Y,X). => 0: p(V0,) ? [X,]. 6: q(V0,V1,) ? [Y,X,].
p(_X,_X,_,_). => 0: p(V0,V0,V1,V2,) ? [_X,_,_,].
p(X,Y) :- q(Y,X,_), (r(Z) ; s(_,Z)). => 0: p(V0,V1,) ?q(V1,V0,V2,){?r(V3,);?s(V4,V3,);} [X,Y,_,Z,_,].
p :- q. => 0: p() ?q() [].
p :- q, r(a), s. => 0: p() ?q()r(a,)s() [].
p :- q -> r, s. => 0: p() q()->r()s() [].
p :- q, r | s. => 0: p() q()r()|s() [].
p :- q ? r. => 0: p() q()?r() [].
p :- -> r. => 0: p() ->r() [].
p :- | r. => 0: p() |r() [].
p :- ? r. => 0: p() ?r() [].
p :- (q). => 0: p() ?q() [].
p :- ((q, r), s). => 0: p() ?q()r()s() [].
p :- (q, r) | (s, t). => 0: p() q()r()|s()t() [].
p :- (q ? r). => 0: p() ?{q()?r();} [].
p :- (-> q). => 0: p() ?{->q();} [].
p :- (a -> b ; c | d ; ? e ; f, g), h. => 0: p() ?{a()->b();c()|d();?e();?f()g();}h() [].
p :- ((a ; b) ; c) -> (d ; (e)). => 0: p() {?{?a();?b();};?c();}->{?d();?e();} [].
p :- X = 1, X is 2, X < 3, X > 4. => 0: p() ?=(V0,1,)is(V0,2,)<(V0,3,)>(V0,4,) [X,].
p :- X =< 5, X >= 6, X =:= 7, X =\= 8. => 0: p() ?=<(V0,5,)>=(V0,6,)=:=(V0,7,)=\=(V0,8,) [X,].
p :- f(X)+1 < 2*Y. => 0: p() ?<(<f(V0,) + 1>,<2 * V1>,) [X,Y,].
p :- (a)+1 = b, (a), f(x) = y, f(x). => 0: p() ?=(<a + 1>,b,)a()=(f(x,),y,)f(x,) [].
p :- [a] = X, 1 = 'A'. => 0: p() ?=(list(a,),V0,)=(1,A,) [X,].
p :- ((f([a],(b))) = X, (c ; d)). => 0: p() ?=(f(list(a,),b,),V0,){?c();?d();} [X,].
p :- ((((a))) = b). => 0: p() ?=(a,b,) [].
p :- (((a) ; b) ; c), d. => 0: p() ?{?{?a();?b();};?c();}d() [].
p :- bagof(X, q(X), L). => 0: p() ?collect(V0: q(V0,): V1) [X,L,].
p :- bagof(X, (q(X), r), [X|L]), s. => 0: p() ?collect(V0: q(V0,)r(): list(V0,)|V1)s() [X,L,].
p :- bagof(f(X,Y), (q(X), r(Y) ; s), L). => 0: p() ?collect(f(V0,V1,): {?q(V0,)r(V1,);?s();}: V2) [X,Y,L,].
p :- bagof(X+1, X < 3, L) -> q. => 0: p() collect(<V0 + 1>: <(V0,3,): V1)->q() [X,L,].
p :- bagof(X, bagof(Y, q(X,Y), M), L). => 0: p() ?collect(V0: collect(V1: q(V0,V1,): V2): V3) [X,Y,M,L,].
p :- 'bagof'(X, q, L). => 0: p() ?collect(V0: q(): V1) [X,L,].
p :- q(bagof(X)), bagof = Y, f(bagof(a,b)) = Z, bagof. => 0: p() ?q(bagof(V0,),)=(bagof,V1,)=(f(bagof(a,b,),),V2,)bagof() [X,Y,Z,].
bagof(X,Y,Z) :- q. => 0: bagof(V0,V1,V2,) ?q() [X,Y,Z,].
 p. q => syntax at 4
p. q :- . r( => syntax at 3
p. ! q. => syntax at 3
 =>
 % nothing$/* at all */ =>
/**/p. %$q.% r. => 4: p() ? []. 9: q() ? [].
p.@9@q.$$ => 0: p() ? []. 3: q() ? [].
";

/// Queries, and what they are read as.
const QUERIES: &str = r"goals
p => p() []
 p . => p() []
p(X), q(Y,X) . % end => p(V0,)q(V1,V0,) [X,Y,]
/* p */ p. /* q. */ => p() []
X = f(Y) => =(V0,f(V1,),) [X,Y,]
X is -1+2*3 mod Y => is(V0,<-1 + <2 * 3 mod V1>>,) [X,Y,]
(1+2)*3 =:= 9 => =:=(<<1 + 2> * 3>,9,) []
(a) = X, f(b) < c, d >= e => =(a,V0,)<(f(b,),c,)>=(d,e,) [X,]
X = [], Y = [a], Z = [a,b|T] => =(V0,[],)=(V1,list(a,),)=(V2,list(a,b,)|V3,) [X,Y,Z,T,]
(a ; b), (c) => {?a();?b();}c() []
(p(X) -> q(_) ; r(_,X)) => {p(V0,)->q(V1,);?r(V2,V0,);} [X,_,_,]
(p, q) => p()q() []
bagof(X, p(X), L), q(L) => collect(V0: p(V0,): V1)q(V1,) [X,L,]
";

/// Heads, ends, what stands behind a head, arguments and lists, sums and products, goals, and parts.
const NO_CLAUSES: &str = r"clauses
ok.$. => syntax at 4
ok.$:- p. => syntax at 4
ok.$X. => syntax at 4
ok.$1. => syntax at 4
ok.$[]. => syntax at 4
ok.$(p). => syntax at 4
ok.$is. => syntax at 4
ok.$mod. => syntax at 4
ok.$is(a). => syntax at 4
ok.$X(a). => syntax at 4
ok.$-p. => syntax at 4
ok.$p => syntax at 4
ok.$p :- q => syntax at 4
ok.$p.q => syntax at 4
ok.$p :- a!b. => syntax at 4
ok.$'p => syntax at 4
ok.$p q. => syntax at 4
ok.$p, q. => syntax at 4
ok.$p = q. => syntax at 4
ok.$p -> q. => syntax at 4
ok.$p ? q. => syntax at 4
ok.$p | q. => syntax at 4
ok.$p ; q. => syntax at 4
ok.$p :- q :- r. => syntax at 4
ok.$p :- q ; r. => syntax at 4
ok.$p(X)(Y). => syntax at 4
ok.$p(). => syntax at 4
ok.$p(a,). => syntax at 4
ok.$p(,a). => syntax at 4
ok.$p(a b). => syntax at 4
ok.$p(a. => syntax at 4
ok.$p (a). => syntax at 4
ok.$p(a]). => syntax at 4
ok.$p([a). => syntax at 4
ok.$p([a,]). => syntax at 4
ok.$p([a|]). => syntax at 4
ok.$p([|a]). => syntax at 4
ok.$p([a|b|c]). => syntax at 4
ok.$p([a|b,c]). => syntax at 4
ok.$p(a ; b). => syntax at 4
ok.$p(a -> b). => syntax at 4
ok.$p(a = b). => syntax at 4
ok.$p(()). => syntax at 4
ok.$p(- 6). => syntax at 4
ok.$p(+1). => syntax at 4
ok.$p(1+). => syntax at 4
ok.$p(1**2). => syntax at 4
ok.$p(1 mod). => syntax at 4
ok.$p(mod). => syntax at 4
ok.$p((1,2)). => syntax at 4
ok.$p :- . => syntax at 4
ok.$p :- q,. => syntax at 4
ok.$p :- ,q. => syntax at 4
ok.$p :- (). => syntax at 4
ok.$p :- (q. => syntax at 4
ok.$p :- q). => syntax at 4
ok.$p :- (q ; ). => syntax at 4
ok.$p :- ( ; q). => syntax at 4
ok.$p :- X. => syntax at 4
ok.$p :- 1. => syntax at 4
ok.$p :- []. => syntax at 4
ok.$p :- a + b. => syntax at 4
ok.$p :- a = . => syntax at 4
ok.$p :- a = b = c. => syntax at 4
ok.$p :- (a = b) = c. => syntax at 4
ok.$p :- f(a) (b). => syntax at 4
ok.$p :- ->. => syntax at 4
ok.$p :- q ->. => syntax at 4
ok.$p :- q -> r -> s. => syntax at 4
ok.$p :- q | r ? s. => syntax at 4
ok.$p :- -> q -> r. => syntax at 4
ok.$p :- (q -> r | s ; t). => syntax at 4
ok.$p :- bagof(a). => syntax at 4
ok.$p :- bagof(X, q). => syntax at 4
ok.$p :- bagof(X, q, r, L). => syntax at 4
ok.$p :- bagof(X, Y, L). => syntax at 4
ok.$p :- bagof(X, [], L). => syntax at 4
ok.$p :- bagof(X, q ; r, L). => syntax at 4
ok.$p :- bagof(X, q -> r, L). => syntax at 4
ok.$p :- bagof(X = 1, q, L). => syntax at 4
ok.$p :- bagof((X, Y), q, L). => syntax at 4
ok.$p :- bagof(X, q, L) = Y. => syntax at 4
ok.$p :- bagof(X, q, L) + 1 = Y. => syntax at 4
ok.$p :- 'bagof'(X) = Y. => syntax at 4
ok.$p :- bagof (X, q, L). => syntax at 4
ok.$p :- bagof(X, q, L. => syntax at 4
";

const NO_QUERIES: &str = r"goals
  => syntax at 1
 . => syntax at 1
 X => syntax at 1
 1 => syntax at 1
 [] => syntax at 1
 p q => syntax at 1
 p, => syntax at 1
 ,p => syntax at 1
 (p => syntax at 1
 p) => syntax at 1
 p :- q => syntax at 1
 bagof(X, Y, L) => syntax at 1
 p -> q => syntax at 1
 p | q => syntax at 1
 p ? q => syntax at 1
 p ; q => syntax at 1
 -> p => syntax at 1
 p. q => syntax at 1
 p. ! => syntax at 1
 p. . => syntax at 1
 p.. => syntax at 1
 p. /* => syntax at 1
 1 = 2 = 3 => syntax at 1
 a + b => syntax at 1
 f (a) => syntax at 1
 f() => syntax at 1
 'p => syntax at 1
 p ! 170141183460469231731687303715884105728 => syntax at 1
 p. 170141183460469231731687303715884105728 => syntax at 1
";

/// Two hundred brackets may be open. Brackets that were closed, and those of another clause, don't count, and one that
/// closes none counts against one that opens. Too many of them come before an integer out of range, but behind what
/// begins no token. A text has a million bytes at most, and a query 10,000.
const NESTED_CLAUSES: &str = r"clauses
p :- @(*200@a@)*200@. => 0: p() ?a() [].
p :- @(*201@a@)*201@. => too many open brackets at 205
p :- @(->*200@a@)*200@. => 0: p() ?@{->*200@a()@;}*200@ [].
p(@[*199@a@]*199@). => 0: p(@list(*199@a@,)*199@,) ? [].
p(@[*200@a@]*200@). => too many open brackets at 201
p(@f(*199@a@)*199@). => 0: p(@f(*199@a@,)*199@,) ? [].
p(@f(*200@a@)*200@). => too many open brackets at 401
p(@([f(*66@a@)])*66@). => 0: p(@list(f(*66@a@,),)*66@,) ? [].
p(@([f(*67@a@)])*67@). => too many open brackets at 267
p :- (b), [] = @(*200@a@)*200@. => 0: p() ?b()=([],a,) [].
p. p :- @(*201@a@)*201@. => too many open brackets at 208
p(((. p :- @(*201@a@)*201@. => syntax at 0
p)) :- @(*202@a@)*202@. => syntax at 0
p)) :- @(*203@a@)*203@. => too many open brackets at 209
p(170141183460469231731687303715884105728, @(*200@a@)*200@). => too many open brackets at 242
p :- @(*201@a@)*201@! . => syntax at 0
@ *999998@p. => 999998: p() ? [].
@ *999999@p. => too long, 1000001
";

const NESTED_QUERIES: &str = r"goals
@(*200@a@)*200@ => a() []
@(*201@a@)*201@ => too many open brackets at 200
p([@[*198@a@]*198@]). => p(list(@list(*198@a@,)*198@,),) []
@(*201@a@)*201@. q => too many open brackets at 200
p. @(*201@a@)*201@ => syntax at 0
@ *9998@p. => p() []
@ *9999@p. => too long, 10001
";

/// An integer is a signed number of 128 bits. The first one out of range decides, also in a text that is no clause, but
/// only behind the tokens.
const INTEGERS: &str = r"clauses
p(170141183460469231731687303715884105727). => 0: p(170141183460469231731687303715884105727,) ? [].
p(170141183460469231731687303715884105728). => integer out of range at 2
p(-170141183460469231731687303715884105728). => 0: p(-170141183460469231731687303715884105728,) ? [].
p(-170141183460469231731687303715884105729). => integer out of range at 2
p(000170141183460469231731687303715884105727, -0, 00). => 0: p(170141183460469231731687303715884105727,0,0,) ? [].
p(1-170141183460469231731687303715884105728). => integer out of range at 4
p. q(1, 9999999999999999999999999999999999999999) 9999999999999999999999999999999999999999. => integer out of range at 8
p. q(170141183460469231731687303715884105728,  => syntax at 3
p(170141183460469231731687303715884105728!). => syntax at 0
";

const QUERY_INTEGERS: &str = r"goals
-170141183460469231731687303715884105728 = -0 => =(-170141183460469231731687303715884105728,0,) []
X = -170141183460469231731687303715884105729 => integer out of range at 4
p(170141183460469231731687303715884105728 => integer out of range at 2
p(170141183460469231731687303715884105728). q => integer out of range at 2
";

/// A program of a million bytes.
const MANY_CLAUSES: &str = r"number of clauses
@p(a) :- q(X), r.$*58823@@ *8@$ => 58823
";

#[test]
fn a_program_is_read_as_its_clauses_or_refused(rt: HostRuntime) -> Result<(), AllocError> {
    for table in [PROGRAMS, NO_CLAUSES, NESTED_CLAUSES, INTEGERS] {
        each_holds(&rt, rt.alloc(), &Clauses, table)?;
    }
    each_holds(&rt, rt.alloc(), &Count, MANY_CLAUSES)
}

#[test]
fn a_query_is_read_as_its_goals_or_refused(rt: HostRuntime) -> Result<(), AllocError> {
    for table in [QUERIES, NO_QUERIES, NESTED_QUERIES, QUERY_INTEGERS] {
        each_holds(&rt, rt.alloc(), &Goals, table)?;
    }
    Ok(())
}
