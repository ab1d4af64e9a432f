//! Why a suspended run waits: commands with `--why`.

use crate::rules::try_rules;
use std::alloc::AllocError;

/// Options, programs, queries and replies. A variable that no shown name is equal to is written as its frame and its index.
const WAITS: &str = r"
--why => p(a) :- -> true. => p(X) => 2 / waiting 1 / goal 0.2 on X / suspended 1
--why => p(a) :- -> true. => X = Y, p(Y) => 2 / waiting 1 / goal 0.3 on X / suspended 1
--why => p(a) :- -> true. => p(_X), Y = _X, p(_Z) => 2 / waiting 1 / goal 0.2 on Y / goal 0.4 on 0.1:2 / suspended 1
--why => philosopher(Own,down,Meal) :- -> Meal = eaten, Own = down. => philosopher(F,G,A), philosopher(G,F,B) => 2 / waiting 1 / goal 0.2 on G / goal 0.3 on F / suspended 1
--why => philosopher(Own,down,Meal) :- -> Meal = eaten, Own = down. => philosopher(F,G,A), philosopher(G,F,B), G = down => 0 / answer 1 / F = down / G = down / A = eaten / B = eaten / done
--why => eq(X,X) :- -> true. => eq(B,A) => 2 / waiting 1 / goal 0.2 on B, A / suspended 1
--why => eq(X,X) :- -> true. => eq(f(A,c,C),f(d,B,C)) => 2 / waiting 1 / goal 0.2 on A, B / suspended 1
--why => q(a,_,_) :- -> true. q(_,b,_) :- -> true. q(_,_,c) :- -> true. => q(X,Y,X) => 2 / waiting 1 / goal 0.2 on X, Y / suspended 1
--why => q(a,_,_) :- -> true. q(_,b,_) :- -> true. q(_,_,c) :- -> true. => q(Z,Y,X) => 2 / waiting 1 / goal 0.2 on Z, Y, X / suspended 1
--why => p(f(_),b) :- -> true. => p(f(X),Y) => 2 / waiting 1 / goal 0.2 on Y / suspended 1
--why => either(there,_,W) :- | W = left. either(_,there,W) :- | W = right. => either(A,B,W) => 2 / waiting 1 / goal 0.2 on A, B / suspended 1
--why => greater(X,Y,Z) :- X > Y -> Z = X. greater(_,Y,Z) :- -> Z = Y. => greater(2,Y,Z) => 2 / waiting 1 / goal 0.2 on Y / suspended 1
--why => d(X) :- Y < X ? true. => d(1) => 2 / waiting 1 / goal 0.2 on nothing / suspended 1
--why => member(X,[X|_]). member(X,[_|T]) :- member(X,T). d(X) :- member(X,[a,b]) ? true. => d(X) => 2 / waiting 1 / goal 0.2 on X / suspended 1
--why => friend(anna). friend(bo). greet(Who,What) :- friend(Who) -> What = hello. greet(_,What) :- -> What = good_day. => greet(Who,What) => 2 / waiting 1 / goal 0.2 on Who / suspended 1
--why => ABC => p(X,R) => 2 / waiting 1 / goal 1.2 on X / suspended 1
--why => LISTS => bagof(Y, (member(Y,[a,b]), Y = Z), L) => 2 / waiting 1 / goal 0.2 on Z / suspended 1
--why => q :- p(X). p(a) :- -> true. => q => 2 / waiting 1 / goal 1.2 on 1.1:0 / suspended 1
--why => two(X) :- eq(Y,X). eq(V,V) :- -> true. => two(Z) => 2 / waiting 1 / goal 1.2 on Z, 1.1:1 / suspended 1
--why => COUNT => count([a|T],0,R) => 2 / waiting 1 / goal 1.5 on T / suspended 1
--why =>  => X is 170141183460469231731687303715884105727 + 1 => 2 / waiting 1 / goal 0.2 on nothing / suspended 1
--why =>  => X is Z * Y, Z = 2, Z < W => 2 / waiting 1 / goal 0.2 on Y / goal 0.4 on W / suspended 1
--why =>  => X is foo + Y, Z is Y + foo => 2 / waiting 1 / goal 0.2 on nothing / goal 0.3 on Y / suspended 1
--why =>  => _A = _A + 1, X is _A => 2 / waiting 1 / goal 0.3 on nothing / suspended 1
--why =>  => send(a,P), send(b,Q), P = c => 2 / waiting 1 / goal 0.2 on nothing / goal 0.3 on Q / suspended 1
--why => u(P) :- send(a,P) ? true. => open_port(P,S), u(P) => 2 / waiting 1 / goal 0.3 on nothing / suspended 1
--why => m(a). m(b). p(a) :- -> true. => m(X), p(Y) => 2 / waiting 1 / goal 0.3 on Y / waiting 2 / goal 1.9 on Y / suspended 2
--why => m(1). m(_). => m(X), X < 2 => 2 / answer 1 / X = 1 / waiting 1 / goal 1.7 on X / suspended 1
--why,--budget,1 => p(a) :- -> true. => p(X) => 2 / waiting 1 / goal 0.2 on X / suspended 1
--why,--budget,10 => w(a) :- -> true. p :- -> p. => w(X), p => 3 / budget
--why => m(a). m(b). => m(X) => 0 / answer 1 / X = a / answer 2 / X = b / done
--why =>  => X = a, X = b => 1 / failed
--trace,--why,--model => p(a) :- -> true. => p(X) => 2 / step 1 fork goal 0.2 by 1 / waiting 1 / goal 0.2 on X / suspended 1
--model,--trace,--why => r(X) :- ? true. r(X) :- ? X < 2. => r(X) => 2 / step 1 fork goal 0.2 by 1 / step 2 split box 0.0 of 1.0 by 1 / step 3 promote goal 0.2 of 1.0 by 1 / step 4 promote goal 1.6 of 1.7 by 1 / answer 1 / X = _1 / model / X: #0 / #0 = _ / waiting 1 / goal 1.9 on X / suspended 1
";

#[test]
fn a_suspended_run_says_on_what_it_waits(rt: HostRuntime) -> Result<(), AllocError> {
    try_rules(&rt, rt.alloc(), WAITS)
}
