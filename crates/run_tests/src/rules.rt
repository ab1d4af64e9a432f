//! What each rule does: whole commands with their journals.

use crate::replies::{Reply, add_options, command, expect, words_of};
use std::alloc::{AllocError, Global};
use std::process::Abort;
use std::sync::Wait;
use std::thread::Threads;

pub const LISTS: &str =
    "append([],Y,Z) :- -> Z = Y. append([X|Xs],Y,Z) :- -> Z = [X|Zs], append(Xs,Y,Zs). nrev([],R) :- -> R = []. nrev([X|Xs],R) :- -> nrev(Xs,S), append(S,[X],R). member(X,[X|_]). member(X,[_|T]) :- member(X,T).\n";

const MERGE: &str =
    "merge([X|Xs],Ys,Zs) :- | Zs = [X|Z], merge(Xs,Ys,Z). merge(Xs,[Y|Ys],Zs) :- | Zs = [Y|Z], merge(Xs,Ys,Z). merge([],Ys,Zs) :- | Zs = Ys. merge(Xs,[],Zs) :- | Zs = Xs.";

const THERE: &str = "t(a,R) :- -> R = 1. t(_,R) :- -> R = 2.";

const COUNT: &str = "count([],N,R) :- -> R = N. count([_|S],N,R) :- -> M is N + 1, count(S,M,R).";

const BAGS: &str =
    "m(a). m(b). e(1). e(2). first(X) :- bagof(Y, m(Y), M), M = [Z|_] -> X = Z. less(L) :- bagof(f(Z), (Z = Y, Y < 2), L), e(Y) ? true.";

// Each queen is chosen from those that are left, and a younger choice is of a list that isn't known yet.
const QUEENS: &str = r"
queens([],S,R) :- -> R = S.
queens([H|T],S,R) :- -> choose(X,[H|T],M), safe(X,1,S), queens(M,[X|S],R).
choose(X,[X|L],M) :- ? M = L.
choose(X,[Y|L],M) :- ? M = [Y|N], choose(X,L,N).
safe(_,_,[]) :- -> true.
safe(X,D,[Q|S]) :- -> X =\= Q + D, X =\= Q - D, E is D + 1, safe(X,E,S).
count([],N,R) :- -> R = N.
count([_|S],N,R) :- -> M is N + 1, count(S,M,R).
";

const ABC: &str = "p(X,R) :- (X = a -> R = 1 ; true -> (X = b -> R = 2 ; true -> R = 3)).";

/// Words, programs, queries and replies.
const RULES: &str = r"
 => LISTS => append([a,b],[c],Z) => 0 / answer 1 / Z = [a,b,c] / done
 => LISTS => append([a,b],L,Z), L = [c] => 0 / answer 1 / L = [c] / Z = [a,b,c] / done
 => LISTS => append(L,[c],Z) => 2 / suspended 1
 => LISTS => nrev([1,2,3,4,5,6,7,8,9,10,11,12,13,14,15,16,17,18,19,20,21,22,23,24,25,26,27,28,29,30],R) => 0 / answer 1 / R = [30,29,28,27,26,25,24,23,22,21,20,19,18,17,16,15,14,13,12,11,10,9,8,7,6,5,4,3,2,1] / done
 => p(a) :- -> true. => p(X) => 2 / suspended 1
 => p(a) :- -> true. => p(X), X = a => 0 / answer 1 / X = a / done
 => p(a) :- -> true. => p(X), X = b => 1 / failed
 => THERE => t(X,R) => 2 / suspended 1
 => THERE => t(a,R) => 0 / answer 1 / R = 1 / done
 => THERE => t(b,R) => 0 / answer 1 / R = 2 / done
 => t(a,R) :- | R = 1. t(_,R) :- | R = 2. => t(X,R) => 0 / answer 1 / X = _1 / R = 2 / done
 => c(X) :- X = a | true. => c(Y) => 2 / suspended 1
 => c(X) :- X = a | true. => c(Y), Y = a => 0 / answer 1 / Y = a / done
 => eq(X,X) :- -> true. => eq(A,B) => 2 / suspended 1
 => eq(X,X) :- -> true. => eq(A,B), A = B => 0 / answer 1 / A = _1 / B = _1 / done
 => p(a). q(b). => p(X) => 0 / answer 1 / X = a / done
 => p(a). q(b). => p(X), q(X) => 1 / failed
 => p(X) :- X = f(Y) ? q(Y). q(a). => p(Z) => 0 / answer 1 / Z = f(a) / done
 => p :- fail ? true. => p => 1 / failed
 => p :- true -> fail. => p => 1 / failed
 => n(X) :- p(X) -> fail. n(X) :- -> true. p(a). => n(b) => 0 / answer 1 / done
 => n(X) :- p(X) -> fail. n(X) :- -> true. p(a). => n(a) => 1 / failed
 => n(X) :- p(X) -> fail. n(X) :- -> true. p(a). => n(X) => 2 / suspended 1
";

/// Arithmetic and ports.
const VALUES: &str = r"
 =>  => X is 1+2*3 => 0 / answer 1 / X = 7 / done
 =>  => X is 9223372036854775807 + 1 => 0 / answer 1 / X = 9223372036854775808 / done
 =>  => X is 170141183460469231731687303715884105727 + 1 => 2 / suspended 1
 =>  => X is -9223372036854775808 // -1 => 0 / answer 1 / X = 9223372036854775808 / done
 =>  => X is -170141183460469231731687303715884105728 // -1 => 2 / suspended 1
 =>  => X is -170141183460469231731687303715884105728 mod -1 => 0 / answer 1 / X = 0 / done
 =>  => X is -7 // 2, Y is -7 mod 2 => 0 / answer 1 / X = -3 / Y = 1 / done
 =>  => X is 1 // 0 => 2 / suspended 1
 =>  => X is foo + Y => 2 / suspended 1
 =>  => X is Y + 1, Y is 2 * Z, Z = 4 => 0 / answer 1 / X = 9 / Y = 8 / Z = 4 / done
 =>  => 3 is 1 + 2 => 0 / answer 1 / done
 =>  => 4 is 1 + 2 => 1 / failed
 =>  => 1 < 2, 2 >= 2, 3 =\= 4, 1 + 1 =:= 2, 2 > 1, 1 =< 1 => 0 / answer 1 / done
 =>  => 1 > 2 => 1 / failed
 =>  => X < 2 => 2 / suspended 1
 =>  => X < 2, X = 3 => 1 / failed
 => m(X,Y,Z) :- X < Y -> Z = Y. m(X,Y,Z) :- -> Z = X. => m(2,3,Z), m(5,A,B), A = 4 => 0 / answer 1 / Z = 3 / A = 4 / B = 5 / done
 => COUNT => count([a,b,c],0,R) => 0 / answer 1 / R = 3 / done
 => COUNT => count([a,b|T],0,R) => 2 / suspended 1
 =>  => open_port(P,S) => 0 / answer 1 / P = port / S = _1 / done
 =>  => open_port(P,S), P = a => 1 / failed
 =>  => open_port(P,S), open_port(P,T) => 1 / failed
 =>  => open_port(P,S), send(a,P), P = Q => 0 / answer 1 / P = port / S = [a|_1] / Q = port / done
 =>  => send(a,P), open_port(P,S) => 0 / answer 1 / P = port / S = [a|_1] / done
 =>  => send(a,P) => 2 / suspended 1
 =>  => send(a,P), P = b => 2 / suspended 1
 => u(P) :- send(a,P) ? true. => open_port(P,S), u(P) => 2 / suspended 1
 => COUNT => open_port(P,S), send(a,P), send(b,P), count(S,0,R) => 2 / suspended 1
--trace =>  => X is 1+2, open_port(P,S) => 0 / step 1 eval goal 0.2 by 1 / step 2 open goal 0.3 by 1 / answer 1 / X = 3 / P = port / S = _1 / done
 =>  => A is 2 + 3, B is 7 // 2, C is -7 // 2, D is 7 // -2, E is 7 mod 2, F is 7 mod -2, G is -7 mod -2, H is 6 mod -2 => 0 / answer 1 / A = 5 / B = 3 / C = -3 / D = -3 / E = 1 / F = -1 / G = -1 / H = 0 / done
 =>  => X is 170141183460469231731687303715884105727 - 170141183460469231731687303715884105727, Y is -18446744073709551616 * 9223372036854775808 => 0 / answer 1 / X = 0 / Y = -170141183460469231731687303715884105728 / done
--why =>  => A is -170141183460469231731687303715884105728 + -1, B is -170141183460469231731687303715884105728 - 1, C is 13043817825332782213 * 13043817825332782213, D is 7 // 0, E is 7 mod 0, F is '**'(1,1), G is '**'(X,Y) => 2 / waiting 1 / goal 0.2 on nothing / goal 0.3 on nothing / goal 0.4 on nothing / goal 0.5 on nothing / goal 0.6 on nothing / goal 0.7 on nothing / goal 0.8 on nothing / suspended 1
--why =>  => A is X + Y, B is 1 + Y, X < Y, 1 < Y => 2 / waiting 1 / goal 0.2 on X / goal 0.3 on Y / goal 0.4 on X / goal 0.5 on Y / suspended 1
--why =>  => open_port(P,S), A is X + P, B is P + X, C is 1 + P, X < P, P < X => 2 / waiting 1 / goal 0.3 on X / goal 0.4 on nothing / goal 0.5 on nothing / goal 0.6 on X / goal 0.7 on nothing / suspended 1
--why =>  => Y = X + Y, A is Y, Z = Z + X, B is Z => 2 / waiting 1 / goal 0.3 on X / goal 0.5 on nothing / suspended 1
 =>  => (1 < 1 ? true ; 1 > 1 ? true ; 2 =< 1 ? true ; 0 >= 1 ? true ; 0 =:= 1 ? true ; 1 =\= 1 ? true) => 1 / failed
--budget,4000000 => d(N,X,T,Z) :- N < 1 -> X = 0, Z is T. d(N,X,T,Z) :- -> X = Y + Y, M is N - 1, d(M,Y,T,Z). => d(100000,_X,_X,Z) => 0 / answer 1 / Z = 0 / done
--why =>  => X = Y, send(a,X) => 2 / waiting 1 / goal 0.3 on X / suspended 1
 =>  => open_port(P,S), Q = R, R = P, send(a,Q) => 0 / answer 1 / P = port / S = [a|_1] / Q = port / R = port / done
 => p :- q(W), W = d -> true. q(c) :- -> true. q(d) :- -> true. => p => 0 / answer 1 / done
";

/// Splits.
const SPLITS: &str = r"
 => LISTS => member(X,[a,b]) => 0 / answer 1 / X = a / answer 2 / X = b / done
 => LISTS => member(X,[1,2,3]), member(Y,[1,2,3]), X + Y =:= 4, X < Y => 0 / answer 1 / X = 1 / Y = 3 / done
 => m(a). m(b). => m(X), m(Y) => 0 / answer 1 / X = a / Y = a / answer 2 / X = a / Y = b / answer 3 / X = b / Y = a / answer 4 / X = b / Y = b / done
 => m(a). m(b). d(X) :- m(Y) ? X = Y. => d(X) => 0 / answer 1 / X = a / answer 2 / X = b / done
 => m(a). m(b). d(X) :- m(X) ? true. => d(X) => 2 / suspended 1
 => m(a). m(b). d(X) :- m(X) ? true. => d(X), X = b => 0 / answer 1 / X = b / done
 => m(1). m(2). d(X) :- m(Y), Y < X ? true. => d(X) => 2 / suspended 1
 => m(1). m(2). d(X) :- m(Y), Y < X ? true. => d(X), X = 2 => 0 / answer 1 / X = 2 / done
 => m(a). m(b). => m(X), X = c => 1 / failed
 => m(X) :- X = f(X). m(b). => m(Z) => 0 / answer 1 / Z = R1 / R1 = f(R1) / answer 2 / Z = b / done
--trace => m(a). m(b). => m(X) => 0 / step 1 fork goal 0.2 by 1 / step 2 split box 0.0 of 1.0 by 1 / step 3 promote goal 0.2 of 1.0 by 1 / step 4 promote goal 1.6 of 1.7 by 1 / answer 1 / X = a / answer 2 / X = b / done
--budget,2 => m(a). m(b). => m(X) => 3 / budget
--trace,--budget,1 => m(a). m(b). => m(X) => 3 / step 1 fork goal 0.2 by 1 / budget
";

/// Choices in brackets.
const CHOICES: &str = r"
 =>  => (X = a -> R = 1 ; true -> R = 2), X = b => 0 / answer 1 / X = b / R = 2 / done
 =>  => (X = a -> R = 1 ; true -> R = 2), X = a => 0 / answer 1 / X = a / R = 1 / done
 =>  => (X = a -> R = 1 ; true -> R = 2) => 2 / suspended 1
 =>  => (_X = a -> R = 1 ; true -> R = 2) => 0 / answer 1 / R = 1 / done
 =>  => (_X = a -> R = 1 ; true -> R = 2), _X = b => 0 / answer 1 / R = 2 / done
 =>  => (_X = a -> R = 1), (_X = b -> S = 2) => 2 / suspended 1
 =>  => (X = a | R = 1 ; true | R = 2) => 0 / answer 1 / X = _1 / R = 2 / done
 =>  => (fail ? R = 1 ; X = b ? R = 2) => 0 / answer 1 / R = 2 / X = b / done
 =>  => (1 < 2 -> (2 < 1 -> R = a ; 1 < 3 -> R = b) ; true -> R = c) => 0 / answer 1 / R = b / done
 =>  => (true -> R = f(X)), X = R => 0 / answer 1 / R = R1 / X = R1 / R1 = f(R1) / done
 => ABC => p(a,R) => 0 / answer 1 / R = 1 / done
 => ABC => p(b,R) => 0 / answer 1 / R = 2 / done
 => ABC => p(c,R) => 0 / answer 1 / R = 3 / done
 => ABC => p(X,R) => 2 / suspended 1
 => ABC => p(b,R), (R = 2 -> S = yes ; true -> S = no) => 0 / answer 1 / R = 2 / S = yes / done
 => p(X,R) :- ((X = a -> true ; X = b -> true) -> R = 1 ; true -> R = 2). => p(b,R), p(c,S) => 0 / answer 1 / R = 1 / S = 2 / done
 => p(R) :- (Z = f(W), W = a -> R = Z ; true -> R = b). => p(R) => 0 / answer 1 / R = f(a) / done
 => p(R) :- (Z = 1 -> R = a ; Z = 2 -> R = b). => p(R) => 0 / answer 1 / R = a / done
 => p(R) :- (Z = 1 -> R = a ; Z = 2 -> R = b), Z = 2. => p(R) => 0 / answer 1 / R = b / done
 => p(R) :- (Z = 1 -> R = Z), (Z = 2 -> true). => p(R) => 2 / suspended 1
 => p(X,Y) :- (true -> (true -> X = f(V), Y = g(V))). => p(X,Y) => 0 / answer 1 / X = f(_1) / Y = g(_1) / done
 => p(X) :- (q(X) -> r(X)). q(X) :- (X = 1 -> true ; X = 2 -> true). r(2). => p(2), (p(1) -> true ; true -> X = b) => 0 / answer 1 / X = b / done
--trace =>  => (true -> X = a) => 0 / step 1 fork goal 0.2 by 1 / step 2 promote goal 0.2 of 1.0 by 1 / step 3 tell goal 1.2 by 1 / answer 1 / X = a / done
--trace => p(X) :- (X = a ? true). => p(X) => 0 / step 1 fork goal 0.2 by 1 / step 2 promote goal 0.2 of 1.0 by 1 / step 3 fork goal 1.2 by 1 / step 4 tell goal 1.5 by 1 / step 5 promote goal 1.2 of 1.3 by 1 / answer 1 / X = a / done
";

/// Goals that collect.
const COLLECTING: &str = r"
 => LISTS => bagof(X, member(X,[a,b]), L) => 0 / answer 1 / L = [a,b] / done
--trace =>  => bagof(X, fail, L) => 0 / step 1 fork goal 0.2 by 1 / step 2 fail box 1.0 by 1 / step 3 collect goal 0.2 by 1 / answer 1 / L = [] / done
 => LISTS => bagof(Y, (member(Y,[a,b]), Y = Z), L) => 2 / suspended 1
 => LISTS => bagof(Y, (member(Y,[a,b]), Y = Z), L), Z = b => 0 / answer 1 / Z = b / L = [b] / done
 =>  => bagof(X, Y, L) => 6 / akl: query: syntax at 0
 =>  => bagof(X, true) => 6 / akl: query: syntax at 0
 =>  => bagof(X, true, L, M) => 6 / akl: query: syntax at 0
 =>  => bagof(X, X = a, X = b, L) => 6 / akl: query: syntax at 0
 =>  => bagof(X, true, L) = Y => 6 / akl: query: syntax at 0
 =>  => X = bagof(a,b,c), Y = bagof => 0 / answer 1 / X = bagof(a,b,c) / Y = bagof / done
 => bagof(a,b,c). => true => 5 / akl: program: reserved bagof/3
 => bagof(a,b). => true => 0 / answer 1 / done
 => p :- bagof(X, q(X), L). => true => 5 / akl: program: undefined q/1
 =>  => bagof(X, (X = 1 -> true ; true | true), L) => 6 / akl: query: mixed guards in ''/0
 =>  => 'bagof'(X, X = a, L) => 0 / answer 1 / L = [a] / done
 =>  => bagof(X, true, L) => 0 / answer 1 / L = [_1] / done
 =>  => bagof(f(X,Y,X), true, L) => 0 / answer 1 / L = [f(_1,_2,_1)] / done
 => LISTS => bagof(X, member(X,[a,b]), [A|B]) => 0 / answer 1 / A = a / B = [b] / done
 => LISTS => bagof(X, member(X,[a,b]), [a,c]) => 1 / failed
 => LISTS => bagof(X, member(X,[a,b]), L), bagof(X, member(X,L), M), bagof(x, member(_,L), N) => 0 / answer 1 / L = [a,b] / M = [a,b] / N = [x,x] / done
 => LISTS => X = c, bagof(X, member(X,[a,b]), X) => 1 / failed
 => LISTS => bagof(X, bagof(Y, member(Y,[1,2]), X), L) => 0 / answer 1 / L = [[1,2]] / done
 => LISTS => bagof(X, bagof(X, member(X,[1,2]), X), L) => 0 / answer 1 / L = [[1,2]] / done
 => p(a,1). p(b,2). p(c,1). => bagof(X, p(X,M), L) => 2 / suspended 1
 => p(a,1). p(b,2). p(c,1). => bagof(X, p(X,M), L), M = 1 => 0 / answer 1 / M = 1 / L = [a,c] / done
 => p(a,1). p(b,2). p(c,1). => bagof(X, p(X,_), L), bagof(X, p(X,_M), N) => 0 / answer 1 / L = [a,b,c] / N = [a,b,c] / done
 => p(a,1). p(b,2). p(c,1). => bagof(X-M, p(X,M), L) => 0 / answer 1 / L = ['-'(a,1),'-'(b,2),'-'(c,1)] / done
 => p(a,1). p(b,2). q(X) :- p(X,_). => bagof(X, q(X), L) => 0 / answer 1 / L = [a,b] / done
 => LISTS => bagof(X, (member(X,[a]) ; member(X,[b,c])), L) => 0 / answer 1 / L = [a,b,c] / done
 => LISTS => bagof(X, ((X = a -> true ; X = b -> true), member(X,[b])), L), L = [Y] => 0 / answer 1 / L = [b] / Y = b / done
 => COUNT => bagof(X, (X = a ; X = b ; fail ; X = c), L), count(L,0,N) => 0 / answer 1 / L = [a,b,c] / N = 3 / done
 => q(X) :- bagof(Y, (Y = X ; Y = X), [_,_]) -> true. => q(a) => 0 / answer 1 / done
 => q(X,R) :- bagof(Y, (Y = X, X = b), []) -> R = no. q(_,R) :- -> R = yes. => q(a,R), q(b,S) => 0 / answer 1 / R = no / S = yes / done
 =>  => bagof(Q, open_port(Q,S), L), L = [P], send(a,P) => 0 / answer 1 / S = [a|_1] / L = [port] / P = port / done
 =>  => bagof(X, (X = f(Y), Y = a), L), bagof(X, X = Z, M), Z = b => 2 / suspended 1
 =>  => bagof(X, X = f(X), L) => 0 / answer 1 / L = [R1] / R1 = f(R1) / done
--budget,3 => p(X) :- p(X). => bagof(X, p(X), L) => 3 / budget
 => BAGS => first(X) => 0 / answer 1 / X = a / done
 => BAGS => less(L) => 0 / answer 1 / L = [f(1)] / answer 2 / L = [] / done
 => BAGS => bagof(Z, m(Z), L), L = [X,Y] => 0 / answer 1 / L = [a,b] / X = a / Y = b / done
 => BAGS => bagof(f(X,M), (m(X), bagof(Y, Y = X, M)), L) => 0 / answer 1 / L = [f(a,[a]),f(b,[b])] / done
";

/// The same with traces and budgets.
const TRACES: &str = r"
--trace =>  => X = a => 0 / step 1 tell goal 0.2 by 1 / answer 1 / X = a / done
--trace,--budget,3 => p :- -> p. => p => 3 / step 1 fork goal 0.2 by 1 / step 2 promote goal 0.2 of 1.0 by 1 / step 3 fork goal 1.2 by 1 / budget
--budget,10 => p :- -> p. => p => 3 / budget
--trace,--budget,2 =>  => A = a, B = b => 0 / step 1 tell goal 0.2 by 1 / step 2 tell goal 0.3 by 1 / answer 1 / A = a / B = b / done
--trace,--budget,1 =>  => A = a, B = b => 3 / step 1 tell goal 0.2 by 1 / budget
--trace =>  => X = a, X = b => 1 / step 1 tell goal 0.2 by 1 / step 2 tell goal 0.3 by 1 / step 3 fail box 0.0 by 1 / failed
--budget,4 => p(a). p(b). => p(c) => 1 / failed
--budget,3 => p(a). p(b). => p(c) => 3 / budget
--budget,4 => m(a). m(b). => m(X) => 0 / answer 1 / X = a / answer 2 / X = b / done
--budget,3 => m(a). m(b). => m(X) => 3 / answer 1 / X = a / budget
--budget,1 => p(a) :- -> true. => p(X) => 2 / suspended 1
--trace => p(a). p(b). => p(c) => 1 / step 1 fork goal 0.2 by 1 / step 2 fail box 1.0 by 1 / step 3 fail box 1.2 by 1 / step 4 fail box 0.0 by 1 / failed
 => MERGE => merge([a],[b],Z) => 0 / answer 1 / Z = [a,b] / done
--trace => THERE => t(a,R) => 0 / step 1 fork goal 0.2 by 1 / step 2 cut goal 0.2 of 1.0 by 1 / step 3 promote goal 0.2 of 1.0 by 1 / step 4 tell goal 1.4 by 1 / answer 1 / R = 1 / done
--trace => p :- q(W), r(W) -> true. q(X) :- X = c -> true. q(X) :- X = d -> true. r(X) :- -> s(X). s(X) :- -> X = d. => p => 0 / step 1 fork goal 0.2 by 1 / step 2 fork goal 1.2 by 1 / step 3 fork goal 1.3 by 1 / step 4 promote goal 1.3 of 1.10 by 1 / step 5 tell goal 1.6 by 1 / step 6 tell goal 1.9 by 1 / step 7 fork goal 1.12 by 1 / step 8 promote goal 1.12 of 1.13 by 1 / step 9 tell goal 1.15 by 1 / step 10 fail box 1.4 by 1 / step 11 promote goal 1.2 of 1.7 by 1 / step 12 promote goal 0.2 of 1.0 by 1 / answer 1 / done
--trace => r(X) :- -> q(X). q(_) :- -> true. c(X) :- -> X = 1, e. e :- -> true. => X > 0, r(X), c(X) => 0 / step 1 fork goal 0.3 by 1 / step 2 promote goal 0.3 of 1.0 by 1 / step 3 fork goal 0.4 by 1 / step 4 promote goal 0.4 of 1.3 by 1 / step 5 tell goal 1.5 by 1 / step 6 fork goal 1.2 by 1 / step 7 promote goal 1.2 of 1.7 by 1 / step 8 fork goal 1.6 by 1 / step 9 promote goal 1.6 of 1.9 by 1 / step 10 eval goal 0.2 by 1 / answer 1 / X = 1 / done
";

// A program by its name, or as it is written.
fn named(text: &str) -> &str {
    match text {
        "LISTS" => LISTS,
        "MERGE" => MERGE,
        "THERE" => THERE,
        "COUNT" => COUNT,
        "BAGS" => BAGS,
        "QUEENS" => QUEENS,
        "ABC" => ABC,
        _ => text,
    }
}

/// The parts of a line, between which ` => ` stands: options that are parted by commas, a program or its name, a query and
/// the reply.
#[derive(Clone, Copy)]
pub struct Case<'a> {
    options: &'a str,
    pub program: &'a str,
    pub query: &'a str,
    pub wanted: &'a str,
}

/// The part of a line before the first ` => `, and the rest, which is no reply where there is no such part.
pub fn cut(line: &str) -> (&str, &str) {
    line.split_once(" => ").unwrap_or((line, "no reply"))
}

/// The parts of a line.
pub fn case_of(line: &str) -> Case<'_> {
    let (options, rest) = cut(line);
    let (program, rest) = cut(rest);
    let (query, wanted) = cut(rest);
    Case {
        options,
        program: named(program),
        query,
        wanted,
    }
}

/// The words of a line's command.
pub fn words_for(alloc: Global, case: &Case) -> Result<Vec<String>, AllocError> {
    let mut words = words_of(alloc, &["--query", case.query])?;
    add_options(alloc, &mut words, case.options)?;
    Ok(words)
}

/// The reply that a line gets.
pub fn replied<R: Threads + Wait + Sync>(
    rt: &R,
    alloc: Global,
    case: &Case,
) -> Result<Reply, AllocError> {
    let words = words_for(alloc, case)?;
    command(rt, alloc, &words, case.program)
}

// A line gets the reply that it should.
fn try_rule<R: Threads + Wait + Sync + Abort>(
    rt: &R,
    alloc: Global,
    line: &str,
) -> Result<(), AllocError> {
    let case = case_of(line);
    let reply = replied(rt, alloc, &case)?;
    expect(rt, &reply.text, case.wanted, line);
    Ok(())
}

/// Each line of a table gets the reply that it should.
pub fn try_rules<R: Threads + Wait + Sync + Abort>(
    rt: &R,
    alloc: Global,
    table: &str,
) -> Result<(), AllocError> {
    for line in table.lines().skip(1) {
        try_rule(rt, alloc, line)?;
    }
    Ok(())
}

#[test]
fn each_rule_applies_where_it_may(rt: HostRuntime) -> Result<(), AllocError> {
    let alloc = rt.alloc();
    try_rules(&rt, alloc, RULES)?;
    try_rules(&rt, alloc, VALUES)?;
    try_rules(&rt, alloc, SPLITS)?;
    try_rules(&rt, alloc, CHOICES)?;
    try_rules(&rt, alloc, COLLECTING)?;
    try_rules(&rt, alloc, TRACES)
}
