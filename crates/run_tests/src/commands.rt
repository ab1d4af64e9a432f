//! Commands that are answered or refused.

use crate::replies::{add_options, answer, command, expanded, expect};
use crate::rules::cut;
use std::alloc::{AllocError, Global};
use std::process::Abort;
use std::sync::Wait;
use std::thread::Threads;

/// Programs, queries and their replies.
const COMMANDS: &str = r"
 => X = f(Y), Y = a => 0 / answer 1 / X = f(a) / Y = a / done
 => X = a, X = b => 1 / failed
 => X = Y => 0 / answer 1 / X = _1 / Y = _1 / done
 => _3 = _4, _2 = _3, _1 = _2, _0 = _1, X = _0, Y = _4, Z = f(X,Y,_,X) => 0 / answer 1 / X = _1 / Y = _1 / Z = f(_1,_1,_2,_1) / done
 => true => 0 / answer 1 / done
 => X = f(_A,_B,_A) => 0 / answer 1 / X = f(_1,_2,_1) / done
 => _A = _B, X = g(_C,_A), Y = h(_B,_C,_) => 0 / answer 1 / X = g(_1,_2) / Y = h(_2,_1,_3) / done
 => _X = f(_X,_A), Y = g(_B,_X), Z = [_A|T] => 0 / answer 1 / Y = g(_1,R1) / Z = [_2|_3] / T = _3 / R1 = f(R1,_2) / done
 => X = f(X), X = a => 1 / failed
 => f(_A,B) = f(b,_A) => 0 / answer 1 / B = b / done
 => X = 'hello world', Y = 'abc', Z = 'it''s' => 0 / answer 1 / X = 'hello world' / Y = abc / Z = 'it\'s' / done
 => X = 1+2*3 => 0 / answer 1 / X = '+'(1,'*'(2,3)) / done
 => X = a-b-c => 0 / answer 1 / X = '-'('-'(a,b),c) / done
 => X = [a,b|T], T = '[]' => 0 / answer 1 / X = [a,b] / T = [] / done
 => X = '.'(a,'[]'). => 0 / answer 1 / X = [a] / done
 => X = -170141183460469231731687303715884105728 => 0 / answer 1 / X = -170141183460469231731687303715884105728 / done
 => X = a, fail => 1 / failed
 => fail => 1 / failed
 => true, X = 007 % a comment => 0 / answer 1 / X = 7 / done
 => ((X = a), true) => 0 / answer 1 / X = a / done
 => '='(X,_), _ = b => 0 / answer 1 / X = _1 / done
 => zz(1) => 6 / akl: query: undefined zz/1
 => X =  => 6 / akl: query: syntax at 0
 =>   => 6 / akl: query: syntax at 1
 =>  X = a. Y => 6 / akl: query: syntax at 1
 => X = 9223372036854775808 => 0 / answer 1 / X = 9223372036854775808 / done
 => X = 170141183460469231731687303715884105728 => 6 / akl: query: integer out of range at 4
p :- send(X,Y), q. => true => 5 / akl: program: undefined q/0
 => (zz ; X = b) => 6 / akl: query: undefined zz/0
 => (X = a -> true ; true) => 6 / akl: query: mixed guards in ''/0
 => (true{ ; true*256}) => 6 / akl: query: too many clauses of one definition, 257
 => X = f(X) => 0 / answer 1 / X = R1 / R1 = f(R1) / done
 => X = f(X), X = f(f(X)) => 0 / answer 1 / X = R1 / R1 = f(R1) / done
 => X = f(X,X), Y = f(Y,X) => 0 / answer 1 / X = R1 / Y = R1 / R1 = f(R1,R1) / done
 => X = f(a,X), Y = f(b,Y), X = Y => 1 / failed
 => X = f(g(X)), Y = f(Z), Z = g(Y) => 0 / answer 1 / X = R1 / Y = R1 / Z = R2 / R1 = f(R2) / R2 = g(R1) / done
 => X = [a,b|X] => 0 / answer 1 / X = R1 / R1 = [a|R2] / R2 = [b|R1] / done
 => X = [a|X], Y = [c|X] => 0 / answer 1 / X = R1 / Y = [c|R1] / R1 = [a|R1] / done
 => X = [a|X], Y = [a,a|Y] => 0 / answer 1 / X = R1 / Y = R1 / R1 = [a|R1] / done
 => X = [a,a|X], Y = [a,a,a|Y] => 0 / answer 1 / X = R1 / Y = R1 / R1 = [a|R1] / done
 => X = f([a|X]) => 0 / answer 1 / X = R1 / R1 = f(R2) / R2 = [a|R1] / done
 => X = f(X,Z,Y), Y = g(Z,W), Z = T => 0 / answer 1 / X = R1 / Z = _1 / Y = g(_1,_2) / W = _2 / T = _1 / R1 = f(R1,_1,g(_1,_2)) / done
 => _X = [1,'is',f(_X)|_X], Y = h(_X,[]) => 0 / answer 1 / Y = h(R1,[]) / R1 = [1|R2] / R2 = ['is'|R3] / R3 = [R4|R1] / R4 = f(R1) / done
 => -X = a => 4 / akl: words: missing at word 0
p(a). p(b,c). => true => 0 / answer 1 / done
 % nothing but layout /* => true => 0 / answer 1 / done
p(a) :- -> true. p(b) :- | true. => true => 5 / akl: program: mixed guards in p/1
p(a) :- -> true. p(b,c) :- | true. => true => 0 / answer 1 / done
p(a). q(b => true => 5 / akl: program: syntax at 6
append([],Y,Z) :- -> Z = Y => true => 5 / akl: program: syntax at 0
append([],Y,Z) :- -> Z = Y. append([X|Xs],Y,Z) :- -> Z = [X|Zs], append(Xs,Y,Zs) => true => 5 / akl: program: syntax at 28
append([],Y,Z) :- -> Z = Y. append([X|Xs],Y,Z) :- -> Z = [X|Zs], append(Xs,Y,Zs). => true => 0 / answer 1 / done
p(a). q(b. r. => true => 5 / akl: program: syntax at 6
p(9999999999999999999999999999999999999999). => true => 5 / akl: program: integer out of range at 2
send(a,b). => true => 5 / akl: program: reserved send/2
'true'. => true => 5 / akl: program: reserved true/0
send(a,b,c). => true => 0 / answer 1 / done
p :- q. => true => 5 / akl: program: undefined q/0
p :- 'it''s'([]), '[]'. => true => 5 / akl: program: undefined 'it\'s'/1
p :- '[]'. => true => 5 / akl: program: undefined '[]'/0
p :- q. q :- p, fail, X = Y. => true => 0 / answer 1 / done
p :- q. q :- p, fail, X = Y, X is Y, X < Y, open_port(X,Y), send(X,Y). => true => 0 / answer 1 / done
p :- (q ; r). q. => true => 5 / akl: program: undefined r/0
p(X) :- (X = a -> true ; true). => true => 5 / akl: program: mixed guards in p/1
p(X) :- (X = a -> (X = a | true ; X = a -> true)). => true => 5 / akl: program: mixed guards in p/1
p :- (true{ ; true*255}). => true => 0 / answer 1 / done
p :- (true{ ; true*256}). => true => 5 / akl: program: too many clauses of one definition, 257
p :- {(true -> *199}true{)*199}. => p => 0 / answer 1 / done
p(X) :- {(true -> *199}X = 1{, X = 1*99}{)*199}. => true => 0 / answer 1 / done
true :- (q ; r). p => true => 5 / akl: program: syntax at 17
member(X,[X|_]). member(X,[_|T]) :- member(X,T). => member(X) => 6 / akl: query: undefined member/1
member(X,[X|_]). member(X,[_|T]) => X = => 5 / akl: program: syntax at 17
{p. *10001} => true => 5 / akl: program: too many clauses, 10001
{p. *10000} => true => 5 / akl: program: too many clauses of one definition, 10000
{p. *256} => true => 0 / answer 1 / done
{%*1000001} => true => 5 / akl: program: too long, 1000001 bytes
{%*1000000} => true => 0 / answer 1 / done
p([a{,a*399999}]). => true => 0 / answer 1 / done
 => _ = f(a{,a*31}) => 0 / answer 1 / done
 => _ = f(a{,a*32}) => 6 / akl: query: too many arguments, 33
 => _ = a{, _ = a*255} => 0 / answer 1 / done
 => _ = a{, _ = a*255}, X257 = a => 6 / akl: query: too many variables, 257
 => true{%*9996} => 0 / answer 1 / done
 => true{%*9997} => 6 / akl: query: too long, 10001 bytes
 => X = {[*200}{]*200} => 0 / answer 1 / X = {[*200}{]*200} / done
 => X = {[*201}{]*201} => 6 / akl: query: too deep at 204
p(a) :- -> true. p(X) :- -> p(X), X = a. => true => 0 / answer 1 / done
p(a) :- -> true. q. p(b) :- | true. => true => 5 / akl: program: mixed guards in p/1
p(a) :- -> true. p(a,b) :- | true. p. => true => 0 / answer 1 / done
q. p(X) :- (q ; (q -> q ; q | q)), q. => true => 5 / akl: program: mixed guards in p/1
q. p(X) :- (q ? q ; q, (q -> q ; q -> q)). => true => 0 / answer 1 / done
p :- q(p), r. q(X). => true => 5 / akl: program: undefined r/0
p :- p, (p -> (a(X,X) ; b)), c. => true => 5 / akl: program: undefined a/2
p :- a. q :- b. => true => 5 / akl: program: undefined a/0
p :- q. 'true'. fail. => true => 5 / akl: program: reserved true/0
'='(X,X). => true => 5 / akl: program: reserved '='/2
send(a). open_port(a,b,c). 'is'. '<'. => true => 0 / answer 1 / done
p :- 'true', 'is'(X,1), '<'(1,2), 'open_port'(P,S). => true => 0 / answer 1 / done
p :- send(X). => true => 5 / akl: program: undefined send/1
'[]' :- '[]'. => true => 0 / answer 1 / done
p :- ''. => true => 5 / akl: program: undefined ''/0
p :- p(a). => true => 5 / akl: program: undefined p/1
p :- q. r :- -> true. r :- | true. => true => 5 / akl: program: mixed guards in r/0
r :- -> true. r :- | true. 'is'(X,Y). => true => 5 / akl: program: reserved 'is'/2
r. r :- -> true. s. s :- | true. r. => true => 5 / akl: program: mixed guards in r/0
p(L) :- bagof(X, p(X), L). => true => 0 / answer 1 / done
p(L) :- bagof(X, (p(X), q(X)), L), r. => true => 5 / akl: program: undefined q/1
p(L) :- bagof(X, bagof(Y, q(X,Y), X), L). => true => 5 / akl: program: undefined q/2
p(L) :- bagof(X, (p(X) -> true ; p(X) | true), L). => true => 5 / akl: program: mixed guards in p/1
bagof(X,Y,Z). => true => 5 / akl: program: reserved bagof/3
'bagof'(X,Y,Z) :- true. => true => 5 / akl: program: reserved bagof/3
bagof(X,Y). bagof. => true => 0 / answer 1 / done
{p. *257} => true => 5 / akl: program: too many clauses of one definition, 257
p(X) :- (p(a) ; (p(a){;p(a)*255})). => true => 0 / answer 1 / done
p(X) :- (p(a) ; (p(a){;p(a)*256})). => true => 5 / akl: program: too many clauses of one definition, 257
p(a). p(b) :- _ = a{,_ = a*256}. => true => 5 / akl: program: too many variables, 257
{p. *300} r :- (true{;true*269}). q. p. => true => 5 / akl: program: too many clauses of one definition, 301
 r :- (true{;true*269}). {p. *300} => true => 5 / akl: program: too many clauses of one definition, 270
p(X) :- X = f({a,*31}b). => true => 0 / answer 1 / done
p :- (p ; X = [a,1+f({a,*32}b)|Y]). => true => 5 / akl: program: too many arguments, 33
f({a,*32}b). => true => 5 / akl: program: too many arguments, 33
p(g({a,*32}f({a,*33}b))). => true => 5 / akl: program: too many arguments, 33
p :- X = [f({a,*33}b)|g]. => true => 5 / akl: program: too many arguments, 34
p(L) :- bagof(f({a,*32}b), p(g({a,*33}b)), L). => true => 5 / akl: program: too many arguments, 33
p(L) :- bagof(X, p(g({a,*33}b)), f({a,*32}b)). => true => 5 / akl: program: too many arguments, 34
p(L) :- bagof(X, p(X), f({a,*32}b)), p(g({a,*33}b)). => true => 5 / akl: program: too many arguments, 33
p(L) :- bagof(X, (p(a) ; (p(a){;p(a)*256})), L). => true => 5 / akl: program: too many clauses of one definition, 257
{a. *250}{b. *250}{c. *250}{d. *250}{e. *250}{f. *250}{g. *250}{h. *250}{i. *250}{j. *250}{k. *250}{l. *250}{m. *250}{n. *250}{o. *250}{p. *250}{q. *250}{r. *250}{s. *250}{t. *250}{u. *250}{v. *250}{w. *250}{x. *250}{y. *250}{z. *250}{aa. *250}{ab. *250}{ac. *250}{ad. *250}{ae. *250}{af. *250}{ag. *250}{ah. *250}{ai. *250}{aj. *250}{ak. *250}{al. *250}{am. *250}{an. *250} => true => 0 / answer 1 / done
 => (X = a -> zz ; X = b | true) => 6 / akl: query: mixed guards in ''/0
 => X = a, (X = b ; (true -> true ; true)) => 6 / akl: query: mixed guards in ''/0
 => true(a) => 6 / akl: query: undefined true/1
 => X = Y, (fail ; q(X,Y)), r => 6 / akl: query: undefined q/2
 => bagof(X, (X = a, q(X)), L), r => 6 / akl: query: undefined q/1
 => bagof(X, (true -> true ; true), L) => 6 / akl: query: mixed guards in ''/0
 => (true ; X = a, (p(a){;p(a)*256})) => 6 / akl: query: too many clauses of one definition, 257
 => _ = a{,_ = a*256} => 6 / akl: query: too many variables, 257
 => true, X = f({a,*32}b) => 6 / akl: query: too many arguments, 33
 => X = [X] => 0 / answer 1 / X = R1 / R1 = [R1] / done
 => X = [X|Y], Y = [X|Y] => 0 / answer 1 / X = R1 / Y = R1 / R1 = [R1|R1] / done
 => X = Y, Y = [] => 0 / answer 1 / X = [] / Y = [] / done
 => Y = [X], X = -7 => 0 / answer 1 / Y = [-7] / X = -7 / done
 => X = 1, X = Y, Y = 2 => 1 / failed
 => X = Z, X = f(X), Z = f(Z) => 0 / answer 1 / X = R1 / Z = R1 / R1 = f(R1) / done
 => X = f(g(X)), Y = f(Z), Z = h(Y), X = Y => 1 / failed
 => X = aB_9, Y = 'is', Z = 'mod', T = 'B', U = '_', V = 'a.b', W = '\\', S = 'a\n\tb', R = '' => 0 / answer 1 / X = aB_9 / Y = 'is' / Z = 'mod' / T = 'B' / U = '_' / V = 'a.b' / W = '\\' / S = 'a\n\tb' / R = '' / done
 => X = -170141183460469231731687303715884105728, Y = [X|Y] => 0 / answer 1 / X = -170141183460469231731687303715884105728 / Y = R1 / R1 = [-170141183460469231731687303715884105728|R1] / done
 => _0 = a, _1 = f(_0,_0), _2 = f(_1,_1), _3 = f(_2,_2), _4 = f(_3,_3), _5 = f(_4,_4), _6 = f(_5,_5), _7 = f(_6,_6), _8 = f(_7,_7), _9 = f(_8,_8), _10 = f(_9,_9), _11 = f(_10,_10), _12 = f(_11,_11), _13 = f(_12,_12), _14 = f(_13,_13), _15 = f(_14,_14), _16 = f(_15,_15), _17 = f(_16,_16), X = h(_17,_16,_11,_10,{a*1605}) => 0 / answer 1 / (longer than 1000000 bytes) / done
p(Y) :- _0 = a, _1 = f(_0,_0), _2 = f(_1,_1), _3 = f(_2,_2), _4 = f(_3,_3), _5 = f(_4,_4), _6 = f(_5,_5), _7 = f(_6,_6), _8 = f(_7,_7), _9 = f(_8,_8), _10 = f(_9,_9), _11 = f(_10,_10), _12 = f(_11,_11), _13 = f(_12,_12), _14 = f(_13,_13), _15 = f(_14,_14), _16 = f(_15,_15), _17 = f(_16,_16), X = h(_17,_16,_11,_10,{a*1605}), X = Y. p(b). => p(Z) => 0 / answer 1 / (longer than 1000000 bytes) / answer 2 / Z = b / done
 => X40 = a, X0 = f(X1,X1), X1 = f(X2,X2), X2 = f(X3,X3), X3 = f(X4,X4), X4 = f(X5,X5), X5 = f(X6,X6), X6 = f(X7,X7), X7 = f(X8,X8), X8 = f(X9,X9), X9 = f(X10,X10), X10 = f(X11,X11), X11 = f(X12,X12), X12 = f(X13,X13), X13 = f(X14,X14), X14 = f(X15,X15), X15 = f(X16,X16), X16 = f(X17,X17), X17 = f(X18,X18), X18 = f(X19,X19), X19 = f(X20,X20), X20 = f(X21,X21), X21 = f(X22,X22), X22 = f(X23,X23), X23 = f(X24,X24), X24 = f(X25,X25), X25 = f(X26,X26), X26 = f(X27,X27), X27 = f(X28,X28), X28 = f(X29,X29), X29 = f(X30,X30), X30 = f(X31,X31), X31 = f(X32,X32), X32 = f(X33,X33), X33 = f(X34,X34), X34 = f(X35,X35), X35 = f(X36,X36), X36 = f(X37,X37), X37 = f(X38,X38), X38 = f(X39,X39), X39 = f(X40,X40) => 0 / answer 1 / (longer than 1000000 bytes) / done
";

// The reply to a line: a program, a query and what it should be.
fn try_command<R: Threads + Wait + Sync + Abort>(
    rt: &R,
    alloc: Global,
    line: &str,
    case: &str,
) -> Result<(), AllocError> {
    let (program, rest) = cut(line);
    let (query, wanted) = cut(rest);
    let reply = answer(rt, alloc, program, query)?;
    expect(rt, &reply.text, wanted, case);
    Ok(())
}

#[test]
fn commands_are_answered_or_refused(rt: HostRuntime) -> Result<(), AllocError> {
    let alloc = rt.alloc();
    for case in COMMANDS.lines().skip(1) {
        let line = expanded(alloc, case)?;
        try_command(&rt, alloc, &line, case)?;
    }
    Ok(())
}

/// Words, parted by commas, and their replies over an empty program.
const WORDS: &str = r"
 => 4 / akl: words: missing at word 0
--query,true,--workers,1,--budget=100000 => 0 / answer 1 / done
--query=true => 0 / answer 1 / done
--query,true,--workers,17 => 4 / akl: words: bad value at word 3
--query,true,--budget,0 => 4 / akl: words: bad value at word 3
--query,true,--quiet => 4 / akl: words: unknown at word 2
--query,true,--query,true => 4 / akl: words: repeated at word 2
--query,true,--budget => 4 / akl: words: missing at word 2
--budget,2 => 4 / akl: words: missing at word 2
--query,true,--workers,2 => 0 / answer 1 / done
--query=true,--workers=0 => 4 / akl: words: bad value at word 1
--query=-1 = X => 0 / answer 1 / X = -1 / done
--query=X = a,--budget,0 => 4 / akl: words: bad value at word 2
--trace,--query,true,--trace => 4 / akl: words: repeated at word 3
--why,--query,true,--why => 4 / akl: words: repeated at word 3
--query,true,--model=true => 4 / akl: words: unknown at word 2
--model,--query,true,--trace,--why => 0 / answer 1 / model / done
--generate,1,--query,true => 4 / akl: words: repeated at word 2
--generate,4294967296 => 4 / akl: words: bad value at word 1
--generate,0 => 0 / answer 1 / R = [775,606,345] / X = 345 / answer 2 / R = [775,606,345] / X = 606 / answer 3 / R = [775,606,345] / X = 775 / done
--generate,0,--workers,16 => 0 / answer 1 / R = [775,606,345] / X = 345 / answer 2 / R = [775,606,345] / X = 606 / answer 3 / R = [775,606,345] / X = 775 / done
--generate,0,--model => 0 / answer 1 / R = [775,606,345] / X = 345 / model / R: #0 / X: #5 / #0 = '.'(#1,#2) / #1 = 775 / #2 = '.'(#3,#4) / #3 = 606 / #4 = '.'(#5,#6) / #5 = 345 / #6 = '[]' / answer 2 / R = [775,606,345] / X = 606 / model / R: #0 / X: #3 / #0 = '.'(#1,#2) / #1 = 775 / #2 = '.'(#3,#4) / #3 = 606 / #4 = '.'(#5,#6) / #5 = 345 / #6 = '[]' / answer 3 / R = [775,606,345] / X = 775 / model / R: #0 / X: #1 / #0 = '.'(#1,#2) / #1 = 775 / #2 = '.'(#3,#4) / #3 = 606 / #4 = '.'(#5,#6) / #5 = 345 / #6 = '[]' / done
";

// The reply to a line: words and what it should be.
fn try_words<R: Threads + Wait + Sync + Abort>(
    rt: &R,
    alloc: Global,
    case: &str,
) -> Result<(), AllocError> {
    let (options, wanted) = cut(case);
    let mut words = Vec::new(alloc);
    add_options(alloc, &mut words, options)?;
    let reply = command(rt, alloc, &words, "")?;
    expect(rt, &reply.text, wanted, case);
    Ok(())
}

#[test]
fn words_are_read_or_refused(rt: HostRuntime) -> Result<(), AllocError> {
    let alloc = rt.alloc();
    for case in WORDS.lines().skip(1) {
        try_words(&rt, alloc, case)?;
    }
    Ok(())
}

/// A query whose answer has a million bytes, in which `{a*3}` stands for `aaa`.
const LONGEST: &str =
    "_0 = a, _1 = f(_0,_0), _2 = f(_1,_1), _3 = f(_2,_2), _4 = f(_3,_3), _5 = f(_4,_4), _6 = f(_5,_5), _7 = f(_6,_6), _8 = f(_7,_7), _9 = f(_8,_8), _10 = f(_9,_9), _11 = f(_10,_10), _12 = f(_11,_11), _13 = f(_12,_12), _14 = f(_13,_13), _15 = f(_14,_14), _16 = f(_15,_15), _17 = f(_16,_16), X = h(_17,_16,_11,_10,{a*1604})";

#[test]
fn an_answer_may_have_a_million_bytes(rt: HostRuntime) -> Result<(), AllocError> {
    let alloc = rt.alloc();
    let query = expanded(alloc, LONGEST)?;
    let reply = answer(&rt, alloc, "", &query)?;
    // With `answer 1` and `done` it is 14 bytes more.
    assert!(rt; reply.status == 0 && reply.written == 1_000_014);
    Ok(())
}
