//! Solutions that are shown behind answers: commands with `--model`.

use crate::replies::{Reply, expect};
use crate::rules::{case_of, replied};
use std::alloc::{AllocError, Global};
use std::process::Abort;
use std::sync::Wait;
use std::thread::Threads;

/// Options, programs, queries and replies.
const MODELS: &str = r"
--model =>  => X = f(Y), Y = a => 0 / answer 1 / X = f(a) / Y = a / model / X: #0 / Y: #1 / #0 = f(#1) / #1 = a / done
--model =>  => X = Y => 0 / answer 1 / X = _1 / Y = _1 / model / X: #0 / Y: #0 / #0 = _ / done
--model =>  => f(X) = f(Y) => 0 / answer 1 / X = _1 / Y = _1 / model / X: #0 / Y: #0 / #0 = _ / done
--model =>  => X = f(Y,Z,Y) => 0 / answer 1 / X = f(_1,_2,_1) / Y = _1 / Z = _2 / model / X: #0 / Y: #1 / Z: #2 / #0 = f(#1,#2,#1) / #1 = _ / #2 = _ / done
--model =>  => X = f(g(a),b), Y = f(g(a),b) => 0 / answer 1 / X = f(g(a),b) / Y = f(g(a),b) / model / X: #0 / Y: #0 / #0 = f(#1,#3) / #1 = g(#2) / #2 = a / #3 = b / done
--model =>  => X = f(g(Y),Z), Z = g(Y), Y = 1 => 0 / answer 1 / X = f(g(1),g(1)) / Y = 1 / Z = g(1) / model / X: #0 / Y: #2 / Z: #1 / #0 = f(#1,#1) / #1 = g(#2) / #2 = 1 / done
--model =>  => X = f(X), X = f(f(X)) => 0 / answer 1 / X = R1 / R1 = f(R1) / model / X: #0 / #0 = f(#0) / done
--model =>  => X = f(g(X)), Y = f(Z), Z = g(Y) => 0 / answer 1 / X = R1 / Y = R1 / Z = R2 / R1 = f(R2) / R2 = g(R1) / model / X: #0 / Y: #0 / Z: #1 / #0 = f(#1) / #1 = g(#0) / done
--model =>  => X = [a|X], Y = [c|X] => 0 / answer 1 / X = R1 / Y = [c|R1] / R1 = [a|R1] / model / X: #0 / Y: #2 / #0 = '.'(#1,#0) / #1 = a / #2 = '.'(#3,#0) / #3 = c / done
--model =>  => X = [a,a|X], Y = [a,a,a|Y] => 0 / answer 1 / X = R1 / Y = R1 / R1 = [a|R1] / model / X: #0 / Y: #0 / #0 = '.'(#1,#0) / #1 = a / done
--model =>  => X = [a,'it''s'|T], T = [] => 0 / answer 1 / X = [a,'it\'s'] / T = [] / model / X: #0 / T: #4 / #0 = '.'(#1,#2) / #1 = a / #2 = '.'(#3,#4) / #3 = 'it\'s' / #4 = '[]' / done
--model =>  => X = 170141183460469231731687303715884105727, Y = -1 => 0 / answer 1 / X = 170141183460469231731687303715884105727 / Y = -1 / model / X: #0 / Y: #1 / #0 = 170141183460469231731687303715884105727 / #1 = -1 / done
--model =>  => X = 1, Y = f(18446744073709551617), Z = f(1) => 0 / answer 1 / X = 1 / Y = f(18446744073709551617) / Z = f(1) / model / X: #0 / Y: #1 / Z: #3 / #0 = 1 / #1 = f(#2) / #2 = 18446744073709551617 / #3 = f(#0) / done
--model =>  => open_port(P,S), X = f(-3,P) => 0 / answer 1 / P = port / S = _1 / X = f(-3,port) / model / P: #0 / S: #1 / X: #2 / #0 = port / #1 = _ / #2 = f(#3,#0) / #3 = -3 / done
--model =>  => open_port(P,S), open_port(Q,T) => 0 / answer 1 / P = port / S = _1 / Q = port / T = _2 / model / P: #0 / S: #1 / Q: #2 / T: #3 / #0 = port / #1 = _ / #2 = port / #3 = _ / done
--model =>  => true => 0 / answer 1 / model / done
--model =>  => _X = f(_X) => 0 / answer 1 / model / done
--model =>  => bagof(f(X,Y,X), true, L) => 0 / answer 1 / L = [f(_1,_2,_1)] / model / L: #0 / #0 = '.'(#1,#4) / #1 = f(#2,#3,#2) / #2 = _ / #3 = _ / #4 = '[]' / done
--model => LISTS => member(X,[a,b]) => 0 / answer 1 / X = a / model / X: #0 / #0 = a / answer 2 / X = b / model / X: #0 / #0 = b / done
--model => m(1). m(_). => m(X), X < 2 => 2 / answer 1 / X = 1 / model / X: #0 / #0 = 1 / suspended 1
--model,--budget,3 => m(a). m(b). => m(X) => 3 / answer 1 / X = a / model / X: #0 / #0 = a / budget
--model,--why =>  => X = a => 0 / answer 1 / X = a / model / X: #0 / #0 = a / done
--model => p(a) :- -> true. => p(X) => 2 / suspended 1
--model =>  => X = a, X = b => 1 / failed
--why =>  => X = a => 0 / answer 1 / X = a / done
--model =>  => X = [X|Y], Y = [X|Y] => 0 / answer 1 / X = R1 / Y = R1 / R1 = [R1|R1] / model / X: #0 / Y: #0 / #0 = '.'(#0,#0) / done
--model =>  => X = [X|Y], Y = [X] => 0 / answer 1 / X = R1 / Y = R2 / R1 = [R1|R2] / R2 = [R1] / model / X: #0 / Y: #1 / #0 = '.'(#0,#1) / #1 = '.'(#0,#2) / #2 = '[]' / done
--model =>  => Y = [X|Y], X = [] => 0 / answer 1 / Y = R1 / X = [] / R1 = [[]|R1] / model / Y: #0 / X: #1 / #0 = '.'(#1,#0) / #1 = '[]' / done
--model =>  => X40 = a, X0 = f(X1,X1), X1 = f(X2,X2), X2 = f(X3,X3), X3 = f(X4,X4), X4 = f(X5,X5), X5 = f(X6,X6), X6 = f(X7,X7), X7 = f(X8,X8), X8 = f(X9,X9), X9 = f(X10,X10), X10 = f(X11,X11), X11 = f(X12,X12), X12 = f(X13,X13), X13 = f(X14,X14), X14 = f(X15,X15), X15 = f(X16,X16), X16 = f(X17,X17), X17 = f(X18,X18), X18 = f(X19,X19), X19 = f(X20,X20), X20 = f(X21,X21), X21 = f(X22,X22), X22 = f(X23,X23), X23 = f(X24,X24), X24 = f(X25,X25), X25 = f(X26,X26), X26 = f(X27,X27), X27 = f(X28,X28), X28 = f(X29,X29), X29 = f(X30,X30), X30 = f(X31,X31), X31 = f(X32,X32), X32 = f(X33,X33), X33 = f(X34,X34), X34 = f(X35,X35), X35 = f(X36,X36), X36 = f(X37,X37), X37 = f(X38,X38), X38 = f(X39,X39), X39 = f(X40,X40) => 0 / answer 1 / (longer than 1000000 bytes) / model / X40: #0 / X0: #1 / X1: #2 / X2: #3 / X3: #4 / X4: #5 / X5: #6 / X6: #7 / X7: #8 / X8: #9 / X9: #10 / X10: #11 / X11: #12 / X12: #13 / X13: #14 / X14: #15 / X15: #16 / X16: #17 / X17: #18 / X18: #19 / X19: #20 / X20: #21 / X21: #22 / X22: #23 / X23: #24 / X24: #25 / X25: #26 / X26: #27 / X27: #28 / X28: #29 / X29: #30 / X30: #31 / X31: #32 / X32: #33 / X33: #34 / X34: #35 / X35: #36 / X36: #37 / X37: #38 / X38: #39 / X39: #40 / #0 = a / #1 = f(#2,#2) / #2 = f(#3,#3) / #3 = f(#4,#4) / #4 = f(#5,#5) / #5 = f(#6,#6) / #6 = f(#7,#7) / #7 = f(#8,#8) / #8 = f(#9,#9) / #9 = f(#10,#10) / #10 = f(#11,#11) / #11 = f(#12,#12) / #12 = f(#13,#13) / #13 = f(#14,#14) / #14 = f(#15,#15) / #15 = f(#16,#16) / #16 = f(#17,#17) / #17 = f(#18,#18) / #18 = f(#19,#19) / #19 = f(#20,#20) / #20 = f(#21,#21) / #21 = f(#22,#22) / #22 = f(#23,#23) / #23 = f(#24,#24) / #24 = f(#25,#25) / #25 = f(#26,#26) / #26 = f(#27,#27) / #27 = f(#28,#28) / #28 = f(#29,#29) / #29 = f(#30,#30) / #30 = f(#31,#31) / #31 = f(#32,#32) / #32 = f(#33,#33) / #33 = f(#34,#34) / #34 = f(#35,#35) / #35 = f(#36,#36) / #36 = f(#37,#37) / #37 = f(#38,#38) / #38 = f(#39,#39) / #39 = f(#40,#40) / #40 = f(#0,#0) / done
";

// There is one model for each that the text has.
fn expect_models(rt: &impl Abort, reply: &Reply, case: &str) {
    let models = reply.text.split(" / model").count().saturating_sub(1);
    assert_eq!(rt; reply.models, models, "{case}");
}

fn try_model<R: Threads + Wait + Sync + Abort>(
    rt: &R,
    alloc: Global,
    line: &str,
) -> Result<(), AllocError> {
    let case = case_of(line);
    let reply = replied(rt, alloc, &case)?;
    expect(rt, &reply.text, case.wanted, line);
    expect_models(rt, &reply, line);
    Ok(())
}

#[test]
fn each_answer_has_its_model(rt: HostRuntime) -> Result<(), AllocError> {
    for line in MODELS.lines().skip(1) {
        try_model(&rt, rt.alloc(), line)?;
    }
    Ok(())
}
