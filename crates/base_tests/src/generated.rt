//! What is generated from a number.

use crate::case_lines::{Question, each_holds};
use akl_gen::generate;
use std::alloc::{AllocError, Global};
use std::str::from_utf8;

const PROGRAM: &[u8] = b"append([],Y,Z) :- -> Z = Y.
append([X|Xs],Y,Z) :- -> Z = [X|Zs], append(Xs,Y,Zs).
nrev([],R) :- -> R = [].
nrev([X|Xs],R) :- -> nrev(Xs,S), append(S,[X],R).
member(X,[X|_]).
member(X,[_|T]) :- member(X,T).
";

/// Puts the query over the program.
fn put_query(shown: &mut String, program: &[u8], query: &[u8]) -> Result<(), AllocError> {
    if program != PROGRAM {
        return shown.push_str(" another program");
    }
    write!(shown, " {}", from_utf8(query).unwrap_or("no text"))
}

/// What query is made of a number?
struct Generated;

impl Question for Generated {
    fn answer(&self, alloc: Global, shown: &mut String, text: &[u8]) -> Result<(), AllocError> {
        let number = from_utf8(text).unwrap_or("").parse::<u64>().unwrap_or(1);
        let (program, query) = generate(alloc, number)?;
        put_query(shown, &program, &query)
    }
}

/// The shortest list has three elements, and the longest a hundred. A number is taken modulo 2 to the 31.
const QUERIES: &str = "generated
0 => nrev([345,606,775],R), member(X,[345,606,775])
97 => nrev([358,407,748,477,482,499,672,841,38,823,988,429,610,139,736,601,950,847,660,29,386,683,320,625,646,559,500,661,986,339,520,425,206,607,860,925,866,11,168,465,510,391,284,829,450,755,368,265,46,791,284,989,242,75,568,585,270,271,892,909,546,707,296,153,390,455,340,453,18,411,320,697,518,319,588,677,770,787,64,353,6,743,740,37,306,99,208,489,518,311,68,549,474,291,192,201,102,431,108,493],R), member(X,[358,407,748])
4294967295 => nrev([748,989,466,67,320,457,966,199,700,773,26,19,528,313,854,887,156,173,2,531,160,9,78,439,860,453,650,763,584,41,646,719,532,53,474,827,456,849,110,47,644,85,578,491,384,353,94,359,28,613,442,259,720,737,374,79,148,589,66,811,312,73,382,311,684,461,482,171,328,137,726,799,244,605,690,587,504,177,486,911,444,669,906,139,648,113,822,631,948,333],R), member(X,[748,989,466])
";

#[test]
fn a_query_is_made_of_a_number(rt: HostRuntime) -> Result<(), AllocError> {
    each_holds(&rt, rt.alloc(), &Generated, QUERIES)
}
