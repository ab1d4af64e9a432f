//! What boxes answer that were told something.

use crate::chains::stores_of;
use crate::term_words::{cut, four_variables, is_said, term, term_of};
use akl_terms::{Templates, Var};
use entail_test::{Quietness, quiet, touches};
use local_store::{Chain, Consistency, consistent};
use std::alloc::{AllocError, Global};

/// Whether the words are these variables.
fn are(found: &[Var], text: &str) -> bool {
    let mut words = text.split_whitespace();
    for variable in found {
        let Some(word) = words.next() else {
            return false;
        };
        if term(word) != Some(term_of(*variable)) {
            return false;
        }
    }
    words.next().is_none()
}

/// Whether an answer of a word and variables, in their order, is one of those that are lawful.
fn is_lawful(word: &str, mut found: Vec<Var>, want: &str) -> Result<bool, AllocError> {
    found.sort()?;
    for text in want.split(" or ") {
        if let Some(rest) = text.strip_prefix(word) {
            if are(found.as_slice(), rest) {
                return Ok(true);
            }
        }
    }
    Ok(false)
}

fn is_consistency(alloc: Global, chain: &Chain, want: &str) -> Result<bool, AllocError> {
    Ok(match consistent(alloc, chain)? {
        Consistency::Consistent => want == "consistent",
        Consistency::Clash { left: _, right: _ } => want == "clash",
    })
}

fn is_quietness(alloc: Global, chain: &Chain, want: &str) -> Result<bool, AllocError> {
    match quiet(alloc, chain)? {
        Quietness::Quiet => Ok(want == "quiet"),
        Quietness::Noisy { on } => is_lawful("noisy", on, want),
        Quietness::Inconsistent { left: _, right: _ } => Ok(want == "clash"),
    }
}

fn is_touched(alloc: Global, chain: &Chain, depth: usize, want: &str) -> Result<bool, AllocError> {
    if depth >= chain.stores().len() {
        return Ok(false);
    }
    is_lawful("on", touches(alloc, chain, depth)?, want)
}

/// Whether a chain answers a question so; those from a depth on touch something where a question is this depth.
fn answers(alloc: Global, chain: &Chain, question: &str, want: &str) -> Result<bool, AllocError> {
    match question {
        "consistent" => is_consistency(alloc, chain, want),
        "quiet" => is_quietness(alloc, chain, want),
        depth => is_touched(alloc, chain, depth.parse().unwrap_or(9), want),
    }
}

/// A question to boxes, and each lawful answer: whether they are consistent, whether the innermost one is quiet, or what
/// those from a depth on touch.
const CHAINS: &str = "
quiet |  /  | quiet
quiet |  / A=K | quiet
quiet |  / K=A | quiet
quiet |  / A=K K=A | quiet
quiet |  / K=1 L=fK | quiet
quiet |  / K=fA | quiet
quiet |  / A=K A=L K=L | quiet
quiet |  / A=K B=L K=L | noisy A B
quiet |  / K=A L=B K=L | noisy A B
quiet |  / K=A K=B | noisy A B
quiet |  / A=K K=L L=M M=B | noisy A B
quiet |  / K=fA K=fB | noisy A B
quiet |  / A=B A=C | noisy A B C
quiet |  / A=B C=D | noisy A B C D
quiet |  / A=K K=1 | noisy A
quiet |  / A=fK | noisy A
quiet |  / A=fA | noisy A
quiet |  / K=1 K=2 | clash
quiet | A=B / A=K B=K | quiet
quiet | A=B / B=A | quiet
quiet | A=B / A=1 | noisy A or noisy B
quiet | A=B / B=1 | noisy A or noisy B
quiet | A=B B=C / D=C | noisy A D or noisy B D or noisy C D
quiet | A=B C=D / B=C | noisy A C or noisy A D or noisy B C or noisy B D
quiet | A=1 / A=1 | quiet
quiet | A=1 / A=K | quiet
quiet | A=1 B=1 / A=B | quiet
quiet | A=1 / A=K B=K | noisy B
quiet | A=1 / A=2 | clash
quiet | A=1 / K=2 K=A | clash
quiet | A=1 A=2 /  | clash
quiet | A=a / A=K K=b | clash
quiet | A=a / A=fB | clash
quiet | A=fB / A=fK | quiet
quiet | A=fB A=fC / B=C | quiet
quiet | A=fB / A=fC | noisy B C
quiet | A=fB / A=fK K=1 | noisy B
quiet | A=fB / A=ffK | noisy B
quiet | A=fA / A=fA | quiet
quiet | A=fA / A=ffA | quiet
quiet | A=fA / K=fK K=A | quiet
quiet | A=fA B=fB / A=B | quiet
quiet | A=fA B=ffB / A=B | quiet
quiet | A=fA / B=fB A=B | noisy B
quiet | A=fA B=fC / A=B | noisy C
quiet | A=fA / A=a | clash
quiet | A=p / A=p | quiet
quiet | A=p B=p / A=B | quiet
quiet | A=p / K=p B=K | noisy B
quiet |  / A=p | noisy A
quiet | A=p / A=q | clash
quiet | A=p / A=1 | clash
quiet | A=1 B=A | quiet
quiet | A=W | quiet
quiet | W=1 | noisy W
quiet | W=X | noisy W X
quiet | A=1 A=2 | clash
quiet |  / A=K / P=K | quiet
quiet |  / A=K / B=K | noisy A B or noisy B K
quiet |  / K=1 / A=K P=K | noisy A
quiet |  / K=L / P=K P=L | quiet
quiet |  /  / P=K P=L | noisy K L
quiet | A=B /  / A=P B=P | quiet
quiet | A=1 / K=A / K=2 | clash
quiet | A=1 A=2 /  /  | clash
0 | A=1 / A=K /  | on
0 |  / K=A / P=1 P=K | on
0 | A=W / K=X A=K /  | on W X
0 | W=1 /  | on W
1 |  / A=fK / P=1 | on A
1 |  / A=K / B=K | on A B
1 |  / K=A / P=1 P=K | on A
1 | A=1 / K=A / K=P | on
1 | A=B /  / P=A P=1 | on A or on B
1 | A=B C=D /  / P=B P=D | on A C or on A D or on B C or on B D
2 |  / A=K / B=K | on A B or on B K
2 |  / K=A / P=1 P=K | on A or on K
2 | A=1 / K=A / K=P | on
2 | A=B / K=B / P=A P=1 | on A or on B or on K
consistent |  | consistent
consistent | A=1 A=1 | consistent
consistent | A=1 A=2 | clash
consistent | A=1 / K=A / P=K | consistent
consistent | A=1 / K=A / P=K P=2 | clash
consistent | A=fA / K=ffK / K=A | consistent
consistent | A=fA / K=fL L=a / K=A | clash
consistent | A=p / K=p / K=A | consistent
consistent | A=p / K=q / K=A | clash
";

/// Whether the boxes of a case answer as they should.
fn holds(alloc: Global, templates: &Templates, case: &str) -> Result<bool, AllocError> {
    let (question, rest) = cut(case);
    let (text, want) = cut(rest);
    let stores = stores_of(alloc, text)?;
    let chain = Chain::new(templates, stores.as_slice());
    Ok(is_said(text) && answers(alloc, &chain, question, want)?)
}

#[test]
fn boxes_answer_what_they_were_told(rt: HostRuntime) -> Result<(), AllocError> {
    let templates = four_variables(rt.alloc())?;
    for case in CHAINS.lines().skip(1) {
        assert!(rt; holds(rt.alloc(), &templates, case)?, "{case}");
    }
    Ok(())
}
