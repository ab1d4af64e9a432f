//! Lines of tables: a program, a query, turns, and what these come to.

use std::process::Abort;

/// The parts of a line, between which ` => ` stands.
#[derive(Clone, Copy)]
pub struct Case<'a> {
    pub program: &'a str,
    pub query: &'a str,
    pub turns: &'a str,
    pub wanted: &'a str,
}

/// The parts of a line; the name of the first that nothing ends.
pub fn case_of(line: &str) -> Result<Case<'_>, &'static str> {
    let Some((program, rest)) = line.split_once(" => ") else {
        return Err("program");
    };
    let Some((query, rest)) = rest.split_once(" => ") else {
        return Err("query");
    };
    let Some((turns, wanted)) = rest.split_once(" => ") else {
        return Err("turns");
    };
    Ok(Case {
        program,
        query,
        turns,
        wanted,
    })
}

/// What was found is what is wanted of a line.
pub fn expect(rt: &impl Abort, found: &str, wanted: &str, line: &str) {
    assert_eq!(rt; found, wanted, "{line}");
}
