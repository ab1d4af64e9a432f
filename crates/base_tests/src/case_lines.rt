//! Tables of cases. The first line of a table names what is asked. Each further line is a case: a text, ` =>`, and what is
//! answered for it, with a blank before each part.
//!
//! In both `$` stands for the end of a line, `@a*3@` for `aaa`, and `@255@` for this byte.

use std::alloc::{AllocError, Global};
use std::process::Abort;

/// What is asked of each case of a table.
pub trait Question {
    /// Puts what is answered for a text, with a blank before each part.
    fn answer(&self, alloc: Global, shown: &mut String, text: &[u8]) -> Result<(), AllocError>;
}

/// Puts a part of a line.
fn put(text: &mut Vec<u8>, part: &str) -> Result<(), AllocError> {
    for letter in part.bytes() {
        text.push(if letter == b'$' { b'\n' } else { letter })?;
    }
    Ok(())
}

/// Puts what stands between two marks: a part so many times, or a byte.
fn put_marked(text: &mut Vec<u8>, marked: &str) -> Result<(), AllocError> {
    let Some((part, times)) = marked.split_once('*') else {
        text.push(marked.parse().unwrap_or(0))?;
        return Ok(());
    };
    for _ in 0..times.parse().unwrap_or(0) {
        put(text, part)?;
    }
    Ok(())
}

/// What a line says.
fn expanded(alloc: Global, line: &str) -> Result<Vec<u8>, AllocError> {
    let mut text = Vec::new(alloc);
    let mut is_marked = false;
    for part in line.split('@') {
        if is_marked {
            put_marked(&mut text, part)?;
        } else {
            put(&mut text, part)?;
        }
        is_marked = !is_marked;
    }
    Ok(text)
}

/// Puts what is answered for the text of a case.
fn put_answer<Q: Question>(
    alloc: Global,
    question: &Q,
    shown: &mut String,
    text: &str,
) -> Result<(), AllocError> {
    let text = expanded(alloc, text)?;
    question.answer(alloc, shown, text.as_slice())
}

/// What is answered for the text of a case.
fn answered<Q: Question>(alloc: Global, question: &Q, text: &str) -> Result<String, AllocError> {
    let mut shown = String::new(alloc);
    put_answer(alloc, question, &mut shown, text)?;
    Ok(shown)
}

/// Fails where another answer is wanted of a case.
fn expect(
    rt: &impl Abort,
    alloc: Global,
    case: &str,
    found: &str,
    want: &str,
) -> Result<(), AllocError> {
    let want = expanded(alloc, want)?;
    assert!(rt; found.as_bytes() == want.as_slice(), "{case}: {found}");
    Ok(())
}

/// Fails where a case has another answer.
fn try_case<Q: Question>(
    rt: &impl Abort,
    alloc: Global,
    question: &Q,
    case: &str,
) -> Result<(), AllocError> {
    let (text, want) = case.split_once(" =>").unwrap_or((case, " no case"));
    let found = answered(alloc, question, text)?;
    expect(rt, alloc, case, found.as_str(), want)
}

/// Fails at a case of a table with another answer.
pub fn each_holds<Q: Question>(
    rt: &impl Abort,
    alloc: Global,
    question: &Q,
    table: &str,
) -> Result<(), AllocError> {
    for case in table.lines().skip(1) {
        try_case(rt, alloc, question, case)?;
    }
    Ok(())
}
