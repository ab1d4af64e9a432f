//! The queries of a batch.

ghost use Rattle.std.specs.Prelude.{◌≡◌, IfOk, map};
ghost use Rattle.akl_args.specs.Queries.{queries_in};

use std::alloc::{AllocError, Global};
use std::mem;

/// The queries of a text: its parts between newlines. An empty part behind the last newline is none.
pub fn queries_in(alloc: Global, text: &[u8]) -> Result<Vec<Vec<u8>>, AllocError>
    ensures { IfOk result (λ queries. map (λ query. query.items) queries.items ≡ queries_in text.now) }
{
    let mut queries = Vec::new(alloc);
    let mut query = Vec::new(alloc);
    for byte in text {
        if *byte == b'\n' {
            queries.push(mem::replace(&mut query, Vec::new(alloc)))?;
        } else {
            query.push(*byte)?;
        }
    }
    if !query.is_empty() {
        queries.push(query)?;
    }
    Ok(queries)
}
