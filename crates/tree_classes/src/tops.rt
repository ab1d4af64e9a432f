//! Which nodes begin alike.

ghost use Rattle.std.specs.Prelude.{◌≡◌, ◌<◌, ◌^◌, IfOk, map};
ghost use Rattle.tree_parts.specs.Firsts.{AreFirsts};
ghost use Rattle.tree_classes.specs.Keys.{top_key, integer_key, size_key};

use akl_terms::Seen;
use std::alloc::{AllocError, Global};
use tree_parts::first_places;

// How many values a word has.
const WORD: u128 = 18446744073709551616;

/// For each node the first one that begins like it.
pub fn find_tops(alloc: Global, seens: &[Seen]) -> Result<Vec<usize>, AllocError>
    ensures { IfOk result (λ tops. AreFirsts (map top_key seens.now) tops.items) }
{
    let mut keys = Vec::new(alloc);
    for seen in seens {
        let key = top_key(alloc, *seen)?;
        keys.push(key)?;
    }
    let tops = first_places(alloc, &keys)?;
    Ok(tops)
}

// What tells how a node begins.
fn top_key(alloc: Global, seen: Seen) -> Result<Vec<usize>, AllocError>
    ensures { IfOk result (λ key. key.items ≡ top_key seen) }
{
    match seen {
        Seen::Free(x) => Vec::from_slice(
            alloc,
            &[
                0,
                x.frame.worker as usize,
                x.frame.number as usize,
                x.index as usize,
            ],
        ),
        Seen::Int(value) => integer_key(alloc, value),
        Seen::Port(name) => {
            Vec::from_slice(alloc, &[2, name.worker as usize, name.number as usize])
        }
        Seen::Struct { symbol, count, .. } => {
            Vec::from_slice(alloc, &[3, symbol as usize, count as usize])
        }
    }
}

// An integer by its sign and its size.
fn integer_key(alloc: Global, value: i128) -> Result<Vec<usize>, AllocError>
    ensures { IfOk result (λ key. key.items ≡ integer_key value) }
{
    if value < 0 {
        size_key(alloc, 1, -(value + 1) as u128)
    } else {
        size_key(alloc, 0, value as u128)
    }
}

// A size of two words, behind what tells of integers and of a sign.
fn size_key(alloc: Global, sign: usize, size: u128) -> Result<Vec<usize>, AllocError>
    requires { size < 2 ^ 127 }
    ensures { IfOk result (λ key. key.items ≡ size_key sign size) }
{
    let high = (size / WORD) as usize;
    let low = (size % WORD) as usize;
    Vec::from_slice(alloc, &[1, sign, high, low])
}
