//! The variables that answers show.

ghost use Rattle.std.specs.Prelude.{◌≡◌, ◌≤◌, IfOk, length};
ghost use Rattle.clause_store.specs.Loaded.{is_hidden, shown_from};

use akl_terms::{Shown, Text};
use std::alloc::{AllocError, Global};

/// Whether answers leave the variable of this name out.
fn hidden(name: &str) -> bool
    ensures { result ≡ is_hidden name.now }
{
    match name.as_bytes().first() {
        Some(first) => *first == b'_',
        None => false,
    }
}

/// The variables whose names don't begin with `_`, each with its number.
pub fn shown(alloc: Global, names: Vec<Text>) -> Result<Vec<Shown>, AllocError>
    requires { length names.items ≤ 256 }
    ensures { IfOk result (λ v. v.items ≡ shown_from 0 names.items) }
{
    let mut found = Vec::new(alloc);
    let mut index = 0;
    for name in names {
        if !hidden(name.as_str()) {
            found.push(Shown { name, index })?;
        }
        index += 1;
    }
    Ok(found)
}
