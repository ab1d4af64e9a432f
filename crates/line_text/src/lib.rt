//! Pieces of lines: a text, a number, a name.
#![tactic(auto)]

ghost use Rattle.std.specs.Prelude.{◌≡◌, ◌++◌, OnOk};
ghost use Rattle.std.specs.Fmt.{decimal};
ghost use Rattle.line_text.specs.Names.{name_text};

use akl_terms::Name;
use std::alloc::AllocError;

/// Adds a text.
pub fn push_text(line: &mut Vec<u8>, text: &str) -> Result<(), AllocError>
    ensures { OnOk result (line.new.items ≡ line.old.items ++ text.now) }
{
    line.extend_from_slice(text.as_bytes())
}

/// Adds a number in base ten.
pub fn push_number(line: &mut Vec<u8>, number: u64) -> Result<(), AllocError>
    ensures { OnOk result (line.new.items ≡ line.old.items ++ decimal number) }
{
    let alloc = *line.allocator();
    let digits = format!(in alloc; "{number}")?;
    push_text(line, digits.as_str())
}

/// Adds a name: its worker, a dot, its number.
pub fn push_name(line: &mut Vec<u8>, name: Name) -> Result<(), AllocError>
    ensures { OnOk result (line.new.items ≡ line.old.items ++ name_text name) }
{
    push_number(line, name.worker as u64)?;
    push_text(line, ".")?;
    push_number(line, name.number)
}
