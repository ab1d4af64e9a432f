//! Reading the words of a command line.

ghost use Rattle.std.specs.Prelude.{◌≡◌, Ok, IfOk, IfErr, map, string_bytes};
ghost use Rattle.akl_args.specs.Limits.{IsWithinLimits};
ghost use Rattle.akl_args.specs.Table.{reading, IsRefusalOf};

use crate::asked::options_of;
use crate::command::split;
use crate::options::{Options, WordsError};
use crate::seen::test_words;
use std::alloc::{AllocError, Global};

/// What the words of a command line ask for, without the program's name.
///
/// The first word that breaks the table of options gives the refusal, and in one word `Unknown` is
/// tested first, then `Repeated`, then `Missing`, then `Value`; that nothing is to be run is tested
/// last. `Memory` may come at any point.
pub fn read_words(alloc: Global, words: &[String]) -> Result<Options, WordsError>
    ensures options { IfOk result (λ options. reading (map string_bytes words.now) ≡ Ok options) }
    ensures limits { IfOk result IsWithinLimits }
    ensures refusal { IfErr result (IsRefusalOf (reading (map string_bytes words.now))) }
{
    test_words(words)?;
    match split(alloc, words) {
        Ok(matches) => options_of(alloc, &matches, words.len()),
        // Words that passed the test are split, unless memory is wanting.
        Err(_) => Err(WordsError::Memory(AllocError)),
    }
}
