//! The words of a command line.

use crate::case_lines::{Question, each_holds};
use akl_args::{BatchOptions, Job, Options, read_batch_words, read_words};
use std::alloc::{AllocError, Global};
use std::str::from_utf8;

/// The words of a line, which stand between bars.
fn words_of(alloc: Global, line: &[u8]) -> Result<Vec<String>, AllocError> {
    let mut words = Vec::new(alloc);
    for word in from_utf8(line).unwrap_or("no text").split('|') {
        words.push(String::from_str(alloc, word)?)?;
    }
    Ok(words)
}

/// Puts what is to be run, the numbers of workers and of steps, and whether steps are shown, why a run waits, and models.
fn put_options(shown: &mut String, options: &Options) -> Result<(), AllocError> {
    match &options.job {
        Job::Query(text) => write!(shown, " query {}", text.as_str())?,
        Job::Generate(number) => write!(shown, " generate {number}")?,
    }
    let flags = options.flags;
    write!(shown, ", {}, {}", options.workers, options.budget)?;
    write!(shown, ", {} {} {}", flags.trace, flags.why, flags.model)
}

/// Puts what the words of a command ask for, or why they are refused.
fn put_words(alloc: Global, shown: &mut String, words: &[String]) -> Result<(), AllocError> {
    match read_words(alloc, words) {
        Ok(options) => put_options(shown, &options),
        Err(error) => write!(shown, " {error:?}"),
    }
}

/// What do the words of a command ask for, or why are they refused?
struct Words;

impl Question for Words {
    fn answer(&self, alloc: Global, shown: &mut String, text: &[u8]) -> Result<(), AllocError> {
        let words = words_of(alloc, text)?;
        put_words(alloc, shown, &words)
    }
}

/// Puts the queries of a batch, and the numbers of workers and of steps.
fn put_batch_options(shown: &mut String, options: &BatchOptions) -> Result<(), AllocError> {
    write!(shown, " batch {}", options.text.as_str())?;
    write!(shown, ", {}, {}", options.workers, options.budget)
}

/// Puts what the words of a batch ask for, or why they are refused.
fn put_batch_words(alloc: Global, shown: &mut String, words: &[String]) -> Result<(), AllocError> {
    match read_batch_words(alloc, words) {
        Ok(options) => put_batch_options(shown, &options),
        Err(error) => write!(shown, " {error:?}"),
    }
}

/// What do the words of a batch ask for, or why are they refused?
struct BatchWords;

impl Question for BatchWords {
    fn answer(&self, alloc: Global, shown: &mut String, text: &[u8]) -> Result<(), AllocError> {
        let words = words_of(alloc, text)?;
        put_batch_words(alloc, shown, &words)
    }
}

/// Words that are taken: for each the numbers of workers and of steps, and whether steps are shown, why a run waits, and
/// models.
const TAKEN: &str = "words
--query|true => query true, 1, 100000, false false false
--query=true => query true, 1, 100000, false false false
--query=-1 = X => query -1 = X, 1, 100000, false false false
--query==-= => query =-=, 1, 100000, false false false
--query|X = '=' => query X = '=', 1, 100000, false false false
--query|true|--workers=4 => query true, 4, 100000, false false false
--workers|16|--query|true|--budget|1 => query true, 16, 1, false false false
--workers|1|--trace|--budget|4000000|--query|a b => query a b, 1, 4000000, true false false
--trace|--query=true|--workers=0000000002|--budget=0000000300 => query true, 2, 300, true false false
--generate|0 => generate 0, 1, 100000, false false false
--generate=4294967295|--trace => generate 4294967295, 1, 100000, true false false
--budget|0004000000|--generate|0000000097 => generate 97, 1, 4000000, false false false
--query|true|--why => query true, 1, 100000, false true false
--model|--query|true => query true, 1, 100000, false false true
--why|--workers|2|--model|--query=true => query true, 2, 100000, false true true
--model|--generate|7|--trace|--why|--budget|9 => generate 7, 1, 9, true true true
--query=--why => query --why, 1, 100000, false false false
";

/// Words that are refused.
const REFUSED: &str = "words
--query => Missing { at: 0 }
--query|-1 = X => Missing { at: 0 }
--workers|--query|true => Missing { at: 0 }
--trace|--budget|-1|--query|true => Missing { at: 1 }
--query|true|--workers => Missing { at: 2 }
--trace => Missing { at: 1 }
--workers|4|--trace => Missing { at: 3 }
--query|true|--generate => Repeated { at: 2 }
 => Unknown { at: 0 }
query => Unknown { at: 0 }
-q|true => Unknown { at: 0 }
--|--query|true => Unknown { at: 0 }
--Query|true => Unknown { at: 0 }
--queries=true => Unknown { at: 0 }
--trace=x|--query|true => Unknown { at: 0 }
--query|true|--trace=|--workers|0 => Unknown { at: 2 }
--query|true|4|--workers|0 => Unknown { at: 2 }
--query|true|--workers|2|--help => Unknown { at: 4 }
--query|true|--workers|2|=3 => Unknown { at: 4 }
--query| => Value { at: 1 }
--query= => Value { at: 0 }
--workers|0|--query|true => Value { at: 1 }
--workers|17|--query|true => Value { at: 1 }
--workers=17 => Value { at: 0 }
--query|true|--workers|17 => Value { at: 3 }
--query|true|--workers=16x => Value { at: 2 }
--query|true|--workers=+4 => Value { at: 2 }
--query|true|--workers|4 |--trace => Value { at: 3 }
--query|true|--workers|00000000004 => Value { at: 3 }
--budget|0 => Value { at: 1 }
--budget=4000001|--query|true => Value { at: 0 }
--trace|--budget||--query|true => Value { at: 2 }
--generate|4294967296 => Value { at: 1 }
--generate=00000000000 => Value { at: 0 }
--generate|9999999999 => Value { at: 1 }
--trace|--trace|--query|true => Repeated { at: 1 }
--query|a|--query|b => Repeated { at: 2 }
--query|a|--query => Repeated { at: 2 }
--query|a|--query= => Repeated { at: 2 }
--workers|2|--workers|0|--query|a => Repeated { at: 2 }
--query|a|--generate=x => Repeated { at: 2 }
--generate|1|--trace|--query=a => Repeated { at: 3 }
--trace|--workers=2|--budget|5|--workers => Repeated { at: 4 }
--query|true|--budget=5|--trace|--budget=5 => Repeated { at: 4 }
--why => Missing { at: 1 }
--trace|--why|--model => Missing { at: 3 }
--query|--why => Missing { at: 0 }
--workers|--model|--query|true => Missing { at: 0 }
--why=1|--query|true => Unknown { at: 0 }
--query|true|--why= => Unknown { at: 2 }
--query|true|--trace|--model=true => Unknown { at: 3 }
--Why|--query|true => Unknown { at: 0 }
--whys|--query|true => Unknown { at: 0 }
--query|true|--mode => Unknown { at: 2 }
--query|true|model => Unknown { at: 2 }
--why|--why|--query|true => Repeated { at: 1 }
--query|true|--model|--trace|--model => Repeated { at: 4 }
--why|--query|a|--trace|--why|--workers|0 => Repeated { at: 4 }
--model|--query|a|--generate|1|--model => Repeated { at: 3 }
";

/// Words of batches, which have no options without a value.
const BATCHES: &str = "words of a batch
--batch|true => batch true, 1, 100000
--workers=3|--batch=--model => batch --model, 3, 100000
--batch|true|--trace => Unknown { at: 2 }
--batch|true|--why => Unknown { at: 2 }
--batch|true|--model|--budget|5 => Unknown { at: 2 }
--why|--batch|true => Unknown { at: 0 }
--batch|true|--model|--model => Unknown { at: 2 }
--batch|true|--trace=x => Unknown { at: 2 }
--batch|true|--why=|--workers|0 => Unknown { at: 2 }
--batch|true|--batch|true|--why => Repeated { at: 2 }
--batch|--why => Missing { at: 0 }
--batch|true|--workers|--model => Missing { at: 2 }
";

#[test]
fn words_are_taken_or_refused(rt: HostRuntime) -> Result<(), AllocError> {
    each_holds(&rt, rt.alloc(), &Words, TAKEN)?;
    each_holds(&rt, rt.alloc(), &Words, REFUSED)?;
    each_holds(&rt, rt.alloc(), &BatchWords, BATCHES)
}
