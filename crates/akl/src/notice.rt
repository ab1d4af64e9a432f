//! What `akl` says of itself.
ghost use Rattle.std.specs.Prelude.{◌≡◌, option_map};
ghost use Rattle.akl_run.specs.Words.{bytes_of};
ghost use Rattle.akl.specs.Notices.{notice_of};

/// What a lone `--help` prints.
pub const HELP: &str = "\
Usage: ./akl --query TEXT [--workers N] [--budget N] [--trace] [--why] [--model] < FILE
       ./akl --generate N [--workers N] [--budget N] [--trace] [--why] [--model]
       ./akl --batch TEXT [--workers N] [--budget N] < FILE

Runs the query TEXT over the program in FILE, and prints the answers and the outcome. The program is
read from standard input, to its end: without `< FILE` akl waits for it there. With --generate both
are made from a number, and standard input isn't read. With --batch, which must be the first word, each
line of TEXT is a query, which is run over the same program on its own, with a budget of its own.

Options:
  --query TEXT  the query; one that begins with `-` is written --query=TEXT
  --generate N  makes a program and a query from N: 0 to 4294967295
  --batch TEXT  1 to 32 queries, a line each
  --workers N   how many workers run it: 1 to 16, and 1 where none is given; of a batch, how many of its
                queries are run at the same time
  --budget N    how many steps the run may make: 1 to 4000000, and 100000 where none is given
  --trace       prints a line for each step before the answers
  --why         prints on which variables the goals of a suspended run wait, behind the answers
  --model       prints behind each answer a table that solves all that it was told
  --help        as the only word: prints this text
  --version     as the only word: prints the version

Examples:
  ./akl --query 'X = f(Y), Y = a' < /dev/null
  echo 'p(a). p(b).' | ./akl --query 'p(X)' --workers 4
  ./akl --batch \"$(cat queries)\" --workers 4 < FILE

Exit status:
   0  done: each root box is an answer, or all queries of a batch have a reply
   1  failed: there is no answer
   2  suspended: some root box waits
   3  budget: all steps were made, and there is more to do
   4  the words are refused
   5  the program is refused
   6  the query is refused
   7  standard input failed, or would block
   8  standard output failed, or would block
   9  out of memory
With 4 to 9 a line on standard error says why.
";

/// What a lone `--version` prints.
pub const VERSION: &str = "akl 0.1.0\n";

/// What a lone `--help` or `--version` prints.
pub fn notice(words: &[String]) -> Option<&'static str>
    ensures { option_map (λ text. text.now) result
        ≡ notice_of HELP.now VERSION.now (bytes_of words.now) }
{
    let [word] = words else {
        return None;
    };
    if word.as_str() == "--help" {
        Some(HELP)
    } else if word.as_str() == "--version" {
        Some(VERSION)
    } else {
        None
    }
}
