//! What `akl_steps` says of itself.

/// What a lone `--help` prints.
pub const HELP: &str = "\
Usage: ./akl_steps --query TEXT [--workers N] [--budget N] [--tree] [--trace]
                   [--why] [--from N] [--to N] [--last] < FILE
       ./akl_steps --runs < LIST

Runs the query TEXT over the program in FILE as `akl` does, and shows each step in the words of the
source, then the answers and the outcome. A variable of a clause has its name there, `#` and
a number that tells one use of the clause from another.

With --runs, as the only word, each line of LIST is a run: `FILE OPTIONS: QUERY`, which is made as `akl` makes
it, or shown as here where the line begins with `akl_steps`. Prints each line with what its run prints.

Options:
  --query TEXT  the query
  --workers N   how many workers make the run: 1 to 16, and 1 where none is given
  --budget N    how many steps the run may make: 1 to 4000000, and 100000 where none is given
  --tree        shows the boxes and goals after each step, as an indented tree
  --trace       begins each step with its line of `akl --trace`
  --why         shows what each root box of a suspended run waits on, behind the answers
  --from N      shows the steps from this one on; 0 is the query before the first
  --to N        ends with this step, without the answers
  --last        shows only the last step
  --help        as the only word: prints this text

In a tree each box and goal has its name first, as in a trace. Behind a goal stands which rule can be used
there, or which variables it waits for. Under an alternative `tells` has what it says of variables from
outside, `with` what it says of its own, and `then` the goals of its body.

The exit status is that of `akl`, and 0 where --to ended the run.
";
