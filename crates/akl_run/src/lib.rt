//! The top call: from the words of a command line and the bytes of a program to the bytes written.
#![tactic(auto)]

mod answers;
mod ending;
mod evaluate;
mod loaded;
mod models;
mod names;
mod output;
mod prepare;
mod refusal;
mod replay;
mod report;
mod run;
mod setting;
mod stop;
mod texts;
mod trace;
mod waits;
mod words;
mod writing;

pub use akl_args::{Flags, WordsError};
pub use clause_checks::{Limit, LoadError};
pub use loaded::{Loaded, load_asked, load_program};
pub use prepare::read_program;
pub use refusal::{fixed_line, push_cause, refusal_line};
pub use replay::Replay;
pub use report::{Refusal, Report, Status};
pub use run::{answer_alone, run_akl};
pub use setting::Setting;
pub use stop::Stop;
pub use texts::{TextQuery, run_texts};
pub use trace::trace_line;
