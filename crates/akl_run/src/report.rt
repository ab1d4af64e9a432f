//! What the top call answers.

ghost use Rattle.std.specs.Prelude.{◌≡◌};
ghost use Rattle.akl_run.specs.Statuses.{number_of};

use akl_args::WordsError;
use akl_model::{Label, Receipt};
use akl_syntax::SyntaxError;
use clause_checks::LoadError;
use tree_models::TreeModel;

/// What a run came to, or what ended the call before or after it.
#[derive(Clone, Copy)]
pub enum Status {
    /// No rule applies, and each root box is an answer.
    Done,
    /// No rule applies, and there is no root box.
    Failed,
    /// No rule applies, and some root boxes are no answers.
    Suspended,
    /// All steps are spent, and a rule applies.
    Budget,
    /// The words are no command.
    Words,
    /// The program is refused.
    Program,
    /// The query is refused.
    Query,
    /// The source failed.
    ReadFault,
    /// The sink failed.
    WriteFault,
    /// There was no memory.
    NoMemory,
}

impl Status {
    /// The number with which the program ends: 0 to 9, in the order of the variants.
    pub fn number(self) -> u8
        ensures { result ≡ number_of self }
    {
        match self {
            Status::Done => 0,
            Status::Failed => 1,
            Status::Suspended => 2,
            Status::Budget => 3,
            Status::Words => 4,
            Status::Program => 5,
            Status::Query => 6,
            Status::ReadFault => 7,
            Status::WriteFault => 8,
            Status::NoMemory => 9,
        }
    }
}

/// Why a command is refused.
#[derive(Drop)]
pub enum Refusal {
    Nothing,
    /// The words are no command. It is never for want of memory.
    Words(WordsError),
    /// The text of the program or of the query is refused. It is never for want of memory.
    TextOf(SyntaxError),
    /// The program or the query isn't loaded. It is never for want of memory.
    Loading(LoadError),
}

/// What became of a command.
#[derive(Drop)]
pub struct Report {
    pub status: Status,
    pub refusal: Refusal,
    /// The labels that were committed, in order.
    pub journal: Vec<Label>,
    /// For each worker, worker 1 first, its labels with their places in the journal, in order.
    pub receipts: Vec<Vec<Receipt>>,
    /// With `--model`, a solution of each answer that the run has, in order.
    pub models: Vec<TreeModel>,
    /// How many bytes were written.
    pub written: u64,
}

impl Report {
    /// The labels that were committed, in order.
    pub fn into_journal(self) -> Vec<Label>
        ensures { result ≡ self.journal }
    {
        self.journal
    }
}
