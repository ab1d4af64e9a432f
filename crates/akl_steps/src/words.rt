//! The words by which a run is asked to be shown.

/// The most steps that a run may make, where no word says it.
const BUDGET: u64 = 100_000;

/// The most that a word may say.
const MOST_BUDGET: u64 = 4_000_000;

/// What the words ask for.
#[derive(Clone, Copy)]
pub struct Asked<'a> {
    pub query: &'a str,
    /// How many workers make the run, from 1 to 16.
    pub workers: u32,
    pub budget: u64,
    /// Whether the boxes and goals are shown after each step.
    pub tree: bool,
    /// Whether each step has its line of a trace.
    pub trace: bool,
    /// Whether a suspended run shows what it waits on.
    pub why: bool,
    /// The first step that is shown; 0 is the query before the first.
    pub from: u64,
    /// The last step that is made.
    pub to: u64,
    /// Whether only the last step is shown.
    pub last: bool,
}

// The number that a word is, if it is one.
fn number_of(text: &str) -> Option<u64> {
    if text.len() > 10 || text.starts_with("+") {
        return None;
    }
    text.parse::<u64>().ok()
}

impl<'a> Asked<'a> {
    // What is asked before any word.
    fn nothing() -> Asked<'a> {
        Asked {
            query: "",
            workers: 1,
            budget: BUDGET,
            tree: false,
            trace: false,
            why: false,
            from: 0,
            to: u64::MAX,
            last: false,
        }
    }

    // Takes a word without a value. Answers whether it is one.
    fn take_flag(&mut self, word: &str) -> bool {
        match word {
            "--tree" => self.tree = true,
            "--trace" => self.trace = true,
            "--why" => self.why = true,
            "--last" => self.last = true,
            _ => return false,
        }
        true
    }

    // Takes an option that is a number. Answers whether it is one.
    fn take_number(&mut self, name: &str, number: u64) -> bool {
        match name {
            "--budget" if 1 <= number && number <= MOST_BUDGET => self.budget = number,
            "--workers" if 1 <= number && number <= 16 => self.workers = number as u32,
            "--from" => self.from = number,
            "--to" => self.to = number,
            _ => return false,
        }
        true
    }

    // Takes an option with its value. Answers whether it is one.
    fn take_option(&mut self, name: &str, value: &'a str) -> bool {
        if name == "--query" {
            self.query = value;
            return !value.is_empty();
        }
        match number_of(value) {
            Some(number) => self.take_number(name, number),
            None => false,
        }
    }

    // Takes a word behind the name of an option whose value it is, if one is open; else a flag, an option with its value, or the
    // name of an option, which is open then. Answers whether it is one.
    fn take_word(&mut self, open: &mut Option<&'a str>, word: &'a str) -> bool {
        if let Some(name) = *open {
            *open = None;
            return self.take_option(name, word);
        }
        if let Some((name, value)) = word.split_once("=") {
            return self.take_option(name, value);
        }
        if !self.take_flag(word) {
            *open = Some(word);
        }
        true
    }
}

/// What these words ask for. An `Err` is the number of the word that is refused, from 0; of one that is missing it is behind the
/// last.
pub fn read_words(words: &[String]) -> Result<Asked<'_>, usize> {
    let mut asked = Asked::nothing();
    let mut open: Option<&str> = None;
    let mut at = 0usize;
    for word in words {
        if !asked.take_word(&mut open, word.as_str()) {
            return Err(at);
        }
        at = at.saturating_add(1);
    }
    if open.is_some() || asked.query.is_empty() {
        return Err(at);
    }
    Ok(asked)
}

/// What these options, with spaces between, ask for a query. An `Err` is the number of the option that is refused, from 0; of
/// one that is missing it is behind the last.
pub fn read_options<'a>(options: &'a str, query: &'a str) -> Result<Asked<'a>, usize> {
    let mut asked = Asked::nothing();
    asked.query = query;
    let mut open: Option<&str> = None;
    let mut at = 0usize;
    for word in options.split_whitespace() {
        if !asked.take_word(&mut open, word) {
            return Err(at);
        }
        at = at.saturating_add(1);
    }
    if open.is_some() {
        return Err(at);
    }
    Ok(asked)
}
