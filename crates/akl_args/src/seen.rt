//! The test of the words, which keeps which options came and not their values.

ghost use Rattle.std.specs.Prelude.{◌≡◌, IfErr, None, Some, OnOk, map, string_bytes};
ghost use Rattle.akl_args.specs.Seen.{nothing_seen, is_seen, with_seen, seen_setting, seen_joined, seen_alone, seen_option, seen_value, seen_word, seen_flag, seen_set, refusal_of};

use crate::flag::{Flag, Flags, flag_named};
use crate::options::WordsError;
use crate::setting::{Setting, setting_named};

/// An option whose value must be the next word, and the number of its word.
#[derive(Clone, Copy)]
pub struct Pending {
    pub setting: Setting,
    pub at: usize,
}

/// Which options came, and what must follow.
#[derive(Clone, Copy)]
pub struct Seen {
    pub query: bool,
    pub generate: bool,
    pub workers: bool,
    pub budget: bool,
    pub flags: Flags,
    pub pending: Option<Pending>,
}

impl Seen {
    // What no words show.
    fn nothing() -> Self
        ensures { result ≡ nothing_seen }
    {
        Seen {
            query: false,
            generate: false,
            workers: false,
            budget: false,
            flags: Flags::none(),
            pending: None,
        }
    }

    // What came with the next word, which has the number `at`.
    fn word(self, at: usize, word: &str) -> Result<Self, WordsError>
        ensures { result ≡ seen_word at word.now self }
    {
        match self.pending {
            Some(pending) => self.value(pending, at, word),
            None => self.option(at, word),
        }
    }

    // A word where the value of an option must stand.
    fn value(self, pending: Pending, at: usize, word: &str) -> Result<Self, WordsError>
        ensures { result ≡ seen_value pending at word.now self }
    {
        if word.starts_with('-') {
            return Err(WordsError::Missing { at: pending.at });
        }
        let seen = Seen {
            pending: None,
            ..self
        };
        seen.set(pending.setting, at, word)
    }

    // A word where an option must stand.
    fn option(self, at: usize, word: &str) -> Result<Self, WordsError>
        ensures { result ≡ seen_option at word.now self }
    {
        match word.split_once('=') {
            Some((name, value)) => self.joined(at, name, value),
            None => self.alone(at, word),
        }
    }

    // A word that has a value behind a `=`.
    fn joined(self, at: usize, name: &str, value: &str) -> Result<Self, WordsError>
        ensures { result ≡ seen_joined at name.now value.now self }
    {
        let setting = self.new_setting(at, name)?;
        self.set(setting, at, value)
    }

    // A word that has no `=`.
    fn alone(self, at: usize, word: &str) -> Result<Self, WordsError>
        ensures { result ≡ seen_alone at word.now self }
    {
        if let Some(flag) = flag_named(word) {
            return self.flagged(at, flag);
        }
        let setting = self.new_setting(at, word)?;
        Ok(Seen {
            pending: Some(Pending { setting, at }),
            ..self
        })
    }

    // The option with a value that word `at` names, which is none that can't come any more.
    fn new_setting(self, at: usize, name: &str) -> Result<Setting, WordsError>
        ensures { result ≡ seen_setting at name.now self }
    {
        match setting_named(name) {
            None => Err(WordsError::Unknown { at }),
            Some(setting) if self.is_seen(setting) => Err(WordsError::Repeated { at }),
            Some(setting) => Ok(setting),
        }
    }

    // Whether an option with a value can't come any more.
    fn is_seen(self, setting: Setting) -> bool
        ensures { result ≡ is_seen setting self }
    {
        match setting {
            Setting::Query | Setting::Generate => self.query || self.generate,
            Setting::Workers => self.workers,
            Setting::Budget => self.budget,
        }
    }

    // An option without a value.
    fn flagged(self, at: usize, flag: Flag) -> Result<Self, WordsError>
        ensures { result ≡ seen_flag at flag self }
    {
        if self.flags.has(flag) {
            return Err(WordsError::Repeated { at });
        }
        Ok(Seen {
            flags: self.flags.with(flag),
            ..self
        })
    }

    // An option with its value, which stands in word `at`.
    fn set(self, setting: Setting, at: usize, text: &str) -> Result<Self, WordsError>
        ensures { result ≡ seen_set setting at text.now self }
    {
        if setting.is_value(text) {
            Ok(self.with(setting))
        } else {
            Err(WordsError::Value { at })
        }
    }

    // With an option that came.
    fn with(self, setting: Setting) -> Self
        ensures { result ≡ with_seen setting self }
    {
        match setting {
            Setting::Query => Seen {
                query: true,
                ..self
            },
            Setting::Generate => Seen {
                generate: true,
                ..self
            },
            Setting::Workers => Seen {
                workers: true,
                ..self
            },
            Setting::Budget => Seen {
                budget: true,
                ..self
            },
        }
    }
}

/// Tests the words from left to right. The first that breaks the table of options gives the refusal, and
/// so does an option whose value is missing behind the last word. That nothing is to be run isn't tested.
pub fn test_words(words: &[String]) -> Result<(), WordsError>
    ensures passes { OnOk result (refusal_of (map string_bytes words.now) ≡ None) }
    ensures refuses { IfErr result (λ error. refusal_of (map string_bytes words.now) ≡ Some error) }
{
    let mut seen = Seen::nothing();
    for (at, word) in words.iter().enumerate() {
        seen = seen.word(at, word.as_str())?;
    }
    match seen.pending {
        Some(pending) => Err(WordsError::Missing { at: pending.at }),
        None => Ok(()),
    }
}
