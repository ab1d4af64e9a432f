//! The options that have a value.

ghost use Rattle.std.specs.Prelude.{◌≡◌, ◌≤◌, IfSome};
ghost use Rattle.akl_args.specs.Settings.{setting_named, id_of, number_as, most, is_value};

use crate::number::number_in;

/// An option that has a value.
#[derive(Clone, Copy)]
pub enum Setting {
    /// `--query`
    Query,
    /// `--generate`
    Generate,
    /// `--workers`
    Workers,
    /// `--budget`
    Budget,
}

impl Setting {
    /// The name of the option without its two hyphens.
    pub fn id<'a>(self) -> &'a str
        ensures { result.now ≡ id_of self }
    {
        match self {
            Setting::Query => "query",
            Setting::Generate => "generate",
            Setting::Workers => "workers",
            Setting::Budget => "budget",
        }
    }

    /// The number that this text is as the option's value: none where it isn't one of the option's range.
    pub fn number(self, text: &str) -> Option<u64>
        ensures number { result ≡ number_as self text.now }
        ensures range { IfSome result (λ n. n ≤ most self) }
    {
        match self {
            Setting::Query => None,
            Setting::Generate => number_in(0, 4_294_967_295, text),
            Setting::Workers => number_in(1, 16, text),
            Setting::Budget => number_in(1, 4_000_000, text),
        }
    }

    /// Whether this text is a value of the option.
    pub fn is_value(self, text: &str) -> bool
        ensures { result ≡ is_value self text.now }
    {
        match self {
            Setting::Query => !text.is_empty(),
            _ => self.number(text).is_some(),
        }
    }
}

/// The option with a value that has this name.
pub fn setting_named(name: &str) -> Option<Setting>
    ensures { result ≡ setting_named name.now }
{
    match name {
        "--query" => Some(Setting::Query),
        "--generate" => Some(Setting::Generate),
        "--workers" => Some(Setting::Workers),
        "--budget" => Some(Setting::Budget),
        _ => None,
    }
}
