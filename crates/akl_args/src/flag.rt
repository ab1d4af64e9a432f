//! The options that have no value.

ghost use Rattle.std.specs.Prelude.{◌≡◌};
ghost use Rattle.akl_args.specs.Flags.{no_flags, has_flag, flags_with, flag_id, flag_named};

/// An option that has no value.
#[derive(Clone, Copy)]
pub enum Flag {
    /// `--trace`
    Trace,
    /// `--why`
    Why,
    /// `--model`
    Model,
}

/// Which options without a value are given.
#[derive(Clone, Copy)]
pub struct Flags {
    /// Whether each step is shown.
    pub trace: bool,
    /// Whether a suspended run shows on what it waits.
    pub why: bool,
    /// Whether a solution is shown behind each answer.
    pub model: bool,
}

impl Flag {
    /// The name of the option without its two hyphens.
    pub fn id<'a>(self) -> &'a str
        ensures { result.now ≡ flag_id self }
    {
        match self {
            Flag::Trace => "trace",
            Flag::Why => "why",
            Flag::Model => "model",
        }
    }
}

impl Flags {
    /// No option is given.
    pub fn none() -> Self
        ensures { result ≡ no_flags }
    {
        Flags {
            trace: false,
            why: false,
            model: false,
        }
    }

    /// Whether this option is given.
    pub(crate) fn has(self, flag: Flag) -> bool
        ensures { result ≡ has_flag flag self }
    {
        match flag {
            Flag::Trace => self.trace,
            Flag::Why => self.why,
            Flag::Model => self.model,
        }
    }

    /// The same with this option.
    pub(crate) fn with(self, flag: Flag) -> Self
        ensures { result ≡ flags_with flag self }
    {
        match flag {
            Flag::Trace => Flags {
                trace: true,
                ..self
            },
            Flag::Why => Flags { why: true, ..self },
            Flag::Model => Flags {
                model: true,
                ..self
            },
        }
    }
}

/// The option without a value that has this name.
pub fn flag_named(name: &str) -> Option<Flag>
    ensures { result ≡ flag_named name.now }
{
    match name {
        "--trace" => Some(Flag::Trace),
        "--why" => Some(Flag::Why),
        "--model" => Some(Flag::Model),
        _ => None,
    }
}
