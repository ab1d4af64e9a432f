//! Tokens and their kinds.

ghost use Rattle.std.specs.Prelude.{◌≡◌};
ghost use Rattle.akl_text.specs.Kinds.{ends_operand, is_symbol};

/// The kinds of token.
#[derive(Clone, Copy, Debug, PartialEq)]
pub enum Kind {
    /// A lowercase letter, then letters, digits and underscores, but neither `is` nor `mod`.
    Name,
    /// A capital letter or an underscore, then letters, digits and underscores.
    Variable,
    /// Digits, or a sign `-` directly before digits.
    Integer,
    /// Text between single quotes.
    Quoted,
    /// `(` directly after a `Name` or `Quoted` token.
    OpenCall,
    /// `(` elsewhere.
    Open,
    /// `)`
    Close,
    /// `[`
    OpenList,
    /// `]`
    CloseList,
    /// `,`
    Comma,
    /// `|`
    Bar,
    /// `;`
    Semicolon,
    /// `:-`
    Neck,
    /// `->`
    Arrow,
    /// `?`
    Question,
    /// `=`
    Equal,
    /// `<`
    Less,
    /// `>`
    Greater,
    /// `=<`
    AtMost,
    /// `>=`
    AtLeast,
    /// `=:=`
    Same,
    /// `=\=`
    Differs,
    /// `+`
    Plus,
    /// `-`
    Minus,
    /// `*`
    Star,
    /// `//`
    Div,
    /// The word `is`.
    Is,
    /// The word `mod`.
    Mod,
    /// A full stop before a blank, a `%` or the end of the text.
    End,
}

impl Kind {
    /// Whether an operand ends with such a token, so that a `-` after it is a minus.
    pub fn ends_operand(self) -> bool
        ensures { result ≡ ends_operand self }
    {
        matches!(
            &self,
            Kind::Name
                | Kind::Quoted
                | Kind::Variable
                | Kind::Integer
                | Kind::Close
                | Kind::CloseList
        )
    }

    /// Whether such a token writes a symbol.
    pub fn is_symbol(self) -> bool
        ensures { result ≡ is_symbol self }
    {
        matches!(&self, Kind::Name | Kind::Quoted)
    }
}

/// A token of a text, which lies at the bytes from `start` on and before `end`.
#[derive(Clone, Copy)]
pub struct Token {
    pub kind: Kind,
    pub start: usize,
    pub end: usize,
}
