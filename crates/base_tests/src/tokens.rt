//! Tokens and layout.

ghost use Rattle.akl_text.specs.Spelling.{IsTokenOf};

use crate::case_lines::{Question, each_holds};
use akl_text::{Kind, TextError, Token, integer_of, layout_end, text_of, tokens};
use std::alloc::{AllocError, Global};
use std::str::from_utf8;

/// Puts the kind and the spelling of each token.
fn put_listed(shown: &mut String, text: &[u8], found: &[Token]) -> Result<(), AllocError> {
    for token in found {
        let bytes = text.get(token.start..token.end).unwrap_or(&[]);
        let spelling = from_utf8(bytes).unwrap_or("");
        write!(shown, " {:?} {spelling}", token.kind)?;
    }
    Ok(())
}

/// What are the tokens of a text from a place on, or why are there none?
struct Tokens {
    from: usize,
}

impl Question for Tokens {
    fn answer(&self, alloc: Global, shown: &mut String, text: &[u8]) -> Result<(), AllocError> {
        match tokens(alloc, text, self.from.min(text.len())) {
            Ok(found) => put_listed(shown, text, &found),
            Err(TextError::NoToken { at }) => write!(shown, " no token at {at}"),
            Err(TextError::Memory(error)) => Err(error),
        }
    }
}

/// Puts the text or the value of a token.
fn put_token(
    alloc: Global,
    shown: &mut String,
    text: &[u8],
    token: &Token,
) -> Result<(), AllocError>
    requires { IsTokenOf text.now token.now }
{
    match token.kind {
        Kind::Integer => write!(shown, " {:?}", integer_of(text, token)),
        Kind::Name | Kind::Variable | Kind::Quoted => {
            let value = text_of(alloc, text, token)?;
            write!(shown, " \"{}\"", value.as_str())
        }
        _ => shown.push_str(" no value"),
    }
}

/// What are the texts and values of the tokens of a text?
struct Values;

impl Question for Values {
    fn answer(&self, alloc: Global, shown: &mut String, text: &[u8]) -> Result<(), AllocError> {
        if let Ok(found) = tokens(alloc, text, 0) {
            for token in &found {
                put_token(alloc, shown, text, token)?;
            }
        }
        Ok(())
    }
}

/// Where does the layout at the front of a text end?
struct Layout;

impl Question for Layout {
    fn answer(&self, _alloc: Global, shown: &mut String, text: &[u8]) -> Result<(), AllocError> {
        write!(shown, " {}", layout_end(text, 0))
    }
}

/// Every kind; the longest token; a sign, which goes by the token before it; layout; the end token, which is the last;
/// quoted text; and places where nothing begins.
const TOKENS: &str = r"tokens
p1_A(X2,'q r') :- (a;b) => Name p1_A OpenCall ( Variable X2 Comma , Quoted 'q r' Close ) Neck :- Open ( Name a Semicolon ; Name b Close )
_y is -07 mod [Z|2] ? => Variable _y Is is Integer -07 Mod mod OpenList [ Variable Z Bar | Integer 2 CloseList ] Question ?
->=<><=>==:==\= => Arrow -> AtMost =< Greater > Less < Equal = AtLeast >= Same =:= Differs =\=
A+B*2//3. => Variable A Plus + Variable B Star * Integer 2 Div // Integer 3 End .
modx isX 'is' => Name modx Name isX Quoted 'is'
12ab>-1-> => Integer 12 Name ab Greater > Integer -1 Arrow ->
-1 => Integer -1
- 1 => Minus - Integer 1
a -1 => Name a Minus - Integer 1
'a'-1 => Quoted 'a' Minus - Integer 1
A -1 => Variable A Minus - Integer 1
3 -1 => Integer 3 Minus - Integer 1
)-1 => Close ) Minus - Integer 1
]-1 => CloseList ] Minus - Integer 1
(-1 => Open ( Integer -1
[-1 => OpenList [ Integer -1
=-1 => Equal = Integer -1
--1 => Minus - Integer -1
is -1 => Is is Integer -1
mod -1 => Mod mod Integer -1
 =>
 % nothing =>
@9@$@11@@12@@13@ a /* * / @255@ */ ( %@195@( *$b( => Name a Open ( Name b OpenCall (
/***/c/*/ /**/d%($( => Name c Name d Open (
is(mod( => Is is Open ( Mod mod Open (
'a'(A( => Quoted 'a' OpenCall ( Variable A Open (
a.$b. => Name a End .
a.% ' => Name a End .
'' '\n\t\\\'' => Quoted '' Quoted '\n\t\\\''
'it''s''' => Quoted 'it''s'''
'é😀 /* %' => Quoted 'é😀 /* %'
a.b => no token at 1
a./* */ => no token at 1
a /*/ => no token at 2
a /* open * => no token at 2
a: b => no token at 1
a / b => no token at 2
a\=b => no token at 1
! => no token at 0
a é => no token at 2
a 'b => no token at 2
'a''b => no token at 0
x '$' => no token at 2
x '@127@' => no token at 2
x '\a' => no token at 2
x '@255@' => no token at 2
";

/// A clause that is read from byte 2 on.
const LATER: &str = r"tokens from byte 2
a. -1. ' => Integer -1 End .
";

/// Texts and integers, of which some are no signed number of 128 bits.
const VALUES: &str = r#"values
abC_1 => "abC_1"
_ => "_"
'' => ""
'it''s' => "it's"
'it\'s' => "it's"
'a\\b\n\tc' => "a\b$@9@c"
'''' => "'"
'né😀 % /* ' => "né😀 % /* "
-07 => Some(-7)
170141183460469231731687303715884105727 => Some(170141183460469231731687303715884105727)
170141183460469231731687303715884105728 => None
-170141183460469231731687303715884105728 => Some(-170141183460469231731687303715884105728)
-170141183460469231731687303715884105729 => None
"#;

/// Where layout ends and something else begins.
const LAYOUT: &str = r"layout
 @9@$@11@@12@@13@a => 6
% => 1
% a$% => 5
% a$. => 4
% /* a => 6
/**/  => 5
/* % $ @255@ **/ */ => 13
/*/ => 0
/ => 0
@8@ => 0
a  => 0
";

#[test]
fn a_text_is_read_as_its_tokens(rt: HostRuntime) -> Result<(), AllocError> {
    each_holds(&rt, rt.alloc(), &Tokens { from: 0 }, TOKENS)?;
    each_holds(&rt, rt.alloc(), &Tokens { from: 2 }, LATER)?;
    each_holds(&rt, rt.alloc(), &Values, VALUES)?;
    each_holds(&rt, rt.alloc(), &Layout, LAYOUT)
}
